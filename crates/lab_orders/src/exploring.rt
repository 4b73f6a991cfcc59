//! All orders of a world.
ghost use Rattle.std.specs.Prelude.{ℕ, [], ◌∷◌, ◌++◌, if◌then◌else◌, ◌≡◌, ◌+◌, ◌<◌, ◌≤◌, ◌⊎◌, ◌||◌, true, false, min, not, is_some, length, vec_len, OnOk, IfOk, IfErr, ◌*◌};
ghost use Rattle.lab_orders.specs.Firsts.{AreFirsts};
ghost use Rattle.lab_orders.specs.Fronts.{AddsSteps, AreApart, AreFit, AreLed, AreOver, AreShortest, GoesApart, IsFront, IsGone, LeadsOn};
ghost use Rattle.lab_orders.specs.Levels.{IsApart};
ghost use Rattle.lab_orders.specs.Machines.{numbers_below, is_over, orders, runs};
ghost use Rattle.lab_orders.specs.Weights.{ahead, ahead_by, count_limit, total, weight};

use crate::firsts::{First, no_firsts, noticed};
use crate::levels::{Level, OrdersError, add_orders, first_level};
use crate::nodes::Node;
use crate::worlds::World;
use std::alloc::{AllocError, Global};

/// The ends of the orders of a world.
#[derive(Drop)]
pub struct Explored<M> {
    /// The moments at which nobody can make a step, those of the shortest orders first.
    pub ends: Vec<Node<M>>,
    /// For each question of the world the first order that leads to a moment at which it holds.
    pub firsts: Vec<First>,
    /// How many steps were gone through: the orders are those of fewer.
    pub steps: usize,
    /// How many moments were gone through.
    pub moments: usize,
    /// Whether no order has as many steps.
    pub whole: bool,
}

// How far a world was gone through: the moments that so many steps lead to, and the ends of the orders of fewer.
#[derive(Drop)]
struct Front<M> {
    level: Level<M>,
    ends: Vec<Node<M>>,
    steps: usize,
    moments: usize,
}

// Adds what a caller's next step leads to from a node. Whether it can make one.
fn add_next<W: World>(
    alloc: Global,
    world: &W,
    node: &Node<W::Moment>,
    next: &mut Level<W::Moment>,
    caller: u16,
) -> Result<bool, OrdersError>
    requires caller { caller < (W.machine world.now).callers }
    requires node { W.fits world.now node.now.at }
    requires count { 0 < node.now.count }
    requires nodes { AreFit (W.fits world.now) next.old.nodes.items }
    ensures uncounted { IfErr result (λ error. error ≡ OrdersError.Count → count_limit ≤ weight (W.state world.now) (λ s. 1) next.old.nodes.items + node.now.count * ahead_by (W.machine world.now) (λ s. 1) (W.state world.now node.now.at) (caller ∷ [])) }
    ensures goes { IfOk result (λ goes. goes ≡ is_some ((W.machine world.now).go (W.state world.now node.now.at) caller)) }
    ensures adds { IfOk result (λ goes. AddsSteps (W.machine world.now) (W.state world.now) (W.fits world.now) node.now (caller ∷ []) next.old.nodes.items next.new.nodes.items) }
    ensures apart { IfOk result (λ goes. W.complete world.now → IsApart (W.state world.now) (W.digest_at world.now) next.old → IsApart (W.state world.now) (W.digest_at world.now) next.new) }
{
    let Ok(reached) = world.step(alloc, &node.at, caller) else {
        return Err(OrdersError::Memory);
    };
    match reached {
        Some(reached) => match add_orders(alloc, world, next, reached, node, caller) {
            Ok(()) => Ok(true),
            Err(error) => Err(error),
        },
        None => Ok(false),
    }
}

// Whether one of two is true.
fn is_either(one: bool, other: bool) -> bool
    ensures { result ≡ (one || other) }
{
    one || other
}

// Adds what each caller's next step leads to from a node. Whether anybody can make one.
fn add_nexts<W: World>(
    alloc: Global,
    world: &W,
    node: &Node<W::Moment>,
    next: &mut Level<W::Moment>,
) -> Result<bool, OrdersError>
    requires node { W.fits world.now node.now.at }
    requires count { 0 < node.now.count }
    requires nodes { AreFit (W.fits world.now) next.old.nodes.items }
    ensures uncounted { IfErr result (λ error. error ≡ OrdersError.Count → count_limit ≤ weight (W.state world.now) (λ s. 1) next.old.nodes.items + node.now.count * ahead (W.machine world.now) (λ s. 1) (W.state world.now node.now.at)) }
    ensures goes { IfOk result (λ goes. goes ≡ not (is_over (W.machine world.now) (W.state world.now node.now.at))) }
    ensures adds { IfOk result (λ goes. AddsSteps (W.machine world.now) (W.state world.now) (W.fits world.now) node.now (numbers_below (W.machine world.now).callers) next.old.nodes.items next.new.nodes.items) }
    ensures apart { IfOk result (λ goes. W.complete world.now → IsApart (W.state world.now) (W.digest_at world.now) next.old → IsApart (W.state world.now) (W.digest_at world.now) next.new) }
{
    let mut goes_on = false;
    let callers = world.callers();
    for caller in 0..callers {
        match add_next(alloc, world, node, next, caller) {
            Ok(goes) => goes_on = is_either(goes_on, goes),
            Err(error) => return Err(error),
        }
    }
    Ok(goes_on)
}

// Puts a node to the ends, unless somebody goes on from there.
fn keep_end<M: Drop>(
    ends: &mut Vec<Node<M>>,
    node: Node<M>,
    goes_on: bool,
) -> Result<(), OrdersError>
    ensures memory { IfErr result (λ error. error ≡ OrdersError.Memory) }
    ensures kept { OnOk result (ends.new.items ≡ (if goes_on then ends.old.items else ends.old.items ++ node ∷ [])) }
{
    if goes_on {
        return Ok(());
    }
    match ends.push(node) {
        Ok(()) => Ok(()),
        Err(_) => Err(OrdersError::Memory),
    }
}

/// The moments that are reached by one step more. Those at which nobody can make one are put to the ends.
pub(crate) fn next_level<W: World>(
    alloc: Global,
    world: &W,
    level: Level<W::Moment>,
    ends: &mut Vec<Node<W::Moment>>,
) -> Result<Level<W::Moment>, OrdersError>
    requires { AreFit (W.fits world.now) level.nodes.items }
    ensures uncounted { IfErr result (λ error. error ≡ OrdersError.Count → count_limit ≤ weight (W.state world.now) (ahead (W.machine world.now) (λ s. 1)) level.nodes.items) }
    ensures leads { IfOk result (λ next. LeadsOn (W.machine world.now) (W.state world.now) (W.fits world.now) level.nodes.items next.nodes.items ends.old.items ends.new.items) }
    ensures apart { IfOk result (λ next. W.complete world.now → AreApart (W.state world.now) next.nodes.items) }
{
    let mut next = Level::new(alloc);
    for node in level.into_nodes() {
        let goes_on = match add_nexts(alloc, world, &node, &mut next) {
            Ok(goes_on) => goes_on,
            Err(error) => return Err(error),
        };
        match keep_end(ends, node, goes_on) {
            Ok(()) => {}
            Err(error) => return Err(error),
        }
    }
    Ok(next)
}

// One moment, no steps.
fn first_front<W: World>(
    alloc: Global,
    world: &W,
    start: W::Moment,
) -> Result<Front<W::Moment>, AllocError>
    requires { W.fits world.now start }
    ensures front { IfOk result (λ front. IsFront (W.machine world.now) (W.state world.now) (W.fits world.now) (W.state world.now start) front.steps front.level.nodes.items front.ends.items) }
    ensures steps { IfOk result (λ front. front.steps ≡ 0) }
    ensures moments { IfOk result (λ front. front.moments ≡ 0) }
    ensures apart { IfOk result (λ front. AreApart (W.state world.now) front.level.nodes.items) }
{
    let level = first_level(alloc, start)?;
    Ok(Front {
        level,
        ends: Vec::new(alloc),
        steps: 0,
        moments: 0,
    })
}

// One step more.
fn next_front<W: World>(
    alloc: Global,
    world: &W,
    front: Front<W::Moment>,
) -> Result<Front<W::Moment>, OrdersError>
    requires fit { AreFit (W.fits world.now) front.level.nodes.items }
    requires steps { front.steps < 18446744073709551615 }
    ensures uncounted { IfErr result (λ error. error ≡ OrdersError.Count → (s : W.State) → IsFront (W.machine world.now) (W.state world.now) (W.fits world.now) s front.steps front.level.nodes.items front.ends.items
        → count_limit ≤ length (runs (W.machine world.now) s (front.steps + 1))) }
    ensures front { IfOk result (λ next. (s : W.State) → IsFront (W.machine world.now) (W.state world.now) (W.fits world.now) s front.steps front.level.nodes.items front.ends.items
        → IsFront (W.machine world.now) (W.state world.now) (W.fits world.now) s next.steps next.level.nodes.items next.ends.items) }
    ensures steps { IfOk result (λ next. next.steps ≡ front.steps + 1) }
    ensures moments { IfOk result (λ next. next.moments ≡ min (front.moments + vec_len front.level.nodes) 18446744073709551615) }
    ensures apart { IfOk result (λ next. W.complete world.now → AreApart (W.state world.now) next.level.nodes.items) }
{
    let Front {
        level,
        mut ends,
        steps,
        moments,
    } = front;
    let gone = moments.saturating_add(level.nodes.len());
    match next_level(alloc, world, level, &mut ends) {
        Ok(next) => Ok(Front {
            level: next,
            ends,
            steps: steps + 1,
            moments: gone,
        }),
        Err(error) => Err(error),
    }
}

// All that was found, as far as it was gone.
fn found<M: Drop>(front: Front<M>, firsts: Vec<First>) -> Explored<M>
    ensures ends { result.ends.items ≡ front.ends.items }
    ensures firsts { result.firsts.items ≡ firsts.items }
    ensures steps { result.steps ≡ front.steps }
    ensures moments { result.moments ≡ front.moments }
    ensures whole { result.whole ≡ true → front.level.nodes.items ≡ [] }
    ensures cut { result.whole ≡ false → 0 < vec_len front.level.nodes }
{
    let Front {
        level,
        ends,
        steps,
        moments,
    } = front;
    let whole = level.nodes.is_empty();
    Explored {
        ends,
        firsts,
        steps,
        moments,
        whole,
    }
}

// rule: No level of more than `most` moments, and none past the number of steps asked for, is continued. Shorter orders
//   come first. `Count` means more orders, or runs of one length, than a count holds.
//   clauses: explore: gone, shortest, uncounted; add_tally
/// Goes through all orders of fewer than `steps` steps from a moment, and no further than where a number of steps leads
/// to more than `most` moments. `Memory` where memory couldn't grow, `Count` where there are more orders of some length
/// than a count can hold.
pub fn explore<W: World>(
    alloc: Global,
    world: &W,
    start: W::Moment,
    steps: usize,
    most: usize,
) -> Result<Explored<W::Moment>, OrdersError>
    requires { W.fits world.now start }

    // Whatever is counted of the states in which orders end: the ends, each as often as its count says, give what all
    // orders give.
    ensures counted { IfOk result (λ found. (f : W.State → ℕ) → weight (W.state world.now) f found.ends.items
        ≡ total f (orders (W.machine world.now) (W.state world.now start) found.steps)) }

    // It goes no further than asked; each step on is made from one moment at least and from no more than `most`, and so
    // many moments are given.
    ensures asked { IfOk result (λ found. found.steps ≤ steps) }
    ensures gone { IfOk result (λ found. IsGone (W.machine world.now) (W.state world.now) (W.state world.now start) most found.steps found.moments) }

    // If each two moments of one state are known as such, no two of one number of steps are at one state.
    ensures apart { IfOk result (λ found. W.complete world.now → GoesApart (W.machine world.now) (W.state world.now) (W.state world.now start) most found.steps found.moments) }

    // If nothing was cut off, no run has as many steps.
    ensures whole { IfOk result (λ found. found.whole ≡ true → runs (W.machine world.now) (W.state world.now start) found.steps ≡ []) }

    // Else it came as far as was asked, or there are more runs of so many steps than `most`.
    ensures cut { IfOk result (λ found. found.whole ≡ false → (found.steps ≡ steps)
        ⊎ (most < length (runs (W.machine world.now) (W.state world.now start) found.steps))) }
    ensures more { IfOk result (λ found. found.whole ≡ false → 0 < length (runs (W.machine world.now) (W.state world.now start) found.steps)) }

    // Each end is where its order leads, and nobody can make a step there; those of the shortest orders stand first.
    ensures led { IfOk result (λ found. AreLed (W.machine world.now) (W.state world.now) (W.state world.now start) found.ends.items) }
    ensures over { IfOk result (λ found. AreOver (W.machine world.now) (W.state world.now) found.ends.items) }
    ensures shortest { IfOk result (λ found. AreShortest found.steps found.ends.items) }

    // For each question there is the first order that leads to a moment at which it holds; if there is none, it holds
    // at no moment of any order that was gone through.
    ensures firsts { IfOk result (λ found. AreFirsts (W.machine world.now) (W.state world.now start) (W.holds world.now) found.steps 0 found.firsts.items) }
    ensures each { IfOk result (λ found. length found.firsts.items ≡ W.asked world.now) }

    // It is `Count` only where some number of steps, no more than asked, has more runs than a count can hold.
    ensures uncounted { IfErr result (λ error. error ≡ OrdersError.Count → (k : ℕ) × (k ≤ steps) × (count_limit ≤ length (runs (W.machine world.now) (W.state world.now start) k))) }
{
    let mut front = match first_front(alloc, world, start) {
        Ok(front) => front,
        Err(_) => return Err(OrdersError::Memory),
    };
    let mut firsts = match no_firsts(alloc, world.questions()) {
        Ok(firsts) => firsts,
        Err(_) => return Err(OrdersError::Memory),
    };
    for _step in 0..steps {
        let count = front.level.nodes.len();
        if count == 0 {
            return Ok(found(front, firsts));
        }
        if count > most {
            return Ok(found(front, firsts));
        }
        firsts = match noticed(alloc, world, firsts, front.level.nodes.as_slice()) {
            Ok(firsts) => firsts,
            Err(_) => return Err(OrdersError::Memory),
        };
        front = match next_front(alloc, world, front) {
            Ok(next) => next,
            Err(error) => return Err(error),
        };
    }
    Ok(found(front, firsts))
}
