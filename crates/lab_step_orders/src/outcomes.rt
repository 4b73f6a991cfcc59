//! The outcomes of all orders of atomic steps.
ghost use Rattle.std.specs.Prelude.{ℕ, List, ◌≡◌, ◌+◌, ◌*◌, ◌<◌, ◌≤◌, ◌⊎◌, [], true, false, IfErr, IfOk, OnOk, length, string_bytes, sum_by};
ghost use Rattle.lab_orders.specs.Firsts.{AreFirsts};
ghost use Rattle.lab_orders.specs.Fronts.{AreLed, AreOver, AreShortest, IsGone};
ghost use Rattle.lab_orders.specs.Machines.{orders, runs};
ghost use Rattle.lab_orders.specs.Tallies.{AreDistinct, told_weight};
ghost use Rattle.lab_orders.specs.Weights.{count_limit, total, weight};
ghost use Rattle.lab_step_orders.specs.Facts.{is_noted_at};
ghost use Rattle.lab_step_orders.specs.Moments.{seen_of};
ghost use Rattle.lab_step_orders.specs.Outcomes.{AreOutcomes, AreRisen, AreRising, CanNotTell, LeadThere, LeadsTo, told_text};
ghost use Rattle.lab_step_orders.specs.Seen.{Seen, first_seen, machine};

use crate::crews::Crew;
use crate::moments::{Moment, first_moment};
use crate::told::told_of;
use crate::worlds::Stepping;
use lab_orders::{Explored, First, Node, OrdersError, Tally, add_tally, explore};
use std::alloc::{AllocError, Global};

/// The outcomes of the orders of callers' steps, each once, those of the shortest orders first.
#[derive(Drop)]
pub struct StepOutcomes {
    /// The report of each: what each caller was answered, and how each stax and each mutex is at the end. How many
    /// orders end so, and the first of them that was found.
    pub all: Vec<Tally>,
    /// For each question about moments the first order that leads to one as it looks for.
    pub firsts: Vec<First>,
    /// How many orders there are.
    pub count: u128,
    /// How many steps were gone through: the orders are those of fewer.
    pub steps: usize,
    /// How many moments were gone through.
    pub moments: usize,
    /// Whether nothing was cut off.
    pub whole: bool,
}

// An end as an outcome.
fn tally_of(alloc: Global, crew: &Crew, end: Node<Moment>) -> Result<Tally, AllocError>
    ensures told { IfOk result (λ tally. string_bytes tally.told ≡ told_text crew.now (seen_of crew.now end.at)) }
    ensures count { IfOk result (λ tally. tally.count ≡ end.count) }
    ensures order { IfOk result (λ tally. tally.order.items ≡ end.order.items) }
{
    match told_of(alloc, crew, &end.at) {
        Ok(told) => Ok(Tally {
            told,
            count: end.count,
            order: end.order,
        }),
        Err(error) => Err(error),
    }
}

// Puts an end to the outcomes.
fn put_end(
    alloc: Global,
    crew: &Crew,
    all: &mut Vec<Tally>,
    end: Node<Moment>,
) -> Result<(), OrdersError>
    requires { AreDistinct all.old.items }
    ensures sums { OnOk result ((f : List ℕ → ℕ) → told_weight f all.new.items ≡ told_weight f all.old.items + end.count * f (told_text crew.now (seen_of crew.now end.at))) }
    ensures distinct { OnOk result (AreDistinct all.new.items) }
    ensures rise { OnOk result ((k : ℕ) → AreRisen k all.old.items → k ≤ length end.order.items → AreRisen (length end.order.items) all.new.items) }
    ensures lead { OnOk result ((s : Seen) → LeadThere crew.now s all.old.items → LeadsTo crew.now s (told_text crew.now (seen_of crew.now end.at)) end.order.items → LeadThere crew.now s all.new.items) }
    ensures uncounted { IfErr result (λ error. error ≡ OrdersError.Count → count_limit ≤ told_weight (λ text. 1) all.old.items + end.count) }
{
    match tally_of(alloc, crew, end) {
        Ok(tally) => match add_tally(all, tally) {
            Ok(()) => Ok(()),
            Err(error) => Err(error),
        },
        Err(_) => Err(OrdersError::Memory),
    }
}

// How many orders lead to these ends.
fn count_of(ends: &[Node<Moment>]) -> Result<u128, OrdersError>
    ensures sum { IfOk result (λ count. count ≡ sum_by (λ end. end.count) ends.now) }
    ensures uncounted { IfErr result (λ error. count_limit ≤ sum_by (λ end. end.count) ends.now) }
{
    let mut count: u128 = 0;
    for end in ends {
        match count.checked_add(end.count) {
            Some(sum) => count = sum,
            None => return Err(OrdersError::Count),
        }
    }
    Ok(count)
}

// The outcomes at all ends.
fn outcomes_at(
    alloc: Global,
    crew: &Crew,
    ends: Vec<Node<Moment>>,
) -> Result<Vec<Tally>, OrdersError>
    requires led { AreLed (machine crew.now) (seen_of crew.now) (first_seen crew.now) ends.items }
    requires over { AreOver (machine crew.now) (seen_of crew.now) ends.items }
    requires shortest { (k : ℕ) × AreShortest k ends.items }
    ensures sums { IfOk result (λ all. (f : List ℕ → ℕ) → told_weight f all.items ≡ weight (seen_of crew.now) (λ s. f (told_text crew.now s)) ends.items) }
    ensures distinct { IfOk result (λ all. AreDistinct all.items) }
    ensures lead { IfOk result (λ all. LeadThere crew.now (first_seen crew.now) all.items) }
    ensures rise { IfOk result (λ all. AreRising all.items) }
    ensures uncounted { IfErr result (λ error. error ≡ OrdersError.Count → count_limit ≤ weight (seen_of crew.now) (λ s. 1) ends.items) }
{
    let mut all = Vec::new(alloc);
    for end in ends {
        match put_end(alloc, crew, &mut all, end) {
            Ok(()) => {}
            Err(error) => return Err(error),
        }
    }
    Ok(all)
}

// The ends of all orders.
fn ends_of(alloc: Global, crew: &Crew, most: usize) -> Result<Explored<Moment>, OrdersError>
    ensures counted { IfOk result (λ found. (f : Seen → ℕ) → weight (seen_of crew.now) f found.ends.items
        ≡ total f (orders (machine crew.now) (first_seen crew.now) found.steps)) }
    ensures whole { IfOk result (λ found. found.whole ≡ true → runs (machine crew.now) (first_seen crew.now) found.steps ≡ []) }
    ensures cut { IfOk result (λ found. found.whole ≡ false → (found.steps ≡ 18446744073709551615)
        ⊎ (most < length (runs (machine crew.now) (first_seen crew.now) found.steps))) }
    ensures led { IfOk result (λ found. AreLed (machine crew.now) (seen_of crew.now) (first_seen crew.now) found.ends.items) }
    ensures over { IfOk result (λ found. AreOver (machine crew.now) (seen_of crew.now) found.ends.items) }
    ensures gone { IfOk result (λ found. IsGone (machine crew.now) (seen_of crew.now) (first_seen crew.now) most found.steps found.moments) }
    ensures more { IfOk result (λ found. found.whole ≡ false → 0 < length (runs (machine crew.now) (first_seen crew.now) found.steps)) }
    ensures shortest { IfOk result (λ found. AreShortest found.steps found.ends.items) }
    ensures firsts { IfOk result (λ found. AreFirsts (machine crew.now) (first_seen crew.now) (is_noted_at crew.now) found.steps 0 found.firsts.items) }
    ensures each { IfOk result (λ found. length found.firsts.items ≡ length crew.now.watches.items) }
    ensures uncounted { IfErr result (CanNotTell crew.now) }
{
    let start = match first_moment(alloc, crew) {
        Ok(start) => start,
        Err(_) => return Err(OrdersError::Memory),
    };
    explore(alloc, &Stepping { alloc, crew }, start, usize::MAX, most)
}

/// The outcomes of all orders of the callers' atomic steps. It goes no further than where a number of steps leads to
/// more than `most` moments, and says then that it isn't whole. `Memory` where memory couldn't grow, `Count` where more
/// orders lead to one state than a count can hold.
pub fn step_outcomes_of(
    alloc: Global,
    crew: &Crew,
    most: usize,
) -> Result<StepOutcomes, OrdersError>
    ensures outcomes { IfOk result (AreOutcomes crew.now most) }
    ensures uncounted { IfErr result (CanNotTell crew.now) }
{
    let Explored {
        ends,
        firsts,
        steps,
        moments,
        whole,
    } = match ends_of(alloc, crew, most) {
        Ok(found) => found,
        Err(error) => return Err(error),
    };
    let count = match count_of(ends.as_slice()) {
        Ok(count) => count,
        Err(error) => return Err(error),
    };
    match outcomes_at(alloc, crew, ends) {
        Ok(all) => Ok(StepOutcomes {
            all,
            firsts,
            count,
            steps,
            moments,
            whole,
        }),
        Err(error) => Err(error),
    }
}
