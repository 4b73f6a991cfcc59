//! The outcomes of all orders.
ghost use Rattle.std.specs.Prelude.{ℕ, List, ◌≡◌, ◌+◌, ◌*◌, ◌<◌, ◌≤◌, ◌⊎◌, [], true, false, IfErr, IfOk, OnOk, length, string_bytes, sum_by};
ghost use Rattle.evl_kernel.specs.state.States.{Handler};
ghost use Rattle.lab_orders.specs.Firsts.{AreFirsts};
ghost use Rattle.lab_orders.specs.Fronts.{AreLed, AreOver, AreShortest, IsGone};
ghost use Rattle.lab_orders.specs.Machines.{orders, runs};
ghost use Rattle.lab_orders.specs.Tallies.{AreDistinct, told_weight};
ghost use Rattle.lab_orders.specs.Weights.{count_limit, total, weight};
ghost use Rattle.lab_scenario_orders.specs.Asks.{is_stuck_line, some_line};
ghost use Rattle.lab_scenario_orders.specs.Callers.{Seen, state_begun, first_seen, machine};
ghost use Rattle.lab_scenario_orders.specs.Firsts.{LeadThere, LeadsTo};
ghost use Rattle.lab_scenario_orders.specs.Moments.{IsNoted, seen_at, trailed};
ghost use Rattle.lab_scenario_orders.specs.Outcomes.{AreOutcomes, AreRisen, AreRising, CanNotTell};
ghost use Rattle.lab_scenario_orders.specs.Told.{told_text};
ghost use Rattle.lab_scenario_orders.specs.Watches.{is_noted_at};

use crate::asks::tells_stuck;
use crate::banks::BankMaker;
use crate::callers::Callers;
use crate::kernels::{held_of, keep_room, leave, led};
use crate::moments::{Moment, first_moment};
use crate::told::told_of;
use crate::watches::{Watch, noted};
use crate::worlds::Driven;
use evl_kernel::KernelOf;
use lab_orders::{Explored, First, Node, OrdersError, Tally, add_tally, explore};
use std::alloc::{AllocError, Global};

/// The outcomes of the orders of callers, each once, those of the shortest orders first.
#[derive(Drop)]
pub struct Outcomes {
    /// The report of each: lines of the callers that wait, which begin with `stuck: ` where they have a step more;
    /// what each caller was answered; and what there is at the end. How many orders end so, and the first of them that
    /// was found.
    pub all: Vec<Tally>,
    /// For each question about moments the first order that leads to one as it looks for.
    pub firsts: Vec<First>,
    /// How many orders there are.
    pub count: u128,
    /// How many steps were gone through: the orders are those of fewer.
    pub steps: usize,
    /// How many moments were gone through.
    pub moments: usize,
    /// Whether nothing was cut off.
    pub whole: bool,
}

// The report of a moment, with the kernel as it is there.
fn told_by<B: BankMaker>(
    alloc: Global,
    kernel: &KernelOf<B::Made, Global>,
    callers: &Callers,
    bank: &B,
    moment: &Moment,
) -> Result<String, AllocError>
    requires state { kernel.now.history.state ≡ trailed callers.now (state_begun callers.now (B.bank bank.now)) moment.now.trail.items }
    ensures { IfOk result (λ told. string_bytes told ≡ told_text callers.now (seen_at callers.now (B.bank bank.now) moment.now)) }
{
    told_of(alloc, kernel, callers, moment)
}

/// The report of a moment, where it is an end. `AllocError` where memory couldn't grow.
pub(crate) fn told_there<B: BankMaker>(
    alloc: Global,
    callers: &Callers,
    bank: &B,
    moment: &Moment,
) -> Result<String, AllocError>
    ensures { IfOk result (λ told. string_bytes told ≡ told_text callers.now (seen_at callers.now (B.bank bank.now) moment.now)) }
{
    match led(alloc, callers, bank, moment.trail.as_slice()) {
        Ok(kernel) => {
            let told = told_by(alloc, &kernel, callers, bank, moment);
            leave(kernel);
            told
        }
        Err(error) => Err(error),
    }
}

// An end as an outcome.
fn tally_of<B: BankMaker>(
    alloc: Global,
    callers: &Callers,
    bank: &B,
    end: Node<Moment>,
) -> Result<Tally, AllocError>
    ensures told { IfOk result (λ tally. string_bytes tally.told ≡ told_text callers.now (seen_at callers.now (B.bank bank.now) end.at)) }
    ensures count { IfOk result (λ tally. tally.count ≡ end.count) }
    ensures order { IfOk result (λ tally. tally.order.items ≡ end.order.items) }
{
    match told_there(alloc, callers, bank, &end.at) {
        Ok(told) => Ok(Tally {
            told,
            count: end.count,
            order: end.order,
        }),
        Err(error) => Err(error),
    }
}

// Puts an end to the outcomes.
fn put_end<B: BankMaker>(
    alloc: Global,
    callers: &Callers,
    bank: &B,
    all: &mut Vec<Tally>,
    end: Node<Moment>,
) -> Result<(), OrdersError>
    requires { AreDistinct all.old.items }
    ensures sums { OnOk result ((f : List ℕ → ℕ) → told_weight f all.new.items ≡ told_weight f all.old.items + end.count * f (told_text callers.now (seen_at callers.now (B.bank bank.now) end.at))) }
    ensures distinct { OnOk result (AreDistinct all.new.items) }
    ensures rise { OnOk result ((k : ℕ) → AreRisen k all.old.items → k ≤ length end.order.items → AreRisen (length end.order.items) all.new.items) }
    ensures lead { OnOk result ((s : Seen) → LeadThere callers.now s all.old.items → LeadsTo callers.now s (told_text callers.now (seen_at callers.now (B.bank bank.now) end.at)) end.order.items → LeadThere callers.now s all.new.items) }
    ensures uncounted { IfErr result (λ error. error ≡ OrdersError.Count → count_limit ≤ told_weight (λ text. 1) all.old.items + end.count) }
{
    match tally_of(alloc, callers, bank, end) {
        Ok(tally) => match add_tally(all, tally) {
            Ok(()) => Ok(()),
            Err(error) => Err(error),
        },
        Err(_) => Err(OrdersError::Memory),
    }
}

// How many orders lead to these ends.
fn count_of(ends: &[Node<Moment>]) -> Result<u128, OrdersError>
    ensures sum { IfOk result (λ count. count ≡ sum_by (λ end. end.count) ends.now) }
    ensures uncounted { IfErr result (λ error. count_limit ≤ sum_by (λ end. end.count) ends.now) }
{
    let mut count: u128 = 0;
    for end in ends {
        match count.checked_add(end.count) {
            Some(sum) => count = sum,
            None => return Err(OrdersError::Count),
        }
    }
    Ok(count)
}

// The outcomes at all ends.
fn outcomes_at<B: BankMaker>(
    alloc: Global,
    callers: &Callers,
    bank: &B,
    ends: Vec<Node<Moment>>,
) -> Result<Vec<Tally>, OrdersError>
    requires led { AreLed (machine callers.now) (seen_at callers.now (B.bank bank.now)) (first_seen callers.now (B.bank bank.now)) ends.items }
    requires over { AreOver (machine callers.now) (seen_at callers.now (B.bank bank.now)) ends.items }
    requires shortest { (k : ℕ) × AreShortest k ends.items }
    ensures sums { IfOk result (λ all. (f : List ℕ → ℕ) → told_weight f all.items ≡ weight (seen_at callers.now (B.bank bank.now)) (λ seen. f (told_text callers.now seen)) ends.items) }
    ensures distinct { IfOk result (λ all. AreDistinct all.items) }
    ensures lead { IfOk result (λ all. LeadThere callers.now (first_seen callers.now (B.bank bank.now)) all.items) }
    ensures rise { IfOk result (λ all. AreRising all.items) }
    ensures uncounted { IfErr result (λ error. error ≡ OrdersError.Count → count_limit ≤ weight (seen_at callers.now (B.bank bank.now)) (λ seen. 1) ends.items) }
{
    let mut all = Vec::new(alloc);
    for end in ends {
        match put_end(alloc, callers, bank, &mut all, end) {
            Ok(()) => {}
            Err(error) => return Err(error),
        }
    }
    Ok(all)
}

// The moment before the first caller's step, with what is noted of a kernel that is there.
fn start_at<C>(
    alloc: Global,
    kernel: &KernelOf<C, Global>,
    callers: &Callers,
    watches: &[Watch],
) -> Result<Moment, AllocError>
    ensures start { IfOk result (λ start. (bank : List Handler) → seen_at callers.now bank start ≡ first_seen callers.now bank) }
    ensures noted { IfOk result (λ start. (bank : List Handler) → kernel.now.history.state ≡ state_begun callers.now bank → IsNoted callers.now bank watches.now start) }
{
    let held = match held_of(alloc, kernel, callers) {
        Ok(held) => held,
        Err(error) => return Err(error),
    };
    match noted(alloc, kernel, watches) {
        Ok(noted) => first_moment(alloc, callers, noted, held),
        Err(error) => Err(error),
    }
}

/// The moment before the first caller's step. `AllocError` where memory couldn't grow.
pub(crate) fn start_of<B: BankMaker>(
    alloc: Global,
    callers: &Callers,
    bank: &B,
    watches: &[Watch],
) -> Result<Moment, AllocError>
    ensures start { IfOk result (λ start. seen_at callers.now (B.bank bank.now) start ≡ first_seen callers.now (B.bank bank.now)) }
    ensures noted { IfOk result (IsNoted callers.now (B.bank bank.now) watches.now) }
{
    keep_room(alloc);
    match led(alloc, callers, bank, &[]) {
        Ok(kernel) => {
            let start = start_at(alloc, &kernel, callers, watches);
            leave(kernel);
            start
        }
        Err(error) => Err(error),
    }
}

// The ends of all orders.
fn ends_of<B: BankMaker>(
    alloc: Global,
    callers: &Callers,
    bank: &B,
    watches: &[Watch],
    most: usize,
) -> Result<Explored<Moment>, OrdersError>
    ensures counted { IfOk result (λ found. (f : Seen → ℕ) → weight (seen_at callers.now (B.bank bank.now)) f found.ends.items
        ≡ total f (orders (machine callers.now) (first_seen callers.now (B.bank bank.now)) found.steps)) }
    ensures whole { IfOk result (λ found. found.whole ≡ true → runs (machine callers.now) (first_seen callers.now (B.bank bank.now)) found.steps ≡ []) }
    ensures cut { IfOk result (λ found. found.whole ≡ false → (length callers.now.steps.items < found.steps)
        ⊎ (most < length (runs (machine callers.now) (first_seen callers.now (B.bank bank.now)) found.steps))) }
    ensures led { IfOk result (λ found. AreLed (machine callers.now) (seen_at callers.now (B.bank bank.now)) (first_seen callers.now (B.bank bank.now)) found.ends.items) }
    ensures over { IfOk result (λ found. AreOver (machine callers.now) (seen_at callers.now (B.bank bank.now)) found.ends.items) }
    ensures asked { IfOk result (λ found. found.steps ≤ length callers.now.steps.items + 1) }
    ensures gone { IfOk result (λ found. IsGone (machine callers.now) (seen_at callers.now (B.bank bank.now)) (first_seen callers.now (B.bank bank.now)) most found.steps found.moments) }
    ensures more { IfOk result (λ found. found.whole ≡ false → 0 < length (runs (machine callers.now) (first_seen callers.now (B.bank bank.now)) found.steps)) }
    ensures shortest { IfOk result (λ found. AreShortest found.steps found.ends.items) }
    ensures firsts { IfOk result (λ found. AreFirsts (machine callers.now) (first_seen callers.now (B.bank bank.now)) (λ n seen. is_noted_at watches.now n seen.state) found.steps 0 found.firsts.items) }
    ensures watched { IfOk result (λ found. length found.firsts.items ≡ length watches.now) }
    ensures uncounted { IfErr result (CanNotTell callers.now (B.bank bank.now)) }
{
    let start = match start_of(alloc, callers, bank, watches) {
        Ok(start) => start,
        Err(_) => return Err(OrdersError::Memory),
    };
    let steps = callers.steps.len().saturating_add(1);
    let driven = Driven {
        alloc,
        callers,
        bank,
        watches,
    };
    explore(alloc, &driven, start, steps, most)
}

/// The outcomes of all orders of the callers over a bank, and what is asked of each moment. It goes no further than where a number of steps leads to more
/// than `most` moments, and says then that it isn't whole. `Memory` where memory couldn't grow, `Count` where more
/// orders lead to one state than a count can hold.
pub fn outcomes_of<B: BankMaker>(
    alloc: Global,
    callers: &Callers,
    bank: &B,
    watches: &[Watch],
    most: usize,
) -> Result<Outcomes, OrdersError>
    ensures outcomes { IfOk result (AreOutcomes callers.now (B.bank bank.now) watches.now most) }
    ensures uncounted { IfErr result (CanNotTell callers.now (B.bank bank.now)) }
{
    let Explored {
        ends,
        firsts,
        steps,
        moments,
        whole,
    } = match ends_of(alloc, callers, bank, watches, most) {
        Ok(found) => found,
        Err(error) => return Err(error),
    };
    let count = match count_of(ends.as_slice()) {
        Ok(count) => count,
        Err(error) => return Err(error),
    };
    match outcomes_at(alloc, callers, bank, ends) {
        Ok(all) => Ok(Outcomes {
            all,
            firsts,
            count,
            steps,
            moments,
            whole,
        }),
        Err(error) => Err(error),
    }
}

/// Whether somebody can't go on where just this is reported of an outcome.
pub fn is_stuck(told: &str) -> bool
    ensures { result ≡ some_line is_stuck_line told.now }
{
    tells_stuck(told.as_bytes())
}
