//! The result of what is asked alone, without the answers of callers of whom nobody asks.
ghost use Rattle.std.specs.Prelude.{◌≡◌, ◌+◌, ◌*◌, ◌<◌, ◌⊎◌, [], cond, false, IfOk, length, map, string_bytes, sum_by, true, ◌≤◌, IfErr};
ghost use Rattle.std.specs.List.{list_any};
ghost use Rattle.std.specs.Str.{bytes_eq};
ghost use Rattle.lab_orders.specs.Weights.{count_limit, weight};
ghost use Rattle.lab_scenario_orders.specs.AskingAlone.{IsVerdict, asked_of, is_asked_of};
ghost use Rattle.lab_scenario_orders.specs.Asks.{caller_text, is_against};
ghost use Rattle.lab_scenario_orders.specs.Moments.{seen_at};
ghost use Rattle.lab_scenario_orders.specs.Outcomes.{CanNotTell};
ghost use Rattle.lab_scenario_orders.specs.Told.{told_text};

use crate::asking_alone::Alone;
use crate::asks::{Ask, Never, is_against, is_named};
use crate::banks::BankMaker;
use crate::callers::{Caller, Callers};
use crate::moments::Moment;
use crate::outcomes::{start_of, told_there};
use crate::worlds::Driven;
use lab_orders::{Explored, First, Node, OrdersError, explore};
use std::alloc::{AllocError, Global};

/// The result of what is asked.
#[derive(Drop)]
pub struct Verdict {
    /// How many orders there are.
    pub orders: u128,
    /// How many of them end against what is asked.
    pub against: u128,
    /// For each question about moments the first order that leads to one as it looks for.
    pub firsts: Vec<First>,
    /// How many steps were gone through: the orders are those of fewer.
    pub steps: usize,
    /// How many moments were gone through.
    pub moments: usize,
    /// Whether nothing was cut off.
    pub whole: bool,
}

// How many orders end, and how many of them end against what is asked.
#[derive(Clone, Copy, Drop)]
struct Sums {
    orders: u128,
    against: u128,
}

// Whether an answer of a caller is asked for.
fn is_asked_of(alloc: Global, never: &[Never], caller: &Caller) -> Result<bool, AllocError>
    ensures { IfOk result (λ asked. asked ≡ is_asked_of never.now caller.now) }
{
    for one in never {
        if is_named(alloc, one.who.as_str(), caller.who.0)? {
            return Ok(true);
        }
    }
    Ok(false)
}

// For each caller, whether it is.
fn asked_of(alloc: Global, ask: &Ask, callers: &Callers) -> Result<Vec<bool>, AllocError>
    ensures { IfOk result (λ asked. asked.items ≡ asked_of ask.now callers.now) }
{
    let mut asked = Vec::new(alloc);
    for caller in &callers.callers {
        asked.push(is_asked_of(alloc, ask.never.as_slice(), caller)?)?;
    }
    Ok(asked)
}

// Whether an end is against what is asked. `AllocError` where memory couldn't grow.
fn is_end_against<B: BankMaker>(
    alloc: Global,
    callers: &Callers,
    bank: &B,
    ask: &Ask,
    end: &Moment,
) -> Result<bool, AllocError>
    ensures { IfOk result (λ against. against ≡ is_against ask.now (told_text callers.now (seen_at callers.now (B.bank bank.now) end.now))) }
{
    match told_there(alloc, callers, bank, end) {
        Ok(told) => Ok(is_against(ask, told.as_str())),
        Err(error) => Err(error),
    }
}

// A number of steps that no order of callers has.
fn beyond(callers: &Callers) -> usize
    ensures { length callers.now.steps.items < result }
{
    callers.steps.len().saturating_add(1)
}

// With the orders of an end more, which is against what is asked or not.
fn with_orders(sums: Sums, count: u128, is_against: bool) -> Result<Sums, OrdersError>
    requires { sums.against ≤ sums.orders }
    ensures within { IfOk result (λ all. all.against ≤ all.orders) }
    ensures uncounted { IfErr result (λ error. count_limit ≤ sums.orders + count) }
    ensures orders { IfOk result (λ all. all.orders ≡ sums.orders + count) }
    ensures against { IfOk result (λ all. all.against ≡ sums.against + count * cond is_against 1 0) }
{
    let Some(orders) = sums.orders.checked_add(count) else {
        return Err(OrdersError::Count);
    };
    if !is_against {
        return Ok(Sums {
            orders,
            against: sums.against,
        });
    }
    match sums.against.checked_add(count) {
        Some(against) => Ok(Sums { orders, against }),
        None => Err(OrdersError::Count),
    }
}

// With an end more.
fn with_end<B: BankMaker>(
    alloc: Global,
    callers: &Callers,
    bank: &B,
    ask: &Ask,
    sums: Sums,
    end: &Node<Moment>,
) -> Result<Sums, OrdersError>
    requires { sums.against ≤ sums.orders }
    ensures within { IfOk result (λ all. all.against ≤ all.orders) }
    ensures uncounted { IfErr result (λ error. error ≡ OrdersError.Count → count_limit ≤ sums.orders + end.now.count) }
    ensures orders { IfOk result (λ all. all.orders ≡ sums.orders + end.now.count) }
    ensures against { IfOk result (λ all. all.against ≡ sums.against + end.now.count * cond (is_against ask.now (told_text callers.now (seen_at callers.now (B.bank bank.now) end.now.at))) 1 0) }
{
    match is_end_against(alloc, callers, bank, ask, &end.at) {
        Ok(against) => with_orders(sums, end.count, against),
        Err(_) => Err(OrdersError::Memory),
    }
}

// The sums of all ends.
fn sums_of<B: BankMaker>(
    alloc: Global,
    callers: &Callers,
    bank: &B,
    ask: &Ask,
    ends: &[Node<Moment>],
) -> Result<Sums, OrdersError>
    ensures uncounted { IfErr result (λ error. error ≡ OrdersError.Count → count_limit ≤ sum_by (λ end. end.count) ends.now) }
    ensures orders { IfOk result (λ all. all.orders ≡ sum_by (λ end. end.count) ends.now) }
    ensures against { IfOk result (λ all. all.against ≡ weight (seen_at callers.now (B.bank bank.now)) (λ seen. cond (is_against ask.now (told_text callers.now seen)) 1 0) ends.now) }
{
    let mut sums = Sums {
        orders: 0,
        against: 0,
    };
    for end in ends {
        match with_end(alloc, callers, bank, ask, sums, end) {
            Ok(all) => sums = all,
            Err(error) => return Err(error),
        }
    }
    Ok(sums)
}

// All that was found, with the sums of its ends.
fn verdict_of<B: BankMaker>(
    alloc: Global,
    callers: &Callers,
    bank: &B,
    ask: &Ask,
    found: Explored<Moment>,
) -> Result<Verdict, OrdersError>
    ensures orders { IfOk result (λ verdict. verdict.orders ≡ sum_by (λ end. end.count) found.ends.items) }
    ensures against { IfOk result (λ verdict. verdict.against ≡ weight (seen_at callers.now (B.bank bank.now)) (λ seen. cond (is_against ask.now (told_text callers.now seen)) 1 0) found.ends.items) }
    ensures firsts { IfOk result (λ verdict. verdict.firsts ≡ found.firsts) }
    ensures steps { IfOk result (λ verdict. verdict.steps ≡ found.steps) }
    ensures moments { IfOk result (λ verdict. verdict.moments ≡ found.moments) }
    ensures whole { IfOk result (λ verdict. verdict.whole ≡ found.whole) }
    ensures uncounted { IfErr result (λ error. error ≡ OrdersError.Count → count_limit ≤ sum_by (λ end. end.count) found.ends.items) }
{
    let Explored {
        ends,
        firsts,
        steps,
        moments,
        whole,
    } = found;
    match sums_of(alloc, callers, bank, ask, ends.as_slice()) {
        Ok(sums) => Ok(Verdict {
            orders: sums.orders,
            against: sums.against,
            firsts,
            steps,
            moments,
            whole,
        }),
        Err(error) => Err(error),
    }
}

// The same where answers of these callers alone are kept.
fn ask_told<B: BankMaker>(
    alloc: Global,
    callers: &Callers,
    bank: &B,
    ask: &Ask,
    told: &[bool],
    most: usize,
) -> Result<Verdict, OrdersError>
    ensures verdict { IfOk result (IsVerdict callers.now (B.bank bank.now) ask.now most told.now) }
    ensures uncounted { IfErr result (CanNotTell callers.now (B.bank bank.now)) }
{
    let watches = ask.watches.as_slice();
    let start = match start_of(alloc, callers, bank, watches) {
        Ok(start) => start,
        Err(_) => return Err(OrdersError::Memory),
    };
    let driven = Driven {
        alloc,
        callers,
        bank,
        watches,
    };
    let steps = beyond(callers);
    let found = match explore(alloc, &Alone { driven, told }, start, steps, most) {
        Ok(found) => found,
        Err(error) => return Err(error),
    };
    match verdict_of(alloc, callers, bank, ask, found) {
        Ok(verdict) => Ok(verdict),
        Err(error) => Err(error),
    }
}

/// Goes through all orders of callers over a bank for what is asked alone: callers of whom `never` asks no answer are taken
/// as one wherever their answers alone differ, so there are fewer moments. How many outcomes there are isn't reported. It goes
/// no further than where a number of steps leads to more than `most` moments. `Memory` where memory couldn't grow, `Count`
/// where more orders lead to one state than a count can hold.
pub fn ask_alone<B: BankMaker>(
    alloc: Global,
    callers: &Callers,
    bank: &B,
    ask: &Ask,
    most: usize,
) -> Result<Verdict, OrdersError>
    ensures verdict { IfOk result (IsVerdict callers.now (B.bank bank.now) ask.now most (asked_of ask.now callers.now)) }
    ensures uncounted { IfErr result (CanNotTell callers.now (B.bank bank.now)) }
{
    match asked_of(alloc, ask, callers) {
        Ok(told) => ask_told(alloc, callers, bank, ask, told.as_slice(), most),
        Err(_) => Err(OrdersError::Memory),
    }
}
