//! Every order in which the callers of a text may come, for C: what `lab orders` prints.
ghost use Rattle.std.specs.Prelude.{◌≡◌, ◌-◌, false, length, map, option_map, slice_get, string_bytes, true, IfOk, IsSomeAnd};
ghost use Rattle.evl_plans.specs.Told as callbacks;
ghost use Rattle.lab_scenario_orders.specs.Reports.{report_text};
ghost use Rattle.evl_c.specs.Forms.{are_plans, handler_of};
ghost use Rattle.evl_c.specs.Orders as orders;
ghost use Rattle.evl_c.specs.Orders.{IsSetTo, IsUnpicked, TellsAsked, TellsGiven, TellsOrders, TellsOutcomes, TellsPossible, TellsText, answer_in, fault_answer, gone_answer, impossible_in, most_given, nothing, numbers_of, outcomes_answer, refuses, scenario_answer, text_answer};

use crate::forms::{PlanForm, are_plans, read_plans};
use crate::given::callers_of;
use crate::order_words::{ask_words, impossible_words};
use crate::verdicts::{first_state, verdict};
use crate::windows::put_window;
use evl_plans::{Planned, copied_bank};
use evl_scenario::Fault;
use lab_orders::{OrdersError, Tally};
use lab_scenario_orders::{
    Ask, Asked as Answered, BankMaker, Callers, Never, TextFault, ask_all, first_impossible,
    leaving, read_ask, read_callers, scenario_of, write_report,
};
use std::alloc::{AllocError, Global};

/// The results of orders (embed/include/evlsim/abi.h: `evlsim_ordered`).
#[repr(C)]
#[derive(Clone, Copy)]
pub struct Ordered {
    /// How many bytes the text has that C gets.
    pub length: usize,
    /// How many orders there are, at most 2^64 - 1.
    pub total: u64,
    /// In how many ways they end.
    pub outcomes: usize,
    /// The number of the first outcome that is against what is asked, from 1; else 0.
    pub against: usize,
    /// The number of the first question about moments against which it is what was found, from 1; else 0.
    pub state: usize,
    /// The orders are those of fewer steps.
    pub steps: usize,
    /// How many answers may never be.
    pub never: usize,
    /// How many questions about moments are asked.
    pub states: usize,
    /// The step at fault, from 1; 0 where no step is.
    pub step: u32,
    /// How many outcomes there are to be; -1 where that isn't asked.
    pub wanted: i32,
    /// 0: what is asked holds, or nothing is. 1: something is against it. 5: longer orders were cut off.
    pub verdict: u8,
    /// The other things asked.
    pub always_ends: bool,
    pub ends_waits: bool,
    pub as_picked: bool,
    /// Whether no longer orders were cut off.
    pub is_whole: bool,
}

// C's view where nothing is gone through.
const NOTHING: Ordered = Ordered {
    length: 0,
    total: 0,
    outcomes: 0,
    against: 0,
    state: 0,
    steps: 0,
    never: 0,
    states: 0,
    step: 0,
    wanted: 0,
    verdict: 0,
    always_ends: false,
    ends_waits: false,
    as_picked: false,
    is_whole: false,
};

/// The text that C gets, what C learns beside it, and the status.
#[derive(Drop)]
pub struct Told {
    pub text: String,
    pub ordered: Ordered,
    pub status: u32,
}

/// All that is asked for: the callbacks, how many moments one number of steps may lead to, and an outcome's scenario,
/// from 1, or the report.
#[derive(Clone, Copy, Drop)]
pub struct Wanted<'a> {
    pub plans: &'a [Planned],
    pub most: usize,
    pub outcome: usize,
}

// Callbacks that are copied for each kernel.
#[derive(Drop)]
struct Copies<'a> {
    plans: &'a [Planned],
}

impl<'a> BankMaker for Copies<'a> {
    ghost use Rattle.std.specs.Prelude.{map};
    ghost use Rattle.evl_plans.specs.Told as callbacks;

    type Made = Planned;

    ghost bank = { λ copies. map callbacks.handler_of copies.plans.now };

    fn make(&self, alloc: Global) -> Result<Vec<Planned>, AllocError> {
        copied_bank(alloc, self.plans)
    }
}

// A refusal: its status, the step at fault, and why, in words.
fn refuse(status: u32, step: u32, words: String) -> Told
    ensures { answer_in result ≡ refuses status step (string_bytes words) }
{
    let length = words.len();
    Told {
        text: words,
        ordered: Ordered {
            length,
            step,
            ..NOTHING
        },
        status,
    }
}

// The refusal for a fault of a scenario. For want of memory there is none: that is this function's own error.
fn refuse_fault(alloc: Global, fault: Fault) -> Result<Told, AllocError>
    ensures { IfOk result (λ told. IsSomeAnd (fault_answer fault) (λ answer. answer_in told ≡ answer)) }
{
    match fault {
        Fault::Text => Ok(refuse(1, 0, String::new(alloc))),
        Fault::Board => Ok(refuse(2, 0, String::new(alloc))),
        Fault::Step(number) => Ok(refuse(3, number, String::new(alloc))),
        Fault::Memory | Fault::Write => Err(AllocError),
    }
}

// The refusal for a fault of a text.
fn refuse_text(alloc: Global, fault: TextFault) -> Result<Told, AllocError>
    ensures { IfOk result (λ told. IsSomeAnd (text_answer fault) (λ answer. answer_in told ≡ answer)) }
{
    match fault {
        TextFault::Scenario(fault) => refuse_fault(alloc, fault),
        TextFault::Mixed => {
            let words = String::from_str(alloc, "a [[setup]] behind a [[step]]")?;
            Ok(refuse(3, 0, words))
        }
        TextFault::Limit => {
            let words = String::from_str(alloc, "more steps than the limit")?;
            Ok(refuse(2, 0, words))
        }
    }
}

// The number of an outcome, from 1, 0 where there is none.
fn number_of(place: Option<usize>) -> usize
    ensures { result ≡ orders.number_of place }
{
    match place {
        Some(place) => place.saturating_add(1),
        None => 0,
    }
}

// How many outcomes there are to be, -1 where that isn't asked.
fn wanted_of(outcomes: Option<u16>) -> i32
    ensures { result ≡ orders.wanted_of outcomes }
{
    match outcomes {
        Some(wanted) => i32::from(wanted),
        None => -1,
    }
}

// The numbers of outcomes, beside a text of this length.
fn numbers_of(ask: &Ask, answered: &Answered, length: usize) -> Ordered
    ensures { result ≡ numbers_of ask.now answered.now.outcomes answered.now.against length }
{
    let found = &answered.outcomes;
    Ordered {
        length,
        total: u64::try_from(found.count).unwrap_or(u64::MAX),
        outcomes: found.all.len(),
        against: number_of(answered.against),
        state: number_of(first_state(ask, found)),
        steps: found.steps,
        never: ask.never.len(),
        states: ask.watches.len(),
        step: 0,
        wanted: wanted_of(ask.outcomes),
        verdict: verdict(ask, found, answered.against),
        always_ends: ask.always_ends,
        ends_waits: ask.ends_waits,
        as_picked: ask.as_picked,
        is_whole: found.whole,
    }
}

// C's view of outcomes, beside this text.
fn tell_numbers(ask: &Ask, answered: &Answered, text: String, status: u32) -> Told
    ensures { answer_in result ≡ record { text = string_bytes text; ordered = numbers_of ask.now answered.now.outcomes answered.now.against (length (string_bytes text)); status = status } }
{
    let length = text.len();
    Told {
        text,
        ordered: numbers_of(ask, answered, length),
        status,
    }
}

// The report of outcomes.
fn tell_report(
    alloc: Global,
    callers: &Callers,
    ask: &Ask,
    bank: &Copies<'_>,
    answered: &Answered,
) -> Result<Told, AllocError>
    ensures { IfOk result (λ told. answer_in told ≡ gone_answer ask.now answered.now.outcomes answered.now.against (report_text callers.now ask.now.watches.items answered.now.outcomes)) }
{
    let report = write_report(
        alloc,
        callers,
        bank,
        ask.watches.as_slice(),
        &answered.outcomes,
    )?;
    Ok(tell_numbers(ask, answered, report, 0))
}

// The scenario of an outcome, if there is one.
fn tell_scenario(
    alloc: Global,
    callers: &Callers,
    ask: &Ask,
    bank: &Copies<'_>,
    answered: &Answered,
    outcome: Option<&Tally>,
) -> Result<Told, AllocError>
    ensures { IfOk result (λ told. answer_in told ≡ scenario_answer callers.now ask.now answered.now.outcomes answered.now.against (option_map (λ outcome. outcome.now) outcome.entry)) }
{
    match outcome {
        Some(found) => {
            let scenario = scenario_of(alloc, callers, bank, found.order.as_slice())?;
            Ok(tell_numbers(ask, answered, scenario, 0))
        }
        None => Ok(tell_numbers(ask, answered, String::new(alloc), 7)),
    }
}

// The outcome with this number, from 1.
fn outcome_at(all: &[Tally], number: usize) -> Option<&Tally>
    ensures { option_map (λ outcome. outcome.now) result ≡ slice_get all.now (number - 1) }
{
    all.get(number.saturating_sub(1))
}

// The part of outcomes that is asked for.
fn tell_answered(
    alloc: Global,
    one: usize,
    callers: &Callers,
    ask: &Ask,
    bank: &Copies<'_>,
    answered: &Answered,
) -> Result<Told, AllocError>
    ensures { IfOk result (λ told. answer_in told ≡ outcomes_answer one callers.now ask.now answered.now.outcomes answered.now.against) }
{
    if one == 0 {
        return tell_report(alloc, callers, ask, bank, answered);
    }
    let outcome = outcome_at(answered.outcomes.all.as_slice(), one);
    tell_scenario(alloc, callers, ask, bank, answered, outcome)
}

// Goes through all orders.
fn go_through(
    alloc: Global,
    wanted: Wanted<'_>,
    callers: &Callers,
    ask: &Ask,
) -> Result<Told, AllocError>
    ensures { IfOk result (λ told. TellsOutcomes (map callbacks.handler_of wanted.entry.plans.now) wanted.entry.most wanted.entry.outcome callers.now ask.now (answer_in told)) }
{
    let bank = Copies {
        plans: wanted.plans,
    };
    match ask_all(alloc, callers, &bank, ask, wanted.most) {
        Ok(answered) => tell_answered(alloc, wanted.outcome, callers, ask, &bank, &answered),
        Err(OrdersError::Count) => Ok(refuse(8, 0, String::new(alloc))),
        Err(OrdersError::Memory) => Err(AllocError),
    }
}

// The same callers, of whom no step is made only as threads are picked.
fn unpicked(callers: Callers) -> Callers
    ensures { IsUnpicked callers result }
{
    let mut set = callers;
    set.as_picked = false;
    set
}

// The callers, set to what is asked.
fn set_to(alloc: Global, callers: Callers, ask: &Ask) -> Result<Callers, AllocError>
    ensures { IfOk result (IsSetTo callers ask.now) }
{
    if ask.as_picked {
        leaving(alloc, callers)
    } else {
        Ok(unpicked(callers))
    }
}

// The first answer of `never` that no step of its caller can have.
fn impossible_in<'a>(
    alloc: Global,
    callers: &Callers,
    ask: &'a Ask,
) -> Result<Option<&'a Never>, AllocError>
    ensures { IfOk result (λ found. option_map (λ never. never.now) found ≡ impossible_in callers.now ask.now) }
{
    first_impossible(alloc, callers, ask)
}

// Reports such an answer; where there is none, goes through all orders.
fn tell_found(
    alloc: Global,
    wanted: Wanted<'_>,
    callers: Callers,
    ask: &Ask,
    found: Option<&Never>,
) -> Result<Told, AllocError>
    ensures { IfOk result (λ told. TellsPossible (map callbacks.handler_of wanted.entry.plans.now) wanted.entry.most wanted.entry.outcome callers ask.now (option_map (λ never. never.now) found.entry) (answer_in told)) }
{
    match found {
        None => {
            let set = set_to(alloc, callers, ask)?;
            go_through(alloc, wanted, &set, ask)
        }
        Some(never) => {
            let words = impossible_words(alloc, &callers, never)?;
            Ok(refuse(10, 0, words))
        }
    }
}

// Goes through all orders of callers of whom this is asked.
fn tell_possible(
    alloc: Global,
    wanted: Wanted<'_>,
    callers: Callers,
    ask: &Ask,
) -> Result<Told, AllocError>
    ensures { IfOk result (λ told. TellsPossible (map callbacks.handler_of wanted.entry.plans.now) wanted.entry.most wanted.entry.outcome callers ask.now (impossible_in callers ask.now) (answer_in told)) }
{
    let found = impossible_in(alloc, &callers, ask)?;
    tell_found(alloc, wanted, callers, ask, found)
}

// Answers what is asked of the callers of a text.
fn tell_callers(
    alloc: Global,
    wanted: Wanted<'_>,
    callers: Callers,
    text: &[u8],
) -> Result<Told, AllocError>
    ensures { IfOk result (λ told. TellsAsked (map callbacks.handler_of wanted.entry.plans.now) wanted.entry.most wanted.entry.outcome callers text.now (answer_in told)) }
{
    match read_ask(alloc, &callers, text) {
        Ok(ask) => tell_possible(alloc, wanted, callers, &ask),
        Err(fault) => {
            let words = ask_words(alloc, fault)?;
            Ok(refuse(10, 0, words))
        }
    }
}

// Goes through all orders of a text.
fn tell_text(alloc: Global, wanted: Wanted<'_>, text: &[u8]) -> Result<Told, AllocError>
    ensures { IfOk result (λ told. TellsText (map callbacks.handler_of wanted.entry.plans.now) wanted.entry.most wanted.entry.outcome text.now (answer_in told)) }
{
    match read_callers(alloc, text) {
        Ok(callers) => tell_callers(alloc, wanted, callers, text),
        Err(fault) => refuse_text(alloc, fault),
    }
}

// Goes through all orders of the text of callers that a text is taken for.
fn tell_given(alloc: Global, wanted: Wanted<'_>, text: &[u8]) -> Result<Told, AllocError>
    ensures { IfOk result (λ told. TellsGiven (map callbacks.handler_of wanted.entry.plans.now) wanted.entry.most wanted.entry.outcome text.now (answer_in told)) }
{
    match callers_of(alloc, text) {
        Ok(plain) => tell_text(alloc, wanted, plain.as_slice()),
        Err(fault) => refuse_fault(alloc, fault),
    }
}

// How many moments a number of steps may lead to.
fn most_given(most: usize) -> usize
    ensures { result ≡ orders.most_given most }
{
    if most == 0 { 100_000 } else { most }
}

// The same over callbacks with these plans.
fn tell_over(
    alloc: Global,
    plans: &[PlanForm],
    most: usize,
    outcome: usize,
    text: &[u8],
) -> Result<Told, AllocError>
    requires plans { are_plans plans.now ≡ true }
    ensures { IfOk result (λ told. TellsGiven (map handler_of plans.now) most outcome text.now (answer_in told)) }
{
    let read = read_plans(alloc, plans)?;
    let wanted = Wanted {
        plans: read.as_slice(),
        most,
        outcome,
    };
    tell_given(alloc, wanted, text)
}

/// Goes through every order in which the callers of a text may come, over callbacks with these plans, and puts the
/// report, or the scenario of the outcome with a number above 0, from the byte `start` on, into the buffer. It goes no
/// further than where a number of steps leads to more than `most` moments, 100,000 where that is 0.
///
/// 0: done. 4: no memory. 5: bad plan. 7: no such outcome. For the text 1: bad text. 2: bad board. 3: bad step. 8: too
/// many orders. 10: it can't be asked. The buffer has words where `length` isn't 0.
#[unsafe(no_mangle)]
pub extern "C" fn evlsim_c_orders(
    alloc: Global,
    plans: &[PlanForm],
    most: usize,
    outcome: usize,
    text: &[u8],
    start: usize,
    out: &mut [u8],
    ordered: &mut Ordered,
) -> u32
    ensures told { are_plans plans.now ≡ true → TellsOrders (map handler_of plans.now) (most_given most) outcome text.now start out.old out.new ordered.new result }
    ensures plans { are_plans plans.now ≡ false → (result ≡ 5) × (out.new ≡ out.old) × (ordered.new ≡ nothing) }
{
    *ordered = NOTHING;
    if !are_plans(plans) {
        return 5;
    }
    let Ok(told) = tell_over(alloc, plans, most_given(most), outcome, text) else {
        return 4;
    };
    put_window(told.text.as_bytes(), start, out);
    *ordered = told.ordered;
    told.status
}
