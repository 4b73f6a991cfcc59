//! All that looks odd in all orders: a step that is refused alike in each, a wait without its end.
ghost use Rattle.std.specs.Prelude.{◌≡◌, ◌++◌, OnOk, find, string_bytes};
ghost use Rattle.evl_base.specs.Refusal.{name_of};
ghost use Rattle.lab_scenario_orders.specs.Asks.{some_line};
ghost use Rattle.lab_scenario_orders.specs.Told.{lines_below};
ghost use Rattle.lab_scenario_orders.specs.Warnings.{has_answer, is_always, is_answer_at, refused_alike, refused_line, refused_lines, refused_text, unended_line, unended_text, waits_after, waits_by, warnings_text};

use crate::callers::{Caller, Callers};
use crate::outcomes::Outcomes;
use crate::searches::{Question, begins, behind, some_line, stands_here};
use evl_base::{Call, Refusal, ThreadId};
use evl_scenario::Step;
use lab_orders::Tally;
use std::alloc::{AllocError, Global};

// Whether the answer with this place in the rest of a line, from 0, is just this one.
fn is_answer_at(answer: &[u8], place: usize, text: &[u8]) -> bool
    ensures { result ≡ is_answer_at answer.now place text.now }
{
    let mut left = place;
    let mut rest = text;
    while let Some((first, next)) = rest.split_first() {
        if *first == b'\n' {
            return false;
        }
        if begins(b" -> ", rest) {
            if left == 0 {
                return stands_here(answer, rest);
            }
            left -= 1;
        }
        rest = next;
    }
    false
}

// Whether a thread has this answer at a place.
#[derive(Drop)]
struct HasAnswer<'a> {
    who: &'a str,
    answer: &'a str,
    place: usize,
}

impl<'a> Question for HasAnswer<'a> {
    ghost use Rattle.lab_scenario_orders.specs.Warnings.{has_answer};

    ghost holds = { λ one text. has_answer one.who.now one.answer.now one.place text };

    fn asks(&self, text: &[u8]) -> bool {
        match behind(self.who.as_bytes(), text) {
            Some(rest) => {
                begins(b" -> ", rest) && is_answer_at(self.answer.as_bytes(), self.place, rest)
            }
            None => false,
        }
    }
}

// Whether it has it in an outcome of which this is reported.
fn has_answer(told: &str, who: &str, answer: &str, place: usize) -> bool
    ensures { result ≡ some_line (has_answer who.now answer.now place) told.now }
{
    let question = HasAnswer { who, answer, place };
    some_line(&question, told.as_bytes())
}

// Whether it has it in each of these outcomes.
fn is_always(outcomes: &[Tally], who: &str, answer: &str, place: usize) -> bool
    ensures { result ≡ is_always outcomes.now who.now answer.now place }
{
    outcomes.iter().all(|outcome| has_answer(outcome.told.as_str(), who, answer, place))
}

// The first of these refusals that it has in each.
fn first_always(outcomes: &[Tally], who: &str, place: usize, all: &[Refusal]) -> Option<Refusal>
    ensures { result ≡ find (λ refusal. is_always outcomes.now who.now (name_of refusal) place) all.now }
{
    for refusal in all {
        if is_always(outcomes, who, refusal.name(), place) {
            return Some(*refusal);
        }
    }
    None
}

// The refusal that a thread is answered at a place in each of these outcomes.
fn refused_alike(outcomes: &[Tally], who: &str, place: usize) -> Option<Refusal>
    ensures { result ≡ refused_alike outcomes.now who.now place }
{
    first_always(
        outcomes,
        who,
        place,
        &[
            Refusal::Unknown,
            Refusal::Invalid,
            Refusal::Again,
            Refusal::Busy,
            Refusal::NotOwner,
            Refusal::Deadlock,
            Refusal::Limit,
            Refusal::Range,
            Refusal::TooBig,
            Refusal::WrongStage,
        ],
    )
}

// Writes that a step of a thread is refused alike, where it is.
fn put_refused(
    text: &mut String,
    outcomes: &[Tally],
    who: &str,
    place: usize,
) -> Result<(), AllocError>
    ensures { OnOk result (string_bytes text.new ≡ string_bytes text.old ++ refused_line outcomes.now who.now place) }
{
    match refused_alike(outcomes, who, place) {
        Some(refusal) => {
            let number = place as u128 + 1;
            let name = refusal.name();
            write!(
                text,
                "# warning: {who}'s step {number} is answered {name} in every order\n"
            )
        }
        None => Ok(()),
    }
}

// Writes which of the first steps of a thread are.
fn put_all_refused(
    text: &mut String,
    outcomes: &[Tally],
    who: &str,
    count: usize,
) -> Result<(), AllocError>
    ensures { OnOk result (string_bytes text.new ≡ string_bytes text.old ++ lines_below (refused_line outcomes.now who.now) count) }
{
    for place in 0..count {
        put_refused(text, outcomes, who, place)?;
    }
    Ok(())
}

// Writes which steps of a caller are.
fn put_refused_of(
    alloc: Global,
    text: &mut String,
    outcomes: &[Tally],
    caller: &Caller,
) -> Result<(), AllocError>
    ensures { OnOk result (string_bytes text.new ≡ string_bytes text.old ++ refused_lines outcomes.now caller.now) }
{
    let number = caller.who.0;
    let who = format!(in alloc; "T{number}")?;
    put_all_refused(text, outcomes, who.as_str(), caller.places.len())
}

// Writes which steps of these callers are.
fn put_refused_text(
    alloc: Global,
    text: &mut String,
    outcomes: &[Tally],
    callers: &[Caller],
) -> Result<(), AllocError>
    ensures { OnOk result (string_bytes text.new ≡ string_bytes text.old ++ refused_text outcomes.now callers.now) }
{
    for caller in callers {
        put_refused_of(alloc, text, outcomes, caller)?;
    }
    Ok(())
}

// Whether a thread has a wait to end after a call of its own, where it had one before or not.
fn waits_by(was: bool, call: &Call) -> bool
    ensures { result ≡ waits_by was call.now }
{
    match call {
        Call::BeginGet { .. } => true,
        Call::BeginTake { .. } => true,
        Call::BeginWrite { .. } => true,
        Call::BeginRead { .. } => true,
        Call::Claim { .. } => true,
        Call::Finish { .. } => false,
        _ => was,
    }
}

// Whether it has one after these steps.
fn waits_after(was: bool, who: ThreadId, steps: &[Step]) -> bool
    ensures { result ≡ waits_after was who.0 steps.now }
{
    let mut waits = was;
    for step in steps {
        if step.who.0 == who.0 {
            waits = waits_by(waits, &step.call);
        }
    }
    waits
}

// Writes that the last wait of a caller has no end, where it has none.
fn put_unended(text: &mut String, callers: &Callers, caller: &Caller) -> Result<(), AllocError>
    ensures { OnOk result (string_bytes text.new ≡ string_bytes text.old ++ unended_line callers.now caller.now) }
{
    let who = caller.who;
    let was = waits_after(false, who, callers.setup.as_slice());
    if waits_after(was, who, callers.steps.as_slice()) {
        let number = who.0;
        write!(
            text,
            "# warning: T{number} has no finish after its last wait\n"
        )
    } else {
        Ok(())
    }
}

// Writes which callers have none.
fn put_unended_text(text: &mut String, callers: &Callers, all: &[Caller]) -> Result<(), AllocError>
    ensures { OnOk result (string_bytes text.new ≡ string_bytes text.old ++ unended_text callers.now all.now) }
{
    for caller in all {
        put_unended(text, callers, caller)?;
    }
    Ok(())
}

/// Writes what looks odd in all orders of callers: where nothing was cut off, the steps that are refused alike in each; and
/// the callers that begin a wait and don't end it.
pub(crate) fn put_warnings(
    alloc: Global,
    text: &mut String,
    callers: &Callers,
    outcomes: &Outcomes,
) -> Result<(), AllocError>
    ensures { OnOk result (string_bytes text.new ≡ string_bytes text.old ++ warnings_text callers.now outcomes.now) }
{
    if outcomes.whole {
        put_refused_text(
            alloc,
            text,
            outcomes.all.as_slice(),
            callers.callers.as_slice(),
        )?;
    }
    put_unended_text(text, callers, callers.callers.as_slice())
}
