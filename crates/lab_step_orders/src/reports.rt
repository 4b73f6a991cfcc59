//! The report of all orders, as text.
ghost use Rattle.std.specs.Prelude.{[], ◌≡◌, ◌++◌, ◌<◌, IfOk, IfSome, OnOk, codes, decimal, flat_map, if◌then◌else◌, length, map, string_bytes};
ghost use Rattle.std.specs.Str.Lines.{lines};
ghost use Rattle.lab_step_orders.specs.Moments.{IsMoment, seen_of};
ghost use Rattle.lab_step_orders.specs.Reports as reports;
ghost use Rattle.lab_step_orders.specs.Seen.{next_turn};
ghost use Rattle.lab_step_orders.specs.Reports.{comment, counts_text, number_text, order_text, orders_text, outcome_text, outcomes_text, report_text, turn_text, turns_text};

use crate::crews::Crew;
use crate::going::next_turn;
use crate::moments::{Moment, first_moment, moment_after};
use crate::outcomes::StepOutcomes;
use crate::states::put_states;
use crate::steps::{CoreChange, GateStep, MutexStep, Turn, WordStep};
use lab_orders::Tally;
use std::alloc::{AllocError, Global};

/// The word of a step on a stax.
pub fn gate_word(step: GateStep) -> &'static str
    ensures { result.now ≡ reports.gate_word step }
{
    match step {
        GateStep::Look => "look",
        GateStep::Exchange(_) => "exchange",
        GateStep::Leave => "leave",
        GateStep::Claim => "claim",
        GateStep::Unclaim => "unclaim",
    }
}

// The word of a step on a mutex.
fn mutex_word(step: MutexStep) -> &'static str
    ensures { result.now ≡ reports.mutex_word step }
{
    match step {
        MutexStep::Try => "try",
        MutexStep::Unlock => "unlock",
        MutexStep::Win | MutexStep::Mark => "visit",
        MutexStep::Offer(_, _) | MutexStep::Free => "visit",
        MutexStep::Accept | MutexStep::Forget => "visit",
    }
}

// The word of the step that a caller makes; with none a call is refused.
fn step_word(step: Option<WordStep>) -> &'static str
    ensures { result.now ≡ reports.step_word step }
{
    match step {
        Some(WordStep::AtGate(_, step)) => gate_word(step),
        Some(WordStep::AtMutex(_, step)) => mutex_word(step),
        None => "refused",
    }
}

// The word of a turn.
fn turn_word(turn: Turn) -> &'static str
    ensures { result.now ≡ reports.turn_word turn }
{
    match turn.core {
        CoreChange::Takes => "take",
        CoreChange::Gives => {
            if turn.visit.is_some() {
                "visit"
            } else {
                "give"
            }
        }
        CoreChange::Ends => "visit",
        CoreChange::Same => {
            if turn.visit.is_some() {
                "visit"
            } else {
                step_word(turn.step)
            }
        }
    }
}

// Writes a turn of a caller.
fn put_turn(text: &mut String, mark: &str, caller: u16, turn: Turn) -> Result<(), AllocError>
    ensures { OnOk result (string_bytes text.new ≡ string_bytes text.old ++ turn_text mark.now caller turn) }
{
    let word = turn_word(turn);
    write!(text, "{mark}T{caller} {word}")
}

// The mark that parts a turn from the one before: nothing but a blank comes before the first.
fn mark_at(index: usize) -> &'static str
    ensures { result.now ≡ reports.mark_at index }
{
    if index == 0 { " " } else { ", " }
}

/// The next turn of a caller, if there is one with this number and it makes one. `AllocError` where memory couldn't grow.
pub fn turn_of(
    alloc: Global,
    crew: &Crew,
    moment: &Moment,
    caller: u16,
) -> Result<Option<Turn>, AllocError>
    requires { IsMoment crew.now moment.now }
    ensures turn { IfOk result (λ turn. turn ≡ next_turn crew.now (seen_of crew.now moment.now) caller) }
    ensures within { IfOk result (λ turn. IfSome turn (λ turn. caller < length crew.now.callers.items)) }
{
    if caller < crew.count() {
        next_turn(alloc, crew, moment, caller)
    } else {
        Ok(None)
    }
}

// Writes the turns of an order.
fn put_turns(
    alloc: Global,
    text: &mut String,
    crew: &Crew,
    start: Moment,
    order: &[u16],
) -> Result<(), AllocError>
    requires { IsMoment crew.now start }
    ensures { OnOk result (string_bytes text.new ≡ string_bytes text.old ++ turns_text crew.now 0 (seen_of crew.now start) order.now) }
{
    let mut at = start;
    for (i, caller) in order.iter().enumerate() {
        let Some(turn) = turn_of(alloc, crew, &at, *caller)? else {
            return Ok(());
        };
        put_turn(text, mark_at(i), *caller, turn)?;
        at = moment_after(alloc, crew, &at, *caller, turn)?;
    }
    Ok(())
}

/// Writes an order, from the first moment on.
pub(crate) fn put_order(
    alloc: Global,
    text: &mut String,
    crew: &Crew,
    order: &[u16],
) -> Result<(), AllocError>
    ensures { OnOk result (string_bytes text.new ≡ string_bytes text.old ++ order_text crew.now order.now) }
{
    let start = first_moment(alloc, crew)?;
    text.push_str("# order:")?;
    put_turns(alloc, text, crew, start, order)?;
    text.push_str("\n")
}

// Writes a line as a comment.
fn put_comment(text: &mut String, line: &str) -> Result<(), AllocError>
    ensures { OnOk result (string_bytes text.new ≡ string_bytes text.old ++ comment line.now) }
{
    write!(text, "# {line}\n")
}

// Writes each of these lines as a comment.
fn put_comments(text: &mut String, all: &[&str]) -> Result<(), AllocError>
    ensures { OnOk result (string_bytes text.new ≡ string_bytes text.old ++ flat_map comment (map (λ line. line.now) all.now)) }
{
    for line in all {
        put_comment(text, *line)?;
    }
    Ok(())
}

// The lines of a text, in order.
fn lines_of(alloc: Global, text: &str) -> Result<Vec<&str>, AllocError>
    ensures { IfOk result (λ all. map (λ line. line.now) all.items ≡ lines text.now) }
{
    text.lines().collect(alloc)
}

// Writes each line of a text as a comment.
fn put_told(alloc: Global, text: &mut String, told: &str) -> Result<(), AllocError>
    ensures { OnOk result (string_bytes text.new ≡ string_bytes text.old ++ flat_map comment (lines told.now)) }
{
    let all = lines_of(alloc, told)?;
    put_comments(text, all.as_slice())
}

// A number of orders, outcomes or moments, with its word.
fn put_number(text: &mut String, count: u128, word: &str) -> Result<(), AllocError>
    ensures { OnOk result (string_bytes text.new ≡ string_bytes text.old ++ number_text count word.now) }
{
    write!(text, "{count} {word}")?;
    if count == 1 {
        Ok(())
    } else {
        text.push_str("s")
    }
}

// Writes what is reported of an outcome, and the first order that leads there.
fn put_outcome(
    alloc: Global,
    text: &mut String,
    crew: &Crew,
    number: usize,
    outcome: &Tally,
) -> Result<(), AllocError>
    ensures { OnOk result (string_bytes text.new ≡ string_bytes text.old ++ outcome_text crew.now number outcome.now) }
{
    write!(text, "# outcome {number}: ")?;
    put_number(text, outcome.count, "order")?;
    text.push_str("\n")?;
    put_told(alloc, text, outcome.told.as_str())?;
    put_order(alloc, text, crew, outcome.order.as_slice())
}

// Writes that longer orders were cut off, where they were.
fn put_cut(text: &mut String, is_whole: bool) -> Result<(), AllocError>
    ensures { OnOk result (string_bytes text.new ≡ string_bytes text.old ++ (if is_whole then [] else codes "# cut off: there are longer orders\n")) }
{
    if is_whole {
        Ok(())
    } else {
        text.push_str("# cut off: there are longer orders\n")
    }
}

// Writes how many orders and outcomes there are.
fn put_orders(text: &mut String, found: &StepOutcomes) -> Result<(), AllocError>
    ensures { OnOk result (string_bytes text.new ≡ string_bytes text.old ++ orders_text found.now) }
{
    text.push_str("# ")?;
    put_number(text, found.count, "order")?;
    text.push_str(", ")?;
    put_number(text, found.all.len() as u128, "outcome")
}

// Writes how many there are, and how many moments were gone through.
fn put_counts(text: &mut String, found: &StepOutcomes) -> Result<(), AllocError>
    ensures { OnOk result (string_bytes text.new ≡ string_bytes text.old ++ counts_text found.now) }
{
    put_orders(text, found)?;
    text.push_str(", ")?;
    put_number(text, found.moments as u128, "moment")?;
    text.push_str("\n")?;
    put_cut(text, found.whole)
}

// Writes all outcomes.
fn put_outcomes(
    alloc: Global,
    text: &mut String,
    crew: &Crew,
    outcomes: &[Tally],
) -> Result<(), AllocError>
    ensures { OnOk result (string_bytes text.new ≡ string_bytes text.old ++ outcomes_text crew.now 1 outcomes.now) }
{
    for (i, outcome) in outcomes.iter().enumerate() {
        put_outcome(alloc, text, crew, i + 1, outcome)?;
    }
    Ok(())
}

/// The report of all outcomes: what came of the questions about moments; how many orders lead to each outcome, what is
/// reported of it, and the first of its orders as steps. Each line begins with `# `. `AllocError` where memory couldn't grow.
pub fn write_step_report(
    alloc: Global,
    crew: &Crew,
    found: &StepOutcomes,
) -> Result<String, AllocError>
    ensures { IfOk result (λ text. string_bytes text ≡ report_text crew.now found.now) }
{
    let mut text = String::new(alloc);
    put_counts(&mut text, found)?;
    put_states(alloc, &mut text, crew, found, crew.watches.as_slice())?;
    put_outcomes(alloc, &mut text, crew, found.all.as_slice())?;
    Ok(text)
}
