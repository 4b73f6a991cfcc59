//! An order of atomic steps, reported as the calls of callers are: a line for each turn, with the word after it.
ghost use Rattle.std.specs.Prelude.{◌≡◌, ◌++◌, IfOk, OnOk, string_bytes};
ghost use Rattle.lab_step_orders.specs.Moments.{IsMoment, seen_of};
ghost use Rattle.lab_step_texts.specs.Lines as lines;
ghost use Rattle.lab_step_texts.specs.Lines.{called_text, doing_text, front_text, lines_text, made_text, open_text, order_lines, said_text, step_text, turn_line};

use crate::shown::show_turn;
use lab_step_orders::{
    CoreChange, Crew, Moment, MutexStep, Then, Turn, Visit, WordStep, call_made, first_moment,
    gate_word, moment_after, turn_of,
};
use std::alloc::{AllocError, Global};

// The word of a step on a mutex: a wait ends by a finish.
fn mutex_word(step: MutexStep) -> &'static str
    ensures { result.now ≡ lines.mutex_word step }
{
    match step {
        MutexStep::Try => "try",
        MutexStep::Unlock => "unlock",
        MutexStep::Win | MutexStep::Mark => "claim",
        MutexStep::Offer(_, _) => "offer",
        MutexStep::Free => "free",
        MutexStep::Accept | MutexStep::Forget => "finish",
    }
}

// Writes a step, and the word at which it is.
fn put_made(text: &mut String, step: WordStep) -> Result<(), AllocError>
    ensures { OnOk result (string_bytes text.new ≡ string_bytes text.old ++ made_text step) }
{
    match step {
        WordStep::AtGate(stax, step) => {
            let word = gate_word(step);
            let number = stax.0;
            write!(text, "{word} stax={number}")
        }
        WordStep::AtMutex(mutex, step) => {
            let word = mutex_word(step);
            let number = mutex.0;
            write!(text, "{word} mutex={number}")
        }
    }
}

// Writes the call that the kernel gets, or that a call is refused.
fn put_called(
    alloc: Global,
    text: &mut String,
    crew: &Crew,
    visit: Option<Visit>,
) -> Result<(), AllocError>
    ensures { OnOk result (string_bytes text.new ≡ string_bytes text.old ++ called_text crew.now visit) }
{
    match visit {
        Some(visit) => {
            let call = call_made(alloc, crew, visit)?;
            write!(text, "{call}")
        }
        None => text.push_str("refused"),
    }
}

// Writes the step of a turn, or else its call.
fn put_step(alloc: Global, text: &mut String, crew: &Crew, turn: Turn) -> Result<(), AllocError>
    ensures { OnOk result (string_bytes text.new ≡ string_bytes text.old ++ step_text crew.now turn.step turn.visit) }
{
    match turn.step {
        Some(step) => put_made(text, step),
        None => put_called(alloc, text, crew, turn.visit),
    }
}

// Writes what a turn does.
fn put_doing(alloc: Global, text: &mut String, crew: &Crew, turn: Turn) -> Result<(), AllocError>
    ensures { OnOk result (string_bytes text.new ≡ string_bytes text.old ++ doing_text crew.now turn.core turn) }
{
    match turn.core {
        CoreChange::Takes => text.push_str("take"),
        CoreChange::Gives => {
            if turn.visit.is_some() {
                put_step(alloc, text, crew, turn)
            } else {
                text.push_str("give")
            }
        }
        CoreChange::Ends | CoreChange::Same => put_step(alloc, text, crew, turn),
    }
}

// The words for a turn that answers no call.
fn open_text(change: CoreChange) -> &'static str
    ensures { result.now ≡ open_text change }
{
    match change {
        CoreChange::Gives => "done",
        CoreChange::Takes | CoreChange::Ends | CoreChange::Same => "goes on",
    }
}

// Writes what a turn's call is answered.
fn put_said(text: &mut String, turn: Turn) -> Result<(), AllocError>
    ensures { OnOk result (string_bytes text.new ≡ string_bytes text.old ++ said_text turn.core turn.then) }
{
    match turn.then {
        Then::Stands(_) => text.push_str(open_text(turn.core)),
        Then::Answers(answer) => write!(text, "{answer}"),
    }
}

// Writes the front part of a turn's line.
fn put_front(
    alloc: Global,
    text: &mut String,
    crew: &Crew,
    number: usize,
    caller: u16,
    turn: Turn,
) -> Result<(), AllocError>
    ensures { OnOk result (string_bytes text.new ≡ string_bytes text.old ++ front_text crew.now number caller turn) }
{
    write!(text, "{number} T{caller} ")?;
    put_doing(alloc, text, crew, turn)?;
    text.push_str(" -> ")?;
    put_said(text, turn)
}

// Writes the line of a turn, after which the words stand so.
fn put_line(
    alloc: Global,
    text: &mut String,
    crew: &Crew,
    number: usize,
    caller: u16,
    turn: Turn,
    behind: &Moment,
) -> Result<(), AllocError>
    ensures { OnOk result (string_bytes text.new ≡ string_bytes text.old ++ turn_line crew.now number caller turn (seen_of crew.now behind.now)) }
{
    put_front(alloc, text, crew, number, caller, turn)?;
    show_turn(text, behind, turn)?;
    text.push_str("\n")
}

// Writes the lines of an order from a moment on.
fn put_lines(
    alloc: Global,
    text: &mut String,
    crew: &Crew,
    start: Moment,
    order: &[u16],
) -> Result<(), AllocError>
    requires { IsMoment crew.now start }
    ensures { OnOk result (string_bytes text.new ≡ string_bytes text.old ++ lines_text crew.now 1 (seen_of crew.now start) order.now) }
{
    let mut at = start;
    for (i, caller) in order.iter().enumerate() {
        let Some(turn) = turn_of(alloc, crew, &at, *caller)? else {
            return Ok(());
        };
        let next = moment_after(alloc, crew, &at, *caller, turn)?;
        put_line(alloc, text, crew, i + 1, *caller, turn, &next)?;
        at = next;
    }
    Ok(())
}

/// The lines of an order of atomic steps, from the first moment on: of each turn its number from 1, its thread, the step,
/// what the call is answered, and how the word is after it that it changes, as `lab callers` shows it. It ends where
/// the next of these callers makes no turn. `AllocError` where memory couldn't grow.
pub fn write_order_lines(alloc: Global, crew: &Crew, order: &[u16]) -> Result<String, AllocError>
    ensures { IfOk result (λ text. string_bytes text ≡ order_lines crew.now order.now) }
{
    let mut text = String::new(alloc);
    let start = first_moment(alloc, crew)?;
    put_lines(alloc, &mut text, crew, start, order)?;
    Ok(text)
}
