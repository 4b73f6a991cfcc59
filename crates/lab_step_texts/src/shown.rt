//! The word that a turn changes, as a caller's line shows it.
ghost use Rattle.std.specs.Prelude.{◌≡◌, ◌++◌, OnOk, map, option_map, slice_get, string_bytes};
ghost use Rattle.lab_drawing.specs.Shown.{holders_text, line_showing, owner_text, stage_words};
ghost use Rattle.lab_step_orders.specs.Moments.{shared_of};
ghost use Rattle.lab_step_texts.specs.Shown as shown;
ghost use Rattle.lab_step_texts.specs.Shown.{core_word, line_with, mutex_word, stax_word, step_shown, turn_shown};

use evl_base::{MutexId, Stage, StaxId};
use lab_step_orders::{
    CoreChange, Moment, SharedWord, Taken, Turn, WordStep, count_in, mark_in, number_in, stage_in,
};
use std::alloc::AllocError;

// The words of a stage.
fn stage_words(stage: Stage) -> &'static str
    ensures { result.now ≡ stage_words stage }
{
    match stage {
        Stage::Inband => "in-band",
        Stage::Oob => "out-of-band",
    }
}

// Writes how many are in a stax.
fn put_holders(text: &mut String, count: u16) -> Result<(), AllocError>
    ensures { OnOk result (string_bytes text.new ≡ string_bytes text.old ++ holders_text count) }
{
    write!(text, ", {count}")?;
    if count == 1 {
        text.push_str(" holder")
    } else {
        text.push_str(" holders")
    }
}

// Writes how a stax is.
fn put_stax(text: &mut String, stax: StaxId, word: u64) -> Result<(), AllocError>
    ensures { OnOk result (string_bytes text.new ≡ line_showing (string_bytes text.old) (stax_word stax.0 word)) }
{
    let number = stax.0;
    write!(text, " | stax {number}: ")?;
    let count = count_in(word);
    if count == 0 {
        return text.push_str("free");
    }
    text.push_str(stage_words(stage_in(word)))?;
    put_holders(text, count)
}

// Writes who owns a mutex.
fn put_owner(text: &mut String, number: u64) -> Result<(), AllocError>
    ensures { OnOk result (string_bytes text.new ≡ string_bytes text.old ++ owner_text (shown.owner_in number)) }
{
    if number == 0 {
        return text.push_str("free");
    }
    let owner = number - 1;
    write!(text, "T{owner}")
}

// Writes how a mutex is.
fn put_mutex(text: &mut String, mutex: MutexId, word: u64) -> Result<(), AllocError>
    ensures { OnOk result (string_bytes text.new ≡ line_showing (string_bytes text.old) (mutex_word mutex.0 word)) }
{
    let number = mutex.0;
    write!(text, " | mutex {number}: ")?;
    put_owner(text, number_in(word))?;
    if mark_in(word) {
        text.push_str(", claimed")
    } else {
        Ok(())
    }
}

// Writes who has the core.
fn put_core(text: &mut String, core: Option<Taken>) -> Result<(), AllocError>
    ensures { OnOk result (string_bytes text.new ≡ line_showing (string_bytes text.old) (core_word core)) }
{
    match core {
        Some(taken) => {
            let who = taken.who;
            write!(text, " | core: taken by T{who}")
        }
        None => text.push_str(" | core: free"),
    }
}

// Writes the state of a stax after a line, if it is there.
fn show_stax(text: &mut String, stax: StaxId, gates: &[SharedWord]) -> Result<(), AllocError>
    ensures { OnOk result (string_bytes text.new ≡ line_with (string_bytes text.old) (option_map (λ g. stax_word stax.0 g.word) (slice_get (map shared_of gates.now) stax.0))) }
{
    match gates.get(usize::from(stax.0)) {
        Some(gate) => put_stax(text, stax, gate.word),
        None => Ok(()),
    }
}

// As `show_stax`, of a mutex.
fn show_mutex(text: &mut String, mutex: MutexId, mutexes: &[SharedWord]) -> Result<(), AllocError>
    ensures { OnOk result (string_bytes text.new ≡ line_with (string_bytes text.old) (option_map (λ m. mutex_word mutex.0 m.word) (slice_get (map shared_of mutexes.now) mutex.0))) }
{
    match mutexes.get(usize::from(mutex.0)) {
        Some(one) => put_mutex(text, mutex, one.word),
        None => Ok(()),
    }
}

// Writes the state of the word at which a step is.
fn show_step(text: &mut String, behind: &Moment, step: Option<WordStep>) -> Result<(), AllocError>
    ensures { OnOk result (string_bytes text.new ≡ line_with (string_bytes text.old) (step_shown (map shared_of behind.now.gates.items) (map shared_of behind.now.mutexes.items) step)) }
{
    match step {
        Some(WordStep::AtGate(stax, _)) => show_stax(text, stax, behind.gates.as_slice()),
        Some(WordStep::AtMutex(mutex, _)) => show_mutex(text, mutex, behind.mutexes.as_slice()),
        None => Ok(()),
    }
}

/// Writes after a line the state of the word at this moment that a turn changes, if it changes one.
pub(crate) fn show_turn(text: &mut String, behind: &Moment, turn: Turn) -> Result<(), AllocError>
    ensures { OnOk result (string_bytes text.new ≡ line_with (string_bytes text.old) (turn_shown (map shared_of behind.now.gates.items) (map shared_of behind.now.mutexes.items) behind.now.core turn.core turn.step)) }
{
    match turn.core {
        CoreChange::Takes | CoreChange::Gives => put_core(text, behind.core),
        CoreChange::Ends | CoreChange::Same => show_step(text, behind, turn.step),
    }
}
