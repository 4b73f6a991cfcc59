//! Words in words.
ghost use Rattle.std.specs.Prelude.{◌≡◌, ◌++◌, OnOk, Some, string_bytes};
ghost use Rattle.lab_callers.specs.Shown.{claim_text, core_text, holders_text, owner_text, stage_words, stax_text, word_text};
ghost use Rattle.evl_scenario.specs.Lines.{play_lines};

use evl_base::{MutexId, Play, Stage, StaxId, ThreadId};
use evl_machine::InWord;
use evl_scenario::PlayLine;
use std::alloc::AllocError;

// Writes the name of a stage.
fn put_stage(text: &mut String, stage: Stage) -> Result<(), AllocError>
    ensures { OnOk result (string_bytes text.new ≡ string_bytes text.old ++ stage_words stage) }
{
    match stage {
        Stage::Inband => text.push_str("in-band"),
        Stage::Oob => text.push_str("out-of-band"),
    }
}

// Writes how many hold a stax.
fn put_holders(text: &mut String, count: usize) -> Result<(), AllocError>
    ensures { OnOk result (string_bytes text.new ≡ string_bytes text.old ++ holders_text count) }
{
    if count == 1 {
        text.push_str(", 1 holder")
    } else {
        write!(text, ", {count} holders")
    }
}

/// Writes how a stax is.
pub fn put_stax(
    text: &mut String,
    stax: StaxId,
    stage: Stage,
    count: usize,
) -> Result<(), AllocError>
    ensures { OnOk result (string_bytes text.new ≡ string_bytes text.old ++ stax_text stax.0 stage count) }
{
    let number = stax.0;
    write!(text, " | stax {number}: ")?;
    if count == 0 {
        return text.push_str("free");
    }
    put_stage(text, stage)?;
    put_holders(text, count)
}

// Writes who owns a mutex.
fn put_owner(text: &mut String, owner: Option<ThreadId>) -> Result<(), AllocError>
    ensures { OnOk result (string_bytes text.new ≡ string_bytes text.old ++ owner_text owner) }
{
    match owner {
        Some(owner) => {
            let number = owner.0;
            write!(text, "T{number}")
        }
        None => text.push_str("free"),
    }
}

// Writes whether a mutex is claimed.
fn put_claim(text: &mut String, is_claimed: bool) -> Result<(), AllocError>
    ensures { OnOk result (string_bytes text.new ≡ string_bytes text.old ++ claim_text is_claimed) }
{
    if is_claimed {
        text.push_str(", claimed")
    } else {
        Ok(())
    }
}

// Writes what is in a mutex's word.
fn put_word(text: &mut String, mutex: MutexId, word: InWord) -> Result<(), AllocError>
    ensures { OnOk result (string_bytes text.new ≡ string_bytes text.old ++ word_text mutex.0 (Some word)) }
{
    let number = mutex.0;
    write!(text, " | mutex {number}: ")?;
    put_owner(text, word.owner)?;
    put_claim(text, word.is_claimed)
}

/// Writes what is in a mutex's word, if there is one.
pub fn put_mutex(text: &mut String, mutex: MutexId, word: Option<InWord>) -> Result<(), AllocError>
    ensures { OnOk result (string_bytes text.new ≡ string_bytes text.old ++ word_text mutex.0 word) }
{
    match word {
        Some(word) => put_word(text, mutex, word),
        None => Ok(()),
    }
}

/// Writes who has the core.
pub fn put_core(text: &mut String, holder: Option<usize>) -> Result<(), AllocError>
    ensures { OnOk result (string_bytes text.new ≡ string_bytes text.old ++ core_text holder) }
{
    match holder {
        Some(who) => write!(text, " | core: taken by T{who}"),
        None => text.push_str(" | core: free"),
    }
}

/// Writes plays, as a trace has them.
pub fn put_plays(text: &mut String, plays: &[Play]) -> Result<(), AllocError>
    ensures { OnOk result (string_bytes text.new ≡ string_bytes text.old ++ play_lines plays.now) }
{
    for play in plays {
        match text.write(PlayLine(*play)) {
            Ok(()) => {}
            Err(_) => return Err(AllocError),
        }
    }
    Ok(())
}
