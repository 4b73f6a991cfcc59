//! The answer to a line.
ghost use Rattle.std.specs.Prelude.{◌≡◌, ◌<◌, ◌+◌, ◌-◌, ◌++◌, ◌∷◌, [], List, ℕ, codes, false, length, option_map, slice_get, string_bytes, true, IfErr, OnOk, if◌then◌else◌};
ghost use Rattle.std.specs.Option.{option_map_or};
ghost use Rattle.std.specs.Str.{is_utf8};
ghost use Rattle.lab_live.specs.Answers as answers;
ghost use Rattle.lab_live.specs.Answers.{Answers, Does, GoesOn, Makes, MayGoOn, TellsScenario, TellsUnwritten, Undoes, comment_text, may_call, may_change, script_of, undone_text};
ghost use Rattle.lab_faults.specs.Steps.{as_text};
ghost use Rattle.lab_lines.specs.Lines.{step_of_line, unread_text};
ghost use Rattle.lab_live.specs.Helps.{help_text, word_help};
ghost use Rattle.evl_scenario.specs.Scenarios.{Script};
ghost use Rattle.evl_scenario.specs.Writings.{IsUnwritten};
ghost use Rattle.lab_live.specs.Sessions.{MayTakeBack};
ghost use Rattle.lab_live.specs.States.{state_text};
ghost use Rattle.lab_live.specs.Wholes.{whole_text};

use crate::helps::{write_help, write_help_of};
use crate::session::Session;
use crate::states::write_state;
use crate::wholes::write_whole;
use evl_scenario::{Step, Unwritten};
use lab_lines::{Heard, Unread, read_step_line};
use std::alloc::{AllocError, Global};

/// Writes why there is no scenario.
pub fn write_unwritten(told: &mut String, why: Unwritten) -> Result<(), AllocError>
    ensures { OnOk result ((script : Script) → IsUnwritten why script → TellsUnwritten script (string_bytes told.old) (string_bytes told.new)) }
{
    match why {
        Unwritten::Memory => Err(AllocError),
        Unwritten::TooLong => {
            told.push_str("! 1: the scenario would have more than 1048576 bytes\n")?;
            Ok(())
        }
        Unwritten::Board => {
            told.push_str("! 1: no scenario has this board and limit\n")?;
            Ok(())
        }
        Unwritten::Limit => {
            told.push_str("! 1: no scenario has this board and limit\n")?;
            Ok(())
        }
    }
}

// Writes the scenario of all that was asked so far.
#[tactic(auto, using(crate::proofs::AnswerLaws::scenario_unwritten))]
fn write_own_scenario(alloc: Global, told: &mut String, session: &Session) -> Result<(), AllocError>
    ensures { OnOk result (TellsScenario (script_of session.now) (string_bytes told.old) (string_bytes told.new)) }
{
    match session.scenario(alloc) {
        Ok(text) => told.push_str(text.as_str()),
        Err(why) => write_unwritten(told, why),
    }
}

// Writes the last call as one that was taken back.
fn write_last(told: &mut String, session: &Session) -> Result<(), AllocError>
    ensures { OnOk result (string_bytes told.new ≡ string_bytes told.old ++ option_map_or undone_text (slice_get session.now.history.entries (length session.now.history.entries - 1)) []) }
{
    match session.kernel().history().last(*told.allocator()) {
        Ok(Some(entry)) => {
            let who = entry.caller.0;
            let call = &entry.call;
            write!(told, "undone: T{who} {call}\n")
        }
        Ok(None) => Ok(()),
        Err(_) => Err(AllocError),
    }
}

// Takes the last call back, and says which one that was.
#[tactic(auto, using(crate::proofs::AnswerLaws::undoes, crate::proofs::AnswerLaws::undoes_none, crate::proofs::AnswerLaws::undoes_unwritten, crate::proofs::AnswerLaws::takes_back, crate::proofs::AnswerLaws::stays_back))]
fn take_back(alloc: Global, session: &mut Session, told: &mut String) -> Result<(), AllocError>
    ensures undoes { OnOk result (Undoes session.old session.new (string_bytes told.old) (string_bytes told.new)) }
    ensures back { MayTakeBack session.old session.new }
{
    let mut last = String::new(alloc);
    write_last(&mut last, session)?;
    match session.undo(alloc) {
        Ok(true) => {
            told.push_str(last.as_str())?;
            Ok(())
        }
        Ok(false) => {
            told.push_str("! 1: nothing was asked so far\n")?;
            Ok(())
        }
        Err(why) => write_unwritten(told, why),
    }
}

// Answers a line that takes the last call back.
#[tactic(auto, using(crate::proofs::AnswerLaws::goes_back, crate::proofs::AnswerLaws::board_back, crate::proofs::AnswerLaws::limit_back, crate::proofs::AnswerLaws::may_go_back))]
fn answer_undo(alloc: Global, session: &mut Session, told: &mut String) -> Result<(), AllocError>
    ensures goes_on { OnOk result (GoesOn session.old session.new (string_bytes told.old) (string_bytes told.new)) }
    ensures undoes { OnOk result (Undoes session.old session.new (string_bytes told.old) (string_bytes told.new)) }
    ensures board { session.new.board ≡ session.old.board }
    ensures limit { session.new.limit ≡ session.old.limit }
    ensures history { MayGoOn session.old.history session.new.history }
{
    take_back(alloc, session, told)
}

// Writes why a line can't be read.
fn write_unread(told: &mut String, unread: &Unread) -> Result<(), AllocError>
    ensures { OnOk result (string_bytes told.new ≡ string_bytes told.old ++ unread_text unread.now) }
{
    let column = unread.column;
    let words = &unread.words;
    write!(told, "! {column}: {words}\n")?;
    Ok(())
}

// Makes a step, and writes its lines.
#[tactic(auto, using(crate::proofs::AnswerLaws::goes_on, crate::proofs::AnswerLaws::makes, crate::proofs::AnswerLaws::may_go_on))]
fn make(
    alloc: Global,
    session: &mut Session,
    step: Step,
    told: &mut String,
) -> Result<(), AllocError>
    ensures goes_on { OnOk result (GoesOn session.old session.new (string_bytes told.old) (string_bytes told.new)) }
    ensures makes { OnOk result (Makes session.old session.new step (string_bytes told.old) (string_bytes told.new)) }
    ensures board { session.new.board ≡ session.old.board }
    ensures limit { session.new.limit ≡ session.old.limit }
    ensures history { MayGoOn session.old.history session.new.history }
{
    session.make(alloc, step, told)
}

// Answers a line that may ask for a call.
#[tactic(auto, using(crate::proofs::AnswerLaws::does_step, crate::proofs::AnswerLaws::does_none))]
fn answer_call(
    alloc: Global,
    session: &mut Session,
    line: &[u8],
    told: &mut String,
) -> Result<(), AllocError>
    ensures goes_on { OnOk result (GoesOn session.old session.new (string_bytes told.old) (string_bytes told.new)) }
    ensures asked { OnOk result (Does session.old session.new (step_of_line line.now) (string_bytes told.old) (string_bytes told.new)) }
    ensures board { session.new.board ≡ session.old.board }
    ensures limit { session.new.limit ≡ session.old.limit }
    ensures history { MayGoOn session.old.history session.new.history }
{
    match read_step_line(alloc, line)? {
        Heard::Step(step) => make(alloc, session, step, told),
        Heard::Unread(unread) => write_unread(told, &unread),
    }
}

// Answers a line that is none of the others and asks for no call: that a thread is wanted.
fn answer_unread(alloc: Global, line: &[u8], told: &mut String) -> Result<(), AllocError> {
    match read_step_line(alloc, line)? {
        Heard::Step(_) => told.push_str("! 1: a thread is wanted, as T0\n"),
        Heard::Unread(unread) => write_unread(told, &unread),
    }
}

// Whether a byte may be left out at the end of a line.
fn is_blank(byte: u8) -> bool
    ensures { result ≡ answers.is_blank byte }
{
    byte == b' ' || byte == b'\r'
}

// The end of a line that has this byte after those up to an end.
fn end_behind(byte: u8, at: usize, end: usize) -> usize
    requires { at < 9223372036854775808 }
    ensures { result ≡ (if answers.is_blank byte then end else at + 1) }
{
    if is_blank(byte) { end } else { at + 1 }
}

// The line without a carriage return and spaces at its end.
fn trimmed(line: &[u8]) -> &[u8]
    ensures { result.now ≡ answers.trimmed line.now }
{
    let mut end = 0usize;
    for (at, byte) in line.iter().enumerate() {
        end = end_behind(*byte, at, end);
    }
    if end <= line.len() {
        &line[..end]
    } else {
        line
    }
}

// The text of a comment, or its sign where it is no UTF-8.
fn text_or_sign(bytes: &[u8]) -> &str
    ensures { result.now ≡ (if is_utf8 bytes.now then bytes.now else codes "#") }
{
    match std::str::from_utf8(bytes) {
        Ok(text) => text,
        Err(_) => "#",
    }
}

// Writes a comment.
fn write_comment(told: &mut String, text: &[u8]) -> Result<(), AllocError>
    ensures { OnOk result (string_bytes told.new ≡ string_bytes told.old ++ comment_text text.now) }
{
    told.push_str(text_or_sign(text))?;
    told.push_str("\n")
}

// Bytes as text, none where they are no UTF-8.
fn text_of(bytes: &[u8]) -> &str
    ensures { result.now ≡ as_text bytes.now }
{
    match std::str::from_utf8(bytes) {
        Ok(text) => text,
        Err(_) => "",
    }
}

// Answers a line that asks for no call.
fn answer_other(
    alloc: Global,
    session: &Session,
    text: &[u8],
    told: &mut String,
) -> Result<(), AllocError>
    ensures none { text.now ≡ [] → OnOk result (string_bytes told.new ≡ string_bytes told.old) }
    ensures comment { (rest : List ℕ) → text.now ≡ 35 ∷ rest → OnOk result (string_bytes told.new ≡ string_bytes told.old ++ comment_text text.now) }
    ensures scenario { text.now ≡ codes "scenario" → OnOk result (TellsScenario (script_of session.now) (string_bytes told.old) (string_bytes told.new)) }
    ensures state { text.now ≡ codes "ps" → OnOk result (string_bytes told.new ≡ string_bytes told.old ++ state_text session.now) }
    ensures whole { text.now ≡ codes "ps all" → OnOk result (string_bytes told.new ≡ string_bytes told.old ++ whole_text session.now) }
    ensures sign { text.now ≡ codes "?" → OnOk result (string_bytes told.new ≡ string_bytes told.old ++ help_text) }
    ensures help { text.now ≡ codes "help" → OnOk result (string_bytes told.new ≡ string_bytes told.old ++ help_text) }
    ensures word { (word : List ℕ) → text.now ≡ 63 ∷ 32 ∷ word → OnOk result (string_bytes told.new ≡ string_bytes told.old ++ word_help (as_text word)) }
{
    match text {
        b"" => Ok(()),
        [b'#', ..] => write_comment(told, text),
        b"?" => write_help(told),
        b"help" => write_help(told),
        b"ps" => write_state(told, session),
        b"ps all" => write_whole(told, session),
        b"scenario" => write_own_scenario(alloc, told, session),
        b"save" => write_own_scenario(alloc, told, session),
        b"quit" => told.push_str("Ctrl-D ends\n"),
        b"exit" => told.push_str("Ctrl-D ends\n"),
        b"draw" => told.push_str("! 5: a file is wanted, as draw picture.svg\n"),
        [b'?', b' ', word @ ..] => write_help_of(told, text_of(word)),
        _ => answer_unread(alloc, text, told),
    }
}

// Answers a line without blanks at its end.
fn answer_text(
    alloc: Global,
    session: &mut Session,
    text: &[u8],
    told: &mut String,
) -> Result<(), AllocError>
    ensures goes_on { OnOk result (GoesOn session.old session.new (string_bytes told.old) (string_bytes told.new)) }
    ensures asked { may_call text.now ≡ true → OnOk result (Does session.old session.new (step_of_line text.now) (string_bytes told.old) (string_bytes told.new)) }
    ensures stays { may_change text.now ≡ false → session.new ≡ session.old }
    ensures undone { text.now ≡ codes "undo" → OnOk result (Undoes session.old session.new (string_bytes told.old) (string_bytes told.new)) }
    ensures none { text.now ≡ [] → OnOk result (string_bytes told.new ≡ string_bytes told.old) }
    ensures comment { (rest : List ℕ) → text.now ≡ 35 ∷ rest → OnOk result (string_bytes told.new ≡ string_bytes told.old ++ comment_text text.now) }
    ensures scenario { text.now ≡ codes "scenario" → OnOk result (TellsScenario (script_of session.old) (string_bytes told.old) (string_bytes told.new)) }
    ensures state { text.now ≡ codes "ps" → OnOk result (string_bytes told.new ≡ string_bytes told.old ++ state_text session.old) }
    ensures whole { text.now ≡ codes "ps all" → OnOk result (string_bytes told.new ≡ string_bytes told.old ++ whole_text session.old) }
    ensures sign { text.now ≡ codes "?" → OnOk result (string_bytes told.new ≡ string_bytes told.old ++ help_text) }
    ensures help { text.now ≡ codes "help" → OnOk result (string_bytes told.new ≡ string_bytes told.old ++ help_text) }
    ensures word { (word : List ℕ) → text.now ≡ 63 ∷ 32 ∷ word → OnOk result (string_bytes told.new ≡ string_bytes told.old ++ word_help (as_text word)) }
    ensures board { session.new.board ≡ session.old.board }
    ensures limit { session.new.limit ≡ session.old.limit }
    ensures history { MayGoOn session.old.history session.new.history }
{
    match text {
        [b'T', ..] => answer_call(alloc, session, text, told),
        [b' ', ..] => answer_call(alloc, session, text, told),
        b"undo" => answer_undo(alloc, session, told),
        _ => answer_other(alloc, session, text, told),
    }
}

/// The path after a word with which a line begins; an empty one where it is no UTF-8. Blanks at the line's end are not
/// of the path.
pub fn path_behind<'a>(word: &str, line: &'a [u8]) -> Option<&'a str>
    ensures { option_map (λ path. path.now) result ≡ answers.path_behind word.now (answers.trimmed line.now) }
{
    match trimmed(line).strip_prefix(word.as_bytes()) {
        Some(path) => Some(text_of(path)),
        None => None,
    }
}

/// Answers a line, without its line feed: a call with the lines of its trace, `?` and `? put` with help, `ps` with what
/// the machine is doing, `ps all` with all that it shows, `scenario` with that of the calls so far, `undo` with the last
/// call, which is taken back, one that begins with `#` with itself, an empty one with nothing, and one that can't be read
/// with `!`, the byte, from 1, and what was wanted there; that changes nothing. `AllocError` where memory couldn't grow:
/// then nothing is reported, but a call may have been made or taken back.
#[tactic(auto, using(crate::proofs::AnswerLaws::does_behind, crate::proofs::AnswerLaws::told_none, crate::proofs::AnswerLaws::told_behind, crate::proofs::AnswerLaws::tells_scenario))]
pub fn answer_line(
    alloc: Global,
    session: &mut Session,
    line: &[u8],
    told: &mut String,
) -> Result<(), AllocError>
    ensures told { OnOk result (Answers session.old session.new (string_bytes told.old) (string_bytes told.new)) }
    ensures asked { may_call (answers.trimmed line.now) ≡ true → OnOk result (Does session.old session.new (step_of_line (answers.trimmed line.now)) (string_bytes told.old) (string_bytes told.new)) }
    ensures failed { IfErr result (λ e. string_bytes told.new ≡ string_bytes told.old) }
    ensures stays { may_change (answers.trimmed line.now) ≡ false → session.new ≡ session.old }
    ensures undone { answers.trimmed line.now ≡ codes "undo" → OnOk result (Undoes session.old session.new (string_bytes told.old) (string_bytes told.new)) }
    ensures none { answers.trimmed line.now ≡ [] → OnOk result (string_bytes told.new ≡ string_bytes told.old) }
    ensures comment { (rest : List ℕ) → answers.trimmed line.now ≡ 35 ∷ rest → OnOk result (string_bytes told.new ≡ string_bytes told.old ++ comment_text (answers.trimmed line.now)) }
    ensures scenario { answers.trimmed line.now ≡ codes "scenario" → OnOk result (TellsScenario (script_of session.old) (string_bytes told.old) (string_bytes told.new)) }
    ensures state { answers.trimmed line.now ≡ codes "ps" → OnOk result (string_bytes told.new ≡ string_bytes told.old ++ state_text session.old) }
    ensures whole { answers.trimmed line.now ≡ codes "ps all" → OnOk result (string_bytes told.new ≡ string_bytes told.old ++ whole_text session.old) }
    ensures sign { answers.trimmed line.now ≡ codes "?" → OnOk result (string_bytes told.new ≡ string_bytes told.old ++ help_text) }
    ensures help { answers.trimmed line.now ≡ codes "help" → OnOk result (string_bytes told.new ≡ string_bytes told.old ++ help_text) }
    ensures word { (word : List ℕ) → answers.trimmed line.now ≡ 63 ∷ 32 ∷ word → OnOk result (string_bytes told.new ≡ string_bytes told.old ++ word_help (as_text word)) }
    ensures board { session.new.board ≡ session.old.board }
    ensures limit { session.new.limit ≡ session.old.limit }
    ensures history { MayGoOn session.old.history session.new.history }
{
    let text = trimmed(line);
    let mut lines = String::new(alloc);
    answer_text(alloc, session, text, &mut lines)?;
    told.push_str(lines.as_str())?;
    Ok(())
}
