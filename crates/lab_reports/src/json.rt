//! A trace as lines of JSON: one for each entry, with its plays.
ghost use Rattle.std.specs.Prelude.{◌≡◌, ◌++◌, ◌∷◌, Bool, ℕ, IfOk, List, OnOk, None, Some, map, option_map, string_bytes, true};
ghost use Rattle.evl_base.specs.declared.play.Play.TheVariants as play;
ghost use Rattle.lab_traces.specs.Lines.{Said};
ghost use Rattle.lab_traces.specs.Says.{parts_of, says_of};
ghost use Rattle.lab_reports.specs.Json as told;
ghost use Rattle.lab_reports.specs.Json.{call_json, head_json, left_json, json_list, pair_json, play_json, trace_json};

use crate::calls::call_parts;
use crate::quotes::put_text;
use crate::values::{put_answer, put_value};
use evl_base::{LineNo, Play, Stage, ThreadId, TimerId};
use lab_traces::{EntryLine, Says, TraceLine};
use std::alloc::{AllocError, Global};

// Writes what is before the next of several texts.
fn put_comma(json: &mut String, is_first: bool) -> Result<(), AllocError>
    ensures { OnOk result (string_bytes json.new ≡ string_bytes json.old ++ told.comma is_first) }
{
    if is_first {
        Ok(())
    } else {
        json.push_str(", ")
    }
}

// Writes a key with its value.
fn put_pair(alloc: Global, json: &mut String, key: &str, value: &str) -> Result<(), AllocError>
    ensures { OnOk result (string_bytes json.new ≡ string_bytes json.old ++ pair_json (key.now, value.now)) }
{
    put_text(alloc, json, key)?;
    json.push_str(": ")?;
    put_value(alloc, json, key, value)
}

// Writes keys with their values.
fn put_pairs(alloc: Global, json: &mut String, pairs: &[(&str, &str)]) -> Result<(), AllocError>
    ensures { OnOk result (string_bytes json.new ≡ string_bytes json.old ++ json_list true (map pair_json (map (λ p. (p.0.now, p.1.now)) pairs.now))) }
{
    for (i, (key, value)) in pairs.iter().enumerate() {
        put_comma(json, i == 0)?;
        put_pair(alloc, json, key, value)?;
    }
    Ok(())
}

// Writes the word of a call, and its keys with their values.
fn put_call(alloc: Global, json: &mut String, call: &str) -> Result<(), AllocError>
    ensures { OnOk result (string_bytes json.new ≡ string_bytes json.old ++ call_json call.now) }
{
    let (word, pairs) = call_parts(alloc, call)?;
    json.push_str("\"call\": ")?;
    put_text(alloc, json, word)?;
    json.push_str(", \"keys\": {")?;
    put_pairs(alloc, json, pairs.as_slice())?;
    json.push_str("}")?;
    Ok(())
}

// Writes the number of an entry.
fn put_number(json: &mut String, number: Option<u64>) -> Result<(), AllocError>
    ensures { OnOk result (string_bytes json.new ≡ string_bytes json.old ++ told.number_json number) }
{
    match number {
        Some(number) => write!(json, "{number}")?,
        None => json.push_str("null")?,
    }
    Ok(())
}

// Writes what a line says of its entry.
fn put_parts(alloc: Global, json: &mut String, entry: EntryLine<'_>) -> Result<(), AllocError>
    ensures { OnOk result (string_bytes json.new ≡ string_bytes json.old ++ told.entry_json (Some (parts_of entry.entry))) }
{
    let who = entry.thread;
    json.push_str(", \"number\": ")?;
    put_number(json, entry.number)?;
    write!(json, ", \"who\": {who}, ")?;
    put_call(alloc, json, entry.call)?;
    put_answer(alloc, json, entry.answer)?;
    Ok(())
}

// The same, also where plays have no entry before them.
fn put_entry(
    alloc: Global,
    json: &mut String,
    entry: Option<EntryLine<'_>>,
) -> Result<(), AllocError>
    ensures { OnOk result (string_bytes json.new ≡ string_bytes json.old ++ told.entry_json (option_map parts_of entry.entry)) }
{
    match entry {
        Some(entry) => put_parts(alloc, json, entry),
        None => json.push_str(
            ", \"number\": null, \"who\": null, \"call\": null, \"keys\": {}, \"answer\": null, \"refused\": false",
        ),
    }
}

// Writes what holds of a line before its plays.
fn put_head(
    alloc: Global,
    json: &mut String,
    file: &str,
    entry: Option<EntryLine<'_>>,
) -> Result<(), AllocError>
    ensures { OnOk result (string_bytes json.new ≡ string_bytes json.old ++ head_json file.now (option_map parts_of entry.entry)) }
{
    json.push_str("{\"file\": ")?;
    put_text(alloc, json, file)?;
    put_entry(alloc, json, entry)?;
    json.push_str(", \"plays\": [")?;
    Ok(())
}

// Writes the play of a line.
fn put_line(
    json: &mut String,
    line: LineNo,
    stage: Stage,
    count: u64,
    handled: bool,
) -> Result<(), AllocError>
    ensures { OnOk result (string_bytes json.new ≡ string_bytes json.old ++ play_json (play.Line line stage count handled)) }
{
    let number = line.0;
    write!(
        json,
        "{{\"play\": \"line\", \"line\": {number}, \"stage\": \"{stage}\", \"count\": {count}, \"handled\": {handled}}}"
    )?;
    Ok(())
}

// Writes the play of a timer.
fn put_timer(
    json: &mut String,
    timer: TimerId,
    count: u64,
    missed: u64,
    handled: bool,
) -> Result<(), AllocError>
    ensures { OnOk result (string_bytes json.new ≡ string_bytes json.old ++ play_json (play.Timer timer count missed handled)) }
{
    let number = timer.0;
    write!(
        json,
        "{{\"play\": \"timer\", \"timer\": {number}, \"count\": {count}, \"missed\": {missed}, \"handled\": {handled}}}"
    )?;
    Ok(())
}

// Writes the play of a deadline.
fn put_deadline(json: &mut String, thread: ThreadId) -> Result<(), AllocError>
    ensures { OnOk result (string_bytes json.new ≡ string_bytes json.old ++ play_json (play.Deadline thread)) }
{
    let number = thread.0;
    write!(json, "{{\"play\": \"deadline\", \"thread\": {number}}}")?;
    Ok(())
}

// Writes a play.
fn put_play(json: &mut String, play: Play) -> Result<(), AllocError>
    ensures { OnOk result (string_bytes json.new ≡ string_bytes json.old ++ play_json play) }
{
    match play {
        Play::Clock => json.push_str("{\"play\": \"clock\"}"),
        Play::Timer {
            timer,
            count,
            missed,
            handled,
        } => put_timer(json, timer, count, missed, handled),
        Play::Deadline { thread } => put_deadline(json, thread),
        Play::Line {
            line,
            stage,
            count,
            handled,
        } => put_line(json, line, stage, count, handled),
    }
}

// Ends the line that was begun, if there is one.
fn end_line(json: &mut String, begun: Option<bool>) -> Result<(), AllocError>
    ensures { OnOk result (string_bytes json.new ≡ string_bytes json.old ++ told.end_json begun) }
{
    match begun {
        Some(_) => json.push_str("]}\n"),
        None => Ok(()),
    }
}

// Writes the next play of the line that was begun, or begins one for plays that have no entry before them.
fn put_next(
    alloc: Global,
    json: &mut String,
    file: &str,
    begun: Option<bool>,
    play: Play,
) -> Result<(), AllocError>
    ensures { OnOk result (string_bytes json.new ≡ string_bytes json.old ++ told.next_json file.now begun play) }
{
    match begun {
        Some(is_first) => put_comma(json, is_first)?,
        None => put_head(alloc, json, file, None)?,
    }
    put_play(json, play)
}

// Writes what a line of the trace says. Before and after it: whether the line of JSON that was begun has no plays yet, if
// one was begun.
fn put_says(
    alloc: Global,
    json: &mut String,
    file: &str,
    begun: Option<bool>,
    says: Says<'_>,
) -> Result<Option<bool>, AllocError>
    ensures { IfOk result (λ after. (rest : List Said) → string_bytes json.new ++ left_json file.now after rest ≡ string_bytes json.old ++ left_json file.now begun (says_of says.entry ∷ rest)) }
{
    match says {
        Says::Board(_) => Ok(begun),
        Says::Entry(entry) => {
            end_line(json, begun)?;
            put_head(alloc, json, file, Some(entry))?;
            Ok(Some(true))
        }
        Says::Play(play) => {
            put_next(alloc, json, file, begun, play)?;
            Ok(Some(false))
        }
    }
}

/// Writes a line of JSON for each entry of a trace: its file, number, thread, call with its keys, answer, whether that
/// is a refusal, and its plays. A number is a number, `none` is null, anything else a text. Plays before the first entry
/// have a line whose call is null. `AllocError` where memory couldn't grow.
pub fn write_json(alloc: Global, file: &str, lines: &[TraceLine<'_>]) -> Result<String, AllocError>
    ensures { IfOk result (λ json. string_bytes json ≡ trace_json file.now (map (λ line. says_of line.says) lines.now)) }
{
    let mut json = String::new(alloc);
    let mut begun = None;
    for line in lines {
        begun = put_says(alloc, &mut json, file, begun, line.says)?;
    }
    end_line(&mut json, begun)?;
    Ok(json)
}
