//! The warnings of a dry run, and what is judged of a step, as lines of JSON.
ghost use Rattle.std.specs.Prelude.{◌≡◌, ◌++◌, IfOk, OnOk, flat_map, map, option_map, string_bytes};
ghost use Rattle.std.specs.Str.Lines.{lines};
ghost use Rattle.evl_scenario.specs.Values.{around_space};
ghost use Rattle.lab_json.specs.Notices.{notice_json, notice_said};
ghost use Rattle.lab_json.specs.Warned.{in_the_end, judged_at, judged_kind, judged_said, step_front, step_numbered, warned_json, warned_said, warning_said, without, without_end};

use crate::notices::{Notice, Noticed, write_notice};
use evl_scenario::number_of_text;
use lab_traces::{before, behind};
use std::alloc::{AllocError, Global};

// The parts before and after the first space.
fn around_blank(text: &str) -> Option<(&str, &str)>
    ensures { option_map (λ parts. (parts.0.now, parts.1.now)) result ≡ around_space text.now }
{
    match text.split_once(' ') {
        Some(parts) => Some(parts),
        None => None,
    }
}

// The number that a text has before a colon.
fn step_numbered(text: &str) -> Option<u64>
    ensures { result ≡ step_numbered text.now }
{
    number_of_text(before(":", text)?)
}

// A text without this front part.
fn without<'a>(front: &str, text: &'a str) -> &'a str
    ensures { result.now ≡ without front.now text.now }
{
    match behind(front, text) {
        Some(rest) => rest,
        None => text,
    }
}

// A warning of this step.
fn warning(step: Option<u64>, says: &str) -> Notice<'_>
    ensures { notice_said result ≡ warning_said step says.now }
{
    Notice {
        kind: Noticed::Warning,
        line: None,
        byte: None,
        step,
        says,
    }
}

// A warning by what comes after `step`.
fn warned_step(text: &str) -> Notice<'_>
    ensures { notice_said result ≡ warned_said text.now }
{
    match around_blank(text) {
        Some((number, rest)) => warning(step_numbered(number), without("warning: ", rest)),
        None => warning(None, text),
    }
}

// A warning by its line, without the name of its file.
fn warned(line: &str) -> Notice<'_>
    ensures { notice_said result ≡ in_the_end line.now }
{
    match behind(": step ", line) {
        Some(rest) => warned_step(rest),
        None => warning(None, without(": at the end: warning: ", line)),
    }
}

// The lines of a text, in order.
fn lines_of(alloc: Global, text: &str) -> Result<Vec<&str>, AllocError>
    ensures { IfOk result (λ all. map (λ line. line.now) all.items ≡ lines text.now) }
{
    text.lines().collect(alloc)
}

// Writes the line of JSON of a warning.
fn write_warned(alloc: Global, json: &mut String, file: &str, line: &str) -> Result<(), AllocError>
    ensures { OnOk result (string_bytes json.new ≡ string_bytes json.old ++ warned_json file.now line.now) }
{
    write_notice(alloc, json, file, warned(line))?;
    Ok(())
}

// Writes a line of JSON for each of these.
fn write_each(alloc: Global, json: &mut String, file: &str, all: &[&str]) -> Result<(), AllocError>
    ensures { OnOk result (string_bytes json.new ≡ string_bytes json.old ++ flat_map (warned_json file.now) (map (λ line. line.now) all.now)) }
{
    for line in all {
        write_warned(alloc, json, file, line)?;
    }
    Ok(())
}

/// Writes a line of JSON for each warning of a file, by the lines that warn of a text without a name: the step that it is
/// of, or null, and what is said of it. `AllocError` where memory couldn't grow.
pub fn write_warnings(
    alloc: Global,
    json: &mut String,
    file: &str,
    warnings: &str,
) -> Result<(), AllocError>
    ensures { OnOk result (string_bytes json.new ≡ string_bytes json.old ++ flat_map (warned_json file.now) (lines warnings.now)) }
{
    let all = lines_of(alloc, warnings)?;
    write_each(alloc, json, file, all.as_slice())?;
    Ok(())
}

// A text without this end.
fn without_end<'a>(end: &str, text: &'a str) -> &'a str
    ensures { result.now ≡ without_end end.now text.now }
{
    match before(end, text) {
        Some(front) => front,
        None => text,
    }
}

// The number after `step` at the front of a text, before a colon.
fn step_front(text: &str) -> Option<u64>
    ensures { result ≡ step_front text.now }
{
    match around_blank(behind("step ", text)?) {
        Some((number, _)) => step_numbered(number),
        None => None,
    }
}

fn judged_kind(is_fault: bool) -> Noticed
    ensures { result ≡ judged_kind is_fault }
{
    if is_fault {
        Noticed::Fault
    } else {
        Noticed::Unexpected
    }
}

// The judgement of a step, at a line.
fn judged_at(is_fault: bool, line: Option<u64>, says: &str) -> Notice<'_>
    ensures { notice_said result ≡ judged_at is_fault line says.now }
{
    Notice {
        kind: judged_kind(is_fault),
        line,
        byte: None,
        step: step_front(says),
        says,
    }
}

// The judgement of a step, by its line without the name of its file.
fn judged(is_fault: bool, line: &str) -> Notice<'_>
    ensures { notice_said result ≡ judged_said is_fault line.now }
{
    match around_blank(without(":", line)) {
        Some((number, rest)) => judged_at(is_fault, step_numbered(number), without_end("\n", rest)),
        None => judged_at(is_fault, None, line),
    }
}

/// Writes a line of JSON for what is judged of a file's steps, by the line that says it of a text without a name: its
/// line, its step, and what is said of it. `AllocError` where memory couldn't grow.
pub fn write_judged(
    alloc: Global,
    json: &mut String,
    file: &str,
    is_fault: bool,
    line: &str,
) -> Result<(), AllocError>
    ensures { OnOk result (string_bytes json.new ≡ string_bytes json.old ++ notice_json file.now (judged_said is_fault line.now)) }
{
    write_notice(alloc, json, file, judged(is_fault, line))
}
