//! The values of keys and of answers, as JSON.
ghost use Rattle.std.specs.Prelude.{◌≡◌, ◌++◌, OnOk, option_map, string_bytes};
ghost use Rattle.evl_scenario.specs.Values.{around_space};
ghost use Rattle.lab_reports.specs.Json as told;
ghost use Rattle.lab_reports.specs.Json.{answer_json, kind_json, owner_json, value_json};

use crate::quotes::put_text;
use lab_traces::{before, behind, is_refused};
use std::alloc::{AllocError, Global};

// Whether a text is digits.
fn are_digits(text: &str) -> bool
    ensures { result ≡ told.are_digits text.now }
{
    !text.is_empty() && text.bytes().all(|byte| byte.is_ascii_digit())
}

// A text without a minus at its front.
fn unsigned(text: &str) -> &str
    ensures { result.now ≡ told.unsigned text.now }
{
    match behind("-", text) {
        Some(digits) => digits,
        None => text,
    }
}

// Whether a text is a number, negative or not, true or false.
fn is_bare(text: &str) -> bool
    ensures { result ≡ told.is_bare text.now }
{
    are_digits(unsigned(text)) || text == "true" || text == "false"
}

// The digits of bytes, none where the trace has a dash.
fn digits_of(value: &str) -> &str
    ensures { result.now ≡ told.digits_of value.now }
{
    if value == "-" { "" } else { value }
}

/// Writes the value of a key.
pub fn put_value(alloc: Global, json: &mut String, key: &str, value: &str) -> Result<(), AllocError>
    ensures { OnOk result (string_bytes json.new ≡ string_bytes json.old ++ value_json key.now value.now) }
{
    if key == "bytes" {
        return put_text(alloc, json, digits_of(value));
    }
    if value == "none" {
        return json.push_str("null");
    }
    if is_bare(value) {
        return json.push_str(value);
    }
    put_text(alloc, json, value)
}

// The parts before and after the first space.
fn around_blank(text: &str) -> Option<(&str, &str)>
    ensures { option_map (λ parts. (parts.0.now, parts.1.now)) result ≡ around_space text.now }
{
    match text.split_once(' ') {
        Some(parts) => Some(parts),
        None => None,
    }
}

// The kind of an answer, and the text of its value: of a refusal its name, `none` where it has no value.
fn answer_parts(answer: &str) -> (&str, &str)
    ensures { (result.0.now, result.1.now) ≡ told.answer_parts answer.now }
{
    if is_refused(answer) {
        return ("refused", answer);
    }
    if answer == "timed out" {
        return (answer, "none");
    }
    match around_blank(answer) {
        Some(parts) => parts,
        None => (answer, "none"),
    }
}

// Writes who owns a mutex now, and whether others still wait.
fn put_next_owner(alloc: Global, json: &mut String, value: &str) -> Result<(), AllocError>
    ensures { OnOk result (string_bytes json.new ≡ string_bytes json.old ++ owner_json value.now) }
{
    let front = before(" more", value);
    let more = front.is_some();
    json.push_str("{\"thread\": ")?;
    put_value(alloc, json, "thread", front.unwrap_or(value))?;
    write!(json, ", \"more\": {more}}}")?;
    Ok(())
}

// Writes the value of an answer of a kind.
fn put_kind(alloc: Global, json: &mut String, kind: &str, value: &str) -> Result<(), AllocError>
    ensures { OnOk result (string_bytes json.new ≡ string_bytes json.old ++ kind_json kind.now value.now) }
{
    if kind == "next" {
        put_next_owner(alloc, json, value)
    } else {
        put_value(alloc, json, kind, value)
    }
}

/// Writes the answer of an entry by its kind and value, and whether it is a refusal.
pub fn put_answer(alloc: Global, json: &mut String, answer: &str) -> Result<(), AllocError>
    ensures { OnOk result (string_bytes json.new ≡ string_bytes json.old ++ answer_json answer.now) }
{
    let (kind, value) = answer_parts(answer);
    json.push_str(", \"answer\": {\"kind\": ")?;
    put_text(alloc, json, kind)?;
    json.push_str(", \"value\": ")?;
    put_kind(alloc, json, kind, value)?;
    let refused = is_refused(answer);
    write!(json, "}}, \"refused\": {refused}")?;
    Ok(())
}
