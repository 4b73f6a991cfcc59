//! Lines that texts of steps have beside those of texts of callers: `lasts` of a step, and the table `[what_if]`.
ghost use Rattle.std.specs.Prelude.{◌≡◌, ◌++◌, IfOk, OnOk, codes, false, map, option_map, string_bytes};
ghost use Rattle.std.specs.Str.{trim};
ghost use Rattle.evl_scenario.specs.Values.{past_front};
ghost use Rattle.lab_kinds.specs.Plains as plains;
ghost use Rattle.lab_scenario_orders.specs.KeyLines as keys;
ghost use Rattle.lab_kinds.specs.Plains.{is_question, is_question_key, open_from, unquestioned_from, unquestioned_line, is_lasts, is_own, is_set_to, is_what_if, is_what_if_head, plain_from, plain_line, value_set};
ghost use Rattle.lab_scenario_orders.specs.Splits as splits;

use crate::parts::{begins, lines_of};
use lab_scenario_orders::{is_asked, is_setup, past};
use std::alloc::{AllocError, Global};

/// A line without the comment after it and the spaces around it.
pub fn bare(line: &str) -> &str
    ensures { result.now ≡ splits.bare line.now }
{
    match line.split_once('#') {
        Some((before, _)) => before.trim(),
        None => line.trim(),
    }
}

// Whether a text is this name and a bracket, with blanks between them or not.
fn ends_head(text: &str, name: &str) -> bool
    ensures { result ≡ splits.ends_head name.now (codes "]") text.now }
{
    match past(name, text) {
        Some(rest) => rest.trim() == "]",
        None => false,
    }
}

/// Whether a table `[what_if]` begins here.
pub fn is_what_if_head(line: &str) -> bool
    ensures { result ≡ is_what_if_head line.now }
{
    match past("[", bare(line)) {
        Some(rest) => ends_head(rest.trim(), "what_if"),
        None => false,
    }
}

// Whether a table begins here.
fn is_table(line: &str) -> bool
    ensures { result ≡ splits.is_table line.now }
{
    begins(b"[", bare(line).as_bytes())
}

/// Whether a line is in a table `[what_if]`, where the one before it was or was not.
pub fn is_what_if(was: bool, line: &str) -> bool
    ensures { result ≡ is_what_if was line.now }
{
    if is_table(line) {
        is_what_if_head(line)
    } else {
        was
    }
}

// The text after an equals sign.
fn behind_equals(text: &str) -> Option<&str>
    ensures { option_map (λ value. value.now) result ≡ option_map trim (past_front (codes "=") (trim text.now)) }
{
    match past("=", text.trim()) {
        Some(value) => Some(value.trim()),
        None => None,
    }
}

// To what a line sets a key, if it does.
fn value_set<'a>(key: &str, line: &'a str) -> Option<&'a str>
    ensures { option_map (λ value. value.now) result ≡ value_set key.now line.now }
{
    match past(key, bare(line)) {
        Some(rest) => behind_equals(rest),
        None => None,
    }
}

/// Whether a line sets a key to this.
pub fn is_set_to(key: &str, value: &str, line: &str) -> bool
    ensures { result ≡ is_set_to key.now value.now line.now }
{
    match value_set(key, line) {
        Some(text) => text == value,
        None => false,
    }
}

// Whether a line says how its step comes by the core.
fn is_lasts(line: &str) -> bool
    ensures { result ≡ is_lasts line.now }
{
    is_set_to("lasts", "true", line) || is_set_to("lasts", "false", line)
}

/// Whether a line is one of a text of steps alone, which is in a table `[what_if]` or not.
pub fn is_own(is_in: bool, line: &str) -> bool
    ensures { result ≡ is_own is_in line.now }
{
    is_in || is_lasts(line)
}

// Puts a line of the text of callers, empty where it is none.
fn put_plain(text: &mut String, is_other: bool, line: &str) -> Result<(), AllocError>
    ensures { OnOk result (string_bytes text.new ≡ string_bytes text.old ++ plain_line is_other line.now) }
{
    if !is_other {
        if is_setup(line) {
            text.push_str("[[step]]")?;
        } else {
            text.push_str(line)?;
        }
    }
    text.push_str("\n")
}

/// The text of callers in these lines, each at its place. `AllocError` where memory couldn't grow.
pub fn plain_in(alloc: Global, lines: &[&str]) -> Result<String, AllocError>
    ensures { IfOk result (λ text. string_bytes text ≡ plain_from false false (map (λ line. line.now) lines.now)) }
{
    let mut text = String::new(alloc);
    let mut asked = false;
    let mut own = false;
    for line in lines {
        asked = is_asked(asked, *line);
        own = is_what_if(own, *line);
        put_plain(&mut text, asked || is_own(own, *line), *line)?;
    }
    Ok(text)
}

// The text before the first `=`, and the text after it.
fn around_equals(text: &str) -> Option<(&str, &str)>
    ensures { option_map (λ parts. (parts.0.now, parts.1.now)) result ≡ keys.around_equals text.now }
{
    match text.split_once('=') {
        Some(parts) => Some(parts),
        None => None,
    }
}

/// Whether a key asks of moments.
pub fn is_question_key(key: &str) -> bool
    ensures { result ≡ is_question_key key.now }
{
    key == "never_state" || key == "sometimes" || key == "always"
}

// Whether a line sets such a key.
fn is_question(line: &str) -> bool
    ensures { result ≡ is_question line.now }
{
    match around_equals(bare(line)) {
        Some((key, _)) => is_question_key(key.trim()),
        None => false,
    }
}

// Whether a list of texts begins and ends here, with a bracket and a quote.
fn is_closed(value: &str) -> bool
    ensures { result ≡ plains.is_closed value.now }
{
    begins(b"[\"", value.as_bytes()) && value.as_bytes().ends_with(b"\"]")
}

// Whether the facts of a question aren't such a list on its line.
fn is_open(line: &str) -> bool
    ensures { result ≡ plains.is_open line.now }
{
    match around_equals(bare(line)) {
        Some((key, value)) => is_question_key(key.trim()) && !is_closed(value.trim()),
        None => false,
    }
}

// The number of the first such line, from 1.
fn open_line(lines: &[&str]) -> Option<usize>
    ensures { result ≡ open_from 1 (map (λ line. line.now) lines.now) }
{
    for (i, line) in lines.iter().enumerate() {
        if is_open(*line) {
            return Some(i + 1);
        }
    }
    None
}

/// The number, from 1, of the first line of what is asked that asks of moments by no list on that line. `AllocError` where
/// memory couldn't grow.
pub fn open_question(alloc: Global, asked: &str) -> Result<Option<usize>, AllocError>
    ensures { IfOk result (λ line. line ≡ plains.open_question asked.now) }
{
    let lines = lines_of(alloc, asked)?;
    Ok(open_line(lines.as_slice()))
}

// Puts a line of what is asked, empty where it is none.
fn put_unquestioned(text: &mut String, is_asked: bool, line: &str) -> Result<(), AllocError>
    ensures { OnOk result (string_bytes text.new ≡ string_bytes text.old ++ unquestioned_line is_asked line.now) }
{
    if is_asked {
        text.push_str(line)?;
    }
    text.push_str("\n")
}

/// All that is asked in these lines but of moments, each at its place. `AllocError` where memory couldn't grow.
pub fn unquestioned_in(alloc: Global, lines: &[&str]) -> Result<String, AllocError>
    ensures { IfOk result (λ text. string_bytes text ≡ unquestioned_from false (map (λ line. line.now) lines.now)) }
{
    let mut text = String::new(alloc);
    let mut was = false;
    for line in lines {
        was = is_asked(was, *line);
        put_unquestioned(&mut text, was && !is_question(*line), *line)?;
    }
    Ok(text)
}
