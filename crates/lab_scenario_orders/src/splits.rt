//! The text of callers, split: the scenario in it, how many of its steps are set up before, and what is asked.
ghost use Rattle.std.specs.Prelude.{◌≡◌, ◌++◌, IfOk, OnOk, count_by, false, map, string_bytes};
ghost use Rattle.evl_scenario.specs.Lines.{line_feed};
ghost use Rattle.lab_scenario_orders.specs.Splits.{IsSplit, as_step, asked_lines, bare, ends_head, is_ask, is_asked, is_head, is_mixed, is_setup, is_step, joined_lines, scenario_lines};

use crate::searches::{begins, past};
use crate::text_lines::{lines_of, put_line};
use std::alloc::{AllocError, Global};

/// A text of callers in parts.
#[derive(Drop)]
pub struct Split {
    /// The scenario: each `[[setup]]` is a `[[step]]`.
    pub scenario: String,
    /// How many steps are set up.
    pub setup: usize,
    /// Whether a step is before one that is set up.
    pub is_mixed: bool,
    /// The tables `[ask]`.
    pub ask: String,
}

/// A line without the comment after it and the spaces around it.
pub(crate) fn bare(line: &str) -> &str
    ensures { result.now ≡ bare line.now }
{
    match line.split_once('#') {
        Some((before, _)) => before.trim(),
        None => line.trim(),
    }
}

// Whether a text is this name and this end, with blanks between them or not.
fn ends_head(text: &str, name: &str, end: &str) -> bool
    ensures { result ≡ ends_head name.now end.now text.now }
{
    match past(name, text) {
        Some(rest) => rest.trim() == end,
        None => false,
    }
}

// Whether just this name is on a line between these brackets, with blanks around it or not.
fn is_head(line: &str, begin: &str, name: &str, end: &str) -> bool
    ensures { result ≡ is_head begin.now name.now end.now line.now }
{
    match past(begin, bare(line)) {
        Some(rest) => ends_head(rest.trim(), name, end),
        None => false,
    }
}

/// Whether a line is the head of a step that is set up.
pub fn is_setup(line: &str) -> bool
    ensures { result ≡ is_setup line.now }
{
    is_head(line, "[[", "setup", "]]")
}

// Whether another step begins here.
fn is_step(line: &str) -> bool
    ensures { result ≡ is_step line.now }
{
    is_head(line, "[[", "step", "]]")
}

// Whether a table `[ask]` begins here.
fn is_ask(line: &str) -> bool
    ensures { result ≡ is_ask line.now }
{
    is_head(line, "[", "ask", "]")
}

/// Whether a line is in a table `[ask]`, where the one before it was or was not.
pub fn is_asked(was: bool, line: &str) -> bool
    ensures { result ≡ is_asked was line.now }
{
    if begins(b"[", bare(line).as_bytes()) {
        is_ask(line)
    } else {
        was
    }
}

// The lines of tables `[ask]`.
fn ask_in(alloc: Global, lines: &[&str]) -> Result<String, AllocError>
    ensures { IfOk result (λ text. string_bytes text ≡ joined_lines (asked_lines false (map (λ line. line.now) lines.now))) }
{
    let mut text = String::new(alloc);
    let mut was = false;
    for line in lines {
        was = is_asked(was, *line);
        if was {
            put_line(&mut text, *line)?;
        }
    }
    Ok(text)
}

// Puts a line to a scenario.
fn put_step(text: &mut String, line: &str) -> Result<(), AllocError>
    ensures { OnOk result (string_bytes text.new ≡ string_bytes text.old ++ (as_step line.now ++ line_feed)) }
{
    if is_setup(line) {
        put_line(text, "[[step]]")
    } else {
        put_line(text, line)
    }
}

// The other lines, in which each step that is set up is a step.
fn scenario_in(alloc: Global, lines: &[&str]) -> Result<String, AllocError>
    ensures { IfOk result (λ text. string_bytes text ≡ joined_lines (scenario_lines false (map (λ line. line.now) lines.now))) }
{
    let mut text = String::new(alloc);
    let mut was = false;
    for line in lines {
        was = is_asked(was, *line);
        if !was {
            put_step(&mut text, *line)?;
        }
    }
    Ok(text)
}

// How many steps are set up.
fn setups_of(lines: &[&str]) -> usize
    ensures { result ≡ count_by is_setup (map (λ line. line.now) lines.now) }
{
    let mut count: usize = 0;
    for line in lines {
        if is_setup(*line) {
            count += 1;
        }
    }
    count
}

// Whether a step is before one that is set up.
fn is_mixed(lines: &[&str]) -> bool
    ensures { result ≡ is_mixed (map (λ line. line.now) lines.now) }
{
    let mut has_steps = false;
    for line in lines {
        if has_steps && is_setup(*line) {
            return true;
        }
        has_steps = has_steps || is_step(*line);
    }
    false
}

/// Splits the text of callers. A line is `[[setup]]`, `[[step]]` or `[ask]` where nothing else is on it but blanks,
/// within the brackets too, and a comment; a table `[ask]` goes on until another table begins. `AllocError` where memory
/// couldn't grow.
pub fn split_text(alloc: Global, text: &str) -> Result<Split, AllocError>
    ensures { IfOk result (IsSplit text.now) }
{
    let all = lines_of(alloc, text)?;
    let lines = all.as_slice();
    let scenario = scenario_in(alloc, lines)?;
    let ask = ask_in(alloc, lines)?;
    Ok(Split {
        scenario,
        setup: setups_of(lines),
        is_mixed: is_mixed(lines),
        ask,
    })
}
