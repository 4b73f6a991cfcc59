//! The parts of a text for all orders, each line at its place.
ghost use Rattle.std.specs.Prelude.{◌≡◌, ◌++◌, IfOk, OnOk, count_by, false, map, string_bytes};
ghost use Rattle.std.specs.Str.Lines.{lines};
ghost use Rattle.evl_scenario.specs.Lines.{line_feed};
ghost use Rattle.lab_scenario_orders.specs.Asks.{begins};
ghost use Rattle.lab_scenario_orders.specs.Splits as splits;
ghost use Rattle.lab_kinds.specs.Orders.{asked_from, asked_line, scenario_from, scenario_line};

use lab_scenario_orders::{is_asked, is_setup};
use std::alloc::{AllocError, Global};

/// The lines of a text. `AllocError` where the list couldn't grow.
pub fn lines_of(alloc: Global, text: &str) -> Result<Vec<&str>, AllocError>
    ensures { IfOk result (λ all. map (λ line. line.now) all.items ≡ lines text.now) }
{
    text.lines().collect(alloc)
}

/// Whether the second text begins with the first.
pub fn begins(front: &[u8], text: &[u8]) -> bool
    ensures { result ≡ begins front.now text.now }
{
    text.strip_prefix(front).is_some()
}

// Puts a line of the scenario, which is empty if it is of what is asked.
fn put_scenario_line(text: &mut String, is_asked: bool, line: &str) -> Result<(), AllocError>
    ensures { OnOk result (string_bytes text.new ≡ string_bytes text.old ++ scenario_line is_asked line.now) }
{
    if !is_asked {
        if is_setup(line) {
            text.push_str("[[step]]")?;
        } else {
            text.push_str(line)?;
        }
    }
    text.push_str("\n")
}

/// The scenario in these lines, each at its place. `AllocError` where memory couldn't grow.
pub fn scenario_in(alloc: Global, lines: &[&str]) -> Result<String, AllocError>
    ensures { IfOk result (λ text. string_bytes text ≡ scenario_from false (map (λ line. line.now) lines.now)) }
{
    let mut text = String::new(alloc);
    let mut was = false;
    for line in lines {
        was = is_asked(was, *line);
        put_scenario_line(&mut text, was, *line)?;
    }
    Ok(text)
}

// Puts a line of what is asked, which is empty if it is not.
fn put_asked_line(text: &mut String, is_asked: bool, line: &str) -> Result<(), AllocError>
    ensures { OnOk result (string_bytes text.new ≡ string_bytes text.old ++ asked_line is_asked line.now) }
{
    if is_asked {
        text.push_str(line)?;
    }
    text.push_str("\n")
}

/// All that is asked in these lines, each at its place. `AllocError` where memory couldn't grow.
pub fn asked_in(alloc: Global, lines: &[&str]) -> Result<String, AllocError>
    ensures { IfOk result (λ text. string_bytes text ≡ asked_from false (map (λ line. line.now) lines.now)) }
{
    let mut text = String::new(alloc);
    let mut was = false;
    for line in lines {
        was = is_asked(was, *line);
        put_asked_line(&mut text, was, *line)?;
    }
    Ok(text)
}

/// How many steps are set up.
pub fn setups_in(lines: &[&str]) -> usize
    ensures { result ≡ count_by splits.is_setup (map (λ line. line.now) lines.now) }
{
    let mut count: usize = 0;
    for line in lines {
        if is_setup(*line) {
            count += 1;
        }
    }
    count
}
