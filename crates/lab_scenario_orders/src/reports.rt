//! The report of all orders, as text.
ghost use Rattle.std.specs.Prelude.{[], ◌≡◌, ◌++◌, IfOk, OnOk, codes, flat_map, if◌then◌else◌, map, string_bytes};
ghost use Rattle.std.specs.Str.Lines.{lines};
ghost use Rattle.lab_scenario_orders.specs.Reports.{comment, counts_text, found_text, head_text, number_text, order_text, orders_text, outcome_text, outcomes_text, reach_text, report_text, state_at, state_text, states_text, watch_line, way_text, who_text};

use crate::banks::BankMaker;
use crate::callers::{Caller, Callers};
use crate::outcomes::Outcomes;
use crate::scenarios::scenario_of;
use crate::text_lines::{lines_of, put_line};
use crate::warnings::put_warnings;
use crate::watch_texts::when_key;
use crate::watches::{Watch, When};
use lab_orders::{First, Tally};
use std::alloc::{AllocError, Global};

// Writes a line as a comment.
fn put_comment(text: &mut String, line: &str) -> Result<(), AllocError>
    ensures { OnOk result (string_bytes text.new ≡ string_bytes text.old ++ comment line.now) }
{
    text.push_str("# ")?;
    put_line(text, line)
}

// Writes each of these lines as a comment.
fn put_comments(text: &mut String, all: &[&str]) -> Result<(), AllocError>
    ensures { OnOk result (string_bytes text.new ≡ string_bytes text.old ++ flat_map comment (map (λ line. line.now) all.now)) }
{
    for line in all {
        put_comment(text, *line)?;
    }
    Ok(())
}

// Writes each line of a text as a comment.
fn put_told(alloc: Global, text: &mut String, told: &str) -> Result<(), AllocError>
    ensures { OnOk result (string_bytes text.new ≡ string_bytes text.old ++ flat_map comment (lines told.now)) }
{
    let all = lines_of(alloc, told)?;
    put_comments(text, all.as_slice())
}

// A number of orders, outcomes or moments, with its word.
fn put_number(text: &mut String, count: u128, word: &str) -> Result<(), AllocError>
    ensures { OnOk result (string_bytes text.new ≡ string_bytes text.old ++ number_text count word.now) }
{
    write!(text, "{count} {word}")?;
    if count == 1 {
        Ok(())
    } else {
        text.push_str("s")
    }
}

// Writes who makes a step: the thread of a caller.
fn put_who(text: &mut String, callers: &[Caller], caller: u16) -> Result<(), AllocError>
    ensures { OnOk result (string_bytes text.new ≡ string_bytes text.old ++ who_text callers.now caller) }
{
    match callers.get(usize::from(caller)) {
        Some(having) => {
            let number = having.who.0;
            write!(text, " T{number}")
        }
        None => Ok(()),
    }
}

// Writes who makes each of these steps.
fn put_all(text: &mut String, callers: &[Caller], order: &[u16]) -> Result<(), AllocError>
    ensures { OnOk result (string_bytes text.new ≡ string_bytes text.old ++ flat_map (who_text callers.now) order.now) }
{
    for caller in order {
        put_who(text, callers, *caller)?;
    }
    Ok(())
}

// Writes who makes each step of an order.
fn put_order(text: &mut String, callers: &[Caller], order: &[u16]) -> Result<(), AllocError>
    ensures { OnOk result (string_bytes text.new ≡ string_bytes text.old ++ order_text callers.now order.now) }
{
    text.push_str("# order:")?;
    put_all(text, callers, order)?;
    text.push_str("\n")
}

// Writes what is reported of an outcome.
fn put_head(
    alloc: Global,
    text: &mut String,
    callers: &Callers,
    number: usize,
    outcome: &Tally,
) -> Result<(), AllocError>
    ensures { OnOk result (string_bytes text.new ≡ string_bytes text.old ++ head_text callers.now number outcome.now) }
{
    write!(text, "# outcome {number}: ")?;
    put_number(text, outcome.count, "order")?;
    text.push_str("\n")?;
    put_told(alloc, text, outcome.told.as_str())?;
    put_order(text, callers.callers.as_slice(), outcome.order.as_slice())
}

// Writes an outcome with its scenario.
fn put_outcome<B: BankMaker>(
    alloc: Global,
    text: &mut String,
    callers: &Callers,
    bank: &B,
    number: usize,
    outcome: &Tally,
) -> Result<(), AllocError>
    ensures { OnOk result (string_bytes text.new ≡ string_bytes text.old ++ outcome_text callers.now number outcome.now) }
{
    put_head(alloc, text, callers, number, outcome)?;
    match scenario_of(alloc, callers, bank, outcome.order.as_slice()) {
        Ok(scenario) => text.push_str(scenario.as_str()),
        Err(error) => Err(error),
    }
}

// Writes that longer orders were cut off, where they were.
fn put_cut(text: &mut String, is_whole: bool) -> Result<(), AllocError>
    ensures { OnOk result (string_bytes text.new ≡ string_bytes text.old ++ (if is_whole then [] else codes "# cut off: there are longer orders\n")) }
{
    if is_whole {
        Ok(())
    } else {
        text.push_str("# cut off: there are longer orders\n")
    }
}

// Writes how many orders and outcomes there are.
fn put_orders(text: &mut String, outcomes: &Outcomes) -> Result<(), AllocError>
    ensures { OnOk result (string_bytes text.new ≡ string_bytes text.old ++ orders_text outcomes.now) }
{
    text.push_str("# ")?;
    put_number(text, outcomes.count, "order")?;
    text.push_str(", ")?;
    put_number(text, outcomes.all.len() as u128, "outcome")
}

// Writes how many there are, and how many moments were gone through.
fn put_counts(text: &mut String, outcomes: &Outcomes) -> Result<(), AllocError>
    ensures { OnOk result (string_bytes text.new ≡ string_bytes text.old ++ counts_text outcomes.now) }
{
    put_orders(text, outcomes)?;
    text.push_str(", ")?;
    put_number(text, outcomes.moments as u128, "moment")?;
    text.push_str("\n")?;
    put_cut(text, outcomes.whole)
}

// Writes what is reported of a question about moments by whether a moment as it looks for was found.
fn put_found(text: &mut String, when: When, is_found: bool) -> Result<(), AllocError>
    ensures { OnOk result (string_bytes text.new ≡ string_bytes text.old ++ found_text when is_found) }
{
    match when {
        When::Never | When::Sometimes => {
            if is_found {
                text.push_str("at a moment")
            } else {
                text.push_str("at no moment")
            }
        }
        When::Always => {
            if is_found {
                text.push_str("not at each moment")
            } else {
                text.push_str("at each moment")
            }
        }
    }
}

// Writes of which moments it is reported, where longer orders were cut off and none was found.
fn put_reach(text: &mut String, is_found: bool, is_whole: bool) -> Result<(), AllocError>
    ensures { OnOk result (string_bytes text.new ≡ string_bytes text.old ++ reach_text is_found is_whole) }
{
    if is_found || is_whole {
        text.push_str("\n")
    } else {
        text.push_str(" that was gone through\n")
    }
}

// Writes the line of a question about moments.
fn put_watch(
    text: &mut String,
    number: u128,
    watch: &Watch,
    is_found: bool,
    is_whole: bool,
) -> Result<(), AllocError>
    ensures { OnOk result (string_bytes text.new ≡ string_bytes text.old ++ watch_line number watch.now is_found is_whole) }
{
    let key = when_key(watch.when);
    let facts = watch.text.as_str();
    write!(text, "# state {number}: {key}: {facts}: ")?;
    put_found(text, watch.when, is_found)?;
    put_reach(text, is_found, is_whole)
}

// Writes an order, and the same as a scenario.
fn put_way<B: BankMaker>(
    alloc: Global,
    text: &mut String,
    callers: &Callers,
    bank: &B,
    order: &[u16],
) -> Result<(), AllocError>
    ensures { OnOk result (string_bytes text.new ≡ string_bytes text.old ++ way_text callers.now order.now) }
{
    put_order(text, callers.callers.as_slice(), order)?;
    match scenario_of(alloc, callers, bank, order) {
        Ok(scenario) => text.push_str(scenario.as_str()),
        Err(error) => Err(error),
    }
}

// Writes what is reported of a question about moments, with the first order to a moment as it looks for.
fn put_state<B: BankMaker>(
    alloc: Global,
    text: &mut String,
    callers: &Callers,
    bank: &B,
    number: u128,
    watch: &Watch,
    first: &First,
    is_whole: bool,
) -> Result<(), AllocError>
    ensures { OnOk result (string_bytes text.new ≡ string_bytes text.old ++ state_text callers.now is_whole number watch.now first.now) }
{
    match first {
        First::Nowhere => put_watch(text, number, watch, false, is_whole),
        First::After(order) => {
            put_watch(text, number, watch, true, is_whole)?;
            put_way(alloc, text, callers, bank, order.as_slice())
        }
    }
}

// Writes what is reported of the question with this place, if there is one.
fn put_state_at<B: BankMaker>(
    alloc: Global,
    text: &mut String,
    callers: &Callers,
    bank: &B,
    place: usize,
    watch: &Watch,
    outcomes: &Outcomes,
) -> Result<(), AllocError>
    ensures { OnOk result (string_bytes text.new ≡ string_bytes text.old ++ state_at callers.now outcomes.now.whole place watch.now outcomes.now.firsts.items) }
{
    let whole = outcomes.whole;
    match outcomes.firsts.get(place) {
        Some(first) => put_state(
            alloc,
            text,
            callers,
            bank,
            place as u128 + 1,
            watch,
            first,
            whole,
        ),
        None => Ok(()),
    }
}

// Writes what is reported of the questions about moments.
fn put_states<B: BankMaker>(
    alloc: Global,
    text: &mut String,
    callers: &Callers,
    bank: &B,
    watches: &[Watch],
    outcomes: &Outcomes,
) -> Result<(), AllocError>
    ensures { OnOk result (string_bytes text.new ≡ string_bytes text.old ++ states_text callers.now outcomes.now.whole 0 watches.now outcomes.now.firsts.items) }
{
    for (place, watch) in watches.iter().enumerate() {
        put_state_at(alloc, text, callers, bank, place, watch, outcomes)?;
    }
    Ok(())
}

// Writes all outcomes.
fn put_outcomes<B: BankMaker>(
    alloc: Global,
    text: &mut String,
    callers: &Callers,
    bank: &B,
    outcomes: &[Tally],
) -> Result<(), AllocError>
    ensures { OnOk result (string_bytes text.new ≡ string_bytes text.old ++ outcomes_text callers.now 1 outcomes.now) }
{
    for (i, outcome) in outcomes.iter().enumerate() {
        put_outcome(alloc, text, callers, bank, i + 1, outcome)?;
    }
    Ok(())
}

/// Warnings, then what is asked of moments, each with the first order to one as it looks for, and then all outcomes, each with how many
/// orders lead to it, and the shortest and first of them. Each order is reported as a scenario too, and all else in comments,
/// so that each part of the text from `# state` or `# outcome` on can be played. `AllocError` where memory couldn't grow.
pub fn write_report<B: BankMaker>(
    alloc: Global,
    callers: &Callers,
    bank: &B,
    watches: &[Watch],
    outcomes: &Outcomes,
) -> Result<String, AllocError>
    ensures { IfOk result (λ text. string_bytes text ≡ report_text callers.now watches.now outcomes.now) }
{
    let mut text = String::new(alloc);
    put_counts(&mut text, outcomes)?;
    put_warnings(alloc, &mut text, callers, outcomes)?;
    put_states(alloc, &mut text, callers, bank, watches, outcomes)?;
    put_outcomes(alloc, &mut text, callers, bank, outcomes.all.as_slice())?;
    Ok(text)
}
