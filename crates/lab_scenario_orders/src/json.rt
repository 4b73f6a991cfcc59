//! The report of all orders, as JSON.
ghost use Rattle.std.specs.Prelude.{◌≡◌, ◌++◌, IfOk, OnOk, map, string_bytes};
ghost use Rattle.std.specs.Str.Lines.{lines};
ghost use Rattle.lab_scenario_orders.specs.Json.{begin_json, comma, end_json, first_json, found_json, head_json, holds_json, json_text, line_json, lines_from, name_json, names_from, order_json, orders_json, outcome_json, outcomes_from, outcomes_json, state_json_at, states_from, states_json, steps_json, truth_text, wanted_json, whole_json};

use crate::asks::{Ask, is_against};
use crate::callers::{Caller, Callers};
use crate::outcomes::Outcomes;
use crate::text_lines::lines_of;
use crate::watch_texts::when_key;
use crate::watches::{Watch, When};
use lab_orders::{First, Tally};
use std::alloc::{AllocError, Global};

// A truth value.
fn truth_text(truth: bool) -> &'static str
    ensures { result.now ≡ truth_text truth }
{
    if truth { "true" } else { "false" }
}

// Writes a comma before all but the first of some values.
fn put_comma(text: &mut String, place: usize) -> Result<(), AllocError>
    ensures { OnOk result (string_bytes text.new ≡ string_bytes text.old ++ comma place) }
{
    if place == 0 {
        Ok(())
    } else {
        text.push_str(",")
    }
}

// Writes who makes a step.
fn put_name(text: &mut String, callers: &[Caller], caller: u16) -> Result<(), AllocError>
    ensures { OnOk result (string_bytes text.new ≡ string_bytes text.old ++ name_json callers.now caller) }
{
    match callers.get(usize::from(caller)) {
        Some(having) => {
            let number = having.who.0;
            write!(text, "\"T{number}\"")
        }
        None => text.push_str("null"),
    }
}

// Writes who makes each of these steps.
fn put_names(text: &mut String, callers: &[Caller], order: &[u16]) -> Result<(), AllocError>
    ensures { OnOk result (string_bytes text.new ≡ string_bytes text.old ++ names_from callers.now 0 order.now) }
{
    for (place, caller) in order.iter().enumerate() {
        put_comma(text, place)?;
        put_name(text, callers, *caller)?;
    }
    Ok(())
}

// Writes an order as a list.
fn put_order(text: &mut String, callers: &[Caller], order: &[u16]) -> Result<(), AllocError>
    ensures { OnOk result (string_bytes text.new ≡ string_bytes text.old ++ order_json callers.now order.now) }
{
    text.push_str("[")?;
    put_names(text, callers, order)?;
    text.push_str("]")
}

// Writes a line as a text.
fn put_line(text: &mut String, line: &str) -> Result<(), AllocError>
    ensures { OnOk result (string_bytes text.new ≡ string_bytes text.old ++ line_json line.now) }
{
    text.push_str("\"")?;
    text.push_str(line)?;
    text.push_str("\"")
}

// Writes lines as texts.
fn put_lines(text: &mut String, all: &[&str]) -> Result<(), AllocError>
    ensures { OnOk result (string_bytes text.new ≡ string_bytes text.old ++ lines_from 0 (map (λ line. line.now) all.now)) }
{
    for (place, line) in all.iter().enumerate() {
        put_comma(text, place)?;
        put_line(text, *line)?;
    }
    Ok(())
}

// Writes how many orders lead to an outcome, and whether it is against what is asked.
#[tactic(auto, unfolding(crate::specs::Json::begin_json))]
fn put_begin(text: &mut String, count: u128, is_against: bool) -> Result<(), AllocError>
    ensures { OnOk result (string_bytes text.new ≡ string_bytes text.old ++ begin_json count is_against) }
{
    let against = truth_text(is_against);
    write!(
        text,
        "{{\"orders\":{count},\"against\":{against},\"told\":["
    )
}

// Writes the lines of a text.
fn put_told(alloc: Global, text: &mut String, told: &str) -> Result<(), AllocError>
    ensures { OnOk result (string_bytes text.new ≡ string_bytes text.old ++ lines_from 0 (lines told.now)) }
{
    let all = lines_of(alloc, told)?;
    put_lines(text, all.as_slice())
}

// Writes the order of an outcome.
#[tactic(auto, unfolding(crate::specs::Json::end_json))]
fn put_end(text: &mut String, callers: &[Caller], order: &[u16]) -> Result<(), AllocError>
    ensures { OnOk result (string_bytes text.new ≡ string_bytes text.old ++ end_json callers.now order.now) }
{
    text.push_str("],\"order\":")?;
    put_order(text, callers, order)?;
    text.push_str("}")
}

// Writes what is reported of an outcome.
#[tactic(auto, unfolding(crate::specs::Json::outcome_json))]
fn put_outcome(
    alloc: Global,
    text: &mut String,
    callers: &[Caller],
    ask: &Ask,
    outcome: &Tally,
) -> Result<(), AllocError>
    ensures { OnOk result (string_bytes text.new ≡ string_bytes text.old ++ outcome_json callers.now ask.now outcome.now) }
{
    let told = outcome.told.as_str();
    put_begin(text, outcome.count, is_against(ask, told))?;
    put_told(alloc, text, told)?;
    put_end(text, callers, outcome.order.as_slice())
}

// Writes all outcomes.
fn put_outcomes(
    alloc: Global,
    text: &mut String,
    callers: &[Caller],
    ask: &Ask,
    outcomes: &[Tally],
) -> Result<(), AllocError>
    ensures { OnOk result (string_bytes text.new ≡ string_bytes text.old ++ outcomes_from callers.now ask.now 0 outcomes.now) }
{
    for (place, outcome) in outcomes.iter().enumerate() {
        put_comma(text, place)?;
        put_outcome(alloc, text, callers, ask, outcome)?;
    }
    Ok(())
}

// Whether a question about moments is answered yes, no, or not at all.
fn holds_json(when: When, is_found: bool, is_whole: bool) -> &'static str
    ensures { result.now ≡ holds_json when is_found is_whole }
{
    match when {
        When::Sometimes => {
            if is_found {
                "true"
            } else if is_whole {
                "false"
            } else {
                "null"
            }
        }
        When::Never | When::Always => {
            if is_found {
                "false"
            } else if is_whole {
                "true"
            } else {
                "null"
            }
        }
    }
}

// Writes a question about moments with its answer.
fn put_holds(
    text: &mut String,
    watch: &Watch,
    is_found: bool,
    is_whole: bool,
) -> Result<(), AllocError>
    ensures { OnOk result (string_bytes text.new ≡ string_bytes text.old ++ found_json watch.now is_found is_whole) }
{
    let key = when_key(watch.when);
    let facts = watch.text.as_str();
    let holds = holds_json(watch.when, is_found, is_whole);
    write!(text, "{{\"{key}\":\"{facts}\",\"holds\":{holds},\"order\":")
}

// Writes a question about moments with its answer and the first order.
fn put_first(
    text: &mut String,
    callers: &[Caller],
    watch: &Watch,
    first: &First,
    is_whole: bool,
) -> Result<(), AllocError>
    ensures { OnOk result (string_bytes text.new ≡ string_bytes text.old ++ first_json callers.now is_whole watch.now first.now) }
{
    match first {
        First::Nowhere => {
            put_holds(text, watch, false, is_whole)?;
            text.push_str("null}")
        }
        First::After(order) => {
            put_holds(text, watch, true, is_whole)?;
            put_order(text, callers, order.as_slice())?;
            text.push_str("}")
        }
    }
}

// Writes the question about moments with this place, if it was gone through.
fn put_state_at(
    text: &mut String,
    callers: &[Caller],
    outcomes: &Outcomes,
    place: usize,
    watch: &Watch,
) -> Result<(), AllocError>
    ensures { OnOk result (string_bytes text.new ≡ string_bytes text.old ++ state_json_at callers.now outcomes.now place watch.now) }
{
    match outcomes.firsts.get(place) {
        Some(first) => put_first(text, callers, watch, first, outcomes.whole),
        None => text.push_str("null"),
    }
}

// Writes all questions about moments.
fn put_states(
    text: &mut String,
    callers: &[Caller],
    outcomes: &Outcomes,
    watches: &[Watch],
) -> Result<(), AllocError>
    ensures { OnOk result (string_bytes text.new ≡ string_bytes text.old ++ states_from callers.now outcomes.now 0 watches.now) }
{
    for (place, watch) in watches.iter().enumerate() {
        put_comma(text, place)?;
        put_state_at(text, callers, outcomes, place, watch)?;
    }
    Ok(())
}

// Writes how many outcomes are asked for.
fn put_wanted(text: &mut String, wanted: Option<u16>) -> Result<(), AllocError>
    ensures { OnOk result (string_bytes text.new ≡ string_bytes text.old ++ wanted_json wanted) }
{
    match wanted {
        Some(number) => write!(text, "{number}"),
        None => text.push_str("null"),
    }
}

// Writes how many orders and moments there are.
#[tactic(auto, unfolding(crate::specs::Json::orders_json))]
fn put_orders(text: &mut String, outcomes: &Outcomes) -> Result<(), AllocError>
    ensures { OnOk result (string_bytes text.new ≡ string_bytes text.old ++ orders_json outcomes.now) }
{
    let orders = outcomes.count;
    let moments = outcomes.moments;
    write!(text, "{{\"orders\":{orders},\"moments\":{moments}")
}

// Writes how many steps were gone through.
#[tactic(auto, unfolding(crate::specs::Json::steps_json))]
fn put_steps(text: &mut String, steps: usize) -> Result<(), AllocError>
    ensures { OnOk result (string_bytes text.new ≡ string_bytes text.old ++ steps_json steps) }
{
    write!(text, ",\"steps\":{steps}")
}

// Writes whether nothing was cut off.
fn put_whole(text: &mut String, is_whole: bool) -> Result<(), AllocError>
    ensures { OnOk result (string_bytes text.new ≡ string_bytes text.old ++ whole_json is_whole) }
{
    text.push_str(",\"whole\":")?;
    text.push_str(truth_text(is_whole))?;
    text.push_str(",\"outcomes_asked\":")
}

// Writes how far it was gone, and how many outcomes are asked for.
#[tactic(auto, unfolding(crate::specs::Json::head_json))]
fn put_head(text: &mut String, ask: &Ask, outcomes: &Outcomes) -> Result<(), AllocError>
    ensures { OnOk result (string_bytes text.new ≡ string_bytes text.old ++ head_json ask.now outcomes.now) }
{
    put_orders(text, outcomes)?;
    put_steps(text, outcomes.steps)?;
    put_whole(text, outcomes.whole)?;
    put_wanted(text, ask.outcomes)
}

// Writes the list of all questions about moments.
fn put_state_list(
    text: &mut String,
    callers: &[Caller],
    outcomes: &Outcomes,
    watches: &[Watch],
) -> Result<(), AllocError>
    ensures { OnOk result (string_bytes text.new ≡ string_bytes text.old ++ states_json callers.now outcomes.now watches.now) }
{
    text.push_str(",\"states\":[")?;
    put_states(text, callers, outcomes, watches)?;
    text.push_str("]")
}

// Writes the list of all outcomes.
#[tactic(auto, unfolding(crate::specs::Json::outcomes_json))]
fn put_outcome_list(
    alloc: Global,
    text: &mut String,
    callers: &[Caller],
    ask: &Ask,
    outcomes: &[Tally],
) -> Result<(), AllocError>
    ensures { OnOk result (string_bytes text.new ≡ string_bytes text.old ++ outcomes_json callers.now ask.now outcomes.now) }
{
    text.push_str(",\"outcomes\":[")?;
    put_outcomes(alloc, text, callers, ask, outcomes)?;
    text.push_str("]}\n")
}

/// The report of all orders as one line of JSON: how many orders and moments there are, how many steps were gone
/// through and whether that is all; for each question about moments whether it holds, `null` where that isn't known,
/// with the first order; for each outcome how many orders end so, whether it is against what is asked, what is
/// reported, and its order. `AllocError` where memory couldn't grow.
pub fn write_json(
    alloc: Global,
    callers: &Callers,
    ask: &Ask,
    outcomes: &Outcomes,
) -> Result<String, AllocError>
    ensures { IfOk result (λ text. string_bytes text ≡ json_text callers.now ask.now outcomes.now) }
{
    let all = callers.callers.as_slice();
    let mut text = String::new(alloc);
    put_head(&mut text, ask, outcomes)?;
    put_state_list(&mut text, all, outcomes, ask.watches.as_slice())?;
    put_outcome_list(alloc, &mut text, all, ask, outcomes.all.as_slice())?;
    Ok(text)
}
