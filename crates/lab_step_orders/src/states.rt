//! The report of questions about moments, as text.
ghost use Rattle.std.specs.Prelude.{◌≡◌, ◌++◌, OnOk, string_bytes};
ghost use Rattle.lab_scenario_orders.specs.Reports.{found_text, reach_text};
ghost use Rattle.lab_scenario_orders.specs.WatchTexts.{when_key};
ghost use Rattle.lab_step_orders.specs.Reports.{state_at, state_text, states_text, watch_line};

use crate::crews::Crew;
use crate::outcomes::StepOutcomes;
use crate::reports::put_order;
use crate::watches::StepWatch;
use lab_orders::First;
use lab_scenario_orders::When;
use std::alloc::{AllocError, Global};

// The key of a question.
fn when_key(when: When) -> &'static str
    ensures { result.now ≡ when_key when }
{
    match when {
        When::Never => "never_state",
        When::Sometimes => "sometimes",
        When::Always => "always",
    }
}

// Writes what is reported of a question by whether a moment as it looks for was found.
fn put_found(text: &mut String, when: When, is_found: bool) -> Result<(), AllocError>
    ensures { OnOk result (string_bytes text.new ≡ string_bytes text.old ++ found_text when is_found) }
{
    match when {
        When::Never | When::Sometimes => {
            if is_found {
                text.push_str("at a moment")
            } else {
                text.push_str("at no moment")
            }
        }
        When::Always => {
            if is_found {
                text.push_str("not at each moment")
            } else {
                text.push_str("at each moment")
            }
        }
    }
}

// Writes of which moments it is reported, where longer orders were cut off and none was found.
fn put_reach(text: &mut String, is_found: bool, is_whole: bool) -> Result<(), AllocError>
    ensures { OnOk result (string_bytes text.new ≡ string_bytes text.old ++ reach_text is_found is_whole) }
{
    if is_found || is_whole {
        text.push_str("\n")
    } else {
        text.push_str(" that was gone through\n")
    }
}

// Writes the line of a question.
fn put_watch(
    text: &mut String,
    number: u128,
    watch: &StepWatch,
    is_found: bool,
    is_whole: bool,
) -> Result<(), AllocError>
    ensures { OnOk result (string_bytes text.new ≡ string_bytes text.old ++ watch_line number watch.now is_found is_whole) }
{
    let key = when_key(watch.when);
    let facts = watch.text.as_str();
    write!(text, "# state {number}: {key}: {facts}: ")?;
    put_found(text, watch.when, is_found)?;
    put_reach(text, is_found, is_whole)
}

// Writes what is reported of a question, with the first order to a moment as it looks for.
fn put_state(
    alloc: Global,
    text: &mut String,
    crew: &Crew,
    number: u128,
    watch: &StepWatch,
    first: &First,
    is_whole: bool,
) -> Result<(), AllocError>
    ensures { OnOk result (string_bytes text.new ≡ string_bytes text.old ++ state_text crew.now is_whole number watch.now first.now) }
{
    match first {
        First::Nowhere => put_watch(text, number, watch, false, is_whole),
        First::After(order) => {
            put_watch(text, number, watch, true, is_whole)?;
            put_order(alloc, text, crew, order.as_slice())
        }
    }
}

// Writes what is reported of the question with this place, if there is one.
fn put_state_at(
    alloc: Global,
    text: &mut String,
    crew: &Crew,
    place: usize,
    watch: &StepWatch,
    found: &StepOutcomes,
) -> Result<(), AllocError>
    ensures { OnOk result (string_bytes text.new ≡ string_bytes text.old ++ state_at crew.now found.now.whole place watch.now found.now.firsts.items) }
{
    let whole = found.whole;
    match found.firsts.get(place) {
        Some(first) => put_state(alloc, text, crew, place as u128 + 1, watch, first, whole),
        None => Ok(()),
    }
}

/// Writes what is reported of the questions about moments, each with the first order that leads to one as it looks for.
pub(crate) fn put_states(
    alloc: Global,
    text: &mut String,
    crew: &Crew,
    found: &StepOutcomes,
    watches: &[StepWatch],
) -> Result<(), AllocError>
    ensures { OnOk result (string_bytes text.new ≡ string_bytes text.old ++ states_text crew.now found.now.whole 0 watches.now found.now.firsts.items) }
{
    for (place, watch) in watches.iter().enumerate() {
        put_state_at(alloc, text, crew, place, watch, found)?;
    }
    Ok(())
}
