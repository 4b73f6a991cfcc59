//! An order as a scenario.
ghost use Rattle.std.specs.Prelude.{[], ◌≡◌, ◌+◌, ◌++◌, IfOk, OnOk, slice_index, slice_set, string_bytes};
ghost use Rattle.std.specs.Option.{option_map_or};
ghost use Rattle.evl_scenario.specs.Writings.{opening_text, table_text, tables_text};
ghost use Rattle.lab_scenario_orders.specs.Callers.{next_step};
ghost use Rattle.lab_scenario_orders.specs.Scenarios.{order_scenario, steps_along};

use crate::banks::BankMaker;
use crate::callers::Callers;
use crate::moments::none_made;
use evl_scenario::{Step, write_opening, write_step};
use std::alloc::{AllocError, Global};

// A longer text is no scenario.
const MOST_BYTES: usize = 1_048_576;

// Writes a step for each of these.
fn put_steps(text: &mut String, steps: &[Step]) -> Result<(), AllocError>
    ensures { OnOk result (string_bytes text.new ≡ string_bytes text.old ++ tables_text steps.now) }
{
    for step in steps {
        write_step(text, step.who, &step.call)?;
    }
    Ok(())
}

// Writes the next step of a caller that has made so many, if it has one more.
fn put_next(
    text: &mut String,
    callers: &Callers,
    caller: usize,
    made: usize,
) -> Result<(), AllocError>
    ensures { OnOk result (string_bytes text.new ≡ string_bytes text.old ++ option_map_or table_text (next_step callers.now caller made) []) }
{
    match callers.next_place(caller, made) {
        Some(place) => match callers.steps.get(place) {
            Some(step) => write_step(text, step.who, &step.call),
            None => Ok(()),
        },
        None => Ok(()),
    }
}

// How many steps a caller has made.
fn count_at(made: &[usize], caller: usize) -> usize
    ensures { result ≡ slice_index made.now caller }
{
    match made.get(caller) {
        Some(count) => *count,
        None => 0,
    }
}

// Counts a step of a caller, if it is one.
#[tactic(auto, using(crate::proofs::ScenarioLaws::set_past))]
fn count_step(made: &mut Vec<usize>, caller: usize) -> Result<(), AllocError>
    ensures { OnOk result (made.new.items ≡ slice_set made.old.items caller (slice_index made.old.items caller + 1)) }
{
    let Some(more) = count_at(made.as_slice(), caller).checked_add(1) else {
        return Err(AllocError);
    };
    if caller >= made.len() {
        return Ok(());
    }
    made[caller] = more;
    Ok(())
}

// Writes the steps that callers make along an order, where they have made so many.
#[tactic(auto, using(crate::proofs::ScenarioLaws::tables_before))]
fn put_along(
    text: &mut String,
    callers: &Callers,
    made: &mut Vec<usize>,
    order: &[u16],
) -> Result<(), AllocError>
    ensures { OnOk result (string_bytes text.new ≡ string_bytes text.old ++ tables_text (steps_along callers.now made.old.items order.now)) }
{
    for number in order {
        let caller = usize::from(*number);
        let count = count_at(made.as_slice(), caller);
        put_next(text, callers, caller, count)?;
        count_step(made, caller)?;
    }
    Ok(())
}

/// An order as a scenario, with what is set up before it: a step for each that it makes. A scenario says nothing of a
/// bank. `AllocError` where memory couldn't grow, or the text is too long for a scenario.
pub fn scenario_of<B: BankMaker>(
    alloc: Global,
    callers: &Callers,
    _bank: &B,
    order: &[u16],
) -> Result<String, AllocError>
    ensures { IfOk result (λ text. string_bytes text ≡ order_scenario callers.now order.now) }
{
    let mut text = String::new(alloc);
    write_opening(&mut text, &callers.board, callers.limit)?;
    put_steps(&mut text, callers.setup.as_slice())?;
    let mut made = none_made(alloc, callers.callers.as_slice())?;
    put_along(&mut text, callers, &mut made, order)?;
    if text.len() > MOST_BYTES {
        return Err(AllocError);
    }
    Ok(text)
}
