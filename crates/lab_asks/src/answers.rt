//! The report of `lab orders --answers`: which answers came at each step of each caller, and in how many orders.
ghost use Rattle.std.specs.Prelude.{◌≡◌, ◌<◌, ◌++◌, IfErr, IfOk, OnOk, false, flat_map};
ghost use Rattle.std.specs.Io.KnownBytes.{Appends};
ghost use Rattle.lab_orders.specs.Tallies.{told_weight};
ghost use Rattle.lab_orders.specs.Weights.{count_limit};
ghost use Rattle.lab_scenario_orders.specs.Reports.{counts_text};
ghost use Rattle.lab_asks.specs.OneOrder.{text_name};
ghost use Rattle.lab_asks.specs.Outcomes.{answers_of, answers_told, caller_answers, callers_answers};
ghost use Rattle.lab_streams.specs.Outputs.{Writes};
ghost use Rattle.lab_streams.specs.Streams.{EndsEarly};

use crate::verdicts::tell_against;
use lab_orders::{Tally, put_answers, put_head};
use lab_scenario_orders::{Ask, Asked as Answered, Caller, Callers, Outcomes};
use lab_streams::{Asked, Stream};
use std::alloc::{AllocError, Global};
use std::io;

/// A number of orders is one that a count holds.
pub(crate) fn know_count(count: u128)
    ensures { count < count_limit }
{}

// Puts how many orders, outcomes and moments there are.
fn put_counts(alloc: Global, text: &mut Vec<u8>, found: &Outcomes) -> Result<(), AllocError>
    ensures { OnOk result (text.new.items ≡ text.old.items ++ counts_text found.now) }
{
    let outcomes = found.all.as_slice();
    put_head(
        alloc,
        text,
        found.count,
        outcomes.len(),
        found.moments,
        found.whole,
    )
}

// Puts the answers of a caller's steps.
fn put_caller(
    alloc: Global,
    text: &mut Vec<u8>,
    outcomes: &[Tally],
    caller: &Caller,
) -> Result<(), AllocError>
    requires { told_weight (λ told. 1) outcomes.now < count_limit }
    ensures { OnOk result (text.new.items ≡ text.old.items ++ caller_answers outcomes.now caller.now) }
{
    let who = usize::from(caller.who.0);
    put_answers(alloc, text, outcomes, who, caller.places.len())
}

// Puts the answers of these callers' steps.
fn put_callers(
    alloc: Global,
    text: &mut Vec<u8>,
    outcomes: &[Tally],
    callers: &[Caller],
) -> Result<(), AllocError>
    requires { told_weight (λ told. 1) outcomes.now < count_limit }
    ensures { OnOk result (text.new.items ≡ text.old.items ++ callers_answers outcomes.now callers.now) }
{
    for caller in callers {
        put_caller(alloc, text, outcomes, caller)?;
    }
    Ok(())
}

// The answers of all callers' steps, after the counts.
#[tactic(auto, unfolding(crate::specs::Outcomes::answers_of))]
fn answers_of(alloc: Global, callers: &Callers, found: &Outcomes) -> Result<Vec<u8>, AllocError>
    requires { told_weight (λ told. 1) found.now.all.items ≡ found.now.count }
    ensures { IfOk result (λ text. text.items ≡ answers_of callers.now found.now) }
{
    know_count(found.count);
    let mut text = Vec::new(alloc);
    put_counts(alloc, &mut text, found)?;
    put_callers(
        alloc,
        &mut text,
        found.all.as_slice(),
        callers.callers.as_slice(),
    )?;
    Ok(text)
}

// Prints the answers of all callers' steps.
fn print_answers<O: Stream>(
    alloc: Global,
    callers: &Callers,
    found: &Outcomes,
    out: &mut O,
) -> io::Result<()>
    requires { told_weight (λ told. 1) found.now.all.items ≡ found.now.count }
    ensures text { OnOk result (Appends (O.contents out.old) (O.contents out.new) (answers_of callers.now found.now)) }
    ensures early { IfErr result (EndsEarly false (O.has_failed out.new) false) }
{
    match answers_of(alloc, callers, found) {
        Ok(text) => out.write_all(text.as_slice()),
        Err(error) => Err(error.into()),
    }
}

/// Prints the answers of all callers' steps, whose outcomes have as many orders together as were counted; says what came
/// of what is asked, and answers the status.
pub(crate) fn tell_answers<O: Stream, E: Stream>(
    alloc: Global,
    asked: &Asked<'_>,
    callers: &Callers,
    ask: &Ask,
    answered: &Answered,
    out: &mut O,
    err: &mut E,
) -> io::Result<u8>
    requires { told_weight (λ told. 1) answered.now.outcomes.all.items ≡ answered.now.outcomes.count }
    ensures writes { IfOk result (Writes (λ output. output ≡ answers_told (text_name asked.now) callers.now ask.now answered.now.outcomes answered.now.against) (O.contents out.old) (O.contents out.new) (E.contents err.old) (E.contents err.new)) }
    ensures early { IfErr result (EndsEarly false (O.has_failed out.new) (E.has_failed err.new)) }
{
    print_answers(alloc, callers, &answered.outcomes, out)?;
    tell_against(err, asked.name(), ask, answered)
}
