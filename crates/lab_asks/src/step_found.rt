//! The report on the orders of callers' atomic steps.
ghost use Rattle.std.specs.Prelude.{◌≡◌, option_map, string_bytes, IfErr, IfOk, false};
ghost use Rattle.lab_orders.specs.Tallies.{told_weight};
ghost use Rattle.lab_streams.specs.Outputs.{Writes};
ghost use Rattle.lab_streams.specs.Streams.{EndsEarly};
ghost use Rattle.lab_asks.specs.StepOrders.{lines_of, one_told, outcomes_told, report_of, state_told, verdict};

use crate::numbered::{order_at, outcome_at, tell_no_outcome, tell_no_state};
use crate::step_answers::answers_of;
use crate::step_orders::tell_printed;
use lab_orders::Tally;
use lab_scenario_orders::Ask;
use lab_step_orders::{Crew, StepOutcomes, write_step_report};
use lab_step_texts::write_order_lines;
use lab_streams::Stream;
use std::alloc::{AllocError, Global};
use std::io;

/// The part of the orders of steps that is printed.
#[derive(Clone, Copy, PartialEq, Eq)]
pub(crate) enum StepView {
    Report,
    /// The first order of the outcome with this number, from 1, step by step.
    Outcome(u32),
    /// As above, of the first order that leads to a moment as the question with this number looks for, from 1.
    State(u32),
    /// Which answers came to each call.
    Answers,
}

// The report.
#[tactic(auto, unfolding(crate::specs::StepOrders::report_of))]
fn report_of(alloc: Global, crew: &Crew, found: &StepOutcomes) -> Result<String, AllocError>
    ensures { IfOk result (λ text. string_bytes text ≡ report_of crew.now found.now) }
{
    write_step_report(alloc, crew, found)
}

// The lines of an order.
#[tactic(auto, unfolding(crate::specs::StepOrders::lines_of))]
fn lines_of(alloc: Global, crew: &Crew, order: &[u16]) -> Result<String, AllocError>
    ensures { IfOk result (λ text. string_bytes text ≡ lines_of crew.now order.now) }
{
    write_order_lines(alloc, crew, order)
}

// Prints the report, and answers the status.
fn tell_report<O: Stream, E: Stream>(
    alloc: Global,
    name: &str,
    crew: &Crew,
    ask: &Ask,
    found: &StepOutcomes,
    out: &mut O,
    err: &mut E,
) -> io::Result<u8>
    ensures writes { IfOk result (Writes (λ output. output ≡ outcomes_told StepView.Report name.now crew.now ask.now found.now) (O.contents out.old) (O.contents out.new) (E.contents err.old) (E.contents err.new)) }
    ensures early { IfErr result (EndsEarly false (O.has_failed out.new) (E.has_failed err.new)) }
{
    match report_of(alloc, crew, found) {
        Ok(report) => tell_printed(report.as_bytes(), name, ask, found, out, err),
        Err(error) => Err(error.into()),
    }
}

// Prints the answers of all calls, and answers the status.
fn tell_answers<O: Stream, E: Stream>(
    alloc: Global,
    name: &str,
    crew: &Crew,
    ask: &Ask,
    found: &StepOutcomes,
    out: &mut O,
    err: &mut E,
) -> io::Result<u8>
    requires { told_weight (λ told. 1) found.now.all.items ≡ found.now.count }
    ensures writes { IfOk result (Writes (λ output. output ≡ outcomes_told StepView.Answers name.now crew.now ask.now found.now) (O.contents out.old) (O.contents out.new) (E.contents err.old) (E.contents err.new)) }
    ensures early { IfErr result (EndsEarly false (O.has_failed out.new) (E.has_failed err.new)) }
{
    match answers_of(alloc, crew, found) {
        Ok(text) => tell_printed(text.as_slice(), name, ask, found, out, err),
        Err(error) => Err(error.into()),
    }
}

// Prints the lines of an order alone, and answers the status.
fn tell_lines<O: Stream, E: Stream>(
    alloc: Global,
    name: &str,
    crew: &Crew,
    ask: &Ask,
    found: &StepOutcomes,
    order: &[u16],
    out: &mut O,
    err: &mut E,
) -> io::Result<u8>
    ensures writes { IfOk result (Writes (λ output. output ≡ verdict (lines_of crew.now order.now) name.now ask.now found.now) (O.contents out.old) (O.contents out.new) (E.contents err.old) (E.contents err.new)) }
    ensures early { IfErr result (EndsEarly false (O.has_failed out.new) (E.has_failed err.new)) }
{
    match lines_of(alloc, crew, order) {
        Ok(text) => tell_printed(text.as_bytes(), name, ask, found, out, err),
        Err(error) => Err(error.into()),
    }
}

// Prints those of the outcome with this number, if there is one, and answers the status.
fn tell_one<O: Stream, E: Stream>(
    alloc: Global,
    name: &str,
    number: u32,
    crew: &Crew,
    ask: &Ask,
    found: &StepOutcomes,
    outcome: Option<&Tally>,
    out: &mut O,
    err: &mut E,
) -> io::Result<u8>
    ensures writes { IfOk result (Writes (λ output. output ≡ one_told name.now number crew.now ask.now found.now (option_map (λ outcome. outcome.now) outcome.entry)) (O.contents out.old) (O.contents out.new) (E.contents err.old) (E.contents err.new)) }
    ensures early { IfErr result (EndsEarly false (O.has_failed out.new) (E.has_failed err.new)) }
{
    match outcome {
        Some(one) => {
            let order = one.order.as_slice();
            tell_lines(alloc, name, crew, ask, found, order, out, err)
        }
        None => tell_no_outcome(err, name, number),
    }
}

// As `tell_one`, of the first order of the question with this number.
fn tell_state<O: Stream, E: Stream>(
    alloc: Global,
    name: &str,
    number: u32,
    crew: &Crew,
    ask: &Ask,
    found: &StepOutcomes,
    order: Option<&[u16]>,
    out: &mut O,
    err: &mut E,
) -> io::Result<u8>
    ensures writes { IfOk result (Writes (λ output. output ≡ state_told name.now number crew.now ask.now found.now (option_map (λ places. places.now) order.entry)) (O.contents out.old) (O.contents out.new) (E.contents err.old) (E.contents err.new)) }
    ensures early { IfErr result (EndsEarly false (O.has_failed out.new) (E.has_failed err.new)) }
{
    match order {
        Some(places) => tell_lines(alloc, name, crew, ask, found, places, out, err),
        None => tell_no_state(err, name, number),
    }
}

/// Prints the report, or one order alone, says what came of what is asked, and answers the status.
pub(crate) fn tell_found<O: Stream, E: Stream>(
    alloc: Global,
    name: &str,
    view: StepView,
    crew: &Crew,
    ask: &Ask,
    found: &StepOutcomes,
    out: &mut O,
    err: &mut E,
) -> io::Result<u8>
    requires { told_weight (λ told. 1) found.now.all.items ≡ found.now.count }
    ensures writes { IfOk result (Writes (λ output. output ≡ outcomes_told view name.now crew.now ask.now found.now) (O.contents out.old) (O.contents out.new) (E.contents err.old) (E.contents err.new)) }
    ensures early { IfErr result (EndsEarly false (O.has_failed out.new) (E.has_failed err.new)) }
{
    match view {
        StepView::Report => tell_report(alloc, name, crew, ask, found, out, err),
        StepView::Answers => tell_answers(alloc, name, crew, ask, found, out, err),
        StepView::Outcome(number) => {
            let outcome = outcome_at(found.all.as_slice(), number);
            tell_one(alloc, name, number, crew, ask, found, outcome, out, err)
        }
        StepView::State(number) => {
            let order = order_at(found.firsts.as_slice(), number);
            tell_state(alloc, name, number, crew, ask, found, order, out, err)
        }
    }
}
