//! Interrupt lines in a trace: where one has a callback, and where an event goes.
ghost use Rattle.std.specs.Prelude.{◌≡◌, IfOk, OnOk, option_map};
ghost use Rattle.lab_drawing.specs.Events as events;
ghost use Rattle.lab_drawing.specs.Events.{lines_after, without};
ghost use Rattle.lab_drawing.specs.declared.events.OnLines.TheVariants.{Requests, Frees, Posts};

use crate::lanes::{Lane, add_lane, is_lane};
use crate::marks::{number_at, value_of};
use crate::words::outcome;
use evl_base::Stage;
use lab_traces::{EntryLine, Says};
use std::alloc::{AllocError, Global};

/// The effect of a call on an interrupt line, by its lane.
#[derive(Clone, Copy, PartialEq, Eq)]
pub enum OnLines {
    /// It installs a callback there.
    Requests(Lane),
    /// It takes the callback away.
    Frees(Lane),
    /// It makes an event pending there, where a callback is installed.
    Posts(Lane),
}

// The lane of a line on a stage: line 0 is the clock's.
fn lane_on(stage: Stage, number: u16) -> Lane
    ensures { result ≡ events.lane_on stage number }
{
    match stage {
        Stage::Oob if number == 0 => Lane::Clock,
        Stage::Oob => Lane::Line(Stage::Oob, number),
        Stage::Inband => Lane::Line(Stage::Inband, number),
    }
}

/// The lane of the stage of a line.
pub fn stage_beside(lane: Lane) -> Lane
    ensures { result ≡ events.stage_beside lane }
{
    match lane {
        Lane::Line(stage, _) => Lane::Stage(stage),
        _ => lane,
    }
}

/// Whether a line has a callback, where these have one.
pub fn has_callback(lines: &[Lane], lane: Lane) -> bool
    ensures { result ≡ events.has_callback lines.now lane }
{
    lines.iter().any(|line| is_lane(lane, *line))
}

// The lane that an interrupt of a line goes to: the out-of-band stage first.
fn target(lines: &[Lane], number: u16) -> Lane
    ensures { result ≡ events.target lines.now number }
{
    let oob = lane_on(Stage::Oob, number);
    if has_callback(lines, oob) {
        oob
    } else {
        lane_on(Stage::Inband, number)
    }
}

// The stage of this name.
fn stage_named(value: &str) -> Option<Stage>
    ensures { result ≡ events.stage_named value.now }
{
    match value {
        "oob" => Some(Stage::Oob),
        "inband" => Some(Stage::Inband),
        _ => None,
    }
}

// The number of the line that a call names.
fn line_at(call: &str) -> Option<u16>
    ensures { result ≡ events.line_at call.now }
{
    number_at(call, " line=")
}

// The line that a call names, on the stage that it names.
fn lane_called(call: &str) -> Option<Lane>
    ensures { result ≡ events.lane_called call.now }
{
    let stage = stage_named(value_of(call, " stage=")?)?;
    let number = line_at(call)?;
    Some(lane_on(stage, number))
}

// The effect of `request` on lines.
fn requests(call: &str) -> Option<OnLines>
    ensures { result ≡ option_map Requests (events.lane_called call.now) }
{
    Some(OnLines::Requests(lane_called(call)?))
}

// The effect of `free` on lines.
fn frees(call: &str) -> Option<OnLines>
    ensures { result ≡ option_map Frees (events.lane_called call.now) }
{
    Some(OnLines::Frees(lane_called(call)?))
}

// The effect of `post` on lines.
fn posts(call: &str) -> Option<OnLines>
    ensures { result ≡ option_map Posts (events.lane_called call.now) }
{
    Some(OnLines::Posts(lane_called(call)?))
}

// The effect of `arrive` on lines, where these have a callback.
fn arrives(lines: &[Lane], call: &str) -> Option<OnLines>
    ensures { result ≡ option_map (λ number. Posts (events.target lines.now number)) (events.line_at call.now) }
{
    Some(OnLines::Posts(target(lines, line_at(call)?)))
}

// The effect of a call that makes an event on lines, where these have a callback.
fn events_of(lines: &[Lane], call: &str) -> Option<OnLines>
    ensures { result ≡ events.events_of lines.now call.now }
{
    if call.starts_with("post ") {
        posts(call)
    } else if call.starts_with("arrive ") {
        arrives(lines, call)
    } else {
        None
    }
}

// The effect of a call on lines, where these have a callback.
fn called_on(lines: &[Lane], call: &str) -> Option<OnLines>
    ensures { result ≡ events.called_on lines.now call.now }
{
    if call.starts_with("request ") {
        requests(call)
    } else if call.starts_with("free ") {
        frees(call)
    } else {
        events_of(lines, call)
    }
}

// The effect of an entry on lines: it was answered `done`.
fn entry_on(lines: &[Lane], entry: &EntryLine<'_>) -> Option<OnLines>
    ensures { result ≡ events.entry_on lines.now entry.now }
{
    if outcome(entry.answer) == "done" {
        called_on(lines, entry.call)
    } else {
        None
    }
}

/// The effect of the call of a line of a trace on interrupt lines, where these have a callback.
pub fn said_on(lines: &[Lane], says: &Says<'_>) -> Option<OnLines>
    ensures { result ≡ events.said_on lines.now says.now }
{
    match says {
        Says::Entry(entry) => entry_on(lines, entry),
        _ => None,
    }
}

// All lanes but one.
fn without(alloc: Global, lane: Lane, lines: &[Lane]) -> Result<Vec<Lane>, AllocError>
    ensures { IfOk result (λ kept. kept.items ≡ without lane lines.now) }
{
    let mut kept = Vec::new(alloc);
    for line in lines {
        if !is_lane(*line, lane) {
            kept.push(*line)?;
        }
    }
    Ok(kept)
}

/// Notes which lines have a callback after a call. `AllocError` where the list couldn't grow.
pub fn note_lines(
    alloc: Global,
    lines: &mut Vec<Lane>,
    does: Option<OnLines>,
) -> Result<(), AllocError>
    ensures { OnOk result (lines.new.items ≡ lines_after lines.old.items does) }
{
    match does {
        Some(OnLines::Requests(lane)) => add_lane(lines, lane),
        Some(OnLines::Frees(lane)) => {
            *lines = without(alloc, lane, lines.as_slice())?;
            Ok(())
        }
        _ => Ok(()),
    }
}
