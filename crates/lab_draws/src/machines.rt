//! The picture of a machine that was asked for the steps of a scenario.
ghost use Rattle.std.specs.Prelude.{◌≡◌, IfOk, map};
ghost use Rattle.evl_plans.specs.Told.{handler_of};
ghost use Rattle.lab_draws.specs.Machines.{IsPictured, IsPicturedOf, IsPicturedTrace};
ghost use Rattle.lab_streams.specs.Texts as texts;

use evl_plans::{Planned, trace_plans};
use lab_caller_pictures::{Source, picture_of};
use lab_drawing::{marks_of, page_count};
use lab_streams::text_in;
use lab_traces::{TraceLine, read_lines};
use std::alloc::{AllocError, Global};

/// The first page of a picture, and how many pages there are.
#[derive(Drop)]
pub struct Pictured {
    pub picture: Vec<u8>,
    pub pages: usize,
}

// The most callbacks of a bank.
const MOST: usize = 64;

// The picture of the lines of the trace that a scenario has over these callbacks.
fn pictured_lines(
    alloc: Global,
    lines: &[TraceLine<'_>],
    bank: &[Planned],
    text: &str,
) -> Result<Pictured, AllocError>
    ensures { IfOk result (IsPicturedOf (map handler_of bank.now) text.now lines.now) }
{
    let marks = marks_of(alloc, lines)?;
    let marks = marks.as_slice();
    let picture = picture_of(alloc, marks, Source::Scenario(bank, text), None, 0)?;
    Ok(Pictured {
        picture,
        pages: page_count(marks),
    })
}

// The picture of that trace.
fn pictured_trace(
    alloc: Global,
    trace: &[u8],
    bank: &[Planned],
    text: &str,
) -> Result<Pictured, AllocError>
    ensures { IfOk result (IsPicturedTrace (map handler_of bank.now) text.now (texts.text_in trace.now)) }
{
    match read_lines(alloc, text_in(trace)) {
        Ok(lines) => pictured_lines(alloc, lines.as_slice(), bank, text),
        Err(_) => Err(AllocError),
    }
}

/// The picture of a scenario over at most 64 callbacks: the first page of what `draw` prints. `AllocError` where memory
/// couldn't grow, or where nothing plays such a text over such a bank.
pub fn machine_picture(alloc: Global, bank: &[Planned], text: &str) -> Result<Pictured, AllocError>
    ensures { IfOk result (IsPictured (map handler_of bank.now) text.now) }
{
    if bank.len() > MOST {
        return Err(AllocError);
    }
    match trace_plans(alloc, bank, text.as_bytes(), None) {
        Ok(trace) => pictured_trace(alloc, trace.as_slice(), bank, text),
        Err(_) => Err(AllocError),
    }
}
