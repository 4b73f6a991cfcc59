//! The picture of an outcome: the scenario that `orders` prints of it, drawn.
ghost use Rattle.std.specs.Prelude.{◌≡◌, [], Some, IfErr, IfOk, OnOk, false, option_map};
ghost use Rattle.lab.specs.Explains.{Behind, named};
ghost use Rattle.lab.specs.Outcomes.{DrawsFound, DrawsOutcome};
ghost use Rattle.lab_asks.specs.Orders.{TellsOrders};
ghost use Rattle.lab_streams.specs.Streams.{EndsEarly};

use crate::explains::{Takes, explained_orders};
use lab_draws::draw;
use lab_streams::{AT_FAULT, Asked, Drawing, Stream};
use std::alloc::{AllocError, Global};
use std::fmt::Display;
use std::io::{self, Read, Write};
use std::rt::Files;

// The output of a part, kept to be read again, and whether memory for it ran out.
#[derive(Drop)]
struct Kept {
    bytes: Vec<u8>,
    has_failed: bool,
}

impl Kept {
    // Nothing is printed yet.
    fn new(alloc: Global) -> Kept
        ensures none { result.bytes.items ≡ [] }
        ensures working { result.has_failed ≡ false }
    {
        Kept {
            bytes: Vec::new(alloc),
            has_failed: false,
        }
    }
}

impl Stream for Kept {
    ghost contents = { λ k. Some k.bytes.items };

    ghost has_failed = { λ k. k.has_failed };

    fn write_all(&mut self, bytes: &[u8]) -> io::Result<()> {
        match self.bytes.write_all(bytes) {
            Ok(()) => Ok(()),
            Err(error) => {
                self.has_failed = true;
                Err(error)
            }
        }
    }

    fn write_fmt<D: Display>(&mut self, text: D) -> io::Result<()>
    where
        D: Drop,
    {
        match self.bytes.write_fmt(text) {
            Ok(()) => Ok(()),
            Err(error) => {
                self.has_failed = true;
                Err(error)
            }
        }
    }
}

// Keeps what `orders` prints. Want of memory for it is this function's own error.
fn keep_printed<R: Files + AllocGlobal, I: Read, E: Stream>(
    rt: &R,
    asked: &Asked<'_>,
    input: &mut I,
    kept: &mut Kept,
    err: &mut E,
) -> io::Result<u8>
    ensures told { IfOk result (Behind (TellsOrders asked.now (I.remaining input.old)) Takes.Orders (named (option_map (λ file. file.now) asked.now.file)) (Some kept.old.bytes.items) (Some kept.new.bytes.items) (E.contents err.old) (E.contents err.new)) }
    ensures early { IfErr result (EndsEarly false false (E.has_failed err.new)) }
{
    match explained_orders(rt, asked, input, kept, err) {
        Ok(status) => Ok(status),
        Err(_) if kept.has_failed => Err(AllocError.into()),
        Err(error) => Err(error),
    }
}

// Draws what `orders` printed over the same bank, where it answered this status; where the text was refused, nothing.
fn draw_printed<R: Files + AllocGlobal, O: Stream, E: Stream>(
    rt: &R,
    bank: Option<&str>,
    drawing: Drawing,
    status: u8,
    printed: &[u8],
    out: &mut O,
    err: &mut E,
) -> io::Result<u8>
    ensures drawn { IfOk result (DrawsFound drawing (option_map (λ name. name.now) bank.entry) status printed.now (O.contents out.old) (O.contents out.new) (E.contents err.old) (E.contents err.new)) }
    ensures early { IfErr result (EndsEarly false (O.has_failed out.new) (E.has_failed err.new)) }
{
    if status == AT_FAULT {
        return Ok(AT_FAULT);
    }
    let mut scenario = printed;
    draw(rt, drawing, bank, None, &mut scenario, out, err)
}

/// Draws the outcome that is asked for: the scenario that `orders` prints of it, over the same bank. The report of
/// `[ask]` is before it. The status is that of the picture, or 2 where `orders` answers 2; then nothing is drawn.
pub fn draw_outcome<R: Files + AllocGlobal, I: Read, O: Stream, E: Stream>(
    rt: &R,
    asked: &Asked<'_>,
    drawing: Drawing,
    input: &mut I,
    out: &mut O,
    err: &mut E,
) -> io::Result<u8>
    ensures drawn { IfOk result (DrawsOutcome asked.now drawing (I.remaining input.old) (O.contents out.old) (O.contents out.new) (E.contents err.old) (E.contents err.new)) }
    ensures early { IfErr result (EndsEarly false (O.has_failed out.new) (E.has_failed err.new)) }
{
    let mut kept = Kept::new(rt.alloc());
    let status = keep_printed(rt, asked, input, &mut kept, err)?;
    draw_printed(
        rt,
        asked.bank,
        drawing,
        status,
        kept.bytes.as_slice(),
        out,
        err,
    )
}
