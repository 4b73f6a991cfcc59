//! Marks as trace events.
ghost use Rattle.std.specs.Prelude.{◌≡◌, IfErr, IfOk, OnOk, false};
ghost use Rattle.std.specs.Io.KnownBytes.{Appends};
ghost use Rattle.lab_draws.specs.Draws as draws;
ghost use Rattle.lab_streams.specs.Streams.{EndsEarly};

use lab_drawing::Mark;
use lab_reports::write_events;
use lab_streams::{Stream, put};
use std::alloc::Global;
use std::io;

/// Writes marks as trace events.
pub(crate) fn draw_events<O: Stream>(
    alloc: Global,
    marks: &[Mark<'_>],
    out: &mut O,
) -> io::Result<u8>
    ensures status { IfOk result (λ status. status ≡ 0) }
    ensures text { OnOk result (Appends (O.contents out.old) (O.contents out.new) (draws.events_of marks.now)) }
    ensures early { IfErr result (EndsEarly false (O.has_failed out.new) false) }
{
    match write_events(alloc, marks) {
        Ok(events) => put(out, events.as_bytes()),
        Err(error) => Err(error.into()),
    }
}
