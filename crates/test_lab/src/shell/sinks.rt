//! Runs into sinks that take little, fail at each write in turn, or report how they were used.
use super::texts::{ABOUT_A_PART, BOARD, LONG, Length, SHORTEST, TEXT, TRACE, came, played, puts};
use super::writers::Narrow;
use evl_shell::Fault;
use std::alloc::Global;

/// A run of a text into a writer: whether it ends so, and with the sink failed just then; and the writer.
pub(crate) fn ends(
    alloc: Global,
    text: &str,
    out: Narrow,
    answer: Result<(), Fault>,
) -> (bool, Narrow) {
    let (came, failed, writer) = came(alloc, text.as_bytes(), None, out);
    (came == answer && failed == answer.is_err(), writer)
}

// Whether a run ends in a write fault where it has to, and the writer took just so many bytes; and the writer.
fn stops_after(
    alloc: Global,
    text: &str,
    out: Narrow,
    fails: bool,
    count: usize,
) -> (bool, Narrow) {
    let wanted = if fails { Err(Fault::Write) } else { Ok(()) };
    let (ends, writer) = ends(alloc, text, out, wanted);
    (ends && writer.taken.len() == count, writer)
}

fn starts(taken: &Vec<u8>, trace: &str) -> bool {
    Some(taken.as_slice()) == trace.as_bytes().get(..taken.len())
}

#[test]
fn a_byte_a_write(rt: HostRuntime) {
    let alloc = rt.alloc();
    let narrow = Narrow::new(alloc, 1, 0, false);
    let (ends, writer) = stops_after(alloc, TEXT, narrow, false, TRACE.len());
    assert!(rt; ends && writer.writes == TRACE.len() && starts(&writer.taken, TRACE));
}

#[test]
fn each_write_fails_once(rt: HostRuntime) {
    let alloc = rt.alloc();
    for stop in 1..60 {
        let fails = stop <= TRACE.len().div_ceil(2);
        let count = if fails { 2 * (stop - 1) } else { TRACE.len() };
        let narrow = Narrow::new(alloc, 2, stop, stop % 2 == 0);
        let (ends, writer) = stops_after(alloc, TEXT, narrow, fails, count);
        assert!(rt; ends && starts(&writer.taken, TRACE));
    }
}

// How many writes a thousand puts take, where the run ends so and the sink took just so many bytes; none elsewhere.
fn writes_of_puts(alloc: Global, out: Narrow, fails: bool, count: usize) -> Option<usize> {
    let Ok(text) = puts(alloc, BOARD, 1000, "") else {
        return None;
    };
    let (ends, writer) = stops_after(alloc, text.as_str(), out, fails, count);
    if ends { Some(writer.writes) } else { None }
}

#[test]
fn writes_in_chunks(rt: HostRuntime) {
    let wide = Narrow::new(rt.alloc(), 1_000_000, 0, false);
    assert!(rt; writes_of_puts(rt.alloc(), wide, false, 24_962) == Some(7));
}

#[test]
fn fails_after_4096_bytes(rt: HostRuntime) {
    let narrow = Narrow::new(rt.alloc(), 1024, 5, true);
    assert!(rt; writes_of_puts(rt.alloc(), narrow, true, 4096) == Some(5));
}

// More than a trace has.
const ALL: usize = 1_000_000;

// How many writes take a trace whole, each at most so many bytes; none where it isn't taken whole.
fn writes_of(alloc: Global, text: &str, trace: &str, most: usize) -> Option<usize> {
    let (ends, writer) = ends(alloc, text, Narrow::new(alloc, most, 0, false), Ok(()));
    if ends && writer.taken.as_slice() == trace.as_bytes() {
        Some(writer.writes)
    } else {
        None
    }
}

// How many bytes a writer has taken where a run ends at this write of its; none where it doesn't, or they aren't the
// trace's first ones.
fn taken_at(alloc: Global, text: &str, trace: &str, stop: usize, writer: Narrow) -> Option<usize> {
    let (ends, writer) = ends(alloc, text, writer, Err(Fault::Write));
    let taken = writer.taken.len();
    if ends
        && writer.writes == stop
        && Some(writer.taken.as_slice()) == trace.as_bytes().get(..taken)
    {
        Some(taken)
    } else {
        None
    }
}

// Whether each write in turn ends the run, by an error and by a count of 0, and each later one with more of the trace
// taken.
fn breaks_at_each(alloc: Global, text: &str, trace: &str, most: usize) -> bool {
    let Some(writes) = writes_of(alloc, text, trace, most) else {
        return false;
    };
    let mut least = 0usize;
    for stop in 1..writes.saturating_add(1) {
        let failing = Narrow::new(alloc, most, stop, true);
        let Some(taken) = taken_at(alloc, text, trace, stop, failing) else {
            return false;
        };
        let idle = Narrow::new(alloc, most, stop, false);
        if taken < least || taken_at(alloc, text, trace, stop, idle) != Some(taken) {
            return false;
        }
        least = taken.saturating_add(1);
    }
    writes > 0
}

// Whether a scenario's run ends at each write, where a writer takes at most so many bytes.
fn is_broken_at_each(alloc: Global, length: &Length, most: usize) -> bool {
    match played(alloc, length) {
        Some((text, trace)) => breaks_at_each(alloc, text.as_str(), trace.as_str(), most),
        None => false,
    }
}

#[test]
fn each_write_of_a_short_trace_fails_once(rt: HostRuntime) {
    for most in [1, 5, ALL] {
        assert!(rt; is_broken_at_each(rt.alloc(), &SHORTEST, most));
    }
}

#[test]
fn each_write_of_a_trace_fails_once(rt: HostRuntime) {
    for length in ABOUT_A_PART.as_slice() {
        assert!(rt; is_broken_at_each(rt.alloc(), length, 500));
        assert!(rt; is_broken_at_each(rt.alloc(), length, ALL));
    }
}

#[test]
fn each_write_of_a_long_trace_fails_once(rt: HostRuntime) {
    assert!(rt; is_broken_at_each(rt.alloc(), &LONG, ALL));
}

// Whether as many writes of one byte as it has take a scenario's trace.
fn goes_by_bytes(alloc: Global, length: &Length) -> bool {
    let Some((text, trace)) = played(alloc, length) else {
        return false;
    };
    writes_of(alloc, text.as_str(), trace.as_str(), 1) == Some(length.bytes)
}

#[test]
fn a_trace_goes_by_single_bytes(rt: HostRuntime) {
    assert!(rt; goes_by_bytes(rt.alloc(), &SHORTEST));
    assert!(rt; goes_by_bytes(rt.alloc(), &LONG));
    for length in ABOUT_A_PART.as_slice() {
        assert!(rt; goes_by_bytes(rt.alloc(), length));
    }
}
