//! Reads a scenario, plays it, and says why it stopped.
ghost use Rattle.std.specs.Prelude.{◌≡◌, ◌⊎◌, ◌≤◌, ◌++◌, false, length, decimal, codes, IfOk, IfErr};
ghost use Rattle.evl_kernel.specs.state.Limits.{callback_limit};
ghost use Rattle.evl_scenario.specs.Lines.{line_feed};
ghost use Rattle.evl_shell.specs.Sinks.{TakesPrefix, Takes};
ghost use Rattle.evl_shell.specs.Runs.{handlers_of};
ghost use Rattle.evl_shell.specs.Plays as plays;
ghost use Rattle.evl_shell.specs.Plays.{Ended, IsInput, ReadsFew, stop_line};

use crate::lent::OverLent;
use crate::readings::{ReadFault, read_at_most};
use crate::runs::run;
use crate::sinks::{Sink, SinkFailed, put_all};
use evl_pipeline::Callback;
use evl_scenario::Fault;
use std::alloc::Global;
use std::io::{Read, Write};

// One byte more than a scenario may have.
const MOST_READ: usize = 1_048_577;

/// Why the program stopped before the end of a trace.
#[derive(Clone, Copy, PartialEq, Eq)]
pub enum Stop {
    /// A read of the input failed.
    NoFile,
    /// The scenario wasn't played to its end.
    Broken(Fault),
}

// The bytes of the input up to its end, but for those past one more than a scenario may have.
fn read_input<R: Read>(alloc: Global, input: &mut R) -> Result<Vec<u8>, Stop>
    ensures text { IfOk result (λ text. IsInput (R.remaining input.old) text.items) }
    ensures stop { IfErr result (λ e. (e ≡ Stop.NoFile) ⊎ (e ≡ Stop.Broken Fault.Memory)) }
    ensures few { ReadsFew (R.remaining input.old) (R.remaining input.new) }
{
    match read_at_most(alloc, input, MOST_READ) {
        Ok(text) => Ok(text),
        Err(ReadFault::Failed) => Err(Stop::NoFile),
        Err(ReadFault::Memory) => Err(Stop::Broken(Fault::Memory)),
    }
}

// Puts a text whole, or a front part where the sink fails. Its failure is ignored.
pub(crate) fn put_line<S: Sink>(err: &mut S, line: &[u8])
    requires working { S.has_failed err.old ≡ false }
    ensures takes { Takes (S.told err.old) (S.told err.new) line.now (S.has_failed err.new) }
    ensures place { S.place err.new ≡ S.place err.old }
{
    match put_all(err, line) {
        Ok(()) => {}
        Err(SinkFailed) => {}
    }
}

// Puts the line of a bad step.
fn put_step_line<S: Sink>(err: &mut S, number: u32)
    requires working { S.has_failed err.old ≡ false }
    ensures takes { Takes (S.told err.old) (S.told err.new) (codes "evl: bad step " ++ (decimal number ++ line_feed)) (S.has_failed err.new) }
    ensures place { S.place err.new ≡ S.place err.old }
{
    match put_all(err, b"evl: bad step ") {
        Ok(()) => {}
        Err(SinkFailed) => return,
    }
    match put_all(err, itoa::Buffer::new().format(number).as_bytes()) {
        Ok(()) => {}
        Err(SinkFailed) => return,
    }
    put_line(err, b"\n");
}

// The status of a stop.
fn status_of(stop: Stop) -> u8
    ensures { result ≡ plays.status_of stop }
{
    match stop {
        Stop::Broken(Fault::Write) => 1,
        Stop::Broken(Fault::Memory) => 4,
        _ => 2,
    }
}

// Puts the line of a stop whole, or a front part where the sink fails.
fn report<S: Sink>(err: &mut S, stop: Stop)
    requires working { S.has_failed err.old ≡ false }
    ensures takes { Takes (S.told err.old) (S.told err.new) (stop_line stop) (S.has_failed err.new) }
    ensures place { S.place err.new ≡ S.place err.old }
{
    match stop {
        Stop::NoFile => put_line(err, b"evl: no file\n"),
        Stop::Broken(Fault::Text) => put_line(err, b"evl: bad text\n"),
        Stop::Broken(Fault::Board) => put_line(err, b"evl: bad board\n"),
        Stop::Broken(Fault::Step(number)) => put_step_line(err, number),
        Stop::Broken(Fault::Memory) => put_line(err, b"evl: no memory\n"),
        Stop::Broken(Fault::Write) => put_line(err, b"evl: write fault\n"),
    }
}

/// Puts the line of a stop and answers its status. The line goes out whole, unless the sink fails.
pub fn conclude<S: Sink>(err: &mut S, stop: Stop) -> u8
    requires working { S.has_failed err.old ≡ false }
    ensures takes { Takes (S.told err.old) (S.told err.new) (stop_line stop) (S.has_failed err.new) }
    ensures status { result ≡ plays.status_of stop }
    ensures place { S.place err.new ≡ S.place err.old }
{
    report(err, stop);
    status_of(stop)
}

/// Writes the line of a stop and answers its status; a failure of `err` is ignored.
pub fn stopped<E: Write>(err: &mut E, stop: Stop) -> u8
    ensures says { TakesPrefix (E.contents err.old) (E.contents err.new) (stop_line stop) }
    ensures status { result ≡ plays.status_of stop }
{
    let mut sink = OverLent {
        writer: err,
        failed: false,
    };
    let status = conclude(&mut sink, stop);

    // The proof reads what `err` holds from this use of the writer.
    let _ = &*sink.writer;
    status
}

/// Plays the scenario that an input holds, over a bank of at most 64 callbacks, under a limit that may be handed in.
pub fn play_input<R: Read, S: Sink>(
    alloc: Global,
    limit: Option<u32>,
    bank: Vec<Callback>,
    input: &mut R,
    out: &mut S,
) -> Result<(), Stop>
    requires working { S.has_failed out.old ≡ false }
    requires few { length bank.items ≤ callback_limit }
    ensures ended { Ended (handlers_of (λ (c : _). c.kinds.0) (λ (c : _). c.plan.value) bank.items) limit (R.remaining input.old) (S.told out.old) (S.told out.new) (S.has_failed out.new) result }
    ensures few { ReadsFew (R.remaining input.old) (R.remaining input.new) }
{
    let text = match read_input(alloc, input) {
        Ok(text) => text,
        Err(stop) => return Err(stop),
    };
    match run(alloc, text.as_slice(), limit, bank, out) {
        Ok(()) => Ok(()),
        Err(fault) => Err(Stop::Broken(fault)),
    }
}
