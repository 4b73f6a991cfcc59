//! Texts of callers, drawn: played, with the threads' states after each line.
ghost use Rattle.std.specs.Prelude.{◌≡◌, ◌++◌, codes, decimal, is_some, map, IfErr, IfOk, IsSomeAnd, OnOk, false};
ghost use Rattle.std.specs.Io.KnownBytes.{Appends};
ghost use Rattle.evl_plans.specs.Told.{handler_of};
ghost use Rattle.lab_kinds.specs.Kinds as kinds;
ghost use Rattle.lab_draws.specs.Draws.{DrawsCallers, DrawsKind, DrawsRun, fault_words, unplayed_words};
ghost use Rattle.lab_streams.specs.Endings.{line_about};
ghost use Rattle.lab_streams.specs.Outputs.{Writes};
ghost use Rattle.lab_streams.specs.Streams.{EndsEarly};

use crate::draw_faults::tell_neither;
use crate::draws::{View, draw_trace};
use evl_scenario::Fault;
use lab_caller_pictures::{CallersRun, Source, Unplayed, play_drawn};
use lab_callers::StepFault;
use lab_kinds::{TextKind, kind_of};
use lab_streams::{AT_FAULT, Stream, tell_fault_by, tell_refused};
use std::alloc::{AllocError, Global};
use std::io;

// Says which step of callers can't be made, and why.
fn tell_step<E: Stream>(err: &mut E, number: usize, fault: StepFault) -> io::Result<bool>
    ensures line { OnOk result (IsSomeAnd (unplayed_words (Unplayed.Step number fault)) (λ words. Appends (E.contents err.old) (E.contents err.new) (line_about (codes "lab") words))) }
    ensures early { IfErr result (EndsEarly false false (E.has_failed err.new)) }
{
    let words = fault.words();
    writeln!(err, "lab: bad step {number}: {words}")?;
    Ok(true)
}

// Says why nothing is drawn of a text of callers, but not that memory is wanting: that is this function's own error.
fn tell_why<E: Stream>(err: &mut E, why: Unplayed) -> io::Result<bool>
    ensures line { OnOk result (IsSomeAnd (unplayed_words why) (λ words. Appends (E.contents err.old) (E.contents err.new) (line_about (codes "lab") words))) }
    ensures early { IfErr result (EndsEarly false false (E.has_failed err.new)) }
{
    match why {
        Unplayed::Text(fault) => tell_fault_by(err, "lab", TextKind::Scenario, fault),
        Unplayed::Board => tell_refused(err, "lab", "bad board"),
        Unplayed::Step(number, fault) => tell_step(err, number, fault),
        Unplayed::Memory => Err(AllocError.into()),
    }
}

// The same with the status.
fn tell_unplayed<E: Stream>(err: &mut E, why: Unplayed) -> io::Result<u8>
    ensures status { IfOk result (λ status. status ≡ 2) }
    ensures line { OnOk result (IsSomeAnd (unplayed_words why) (λ words. Appends (E.contents err.old) (E.contents err.new) (line_about (codes "lab") words))) }
    ensures early { IfErr result (EndsEarly false false (E.has_failed err.new)) }
{
    tell_why(err, why)?;
    Ok(AT_FAULT)
}

// Writes the picture of what is drawn of a text of callers.
fn draw_run<O: Stream, E: Stream>(
    alloc: Global,
    run: &CallersRun,
    view: &View<'_>,
    out: &mut O,
    err: &mut E,
) -> io::Result<u8>
    ensures writes { IfOk result (Writes (DrawsRun (map handler_of view.now.bank.now) view.now.drawing run.now) (O.contents out.old) (O.contents out.new) (E.contents err.old) (E.contents err.new)) }
    ensures early { IfErr result (EndsEarly false (O.has_failed out.new) (E.has_failed err.new)) }
{
    let lines = run.lines.as_str();
    match &run.entered {
        Some(known) => draw_trace(
            alloc,
            lines,
            Source::Threads(view.bank, known),
            view,
            out,
            err,
        ),
        None => draw_trace(alloc, lines, Source::Callers, view, out, err),
    }
}

// Plays a text of callers, and writes its picture.
fn draw_called<O: Stream, E: Stream>(
    alloc: Global,
    text: &str,
    view: &View<'_>,
    out: &mut O,
    err: &mut E,
) -> io::Result<u8>
    ensures writes { IfOk result (Writes (DrawsCallers (map handler_of view.now.bank.now) view.now.drawing text.now) (O.contents out.old) (O.contents out.new) (E.contents err.old) (E.contents err.new)) }
    ensures early { IfErr result (EndsEarly false (O.has_failed out.new) (E.has_failed err.new)) }
{
    match play_drawn(alloc, view.bank, text.as_bytes()) {
        Ok(run) => draw_run(alloc, &run, view, out, err),
        Err(why) => tell_unplayed(err, why),
    }
}

// Whether there are words for a fault.
fn has_words(fault: Fault) -> bool
    ensures { result ≡ is_some (fault_words fault) }
{
    !matches!(fault, Fault::Memory | Fault::Write)
}

/// Writes the picture of a text that is no scenario for a fault, if it is one of callers; else says for which part it
/// is, or what is wrong with it. This line of it is none of a trace.
pub fn draw_unplayed<O: Stream, E: Stream>(
    alloc: Global,
    text: &str,
    line: usize,
    fault: Fault,
    view: &View<'_>,
    out: &mut O,
    err: &mut E,
) -> io::Result<u8>
    ensures writes { IfOk result (Writes (λ output. IsSomeAnd (fault_words fault) (λ words. DrawsKind (kinds.kind_of text.now) (map handler_of view.now.bank.now) view.now.drawing text.now line words output)) (O.contents out.old) (O.contents out.new) (E.contents err.old) (E.contents err.new)) }
    ensures early { IfErr result (EndsEarly false (O.has_failed out.new) (E.has_failed err.new)) }
{
    if !has_words(fault) {
        return Err(AllocError.into());
    }
    let kind = kind_of(alloc, text.as_bytes())?;
    match kind {
        TextKind::Callers => draw_called(alloc, text, view, out, err),
        _ => tell_neither(err, line, kind, fault),
    }
}
