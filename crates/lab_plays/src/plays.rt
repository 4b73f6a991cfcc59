//! `lab play`: the traces of scenarios.
ghost use Rattle.std.specs.Prelude.{◌≡◌, ◌≤◌, List, [], ◌∷◌, ℕ, false, length, IfOk, OnOk, map, option_map, IfErr};
ghost use Rattle.std.specs.Io.KnownBytes.{Appends};
ghost use Rattle.evl_shell.specs.Runs.{trace_of};
ghost use Rattle.evl_plans.specs.Told.{handler_of};
ghost use Rattle.lab_traces.specs.Says.{says_of};
ghost use Rattle.lab_reports.specs.Json.{trace_json};
ghost use Rattle.lab_streams.specs.Banks.{IsBank};
ghost use Rattle.lab_streams.specs.Texts.{is_input, names_or_input};
ghost use Rattle.lab_kinds.specs.Kinds.{kind_of};
ghost use Rattle.lab_plays.specs.Plays.{IsJsonOf, IsPlayed, Plays, PlaysEach, PlaysUnlessRefused, Tells, TellsGiven, TellsJudged, TellsPlayed, TellsTrace};
ghost use Rattle.lab_streams.specs.Streams.{EndsEarly};

use crate::compares::compare;
use crate::expects::{judge, tell_judged};
use evl_plans::{Planned, trace_plans};
use lab_kinds::kind_of;
use lab_lines::plain_text;
use lab_reports::write_json;
use lab_streams::{
    AT_FAULT, Playing, Stream, Telling, read_plans, read_text, tell_done, tell_fault_by,
    tell_place, tell_unread, text_in, worse,
};
use lab_traces::{Misread, TraceLine, read_lines};
use std::alloc::{AllocError, Global};
use std::io::{self, Read};
use std::rt::Files;

// Writes the lines of a trace as JSON.
fn put_lines<O: Stream>(
    alloc: Global,
    name: &str,
    lines: &[TraceLine<'_>],
    out: &mut O,
) -> io::Result<()>
    ensures text { OnOk result (Appends (O.contents out.old) (O.contents out.new) (trace_json name.now (map (λ line. says_of line.says) lines.now))) }
    ensures early { IfErr result (EndsEarly false (O.has_failed out.new) false) }
{
    match write_json(alloc, name, lines) {
        Ok(json) => out.write_all(json.as_bytes()),
        Err(error) => Err(error.into()),
    }
}

// Writes a text as JSON, where it is lines of a trace.
fn put_json<O: Stream>(alloc: Global, name: &str, text: &str, out: &mut O) -> io::Result<()>
    ensures text { OnOk result ((json : List ℕ) × IsJsonOf name.now text.now json × Appends (O.contents out.old) (O.contents out.new) json) }
    ensures early { IfErr result (EndsEarly false (O.has_failed out.new) false) }
{
    match read_lines(alloc, text) {
        Ok(lines) => put_lines(alloc, name, lines.as_slice(), out),
        Err(Misread::Memory) => Err(AllocError.into()),
        Err(Misread::Line(_)) => Ok(()),
    }
}

// Prints a trace, and answers the status.
fn tell_whole<O: Stream, E: Stream>(
    name: &str,
    trace: &[u8],
    out: &mut O,
    err: &mut E,
) -> io::Result<u8>
    ensures told { IfOk result (Tells (TellsTrace Telling.Trace name.now trace.now) (O.contents out.old) (O.contents out.new) (E.contents err.old) (E.contents err.new)) }
    ensures early { IfErr result (EndsEarly false (O.has_failed out.new) (E.has_failed err.new)) }
{
    out.write_all(trace)?;
    tell_done(err, name)?;
    Ok(0)
}

// Prints a trace as JSON, and answers the status.
fn tell_json<O: Stream, E: Stream>(
    alloc: Global,
    name: &str,
    trace: &[u8],
    out: &mut O,
    err: &mut E,
) -> io::Result<u8>
    ensures told { IfOk result (Tells (TellsTrace Telling.Json name.now trace.now) (O.contents out.old) (O.contents out.new) (E.contents err.old) (E.contents err.new)) }
    ensures early { IfErr result (EndsEarly false (O.has_failed out.new) (E.has_failed err.new)) }
{
    put_json(alloc, name, text_in(trace), out)?;
    tell_done(err, name)?;
    Ok(0)
}

// Prints what is asked for of a trace, and answers the status.
fn tell_trace<R: Files + AllocGlobal, O: Stream, E: Stream>(
    rt: &R,
    telling: Telling<'_>,
    name: &str,
    trace: &[u8],
    out: &mut O,
    err: &mut E,
) -> io::Result<u8>
    ensures told { IfOk result (Tells (TellsTrace telling.entry name.now trace.now) (O.contents out.old) (O.contents out.new) (E.contents err.old) (E.contents err.new)) }
    ensures early { IfErr result (EndsEarly false (O.has_failed out.new) (E.has_failed err.new)) }
{
    match telling {
        Telling::Trace => tell_whole(name, trace, out, err),
        Telling::Json => tell_json(rt.alloc(), name, trace, out, err),
        Telling::Against(folder) => compare(rt, name, folder, text_in(trace), out, err),
    }
}

// Plays a scenario's text, and answers the status.
fn play_text<R: Files + AllocGlobal, O: Stream, E: Stream>(
    rt: &R,
    plans: &[Planned],
    playing: Playing<'_>,
    name: &str,
    text: &[u8],
    out: &mut O,
    err: &mut E,
) -> io::Result<u8>
    requires { length plans.now ≤ 64 }
    ensures told { IfOk result (Tells (TellsPlayed playing.entry.telling name.now (kind_of text.now) (trace_of (map handler_of plans.now) playing.entry.limit text.now)) (O.contents out.old) (O.contents out.new) (E.contents err.old) (E.contents err.new)) }
    ensures early { IfErr result (EndsEarly false (O.has_failed out.new) (E.has_failed err.new)) }
{
    match trace_plans(rt.alloc(), plans, text, playing.limit) {
        Ok(trace) => tell_trace(rt, playing.telling, name, trace.as_slice(), out, err),
        Err(fault) => {
            let kind = kind_of(rt.alloc(), text)?;
            tell_fault_by(err, name, kind, fault)?;
            Ok(AT_FAULT)
        }
    }
}

// Plays what is in place of a text, and answers the status.
fn play_given<R: Files + AllocGlobal, O: Stream, E: Stream>(
    rt: &R,
    plans: &[Planned],
    playing: Playing<'_>,
    name: &str,
    text: Vec<u8>,
    out: &mut O,
    err: &mut E,
) -> io::Result<u8>
    requires { length plans.now ≤ 64 }
    ensures told { IfOk result (Tells (TellsGiven playing.entry.telling (map handler_of plans.now) playing.entry.limit name.now text.items) (O.contents out.old) (O.contents out.new) (E.contents err.old) (E.contents err.new)) }
    ensures early { IfErr result (EndsEarly false (O.has_failed out.new) (E.has_failed err.new)) }
{
    match plain_text(rt.alloc(), text) {
        Ok(plain) => play_text(rt, plans, playing, name, plain.as_slice(), out, err),
        Err(fault) => {
            tell_place(err, name, &fault)?;
            Ok(AT_FAULT)
        }
    }
}

// Plays a text, then says whether its steps are answered as it expects, and answers the worse status.
fn play_judged<R: Files + AllocGlobal, O: Stream, E: Stream>(
    rt: &R,
    plans: &[Planned],
    playing: Playing<'_>,
    name: &str,
    text: Vec<u8>,
    out: &mut O,
    err: &mut E,
) -> io::Result<u8>
    requires { length plans.now ≤ 64 }
    ensures told { IfOk result (Tells (TellsJudged playing.entry.telling (map handler_of plans.now) playing.entry.limit name.now text.items) (O.contents out.old) (O.contents out.new) (E.contents err.old) (E.contents err.new)) }
    ensures early { IfErr result (EndsEarly false (O.has_failed out.new) (E.has_failed err.new)) }
{
    let judged = judge(rt.alloc(), plans, playing.limit, name, text.as_slice())?;
    let status = play_given(rt, plans, playing, name, text, out, err)?;
    tell_judged(err, status, &judged)
}

// Plays a file, or the input where it is `-`, and answers the status.
fn play_file<R: Files + AllocGlobal, I: Read, O: Stream, E: Stream>(
    rt: &R,
    plans: &[Planned],
    playing: Playing<'_>,
    name: &str,
    input: &mut I,
    out: &mut O,
    err: &mut E,
) -> io::Result<u8>
    requires { length plans.now ≤ 64 }
    ensures told { IfOk result (PlaysEach (IsPlayed playing.entry.telling (map handler_of plans.now) playing.entry.limit) (name.now ∷ []) (I.remaining input.old) (O.contents out.old) (O.contents out.new) (E.contents err.old) (E.contents err.new)) }
    ensures input { is_input name.now ≡ false → input.new ≡ input.old }
    ensures early { IfErr result (EndsEarly false (O.has_failed out.new) (E.has_failed err.new)) }
{
    match read_text(rt, Some(name), input) {
        Ok(text) => play_judged(rt, plans, playing, name, text, out, err),
        Err(why) => {
            tell_unread(err, name, why)?;
            Ok(AT_FAULT)
        }
    }
}

// Plays files, and answers the status.
fn play_each<R: Files + AllocGlobal, I: Read, O: Stream, E: Stream>(
    rt: &R,
    plans: &[Planned],
    playing: Playing<'_>,
    files: &[&str],
    input: &mut I,
    out: &mut O,
    err: &mut E,
) -> io::Result<u8>
    requires { length plans.now ≤ 64 }
    ensures each { IfOk result (PlaysEach (IsPlayed playing.entry.telling (map handler_of plans.now) playing.entry.limit) (map (λ file. file.now) files.now) (I.remaining input.old) (O.contents out.old) (O.contents out.new) (E.contents err.old) (E.contents err.new)) }
    ensures early { IfErr result (EndsEarly false (O.has_failed out.new) (E.has_failed err.new)) }
{
    let mut status = 0;
    for file in files {
        let ended = play_file(rt, plans, playing, file, input, out, err)?;
        status = worse(status, ended);
    }
    Ok(status)
}

// Plays files, or the input where none is named, and answers the status.
fn play_over<R: Files + AllocGlobal, I: Read, O: Stream, E: Stream>(
    rt: &R,
    plans: &[Planned],
    playing: Playing<'_>,
    files: &[&str],
    input: &mut I,
    out: &mut O,
    err: &mut E,
) -> io::Result<u8>
    requires { length plans.now ≤ 64 }
    ensures each { IfOk result (PlaysEach (IsPlayed playing.entry.telling (map handler_of plans.now) playing.entry.limit) (names_or_input (map (λ file. file.now) files.now)) (I.remaining input.old) (O.contents out.old) (O.contents out.new) (E.contents err.old) (E.contents err.new)) }
    ensures early { IfErr result (EndsEarly false (O.has_failed out.new) (E.has_failed err.new)) }
{
    if files.is_empty() {
        play_file(rt, plans, playing, "-", input, out, err)
    } else {
        play_each(rt, plans, playing, files, input, out, err)
    }
}

/// Plays scenarios over a bank, says of each what is asked for and on `err` how it ended, and answers the worst status: 1
/// where a trace differs from one that was kept, or a step is answered otherwise than its text expects, 2 where a text is
/// refused or can't be read, such a trace isn't there, or the bank is at fault.
pub fn play_files<R: Files + AllocGlobal, I: Read, O: Stream, E: Stream>(
    rt: &R,
    playing: Playing<'_>,
    files: &[&str],
    input: &mut I,
    out: &mut O,
    err: &mut E,
) -> io::Result<u8>
    ensures plays { IfOk result (PlaysUnlessRefused playing.entry (map (λ file. file.now) files.now) (I.remaining input.old) (O.contents out.old) (O.contents out.new) (E.contents err.old) (E.contents err.new)) }
    ensures early { IfErr result (EndsEarly false (O.has_failed out.new) (E.has_failed err.new)) }
{
    match read_plans(rt, playing.bank, err) {
        Ok(Some(plans)) => play_over(rt, plans.as_slice(), playing, files, input, out, err),
        Ok(None) => Ok(AT_FAULT),
        Err(error) => Err(error),
    }
}
