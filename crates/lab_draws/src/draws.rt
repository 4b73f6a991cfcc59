//! `lab draw`: the picture of a trace, of a scenario, which is played, or of what `lab callers` prints.
ghost use Rattle.std.specs.Prelude.{◌≡◌, ◌≤◌, ◌++◌, codes, length, map, None, option_map, unwrap_or, IfErr, IfOk, false};
ghost use Rattle.std.specs.Str.{is_utf8};
ghost use Rattle.evl_plans.specs.Told.{handler_of};
ghost use Rattle.evl_scenario.specs.Lines.{line_feed};
ghost use Rattle.evl_shell.specs.Runs as runs;
ghost use Rattle.lab_caller_pictures.specs.Drawings.{callers, origin_of};
ghost use Rattle.lab_draws.specs.Draws as draws;
ghost use Rattle.lab_draws.specs.Draws.{Draws, DrawsGiven, DrawsIf, DrawsLines, DrawsMade, DrawsMarks, DrawsOver, DrawsPage, DrawsPlayed, DrawsRead, DrawsSome, DrawsSvg, DrawsText, DrawsUnclosed, DrawsWhole};
ghost use Rattle.lab_streams.specs.Outputs.{Writes, WritesOfText};
ghost use Rattle.lab_streams.specs.Streams.{EndsEarly};

use crate::callers_texts::draw_unplayed;
use crate::draw_faults::{tell_missing, tell_no_page, tell_page, tell_undrawn};
use crate::draw_forms::draw_events;
use crate::firsts::first_of;
use evl_plans::{Planned, trace_plans};
use lab_caller_pictures::{Source, picture_of};
use lab_drawing::{Goes, Mark, marks_of, missing_callback, page_count};
use lab_lines::plain_text;
use lab_streams::{
    AT_FAULT, Drawing, Form, Stream, Way, called, put, read_plans, read_text, refused, tell_place,
    tell_unread, text_in, with_line_feed,
};
use lab_traces::{Misread, TraceLine, read_lines};
use std::alloc::{AllocError, Global};
use std::io::{self, Read};
use std::rt::Files;

// The text between the lines of callers and what is printed of their machine's end.
const CLOSING: &str = "\nclose -> ";

// The text before the word that a line of callers shows.
const BAR: &str = " | ";

/// All that is asked for, and the callbacks that a scenario is played over.
#[derive(Clone, Copy, Drop)]
pub(crate) struct View<'a> {
    pub(crate) drawing: Drawing,
    pub(crate) bank: &'a [Planned],
}

// Which way is asked for.
fn goes_asked(way: Way) -> Option<Goes>
    ensures { result ≡ draws.goes_asked way }
{
    match way {
        Way::Down => Some(Goes::Down),
        Way::Across => Some(Goes::Across),
        Way::Fitting => None,
    }
}

// Writes the picture of a page of marks, from 1, of so many.
fn draw_page<O: Stream, E: Stream>(
    alloc: Global,
    marks: &[Mark<'_>],
    source: Source<'_>,
    drawing: Drawing,
    all: usize,
    out: &mut O,
    err: &mut E,
) -> io::Result<u8>
    ensures writes { IfOk result (Writes (DrawsPage drawing (origin_of source.entry) marks.now all) (O.contents out.old) (O.contents out.new) (E.contents err.old) (E.contents err.new)) }
    ensures early { IfErr result (EndsEarly false (O.has_failed out.new) (E.has_failed err.new)) }
{
    tell_page(err, drawing.page, all)?;
    let asked = goes_asked(drawing.way);
    let number = (drawing.page as usize).saturating_sub(1);
    match picture_of(alloc, marks, source, asked, number) {
        Ok(picture) => put(out, picture.as_slice()),
        Err(error) => Err(error.into()),
    }
}

// Writes the picture of a page of marks, from 1, and says so where there are several.
fn draw_svg<O: Stream, E: Stream>(
    alloc: Global,
    marks: &[Mark<'_>],
    source: Source<'_>,
    drawing: Drawing,
    out: &mut O,
    err: &mut E,
) -> io::Result<u8>
    ensures writes { IfOk result (Writes (DrawsSvg drawing (origin_of source.entry) marks.now) (O.contents out.old) (O.contents out.new) (E.contents err.old) (E.contents err.new)) }
    ensures early { IfErr result (EndsEarly false (O.has_failed out.new) (E.has_failed err.new)) }
{
    let all = page_count(marks);
    if drawing.page as usize > all {
        tell_no_page(err, drawing.page, all)
    } else {
        draw_page(alloc, marks, source, drawing, all, out, err)
    }
}

// Writes marks in a form.
fn draw_marks<O: Stream, E: Stream>(
    alloc: Global,
    marks: &[Mark<'_>],
    source: Source<'_>,
    drawing: Drawing,
    out: &mut O,
    err: &mut E,
) -> io::Result<u8>
    ensures writes { IfOk result (Writes (DrawsMarks drawing.form drawing (origin_of source.entry) marks.now) (O.contents out.old) (O.contents out.new) (E.contents err.old) (E.contents err.new)) }
    ensures early { IfErr result (EndsEarly false (O.has_failed out.new) (E.has_failed err.new)) }
{
    match drawing.form {
        Form::Svg => draw_svg(alloc, marks, source, drawing, out, err),
        Form::Events => draw_events(alloc, marks, out),
    }
}

// Writes the picture of the lines of a trace, with the lanes' states as far as the source of the lines gives them.
fn draw_lines<O: Stream, E: Stream>(
    alloc: Global,
    lines: &[TraceLine<'_>],
    source: Source<'_>,
    drawing: Drawing,
    out: &mut O,
    err: &mut E,
) -> io::Result<u8>
    ensures writes { IfOk result (Writes (DrawsLines drawing (origin_of source.entry) lines.now) (O.contents out.old) (O.contents out.new) (E.contents err.old) (E.contents err.new)) }
    ensures early { IfErr result (EndsEarly false (O.has_failed out.new) (E.has_failed err.new)) }
{
    match marks_of(alloc, lines) {
        Ok(marks) => {
            let first = first_of(marks.as_slice(), drawing.upto);
            draw_marks(alloc, first, source, drawing, out, err)
        }
        Err(error) => Err(error.into()),
    }
}

// Writes the picture of lines that were made over callbacks, after the report of a missing one that they name.
fn draw_over<O: Stream, E: Stream>(
    alloc: Global,
    lines: &[TraceLine<'_>],
    source: Source<'_>,
    view: &View<'_>,
    out: &mut O,
    err: &mut E,
) -> io::Result<u8>
    ensures writes { IfOk result (Writes (DrawsOver (map handler_of view.now.bank.now) view.now.drawing (origin_of source.entry) lines.now) (O.contents out.old) (O.contents out.new) (E.contents err.old) (E.contents err.new)) }
    ensures early { IfErr result (EndsEarly false (O.has_failed out.new) (E.has_failed err.new)) }
{
    let count = view.bank.len();
    tell_missing(err, missing_callback(lines, count), count)?;
    draw_lines(alloc, lines, source, view.drawing, out, err)
}

/// Writes the picture of a trace that was made of a scenario, or of the lines that a run of callers printed.
pub(crate) fn draw_trace<O: Stream, E: Stream>(
    alloc: Global,
    trace: &str,
    source: Source<'_>,
    view: &View<'_>,
    out: &mut O,
    err: &mut E,
) -> io::Result<u8>
    ensures writes { IfOk result (Writes (DrawsMade (map handler_of view.now.bank.now) view.now.drawing (origin_of source.entry) trace.now) (O.contents out.old) (O.contents out.new) (E.contents err.old) (E.contents err.new)) }
    ensures early { IfErr result (EndsEarly false (O.has_failed out.new) (E.has_failed err.new)) }
{
    match read_lines(alloc, trace) {
        Ok(lines) => draw_over(alloc, lines.as_slice(), source, view, out, err),
        Err(_) => Err(AllocError.into()),
    }
}

// Plays a scenario, whose text is no trace, since this line is none of one, and writes the picture of its trace.
fn draw_scenario<O: Stream, E: Stream>(
    alloc: Global,
    text: &str,
    line: usize,
    view: &View<'_>,
    out: &mut O,
    err: &mut E,
) -> io::Result<u8>
    requires few { length view.now.bank.now ≤ 64 }
    ensures writes { IfOk result (Writes (DrawsPlayed (map handler_of view.now.bank.now) view.now.drawing text.now line (runs.trace_of (map handler_of view.now.bank.now) None text.now)) (O.contents out.old) (O.contents out.new) (E.contents err.old) (E.contents err.new)) }
    ensures early { IfErr result (EndsEarly false (O.has_failed out.new) (E.has_failed err.new)) }
{
    let bytes = text.as_bytes();
    match trace_plans(alloc, view.bank, bytes, None) {
        Ok(trace) => {
            let source = Source::Scenario(view.bank, text);
            draw_trace(alloc, text_in(trace.as_slice()), source, view, out, err)
        }
        Err(fault) => draw_unplayed(alloc, text, line, fault, view, out, err),
    }
}

// Plays the scenario of a text, also of a text of lines, and writes the picture of its trace.
fn draw_given<O: Stream, E: Stream>(
    alloc: Global,
    text: &str,
    line: usize,
    view: &View<'_>,
    out: &mut O,
    err: &mut E,
) -> io::Result<u8>
    requires few { length view.now.bank.now ≤ 64 }
    ensures writes { IfOk result (Writes (DrawsGiven (map handler_of view.now.bank.now) view.now.drawing text.now line) (O.contents out.old) (O.contents out.new) (E.contents err.old) (E.contents err.new)) }
    ensures early { IfErr result (EndsEarly false (O.has_failed out.new) (E.has_failed err.new)) }
{
    let given = Vec::from_slice(alloc, text.as_bytes())?;
    match plain_text(alloc, given) {
        Ok(plain) => draw_scenario(alloc, text_in(plain.as_slice()), line, view, out, err),
        Err(fault) => refused(tell_place(err, "lab", &fault)),
    }
}

// Writes the picture of the lines that a text has, or of the text as a scenario.
fn draw_whole<O: Stream, E: Stream>(
    alloc: Global,
    read: &str,
    source: Source<'_>,
    text: &str,
    view: &View<'_>,
    out: &mut O,
    err: &mut E,
) -> io::Result<u8>
    requires few { length view.now.bank.now ≤ 64 }
    ensures writes { IfOk result (Writes (DrawsWhole (map handler_of view.now.bank.now) view.now.drawing (origin_of source.entry) read.now text.now) (O.contents out.old) (O.contents out.new) (E.contents err.old) (E.contents err.new)) }
    ensures early { IfErr result (EndsEarly false (O.has_failed out.new) (E.has_failed err.new)) }
{
    match read_lines(alloc, read) {
        Ok(lines) => draw_lines(alloc, lines.as_slice(), source, view.drawing, out, err),
        Err(Misread::Memory) => Err(AllocError.into()),
        Err(Misread::Line(line)) => draw_given(alloc, text, line, view, out, err),
    }
}

// Writes the picture of the lines of callers, which are at the front of a text.
fn draw_callers<O: Stream, E: Stream>(
    alloc: Global,
    front: &str,
    text: &str,
    view: &View<'_>,
    out: &mut O,
    err: &mut E,
) -> io::Result<u8>
    requires few { length view.now.bank.now ≤ 64 }
    ensures writes { IfOk result (Writes (DrawsWhole (map handler_of view.now.bank.now) view.now.drawing callers (front.now ++ line_feed) text.now) (O.contents out.old) (O.contents out.new) (E.contents err.old) (E.contents err.new)) }
    ensures early { IfErr result (EndsEarly false (O.has_failed out.new) (E.has_failed err.new)) }
{
    match with_line_feed(alloc, front) {
        Ok(told) => draw_whole(alloc, told.as_str(), Source::Callers, text, view, out, err),
        Err(error) => Err(error.into()),
    }
}

// Writes the picture of callers' lines, where one shows a word, of a trace, or of a scenario.
fn draw_unclosed<O: Stream, E: Stream>(
    alloc: Global,
    text: &str,
    view: &View<'_>,
    out: &mut O,
    err: &mut E,
) -> io::Result<u8>
    requires few { length view.now.bank.now ≤ 64 }
    ensures writes { IfOk result (Writes (DrawsUnclosed (map handler_of view.now.bank.now) view.now.drawing text.now) (O.contents out.old) (O.contents out.new) (E.contents err.old) (E.contents err.new)) }
    ensures early { IfErr result (EndsEarly false (O.has_failed out.new) (E.has_failed err.new)) }
{
    match text.split_once(BAR) {
        Some(_) => draw_whole(alloc, text, Source::Callers, text, view, out, err),
        None => draw_whole(alloc, text, Source::Trace, text, view, out, err),
    }
}

// Writes the picture of a trace, of a scenario, or of callers up to where their machine is closed.
fn draw_text<O: Stream, E: Stream>(
    alloc: Global,
    text: &str,
    view: &View<'_>,
    out: &mut O,
    err: &mut E,
) -> io::Result<u8>
    requires few { length view.now.bank.now ≤ 64 }
    ensures writes { IfOk result (Writes (DrawsText (map handler_of view.now.bank.now) view.now.drawing text.now) (O.contents out.old) (O.contents out.new) (E.contents err.old) (E.contents err.new)) }
    ensures early { IfErr result (EndsEarly false (O.has_failed out.new) (E.has_failed err.new)) }
{
    match text.split_once(CLOSING) {
        Some((front, _)) => draw_callers(alloc, front, text, view, out, err),
        None => draw_unclosed(alloc, text, view, out, err),
    }
}

// Writes the picture of a text; an empty one is no trace, so it is read as a scenario.
fn draw_some<O: Stream, E: Stream>(
    alloc: Global,
    text: &str,
    view: &View<'_>,
    out: &mut O,
    err: &mut E,
) -> io::Result<u8>
    requires few { length view.now.bank.now ≤ 64 }
    ensures writes { IfOk result (Writes (DrawsSome (map handler_of view.now.bank.now) view.now.drawing text.now) (O.contents out.old) (O.contents out.new) (E.contents err.old) (E.contents err.new)) }
    ensures early { IfErr result (EndsEarly false (O.has_failed out.new) (E.has_failed err.new)) }
{
    if text.is_empty() {
        draw_given(alloc, text, 1, view, out, err)
    } else {
        draw_text(alloc, text, view, out, err)
    }
}

// Writes the picture of bytes that are a text.
fn draw_bytes<O: Stream, E: Stream>(
    alloc: Global,
    bytes: &[u8],
    view: &View<'_>,
    out: &mut O,
    err: &mut E,
) -> io::Result<u8>
    requires few { length view.now.bank.now ≤ 64 }
    ensures writes { IfOk result (Writes (DrawsIf (map handler_of view.now.bank.now) (is_utf8 bytes.now) view.now.drawing bytes.now) (O.contents out.old) (O.contents out.new) (E.contents err.old) (E.contents err.new)) }
    ensures early { IfErr result (EndsEarly false (O.has_failed out.new) (E.has_failed err.new)) }
{
    match std::str::from_utf8(bytes) {
        Ok(text) => draw_some(alloc, text, view, out, err),
        Err(_) => tell_undrawn(err, "the text is no UTF-8"),
    }
}

// Draws what a file holds, or the input where none is named.
fn draw_file<R: Files + AllocGlobal, I: Read, O: Stream, E: Stream>(
    rt: &R,
    view: &View<'_>,
    file: Option<&str>,
    input: &mut I,
    out: &mut O,
    err: &mut E,
) -> io::Result<u8>
    requires few { length view.now.bank.now ≤ 64 }
    ensures writes { IfOk result (WritesOfText (DrawsRead (map handler_of view.now.bank.now) view.now.drawing (unwrap_or (option_map (λ name. name.now) file.entry) (codes "-"))) (option_map (λ name. name.now) file.entry) (I.remaining input.old) (O.contents out.old) (O.contents out.new) (E.contents err.old) (E.contents err.new)) }
    ensures early { IfErr result (EndsEarly false (O.has_failed out.new) (E.has_failed err.new)) }
{
    let name = called(file);
    match read_text(rt, file, input) {
        Ok(given) => draw_bytes(rt.alloc(), given.as_slice(), view, out, err),
        Err(why) => refused(tell_unread(err, name, why)),
    }
}

/// Draws the trace that a file holds, or that of its scenario over a bank, or the lines of callers there, or those of
/// its text of callers over a bank, or of the input where none is named. The status is 2 where it holds none of these,
/// a step of callers can't be made, or the bank is at fault.
pub fn draw<R: Files + AllocGlobal, I: Read, O: Stream, E: Stream>(
    rt: &R,
    drawing: Drawing,
    bank: Option<&str>,
    file: Option<&str>,
    input: &mut I,
    out: &mut O,
    err: &mut E,
) -> io::Result<u8>
    ensures writes { IfOk result (Draws drawing (option_map (λ name. name.now) bank.entry) (option_map (λ name. name.now) file.entry) (I.remaining input.old) (O.contents out.old) (O.contents out.new) (E.contents err.old) (E.contents err.new)) }
    ensures early { IfErr result (EndsEarly false (O.has_failed out.new) (E.has_failed err.new)) }
{
    match read_plans(rt, bank, err) {
        Ok(Some(plans)) => {
            let view = View {
                drawing,
                bank: plans.as_slice(),
            };
            draw_file(rt, &view, file, input, out, err)
        }
        Ok(None) => Ok(AT_FAULT),
        Err(error) => Err(error),
    }
}
