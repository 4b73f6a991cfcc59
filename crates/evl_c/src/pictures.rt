//! Pictures of texts: of a trace, of a scenario, which is played, or of what `lab callers` prints.
ghost use Rattle.std.specs.Prelude.{◌≡◌, ◌≤◌, ◌++◌, length, map, None, Ok, string_bytes, IfErr, IfOk, true};
ghost use Rattle.evl_plans.specs.Told.{handler_of};
ghost use Rattle.evl_plans.specs.Traces.{Refuses};
ghost use Rattle.evl_scenario.specs.Lines.{line_feed};
ghost use Rattle.evl_shell.specs.Runs as runs;
ghost use Rattle.lab_caller_pictures.specs.Drawings.{callers, origin_of, scenario};
ghost use Rattle.evl_c.specs.Pictures as pictures;
ghost use Rattle.evl_c.specs.Pictures.{DrawsBytes, DrawsGiven, DrawsLines, DrawsMarks, DrawsPage, DrawsPlayed, DrawsSvg, DrawsText, DrawsTrace, DrawsWhole, Ends, failed, of_fault, text_in};

use crate::given::plain_of;
use evl_plans::{Planned, trace_plans};
use evl_scenario::Fault;
use lab_caller_pictures::{Source, picture_of};
use lab_drawing::{Goes, Mark, marks_of, page_count};
use lab_reports::write_events;
use lab_traces::{Misread, TraceLine, read_lines};
use std::alloc::{AllocError, Global};

/// In which form a picture is wanted: an SVG, and which way it goes if that is asked for, or trace events.
#[derive(Clone, Copy, PartialEq, Eq)]
pub enum Form {
    Svg(Option<Goes>),
    Events,
}

/// All that is asked for: a page, from 1, of the picture in a form, over these callbacks.
#[derive(Clone, Copy, Drop)]
pub struct Asked<'a> {
    pub plans: &'a [Planned],
    pub form: Form,
    pub page: u32,
}

/// A picture, and of how many pages its text has one.
#[derive(Drop)]
pub struct Picture {
    pub text: Vec<u8>,
    pub pages: usize,
}

/// Why nothing is drawn.
#[derive(Clone, Copy, PartialEq, Eq)]
pub enum Undrawn {
    /// The text is no UTF-8.
    Text,
    /// This line, from 1, is none of a trace, and as a scenario the text has this fault.
    Neither(usize, Fault),
    /// There are only so many pages.
    Beyond(usize),
    /// Memory couldn't grow.
    Memory,
}

// The text between the lines of callers and the report of their machine's end.
const CLOSING: &str = "\nclose -> ";

// The picture of a page of marks, of so many.
fn draw_page(
    alloc: Global,
    asked: Asked<'_>,
    marks: &[Mark<'_>],
    source: Source<'_>,
    goes: Option<Goes>,
    all: usize,
) -> Result<Picture, Undrawn>
    ensures { Ends (DrawsPage asked.entry.page goes (origin_of source.entry) marks.now all) result }
{
    let number = (asked.page as usize).saturating_sub(1);
    match picture_of(alloc, marks, source, goes, number) {
        Ok(text) => Ok(Picture { text, pages: all }),
        Err(_) => Err(Undrawn::Memory),
    }
}

// The picture of a page of marks.
fn draw_svg(
    alloc: Global,
    asked: Asked<'_>,
    marks: &[Mark<'_>],
    source: Source<'_>,
    goes: Option<Goes>,
) -> Result<Picture, Undrawn>
    ensures { Ends (DrawsSvg asked.entry.page goes (origin_of source.entry) marks.now) result }
{
    let all = page_count(marks);
    if asked.page as usize > all {
        Err(Undrawn::Beyond(all))
    } else {
        draw_page(alloc, asked, marks, source, goes, all)
    }
}

// Marks as trace events.
fn draw_events(alloc: Global, marks: &[Mark<'_>]) -> Result<Picture, Undrawn>
    ensures { Ends (λ o. o ≡ pictures.picture (pictures.events_of marks.now) 1) result }
{
    match write_events(alloc, marks) {
        Ok(events) => Ok(Picture {
            text: events.into_bytes(),
            pages: 1,
        }),
        Err(_) => Err(Undrawn::Memory),
    }
}

// The picture of marks in the form that is asked for.
fn draw_marks(
    alloc: Global,
    asked: Asked<'_>,
    marks: &[Mark<'_>],
    source: Source<'_>,
) -> Result<Picture, Undrawn>
    ensures { Ends (DrawsMarks asked.entry.page asked.entry.form (origin_of source.entry) marks.now) result }
{
    match asked.form {
        Form::Svg(goes) => draw_svg(alloc, asked, marks, source, goes),
        Form::Events => draw_events(alloc, marks),
    }
}

// The picture of the lines of a trace, with the lanes' states as far as their source says.
fn draw_lines(
    alloc: Global,
    asked: Asked<'_>,
    lines: &[TraceLine<'_>],
    source: Source<'_>,
) -> Result<Picture, Undrawn>
    ensures { Ends (DrawsLines asked.entry.page asked.entry.form (origin_of source.entry) lines.now) result }
{
    match marks_of(alloc, lines) {
        Ok(marks) => draw_marks(alloc, asked, marks.as_slice(), source),
        Err(_) => Err(Undrawn::Memory),
    }
}

// The text that these bytes are; none where they are no UTF-8.
fn text_in(bytes: &[u8]) -> &str
    ensures { result.now ≡ text_in bytes.now }
{
    match std::str::from_utf8(bytes) {
        Ok(text) => text,
        Err(_) => "",
    }
}

// The picture of a trace that was made of a scenario.
fn draw_trace(alloc: Global, asked: Asked<'_>, trace: &[u8], text: &str) -> Result<Picture, Undrawn>
    ensures { Ends (DrawsTrace asked.entry.page asked.entry.form (scenario (map handler_of asked.entry.plans.now) text.now) (text_in trace.now)) result }
{
    match read_lines(alloc, text_in(trace)) {
        Ok(lines) => {
            let source = Source::Scenario(asked.plans, text);
            draw_lines(alloc, asked, lines.as_slice(), source)
        }
        Err(_) => Err(Undrawn::Memory),
    }
}

// Why a text that is no trace, since this line is none of one, and has this fault, isn't drawn.
fn unplayed(line: usize, fault: Fault) -> Undrawn
    ensures { failed result ≡ of_fault line fault }
{
    match fault {
        Fault::Memory | Fault::Write => Undrawn::Memory,
        _ => Undrawn::Neither(line, fault),
    }
}

// The trace of a scenario.
fn trace_of(alloc: Global, plans: &[Planned], text: &str) -> Result<Vec<u8>, Fault>
    requires few { length plans.now ≤ 64 }
    ensures traced { IfOk result (λ trace. runs.trace_of (map handler_of plans.now) None text.now ≡ Ok trace.items) }
    ensures refused { IfErr result (λ fault. Refuses (runs.trace_of (map handler_of plans.now) None text.now) fault) }
{
    match trace_plans(alloc, plans, text.as_bytes(), None) {
        Ok(trace) => Ok(trace),
        Err(fault) => Err(fault),
    }
}

// Plays a text that is no trace, since this line is none of one: the picture of its trace.
fn draw_scenario(
    alloc: Global,
    asked: Asked<'_>,
    text: &str,
    line: usize,
) -> Result<Picture, Undrawn>
    requires few { length asked.plans.now ≤ 64 }
    ensures { Ends (DrawsPlayed (map handler_of asked.entry.plans.now) asked.entry.page asked.entry.form text.now line (runs.trace_of (map handler_of asked.entry.plans.now) None text.now)) result }
{
    match trace_of(alloc, asked.plans, text) {
        Ok(trace) => draw_trace(alloc, asked, trace.as_slice(), text),
        Err(fault) => Err(unplayed(line, fault)),
    }
}

// Plays what a text that is no trace is taken for: the picture of its trace.
fn draw_given(alloc: Global, asked: Asked<'_>, text: &str, line: usize) -> Result<Picture, Undrawn>
    requires few { length asked.plans.now ≤ 64 }
    ensures { Ends (DrawsGiven (map handler_of asked.entry.plans.now) asked.entry.page asked.entry.form text.now line) result }
{
    match plain_of(alloc, text.as_bytes()) {
        Ok(plain) => draw_scenario(alloc, asked, text_in(plain.as_slice()), line),
        Err(fault) => Err(unplayed(line, fault)),
    }
}

// The picture of the lines that a text has, or of the text as a scenario.
fn draw_whole(
    alloc: Global,
    asked: Asked<'_>,
    read: &str,
    source: Source<'_>,
    text: &str,
) -> Result<Picture, Undrawn>
    requires few { length asked.plans.now ≤ 64 }
    ensures { Ends (DrawsWhole (map handler_of asked.entry.plans.now) asked.entry.page asked.entry.form (origin_of source.entry) read.now text.now) result }
{
    match read_lines(alloc, read) {
        Ok(lines) => draw_lines(alloc, asked, lines.as_slice(), source),
        Err(Misread::Memory) => Err(Undrawn::Memory),
        Err(Misread::Line(line)) => draw_given(alloc, asked, text, line),
    }
}

// The text with a line feed at its end.
fn with_line_feed(alloc: Global, text: &str) -> Result<String, AllocError>
    ensures { IfOk result (λ line. string_bytes line ≡ text.now ++ line_feed) }
{
    let mut line = String::from_str(alloc, text)?;
    line.push_str("\n")?;
    Ok(line)
}

// The picture of the lines of callers, which stand at the front of a text.
fn draw_callers(
    alloc: Global,
    asked: Asked<'_>,
    front: &str,
    text: &str,
) -> Result<Picture, Undrawn>
    requires few { length asked.plans.now ≤ 64 }
    ensures { Ends (DrawsWhole (map handler_of asked.entry.plans.now) asked.entry.page asked.entry.form callers (front.now ++ line_feed) text.now) result }
{
    match with_line_feed(alloc, front) {
        Ok(told) => draw_whole(alloc, asked, told.as_str(), Source::Callers, text),
        Err(_) => Err(Undrawn::Memory),
    }
}

// The picture of a trace, of a scenario, or of callers up to where their machine is closed.
fn draw_text(alloc: Global, asked: Asked<'_>, text: &str) -> Result<Picture, Undrawn>
    requires few { length asked.plans.now ≤ 64 }
    ensures { Ends (DrawsText (map handler_of asked.entry.plans.now) asked.entry.page asked.entry.form text.now) result }
{
    match text.split_once(CLOSING) {
        Some((front, _)) => draw_callers(alloc, asked, front, text),
        None => draw_whole(alloc, asked, text, Source::Trace, text),
    }
}

/// The picture that is asked for of a trace, of a scenario over at most 64 callbacks, or of what `lab callers` prints;
/// one of a scenario also shows its machine's state. `Text` where the bytes are no UTF-8, `Neither` where they are
/// none of these, `Beyond` where there are fewer pages, `Memory` where a growth was refused.
pub fn draw(alloc: Global, asked: Asked<'_>, bytes: &[u8]) -> Result<Picture, Undrawn>
    requires few { length asked.plans.now ≤ 64 }
    ensures { Ends (DrawsBytes (map handler_of asked.entry.plans.now) asked.entry.page asked.entry.form bytes.now) result }
{
    match std::str::from_utf8(bytes) {
        Ok(text) => draw_text(alloc, asked, text),
        Err(_) => Err(Undrawn::Text),
    }
}
