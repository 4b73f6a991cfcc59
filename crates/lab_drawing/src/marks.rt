//! The marks of a picture: one for each entry and play of a trace.
ghost use Rattle.std.specs.Prelude.{◌≡◌, ℕ, true, option_map, map, IfOk, Option, Some, Result};
ghost use Rattle.evl_base.specs.declared.refusal.Refusal.{Refusal};
ghost use Rattle.evl_base.specs.declared.reply.Reply.{Reply};
ghost use Rattle.evl_scenario.specs.Widths.{StepFits};
ghost use Rattle.evl_scenario.specs.declared.steps.Step.{Step};
ghost use Rattle.lab_traces.specs.Entries.{step_parts};
ghost use Rattle.lab_traces.specs.Lines.{entry};
ghost use Rattle.lab_traces.specs.Says.{says_of};
ghost use Rattle.lab_traces.specs.declared.traces.TraceLine.{TraceLine};
ghost use Rattle.lab_drawing.specs.Calls.{step_told};
ghost use Rattle.lab_drawing.specs.Marks as marks;
ghost use Rattle.lab_drawing.specs.Marks.{all_marked, is_called, mark_of, play_lane, play_shape, told_of};
ghost use Rattle.lab_drawing.specs.Named as named;

use crate::events::{OnLines, has_callback, note_lines, said_on, stage_beside};
use crate::lanes::Lane;
use crate::texts::{around, number, up_to};
use crate::words::{outcome, shown};
use evl_base::{Play, Stage};
use lab_traces::{EntryLine, Says, TraceLine, is_refused};
use std::alloc::{AllocError, Global};

/// How a mark looks.
#[derive(Clone, Copy, PartialEq, Eq)]
pub enum Shape {
    /// A call that was answered.
    Answered,
    /// A call that began a wait.
    Begun,
    /// A call that ended a wait.
    Ended,
    /// A call that was refused.
    Refused,
    /// A call that made an event pending on a line that has a callback.
    Arrived,
    /// The same on a line without one: the event is counted, and nothing is pending.
    Spurious,
    /// A play whose callback handled it, or that calls none.
    Played,
    /// A play that no callback handled.
    Unhandled,
}

/// A mark: its line, its lane, the lane of what its call names, and how it looks.
#[derive(Clone, Copy, PartialEq, Eq)]
pub struct Mark<'a> {
    pub line: &'a str,
    pub lane: Lane,
    pub names: Option<Lane>,
    pub shape: Shape,
}

/// The value of a key in the text of a call.
pub fn value_of<'a>(call: &'a str, key: &str) -> Option<&'a str>
    ensures { option_map (λ value. value.now) result ≡ named.value_of call.now key.now }
{
    let (_, behind) = around(key, call)?;
    Some(up_to(" ", behind))
}

/// The number at a key.
pub fn number_at(call: &str, key: &str) -> Option<u16>
    ensures { result ≡ named.number_at call.now key.now }
{
    number(value_of(call, key)?)
}

// The lane of a stage.
fn stage_lane(value: &str) -> Option<Lane>
    ensures { result ≡ named.stage_lane value.now }
{
    match value {
        "oob" => Some(Lane::Stage(Stage::Oob)),
        "inband" => Some(Lane::Stage(Stage::Inband)),
        _ => None,
    }
}

// The stage at the key `stage`.
fn stage_at(call: &str) -> Option<Lane>
    ensures { result ≡ named.stage_at call.now }
{
    stage_lane(value_of(call, " stage=")?)
}

// The lane of the element, the timer or the stage that a call names.
fn named(call: &str) -> Option<Lane>
    ensures { result ≡ named.lane_named call.now }
{
    if let Some(number) = number_at(call, " mutex=") {
        return Some(Lane::Mutex(number));
    }
    if let Some(number) = number_at(call, " stax=") {
        return Some(Lane::Stax(number));
    }
    if let Some(number) = number_at(call, " sem=") {
        return Some(Lane::Sem(number));
    }
    if let Some(number) = number_at(call, " flags=") {
        return Some(Lane::Flags(number));
    }
    if let Some(number) = number_at(call, " xbuf=") {
        return Some(Lane::Xbuf(number));
    }
    match number_at(call, " timer=") {
        Some(number) => Some(Lane::Timer(number)),
        None => stage_at(call),
    }
}

// The lane of what is shown after the answer of an entry, or else of what its call names.
fn entry_names(entry: &EntryLine<'_>) -> Option<Lane>
    ensures { result ≡ named.entry_names entry.now.call.now entry.now.answer.now }
{
    match shown(entry.answer) {
        Some((lane, _)) => Some(lane),
        None => named(entry.call),
    }
}

// Whether the answer is the name of the pass that a call gets.
fn is_pass(call: &str, answer: &str) -> bool
    ensures { result ≡ named.is_pass call.now answer.now }
{
    match value_of(call, " as=") {
        Some(name) => name == answer,
        None => false,
    }
}

// Whether a call is refused: the name of a pass that it gets may begin as a refusal does.
fn refuses(call: &str, answer: &str) -> bool
    ensures { result ≡ named.refuses call.now answer.now }
{
    !is_pass(call, answer) && is_refused(answer)
}

// How the mark of a call with this answer looks.
fn answered_shape(call: &str, answer: &str) -> Shape
    ensures called { is_called result ≡ true }
    ensures shape { result ≡ named.answered_shape call.now answer.now }
{
    if refuses(call, answer) {
        Shape::Refused
    } else if answer == "begun" {
        Shape::Begun
    } else if call.starts_with("finish") {
        Shape::Ended
    } else {
        Shape::Answered
    }
}

// How the mark of an entry looks.
fn entry_shape(entry: &EntryLine<'_>) -> Shape
    ensures called { is_called result ≡ true }
    ensures shape { result ≡ named.entry_shape entry.now.call.now entry.now.answer.now }
{
    answered_shape(entry.call, outcome(entry.answer))
}

// How a fire looks.
fn fire_shape(handled: bool) -> Shape
    ensures { result ≡ marks.fire_shape handled }
{
    if handled {
        Shape::Played
    } else {
        Shape::Unhandled
    }
}

// The lane of a play, and how it looks.
fn play_place(play: Play) -> (Lane, Shape)
    ensures lane { result.0 ≡ play_lane play }
    ensures shape { result.1 ≡ play_shape play }
{
    match play {
        Play::Clock => (Lane::Clock, Shape::Played),
        Play::Timer { timer, handled, .. } => (Lane::Timer(timer.0), fire_shape(handled)),
        Play::Deadline { thread } => (Lane::Thread(thread.0), Shape::Played),
        Play::Line {
            line,
            stage,
            handled,
            ..
        } => (Lane::Line(stage, line.0), fire_shape(handled)),
    }
}

// The mark of a line, where it is that of an entry or a play.
fn mark_of<'a>(line: &TraceLine<'a>) -> Option<Mark<'a>>
    ensures { option_map told_of result ≡ mark_of line.now }
{
    match line.says {
        Says::Board(_) => None,
        Says::Entry(entry) => Some(Mark {
            line: line.text,
            lane: Lane::Thread(entry.thread),
            names: entry_names(&entry),
            shape: entry_shape(&entry),
        }),
        Says::Play(play) => {
            let (lane, shape) = play_place(play);
            Some(Mark {
                line: line.text,
                lane,
                names: None,
                shape,
            })
        }
    }
}

// The mark of an event on this line, where these have a callback.
fn posted<'a>(lines: &[Lane], lane: Lane, mark: Mark<'a>) -> Mark<'a>
    ensures { told_of result ≡ marks.posted lines.now lane (told_of mark.entry) }
{
    if has_callback(lines, lane) {
        Mark {
            line: mark.line,
            lane: mark.lane,
            names: Some(lane),
            shape: Shape::Arrived,
        }
    } else {
        Mark {
            line: mark.line,
            lane: mark.lane,
            names: Some(stage_beside(lane)),
            shape: Shape::Spurious,
        }
    }
}

// A mark that names this lane.
fn naming<'a>(lane: Lane, mark: Mark<'a>) -> Mark<'a>
    ensures { told_of result ≡ marks.naming lane (told_of mark.entry) }
{
    Mark {
        line: mark.line,
        lane: mark.lane,
        names: Some(lane),
        shape: mark.shape,
    }
}

// The mark of a call that does this on lines, where these have a callback.
fn done_on<'a>(lines: &[Lane], does: Option<OnLines>, mark: Mark<'a>) -> Mark<'a>
    ensures { told_of result ≡ marks.done_on lines.now does (told_of mark.entry) }
{
    match does {
        None => mark,
        Some(OnLines::Requests(lane)) => naming(lane, mark),
        Some(OnLines::Frees(lane)) => naming(lane, mark),
        Some(OnLines::Posts(lane)) => posted(lines, lane, mark),
    }
}

// The mark of a line of a trace, where these interrupt lines have a callback.
fn marked_at<'a>(lines: &[Lane], line: &TraceLine<'a>) -> Option<Mark<'a>>
    ensures { option_map told_of result ≡ marks.marked_at lines.now line.now }
{
    let mark = mark_of(line)?;
    Some(done_on(lines, said_on(lines, &line.says), mark))
}

// rule: Each call and play of a trace, or of callers' lines, has a mark with its line, in order. A play's is in its own
//   lane, names nothing, and shows whether it was handled. A call's is in its thread's lane and shows a refusal (the
//   answer before ` | ` begins with a capital letter and is not the name at `as`), else a wait's beginning (`begun`) or
//   end (`finish`), else an answer. It names the lane after ` | `, else that of the first of the keys `mutex`, `stax`,
//   `sem`, `flags`, `xbuf`, `timer` with a number, else its stage.
//   clauses: marks_of; write_svg
//   rows: limit_refused; not_closed; pass_answered; wait_ended
/// The marks of the lines of a trace: one for each entry and each play, in order, with its line, its lane, what it
/// names, and how it looks. `AllocError` where a list couldn't grow.
pub fn marks_of<'a>(alloc: Global, lines: &[TraceLine<'a>]) -> Result<Vec<Mark<'a>>, AllocError>
    ensures marks { IfOk result (λ marks. map told_of marks.items ≡ all_marked lines.now) }

    // The line of a step and of what its call answered is marked by the call and the answer.
    ensures called { (line : TraceLine) (number : Option ℕ) (step : Step) (answer : Result Reply Refusal) → StepFits step → says_of line.says ≡ entry (step_parts number step answer) → mark_of line ≡ Some (step_told line.text.now step answer) }
{
    let mut marks = Vec::new(alloc);
    let mut called = Vec::new(alloc);
    called.push(Lane::Clock)?;
    for line in lines {
        if let Some(mark) = marked_at(called.as_slice(), line) {
            marks.push(mark)?;
        }
        let does = said_on(called.as_slice(), &line.says);
        note_lines(alloc, &mut called, does)?;
    }
    Ok(marks)
}
