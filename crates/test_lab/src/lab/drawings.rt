//! Traces that are read and drawn.
use evl_plans::trace_plans;
use lab_drawing::{
    Condition, Drawn, Goes, Lane, Mark, Moment, Shows, lanes_of, marks_of, shown_with,
    told_moments, write_svg,
};
use lab_moments::moments_of;
use lab_reports::{program_plans, write_events};
use lab_traces::{Misread, read_lines};
use std::alloc::{AllocError, Global};

// A trace with a call that is refused, a request, an interrupt with its play, and two that are spurious.
const TRACE: &str = "board threads=2 sems=1 flags=0 xbufs=0 mutexes=0 groups=0 limit=100
1 T0 try_get sem=0 -> Again
2 T1 request line=5 stage=oob callback=0 tag=7 -> done
3 T1 arrive line=5 -> done
  line 5 oob count 1 none
4 T1 arrive line=6 -> done
5 T1 free line=5 stage=oob -> done
6 T1 arrive line=5 -> done
";

// The same as trace events.
const EVENTS: &str = r#"{"traceEvents": [
{"ph": "M", "name": "thread_name", "pid": 1, "tid": 0, "args": {"name": "T0"}},
{"ph": "M", "name": "thread_sort_index", "pid": 1, "tid": 0, "args": {"sort_index": 0}},
{"ph": "X", "name": "1 T0 try_get sem=0 -> Again", "cat": "refused", "cname": "terrible", "pid": 1, "tid": 0, "ts": 1, "dur": 1},
{"ph": "M", "name": "thread_name", "pid": 1, "tid": 1, "args": {"name": "T1"}},
{"ph": "M", "name": "thread_sort_index", "pid": 1, "tid": 1, "args": {"sort_index": 1}},
{"ph": "X", "name": "2 T1 request line=5 stage=oob callback=0 tag=7 -> done", "cat": "answered", "cname": "good", "pid": 1, "tid": 1, "ts": 2, "dur": 1},
{"ph": "X", "name": "3 T1 arrive line=5 -> done", "cat": "arrived", "cname": "good", "pid": 1, "tid": 1, "ts": 3, "dur": 1},
{"ph": "M", "name": "thread_name", "pid": 1, "tid": 720901, "args": {"name": "oob 5"}},
{"ph": "M", "name": "thread_sort_index", "pid": 1, "tid": 720901, "args": {"sort_index": 720901}},
{"ph": "X", "name": "line 5 oob count 1 none", "cat": "unhandled", "cname": "grey", "pid": 1, "tid": 720901, "ts": 4, "dur": 1},
{"ph": "X", "name": "4 T1 arrive line=6 -> done", "cat": "spurious", "cname": "bad", "pid": 1, "tid": 1, "ts": 5, "dur": 1},
{"ph": "X", "name": "5 T1 free line=5 stage=oob -> done", "cat": "answered", "cname": "good", "pid": 1, "tid": 1, "ts": 6, "dur": 1},
{"ph": "X", "name": "6 T1 arrive line=5 -> done", "cat": "spurious", "cname": "bad", "pid": 1, "tid": 1, "ts": 7, "dur": 1},
{"ph": "M", "name": "process_name", "pid": 1, "args": {"name": "machine"}}
]}
"#;

// Lines of callers: of a pass that is named as a refusal might be, a refused step, a wait, and the core.
const TOLD: &str = "board threads=2 sems=0 flags=0 xbufs=0 mutexes=1 groups=0 limit=100
1 T0 try_lock_stax stax=0 as=Pass -> Pass | stax 0: in-band, 1 holder
2 T1 try_lock_stax stax=0 as=p1 -> Limit | stax 0: in-band, 1 holder
3 T1 begin_lock_mutex mutex=0 until=none as=m1 -> begun | mutex 0: T0, claimed
4 T1 finish_lock_mutex as=m1 -> m1 | mutex 0: T1
5 T0 unlock_stax pass=Pass -> done | stax 0: free
6 T0 take -> done | core: taken by T0
";

// The form in which marks are drawn.
#[derive(Clone, Copy)]
enum Form {
    Events,
    Picture,
    PictureDown,
    // The picture of callers' lines.
    TellingPicture,
    TellingDown,
}

// The marks of a trace in a form; nothing where it can't be read.
fn drawn(alloc: Global, trace: &str, form: Form) -> Result<Vec<u8>, AllocError> {
    let Ok(lines) = read_lines(alloc, trace) else {
        return Ok(Vec::new(alloc));
    };
    let list = marks_of(alloc, lines.as_slice())?;
    let marks = list.as_slice();
    let told = told_moments(alloc, marks)?;
    let none = Vec::new(alloc);
    match form {
        Form::Events => Ok(write_events(alloc, marks)?.into_bytes()),
        Form::Picture => picture(alloc, marks, none, Shows::Waits, Goes::Across),
        Form::PictureDown => picture(alloc, marks, none, Shows::Waits, Goes::Down),
        Form::TellingPicture => picture(alloc, marks, told, Shows::Words, Goes::Across),
        Form::TellingDown => picture(alloc, marks, told, Shows::Words, Goes::Down),
    }
}

// The first page of a picture.
fn picture(
    alloc: Global,
    marks: &[Mark<'_>],
    moments: Vec<Moment>,
    shows: Shows,
    goes: Goes,
) -> Result<Vec<u8>, AllocError> {
    let drawn = Drawn {
        marks,
        moments,
        shows,
        goes,
        page: 0,
    };
    write_svg(alloc, &drawn)
}

// Whether what is made of a trace begins and ends as SVG does.
fn is_svg(alloc: Global, trace: &str, form: Form) -> bool {
    match drawn(alloc, trace, form) {
        Ok(text) => text.as_slice().starts_with(b"<svg ") && text.as_slice().ends_with(b"</svg>\n"),
        Err(_) => false,
    }
}

#[test]
fn each_mark_is_an_event(rt: HostRuntime) {
    let text = drawn(rt.alloc(), TRACE, Form::Events).expect(&rt, "memory");
    assert!(rt; text.as_slice() == EVENTS.as_bytes());
}

#[test]
fn a_trace_is_drawn(rt: HostRuntime) {
    assert!(rt; is_svg(rt.alloc(), TRACE, Form::Picture));
}

#[test]
fn a_trace_is_drawn_down(rt: HostRuntime) {
    assert!(rt; is_svg(rt.alloc(), TRACE, Form::PictureDown));
}

#[test]
fn callers_are_drawn_down(rt: HostRuntime) {
    assert!(rt; is_svg(rt.alloc(), TOLD, Form::TellingDown));
}

#[test]
fn callers_are_drawn(rt: HostRuntime) {
    assert!(rt; is_svg(rt.alloc(), TOLD, Form::TellingPicture));
}

#[test]
fn another_line_is_refused(rt: HostRuntime) {
    let read = read_lines(rt.alloc(), "1 T0 now -> number 0\n1 T0 now = number 0\n");
    assert!(rt; matches!(&read, Err(Misread::Line(2))));
}

// A thread that is attached, and then goes in-band.
const TWO_MOMENTS: &str = r#"
step = [
  { do = "attach", who = 1, policy = "fifo 10", stage = "oob" },
  { do = "set_stage", who = 1, stage = "inband" },
]
[board]
threads = 2
"#;

// How a lane is after a step.
fn stands(moments: &[Moment], step: usize, lane: Lane) -> Option<(Condition, Option<u16>)> {
    let standing = moments.get(step)?.standing(lane)?;
    Some((standing.condition, standing.number))
}

// Whether thread 1 is picked at its rank after the first step, and in-band after the second.
fn stands_so(alloc: Global) -> Option<bool> {
    let lanes = [Lane::Thread(0), Lane::Thread(1)];
    let moments = moments_of(alloc, &[], TWO_MOMENTS.as_bytes(), &lanes).ok()?;
    let first = stands(moments.as_slice(), 0, lanes[1])?;
    let second = stands(moments.as_slice(), 1, lanes[1])?;
    let picked = first == (Condition::Picked, Some(522));
    Some(moments.len() == 2 && picked && second == (Condition::Inband, Some(522)))
}

#[test]
fn moments_tell_how_a_thread_stands(rt: HostRuntime) {
    assert!(rt; stands_so(rt.alloc()) == Some(true));
}

// Whether a stax is as callers' lines show it until it is free, a mutex as its word was shown last, and the core.
fn words_stand(alloc: Global, told: &str) -> Option<bool> {
    let lines = read_lines(alloc, told).ok()?;
    let marks = marks_of(alloc, lines.as_slice()).ok()?;
    let moments = told_moments(alloc, marks.as_slice()).ok()?;
    for (step, lane, wanted) in SHOWN {
        if stands(moments.as_slice(), step, lane) != wanted {
            return Some(false);
        }
    }
    Some(true)
}

const SHOWN: [(usize, Lane, Option<(Condition, Option<u16>)>); 6] = [
    (3, Lane::Stax(0), Some((Condition::Inband, Some(1)))),
    (4, Lane::Stax(0), None),
    (2, Lane::Mutex(0), Some((Condition::Claimed, Some(0)))),
    (5, Lane::Mutex(0), Some((Condition::Owned, Some(1)))),
    (4, Lane::Core, None),
    (5, Lane::Core, Some((Condition::Taken, Some(0)))),
];

#[test]
fn words_stand_as_they_were_shown(rt: HostRuntime) {
    assert!(rt; words_stand(rt.alloc(), TOLD) == Some(true));
}

// Two interrupts on a line while its stage is stalled, of which the second merges; and two ranks that are not a
// thread's own: T2 waits for T1's mutex, and T3 has one with a ceiling.
const LENT: &str = r#"
step = [
  { do = "request", who = 0, line = 5, stage = "oob", callback = 0 },
  { do = "stall", who = 0, stage = "oob" },
  { do = "arrive", who = 0, line = 5 },
  { do = "arrive", who = 0, line = 5 },
  { do = "unstall", who = 0, stage = "oob" },
  { do = "attach", who = 1, policy = "fifo 10", stage = "oob" },
  { do = "attach", who = 2, policy = "rr 20 1000", stage = "oob" },
  { do = "attach", who = 3, policy = "weak 5", stage = "oob" },
  { do = "claim", who = 2, mutex = 0, owner = 1 },
  { do = "raise", who = 3, mutex = 1 },
]
[board]
threads = 4
mutexes = ["normal", "ceiling 50"]
"#;

// The pictures of this scenario's trace with its moments, going down and across, one below the other; none where one
// isn't made.
fn lent(alloc: Global) -> Option<Vec<u8>> {
    let plans = program_plans(alloc).ok()?;
    let trace = trace_plans(alloc, plans.as_slice(), LENT.as_bytes(), None).ok()?;
    let lines = read_lines(alloc, str::from_utf8(trace.as_slice()).ok()?).ok()?;
    let list = marks_of(alloc, lines.as_slice()).ok()?;
    let marks = list.as_slice();
    let lanes = lanes_of(alloc, marks).ok()?;
    let moments = moments_of(alloc, plans.as_slice(), LENT.as_bytes(), lanes.as_slice()).ok()?;
    let shows = shown_with(moments.as_slice());
    let mut drawn = Drawn {
        marks,
        moments,
        shows,
        goes: Goes::Down,
        page: 0,
    };
    let mut both = write_svg(alloc, &drawn).ok()?;
    drawn.goes = Goes::Across;
    let across = write_svg(alloc, &drawn).ok()?;
    both.extend_from_slice(across.as_slice()).ok()?;
    Some(both)
}

// Whether one of them has this part.
fn lent_has(alloc: Global, part: &str) -> bool {
    match lent(alloc) {
        Some(picture) => str::from_utf8(picture.as_slice())
            .unwrap_or("")
            .contains(part),
        None => false,
    }
}

#[test]
fn an_event_that_merges_is_told_apart(rt: HostRuntime) {
    assert!(rt; lent_has(rt.alloc(), ",0)\"><path d=\"M-6 0l6 -6l6 6l-6 6Z\" fill"));
    assert!(rt; lent_has(rt.alloc(), ",0)\"><path d=\"M-8 0l5 -5l5 5l-5 5Z"));
}

#[test]
fn a_rank_is_told_with_its_lender(rt: HostRuntime) {
    let part = ">f10</text><text x=\"8\" y=\"8.5\" font-weight=\"bold\">↑20T2</text>";
    assert!(rt; lent_has(rt.alloc(), part));
    assert!(rt; lent_has(rt.alloc(), ">r20</text>"));
}

#[test]
fn a_rank_is_told_with_its_ceiling(rt: HostRuntime) {
    let part = ">w5</text><text x=\"8\" y=\"8.5\" font-weight=\"bold\">c50</text>";
    assert!(rt; lent_has(rt.alloc(), part));
}

#[test]
fn a_rank_is_told_across(rt: HostRuntime) {
    let part =
        ">f10</text><text x=\"-7\" y=\"-12.5\" font-size=\"7\" font-weight=\"bold\">↑20T2</text>";
    assert!(rt; lent_has(rt.alloc(), part));
}

#[test]
fn a_mark_has_its_entry(rt: HostRuntime) {
    let part = "<g data-entry=\"5\" transform=\"translate(416,194)\"><title>  line 5 oob";
    assert!(rt; lent_has(rt.alloc(), part));
}
