//! Machines that are driven line by line.
use super::banks::trace_of_program;
use crate::rows::cases;
use evl_base::STEP_WORDS;
use evl_scenario::Fault;
use lab_live::{Session, answer_line, path_behind, write_forms};
use lab_reports::program_plans;
use std::alloc::{AllocError, Global};

// The board, and a step that comes first.
const FIRST: &str = "[board]
threads = 2
sems = [0]
[[step]]
do = \"put\"
who = 0
sem = 0
";

// Lines, and what they are answered.
const LINES: [(&str, &str); 10] = cases![
    "T1 peek sem=0" => "2 T1 peek sem=0 -> count 1\n";
    "T1 request stage=oob callback=1 line=5" => "3 T1 request line=5 stage=oob callback=1 tag=0 -> done\n";
    "T1 arrive line=5" => "4 T1 arrive line=5 -> done\n  line 5 oob count 1 handled\n";
    "T1 attach policy=fifo 10 stage=oob" => "5 T1 attach policy=fifo 10 stage=oob -> done\n";
    "" => "";
    "# so far" => "# so far\n";
    "put sem=0" => "! 1: a thread is wanted, as T0\n";
    "T0 put semm=0" => "! 8: put has no key \"semm\"; did you mean \"sem\"? (keys: sem)\n";
    "T0 put sem=x" => "! 8: sem = \"x\": a number from 0 to 65535 is wanted\n";
    "T0 now" => "6 T0 now -> number 0\n";
];

// A machine of a scenario, over the program's callbacks.
fn open(alloc: Global, text: &str) -> Result<Session, Fault> {
    match program_plans(alloc) {
        Ok(plans) => Session::open(alloc, text.as_bytes(), None, plans),
        Err(_) => Err(Fault::Memory),
    }
}

// Whether a line is answered so.
fn is_answered(alloc: Global, session: &mut Session, line: &str, wanted: &str) -> bool {
    let mut told = String::new(alloc);
    let done = answer_line(alloc, session, line.as_bytes(), &mut told).is_ok();
    done && told.as_str() == wanted
}

// Whether each line is answered so, in order.
fn are_answered(alloc: Global, session: &mut Session, lines: &[(&str, &str)]) -> bool {
    for (line, wanted) in lines {
        if !is_answered(alloc, session, line, wanted) {
            return false;
        }
    }
    true
}

// Whether the trace of what was asked is that of its scenario.
fn plays_again(alloc: Global, session: &Session) -> Option<bool> {
    let trace = session.trace(alloc).ok()?;
    let text = session.scenario(alloc).ok()?;
    let made = trace_of_program(alloc, text.as_str());
    Some(made.as_slice() == trace.as_bytes())
}

// Whether a machine answers so, and what it was asked plays again.
fn answers_and_plays(alloc: Global, session: &mut Session, lines: &[(&str, &str)]) -> bool {
    let is_answered = are_answered(alloc, session, lines);
    let is_played = plays_again(alloc, session) == Some(true);
    is_answered && is_played
}

// A line of a form: without its brackets.
fn line_of(alloc: Global, form: &str) -> Result<String, AllocError> {
    let mut line = String::new(alloc);
    for letter in form.chars() {
        if letter != '[' && letter != ']' {
            line.push(letter)?;
        }
    }
    Ok(line)
}

// Whether a line of a form is read.
fn is_read(alloc: Global, session: &mut Session, form: &str) -> bool {
    let Ok(line) = line_of(alloc, form) else {
        return false;
    };
    let mut told = String::new(alloc);
    let done = answer_line(alloc, session, line.as_bytes(), &mut told).is_ok();
    done && !told.as_str().starts_with("!")
}

// Whether a line of the form of each call is read.
fn are_forms_read(alloc: Global, session: &mut Session) -> bool {
    let mut forms = String::new(alloc);
    if write_forms(&mut forms).is_err() {
        return false;
    }
    for form in forms.as_str().lines() {
        if !is_read(alloc, session, form) {
            return false;
        }
    }
    forms.as_str().lines().count() == STEP_WORDS.len()
}

// The question put to a machine.
#[derive(Clone, Copy)]
enum Asked<'a> {
    // Whether each line is answered so.
    Lines(&'a [(&'a str, &'a str)]),
    // The same, and whether what it was asked plays again.
    Again(&'a [(&'a str, &'a str)]),
    // Whether a line of each form is read, and each call has a form.
    Forms,
}

// Whether a machine comes to what is asked.
fn comes_to(alloc: Global, session: &mut Session, asked: Asked<'_>) -> bool {
    match asked {
        Asked::Lines(lines) => are_answered(alloc, session, lines),
        Asked::Again(lines) => answers_and_plays(alloc, session, lines),
        Asked::Forms => are_forms_read(alloc, session),
    }
}

// Whether a new machine comes to what is asked: the one place where a machine is let go.
fn is_driven(alloc: Global, asked: Asked<'_>) -> bool {
    match open(alloc, FIRST) {
        Ok(mut session) => comes_to(alloc, &mut session, asked),
        Err(_) => false,
    }
}

#[test]
fn lines_are_answered(rt: HostRuntime) {
    assert!(rt; is_driven(rt.alloc(), Asked::Lines(&LINES)));
}

#[test]
fn what_was_asked_plays_again(rt: HostRuntime) {
    assert!(rt; is_driven(rt.alloc(), Asked::Again(&LINES)));
}

#[test]
fn each_form_is_read(rt: HostRuntime) {
    assert!(rt; is_driven(rt.alloc(), Asked::Forms));
}

// Forms, and what their keys take.
const HELP: [(&str, &str); 4] = cases![
    "? put" => "T0 put sem=0\n  sem: a number from 0 to 65535 is wanted\n";
    "? finish" => "T0 finish [keep=false]\n  keep: true or false is wanted\n";
    "? now" => "T0 now\n";
    "? nap" => "! 3: there is no such call; ? tells all\n";
];

#[test]
fn help_tells_what_keys_take(rt: HostRuntime) {
    assert!(rt; is_driven(rt.alloc(), Asked::Lines(&HELP)));
}

// Lines that beginners type, and the answers to them.
const BEGINNERS: [(&str, &str); 13] = cases![
    "undo" => "undone: T0 put sem=0\n";
    "undo" => "! 1: nothing was asked so far\n";
    "quit" => "Ctrl-D ends\n";
    "exit" => "Ctrl-D ends\n";
    "draw" => "! 5: a file is wanted, as draw picture.svg\n";
    "lock" => "! 1: a thread and its call are wanted, as T0 put sem=0\n";
    "T0 lock mutex=0" => "! 4: there is no call \"lock\"; did you mean \"claim\", or \"try_lock_mutex\" of lab callers?\n";
    "T0 unlock" => "! 4: there is no call \"unlock\"; did you mean \"release\", or \"try_unlock_mutex\" of lab callers?\n";
    "T0 wait sem=0" => "! 4: there is no call \"wait\"; did you mean \"begin_get\"?\n";
    "T0 signal sem=0" => "! 4: there is no call \"signal\"; did you mean \"put\"?\n";
    "T99 put sem=0" => "1 T99 put sem=0 -> Unknown\n";
    "T0 put sem=9" => "2 T0 put sem=9 -> Unknown\n";
    "T0 put sem=0   # my comment" => "3 T0 put sem=0 -> done\n";
];

#[test]
fn beginners_are_answered(rt: HostRuntime) {
    assert!(rt; is_driven(rt.alloc(), Asked::Lines(&BEGINNERS)));
}

#[test]
fn a_path_stands_behind_its_word(rt: HostRuntime) {
    assert!(rt; path_behind("draw ", b"draw a b.svg \r") == Some("a b.svg"));
    assert!(rt; path_behind("draw ", b"draw \r").is_none());
    assert!(rt; path_behind("save ", b"draw a.svg").is_none());
}

// A thread that waits, and how all is then.
const STANDING: [(&str, &str); 3] = cases![
    "T1 attach policy=fifo 10 stage=oob" => "2 T1 attach policy=fifo 10 stage=oob -> done\n";
    "T1 begin_get sem=0" => "3 T1 begin_get sem=0 until=none -> begun\n";
    "ps" => "T0 inband\nT1 oob, served: begin_get sem=0 until=none\noob, nothing pending\ninband, nothing pending\n";
];

#[test]
fn the_state_is_told(rt: HostRuntime) {
    assert!(rt; is_driven(rt.alloc(), Asked::Lines(&STANDING)));
}

// The same, with all that is shown.
const WHOLE: [(&str, &str); 4] = cases![
    "T1 attach policy=fifo 10 stage=oob" => "2 T1 attach policy=fifo 10 stage=oob -> done\n";
    "T1 begin_get sem=0" => "3 T1 begin_get sem=0 until=none -> begun\n";
    "T0 tick delta=7" => "4 T0 tick delta=7 -> done\n";
    "ps all" => "date 7\nT0 inband\nT1 oob fifo 10 rank 522 picked, served: begin_get sem=0 until=none\nsem 0 count 0\noob, nothing pending\ninband, nothing pending\n";
];

#[test]
fn all_that_a_machine_shows_is_told(rt: HostRuntime) {
    assert!(rt; is_driven(rt.alloc(), Asked::Lines(&WHOLE)));
}

// Calls that are taken back, up to the first one.
const UNDONE: [(&str, &str); 10] = cases![
    "T0 tick delta=7" => "2 T0 tick delta=7 -> done\n";
    "T1 peek sem=0" => "3 T1 peek sem=0 -> count 1\n";
    "undo" => "undone: T1 peek sem=0\n";
    "undo" => "undone: T0 tick delta=7\n";
    "T0 now" => "2 T0 now -> number 0\n";
    "undo" => "undone: T0 now\n";
    "undo" => "undone: T0 put sem=0\n";
    "undo" => "! 1: nothing was asked so far\n";
    "T1 peek sem=0" => "1 T1 peek sem=0 -> count 0\n";
    "T0 put sem=0" => "2 T0 put sem=0 -> done\n";
];

#[test]
fn calls_are_taken_back(rt: HostRuntime) {
    assert!(rt; is_driven(rt.alloc(), Asked::Again(&UNDONE)));
}
