//! Why a text is no task set, in words.
use crate::texts::Text;
use lab_tasks::{FaultKind, FaultPlace, TasksFault};
use std::alloc::{AllocError, Global};

// Appends where the fault is.
fn put_place(text: &mut Text, place: FaultPlace) {
    match place {
        FaultPlace::Document | FaultPlace::Head => {}
        FaultPlace::Board => text.put("board"),
        FaultPlace::Setup(number) => put_numbered(text, "setup ", number),
        FaultPlace::Task(number) => put_numbered(text, "task ", number),
        FaultPlace::Act(task, act) => {
            put_numbered(text, "task ", task);
            put_numbered(text, ": act ", act);
            text.put(" of does");
        }
        FaultPlace::Interrupt(number) => put_numbered(text, "interrupt ", number),
        FaultPlace::Ask => text.put("ask"),
    }
    if !matches!(place, FaultPlace::Document | FaultPlace::Head) {
        text.put(": ");
    }
}

// Appends a word and a number.
fn put_numbered(text: &mut Text, word: &str, number: usize) {
    text.put(word);
    text.put_number(number as u64);
}

// The words for the fault there.
fn words_of(kind: FaultKind) -> &'static str {
    match kind {
        FaultKind::NotToml(_) => "the text is no TOML in UTF-8 of at most 1048576 bytes",
        FaultKind::UnknownKey => "a key that isn't known there",
        FaultKind::Missing => "the key is missing",
        FaultKind::Value => "the key can't have this value",
        FaultKind::NoUnit => "a duration needs a unit, as \"2ms\", \"300us\", \"20ns\" or \"1s\"",
        FaultKind::NotAnAct => "no act of a task",
        FaultKind::NotABoard => "the board isn't one (without threads: each task is one)",
        FaultKind::NotAStep => "no step of a scenario",
        FaultKind::TooMany => "too many tasks (255), or dates of interrupts (1000000)",
        FaultKind::SameName => "another task has this name",
        FaultKind::NotLocked => "the job has not locked this mutex",
        FaultKind::WritesIdle =>
            "nobody may write into the cross-buffer after the board's last one",
        FaultKind::NeedsEvery => "the key needs every",
        FaultKind::NoHorizon => "jobs without an end need until, as until = \"60ms\"",
        FaultKind::LongHyperperiod(_) => "the periods meet again only after more than 10s",
        FaultKind::Memory => "no memory",
    }
}

// The values that a key of a task set can have.
fn wanted_of(key: &str) -> &'static str {
    match key {
        "policy" => "\"fifo P\", \"rr P SLICE\", \"quota GROUP P\" or \"weak P\"",
        "stage" => "\"oob\" or \"inband\"",
        "at" | "every" | "by" | "until" => {
            "a duration, as \"2ms\", or a number of nanoseconds above 0 for every"
        }
        "ranks" => "\"rate-monotonic\" or \"deadline-monotonic\"",
        "limit" => "1 to 1000000",
        "jobs" | "times" => "a number",
        "line" => "a number below 65536",
        "name" => "a text without spaces, `=`, `,` and `:`, which is no number",
        "does" => "a list of acts, as [\"run 2ms\"]",
        "meets_deadlines" => "true or false",
        "response" | "blocked" => "a list of texts as [\"high <= 8ms\"], with a task's name",
        _ => "",
    }
}

// The keys that a place has.
fn known_in(place: FaultPlace) -> &'static str {
    match place {
        FaultPlace::Head => "limit, until, ranks, board, setup, task, interrupt, ask",
        FaultPlace::Task(_) => "name, policy (without ranks), stage, at, every, jobs, by, does",
        FaultPlace::Interrupt(_) => "name, line, at, every, times",
        FaultPlace::Ask => "meets_deadlines, response, blocked",
        _ => "",
    }
}

// The words for what is wanted in its place.
fn wanted(fault: TasksFault) -> &'static str {
    match fault.kind {
        FaultKind::Value | FaultKind::Missing => wanted_of(fault.key),
        FaultKind::UnknownKey => known_in(fault.place),
        _ => "",
    }
}

// Appends the key that is at fault.
fn put_key(line: &mut Text, key: &str) {
    if !key.is_empty() {
        line.put(key);
        line.put(": ");
    }
}

// Appends what is wanted in its place.
fn put_wanted(line: &mut Text, wanted: &str) {
    if !wanted.is_empty() {
        line.put("; wanted: ");
        line.put(wanted);
    }
}

/// The words for a text that is refused: its name, the line of the fault where it is known, and what is wrong.
pub fn fault_line(
    alloc: Global,
    name: &str,
    text: &str,
    fault: TasksFault,
) -> Result<String, AllocError> {
    let mut line = Text::new(alloc);
    line.put(name);
    if let Some(number) = fault.line(text) {
        put_numbered(&mut line, ":", number);
    }
    line.put(": ");
    put_place(&mut line, fault.place);
    put_key(&mut line, fault.key);
    line.put(words_of(fault.kind));
    if let FaultKind::LongHyperperiod(time) = fault.kind {
        line.put(": ");
        line.put_number(time);
        line.put(" ns");
    }
    put_wanted(&mut line, wanted(fault));
    line.put_char('\n');
    line.finish()
}
