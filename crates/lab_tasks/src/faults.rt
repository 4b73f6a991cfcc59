//! The faults of a text of tasks, and where they are.

use std::alloc::{AllocError, AllocFailed};

/// The place of a text's fault. Numbers begin with 1.
#[derive(Clone, Copy, PartialEq, Eq)]
pub enum FaultPlace {
    /// The text as a whole.
    Document,
    /// A key beside the tables.
    Head,
    Board,
    /// This step of the setup.
    Setup(usize),
    /// This task.
    Task(usize),
    /// This task, and this act of it.
    Act(usize, usize),
    /// This interrupt.
    Interrupt(usize),
    /// The questions about the run.
    Ask,
}

/// The kind of the fault there.
#[derive(Clone, Copy, PartialEq, Eq)]
pub enum FaultKind {
    /// It isn't UTF-8, is no TOML document, or has more than 1,048,576 bytes; the line where TOML ends, from 1.
    NotToml(Option<usize>),
    /// A table has another key.
    UnknownKey,
    /// The key has to be there.
    Missing,
    /// The key has a value that it can't have.
    Value,
    /// A text of a duration has no unit.
    NoUnit,
    /// An act's word is unknown, can't be done by a task, or has other keys.
    NotAnAct,
    /// The board, with the tasks' threads, isn't one.
    NotABoard,
    /// A step isn't one.
    NotAStep,
    /// There are more than 255 tasks, or more dates of interrupts than 1,000,000.
    TooMany,
    /// Another task has the same name.
    SameName,
    /// A mutex is unlocked that the job didn't lock.
    NotLocked,
    /// It writes into the cross-buffer after the text's, by which tasks wait for dates.
    WritesIdle,
    /// It makes sense only beside `every`.
    NeedsEvery,
    /// Jobs without an end need `until`.
    NoHorizon,
    /// The tasks' periods meet again after so many nanoseconds, which is above 10 s, or 2^64 - 1 if that is above it.
    LongHyperperiod(u64),
    /// A growth was refused.
    Memory,
}

/// Why a text is no task set.
#[derive(Clone, Copy)]
pub struct TasksFault {
    pub place: FaultPlace,
    /// The key at fault, or empty.
    pub key: &'static str,
    pub kind: FaultKind,
}

/// The fault of a key at a place.
pub fn fault(place: FaultPlace, key: &'static str, kind: FaultKind) -> TasksFault {
    TasksFault { place, key, kind }
}

impl From<AllocError> for TasksFault {
    fn from(_: AllocError) -> TasksFault {
        fault(FaultPlace::Document, "", FaultKind::Memory)
    }
}

impl<T: Drop> From<AllocFailed<T>> for TasksFault {
    fn from(_: AllocFailed<T>) -> TasksFault {
        fault(FaultPlace::Document, "", FaultKind::Memory)
    }
}

// The heading of the tables that a place is in, and which of them it is, from 1.
fn heading_of(place: FaultPlace) -> Option<(&'static str, usize)> {
    match place {
        FaultPlace::Document => None,
        FaultPlace::Head => None,
        FaultPlace::Board => Some(("[board]", 1)),
        FaultPlace::Setup(number) => Some(("[[setup]]", number)),
        FaultPlace::Task(number) => Some(("[[task]]", number)),
        FaultPlace::Act(number, _) => Some(("[[task]]", number)),
        FaultPlace::Interrupt(number) => Some(("[[interrupt]]", number)),
        FaultPlace::Ask => Some(("[ask]", 1)),
    }
}

// The line of a heading that comes for this time, from 1.
fn line_of(text: &str, heading: &str, number: usize) -> Option<usize> {
    let mut left = number;
    for (i, line) in text.lines().enumerate() {
        if line.starts_with(heading) {
            left = left.saturating_sub(1);
            if left == 0 {
                return Some(i.saturating_add(1));
            }
        }
    }
    None
}

impl TasksFault {
    /// The line of its text that it is in, from 1, or that of the heading of its table, where that comes first in a line.
    pub fn line(&self, text: &str) -> Option<usize> {
        if let FaultKind::NotToml(line) = self.kind {
            return line;
        }
        let (heading, number) = heading_of(self.place)?;
        line_of(text, heading, number)
    }
}
