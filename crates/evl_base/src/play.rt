//! The plays of the kernel while it settles.
ghost use Rattle.std.specs.Prelude.{Some};

use crate::numbers::{LineNo, ThreadId, TimerId};
use crate::stage::Stage;
use std::fmt;

/// One event that the kernel played while it settled (Dovetail: interrupt pipeline).
#[derive(Clone, Copy, PartialEq, Eq)]
pub enum Play {
    /// Line 0, the clock's.
    Clock,
    /// A fire of a timer: its count from 1, how many periods it missed, whether its callback handled it.
    Timer {
        timer: TimerId,
        count: u64,
        missed: u64,
        handled: bool,
    },
    /// The deadline of a thread's wait.
    Deadline {
        thread: ThreadId,
    },
    /// A fire of a line on a stage: its count from 1, whether its callback handled it.
    Line {
        line: LineNo,
        stage: Stage,
        count: u64,
        handled: bool,
    },
}

// Whether a callback handled its fire.
#[derive(Drop)]
struct Handled(bool);

impl fmt::Display for Handled {
    ghost use Rattle.evl_base.specs.Play.{handled_text};

    ghost output = { λ handled. Some (handled_text handled.0) };

    fn fmt<W: fmt::Write>(&self, f: &mut fmt::Formatter<W>) -> fmt::Result {
        if self.0 {
            write!(f, " handled")
        } else {
            write!(f, " none")
        }
    }
}

impl fmt::Display for Play {
    ghost use Rattle.evl_base.specs.Play.{play_text};

    ghost output = { λ play. Some (play_text play) };

    fn fmt<W: fmt::Write>(&self, f: &mut fmt::Formatter<W>) -> fmt::Result {
        match *self {
            Play::Clock => write!(f, "clock"),
            Play::Timer {
                timer,
                count,
                missed,
                handled,
            } => {
                let timer = timer.0;
                let handled = Handled(handled);
                write!(f, "timer {timer} count {count} missed {missed}{handled}")
            }
            Play::Deadline { thread } => {
                let thread = thread.0;
                write!(f, "deadline T{thread}")
            }
            Play::Line {
                line,
                stage,
                count,
                handled,
            } => {
                let line = line.0;
                let handled = Handled(handled);
                write!(f, "line {line} {stage} count {count}{handled}")
            }
        }
    }
}
