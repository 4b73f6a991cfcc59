//! The calls that callers make on words, and their answers.
ghost use Rattle.std.specs.Prelude.{Some};

use evl_base::{MutexId, Refusal, StaxId, ThreadId};
use std::fmt;

/// A call of a machine. A caller's pass is known by what it is of.
#[derive(Clone, Copy, PartialEq, Eq)]
pub enum WordCall {
    TryLockStax(StaxId),
    UnlockStax(StaxId),
    /// Sets a stax's claim mark, as `lock_stax` does after its first `Again`.
    ClaimStax(StaxId),
    TryLockMutex(MutexId),
    UnlockMutexFast(MutexId),
    /// The exchange of a fast unlock; where others claim the mutex, a visit of the kernel after it.
    TryUnlockMutex(MutexId),
    /// A visit of the kernel, with the deadline of a wait.
    BeginLockMutex(MutexId, Option<u64>),
    /// A visit of the kernel, once the wait for a mutex has ended.
    FinishLockMutex,
    /// The step of the crew with this place, from 0: a visit of the kernel.
    Kernel(usize),
    /// A visit of the kernel, once the caller's wait has ended; it has to say whether the caller holds a stax or mutex.
    Finish(bool),
}

/// The answer to a call.
#[derive(Clone, Copy, PartialEq, Eq)]
pub enum Answer {
    /// A pass.
    Passed,
    Done,
    /// The caller was the last one in a stax, and found its claim mark.
    Wanted,
    Refused(Refusal),
    /// The caller waits.
    Begun,
    TimedOut,
    Count(i64),
    Bits(u32),
    Number(u64),
    Chosen(Option<ThreadId>),
}

impl fmt::Display for Answer {
    ghost use Rattle.lab_step_orders.specs.Told.{answer_text};

    ghost output = { λ answer. Some (answer_text answer) };

    fn fmt<W: fmt::Write>(&self, f: &mut fmt::Formatter<W>) -> fmt::Result {
        match *self {
            Answer::Passed => write!(f, "pass"),
            Answer::Done => write!(f, "done"),
            Answer::Wanted => write!(f, "done, others want in"),
            Answer::Refused(refusal) => write!(f, "{refusal}"),
            Answer::Begun => write!(f, "begun"),
            Answer::TimedOut => write!(f, "timed out"),
            Answer::Count(count) => write!(f, "count {count}"),
            Answer::Bits(bits) => write!(f, "bits {bits}"),
            Answer::Number(number) => write!(f, "number {number}"),
            Answer::Chosen(None) => write!(f, "thread none"),
            Answer::Chosen(Some(thread)) => {
                let number = thread.0;
                write!(f, "thread {number}")
            }
        }
    }
}
