//! Items that fall due.
use evl_base::{ThreadId, TimerId};
use evl_pipeline::{Answer, Fire};

/// The item that is due next, before it falls due.
#[derive(Clone, Copy, PartialEq, Eq)]
pub enum Item {
    /// A timer.
    Timer(TimerId),
    /// The deadline of a thread's wait.
    Deadline(ThreadId),
}

/// An item that fell due.
#[derive(Drop)]
pub enum Due {
    /// A timer fired.
    Timer {
        /// Which timer.
        id: TimerId,
        /// The fire that its callback was called with.
        fire: Fire,
        /// How many whole periods lie between its date and the date now: 0 to 2^64 - 1.
        missed: u64,
        /// The answer of its callback.
        answer: Answer,
    },
    /// The deadline of a thread's wait is gone.
    Deadline(ThreadId),
}
