//! A waiting thread.
use crate::ranked::Ranked;

/// A waiting thread, with the effective rank that it had when its wait began: a rank that it is given later doesn't
/// move it.
#[derive(Clone, Copy, Default, PartialEq, Eq)]
pub struct Waiter {
    /// The number of the thread, below `MAX_THREADS`.
    pub thread: u16,
    /// Its rank at the beginning of the wait.
    pub rank: u16,
}

impl Ranked for Waiter {
    ghost thread_of = { λ w. w.thread };

    ghost rank_of = { λ w. w.rank };

    fn thread(&self) -> u16 {
        self.thread
    }

    fn rank(&self) -> u16 {
        self.rank
    }
}
