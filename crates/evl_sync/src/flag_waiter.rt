//! A thread that waits for flags, and one that was served.
ghost use Rattle.std.specs.Prelude.{◌≡◌};

use crate::ranked::Ranked;
use evl_base::{Take, ThreadId};
use std::default::Default;

/// A waiting thread, with the effective rank that it had when its wait began, and which bits it wants.
#[derive(Clone, Copy)]
pub struct FlagWaiter {
    /// The number of the thread, below `MAX_THREADS`.
    pub thread: u16,
    /// Its rank at the beginning of the wait.
    pub rank: u16,
    /// Which bits it wants.
    pub kind: Take,
}

impl Default for FlagWaiter {
    ghost use Rattle.std.specs.Prelude.{◌≡◌};
    ghost use Rattle.evl_base.specs.declared.take.Take.TheVariants.{Any};

    ghost is_default = { λ w. w ≡ record { thread = 0; rank = 0; kind = Any } };

    fn default() -> FlagWaiter {
        FlagWaiter {
            thread: 0,
            rank: 0,
            kind: Take::Any,
        }
    }
}

impl Ranked for FlagWaiter {
    ghost thread_of = { λ w. w.thread };

    ghost rank_of = { λ w. w.rank };

    fn thread(&self) -> u16 {
        self.thread
    }

    fn rank(&self) -> u16 {
        self.rank
    }
}

/// A thread that a post served, and which bits it took.
#[derive(Clone, Copy, PartialEq, Eq)]
pub struct TakenBits {
    /// The thread that waits no more.
    pub thread: ThreadId,
    /// The bits that it took; they are in the group no more.
    pub bits: u32,
}

impl Default for TakenBits {
    ghost use Rattle.std.specs.Prelude.{◌≡◌};

    ghost is_default = { λ s. s ≡ record { thread = record { 0 = 0 }; bits = 0 } };

    fn default() -> TakenBits {
        TakenBits {
            thread: ThreadId(0),
            bits: 0,
        }
    }
}
