//! All that two seats of a mutex word know together.
ghost use Rattle.std.specs.Prelude.{◌≡◌};
ghost use Rattle.evl_words.specs.MutexCalls.{AgreeAtMutex, IsSeatOf};

use super::{MutexCall, MutexHold, MutexReply, MutexSeat, MutexWord};
use crate::history::{View, WordEntry};
use crate::looks::{Together, look_together};
use std::alloc::Allocator;

/// How two seats of a mutex word are together.
pub struct AtMutex;

impl Together<View<WordEntry<MutexCall, MutexReply>, MutexHold>> for AtMutex {
    ghost use Rattle.evl_words.specs.MutexCalls.{AreAtMutex};

    ghost together = { AreAtMutex };
}

impl<A: Allocator> MutexWord<A> {
    /// Two seats of a mutex word know of one history: of what they have seen one is the beginning of the other, and the
    /// longer one has just the entries of each that are its own, in its order. At most one of them holds the mutex.
    /// Neither changes (Xenomai 4: EVL mutex).
    pub fn agree(&self, one: &mut MutexSeat, other: &mut MutexSeat)
        requires mutex { IsSeatOf one.old self.now × IsSeatOf other.old self.now }
        ensures same { (one.new ≡ one.old) × (other.new ≡ other.old) }
        ensures agree { AgreeAtMutex one.old other.old }
    {
        look_together::<_, _, AtMutex, _, _, _>(&self.table, &mut one.seat, &mut other.seat);
    }
}
