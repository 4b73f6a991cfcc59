//! Whether two flag groups stand alike.
ghost use Rattle.std.specs.Prelude.{◌≡◌, true};

use super::FlagGroup;
use crate::alike::{Alike, are_alike};
use crate::flag_waiter::FlagWaiter;

impl FlagGroup {
    /// Whether both have the same bits, and the same threads wait for the same bits, with the same ranks and in the
    /// same order.
    pub fn is_like(&self, other: &FlagGroup) -> bool
        ensures alike { result ≡ true → self.now ≡ other.now }
        ensures other { self.now ≡ other.now → result ≡ true }
    {
        self.bits == other.bits && are_alike(self.waiters.as_slice(), other.waiters.as_slice())
    }
}

impl Alike for FlagGroup {
    fn is_alike(&self, other: &FlagGroup) -> bool {
        self.is_like(other)
    }
}

impl Alike for FlagWaiter {
    fn is_alike(&self, other: &FlagWaiter) -> bool {
        self.thread == other.thread && self.rank == other.rank && self.kind == other.kind
    }
}
