//! Whether the records of two kernels are alike.
ghost use Rattle.std.specs.Prelude.{◌≡◌, true};

use super::OwnersOf;
use crate::mutex_record::are_alike;
use std::alloc::Allocator;

impl<A: Allocator> OwnersOf<A> {
    /// Whether both have of each mutex the same kind, owner and waiters in the same order, whatever base ranks they
    /// were given.
    pub fn is_like<B: Allocator>(&self, other: &OwnersOf<B>) -> bool
        ensures alike { result ≡ true → self.now.mutexes ≡ other.now.mutexes }
        ensures other { self.now.mutexes ≡ other.now.mutexes → result ≡ true }
    {
        are_alike(&self.mutexes, &other.mutexes)
    }
}
