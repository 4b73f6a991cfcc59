//! The threads that wait for mutexes.
ghost use Rattle.std.specs.Prelude.{◌≡◌, [], length, option_map, slice_get};
ghost use Rattle.std.specs.Option.{option_map_or};

use super::OwnersOf;
use evl_base::{MutexId, ThreadId};
use std::alloc::Allocator;

impl<A: Allocator> OwnersOf<A> {
    /// How many threads wait for a mutex; none where there is no such mutex. (Xenomai 4: EVL mutexes)
    pub fn waiters(&self, mutex: MutexId) -> usize
        ensures waiters { result ≡ option_map_or (λ m. length m.waiters) (slice_get self.now.mutexes mutex.0) 0 }
    {
        match self.mutexes.get(mutex.0 as usize) {
            Some(record) => record.waiters.len(),
            None => 0,
        }
    }

    /// The waiter for a mutex at a place, the first one at 0; none where nobody is there or there is no such mutex.
    /// (Xenomai 4: EVL mutexes)
    pub fn waiter(&self, mutex: MutexId, place: usize) -> Option<ThreadId>
        ensures waiter { option_map (λ thread. thread.0) result ≡ option_map (λ w. w.thread) (slice_get (option_map_or (λ m. m.waiters) (slice_get self.now.mutexes mutex.0) []) place) }
    {
        match self.mutexes.get(mutex.0 as usize) {
            Some(record) => match record.waiters.get(place) {
                Some(waiter) => Some(ThreadId(waiter.thread)),
                None => None,
            },
            None => None,
        }
    }
}
