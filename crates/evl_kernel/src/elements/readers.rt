//! The elements' readers, besides the answers of calls.
ghost use Rattle.std.specs.Prelude.{◌≡◌, length, map, option_map, slice_get};
ghost use Rattle.evl_kernel.specs.waiting.Standing.{queue_at, queue_of};
ghost use Rattle.evl_sync.specs.Semaphores as semaphores;
ghost use Rattle.evl_xbuf.specs.Xbufs.{stream};

use super::Elements;
use crate::waits::Awaited;
use evl_base::{FlagId, SemId, ThreadId, Way, XbufId};
use std::alloc::Allocator;

impl<A: Allocator> Elements<A> {
    /// The count of a semaphore, or minus the number of its waiters.
    pub(crate) fn count(&self, sem: SemId) -> Option<i64>
        ensures count { result ≡ option_map semaphores.peek (slice_get self.now.elements.sems sem.0) }
    {
        Some(self.sems.get(usize::from(sem.0))?.peek())
    }

    /// The bits of a flag group.
    pub(crate) fn flag_bits(&self, flags: FlagId) -> Option<u32>
        ensures bits { result ≡ option_map (λ group. group.bits) (slice_get self.now.elements.flags flags.0) }
    {
        Some(self.flags.get(usize::from(flags.0))?.peek())
    }

    /// How many bytes stand in a way of a cross-buffer.
    pub(crate) fn there(&self, xbuf: XbufId, way: Way) -> Option<usize>
        ensures there { result ≡ option_map (λ x. length (stream x way).there) (slice_get self.now.elements.xbufs xbuf.0) }
    {
        match self.xbufs.get(usize::from(xbuf.0)) {
            Some(xbuf) => Some(xbuf.there(way)),
            None => None,
        }
    }

    // The thread at a place of a semaphore's queue.
    fn sem_waiter(&self, sem: SemId, place: usize) -> Option<ThreadId>
        ensures waiter { option_map (λ t. t.0) result ≡ slice_get (queue_at (λ q. map (λ w. w.thread) q.waiters) self.now.elements.sems sem.0) place }
    {
        self.sems.get(usize::from(sem.0))?.waiter(place)
    }

    // The thread at a place of a flag group's queue.
    fn flag_waiter(&self, flags: FlagId, place: usize) -> Option<ThreadId>
        ensures waiter { option_map (λ t. t.0) result ≡ slice_get (queue_at (λ f. map (λ w. w.thread) f.waiters) self.now.elements.flags flags.0) place }
    {
        self.flags.get(usize::from(flags.0))?.waiter(place)
    }

    // The thread at a place among those who wait to write into a way of a cross-buffer.
    fn writer(&self, xbuf: XbufId, way: Way, place: usize) -> Option<ThreadId>
        ensures waiter { option_map (λ t. t.0) result ≡ slice_get (queue_at (λ x. map (λ w. w.thread) (stream x way).writers) self.now.elements.xbufs xbuf.0) place }
    {
        match self.xbufs.get(usize::from(xbuf.0)) {
            Some(xbuf) => xbuf.writer(way, place),
            None => None,
        }
    }

    // The thread at a place among those who wait to read from a way of a cross-buffer.
    fn reader(&self, xbuf: XbufId, way: Way, place: usize) -> Option<ThreadId>
        ensures waiter { option_map (λ t. t.0) result ≡ slice_get (queue_at (λ x. map (λ r. r.thread) (stream x way).readers) self.now.elements.xbufs xbuf.0) place }
    {
        match self.xbufs.get(usize::from(xbuf.0)) {
            Some(xbuf) => xbuf.reader(way, place),
            None => None,
        }
    }

    /// The thread at a place of the queue of an element, the first one at 0.
    pub(crate) fn waiter(&self, on: Awaited, place: usize) -> Option<ThreadId>
        ensures waiter { option_map (λ t. t.0) result ≡ slice_get (queue_of self.now.elements on) place }
    {
        match on {
            Awaited::Sem(sem) => self.sem_waiter(sem, place),
            Awaited::Flags(flags) => self.flag_waiter(flags, place),
            Awaited::Writing(xbuf, way) => self.writer(xbuf, way, place),
            Awaited::Reading(xbuf, way) => self.reader(xbuf, way, place),
            Awaited::Mutex(mutex) => self.owners.waiter(mutex, place),
        }
    }
}
