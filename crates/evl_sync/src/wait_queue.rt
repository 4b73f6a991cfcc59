//! Threads that wait, by rank and arrival.
ghost use Rattle.std.specs.Prelude.{◌≡◌, ◌<◌, ◌≤◌, [], false, length, option_map, slice_get};
ghost use Rattle.evl_base.specs.Limits.{thread_limit};
ghost use Rattle.evl_sync.specs.Queues.{IsKept, dropped_by, enqueued_by, first_of, number_of, rest_of, stands_in};

mod likeness;

use crate::ranked::{leave, place_for};
use crate::waiter::Waiter;
use arrayvec::ArrayVec;
use evl_base::{MAX_THREADS, ThreadId};
use std::marker::Model;

/// Threads that wait: greater ranks first, those of one rank in the order of their arrival. To a contract it is the
/// list of them, the first one at its head. It has places for `MAX_THREADS` threads and takes no memory.
#[derive(Drop)]
pub struct WaitQueue {
    waiters: ArrayVec<Waiter, MAX_THREADS>,
}

impl Model for WaitQueue {
    ghost use Rattle.std.specs.Prelude.{List};
    ghost use Rattle.evl_sync.specs.declared.waiter.Waiter.{Waiter};
    ghost use Rattle.evl_sync.specs.Queues.{IsKept};

    ghost Value = { List Waiter };

    ghost view = { λ q. q.waiters.items };

    ghost invariant = { λ q. IsKept (λ w. w.thread) (λ w. w.rank) q.waiters.items };
}

impl WaitQueue {
    /// A queue in which nobody waits.
    pub fn new() -> WaitQueue
        ensures empty { result ≡ [] }
    {
        WaitQueue {
            waiters: ArrayVec::new(),
        }
    }

    /// Nobody waits any more.
    pub fn clear(&mut self)
        ensures empty { self.new ≡ [] }
    {
        self.waiters.clear();
    }

    /// A thread, which doesn't wait here yet, begins to wait: after those of its rank or a greater one, before all
    /// others.
    #[inline(always)]
    pub fn push(&mut self, thread: ThreadId, rank: u16)
        requires away { stands_in (λ w. w.thread) thread.0 self.old ≡ false }
        requires few { thread.0 < thread_limit }
        ensures pushed { self.new ≡ enqueued_by (λ w. w.rank) (record { thread = thread.0; rank = rank }) self.old }
    {
        let place = place_for(self.waiters.as_slice(), rank);
        self.waiters.insert(
            place,
            Waiter {
                thread: thread.0,
                rank,
            },
        );
    }

    /// The first waiter; none where nobody waits.
    pub fn head(&self) -> Option<ThreadId>
        ensures first { number_of result ≡ first_of (λ w. w.thread) self.now }
    {
        match self.waiters.as_slice().first() {
            Some(waiter) => Some(ThreadId(waiter.thread)),
            None => None,
        }
    }

    /// The thread at a place, the first one at 0; none where nobody is there.
    pub fn get(&self, place: usize) -> Option<ThreadId>
        ensures waiter { number_of result ≡ option_map (λ w. w.thread) (slice_get self.now place) }
    {
        match self.waiters.as_slice().get(place) {
            Some(waiter) => Some(ThreadId(waiter.thread)),
            None => None,
        }
    }

    /// Lets the first one wait no more, and says who that was; none where nobody waits.
    #[tactic(auto, using(crate::proofs::QueueLaws::kept_first))]
    #[inline(always)]
    pub fn pop(&mut self) -> Option<ThreadId>
        ensures first { number_of result ≡ first_of (λ w. w.thread) self.old }
        ensures rest { self.new ≡ rest_of self.old }
        ensures kept { IsKept (λ w. w.thread) (λ w. w.rank) self.old }
    {
        if self.waiters.is_empty() {
            return None;
        }
        let first = self.waiters.remove(0);
        Some(ThreadId(first.thread))
    }

    /// Lets a thread wait no more, wherever it is, and says whether it waited here. Nothing changes where it
    /// didn't.
    pub fn remove(&mut self, thread: ThreadId) -> bool
        ensures there { result ≡ stands_in (λ w. w.thread) thread.0 self.old }
        ensures dropped { self.new ≡ dropped_by (λ w. w.thread) thread.0 self.old }
    {
        leave(&mut self.waiters, thread.0)
    }

    /// How many wait, at most `MAX_THREADS`.
    pub fn len(&self) -> usize
        ensures count { result ≡ length self.now }
        ensures few { result ≤ thread_limit }
        ensures kept { IsKept (λ w. w.thread) (λ w. w.rank) self.now }
    {
        self.waiters.len()
    }
}
