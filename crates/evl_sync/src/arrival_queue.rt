//! Threads that wait, by arrival alone.
ghost use Rattle.std.specs.Prelude.{◌≡◌, ◌<◌, ◌≤◌, ◌++◌, [], ◌∷◌, false, length};
ghost use Rattle.evl_base.specs.Limits.{thread_limit};
ghost use Rattle.evl_sync.specs.Queues.{IsKept, dropped_by, first_of, number_of, rest_of, stands_in};

mod likeness;

use arrayvec::ArrayVec;
use evl_base::{MAX_THREADS, ThreadId};
use std::marker::Model;

/// Threads that wait, in the order of their arrival. To a contract it is the list of their numbers, the first one at
/// its head. It has places for `MAX_THREADS` threads and takes no memory.
#[derive(Drop)]
pub struct ArrivalQueue {
    threads: ArrayVec<u16, MAX_THREADS>,
}

impl Model for ArrivalQueue {
    ghost use Rattle.std.specs.Prelude.{ℕ, List};
    ghost use Rattle.evl_sync.specs.Queues.{IsKept};

    ghost Value = { List ℕ };

    ghost view = { λ q. q.threads.items };

    ghost invariant = { λ q. IsKept (λ t. t) (λ t. 0) q.threads.items };
}

impl ArrivalQueue {
    /// A queue in which nobody waits.
    pub fn new() -> ArrivalQueue
        ensures empty { result ≡ [] }
    {
        ArrivalQueue {
            threads: ArrayVec::new(),
        }
    }

    // rule: An `ArrivalQueue` is ordered only by arrival.
    //   clauses: ArrivalQueue::{push, new, head, pop, remove, len}
    //   rows: arrivals_keep_their_order
    /// A thread, which doesn't wait here yet, begins to wait, after all others.
    pub fn push(&mut self, thread: ThreadId)
        requires away { stands_in (λ t. t) thread.0 self.old ≡ false }
        requires few { thread.0 < thread_limit }
        ensures pushed { self.new ≡ self.old ++ thread.0 ∷ [] }
    {
        self.threads.push(thread.0);
    }

    /// The first waiter; none where nobody waits.
    pub fn head(&self) -> Option<ThreadId>
        ensures first { number_of result ≡ first_of (λ t. t) self.now }
    {
        match self.threads.as_slice().first() {
            Some(thread) => Some(ThreadId(*thread)),
            None => None,
        }
    }

    /// Lets the first one wait no more, and says who that was; none where nobody waits.
    #[tactic(auto, using(crate::proofs::QueueLaws::kept_first))]
    pub fn pop(&mut self) -> Option<ThreadId>
        ensures first { number_of result ≡ first_of (λ t. t) self.old }
        ensures rest { self.new ≡ rest_of self.old }
    {
        if self.threads.is_empty() {
            return None;
        }
        let first = self.threads.remove(0);
        Some(ThreadId(first))
    }

    /// Lets a thread wait no more, wherever it is, and says whether it waited here. Nothing changes where it
    /// didn't.
    pub fn remove(&mut self, thread: ThreadId) -> bool
        ensures there { result ≡ stands_in (λ t. t) thread.0 self.old }
        ensures dropped { self.new ≡ dropped_by (λ t. t) thread.0 self.old }
    {
        let there = stands_in(self.threads.as_slice(), thread.0);
        self.threads = without(self.threads.as_slice(), thread.0);
        there
    }

    /// How many wait, at most `MAX_THREADS`.
    pub fn len(&self) -> usize
        ensures count { result ≡ length self.now }
        ensures few { result ≤ thread_limit }
        ensures kept { IsKept (λ t. t) (λ t. 0) self.now }
    {
        self.threads.len()
    }
}

fn stands_in(threads: &[u16], thread: u16) -> bool
    ensures there { result ≡ stands_in (λ t. t) thread threads.now }
{
    threads.iter().any(|number| *number == thread)
}

// All but this thread.
fn without(threads: &[u16], thread: u16) -> ArrayVec<u16, MAX_THREADS>
    requires few { length threads.now ≤ thread_limit }
    ensures dropped { result.items ≡ dropped_by (λ t. t) thread threads.now }
{
    let mut kept = ArrayVec::new();
    for number in threads {
        if *number != thread {
            kept.push(*number);
        }
    }
    kept
}
