//! Places among those who wait by rank and arrival, whatever else they wait for.
ghost use Rattle.std.specs.Prelude.{◌≡◌, ◌<◌, ◌≤◌, ◌==◌, nat_lt, length, IfSome};
ghost use Rattle.std.specs.List.{position, position_or_len};
ghost use Rattle.evl_sync.specs.Queues.{AreRanked, dropped_by, stands_in};

use arrayvec::ArrayVec;
use evl_base::MAX_THREADS;
use std::default::Default;

// A thread that waits by rank and arrival.
pub(crate) trait Ranked: Copy + Default {
    ghost use Rattle.std.specs.Prelude.{ℕ, ◌≡◌};

    // The number of the thread.
    ghost thread_of: { Self → ℕ };

    // Its rank at the beginning of the wait.
    ghost rank_of: { Self → ℕ };

    fn thread(&self) -> u16
        ensures { result ≡ thread_of self.now };

    fn rank(&self) -> u16
        ensures { result ≡ rank_of self.now };
}

// Lets a thread, which is here at most once, wait no more; whether it did.
pub(crate) fn leave<W: Ranked>(waiters: &mut ArrayVec<W, MAX_THREADS>, thread: u16) -> bool
    requires once { AreRanked W.thread_of W.rank_of waiters.old.items }
    ensures there { result ≡ stands_in W.thread_of thread waiters.old.items }
    ensures dropped { waiters.new.items ≡ dropped_by W.thread_of thread waiters.old.items }
{
    match place_of(waiters.as_slice(), thread) {
        Some(place) => {
            waiters.remove(place);
            true
        }
        None => false,
    }
}

// The place of a thread.
fn place_of<W: Ranked>(waiters: &[W], thread: u16) -> Option<usize>
    ensures place { result ≡ position (λ w. W.thread_of w == thread) waiters.now }
    ensures within { IfSome result (λ place. place < length waiters.now) }
{
    waiters.iter().position(|waiter| waiter.thread() == thread)
}

// The place after those of this rank or a greater one.
#[tactic(auto, using(crate::proofs::QueueLaws::place_found, crate::proofs::QueueLaws::place_behind))]
pub(crate) fn place_for<W: Ranked>(waiters: &[W], rank: u16) -> usize
    ensures place { result ≡ position_or_len (λ w. nat_lt (W.rank_of w) rank) waiters.now }
    ensures within { result ≤ length waiters.now }
{
    match first_below(waiters, rank) {
        Some(place) => place,
        None => waiters.len(),
    }
}

// The first of a lower rank.
fn first_below<W: Ranked>(waiters: &[W], rank: u16) -> Option<usize>
    ensures first { result ≡ position (λ w. nat_lt (W.rank_of w) rank) waiters.now }
    ensures within { IfSome result (λ place. place < length waiters.now) }
{
    waiters.iter().position(|waiter| waiter.rank() < rank)
}
