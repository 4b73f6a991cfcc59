//! The ready threads one after another: they are written into a list, and those of two orders are compared.
ghost use Rattle.std.specs.Prelude.{◌≡◌, ◌++◌, ℕ, true, length, map, take, OnErr, OnOk};
ghost use Rattle.evl_sched.specs.Orders.{AreStamped, in_order};
ghost use Rattle.evl_sched.specs.Walks.{IsNext};

use super::{Order, least_of, stamp_in};
use evl_base::ThreadId;
use std::alloc::{AllocError, Allocator};

/// A ready thread, and its stamp.
#[derive(Clone, Copy)]
pub struct Turn {
    pub thread: u16,
    pub stamp: u64,
}

impl<A: Allocator> Order<A> {
    /// Adds the ready threads to a list, in order; nothing of them where room was refused.
    pub fn ready_threads<B: Allocator>(&self, out: &mut Vec<ThreadId, B>) -> Result<(), AllocError>
        ensures told { OnOk result (map (λ t. t.0) out.new.items ≡ map (λ t. t.0) out.old.items ++ self.now.ready) }
        ensures unchanged { OnErr result (map (λ t. t.0) out.new.items ≡ map (λ t. t.0) out.old.items) }
    {
        let before = out.len();
        match tell_all(&self.stamps, self.next, out) {
            Ok(()) => Ok(()),
            Err(refused) => {
                out.truncate(before);
                Err(refused)
            }
        }
    }

    /// Whether the same threads are ready, in the same order.
    pub fn is_alike<B: Allocator>(&self, other: &Order<B>) -> bool
        ensures alike { result ≡ true → self.now.ready ≡ other.now.ready }
        ensures other { self.now.ready ≡ other.now.ready → result ≡ true }
    {
        are_alike(&self.stamps, self.next, &other.stamps, other.next)
    }
}

// The next of the ready threads, from this stamp on. All stamps lie below the limit.
fn next_ready<A: Allocator>(stamps: &Vec<Option<u64>, A>, limit: u64, low: u64) -> Option<Turn>
    requires { AreStamped stamps.now.items limit }
    ensures next { IsNext stamps.now.items limit low result }
{
    if limit <= low {
        return None;
    }
    match least_of(stamps, low) {
        Some(thread) => match stamp_in(stamps, thread) {
            Some(stamp) => Some(Turn { thread, stamp }),
            None => None,
        },
        None => None,
    }
}

// Adds the ready threads to a list, in order.
fn tell_all<A: Allocator, B: Allocator>(
    stamps: &Vec<Option<u64>, A>,
    limit: u64,
    out: &mut Vec<ThreadId, B>,
) -> Result<(), AllocError>
    requires { AreStamped stamps.now.items limit }
    ensures told { OnOk result (map (λ t. t.0) out.new.items ≡ map (λ t. t.0) out.old.items ++ in_order stamps.now.items limit) }
    ensures begun { take (length out.old.items) (map (λ t. t.0) out.new.items) ≡ map (λ t. t.0) out.old.items }
{
    let mut low: u64 = 0;
    while let Some(turn) = next_ready(stamps, limit, low) {
        out.push(ThreadId(turn.thread))?;
        low = turn.stamp + 1;
    }
    Ok(())
}

// Whether the same threads are ready, in the same order.
fn are_alike<A: Allocator, B: Allocator>(
    one: &Vec<Option<u64>, A>,
    one_limit: u64,
    other: &Vec<Option<u64>, B>,
    other_limit: u64,
) -> bool
    requires one { AreStamped one.now.items one_limit }
    requires other { AreStamped other.now.items other_limit }
    ensures alike { result ≡ true → in_order one.now.items one_limit ≡ in_order other.now.items other_limit }
    ensures other { in_order one.now.items one_limit ≡ in_order other.now.items other_limit → result ≡ true }
{
    let mut low: u64 = 0;
    let mut other_low: u64 = 0;
    while let Some(turn) = next_ready(one, one_limit, low) {
        let Some(other_turn) = next_ready(other, other_limit, other_low) else {
            return false;
        };
        if turn.thread != other_turn.thread {
            return false;
        }
        low = turn.stamp + 1;
        other_low = other_turn.stamp + 1;
    }
    next_ready(other, other_limit, other_low).is_none()
}
