//! Which thread lends another one its rank.
ghost use Rattle.std.specs.Prelude.{◌≡◌, Some, None, if◌then◌else◌};
ghost use Rattle.std.specs.Option.{option_or};
ghost use Rattle.evl_base.specs.Limits.{thread_limit};
ghost use Rattle.evl_mutex.specs.Chains as chains;
ghost use Rattle.lab_moments.specs.Standings.{has_own, lender, lender_of, lends, next_owner, owner_awaited};

use crate::handed::found;
use evl_base::{MAX_THREADS, ThreadId};
use evl_kernel::{Awaited, KernelOf};
use lab_drawing::own_rank;
use std::alloc::Global;

// The recorded owner of what is waited for.
fn owner_awaited<C>(kernel: &KernelOf<C, Global>, on: Awaited) -> Option<u16>
    ensures owner { result ≡ owner_awaited kernel.now.history.state on }
{
    match on {
        Awaited::Mutex(id) => match kernel.owner(id) {
            Some(owner) => Some(owner.0),
            None => None,
        },
        _ => None,
    }
}

// The recorded owner of the mutex that a thread waits for.
fn next_owner<C>(kernel: &KernelOf<C, Global>, thread: u16) -> Option<u16>
    ensures owner { result ≡ next_owner kernel.now.history.state thread }
{
    if kernel.finished(ThreadId(thread)) {
        return None;
    }
    owner_awaited(kernel, kernel.awaited(ThreadId(thread))?)
}

// Whether a thread waits for another one along recorded owners.
fn reaches<C>(kernel: &KernelOf<C, Global>, from: u16, to: u16) -> bool
    ensures reached { result ≡ chains.reaches thread_limit (next_owner kernel.now.history.state) from to }
{
    let mut at = from;
    for _step in 0..MAX_THREADS {
        match next_owner(kernel, at) {
            Some(owner) => {
                if owner == to {
                    return true;
                }
                at = owner;
            }
            None => return false,
        }
    }
    false
}

// Whether a thread has this rank by its own policy.
fn has_own<C>(kernel: &KernelOf<C, Global>, thread: u16, rank: u16) -> bool
    ensures own { result ≡ has_own kernel.now.history.state thread rank }
{
    match kernel.policy(ThreadId(thread)) {
        Some(policy) => own_rank(policy) == rank,
        None => false,
    }
}

// Whether a thread lends another one this rank.
fn lends<C>(kernel: &KernelOf<C, Global>, thread: u16, rank: u16, from: u16) -> bool
    ensures lends { result ≡ lends kernel.now.history.state thread rank from }
{
    has_own(kernel, from, rank) && reaches(kernel, from, thread)
}

// The first thread that lends another one this rank.
fn lender<C>(kernel: &KernelOf<C, Global>, thread: u16, rank: u16) -> Option<u16>
    ensures lender { result ≡ lender kernel.now.history.state thread rank }
{
    let mut first = None;
    for from in 0..MAX_THREADS as u16 {
        first = found(first, from, lends(kernel, thread, rank, from));
    }
    first
}

/// The thread that lends another one this rank, where that isn't its own.
pub(crate) fn lender_of<C>(kernel: &KernelOf<C, Global>, thread: u16, rank: u16) -> Option<u16>
    ensures lender { result ≡ lender_of kernel.now.history.state thread rank }
{
    if has_own(kernel, thread, rank) {
        None
    } else {
        lender(kernel, thread, rank)
    }
}
