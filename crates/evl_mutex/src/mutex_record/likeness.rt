//! Whether what is recorded of mutexes is alike.
ghost use Rattle.std.specs.Prelude.{◌≡◌, true};
ghost use Rattle.evl_mutex.specs.Views.{mutex_of, mutexes_of};

use super::MutexRecord;
use crate::waiter::Waiter;
use std::alloc::Allocator;

impl<A: Allocator> MutexRecord<A> {
    /// Whether both have one kind, one owner, and the same waiters in the same order.
    pub fn is_like<B: Allocator>(&self, other: &MutexRecord<B>) -> bool
        ensures alike { result ≡ true → mutex_of self.now ≡ mutex_of other.now }
        ensures other { mutex_of self.now ≡ mutex_of other.now → result ≡ true }
    {
        self.kind == other.kind
            && is_owner_alike(self.owner, other.owner)
            && are_waiters_alike(&self.waiters, &other.waiters)
    }
}

/// Whether the same is recorded of the mutexes in the same places.
pub fn are_alike<A: Allocator, B: Allocator>(
    ours: &[MutexRecord<A>],
    theirs: &[MutexRecord<B>],
) -> bool
    ensures alike { result ≡ true → mutexes_of ours.now ≡ mutexes_of theirs.now }
    ensures other { mutexes_of ours.now ≡ mutexes_of theirs.now → result ≡ true }
{
    if ours.len() != theirs.len() {
        return false;
    }
    for n in 0..ours.len() {
        if !ours[n].is_like(&theirs[n]) {
            return false;
        }
    }
    true
}

fn is_owner_alike(ours: Option<u16>, theirs: Option<u16>) -> bool
    ensures alike { result ≡ true → ours ≡ theirs }
    ensures other { ours ≡ theirs → result ≡ true }
{
    match (ours, theirs) {
        (Some(ours), Some(theirs)) => ours == theirs,
        (None, None) => true,
        (Some(_), None) => false,
        (None, Some(_)) => false,
    }
}

fn are_waiters_alike(ours: &[Waiter], theirs: &[Waiter]) -> bool
    ensures alike { result ≡ true → ours.now ≡ theirs.now }
    ensures other { ours.now ≡ theirs.now → result ≡ true }
{
    ours == theirs
}
