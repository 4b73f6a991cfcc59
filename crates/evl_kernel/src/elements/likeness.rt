//! Whether the elements of two kernels stand alike.
ghost use Rattle.std.specs.Prelude.{◌≡◌, true};

use super::Elements;
use evl_sync::are_alike;
use evl_xbuf::XbufOf;
use std::alloc::Allocator;

impl<A: Allocator> Elements<A> {
    /// Whether both have alike semaphores, flag groups, cross-buffers and mutexes in the same places.
    pub(crate) fn is_like<B: Allocator>(&self, other: &Elements<B>) -> bool
        ensures alike { result ≡ true → self.now.elements ≡ other.now.elements }
        ensures other { self.now.elements ≡ other.now.elements → result ≡ true }
    {
        are_alike(&self.sems, &other.sems)
            && are_alike(&self.flags, &other.flags)
            && are_xbufs_alike(&self.xbufs, &other.xbufs)
            && self.owners.is_like(&other.owners)
    }
}

// Whether alike cross-buffers stand in the same places.
fn are_xbufs_alike<A: Allocator, B: Allocator>(ours: &[XbufOf<A>], theirs: &[XbufOf<B>]) -> bool
    ensures alike { result ≡ true → ours.now ≡ theirs.now }
    ensures other { ours.now ≡ theirs.now → result ≡ true }
{
    if ours.len() != theirs.len() {
        return false;
    }
    for n in 0..ours.len() {
        if !ours[n].is_like(&theirs[n]) {
            return false;
        }
    }
    true
}
