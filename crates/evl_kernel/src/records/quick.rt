//! Quick ways: the whole of a call where it takes one step and nothing is played after it, and else nothing.
ghost use Rattle.std.specs.Prelude.{◌≡◌, ◌<◌, ◌≤◌, ◌+◌, ◌&&◌, [], None, IfNone, IfSome, Ok, is_none, true, false};
ghost use Rattle.evl_kernel.specs.histories.Histories.{Step};
ghost use Rattle.evl_kernel.specs.state.Records.{state_of, whereabouts};
ghost use Rattle.evl_kernel.specs.waiting.Waits.{wait_at};
ghost use Rattle.evl_pipeline.specs.NumberSet.{least};

use super::Records;
use evl_base::{Call, Reply, SemId, Spares, ThreadId, Transfer, Way, XbufId};
use evl_pipeline::Handler;
use std::alloc::Allocator;

impl<C: Handler, A: Allocator> Records<C, A> {
    /// Answers a put where nobody waits for the semaphore and nothing pends, and says whether it did; nothing changes
    /// else.
    #[inline(always)]
    pub(crate) fn put_quickly(&mut self, caller: ThreadId, sem: SemId) -> bool
        ensures done { result ≡ true → Step (state_of self.old) caller.0 (Call.Put sem) (Ok Reply.Done) [] (state_of self.new) }
        ensures kept { result ≡ false → self.new ≡ self.old }
        ensures stands { whereabouts self.new ≡ whereabouts self.old }
    {
        if !self.is_free(caller) {
            return false;
        }
        if !self.elements.raise_count(sem) {
            return false;
        }
        true
    }

    /// Answers a get where the count isn't 0 and nothing pends, and says whether it did; nothing changes else.
    #[inline(always)]
    pub(crate) fn get_quickly(&mut self, caller: ThreadId, sem: SemId) -> bool
        ensures done { result ≡ true → Step (state_of self.old) caller.0 (Call.TryGet sem) (Ok Reply.Done) [] (state_of self.new) }
        ensures kept { result ≡ false → self.new ≡ self.old }
        ensures stands { whereabouts self.new ≡ whereabouts self.old }
    {
        if !self.is_free(caller) {
            return false;
        }
        let Ok(()) = self.elements.try_get(sem) else {
            return false;
        };
        true
    }

    /// Answers a write where it is accepted, nobody waits for the cross-buffer and nothing pends, and says whether it
    /// did; nothing changes else.
    #[inline(never)]
    pub(crate) fn write_quickly(
        &mut self,
        caller: ThreadId,
        xbuf: XbufId,
        way: Way,
        bytes: &Transfer,
    ) -> bool
        ensures done { result ≡ true → Step (state_of self.old) caller.0 (Call.Write xbuf way bytes.now) (Ok Reply.Done) [] (state_of self.new) }
        ensures kept { result ≡ false → self.new ≡ self.old }
        ensures stands { whereabouts self.new ≡ whereabouts self.old }
    {
        if !self.is_free(caller) {
            return false;
        }
        let stage = self.sched.stage(caller);
        if !self
            .elements
            .write_unserved(stage, xbuf, way, bytes.as_slice())
        {
            return false;
        }
        true
    }

    /// Answers a read, in a box of `spares`, where it is accepted, nobody waits for the cross-buffer, the bytes lie in
    /// one piece and nothing pends; none, and nothing changes, else.
    #[inline(always)]
    pub(crate) fn read_quickly(
        &mut self,
        caller: ThreadId,
        xbuf: XbufId,
        way: Way,
        len: u16,
        spares: &mut Spares<A>,
    ) -> Option<Transfer>
        requires boxes { 1 ≤ spares.old }
        ensures done { IfSome result (λ read. Step (state_of self.old) caller.0 (Call.Read xbuf way len) (Ok (Reply.Bytes read)) [] (state_of self.new)) }
        ensures spent { spares.old ≤ spares.new + 1 }
        ensures kept { IfNone result ((self.new ≡ self.old) × (spares.new ≡ spares.old)) }
        ensures stands { whereabouts self.new ≡ whereabouts self.old }
    {
        if !self.is_free(caller) {
            return None;
        }
        let stage = self.sched.stage(caller);
        self.elements.read_unserved(stage, xbuf, way, len, spares)
    }
}

impl<C, A: Allocator> Records<C, A> {
    // Whether a thread of the board calls that has no unfinished wait, and nothing pends.
    #[inline(always)]
    fn is_free(&self, caller: ThreadId) -> bool
        ensures there { result ≡ true → caller.0 < self.now.threads }
        ensures idle { result ≡ true → wait_at (state_of self.now) caller.0 ≡ None }
        ensures calm { result ≡ true → (is_none (least self.now.lines.oob.pending) && is_none (least self.now.lines.inband.pending)) ≡ true }
    {
        let Some(place) = self.waits.get(usize::from(caller.0)) else {
            return false;
        };
        if place.wait().is_some() {
            return false;
        }
        self.pipeline.is_idle()
    }
}
