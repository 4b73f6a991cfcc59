//! The calls on semaphores, flag groups and cross-buffers.
ghost use Rattle.std.specs.Prelude.{◌≡◌, ◌≤◌, ◌+◌, [], true, false, map};
ghost use Rattle.evl_sync.specs.FlagGroups.{pairs};
ghost use Rattle.evl_kernel.specs.calls.Elements.{elements, on_flags, on_sem, on_xbuf, stepping};
ghost use Rattle.evl_kernel.specs.calls.CrossBuffers as through;
ghost use Rattle.evl_kernel.specs.calls.CrossBuffers.{service_told};
ghost use Rattle.evl_sched.specs.Threads.{stage_of};
ghost use Rattle.evl_kernel.specs.calls.FlagGroups as group;
ghost use Rattle.evl_kernel.specs.calls.FlagGroups.{all_served};
ghost use Rattle.evl_kernel.specs.state.KernelViews.{Has, IsAnswer};
ghost use Rattle.evl_kernel.specs.state.Records.{KeepsCallbacks, state_of};
ghost use Rattle.evl_kernel.specs.calls.Semaphores as semaphore;
ghost use Rattle.evl_kernel.specs.waiting.Standing.{is_served, stands_for};
ghost use Rattle.evl_kernel.specs.waiting.Waits.{all_woken};
ghost use Rattle.evl_kernel.specs.declared.waits.Awaited.{Awaited as AwaitedOne};

use super::Records;
use crate::served_lists::ServedLists;
use crate::wait_place::Outcome;
use arrayvec::ArrayVec;
use evl_base::{FlagId, MAX_THREADS, Refusal, Reply, SemId, Spares, Take, ThreadId, Way, XbufId};
use evl_sync::TakenBits;
use evl_xbuf::{self as xbuf, Service};
use std::alloc::Allocator;

impl<C, A: Allocator> Records<C, A> {
    /// Lowers a count. `Unknown` where there is no such semaphore, `Again` where its count is 0.
    #[inline(never)]
    pub(super) fn try_get(&mut self, sem: SemId) -> Result<Reply, Refusal>
        ensures answer { IsAnswer result }
        ensures served { Has (state_of self.old) (stepping (state_of self.old) (on_sem sem.0 semaphore.get)) result (state_of self.new) }
        ensures stands { KeepsCallbacks self.old self.new }
    {
        match self.elements.try_get(sem) {
            Err(refusal) => return Err(refusal),
            Ok(()) => {}
        }
        Ok(Reply::Done)
    }

    /// Ends the wait of the first waiter, or else raises a count. `Unknown` where there is no such semaphore, `Range`
    /// where nobody waits and its count is the greatest.
    #[inline(always)]
    pub(super) fn put(&mut self, sem: SemId) -> Result<Reply, Refusal>
        ensures answer { IsAnswer result }
        ensures served { Has (state_of self.old) (stepping (state_of self.old) (on_sem sem.0 semaphore.put)) result (state_of self.new) }
        ensures stands { KeepsCallbacks self.old self.new }
    {
        match self.elements.put(sem) {
            Err(refusal) => Err(refusal),
            Ok(None) => Ok(Reply::Done),
            Ok(Some(thread)) => {
                self.wake(thread, Outcome::Told(Reply::Done));
                Ok(Reply::Done)
            }
        }
    }

    /// Takes bits, and says which. The first that applies: `Unknown` (no such flag group), `Invalid` (a mask without
    /// bits), `Again` (there is nothing to take).
    #[inline(never)]
    pub(super) fn try_take(&mut self, flags: FlagId, kind: Take) -> Result<Reply, Refusal>
        ensures answer { IsAnswer result }
        ensures served { Has (state_of self.old) (stepping (state_of self.old) (on_flags flags.0 (group.take kind))) result (state_of self.new) }
        ensures stands { KeepsCallbacks self.old self.new }
    {
        let bits = match self.elements.try_take(flags, kind) {
            Err(refusal) => return Err(refusal),
            Ok(bits) => bits,
        };
        Ok(Reply::Bits(bits))
    }

    /// Adds bits, and ends the waits of those who are served by one walk through the waiters. `Unknown` where there is
    /// no such flag group, `Invalid` where there are no bits to add.
    #[inline(never)]
    pub(super) fn post_flags(
        &mut self,
        flags: FlagId,
        bits: u32,
        told: &mut ArrayVec<TakenBits, MAX_THREADS>,
    ) -> Result<Reply, Refusal>
        ensures answer { IsAnswer result }
        ensures served { Has (state_of self.old) (stepping (state_of self.old) (on_flags flags.0 (group.post bits))) result (state_of self.new) }
        ensures stands { KeepsCallbacks self.old self.new }
    {
        told.clear();
        match self.elements.post(flags, bits, told) {
            Err(refusal) => Err(refusal),
            Ok(()) => {
                self.wake_all(told.as_slice());
                Ok(Reply::Done)
            }
        }
    }

    /// Writes bytes from the thread's stage, and ends the waits of those whom that serves. The first that applies:
    /// `Unknown` (no such cross-buffer), `WrongStage`, `TooBig`, `Again`.
    #[inline(never)]
    pub(super) fn write(
        &mut self,
        thread: ThreadId,
        xbuf: XbufId,
        way: Way,
        bytes: &[u8],
        told: &mut xbuf::Services,
    ) -> Result<Reply, Refusal>
        ensures answer { IsAnswer result }
        ensures served { Has (state_of self.old) (stepping (state_of self.old) (on_xbuf xbuf.0 (through.write (stage_of (state_of self.old).sched thread.0) way bytes.now))) result (state_of self.new) }
        ensures stands { KeepsCallbacks self.old self.new }
    {
        let stage = self.sched.stage(thread);
        told.clear();
        match self.elements.write(stage, xbuf, way, bytes, told) {
            Err(refusal) => Err(refusal),
            Ok(()) => {
                self.wake_any(told);
                Ok(Reply::Done)
            }
        }
    }

    /// Reads bytes from the thread's stage into a box of `spares`, and ends the waits of those whom that serves. The
    /// first that applies: `Unknown` (no such cross-buffer), `Range`, `WrongStage`, `Again`.
    #[inline(never)]
    pub(super) fn read(
        &mut self,
        thread: ThreadId,
        xbuf: XbufId,
        way: Way,
        len: u16,
        spares: &mut Spares<A>,
        lists: &mut ServedLists,
    ) -> Result<Reply, Refusal>
        requires boxes { 1 ≤ spares.old }
        ensures boxes { spares.old ≤ spares.new + 1 }
        ensures answer { IsAnswer result }
        ensures served { Has (state_of self.old) (stepping (state_of self.old) (on_xbuf xbuf.0 (through.read (stage_of (state_of self.old).sched thread.0) way len))) result (state_of self.new) }
        ensures stands { KeepsCallbacks self.old self.new }
    {
        let stage = self.sched.stage(thread);
        let got = &mut *lists.read;
        let told = &mut *lists.of_xbufs;
        told.clear();
        match self.elements.read(stage, xbuf, way, len, got, told) {
            Err(refusal) => Err(refusal),
            Ok(()) => {
                self.wake_any(told);
                Ok(Reply::Bytes(spares.take(got.as_slice())))
            }
        }
    }

    // The same as below, which enters no function where nobody was served.
    #[inline(always)]
    fn wake_any(&mut self, served: &xbuf::Services)
        requires away { (thread : _) → is_served thread (map service_told served.now) ≡ true → (on : AwaitedOne) → stands_for (elements (state_of self.old)) on thread ≡ false }
        ensures woken { state_of self.new ≡ all_woken (state_of self.old) (map service_told served.now) }
        ensures stands { KeepsCallbacks self.old self.new }
    {
        if are_none(served) {
            return;
        }
        self.wake_served(served);
    }

    /// The waits of those whom a cross-buffer served have ended, in this order, each with what it read, if it read.
    #[inline(never)]
    pub(super) fn wake_served(&mut self, served: &xbuf::Services)
        requires away { (thread : _) → is_served thread (map service_told served.now) ≡ true → (on : AwaitedOne) → stands_for (elements (state_of self.old)) on thread ≡ false }
        ensures woken { state_of self.new ≡ all_woken (state_of self.old) (map service_told served.now) }
        ensures stands { KeepsCallbacks self.old self.new }
    {
        for place in 0..served.len() {
            match served.get(place) {
                Some(Service::Wrote(thread)) => self.wake(thread, Outcome::Told(Reply::Done)),
                Some(Service::Got(thread, bytes)) => self.wake(thread, Outcome::Read(bytes)),
                None => {}
            }
        }
    }

    // The waits of those who were served have ended, in this order, each with the bits that it took.
    fn wake_all(&mut self, served: &[TakenBits])
        requires away { (thread : _) → is_served thread (all_served (pairs served.now)) ≡ true → (on : AwaitedOne) → stands_for (elements (state_of self.old)) on thread ≡ false }
        ensures woken { state_of self.new ≡ all_woken (state_of self.old) (all_served (pairs served.now)) }
        ensures stands { KeepsCallbacks self.old self.new }
    {
        for one in served {
            self.wake(one.thread, Outcome::Told(Reply::Bits(one.bits)));
        }
    }
}

// Whether nobody was served.
#[inline(always)]
fn are_none(served: &xbuf::Services) -> bool
    ensures none { result ≡ true → served.now ≡ [] }
{
    served.len() == 0
}
