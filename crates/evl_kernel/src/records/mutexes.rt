//! The calls on mutexes: a claim, which begins a wait, a release and a raise.
ghost use Rattle.std.specs.Prelude.{◌≡◌, ◌<◌, Err, None, Ok, false, true};
ghost use Rattle.evl_kernel.specs.waiting.Beginnings.{beginning, is_there, is_named, may_name, waiter_refusal};
ghost use Rattle.evl_kernel.specs.calls.Elements.{elements, on_mutex, stepping};
ghost use Rattle.evl_kernel.specs.state.KernelViews.{Has, IsAnswer};
ghost use Rattle.evl_kernel.specs.calls.Mutexes as mutex_step;
ghost use Rattle.evl_kernel.specs.calls.OwnerCalls.{raising};
ghost use Rattle.evl_kernel.specs.state.Records.{KeepsCallbacks, state_of};
ghost use Rattle.evl_kernel.specs.waiting.Waits.{wait_at};
ghost use Rattle.evl_kernel.specs.declared.waits.Awaited.TheVariants.{Mutex as OnMutex};
ghost use Rattle.evl_kernel.specs.declared.waits.Wanted.TheVariants.{Mutex as WantsMutex};

use super::Records;
use crate::ranks;
use crate::wait_place::Outcome;
use crate::waits::{self, Awaited, Wanted};
use evl_base::{MutexId, Refusal, Reply, ThreadId};
use std::alloc::Allocator;

impl<C, A: Allocator> Records<C, A> {
    /// Whether an owner may be named: it is attached, it isn't the thread itself, and no other owner of the mutex is
    /// recorded.
    #[inline(always)]
    pub(super) fn may_name(&self, thread: ThreadId, wanted: &Wanted) -> bool
        ensures may { result ≡ may_name (state_of self.now) thread.0 wanted.now }
    {
        match wanted {
            Wanted::Mutex(mutex, owner) => {
                self.sched.policy(*owner).is_some()
                    && owner.0 != thread.0
                    && self.elements.is_open_to(*mutex, *owner)
            }
            _ => true,
        }
    }

    /// A wait for a mutex begins, whose owner the thread names, and the ranks are handed on; or nothing changes, where
    /// the thread would wait for itself. Whether it began.
    pub(super) fn begin_claim(
        &mut self,
        thread: ThreadId,
        mutex: MutexId,
        owner: ThreadId,
        until: Option<u64>,
    ) -> bool
        requires idle { wait_at (state_of self.old) thread.0 ≡ None }
        requires caller { thread.0 < self.old.threads }
        requires there { is_there (elements (state_of self.old)) (OnMutex mutex) ≡ true }
        requires named { is_named (state_of self.old) (WantsMutex mutex owner) ≡ true }
        requires may { waiter_refusal (state_of self.old) thread.0 (WantsMutex mutex owner) ≡ None }
        ensures begun { result ≡ true → (beginning (state_of self.old) thread.0 (WantsMutex mutex owner) until).effect ≡ Ok (Reply.Begun, state_of self.new) }
        ensures ring { result ≡ false → Has (state_of self.old) (beginning (state_of self.old) thread.0 (WantsMutex mutex owner) until).effect (Err Refusal.Deadlock) (state_of self.new) }
        ensures stands { KeepsCallbacks self.old self.new }
    {
        if !self.elements.claim(mutex, thread, owner, &mut self.changes) {
            return false;
        }
        // who waits leaves the ready list first, so that its rank moves nobody there
        self.sched.block(thread);
        ranks::hand_on(&self.elements, &mut self.changes, &mut self.sched);
        waits::begin(&mut self.waits, thread, Awaited::Mutex(mutex), None);
        self.await_date(thread, until);
        true
    }

    /// Hands a mutex on to the first waiter, whose wait ends; the ranks are handed on. The first that applies:
    /// `Unknown` (no such mutex), `NotOwner` (another owner is recorded).
    pub(super) fn release(&mut self, thread: ThreadId, mutex: MutexId) -> Result<Reply, Refusal>
        ensures answer { IsAnswer result }
        ensures served { Has (state_of self.old) (stepping (state_of self.old) (on_mutex mutex.0 (mutex_step.release thread.0))) result (state_of self.new) }
        ensures stands { KeepsCallbacks self.old self.new }
    {
        match self.elements.release(mutex, thread, &mut self.changes) {
            Err(refusal) => Err(refusal),
            Ok((next, more)) => {
                ranks::hand_on(&self.elements, &mut self.changes, &mut self.sched);
                if let Some(waiter) = next {
                    self.wake(waiter, Outcome::Told(Reply::Done));
                }
                Ok(Reply::Handed { next, more })
            }
        }
    }

    /// A thread has the ceiling of a mutex; the ranks are handed on. The first that applies: `Unknown` (no such mutex),
    /// `Invalid` (the thread isn't attached, or the mutex has no ceiling), `Busy` (an owner is recorded).
    pub(super) fn raise(&mut self, thread: ThreadId, mutex: MutexId) -> Result<Reply, Refusal>
        ensures answer { IsAnswer result }
        ensures served { Has (state_of self.old) (raising (state_of self.old) thread.0 mutex.0).effect result (state_of self.new) }
        ensures stands { KeepsCallbacks self.old self.new }
    {
        if !self.elements.has(Awaited::Mutex(mutex)) {
            return Err(Refusal::Unknown);
        }
        match self.sched.rank(thread) {
            Ok(_) => {}
            Err(refusal) => return Err(refusal),
        }
        match self.elements.raise(mutex, thread, &mut self.changes) {
            Ok(()) => {}
            Err(refusal) => return Err(refusal),
        }
        ranks::hand_on(&self.elements, &mut self.changes, &mut self.sched);
        Ok(Reply::Done)
    }
}
