//! Locking mutexes and unlocking them, without waiting.
ghost use Rattle.std.specs.Prelude.{IfErr};
ghost use Rattle.evl_kernel.specs.state.Callbacks.{AnswersByPlan};
ghost use Rattle.evl_machine.specs.calls.Calls.{HoldsAtItsStage};
ghost use Rattle.evl_machine.specs.callers.Handles.{Belongs, IsSameCaller};
ghost use Rattle.evl_machine.specs.mutex_locks.MutexLocks.{BeginsToLock, FastAnswer, FinishesToLock, TriesToLock, TriesToUnlock, UnlocksFast};
ghost use Rattle.evl_machine.specs.calls.Visits.{FullOnly};

use crate::actor::{has_ceiling, is_handed_on};
use crate::caller::CallerOf;
use crate::locking::{Begun, Ended};
use crate::machine::MachineOf;
use crate::unfinished::Unfinished;
use evl_base::{MutexId, Refusal};
use evl_pipeline::Handler;
use evl_words::{MutexPass, Unlock};
use std::alloc::Allocator;

impl<C: Handler, A: Allocator> MachineOf<C, A> {
    /// Locks a mutex, or once more (Xenomai 4: EVL mutex). With no step `Busy` in an unfinished wait, `Unknown` where
    /// there is no such mutex, `WrongStage` in-band, `Deadlock` where the caller has it and it doesn't nest, `Limit`
    /// where it has it 255 times. `Busy` where another has it. One with a ceiling is tried with the kernel, which is
    /// informed of it: `CoreBusy` where another has that, `NoMemory` or `HistoryFull` where it has no room, with no step of
    /// the mutex.
    #[inline(always)]
    pub fn try_lock_mutex(
        &self,
        caller: &mut CallerOf<C, A>,
        mutex: MutexId,
    ) -> Result<MutexPass, Refusal>
        requires machine { Belongs caller.old self.now }
        requires by_plan { AnswersByPlan C.declared C.plan self.now.first.callbacks }
        ensures machine { IsSameCaller caller.old caller.new }
        ensures locked { TriesToLock caller.old mutex result caller.new }
        ensures full { IfErr result (FullOnly caller.new) }
        ensures stage { HoldsAtItsStage caller.new }
    {
        let kind = self.kind(mutex);
        if caller.actor.lock_refusal(kind, mutex).is_none() {
            if !has_ceiling(kind) && caller.actor.is_free(mutex) {
                return self.try_at_word(caller, mutex);
            }
        }
        match self.lock_rarely(caller, mutex) {
            Ok(pass) => Ok(pass),
            Err(refusal) => Err(refusal),
        }
    }

    // Locks a mutex where the caller may have it, or it may have a ceiling, or something refuses it.
    #[cold]
    #[inline(never)]
    fn lock_rarely(&self, caller: &mut CallerOf<C, A>, mutex: MutexId) -> Result<MutexPass, Refusal>
        requires machine { Belongs caller.old self.now }
        requires by_plan { AnswersByPlan C.declared C.plan self.now.first.callbacks }
        ensures machine { IsSameCaller caller.old caller.new }
        ensures locked { TriesToLock caller.old mutex result caller.new }
        ensures full { IfErr result (FullOnly caller.new) }
        ensures stage { HoldsAtItsStage caller.new }
    {
        let kind = self.kind(mutex);
        if let Some(refusal) = caller.actor.lock_refusal(kind, mutex) {
            return Err(refusal);
        }
        if has_ceiling(kind) {
            self.lock_at_ceiling(caller, mutex)
        } else if caller.actor.depth(mutex) > 0 {
            Ok(self.nest(caller, mutex))
        } else {
            self.try_at_word(caller, mutex)
        }
    }

    /// Begins to lock a mutex, and answers whether the caller has it or waits for it until this moment (Xenomai 4: EVL
    /// mutex). Refused with no step as `try_lock_mutex` is. `CoreBusy` where another has the kernel, `NoMemory` or
    /// `HistoryFull` where it has no room: the mutex isn't claimed then. It is claimed where another has it, and the
    /// answer is the kernel's to the wait: a refused one leaves the claim. One with a ceiling that was won is reported to
    /// the kernel.
    pub fn begin_lock_mutex(
        &self,
        caller: &mut CallerOf<C, A>,
        mutex: MutexId,
        until: Option<u64>,
    ) -> Result<Begun, Refusal>
        requires machine { Belongs caller.old self.now }
        requires by_plan { AnswersByPlan C.declared C.plan self.now.first.callbacks }
        ensures machine { IsSameCaller caller.old caller.new }
        ensures begun { BeginsToLock caller.old mutex until result caller.new }
        ensures full { IfErr result (FullOnly caller.new) }
        ensures stage { HoldsAtItsStage caller.new }
    {
        let kind = self.kind(mutex);
        if let Some(refusal) = caller.actor.lock_refusal(kind, mutex) {
            return Err(refusal);
        }
        if caller.actor.depth(mutex) > 0 {
            return Ok(Begun::Locked(self.nest(caller, mutex)));
        }
        self.begin_with_kernel(caller, mutex, has_ceiling(kind), until)
    }

    /// Ends the caller's wait for a mutex, where that is over: the caller has the mutex, or the deadline came first
    /// (Xenomai 4: EVL mutex). With no step `Invalid` where it doesn't wait for a mutex. `CoreBusy` where another has
    /// the kernel, `Again` while the wait goes on, `NoMemory` or `HistoryFull` where there is no room for one call: all
    /// of them leave the wait to be finished later.
    pub fn finish_lock_mutex(&self, caller: &mut CallerOf<C, A>) -> Result<Ended, Refusal>
        requires machine { Belongs caller.old self.now }
        requires by_plan { AnswersByPlan C.declared C.plan self.now.first.callbacks }
        ensures machine { IsSameCaller caller.old caller.new }
        ensures finished { FinishesToLock caller.old result caller.new }
        ensures full { IfErr result (FullOnly caller.new) }
        ensures stage { HoldsAtItsStage caller.new }
    {
        match caller.actor.wait {
            Some(Unfinished::Mutex(mutex)) => self.finish_with_kernel(caller, mutex),
            _ => Err(Refusal::Invalid),
        }
    }

    /// Spends a pass without the kernel (Xenomai 4: EVL mutex, fast path).
    ///
    /// With no step, and with the pass back: `Busy` while the caller has an unfinished wait, `NotOwner` for a pass of
    /// another caller or of a mutex that the caller doesn't have, and `Busy` for a mutex with a ceiling. `Busy` with
    /// the pass back where others claim the mutex.
    #[inline(always)]
    pub fn unlock_mutex_fast(
        &self,
        caller: &mut CallerOf<C, A>,
        pass: MutexPass,
    ) -> Result<(), (Refusal, MutexPass)>
        requires machine { Belongs caller.old self.now }
        ensures machine { IsSameCaller caller.old caller.new }
        ensures unlocked { UnlocksFast caller.old pass result caller.new }
        ensures full { IfErr result (λ e. FullOnly caller.new e.0) }
        ensures stage { HoldsAtItsStage caller.new }
    {
        if caller.actor.spend_refusal(&pass).is_none() {
            let mutex = pass.mutex();
            let held = caller.actor.depth(mutex);
            if held == 1 && !has_ceiling(self.kind(mutex)) {
                return fast_answer(self.unlock_last(caller, pass));
            }
        }
        match self.unlock_rarely(caller, pass) {
            Ok(()) => Ok(()),
            Err((refusal, back)) => Err((refusal, back)),
        }
    }

    // Spends a pass without the kernel where the caller may have another one, or the mutex a ceiling, or something
    // refuses it.
    #[cold]
    #[inline(never)]
    fn unlock_rarely(
        &self,
        caller: &mut CallerOf<C, A>,
        pass: MutexPass,
    ) -> Result<(), (Refusal, MutexPass)>
        requires machine { Belongs caller.old self.now }
        ensures machine { IsSameCaller caller.old caller.new }
        ensures unlocked { UnlocksFast caller.old pass result caller.new }
        ensures full { IfErr result (λ e. FullOnly caller.new e.0) }
        ensures stage { HoldsAtItsStage caller.new }
    {
        if let Some(refusal) = caller.actor.spend_refusal(&pass) {
            return Err((refusal, pass));
        }
        if has_ceiling(self.kind(pass.mutex())) {
            return Err((Refusal::Busy, pass));
        }
        fast_answer(self.unlock_word(caller, pass))
    }

    /// Spends a pass. A mutex that others claim, or with a ceiling, is handed on by the kernel, and its word offered to
    /// whom that names, or freed (Xenomai 4: EVL mutex). With no step, and the pass back: `Busy` in an unfinished wait,
    /// `NotOwner` for a pass of another caller or of a mutex that the caller doesn't have; where the kernel hands it
    /// on, `CoreBusy` where another has that, `NoMemory` or `HistoryFull` where it has no room.
    #[inline]
    pub fn try_unlock_mutex(
        &self,
        caller: &mut CallerOf<C, A>,
        pass: MutexPass,
    ) -> Result<(), (Refusal, MutexPass)>
        requires machine { Belongs caller.old self.now }
        requires by_plan { AnswersByPlan C.declared C.plan self.now.first.callbacks }
        ensures machine { IsSameCaller caller.old caller.new }
        ensures unlocked { TriesToUnlock caller.old pass result caller.new }
        ensures full { IfErr result (λ e. FullOnly caller.new e.0) }
        ensures stage { HoldsAtItsStage caller.new }
    {
        if let Some(refusal) = caller.actor.spend_refusal(&pass) {
            return Err((refusal, pass));
        }
        let mutex = pass.mutex();
        let kind = self.kind(mutex);
        if is_handed_on(kind, caller.actor.depth(mutex)) {
            self.release_with_kernel(caller, pass)
        } else {
            self.unlock_at_word(caller, pass)
        }
    }
}

// A word's answer, as a call without the kernel says it: a pass comes back where others claim the mutex.
#[inline(always)]
fn fast_answer(told: Unlock) -> Result<(), (Refusal, MutexPass)>
    ensures { FastAnswer result told }
{
    match told {
        Unlock::Done => Ok(()),
        Unlock::Claimed(pass) => Err((Refusal::Busy, pass)),
    }
}
