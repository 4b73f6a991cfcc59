//! Locking a mutex, and giving it back, however long it takes.
ghost use Rattle.std.specs.Prelude.{◌≡◌, false};
ghost use Rattle.evl_kernel.specs.state.Callbacks.{AnswersByPlan};
ghost use Rattle.evl_machine.specs.calls.Calls.{HoldsAtItsStage};
ghost use Rattle.evl_machine.specs.callers.Handles.{Belongs, IsSameCaller};
ghost use Rattle.evl_machine.specs.mutex_locks.MutexLocks.{BeginsToLock, FinishesToLock};
ghost use Rattle.evl_machine.specs.mutex_locks.MutexWaits.{Lasts, UnlocksAtLast, WaitsForMutex, passes};

use crate::caller::CallerOf;
use crate::locking::{Begun, Ended};
use crate::machine::MachineOf;
use evl_base::{MutexId, Refusal};
use evl_pipeline::Handler;
use evl_words::MutexPass;
use std::alloc::Allocator;
use std::sync::Wait;
use std::thread;

impl<C: Handler, A: Allocator> MachineOf<C, A> {
    // Begins to lock a mutex, until the answer doesn't pass.
    fn begin_at_last<R: Wait>(
        &self,
        rt: &R,
        caller: &mut CallerOf<C, A>,
        mutex: MutexId,
        until: Option<u64>,
    ) -> Result<Begun, Refusal>
        requires machine { Belongs caller.old self.now }
        requires by_plan { AnswersByPlan C.declared C.plan self.now.first.callbacks }
        ensures machine { IsSameCaller caller.old caller.new }
        ensures begun { Lasts (λ c r c'. BeginsToLock c mutex until r c') caller.old result caller.new }
        ensures stage { HoldsAtItsStage caller.new }
    {
        for _ in rt.forever() {
            let answer = self.begin_lock_mutex(caller, mutex, until);
            if !passes(&answer) {
                return answer;
            }
            thread::yield_now();
        }
        unreachable!()
    }

    // Finishes the caller's wait for a mutex, once it is over.
    fn finish_at_last<R: Wait>(&self, rt: &R, caller: &mut CallerOf<C, A>) -> Result<Ended, Refusal>
        requires machine { Belongs caller.old self.now }
        requires by_plan { AnswersByPlan C.declared C.plan self.now.first.callbacks }
        ensures machine { IsSameCaller caller.old caller.new }
        ensures finished { Lasts FinishesToLock caller.old result caller.new }
        ensures stage { HoldsAtItsStage caller.new }
    {
        for _ in rt.forever() {
            let answer = self.finish_lock_mutex(caller);
            if !passes(&answer) {
                return answer;
            }
            thread::yield_now();
        }
        unreachable!()
    }

    /// Locks a mutex, and waits for it where another caller has it, until a date in nanoseconds, or without a deadline
    /// (Xenomai 4: EVL mutex). It begins as `begin_lock_mutex` and finishes as `finish_lock_mutex`, each again while it
    /// answers `CoreBusy` or `Again`. Every other answer is the answer: `Locked` with the pass, `TimedOut` where the
    /// deadline came first, or a refusal. `NoMemory` and `HistoryFull` of the finish leave the wait unfinished.
    pub fn lock_mutex<R: Wait>(
        &self,
        rt: &R,
        caller: &mut CallerOf<C, A>,
        mutex: MutexId,
        until: Option<u64>,
    ) -> Result<Ended, Refusal>
        requires machine { Belongs caller.old self.now }
        requires by_plan { AnswersByPlan C.declared C.plan self.now.first.callbacks }
        ensures machine { IsSameCaller caller.old caller.new }
        ensures waited { WaitsForMutex caller.old mutex until result caller.new }
        ensures lasts { passes result ≡ false }
        ensures stage { HoldsAtItsStage caller.new }
    {
        match self.begin_at_last(rt, caller, mutex, until) {
            Ok(Begun::Locked(pass)) => Ok(Ended::Locked(pass)),
            Ok(Begun::Waiting) => self.finish_at_last(rt, caller),
            Err(refusal) => Err(refusal),
        }
    }

    /// Gives a mutex back, however long other callers have the kernel where that has to hand it on (Xenomai 4: EVL
    /// mutex).
    ///
    /// It spends the pass as `try_unlock_mutex` does, again while that answers `CoreBusy`. Every other answer is the
    /// answer, with the pass back where it is a refusal.
    pub fn unlock_mutex<R: Wait>(
        &self,
        rt: &R,
        caller: &mut CallerOf<C, A>,
        pass: MutexPass,
    ) -> Result<(), (Refusal, MutexPass)>
        requires machine { Belongs caller.old self.now }
        requires by_plan { AnswersByPlan C.declared C.plan self.now.first.callbacks }
        ensures machine { IsSameCaller caller.old caller.new }
        ensures unlocked { UnlocksAtLast caller.old pass result caller.new }
        ensures stage { HoldsAtItsStage caller.new }
    {
        let mut spent = pass;
        for _ in rt.forever() {
            match self.try_unlock_mutex(caller, spent) {
                Ok(()) => return Ok(()),
                Err((Refusal::CoreBusy, back)) => {
                    spent = back;
                    thread::yield_now();
                }
                Err((refusal, back)) => return Err((refusal, back)),
            }
        }
        unreachable!()
    }
}

// Whether an answer is a refusal that may pass.
fn passes<T>(answer: &Result<T, Refusal>) -> bool
    ensures { result ≡ passes answer.now }
{
    matches!(answer, Err(Refusal::CoreBusy | Refusal::Again))
}
