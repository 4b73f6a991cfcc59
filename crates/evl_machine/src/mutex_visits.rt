//! A caller's deeds on a mutex by the kernel: it takes the kernel once, and gives it back.
ghost use Rattle.std.specs.Prelude.{◌≡◌, ◌<◌, Err, None, Some, length, true};
ghost use Rattle.evl_base.specs.declared.refusal.Refusal.TheVariants.{CoreBusy};
ghost use Rattle.evl_kernel.specs.state.Callbacks.{AnswersByPlan};
ghost use Rattle.evl_machine.specs.declared.unfinished.Unfinished.TheVariants.{Mutex};
ghost use Rattle.evl_machine.specs.calls.Calls.{HoldsAtItsStage, wait_of_caller};
ghost use Rattle.evl_core.specs.rule.Ceilings.{has_ceiling};
ghost use Rattle.evl_machine.specs.callers.Handles.{Belongs, IsSameCaller};
ghost use Rattle.evl_machine.specs.mutex_locks.Locking.{Begins, Finishes, LocksRaised};
ghost use Rattle.evl_machine.specs.mutex_locks.MutexLocks.{HandsOn, kind_of, kinds_of, own_lock_refusal};
ghost use Rattle.evl_core.specs.words.MutexSeats.{HasOnce};
ghost use Rattle.evl_machine.specs.calls.Visits.{Visits};

use crate::caller::CallerOf;
use crate::locking::{Begun, Ended, begin, finish, lock_raised, release};
use crate::machine::MachineOf;
use evl_base::{MutexId, Refusal};
use evl_pipeline::Handler;
use evl_words::MutexPass;
use std::alloc::Allocator;

impl<C: Handler, A: Allocator> MachineOf<C, A> {
    /// Tries for a mutex with a ceiling.
    #[cold]
    #[inline(never)]
    pub(crate) fn lock_at_ceiling(
        &self,
        caller: &mut CallerOf<C, A>,
        mutex: MutexId,
    ) -> Result<MutexPass, Refusal>
        requires machine { Belongs caller.old self.now }
        requires unrefused { own_lock_refusal caller.old mutex ≡ None }
        requires ceiling { has_ceiling (kind_of caller.old mutex) ≡ true }
        requires by_plan { AnswersByPlan C.declared C.plan self.now.first.callbacks }
        ensures machine { IsSameCaller caller.old caller.new }
        ensures visits { Visits (result ≡ Err CoreBusy) caller.old (λ a k a' k'. LocksRaised (kinds_of caller.old) a k mutex result a' k') caller.new }
        ensures stage { HoldsAtItsStage caller.new }
    {
        match self.open(&mut caller.actor) {
            Some(mut kernel) => {
                let result = lock_raised(&self.core, &mut caller.actor, &mut kernel, mutex);
                self.shut(&mut caller.actor, kernel);
                result
            }
            None => Err(Refusal::CoreBusy),
        }
    }

    /// Begins to lock a mutex that the caller doesn't have.
    pub(crate) fn begin_with_kernel(
        &self,
        caller: &mut CallerOf<C, A>,
        mutex: MutexId,
        ceiling: bool,
        until: Option<u64>,
    ) -> Result<Begun, Refusal>
        requires machine { Belongs caller.old self.now }
        requires unrefused { own_lock_refusal caller.old mutex ≡ None }
        requires kind { has_ceiling (kind_of caller.old mutex) ≡ ceiling }
        requires by_plan { AnswersByPlan C.declared C.plan self.now.first.callbacks }
        ensures machine { IsSameCaller caller.old caller.new }
        ensures visits { Visits (result ≡ Err CoreBusy) caller.old (λ a k a' k'. Begins ceiling a k mutex until result a' k') caller.new }
        ensures stage { HoldsAtItsStage caller.new }
    {
        match self.open(&mut caller.actor) {
            Some(mut kernel) => {
                let actor = &mut caller.actor;
                let result = begin(&self.core, actor, &mut kernel, mutex, ceiling, until);
                self.shut(&mut caller.actor, kernel);
                result
            }
            None => Err(Refusal::CoreBusy),
        }
    }

    /// Ends the caller's wait for this mutex, where it is over.
    pub(crate) fn finish_with_kernel(
        &self,
        caller: &mut CallerOf<C, A>,
        mutex: MutexId,
    ) -> Result<Ended, Refusal>
        requires machine { Belongs caller.old self.now }
        requires there { mutex.0 < length caller.old.mutexes }
        requires waits { wait_of_caller caller.old ≡ Some (Mutex mutex) }
        requires by_plan { AnswersByPlan C.declared C.plan self.now.first.callbacks }
        ensures machine { IsSameCaller caller.old caller.new }
        ensures visits { Visits (result ≡ Err CoreBusy) caller.old (λ a k a' k'. Finishes a k mutex result a' k') caller.new }
        ensures stage { HoldsAtItsStage caller.new }
    {
        match self.open(&mut caller.actor) {
            Some(mut kernel) => {
                let result = finish(&self.core, &mut caller.actor, &mut kernel, mutex);
                self.shut(&mut caller.actor, kernel);
                result
            }
            None => Err(Refusal::CoreBusy),
        }
    }

    /// Has the kernel hand a mutex on that the caller has once.
    #[inline(never)]
    pub(crate) fn release_with_kernel(
        &self,
        caller: &mut CallerOf<C, A>,
        pass: MutexPass,
    ) -> Result<(), (Refusal, MutexPass)>
        requires machine { Belongs caller.old self.now }
        requires once { HasOnce caller.old.mutexes pass }
        requires idle { wait_of_caller caller.old ≡ None }
        requires by_plan { AnswersByPlan C.declared C.plan self.now.first.callbacks }
        ensures machine { IsSameCaller caller.old caller.new }
        ensures visits { HandsOn caller.old pass result caller.new }
        ensures stage { HoldsAtItsStage caller.new }
    {
        match self.open(&mut caller.actor) {
            Some(mut kernel) => {
                let result = release(&self.core, &mut caller.actor, &mut kernel, pass);
                self.shut(&mut caller.actor, kernel);
                result
            }
            None => Err((Refusal::CoreBusy, pass)),
        }
    }
}
