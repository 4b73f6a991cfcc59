//! The deeds on a mutex of a caller at rest by itself: a step of the mutex's word, or none.
ghost use Rattle.std.specs.Prelude.{◌≡◌, ◌≢◌, ◌<◌, None, Ok, false};
ghost use Rattle.evl_kernel.specs.state.Callbacks.{AnswersByPlan};
ghost use Rattle.evl_words.specs.declared.mutex.Unlock.TheVariants.{Done};
ghost use Rattle.evl_words.specs.MutexWorld.{tries};
ghost use Rattle.evl_core.specs.worlds.OneWorld.{on_word};
ghost use Rattle.evl_machine.specs.calls.Calls.{HoldsAtItsStage, wait_of_caller};
ghost use Rattle.evl_core.specs.rule.Ceilings.{has_ceiling};
ghost use Rattle.evl_machine.specs.callers.Handles.{Belongs, IsSameCaller};
ghost use Rattle.evl_machine.specs.mutex_locks.MutexLocks.{MutexCall, SpendsAtWord, UnlocksAtWord, WordCall, is_handed_on, kind_of, kinds_of, own_lock_refusal};
ghost use Rattle.evl_core.specs.words.MutexTokens.{AreTheSame};
ghost use Rattle.evl_core.specs.words.MutexSeats.{TriesMutex, depth_at, unlock_refusal};

use crate::caller::CallerOf;
use crate::machine::MachineOf;
use evl_base::{MutexId, Refusal};
use evl_core::mutex_steps;
use evl_pipeline::Handler;
use evl_words::{MutexPass, Unlock};
use std::alloc::Allocator;

impl<C: Drop, A: Allocator> MachineOf<C, A> {
    /// Takes a mutex without a ceiling that the caller doesn't have. `Busy` where another has it.
    #[inline(always)]
    pub(crate) fn try_at_word(
        &self,
        caller: &mut CallerOf<C, A>,
        mutex: MutexId,
    ) -> Result<MutexPass, Refusal>
        requires machine { Belongs caller.old self.now }
        requires unrefused { own_lock_refusal caller.old mutex ≡ None }
        requires plain { has_ceiling (kind_of caller.old mutex) ≡ false }
        requires free { depth_at caller.old.mutexes mutex.0 ≡ 0 }
        ensures machine { IsSameCaller caller.old caller.new }
        ensures tried { WordCall (depth_at caller.old.mutexes mutex.0 ≡ 0) (on_word mutex.0 tries) caller.old (λ was is. TriesMutex (kinds_of caller.old) was mutex.0 result is) caller.new }
        ensures stage { HoldsAtItsStage caller.new }
    {
        mutex_steps::try_there(
            &self.core,
            &mut caller.actor.seat,
            &mut caller.actor.places,
            mutex,
        )
    }

    /// Has a mutex once more that the caller has, with no step.
    pub(crate) fn nest(&self, caller: &mut CallerOf<C, A>, mutex: MutexId) -> MutexPass
        requires machine { Belongs caller.old self.now }
        requires unrefused { own_lock_refusal caller.old mutex ≡ None }
        requires held { 0 < depth_at caller.old.mutexes mutex.0 }
        ensures machine { IsSameCaller caller.old caller.new }
        ensures tried { MutexCall caller.old (λ was is. TriesMutex (kinds_of caller.old) was mutex.0 (Ok result) is) caller.new }
        ensures stage { HoldsAtItsStage caller.new }
    {
        // what holds of every machine is known where one of its fields is used
        let _ = &self.core;
        caller.actor.places.nest(mutex)
    }

    /// Spends the one pass of a mutex without a ceiling. It comes back where others claim the mutex.
    #[inline(always)]
    pub(crate) fn unlock_last(&self, caller: &mut CallerOf<C, A>, pass: MutexPass) -> Unlock
        requires machine { Belongs caller.old self.now }
        requires own { unlock_refusal caller.old.mutexes pass ≡ None }
        requires plain { has_ceiling (kind_of caller.old pass.mutex) ≡ false }
        requires once { depth_at caller.old.mutexes pass.mutex.0 ≡ 1 }
        ensures machine { IsSameCaller caller.old caller.new }
        ensures unlocked { SpendsAtWord caller.old pass result caller.new }
        ensures seats { AreTheSame caller.old.mutexes caller.new.mutexes }
        ensures stage { HoldsAtItsStage caller.new }
    {
        mutex_steps::unlock_there(
            &self.core,
            &mut caller.actor.seat,
            &mut caller.actor.places,
            pass,
        )
    }

    /// Spends one of a caller's passes of a mutex, with no step.
    pub(crate) fn spend(&self, caller: &mut CallerOf<C, A>, pass: MutexPass)
        requires machine { Belongs caller.old self.now }
        requires own { unlock_refusal caller.old.mutexes pass ≡ None }
        requires more { depth_at caller.old.mutexes pass.mutex.0 ≢ 1 }
        ensures machine { IsSameCaller caller.old caller.new }
        ensures unlocked { SpendsAtWord caller.old pass Done caller.new }
        ensures seats { AreTheSame caller.old.mutexes caller.new.mutexes }
        ensures stage { HoldsAtItsStage caller.new }
    {
        // what holds of every machine is known where one of its fields is used
        let _ = &self.core;
        caller.actor.places.spend(pass);
    }

    /// Spends a pass of a mutex that isn't handed on at once.
    pub(crate) fn unlock_word(&self, caller: &mut CallerOf<C, A>, pass: MutexPass) -> Unlock
        requires machine { Belongs caller.old self.now }
        requires own { unlock_refusal caller.old.mutexes pass ≡ None }
        requires stays { is_handed_on (kind_of caller.old pass.mutex) (depth_at caller.old.mutexes pass.mutex.0) ≡ false }
        ensures machine { IsSameCaller caller.old caller.new }
        ensures unlocked { SpendsAtWord caller.old pass result caller.new }
        ensures seats { AreTheSame caller.old.mutexes caller.new.mutexes }
        ensures stage { HoldsAtItsStage caller.new }
    {
        if caller.actor.depth(pass.mutex()) == 1 {
            self.unlock_last(caller, pass)
        } else {
            self.spend(caller, pass);
            Unlock::Done
        }
    }
}

impl<C: Handler, A: Allocator> MachineOf<C, A> {
    /// Spends a pass of the caller at the word. A mutex that others claim is handed on.
    pub(crate) fn unlock_at_word(
        &self,
        caller: &mut CallerOf<C, A>,
        pass: MutexPass,
    ) -> Result<(), (Refusal, MutexPass)>
        requires machine { Belongs caller.old self.now }
        requires idle { wait_of_caller caller.old ≡ None }
        requires own { unlock_refusal caller.old.mutexes pass ≡ None }
        requires stays { is_handed_on (kind_of caller.old pass.mutex) (depth_at caller.old.mutexes pass.mutex.0) ≡ false }
        requires by_plan { AnswersByPlan C.declared C.plan self.now.first.callbacks }
        ensures machine { IsSameCaller caller.old caller.new }
        ensures unlocked { UnlocksAtWord caller.old pass result caller.new }
        ensures stage { HoldsAtItsStage caller.new }
    {
        match self.unlock_word(caller, pass) {
            Unlock::Done => Ok(()),
            Unlock::Claimed(pass) => self.release_with_kernel(caller, pass),
        }
    }
}
