//! Entering staxes and leaving them.
ghost use Rattle.std.specs.Prelude.{◌≡◌};
ghost use Rattle.evl_machine.specs.callers.Handles.{Belongs, IsSameCaller};
ghost use Rattle.evl_machine.specs.calls.Calls.{HoldsAtItsStage, stage_of_caller};
ghost use Rattle.evl_machine.specs.stax_locks.StaxSeats.{LeavesStax, TriesStax};
ghost use Rattle.evl_machine.specs.stax_locks.StaxCalls.{StaxCall};

use crate::caller::CallerOf;
use crate::machine::MachineOf;
use evl_base::{Refusal, StaxId};
use evl_words::StaxPass;
use std::alloc::Allocator;

impl<C: Drop, A: Allocator> MachineOf<C, A> {
    /// Enters a stax at the stage of the caller's thread (Dovetail: stax).
    ///
    /// With no step `Unknown` where there is no such stax, and `Busy` where the caller holds it. `Again` where callers
    /// of the other stage hold it, `Limit` where its limit of callers holds it, `Raced` where another step came in
    /// between and the caller would have been let in before it and after it. The core isn't taken.
    #[inline(always)]
    pub fn try_lock_stax(
        &self,
        caller: &mut CallerOf<C, A>,
        stax: StaxId,
    ) -> Result<StaxPass, Refusal>
        requires { Belongs caller.old self.now }
        ensures machine { IsSameCaller caller.old caller.new }
        ensures tried { StaxCall caller.old (λ old new. TriesStax old stax.0 (stage_of_caller caller.old) result new) caller.new }
        ensures stage { HoldsAtItsStage caller.new }
    {
        self.gates
            .try_lock(&mut caller.actor.staxes, stax, caller.actor.stage)
    }

    /// Leaves a stax, and answers whether the caller was the last one in it and the claim mark stood, which is then
    /// taken away (Dovetail: stax).
    ///
    /// `NotOwner`, with the pass back and no step, for a pass of another caller, of a stax that isn't on the board, or
    /// of one that the caller doesn't hold. The core isn't taken.
    #[inline(always)]
    pub fn unlock_stax(
        &self,
        caller: &mut CallerOf<C, A>,
        pass: StaxPass,
    ) -> Result<bool, (Refusal, StaxPass)>
        requires { Belongs caller.old self.now }
        ensures machine { IsSameCaller caller.old caller.new }
        ensures left { StaxCall caller.old (λ old new. LeavesStax old pass result new) caller.new }
        ensures stage { HoldsAtItsStage caller.new }
    {
        self.gates.unlock(&mut caller.actor.staxes, pass)
    }
}
