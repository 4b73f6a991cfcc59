//! Entering a stax, however long others keep the caller out.
ghost use Rattle.std.specs.Prelude.{◌≡◌, ◌<◌, ◌&&◌, IfErr, MatchResult, false, length, not};
ghost use Rattle.evl_core.specs.words.AtSeats.{AtSeat};
ghost use Rattle.evl_machine.specs.calls.Calls.{HoldsAtItsStage, stage_of_caller};
ghost use Rattle.evl_machine.specs.callers.Handles.{Belongs, IsSameCaller};
ghost use Rattle.evl_machine.specs.stax_locks.StaxCalls.{StaxCall};
ghost use Rattle.evl_machine.specs.stax_locks.StaxSeats.{TriesStax};
ghost use Rattle.evl_machine.specs.stax_locks.StaxWaits.{Marks, RetriesOnce, WaitsForStax, is_again, may_pass};

use crate::caller::CallerOf;
use crate::machine::MachineOf;
use evl_base::{Refusal, StaxId};
use evl_words::StaxPass;
use std::alloc::Allocator;
use std::sync::Wait;
use std::thread;

impl<C: Drop, A: Allocator> MachineOf<C, A> {
    // Sets the claim mark of a stax.
    fn mark_stax(&self, caller: &mut CallerOf<C, A>, stax: StaxId)
        requires machine { Belongs caller.old self.now }
        requires there { stax.0 < length caller.old.staxes }
        ensures machine { IsSameCaller caller.old caller.new }
        ensures marked { StaxCall caller.old (λ old new. AtSeat stax.0 old new Marks) caller.new }
        ensures stage { HoldsAtItsStage caller.new }
    {
        self.gates.claim(&mut caller.actor.staxes, stax);
    }

    // One try of a stax. The answer where it lasts; where it may pass, whether the claim mark was set by then.
    fn try_marking(
        &self,
        caller: &mut CallerOf<C, A>,
        stax: StaxId,
        marked: bool,
    ) -> Result<Result<StaxPass, Refusal>, bool>
        requires machine { Belongs caller.old self.now }
        ensures machine { IsSameCaller caller.old caller.new }
        ensures tried { StaxCall caller.old (λ old new. MatchResult result (λ answer. TriesStax old stax.0 (stage_of_caller caller.old) answer new × IfErr answer (λ refusal. may_pass refusal ≡ false)) (λ now. RetriesOnce stax.0 (stage_of_caller caller.old) marked old now new)) caller.new }
        ensures stage { HoldsAtItsStage caller.new }
    {
        match self.try_lock_stax(caller, stax) {
            Ok(pass) => Ok(Ok(pass)),
            Err(refusal) => {
                if !may_pass(refusal) {
                    return Ok(Err(refusal));
                }
                if !wants_mark(marked, refusal) {
                    return Err(marked);
                }
                self.mark_stax(caller, stax);
                Err(true)
            }
        }
    }

    /// Enters a stax at the stage of the caller's thread, however long it takes (Dovetail: stax). It tries as
    /// `try_lock_stax` does until it has a pass, or is refused with `Unknown` where there is no such stax, or `Busy`
    /// where the caller holds it. After the first `Again` it sets the claim mark, by which the last caller to leave is
    /// informed that others want in. The core isn't taken.
    pub fn lock_stax<R: Wait>(
        &self,
        rt: &R,
        caller: &mut CallerOf<C, A>,
        stax: StaxId,
    ) -> Result<StaxPass, Refusal>
        requires { Belongs caller.old self.now }
        ensures machine { IsSameCaller caller.old caller.new }
        ensures waited { StaxCall caller.old (λ old new. WaitsForStax stax.0 (stage_of_caller caller.old) old result new) caller.new }
        ensures stage { HoldsAtItsStage caller.new }
    {
        let mut marked = false;
        for _ in rt.forever() {
            match self.try_marking(caller, stax, marked) {
                Ok(answer) => return answer,
                Err(now) => {
                    marked = now;
                    thread::yield_now();
                }
            }
        }
        unreachable!()
    }
}

// Whether a refusal may pass.
fn may_pass(refusal: Refusal) -> bool
    ensures { result ≡ may_pass refusal }
{
    matches!(
        refusal,
        Refusal::Again | Refusal::Limit | Refusal::Raced { .. }
    )
}

// Whether the claim mark is wanted after this refusal: it wasn't set by then, and callers of the other stage hold the
// stax.
fn wants_mark(marked: bool, refusal: Refusal) -> bool
    ensures { result ≡ (not marked && is_again refusal) }
{
    !marked && matches!(refusal, Refusal::Again)
}
