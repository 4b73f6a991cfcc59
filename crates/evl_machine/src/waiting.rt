//! Calls that wait for the core.
ghost use Rattle.std.specs.Prelude.{◌≡◌, ◌≢◌, Err};
ghost use Rattle.evl_kernel.specs.state.Callbacks.{AnswersByPlan};
ghost use Rattle.evl_base.specs.declared.refusal.Refusal.TheVariants.{CoreBusy};
ghost use Rattle.evl_machine.specs.callers.Handles.{Belongs, IsSameCaller};
ghost use Rattle.evl_machine.specs.calls.Calls.{CalledAtLast, HoldsAtItsStage};

use crate::caller::CallerOf;
use crate::machine::MachineOf;
use evl_base::{Call, Refusal, Reply};
use evl_pipeline::Handler;
use std::alloc::Allocator;
use std::sync::Wait;
use std::thread;

impl<C: Handler, A: Allocator> MachineOf<C, A> {
    /// One call of the kernel, however long other callers have it: `try_call` until it isn't answered `CoreBusy`. The
    /// call is handed over once the caller has the kernel, and is never copied. Each try before it is a lost take.
    ///
    /// It is refused with no step as `try_call` refuses it; every other answer is the kernel's, of which `NoMemory` and
    /// `HistoryFull` make no entry.
    #[inline(always)]
    pub fn call<R: Wait>(
        &self,
        rt: &R,
        caller: &mut CallerOf<C, A>,
        call: Call,
    ) -> Result<Reply, Refusal>
        requires machine { Belongs caller.old self.now }
        requires by_plan { AnswersByPlan C.declared C.plan self.now.first.callbacks }
        ensures machine { IsSameCaller caller.old caller.new }
        ensures called { CalledAtLast self.now.first.limit caller.old call result caller.new }
        ensures stage { HoldsAtItsStage caller.new }
        ensures entered { result ≢ Err CoreBusy }
    {
        if let Some(refusal) = caller.actor.refusal(&call) {
            return Err(refusal);
        }
        let mut waiting = call;
        for _ in rt.forever() {
            match self.attempt(caller, waiting) {
                Ok(answer) => return answer,
                Err(back) => {
                    waiting = back;
                    thread::yield_now();
                }
            }
        }
        unreachable!()
    }
}
