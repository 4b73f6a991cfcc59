//! Moving a caller's thread from stage to stage.
ghost use Rattle.std.specs.Prelude.{◌≡◌, ◌≢◌, Err};
ghost use Rattle.evl_base.specs.declared.call.Call.TheVariants.{SetStage};
ghost use Rattle.evl_base.specs.declared.refusal.Refusal.TheVariants.{CoreBusy};
ghost use Rattle.evl_base.specs.declared.stage.Stage.TheVariants.{Inband, Oob};
ghost use Rattle.evl_kernel.specs.state.Callbacks.{AnswersByPlan};
ghost use Rattle.evl_machine.specs.calls.Calls.{CalledAtLast, HoldsAtItsStage};
ghost use Rattle.evl_machine.specs.callers.Handles.{Belongs, IsSameCaller};

use crate::caller::CallerOf;
use crate::machine::MachineOf;
use evl_base::{Call, Refusal, Reply, Stage};
use evl_pipeline::Handler;
use std::alloc::Allocator;
use std::sync::Wait;

impl<C: Handler, A: Allocator> MachineOf<C, A> {
    /// Moves the caller's thread to the out-of-band stage (Xenomai 4: EVL threads).
    ///
    /// It is one `SetStage`, as by `call`: `HoldsStax`, with no step, while the caller holds a stax; every other answer
    /// is the kernel's, of which `NoMemory` and `HistoryFull` make no entry.
    pub fn switch_oob<R: Wait>(&self, rt: &R, caller: &mut CallerOf<C, A>) -> Result<Reply, Refusal>
        requires machine { Belongs caller.old self.now }
        requires by_plan { AnswersByPlan C.declared C.plan self.now.first.callbacks }
        ensures machine { IsSameCaller caller.old caller.new }
        ensures called { CalledAtLast self.now.first.limit caller.old (SetStage Oob) result caller.new }
        ensures stage { HoldsAtItsStage caller.new }
        ensures entered { result ≢ Err CoreBusy }
    {
        let stage = Stage::Oob;
        self.call(rt, caller, Call::SetStage { stage })
    }

    /// Moves the caller's thread to the in-band stage (Xenomai 4: EVL threads).
    ///
    /// It is one `SetStage`, as by `call`: `HoldsStax`, with no step, while the caller holds a stax; every other answer
    /// is the kernel's, of which `NoMemory` and `HistoryFull` make no entry.
    pub fn switch_inband<R: Wait>(
        &self,
        rt: &R,
        caller: &mut CallerOf<C, A>,
    ) -> Result<Reply, Refusal>
        requires machine { Belongs caller.old self.now }
        requires by_plan { AnswersByPlan C.declared C.plan self.now.first.callbacks }
        ensures machine { IsSameCaller caller.old caller.new }
        ensures called { CalledAtLast self.now.first.limit caller.old (SetStage Inband) result caller.new }
        ensures stage { HoldsAtItsStage caller.new }
        ensures entered { result ≢ Err CoreBusy }
    {
        let stage = Stage::Inband;
        self.call(rt, caller, Call::SetStage { stage })
    }
}
