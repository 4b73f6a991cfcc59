//! The machine: the kernel under the core's lock, and the calls of the kernel by callers that take it in turn.
ghost use Rattle.std.specs.Prelude.{◌≡◌, ◌≢◌, Err, IfErr, IfOk, None, false, length, slice_get, true};
ghost use Rattle.evl_base.specs.Board.{board_fits};
ghost use Rattle.evl_base.specs.declared.refusal.Refusal.TheVariants.{CoreBusy};
ghost use Rattle.evl_kernel.specs.calls.Families.{moves_caller, task_of};
ghost use Rattle.evl_kernel.specs.state.Callbacks.{AnswersByPlan};
ghost use Rattle.evl_machine.specs.callers.Actors.{AreHeldAt, ClaimsOneOf, IsSameActor, Suits, acting, call_refusal};
ghost use Rattle.evl_machine.specs.calls.Calls.{ActsOnCore, Answered, Called, HoldsAtItsStage, KernelCall, answer_of, own_refusal};
ghost use Rattle.evl_core.specs.accounts.Seats.{IsCaller, account_of};
ghost use Rattle.evl_machine.specs.callers.Handles.{Belongs, IsSameCaller};
ghost use Rattle.evl_core.specs.rule.Known.{first_of, lock_in, seen};
ghost use Rattle.evl_core.specs.words.MutexSeats.{holds_mutex};
ghost use Rattle.evl_machine.specs.stax_locks.StaxSeats.{holds_stax};

use crate::actor::Actor;
use crate::caller::CallerOf;
use crate::elements::Gates;
use evl_base::{Call, MutexId, MutexKind, Refusal, Reply};
use evl_core::{CoreLock, KernelBox};
use evl_pipeline::Handler;
use std::alloc::Allocator;
use std::marker::Model;

/// The kernel, in a lock of one word and one slot. To a contract it is its table, and the kernel as it was made.
#[derive(Drop)]
pub struct MachineOf<C: Drop, A: Allocator> {
    pub(crate) core: CoreLock<C, A>,
    pub(crate) threads: u16,
    pub(crate) gates: Gates<A>,
    pub(crate) kinds: Vec<MutexKind, A>,
}

impl<C: Drop, A: Allocator> Model for MachineOf<C, A> {
    ghost use Rattle.std.specs.Prelude.{◌≡◌};
    ghost use Rattle.evl_core.specs.accounts.Accounts.{threads_of};
    ghost use Rattle.std.specs.Prelude.{◌+◌, length, map, true};
    ghost use Rattle.evl_base.specs.Board.{board_fits};
    ghost use Rattle.evl_core.specs.words.Homes.{gate_home, word_homes};
    ghost use Rattle.evl_machine.specs.callers.Handles.{MachineState};

    ghost Value = { MachineState C };

    ghost view = { λ m. record { id = m.core.shared.table_id; first = m.core.shared.key.value; staxes = map gate_home m.gates; mutexes = word_homes m.core.shared.table_id (threads_of m.core.shared.key.value.history) (length m.kinds.items) } };

    ghost invariant = { λ m. (m.core.shared.table_id.words ≡ 1 + length m.kinds.items) × (m.core.shared.table_id.slots ≡ 1) × (threads_of m.core.shared.key.value.history ≡ m.threads) × (m.kinds.items ≡ m.core.shared.key.value.history.board.mutexes.items) × (board_fits m.core.shared.key.value.history.board ≡ true) };
}

impl<C: Drop, A: Allocator> MachineOf<C, A> {
    /// The kind of a mutex, if there is such a one.
    #[inline(always)]
    pub(crate) fn kind(&self, mutex: MutexId) -> Option<MutexKind>
        ensures kind { result ≡ slice_get self.now.first.history.board.mutexes.items mutex.0 }
    {
        self.kinds.get(usize::from(mutex.0)).copied()
    }
}

impl<C: Handler, A: Allocator> MachineOf<C, A> {
    // One call of the kernel by an actor; the call comes back where another one has it.
    #[inline(always)]
    fn call_with(&self, actor: &mut Actor<C, A>, call: Call) -> Result<Result<Reply, Refusal>, Call>
        requires caller { (actor.old.table ≡ self.now.id) × IsCaller (seen actor.old.me) actor.old.thread }
        requires suits { Suits (acting actor.old) (account_of (seen actor.old.me)).seen }
        requires stays { holds_stax actor.old.staxes ≡ true → moves_caller (task_of call) ≡ false }
        requires there { ClaimsOneOf (length actor.old.places) call }
        requires free { call_refusal actor.old.wait (holds_stax actor.old.staxes) (holds_mutex (acting actor.old).mutexes) call ≡ None }
        requires board { board_fits (first_of actor.old.me.0).history.board ≡ true }
        requires by_plan { AnswersByPlan C.declared C.plan (first_of actor.old.me.0).callbacks }
        ensures same { (actor.new.table ≡ actor.old.table) × (first_of actor.new.me.0 ≡ first_of actor.old.me.0) × IsSameActor (acting actor.old) (acting actor.new) }
        ensures rests { IsCaller (seen actor.new.me) actor.new.thread }
        ensures suits { Suits (acting actor.new) (account_of (seen actor.new.me)).seen }
        ensures held { AreHeldAt actor.new.stage actor.new.staxes }
        ensures called { Answered (first_of actor.old.me.0).limit (account_of (seen actor.old.me)) call (answer_of result) (account_of (seen actor.new.me)) }
        ensures acted { ActsOnCore (first_of actor.old.me.0) (account_of (seen actor.old.me)) (lock_in actor.old.me.0) (answer_of result) (account_of (seen actor.new.me)) (lock_in actor.new.me.0) }
        ensures entered { IfOk result (λ answer. answer ≢ Err CoreBusy) }
        ensures back { IfErr result (λ back. back ≡ call) }
    {
        let Some(mut kernel) = self.open(actor) else {
            return Err(call);
        };
        let reply = actor.apply(&mut kernel, call);
        self.shut(actor, kernel);
        Ok(reply)
    }

    /// One call of the kernel, by the host thread that makes it, which the caller itself doesn't refuse; the call comes
    /// back where another caller has the kernel.
    #[inline(always)]
    pub(crate) fn attempt(
        &self,
        caller: &mut CallerOf<C, A>,
        call: Call,
    ) -> Result<Result<Reply, Refusal>, Call>
        requires machine { Belongs caller.old self.now }
        requires free { own_refusal caller.old call ≡ None }
        requires by_plan { AnswersByPlan C.declared C.plan self.now.first.callbacks }
        ensures called { KernelCall self.now.first.limit caller.old call (answer_of result) caller.new }
        ensures stage { HoldsAtItsStage caller.new }
        ensures entered { IfOk result (λ answer. answer ≢ Err CoreBusy) }
        ensures back { IfErr result (λ back. back ≡ call) }
    {
        // what holds of every machine is known where one of its fields is used
        let _ = &self.core;
        self.call_with(&mut caller.actor, call)
    }

    /// One call of the kernel, by the host thread that makes it. With no step `Invalid` for `Claim`, `Release`, `Raise`,
    /// the `Finish` of a wait for a mutex, and a `Finish` whose `keep` isn't whether the caller holds a stax or a mutex;
    /// `HoldsStax` for `Attach`, `Detach` and `SetStage` while it holds a stax; `Busy` for `Detach` while it holds a
    /// mutex. Then `CoreBusy` only where another caller has the kernel; all else is the kernel's answer.
    #[inline(always)]
    pub fn try_call(&self, caller: &mut CallerOf<C, A>, call: Call) -> Result<Reply, Refusal>
        requires machine { Belongs caller.old self.now }
        requires by_plan { AnswersByPlan C.declared C.plan self.now.first.callbacks }
        ensures machine { IsSameCaller caller.old caller.new }
        ensures called { Called self.now.first.limit caller.old call result caller.new }
        ensures stage { HoldsAtItsStage caller.new }
    {
        if let Some(refusal) = caller.actor.refusal(&call) {
            return Err(refusal);
        }
        match self.attempt(caller, call) {
            Ok(answer) => answer,
            Err(_) => Err(Refusal::CoreBusy),
        }
    }
}
