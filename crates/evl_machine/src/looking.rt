//! A caller's look at its wait, which finishes it where it is over.
ghost use Rattle.std.specs.Prelude.{◌≡◌, ◌≢◌, ⊤, Err, MatchOption, Some, true};
ghost use Rattle.evl_base.specs.Board.{board_fits};
ghost use Rattle.evl_base.specs.declared.call.Call.TheVariants.{Finish};
ghost use Rattle.evl_base.specs.declared.refusal.Refusal.TheVariants.{Again, CoreBusy};
ghost use Rattle.evl_kernel.specs.state.Callbacks.{AnswersByPlan};
ghost use Rattle.evl_machine.specs.callers.Actors.{AreHeldAt, IsSameActor, Suits, acting, keeps_stage};
ghost use Rattle.evl_machine.specs.calls.Calls.{ActsOnCore, Answered, HoldsAtItsStage, KernelCall, wait_of_caller};
ghost use Rattle.evl_core.specs.accounts.Seats.{IsCaller, account_of};
ghost use Rattle.evl_machine.specs.declared.unfinished.Unfinished.TheVariants.{Element};
ghost use Rattle.evl_machine.specs.callers.Handles.{Belongs};
ghost use Rattle.evl_core.specs.rule.Known.{first_of, seen, lock_in};
ghost use Rattle.evl_core.specs.words.MutexSeats.{holds_mutex};
ghost use Rattle.evl_machine.specs.stax_locks.StaxSeats.{holds_stax};
ghost use Rattle.evl_machine.specs.calls.Waitings.{Looked, Looks, LooksOrFinishes, finish_of};

use crate::actor::Actor;
use crate::caller::CallerOf;
use crate::machine::MachineOf;
use evl_base::{Call, Refusal, Reply};
use evl_pipeline::Handler;
use std::alloc::Allocator;

impl<C: Handler, A: Allocator> MachineOf<C, A> {
    // Finishes the wait of an actor's thread where it is over, in the take in which that is seen; none where it goes
    // on, or where another one has the kernel.
    fn end_with(&self, actor: &mut Actor<C, A>) -> Option<Result<Reply, Refusal>>
        requires caller { (actor.old.table ≡ self.now.id) × IsCaller (seen actor.old.me) actor.old.thread }
        requires suits { Suits (acting actor.old) (account_of (seen actor.old.me)).seen }
        requires waits { actor.old.wait ≡ Some Element }
        requires board { board_fits (first_of actor.old.me.0).history.board ≡ true }
        requires by_plan { AnswersByPlan C.declared C.plan (first_of actor.old.me.0).callbacks }
        ensures same { (actor.new.table ≡ actor.old.table) × (first_of actor.new.me.0 ≡ first_of actor.old.me.0) × IsSameActor (acting actor.old) (acting actor.new) }
        ensures rests { IsCaller (seen actor.new.me) actor.new.thread }
        ensures suits { Suits (acting actor.new) (account_of (seen actor.new.me)).seen }
        ensures held { AreHeldAt actor.new.stage actor.new.staxes }
        ensures looked { LooksOrFinishes (first_of actor.old.me.0) (keeps_stage (holds_stax actor.old.staxes) (holds_mutex (acting actor.old).mutexes)) (account_of (seen actor.old.me)) (lock_in actor.old.me.0) result (account_of (seen actor.new.me)) (lock_in actor.new.me.0) }
        ensures acted { MatchOption result ⊤ (λ r. ActsOnCore (first_of actor.old.me.0) (account_of (seen actor.old.me)) (lock_in actor.old.me.0) r (account_of (seen actor.new.me)) (lock_in actor.new.me.0)) }
        ensures told { MatchOption result ⊤ (λ r. (r ≢ Err Again) × (r ≢ Err CoreBusy)) }
    {
        let Some(mut kernel) = self.open(actor) else {
            return None;
        };
        if !kernel.kernel().finished(actor.thread) {
            self.shut(actor, kernel);
            return None;
        }
        let keep = actor.keeps_stage();
        let reply = actor.apply(&mut kernel, Call::Finish { keep });
        self.shut(actor, kernel);
        Some(reply)
    }

    /// Finishes a caller's wait where it is over; none where it goes on, or where another caller has the kernel.
    pub(crate) fn end_wait(&self, caller: &mut CallerOf<C, A>) -> Option<Result<Reply, Refusal>>
        requires machine { Belongs caller.old self.now }
        requires waits { wait_of_caller caller.old ≡ Some Element }
        requires by_plan { AnswersByPlan C.declared C.plan self.now.first.callbacks }
        ensures looked { MatchOption result (Looked caller.old caller.new) (λ r. KernelCall self.now.first.limit caller.old (finish_of caller.old) r caller.new) }
        ensures told { MatchOption result ⊤ (λ r. (r ≢ Err Again) × (r ≢ Err CoreBusy)) }
        ensures stage { HoldsAtItsStage caller.new }
    {
        // what holds of every machine is known where one of its fields is used
        let _ = &self.core;
        self.end_with(&mut caller.actor)
    }
}
