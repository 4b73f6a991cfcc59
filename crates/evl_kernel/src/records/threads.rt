//! The calls on threads.
ghost use Rattle.std.specs.Prelude.{◌≡◌};
ghost use Rattle.evl_base.specs.declared.reply.Reply.{Reply};
ghost use Rattle.evl_kernel.specs.state.KernelViews.{Has, IsAnswer};
ghost use Rattle.evl_kernel.specs.state.Records.{KeepsCallbacks, state_of};
ghost use Rattle.evl_kernel.specs.calls.ThreadCalls as thread_call;

use super::Records;
use crate::ranks;
use evl_base::{Policy, Refusal, Reply, Stage, ThreadId};
use std::alloc::Allocator;

// The nanoseconds of a second.
const NANOSECONDS: u64 = 1_000_000_000;

impl<C, A: Allocator> Records<C, A> {
    /// Makes a thread one of the core, with a policy, on a stage. The first that applies: `Unknown` (no such thread or
    /// quota group), `Range` (a number of the policy), `Busy` (it is attached).
    pub(super) fn attach(
        &mut self,
        thread: ThreadId,
        policy: Policy,
        stage: Stage,
    ) -> Result<Reply, Refusal>
        ensures answer { IsAnswer result }
        ensures served { Has (state_of self.old) (thread_call.attach (state_of self.old) thread.0 policy stage) result (state_of self.new) }
        ensures stands { KeepsCallbacks self.old self.new }
    {
        match self.sched.attach(thread, policy, stage) {
            Ok(()) => {}
            Err(refusal) => return Err(refusal),
        }
        ranks::base_changed(
            &mut self.elements,
            &mut self.changes,
            &mut self.sched,
            thread,
        );
        Ok(Reply::Done)
    }

    /// Takes a thread out of the core. The first that applies: `Unknown` (no such thread), `Invalid` (it isn't
    /// attached), `Busy` (it is recorded as the owner of a mutex).
    pub(super) fn detach(&mut self, thread: ThreadId) -> Result<Reply, Refusal>
        ensures answer { IsAnswer result }
        ensures served { Has (state_of self.old) (thread_call.detach (state_of self.old) thread.0) result (state_of self.new) }
        ensures stands { KeepsCallbacks self.old self.new }
    {
        match self.sched.rank(thread) {
            Ok(_) => {}
            Err(refusal) => return Err(refusal),
        }
        if self.elements.owns_any(thread) {
            return Err(Refusal::Busy);
        }
        let _ = self.sched.detach(thread);
        ranks::base_changed(
            &mut self.elements,
            &mut self.changes,
            &mut self.sched,
            thread,
        );
        Ok(Reply::Done)
    }

    /// Sets the policy of a thread. The first that applies: `Unknown` (no such thread or quota group), `Range` (a
    /// number of the policy), `Invalid` (the thread isn't attached).
    pub(super) fn set_policy(&mut self, thread: ThreadId, policy: Policy) -> Result<Reply, Refusal>
        ensures answer { IsAnswer result }
        ensures served { Has (state_of self.old) (thread_call.set_policy (state_of self.old) thread.0 policy) result (state_of self.new) }
        ensures stands { KeepsCallbacks self.old self.new }
    {
        match self.sched.set_policy(thread, policy) {
            Ok(()) => {}
            Err(refusal) => return Err(refusal),
        }
        ranks::base_changed(
            &mut self.elements,
            &mut self.changes,
            &mut self.sched,
            thread,
        );
        Ok(Reply::Done)
    }

    /// Moves a thread to a stage. The first that applies: `Unknown` (no such thread), `Invalid` (it isn't attached).
    #[inline(always)]
    pub(super) fn set_stage(&mut self, thread: ThreadId, stage: Stage) -> Result<Reply, Refusal>
        ensures answer { IsAnswer result }
        ensures served { Has (state_of self.old) (thread_call.set_stage (state_of self.old) thread.0 stage) result (state_of self.new) }
        ensures stands { KeepsCallbacks self.old self.new }
    {
        self.sched.set_stage(thread, stage)?;
        Ok(Reply::Done)
    }

    /// Gives which thread is picked.
    #[inline(always)]
    pub(super) fn pick(&self) -> Result<Reply, Refusal>
        ensures answer { IsAnswer result }
        ensures served { Has (state_of self.now) (thread_call.pick (state_of self.now)) result (state_of self.now) }
    {
        Ok(Reply::Chosen(self.sched.pick()))
    }

    /// Gives the effective rank of a thread. The first that applies: `Unknown` (no such thread), `Invalid` (it isn't
    /// attached).
    #[inline(always)]
    pub(super) fn rank_of(&self, thread: ThreadId) -> Result<Reply, Refusal>
        ensures answer { IsAnswer result }
        ensures served { Has (state_of self.now) (thread_call.tell_rank (state_of self.now) thread.0) result (state_of self.now) }
    {
        match self.sched.rank(thread) {
            Ok(rank) => Ok(told(rank)),
            Err(refusal) => Err(refusal),
        }
    }

    /// Charges the thread that is picked with the time since the date that was before, and refills the quota groups
    /// where a new second began between the two dates.
    pub(super) fn pay(&mut self, before: u64, delta: u64, now: u64)
        ensures paid { state_of self.new ≡ thread_call.paid_between (state_of self.old) before delta now }
        ensures stands { KeepsCallbacks self.old self.new }
    {
        self.sched.charge(delta);
        if before / NANOSECONDS != now / NANOSECONDS {
            self.sched.refill();
        }
    }
}

// A rank, as a reply.
fn told(rank: u16) -> Reply
    ensures number { result ≡ Reply.Number rank }
{
    Reply::Number(u64::from(rank))
}
