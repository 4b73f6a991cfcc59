//! The calls on the date and the timers.
ghost use Rattle.std.specs.Prelude.{◌≡◌, ◌<◌, length, map, None, Some, slice_set, slice_index_or};
ghost use Rattle.evl_clock.specs.Timers.{is_timer_allowed};
ghost use Rattle.evl_kernel.specs.state.Callbacks.{AnswersByPlan};
ghost use Rattle.evl_kernel.specs.state.KernelViews.{Has, IsAnswer};
ghost use Rattle.evl_kernel.specs.state.Records.{KeepsCallbacks, state_of, whereabouts};
ghost use Rattle.evl_kernel.specs.calls.TimerCalls as timer_call;

use super::Records;
use crate::bank::{Numbered, kinds_in, put_back, take_out};
use bitflags::Flags;
use evl_base::{ActionKinds, LineNo, Refusal, Reply, Stage, TimerId};
use evl_pipeline::Handler;
use std::alloc::Allocator;

// Whether a timer's callback may declare these kinds of action: it neither hands its event on in-band nor posts an
// out-of-band line.
fn is_timer_allowed(kinds: ActionKinds) -> bool
    ensures allowed { result ≡ is_timer_allowed kinds.0 }
{
    ActionKinds::POST_SEM
        .union(ActionKinds::POST_FLAGS)
        .union(ActionKinds::STOP_TIMER)
        .contains(kinds)
}

impl<C, A: Allocator> Records<C, A> {
    /// The date, in nanoseconds.
    #[inline(never)]
    pub(super) fn now(&self) -> Result<Reply, Refusal>
        ensures answer { IsAnswer result }
        ensures served { Has (state_of self.now) (timer_call.now (state_of self.now)) result (state_of self.now) }
    {
        Ok(Reply::Number(self.clock.now()))
    }

    /// Charges the thread that is picked, moves the date by so many nanoseconds, and posts line 0 where something is
    /// due then. `Range` where the date would be past 2^64 - 1.
    #[inline(always)]
    pub(super) fn tick(&mut self, delta: u64) -> Result<Reply, Refusal>
        ensures answer { IsAnswer result }
        ensures served { Has (state_of self.old) (timer_call.tick (state_of self.old) delta) result (state_of self.new) }
        ensures stands { KeepsCallbacks self.old self.new }
    {
        let before = self.clock.now();
        let due = self.clock.advance(delta)?;
        let now = self.clock.now();
        self.pay(before, delta, now);
        self.alarm(due);
        Ok(Reply::Done)
    }

    /// How many periods a timer missed since its start. `Unknown` where there is no such timer.
    #[inline(never)]
    pub(super) fn overruns(&self, timer: TimerId) -> Result<Reply, Refusal>
        ensures answer { IsAnswer result }
        ensures served { Has (state_of self.now) (timer_call.overruns (state_of self.now) timer.0) result (state_of self.now) }
    {
        match self.clock.overruns(timer) {
            Ok(count) => Ok(Reply::Number(count)),
            Err(_) => Err(Refusal::Unknown),
        }
    }

    /// An event of line 0 where something is due.
    #[inline(always)]
    pub(super) fn alarm(&mut self, due: bool)
        ensures posted { state_of self.new ≡ timer_call.posted_if due (state_of self.old) }
        ensures stands { KeepsCallbacks self.old self.new }
    {
        if due {
            self.post_clock();
        }
    }

    // An event of line 0, the clock's.
    #[inline(always)]
    fn post_clock(&mut self)
        ensures posted { state_of self.new ≡ timer_call.posted_clock (state_of self.old) }
        ensures stands { KeepsCallbacks self.old self.new }
    {
        let _ = self.pipeline.post(Stage::Oob, LineNo(0));
    }
}

impl<C: Drop, A: Allocator> Records<C, A> {
    /// Lets a timer run; a date that isn't after now posts line 0 at once. `Unknown` where there is no such timer.
    pub(super) fn start_timer(
        &mut self,
        timer: TimerId,
        date: u64,
        interval: u64,
    ) -> Result<Reply, Refusal>
        ensures answer { IsAnswer result }
        ensures served { Has (state_of self.old) (timer_call.start_timer (state_of self.old) timer.0 date interval) result (state_of self.new) }
        ensures stands { KeepsCallbacks self.old self.new }
    {
        let due = self.clock.start(timer, date, interval)?;
        self.alarm(due);
        Ok(Reply::Done)
    }

    /// Makes a timer idle; line 0 stays pending. `Unknown` where there is no such timer.
    pub(super) fn stop_timer(&mut self, timer: TimerId) -> Result<Reply, Refusal>
        ensures answer { IsAnswer result }
        ensures served { Has (state_of self.old) (timer_call.stop_timer (state_of self.old) timer.0) result (state_of self.new) }
        ensures stands { KeepsCallbacks self.old self.new }
    {
        self.clock.stop(timer)?;
        Ok(Reply::Done)
    }
}

impl<C: Handler, A: Allocator> Records<C, A> {
    /// A callback leaves its bank place for a timer, which is idle and has the least free number. The first that
    /// applies: `Unknown` (no such callback), `Invalid` (a kind that isn't allowed for timers), `Busy` (the callback is
    /// out), `Limit` (there are 64 timers).
    pub(super) fn new_timer(&mut self, callback: u8, tag: u32) -> Result<Reply, Refusal>
        requires by_plan { AnswersByPlan C.declared C.plan (whereabouts self.old) }
        ensures answer { IsAnswer result }
        ensures served { Has (state_of self.old) (timer_call.new_timer (state_of self.old) callback tag) result (state_of self.new) }
        ensures stands { KeepsCallbacks self.old self.new }
    {
        let Some(kinds) = kinds_in(&self.bank, callback) else {
            return Err(Refusal::Unknown);
        };
        if !is_timer_allowed(kinds) {
            return Err(Refusal::Invalid);
        }
        let Some(taken) = take_out(&mut self.bank, callback) else {
            return Err(Refusal::Busy);
        };
        let numbered = Numbered {
            number: callback,
            callback: taken,
        };
        match self.clock.new_timer(numbered, tag) {
            Ok(timer) => Ok(Reply::Number(u64::from(timer.0))),
            Err((refusal, numbered)) => {
                put_back(&mut self.bank, callback, numbered.callback);
                Err(refusal)
            }
        }
    }

    /// A timer is taken away, whatever it does, and its callback goes back into its bank place; line 0 stays pending.
    /// `Unknown` where there is no such timer.
    pub(super) fn drop_timer(&mut self, timer: TimerId) -> Result<Reply, Refusal>
        requires by_plan { AnswersByPlan C.declared C.plan (whereabouts self.old) }
        ensures answer { IsAnswer result }
        ensures served { Has (state_of self.old) (timer_call.drop_timer (state_of self.old) timer.0) result (state_of self.new) }
        ensures stands { KeepsCallbacks self.old self.new }
    {
        let numbered = self.clock.drop_timer(timer)?;
        put_back(&mut self.bank, numbered.number, numbered.callback);
        Ok(Reply::Done)
    }
}
