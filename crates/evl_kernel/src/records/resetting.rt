//! The records as they were made, with every callback back in its bank place.
ghost use Rattle.std.specs.Prelude.{◌≡◌, ℕ, None, length, replicate};
ghost use Rattle.evl_base.specs.declared.stage.Stage.{Stage};
ghost use Rattle.evl_clock.specs.Clocks.{timer_at};
ghost use Rattle.evl_pipeline.specs.Lines.{installed_at};
ghost use Rattle.evl_kernel.specs.state.Callbacks.{AnswersByPlan, callbacks_in};
ghost use Rattle.evl_kernel.specs.state.Homecomings.{ComesHome};
ghost use Rattle.evl_kernel.specs.state.Places.{AreInOnePlace};
ghost use Rattle.evl_kernel.specs.state.Records.{IsOpened, KeepsCallbacks, state_of, whereabouts};
ghost use Rattle.evl_kernel.specs.state.Shapes.{HasShape};

use super::Records;
use crate::wait_place::WaitPlace;
use evl_base::{Board, LineNo, Stage, TimerId};
use evl_pipeline::Handler;
use std::alloc::Allocator;

// How many timers there may be.
const TIMERS: u16 = 64;

impl<C: Handler, A: Allocator> Records<C, A> {
    /// The records of their board as `new` made them, over the callbacks that they have; no memory is asked for.
    pub(crate) fn reset(&mut self, board: &Board)
        requires shape { HasShape board.now (state_of self.old) }
        requires by_plan { AnswersByPlan C.declared C.plan (whereabouts self.old) }
        requires places { AreInOnePlace (whereabouts self.old) }
        ensures opened { IsOpened C.declared C.plan board.now (callbacks_in self.new.bank) self.new }
        ensures stands { KeepsCallbacks self.old self.new }
    {
        self.bring_home();
        self.elements.reset(board);
        self.pipeline.reset();
        self.clock.reset();
        self.sched.reset();
        clear_waits(&mut self.waits);
    }

    // Every callback goes back into its bank place.
    fn bring_home(&mut self)
        requires by_plan { AnswersByPlan C.declared C.plan (whereabouts self.old) }
        ensures comes { ComesHome (state_of self.old) (state_of self.new) }
        ensures lines { (stage : Stage) (line : ℕ) → installed_at (state_of self.new).lines stage line ≡ None }
        ensures timers { (timer : ℕ) → timer_at (state_of self.new).clock timer ≡ None }
        ensures stands { KeepsCallbacks self.old self.new }
    {
        self.free_lines(Stage::Oob);
        self.free_lines(Stage::Inband);
        self.drop_timers();
    }

    // Every callback on a line of the stage does.
    fn free_lines(&mut self, stage: Stage)
        requires by_plan { AnswersByPlan C.declared C.plan (whereabouts self.old) }
        ensures comes { ComesHome (state_of self.old) (state_of self.new) }
        ensures freed { (line : ℕ) → installed_at (state_of self.new).lines stage line ≡ None }
        ensures others { (other : Stage) (line : ℕ) → installed_at (state_of self.old).lines other line ≡ None → installed_at (state_of self.new).lines other line ≡ None }
        ensures stands { KeepsCallbacks self.old self.new }
    {
        for line in 0..self.pipeline.reach(stage) {
            let _ = self.free(LineNo(line as u16), stage);
        }
    }

    // Every callback of a timer does.
    fn drop_timers(&mut self)
        requires by_plan { AnswersByPlan C.declared C.plan (whereabouts self.old) }
        ensures comes { ComesHome (state_of self.old) (state_of self.new) }
        ensures dropped { (timer : ℕ) → timer_at (state_of self.new).clock timer ≡ None }
        ensures lines { (stage : Stage) (line : ℕ) → installed_at (state_of self.old).lines stage line ≡ None → installed_at (state_of self.new).lines stage line ≡ None }
        ensures stands { KeepsCallbacks self.old self.new }
    {
        let _ = &self.clock;
        for timer in 0..TIMERS {
            let _ = self.drop_timer(TimerId(timer));
        }
    }
}

// Nobody waits any more.
fn clear_waits<A: Allocator>(waits: &mut Vec<WaitPlace, A>)
    ensures waits { waits.new.items ≡ replicate (length waits.old.items) None }
{
    for i in 0..waits.len() {
        let _ = waits[i].clear();
    }
}
