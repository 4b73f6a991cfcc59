//! The kernel as it was opened.
ghost use Rattle.std.specs.Prelude.{◌≡◌, ◌≤◌};
ghost use Rattle.evl_kernel.specs.histories.Histories.{IsLegal};
ghost use Rattle.evl_kernel.specs.state.Callbacks.{AnswersByPlan, BringsNone, callbacks_in, handlers_in};
ghost use Rattle.evl_kernel.specs.state.KernelViews.{IsOpened};
ghost use Rattle.evl_kernel.specs.state.Places.{AreInOnePlace};

use super::KernelOf;
use evl_pipeline::Handler;
use std::alloc::Allocator;

impl<C: Handler, A: Allocator> KernelOf<C, A> {
    /// The kernel is as `new` opened it, over its board, its limit and its callbacks: the history is empty, and every
    /// callback is in its bank place again, wherever it was. No memory is asked for, so this is never refused; the room
    /// that was made is kept (this profile).
    pub fn reset(&mut self)
        requires by_plan { AnswersByPlan C.declared C.plan self.old.callbacks }
        ensures opened { IsOpened C.declared C.plan self.old.history.board (callbacks_in self.new.callbacks.bank) self.old.limit self.new }
        ensures brings { BringsNone self.old.callbacks self.new.callbacks }
        ensures handlers { handlers_in self.new.callbacks.bank ≡ handlers_in self.old.callbacks.bank }
        ensures bank { self.new.history.bank ≡ self.old.history.bank }
        ensures by_plan { AnswersByPlan C.declared C.plan self.new.callbacks }
        ensures places { AreInOnePlace self.new.callbacks }
        ensures room { self.old.room ≤ self.new.room }
        ensures legal { IsLegal self.new.history }
    {
        self.records.reset(&self.board);
        self.history.clear();
        self.plays.clear();
        self.fence = 0;
    }
}
