//! A kernel over callbacks that keep their plans.
ghost use Rattle.std.specs.Prelude.{◌≡◌, ◌⊎◌, ◌↔◌, ◌+◌, ◌≤◌, ◌<◌, length, false, Err, IsTrue, IsFalse, IfOk, IfErr, OnOk};
ghost use Rattle.evl_kernel.specs.state.Callbacks.{BringsNone, callbacks_in, handlers_in};
ghost use Rattle.evl_kernel.specs.settling.Fires.{AddsByCalls};
ghost use Rattle.evl_kernel.specs.histories.Histories.{IsLegal};
ghost use Rattle.evl_kernel.specs.state.KernelViews.{AddsEntry, IsKernelAnswer, IsOpened, makes_entry};
ghost use Rattle.evl_kernel.specs.state.Openings.{can_open};
ghost use Rattle.evl_kernel.specs.state.Places.{AreInOnePlace};
ghost use Rattle.evl_pipeline.specs.Plans.{answer_of};

use crate::planned::Planned;
use evl_base::{Board, Call, Refusal, Reply, ThreadId};
use evl_kernel::KernelOf;
use evl_shell::leave;
use std::alloc::Global;
use std::marker::Model;

/// A kernel whose callbacks keep their plans, and so answer them.
#[derive(Drop)]
pub struct PlannedKernel {
    kernel: KernelOf<Planned, Global>,
}

impl Model for PlannedKernel {
    ghost use Rattle.evl_kernel.specs.state.Callbacks.{AnswersByPlan};
    ghost use Rattle.evl_kernel.specs.state.KernelViews.{KernelView};
    ghost use Rattle.evl_plans.specs.declared.planned.Planned.{Planned};

    ghost Value = { KernelView Planned };

    ghost view = { λ k. k.kernel };

    ghost invariant = { λ k. AnswersByPlan (λ p. p.kinds.0) (λ p. p.plan) k.kernel.callbacks };
}

impl PlannedKernel {
    /// A kernel with the elements of the board, these callbacks, and an empty history of at most `limit` entries.
    /// `Range` and `NoMemory` are the kernel's.
    pub fn new(
        alloc: Global,
        board: Board,
        bank: Vec<Planned>,
        limit: u32,
    ) -> Result<PlannedKernel, Refusal>
        ensures opened { IfOk result (λ k. IsOpened (λ p. p.kinds.0) (λ p. p.plan) board bank.items limit k) }
        ensures places { IfOk result (λ k. AreInOnePlace k.callbacks) }
        ensures range { (result ≡ Err Refusal.Range) ↔ (can_open board (length bank.items) limit ≡ false) }
        ensures refusals { IfErr result (λ e. (e ≡ Refusal.Range) ⊎ (e ≡ Refusal.NoMemory)) }
    {
        match KernelOf::new(alloc, board, bank, limit) {
            Ok(kernel) => Ok(PlannedKernel { kernel }),
            Err(refusal) => Err(refusal),
        }
    }

    /// Answers a call of a thread, settles, and enters the call into the history: what the kernel's `apply` does.
    #[inline(always)]
    pub fn apply(&mut self, caller: ThreadId, call: Call) -> Result<Reply, Refusal>
        ensures entry { IsTrue (makes_entry result) → AddsEntry self.old.history caller.0 call result self.new.history }
        ensures none { IsFalse (makes_entry result) → self.new.history ≡ self.old.history }
        ensures full { (result ≡ Err Refusal.HistoryFull) ↔ (length self.old.history.entries ≡ self.old.limit) }
        ensures legal { IsLegal self.new.history }
        ensures memory { result ≡ Err Refusal.NoMemory → self.old.room ≡ 0 }
        ensures answers { IsKernelAnswer result }
        ensures limit { self.new.limit ≡ self.old.limit }
        ensures room { self.old.room ≤ self.new.room + 1 }
        ensures brings { BringsNone self.old.callbacks self.new.callbacks }
        ensures handlers { handlers_in self.new.callbacks.bank ≡ handlers_in self.old.callbacks.bank }
        ensures called { AddsByCalls (λ p fire answer. answer ≡ answer_of p.plan fire.count) self.old.callbacks self.old.history caller.0 call self.new.history }
        ensures places { AreInOnePlace self.new.callbacks }
    {
        self.kernel.apply(caller, call)
    }

    /// The kernel is as `new` opened it, over its board, its limit and its callbacks: what the kernel's `reset` does.
    pub fn reset(&mut self)
        ensures opened { IsOpened (λ p. p.kinds.0) (λ p. p.plan) self.old.history.board (callbacks_in self.new.callbacks.bank) self.old.limit self.new }
        ensures brings { BringsNone self.old.callbacks self.new.callbacks }
        ensures handlers { handlers_in self.new.callbacks.bank ≡ handlers_in self.old.callbacks.bank }
        ensures bank { self.new.history.bank ≡ self.old.history.bank }
        ensures places { AreInOnePlace self.new.callbacks }
        ensures room { self.old.room ≤ self.new.room }
        ensures legal { IsLegal self.new.history }
    {
        self.kernel.reset();
    }

    /// Makes room for the entries and plays of the next `n` calls of `apply`, which then answer neither `NoMemory` nor
    /// `HistoryFull`: what the kernel's `reserve` does.
    pub fn reserve(&mut self, n: usize) -> Result<(), Refusal>
        ensures room { OnOk result (n ≤ self.new.room) }
        ensures full { (result ≡ Err Refusal.HistoryFull) ↔ (self.old.limit < length self.old.history.entries + n) }
        ensures refusals { IfErr result (λ e. (e ≡ Refusal.HistoryFull) ⊎ (e ≡ Refusal.NoMemory)) }
        ensures history { self.new.history ≡ self.old.history }
        ensures callbacks { self.new.callbacks ≡ self.old.callbacks }
        ensures limit { self.new.limit ≡ self.old.limit }
        ensures keeps { self.old.room ≤ self.new.room }
        ensures memory { result ≡ Err Refusal.NoMemory → self.old.room < n }
        ensures within { length self.old.history.entries ≤ self.old.limit }
    {
        self.kernel.reserve(n)
    }

    /// Lets the kernel go, as the shell does.
    pub fn leave(self) {
        let PlannedKernel { kernel } = self;
        leave(kernel);
    }

    /// The kernel, to read it.
    pub fn kernel(&self) -> &KernelOf<Planned, Global>
        ensures { result.now ≡ self.now }
    {
        &self.kernel
    }
}
