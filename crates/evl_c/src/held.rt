//! A kernel over plans, with what its scenario and its trace begin with.
ghost use Rattle.std.specs.Prelude.{◌≡◌, ◌⊎◌, ◌↔◌, ◌+◌, ◌≤◌, length, true, false, None, Ok, Err, IsTrue, IsFalse, IfOk, IfErr, string_bytes};
ghost use Rattle.evl_kernel.specs.state.Callbacks.{BringsNone, handlers_in};
ghost use Rattle.evl_kernel.specs.settling.Fires.{AddsByCalls};
ghost use Rattle.evl_kernel.specs.histories.Histories.{IsLegal};
ghost use Rattle.evl_kernel.specs.state.KernelViews.{AddsEntry, IsKernelAnswer, IsOpened, makes_entry};
ghost use Rattle.evl_kernel.specs.state.Openings.{can_open};
ghost use Rattle.evl_kernel.specs.state.Places.{AreInOnePlace};
ghost use Rattle.evl_pipeline.specs.Plans.{answer_of};
ghost use Rattle.evl_scenario.specs.Scenarios.{scenario_of};
ghost use Rattle.evl_scenario.specs.Traces.{history_trace};
ghost use Rattle.evl_scenario.specs.Writings.{IsUnwritten, scenario_text, script_of_history};
ghost use Rattle.evl_c.specs.Boards.{board_of, is_board};
ghost use Rattle.evl_c.specs.Opens.{IsFresh};

use crate::boards::{BoardForm, read_board};
use evl_base::{Board, Call, Refusal, Reply, ThreadId};
use evl_kernel::KernelOf;
use evl_plans::{Planned, PlannedKernel};
use evl_scenario::{Unwritten, trace_history, write_scenario};
use std::alloc::Global;
use std::marker::Model;

/// A kernel whose callbacks keep their plans, its board, and the limit of its history.
#[derive(Drop)]
pub struct Held {
    board: Board,
    limit: u32,
    machine: PlannedKernel,
}

impl Model for Held {
    ghost use Rattle.std.specs.Prelude.{◌≡◌};
    ghost use Rattle.evl_kernel.specs.state.KernelViews.{KernelView};
    ghost use Rattle.evl_plans.specs.declared.planned.Planned.{Planned};

    ghost Value = { KernelView Planned };

    ghost view = { λ h. h.machine };

    ghost invariant = { λ h. (h.machine.history.board ≡ h.board) × (h.machine.limit ≡ h.limit) };
}

impl Held {
    /// A kernel with the elements of the board, these callbacks, and an empty history of at most `limit` entries.
    pub fn open(
        alloc: Global,
        form: &BoardForm<'_>,
        bank: Vec<Planned>,
        limit: u32,
    ) -> Result<Held, Refusal>
        requires { is_board form.now ≡ true }
        ensures opened { IfOk result (λ k. IsOpened (λ p. p.kinds.0) (λ p. p.plan) (board_of form.now) bank.items limit k) }
        ensures range { (result ≡ Err Refusal.Range) ↔ (can_open (board_of form.now) (length bank.items) limit ≡ false) }
        ensures refusals { IfErr result (λ e. (e ≡ Refusal.Range) ⊎ (e ≡ Refusal.NoMemory)) }
    {
        match PlannedKernel::new(alloc, read_board(form), bank, limit) {
            Ok(machine) => Ok(Held {
                board: read_board(form),
                limit,
                machine,
            }),
            Err(refusal) => Err(refusal),
        }
    }

    /// The kernel is as `open` made it, over its callbacks, with an empty history.
    pub fn reset(&mut self)
        ensures fresh { IsFresh self.old.history.board self.old.history.bank self.old.limit self.new }
        ensures brings { BringsNone self.old.callbacks self.new.callbacks }
        ensures handlers { handlers_in self.new.callbacks.bank ≡ handlers_in self.old.callbacks.bank }
        ensures places { AreInOnePlace self.new.callbacks }
        ensures room { self.old.room ≤ self.new.room }
        ensures legal { IsLegal self.new.history }
    {
        self.machine.reset();
    }

    /// Answers a call of a thread, settles, and enters the call into the history.
    #[inline(always)]
    pub fn apply(&mut self, caller: ThreadId, call: Call) -> Result<Reply, Refusal>
        ensures entry { IsTrue (makes_entry result) → AddsEntry self.old.history caller.0 call result self.new.history }
        ensures none { IsFalse (makes_entry result) → self.new.history ≡ self.old.history }
        ensures full { (result ≡ Err Refusal.HistoryFull) ↔ (length self.old.history.entries ≡ self.old.limit) }
        ensures legal { IsLegal self.new.history }
        ensures memory { result ≡ Err Refusal.NoMemory → self.old.room ≡ 0 }
        ensures answers { IsKernelAnswer result }
        ensures limit { self.new.limit ≡ self.old.limit }
        ensures room { self.old.room ≤ self.new.room + 1 }
        ensures brings { BringsNone self.old.callbacks self.new.callbacks }
        ensures handlers { handlers_in self.new.callbacks.bank ≡ handlers_in self.old.callbacks.bank }
        ensures called { AddsByCalls (λ p fire answer. answer ≡ answer_of p.plan fire.count) self.old.callbacks self.old.history caller.0 call self.new.history }
        ensures places { AreInOnePlace self.new.callbacks }
    {
        self.machine.apply(caller, call)
    }

    /// The kernel, to read it.
    pub fn kernel(&self) -> &KernelOf<Planned, Global>
        ensures { result.now ≡ self.now }
    {
        self.machine.kernel()
    }

    /// The trace of all calls so far. `NoMemory` where a growth was refused.
    pub fn trace(&self, alloc: Global) -> Result<String, Refusal>
        ensures trace { IfOk result (λ text. string_bytes text ≡ history_trace self.now.history.board self.now.limit self.now.history.entries self.now.history.plays) }
        ensures refused { IfErr result (λ e. e ≡ Refusal.NoMemory) }
    {
        let kernel = self.machine.kernel();
        let entries = kernel.history().to_vec(alloc)?;
        match trace_history(
            alloc,
            &self.board,
            self.limit,
            entries.as_slice(),
            kernel.plays(),
        ) {
            Ok(text) => Ok(text),
            Err(refusal) => Err(refusal),
        }
    }

    /// The scenario of all calls so far. `Board` and `Limit` where no scenario has these, `TooLong` where it would be
    /// longer than one may be, `Memory` where a growth was refused.
    pub fn scenario(&self, alloc: Global) -> Result<String, Unwritten>
        ensures text { IfOk result (λ text. string_bytes text ≡ scenario_text (script_of_history self.now.history.board self.now.limit self.now.history.entries)) }
        ensures reads_back { IfOk result (λ text. scenario_of None (string_bytes text) ≡ Ok (script_of_history self.now.history.board self.now.limit self.now.history.entries)) }
        ensures refused { IfErr result (λ e. IsUnwritten e (script_of_history self.now.history.board self.now.limit self.now.history.entries)) }
    {
        match self.machine.kernel().history().to_vec(alloc) {
            Ok(entries) => write_scenario(alloc, &self.board, self.limit, entries.as_slice()),
            Err(_) => Err(Unwritten::Memory),
        }
    }
}
