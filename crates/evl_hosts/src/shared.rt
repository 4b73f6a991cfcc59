//! A machine over callbacks that keep their plans, for callers that share it.
ghost use Rattle.std.specs.Prelude.{◌≡◌, ◌⊎◌, ◌↔◌, Err, IfErr, IfOk, false, length};
ghost use Rattle.evl_kernel.specs.state.Callbacks.{AnswersByPlan};
ghost use Rattle.evl_kernel.specs.state.KernelViews.{IsOpened};
ghost use Rattle.evl_kernel.specs.state.Openings.{can_open};
ghost use Rattle.evl_machine.specs.callers.Handles.{newcomers_of};

use evl_base::{Board, Refusal};
use evl_machine::{CallerOf, MachineOf};
use evl_plans::Planned;
use std::alloc::Global;
use std::marker::Model;

/// A machine, with the board and the limit that its trace begins with.
#[derive(Drop)]
pub struct Shared {
    machine: MachineOf<Planned, Global>,
    board: Board,
    limit: u32,
}

impl Model for Shared {
    ghost use Rattle.std.specs.Prelude.{◌≡◌};
    ghost use Rattle.evl_kernel.specs.state.Callbacks.{AnswersByPlan};
    ghost use Rattle.evl_machine.specs.callers.Handles.{MachineState};
    ghost use Rattle.evl_plans.specs.declared.planned.Planned.{Planned};

    ghost Value = { MachineState Planned };

    ghost view = { λ s. s.machine };

    ghost invariant = { λ s. AnswersByPlan (λ p. p.kinds.0) (λ p. p.plan) s.machine.first.callbacks × (s.machine.first.history.board ≡ s.board) × (s.machine.first.limit ≡ s.limit) };
}

impl Shared {
    /// A machine with a new kernel of this board, which is handed in twice, and a caller for each of its threads. `Range`
    /// and `NoMemory` are the machine's.
    pub fn new(
        alloc: Global,
        board: Board,
        again: Board,
        bank: Vec<Planned>,
        limit: u32,
    ) -> Result<(Shared, Vec<CallerOf<Planned, Global>>), Refusal>
        requires twice { again ≡ board }
        ensures opened { IfOk result (λ m. IsOpened (λ p. p.kinds.0) (λ p. p.plan) board bank.items limit m.0.first) }
        ensures callers { IfOk result (λ m. m.1.items ≡ newcomers_of m.0 board.threads) }
        ensures range { (result ≡ Err Refusal.Range) ↔ (can_open board (length bank.items) limit ≡ false) }
        ensures refusals { IfErr result (λ e. (e ≡ Refusal.Range) ⊎ (e ≡ Refusal.NoMemory)) }
    {
        match MachineOf::over(alloc, alloc, board, bank, limit) {
            Ok((machine, callers)) => Ok((
                Shared {
                    machine,
                    board: again,
                    limit,
                },
                callers,
            )),
            Err(refusal) => Err(refusal),
        }
    }

    /// The machine.
    #[inline(always)]
    pub fn machine(&self) -> &MachineOf<Planned, Global>
        ensures machine { result.now ≡ self.now }
        ensures by_plan { AnswersByPlan (λ p. p.kinds.0) (λ p. p.plan) result.now.first.callbacks }
    {
        &self.machine
    }

    /// Its board.
    pub fn board(&self) -> &Board
        ensures { result.now ≡ self.now.first.history.board }
    {
        &self.board
    }

    /// The limit of its kernel's history.
    pub fn limit(&self) -> u32
        ensures { result ≡ self.now.first.limit }
    {
        self.limit
    }
}
