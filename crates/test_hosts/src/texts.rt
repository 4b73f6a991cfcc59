//! A run's history as two texts: its scenario, and its trace.
ghost use Rattle.std.specs.Prelude.{◌≡◌, IfErr, IfOk};
ghost use Rattle.evl_shell.specs.Histories.{AreSound};
ghost use Rattle.test_hosts.specs.Boards.{shared_board};
ghost use Rattle.test_hosts.specs.Texts.{AreTextsOf, IsPlayedSo, IsUntold};

use crate::boards::shared_board;
use crate::events::Event;
use evl_base::Refusal;
use evl_kernel::KernelOf;
use evl_scenario::{Unwritten, without_staxes, write_scenario};
use evl_shell::trace_kernel;
use std::alloc::{Allocator, Global};

/// A scenario, and the trace that it is played with; and what the callers said of their calls at mutexes and staxes.
#[derive(Drop)]
pub struct Texts {
    pub scenario: String,
    pub trace: String,
    pub events: Vec<Event>,
}

/// The most entries that a history has.
pub const LIMIT: u32 = 1_000_000;

/// Why there are no texts of a run.
#[derive(Clone, Copy)]
pub enum Failure {
    /// The machine wasn't made, or not closed, or there was no memory.
    Refused(Refusal),
    /// The scenario wasn't written: it would be longer than a scenario may be, or there was no memory.
    Unwritten(Unwritten),
    /// At so many takes of the kernel what it records of a mutex wasn't in the mutex's word.
    Differs(u32),
}

// rule: A history has no such texts only if it has more than a million entries, its scenario would be too long, a
//   growth was refused, or no scenario has such a board. Only the stored run shows that a machine is made and closed at
//   all.
/// The texts of a kernel's history, whose board is the shared one, beside what was said. `Unwritten` where it has more
/// than a million entries or its scenario would be too long; `NoMemory`, of either kind, where a growth was refused.
pub fn texts_of<C, A: Allocator>(
    alloc: Global,
    kernel: &KernelOf<C, A>,
    threads: u16,
    events: Vec<Event>,
) -> Result<Texts, Failure>
    requires board { kernel.now.history.board ≡ shared_board threads }
    requires sound { AreSound kernel.now.history.bank }
    ensures texts { IfOk result (λ texts. AreTextsOf (shared_board threads) kernel.now.history texts) }
    ensures told { IfOk result (λ texts. IsPlayedSo kernel.now.history.bank texts) }
    ensures untold { IfErr result (λ failure. IsUntold kernel.now.history failure) }
{
    let board = without_staxes(shared_board(threads));
    let entries = match kernel.history().to_vec(alloc) {
        Ok(entries) => entries,
        Err(_) => return Err(Failure::Unwritten(Unwritten::Memory)),
    };
    if entries.len() > LIMIT as usize {
        return Err(Failure::Unwritten(Unwritten::Limit));
    }
    let scenario = match write_scenario(alloc, &board, LIMIT, entries.as_slice()) {
        Ok(text) => text,
        Err(why) => return Err(Failure::Unwritten(why)),
    };
    match trace_kernel(alloc, alloc, kernel, &board, LIMIT) {
        Ok(trace) => Ok(Texts {
            scenario,
            trace,
            events,
        }),
        Err(refusal) => Err(Failure::Refused(refusal)),
    }
}
