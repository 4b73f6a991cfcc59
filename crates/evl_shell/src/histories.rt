//! The trace of a kernel's history, written without a run.
ghost use Rattle.std.specs.Prelude.{◌≡◌, ◌≤◌, length, IfOk, IfErr, string_bytes};
ghost use Rattle.evl_scenario.specs.Traces.{history_trace};
ghost use Rattle.evl_shell.specs.Histories.{AreSound, IsPlayedAs, PlaysAgain};
ghost use Rattle.evl_shell.specs.Runs.{handlers_of};

use evl_base::{Board, Refusal};
use evl_kernel::KernelOf;
use evl_pipeline::Callback;
use evl_scenario::trace_history;
use std::alloc::{Allocator, Global};

/// The callbacks of a bank are sound, each by its type: their periods are 1 or more, and their actions are of kinds
/// that they declare. Nothing is computed here.
pub fn know_bank(bank: &[Callback])
    ensures { AreSound (handlers_of (λ (c : _). c.kinds.0) (λ (c : _). c.plan.value) bank.now) }
{}

/// The trace of a kernel's history, over a board and a limit that its first line has, with no call made again; `boxes` lends the
/// memory in which its entries are read. `NoMemory` where a growth was refused, and nothing else. Over the kernel's board, with or
/// without its stage exclusion locks, a limit no less than the entries, and sound callbacks, a run of the history's scenario
/// writes just this trace.
pub fn trace_kernel<C, A: Allocator, B: Allocator>(
    alloc: B,
    boxes: Global,
    kernel: &KernelOf<C, A>,
    board: &Board,
    limit: u32,
) -> Result<String<B>, Refusal>
    ensures trace { IfOk result (λ text. string_bytes text ≡ history_trace board.now limit kernel.now.history.entries kernel.now.history.plays) }
    ensures plays_again { IfOk result (λ text. AreSound kernel.now.history.bank → IsPlayedAs board.now kernel.now.history.board → length kernel.now.history.entries ≤ limit → PlaysAgain kernel.now.history board.now limit (string_bytes text)) }
    ensures refused { IfErr result (λ e. e ≡ Refusal.NoMemory) }
{
    let entries = kernel.history().to_vec(boxes)?;
    trace_history(alloc, board, limit, entries.as_slice(), kernel.plays())
}
