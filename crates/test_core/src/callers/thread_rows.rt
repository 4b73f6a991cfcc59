//! Rows of two host threads as data: what is done before and after them on one, what each does, and what they leave.
ghost use Rattle.std.specs.Prelude.{◌≡◌, All};
ghost use Rattle.evl_kernel.specs.state.Callbacks.{AnswersByPlan};
ghost use Rattle.evl_core.specs.accounts.OneHistory.{AgreeOnMutexes, AgreeOnStaxes, OneHistory};

use super::boards::{NORMAL, board_with};
use super::closing::{End, closes_with};
use super::passes::Passes;
use super::phases::{Step, answers, comes_back, last_of};
use super::rows::made;
use super::threads::{Hand, Task, both_call};
use evl_machine::{CallerOf, MachineOf};
use evl_pipeline::{Callback, Handler};
use std::alloc::{Allocator, Global};
use std::sync::Wait;
use std::thread::Threads;

/// The turns of two host threads, and each one's number of answers, between steps on one; the first takes all passes.
#[derive(Clone, Copy)]
pub struct ThreadRow<'a> {
    pub before: &'a [Step],
    pub tasks: (Task, Task),
    pub told: (u32, u32),
    pub after: &'a [Step],
    pub end: End,
}

// All that both callers know together: of the kernel, of each mutex's word and of each stax's gate.
fn meet<C: Handler, A: Allocator>(
    machine: &MachineOf<C, A>,
    one: &mut CallerOf<C, A>,
    other: &mut CallerOf<C, A>,
)
    requires { (one.old.machine ≡ machine.now) × (other.old.machine ≡ machine.now) }
    ensures same { (one.new ≡ one.old) × (other.new ≡ other.old) }
    ensures kernel { OneHistory one.old.account other.old.account }
    ensures mutexes { AgreeOnMutexes one.old.mutexes other.old.mutexes }
    ensures staxes { AgreeOnStaxes one.old.staxes other.old.staxes }
{
    machine.agree(one, other);
}

// Whether both callers are answered on two host threads what is wanted, and come back.
fn told_on_threads<C: Handler + Send, R: Threads + Wait + Sync>(
    rt: &R,
    alloc: Global,
    machine: &MachineOf<C, Global>,
    callers: &mut Vec<CallerOf<C, Global>>,
    passes: Passes,
    row: &ThreadRow<'_>,
) -> bool
    requires callers { All (λ c. c.machine ≡ machine.now) callers.old.items }
    requires by_plan { AnswersByPlan C.declared C.plan machine.now.first.callbacks }
    ensures { All (λ c. c.machine ≡ machine.now) callers.new.items }
{
    let Some(second) = last_of(machine, callers) else {
        return false;
    };
    let Some(first) = last_of(machine, callers) else {
        return false;
    };
    let first = Hand {
        caller: first,
        passes,
    };
    let second = Hand {
        caller: second,
        passes: Passes::new(alloc),
    };
    let (mut first, mut second, told) = both_call(rt, machine, first, second, row.tasks);
    meet(machine, &mut first, &mut second);
    let first_back = comes_back(machine, callers, first);
    let second_back = comes_back(machine, callers, second);
    first_back && second_back && told == row.told
}

// Whether the row is answered as it is wanted.
fn answers_row<C: Handler + Send, R: Threads + Wait + Sync>(
    rt: &R,
    alloc: Global,
    machine: &MachineOf<C, Global>,
    callers: &mut Vec<CallerOf<C, Global>>,
    row: &ThreadRow<'_>,
) -> bool
    requires callers { All (λ c. c.machine ≡ machine.now) callers.old.items }
    requires by_plan { AnswersByPlan C.declared C.plan machine.now.first.callbacks }
    ensures { All (λ c. c.machine ≡ machine.now) callers.new.items }
{
    let mut passes = Passes::new(alloc);
    let before = answers(rt, machine, callers, &mut passes, row.before);
    let told = told_on_threads(rt, alloc, machine, callers, passes, row);
    let mut passes = Passes::new(alloc);
    let after = answers(rt, machine, callers, &mut passes, row.after);
    before && told && after
}

/// Whether a row over a new machine with these callbacks is answered as it is wanted, the machine is closed then, and
/// its kernel has what is wanted.
pub fn is_row_over<C: Handler + Send, R: Threads + Wait + Sync>(
    rt: &R,
    alloc: Global,
    bank: Vec<C>,
    limit: u32,
    row: &ThreadRow<'_>,
) -> bool {
    match made(alloc, alloc, board_with(2, NORMAL), bank, limit) {
        Ok((machine, mut callers)) => {
            let told = answers_row(rt, alloc, &machine, &mut callers, row);
            let closed = closes_with(machine, callers, row.end);
            told && closed
        }
        Err(_) => false,
    }
}

/// The same with no callbacks.
pub fn is_thread_row<R: Threads + Wait + Sync>(
    rt: &R,
    alloc: Global,
    limit: u32,
    row: &ThreadRow<'_>,
) -> bool {
    let bank: Vec<Callback> = Vec::new(alloc);
    is_row_over(rt, alloc, bank, limit, row)
}
