//! Closing a machine of two callers, and what its kernel has then.
ghost use Rattle.std.specs.Prelude.{◌≡◌, All, IfErr, IfOk, IfSome};

use super::acts::{Ask, Told, call_of, told_by};
use super::boards::{ATTACHED, FIRST, NORMAL, ONCE_FREE, SEM, board_with};
use super::held::drops_the_kernel;
use super::passes::Passes;
use super::phases::{answers, comes_back, first_of, last_of};
use super::rows::{leave, leave_kernel};
use evl_base::{Board, Call, Entry, Refusal, Reply, ThreadId};
use evl_kernel::KernelOf;
use evl_machine::{Caller, CallerOf, InWord, Machine, MachineOf};
use evl_pipeline::Handler;
use evl_scenario::{trace_history, without_staxes};
use std::alloc::{Allocator, Global};
use std::sync::Wait;

// A machine over a board with no callbacks, and its callers.
fn made(alloc: Global, board: Board) -> Result<(Machine, Vec<Caller>), Refusal>
    ensures { IfOk result (λ m. All (λ c. c.machine ≡ m.0.of) m.1.items) }
{
    match Machine::new(alloc, board, Vec::new(alloc), 100) {
        Ok(made) => Ok(made),
        Err(refusal) => Err(refusal),
    }
}

// Whether a put is done, as the third call, while the mutex is free.
fn is_third_put(put: Told, word: Option<InWord>, calls: usize) -> bool {
    let free = InWord {
        owner: None,
        is_offered: false,
        is_claimed: false,
    };
    put == Told::Done && word == Some(free) && calls == 3
}

// Has the kernel for one put, which is the third call.
fn holds_a_put(machine: &Machine, caller: Caller) -> (bool, Caller)
    requires { caller.machine ≡ machine.now.of }
    ensures { result.1.machine ≡ machine.now.of }
{
    match machine.take(caller) {
        Ok(mut held) => {
            let put = told_by(held.apply(call_of(Ask::Put(SEM))));
            let word = held.in_word(FIRST);
            let calls = held.kernel().history().len();
            let caller = held.give();
            (is_third_put(put, word, calls), caller)
        }
        Err(caller) => (false, caller),
    }
}

// Whether the first caller has the kernel for one put, and comes back.
fn is_put_held(machine: &Machine, callers: &mut Vec<Caller>) -> bool
    requires { All (λ c. c.machine ≡ machine.now.of) callers.old.items }
    ensures { All (λ c. c.machine ≡ machine.now.of) callers.new.items }
{
    let Some(second) = last_of(&machine.of, callers) else {
        return false;
    };
    let Some(first) = last_of(&machine.of, callers) else {
        return false;
    };
    let (told, first) = holds_a_put(machine, first);
    let first_back = comes_back(&machine.of, callers, first);
    let second_back = comes_back(&machine.of, callers, second);
    told && first_back && second_back
}

// Row core_held, but for the second caller's calls while the first one has the core, which make no entries.
fn is_core_row<R: Wait>(
    rt: &R,
    machine: &Machine,
    callers: &mut Vec<Caller>,
    passes: &mut Passes,
) -> bool
    requires { All (λ c. c.machine ≡ machine.now.of) callers.old.items }
    ensures { All (λ c. c.machine ≡ machine.now.of) callers.new.items }
{
    let attached = answers(rt, &machine.of, callers, passes, &ATTACHED);
    let held = is_put_held(machine, callers);
    let free = answers(rt, &machine.of, callers, passes, &ONCE_FREE);
    attached && held && free
}

// The row's calls, in their order.
const ROW: &str = "board threads=2 sems=2 flags=1 xbufs=1 mutexes=2 groups=0 limit=100
1 T0 attach policy=fifo 10 stage=oob -> done
2 T1 attach policy=fifo 10 stage=oob -> done
3 T0 put sem=0 -> done
4 T1 try_get sem=0 -> done
5 T1 put sem=0 -> done
6 T0 try_get sem=0 -> done
7 T0 try_get sem=0 -> Again
8 T1 peek sem=0 -> count 0
";

// Whether these are the row's entries.
fn is_history_of_row(alloc: Global, history: &[Entry]) -> bool {
    let board = without_staxes(board_with(2, NORMAL));
    match trace_history(alloc, &board, 100, history, &[]) {
        Ok(trace) => trace.as_str() == ROW,
        Err(_) => false,
    }
}

// Whether this is the attachment of a thread, and done.
fn is_attach(entry: &Entry, thread: u16) -> bool {
    entry.caller == ThreadId(thread)
        && matches!(entry.call, Call::Attach { .. })
        && matches!(entry.reply, Ok(Reply::Done))
}

// Whether this is a put of a thread, and done.
fn is_put(entry: &Entry, thread: u16) -> bool {
    entry.caller == ThreadId(thread)
        && matches!(entry.call, Call::Put { .. })
        && matches!(entry.reply, Ok(Reply::Done))
}

// How many of these calls are done puts of a thread.
fn puts_by(history: &[Entry], thread: u16) -> usize {
    let mut count = 0usize;
    for entry in history {
        if is_put(entry, thread) {
            count = count.saturating_add(1);
        }
    }
    count
}

fn is_history(history: &[Entry], count: usize, puts: (usize, usize)) -> bool {
    let [one, two, calls @ ..] = history else {
        return false;
    };
    let attached = is_attach(one, 0) && is_attach(two, 1);
    attached && calls.len() == count && puts_by(calls, 0) == puts.0 && puts_by(calls, 1) == puts.1
}

/// A question that is asked of the kernel, once the machine is closed.
#[derive(Clone, Copy)]
pub enum End {
    Unasked,
    // How many calls there are after both attachments, and how many of them are done puts of each thread.
    Calls(usize, (usize, usize)),
    // How many plays there were.
    Plays(usize),
    // The calls of row core_held, whose trace is made over this allocator.
    Row(Global),
}

// Whether a kernel has what is wanted.
fn kernel_has<C: Handler, A: Allocator>(alloc: Global, kernel: &KernelOf<C, A>, end: End) -> bool {
    let Ok(entries) = kernel.history().to_vec(alloc) else {
        return false;
    };
    match end {
        End::Unasked => true,
        End::Calls(count, puts) => is_history(entries.as_slice(), count, puts),
        End::Plays(count) => kernel.plays().len() == count,
        End::Row(alloc) => is_history_of_row(alloc, entries.as_slice()),
    }
}

// Whether a kernel that goes has what is wanted.
fn has_at_last<C: Handler, A: Allocator>(alloc: Global, kernel: KernelOf<C, A>, end: End) -> bool {
    let has = kernel_has(alloc, &kernel, end);
    leave_kernel(kernel);
    has
}

/// Whether a machine is closed, and its kernel has what is wanted.
pub fn closes_with<C: Handler>(
    machine: MachineOf<C, Global>,
    callers: Vec<CallerOf<C, Global>>,
    end: End,
) -> bool
    requires { All (λ c. c.machine ≡ machine) callers.items }
{
    let alloc = *callers.allocator();
    match machine.close(callers) {
        Ok(kernel) => has_at_last(alloc, kernel, end),
        Err((_, machine, callers)) => {
            leave(machine, callers);
            false
        }
    }
}

// Whether the machine of the row, once it is closed, has its history; or why it isn't closed, with its callers.
fn closed(
    alloc: Global,
    machine: Machine,
    callers: Vec<Caller>,
) -> Result<bool, (Refusal, Machine, Vec<Caller>)>
    requires { All (λ c. c.machine ≡ machine.of) callers.items }
    ensures { IfErr result (λ e. (e.1.of ≡ machine.of) × All (λ c. c.machine ≡ machine.of) e.2.items) }
{
    let alloc = *callers.allocator();
    match machine.close(callers) {
        Ok(kernel) => Ok(has_at_last(alloc, kernel, End::Row(alloc))),
        Err(open) => Err(open),
    }
}

// The machine with its callers, if it isn't closed; and whether that is for this reason, and all of them come back.
fn refused(
    alloc: Global,
    machine: Machine,
    callers: Vec<Caller>,
    why: Refusal,
) -> Option<(Machine, Vec<Caller>, bool)>
    requires { All (λ c. c.machine ≡ machine.of) callers.items }
    ensures { IfSome result (λ m. (m.0.of ≡ machine.of) × All (λ c. c.machine ≡ machine.of) m.1.items) }
{
    let count = callers.len();
    match closed(alloc, machine, callers) {
        Ok(_) => None,
        Err((refusal, machine, callers)) => {
            let told = refusal == why && callers.len() == count;
            Some((machine, callers, told))
        }
    }
}

// The first of some callers, which is taken away, or the last one.
fn one_of(machine: &Machine, callers: &mut Vec<Caller>, is_last: bool) -> Option<Caller>
    requires { All (λ c. c.machine ≡ machine.now.of) callers.old.items }
    ensures one { IfSome result (λ c. c.machine ≡ machine.now.of) }
    ensures rest { All (λ c. c.machine ≡ machine.now.of) callers.new.items }
{
    if is_last {
        last_of(&machine.of, callers)
    } else {
        first_of(&machine.of, callers)
    }
}

// Whether the first of those who are away, or the last, joins the callers.
fn joins(
    machine: &Machine,
    away: &mut Vec<Caller>,
    callers: &mut Vec<Caller>,
    is_last: bool,
) -> bool
    requires away { All (λ c. c.machine ≡ machine.now.of) away.old.items }
    requires callers { All (λ c. c.machine ≡ machine.now.of) callers.old.items }
    ensures away { All (λ c. c.machine ≡ machine.now.of) away.new.items }
    ensures callers { All (λ c. c.machine ≡ machine.now.of) callers.new.items }
{
    match one_of(machine, away, is_last) {
        Some(caller) => comes_back(&machine.of, callers, caller),
        None => false,
    }
}

// The machine with one caller more, if without that one it isn't closed; and whether that is so for want of a caller.
fn with_one_more(
    alloc: Global,
    machine: Machine,
    callers: Vec<Caller>,
    away: &mut Vec<Caller>,
    is_last: bool,
) -> Option<(Machine, Vec<Caller>, bool)>
    requires callers { All (λ c. c.machine ≡ machine.of) callers.items }
    requires away { All (λ c. c.machine ≡ machine.of) away.old.items }
    ensures more { IfSome result (λ m. (m.0.of ≡ machine.of) × All (λ c. c.machine ≡ machine.of) m.1.items) }
    ensures away { All (λ c. c.machine ≡ machine.of) away.new.items }
{
    match refused(alloc, machine, callers, Refusal::Invalid) {
        Some((machine, mut callers, told)) => {
            let joined = joins(&machine, away, &mut callers, is_last);
            Some((machine, callers, told && joined))
        }
        None => None,
    }
}

// Whether the machine of the row, which is closed with both callers, has its history.
fn has_row(alloc: Global, machine: Machine, both: Vec<Caller>) -> bool
    requires { All (λ c. c.machine ≡ machine.of) both.items }
{
    match closed(alloc, machine, both) {
        Ok(told) => told,
        Err((_, machine, callers)) => {
            leave(machine.of, callers);
            false
        }
    }
}

// Whether a machine of two callers is closed only once both are there, and has the row's history then; they come from
// the first one on, or from the last one on.
fn closes_with_both(
    alloc: Global,
    machine: Machine,
    none: Vec<Caller>,
    away: &mut Vec<Caller>,
    is_last: bool,
) -> bool
    requires none { All (λ c. c.machine ≡ machine.of) none.items }
    requires away { All (λ c. c.machine ≡ machine.of) away.old.items }
{
    let Some((machine, one, first)) = with_one_more(alloc, machine, none, away, is_last) else {
        return false;
    };
    let Some((machine, both, second)) = with_one_more(alloc, machine, one, away, is_last) else {
        return false;
    };
    let closed = has_row(alloc, machine, both);
    first && second && closed
}

// Whether the machine of the row is closed with both callers alone, in either order, and has its history.
fn is_row_closed<R: Wait>(rt: &R, alloc: Global, is_last: bool) -> bool {
    match made(alloc, board_with(2, NORMAL)) {
        Ok((machine, mut callers)) => {
            let mut passes = Passes::new(alloc);
            let told = is_core_row(rt, &machine, &mut callers, &mut passes);
            let closed = closes_with_both(alloc, machine, Vec::new(alloc), &mut callers, is_last);
            told && closed
        }
        Err(_) => false,
    }
}

#[test]
fn close_machine(rt: HostRuntime) {
    for is_last in [false, true] {
        assert!(rt; is_row_closed(&rt, rt.alloc(), is_last));
    }
}

// Whether the first caller, or the last, gets the kernel, and is dropped with it.
fn one_is_dropped(machine: &Machine, callers: &mut Vec<Caller>, is_last: bool) -> bool
    requires { All (λ c. c.machine ≡ machine.now.of) callers.old.items }
    ensures { All (λ c. c.machine ≡ machine.now.of) callers.new.items }
{
    match one_of(machine, callers, is_last) {
        Some(caller) => drops_the_kernel(&machine.of, caller),
        None => false,
    }
}

// Whether a machine isn't closed, since the core is busy.
fn is_busy(alloc: Global, machine: Machine, callers: Vec<Caller>) -> bool
    requires { All (λ c. c.machine ≡ machine.of) callers.items }
{
    match refused(alloc, machine, callers, Refusal::CoreBusy) {
        Some((machine, callers, told)) => {
            leave(machine.of, callers);
            told
        }
        None => false,
    }
}

// Whether a machine isn't closed of which one caller was dropped with the kernel.
fn stays_busy(alloc: Global, is_last: bool) -> bool {
    match made(alloc, board_with(2, NORMAL)) {
        Ok((machine, mut callers)) => {
            let dropped = one_is_dropped(&machine, &mut callers, is_last);
            let busy = is_busy(alloc, machine, callers);
            dropped && busy
        }
        Err(_) => false,
    }
}

#[test]
fn close_with_a_dropped_holder(rt: HostRuntime) {
    for is_last in [false, true] {
        assert!(rt; stays_busy(rt.alloc(), is_last));
    }
}
