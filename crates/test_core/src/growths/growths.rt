//! Rows over memory of which one request is refused: the first, the second, and so on until a run makes no more.
ghost use Rattle.std.specs.Prelude.{◌≡◌};
ghost use Rattle.evl_kernel.specs.state.Callbacks.{AnswersByPlan};

use super::rows::{ROWS, Row};
use super::shown::{shown, shows};
use crate::refusing::Refusing;
use crate::short::{ENOUGH, is_all_back};
use evl_bank::{BankUser, with_program_bank};
use evl_base::{Board, Refusal};
use evl_kernel::KernelOf;
use evl_pipeline::{Callback, Handler};
use evl_scenario::{Scenario, Step, read_scenario, trace_history};
use linked_list_allocator::LocalHeap;
use std::alloc::{AllocError, Allocator, Global};
use std::sync::Wait;
use std::thread::Threads;

// More requests than a row makes.
const MANY: u64 = 100;

// The site where the refused request was met.
#[derive(Clone, Copy, PartialEq, Eq)]
enum Site {
    Opening,
    Room,
    Call,
    Nowhere,
}

// All that is asked of a kernel, and may be refused for memory: a step's call, or room for some calls.
#[derive(Drop)]
enum Asked {
    Call(Step),
    Room(usize),
}

// Asks for room for some calls, and answers why it is refused.
fn refusal_of_room<C: Handler, A: Allocator>(
    kernel: &mut KernelOf<C, A>,
    calls: usize,
) -> Option<Refusal>
    requires { AnswersByPlan C.declared C.plan kernel.old.callbacks }
    ensures { AnswersByPlan C.declared C.plan kernel.new.callbacks }
{
    kernel.reserve(calls).err()
}

// Whether what is asked is refused for memory.
fn is_refused<C: Handler, A: Allocator>(kernel: &mut KernelOf<C, A>, asked: Asked) -> bool
    requires { AnswersByPlan C.declared C.plan kernel.old.callbacks }
    ensures { AnswersByPlan C.declared C.plan kernel.new.callbacks }
{
    match asked {
        Asked::Call(Step { who, call }) => matches!(
            kernel.apply(who, call),
            Err(Refusal::NoMemory)
        ),
        Asked::Room(calls) => matches!(refusal_of_room(kernel, calls), Some(Refusal::NoMemory)),
    }
}

// Whether what is asked is refused for memory, and then is not when it is asked once more; none where the refusal
// changed something, or came twice.
fn is_refused_once<C: Handler, A: Allocator>(
    alloc: Global,
    kernel: &mut KernelOf<C, A>,
    asked: Asked,
    again: Asked,
) -> Option<bool>
    requires { AnswersByPlan C.declared C.plan kernel.old.callbacks }
    ensures { AnswersByPlan C.declared C.plan kernel.new.callbacks }
{
    let Ok(before) = shown(alloc, kernel) else {
        return None;
    };
    if !is_refused(kernel, asked) {
        return Some(false);
    }
    let same = shows(alloc, kernel, &before);
    let twice = is_refused(kernel, again);
    if same && !twice { Some(true) } else { None }
}

// Whether room for some calls is refused once, where it is asked for at all.
fn is_room_refused_once<C: Handler, A: Allocator>(
    alloc: Global,
    kernel: &mut KernelOf<C, A>,
    calls: usize,
    reserves: bool,
) -> Option<bool>
    requires { AnswersByPlan C.declared C.plan kernel.old.callbacks }
    ensures { AnswersByPlan C.declared C.plan kernel.new.callbacks }
{
    if reserves {
        is_refused_once(alloc, kernel, Asked::Room(calls), Asked::Room(calls))
    } else {
        Some(false)
    }
}

// How many calls of some steps were refused once; none where one changed something, or was refused twice.
fn refusals<C: Handler, A: Allocator>(
    alloc: Global,
    kernel: &mut KernelOf<C, A>,
    steps: Vec<Step>,
    again: Vec<Step>,
) -> Option<u32>
    requires { AnswersByPlan C.declared C.plan kernel.old.callbacks }
{
    let mut count = 0u32;
    for (step, once_more) in steps.into_iter().zip(again) {
        if is_refused_once(alloc, kernel, Asked::Call(step), Asked::Call(once_more))? {
            count = count.saturating_add(1);
        }
    }
    Some(count)
}

// The scenario of a row.
fn read(alloc: Global, row: &Row) -> Option<Scenario> {
    read_scenario(alloc, row.scenario.as_bytes(), None).ok()
}

fn steps_of(alloc: Global, row: &Row) -> Option<Vec<Step>> {
    Some(read(alloc, row)?.into_parts().2)
}

fn board_of(alloc: Global, row: &Row) -> Option<(Board, u32)> {
    let (board, limit, _steps) = read(alloc, row)?.into_parts();
    Some((board, limit))
}

// Whether the kernel's history has the trace of a row.
fn is_traced<C, A: Allocator>(alloc: Global, kernel: &KernelOf<C, A>, row: &Row) -> bool {
    let Some((board, limit)) = board_of(alloc, row) else {
        return false;
    };
    let Ok(entries) = kernel.history().to_vec(alloc) else {
        return false;
    };
    match trace_history(alloc, &board, limit, entries.as_slice(), kernel.plays()) {
        Ok(trace) => trace.as_str() == row.trace,
        Err(_) => false,
    }
}

// The site where a run met the refusal, by whether its room and how many of its calls were refused; none where a call
// was refused in spite of its room.
fn site_of(reserves: bool, room: bool, calls: u32) -> Option<Site> {
    match (room, calls) {
        (false, 0) => Some(Site::Nowhere),
        (true, 0) => Some(Site::Room),
        (false, 1) if !reserves => Some(Site::Call),
        _ => None,
    }
}

// The site where these steps of a row met the refusal, which are made once more where memory was refused; none where
// something else came of them than the row's trace.
fn met_by_steps<C: Handler, A: Allocator>(
    alloc: Global,
    kernel: &mut KernelOf<C, A>,
    row: &Row,
    reserves: bool,
    steps: (Vec<Step>, Vec<Step>),
) -> Option<Site>
    requires { AnswersByPlan C.declared C.plan kernel.old.callbacks }
{
    let (steps, again) = steps;
    let room = is_room_refused_once(alloc, kernel, steps.len(), reserves);
    let calls = refusals(alloc, kernel, steps, again);
    let is_traced = is_traced(alloc, kernel, row);
    match (room, calls) {
        (Some(room), Some(calls)) if is_traced => site_of(reserves, room, calls),
        _ => None,
    }
}

// The site where the calls of a row did.
fn met_by_calls<C: Handler, A: Allocator>(
    alloc: Global,
    kernel: &mut KernelOf<C, A>,
    row: &Row,
    reserves: bool,
) -> Option<Site>
    requires { AnswersByPlan C.declared C.plan kernel.old.callbacks }
{
    match (steps_of(alloc, row), steps_of(alloc, row)) {
        (Some(steps), Some(again)) => met_by_steps(alloc, kernel, row, reserves, (steps, again)),
        _ => None,
    }
}

// The site where a row on a new kernel met the refusal.
fn met_by_row<C: Handler, A: Allocator + Clone>(
    alloc: Global,
    memory: A,
    bank: Vec<C, A>,
    row: &Row,
    reserves: bool,
) -> Option<Site> {
    let (board, limit) = board_of(alloc, row)?;
    match KernelOf::over(memory, alloc, board, bank, limit) {
        Ok(mut kernel) => {
            let met = met_by_calls(alloc, &mut kernel, row, reserves);
            drop(kernel);
            met
        }
        Err(Refusal::NoMemory) => Some(Site::Opening),
        Err(_) => None,
    }
}

// The callbacks in a list over other memory, which is asked for once.
fn moved<C: Drop, A: Allocator>(memory: A, bank: Vec<C>) -> Result<Vec<C, A>, AllocError> {
    let mut kept = Vec::new(memory);
    kept.reserve(bank.len())?;
    for callback in bank {
        kept.push(callback)?;
    }
    Ok(kept)
}

// A row over memory of which one request is refused; whether room for its calls is asked for ahead of them.
#[derive(Drop)]
struct Run<'a> {
    alloc: Global,
    memory: &'a Refusing<LocalHeap>,
    row: &'a Row,
    reserves: bool,
}

impl<'a> BankUser for Run<'a> {
    ghost use Rattle.std.specs.Prelude.{⊤};

    type Output = Option<Site>;

    ghost makes = { λ run bank output. ⊤ };

    fn take<R: Threads + Wait + Sync>(self, rt: &R, bank: Vec<Callback>) -> Option<Site> {
        let _ = rt;
        match moved(self.memory, bank) {
            Ok(bank) => met_by_row(self.alloc, self.memory, bank, self.row, self.reserves),
            Err(_) => Some(Site::Opening),
        }
    }
}

// The site where a row meets the refusal of this memory; none where it is met by nobody, or something stays taken.
fn met_over<R: Threads + Wait + Sync>(
    rt: &R,
    alloc: Global,
    memory: &Refusing<LocalHeap>,
    row: &Row,
    reserves: bool,
) -> Option<Site> {
    let run = Run {
        alloc,
        memory,
        row,
        reserves,
    };
    match with_program_bank(rt, alloc, run) {
        Ok(Some(met)) if is_all_back(memory, met != Site::Nowhere) => Some(met),
        _ => None,
    }
}

// The site where a row meets the refusal of memory that refuses the request after so many.
fn met<R: Threads + Wait + Sync>(
    rt: &R,
    alloc: Global,
    row: &Row,
    reserves: bool,
    granted: u64,
) -> Option<Site> {
    match LocalHeap::new(alloc, ENOUGH) {
        Ok(heap) => met_over(rt, alloc, &Refusing::after(heap, granted), row, reserves),
        Err(_) => None,
    }
}

// How many requests the opening, the room and the calls of a row make, each of which was refused in one run.
fn requests<R: Threads + Wait + Sync>(
    rt: &R,
    alloc: Global,
    row: &Row,
    reserves: bool,
) -> Option<[u32; 3]> {
    let mut opening = 0u32;
    let mut room = 0u32;
    let mut calls = 0u32;
    for granted in 0..MANY {
        match met(rt, alloc, row, reserves, granted)? {
            Site::Opening => opening = opening.saturating_add(1),
            Site::Room => room = room.saturating_add(1),
            Site::Call => calls = calls.saturating_add(1),
            Site::Nowhere => return Some([opening, room, calls]),
        }
    }
    None
}

// Each call is refused with nothing changed, or answers as the row has it, and so does a call that was refused before;
// what was taken for an opening that is refused goes back.
#[test]
fn each_request_is_refused_once(rt: HostRuntime) {
    for row in ROWS.as_slice() {
        let [opening, _, calls] = row.requests;
        assert!(rt;
            requests(&rt, rt.alloc(), row, false) == Some([opening, 0, calls]),
            "{}",
            row.scenario
        );
    }
}

// Room for all calls of a row is refused with nothing changed, or made; then no call is refused.
#[test]
fn each_request_for_room_is_refused_once(rt: HostRuntime) {
    for row in ROWS.as_slice() {
        let [opening, room, _] = row.requests;
        assert!(rt;
            requests(&rt, rt.alloc(), row, true) == Some([opening, room, 0]),
            "{}",
            row.scenario
        );
    }
}
