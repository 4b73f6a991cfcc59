//! A row over memory of which one request is refused, at any of its steps: the step is made once more, and all steps are
//! answered as they are with memory enough.
ghost use Rattle.std.specs.Prelude.{◌≡◌, All};
ghost use Rattle.evl_kernel.specs.state.Callbacks.{AnswersByPlan};

use super::acts::Act::{Begin, Finish, Lock, Unlock, UnlockFast};
use super::acts::{AGAIN, BUSY, DONE, PASSED, SHORT, WAITING};
use super::boards::{ATTACH, FIRST, NORMAL, board_with};
use super::passes::Passes;
use super::phases::{Left, Step, answer, is_left};
use super::rows::{leave, made};
use crate::refusing::Refusing;
use crate::rows::steps;
use crate::short::{ENOUGH, is_all_back};
use evl_base::{Board, Refusal};
use evl_machine::{CallerOf, MachineOf};
use evl_pipeline::{Callback, Handler};
use linked_list_allocator::LocalHeap;
use std::alloc::{Allocator, Global};
use std::sync::Wait;

// More requests than the row makes.
const MANY: u64 = 200;

// The site where the refused request was met.
#[derive(Clone, Copy, PartialEq, Eq)]
enum Site {
    Opening,
    Call,
    Nowhere,
}

// The row `contended_mutex`.
const CONTENDED_MUTEX: [Step; 9] = steps![
    0 ATTACH => DONE, 1 ATTACH => DONE, 0 Lock(FIRST) => PASSED, 1 Begin(FIRST, None) => WAITING,
    1 Finish => AGAIN, 0 UnlockFast(FIRST) => BUSY, 0 Unlock(FIRST) => DONE, 1 Finish => PASSED,
    1 UnlockFast(FIRST) => DONE,
];

// Its five calls of the kernel remain, and nobody has the mutex.
const LEFT: Left = Left::Free(5);

// Whether a step is refused for memory, and then answered as it is wanted when it is made once more; none where it is
// answered otherwise.
fn is_refused_once<C: Handler, A: Allocator, R: Wait>(
    rt: &R,
    machine: &MachineOf<C, A>,
    callers: &mut Vec<CallerOf<C, A>, A>,
    passes: &mut Passes,
    step: &Step,
) -> Option<bool>
    requires callers { All (λ c. c.machine ≡ machine.now) callers.old.items }
    requires by_plan { AnswersByPlan C.declared C.plan machine.now.first.callbacks }
    ensures { All (λ c. c.machine ≡ machine.now) callers.new.items }
{
    let (number, act, wanted) = *step;
    let told = answer(rt, machine, callers, passes, number, act);
    if told == wanted {
        return Some(false);
    }
    if told != SHORT {
        return None;
    }
    let again = answer(rt, machine, callers, passes, number, act);
    if again == wanted { Some(true) } else { None }
}

// How many of some steps were refused once; none where one was answered otherwise.
fn refusals<C: Handler, A: Allocator, R: Wait>(
    rt: &R,
    machine: &MachineOf<C, A>,
    callers: &mut Vec<CallerOf<C, A>, A>,
    passes: &mut Passes,
    steps: &[Step],
) -> Option<u32>
    requires callers { All (λ c. c.machine ≡ machine.now) callers.old.items }
    requires by_plan { AnswersByPlan C.declared C.plan machine.now.first.callbacks }
    ensures { All (λ c. c.machine ≡ machine.now) callers.new.items }
{
    let mut count = 0u32;
    for step in steps {
        match is_refused_once(rt, machine, callers, passes, step) {
            Some(true) => count = count.saturating_add(1),
            Some(false) => {}
            None => return None,
        }
    }
    Some(count)
}

// The site where a machine's calls met the refusal, if what is left is wanted; a row meets it once at most.
fn met_by_calls<C: Handler, A: Allocator, R: Wait>(
    rt: &R,
    boxes: Global,
    machine: &MachineOf<C, A>,
    callers: &mut Vec<CallerOf<C, A>, A>,
) -> Option<Site>
    requires callers { All (λ c. c.machine ≡ machine.now) callers.old.items }
    requires by_plan { AnswersByPlan C.declared C.plan machine.now.first.callbacks }
    ensures { All (λ c. c.machine ≡ machine.now) callers.new.items }
{
    let mut passes = Passes::new(boxes);
    let count = refusals(rt, machine, callers, &mut passes, &CONTENDED_MUTEX);
    let left = is_left(machine, callers, LEFT);
    match count {
        Some(0) if left => Some(Site::Nowhere),
        Some(1) if left => Some(Site::Call),
        _ => None,
    }
}

// The site where the row on a new machine met it.
fn met_by_row<C: Handler, A: Allocator + Clone, R: Wait>(
    rt: &R,
    boxes: Global,
    memory: A,
    board: Board,
    bank: Vec<C, A>,
) -> Option<Site> {
    match made(memory, boxes, board, bank, 100) {
        Ok((machine, mut callers)) => {
            let met = met_by_calls(rt, boxes, &machine, &mut callers);
            leave(machine, callers);
            met
        }
        Err(Refusal::NoMemory) => Some(Site::Opening),
        Err(_) => None,
    }
}

// The site where the row meets the refusal of this memory; none where something stays taken. The last of its three
// callers looks.
fn met_over<R: Wait>(rt: &R, boxes: Global, memory: &Refusing<LocalHeap>) -> Option<Site> {
    let bank: Vec<Callback, &Refusing<LocalHeap>> = Vec::new(memory);
    let met = met_by_row(rt, boxes, memory, board_with(3, NORMAL), bank)?;
    if is_all_back(memory, met != Site::Nowhere) {
        Some(met)
    } else {
        None
    }
}

// The site where the row meets the refusal of memory that refuses the request after so many.
fn met<R: Wait>(rt: &R, alloc: Global, granted: u64) -> Option<Site> {
    match LocalHeap::new(alloc, ENOUGH) {
        Ok(heap) => met_over(rt, alloc, &Refusing::after(heap, granted)),
        Err(_) => None,
    }
}

// How many requests the opening of the row and its calls make, each of which was refused in one run.
fn requests<R: Wait>(rt: &R, alloc: Global) -> Option<[u32; 2]> {
    let mut opening = 0u32;
    let mut calls = 0u32;
    for granted in 0..MANY {
        match met(rt, alloc, granted)? {
            Site::Opening => opening = opening.saturating_add(1),
            Site::Call => calls = calls.saturating_add(1),
            Site::Nowhere => return Some([opening, calls]),
        }
    }
    None
}

#[test]
fn each_request_of_a_contended_mutex_is_refused_once(rt: HostRuntime) {
    assert!(rt; requests(&rt, rt.alloc()) == Some([70, 6]));
}
