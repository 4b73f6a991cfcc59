//! A row: phases over a new machine, the heap that it is made over, and how machines and kernels go: each in a function that
//! does nothing else, since what such a value has is let go on each way through a body on which it ends.
ghost use Rattle.std.specs.Prelude.{◌≡◌, All, IfOk};
ghost use Rattle.evl_kernel.specs.state.Callbacks.{AnswersByPlan};

use super::boards::board_with;
use super::passes::Passes;
use super::phases::{Phase, Side, answers_by, is_left};
use crate::short::ENOUGH;
use evl_base::{Board, MutexKind, Refusal};
use evl_kernel::KernelOf;
use evl_machine::{CallerOf, MachineOf};
use evl_pipeline::{Callback, Handler};
use linked_list_allocator::LocalHeap;
use std::alloc::{Allocator, Global};
use std::sync::Wait;

/// A machine over a board and a bank, with its callers.
pub fn made<C: Handler, A: Allocator + Clone>(
    alloc: A,
    boxes: Global,
    board: Board,
    bank: Vec<C, A>,
    limit: u32,
) -> Result<(MachineOf<C, A>, Vec<CallerOf<C, A>, A>), Refusal>
    ensures callers { IfOk result (λ m. All (λ c. c.machine ≡ m.0) m.1.items) }
    ensures by_plan { IfOk result (λ m. AnswersByPlan C.declared C.plan m.0.first.callbacks) }
{
    match MachineOf::over(alloc, boxes, board, bank, limit) {
        Ok(made) => Ok(made),
        Err(refusal) => Err(refusal),
    }
}

// Whether a phase is answered as it is wanted, and leaves what is wanted.
fn is_phase<C: Handler, A: Allocator, R: Wait>(
    rt: &R,
    memory: Memory<'_>,
    machine: &MachineOf<C, A>,
    callers: &mut Vec<CallerOf<C, A>, A>,
    passes: &mut Passes,
    phase: &Phase<'_>,
) -> bool
    requires callers { All (λ c. c.machine ≡ machine.now) callers.old.items }
    requires by_plan { AnswersByPlan C.declared C.plan machine.now.first.callbacks }
    ensures { All (λ c. c.machine ≡ machine.now) callers.new.items }
{
    let told = answers_by(rt, memory, machine, callers, passes, phase.0, phase.1);
    let left = is_left(machine, callers, phase.2);
    told && left
}

// Whether phases are answered and leave what is wanted, one after another.
fn are_phases<C: Handler, A: Allocator, R: Wait>(
    rt: &R,
    memory: Memory<'_>,
    machine: &MachineOf<C, A>,
    callers: &mut Vec<CallerOf<C, A>, A>,
    passes: &mut Passes,
    phases: &[Phase<'_>],
) -> bool
    requires callers { All (λ c. c.machine ≡ machine.now) callers.old.items }
    requires by_plan { AnswersByPlan C.declared C.plan machine.now.first.callbacks }
    ensures { All (λ c. c.machine ≡ machine.now) callers.new.items }
{
    for phase in phases {
        if !is_phase(rt, memory, machine, callers, passes, phase) {
            return false;
        }
    }
    true
}

// The same over a new machine.
fn is_row_of<C: Handler, A: Allocator + Clone, R: Wait>(
    rt: &R,
    memory: Memory<'_>,
    alloc: A,
    board: Board,
    bank: Vec<C, A>,
    limit: u32,
    phases: &[Phase<'_>],
) -> bool {
    match made(alloc, memory.boxes, board, bank, limit) {
        Ok((machine, mut callers)) => {
            let mut passes = Passes::new(memory.boxes);
            let told = are_phases(rt, memory, &machine, &mut callers, &mut passes, phases);
            leave(machine, callers);
            told
        }
        Err(_) => false,
    }
}

// The same over a heap, with no callbacks. The last of the four callers looks and has the core.
fn is_row_over<R: Wait>(
    rt: &R,
    memory: Memory<'_>,
    first: MutexKind,
    limit: u32,
    phases: &[Phase<'_>],
) -> bool {
    let bank: Vec<Callback, &LocalHeap> = Vec::new(memory.heap);
    is_row_of(
        rt,
        memory,
        memory.heap,
        board_with(4, first),
        bank,
        limit,
        phases,
    )
}

/// Whether the phases are answered as it is wanted by a new machine, whose first mutex is of this kind and whose history
/// has so many entries at most, and leave what is wanted.
pub fn is_row<R: Wait>(
    rt: &R,
    boxes: Global,
    first: MutexKind,
    limit: u32,
    phases: &[Phase<'_>],
) -> bool {
    match LocalHeap::new(boxes, ENOUGH) {
        Ok(heap) => {
            let memory = Memory { heap: &heap, boxes };
            is_row_over(rt, memory, first, limit, phases)
        }
        Err(_) => false,
    }
}

/// A machine goes, with its callers.
pub fn leave<C: Drop, A: Allocator>(machine: MachineOf<C, A>, callers: Vec<CallerOf<C, A>, A>) {
    drop(machine);
    drop(callers);
}

/// A kernel goes.
pub fn leave_kernel<C: Drop, A: Allocator>(kernel: KernelOf<C, A>) {
    drop(kernel);
}

/// Why there is no machine; none where there is one, which goes.
pub fn why_none<C: Drop, A: Allocator>(
    made: Result<(MachineOf<C, A>, Vec<CallerOf<C, A>, A>), Refusal>,
) -> Option<Refusal> {
    match made {
        Ok((machine, callers)) => {
            leave(machine, callers);
            None
        }
        Err(refusal) => Some(refusal),
    }
}

/// A heap, and where lies what isn't taken from it.
#[derive(Clone, Copy)]
pub struct Memory<'a> {
    pub heap: &'a LocalHeap,
    pub boxes: Global,
}

impl<'a> Memory<'a> {
    /// All that the heap has left where there is to be no memory, and else nothing.
    pub fn taken_for(self, side: Side) -> Vec<Vec<u8, &'a LocalHeap>> {
        let mut pieces = Vec::new(self.boxes);
        if matches!(side, Side::Short | Side::AppliedShort) {
            takes_all(self.heap, &mut pieces);
        }
        pieces
    }
}

// All that a heap has left comes to the pieces.
fn takes_all<'a>(heap: &'a LocalHeap, pieces: &mut Vec<Vec<u8, &'a LocalHeap>>) {
    for size in [131_072, 32_768, 8_192, 2_048, 512, 128, 32, 16] {
        takes_pieces(heap, pieces, size);
    }
}

// Pieces of a size, as many as a heap has left.
fn takes_pieces<'a>(heap: &'a LocalHeap, pieces: &mut Vec<Vec<u8, &'a LocalHeap>>, size: usize) {
    for _ in 0..64 {
        match Vec::with_capacity(heap, size) {
            Ok(piece) => {
                let _ = pieces.push(piece);
            }
            Err(_) => return,
        }
    }
}
