//! The reports of a kernel's readers, as one list of numbers.
use evl_base::{LineNo, MutexId, Stage, ThreadId, TimerId};
use evl_clock::TimerState;
use evl_kernel::KernelOf;
use std::alloc::{AllocError, Allocator, Global};

// One more than there can be of lines, of which there are most, and of threads, of which there are more than of timers and
// mutexes.
const LINE_NUMBERS: u16 = 4097;

const NUMBERS: u16 = 257;

// The report of the whole.
fn whole<C, A: Allocator>(kernel: &KernelOf<C, A>) -> [u64; 4] {
    [
        kernel.history().len() as u64,
        kernel.plays().len() as u64,
        u64::from(kernel.stalled(Stage::Inband)),
        u64::from(kernel.stalled(Stage::Oob)),
    ]
}

// The report of a line.
fn of_line<C, A: Allocator>(kernel: &KernelOf<C, A>, line: LineNo) -> [u64; 5] {
    [
        u64::from(kernel.pending(Stage::Inband, line)),
        u64::from(kernel.pending(Stage::Oob, line)),
        kernel.unhandled(line, Stage::Inband),
        kernel.unhandled(line, Stage::Oob),
        kernel.spurious(line),
    ]
}

// The report of a timer.
fn of_timer<C, A: Allocator>(kernel: &KernelOf<C, A>, timer: TimerId) -> [u64; 3] {
    match kernel.timer(timer) {
        None => [0, 0, 0],
        Some(TimerState::Idle) => [1, 0, 0],
        Some(TimerState::Running { date, interval }) => [2, date, interval],
        Some(TimerState::Ended) => [3, 0, 0],
    }
}

// The report of a thread.
fn of_thread<C, A: Allocator>(kernel: &KernelOf<C, A>, thread: ThreadId) -> [u64; 4] {
    [
        u64::from(kernel.stage(thread) == Stage::Oob),
        u64::from(kernel.waits(thread)),
        u64::from(kernel.finished(thread)),
        u64::from(kernel.timed_out(thread)),
    ]
}

// The report of a mutex: who owns it, from 1, and how many wait.
fn of_mutex<C, A: Allocator>(kernel: &KernelOf<C, A>, mutex: MutexId) -> [u64; 2] {
    let owner = match kernel.owner(mutex) {
        None => 0,
        Some(thread) => u64::from(thread.0) + 1,
    };
    [owner, kernel.waiters(mutex) as u64]
}

// The report of the timer, the thread and the mutex of a number comes to the list.
fn add<C, A: Allocator>(
    told: &mut Vec<u64>,
    kernel: &KernelOf<C, A>,
    number: u16,
) -> Result<(), AllocError> {
    told.extend_from_slice(of_timer(kernel, TimerId(number)).as_slice())?;
    told.extend_from_slice(of_thread(kernel, ThreadId(number)).as_slice())?;
    told.extend_from_slice(of_mutex(kernel, MutexId(number)).as_slice())
}

// The report of each number and of each line comes to the list.
fn add_all<C, A: Allocator>(
    told: &mut Vec<u64>,
    kernel: &KernelOf<C, A>,
) -> Result<(), AllocError> {
    told.extend_from_slice(whole(kernel).as_slice())?;
    for line in 0..LINE_NUMBERS {
        told.extend_from_slice(of_line(kernel, LineNo(line)).as_slice())?;
    }
    for number in 0..NUMBERS {
        add(told, kernel, number)?;
    }
    Ok(())
}

/// All that the readers report of each line, timer, thread and mutex that there can be.
pub(crate) fn shown<C, A: Allocator>(
    alloc: Global,
    kernel: &KernelOf<C, A>,
) -> Result<Vec<u64>, AllocError> {
    let mut told = Vec::new(alloc);
    add_all(&mut told, kernel)?;
    Ok(told)
}

/// Whether all readers report just this.
pub(crate) fn shows<C, A: Allocator>(
    alloc: Global,
    kernel: &KernelOf<C, A>,
    before: &Vec<u64>,
) -> bool {
    match shown(alloc, kernel) {
        Ok(told) => told.as_slice() == before.as_slice(),
        Err(_) => false,
    }
}
