//! Digests of moments, and of how kernels stand.
use crate::moments::Moment;
use evl_base::{Board, FlagId, MutexId, SemId, Stage, ThreadId, Way, XbufId};
use evl_kernel::{Awaited, KernelOf};
use std::alloc::Global;

// The start of a digest.
const START: u64 = 14_695_981_039_346_656_037;

// The number that a digest is multiplied by.
const FACTOR: u64 = 1_099_511_628_211;

// A digest with a number more.
fn with_number(digest: u64, number: u64) -> u64 {
    (digest ^ number).wrapping_mul(FACTOR)
}

// A digest with some numbers more.
fn with_numbers(digest: u64, numbers: &[usize]) -> u64 {
    let mut all = digest;
    for number in numbers {
        all = with_number(all, *number as u64);
    }
    all
}

// A digest with all bytes of a text more.
fn with_text(digest: u64, text: &str) -> u64 {
    let mut all = digest;
    for byte in text.as_bytes() {
        all = with_number(all, u64::from(*byte));
    }
    with_number(all, 256)
}

// A digest with a thread more, if there is one.
fn with_thread(digest: u64, thread: Option<ThreadId>) -> u64 {
    match thread {
        Some(thread) => with_number(digest, u64::from(thread.0)),
        None => with_number(digest, 65_536),
    }
}

// A digest with the first threads of a queue more.
fn with_queue<C>(digest: u64, kernel: &KernelOf<C, Global>, on: Awaited) -> u64 {
    let mut all = digest;
    for place in 0..4 {
        all = with_thread(all, kernel.waiter(on, place));
    }
    all
}

// A digest with the state of each thread of a board added.
fn with_threads<C>(digest: u64, kernel: &KernelOf<C, Global>, count: u16) -> u64 {
    let mut all = digest;
    for number in 0..count {
        let thread = ThreadId(number);
        all = with_number(all, u64::from(kernel.rank(thread).unwrap_or(0)));
        all = with_number(all, u64::from(kernel.ready(thread)));
        all = with_number(all, u64::from(kernel.waits(thread)));
        all = with_number(all, u64::from(kernel.finished(thread)));
        all = with_number(all, u64::from(kernel.timed_out(thread)));
    }
    all
}

// A digest with the counts and queues of a board's semaphores more.
fn with_sems<C>(digest: u64, kernel: &KernelOf<C, Global>, count: u16) -> u64 {
    let mut all = digest;
    for number in 0..count {
        let sem = SemId(number);
        let there = kernel.count(sem).unwrap_or(0);
        all = with_number(all, there.unsigned_abs());
        all = with_queue(all, kernel, Awaited::Sem(sem));
    }
    all
}

// A digest with the bits and queues of a board's flag groups more.
fn with_flags<C>(digest: u64, kernel: &KernelOf<C, Global>, count: u16) -> u64 {
    let mut all = digest;
    for number in 0..count {
        let flags = FlagId(number);
        let bits = kernel.bits(flags).unwrap_or(0);
        all = with_number(all, u64::from(bits));
        all = with_queue(all, kernel, Awaited::Flags(flags));
    }
    all
}

// A digest with how many bytes stand in a way of a cross-buffer more, and who waits there.
fn with_way<C>(digest: u64, kernel: &KernelOf<C, Global>, xbuf: XbufId, way: Way) -> u64 {
    let there = kernel.there(xbuf, way).unwrap_or(0);
    let all = with_number(digest, there as u64);
    let all = with_queue(all, kernel, Awaited::Writing(xbuf, way));
    with_queue(all, kernel, Awaited::Reading(xbuf, way))
}

// A digest with how a board's cross-buffers stand more.
fn with_xbufs<C>(digest: u64, kernel: &KernelOf<C, Global>, count: u16) -> u64 {
    let mut all = digest;
    for number in 0..count {
        let xbuf = XbufId(number);
        all = with_way(all, kernel, xbuf, Way::In);
        all = with_way(all, kernel, xbuf, Way::Out);
    }
    all
}

// A digest with the owners and queues of a board's mutexes more.
fn with_mutexes<C>(digest: u64, kernel: &KernelOf<C, Global>, count: u16) -> u64 {
    let mut all = digest;
    for number in 0..count {
        let mutex = MutexId(number);
        all = with_thread(all, kernel.owner(mutex));
        all = with_queue(all, kernel, Awaited::Mutex(mutex));
    }
    all
}

// How many elements of a kind there are; the digest is of the first ones alone where there are more.
fn few(count: usize) -> u16 {
    u16::try_from(count).unwrap_or(u16::MAX)
}

// A digest with the threads of the ready list more, in their order.
fn with_ready<C>(alloc: Global, digest: u64, kernel: &KernelOf<C, Global>) -> u64 {
    let mut ready = Vec::new(alloc);
    let Ok(()) = kernel.ready_threads(&mut ready) else {
        return digest;
    };
    let mut all = digest;
    for thread in &ready {
        all = with_number(all, u64::from(thread.0));
    }
    all
}

// A digest with the date and the stalls of both stages.
fn with_stages<C>(digest: u64, kernel: &KernelOf<C, Global>) -> u64 {
    let date = with_number(digest, kernel.now());
    let oob = with_number(date, u64::from(kernel.stalled(Stage::Oob)));
    with_number(oob, u64::from(kernel.stalled(Stage::Inband)))
}

/// A number that is the same for kernels that stand alike, and seldom for others.
pub(crate) fn standing_of<C>(alloc: Global, kernel: &KernelOf<C, Global>, board: &Board) -> u64 {
    let stages = with_stages(START, kernel);
    let ready = with_ready(alloc, stages, kernel);
    let threads = with_threads(with_thread(ready, kernel.picked()), kernel, board.threads);
    let sems = with_sems(threads, kernel, few(board.sems.len()));
    let flags = with_flags(sems, kernel, few(board.flags.len()));
    let xbufs = with_xbufs(flags, kernel, few(board.xbufs.len()));
    with_mutexes(xbufs, kernel, few(board.mutexes.len()))
}

/// A number that is the same for moments that are.
pub(crate) fn digest_of(moment: &Moment) -> u64 {
    let mut all = with_numbers(START, moment.made.as_slice());
    for text in &moment.answers {
        all = with_text(all, text.as_str());
    }
    with_number(all, moment.standing)
}
