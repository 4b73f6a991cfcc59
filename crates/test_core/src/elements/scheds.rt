//! Threads that are attached, charged, boosted and picked, and groups that run out.
use crate::rows::calls;
use evl_base::{Policy, Refusal, Stage, ThreadId};
use evl_sched::SchedOf;
use linked_list_allocator::LocalHeap;
use std::alloc::{Allocator, Global};

const ONE: ThreadId = ThreadId(1);

const TWO: ThreadId = ThreadId(2);

const RR: Policy = Policy::Rr {
    prio: 10,
    slice: 100,
};

const QUOTA: Policy = Policy::Quota { group: 0, prio: 5 };

/// All that is done, and its answer.
#[derive(Clone, Copy)]
pub(crate) enum Step {
    Attach(ThreadId, Policy, Result<(), Refusal>),
    Detach(ThreadId),
    SetPolicy(ThreadId, Policy),
    SetStage(ThreadId, Stage),
    Block(ThreadId),
    Ready(ThreadId),
    Boost(ThreadId, u16),
    Charge(u64),
    Refill,
    Pick(ThreadId),
    // who is picked, and blocked then
    Next(ThreadId),
    Eligible(bool),
    Base(ThreadId, u16),
    Rank(ThreadId, Result<u16, Refusal>),
    Stage(ThreadId, Stage),
}

// Whether a step is answered what it says.
fn is_told<A: Allocator>(sched: &mut SchedOf<A>, step: Step) -> bool {
    match step {
        Step::Attach(thread, policy, told) => sched.attach(thread, policy, Stage::Oob) == told,
        Step::Detach(thread) => sched.detach(thread).is_ok(),
        Step::SetPolicy(thread, policy) => sched.set_policy(thread, policy).is_ok(),
        Step::SetStage(thread, stage) => sched.set_stage(thread, stage).is_ok(),
        Step::Block(thread) => {
            sched.block(thread);
            true
        }
        Step::Ready(thread) => {
            sched.ready(thread);
            true
        }
        Step::Boost(thread, rank) => {
            sched.boost(thread, rank);
            true
        }
        Step::Charge(delta) => {
            sched.charge(delta);
            true
        }
        Step::Refill => {
            sched.refill();
            true
        }
        Step::Pick(thread) => sched.pick() == Some(thread),
        Step::Next(thread) => {
            let picked = sched.pick() == Some(thread);
            sched.block(thread);
            picked
        }
        Step::Eligible(told) => sched.eligible() == told,
        Step::Base(thread, rank) => sched.base(thread) == Ok(rank),
        Step::Rank(thread, told) => sched.rank(thread) == told,
        Step::Stage(thread, stage) => sched.stage(thread) == stage,
    }
}

// Whether each step is.
fn are_told<A: Allocator>(sched: &mut SchedOf<A>, steps: &[Step]) -> bool {
    for step in steps {
        if !is_told(sched, *step) {
            return false;
        }
    }
    true
}

// All that is asked of a new scheduler: that each step is answered so, or that it is full and takes no more of its
// heap.
#[derive(Clone, Copy)]
enum Asked<'a> {
    Steps(&'a [Step]),
    Full(&'a LocalHeap),
}

// Whether it is so.
fn is_so<A: Allocator>(sched: &mut SchedOf<A>, asked: Asked<'_>) -> bool {
    match asked {
        Asked::Steps(steps) => are_told(sched, steps),
        Asked::Full(heap) => only_new_takes(sched, heap),
    }
}

// Whether it is so of a new one, or why there is none.
fn is_so_of_new<A: Allocator + Clone>(
    alloc: A,
    threads: u16,
    groups: &[u8],
    asked: Asked<'_>,
) -> Result<bool, Refusal> {
    match SchedOf::new(alloc, threads, groups) {
        Ok(mut sched) => Ok(is_so(&mut sched, asked)),
        Err(refusal) => Err(refusal),
    }
}

/// Whether each step is answered what it says, of a new scheduler of eight threads.
pub(crate) fn is_row(alloc: Global, groups: &[u8], steps: &[Step]) -> bool {
    is_so_of_new(alloc, 8, groups, Asked::Steps(steps)) == Ok(true)
}

const INBAND_AND_BACK: [Step; 11] = calls![
    Attach(ONE, Policy::Fifo(99), Ok(())); Base(ONE, 611); Eligible(true);
    SetStage(ONE, Stage::Inband); Stage(ONE, Stage::Inband); Eligible(false);
    SetStage(ONE, Stage::Oob); SetPolicy(ONE, Policy::Weak(0)); Pick(ONE); Detach(ONE);
    Rank(ONE, Err(Refusal::Invalid));
];

#[test]
fn a_thread_goes_inband_and_back(rt: HostRuntime) {
    assert!(rt; is_row(rt.alloc(), &[], &INBAND_AND_BACK));
}

const BLOCKED: [Step; 10] = calls![
    Attach(ONE, Policy::Fifo(10), Ok(())); Attach(TWO, QUOTA, Ok(())); Block(ONE); Pick(TWO);
    Ready(ONE); Pick(ONE); Boost(TWO, 600); Rank(TWO, Ok(600)); Pick(TWO); Refill;
];

#[test]
fn a_blocked_thread_comes_back(rt: HostRuntime) {
    assert!(rt; is_row(rt.alloc(), &[10], &BLOCKED));
}

// The answers once 256 threads are attached.
const FULL: [Step; 3] = calls![
    Attach(ThreadId(256), RR, Err(Refusal::Unknown)); Charge(100); Pick(ONE);
];

// Whether 256 threads are attached, and no more; the first one is charged, and the next one picked.
fn is_full<A: Allocator>(sched: &mut SchedOf<A>) -> bool {
    for number in 0u16..256 {
        if !is_told(sched, Step::Attach(ThreadId(number), RR, Ok(()))) {
            return false;
        }
    }
    are_told(sched, &FULL)
}

// Whether a scheduler that is full takes no more of its heap than a new one.
fn only_new_takes<A: Allocator>(sched: &mut SchedOf<A>, heap: &LocalHeap) -> bool {
    let used = heap.used();
    is_full(sched) && heap.used() == used
}

// Whether a scheduler of 256 threads, over a heap of this size, comes to this, and the heap is empty then.
fn comes_to(alloc: Global, size: usize, groups: &[u8], told: Result<bool, Refusal>) -> bool {
    match LocalHeap::new(alloc, size) {
        Ok(heap) => {
            let came = is_so_of_new(&heap, 256, groups, Asked::Full(&heap)) == told;
            came && heap.used() == 0
        }
        Err(_) => false,
    }
}

// Only a new scheduler takes memory.
#[test]
fn only_new_takes_memory(rt: HostRuntime) {
    assert!(rt; comes_to(rt.alloc(), 262144, &[10, 20], Ok(true)));
    assert!(rt; comes_to(rt.alloc(), 64, &[], Err(Refusal::NoMemory)));
}

const ZERO: ThreadId = ThreadId(0);

const THREE: ThreadId = ThreadId(3);

const FOUR: ThreadId = ThreadId(4);

const TEN: Policy = Policy::Fifo(10);

const HIGHEST: Policy = Policy::Fifo(99);

// Thread 2 is boosted above the others and back again.
const COMES_BACK: [Step; 14] = calls![
    Attach(ZERO, TEN, Ok(())); Attach(ONE, TEN, Ok(())); Attach(TWO, TEN, Ok(()));
    Attach(THREE, TEN, Ok(())); Attach(FOUR, TEN, Ok(())); Boost(TWO, 600); Pick(TWO);
    Boost(TWO, 522); Next(ZERO); Next(ONE); Next(TWO); Next(THREE); Next(FOUR); Eligible(false);
];

#[test]
fn a_boost_that_ends_leaves_its_thread_in_the_middle(rt: HostRuntime) {
    assert!(rt; is_row(rt.alloc(), &[], &COMES_BACK));
}

// A thread that became ready between others of a greater rank is boosted to theirs.
const COMES_BETWEEN: [Step; 12] = calls![
    Attach(ZERO, TEN, Ok(())); Attach(ONE, TEN, Ok(())); Attach(TWO, Policy::Weak(3), Ok(()));
    Attach(THREE, TEN, Ok(())); Attach(FOUR, TEN, Ok(())); Boost(TWO, 522); Next(ZERO); Next(ONE);
    Next(TWO); Next(THREE); Next(FOUR); Eligible(false);
];

#[test]
fn a_boosted_thread_stands_where_it_became_ready(rt: HostRuntime) {
    assert!(rt; is_row(rt.alloc(), &[], &COMES_BETWEEN));
}

// Ranks above all policies' are distinct, and equal ones are in order.
const ARE_ABOVE: [Step; 14] = calls![
    Attach(ZERO, HIGHEST, Ok(())); Attach(ONE, HIGHEST, Ok(())); Attach(TWO, HIGHEST, Ok(()));
    Attach(THREE, HIGHEST, Ok(())); Attach(FOUR, HIGHEST, Ok(())); Boost(FOUR, 65535);
    Boost(ONE, 700); Boost(THREE, 700); Next(FOUR); Next(ONE); Next(THREE); Next(ZERO); Next(TWO);
    Eligible(false);
];

#[test]
fn ranks_above_those_of_policies_are_told_apart(rt: HostRuntime) {
    assert!(rt; is_row(rt.alloc(), &[], &ARE_ABOVE));
}

// Three threads of two ranks share a group, and a weak one has none.
const FIVE: Policy = Policy::Quota { group: 0, prio: 5 };

const NINE: Policy = Policy::Quota { group: 0, prio: 9 };

// The group runs out, and has its budget again.
const RUNS_OUT: [Step; 12] = calls![
    Attach(ZERO, FIVE, Ok(())); Attach(ONE, NINE, Ok(())); Attach(TWO, FIVE, Ok(()));
    Attach(THREE, Policy::Weak(1), Ok(())); Charge(10_000_000); Pick(THREE); Refill; Next(ONE);
    Next(ZERO); Next(TWO); Next(THREE); Eligible(false);
];

#[test]
fn a_group_that_is_refilled_has_its_threads_in_their_places(rt: HostRuntime) {
    assert!(rt; is_row(rt.alloc(), &[1], &RUNS_OUT));
}

// While the group is spent, one of its threads is boosted and one leaves.
const CHANGES_WHILE_SPENT: [Step; 13] = calls![
    Attach(ZERO, FIVE, Ok(())); Attach(ONE, NINE, Ok(())); Attach(TWO, FIVE, Ok(()));
    Attach(THREE, Policy::Weak(1), Ok(())); Charge(20_000_000); Boost(TWO, 600); Block(ONE);
    Pick(THREE); Refill; Next(TWO); Next(ZERO); Next(THREE); Eligible(false);
];

#[test]
fn a_spent_group_keeps_boosted_threads_out_too(rt: HostRuntime) {
    assert!(rt; is_row(rt.alloc(), &[1], &CHANGES_WHILE_SPENT));
}
