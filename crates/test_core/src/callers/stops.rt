//! The places where the beginning of a lock may stop, its end, once the mutex was handed on or the deadline came, and
//! its unlocking, at which the pass comes back.
use super::acts::Act::{Begin, Finish, Lock, LockAtLast, Lose, Unlock, UnlockAtLast, UnlockFast};
use super::acts::{
    AGAIN, Act, Ask, BUSY, CORE_BUSY, DEADLOCK, DONE, FULL, PASSED, SHORT, TIMED_OUT, WAITING,
};
use super::boards::{ATTACH, ATTACHED, CEILING, CONTENDED, FIRST, GROWN, NORMAL, PUT, SECOND};
use super::phases::{Left, Phase, Side, Step, listed, phases};
use super::rows::is_row;
use crate::rows::steps;

// A mutex with a ceiling is tried, and begun, while the core is held: the word stays free, and the next try takes it
// and is reported to the kernel.
const TRIED_WHILE_HELD: [Phase<'_>; 3] = phases![
    Free (&ATTACHED) Left::Free(2);
    Held [0 Lock(FIRST) => CORE_BUSY, 1 Begin(FIRST, None) => CORE_BUSY] Left::Free(2);
    Free [0 Lock(FIRST) => PASSED] Left::Raised(3, 0);
];

#[test]
fn ceiling_is_tried_while_the_core_is_held(rt: HostRuntime) {
    assert!(rt; is_row(&rt, rt.alloc(), CEILING, 100, &TRIED_WHILE_HELD));
}

// The same in a full history: the word stays free for good.
const TRIED_IN_FULL: [Phase<'_>; 2] = phases![
    Free (&ATTACHED) Left::Free(2);
    Free [0 Lock(FIRST) => FULL, 1 Begin(FIRST, None) => FULL,
        1 LockAtLast(FIRST, None) => FULL] Left::Free(2);
];

#[test]
fn ceiling_is_tried_in_a_full_history(rt: HostRuntime) {
    assert!(rt; is_row(&rt, rt.alloc(), CEILING, 2, &TRIED_IN_FULL));
}

// The same without memory.
const TRIED_SHORT: [Phase<'_>; 3] = phases![
    Free (&GROWN) Left::Free(4);
    Short [0 Lock(FIRST) => SHORT, 1 Begin(FIRST, None) => SHORT,
        1 LockAtLast(FIRST, None) => SHORT] Left::Free(4);
    Free [1 Begin(FIRST, None) => PASSED] Left::Raised(5, 1);
];

#[test]
fn ceiling_is_tried_without_memory(rt: HostRuntime) {
    assert!(rt; is_row(&rt, rt.alloc(), CEILING, 100, &TRIED_SHORT));
}

// A mutex with a ceiling that another has: the try leaves no mark and no entry, and comes through once it is free.
const TRIED_WHILE_TAKEN: [Phase<'_>; 4] = phases![
    Free (&ATTACHED) Left::Free(2);
    Free [0 Lock(FIRST) => PASSED] Left::Raised(3, 0);
    Free [1 Lock(FIRST) => BUSY] Left::Raised(3, 0);
    Free [0 Unlock(FIRST) => DONE, 1 Lock(FIRST) => PASSED] Left::Raised(5, 1);
];

#[test]
fn taken_ceiling_is_tried(rt: HostRuntime) {
    assert!(rt; is_row(&rt, rt.alloc(), CEILING, 100, &TRIED_WHILE_TAKEN));
}

// A lock begins while the core is held: the mutex isn't claimed, so its owner needs no kernel to unlock it, and the
// next beginning has it.
const BEGUN_WHILE_HELD: [Phase<'_>; 4] = phases![
    Free (&ATTACHED) Left::Free(2);
    Free [0 Lock(FIRST) => PASSED] Left::Owned(2, 0);
    Held [1 Lock(FIRST) => BUSY, 1 Begin(FIRST, None) => CORE_BUSY] Left::Owned(2, 0);
    Free [0 UnlockFast(FIRST) => DONE, 1 Begin(FIRST, None) => PASSED] Left::Owned(2, 1);
];

#[test]
fn lock_begins_while_the_core_is_held(rt: HostRuntime) {
    assert!(rt; is_row(&rt, rt.alloc(), NORMAL, 100, &BEGUN_WHILE_HELD));
}

// The same without memory: the next beginning waits.
const BEGUN_SHORT: [Phase<'_>; 4] = phases![
    Free (&GROWN) Left::Free(4);
    Free [0 Lock(FIRST) => PASSED] Left::Owned(4, 0);
    Short [1 Begin(FIRST, None) => SHORT, 1 LockAtLast(FIRST, None) => SHORT] Left::Owned(4, 0);
    Free [1 Begin(FIRST, None) => WAITING] Left::Awaited(5, 0, 1);
];

#[test]
fn lock_begins_without_memory(rt: HostRuntime) {
    assert!(rt; is_row(&rt, rt.alloc(), NORMAL, 100, &BEGUN_SHORT));
}

// A claim that would close a ring is refused and leaves its mark: the owner asks the kernel when it unlocks, which
// finds nobody waiting, and the mutex is free.
const REFUSED: [Phase<'_>; 5] = phases![
    Free (&ATTACHED) Left::Free(2);
    Free [0 Lock(FIRST) => PASSED, 1 Lock(SECOND) => PASSED,
        0 Begin(SECOND, None) => WAITING] Left::Owned(3, 0);
    Free [1 Begin(FIRST, None) => DEADLOCK, 0 UnlockFast(FIRST) => BUSY] Left::Marked(4, 0);
    Free [1 Unlock(SECOND) => DONE, 0 Finish => PASSED,
        0 UnlockFast(FIRST) => BUSY] Left::Marked(6, 0);
    Free [0 Unlock(FIRST) => DONE, 1 Begin(FIRST, None) => PASSED,
        1 UnlockFast(FIRST) => DONE] Left::Free(7);
];

#[test]
fn refused_claim_leaves_its_mark(rt: HostRuntime) {
    assert!(rt; is_row(&rt, rt.alloc(), NORMAL, 100, &REFUSED));
}

// A pass is lost: its caller keeps the mutex, another one waits for it until its deadline, and goes on with all else.
const LOST: [Phase<'_>; 3] = phases![
    Free (&ATTACHED) Left::Free(2);
    Free [0 Lock(FIRST) => PASSED, 0 Lose(FIRST) => DONE, 0 Lock(FIRST) => DEADLOCK,
        1 Lock(FIRST) => BUSY] Left::Owned(2, 0);
    Free [1 LockAtLast(FIRST, Some(0)) => TIMED_OUT, 0 Lock(SECOND) => PASSED,
        0 UnlockFast(SECOND) => DONE, 1 Lock(SECOND) => PASSED] Left::Marked(4, 0);
];

#[test]
fn lost_pass_keeps_the_mutex(rt: HostRuntime) {
    assert!(rt; is_row(&rt, rt.alloc(), NORMAL, 100, &LOST));
}

// A second one that would wait finds the core held: the first one's wait is as before.
const SECOND_WAITER: [Phase<'_>; 5] = phases![
    Free (&CONTENDED) Left::Awaited(3, 0, 1);
    Free [2 ATTACH => DONE] Left::Awaited(4, 0, 1);
    Held [2 Lock(FIRST) => BUSY, 2 Begin(FIRST, None) => CORE_BUSY, 1 Finish => CORE_BUSY,
        0 Unlock(FIRST) => CORE_BUSY] Left::Awaited(4, 0, 1);
    Free [2 Begin(FIRST, None) => WAITING] Left::Awaited(5, 0, 2);
    Free [0 Unlock(FIRST) => DONE, 1 Finish => PASSED] Left::Awaited(7, 1, 1);
];

#[test]
fn second_waiter_comes_while_the_core_is_held(rt: HostRuntime) {
    assert!(rt; is_row(&rt, rt.alloc(), NORMAL, 100, &SECOND_WAITER));
}

const HANDED: [Step; 1] = steps![0 Unlock(FIRST) => DONE];

// The second caller waits until a date, which comes.
const LATE: [Step; 3] = steps![
    0 Lock(FIRST) => PASSED, 1 Begin(FIRST, Some(5)) => WAITING, 2 Act::Call(Ask::Tick(10)) => DONE,
];

// The mutex was handed on, and the core is held: it stays offered, so nobody else gets it, and the next finish has it.
const FINISHED_WHILE_HELD: [Phase<'_>; 4] = phases![
    Free (&CONTENDED) Left::Awaited(3, 0, 1);
    Free (&HANDED) Left::Offered(4, 1);
    Held [1 Finish => CORE_BUSY, 0 Lock(FIRST) => BUSY, 1 Lock(SECOND) => BUSY] Left::Offered(4, 1);
    Free [1 Finish => PASSED, 1 UnlockFast(FIRST) => DONE] Left::Free(5);
];

#[test]
fn finish_while_the_core_is_held(rt: HostRuntime) {
    assert!(rt; is_row(&rt, rt.alloc(), NORMAL, 100, &FINISHED_WHILE_HELD));
}

// The same in a full history: the mutex stays offered, and the wait unfinished, for good.
const FINISHED_IN_FULL: [Phase<'_>; 3] = phases![
    Free (&CONTENDED) Left::Awaited(3, 0, 1);
    Free (&HANDED) Left::Offered(4, 1);
    Free [1 Finish => FULL, 0 Lock(FIRST) => BUSY, 1 Lock(SECOND) => BUSY,
        0 Lock(SECOND) => PASSED] Left::Offered(4, 1);
];

#[test]
fn finish_in_a_full_history(rt: HostRuntime) {
    assert!(rt; is_row(&rt, rt.alloc(), NORMAL, 4, &FINISHED_IN_FULL));
}

// The same without memory: the next finish has it.
const FINISHED_SHORT: [Phase<'_>; 4] = phases![
    Free (&CONTENDED) Left::Awaited(3, 0, 1);
    Free (&HANDED) Left::Offered(4, 1);
    Short [1 Finish => SHORT, 0 Lock(FIRST) => BUSY, 1 Lock(SECOND) => BUSY] Left::Offered(4, 1);
    Free [1 Finish => PASSED] Left::Owned(5, 1);
];

#[test]
fn finish_without_memory(rt: HostRuntime) {
    assert!(rt; is_row(&rt, rt.alloc(), NORMAL, 100, &FINISHED_SHORT));
}

// The deadline came, and the core is held: the wait stays unfinished, and the mark remains. It stays after the finish
// too, so that the owner asks the kernel when it unlocks.
const LATE_WHILE_HELD: [Phase<'_>; 5] = phases![
    Free (&ATTACHED) Left::Free(2);
    Free (&LATE) Left::Marked(4, 0);
    Held [1 Finish => CORE_BUSY, 1 Lock(SECOND) => BUSY,
        0 UnlockFast(FIRST) => BUSY] Left::Marked(4, 0);
    Free [1 Finish => TIMED_OUT, 0 UnlockFast(FIRST) => BUSY] Left::Marked(5, 0);
    Free [0 Unlock(FIRST) => DONE, 1 Lock(FIRST) => PASSED,
        1 UnlockFast(FIRST) => DONE] Left::Free(6);
];

#[test]
fn late_finish_while_the_core_is_held(rt: HostRuntime) {
    assert!(rt; is_row(&rt, rt.alloc(), NORMAL, 100, &LATE_WHILE_HELD));
}

// The same in a full history: wait and mark stay for good.
const LATE_IN_FULL: [Phase<'_>; 3] = phases![
    Free (&ATTACHED) Left::Free(2);
    Free (&LATE) Left::Marked(4, 0);
    Free [1 Finish => FULL, 1 Lock(SECOND) => BUSY, 0 Unlock(FIRST) => FULL] Left::Marked(4, 0);
];

#[test]
fn late_finish_in_a_full_history(rt: HostRuntime) {
    assert!(rt; is_row(&rt, rt.alloc(), NORMAL, 4, &LATE_IN_FULL));
}

// The same without memory.
const LATE_SHORT: [Phase<'_>; 4] = phases![
    Free (&ATTACHED) Left::Free(2);
    Free (&LATE) Left::Marked(4, 0);
    Short [1 Finish => SHORT, 1 Lock(SECOND) => BUSY, 0 Unlock(FIRST) => SHORT] Left::Marked(4, 0);
    Free [1 Finish => TIMED_OUT] Left::Marked(5, 0);
];

#[test]
fn late_finish_without_memory(rt: HostRuntime) {
    assert!(rt; is_row(&rt, rt.alloc(), NORMAL, 100, &LATE_SHORT));
}

// A lock by the form that waits stops at its finish: the wait is left unfinished, and finished later.
const LATE_LOCK: Act = LockAtLast(FIRST, Some(0));

const LOCKED: [Step; 2] = steps![2 PUT => DONE, 0 Lock(FIRST) => PASSED];

const LOCK_IN_FULL: [Phase<'_>; 3] = phases![
    Free (&ATTACHED) Left::Free(2);
    Free (&LOCKED) Left::Owned(3, 0);
    Free [1 LATE_LOCK => FULL, 1 Lock(SECOND) => BUSY, 1 LATE_LOCK => BUSY] Left::Marked(4, 0);
];

const LOCK_SHORT: [Phase<'_>; 4] = phases![
    Free (&ATTACHED) Left::Free(2);
    Free (&LOCKED) Left::Owned(3, 0);
    Short [1 LATE_LOCK => SHORT, 1 Lock(SECOND) => BUSY] Left::Marked(4, 0);
    Free [1 Finish => TIMED_OUT, 0 Unlock(FIRST) => DONE] Left::Free(6);
];

#[test]
fn lock_stops_at_its_finish(rt: HostRuntime) {
    assert!(rt; is_row(&rt, rt.alloc(), NORMAL, 4, &LOCK_IN_FULL));
    assert!(rt; is_row(&rt, rt.alloc(), NORMAL, 100, &LOCK_SHORT));
}

// A contended mutex is unlocked while the core is held: its word is found claimed, and the owner keeps it; then it is
// handed on, and its next owner isn't marked.
const UNLOCKED_WHILE_HELD: [Phase<'_>; 3] = phases![
    Free (&CONTENDED) Left::Awaited(3, 0, 1);
    Held [0 UnlockFast(FIRST) => BUSY, 0 Unlock(FIRST) => CORE_BUSY,
        1 Finish => CORE_BUSY] Left::Awaited(3, 0, 1);
    Free [1 Finish => AGAIN, 0 Unlock(FIRST) => DONE, 1 Finish => PASSED] Left::Owned(5, 1);
];

#[test]
fn contended_unlock_while_the_core_is_held(rt: HostRuntime) {
    assert!(rt; is_row(&rt, rt.alloc(), NORMAL, 100, &UNLOCKED_WHILE_HELD));
}

// The same in a full history: owner, wait and mark stay for good.
const UNLOCKED_IN_FULL: [Phase<'_>; 2] = phases![
    Free (&CONTENDED) Left::Awaited(3, 0, 1);
    Free [0 Unlock(FIRST) => FULL, 0 UnlockAtLast(FIRST) => FULL, 1 Finish => AGAIN,
        0 UnlockFast(FIRST) => BUSY] Left::Awaited(3, 0, 1);
];

#[test]
fn contended_unlock_in_a_full_history(rt: HostRuntime) {
    assert!(rt; is_row(&rt, rt.alloc(), NORMAL, 3, &UNLOCKED_IN_FULL));
}

// The same without memory.
const UNLOCKED_SHORT: [Phase<'_>; 4] = phases![
    Free (&CONTENDED) Left::Awaited(3, 0, 1);
    Free [2 PUT => DONE] Left::Awaited(4, 0, 1);
    Short [0 Unlock(FIRST) => SHORT, 0 UnlockAtLast(FIRST) => SHORT,
        1 Finish => AGAIN] Left::Awaited(4, 0, 1);
    Free [0 Unlock(FIRST) => DONE, 1 Finish => PASSED] Left::Owned(6, 1);
];

#[test]
fn contended_unlock_without_memory(rt: HostRuntime) {
    assert!(rt; is_row(&rt, rt.alloc(), NORMAL, 100, &UNLOCKED_SHORT));
}

// A mutex with a ceiling is unlocked while the core is held: it stays raised, until the next try.
const LOWERED_WHILE_HELD: [Phase<'_>; 4] = phases![
    Free (&ATTACHED) Left::Free(2);
    Free [0 Lock(FIRST) => PASSED] Left::Raised(3, 0);
    Held [0 Unlock(FIRST) => CORE_BUSY] Left::Raised(3, 0);
    Free [0 Unlock(FIRST) => DONE] Left::Free(4);
];

#[test]
fn ceiling_is_unlocked_while_the_core_is_held(rt: HostRuntime) {
    assert!(rt; is_row(&rt, rt.alloc(), CEILING, 100, &LOWERED_WHILE_HELD));
}

// The same in a full history: it stays raised for good.
const LOWERED_IN_FULL: [Phase<'_>; 3] = phases![
    Free (&ATTACHED) Left::Free(2);
    Free [0 Lock(FIRST) => PASSED] Left::Raised(3, 0);
    Free [0 Unlock(FIRST) => FULL, 0 UnlockAtLast(FIRST) => FULL,
        1 Lock(FIRST) => FULL] Left::Raised(3, 0);
];

#[test]
fn ceiling_is_unlocked_in_a_full_history(rt: HostRuntime) {
    assert!(rt; is_row(&rt, rt.alloc(), CEILING, 3, &LOWERED_IN_FULL));
}

// The same without memory.
const LOWERED_SHORT: [Phase<'_>; 4] = phases![
    Free (&ATTACHED) Left::Free(2);
    Free [2 PUT => DONE, 0 Lock(FIRST) => PASSED] Left::Raised(4, 0);
    Short [0 Unlock(FIRST) => SHORT, 0 UnlockAtLast(FIRST) => SHORT] Left::Raised(4, 0);
    Free [0 UnlockAtLast(FIRST) => DONE] Left::Free(5);
];

#[test]
fn ceiling_is_unlocked_without_memory(rt: HostRuntime) {
    assert!(rt; is_row(&rt, rt.alloc(), CEILING, 100, &LOWERED_SHORT));
}
