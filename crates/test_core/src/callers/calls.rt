//! The places where a call of the kernel may stop, several under one take, and a wait for an element, at its beginning
//! and at its end; and the forms that wait, where all goes on.
use super::acts::Act::{
    Begin, CallAtLast, Enter, EnterAtLast, Leave, Lock, LockAtLast, Reserve, Switch, UnlockAtLast,
    UnlockFast, WaitFor,
};
use super::acts::{
    Act, Ask, BUSY, CORE_BUSY, DONE, Element, FULL, HOLDS_STAX, INVALID, LIMIT, PASSED, SHORT,
    TIMED_OUT, Told, UNKNOWN,
};
use super::boards::{
    ATTACH, ATTACHED, CEILING, FIRST, FLAGS, GROWN, NORMAL, PEEK, PUT, SECOND, SEM, STAX,
};
use super::phases::{Left, Phase, Side, Step, listed, phases};
use super::rows::is_row;
use crate::rows::steps;
use evl_base::{Policy, Stage, StaxId, ThreadId};

const DETACH: Act = Act::Call(Ask::Detach);

// A call without memory changes nothing, not the caller's stage either, by which it enters staxes.
const CALLED_SHORT: [Phase<'_>; 3] = phases![
    Free (&GROWN) Left::Free(4);
    Short [0 PUT => SHORT, 0 CallAtLast(Ask::Put(SEM)) => SHORT,
        0 Act::Call(Ask::SetStage(Stage::Inband)) => SHORT,
        0 CallAtLast(Ask::SetStage(Stage::Inband)) => SHORT, 0 Enter(STAX) => PASSED,
        1 Enter(STAX) => LIMIT, 0 Leave(0) => Told::Left(false)] Left::Free(4);
    Free [0 PEEK => Told::Count(2), 0 PUT => DONE] Left::Free(6);
];

#[test]
fn call_without_memory(rt: HostRuntime) {
    assert!(rt; is_row(&rt, rt.alloc(), NORMAL, 100, &CALLED_SHORT));
}

// Calls under one take, of which the history has room for the first: it remains, and the others see it.
const HELD_IN_FULL: [Phase<'_>; 3] = phases![
    Free (&ATTACHED) Left::Free(2);
    Applied [3 PUT => DONE, 3 PUT => FULL, 3 PEEK => FULL] Left::Free(3);
    Free [0 PEEK => FULL] Left::Free(3);
];

#[test]
fn held_calls_stop_in_a_full_history(rt: HostRuntime) {
    assert!(rt; is_row(&rt, rt.alloc(), NORMAL, 3, &HELD_IN_FULL));
}

// The same without memory: the call that was refused is made later.
const HELD_SHORT: [Phase<'_>; 4] = phases![
    Free (&ATTACHED) Left::Free(2);
    Free [2 PUT => DONE] Left::Free(3);
    AppliedShort [3 PUT => DONE, 3 PUT => SHORT] Left::Free(4);
    Free [0 PEEK => Told::Count(2), 3 PUT => DONE] Left::Free(6);
];

#[test]
fn held_calls_stop_without_memory(rt: HostRuntime) {
    assert!(rt; is_row(&rt, rt.alloc(), NORMAL, 100, &HELD_SHORT));
}

// Room that a caller made serves the next caller, however short memory is then.
const RESERVED: [Phase<'_>; 4] = phases![
    Free (&GROWN) Left::Free(4);
    Applied [3 Reserve(2) => DONE, 3 Reserve(97) => FULL] Left::Free(4);
    Short [0 PUT => DONE, 1 PUT => DONE] Left::Free(6);
    AppliedShort [3 Reserve(60) => SHORT] Left::Free(6);
];

#[test]
fn calls_after_a_reserve(rt: HostRuntime) {
    assert!(rt; is_row(&rt, rt.alloc(), NORMAL, 100, &RESERVED));
}

// The caller that has the core is dropped with it: what needs the core stays refused for good, and all else goes on.
const CORE_LOST: [Phase<'_>; 3] = phases![
    Free (&ATTACHED) Left::Free(2);
    Dropped [] Left::Unseen;
    Free [0 PUT => CORE_BUSY, 0 Enter(STAX) => PASSED, 0 Leave(0) => Told::Left(false),
        0 Lock(SECOND) => PASSED, 1 Lock(SECOND) => BUSY, 1 Begin(SECOND, None) => CORE_BUSY,
        0 UnlockFast(SECOND) => DONE, 1 Lock(FIRST) => CORE_BUSY] Left::Unseen;
];

// rule: A caller dropped while it has the kernel leaves the core taken.
//   rows: close_with_a_dropped_holder; what_a_dropped_caller_has_stays_taken; lost_pass_keeps_the_mutex
#[test]
fn core_is_lost_with_its_caller(rt: HostRuntime) {
    assert!(rt; is_row(&rt, rt.alloc(), CEILING, 100, &CORE_LOST));
}

// A caller is dropped with what it has: that stays taken, and all else goes on.
const CALLER_LOST: [Phase<'_>; 4] = phases![
    Free (&ATTACHED) Left::Free(2);
    Free [0 Lock(FIRST) => PASSED, 0 Enter(STAX) => PASSED] Left::Owned(2, 0);
    Lost [] Left::Unseen;
    Free [0 Lock(FIRST) => BUSY, 0 Enter(STAX) => LIMIT, 0 LockAtLast(FIRST, Some(0)) => TIMED_OUT,
        0 Lock(SECOND) => PASSED, 0 UnlockFast(SECOND) => DONE, 0 PUT => DONE] Left::Marked(5, 0);
];

#[test]
fn what_a_dropped_caller_has_stays_taken(rt: HostRuntime) {
    assert!(rt; is_row(&rt, rt.alloc(), NORMAL, 100, &CALLER_LOST));
}

// A caller's own refusals as it has a stax and a mutex, and then the mutex alone: by calls of which each takes
// the core, and by calls under one take. Nothing of it is entered.
const OWN: [Step; 9] = steps![
    3 Act::Call(Ask::Claim(FIRST, ThreadId(0))) => INVALID,
    3 Act::Call(Ask::Release(FIRST)) => INVALID, 3 Act::Call(Ask::Raise(FIRST)) => INVALID,
    3 Act::Call(Ask::Finish(false)) => INVALID, 3 ATTACH => HOLDS_STAX, 3 DETACH => HOLDS_STAX,
    3 Act::Call(Ask::SetStage(Stage::Inband)) => HOLDS_STAX, 3 PUT => DONE, 3 DETACH => HOLDS_STAX,
];

const OWN_REFUSALS: [Phase<'_>; 6] = phases![
    Free [3 ATTACH => DONE, 3 Enter(STAX) => PASSED, 3 Lock(FIRST) => PASSED] Left::Owned(1, 3);
    Free (&OWN) Left::Owned(2, 3);
    Applied (&OWN) Left::Owned(3, 3);
    Free [3 Leave(3) => Told::Left(false), 3 DETACH => BUSY] Left::Owned(3, 3);
    Applied [3 DETACH => BUSY, 3 PUT => DONE] Left::Owned(4, 3);
    Free [3 UnlockFast(FIRST) => DONE, 3 DETACH => DONE] Left::Free(5);
];

#[test]
fn own_refusals(rt: HostRuntime) {
    assert!(rt; is_row(&rt, rt.alloc(), NORMAL, 100, &OWN_REFUSALS));
}

// For what it is waited, and how that ends: the bytes are written at once, for the others the deadline comes.
const ELEMENTS: [(Element, Told); 4] = [
    (Element::Sem(SEM), TIMED_OUT),
    (Element::Flags, TIMED_OUT),
    (Element::Read, TIMED_OUT),
    (Element::Write, DONE),
];

const FINISH: Act = Act::Call(Ask::Finish(false));

// A wait by a form that waits stops at its end without memory: it is left over and unfinished, and finished by a call.
#[test]
fn wait_stops_at_its_end_without_memory(rt: HostRuntime) {
    for (element, told) in ELEMENTS {
        let before = [(2, Act::Call(Ask::Peek(SEM)), Told::Count(0))];
        let stopped = [(0, WaitFor(element, Some(0)), SHORT)];
        let on = [(0, FINISH, told), (0, PUT, DONE)];
        let phases = [
            (Side::Free, &ATTACHED[..], Left::Free(2)),
            (Side::Free, &before, Left::Free(3)),
            (Side::Short, &stopped, Left::Free(4)),
            (Side::Free, &on, Left::Free(6)),
        ];
        assert!(rt; is_row(&rt, rt.alloc(), NORMAL, 100, &phases));
    }
}

// The same in a full history: it is left unfinished for good.
#[test]
fn wait_stops_at_its_end_in_a_full_history(rt: HostRuntime) {
    for (element, _) in ELEMENTS {
        let stopped = [(0, WaitFor(element, Some(0)), FULL), (0, FINISH, FULL)];
        let phases = [
            (Side::Free, &ATTACHED[..], Left::Free(2)),
            (Side::Free, &stopped, Left::Free(3)),
        ];
        assert!(rt; is_row(&rt, rt.alloc(), NORMAL, 3, &phases));
    }
}

// A wait by a form that waits stops at its beginning without memory: there is none.
#[test]
fn wait_stops_at_its_beginning_without_memory(rt: HostRuntime) {
    for (element, _) in ELEMENTS {
        let stopped = [(0, WaitFor(element, Some(0)), SHORT)];
        let on = [(0, PUT, DONE), (0, FINISH, INVALID)];
        let phases = [
            (Side::Free, &GROWN[..], Left::Free(4)),
            (Side::Short, &stopped, Left::Free(4)),
            (Side::Free, &on, Left::Free(6)),
        ];
        assert!(rt; is_row(&rt, rt.alloc(), NORMAL, 100, &phases));
    }
}

// A wait that was begun is over, and the core is held: it stays unfinished, and is finished then.
const WAIT_WHILE_HELD: [Phase<'_>; 5] = phases![
    Free (&ATTACHED) Left::Free(2);
    Free [0 Act::Call(Ask::BeginGet(SEM)) => Told::Begun, 1 PUT => DONE] Left::Free(4);
    Held [0 FINISH => CORE_BUSY] Left::Free(4);
    Free [0 PUT => BUSY] Left::Free(5);
    Free [0 FINISH => DONE] Left::Free(6);
];

#[test]
fn wait_is_finished_while_the_core_is_held(rt: HostRuntime) {
    assert!(rt; is_row(&rt, rt.alloc(), NORMAL, 100, &WAIT_WHILE_HELD));
}

const NOTHING: [Step; 0] = steps![];

// The third call, which begins the wait, is the last one that the history has room for: the wait is over, and stays
// unfinished.
const LEFT_OVER: [Phase<'_>; 2] = phases![
    Free [0 ATTACH => DONE, 0 CallAtLast(Ask::Put(SEM)) => DONE,
        0 WaitFor(Element::Sem(SEM), None) => FULL] Left::Free(3);
    Free (&NOTHING) Left::Over(3);
];

#[test]
fn full_history_leaves_a_wait(rt: HostRuntime) {
    assert!(rt; is_row(&rt, rt.alloc(), NORMAL, 3, &LEFT_OVER));
}

// A stax that isn't there, and one that the caller holds.
const NO_STAX: [Phase<'_>; 1] = phases![
    Free [0 EnterAtLast(StaxId(2)) => UNKNOWN, 0 EnterAtLast(STAX) => PASSED,
        0 EnterAtLast(STAX) => BUSY] Left::Free(0);
];

#[test]
fn no_stax_is_waited_for(rt: HostRuntime) {
    assert!(rt; is_row(&rt, rt.alloc(), NORMAL, 100, &NO_STAX));
}

// Row machine_1: each wait is over at once, and the caller stays out-of-band while it holds the stax.
const ALL_WAITS: [Phase<'_>; 1] = phases![
    Free [0 CallAtLast(Ask::Attach(Policy::Fifo(10), Stage::Inband)) => DONE,
        0 Switch(Stage::Oob) => DONE, 0 CallAtLast(Ask::Put(SEM)) => DONE,
        0 WaitFor(Element::Sem(SEM), None) => DONE, 0 CallAtLast(Ask::PostFlags(FLAGS, 3)) => DONE,
        0 WaitFor(Element::Flags, None) => Told::Bits(3), 0 WaitFor(Element::Write, None) => DONE,
        0 LockAtLast(FIRST, None) => PASSED, 0 UnlockAtLast(FIRST) => DONE,
        0 EnterAtLast(STAX) => PASSED, 0 Switch(Stage::Inband) => HOLDS_STAX,
        0 Leave(0) => Told::Left(false), 0 Switch(Stage::Inband) => DONE,
        0 WaitFor(Element::Written, None) => Told::Written] Left::Unseen;
];

#[test]
fn machine_1(rt: HostRuntime) {
    assert!(rt; is_row(&rt, rt.alloc(), NORMAL, 100, &ALL_WAITS));
}
