//! Callers on two host threads of one machine.
use super::acts::Act::{Enter, Lock, UnlockFast};
use super::acts::{Act, Ask, DONE, PASSED, Told};
use super::boards::{ATTACH, ATTACHED, FIRST, LINE, ONCE_FREE, PEEK, SEM, WIDE};
use super::closing::End;
use super::thread_rows::{ThreadRow, is_row_over, is_thread_row};
use super::threads::{Task, Turn};
use evl_base::{ActionKinds, Policy, Stage};
use evl_pipeline::{Action, Answer, Callback, Fire, Plan};

// A row: the steps before, both tasks with each one's number of answers, the steps after, and the kernel at last.
macro_rules! thread_row {
    ($before:expr; $one:expr, $other:expr => $told:expr; $after:expr; $end:expr) => {
        ThreadRow { before: $before, tasks: ($one, $other), told: $told, after: $after, end: $end }
    };
}

const ATTACH_INBAND: Act = Act::Call(Ask::Attach(Policy::Fifo(10), Stage::Inband));

// Row machine_3: each of two host threads gets the semaphore that the other one puts.
const EXCHANGE: ThreadRow<'_> = thread_row![
    &ATTACHED;
    Task::Turns(1, Turn::GetsThenPuts), Task::Turns(1, Turn::PutsThenGets) => (1, 1);
    &[]; End::Unasked
];

#[test]
fn machine_3(rt: HostRuntime) {
    assert!(rt; is_thread_row(&rt, rt.alloc(), 100, &EXCHANGE));
}

// Row machine_4: the first caller has the kernel for one put on a host thread, until the second one's five tries on
// another are answered, of which no call is entered, and both are answered as is wanted once the core is free.
const HELD: ThreadRow<'_> = thread_row![
    &ATTACHED;
    Task::HoldsAPut, Task::Beside(Turn::TriesAll) => (2, 2);
    &ONCE_FREE; End::Calls(6, (1, 1))
];

#[test]
fn machine_4(rt: HostRuntime) {
    assert!(rt; is_thread_row(&rt, rt.alloc(), 100, &HELD));
}

// Row racing_callers_4: the last of the calls is that for the count.
const BOTH_PUT: ThreadRow<'_> = thread_row![
    &ATTACHED;
    Task::Turns(500, Turn::Puts), Task::Turns(500, Turn::Puts) => (500, 500);
    &[(0, PEEK, Told::Count(1000))]; End::Calls(1001, (500, 500))
];

#[test]
fn racing_callers_4(rt: HostRuntime) {
    assert!(rt; is_thread_row(&rt, rt.alloc(), 2000, &BOTH_PUT));
}

// Row racing_callers_5: two host threads of both stages go through a stax, and leave it free.
const BOTH_ENTER: ThreadRow<'_> = thread_row![
    &[(0, ATTACH_INBAND, DONE), (1, ATTACH, DONE)];
    Task::Turns(500, Turn::Enters), Task::Turns(500, Turn::Enters) => (500, 500);
    &[(0, Enter(WIDE), PASSED)]; End::Unasked
];

#[test]
fn racing_callers_5(rt: HostRuntime) {
    assert!(rt; is_thread_row(&rt, rt.alloc(), 100, &BOTH_ENTER));
}

// Row racing_callers_6: two host threads lock the mutex and unlock it so often, and leave it free.
const BOTH_LOCK: ThreadRow<'_> = thread_row![
    &ATTACHED;
    Task::Turns(200, Turn::Locks), Task::Turns(200, Turn::Locks) => (200, 200);
    &[(0, Lock(FIRST), PASSED), (0, UnlockFast(FIRST), DONE)]; End::Unasked
];

#[test]
fn racing_callers_6(rt: HostRuntime) {
    assert!(rt; is_thread_row(&rt, rt.alloc(), 10_000, &BOTH_LOCK));
}

// Row racing_callers_7: the first caller locks the mutex on one host thread, and unlocks it on another.
const MOVED: ThreadRow<'_> = thread_row![
    &[(0, ATTACH, DONE), (1, ATTACH, DONE), (0, Lock(FIRST), PASSED)];
    Task::Turns(1, Turn::Unlocks), Task::Turns(0, Turn::Puts) => (1, 0);
    &[]; End::Unasked
];

#[test]
fn racing_callers_7(rt: HostRuntime) {
    assert!(rt; is_thread_row(&rt, rt.alloc(), 100, &MOVED));
}

// Two host threads are in one stax, the first with a mutex, when their callers meet.
const MEET: ThreadRow<'_> = thread_row![
    &[(0, ATTACH, DONE), (1, ATTACH, DONE), (0, Lock(FIRST), PASSED)];
    Task::Turns(1, Turn::Stays), Task::Turns(1, Turn::StaysBeside) => (1, 1);
    &[]; End::Unasked
];

#[test]
fn callers_meet(rt: HostRuntime) {
    assert!(rt; is_thread_row(&rt, rt.alloc(), 100, &MEET));
}

// The bank's one callback is on a line, on which events arrive from two host threads: whichever has the kernel
// calls the stored closure.
const BOTH_ARRIVE: ThreadRow<'_> = thread_row![
    &[(0, Act::Call(Ask::Request(LINE, Stage::Oob)), DONE)];
    Task::Turns(100, Turn::Arrives), Task::Turns(100, Turn::Arrives) => (100, 100);
    &[(0, PEEK, Told::Count(200))]; End::Plays(200)
];

#[test]
fn any_thread_calls_the_stored_closure(rt: HostRuntime) {
    let alloc = rt.alloc();
    let run = Box::new(alloc, |_: Fire| Answer::one(Action::PostSem(SEM))).expect(&rt, "box");
    let posts = Callback::new(
        ActionKinds::POST_SEM,
        &Plan::one(1, 1, Action::PostSem(SEM)),
        run,
    );
    let bank = Vec::from_array(alloc, [posts]).expect(&rt, "bank");
    assert!(rt; is_row_over(&rt, alloc, bank, 2000, &BOTH_ARRIVE));
}
