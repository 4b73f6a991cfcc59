//! All that the kernel records of a mutex, beside its word, while callers lock it and hand it on.
use super::acts::Act::{Begin, Finish, Lock, Unlock, UnlockFast};
use super::acts::{Act, Ask, BUSY, DONE, PASSED, Told, WAITING};
use super::boards::{FIRST, NORMAL};
use super::phases::{Left, Phase, Side, listed, phases};
use super::rows::is_row;
use crate::rows::steps;
use evl_base::{Policy, Stage, ThreadId};

const ATTACH_AT_10: Act = Act::Call(Ask::Attach(Policy::Fifo(10), Stage::Oob));

const ATTACH_AT_20: Act = Act::Call(Ask::Attach(Policy::Fifo(20), Stage::Oob));

const ATTACH_AT_30: Act = Act::Call(Ask::Attach(Policy::Fifo(30), Stage::Oob));

const RANK: Act = Act::Call(Ask::RankOf(ThreadId(0)));

// Row one_table_1: while another thread waits, the owner in the word is recorded and has that one's rank; handed on,
// the mutex has no recorded owner, and the rank is its own again.
const ONE_WAITER: [Phase<'_>; 2] = phases![
    Free [0 ATTACH_AT_10 => DONE, 1 ATTACH_AT_20 => DONE, 0 Lock(FIRST) => PASSED,
        1 Begin(FIRST, None) => WAITING, 0 RANK => Told::Number(532)] Left::Awaited(4, 0, 1);
    Free [0 Unlock(FIRST) => DONE, 0 RANK => Told::Number(522)] Left::Offered(6, 1);
];

#[test]
fn one_table_1(rt: HostRuntime) {
    assert!(rt; is_row(&rt, rt.alloc(), NORMAL, 100, &ONE_WAITER));
}

// Row one_table_2: the mutex is handed on to the waiter of the greatest rank, which is recorded since the other one
// still waits; its word has the mark, so the fast path gives its pass back.
const TWO_WAITERS: [Phase<'_>; 2] = phases![
    Free [0 ATTACH_AT_10 => DONE, 1 ATTACH_AT_20 => DONE, 2 ATTACH_AT_30 => DONE,
        0 Lock(FIRST) => PASSED, 1 Begin(FIRST, None) => WAITING, 2 Begin(FIRST, None) => WAITING,
        0 Unlock(FIRST) => DONE] Left::OfferedOn(6, 2, 1);
    Free [2 Finish => PASSED, 2 UnlockFast(FIRST) => BUSY] Left::Awaited(7, 2, 1);
];

#[test]
fn one_table_2(rt: HostRuntime) {
    assert!(rt; is_row(&rt, rt.alloc(), NORMAL, 100, &TWO_WAITERS));
}
