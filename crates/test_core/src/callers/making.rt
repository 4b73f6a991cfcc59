//! Machines and words that are made: their ranges, each request for memory refused in its turn, and a thousand rounds of calls
//! that nothing stops.
use super::acts::DONE;
use super::boards::{ATTACHED, GET, NORMAL, PUT, board_with};
use super::phases::{Left, Phase, Side, Step, phases};
use super::rows::{is_row, made, why_none};
use crate::refusing::Refusing;
use crate::rows::steps;
use crate::short::{ENOUGH, Making, requests};
use evl_base::{MutexId, Refusal, StaxId};
use evl_pipeline::Callback;
use evl_words::{MutexWord, StaxGate};
use linked_list_allocator::LocalHeap;
use std::alloc::Global;

struct Gate;

impl Making for Gate {
    fn refusal(memory: &Refusing<LocalHeap>, _boxes: Global) -> Option<Refusal> {
        StaxGate::new(memory, StaxId(0), 2, 3).err()
    }
}

// All that was taken before a refusal goes back, here and below.
#[test]
fn each_request_for_a_gate_is_refused_once(rt: HostRuntime) {
    assert!(rt; requests::<Gate>(rt.alloc(), ENOUGH) == Some(3));
}

struct Word;

impl Making for Word {
    fn refusal(memory: &Refusing<LocalHeap>, _boxes: Global) -> Option<Refusal> {
        MutexWord::new(memory, MutexId(0), true, 3).err()
    }
}

#[test]
fn each_request_for_a_word_is_refused_once(rt: HostRuntime) {
    assert!(rt; requests::<Word>(rt.alloc(), ENOUGH) == Some(3));
}

struct OneMachine;

impl Making for OneMachine {
    fn refusal(memory: &Refusing<LocalHeap>, boxes: Global) -> Option<Refusal> {
        let bank: Vec<Callback, &Refusing<LocalHeap>> = Vec::new(memory);
        why_none(made(memory, boxes, board_with(2, NORMAL), bank, 100))
    }
}

#[test]
fn each_request_for_a_machine_is_refused_once(rt: HostRuntime) {
    assert!(rt; requests::<OneMachine>(rt.alloc(), ENOUGH) == Some(68));
}

// Why no machine is made with a history of so many calls; none where it is made.
fn refusal_of(alloc: Global, limit: u32) -> Option<Refusal> {
    let bank: Vec<Callback> = Vec::new(alloc);
    why_none(made(alloc, alloc, board_with(2, NORMAL), bank, limit))
}

#[test]
fn machine_has_a_range(rt: HostRuntime) {
    for limit in [0, 1_000_001] {
        assert!(rt; refusal_of(rt.alloc(), limit) == Some(Refusal::Range));
    }
}

// A put by the first and a get by the second, and a put by the second and a get by the first.
const BOTH_WAYS: [Step; 4] = steps![0 PUT => DONE, 1 GET => DONE, 1 PUT => DONE, 0 GET => DONE];

const ROUND: Phase<'_> = (Side::Free, &BOTH_WAYS, Left::Unseen);

const BEGINNING: Phase<'_> = (Side::Free, &ATTACHED, Left::Free(2));

#[test]
fn quiet_core_is_never_busy(rt: HostRuntime) {
    let mut phases = Vec::new(rt.alloc());
    assert!(rt; phases.push(BEGINNING).is_ok());
    for _ in 0..1000 {
        assert!(rt; phases.push(ROUND).is_ok());
    }
    assert!(rt; is_row(&rt, rt.alloc(), NORMAL, 10_000, &phases));
}
