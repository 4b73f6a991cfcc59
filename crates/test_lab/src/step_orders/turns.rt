//! Visits in three turns, wrong steps, and questions about moments.
use super::words::{
    ALL_LOCKING, BOTH_LOCKING, EQUAL, LOCKING, M0, RISING, Row, counts_by, crew, wanted, watched_by,
};
use evl_base::{Stage, StaxId, ThreadId};
use lab_orders::First;
use lab_scenario_orders::When;
use lab_step_orders::{CoreUse, StepFact, WhatIf, WordCall};
use std::alloc::Global;

const LASTS: CoreUse = CoreUse::Lasts;

const TRIES: CoreUse = CoreUse::Tries;

#[test]
fn core_is_taken_and_given_by_turns(rt: HostRuntime) {
    let found = counts_by(rt.alloc(), &RISING, &ALL_LOCKING, LASTS, None, "stuck");
    assert!(rt; found == wanted(540, 7, 398, 0));
}

const ONE_TRIES: [Row; 2] =
    crew![Oob &[WordCall::TryLockMutex(M0), WordCall::TryUnlockMutex(M0)]; Oob LOCKING];

#[test]
fn who_finds_the_core_taken_gives_up(rt: HostRuntime) {
    let found = counts_by(rt.alloc(), &EQUAL, &ONE_TRIES, TRIES, None, "CoreBusy");
    assert!(rt; found == wanted(27, 5, 40, 10));
}

const NO_WAIT: [Row; 2] = crew![Oob & [WordCall::BeginLockMutex(M0, None)]; Oob
    & [WordCall::Finish(false)]];

#[test]
fn finish_without_a_wait_finds_the_core_taken(rt: HostRuntime) {
    let told = "T1 -> CoreBusy";
    let found = counts_by(rt.alloc(), &EQUAL, &NO_WAIT, TRIES, None, told);
    assert!(rt; found == wanted(5, 3, 15, 2));
}

#[test]
fn offer_without_its_mark_loses_a_waiter(rt: HostRuntime) {
    let drops = Some(WhatIf::OfferDropsMark);
    let found = counts_by(rt.alloc(), &RISING, &ALL_LOCKING, LASTS, drops, "stuck");
    assert!(rt; found == wanted(540, 10, 413, 150));
}

#[test]
fn wait_without_its_mark_is_lost(rt: HostRuntime) {
    let none = Some(WhatIf::ClaimSetsNoMark);
    let found = counts_by(rt.alloc(), &EQUAL, &BOTH_LOCKING, LASTS, none, "stuck");
    assert!(rt; found == wanted(20, 3, 36, 14));
}

const S0: StaxId = StaxId(0);

const ENTERING: &[WordCall] = &[WordCall::TryLockStax(S0), WordCall::UnlockStax(S0)];

const TWO: [Row; 2] = crew![Inband ENTERING; Oob ENTERING];

// How many steps lead first to such a moment; none where there is none.
fn steps_to(
    alloc: Global,
    rows: &[Row],
    way: CoreUse,
    when: When,
    facts: &[StepFact],
) -> Option<usize> {
    let found = watched_by(alloc, rows, way, when, facts)?;
    match found.firsts.get(0) {
        Some(First::After(order)) => Some(order.len()),
        Some(First::Nowhere) | None => None,
    }
}

#[test]
fn nobody_meets_another_stage_in_a_stax(rt: HostRuntime) {
    let inband = StepFact::HeldOn(S0, Stage::Inband);
    let oob = StepFact::HeldOn(S0, Stage::Oob);
    let way = CoreUse::Whole;
    assert!(rt; steps_to(rt.alloc(), &TWO, way, When::Never, &[inband, oob]) == None);
    assert!(rt; steps_to(rt.alloc(), &TWO, way, When::Sometimes, &[oob]) == Some(2));
    assert!(rt; steps_to(rt.alloc(), &TWO, way, When::Always, &[StepFact::CoreFree]) == None);
    let held = StepFact::HoldsStax(ThreadId(0), S0);
    assert!(rt; steps_to(rt.alloc(), &TWO, way, When::Sometimes, &[held, oob]) == None);
}

#[test]
fn a_mutex_is_claimed_while_its_claimer_has_the_core(rt: HostRuntime) {
    let rows = BOTH_LOCKING;
    let marked = StepFact::MutexClaimed(M0);
    let core = StepFact::HasCore(ThreadId(1));
    let lasts = CoreUse::Lasts;
    assert!(rt; steps_to(rt.alloc(), &rows, lasts, When::Never, &[marked, core]) == Some(5));
    assert!(rt; steps_to(rt.alloc(), &rows, CoreUse::Whole, When::Never, &[core]) == None);
    let free = StepFact::MutexFree(M0);
    assert!(rt; steps_to(rt.alloc(), &rows, lasts, When::Always, &[free]) == Some(2));
}

// The second caller begins to lock and never finishes; the first one keeps the mutex, or hands it over.
const BEGINNING: &[WordCall] = &[WordCall::BeginLockMutex(M0, None)];

const KEPT: [Row; 2] = crew![Oob &[WordCall::TryLockMutex(M0)]; Oob BEGINNING];

const HANDED: [Row; 2] =
    crew![Oob &[WordCall::TryLockMutex(M0), WordCall::TryUnlockMutex(M0)]; Oob BEGINNING];

// How many orders of threads of rank 10 end with this reported.
fn orders_with(alloc: Global, rows: &[Row], told: &str) -> Option<u128> {
    let counts = counts_by(alloc, &EQUAL, rows, CoreUse::Whole, None, told)?;
    Some(counts.with_answer)
}

#[test]
fn who_never_finishes_waits_at_last(rt: HostRuntime) {
    let waits = "T1 waits for mutex 0\n";
    assert!(rt; orders_with(rt.alloc(), &KEPT, waits) == Some(1));
    assert!(rt; orders_with(rt.alloc(), &HANDED, waits) == Some(0));
}
