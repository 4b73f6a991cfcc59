//! Orders of atomic steps on words.
use arrayvec::ArrayVec;
use evl_base::{Board, Call, MutexId, MutexKind, Policy, Refusal, Stage, StaxId, ThreadId};
use evl_scenario::Step;
use lab_scenario_orders::When;
use lab_step_orders::{
    CoreUse, Crew, CrewCaller, StepClaim, StepFact, StepOutcomes, StepWatch, WhatIf, WordCall,
    step_outcomes_of, write_step_report,
};
use std::alloc::{AllocError, Global};

pub(crate) const M0: MutexId = MutexId(0);

const M1: MutexId = MutexId(1);

const ENTER: WordCall = WordCall::TryLockStax(StaxId(0));

const LEAVE: WordCall = WordCall::UnlockStax(StaxId(0));

const MARK: WordCall = WordCall::ClaimStax(StaxId(0));

const LOCK: WordCall = WordCall::TryLockMutex(M0);

const UNLOCK: WordCall = WordCall::UnlockMutexFast(M0);

const BEGIN: WordCall = WordCall::BeginLockMutex(M0, None);

const BEGIN_OTHER: WordCall = WordCall::BeginLockMutex(M1, None);

const FINISH: WordCall = WordCall::FinishLockMutex;

const HAND_ON: WordCall = WordCall::TryUnlockMutex(M0);

const HAND_OTHER_ON: WordCall = WordCall::TryUnlockMutex(M1);

/// A caller on a stage, with its calls.
pub(crate) type Row = (Stage, &'static [WordCall]);

// Callers.
macro_rules! crew {
    ($($stage:ident $calls:expr);*) => { [$((Stage::$stage, $calls)),*] };
}

pub(crate) use crew;

// So many calls that come by the core in one way.
fn uses_of(alloc: Global, way: CoreUse, count: usize) -> Result<Vec<CoreUse>, AllocError> {
    let mut uses = Vec::new(alloc);
    for _ in 0..count {
        uses.push(way)?;
    }
    Ok(uses)
}

// These callers over one stax that two may hold, and one mutex; their calls come by the core in one way.
fn callers_of(alloc: Global, rows: &[Row], way: CoreUse) -> Result<Vec<CrewCaller>, AllocError> {
    let mut callers = Vec::new(alloc);
    for (stage, row) in rows {
        let mut calls = Vec::new(alloc);
        calls.extend_from_slice(row)?;
        callers.push(CrewCaller {
            stage: *stage,
            calls,
            uses: uses_of(alloc, way, row.len())?,
        })?;
    }
    Ok(callers)
}

// A board with a stax of this limit, and one or two plain mutexes; an array has room for more.
fn board_of(limit: u16, two: bool, threads: u16) -> Board {
    let mut staxes = ArrayVec::new();
    drop(staxes.try_push(limit));
    let mut mutexes = ArrayVec::new();
    drop(mutexes.try_push(MutexKind::Normal));
    if two {
        drop(mutexes.try_push(MutexKind::Normal));
    }
    Board {
        threads,
        sems: ArrayVec::new(),
        flags: ArrayVec::new(),
        xbufs: ArrayVec::new(),
        mutexes,
        groups: ArrayVec::new(),
        staxes,
    }
}

fn crew_of(alloc: Global, limit: u16, rows: &[Row]) -> Result<Crew, Refusal> {
    let Ok(callers) = callers_of(alloc, rows, CoreUse::Whole) else {
        return Err(Refusal::NoMemory);
    };
    let (setup, steps, watches) = (Vec::new(alloc), Vec::new(alloc), Vec::new(alloc));
    Crew::new(
        board_of(limit, false, 3),
        1000,
        setup,
        steps,
        callers,
        None,
        watches,
    )
}

// How many orders there are, how many outcomes, how many moments, and how many orders have such an answer.
#[derive(Clone, Copy, PartialEq, Eq)]
pub(crate) struct Counts {
    orders: u128,
    outcomes: usize,
    moments: usize,
    pub(crate) with_answer: u128,
}

// The counts of what was found of them.
fn counted(found: &StepOutcomes, answer: &str) -> Counts {
    let mut with_answer: u128 = 0;
    for outcome in &found.all {
        if outcome.told.as_str().contains(answer) {
            with_answer = with_answer.saturating_add(outcome.count);
        }
    }
    Counts {
        orders: found.count,
        outcomes: found.all.len(),
        moments: found.moments,
        with_answer,
    }
}

// The counts of these callers' orders; none where they can't be reported.
fn counts_of(alloc: Global, rows: &[Row], answer: &str) -> Option<Counts> {
    let crew = crew_of(alloc, 2, rows).ok()?;
    let found = step_outcomes_of(alloc, &crew, 100_000).ok()?;
    Some(counted(&found, answer))
}

// An in-band caller and an out-of-band one enter one stax and leave it.
const TWO: [Row; 2] = crew![Inband & [ENTER, LEAVE]; Oob & [ENTER, LEAVE]];

#[test]
fn two_that_enter_a_stax_may_race(rt: HostRuntime) {
    assert!(rt; counts_of(rt.alloc(), &TWO, "Raced") == wanted(18, 5, 35, 2));
}

// Whether the report of these callers' orders has this in it.
fn is_reported(alloc: Global, rows: &[Row], wanted: &str) -> Option<bool> {
    let crew = crew_of(alloc, 2, rows).ok()?;
    let found = step_outcomes_of(alloc, &crew, 100_000).ok()?;
    let report = write_step_report(alloc, &crew, &found).ok()?;
    Some(report.as_str().contains(wanted))
}

#[test]
fn a_report_tells_each_step(rt: HostRuntime) {
    let race = "# order: T0 look, T1 look, T1 exchange, T1 leave, T0 exchange, T0 refused\n";
    assert!(rt;
        is_reported(rt.alloc(), &TWO, "# 18 orders, 5 outcomes, 35 moments\n") == Some(true)
    );
    assert!(rt; is_reported(rt.alloc(), &TWO, race) == Some(true));
}

// Two in-band callers and an out-of-band one.
const THREE: [Row; 3] = crew![Inband &[ENTER, LEAVE]; Inband &[ENTER, LEAVE]; Oob &[ENTER, LEAVE]];

#[test]
fn three_that_enter_a_stax_end_in_seventeen_ways(rt: HostRuntime) {
    assert!(rt; counts_of(rt.alloc(), &THREE, "Raced") == wanted(1242, 17, 345, 584));
}

// The third one sets the mark between its two tries.
const MARKING: [Row; 3] = crew![
    Inband &[ENTER, LEAVE];
    Inband &[ENTER, LEAVE];
    Oob &[ENTER, MARK, ENTER, LEAVE]
];

#[test]
fn orders_with_a_mark_are_counted(rt: HostRuntime) {
    assert!(rt; counts_of(rt.alloc(), &MARKING, "Raced") == wanted(17_664, 56, 1843, 9864));
}

// It sets it once and is not let in any more, or sets it after each refusal.
const MARKING_ONCE: [Row; 3] = crew![
    Inband &[ENTER, LEAVE];
    Inband &[ENTER, LEAVE];
    Oob &[ENTER, MARK, ENTER]
];

const MARKING_AGAIN: [Row; 3] = crew![
    Inband &[ENTER, LEAVE];
    Inband &[ENTER, LEAVE];
    Oob &[ENTER, MARK, ENTER, MARK]
];

#[test]
fn orders_of_later_marks_are_counted(rt: HostRuntime) {
    assert!(rt;
        counts_of(rt.alloc(), &MARKING_ONCE, "others want in") == wanted(5644, 28, 845, 3732)
    );
    assert!(rt;
        counts_of(rt.alloc(), &MARKING_AGAIN, "others want in") == wanted(12_052, 41, 1297, 8436)
    );
}

// Three callers enter and leave twice each.
const ROUNDS: [Row; 3] = crew![
    Inband &[ENTER, LEAVE, ENTER, LEAVE];
    Inband &[ENTER, LEAVE, ENTER, LEAVE];
    Oob &[ENTER, LEAVE, ENTER, LEAVE]
];

#[test]
fn two_rounds_of_three_callers_are_counted(rt: HostRuntime) {
    assert!(rt;
        counts_of(rt.alloc(), &ROUNDS, "Raced") == wanted(7_394_244, 263, 16_896, 5_687_572)
    );
}

// Two out-of-band callers lock one mutex and unlock it.
const LOCKS: [Row; 2] = crew![Oob & [LOCK, UNLOCK]; Oob & [LOCK, UNLOCK]];

#[test]
fn two_that_try_a_mutex_end_in_three_ways(rt: HostRuntime) {
    assert!(rt; counts_of(rt.alloc(), &LOCKS, "Busy") == wanted(6, 3, 16, 4));
}

// Whether no crew has staxes of this limit.
fn is_refused(alloc: Global, limit: u16) -> bool {
    match crew_of(alloc, limit, &TWO) {
        Ok(_) => false,
        Err(refusal) => refusal == Refusal::Range,
    }
}

#[test]
fn limits_are_those_of_a_board(rt: HostRuntime) {
    assert!(rt; is_refused(rt.alloc(), 0));
    assert!(rt; !is_refused(rt.alloc(), 1000));
    assert!(rt; is_refused(rt.alloc(), 1001));
}

// Threads with these ranks, out-of-band, and calls.
fn attached(alloc: Global, ranks: &[u8]) -> Result<Vec<Step>, AllocError> {
    let mut steps = Vec::new(alloc);
    let mut who: u16 = 0;
    for rank in ranks {
        steps.push(Step {
            who: ThreadId(who),
            call: Call::Attach {
                policy: Policy::Fifo(*rank),
                stage: Stage::Oob,
            },
        })?;
        who = who.saturating_add(1);
    }
    Ok(steps)
}

// A step at place 0 that lets time pass.
fn ticks(alloc: Global) -> Result<Vec<Step>, AllocError> {
    let mut steps = Vec::new(alloc);
    steps.push(Step {
        who: ThreadId(3),
        call: Call::Tick { delta: 10 },
    })?;
    Ok(steps)
}

fn crew_by(
    alloc: Global,
    ranks: &[u8],
    rows: &[Row],
    way: CoreUse,
    what_if: Option<WhatIf>,
) -> Option<Crew> {
    let callers = callers_of(alloc, rows, way).ok()?;
    let setup = attached(alloc, ranks).ok()?;
    let steps = ticks(alloc).ok()?;
    let board = board_of(1, true, 4);
    Crew::new(board, 1000, setup, steps, callers, what_if, Vec::new(alloc)).ok()
}

// All of these facts are claimed.
fn claims_of(alloc: Global, facts: &[StepFact]) -> Result<Vec<StepClaim>, AllocError> {
    let mut claims = Vec::new(alloc);
    for fact in facts {
        claims.push(StepClaim {
            fact: *fact,
            is_so: true,
        })?;
    }
    Ok(claims)
}

// One question.
fn question(alloc: Global, when: When, facts: &[StepFact]) -> Result<Vec<StepWatch>, AllocError> {
    let mut watches = Vec::new(alloc);
    watches.push(StepWatch {
        when,
        text: String::new(alloc),
        claims: claims_of(alloc, facts)?,
    })?;
    Ok(watches)
}

// The outcomes of threads of rank 10, of whose moments this is asked.
pub(crate) fn watched_by(
    alloc: Global,
    rows: &[Row],
    way: CoreUse,
    when: When,
    facts: &[StepFact],
) -> Option<StepOutcomes> {
    let callers = callers_of(alloc, rows, way).ok()?;
    let setup = attached(alloc, &[10, 10]).ok()?;
    let watches = question(alloc, when, facts).ok()?;
    let (board, steps) = (board_of(2, false, 2), Vec::new(alloc));
    let crew = Crew::new(board, 1000, setup, steps, callers, None, watches).ok()?;
    step_outcomes_of(alloc, &crew, 100_000).ok()
}

pub(crate) fn counts_by(
    alloc: Global,
    ranks: &[u8],
    rows: &[Row],
    way: CoreUse,
    what_if: Option<WhatIf>,
    answer: &str,
) -> Option<Counts> {
    let crew = crew_by(alloc, ranks, rows, way, what_if)?;
    let found = step_outcomes_of(alloc, &crew, 100_000).ok()?;
    Some(counted(&found, answer))
}

// How many of these threads' orders there are, none of which ends with somebody stuck.
fn counts_with(alloc: Global, ranks: &[u8], rows: &[Row]) -> Option<Counts> {
    counts_by(alloc, ranks, rows, CoreUse::Whole, None, "stuck")
}

pub(crate) fn wanted(
    orders: u128,
    outcomes: usize,
    moments: usize,
    with_answer: u128,
) -> Option<Counts> {
    Some(Counts {
        orders,
        outcomes,
        moments,
        with_answer,
    })
}

pub(crate) const EQUAL: [u8; 2] = [10, 10];

pub(crate) const RISING: [u8; 3] = [10, 20, 30];

pub(crate) const LOCKING: &[WordCall] = &[BEGIN, FINISH, HAND_ON];

pub(crate) const BOTH_LOCKING: [Row; 2] = crew![Oob LOCKING; Oob LOCKING];

pub(crate) const ALL_LOCKING: [Row; 3] = crew![Oob LOCKING; Oob LOCKING; Oob LOCKING];

#[test]
fn mutex_2(rt: HostRuntime) {
    assert!(rt; counts_with(rt.alloc(), &EQUAL, &BOTH_LOCKING) == wanted(6, 3, 24, 0));
}

#[test]
fn mutex_3(rt: HostRuntime) {
    assert!(rt; counts_with(rt.alloc(), &RISING, &ALL_LOCKING) == wanted(84, 7, 152, 0));
}

const TWICE: &[WordCall] = &[BEGIN, FINISH, HAND_ON, BEGIN, FINISH, HAND_ON];

const ALL_TWICE: [Row; 3] = crew![Oob TWICE; Oob TWICE; Oob TWICE];

#[test]
fn mutex_3_twice(rt: HostRuntime) {
    assert!(rt; counts_with(rt.alloc(), &RISING, &ALL_TWICE) == wanted(35_196, 56, 4155, 0));
}

const CROSSING: [Row; 2] = crew![Oob
    & [BEGIN, FINISH, BEGIN_OTHER, FINISH, HAND_OTHER_ON, HAND_ON]; Oob
    & [BEGIN_OTHER, FINISH, BEGIN, FINISH, HAND_ON, HAND_OTHER_ON]];

#[test]
fn two_mutexes(rt: HostRuntime) {
    assert!(rt; counts_with(rt.alloc(), &EQUAL, &CROSSING) == wanted(38, 9, 100, 0));
}

const LATE: WordCall = WordCall::BeginLockMutex(M0, Some(10));

const UNTIL_A_DATE: [Row; 4] = crew![
    Oob &[LOCK, HAND_ON]; Oob &[LATE, FINISH, HAND_ON]; Oob &[]; Inband &[WordCall::Kernel(0)]
];

#[test]
fn deadline(rt: HostRuntime) {
    assert!(rt; counts_with(rt.alloc(), &EQUAL, &UNTIL_A_DATE) == wanted(66, 4, 49, 0));
}
