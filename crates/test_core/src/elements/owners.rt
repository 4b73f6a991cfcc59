//! Threads that wait for mutexes, and the ranks that they hand on.
use crate::rows::calls;
use evl_base::{MutexId, MutexKind, Refusal, ThreadId};
use evl_mutex::OwnersOf;
use linked_list_allocator::LocalHeap;
use std::alloc::Allocator;

const ONE: ThreadId = ThreadId(1);

const TWO: ThreadId = ThreadId(2);

const THREE: ThreadId = ThreadId(3);

const FIRST: MutexId = MutexId(0);

const SECOND: MutexId = MutexId(1);

const NORMAL: [MutexKind; 2] = [MutexKind::Normal, MutexKind::Normal];

const KINDS: [MutexKind; 2] = [MutexKind::Ceiling(50), MutexKind::Normal];

// All that is done, and its answer.
#[derive(Clone, Copy)]
enum Step {
    SetBase(ThreadId, u16),
    Claim(MutexId, ThreadId, ThreadId, Result<(), Refusal>),
    Release(MutexId, ThreadId, Result<(Option<ThreadId>, bool), Refusal>),
    Raise(MutexId, ThreadId),
    Lower(MutexId, ThreadId),
    DropWaiter(ThreadId),
    Leave(MutexId, ThreadId),
    Effective(ThreadId, u16),
    Ranks([u16; 4]),
    Owner(MutexId, Option<ThreadId>),
    Next(MutexId, Option<ThreadId>),
    Has(MutexId, bool),
    OwnsAny(ThreadId, bool),
}

// Whether these are all ranks.
fn has_ranks<A: Allocator>(owners: &OwnersOf<A>, wanted: [u16; 4]) -> bool {
    let mut ranks = [7; 4];
    owners.ranks(&mut ranks);
    ranks == wanted
}

// Whether a step is answered what it says.
fn is_told<A: Allocator>(owners: &mut OwnersOf<A>, step: Step) -> bool {
    match step {
        Step::SetBase(thread, rank) => owners.set_base(thread, rank).is_ok(),
        Step::Claim(mutex, waiter, owner, told) => owners.claim(mutex, waiter, owner) == told,
        Step::Release(mutex, owner, told) => owners.release(mutex, owner) == told,
        Step::Raise(mutex, thread) => owners.raise(mutex, thread).is_ok(),
        Step::Lower(mutex, thread) => owners.lower(mutex, thread).is_ok(),
        Step::DropWaiter(thread) => {
            owners.drop_waiter(thread);
            true
        }
        Step::Leave(mutex, thread) => {
            owners.leave(mutex, thread);
            true
        }
        Step::Effective(thread, rank) => owners.effective(thread) == rank,
        Step::Ranks(ranks) => has_ranks(owners, ranks),
        Step::Owner(mutex, owner) => owners.owner(mutex) == owner,
        Step::Next(mutex, next) => owners.next(mutex) == next,
        Step::Has(mutex, told) => owners.has(mutex) == told,
        Step::OwnsAny(thread, told) => owners.owns_any(thread) == told,
    }
}

// Whether each step is.
fn are_told<A: Allocator>(owners: &mut OwnersOf<A>, steps: &[Step]) -> bool {
    for step in steps {
        if !is_told(owners, *step) {
            return false;
        }
    }
    true
}

// Whether each step of new records of so many threads is.
fn is_row<A: Allocator + Clone>(
    alloc: A,
    threads: u16,
    kinds: &[MutexKind],
    steps: &[Step],
) -> bool {
    match OwnersOf::new(alloc, threads, kinds) {
        Ok(mut owners) => are_told(&mut owners, steps),
        Err(_) => false,
    }
}

const CHAIN: [Step; 6] = calls![
    SetBase(THREE, 590); Claim(FIRST, TWO, ONE, Ok(())); Claim(SECOND, THREE, TWO, Ok(()));
    Effective(ONE, 590); DropWaiter(THREE); Effective(ONE, 0);
];

#[test]
fn a_rank_goes_along_a_chain(rt: HostRuntime) {
    assert!(rt; is_row(rt.alloc(), 4, &NORMAL, &CHAIN));
}

const RING: [Step; 5] = calls![
    Claim(FIRST, TWO, ONE, Ok(())); Claim(SECOND, ONE, TWO, Err(Refusal::Deadlock));
    Claim(SECOND, TWO, ONE, Err(Refusal::Busy)); Owner(FIRST, Some(ONE)); Owner(SECOND, None);
];

#[test]
fn a_ring_is_refused(rt: HostRuntime) {
    assert!(rt; is_row(rt.alloc(), 4, &NORMAL, &RING));
}

const FIRST_IS_NEXT: [Step; 5] = calls![
    SetBase(THREE, 590); Claim(FIRST, TWO, ONE, Ok(())); Claim(FIRST, THREE, ONE, Ok(()));
    Release(FIRST, TWO, Err(Refusal::NotOwner)); Release(FIRST, ONE, Ok((Some(THREE), true)));
];

#[test]
fn the_first_waiter_is_next(rt: HostRuntime) {
    assert!(rt; is_row(rt.alloc(), 4, &NORMAL, &FIRST_IS_NEXT));
}

const CEILING: [Step; 5] = calls![
    Raise(FIRST, TWO); Claim(SECOND, TWO, ONE, Ok(())); Effective(TWO, 562); Effective(ONE, 0);
    Lower(FIRST, TWO);
];

#[test]
fn a_ceiling_counts_for_its_owner(rt: HostRuntime) {
    let heap = LocalHeap::new(rt.alloc(), 65536).expect(&rt, "heap");
    assert!(rt; is_row(&heap, 3, &KINDS, &CEILING));
}

const LEFT: [Step; 10] = calls![
    Claim(FIRST, TWO, ONE, Ok(())); Has(SECOND, true); Has(MutexId(2), false); OwnsAny(ONE, true);
    OwnsAny(TWO, false); Next(FIRST, Some(TWO)); Leave(SECOND, TWO); Next(FIRST, Some(TWO));
    Leave(FIRST, TWO); Next(FIRST, None);
];

#[test]
fn a_mutex_is_left(rt: HostRuntime) {
    assert!(rt; is_row(rt.alloc(), 4, &NORMAL, &LEFT));
}

const ALL_RANKS: [Step; 4] = calls![
    SetBase(THREE, 520); Raise(FIRST, TWO); Claim(SECOND, THREE, ONE, Ok(()));
    Ranks([0, 520, 562, 520]);
];

#[test]
fn all_ranks_at_once(rt: HostRuntime) {
    assert!(rt; is_row(rt.alloc(), 4, &KINDS, &ALL_RANKS));
}

const LOSING: [Step; 9] = calls![
    SetBase(TWO, 530); SetBase(THREE, 590); Claim(FIRST, TWO, ONE, Ok(()));
    Claim(SECOND, THREE, ONE, Ok(())); Effective(ONE, 590); Leave(SECOND, THREE);
    Ranks([0, 530, 530, 590]); Leave(FIRST, TWO); Ranks([0, 0, 530, 590]);
];

#[test]
fn one_of_two_mutexes_loses_its_waiters(rt: HostRuntime) {
    assert!(rt; is_row(rt.alloc(), 4, &NORMAL, &LOSING));
}

const CEILING_IN_A_CHAIN: [Step; 7] = calls![
    SetBase(THREE, 520); Raise(FIRST, TWO); Claim(SECOND, TWO, ONE, Ok(()));
    Claim(FIRST, THREE, TWO, Ok(())); Ranks([0, 520, 562, 520]);
    Release(FIRST, TWO, Ok((Some(THREE), false))); Ranks([0, 0, 0, 562]);
];

#[test]
fn a_ceiling_in_a_chain_goes_no_further(rt: HostRuntime) {
    assert!(rt; is_row(rt.alloc(), 4, &KINDS, &CEILING_IN_A_CHAIN));
}
