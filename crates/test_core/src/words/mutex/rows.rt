//! The mutex word's rows, and how many seats there may be.
use super::Act::{Accept, Claim as Claims, Forget, Free, Offer, SeeOffer, Try, Unlock};
use super::{Kind, Part, Step, Told, Word, made, plain, word_after, word_of, words_are};
use crate::rows::{cases, steps};
use evl_base::{Refusal, ThreadId};
use evl_words::Claim;
use std::alloc::Global;

const PASSED: Told = Told::Passed;

const DONE: Told = Told::Done;

const FOUND_CLAIMED: Told = Told::Claimed;

const QUEUED: Told = Told::Found(Claim::Queued(ThreadId(0)));

const LIMIT: Told = Told::Refused(Refusal::Limit);

const AGAIN: Told = Told::Refused(Refusal::Again);

const BUSY: Told = Told::Refused(Refusal::Busy);

const NOT_OWNER: Told = Told::Refused(Refusal::NotOwner);

const DEADLOCK: Told = Told::Refused(Refusal::Deadlock);

// Row mutex_word_claim, up to the claim.
const BEFORE_THE_CLAIM: [Step; 3] = steps![0 Try => PASSED, 1 Try => BUSY, 0 Unlock => DONE];

const ONE_CLAIM: [Step; 1] = steps![1 Claims => Told::Found(Claim::Won)];

// Seat 2 comes too late.
const BETWEEN: [Step; 2] = steps![2 Try => BUSY, 2 Claims => Told::Found(Claim::Seizing)];

const UNLOCKED: [Step; 1] = steps![1 Unlock => DONE];

const TRIED: [Step; 1] = steps![2 Try => PASSED];

const CLAIMED: [Part<'_>; 2] = [
    Part::Steps(1, &BEFORE_THE_CLAIM),
    Part::Steps(1, &ONE_CLAIM),
];

// The row, whose last parts are made so often.
fn word_of_claim_row(alloc: Global, unlocks: u16, tries: u16) -> Option<u64> {
    let parts = [
        Part::Steps(1, &BEFORE_THE_CLAIM),
        Part::Win(1, &BETWEEN),
        Part::Steps(unlocks, &UNLOCKED),
        Part::Steps(tries, &TRIED),
    ];
    word_after(alloc, plain(3), &parts)
}

// Row mutex_word_claim: the words, and what the calls answer. Seat 1 wins, and seat 2 comes too late.
#[test]
fn a_claim_wins_a_free_mutex(rt: HostRuntime) {
    assert!(rt; word_after(rt.alloc(), plain(3), &CLAIMED) == Some(2147483648));
    assert!(rt; word_of_claim_row(rt.alloc(), 0, 0) == Some(2));
    assert!(rt; word_of_claim_row(rt.alloc(), 1, 0) == Some(0));
    assert!(rt; word_of_claim_row(rt.alloc(), 1, 1) == Some(3));
}

// Row mutex_word_1: the words.
const HANDED_ON: [Step; 10] = steps![
    0 Try => PASSED, 1 Claims => QUEUED, 2 Claims => QUEUED, 0 Unlock => FOUND_CLAIMED,
    0 Offer(1, true) => DONE, 1 Accept => PASSED, 1 Unlock => FOUND_CLAIMED,
    1 Offer(2, false) => DONE, 2 Accept => PASSED, 2 Unlock => DONE,
];

const HANDED_ON_WORDS: [Word; 7] = cases![
    1 => 1; 3 => 2147483649; 5 => 3221225474; 6 => 2147483650; 8 => 1073741827; 9 => 3; 10 => 0;
];

#[test]
fn a_claimed_mutex_is_handed_on(rt: HostRuntime) {
    assert!(rt; words_are(rt.alloc(), &HANDED_ON, &HANDED_ON_WORDS));
}

// Row mutex_word_2.
const FORGOTTEN: [Step; 5] = steps![
    0 Try => PASSED, 1 Claims => QUEUED, 1 Forget => DONE, 0 Unlock => FOUND_CLAIMED, 0 Free => DONE,
];

#[test]
fn a_seat_may_wait_no_more(rt: HostRuntime) {
    assert!(rt; word_of(rt.alloc(), 3, &FORGOTTEN) == Some(0));
}

// Row mutex_word_1: what seats 1 and 2 are answered.
const OFFERED: [Step; 14] = steps![
    0 Try => PASSED, 1 Claims => QUEUED, 2 Claims => QUEUED, 0 Unlock => FOUND_CLAIMED,
    1 Accept => AGAIN, 0 Offer(1, true) => DONE, 2 SeeOffer => Told::Offered(false),
    1 SeeOffer => Told::Offered(true), 1 Forget => BUSY, 1 Accept => PASSED,
    1 Unlock => FOUND_CLAIMED, 1 Offer(2, false) => DONE, 2 Accept => PASSED, 2 Unlock => DONE,
];

#[test]
fn an_offer_is_for_one_seat(rt: HostRuntime) {
    assert!(rt; word_of(rt.alloc(), 3, &OFFERED) == Some(0));
}

const ONE_TRY: [Step; 1] = steps![0 Try => PASSED];

const ONE_UNLOCKING: [Step; 1] = steps![0 Unlock => DONE];

const OWNED: [Step; 1] = steps![0 Try => DEADLOCK];

const NESTED: [Step; 1] = steps![0 Try => LIMIT];

// The word of a mutex of one seat that tries it so often, and then makes other steps so often.
fn word_of_tries(
    alloc: Global,
    recursive: bool,
    tries: u16,
    times: u16,
    steps: &[Step],
) -> Option<u64> {
    let kind = Kind {
        recursive,
        seats: 1,
        handed: 1,
    };
    let parts = [Part::Steps(tries, &ONE_TRY), Part::Steps(times, steps)];
    word_after(alloc, kind, &parts)
}

// Row mutex_word_3.
#[test]
fn a_recursive_mutex_nests(rt: HostRuntime) {
    assert!(rt; word_of_tries(rt.alloc(), false, 1, 1, &OWNED) == Some(1));
    assert!(rt; word_of_tries(rt.alloc(), true, 255, 1, &NESTED) == Some(1));
}

// Row mutex_word_3: 254 unlockings of 255 leave the word 1.
#[test]
fn the_last_unlocking_frees(rt: HostRuntime) {
    assert!(rt; word_of_tries(rt.alloc(), true, 255, 254, &ONE_UNLOCKING) == Some(1));
    assert!(rt; word_of_tries(rt.alloc(), true, 255, 255, &ONE_UNLOCKING) == Some(0));
}

// A pass of one seat is no pass of another.
const ANOTHERS: [Step; 3] = steps![0 Try => PASSED, 1 Unlock => NOT_OWNER, 0 Unlock => DONE];

#[test]
fn a_pass_is_its_seats(rt: HostRuntime) {
    assert!(rt; word_of(rt.alloc(), 2, &ANOTHERS) == Some(0));
}

const LAST_SEAT: [Step; 1] = steps![255 Try => PASSED];

// Row wide_3: a mutex word with the most seats.
#[test]
fn the_last_of_256_seats_has_the_number_256(rt: HostRuntime) {
    assert!(rt; word_of(rt.alloc(), 256, &LAST_SEAT) == Some(256));
}

const LOCKED_AND_CLAIMED: [Step; 2] = steps![0 Try => PASSED, 1 Claims => QUEUED];

const ONCE: [Part<'_>; 1] = [Part::Steps(1, &LOCKED_AND_CLAIMED)];

// Seat 0 has locked the mutex and seat 1 has claimed it, and only the first ones are handed in.
#[test]
fn a_mutex_closes_as_it_stands_whoever_is_handed_in(rt: HostRuntime) {
    for handed in 0..3 {
        let kind = Kind {
            recursive: false,
            seats: 2,
            handed,
        };
        assert!(rt; word_after(rt.alloc(), kind, &ONCE) == Some(2147483649));
    }
}

// Whether a mutex has so many seats; none where it is refused for another reason than its range.
fn fits(alloc: Global, seats: u16) -> Option<bool> {
    match made(alloc, false, seats) {
        Ok(_) => Some(true),
        Err(Refusal::Range) => Some(false),
        Err(_) => None,
    }
}

const RANGES: [(u16, bool); 4] = [(1, true), (256, true), (0, false), (257, false)];

#[test]
fn seats_have_a_range(rt: HostRuntime) {
    for (seats, wanted) in RANGES {
        assert!(rt; fits(rt.alloc(), seats) == Some(wanted));
    }
}
