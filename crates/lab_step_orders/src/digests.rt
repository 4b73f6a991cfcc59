//! Digests of moments.
use crate::moments::Moment;
use crate::shared::SharedWord;
use crate::steps::{Place, Taken};

// The start of a digest.
const START: u64 = 14_695_981_039_346_656_037;

// The number that a digest is multiplied by.
const FACTOR: u64 = 1_099_511_628_211;

// A digest with a number more.
fn with_number(digest: u64, number: u64) -> u64 {
    (digest ^ number).wrapping_mul(FACTOR)
}

// A digest with some words more; who holds them follows from the answers.
fn with_words(digest: u64, words: &[SharedWord]) -> u64 {
    let mut all = digest;
    for shared in words {
        all = with_number(all, shared.word);
    }
    all
}

// The number that distinguishes a place from others, mostly.
fn of_place(place: Place) -> u64 {
    match place {
        Place::Begins => 0,
        Place::Found(_, word) => word.wrapping_add(1),
        Place::Left(_) => u64::MAX,
        Place::Claimed(_) => u64::MAX - 1,
    }
}

// The number that says who has the core.
fn of_core(core: Option<Taken>) -> u64 {
    match core {
        Some(taken) => u64::from(taken.who) + if taken.is_done { 65_536 } else { 1 },
        None => 0,
    }
}

// A digest with the callers' places more.
fn with_places(digest: u64, places: &[Place]) -> u64 {
    let mut all = digest;
    for place in places {
        all = with_number(all, of_place(*place));
    }
    all
}

// A digest with all bytes of a text more.
fn with_text(digest: u64, text: &str) -> u64 {
    let mut all = digest;
    for byte in text.as_bytes() {
        all = with_number(all, u64::from(*byte));
    }
    with_number(all, 256)
}

/// A number that is the same for moments that are.
pub(crate) fn digest_of(moment: &Moment) -> u64 {
    let gates = with_words(START, moment.gates.as_slice());
    let words = with_words(gates, moment.mutexes.as_slice());
    let taken = with_number(words, of_core(moment.core));
    let mut all = with_places(taken, moment.places.as_slice());
    for text in &moment.answers {
        all = with_text(all, text.as_str());
    }
    all
}
