//! A mutex's word: the owner's number in bits 0 to 15, an offer in bit 30, and the claim mark in bit 31.
ghost use Rattle.std.specs.Prelude.{◌≡◌, ◌<◌};
ghost use Rattle.evl_words.specs.MutexBits.{offer_word, offers_to, claim_reply};
ghost use Rattle.evl_words.specs.MutexCalls.{reply_of};

use super::Claim;
use evl_base::ThreadId;

/// The mutex is offered to its owner, who has not yet accepted it.
pub const OFFERED: u64 = 1 << 30;

/// The claim mark; alone it says that a seat has won and not yet settled.
pub const CLAIM_MARK: u64 = 1 << 31;

// The bits of the owner's number.
const NUMBER_MASK: u64 = (1 << 16) - 1;

// rule: Readers give the numbers and depth of a seat, pass and place, and whether a word has an offer or a claim.
//   clauses: claim_on; is_offered_to; offered_word; StaxPass::{gate, seat}; StaxSeat::{of_token, gate, number, held};
//   MutexSeat::{of_token, mutex, number, depth}; MutexPass::{mutex, seat}; MutexPlace::{new, mutex, number, depth, own,
//   nest, fits, spend}
/// The answer to a claim on this word.
pub fn claim_on(word: u64) -> Claim
    ensures { reply_of result ≡ claim_reply word }
{
    let number = (word & NUMBER_MASK) as u16;
    if word == 0 {
        Claim::Won
    } else if number == 0 {
        Claim::Seizing
    } else {
        Claim::Queued(ThreadId(number - 1))
    }
}

/// Whether the word offers the mutex to a seat.
pub fn is_offered_to(word: u64, seat: u16) -> bool
    ensures { result ≡ offers_to word seat }
{
    word & OFFERED != 0 && word & NUMBER_MASK == u64::from(seat) + 1
}

/// The word of a mutex that is offered to a seat, with the mark where more wait.
pub fn offered_word(next: u16, more: bool) -> u64
    ensures { result ≡ offer_word next more }
{
    let word = u64::from(next) + 1 + OFFERED;
    if more { word + CLAIM_MARK } else { word }
}
