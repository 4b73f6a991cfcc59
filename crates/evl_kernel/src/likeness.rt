//! Whether answers and waits are alike.
ghost use Rattle.std.specs.Prelude.{◌≡◌, true};

use crate::wait_place::WaitPlace;
use crate::waits::Wait;
use evl_base::{Reply, Transfer};
use evl_sync::Alike;

// Whether two transfers carry the same bytes.
fn are_same_bytes(one: &Transfer, other: &Transfer) -> bool
    ensures alike { result ≡ true → one.now ≡ other.now }
    ensures other { one.now ≡ other.now → result ≡ true }
{
    one.as_slice() == other.as_slice()
}

// Whether two answers are the same.
fn are_same_replies(one: &Reply, other: &Reply) -> bool
    ensures alike { result ≡ true → one.now ≡ other.now }
    ensures other { one.now ≡ other.now → result ≡ true }
{
    match (one, other) {
        (Reply::Done, Reply::Done)
        | (Reply::Begun, Reply::Begun)
        | (Reply::TimedOut, Reply::TimedOut) => true,
        (Reply::Count(one), Reply::Count(other)) => one == other,
        (Reply::Bits(one), Reply::Bits(other)) => one == other,
        (Reply::Number(one), Reply::Number(other)) => one == other,
        (Reply::Bytes(one), Reply::Bytes(other)) => are_same_bytes(one, other),
        (Reply::Chosen(one), Reply::Chosen(other)) => one == other,
        (
            Reply::Handed { next, more },
            Reply::Handed {
                next: other_next,
                more: other_more,
            },
        ) => next == other_next && more == other_more,
        _ => false,
    }
}

// Whether two waits ended by the same answer, or none has ended.
fn are_same_outcomes(one: &Option<Reply>, other: &Option<Reply>) -> bool
    ensures alike { result ≡ true → one.now ≡ other.now }
    ensures other { one.now ≡ other.now → result ≡ true }
{
    match one {
        None => other.is_none(),
        Some(one) => match other {
            None => false,
            Some(other) => are_same_replies(one, other),
        },
    }
}

// Whether two waits are for the same, and stand alike.
fn are_same_waits(one: &Wait, other: &Wait) -> bool
    ensures alike { result ≡ true → one.now ≡ other.now }
    ensures other { one.now ≡ other.now → result ≡ true }
{
    one.on == other.on && are_same_outcomes(&one.outcome, &other.outcome)
}

impl Alike for WaitPlace {
    // Whether both threads wait for the same, and their waits stand alike, or neither waits.
    fn is_alike(&self, other: &WaitPlace) -> bool {
        match self.wait() {
            None => other.wait().is_none(),
            Some(one) => match other.wait() {
                None => false,
                Some(other) => are_same_waits(one, other),
            },
        }
    }
}
