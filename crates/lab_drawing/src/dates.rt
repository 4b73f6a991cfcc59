//! The dates of a picture, and the room that they have where it goes down.
ghost use Rattle.std.specs.Prelude.{◌≡◌, ◌<◌, IfOk, string_bytes};
ghost use Rattle.lab_drawing.specs.Ranks as ranks;
ghost use Rattle.lab_drawing.specs.Ranks.{date_text};

use crate::frames::steps;
use crate::moments::Moment;
use std::alloc::{AllocError, Global};

// How wide a character of a date is.
const CHARACTER: usize = 6;

// The greatest unit of which a date is a whole number: how many nanoseconds it has, and its word.
fn unit_of(date: u64) -> (u64, &'static str)
    ensures nanoseconds { result.0 ≡ (ranks.unit_of date).0 }
    ensures word { result.1.now ≡ (ranks.unit_of date).1 }
    ensures some { 0 < result.0 }
{
    if date == 0 {
        (1, "ns")
    } else if date % 1_000_000_000 == 0 {
        (1_000_000_000, "s")
    } else if date % 1_000_000 == 0 {
        (1_000_000, "ms")
    } else if date % 1_000 == 0 {
        (1_000, "us")
    } else {
        (1, "ns")
    }
}

/// A date in the greatest unit of which it is a whole number. `AllocError` where the text couldn't grow.
pub fn date_text(alloc: Global, date: u64) -> Result<String, AllocError>
    ensures { IfOk result (λ text. string_bytes text ≡ date_text date) }
{
    let (nanoseconds, word) = unit_of(date);
    let count = date / nanoseconds;
    format!(in alloc; "{count} {word}")
}

// How many characters the longest date has.
fn longest_date(alloc: Global, moments: &[Moment]) -> Result<usize, AllocError> {
    let mut longest = 0;
    for moment in moments {
        let told = date_text(alloc, moment.date)?;
        longest = told.len().max(longest);
    }
    Ok(longest)
}

/// How wide the room for dates is, left of the lanes of a picture that goes down: as the longest date wants it.
/// `AllocError` where memory couldn't grow.
pub fn dates_room(alloc: Global, moments: &[Moment]) -> Result<usize, AllocError> {
    let longest = longest_date(alloc, moments)?;
    Ok(steps(10, CHARACTER, longest).max(64))
}
