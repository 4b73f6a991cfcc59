//! The numbers that are shown beside marks, in a picture that goes down.
ghost use Rattle.std.specs.Prelude.{◌≡◌};
ghost use Rattle.lab_drawing.specs.Events.{line_at};
ghost use Rattle.lab_drawing.specs.Pictures as pictures;
ghost use Rattle.lab_drawing.specs.Pictures.{told_beside};

use crate::escapes::put_text;
use crate::frames::Goes;
use crate::marks::{Mark, Shape, number_at, value_of};
use crate::texts::long_number;
use std::alloc::{AllocError, Global};

// How often a play's callback was called.
fn count_told(line: &str) -> Option<u64>
    ensures { result ≡ pictures.count_told line.now }
{
    long_number(value_of(line, " count ")?)
}

// The interrupt line of a spurious event.
fn line_told(line: &str) -> Option<u64>
    ensures { result ≡ line_at line.now }
{
    match number_at(line, " line=") {
        Some(number) => Some(u64::from(number)),
        None => None,
    }
}

// The number that is shown beside a mark: of a play its count, of a spurious event the interrupt line.
fn told_beside(mark: &Mark<'_>) -> Option<u64>
    ensures { result ≡ told_beside mark.now.shape mark.now.line.now }
{
    match mark.shape {
        Shape::Played | Shape::Unhandled => count_told(mark.line),
        Shape::Spurious => line_told(mark.line),
        _ => None,
    }
}

// A number beside a mark.
fn beside_text(alloc: Global, number: Option<u64>) -> Result<String, AllocError> {
    match number {
        None => Ok(String::new(alloc)),
        Some(told) => { format!(in alloc; "<text x=\"8\" y=\"9\" fill=\"#5c4300\">{told}</text>") }
    }
}

// Appends what is shown beside a mark.
fn put_told(alloc: Global, text: &mut Vec<u8>, mark: &Mark<'_>) -> Result<(), AllocError> {
    let number = beside_text(alloc, told_beside(mark))?;
    put_text(text, number.as_str())
}

/// Appends what is shown beside a mark, in a picture that goes down.
pub fn put_beside(
    alloc: Global,
    text: &mut Vec<u8>,
    goes: Goes,
    mark: &Mark<'_>,
) -> Result<(), AllocError> {
    match goes {
        Goes::Across => Ok(()),
        Goes::Down => put_told(alloc, text, mark),
    }
}
