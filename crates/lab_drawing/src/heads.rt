//! The part above the bands of a picture as SVG: its opening, and its legend.
ghost use Rattle.std.specs.Prelude.{◌≡◌, ◌++◌, string_bytes, OnOk};
ghost use Rattle.lab_drawing.specs.Shapes.{place_text};

use crate::drawings::shape_text;
use crate::frames::{Goes, steps};
use crate::lanes::Lane;
use crate::marks::Shape;
use crate::moments::Condition;
use crate::strips::strip_for;
use crate::ties::{TieEnd, end_text};
use std::alloc::{AllocError, Global};

// How wide a character is.
const CHARACTER: usize = 6;

/// The place of the first sign of a condition, from the left.
pub const FIRST_SIGN: usize = 20;

/// The opening of a picture of this size. `AllocError` where the text couldn't grow.
pub fn opening(
    alloc: Global,
    goes: Goes,
    width: usize,
    height: usize,
) -> Result<String, AllocError> {
    let mut text = sized(alloc, goes, width, height)?;
    put_dark(&mut text)?;
    Ok(text)
}

// Its size.
fn sized(alloc: Global, goes: Goes, width: usize, height: usize) -> Result<String, AllocError> {
    match goes {
        Goes::Across => sized_across(alloc, width, height),
        Goes::Down => sized_down(alloc, width, height),
    }
}

// The size of a picture that goes across.
fn sized_across(alloc: Global, width: usize, height: usize) -> Result<String, AllocError> {
    format!(in alloc;
        "<svg xmlns=\"http://www.w3.org/2000/svg\" width=\"{width}\" height=\"{height}\" viewBox=\"0 0 {width} {height}\" font-family=\"DejaVu Sans Mono, monospace\" font-size=\"9\">\n"
    )
}

// The size of one that goes down.
fn sized_down(alloc: Global, width: usize, height: usize) -> Result<String, AllocError> {
    format!(in alloc;
        "<svg xmlns=\"http://www.w3.org/2000/svg\" width=\"{width}\" height=\"{height}\" viewBox=\"0 0 {width} {height}\" font-family=\"DejaVu Sans Mono, monospace\" font-size=\"10\">\n"
    )
}

// Appends how it looks on a dark screen, and its background.
fn put_dark(text: &mut String) -> Result<(), AllocError> {
    text.push_str(
        "<style>@media screen and (prefers-color-scheme:dark){[fill=\"#ffffff\"]{fill:#14181d}text,[fill=\"#202020\"]{fill:#e8e8e8}",
    )?;
    text.push_str(
        "[fill=\"#1f5fa8\"]{fill:#7db4f0}[stroke=\"#1f5fa8\"]{stroke:#7db4f0}[fill=\"#b3261e\"]{fill:#ff8a80}[stroke=\"#b3261e\"]{stroke:#ff8a80}",
    )?;
    text.push_str(
        "[fill=\"#5c4300\"]{fill:#e6c46a}[stroke=\"#5c4300\"]{stroke:#e6c46a}[stroke=\"#8a6d00\"]{stroke:#e6c46a}[fill=\"#5f6b7a\"]{fill:#a9b4c2}[stroke=\"#5f6b7a\"]{stroke:#a9b4c2}[fill=\"#c9d9f0\"]{fill:#2f4a6b}[stroke=\"#b8c4d6\"],[stroke=\"#dcdcdc\"],[stroke=\"#b0b0b0\"],[stroke=\"#e4e4e4\"]{stroke:#4a5568}[stroke=\"#d8c48c\"]{stroke:#6b5d33}}</style>\n<rect width=\"100%\" height=\"100%\" fill=\"#ffffff\"/>\n",
    )?;
    Ok(())
}

// The place of the next sign, with so much room beside the word.
fn sign_end(space: usize, at: usize, word: &str) -> usize {
    steps(at.saturating_add(space), CHARACTER, word.len())
}

/// Appends the beginning of an element at a place.
pub fn put_place(text: &mut String, x: usize, y: usize) -> Result<(), AllocError>
    ensures { OnOk result (string_bytes text.new ≡ string_bytes text.old ++ place_text x y) }
{
    write!(text, "<g transform=\"translate({x},{y})\">")?;
    Ok(())
}

// Appends the word of a sign, beside the drawing, and its end.
fn put_sign_word(text: &mut String, x: usize, y: usize, word: &str) -> Result<(), AllocError> {
    write!(text, "<text x=\"{x}\" y=\"{y}\">{word}</text></g>\n")?;
    Ok(())
}

// Appends the sign of a shape, so far from the left, and says where the next one is.
fn put_shape(text: &mut String, at: usize, shape: Shape, word: &str) -> Result<usize, AllocError> {
    put_place(text, at, 18)?;
    text.push_str(shape_text(shape))?;
    put_sign_word(text, 12, 3, word)?;
    Ok(sign_end(32, at, word))
}

// Appends the sign of the end of a tie, so far from the left, and says where the next one is.
fn put_end(text: &mut String, at: usize, end: TieEnd, word: &str) -> Result<usize, AllocError> {
    put_place(text, at, 18)?;
    text.push_str(end_text(end))?;
    put_sign_word(text, 12, 3, word)?;
    Ok(sign_end(32, at, word))
}

/// Appends the legend of the shapes. `AllocError` where the text couldn't grow.
pub fn put_shapes(text: &mut String) -> Result<(), AllocError> {
    let begun = put_shape(text, 16, Shape::Answered, "answered")?;
    let ended = put_shape(text, begun, Shape::Begun, "a wait begins")?;
    let refused = put_shape(text, ended, Shape::Ended, "a wait ends")?;
    let played = put_shape(text, refused, Shape::Refused, "refused")?;
    let unhandled = put_shape(text, played, Shape::Played, "played")?;
    let arrives = put_shape(text, unhandled, Shape::Unhandled, "not handled")?;
    let merges = put_end(text, arrives, TieEnd::Arrives, "arrives")?;
    let spurious = put_end(text, merges, TieEnd::Merges, "merges")?;
    put_end(text, spurious, TieEnd::Lost, "spurious")?;
    Ok(())
}

// Appends a sign at this place: its drawing, and its word, so far from there.
fn put_sign(
    text: &mut String,
    x: usize,
    y: usize,
    drawn: &str,
    right: usize,
    down: usize,
    word: &str,
) -> Result<(), AllocError> {
    put_place(text, x, y)?;
    text.push_str(drawn)?;
    put_sign_word(text, right, down, word)?;
    Ok(())
}

// Appends the sign of a condition in the legend of a picture that goes this way.
fn put_condition_sign(
    text: &mut String,
    goes: Goes,
    at: usize,
    drawn: &str,
    word: &str,
) -> Result<(), AllocError> {
    match goes {
        Goes::Across => put_sign(text, at, 28, drawn, 12, 13, word),
        Goes::Down => put_sign(text, at, 42, drawn, 0, 4, word),
    }
}

// Appends the sign of a condition, so far from the left, and says where the next one is.
fn put_condition(
    text: &mut String,
    goes: Goes,
    at: usize,
    condition: Condition,
    word: &str,
) -> Result<usize, AllocError> {
    put_condition_sign(text, goes, at, strip_for(goes, condition), word)?;
    Ok(sign_end(36, at, word))
}

/// Appends the legend of the conditions. `AllocError` where the text couldn't grow.
pub fn put_conditions(text: &mut String, goes: Goes) -> Result<(), AllocError> {
    let ready = put_condition(text, goes, FIRST_SIGN, Condition::Picked, "picked")?;
    let blocked = put_condition(text, goes, ready, Condition::Ready, "ready")?;
    let inband = put_condition(text, goes, blocked, Condition::Blocked, "blocked")?;
    let owned = put_condition(text, goes, inband, Condition::Inband, "in-band")?;
    let handed = put_condition(text, goes, owned, Condition::Owned, "owner recorded")?;
    let stalled = put_condition(text, goes, handed, Condition::Handed, "handed on")?;
    let pending = put_condition(text, goes, stalled, Condition::Stalled, "stalled")?;
    let runs = put_condition(text, goes, pending, Condition::Pending, "events pending")?;
    put_condition(text, goes, runs, Condition::Runs, "timer runs")?;
    Ok(())
}

/// Appends the legend of the states of callers' threads, and after it that of words. `AllocError` where the text
/// couldn't grow.
pub fn put_callers(text: &mut String, goes: Goes, lanes: &[Lane]) -> Result<(), AllocError> {
    let ready = put_condition(text, goes, FIRST_SIGN, Condition::Picked, "picked")?;
    let blocked = put_condition(text, goes, ready, Condition::Ready, "ready")?;
    let inband = put_condition(text, goes, blocked, Condition::Blocked, "blocked")?;
    let words = put_condition(text, goes, inband, Condition::Inband, "in-band")?;
    put_words(text, goes, lanes, words)
}

// Whether a condition is one of the word of a lane.
fn is_of_word(condition: Condition, lane: Lane) -> bool {
    match lane {
        Lane::Mutex(_) => matches!(condition, Condition::Owned | Condition::Claimed),
        Lane::Stax(_) => matches!(condition, Condition::Inband | Condition::Oob),
        Lane::Core => matches!(condition, Condition::Taken),
        _ => false,
    }
}

// Whether a condition is one of the word of one of some lanes.
fn is_of_words(lanes: &[Lane], condition: Condition) -> bool {
    lanes.iter().any(|lane| is_of_word(condition, *lane))
}

// Appends the sign of a condition, where the word of one of the lanes can have it, and says where the next one is.
fn put_word(
    text: &mut String,
    goes: Goes,
    at: usize,
    lanes: &[Lane],
    condition: Condition,
    word: &str,
) -> Result<usize, AllocError> {
    if is_of_words(lanes, condition) {
        put_condition(text, goes, at, condition, word)
    } else {
        Ok(at)
    }
}

/// Appends the legend of words' states, of those that have a lane, so far from the left. `AllocError` where the text
/// couldn't grow.
pub fn put_words(
    text: &mut String,
    goes: Goes,
    lanes: &[Lane],
    at: usize,
) -> Result<(), AllocError> {
    let claimed = put_word(text, goes, at, lanes, Condition::Owned, "owned")?;
    let inband = put_word(text, goes, claimed, lanes, Condition::Claimed, "claimed")?;
    let oob = put_word(text, goes, inband, lanes, Condition::Inband, "held in-band")?;
    let taken = put_word(text, goes, oob, lanes, Condition::Oob, "held out-of-band")?;
    put_word(text, goes, taken, lanes, Condition::Taken, "taken")?;
    Ok(())
}
