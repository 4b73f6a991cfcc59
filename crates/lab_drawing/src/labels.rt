//! The part of a line that is shown below its mark.

use crate::escapes::{put_escaped, put_text};
use crate::frames::Goes;
use crate::marks::Shape;
use std::alloc::{AllocError, Global};

// Whether a byte is the first of a character.
fn begins(byte: u8) -> bool {
    byte < 0x80 || byte >= 0xc0
}

// Whether a character begins with a byte that is one more than so many.
fn is_more(byte: u8, left: usize) -> bool {
    begins(byte) && left == 0
}

// How many characters are left after a byte.
fn left_behind(byte: u8, left: usize) -> usize {
    if begins(byte) {
        left.saturating_sub(1)
    } else {
        left
    }
}

// The first characters of a text, so many at most.
fn front(text: &[u8], count: usize) -> &[u8] {
    let mut left = count;
    for (i, byte) in text.iter().enumerate() {
        if is_more(*byte, left) {
            return &text[..i];
        }
        left = left_behind(*byte, left);
    }
    text
}

// Whether a text has at most so many bytes.
fn fits(text: &[u8], most: usize) -> bool {
    text.len() <= most
}

// Appends the first characters of a text, and ….
fn put_front(buffer: &mut Vec<u8>, text: &[u8], count: usize) -> Result<(), AllocError> {
    put_escaped(buffer, front(text, count))?;
    buffer.extend_from_slice(&[226, 128, 166])?;
    Ok(())
}

// Appends what is shown of a line, where at most so many bytes are shown whole.
fn put_shown(buffer: &mut Vec<u8>, line: &str, most: usize) -> Result<(), AllocError> {
    let shown = line.trim_start().as_bytes();
    if fits(shown, most) {
        put_escaped(buffer, shown)?;
        return Ok(());
    }
    put_front(buffer, shown, most.saturating_sub(1))?;
    Ok(())
}

/// How the label of a mark looks in a picture that goes this way.
pub fn look_for(goes: Goes, shape: Shape) -> &'static str {
    match goes {
        Goes::Across => label_ink(shape),
        Goes::Down => label_look(shape),
    }
}

/// How far after the place of lines a label begins: a play is indented in a picture that goes down.
pub fn indent(goes: Goes, shape: Shape) -> usize {
    match goes {
        Goes::Across => 0,
        Goes::Down => indent_down(shape),
    }
}

// The same in a picture that goes down.
fn indent_down(shape: Shape) -> usize {
    match shape {
        Shape::Played | Shape::Unhandled => 24,
        _ => 8,
    }
}

// How a label looks in a picture that goes down: a refusal is bold, and a play looks different from calls.
fn label_look(shape: Shape) -> &'static str {
    match shape {
        Shape::Refused => "#b3261e\" font-weight=\"bold",
        Shape::Played | Shape::Unhandled => "#5c4300",
        _ => "#202020",
    }
}

// The colour of the label of a mark.
fn label_ink(shape: Shape) -> &'static str {
    match shape {
        Shape::Refused => "#b3261e",
        _ => "#202020",
    }
}

// The opening of a label so far below its mark.
fn opening_below(alloc: Global, pixels: usize, look: &str) -> Result<String, AllocError> {
    format!(in alloc; "<text transform=\"translate(-3,{pixels}) rotate(90)\" fill=\"{look}\">")
}

// The opening of a label so far to the right of its mark.
fn opening_beside(alloc: Global, pixels: usize, look: &str) -> Result<String, AllocError> {
    format!(in alloc; "<text x=\"{pixels}\" y=\"4\" font-size=\"13\" fill=\"{look}\">")
}

// The opening of a label so far from its mark.
fn opening(alloc: Global, goes: Goes, pixels: usize, look: &str) -> Result<String, AllocError> {
    match goes {
        Goes::Across => opening_below(alloc, pixels, look),
        Goes::Down => opening_beside(alloc, pixels, look),
    }
}

/// Appends the label of a mark: what is shown of its line, so far from it, and the end of the mark.
pub fn put_label(
    alloc: Global,
    buffer: &mut Vec<u8>,
    goes: Goes,
    most: usize,
    pixels: usize,
    look: &str,
    line: &str,
) -> Result<(), AllocError> {
    let opened = opening(alloc, goes, pixels, look)?;
    put_text(buffer, opened.as_str())?;
    put_shown(buffer, line, most)?;
    buffer.extend_from_slice(b"</text></g>\n")
}
