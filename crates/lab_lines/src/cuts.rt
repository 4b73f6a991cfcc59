//! The part of a line that is said: without quotes, before a comment and an answer, and after the number of an entry.
ghost use Rattle.std.specs.Prelude.{◌≡◌, IfOk, drop, is_some, position};
ghost use Rattle.std.specs.List.{list_all};
ghost use Rattle.lab_lines.specs.Lines as lines;
ghost use Rattle.lab_lines.specs.Lines.{ends_said, has_odd, up_to_word};

use crate::places::{Part, bytes_at};
use std::alloc::{AllocError, Global};

/// The bytes that are none of two. `AllocError` where memory couldn't grow.
pub fn without(alloc: Global, bytes: &[u8], first: u8, second: u8) -> Result<Vec<u8>, AllocError>
    ensures { IfOk result (λ kept. kept.items ≡ lines.without first second bytes.now) }
{
    let mut kept = Vec::new(alloc);
    for byte in bytes {
        if !(*byte == first || *byte == second) {
            kept.push(*byte)?;
        }
    }
    Ok(kept)
}

/// A line without its quotes. `AllocError` where memory couldn't grow.
pub fn unquoted(alloc: Global, line: &[u8]) -> Result<Vec<u8>, AllocError>
    ensures { IfOk result (λ plain. plain.items ≡ lines.unquoted line.now) }
{
    without(alloc, line, b'"', b'"')
}

/// The byte of a line at which a byte of the line without quotes is; both count from 1.
pub fn column_in(line: &[u8], column: usize) -> usize {
    let mut left = column;
    for (at, byte) in line.iter().enumerate() {
        if *byte != b'"' {
            left = left.saturating_sub(1);
        }
        if left == 0 {
            return at.saturating_add(1);
        }
    }
    line.len().saturating_add(1)
}

// Whether a word ends what is said.
fn is_end(line: &[u8], word: Part) -> bool
    ensures { result ≡ ends_said line.now word }
{
    let bytes = bytes_at(line, word);
    bytes.first().copied().unwrap_or(0) == b'#' || bytes == b"->".as_slice()
}

/// The place of the word that ends what is said: a comment, or the arrow before an answer.
pub fn end_of(line: &[u8], words: &[Part]) -> Option<usize>
    ensures { result ≡ position (ends_said line.now) words.now }
{
    words.iter().position(|word| is_end(line, *word))
}

/// Those of a line's words that are before a comment and an answer.
pub fn said_of<'a>(line: &[u8], words: &'a [Part]) -> &'a [Part]
    ensures { result.now ≡ up_to_word words.now (position (ends_said line.now) words.now) }
{
    match end_of(line, words) {
        Some(at) => words.get(..at).unwrap_or(words),
        None => words,
    }
}

// Whether a byte can't be in a line.
fn is_odd(byte: u8) -> bool
    ensures { result ≡ lines.is_odd byte }
{
    !(32 <= byte && byte <= 126) || byte == b'\\'
}

// The first byte that can't be in a line.
fn odd_in(bytes: &[u8]) -> Option<usize>
    ensures { result ≡ position lines.is_odd bytes.now }
{
    bytes.iter().position(|byte| is_odd(*byte))
}

/// The first byte of these words that can't be in a line.
pub fn odd_byte(line: &[u8], words: &[Part]) -> Option<usize>
    ensures { is_some result ≡ has_odd line.now words.now }
{
    for word in words {
        if let Some(at) = odd_in(bytes_at(line, *word)) {
            return Some(word.from.saturating_add(at));
        }
    }
    None
}

// Whether a byte is a digit.
fn is_digit(byte: u8) -> bool
    ensures { result ≡ lines.is_digit byte }
{
    b'0' <= byte && byte <= b'9'
}

/// Whether all bytes are digits.
pub fn has_digits(word: &[u8]) -> bool
    ensures { result ≡ list_all lines.is_digit word.now }
{
    word.iter().all(|byte| is_digit(*byte))
}

/// Whether a word is the number of an entry, or a dash.
pub fn is_number(word: &[u8]) -> bool
    ensures { result ≡ lines.is_number word.now }
{
    word == b"-".as_slice() || (!word.is_empty() && has_digits(word))
}

// Whether the first of these words is the number of an entry.
fn is_numbered(line: &[u8], words: &[Part]) -> bool
    ensures { result ≡ lines.is_numbered line.now words.now }
{
    match words.first() {
        Some(first) => is_number(bytes_at(line, *first)),
        None => false,
    }
}

/// The words after the first.
pub fn behind_first(words: &[Part]) -> &[Part]
    ensures { result.now ≡ drop 1 words.now }
{
    words.get(1..).unwrap_or(&[])
}

/// The words after the number of an entry, if they begin with one.
pub fn past_number<'a>(line: &[u8], words: &'a [Part]) -> &'a [Part]
    ensures { result.now ≡ lines.past_number line.now words.now }
{
    if is_numbered(line, words) {
        behind_first(words)
    } else {
        words
    }
}
