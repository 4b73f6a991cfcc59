//! The small scenario that a line means: one step, each of its keys on a line of its own.
ghost use Rattle.std.specs.Prelude.{◌≡◌, ◌++◌, IfOk, OnOk, flat_map};
ghost use Rattle.lab_lines.specs.Lines.{bare_line, pair_line, pair_line_of, quoted_line, small_text};

use crate::places::{Pair, Part, bytes_at};
use std::alloc::{AllocError, Global};

/// The line of the small scenario on which the step's word is; that of its thread follows, and then those of its
/// keys.
pub const WORD_LINE: usize = 4;

/// Writes a key with a value in quotes on a line.
pub fn put_quoted(text: &mut Vec<u8>, key: &[u8], value: &[u8]) -> Result<(), AllocError>
    ensures { OnOk result (text.new.items ≡ text.old.items ++ quoted_line key.now value.now) }
{
    text.extend_from_slice(key)?;
    text.extend_from_slice(b" = \"")?;
    text.extend_from_slice(value)?;
    text.extend_from_slice(b"\"\n")
}

/// Writes a key with a value as it is on a line.
pub fn put_bare(text: &mut Vec<u8>, key: &[u8], value: &[u8]) -> Result<(), AllocError>
    ensures { OnOk result (text.new.items ≡ text.old.items ++ bare_line key.now value.now) }
{
    text.extend_from_slice(key)?;
    text.extend_from_slice(b" = ")?;
    text.extend_from_slice(value)?;
    text.extend_from_slice(b"\n")
}

// Writes a key with its value: a truth value without quotes, and no bytes where the line has a dash.
fn put_pair(text: &mut Vec<u8>, key: &[u8], value: &[u8]) -> Result<(), AllocError>
    ensures { OnOk result (text.new.items ≡ text.old.items ++ pair_line key.now value.now) }
{
    if key == b"keep".as_slice() && (value == b"true".as_slice() || value == b"false".as_slice()) {
        return put_bare(text, key, value);
    }
    if key == b"bytes".as_slice() && value == b"-".as_slice() {
        return put_quoted(text, key, b"");
    }
    put_quoted(text, key, value)
}

// Writes keys with their values.
fn put_pairs(text: &mut Vec<u8>, line: &[u8], pairs: &[Pair]) -> Result<(), AllocError>
    ensures { OnOk result (text.new.items ≡ text.old.items ++ flat_map (pair_line_of line.now) pairs.now) }
{
    for pair in pairs {
        put_pair(text, bytes_at(line, pair.key), bytes_at(line, pair.value))?;
    }
    Ok(())
}

/// The small scenario of a word, a thread's number and keys with values. `AllocError` where memory couldn't grow.
pub fn small_scenario(
    alloc: Global,
    line: &[u8],
    word: Part,
    thread: Part,
    pairs: &[Pair],
) -> Result<Vec<u8>, AllocError>
    ensures { IfOk result (λ text. text.items ≡ small_text line.now word thread pairs.now) }
{
    let mut text = Vec::new(alloc);
    text.extend_from_slice(b"[board]\nthreads = 1\n[[step]]\n")?;
    put_quoted(&mut text, b"do", bytes_at(line, word))?;
    put_quoted(&mut text, b"who", bytes_at(line, thread))?;
    put_pairs(&mut text, line, pairs)?;
    Ok(text)
}
