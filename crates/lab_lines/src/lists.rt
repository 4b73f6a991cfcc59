//! The lists of a board, as a line has them.
ghost use Rattle.std.specs.Prelude.{◌≡◌, ◌++◌, ◌==◌, IfOk, OnOk, codes, flat_map, map};
ghost use Rattle.std.specs.List.{slice_split};
ghost use Rattle.lab_lines.specs.Boards as boards;
ghost use Rattle.lab_lines.specs.Boards.{count_line, kind_item, kinds_line, list_line, listed_line, repeated};

use crate::cuts::without;
use crate::small::put_bare;
use evl_scenario::number_of_text;
use std::alloc::{AllocError, Global};

/// The text that these bytes are; none where they are no UTF-8.
pub fn text_in(bytes: &[u8]) -> &str
    ensures { result.now ≡ boards.text_in bytes.now }
{
    match std::str::from_utf8(bytes) {
        Ok(text) => text,
        Err(_) => "",
    }
}

// A number of at most 64.
fn few(count: u64) -> Option<u64>
    ensures { result ≡ boards.few count }
{
    if count <= 64 { Some(count) } else { None }
}

// How many elements there are, where a number is in place of a list.
fn count_of(value: &[u8]) -> Option<u64>
    ensures { result ≡ boards.count_of value.now }
{
    match number_of_text(text_in(value)) {
        Some(count) => few(count),
        None => None,
    }
}

// The value of each of so many elements.
fn plain_item(key: &[u8]) -> &'static [u8]
    ensures { result.now ≡ boards.plain_item key.now }
{
    if key == b"xbufs".as_slice() {
        b"[256, 256], ".as_slice()
    } else if key == b"mutexes".as_slice() {
        b"\"normal\", ".as_slice()
    } else if key == b"groups".as_slice() {
        b"100, ".as_slice()
    } else {
        b"0, ".as_slice()
    }
}

// Puts the same so many times.
fn put_repeated(text: &mut Vec<u8>, count: u64, item: &[u8]) -> Result<(), AllocError>
    ensures { OnOk result (text.new.items ≡ text.old.items ++ repeated count item.now) }
{
    for done in 0..count {
        text.extend_from_slice(item)?;
    }
    Ok(())
}

// Puts so many elements.
fn put_count(text: &mut Vec<u8>, key: &[u8], count: u64) -> Result<(), AllocError>
    ensures { OnOk result (text.new.items ≡ text.old.items ++ count_line key.now count) }
{
    text.extend_from_slice(key)?;
    text.extend_from_slice(b" = [")?;
    put_repeated(text, count, plain_item(key))?;
    text.extend_from_slice(b"]\n")
}

// The pieces of a text between commas.
fn pieces_of(alloc: Global, text: &str) -> Result<Vec<&str>, AllocError>
    ensures { IfOk result (λ pieces. map (λ piece. piece.now) pieces.items ≡ slice_split (λ b. b == 44) text.now) }
{
    text.split(',').collect(alloc)
}

// Puts the kind of a mutex.
fn put_kind(text: &mut Vec<u8>, piece: &str) -> Result<(), AllocError>
    ensures { OnOk result (text.new.items ≡ text.old.items ++ kind_item piece.now) }
{
    let kind = piece.trim();
    if kind.is_empty() {
        return Ok(());
    }
    text.extend_from_slice(b"\"")?;
    text.extend_from_slice(kind.as_bytes())?;
    text.extend_from_slice(b"\", ")
}

// Puts the kinds of mutexes.
fn put_all_kinds(text: &mut Vec<u8>, pieces: &[&str]) -> Result<(), AllocError>
    ensures { OnOk result (text.new.items ≡ text.old.items ++ flat_map kind_item (map (λ piece. piece.now) pieces.now)) }
{
    for piece in pieces {
        put_kind(text, *piece)?;
    }
    Ok(())
}

// Puts a key with kinds of mutexes.
fn put_kinds(alloc: Global, text: &mut Vec<u8>, key: &[u8], value: &[u8]) -> Result<(), AllocError>
    ensures { OnOk result (text.new.items ≡ text.old.items ++ kinds_line key.now value.now) }
{
    let inner = without(alloc, value, b'[', b']')?;
    let pieces = pieces_of(alloc, text_in(inner.as_slice()))?;
    text.extend_from_slice(key)?;
    text.extend_from_slice(b" = [")?;
    put_all_kinds(text, pieces.as_slice())?;
    text.extend_from_slice(b"]\n")
}

// Puts a key with a list.
fn put_items(alloc: Global, text: &mut Vec<u8>, key: &[u8], value: &[u8]) -> Result<(), AllocError>
    ensures { OnOk result (text.new.items ≡ text.old.items ++ list_line key.now value.now) }
{
    if key == b"mutexes".as_slice() {
        put_kinds(alloc, text, key, value)
    } else {
        put_bare(text, key, value)
    }
}

/// Puts a key with a list, or with a number of elements. `AllocError` where memory couldn't grow.
pub fn put_list(
    alloc: Global,
    text: &mut Vec<u8>,
    key: &[u8],
    value: &[u8],
) -> Result<(), AllocError>
    ensures { OnOk result (text.new.items ≡ text.old.items ++ listed_line key.now value.now (boards.count_of value.now)) }
{
    match count_of(value) {
        Some(count) => put_count(text, key, count),
        None => put_items(alloc, text, key, value),
    }
}
