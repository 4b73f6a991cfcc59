//! The keys `expect` of a text of tables, and the scenario without them.
ghost use Rattle.std.specs.Prelude.{◌≡◌, ◌≤◌, ◌-◌, ◌++◌, ◌∷◌, List, IfErr, IfOk, OnOk, find, flat_map, length, map, take};
ghost use Rattle.std.specs.List.{list_all, prefix_len};
ghost use Rattle.lab_faults.specs.Steps.{as_text, bytes_between, unquoted};
ghost use Rattle.lab_faults.specs.declared.items.Item.{Item as Key};
ghost use Rattle.lab_lines.specs.Tables as tables;
ghost use Rattle.lab_lines.specs.Tables.{IsFaultOf, blanked_from, blanks, expects_in, expects_of_tables, expects_unless, is_expect, is_unfit, item_expects, keys_of, line_at, past_comma, unexpecting};

use crate::lists::text_in;
use lab_faults::{Item, bare, items_of, number_of, slice};
use std::alloc::{AllocError, Global};

/// An answer that a text expects of a step, as a trace writes it, and the line that says so. Both count from 1.
#[derive(Drop)]
pub struct Expected {
    pub line: usize,
    pub step: usize,
    pub answer: String,
}

/// Why it can't be read what a text expects.
#[derive(Clone, Copy, PartialEq, Eq)]
pub enum ExpectFault {
    /// The line of an `expect` that has no answer, and its step; both count from 1.
    NoAnswer(usize, usize),
    /// A growth was refused.
    Memory,
}

// The most bytes that a scenario may have.
const MOST: usize = 1_048_576;

// The keys of a text that isn't too long for a scenario.
fn keys_in(alloc: Global, text: &[u8]) -> Result<Vec<Item>, AllocError>
    ensures { IfOk result (λ keys. keys.items ≡ keys_of text.now) }
{
    if text.len() <= MOST {
        Ok(items_of(alloc, text)?.items)
    } else {
        Ok(Vec::new(alloc))
    }
}

// Whether a key is `expect`, and is in a step.
fn is_expect(text: &[u8], item: Item) -> bool
    ensures { result ≡ is_expect text.now item }
{
    bare(slice(text, item.key)) == b"expect".as_slice() && !(number_of(item.section) == 0)
}

// Whether a byte can be in an answer.
fn is_answer_byte(byte: u8) -> bool
    ensures { result ≡ tables.is_answer_byte byte }
{
    !(!(32 <= byte && byte <= 126) || byte == b'\\' || byte == b'"' || byte == b'\'')
}

// Whether all bytes can.
fn are_of_answer(bytes: &[u8]) -> bool
    ensures { result ≡ list_all tables.is_answer_byte bytes.now }
{
    bytes.iter().all(|byte| is_answer_byte(*byte))
}

// Whether a value is in quotes.
fn is_quoted(value: &[u8]) -> bool
    ensures { result ≡ tables.is_quoted value.now }
{
    match value {
        [b'"', .., b'"'] => true,
        [b'\'', .., b'\''] => true,
        _ => false,
    }
}

// Whether a value is an answer.
fn is_answer(value: &[u8]) -> bool
    ensures { result ≡ tables.is_answer value.now }
{
    is_quoted(value) && are_of_answer(bare(value))
}

// Whether a key is `expect`, and its value no answer.
fn is_unfit(text: &[u8], item: Item) -> bool
    ensures { result ≡ is_unfit text.now item }
{
    is_expect(text, item) && !is_answer(slice(text, item.value))
}

// The first such key.
fn first_unfit(text: &[u8], keys: &[Item]) -> Option<Item>
    ensures { result ≡ find (is_unfit text.now) keys.now }
{
    for item in keys {
        if is_unfit(text, *item) {
            return Some(*item);
        }
    }
    None
}

// How many lines end in some bytes.
fn ends_in(bytes: &[u8]) -> usize
    ensures count { result ≡ tables.ends_in bytes.now }
    ensures few { result ≤ length bytes.now }
{
    let mut count: usize = 0;
    for byte in bytes {
        if *byte == b'\n' {
            count += 1;
        }
    }
    count
}

// A byte of a text, and its line.
#[derive(Clone, Copy)]
struct Spot {
    at: usize,
    line: usize,
}

// The first bytes, so many.
fn front(bytes: &[u8], count: usize) -> &[u8]
    ensures bytes { result.now ≡ take count bytes.now }
    ensures few { length result.now ≤ length bytes.now }
{
    bytes.get(..count).unwrap_or(bytes)
}

// The bytes of a text from one on.
fn bytes_from(text: &[u8], at: usize) -> &[u8]
    ensures bytes { result.now ≡ tables.rest_of text.now at }
    ensures few { length result.now ≡ length text.now - at }
{
    text.get(at..).unwrap_or(&[])
}

// The spot of the first byte.
#[tactic(auto, using(crate::proofs::TableLaws::line_first))]
fn first_spot(text: &[u8]) -> Spot
    ensures { result.line ≡ line_at text.now result.at }
{
    let _ = text;
    Spot { at: 0, line: 1 }
}

// The spot of a byte, by another.
#[tactic(auto, using(crate::proofs::TableLaws::line_on, crate::proofs::TableLaws::line_few, crate::proofs::TableLaws::line_is))]
fn spot_at(text: &[u8], before: Spot, at: usize) -> Spot
    requires { before.line ≡ line_at text.now before.at }
    ensures at { result.at ≡ at }
    ensures line { result.line ≡ line_at text.now at }
{
    if before.at <= at {
        let between = front(bytes_from(text, before.at), at - before.at);
        let line = before.line + ends_in(between);
        Spot { at, line }
    } else {
        let line = 1 + ends_in(front(text, at));
        Spot { at, line }
    }
}

// Puts what a key expects after others, and answers the spot of the last such key.
fn put_expected(
    alloc: Global,
    all: &mut Vec<Expected>,
    text: &[u8],
    before: Spot,
    item: Item,
) -> Result<Spot, AllocError>
    requires { before.line ≡ line_at text.now before.at }
    ensures all { OnOk result (map expects_in all.new.items ≡ map expects_in all.old.items ++ item_expects text.now item) }
    ensures spot { IfOk result (λ spot. spot.line ≡ line_at text.now spot.at) }
{
    if !is_expect(text, item) {
        return Ok(before);
    }
    let spot = spot_at(text, before, item.key.0);
    let words = text_in(bare(slice(text, item.value)));
    let answer = String::from_str(alloc, words)?;
    all.push(Expected {
        line: spot.line,
        step: number_of(item.section),
        answer,
    })?;
    Ok(spot)
}

// The answers that keys expect.
fn expected_by(alloc: Global, text: &[u8], keys: &[Item]) -> Result<Vec<Expected>, AllocError>
    ensures { IfOk result (λ all. map expects_in all.items ≡ flat_map (item_expects text.now) keys.now) }
{
    let mut all = Vec::new(alloc);
    let mut spot = first_spot(text);
    for item in keys {
        spot = put_expected(alloc, &mut all, text, spot, *item)?;
    }
    Ok(all)
}

// Why nothing is read of keys of which one has no answer.
fn no_answer(text: &[u8], item: Item) -> ExpectFault
    ensures { result ≡ ExpectFault.NoAnswer (line_at text.now item.key.0) (tables.number_in item) }
{
    let spot = spot_at(text, first_spot(text), item.key.0);
    ExpectFault::NoAnswer(spot.line, number_of(item.section))
}

// The answers that keys expect, where one key may have none.
fn expected_unless(
    alloc: Global,
    text: &[u8],
    keys: &[Item],
    unfit: Option<Item>,
) -> Result<Vec<Expected>, ExpectFault>
    requires { keys.now ≡ keys_of text.now }
    ensures read { IfOk result (λ all. expects_unless text.now unfit ≡ Ok (map expects_in all.items)) }
    ensures refused { IfErr result (IsFaultOf (expects_unless text.now unfit)) }
{
    match unfit {
        Some(item) => Err(no_answer(text, item)),
        None => match expected_by(alloc, text, keys) {
            Ok(all) => Ok(all),
            Err(_) => Err(ExpectFault::Memory),
        },
    }
}

/// The answers that the keys `expect` of a text of tables expect, in order of steps. `NoAnswer` where a value is none.
pub fn expected_in_tables(alloc: Global, text: &[u8]) -> Result<Vec<Expected>, ExpectFault>
    ensures read { IfOk result (λ all. expects_of_tables text.now ≡ Ok (map expects_in all.items)) }
    ensures refused { IfErr result (IsFaultOf (expects_of_tables text.now)) }
{
    match keys_in(alloc, text) {
        Ok(keys) => {
            let unfit = first_unfit(text, keys.as_slice());
            expected_unless(alloc, text, keys.as_slice(), unfit)
        }
        Err(_) => Err(ExpectFault::Memory),
    }
}

// A blank in place of a byte, but for the end of a line.
fn blank(byte: u8) -> u8
    ensures { result ≡ tables.blank_byte byte }
{
    if byte == b'\n' { b'\n' } else { b' ' }
}

// Puts blanks in place of bytes.
fn put_blanks(out: &mut Vec<u8>, bytes: &[u8]) -> Result<(), AllocError>
    ensures { OnOk result (out.new.items ≡ out.old.items ++ map tables.blank_byte bytes.now) }
{
    for byte in bytes {
        out.push(blank(*byte))?;
    }
    Ok(())
}

// Whether a byte is a blank, or the end of a line.
fn is_white(byte: u8) -> bool
    ensures { result ≡ tables.is_white byte }
{
    byte == b' ' || byte == b'\t' || byte == b'\r' || byte == b'\n'
}

// How many such bytes are in front.
fn white_front(bytes: &[u8]) -> usize
    ensures { result ≡ prefix_len tables.is_white bytes.now }
{
    for (index, byte) in bytes.iter().enumerate() {
        if !is_white(*byte) {
            return index;
        }
    }
    bytes.len()
}

// The end of a comma after a byte, or that byte.
fn past_comma(text: &[u8], at: usize) -> usize
    ensures { result ≡ past_comma text.now at }
{
    let rest = bytes_from(text, at);
    let white = white_front(rest);
    if white < rest.len() && rest[white] == b',' {
        at + white + 1
    } else {
        at
    }
}

// Puts a text up to a key, and blanks in place of the key, if it is `expect`; what comes after it is still to be put.
fn put_without(out: &mut Vec<u8>, text: &[u8], at: usize, item: Item) -> Result<usize, AllocError>
    ensures { IfOk result (λ next. (rest : List Key) → out.new.items ++ blanked_from text.now next rest ≡ out.old.items ++ blanked_from text.now at (item ∷ rest)) }
{
    if !is_expect(text, item) {
        return Ok(at);
    }
    let end = past_comma(text, item.value.1);
    out.extend_from_slice(slice(text, (at, item.key.0)))?;
    put_blanks(out, slice(text, (item.key.0, end)))?;
    Ok(end)
}

// A text without what these keys expect.
fn without_expected(alloc: Global, text: &[u8], keys: &[Item]) -> Result<Vec<u8>, AllocError>
    ensures { IfOk result (λ out. out.items ≡ blanked_from text.now 0 keys.now) }
{
    let mut out = Vec::new(alloc);
    let mut at = 0usize;
    for item in keys {
        at = put_without(&mut out, text, at, *item)?;
    }
    out.extend_from_slice(bytes_from(text, at))?;
    Ok(out)
}

/// The scenario in a text of tables: blanks are in place of what it expects, so each byte is at its place.
/// `AllocError` where memory couldn't grow.
#[tactic(auto, unfolding(crate::specs::Tables::unexpecting))]
pub fn unexpecting(alloc: Global, text: &[u8]) -> Result<Vec<u8>, AllocError>
    ensures { IfOk result (λ out. out.items ≡ unexpecting text.now) }
{
    let keys = keys_in(alloc, text)?;
    without_expected(alloc, text, keys.as_slice())
}
