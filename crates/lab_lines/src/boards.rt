//! The line of a board, and the line of a limit.
ghost use Rattle.std.specs.Prelude.{◌≡◌, ◌++◌, IfOk, None, OnOk, flat_map};
ghost use Rattle.evl_scenario.specs.Scenarios.{scenario_of};
ghost use Rattle.lab_lines.specs.Boards as boards;
ghost use Rattle.lab_lines.specs.Boards.{before_board, board_text, in_board, key_line, limit_text};
ghost use Rattle.lab_lines.specs.Texts.{board_of_pairs, board_said, limit_said, opened_board, opened_limit, said_in, unread};

use crate::lines::{odd_key, told_of, unread_at};
use crate::lists::put_list;
use crate::places::{Pair, Part, bytes_at, odd_word, pairs_in};
use crate::says::Says;
use crate::small::put_quoted;
use evl_scenario::{Fault, read_scenario};
use lab_faults::check;
use std::alloc::{AllocError, Global};

// Whether a key has a list.
fn is_list(key: &[u8]) -> bool
    ensures { result ≡ boards.is_list key.now }
{
    key == b"sems".as_slice()
        || key == b"flags".as_slice()
        || key == b"xbufs".as_slice()
        || key == b"mutexes".as_slice()
        || key == b"groups".as_slice()
}

// Puts a key of the board with its value.
fn put_key(alloc: Global, text: &mut Vec<u8>, key: &[u8], value: &[u8]) -> Result<(), AllocError>
    ensures { OnOk result (text.new.items ≡ text.old.items ++ key_line key.now value.now) }
{
    if is_list(key) {
        put_list(alloc, text, key, value)
    } else {
        put_quoted(text, key, value)
    }
}

// Whether a key is that of the limit.
fn is_limit(key: &[u8]) -> bool
    ensures { result ≡ boards.is_limit key.now }
{
    key == b"limit".as_slice()
}

// Puts what a key is before the board.
fn put_before(text: &mut Vec<u8>, line: &[u8], pair: Pair) -> Result<(), AllocError>
    ensures { OnOk result (text.new.items ≡ text.old.items ++ before_board line.now pair) }
{
    let key = bytes_at(line, pair.key);
    if is_limit(key) {
        put_quoted(text, key, bytes_at(line, pair.value))
    } else {
        text.extend_from_slice(b"\n")
    }
}

// Puts what a key is in the board.
fn put_in(alloc: Global, text: &mut Vec<u8>, line: &[u8], pair: Pair) -> Result<(), AllocError>
    ensures { OnOk result (text.new.items ≡ text.old.items ++ in_board line.now pair) }
{
    let key = bytes_at(line, pair.key);
    if is_limit(key) {
        text.extend_from_slice(b"\n")
    } else {
        put_key(alloc, text, key, bytes_at(line, pair.value))
    }
}

// Puts what keys are before the board.
fn put_all_before(text: &mut Vec<u8>, line: &[u8], pairs: &[Pair]) -> Result<(), AllocError>
    ensures { OnOk result (text.new.items ≡ text.old.items ++ flat_map (before_board line.now) pairs.now) }
{
    for pair in pairs {
        put_before(text, line, *pair)?;
    }
    Ok(())
}

// Puts what keys are in the board.
fn put_all_in(
    alloc: Global,
    text: &mut Vec<u8>,
    line: &[u8],
    pairs: &[Pair],
) -> Result<(), AllocError>
    ensures { OnOk result (text.new.items ≡ text.old.items ++ flat_map (in_board line.now) pairs.now) }
{
    for pair in pairs {
        put_in(alloc, text, line, *pair)?;
    }
    Ok(())
}

// The small scenario of a board with these keys.
fn board_scenario(alloc: Global, line: &[u8], pairs: &[Pair]) -> Result<Vec<u8>, AllocError>
    ensures { IfOk result (λ text. text.items ≡ board_text line.now pairs.now) }
{
    let mut text = Vec::new(alloc);
    put_all_before(&mut text, line, pairs)?;
    text.extend_from_slice(b"[board]\n")?;
    put_all_in(alloc, &mut text, line, pairs)?;
    Ok(text)
}

// The byte of the line that a line of the small scenario comes from: that of a key, which has a line in both parts.
fn place_of(small_line: usize, pairs: &[Pair]) -> usize {
    let at = small_line.saturating_sub(1);
    let index = if at < pairs.len() {
        at
    } else {
        at.saturating_sub(pairs.len()).saturating_sub(1)
    };
    match pairs.get(index) {
        Some(pair) => pair.key.from,
        None => 0,
    }
}

// The words on what was wanted in a line whose small scenario can't be read.
fn explain(alloc: Global, text: &[u8], pairs: &[Pair]) -> Result<Says, AllocError>
    ensures { IfOk result (λ says. said_in says ≡ unread) }
{
    let found = check(alloc, text)?;
    match found.first() {
        Some(first) => {
            let at = place_of(first.place.line, pairs);
            Ok(Says::Unread(unread_at(alloc, at, told_of(first.words.as_str()))?))
        }
        None => Ok(Says::Unread(unread_at(
            alloc,
            0,
            "a board is wanted, as board threads=2 sems=[0, 1]",
        )?)),
    }
}

// All that the small scenario of a board says.
fn read_opening(alloc: Global, text: &[u8], pairs: &[Pair]) -> Result<Says, AllocError>
    ensures { IfOk result (λ says. said_in says ≡ opened_board (scenario_of None text.now)) }
{
    match read_scenario(alloc, text, None) {
        Ok(scenario) => {
            let (board, limit, _) = scenario.into_parts();
            Ok(Says::Board(board, limit))
        }
        Err(Fault::Memory) => Err(AllocError),
        Err(_) => explain(alloc, text, pairs),
    }
}

// All that the keys of a board say.
fn read_pairs(alloc: Global, line: &[u8], pairs: &[Pair]) -> Result<Says, AllocError>
    ensures { IfOk result (λ says. said_in says ≡ board_of_pairs line.now pairs.now) }
{
    match odd_key(line, pairs) {
        Some(odd) => Ok(Says::Unread(unread_at(alloc, odd.from, "a key of letters is wanted")?)),
        None => {
            let text = board_scenario(alloc, line, pairs)?;
            read_opening(alloc, text.as_slice(), pairs)
        }
    }
}

/// All that the words after `board` say. `AllocError` where memory couldn't grow.
pub fn read_board(alloc: Global, line: &[u8], rest: &[Part]) -> Result<Says, AllocError>
    ensures { IfOk result (λ says. said_in says ≡ board_said line.now rest.now) }
{
    match odd_word(line, rest) {
        Some(odd) => Ok(Says::Unread(unread_at(
            alloc,
            odd.from,
            "a key with its value is wanted, as threads=2",
        )?)),
        None => {
            let pairs = pairs_in(alloc, line, rest)?;
            read_pairs(alloc, line, pairs.as_slice())
        }
    }
}

// The small scenario of a limit.
fn limit_scenario(alloc: Global, value: &[u8]) -> Result<Vec<u8>, AllocError>
    ensures { IfOk result (λ text. text.items ≡ limit_text value.now) }
{
    let mut text = Vec::new(alloc);
    put_quoted(&mut text, b"limit", value)?;
    text.extend_from_slice(b"[board]\nthreads = 1\n")?;
    Ok(text)
}

// The fault that a limit is wanted at a byte.
fn no_limit(alloc: Global, at: usize) -> Result<Says, AllocError>
    ensures { IfOk result (λ says. said_in says ≡ unread) }
{
    Ok(Says::Unread(unread_at(
        alloc,
        at,
        "a number from 1 to 1000000 is wanted, as limit 100",
    )?))
}

// All that the small scenario of a limit says, whose value is at a byte.
fn read_limit_text(alloc: Global, text: &[u8], at: usize) -> Result<Says, AllocError>
    ensures { IfOk result (λ says. said_in says ≡ opened_limit (scenario_of None text.now)) }
{
    match read_scenario(alloc, text, None) {
        Ok(scenario) => {
            let (_, limit, _) = scenario.into_parts();
            Ok(Says::Limit(limit))
        }
        Err(Fault::Memory) => Err(AllocError),
        Err(_) => no_limit(alloc, at),
    }
}

/// All that the words after `limit` say. `AllocError` where memory couldn't grow.
pub fn read_limit(alloc: Global, line: &[u8], rest: &[Part]) -> Result<Says, AllocError>
    ensures { IfOk result (λ says. said_in says ≡ limit_said line.now rest.now) }
{
    match rest {
        [value] => {
            let text = limit_scenario(alloc, bytes_at(line, *value))?;
            read_limit_text(alloc, text.as_slice(), value.from)
        }
        _ => no_limit(alloc, 0),
    }
}
