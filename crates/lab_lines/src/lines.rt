//! The step that a line asks for.
ghost use Rattle.std.specs.Prelude.{◌≡◌, ◌<◌, ◌+◌, IfOk, IsTrue, None, Ok, drop, min, string_bytes};
ghost use Rattle.std.specs.List.{list_all};
ghost use Rattle.evl_scenario.specs.Scenarios.{scenario_of};
ghost use Rattle.lab_lines.specs.Lines as lines;
ghost use Rattle.lab_lines.specs.Lines.{heard_step, step_of_call, step_of_line, step_of_pairs, step_of_plain, step_of_said, step_of_thread, step_of_words};

use crate::cuts::{column_in, odd_byte, past_number, said_of, unquoted};
use crate::places::{Pair, Part, bytes_at, odd_word, pairs_in, words_in};
use crate::small::{WORD_LINE, small_scenario};
use evl_scenario::{Fault, Scenario, Step, read_scenario};
use lab_faults::check;
use std::alloc::{AllocError, Global};

/// A line that can't be read: the byte, from 1, and what was wanted there.
#[derive(Drop)]
pub struct Unread {
    pub column: usize,
    pub words: String,
}

/// A line that was read as a step, or couldn't be.
#[derive(Drop)]
pub enum Heard {
    Step(Step),
    Unread(Unread),
}

/// A line that can't be read at a byte.
pub fn unread_at(alloc: Global, at: usize, words: &str) -> Result<Unread, AllocError>
    ensures column { IfOk result (λ unread. unread.column ≡ min (at + 1) 18446744073709551615) }
    ensures words { IfOk result (λ unread. string_bytes unread.words ≡ words.now) }
{
    Ok(Unread {
        column: at.saturating_add(1),
        words: String::from_str(alloc, words)?,
    })
}

// Whether a byte can be in a key.
fn is_key_byte(byte: u8) -> bool
    ensures { result ≡ lines.is_key_byte byte }
{
    byte.is_ascii_alphanumeric() || byte == b'_'
}

// Whether all bytes can be in a key.
fn has_key_bytes(key: &[u8]) -> bool
    ensures { result ≡ list_all lines.is_key_byte key.now }
{
    key.iter().all(|byte| is_key_byte(*byte))
}

// Whether a key has only letters, digits and underscores, and one of them.
fn is_plain_key(key: &[u8]) -> bool
    ensures { result ≡ lines.is_plain_key key.now }
{
    !key.is_empty() && has_key_bytes(key)
}

/// The first key that isn't plain.
pub fn odd_key(line: &[u8], pairs: &[Pair]) -> Option<Part>
    ensures { result ≡ lines.odd_key line.now pairs.now }
{
    for pair in pairs {
        if !is_plain_key(bytes_at(line, pair.key)) {
            return Some(pair.key);
        }
    }
    None
}

// The byte of the line that a line of the small scenario comes from: its word's, its thread's, or a key's.
fn place_of(small_line: usize, word: Part, thread: Part, pairs: &[Pair]) -> usize
    ensures { result ≡ lines.place_of small_line word thread pairs.now }
{
    let number = small_line.saturating_sub(WORD_LINE);
    match number {
        0 => word.from,
        1 => thread.from,
        _ => match pairs.get(number.saturating_sub(2)) {
            Some(pair) => pair.key.from,
            None => word.from,
        },
    }
}

/// The report of a step that can't be read, without the step's number, which is that of the small scenario.
pub fn told_of(words: &str) -> &str {
    words.strip_prefix("step 1: ").unwrap_or(words)
}

// The words on what was wanted in a line whose small scenario can't be read.
fn explain(
    alloc: Global,
    text: &[u8],
    word: Part,
    thread: Part,
    pairs: &[Pair],
) -> Result<Unread, AllocError> {
    let found = check(alloc, text)?;
    match found.first() {
        Some(first) => {
            let at = place_of(first.place.line, word, thread, pairs);
            unread_at(alloc, at, told_of(first.words.as_str()))
        }
        None => unread_at(alloc, 0, "a call is wanted, as T0 put sem=0"),
    }
}

// The last step of a scenario.
fn last_step(scenario: Scenario) -> Option<Step>
    ensures { result ≡ lines.last_step (Ok scenario) }
{
    let (_, _, mut steps) = scenario.into_parts();
    steps.pop()
}

// The step of a small scenario.
fn read_small(
    alloc: Global,
    text: &[u8],
    word: Part,
    thread: Part,
    pairs: &[Pair],
) -> Result<Heard, AllocError>
    ensures { IfOk result (λ heard. heard_step heard ≡ lines.last_step (scenario_of None text.now)) }
{
    match read_scenario(alloc, text, None) {
        Ok(scenario) => match last_step(scenario) {
            Some(step) => Ok(Heard::Step(step)),
            None => Ok(Heard::Unread(unread_at(alloc, 0, "a call is wanted, as T0 put sem=0")?)),
        },
        Err(Fault::Memory) => Err(AllocError),
        Err(_) => Ok(Heard::Unread(explain(alloc, text, word, thread, pairs)?)),
    }
}

// The step of a word with its keys and their values, each of which is plain.
fn read_pairs(
    alloc: Global,
    line: &[u8],
    thread: Part,
    word: Part,
    pairs: &[Pair],
) -> Result<Heard, AllocError>
    ensures { IfOk result (λ heard. heard_step heard ≡ step_of_pairs line.now thread word pairs.now) }
{
    match odd_key(line, pairs) {
        Some(odd) => Ok(Heard::Unread(unread_at(alloc, odd.from, "a key of letters is wanted")?)),
        None => {
            let text = small_scenario(alloc, line, word, thread, pairs)?;
            read_small(alloc, text.as_slice(), word, thread, pairs)
        }
    }
}

// The step of a thread's call: its word, and its keys with their values.
fn read_call(
    alloc: Global,
    line: &[u8],
    thread: Part,
    word: Part,
    rest: &[Part],
) -> Result<Heard, AllocError>
    ensures { IfOk result (λ heard. heard_step heard ≡ step_of_call line.now thread word rest.now) }
{
    match odd_word(line, rest) {
        Some(odd) => Ok(Heard::Unread(unread_at(
            alloc,
            odd.from,
            "a key with its value is wanted, as sem=0",
        )?)),
        None => {
            let pairs = pairs_in(alloc, line, rest)?;
            read_pairs(alloc, line, thread, word, pairs.as_slice())
        }
    }
}

// Whether a word begins as a thread.
fn begins_thread(line: &[u8], first: Part) -> bool
    ensures begins { result ≡ lines.begins_thread line.now first }
    ensures within { IsTrue result → first.from < 18446744073709551615 }
{
    first.from < line.len() && line[first.from] == b'T'
}

// The step of a line's first word, which has to be a thread, its second one and the others.
fn read_thread(
    alloc: Global,
    line: &[u8],
    first: Part,
    word: Part,
    rest: &[Part],
) -> Result<Heard, AllocError>
    ensures { IfOk result (λ heard. heard_step heard ≡ step_of_thread line.now first word rest.now) }
{
    if begins_thread(line, first) {
        let thread = Part {
            from: first.from + 1,
            to: first.to,
        };
        read_call(alloc, line, thread, word, rest)
    } else {
        Ok(Heard::Unread(unread_at(alloc, first.from, "a thread is wanted, as T0")?))
    }
}

// The words after the first two.
fn behind_two(words: &[Part]) -> &[Part]
    ensures { result.now ≡ drop 2 words.now }
{
    words.get(2..).unwrap_or(&[])
}

/// The step of a line's words: a thread, its call, and keys with values.
pub fn read_words(alloc: Global, line: &[u8], words: &[Part]) -> Result<Heard, AllocError>
    ensures { IfOk result (λ heard. heard_step heard ≡ step_of_words line.now words.now) }
{
    match words {
        [first, word, ..] => read_thread(alloc, line, *first, *word, behind_two(words)),
        _ => Ok(Heard::Unread(unread_at(
            alloc,
            0,
            "a thread and its call are wanted, as T0 put sem=0",
        )?)),
    }
}

// The step of the words that are said in a line without quotes.
fn read_said(alloc: Global, line: &[u8], words: &[Part]) -> Result<Heard, AllocError>
    ensures { IfOk result (λ heard. heard_step heard ≡ step_of_said line.now words.now) }
{
    match odd_byte(line, words) {
        Some(at) => Ok(Heard::Unread(unread_at(
            alloc,
            at,
            "a letter, a digit or a sign is wanted",
        )?)),
        None => read_words(alloc, line, past_number(line, words)),
    }
}

// The step that a line without quotes asks for.
fn read_plain(alloc: Global, line: &[u8]) -> Result<Heard, AllocError>
    ensures { IfOk result (λ heard. heard_step heard ≡ step_of_plain line.now) }
{
    let words = words_in(alloc, line)?;
    read_said(alloc, line, said_of(line, words.as_slice()))
}

/// The place at which a line can't be read, by that place without its quotes.
pub fn unread_in(line: &[u8], unread: Unread) -> Unread {
    Unread {
        column: column_in(line, unread.column),
        words: unread.words,
    }
}

// All that was heard of a line without quotes, with its place in the line.
fn placed_in(line: &[u8], heard: Heard) -> Heard
    ensures { heard_step result ≡ heard_step heard }
{
    match heard {
        Heard::Step(step) => Heard::Step(step),
        Heard::Unread(unread) => Heard::Unread(unread_in(line, unread)),
    }
}

/// The step that a line asks for, as a trace writes it: `T0 put sem=0`, with keys in any order, and without those that
/// a scenario may leave out; a number before it, quotes, an answer after it and a comment say nothing. Else where it
/// can't be read, and what was wanted there. `AllocError` where memory couldn't grow.
pub fn read_step_line(alloc: Global, line: &[u8]) -> Result<Heard, AllocError>
    ensures { IfOk result (λ heard. heard_step heard ≡ step_of_line line.now) }
{
    let plain = unquoted(alloc, line)?;
    let heard = read_plain(alloc, plain.as_slice())?;
    Ok(placed_in(line, heard))
}
