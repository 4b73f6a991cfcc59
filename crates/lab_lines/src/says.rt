//! All that a line of a text says.
ghost use Rattle.std.specs.Prelude.{◌≡◌, ◌∷◌, List, IfOk, drop};
ghost use Rattle.lab_lines.specs.Lines.{heard_step};
ghost use Rattle.lab_lines.specs.Texts as texts;
ghost use Rattle.lab_lines.specs.Texts.{said_as, said_by, said_in, said_of, said_of_plain, said_of_words};
ghost use Rattle.lab_lines.specs.declared.places.Part.{Part as Word};

use crate::boards::{read_board, read_limit};
use crate::cuts::{behind_first, odd_byte, past_number, said_of, unquoted};
use crate::lines::{Heard, Unread, read_words, unread_at, unread_in};
use crate::places::{Part, bytes_at, words_in};
use evl_base::Board;
use evl_scenario::Step;
use std::alloc::{AllocError, Global};

/// The things that a line can say.
#[derive(Drop)]
pub enum Says {
    /// It is empty, a comment, or a play of a trace.
    Nothing,
    /// The board, and its limit.
    Board(Board, u32),
    Limit(u32),
    /// A step that is set up.
    Setup(Step),
    Step(Step),
    Unread(Unread),
}

/// Whether a word is this one.
pub fn is_word(line: &[u8], word: Part, text: &[u8]) -> bool
    ensures { result ≡ texts.is_word line.now word text.now }
{
    bytes_at(line, word) == text
}

// A step that is set up, if one was heard.
fn setup_of(heard: Heard) -> Says
    ensures { said_in result ≡ said_as texts.setup (heard_step heard) }
{
    match heard {
        Heard::Step(step) => Says::Setup(step),
        Heard::Unread(unread) => Says::Unread(unread),
    }
}

// A step, if one was heard.
fn step_of(heard: Heard) -> Says
    ensures { said_in result ≡ said_as texts.step (heard_step heard) }
{
    match heard {
        Heard::Step(step) => Says::Step(step),
        Heard::Unread(unread) => Says::Unread(unread),
    }
}

// All that a line says with this first word.
fn read_by(
    alloc: Global,
    line: &[u8],
    first: Part,
    words: &[Part],
    rest: &[Part],
) -> Result<Says, AllocError>
    requires { rest.now ≡ drop 1 words.now }
    ensures { (others : List Word) → words.now ≡ first ∷ others → IfOk result (λ says. said_in says ≡ said_by line.now words.now) }
{
    if is_word(line, first, b"board") {
        read_board(alloc, line, rest)
    } else if is_word(line, first, b"limit") {
        read_limit(alloc, line, rest)
    } else if is_word(line, first, b"setup") {
        Ok(setup_of(read_words(alloc, line, rest)?))
    } else {
        Ok(step_of(read_words(alloc, line, past_number(line, words))?))
    }
}

// All that a line says by its words.
fn read_kind(alloc: Global, line: &[u8], words: &[Part]) -> Result<Says, AllocError>
    ensures { IfOk result (λ says. said_in says ≡ said_by line.now words.now) }
{
    match words.first() {
        Some(first) => read_by(alloc, line, *first, words, behind_first(words)),
        None => Ok(Says::Nothing),
    }
}

/// Whether a line is a play of a trace.
pub fn is_play(line: &[u8], words: &[Part]) -> bool
    ensures { result ≡ texts.is_play line.now words.now }
{
    match words.first() {
        Some(first) => {
            2 <= first.from
                && (is_word(line, *first, b"line")
                    || is_word(line, *first, b"clock")
                    || is_word(line, *first, b"timer")
                    || is_word(line, *first, b"deadline"))
        }
        None => false,
    }
}

// All that a line without quotes says, by the words that are said.
fn read_said(alloc: Global, line: &[u8], words: &[Part]) -> Result<Says, AllocError>
    ensures { IfOk result (λ says. said_in says ≡ said_of_words line.now words.now) }
{
    if is_play(line, words) {
        return Ok(Says::Nothing);
    }
    match odd_byte(line, words) {
        Some(at) => Ok(Says::Unread(unread_at(
            alloc,
            at,
            "a letter, a digit or a sign is wanted",
        )?)),
        None => read_kind(alloc, line, words),
    }
}

// All that a line without quotes says.
fn read_plain(alloc: Global, line: &[u8]) -> Result<Says, AllocError>
    ensures { IfOk result (λ says. said_in says ≡ said_of_plain line.now) }
{
    let words = words_in(alloc, line)?;
    read_said(alloc, line, said_of(line, words.as_slice()))
}

// All that a line without quotes says, with its place in the line.
fn placed_in(line: &[u8], says: Says) -> Says
    ensures { said_in result ≡ said_in says }
{
    match says {
        Says::Unread(unread) => Says::Unread(unread_in(line, unread)),
        other => other,
    }
}

/// All that a line of a text says. `AllocError` where memory couldn't grow.
pub fn read_says(alloc: Global, line: &[u8]) -> Result<Says, AllocError>
    ensures { IfOk result (λ says. said_in says ≡ said_of line.now) }
{
    let plain = unquoted(alloc, line)?;
    let says = read_plain(alloc, plain.as_slice())?;
    Ok(placed_in(line, says))
}
