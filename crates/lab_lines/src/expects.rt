//! The answers that a text expects of its steps.
ghost use Rattle.std.specs.Prelude.{◌≡◌, ◌<◌, ◌≤◌, ◌+◌, ◌++◌, IfErr, IfOk, OnOk, Ok, length, map, position, string_bytes, true};
ghost use Rattle.std.specs.Str.Lines.{lines};
ghost use Rattle.lab_lines.specs.Expects as expects;
ghost use Rattle.lab_lines.specs.Expects.{answer_of, asks, before_comment, behind_arrow, expected_at, expects_of, expects_of_lines, from_word, line_expects, lines_expect, next_step, spanned, step_behind};
ghost use Rattle.lab_lines.specs.Kinds.{is_lines};
ghost use Rattle.lab_lines.specs.Lines as lines;
ghost use Rattle.lab_lines.specs.Lines.{ends_said, unquoted};
ghost use Rattle.lab_lines.specs.Tables.{IsFaultOf, expects_in};

use crate::cuts::{behind_first, end_of, said_of, unquoted};
use crate::kinds::is_lines;
use crate::lists::text_in;
use crate::places::{Part, bytes_at, words_in};
use crate::says::{is_play, is_word};
use crate::tables::{ExpectFault, Expected, expected_in_tables};
use crate::texts::{lines_of, text_of};
use std::alloc::{AllocError, Global};

// Whether a word begins a comment.
fn is_comment(line: &[u8], word: Part) -> bool
    ensures { result ≡ expects.is_comment line.now word }
{
    bytes_at(line, word).first().copied().unwrap_or(0) == b'#'
}

// The words after an arrow, if these begin with one.
fn behind_arrow<'a>(line: &[u8], words: &'a [Part]) -> &'a [Part]
    ensures { result.now ≡ behind_arrow line.now words.now }
{
    match words {
        [first, rest @ ..] => if is_word(line, *first, b"->") {
            rest
        } else {
            &[]
        },
        [] => &[],
    }
}

// The words from one on.
fn from_word(words: &[Part], at: Option<usize>) -> &[Part]
    ensures { result.now ≡ from_word words.now at }
{
    match at {
        Some(first) => words.get(first..).unwrap_or(&[]),
        None => &[],
    }
}

// The place of the word that begins a comment.
fn comment_in(line: &[u8], words: &[Part]) -> Option<usize>
    ensures { result ≡ position (expects.is_comment line.now) words.now }
{
    words.iter().position(|word| is_comment(line, *word))
}

// The words before a comment.
fn before_comment<'a>(line: &[u8], words: &'a [Part]) -> &'a [Part]
    ensures { result.now ≡ before_comment line.now words.now }
{
    match comment_in(line, words) {
        Some(at) => words.get(..at).unwrap_or(words),
        None => words,
    }
}

// The bytes from the first of some words to the end of the last.
fn spanned<'a>(line: &'a [u8], words: &[Part]) -> &'a [u8]
    ensures { result.now ≡ spanned line.now words.now }
{
    match (words.first(), words.last()) {
        (Some(first), Some(last)) => bytes_at(
            line,
            Part {
                from: first.from,
                to: last.to,
            },
        ),
        _ => &[],
    }
}

// The answer that a line without quotes expects.
#[tactic(auto, unfolding(crate::specs::Expects::answer_of))]
fn answer_in<'a>(line: &'a [u8], words: &[Part]) -> &'a str
    requires { words.now ≡ lines.words_of line.now }
    ensures { result.now ≡ answer_of line.now }
{
    let ending = from_word(words, end_of(line, words));
    let answer = before_comment(line, behind_arrow(line, ending));
    text_in(spanned(line, answer))
}

// By its first word, whether a line asks for a step, and whether that is set up.
fn asks_by(line: &[u8], first: Part) -> Option<bool>
    ensures { result ≡ expects.asks_by line.now first }
{
    if is_word(line, first, b"board") || is_word(line, first, b"limit") {
        None
    } else {
        Some(is_word(line, first, b"setup"))
    }
}

// By the words that are said.
fn asks_said(line: &[u8], words: &[Part]) -> Option<bool>
    ensures { result ≡ expects.asks_said line.now words.now }
{
    if is_play(line, words) {
        return None;
    }
    match words.first() {
        Some(first) => asks_by(line, *first),
        None => None,
    }
}

// The same for a line without quotes.
#[tactic(auto, unfolding(crate::specs::Expects::asks))]
fn asks(line: &[u8], words: &[Part]) -> Option<bool>
    requires { words.now ≡ lines.words_of line.now }
    ensures { result ≡ asks line.now }
{
    asks_said(line, said_of(line, words))
}

// Whether a line asks for a step of one of the two kinds.
fn is_of(setup: bool, asks: Option<bool>) -> bool
    ensures { result ≡ expects.is_of setup asks }
{
    match asks {
        Some(kind) => if setup { kind } else { !kind },
        None => false,
    }
}

// Puts what is expected of a step after others.
fn put_expected(
    alloc: Global,
    all: &mut Vec<Expected>,
    number: usize,
    step: usize,
    answer: &str,
) -> Result<(), AllocError>
    ensures { OnOk result (map expects_in all.new.items ≡ map expects_in all.old.items ++ expected_at number step answer.now) }
{
    if answer.is_empty() {
        return Ok(());
    }
    let own = String::from_str(alloc, answer)?;
    all.push(Expected {
        line: number,
        step,
        answer: own,
    })?;
    Ok(())
}

// Puts what a line expects after others, and answers the number of the next step.
fn put_line(
    alloc: Global,
    all: &mut Vec<Expected>,
    setup: bool,
    step: usize,
    number: usize,
    line: &str,
) -> Result<usize, AllocError>
    requires { step < 18446744073709551615 }
    ensures expects { OnOk result (map expects_in all.new.items ≡ map expects_in all.old.items ++ line_expects setup step number line.now) }
    ensures next { IfOk result (λ next. next ≡ next_step setup step line.now) }
    ensures few { IfOk result (λ next. next ≤ step + 1) }
{
    let plain = unquoted(alloc, line.as_bytes())?;
    let words = words_in(alloc, plain.as_slice())?;
    if !is_of(setup, asks(plain.as_slice(), words.as_slice())) {
        return Ok(step);
    }
    let answer = answer_in(plain.as_slice(), words.as_slice());
    put_expected(alloc, all, number, step, answer)?;
    Ok(step + 1)
}

// Puts what lines expect after others, and answers the number of the next step.
fn put_lines(
    alloc: Global,
    all: &mut Vec<Expected>,
    setup: bool,
    first: usize,
    lines: &[&str],
) -> Result<usize, AllocError>
    requires { first ≤ 9223372036854775808 }
    ensures expects { OnOk result (map expects_in all.new.items ≡ map expects_in all.old.items ++ lines_expect setup first 1 (map (λ line. line.now) lines.now)) }
    ensures next { IfOk result (λ next. next ≡ step_behind setup first (map (λ line. line.now) lines.now)) }
    ensures few { IfOk result (λ next. next ≤ first + length lines.now) }
{
    let mut step = first;
    for (at, line) in lines.iter().enumerate() {
        step = put_line(alloc, all, setup, step, at + 1, *line)?;
    }
    Ok(step)
}

// The answers that lines expect.
fn expected_in_lines(alloc: Global, lines: &[&str]) -> Result<Vec<Expected>, AllocError>
    ensures { IfOk result (λ all. map expects_in all.items ≡ expects_of_lines (map (λ line. line.now) lines.now)) }
{
    let mut all = Vec::new(alloc);
    let step = put_lines(alloc, &mut all, true, 1, lines)?;
    put_lines(alloc, &mut all, false, step, lines)?;
    Ok(all)
}

// The answers that a text of lines expects.
fn expected_in_text(alloc: Global, text: &str) -> Result<Vec<Expected>, AllocError>
    ensures { IfOk result (λ all. map expects_in all.items ≡ expects_of_lines (lines text.now)) }
{
    let all = lines_of(alloc, text)?;
    expected_in_lines(alloc, all.as_slice())
}

// The same, of bytes that are such a text.
fn expected_in_bytes(alloc: Global, text: &[u8]) -> Result<Vec<Expected>, ExpectFault>
    requires { is_lines text.now ≡ true }
    ensures read { IfOk result (λ all. map expects_in all.items ≡ expects_of_lines (lines text.now)) }
    ensures refused { IfErr result (λ e. e ≡ ExpectFault.Memory) }
{
    match text_of(text) {
        Some(words) => match expected_in_text(alloc, words) {
            Ok(all) => Ok(all),
            Err(_) => Err(ExpectFault::Memory),
        },
        None => Err(ExpectFault::Memory),
    }
}

/// The answers that a text expects of its steps, by step: in a text of lines what comes after ` -> ` and a call, in
/// one of tables the keys `expect` of steps. `NoAnswer` where such a key has no answer in quotes.
pub fn read_expected(alloc: Global, text: &[u8]) -> Result<Vec<Expected>, ExpectFault>
    ensures read { IfOk result (λ all. expects_of text.now ≡ Ok (map expects_in all.items)) }
    ensures refused { IfErr result (IsFaultOf (expects_of text.now)) }
{
    match is_lines(alloc, text) {
        Ok(true) => expected_in_bytes(alloc, text),
        Ok(false) => expected_in_tables(alloc, text),
        Err(_) => Err(ExpectFault::Memory),
    }
}
