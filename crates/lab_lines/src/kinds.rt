//! Which texts are texts of lines, and what takes the place of one in a program that reads scenarios.
ghost use Rattle.std.specs.Prelude.{◌≡◌, ◌++◌, IfErr, IfOk, OnOk, drop, map, string_bytes, true};
ghost use Rattle.std.specs.Str.Lines.{lines};
ghost use Rattle.evl_scenario.specs.Lines.{line_feed};
ghost use Rattle.lab_lines.specs.Kinds as kinds;
ghost use Rattle.lab_lines.specs.Kinds.{IsOfCallers, IsPlain, IsUnread, begin_said, callers_text, is_first_of, set_up};
ghost use Rattle.lab_lines.specs.Lines.{said_words};
ghost use Rattle.lab_lines.specs.Tables.{unexpecting};

use crate::cuts::{behind_first, has_digits, is_number, said_of};
use crate::places::{Part, bytes_at, words_in};
use crate::tables::unexpecting;
use crate::texts::{LinesFault, Meant, lines_of, read_lines, text_of};
use std::alloc::{AllocError, Global};

// The bytes after the first.
fn past_letter(word: &[u8]) -> &[u8]
    ensures { result.now ≡ drop 1 word.now }
{
    word.get(1..).unwrap_or(&[])
}

// Whether a word is a thread.
fn is_thread(word: &[u8]) -> bool
    ensures { result ≡ kinds.is_thread word.now }
{
    word.first().copied().unwrap_or(0) == b'T' && (1 < word.len() && has_digits(past_letter(word)))
}

// Whether a word begins a line that isn't a call.
fn is_head(word: &[u8]) -> bool
    ensures { result ≡ kinds.is_head word.now }
{
    word == b"board".as_slice() || word == b"limit".as_slice() || word == b"setup".as_slice()
}

// Whether the first of these words begins with an equals sign.
fn is_given(line: &[u8], words: &[Part]) -> bool
    ensures { result ≡ kinds.is_given line.now words.now }
{
    match words.first() {
        Some(first) => bytes_at(line, *first).first().copied().unwrap_or(0) == b'=',
        None => false,
    }
}

// Whether the first of these words is a thread.
fn is_called(line: &[u8], words: &[Part]) -> bool
    ensures { result ≡ kinds.is_called line.now words.now }
{
    match words.first() {
        Some(first) => is_thread(bytes_at(line, *first)),
        None => false,
    }
}

// Whether a line with these words can be the first of a text of lines.
fn is_first(line: &[u8], first: Part, rest: &[Part]) -> bool
    ensures { result ≡ kinds.is_first line.now first rest.now }
{
    let word = bytes_at(line, first);
    is_thread(word)
        || ((is_number(word) && is_called(line, rest)) || (is_head(word) && !is_given(line, rest)))
}

// The same, of a line that says something.
fn is_first_of(line: &[u8], words: &[Part]) -> Option<bool>
    ensures { result ≡ kinds.is_first_of line.now words.now }
{
    match words.first() {
        Some(first) => Some(is_first(line, *first, behind_first(words))),
        None => None,
    }
}

// The same, by the line.
fn first_of(alloc: Global, line: &[u8]) -> Result<Option<bool>, AllocError>
    ensures { IfOk result (λ is. is ≡ is_first_of line.now (said_words line.now)) }
{
    let words = words_in(alloc, line)?;
    Ok(is_first_of(line, said_of(line, words.as_slice())))
}

// Whether the first of these lines that says something can be that of a text of lines.
fn begin_said(alloc: Global, all: &[&str]) -> Result<bool, AllocError>
    ensures { IfOk result (λ is. is ≡ begin_said (map (λ line. line.now) all.now)) }
{
    for line in all {
        if let Some(is) = first_of(alloc, line.as_bytes())? {
            return Ok(is);
        }
    }
    Ok(false)
}

// The same, by the text.
fn begins(alloc: Global, text: &str) -> Result<bool, AllocError>
    ensures { IfOk result (λ is. is ≡ kinds.begin_said (lines text.now)) }
{
    let all = lines_of(alloc, text)?;
    begin_said(alloc, all.as_slice())
}

/// Whether a text is one of lines: by its first line that is neither empty nor a comment. `AllocError` where memory
/// couldn't grow.
pub fn is_lines(alloc: Global, bytes: &[u8]) -> Result<bool, AllocError>
    ensures { IfOk result (λ is. is ≡ kinds.is_lines bytes.now) }
{
    match text_of(bytes) {
        Some(text) => begins(alloc, text),
        None => Ok(false),
    }
}

// The scenario of a text of lines.
fn plain_lines(alloc: Global, text: &[u8]) -> Result<Vec<u8>, LinesFault>
    requires { kinds.is_lines text.now ≡ true }
    ensures plain { IfOk result (λ plain. IsPlain text.now plain.items) }
    ensures unread { IfErr result (IsUnread text.now) }
{
    match read_lines(alloc, text) {
        Ok(meant) => Ok(meant.scenario.into_bytes()),
        Err(fault) => Err(fault),
    }
}

// The scenario in a text that is none of lines.
fn plain_tables(alloc: Global, text: &[u8]) -> Result<Vec<u8>, LinesFault>
    ensures plain { IfOk result (λ plain. plain.items ≡ unexpecting text.now) }
    ensures unread { IfErr result (λ e. e ≡ LinesFault.Memory) }
{
    match unexpecting(alloc, text) {
        Ok(plain) => Ok(plain),
        Err(_) => Err(LinesFault::Memory),
    }
}

/// The scenario of a text of lines, and of any other text the scenario in it, without what it expects. Refused where a
/// text of lines can't be read; `Memory` where memory couldn't grow.
pub fn plain_text(alloc: Global, text: Vec<u8>) -> Result<Vec<u8>, LinesFault>
    ensures plain { IfOk result (λ plain. IsPlain text.items plain.items) }
    ensures unread { IfErr result (IsUnread text.items) }
{
    match is_lines(alloc, text.as_slice()) {
        Ok(true) => plain_lines(alloc, text.as_slice()),
        Ok(false) => plain_tables(alloc, text.as_slice()),
        Err(_) => Err(LinesFault::Memory),
    }
}

// The heading of a step that is set up in place of that of a step, for as many as are left; how many are left then.
fn put_line(text: &mut String, line: &str, left: usize) -> Result<usize, AllocError>
    ensures text { OnOk result (string_bytes text.new ≡ string_bytes text.old ++ (kinds.line_set_up left line.now ++ line_feed)) }
    ensures left { IfOk result (λ now. now ≡ kinds.left_behind left line.now) }
{
    if left > 0 && line == "[[step]]" {
        text.push_str("[[setup]]\n")?;
        return Ok(left - 1);
    }
    text.push_str(line)?;
    text.push_str("\n")?;
    Ok(left)
}

// The lines of a scenario, of which the first steps, so many, are set up.
fn set_up(alloc: Global, all: &[&str], count: usize) -> Result<String, AllocError>
    ensures { IfOk result (λ text. string_bytes text ≡ set_up count (map (λ line. line.now) all.now)) }
{
    let mut text = String::new(alloc);
    let mut left = count;
    for line in all {
        left = put_line(&mut text, *line, left)?;
    }
    Ok(text)
}

// The text of callers of a text of lines.
fn write_callers(alloc: Global, meant: &Meant) -> Result<Vec<u8>, AllocError>
    ensures { IfOk result (λ text. text.items ≡ callers_text meant.now) }
{
    let all = lines_of(alloc, meant.scenario.as_str())?;
    let text = set_up(alloc, all.as_slice(), meant.setup)?;
    Ok(text.into_bytes())
}

// The text of callers of a text of lines.
fn callers_lines(alloc: Global, text: &[u8]) -> Result<Vec<u8>, LinesFault>
    requires { kinds.is_lines text.now ≡ true }
    ensures plain { IfOk result (λ plain. IsOfCallers text.now plain.items) }
    ensures unread { IfErr result (IsUnread text.now) }
{
    match read_lines(alloc, text) {
        Ok(meant) => match write_callers(alloc, &meant) {
            Ok(plain) => Ok(plain),
            Err(_) => Err(LinesFault::Memory),
        },
        Err(fault) => Err(fault),
    }
}

/// The text of callers of a text of lines, and any other text as it is. Refused where a text of lines can't be read;
/// `Memory` where memory couldn't grow.
pub fn callers_text(alloc: Global, text: Vec<u8>) -> Result<Vec<u8>, LinesFault>
    ensures plain { IfOk result (λ plain. IsOfCallers text.items plain.items) }
    ensures unread { IfErr result (IsUnread text.items) }
{
    match is_lines(alloc, text.as_slice()) {
        Ok(true) => callers_lines(alloc, text.as_slice()),
        Ok(false) => Ok(text),
        Err(_) => Err(LinesFault::Memory),
    }
}
