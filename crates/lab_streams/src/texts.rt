//! The texts that the program reads, and the names of files.
ghost use Rattle.std.specs.Prelude.{◌≡◌, ◌≤◌, ◌<◌, ◌++◌, true, false, IfErr, IfOk, codes, length, option_map, string_bytes, unwrap_or};
ghost use Rattle.evl_scenario.specs.Lines.{line_feed};
ghost use Rattle.evl_shell.specs.Readings.{ReadsAtMost};
ghost use Rattle.lab_streams.specs.Readings.{IsTooLong, most_bytes};
ghost use Rattle.lab_streams.specs.Texts as texts;
ghost use Rattle.lab_streams.specs.Texts.{IsAllOf, reads_input};

use evl_shell::{ReadFault, read_at_most};
use std::alloc::{AllocError, Global};
use std::fs::File;
use std::io::Read;
use std::rt::Files;

// The most bytes that a text may have, and one more, up to which it is read.
const MOST: usize = 67_108_864;

const MOST_READ: usize = 67_108_865;

/// Why a text isn't read.
#[derive(Clone, Copy, PartialEq, Eq)]
pub enum Unread {
    /// There is no such file, or a read failed.
    NoFile,
    /// It has more bytes than a text may have.
    TooLong,
    /// There was no memory for it.
    Memory,
}

// The text, where it has no more bytes than a text may have.
fn bounded(text: Vec<u8>) -> Result<Vec<u8>, Unread>
    ensures text { IfOk result (λ read. read.items ≡ text.items) }
    ensures bound { IfOk result (λ read. length read.items ≤ most_bytes) }
    ensures long { IfErr result (λ e. most_bytes < length text.items) }
{
    if text.len() > MOST {
        Err(Unread::TooLong)
    } else {
        Ok(text)
    }
}

// The text that an input or a file holds.
fn read_source<I: Read>(alloc: Global, input: &mut I) -> Result<Vec<u8>, Unread>
    ensures text { IfOk result (λ text. IsAllOf (I.remaining input.old) text.items) }
    ensures bound { IfOk result (λ text. length text.items ≤ most_bytes) }
    ensures long { IfErr result (λ e. e ≡ Unread.TooLong → IsTooLong (I.remaining input.old)) }
    ensures few { ReadsAtMost 67108865 (I.remaining input.old) (I.remaining input.new) }
{
    match read_at_most(alloc, input, MOST_READ) {
        Ok(text) => bounded(text),
        Err(ReadFault::Failed) => Err(Unread::NoFile),
        Err(ReadFault::Memory) => Err(Unread::Memory),
    }
}

/// The text of a file: `NoFile` where it can't be opened or read, `TooLong` above 67,108,864 bytes, `Memory` for want of
/// memory.
pub fn read_file<R: Files + AllocGlobal>(rt: &R, path: &str) -> Result<Vec<u8>, Unread>
    ensures { IfOk result (λ text. length text.items ≤ most_bytes) }
{
    match File::open(rt, path) {
        Ok(mut file) => read_source(rt.alloc(), &mut file),
        Err(_) => Err(Unread::NoFile),
    }
}

/// The text of a file, or of the input where none is named, or `-`, with the same refusals. At most 67,108,865
/// bytes of either are read.
pub fn read_text<R: Files + AllocGlobal, I: Read>(
    rt: &R,
    file: Option<&str>,
    input: &mut I,
) -> Result<Vec<u8>, Unread>
    ensures input { reads_input (option_map (λ name. name.now) file.entry) ≡ true → IfOk result (λ text. IsAllOf (I.remaining input.old) text.items) }
    ensures bound { IfOk result (λ text. length text.items ≤ most_bytes) }
    ensures long { IfErr result (λ e. e ≡ Unread.TooLong → reads_input (option_map (λ name. name.now) file.entry) ≡ true → IsTooLong (I.remaining input.old)) }
    ensures few { ReadsAtMost 67108865 (I.remaining input.old) (I.remaining input.new) }
    ensures file { reads_input (option_map (λ name. name.now) file.entry) ≡ false → input.new ≡ input.old }
{
    match file {
        None | Some("-") => read_source(rt.alloc(), input),
        Some(path) => read_file(rt, path),
    }
}

/// The text with a line feed at its end.
pub fn with_line_feed(alloc: Global, text: &str) -> Result<String, AllocError>
    ensures { IfOk result (λ line. string_bytes line ≡ text.now ++ line_feed) }
{
    let mut line = String::from_str(alloc, text)?;
    line.push_str("\n")?;
    Ok(line)
}

/// How the text of a file, or of the input where none is named, is called in messages.
pub fn called<'a>(file: Option<&'a str>) -> &'a str
    ensures { result.now ≡ unwrap_or (option_map (λ file. file.now) file.entry) (codes "-") }
{
    file.unwrap_or("-")
}

/// The text that these bytes are; none where they are no UTF-8.
pub fn text_in(bytes: &[u8]) -> &str
    ensures { result.now ≡ texts.text_in bytes.now }
{
    match std::str::from_utf8(bytes) {
        Ok(text) => text,
        Err(_) => "",
    }
}
