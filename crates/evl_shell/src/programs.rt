//! The program: what it does with its words.
ghost use Rattle.std.specs.Prelude.{◌≡◌, ◌≢◌, ◌≤◌, [], false, true, length, map, None, is_some, option_map, IfErr};
ghost use Rattle.evl_kernel.specs.state.Limits.{callback_limit};
ghost use Rattle.clap.specs.Words.{kind_of};
ghost use Rattle.evl_shell.specs.Sinks.{Takes};
ghost use Rattle.evl_shell.specs.Runs.{handlers_of};
ghost use Rattle.evl_shell.specs.Plays.{Ended, Plays, ReadsFew, said, status};
ghost use Rattle.evl_shell.specs.Programs.{Answers, AnswersAtLeast, Helps, PlaysAtLeast, TurnsAway, source};
ghost use Rattle.evl_shell.specs.Arguments.{file_of};

use crate::arguments::{Asked, read_words};
use crate::lent::OverLent;
use crate::plays::{Stop, conclude, play_input, put_line};
use crate::sinks::{Sink, SinkFailed, put_all};
use clap::Error;
use clap::error::ErrorKind;
use evl_pipeline::Callback;
use evl_scenario::Fault;
use std::alloc::Global;
use std::fs::File;
use std::io::{Read, Write};
use std::rt::Files;

// The status of help that was written.
const DONE: u8 = 0;

// The status of words that are refused.
const REFUSED: u8 = 3;

// The text where `clap` has none.
const USAGE: &str = "Usage: evl [OPTIONS] [FILE]\n";

// Opens a file to read it.
fn open_file<F: Files>(rt: &F, path: &str) -> Result<F::File, Stop>
    ensures { IfErr result (λ e. e ≡ Stop.NoFile) }
{
    match File::open(rt, path) {
        Ok(file) => Ok(file),
        Err(_) => Err(Stop::NoFile),
    }
}

// Plays the scenario that a file holds.
fn play_file<F: Files, S: Sink>(
    rt: &F,
    alloc: Global,
    path: &str,
    limit: Option<u32>,
    bank: Vec<Callback>,
    out: &mut S,
) -> Result<(), Stop>
    requires working { S.has_failed out.old ≡ false }
    requires few { length bank.items ≤ callback_limit }
    ensures { Ended (handlers_of (λ (c : _). c.kinds.0) (λ (c : _). c.plan.value) bank.items) limit None (S.told out.old) (S.told out.new) (S.has_failed out.new) result }
{
    match open_file(rt, path) {
        Ok(mut file) => play_input(alloc, limit, bank, &mut file, out),
        Err(stop) => Err(stop),
    }
}

// Plays the scenario that the words name.
fn play_asked<F: Files, R: Read, S: Sink>(
    rt: &F,
    alloc: Global,
    asked: Asked<'_>,
    bank: Vec<Callback>,
    input: &mut R,
    out: &mut S,
) -> Result<(), Stop>
    requires working { S.has_failed out.old ≡ false }
    requires few { length bank.items ≤ callback_limit }
    ensures ended { Ended (handlers_of (λ (c : _). c.kinds.0) (λ (c : _). c.plan.value) bank.items) asked.entry.limit (source (option_map (λ s. s.now) asked.entry.file) (R.remaining input.old)) (S.told out.old) (S.told out.new) (S.has_failed out.new) result }
    ensures untouched { is_some asked.entry.file ≡ true → input.new ≡ input.old }
    ensures few { ReadsFew (R.remaining input.old) (R.remaining input.new) }
{
    match asked.file {
        None => play_input(alloc, asked.limit, bank, input, out),
        Some(path) => play_file(rt, alloc, path, asked.limit, bank, out),
    }
}

// Says how a play ended, where it isn't done, and answers the status; a failure of `err` is ignored.
fn tell_end<T: Sink>(err: &mut T, ended: Result<(), Stop>) -> u8
    requires speaking { T.has_failed err.old ≡ false }
    ensures says { Takes (T.told err.old) (T.told err.new) (said ended) (T.has_failed err.new) }
    ensures status { result ≡ status ended }
    ensures place { T.place err.new ≡ T.place err.old }
{
    match ended {
        Ok(()) => DONE,
        Err(stop) => conclude(err, stop),
    }
}

// The text, or a line in its place where it is empty.
fn text_or_usage(text: &str) -> &str
    ensures { result.now ≢ [] }
{
    if text.is_empty() { USAGE } else { text }
}

// Puts the help text, and answers the status.
fn show_help<S: Sink, T: Sink>(text: &str, out: &mut S, err: &mut T) -> u8
    requires working { S.has_failed out.old ≡ false }
    requires speaking { T.has_failed err.old ≡ false }
    ensures helps { Helps text.now (S.told out.old) (S.told out.new) (S.has_failed out.new) (T.told err.old) (T.told err.new) (T.has_failed err.new) result }
    ensures place { T.place err.new ≡ T.place err.old }
{
    match put_all(out, text.as_bytes()) {
        Ok(()) => DONE,
        Err(SinkFailed) => conclude(err, Stop::Broken(Fault::Write)),
    }
}

// Says why the words are refused, and answers the status; a failure of `err` is ignored.
fn refuse<T: Sink>(text: &str, err: &mut T) -> u8
    requires speaking { T.has_failed err.old ≡ false }
    ensures says { Takes (T.told err.old) (T.told err.new) text.now (T.has_failed err.new) }
    ensures status { result ≡ 3 }
    ensures place { T.place err.new ≡ T.place err.old }
{
    put_line(err, text.as_bytes());
    REFUSED
}

// Answers words that ask for no play: they are refused, or ask for help.
fn turn_away<S: Sink, T: Sink>(alloc: Global, error: &Error, out: &mut S, err: &mut T) -> u8
    requires working { S.has_failed out.old ≡ false }
    requires speaking { T.has_failed err.old ≡ false }
    ensures turns { TurnsAway (kind_of error.now) (S.told out.old) (S.told out.new) (S.has_failed out.new) (T.told err.old) (T.told err.new) (T.has_failed err.new) result }
    ensures place { T.place err.new ≡ T.place err.old }
{
    let Ok(text) = error.to_string(alloc) else {
        return conclude(err, Stop::Broken(Fault::Memory));
    };
    let shown = text_or_usage(text.as_str());
    match error.kind() {
        ErrorKind::OutOfMemory => conclude(err, Stop::Broken(Fault::Memory)),
        ErrorKind::DisplayHelp => show_help(shown, out, err),
        _ => refuse(shown, err),
    }
}

/// Does what the words ask for, `[FILE] [--limit N]` after the program's name: plays the scenario in FILE, or without
/// it or for `-` in the input, at most 1,048,577 bytes, into the sink over a bank of at most 64 callbacks. The status
/// is 0 where that is done, and for `--help`; 1 the sink failed; 2 the scenario was refused, or couldn't be read; 3 the
/// words were refused; 4 no memory. `err` says why where it isn't 0, in one line but for status 3.
pub fn play_into<F: Files, R: Read, S: Sink, T: Sink>(
    rt: &F,
    alloc: Global,
    words: &[&str],
    bank: Vec<Callback>,
    input: &mut R,
    out: &mut S,
    err: &mut T,
) -> u8
    requires working { S.has_failed out.old ≡ false }
    requires speaking { T.has_failed err.old ≡ false }
    requires few { length bank.items ≤ callback_limit }
    ensures answers { Answers (map (λ s. s.now) words.now) (handlers_of (λ (c : _). c.kinds.0) (λ (c : _). c.plan.value) bank.items) (R.remaining input.old) (S.told out.old) (S.told out.new) (S.has_failed out.new) (T.told err.old) (T.told err.new) (T.has_failed err.new) result }
    ensures untouched { is_some (file_of (map (λ s. s.now) words.now)) ≡ true → input.new ≡ input.old }
    ensures few { ReadsFew (R.remaining input.old) (R.remaining input.new) }
    ensures plain { length words.now ≤ 1 → Plays (handlers_of (λ (c : _). c.kinds.0) (λ (c : _). c.plan.value) bank.items) None (R.remaining input.old) (S.told out.old) (S.told out.new) (S.has_failed out.new) (T.told err.old) (T.told err.new) (T.has_failed err.new) result }
    ensures place { T.place err.new ≡ T.place err.old }
{
    match read_words(alloc, words) {
        Ok(asked) => tell_end(err, play_asked(rt, alloc, asked, bank, input, out)),
        Err(error) => turn_away(alloc, &error, out, err),
    }
}

/// The same with a writer for `err`, of which nobody knows whether it has failed.
pub fn play<F: Files, R: Read, S: Sink, E: Write>(
    rt: &F,
    alloc: Global,
    words: &[&str],
    bank: Vec<Callback>,
    input: &mut R,
    out: &mut S,
    err: &mut E,
) -> u8
    requires working { S.has_failed out.old ≡ false }
    requires few { length bank.items ≤ callback_limit }
    ensures answers { AnswersAtLeast (map (λ s. s.now) words.now) (handlers_of (λ (c : _). c.kinds.0) (λ (c : _). c.plan.value) bank.items) (R.remaining input.old) (S.told out.old) (S.told out.new) (S.has_failed out.new) (E.contents err.old) (E.contents err.new) result }
    ensures untouched { is_some (file_of (map (λ s. s.now) words.now)) ≡ true → input.new ≡ input.old }
    ensures few { ReadsFew (R.remaining input.old) (R.remaining input.new) }
    ensures plain { length words.now ≤ 1 → PlaysAtLeast (handlers_of (λ (c : _). c.kinds.0) (λ (c : _). c.plan.value) bank.items) None (R.remaining input.old) (S.told out.old) (S.told out.new) (S.has_failed out.new) (E.contents err.old) (E.contents err.new) result }
{
    let mut sink = OverLent {
        writer: err,
        failed: false,
    };
    let status = play_into(rt, alloc, words, bank, input, out, &mut sink);

    // The proof reads what `err` holds from this use of the writer.
    let _ = &*sink.writer;
    status
}
