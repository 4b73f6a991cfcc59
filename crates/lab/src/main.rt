//! Checks, plays, drives and draws scenarios of calls on an out-of-band core.
#![tactic(auto)]

ghost use Rattle.std.specs.Prelude.{◌≡◌, ◌≢◌, false, IfErr, IfOk, IsErr, OnOk};
ghost use Rattle.std.specs.Io.KnownBytes.{Appends};
ghost use Rattle.std.specs.IoError.{error_kind};
ghost use Rattle.std.specs.declared.io.ErrorKind.TheVariants as io_kind;
ghost use Rattle.clap.specs.Words.{kind_of};
ghost use Rattle.clap.specs.declared.error.kind.ErrorKind.TheVariants.{DisplayHelp, OutOfMemory};
ghost use Rattle.lab_streams.specs.Streams.{EndsEarly};

mod commands;
mod draw_commands;
mod explains;
mod helps;
mod options;
mod outcomes;
mod parts;
mod run_commands;
mod runs;

use clap::Error;
use clap::error::ErrorKind;
use commands::read_words;
use lab_drives::Prompted;
use lab_streams::{FAILED, NO_MEMORY, REFUSED, Source, Stream, Watched};
use parts::do_part;
use std::alloc::{AllocError, Global};
use std::env;
use std::io::{self, Write};
use std::process::ExitCode;
use std::rt::Files;

// Prints the help, and answers the status.
fn show_help<O: Stream>(text: &str, out: &mut O) -> io::Result<u8>
    ensures status { IfOk result (λ status. status ≡ 0) }
    ensures text { OnOk result (Appends (O.contents out.old) (O.contents out.new) text.now) }
    ensures early { IfErr result (EndsEarly false (O.has_failed out.new) false) }
{
    out.write_all(text.as_bytes())?;
    Ok(0)
}

// Says why words are refused, and answers the status.
fn refuse<E: Stream>(text: &str, err: &mut E) -> io::Result<u8>
    ensures status { IfOk result (λ status. status ≡ 3) }
    ensures text { OnOk result (Appends (E.contents err.old) (E.contents err.new) text.now) }
    ensures early { IfErr result (EndsEarly false false (E.has_failed err.new)) }
{
    err.write_all(text.as_bytes())?;
    Ok(REFUSED)
}

// Answers words that ask for nothing that is done: they are refused, or ask for help. Want of memory isn't reported: it is
// this function's own error.
fn turn_away<O: Stream, E: Stream>(
    alloc: Global,
    error: &Error,
    out: &mut O,
    err: &mut E,
) -> io::Result<u8>
    ensures help { IfOk result (λ status. kind_of error.now ≡ DisplayHelp → status ≡ 0) }
    ensures refused { IfOk result (λ status. kind_of error.now ≢ DisplayHelp → status ≡ 3) }
    ensures memory { kind_of error.now ≡ OutOfMemory → IsErr result }
    ensures early { IfErr result (EndsEarly false (O.has_failed out.new) (E.has_failed err.new)) }
{
    let text = error.to_string(alloc)?;
    match error.kind() {
        ErrorKind::OutOfMemory => Err(AllocError.into()),
        ErrorKind::DisplayHelp => show_help(text.as_str(), out),
        _ => refuse(text.as_str(), err),
    }
}

// Does what the words ask for, and answers the status.
fn do_words<R: Files + AllocGlobal, I: Source, O: Stream, E: Stream>(
    rt: &R,
    words: &[&str],
    input: &mut I,
    out: &mut O,
    err: &mut E,
) -> io::Result<u8>
    ensures early { IfErr result (EndsEarly (I.has_failed input.new) (O.has_failed out.new) (E.has_failed err.new)) }
{
    match read_words(rt.alloc(), words) {
        Ok(matches) => do_part(rt, &matches, input, out, err),
        Err(error) => turn_away(rt.alloc(), &error, out, err),
    }
}

// Does what the program's own words ask for, and answers the status.
fn do_own_words(rt: &HostRuntime) -> io::Result<u8> {
    let words: Vec<String> = env::args(rt)?.collect(rt.alloc())?;
    let texts: Vec<&str> = words.iter().map(|word| word.as_str()).collect(rt.alloc())?;
    let is_prompted = texts.iter().any(|word| *word == "--prompt");
    let mut input = Prompted::new(Watched::new(rt.stdin()), rt.stderr(), is_prompted);
    let mut out = Watched::new(io::writer(rt));
    let mut err = Watched::new(rt.stderr());
    do_words(rt, texts.as_slice(), &mut input, &mut out, &mut err)
}

// Says why the program ends early, and answers the status.
fn tell_failure<E: Write>(err: &mut E, error: &io::Error) -> u8
    ensures memory { error_kind error.now ≡ io_kind.OutOfMemory → result ≡ 4 }
    ensures failed { error_kind error.now ≢ io_kind.OutOfMemory → result ≡ 1 }
{
    if error.kind() == io::ErrorKind::OutOfMemory {
        let _ = writeln!(err, "lab: no memory");
        NO_MEMORY
    } else {
        let _ = writeln!(err, "lab: {error}");
        FAILED
    }
}

fn main(rt: HostRuntime) -> ExitCode {
    let status = match do_own_words(&rt) {
        Ok(status) => status,
        Err(error) => tell_failure(&mut rt.stderr(), &error),
    };
    ExitCode::from(status)
}
