//! Plays a scenario of calls on an out-of-band core and prints the trace.
#![tactic(auto)]

use evl_bank::play_program;
use evl_shell::{Fault, Over, Stop, stopped};
use std::env;
use std::io::{self, ErrorKind, Write};
use std::process::ExitCode;

// The status of words that are refused.
const REFUSED: u8 = 3;

// Does what the words ask for, and answers the status.
fn play_words(rt: &HostRuntime) -> io::Result<u8> {
    let words: Vec<String> = env::args(rt)?.collect(rt.alloc())?;
    let texts: Vec<&str> = words.iter().map(|word| word.as_str()).collect(rt.alloc())?;
    let mut input = rt.stdin();
    let mut out = Over::new(rt.stdout());
    let mut err = Over::new(rt.stderr());
    Ok(play_program(
        rt,
        rt.alloc(),
        texts.as_slice(),
        &mut input,
        &mut out,
        &mut err,
    ))
}

fn main(rt: HostRuntime) -> ExitCode {
    let status = match play_words(&rt) {
        Ok(status) => status,
        Err(error) if error.kind() == ErrorKind::OutOfMemory => {
            stopped(&mut rt.stderr(), Stop::Broken(Fault::Memory))
        }
        Err(_) => {
            let _ = writeln!(rt.stderr(), "error: a word is no UTF-8");
            REFUSED
        }
    };
    ExitCode::from(status)
}
