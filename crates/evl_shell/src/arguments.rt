//! The words of the program: `[FILE] [--limit N]`.
ghost use Rattle.std.specs.Prelude.{◌≡◌, IfOk, map, option_map};
ghost use Rattle.clap.specs.Words.{FailsBy, app_of, fault_of, found_of, matches_of, rows_of};
ghost use Rattle.evl_shell.specs.Arguments.{file_of, grammar, limit_of, file_named};

use clap::{Arg, ArgAction, ArgMatches, Command, Error, value_parser};
use std::alloc::{AllocError, Global};

/// The play that the words ask for.
#[derive(Clone, Copy, PartialEq, Eq)]
pub struct Asked<'a> {
    /// The file that is named; none where standard input is to be read.
    pub file: Option<&'a str>,
    /// The limit in place of the scenario's: 1 to 1,000,000.
    pub limit: Option<u32>,
}

// The command line that the program takes.
fn command_line<'a>(alloc: Global) -> Result<Command<'a>, AllocError>
    ensures { IfOk result (λ command. app_of command ≡ grammar) }
{
    let file = Arg::new(alloc, "FILE")
        .action(ArgAction::Set)
        .help("The scenario; without it, or with -, standard input");
    let limit = Arg::new(alloc, "limit")
        .long("limit")
        .value_name("N")
        .value_parser(value_parser!(u32).range(1..=1_000_000))
        .help(
            "How many entries the history may have, 1 to 1000000, in place of the scenario's own limit",
        );
    let command = Command::new(alloc, "evl")
        .about("Plays a scenario of calls on an out-of-band core and prints the trace")
        .arg(file)?
        .arg(limit)?;
    Ok(command)
}

// Parses the words.
fn parse_words<'a>(alloc: Global, words: &'a [&'a str]) -> Result<ArgMatches<'a>, Error>
    ensures rows { IfOk result (λ matches. rows_of (found_of matches) ≡ matches_of grammar (map (λ s. s.now) words.now)) }
    ensures refused { FailsBy (fault_of grammar (map (λ s. s.now) words.now)) result }
{
    command_line(alloc)?.try_get_matches_from(words)
}

// The file that a word names: `-` is standard input.
fn file_named<'a>(word: Option<&'a str>) -> Option<&'a str>
    ensures { option_map (λ s. s.now) result ≡ file_named (option_map (λ s. s.now) word.entry) }
{
    match word {
        None | Some("-") => None,
        Some(path) => Some(path),
    }
}

/// Reads the words, of which the first is the program's name.
pub fn read_words<'a>(alloc: Global, words: &'a [&'a str]) -> Result<Asked<'a>, Error>
    ensures file { IfOk result (λ asked. option_map (λ s. s.now) asked.file ≡ file_of (map (λ s. s.now) words.now)) }
    ensures limit { IfOk result (λ asked. asked.limit ≡ limit_of (map (λ s. s.now) words.now)) }
    ensures refused { FailsBy (fault_of grammar (map (λ s. s.now) words.now)) result }
{
    let matches = parse_words(alloc, words)?;
    Ok(Asked {
        file: file_named(matches.get_str("FILE")),
        limit: matches.get_one("limit"),
    })
}
