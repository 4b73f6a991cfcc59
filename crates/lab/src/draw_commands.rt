//! The words of `draw`.
ghost use Rattle.std.specs.Prelude.{codes, pos, IfOk};
ghost use Rattle.lab.specs.Grammar.{IsPart, IsWord, draw_part, file_rule, mark_rule, number_rule};

use crate::options::{bank_word, to_a_million};
use clap::{Arg, ArgAction, Command};
use std::alloc::{AllocError, Global};

// A word that doesn't go with another.
fn either_word<'a>(
    alloc: Global,
    name: &'a str,
    other: &'a str,
    help: &'a str,
) -> Result<Arg<'a>, AllocError>
    ensures { IfOk result (IsWord (mark_rule name.entry.now)) }
{
    Arg::new(alloc, name)
        .long(name)
        .action(ArgAction::SetTrue)
        .help(help)
        .conflicts_with(other)
}

// The form that is drawn where none is named.
fn svg_word<'a>(alloc: Global) -> Result<Arg<'a>, AllocError>
    ensures { IfOk result (IsWord (mark_rule (codes "svg"))) }
{
    let help = "As SVG, which is the form where none is named";
    either_word(alloc, "svg", "perfetto", help)
}

// The form for viewers of timelines.
fn perfetto_word<'a>(alloc: Global) -> Result<Arg<'a>, AllocError>
    ensures { IfOk result (IsWord (mark_rule (codes "perfetto"))) }
{
    let help = "As trace events in JSON, for a viewer of timelines";
    either_word(alloc, "perfetto", "svg", help)
}

// A row for each line.
fn down_word<'a>(alloc: Global) -> Result<Arg<'a>, AllocError>
    ensures { IfOk result (IsWord (mark_rule (codes "down"))) }
{
    let help = "An SVG with a row for each line; without it, of at most 60 lines";
    either_word(alloc, "down", "across", help)
}

// A column for each line.
fn across_word<'a>(alloc: Global) -> Result<Arg<'a>, AllocError>
    ensures { IfOk result (IsWord (mark_rule (codes "across"))) }
{
    let help = "An SVG with a column for each line; without it, of more than 60 lines";
    either_word(alloc, "across", "down", help)
}

// How many lines are drawn.
fn upto_word<'a>(alloc: Global) -> Arg<'a>
    ensures { IsWord (number_rule (codes "upto") (pos 1000000)) result }
{
    Arg::new(alloc, "upto")
        .long("upto")
        .value_name("N")
        .value_parser(to_a_million())
        .help("Only the first N lines, of calls and plays")
}

// The page of a long picture.
fn page_word<'a>(alloc: Global) -> Arg<'a>
    ensures { IsWord (number_rule (codes "page") (pos 1000000)) result }
{
    Arg::new(alloc, "page")
        .long("page")
        .value_name("N")
        .value_parser(to_a_million())
        .help("Which page of an SVG of more than 2000 marks, from 1")
}

// The outcome that is drawn.
fn drawn_word<'a>(alloc: Global) -> Arg<'a>
    ensures { IsWord (number_rule (codes "outcome") (pos 1000000)) result }
{
    Arg::new(alloc, "outcome")
        .long("outcome")
        .value_name("N")
        .value_parser(to_a_million())
        .help("Of a text for lab orders, the scenario of the outcome with this number")
}

// The text that is drawn.
fn drawn_file<'a>(alloc: Global) -> Arg<'a>
    ensures { IsWord file_rule result }
{
    Arg::new(alloc, "FILE").action(ArgAction::Set).help(
        "A trace, a scenario or a text for callers; without it, or with -, standard input",
    )
}

/// The words of `draw`.
pub fn draw_command<'a>(alloc: Global) -> Result<Command<'a>, AllocError>
    ensures { IfOk result (IsPart draw_part) }
{
    let command = Command::new(alloc, "draw").about(
        "Draws a trace: a mark for each call and each play",
    );
    let over_bank = command.arg(bank_word(alloc))?;
    let of_outcome = over_bank.arg(drawn_word(alloc))?;
    let as_svg = of_outcome.arg(svg_word(alloc)?)?;
    let as_events = as_svg.arg(perfetto_word(alloc)?)?;
    let with_down = as_events.arg(down_word(alloc)?)?;
    let with_across = with_down.arg(across_word(alloc)?)?;
    let with_upto = with_across.arg(upto_word(alloc))?;
    let with_page = with_upto.arg(page_word(alloc))?;
    let with_file = with_page.arg(drawn_file(alloc))?;
    Ok(with_file)
}
