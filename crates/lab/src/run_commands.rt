//! The words of `run`.
ghost use Rattle.std.specs.Prelude.{codes, IfOk};
ghost use Rattle.lab.specs.Grammar.{IsPart, IsWord, file_rule, free_rule, run_part};

use crate::options::bank_word;
use clap::{Arg, ArgAction, Command};
use std::alloc::{AllocError, Global};

// A form of the schedule; of several the first that `view_of` looks for counts.
fn form_word<'a>(alloc: Global, name: &'a str, help: &'a str) -> Arg<'a>
    ensures { IsWord (free_rule name.entry.now) result }
{
    Arg::new(alloc, name)
        .long(name)
        .action(ArgAction::SetTrue)
        .help(help)
}

// The task set that is run.
fn run_file<'a>(alloc: Global) -> Arg<'a>
    ensures { IsWord file_rule result }
{
    Arg::new(alloc, "FILE")
        .action(ArgAction::Set)
        .help("A task set; without it, or with -, standard input")
}

/// The words of `run`.
pub fn run_command<'a>(alloc: Global) -> Result<Command<'a>, AllocError>
    ensures { IfOk result (IsPart run_part) }
{
    let command = Command::new(alloc, "run").about(
        "Runs a set of tasks that compute for stated times, and prints what came of each job",
    );
    let over_bank = command.arg(bank_word(alloc))?;
    let as_json = over_bank.arg(form_word(
        alloc,
        "json",
        "One line of JSON in place of the report",
    ))?;
    let as_csv = as_json.arg(form_word(alloc, "csv", "The jobs as comma-separated values"))?;
    let as_trace = as_csv.arg(form_word(
        alloc,
        "trace",
        "What happens in jobs, a line each with its date",
    ))?;
    let as_scenario = as_trace.arg(form_word(
        alloc,
        "scenario",
        "The scenario that plays to the same history",
    ))?;
    let as_svg = as_scenario.arg(form_word(alloc, "svg", "A chart of the schedule"))?;
    let with_bounds = as_svg.arg(form_word(
        alloc,
        "bound",
        "The report with the bound that response time analysis gives each task",
    ))?;
    let with_file = with_bounds.arg(run_file(alloc))?;
    Ok(with_file)
}
