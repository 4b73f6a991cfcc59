//! The command lines of the program.
ghost use Rattle.std.specs.Prelude.{◌≡◌, true, map, pos, codes, IfOk, IfErr};
ghost use Rattle.clap.specs.Words.{app_of, kind_of, subcommand_of, subcommand_rows_of, takes};
ghost use Rattle.clap.specs.declared.builder.value_parser.ValueParser.TheVariants.{Signed};
ghost use Rattle.clap.specs.declared.error.kind.ErrorKind.TheVariants.{OutOfMemory};
ghost use Rattle.lab.specs.Grammar.{IsPart, IsWord, callers_part, check_part, convert_part, file_rule, free_rule, grammar, help_part, live_part, mark_rule, number_rule, one_rule, orders_part, play_part, several_rule, text_rule};

use crate::draw_commands::draw_command;
use crate::options::{bank_word, limit_word, to_a_million};
use crate::run_commands::run_command;
use clap::builder::ValueParser;
use clap::{Arg, ArgAction, ArgMatches, Command, Error, value_parser};
use std::alloc::{AllocError, Global};

// The files of `check`.
fn checked_files<'a>(alloc: Global) -> Arg<'a>
    ensures { IsWord (record (several_rule (codes "FILE")) { required = true }) result }
{
    Arg::new(alloc, "FILE")
        .required(true)
        .action(ArgAction::Append)
        .num_args(1..)
        .help("The texts to check: scenarios, banks, and texts for orders or callers")
}

// The words of `check`.
fn check_command<'a>(alloc: Global) -> Result<Command<'a>, AllocError>
    ensures { IfOk result (IsPart check_part) }
{
    let command = Command::new(alloc, "check").about(
        "Tells every fault of texts of each kind, with its place, or else the warnings of a scenario's dry run",
    );
    let over_bank = command.arg(bank_word(alloc))?;
    let as_json = over_bank.arg(as_json_word(alloc, "A line of JSON for each fault or warning"))?;
    let with_files = as_json.arg(checked_files(alloc))?;
    Ok(with_files)
}

// The word that asks for a report as JSON.
fn json_word<'a>(alloc: Global) -> Result<Arg<'a>, AllocError>
    ensures { IfOk result (IsWord (mark_rule (codes "json"))) }
{
    Arg::new(alloc, "json")
        .long("json")
        .action(ArgAction::SetTrue)
        .help("A line of JSON for each entry, with its plays")
        .conflicts_with("against")
}

// The machine's state is printed.
fn states_word<'a>(alloc: Global) -> Result<Arg<'a>, AllocError>
    ensures { IfOk result (IsWord (mark_rule (codes "states"))) }
{
    Arg::new(alloc, "states")
        .long("states")
        .action(ArgAction::SetTrue)
        .help("A line of JSON for how the machine stands before the first step, and one after each")
        .conflicts_with("json")?
        .conflicts_with("against")
}

// The word that asks for a report of texts, or of calls, as JSON.
fn as_json_word<'a>(alloc: Global, help: &'a str) -> Arg<'a>
    ensures { IsWord (free_rule (codes "json")) result }
{
    Arg::new(alloc, "json")
        .long("json")
        .action(ArgAction::SetTrue)
        .help(help)
}

// The folder of traces that were kept.
fn against_word<'a>(alloc: Global) -> Arg<'a>
    ensures { IsWord (text_rule (codes "against")) result }
{
    Arg::new(alloc, "against")
        .long("against")
        .value_name("FOLDER")
        .action(ArgAction::Set)
        .help("The first difference from the trace that FOLDER has of each file")
}

// The files of `play`.
fn played_files<'a>(alloc: Global) -> Arg<'a>
    ensures { IsWord (several_rule (codes "FILE")) result }
{
    Arg::new(alloc, "FILE")
        .action(ArgAction::Append)
        .num_args(1..)
        .help("The scenarios; without them, or with -, standard input")
}

// The words of `play`.
fn play_command<'a>(alloc: Global) -> Result<Command<'a>, AllocError>
    ensures { IfOk result (IsPart play_part) }
{
    let command = Command::new(alloc, "play").about("Plays scenarios and prints their traces");
    let over_bank = command.arg(bank_word(alloc))?;
    let with_limit = over_bank.arg(limit_word(alloc))?;
    let as_json = with_limit.arg(json_word(alloc)?)?;
    let with_states = as_json.arg(states_word(alloc)?)?;
    let against = with_states.arg(against_word(alloc))?;
    let with_files = against.arg(played_files(alloc))?;
    Ok(with_files)
}

// A form of a scenario, which doesn't go with the other.
fn converted_word<'a>(
    alloc: Global,
    name: &'a str,
    other: &'a str,
    help: &'a str,
) -> Result<Arg<'a>, AllocError>
    ensures { IfOk result (IsWord (mark_rule name.entry.now)) }
{
    Arg::new(alloc, name)
        .long(name)
        .action(ArgAction::SetTrue)
        .help(help)
        .conflicts_with(other)
}

// As lines.
fn lines_word<'a>(alloc: Global) -> Result<Arg<'a>, AllocError>
    ensures { IfOk result (IsWord (mark_rule (codes "lines"))) }
{
    converted_word(alloc, "lines", "toml", "As lines, as T0 put sem=0")
}

// As tables.
fn toml_word<'a>(alloc: Global) -> Result<Arg<'a>, AllocError>
    ensures { IfOk result (IsWord (mark_rule (codes "toml"))) }
{
    converted_word(alloc, "toml", "lines", "As a table [[step]] for each step")
}

// The text that is converted.
fn converted_file<'a>(alloc: Global) -> Arg<'a>
    ensures { IsWord file_rule result }
{
    Arg::new(alloc, "FILE").action(ArgAction::Set).help(
        "A scenario, a text of lines or a trace; without it, or with -, standard input",
    )
}

// The words of `convert`.
fn convert_command<'a>(alloc: Global) -> Result<Command<'a>, AllocError>
    ensures { IfOk result (IsPart convert_part) }
{
    let command = Command::new(alloc, "convert").about(
        "Prints a scenario as lines, and lines as a scenario",
    );
    let as_lines = command.arg(lines_word(alloc)?)?;
    let as_tables = as_lines.arg(toml_word(alloc)?)?;
    let with_file = as_tables.arg(converted_file(alloc))?;
    Ok(with_file)
}

// The scenario that comes first.
fn first_file<'a>(alloc: Global) -> Arg<'a>
    ensures { IsWord file_rule result }
{
    Arg::new(alloc, "FILE")
        .action(ArgAction::Set)
        .help("The scenario whose board and steps come first")
}

// Whether lines are prompted for.
fn prompt_word<'a>(alloc: Global) -> Arg<'a>
    ensures { IsWord (free_rule (codes "prompt")) result }
{
    Arg::new(alloc, "prompt")
        .long("prompt")
        .action(ArgAction::SetTrue)
        .help("A prompt on standard error before each line, which ./lab asks for on a terminal")
}

// The words of `live`.
fn live_command<'a>(alloc: Global) -> Result<Command<'a>, AllocError>
    ensures { IfOk result (IsPart live_part) }
{
    let command = Command::new(alloc, "live").about(
        "Answers each line of standard input, a call as a trace has it; ? helps; ./lab keeps a history by rlwrap, if it is there",
    );
    let over_bank = command.arg(bank_word(alloc))?;
    let with_limit = over_bank.arg(limit_word(alloc))?;
    let prompted = with_limit.arg(prompt_word(alloc))?;
    let with_file = prompted.arg(first_file(alloc))?;
    Ok(with_file)
}

// The text of callers.
fn callers_file<'a>(alloc: Global) -> Arg<'a>
    ensures { IsWord file_rule result }
{
    Arg::new(alloc, "FILE").action(ArgAction::Set).help(
        "A scenario, in which [[setup]] stands for a step that comes first; without it, or with -, standard input",
    )
}

// A number from 1 to a hundred millions.
fn to_a_hundred_millions<'a>() -> ValueParser<'a>
    ensures { result ≡ Signed (pos 1) (pos 100000000) }
{
    value_parser!(u32).range(1..=100_000_000)
}

// How far the orders are gone through.
fn most_word<'a>(alloc: Global) -> Arg<'a>
    ensures { IsWord (number_rule (codes "most") (pos 100000000)) result }
{
    Arg::new(alloc, "most")
        .long("most")
        .value_name("N")
        .value_parser(to_a_hundred_millions())
        .help(
            "Go no further than where a number of steps leads to more than N moments; 100000 without it",
        )
}

// The outcome whose scenario is printed.
fn outcome_word<'a>(alloc: Global) -> Arg<'a>
    ensures { IsWord (number_rule (codes "outcome") (pos 1000000)) result }
{
    Arg::new(alloc, "outcome")
        .long("outcome")
        .value_name("N")
        .value_parser(to_a_million())
        .help("Prints the scenario of the outcome with this number alone, for lab draw or ./evl")
}

// The question about moments whose first order is printed.
fn state_word<'a>(alloc: Global) -> Arg<'a>
    ensures { IsWord (number_rule (codes "state") (pos 1000000)) result }
{
    Arg::new(alloc, "state")
        .long("state")
        .value_name("N")
        .value_parser(to_a_million())
        .help(
            "Prints the scenario of the first order that leads to the state with this number alone",
        )
}

// Whether only what is asked is looked for.
fn ask_word<'a>(alloc: Global) -> Arg<'a>
    ensures { IsWord (free_rule (codes "ask")) result }
{
    Arg::new(alloc, "ask")
        .long("ask")
        .action(ArgAction::SetTrue)
        .help(
            "Tells what came of [ask] alone, and forgets the answers that it doesn't ask for: faster",
        )
}

// The order whose scenario is printed.
fn order_word<'a>(alloc: Global) -> Arg<'a>
    ensures { IsWord (text_rule (codes "order")) result }
{
    Arg::new(alloc, "order")
        .long("order")
        .value_name("ORDER")
        .action(ArgAction::Set)
        .help("Prints the scenario of this order alone, as \"T1 T2 T1\", if its steps can be made")
}

// Whether the answers that came at each step are reported.
fn answers_word<'a>(alloc: Global) -> Arg<'a>
    ensures { IsWord (free_rule (codes "answers")) result }
{
    Arg::new(alloc, "answers")
        .long("answers")
        .action(ArgAction::SetTrue)
        .help(
            "Prints which answers came at each step, and in how many orders, in place of the outcomes",
        )
}

// The word that asks for a report of all orders as JSON.
fn orders_json_word<'a>(alloc: Global) -> Arg<'a>
    ensures { IsWord (free_rule (codes "json")) result }
{
    Arg::new(alloc, "json")
        .long("json")
        .action(ArgAction::SetTrue)
        .help("One line of JSON in place of the report")
}

// The words of `orders`.
fn orders_command<'a>(alloc: Global) -> Result<Command<'a>, AllocError>
    ensures { IfOk result (IsPart orders_part) }
{
    let command = Command::new(alloc, "orders").about(
        "Goes through every order in which the callers of a scenario may come, or in which they step on words",
    );
    let over_bank = command.arg(bank_word(alloc))?;
    let with_most = over_bank.arg(most_word(alloc))?;
    let with_outcome = with_most.arg(outcome_word(alloc))?;
    let with_state = with_outcome.arg(state_word(alloc))?;
    let with_ask = with_state.arg(ask_word(alloc))?;
    let with_order = with_ask.arg(order_word(alloc))?;
    let with_answers = with_order.arg(answers_word(alloc))?;
    let with_json = with_answers.arg(orders_json_word(alloc))?;
    let with_file = with_json.arg(callers_file(alloc))?;
    Ok(with_file)
}

// The text of callers that is played.
fn steps_file<'a>(alloc: Global) -> Arg<'a>
    ensures { IsWord file_rule result }
{
    Arg::new(alloc, "FILE").action(ArgAction::Set).help(
        "A scenario with staxes, and with steps of callers; without it, or with -, standard input",
    )
}

// The words of `callers`.
fn steps_command<'a>(alloc: Global) -> Result<Command<'a>, AllocError>
    ensures { IfOk result (IsPart callers_part) }
{
    let command = Command::new(alloc, "callers").about(
        "Plays callers of both stages, and shows the words of staxes and mutexes",
    );
    let over_bank = command.arg(bank_word(alloc))?;
    let with_limit = over_bank.arg(limit_word(alloc))?;
    let with_file = with_limit.arg(steps_file(alloc))?;
    Ok(with_file)
}

// The word of a call.
fn call_word<'a>(alloc: Global) -> Arg<'a>
    ensures { IsWord (one_rule (codes "WORD")) result }
{
    Arg::new(alloc, "WORD")
        .action(ArgAction::Set)
        .help("A call's word; without it, all calls")
}

// The words of `help`.
fn help_command<'a>(alloc: Global) -> Result<Command<'a>, AllocError>
    ensures { IfOk result (IsPart help_part) }
{
    let command = Command::new(alloc, "help").about(
        "Tells a form of each call, or of one what its keys take",
    );
    let as_json = command.arg(as_json_word(alloc, "A line of JSON for each call"))?;
    let with_word = as_json.arg(call_word(alloc))?;
    Ok(with_word)
}

// The command line that the program takes.
fn command_line<'a>(alloc: Global) -> Result<Command<'a>, AllocError>
    ensures { IfOk result (λ command. app_of command ≡ grammar) }
{
    let program = Command::new(alloc, "lab")
        .about("Checks, plays, drives and draws scenarios of calls on an out-of-band core")
        .disable_help_subcommand(true)
        .subcommand_required(true);
    let checks = program.subcommand(check_command(alloc)?)?;
    let draws = checks.subcommand(draw_command(alloc)?)?;
    let plays = draws.subcommand(play_command(alloc)?)?;
    let converts = plays.subcommand(convert_command(alloc)?)?;
    let lives = converts.subcommand(live_command(alloc)?)?;
    let orders = lives.subcommand(orders_command(alloc)?)?;
    let steps = orders.subcommand(steps_command(alloc)?)?;
    let runs = steps.subcommand(run_command(alloc)?)?;
    let all = runs.subcommand(help_command(alloc)?)?;
    Ok(all)
}

/// Reads the words, of which the first is the program's name.
pub fn read_words<'a>(alloc: Global, words: &'a [&'a str]) -> Result<ArgMatches<'a>, Error>
    ensures part { IfOk result (λ matches. subcommand_rows_of matches ≡ subcommand_of grammar (map (λ s. s.now) words.now)) }
    ensures taken { IfErr result (λ e. takes grammar (map (λ s. s.now) words.now) ≡ true → kind_of e ≡ OutOfMemory) }
{
    match command_line(alloc)?.try_get_matches_from(words) {
        Ok(matches) => Ok(matches),
        Err(error) => Err(error),
    }
}
