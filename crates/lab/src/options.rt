//! The options that several parts of the program take.
ghost use Rattle.std.specs.Prelude.{◌≡◌, pos};
ghost use Rattle.clap.specs.declared.builder.value_parser.ValueParser.TheVariants.{Signed};
ghost use Rattle.lab.specs.Grammar.{IsWord, bank_rule, limit_rule};

use clap::builder::ValueParser;
use clap::{Arg, ArgAction, value_parser};
use std::alloc::Global;

/// The file of a bank.
pub fn bank_word<'a>(alloc: Global) -> Arg<'a>
    ensures { IsWord bank_rule result }
{
    Arg::new(alloc, "bank")
        .long("bank")
        .value_name("BANK")
        .action(ArgAction::Set)
        .help("The callbacks, as tables [[callback]]; without it, the program's eight")
}

/// A number from 1 to a million.
pub fn to_a_million<'a>() -> ValueParser<'a>
    ensures { result ≡ Signed (pos 1) (pos 1000000) }
{
    value_parser!(u32).range(1..=1_000_000)
}

/// The limit of the history.
pub fn limit_word<'a>(alloc: Global) -> Arg<'a>
    ensures { IsWord limit_rule result }
{
    Arg::new(alloc, "limit")
        .long("limit")
        .value_name("N")
        .value_parser(to_a_million())
        .help("How many entries the history may have, in place of the scenario's own limit")
}
