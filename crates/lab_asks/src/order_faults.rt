//! The faults of a text whose orders are asked for.
ghost use Rattle.std.specs.Prelude.{◌≡◌, option_map, IfOk, OnOk, IsSomeAnd, IfErr, false};
ghost use Rattle.std.specs.Io.KnownBytes.{Appends};
ghost use Rattle.lab_scenario_orders.specs.Answers.{near_answer};
ghost use Rattle.lab_streams.specs.Endings.{line_about};
ghost use Rattle.lab_asks.specs.Orders.{ask_fault_line, impossible_text, text_fault_words};
ghost use Rattle.lab_streams.specs.Streams.{EndsEarly};

use lab_kinds::{TextKind, ask_line, ask_words, impossible_words};
use lab_scenario_orders::{AskFault, Callers, Never, TextFault, near_answer};
use lab_streams::{AT_FAULT, Stream, tell_fault_by, tell_refused};
use std::alloc::Global;
use std::{fmt, io};

/// Says why a text of a kind is refused that was taken for its callers.
pub fn tell_text_fault<E: Stream>(
    err: &mut E,
    name: &str,
    kind: TextKind,
    fault: TextFault,
) -> io::Result<bool>
    ensures text { OnOk result (IsSomeAnd (text_fault_words kind fault) (λ words. Appends (E.contents err.old) (E.contents err.new) (line_about name.now words))) }
    ensures early { IfErr result (EndsEarly false false (E.has_failed err.new)) }
{
    match fault {
        TextFault::Scenario(fault) => tell_fault_by(err, name, kind, fault),
        TextFault::Mixed => tell_refused(err, name, "a [[setup]] behind a [[step]]"),
        TextFault::Limit => tell_refused(err, name, "more steps than the limit"),
    }
}

// The line of a key, where one is found.
#[derive(Drop)]
struct AtLine(Option<usize>);

impl fmt::Display for AtLine {
    ghost use Rattle.lab_asks.specs.Orders.{line_words};
    ghost use Rattle.std.specs.Prelude.{Some};

    ghost output = { λ at. Some (line_words at.0) };

    fn fmt<W: fmt::Write>(&self, f: &mut fmt::Formatter<W>) -> fmt::Result {
        match self.0 {
            Some(line) => write!(f, "line {line}: "),
            None => Ok(()),
        }
    }
}

/// Says why it can't be read what is asked.
pub fn tell_ask_fault<E: Stream>(
    alloc: Global,
    err: &mut E,
    name: &str,
    fault: AskFault,
) -> io::Result<bool>
    ensures text { OnOk result (IsSomeAnd (ask_fault_line name.now fault) (λ line. Appends (E.contents err.old) (E.contents err.new) line)) }
    ensures early { IfErr result (EndsEarly false false (E.has_failed err.new)) }
{
    let words = ask_words(alloc, fault)?;
    let words = words.as_str();
    let at = AtLine(ask_line(fault));
    writeln!(err, "{name}: {at}{words}")?;
    Ok(true)
}

/// Says which answer no step of its caller can have, and what may be meant.
pub fn tell_meant<E: Stream>(
    alloc: Global,
    err: &mut E,
    name: &str,
    never: &Never,
    meant: Option<&str>,
) -> io::Result<bool>
    ensures text { OnOk result (Appends (E.contents err.old) (E.contents err.new) (impossible_text name.now never.now (option_map (λ word. word.now) meant.entry))) }
    ensures early { IfErr result (EndsEarly false false (E.has_failed err.new)) }
{
    let words = impossible_words(alloc, never, meant)?;
    let words = words.as_str();
    writeln!(err, "{name}: {words}")?;
    Ok(true)
}

/// Says which answer no step of its caller can have, and answers the status.
pub fn tell_impossible<E: Stream>(
    alloc: Global,
    err: &mut E,
    name: &str,
    callers: &Callers,
    never: &Never,
) -> io::Result<u8>
    ensures status { IfOk result (λ status. status ≡ 2) }
    ensures line { OnOk result (Appends (E.contents err.old) (E.contents err.new) (impossible_text name.now never.now (near_answer callers.now.steps.items never.now))) }
    ensures early { IfErr result (EndsEarly false false (E.has_failed err.new)) }
{
    match near_answer(alloc, callers, never) {
        Ok(meant) => match tell_meant(alloc, err, name, never, meant) {
            Ok(_) => Ok(AT_FAULT),
            Err(error) => Err(error),
        },
        Err(error) => Err(error.into()),
    }
}
