//! `lab run`: a task set, with its jobs and the times at which they compute.
ghost use Rattle.std.specs.Prelude.{◌≡◌, IfErr, IfOk, OnOk, false, string_bytes};
ghost use Rattle.std.specs.Io.KnownBytes.{Appends};
ghost use Rattle.lab_streams.specs.Streams.{EndsEarly};

use clap::ArgMatches;
use lab_runs::{Output, View, run_tasks};
use lab_streams::{AT_FAULT, Source, Stream, called, read_plans, read_text, refused, tell_unread};
use std::io;
use std::rt::Files;

// Whether a word without a value is there.
fn is_set(matches: &ArgMatches<'_>, id: &str) -> bool {
    matches.get_one(id).unwrap_or(false)
}

// The form that is printed, by the first of these words that is there.
fn view_of(matches: &ArgMatches<'_>) -> View {
    if is_set(matches, "json") {
        View::Json
    } else if is_set(matches, "csv") {
        View::Csv
    } else if is_set(matches, "trace") {
        View::Trace
    } else if is_set(matches, "scenario") {
        View::Scenario
    } else if is_set(matches, "svg") {
        View::Chart
    } else if is_set(matches, "bound") {
        View::Bounds
    } else {
        View::Report
    }
}

/// Prints what a part prints, says what it says, and answers its status.
pub fn emit<O: Stream, E: Stream>(output: &Output, out: &mut O, err: &mut E) -> io::Result<u8>
    ensures printed { OnOk result (Appends (O.contents out.old) (O.contents out.new) (string_bytes output.now.printed)) }
    ensures said { OnOk result (Appends (E.contents err.old) (E.contents err.new) (string_bytes output.now.said)) }
    ensures status { IfOk result (λ status. status ≡ output.now.status) }
    ensures early { IfErr result (EndsEarly false (O.has_failed out.new) (E.has_failed err.new)) }
{
    out.write_all(output.printed.as_bytes())?;
    err.write_all(output.said.as_bytes())?;
    Ok(output.status)
}

/// Runs the task set of a file, or of the input where none is named, over a bank, and answers the status: 0 where the run
/// goes to its end, 5 where it is cut off, 2 where the text, its setup, a task or the bank is refused.
pub fn run<R: Files + AllocGlobal, I: Source, O: Stream, E: Stream>(
    rt: &R,
    matches: &ArgMatches<'_>,
    input: &mut I,
    out: &mut O,
    err: &mut E,
) -> io::Result<u8>
    ensures early { IfErr result (EndsEarly (I.has_failed input.new) (O.has_failed out.new) (E.has_failed err.new)) }
{
    let Some(plans) = read_plans(rt, matches.get_str("bank"), err)? else {
        return Ok(AT_FAULT);
    };
    let file = matches.get_str("FILE");
    let name = called(file);
    match read_text(rt, file, input) {
        Ok(text) => {
            let output = run_tasks(rt.alloc(), name, text.as_slice(), plans, view_of(matches))?;
            emit(&output, out, err)
        }
        Err(why) => refused(tell_unread(err, name, why)),
    }
}
