//! The answers that a text expects for its steps, and whether they come.
ghost use Rattle.std.specs.Prelude.{◌≡◌, ◌≤◌, IfErr, IfOk, OnOk, false, length, map, max, string_bytes};
ghost use Rattle.std.specs.Io.KnownBytes.{Appends};
ghost use Rattle.evl_plans.specs.Told.{handler_of};
ghost use Rattle.evl_scenario.specs.Scenarios.{scenario_of};
ghost use Rattle.lab_plays.specs.Expects as expects;
ghost use Rattle.lab_plays.specs.Expects.{IsNothing, IsSaid, JudgesAll, JudgesBy, JudgesGiven, JudgesPlain, JudgesRead, JudgesText, JudgesTrace, TellsFound, no_answer_words, other_words};
ghost use Rattle.lab_lines.specs.declared.tables.Expected.{Expected as Wanted};
ghost use Rattle.lab_streams.specs.Streams.{EndsEarly};
ghost use Rattle.evl_shell.specs.Runs.{trace_of};

use evl_plans::{Planned, trace_plans};
use evl_scenario::{Fault, Step, read_scenario};
use lab_kinds::{TextKind, kind_of};
use lab_lines::{
    ExpectFault, Expected, LinesFault, Unexpected, first_unexpected, plain_text, read_expected,
};
use lab_streams::{AGAINST, AT_FAULT, Stream, text_in, worse};
use std::alloc::{AllocError, Global};
use std::io;

/// The report of a text that expects answers, and its status: nothing with 0, that a step is answered otherwise with
/// 1, or a fault with 2.
#[derive(Drop)]
pub struct Judged {
    pub said: String,
    pub status: u8,
}

// The verdict that reports nothing.
fn nothing(alloc: Global) -> Judged
    ensures { IsNothing result }
{
    Judged {
        said: String::new(alloc),
        status: 0,
    }
}

// The verdict that reports this of a line.
fn said(
    alloc: Global,
    name: &str,
    line: usize,
    words: &str,
    status: u8,
) -> Result<Judged, AllocError>
    ensures { IfOk result (IsSaid name.now line words.now status) }
{
    Ok(Judged {
        said: format!(in alloc; "{name}:{line}: {words}\n")?,
        status,
    })
}

// The status of what was found.
fn found_status(is_fault: bool) -> u8
    ensures { result ≡ expects.found_status is_fault }
{
    if is_fault { AT_FAULT } else { AGAINST }
}

// Prints what was found.
fn tell_found(alloc: Global, name: &str, found: Option<Unexpected>) -> Result<Judged, AllocError>
    ensures { IfOk result (TellsFound name.now found) }
{
    match found {
        Some(one) => {
            let status = found_status(one.is_fault);
            said(alloc, name, one.line, one.words.as_str(), status)
        },
        None => Ok(nothing(alloc)),
    }
}

// Judges the steps of a scenario by its trace.
fn judge_steps(
    alloc: Global,
    name: &str,
    expected: &[Expected],
    steps: &[Step],
    trace: &[u8],
) -> Result<Judged, AllocError>
    ensures { IfOk result (expects.JudgesSteps name.now expected.now trace.now steps.now) }
{
    let found = first_unexpected(alloc, expected, steps, text_in(trace))?;
    tell_found(alloc, name, found)
}

// Judges a scenario by its trace.
fn judge_trace(
    alloc: Global,
    name: &str,
    expected: &[Expected],
    plain: &[u8],
    limit: Option<u32>,
    trace: &[u8],
) -> Result<Judged, AllocError>
    ensures { IfOk result (JudgesRead name.now expected.now trace.now (scenario_of limit plain.now)) }
{
    match read_scenario(alloc, plain, limit) {
        Ok(scenario) => {
            let (_, _, steps) = scenario.into_parts();
            judge_steps(alloc, name, expected, steps.as_slice(), trace)
        }
        Err(Fault::Memory) => Err(AllocError),
        Err(_) => Ok(nothing(alloc)),
    }
}

// Judges a scenario over these callbacks.
fn judge_scenario(
    alloc: Global,
    plans: &[Planned],
    limit: Option<u32>,
    name: &str,
    expected: &[Expected],
    plain: &[u8],
) -> Result<Judged, AllocError>
    requires { length plans.now ≤ 64 }
    ensures { IfOk result (JudgesTrace name.now expected.now (trace_of (map handler_of plans.now) limit plain.now) (scenario_of limit plain.now)) }
{
    match trace_plans(alloc, plans, plain, limit) {
        Ok(trace) => judge_trace(alloc, name, expected, plain, limit, trace.as_slice()),
        Err(Fault::Memory | Fault::Write) => Err(AllocError),
        Err(_) => Ok(nothing(alloc)),
    }
}

// The verdict that a text of another kind expects nothing.
fn judge_other(alloc: Global, name: &str, first: &Expected) -> Result<Judged, AllocError>
    ensures { IfOk result (IsSaid name.now first.now.line (other_words first.now) 2) }
{
    let number = first.step;
    let words = format!(in alloc; "step {number}: an answer can be expected in a scenario alone")?;
    said(alloc, name, first.line, words.as_str(), AT_FAULT)
}

// Judges a scenario, or a text of another kind.
fn judge_plain(
    alloc: Global,
    plans: &[Planned],
    limit: Option<u32>,
    name: &str,
    first: &Expected,
    expected: &[Expected],
    plain: &[u8],
) -> Result<Judged, AllocError>
    requires { length plans.now ≤ 64 }
    ensures { IfOk result (JudgesPlain (map handler_of plans.now) limit name.now first.now expected.now plain.now) }
{
    match kind_of(alloc, plain)? {
        TextKind::Scenario => judge_scenario(alloc, plans, limit, name, expected, plain),
        _ => judge_other(alloc, name, first),
    }
}

// The same bytes once more.
fn copied(alloc: Global, bytes: &[u8]) -> Result<Vec<u8>, AllocError>
    ensures { IfOk result (λ copy. copy.items ≡ bytes.now) }
{
    let mut copy = Vec::new(alloc);
    copy.extend_from_slice(bytes)?;
    Ok(copy)
}

// Judges what is in place of a text.
fn judge_given(
    alloc: Global,
    plans: &[Planned],
    limit: Option<u32>,
    name: &str,
    first: &Expected,
    expected: &[Expected],
    text: &[u8],
) -> Result<Judged, AllocError>
    requires { length plans.now ≤ 64 }
    ensures { IfOk result (JudgesGiven (map handler_of plans.now) limit name.now first.now expected.now text.now) }
{
    match plain_text(alloc, copied(alloc, text)?) {
        Ok(plain) => judge_plain(alloc, plans, limit, name, first, expected, plain.as_slice()),
        Err(LinesFault::Memory) => Err(AllocError),
        Err(_) => Ok(nothing(alloc)),
    }
}

// Judges a text that may expect something.
fn judge_all(
    alloc: Global,
    plans: &[Planned],
    limit: Option<u32>,
    name: &str,
    expected: &[Expected],
    text: &[u8],
) -> Result<Judged, AllocError>
    requires { length plans.now ≤ 64 }
    ensures { IfOk result (JudgesAll (map handler_of plans.now) limit name.now text.now expected.now) }
{
    match expected {
        [first, ..] => judge_given(alloc, plans, limit, name, first, expected, text),
        [] => Ok(nothing(alloc)),
    }
}

// The verdict that an `expect` has no answer.
fn no_answer(alloc: Global, name: &str, line: usize, step: usize) -> Result<Judged, AllocError>
    ensures { IfOk result (IsSaid name.now line (no_answer_words step) 2) }
{
    let words = format!(in alloc;
        "step {step}: an answer in quotes is wanted, as expect = \"Deadlock\""
    )?;
    said(alloc, name, line, words.as_str(), AT_FAULT)
}

/// Plays a text that expects answers over callbacks, under a limit that may be handed in, and names the first step that
/// is answered otherwise, or of which an answer is expected that no call of its kind has; of any other text nothing.
/// `AllocError` where memory couldn't grow.
pub fn judge(
    alloc: Global,
    plans: &[Planned],
    limit: Option<u32>,
    name: &str,
    text: &[u8],
) -> Result<Judged, AllocError>
    requires { length plans.now ≤ 64 }
    ensures { IfOk result (JudgesText (map handler_of plans.now) limit name.now text.now) }
{
    match read_expected(alloc, text) {
        Ok(expected) => judge_all(alloc, plans, limit, name, expected.as_slice(), text),
        Err(ExpectFault::NoAnswer(line, step)) => no_answer(alloc, name, line, step),
        Err(ExpectFault::Memory) => Err(AllocError),
    }
}

/// Says what was judged of a text after what else was written of it, and answers the worse status.
pub fn tell_judged<E: Stream>(err: &mut E, status: u8, judged: &Judged) -> io::Result<u8>
    ensures status { IfOk result (λ worse. worse ≡ max status judged.now.status) }
    ensures said { OnOk result (Appends (E.contents err.old) (E.contents err.new) (string_bytes judged.now.said)) }
    ensures early { IfErr result (EndsEarly false false (E.has_failed err.new)) }
{
    err.write_all(judged.said.as_bytes())?;
    Ok(worse(status, judged.status))
}
