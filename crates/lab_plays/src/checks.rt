//! `lab check`: the faults of texts by their kinds, and the warnings of a scenario's dry run.
ghost use Rattle.std.specs.Prelude.{◌≡◌, ◌≤◌, ◌++◌, [], ◌∷◌, length, map, option_map, string_bytes, true, IfOk, OnOk, IfErr, false};
ghost use Rattle.evl_plans.specs.Told as callbacks;
ghost use Rattle.lab_kinds.specs.Kinds.{checked_kind};
ghost use Rattle.lab_plays.specs.Checks.{ChecksEach, ChecksJudged, ChecksText, ChecksUnlessRefused, Prints, PrintsStatus, TellsText, kind_warnings};
ghost use Rattle.lab_streams.specs.Streams.{EndsEarly};

use crate::expects::{judge, tell_judged};
use evl_plans::Planned;
use lab_kinds::{TextKind, checked_kind, report_kind};
use lab_lines::plain_text;
use lab_streams::{
    AT_FAULT, Stream, read_file, read_plans, status_of, tell_place, tell_unread, worse,
};
use lab_warnings::warnings;
use std::alloc::{AllocError, Global};
use std::io;
use std::rt::Files;

/// Prints the warnings of a scenario without fault; a text of another kind has none.
pub fn warn(
    alloc: Global,
    plans: &[Planned],
    kind: TextKind,
    name: &str,
    text: &[u8],
    told: &mut String,
) -> Result<(), AllocError>
    ensures { OnOk result (string_bytes told.new ≡ string_bytes told.old ++ kind_warnings (map callbacks.handler_of plans.now) kind name.now text.now) }
{
    match kind {
        TextKind::Scenario => {
            warnings(alloc, name, text, plans, told)?;
            Ok(())
        }
        TextKind::Orders | TextKind::Callers | TextKind::Bank => Ok(()),
    }
}

// Reports the faults of a text of a kind, or its warnings where it has none, and whether it has a fault.
fn tell_faults(
    alloc: Global,
    plans: &[Planned],
    kind: TextKind,
    name: &str,
    text: &[u8],
    told: &mut String,
) -> Result<bool, AllocError>
    ensures { IfOk result (TellsText (map callbacks.handler_of plans.now) kind name.now text.now (string_bytes told.old) (string_bytes told.new)) }
{
    if report_kind(alloc, kind, name, text, told)? {
        return Ok(true);
    }
    warn(alloc, plans, kind, name, text, told)?;
    Ok(false)
}

// Prints the faults or warnings of a text, and says whether it has a fault.
fn check_text<O: Stream>(
    alloc: Global,
    plans: &[Planned],
    name: &str,
    text: &[u8],
    out: &mut O,
) -> io::Result<bool>
    ensures prints { IfOk result (Prints (TellsText (map callbacks.handler_of plans.now) (checked_kind text.now) name.now text.now []) (O.contents out.old) (O.contents out.new)) }
    ensures early { IfErr result (EndsEarly false (O.has_failed out.new) false) }
{
    let kind = checked_kind(alloc, text)?;
    let mut told = String::new(alloc);
    let is_at_fault = tell_faults(alloc, plans, kind, name, text, &mut told)?;
    out.write_all(told.as_bytes())?;
    Ok(is_at_fault)
}

// As `check_text`, of what is in place of a text; of a text of lines that can't be read prints its first fault.
fn check_given<O: Stream>(
    alloc: Global,
    plans: &[Planned],
    name: &str,
    text: Vec<u8>,
    out: &mut O,
) -> io::Result<bool>
    ensures prints { IfOk result (Prints (ChecksText (map callbacks.handler_of plans.now) name.now text.items) (O.contents out.old) (O.contents out.new)) }
    ensures early { IfErr result (EndsEarly false (O.has_failed out.new) false) }
{
    match plain_text(alloc, text) {
        Ok(plain) => check_text(alloc, plans, name, plain.as_slice(), out),
        Err(fault) => tell_place(out, name, &fault),
    }
}

// Prints the faults or warnings of a text, and then whether its steps are answered as it expects.
fn check_judged<O: Stream>(
    alloc: Global,
    plans: &[Planned],
    name: &str,
    text: Vec<u8>,
    out: &mut O,
) -> io::Result<u8>
    requires { length plans.now ≤ 64 }
    ensures prints { IfOk result (PrintsStatus (ChecksJudged (map callbacks.handler_of plans.now) name.now text.items) (O.contents out.old) (O.contents out.new)) }
    ensures early { IfErr result (EndsEarly false (O.has_failed out.new) false) }
{
    let judged = judge(alloc, plans, None, name, text.as_slice())?;
    let is_bad = check_given(alloc, plans, name, text, out)?;
    tell_judged(out, status_of(is_bad), &judged)
}

// Prints the faults or warnings of a file, and answers its status.
fn check_file<R: Files + AllocGlobal, O: Stream>(
    rt: &R,
    plans: &[Planned],
    name: &str,
    out: &mut O,
) -> io::Result<u8>
    requires { length plans.now ≤ 64 }
    ensures each { IfOk result (ChecksEach (map callbacks.handler_of plans.now) (name.now ∷ []) (O.contents out.old) (O.contents out.new)) }
    ensures early { IfErr result (EndsEarly false (O.has_failed out.new) false) }
{
    match read_file(rt, name) {
        Ok(text) => check_judged(rt.alloc(), plans, name, text, out),
        Err(why) => {
            tell_unread(out, name, why)?;
            Ok(AT_FAULT)
        }
    }
}

// Prints the faults or warnings of files, and answers the worst status.
fn check_each<R: Files + AllocGlobal, O: Stream>(
    rt: &R,
    plans: &[Planned],
    names: &[&str],
    out: &mut O,
) -> io::Result<u8>
    requires { length plans.now ≤ 64 }
    ensures each { IfOk result (ChecksEach (map callbacks.handler_of plans.now) (map (λ name. name.now) names.now) (O.contents out.old) (O.contents out.new)) }
    ensures early { IfErr result (EndsEarly false (O.has_failed out.new) false) }
{
    let mut status = 0;
    for name in names {
        let ended = check_file(rt, plans, name, out)?;
        status = worse(status, ended);
    }
    Ok(status)
}

/// Prints the faults of files, a line each, or where a file has none the warnings of a dry run over a bank and the first
/// step that is answered otherwise than it expects, and answers the status: 2 where a file is at fault or can't be read,
/// or the bank is, else 1 where a step is answered otherwise.
pub fn check_files<R: Files + AllocGlobal, O: Stream, E: Stream>(
    rt: &R,
    bank: Option<&str>,
    names: &[&str],
    out: &mut O,
    err: &mut E,
) -> io::Result<u8>
    ensures checks { IfOk result (ChecksUnlessRefused (option_map (λ file. file.now) bank.entry) (map (λ name. name.now) names.now) (O.contents out.old) (O.contents out.new) (E.contents err.old) (E.contents err.new)) }
    ensures early { IfErr result (EndsEarly false (O.has_failed out.new) (E.has_failed err.new)) }
{
    match read_plans(rt, bank, err) {
        Ok(Some(plans)) => check_each(rt, plans.as_slice(), names, out),
        Ok(None) => Ok(AT_FAULT),
        Err(error) => Err(error),
    }
}
