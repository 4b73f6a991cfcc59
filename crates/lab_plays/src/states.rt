//! `lab play --states`: how the machines of scenarios stand before the first step and after each, as lines of JSON.
ghost use Rattle.std.specs.Prelude.{◌≡◌, ◌≤◌, ◌∷◌, [], IfErr, IfOk, OnOk, false, length, map, option_map};
ghost use Rattle.std.specs.Io.KnownBytes.{Appends};
ghost use Rattle.evl_plans.specs.Told.{handler_of};
ghost use Rattle.evl_scenario.specs.Scenarios.{scenario_of};
ghost use Rattle.lab_kinds.specs.Kinds.{kind_of};
ghost use Rattle.lab_plays.specs.States.{IsTold, TellsGiven, TellsScript, TellsUnlessRefused};
ghost use Rattle.lab_plays.specs.Plays.{PlaysEach, Tells, ends_well};
ghost use Rattle.lab_json.specs.Runs.{moments_json};
ghost use Rattle.lab_streams.specs.Streams.{EndsEarly};
ghost use Rattle.lab_streams.specs.Texts.{is_input, names_or_input};

use evl_plans::Planned;
use evl_scenario::read_scenario;
use lab_json::write_states;
use lab_kinds::kind_of;
use lab_lines::plain_text;
use lab_streams::{
    AT_FAULT, Stream, read_plans, read_text, tell_done, tell_fault_by, tell_place, tell_unread,
    worse,
};
use std::alloc::Global;
use std::io::{self, Read};
use std::rt::Files;

// Prints the lines of a scenario.
fn put_states<O: Stream>(
    alloc: Global,
    plans: &[Planned],
    limit: Option<u32>,
    name: &str,
    text: &[u8],
    out: &mut O,
) -> io::Result<()>
    ensures text { OnOk result (Appends (O.contents out.old) (O.contents out.new) (moments_json name.now (map handler_of plans.now) (scenario_of limit text.now))) }
    ensures early { IfErr result (EndsEarly false (O.has_failed out.new) false) }
{
    let json = write_states(alloc, name, plans, limit, text)?;
    out.write_all(json.as_bytes())
}

// Prints the lines of a scenario, says that it is done, and answers the status.
fn tell_whole<O: Stream, E: Stream>(
    alloc: Global,
    plans: &[Planned],
    limit: Option<u32>,
    name: &str,
    text: &[u8],
    out: &mut O,
    err: &mut E,
) -> io::Result<u8>
    ensures told { IfOk result (Tells (λ told. told ≡ ends_well name.now (moments_json name.now (map handler_of plans.now) (scenario_of limit text.now))) (O.contents out.old) (O.contents out.new) (E.contents err.old) (E.contents err.new)) }
    ensures early { IfErr result (EndsEarly false (O.has_failed out.new) (E.has_failed err.new)) }
{
    put_states(alloc, plans, limit, name, text, out)?;
    tell_done(err, name)?;
    Ok(0)
}

// Says how the machine of a scenario's text is, and answers the status.
fn tell_text<R: Files + AllocGlobal, O: Stream, E: Stream>(
    rt: &R,
    plans: &[Planned],
    limit: Option<u32>,
    name: &str,
    text: &[u8],
    out: &mut O,
    err: &mut E,
) -> io::Result<u8>
    ensures told { IfOk result (Tells (TellsScript (map handler_of plans.now) name.now (kind_of text.now) (scenario_of limit text.now)) (O.contents out.old) (O.contents out.new) (E.contents err.old) (E.contents err.new)) }
    ensures early { IfErr result (EndsEarly false (O.has_failed out.new) (E.has_failed err.new)) }
{
    match read_scenario(rt.alloc(), text, limit) {
        Ok(scenario) => {
            drop(scenario);
            tell_whole(rt.alloc(), plans, limit, name, text, out, err)
        }
        Err(fault) => {
            let kind = kind_of(rt.alloc(), text)?;
            tell_fault_by(err, name, kind, fault)?;
            Ok(AT_FAULT)
        }
    }
}

// As `tell_text`, of what is in place of a text.
fn tell_given<R: Files + AllocGlobal, O: Stream, E: Stream>(
    rt: &R,
    plans: &[Planned],
    limit: Option<u32>,
    name: &str,
    text: Vec<u8>,
    out: &mut O,
    err: &mut E,
) -> io::Result<u8>
    ensures told { IfOk result (Tells (TellsGiven (map handler_of plans.now) limit name.now text.items) (O.contents out.old) (O.contents out.new) (E.contents err.old) (E.contents err.new)) }
    ensures early { IfErr result (EndsEarly false (O.has_failed out.new) (E.has_failed err.new)) }
{
    match plain_text(rt.alloc(), text) {
        Ok(plain) => tell_text(rt, plans, limit, name, plain.as_slice(), out, err),
        Err(fault) => {
            tell_place(err, name, &fault)?;
            Ok(AT_FAULT)
        }
    }
}

// As `tell_given`, of a file, or of the input where it is `-`.
fn tell_file<R: Files + AllocGlobal, I: Read, O: Stream, E: Stream>(
    rt: &R,
    plans: &[Planned],
    limit: Option<u32>,
    name: &str,
    input: &mut I,
    out: &mut O,
    err: &mut E,
) -> io::Result<u8>
    ensures told { IfOk result (PlaysEach (IsTold (map handler_of plans.now) limit) (name.now ∷ []) (I.remaining input.old) (O.contents out.old) (O.contents out.new) (E.contents err.old) (E.contents err.new)) }
    ensures input { is_input name.now ≡ false → input.new ≡ input.old }
    ensures early { IfErr result (EndsEarly false (O.has_failed out.new) (E.has_failed err.new)) }
{
    match read_text(rt, Some(name), input) {
        Ok(text) => tell_given(rt, plans, limit, name, text, out, err),
        Err(why) => {
            tell_unread(err, name, why)?;
            Ok(AT_FAULT)
        }
    }
}

// As `tell_file`, of files.
fn tell_each<R: Files + AllocGlobal, I: Read, O: Stream, E: Stream>(
    rt: &R,
    plans: &[Planned],
    limit: Option<u32>,
    files: &[&str],
    input: &mut I,
    out: &mut O,
    err: &mut E,
) -> io::Result<u8>
    ensures each { IfOk result (PlaysEach (IsTold (map handler_of plans.now) limit) (map (λ file. file.now) files.now) (I.remaining input.old) (O.contents out.old) (O.contents out.new) (E.contents err.old) (E.contents err.new)) }
    ensures early { IfErr result (EndsEarly false (O.has_failed out.new) (E.has_failed err.new)) }
{
    let mut status = 0;
    for file in files {
        let ended = tell_file(rt, plans, limit, file, input, out, err)?;
        status = worse(status, ended);
    }
    Ok(status)
}

// As `tell_each`, of files, or of the input where none is named.
fn tell_over<R: Files + AllocGlobal, I: Read, O: Stream, E: Stream>(
    rt: &R,
    plans: &[Planned],
    limit: Option<u32>,
    files: &[&str],
    input: &mut I,
    out: &mut O,
    err: &mut E,
) -> io::Result<u8>
    ensures each { IfOk result (PlaysEach (IsTold (map handler_of plans.now) limit) (names_or_input (map (λ file. file.now) files.now)) (I.remaining input.old) (O.contents out.old) (O.contents out.new) (E.contents err.old) (E.contents err.new)) }
    ensures early { IfErr result (EndsEarly false (O.has_failed out.new) (E.has_failed err.new)) }
{
    if files.is_empty() {
        tell_file(rt, plans, limit, "-", input, out, err)
    } else {
        tell_each(rt, plans, limit, files, input, out, err)
    }
}

/// Prints a line of JSON for how the machine of each scenario is before its first step, and one after each, over the
/// callbacks of a bank, and says on `err` how each ended; answers the worst status: 2 where a text is refused or can't be
/// read, or the bank is at fault.
pub fn tell_states<R: Files + AllocGlobal, I: Read, O: Stream, E: Stream>(
    rt: &R,
    bank: Option<&str>,
    limit: Option<u32>,
    files: &[&str],
    input: &mut I,
    out: &mut O,
    err: &mut E,
) -> io::Result<u8>
    ensures tells { IfOk result (TellsUnlessRefused (option_map (λ file. file.now) bank.entry) limit (map (λ file. file.now) files.now) (I.remaining input.old) (O.contents out.old) (O.contents out.new) (E.contents err.old) (E.contents err.new)) }
    ensures early { IfErr result (EndsEarly false (O.has_failed out.new) (E.has_failed err.new)) }
{
    match read_plans(rt, bank, err) {
        Ok(Some(plans)) => tell_over(rt, plans.as_slice(), limit, files, input, out, err),
        Ok(None) => Ok(AT_FAULT),
        Err(error) => Err(error),
    }
}
