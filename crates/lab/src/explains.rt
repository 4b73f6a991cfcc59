//! The first fault of a text that was refused, and the way to `lab check`.
ghost use Rattle.std.specs.Prelude.{◌≡◌, ◌⊎◌, ◌++◌, ◌∷◌, List, ℕ, IfErr, IfOk, OnOk, false, map, option_map, string_bytes};
ghost use Rattle.std.specs.Io.KnownBytes.{Appends};
ghost use Rattle.lab_drives.specs.Callers.{TellsCallers};
ghost use Rattle.lab_draws.specs.Draws.{Draws};
ghost use Rattle.lab.specs.Explains as explains;
ghost use Rattle.lab.specs.Explains.{Behind, Explains, ExplainsEach, ExplainsFile, ExplainsGiven, ExplainsKind, ExplainsText, IsFirstLine, fault_text, misplaced_text, named};
ghost use Rattle.lab_asks.specs.Orders.{TellsOrders};
ghost use Rattle.lab_plays.specs.States.{TellsUnlessRefused};
ghost use Rattle.lab_plays.specs.Plays.{PlaysUnlessRefused};
ghost use Rattle.lab_streams.specs.Streams.{EndsEarly};
ghost use Rattle.lab_traces.specs.Parts.{around};

use lab_asks::tell_orders;
use lab_draws::draw;
use lab_drives::drive_callers;
use lab_kinds::{TextKind, checked_kind, kind_of, report_kind};
use lab_lines::{LinesFault, plain_text};
use lab_plays::{play_files, tell_states};
use lab_streams::{AT_FAULT, Asked, Drawing, Driving, Playing, Stream, read_file};
use std::alloc::{AllocError, Global};
use std::io::{self, Read};
use std::rt::Files;

/// The kind of text that a part takes beside scenarios.
#[derive(Clone, Copy, PartialEq, Eq)]
pub enum Takes {
    Scenarios,
    Orders,
    Callers,
}

// Whether a part takes texts of a kind.
fn is_taken(takes: Takes, kind: TextKind) -> bool
    ensures { result ≡ explains.is_taken takes kind }
{
    match (takes, kind) {
        (_, TextKind::Scenario) => true,
        (Takes::Orders, TextKind::Orders | TextKind::Callers) => true,
        (Takes::Callers, TextKind::Callers) => true,
        _ => false,
    }
}

// The parts before and after the first end of a line.
fn around_feed(report: &str) -> Option<(&str, &str)>
    ensures { option_map (λ parts. (parts.0.now, parts.1.now)) result ≡ around 10 report.now }
{
    match report.split_once('\n') {
        Some(parts) => Some(parts),
        None => None,
    }
}

// The first line of a report.
fn first_line(report: &str) -> &str
    ensures { IsFirstLine report.now result.now }
{
    match around_feed(report) {
        Some((line, _)) => line,
        None => report,
    }
}

// The first line of a report, and the way to all.
fn fault_text(alloc: Global, name: &str, line: &str) -> Result<String, AllocError>
    ensures { IfOk result (λ text. string_bytes text ≡ fault_text name.now line.now) }
{
    format!(in alloc; "{line}\nlab check {name} tells every fault\n")
}

// The first fault of a text of a kind, if it has one.
fn explained_kind(
    alloc: Global,
    kind: TextKind,
    name: &str,
    text: &[u8],
) -> Result<String, AllocError>
    ensures { IfOk result (λ said. ExplainsKind kind name.now text.now (string_bytes said)) }
{
    let mut report = String::new(alloc);
    if report_kind(alloc, kind, name, text, &mut report)? {
        fault_text(alloc, name, first_line(report.as_str()))
    } else {
        Ok(String::new(alloc))
    }
}

// For which part a text of a kind is that is checked as one that the part doesn't take.
fn misplaced_text(
    alloc: Global,
    takes: Takes,
    kind: TextKind,
    name: &str,
) -> Result<String, AllocError>
    ensures { IfOk result (λ text. string_bytes text ≡ misplaced_text takes kind name.now) }
{
    match (takes, kind) {
        (Takes::Callers, TextKind::Callers) => {
            format!(in alloc; "{name}: has lasts or [what_if]: a text for lab orders\n")
        }
        _ => Ok(String::new(alloc)),
    }
}

// As `misplaced_text`, of a text, by the kind as which it is checked.
fn explained_text(
    alloc: Global,
    takes: Takes,
    name: &str,
    text: &[u8],
) -> Result<String, AllocError>
    ensures { IfOk result (λ said. ExplainsText takes name.now text.now (string_bytes said)) }
{
    let kind = checked_kind(alloc, text)?;
    if is_taken(takes, kind) {
        explained_kind(alloc, kind, name, text)
    } else {
        misplaced_text(alloc, takes, kind_of(alloc, text)?, name)
    }
}

// As `explained_text`, of what is in place of a text.
fn explained_given(
    alloc: Global,
    takes: Takes,
    name: &str,
    text: Vec<u8>,
) -> Result<String, AllocError>
    ensures { IfOk result (λ said. ExplainsGiven takes name.now text.items (string_bytes said)) }
{
    match plain_text(alloc, text) {
        Ok(plain) => explained_text(alloc, takes, name, plain.as_slice()),
        Err(LinesFault::Memory) => Err(AllocError),
        Err(_) => Ok(String::new(alloc)),
    }
}

// As `explained_given`, of a file that can be read.
fn explained_file<R: Files + AllocGlobal>(
    rt: &R,
    takes: Takes,
    name: &str,
) -> Result<String, AllocError>
    ensures { IfOk result (λ said. ExplainsFile takes name.now (string_bytes said)) }
{
    if name == "-" {
        return Ok(String::new(rt.alloc()));
    }
    match read_file(rt, name) {
        Ok(text) => explained_given(rt.alloc(), takes, name, text),
        Err(_) => Ok(String::new(rt.alloc())),
    }
}

// As `explained_file`, of files, one after the other.
fn explain_each<R: Files + AllocGlobal>(
    rt: &R,
    takes: Takes,
    names: &[&str],
    told: &mut String,
) -> Result<(), AllocError>
    ensures { OnOk result ((said : List ℕ) × ExplainsEach takes (map (λ name. name.now) names.now) said × (string_bytes told.new ≡ string_bytes told.old ++ said)) }
{
    for name in names {
        let said = explained_file(rt, takes, *name)?;
        told.push_str(said.as_str())?;
    }
    Ok(())
}

// Reports the first fault of each of these files, where the status is that of texts at fault.
fn explain<R: Files + AllocGlobal, E: Stream>(
    rt: &R,
    takes: Takes,
    status: u8,
    names: &[&str],
    err: &mut E,
) -> io::Result<()>
    ensures told { OnOk result ((said : List ℕ) × Explains takes status (map (λ name. name.now) names.now) said × Appends (E.contents err.old) (E.contents err.new) said) }
    ensures early { IfErr result (EndsEarly false false (E.has_failed err.new)) }
{
    if status != AT_FAULT {
        return Ok(());
    }
    let mut told = String::new(rt.alloc());
    explain_each(rt, takes, names, &mut told)?;
    err.write_all(told.as_bytes())
}

// As `explain`, of one file, if there is one.
fn explain_one<R: Files + AllocGlobal, E: Stream>(
    rt: &R,
    takes: Takes,
    status: u8,
    file: Option<&str>,
    err: &mut E,
) -> io::Result<()>
    ensures told { OnOk result ((said : List ℕ) × Explains takes status (named (option_map (λ name. name.now) file.entry)) said × Appends (E.contents err.old) (E.contents err.new) said) }
    ensures early { IfErr result (EndsEarly false false (E.has_failed err.new)) }
{
    match file {
        Some(name) => explain(rt, takes, status, &[name], err),
        None => explain(rt, takes, status, &[], err),
    }
}

/// Does `play`, and then reports the first fault of each file, where one is refused.
pub fn explained_plays<R: Files + AllocGlobal, I: Read, O: Stream, E: Stream>(
    rt: &R,
    playing: Playing<'_>,
    files: &[&str],
    input: &mut I,
    out: &mut O,
    err: &mut E,
) -> io::Result<u8>
    ensures told { IfOk result (Behind (PlaysUnlessRefused playing.entry (map (λ file. file.now) files.now) (I.remaining input.old)) Takes.Scenarios (map (λ file. file.now) files.now) (O.contents out.old) (O.contents out.new) (E.contents err.old) (E.contents err.new)) }
    ensures early { IfErr result (EndsEarly false (O.has_failed out.new) (E.has_failed err.new)) }
{
    let status = play_files(rt, playing, files, input, out, err)?;
    explain(rt, Takes::Scenarios, status, files, err)?;
    Ok(status)
}

/// Does `play --states`, and then reports the first fault of each file, where one is refused.
pub fn explained_states<R: Files + AllocGlobal, I: Read, O: Stream, E: Stream>(
    rt: &R,
    playing: Playing<'_>,
    files: &[&str],
    input: &mut I,
    out: &mut O,
    err: &mut E,
) -> io::Result<u8>
    ensures told { IfOk result (Behind (TellsUnlessRefused (option_map (λ file. file.now) playing.entry.bank) playing.entry.limit (map (λ file. file.now) files.now) (I.remaining input.old)) Takes.Scenarios (map (λ file. file.now) files.now) (O.contents out.old) (O.contents out.new) (E.contents err.old) (E.contents err.new)) }
    ensures early { IfErr result (EndsEarly false (O.has_failed out.new) (E.has_failed err.new)) }
{
    let status = tell_states(rt, playing.bank, playing.limit, files, input, out, err)?;
    explain(rt, Takes::Scenarios, status, files, err)?;
    Ok(status)
}

/// Does `orders`, and then reports the first fault of a file that is refused.
pub fn explained_orders<R: Files + AllocGlobal, I: Read, O: Stream, E: Stream>(
    rt: &R,
    asked: &Asked<'_>,
    input: &mut I,
    out: &mut O,
    err: &mut E,
) -> io::Result<u8>
    ensures told { IfOk result (Behind (TellsOrders asked.now (I.remaining input.old)) Takes.Orders (named (option_map (λ file. file.now) asked.now.file)) (O.contents out.old) (O.contents out.new) (E.contents err.old) (E.contents err.new)) }
    ensures early { IfErr result (EndsEarly false (O.has_failed out.new) (E.has_failed err.new)) }
{
    let status = tell_orders(rt, asked, input, out, err)?;
    explain_one(rt, Takes::Orders, status, asked.file, err)?;
    Ok(status)
}

/// Does `callers`, and then reports the first fault of a file that is refused.
pub fn explained_callers<R: Files + AllocGlobal, I: Read, O: Stream, E: Stream>(
    rt: &R,
    asked: Driving<'_>,
    input: &mut I,
    out: &mut O,
    err: &mut E,
) -> io::Result<u8>
    ensures told { IfOk result (Behind (TellsCallers (option_map (λ file. file.now) asked.entry.bank) asked.entry.limit (option_map (λ file. file.now) asked.entry.file) (I.remaining input.old)) Takes.Callers (named (option_map (λ file. file.now) asked.entry.file)) (O.contents out.old) (O.contents out.new) (E.contents err.old) (E.contents err.new)) }
    ensures early { IfErr result (EndsEarly false (O.has_failed out.new) (E.has_failed err.new)) }
{
    let status = drive_callers(rt, asked.bank, asked.file, asked.limit, input, out, err)?;
    explain_one(rt, Takes::Callers, status, asked.file, err)?;
    Ok(status)
}

/// Does `draw`, and then reports the first fault of a file that is refused.
pub fn explained_draws<R: Files + AllocGlobal, I: Read, O: Stream, E: Stream>(
    rt: &R,
    drawing: Drawing,
    bank: Option<&str>,
    file: Option<&str>,
    input: &mut I,
    out: &mut O,
    err: &mut E,
) -> io::Result<u8>
    ensures told { IfOk result (Behind (Draws drawing (option_map (λ name. name.now) bank.entry) (option_map (λ name. name.now) file.entry) (I.remaining input.old)) Takes.Callers (named (option_map (λ name. name.now) file.entry)) (O.contents out.old) (O.contents out.new) (E.contents err.old) (E.contents err.new)) }
    ensures early { IfErr result (EndsEarly false (O.has_failed out.new) (E.has_failed err.new)) }
{
    let status = draw(rt, drawing, bank, file, input, out, err)?;
    explain_one(rt, Takes::Callers, status, file, err)?;
    Ok(status)
}
