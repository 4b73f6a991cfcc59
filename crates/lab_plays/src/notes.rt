//! `lab check --json`: the faults of texts by their kinds, and the warnings of a scenario's dry run, as lines of JSON.
ghost use Rattle.std.specs.Prelude.{◌≡◌, ◌≤◌, ◌++◌, ◌∷◌, [], IfErr, IfOk, IsSomeAnd, OnOk, false, length, map, max, option_map, string_bytes, true};
ghost use Rattle.evl_plans.specs.Told.{handler_of};
ghost use Rattle.lab_faults.specs.Told.{fault_told};
ghost use Rattle.lab_json.specs.Notices.{notice_json};
ghost use Rattle.lab_kinds.specs.Kinds.{checked_kind};
ghost use Rattle.lab_kinds.specs.Reports as reports;
ghost use Rattle.lab_kinds.specs.Reports.{ScenarioTells, TellsKind};
ghost use Rattle.lab_plays.specs.Notes.{NotesAll, NotesEach, NotesFile, NotesKind, NotesText, NotesUnlessRefused, judged_notes, place_said, said_at, unread_said, warned_notes};
ghost use Rattle.lab_streams.specs.Readings.{Reading, unread_words};
ghost use Rattle.lab_streams.specs.Streams.{EndsEarly};

use crate::{Judged, judge, warn};
use evl_plans::Planned;
use lab_faults::{Found, check};
use lab_json::{Notice, Noticed, write_faults, write_judged, write_notice, write_warnings};
use lab_kinds::{TextKind, check_bank, check_callers, check_orders, checked_kind};
use lab_lines::{LinesFault, plain_text};
use lab_streams::{AT_FAULT, Stream, Unread, read_file, read_plans, status_of, worse};
use std::alloc::{AllocError, Global};
use std::io;
use std::rt::Files;

// The words of `lab check` without `--json`: NoteLemmas has that they are the same.
const NO_BOARD: &str = "a line with the board is wanted, as board threads=2 sems=[0]";

const LONG_SCENARIO: &str = "a scenario of at most 1048576 bytes is wanted";

const TOO_LONG: &str = "67108865 bytes or more; a text has at most 67108864";

// The faults of a scenario.
fn found_in_scenario(alloc: Global, text: &[u8]) -> Result<Vec<Found>, AllocError>
    ensures { IfOk result (λ found. ScenarioTells text.now (map fault_told found.items)) }
{
    let found = check(alloc, text)?;
    Ok(found)
}

// The faults of a text of this kind.
fn found_by(alloc: Global, kind: TextKind, text: &[u8]) -> Result<Vec<Found>, AllocError>
    ensures { IfOk result (λ found. TellsKind kind text.now (map fault_told found.items)) }
{
    match kind {
        TextKind::Scenario => found_in_scenario(alloc, text),
        TextKind::Orders => check_orders(alloc, text),
        TextKind::Callers => check_callers(alloc, text),
        TextKind::Bank => check_bank(alloc, text),
    }
}

fn is_some_found(found: &[Found]) -> bool
    ensures { result ≡ reports.is_some_found found.now }
{
    !matches!(found, [])
}

// Writes the warnings of a scenario; a text of another kind has none.
fn note_warnings(
    alloc: Global,
    plans: &[Planned],
    kind: TextKind,
    name: &str,
    text: &[u8],
    json: &mut String,
) -> Result<(), AllocError>
    ensures { OnOk result (string_bytes json.new ≡ string_bytes json.old ++ warned_notes (map handler_of plans.now) kind name.now text.now) }
{
    let mut told = String::new(alloc);
    warn(alloc, plans, kind, "", text, &mut told)?;
    write_warnings(alloc, json, name, told.as_str())
}

// Writes the faults of a text of a kind, or its warnings where it has none, and says whether it has a fault.
fn note_kind(
    alloc: Global,
    plans: &[Planned],
    kind: TextKind,
    name: &str,
    text: &[u8],
    json: &mut String,
) -> Result<bool, AllocError>
    ensures { IfOk result (NotesKind (map handler_of plans.now) kind name.now text.now (string_bytes json.old) (string_bytes json.new)) }
{
    let found = found_by(alloc, kind, text)?;
    if is_some_found(found.as_slice()) {
        write_faults(alloc, json, name, found.as_slice())?;
        return Ok(true);
    }
    note_warnings(alloc, plans, kind, name, text, json)?;
    Ok(false)
}

// As `note_kind`, of a text, by the kind as which its faults are looked for.
fn note_text(
    alloc: Global,
    plans: &[Planned],
    name: &str,
    text: &[u8],
    json: &mut String,
) -> Result<bool, AllocError>
    ensures { IfOk result (NotesKind (map handler_of plans.now) (checked_kind text.now) name.now text.now (string_bytes json.old) (string_bytes json.new)) }
{
    let kind = checked_kind(alloc, text)?;
    note_kind(alloc, plans, kind, name, text, json)
}

// Writes a fault of a text of lines, at a line and a byte.
fn note_at(
    alloc: Global,
    json: &mut String,
    name: &str,
    line: usize,
    column: usize,
    says: &str,
) -> Result<bool, AllocError>
    ensures answers { IfOk result (λ is_at_fault. is_at_fault ≡ true) }
    ensures written { OnOk result (string_bytes json.new ≡ string_bytes json.old ++ notice_json name.now (said_at line column says.now)) }
{
    let notice = Notice {
        kind: Noticed::Fault,
        line: Some(line as u64),
        byte: Some(column as u64),
        step: None,
        says,
    };
    write_notice(alloc, json, name, notice)?;
    Ok(true)
}

// Writes why a text of lines can't be read.
fn note_place(
    alloc: Global,
    json: &mut String,
    name: &str,
    fault: &LinesFault,
) -> Result<bool, AllocError>
    ensures answers { IfOk result (λ is_at_fault. is_at_fault ≡ true) }
    ensures written { OnOk result (IsSomeAnd (place_said fault.now) (λ said. string_bytes json.new ≡ string_bytes json.old ++ notice_json name.now said)) }
{
    match fault {
        LinesFault::Text => note_at(alloc, json, name, 1, 1, "a text in UTF-8 is wanted"),
        LinesFault::Line(line, unread) => {
            note_at(
                alloc,
                json,
                name,
                *line,
                unread.column,
                unread.words.as_str(),
            )
        }
        LinesFault::Board => note_at(alloc, json, name, 1, 1, NO_BOARD),
        LinesFault::TooLong => note_at(alloc, json, name, 1, 1, LONG_SCENARIO),
        LinesFault::Memory => Err(AllocError),
    }
}

// As `note_place`, of what is in place of a text.
fn note_given(
    alloc: Global,
    plans: &[Planned],
    name: &str,
    text: Vec<u8>,
    json: &mut String,
) -> Result<bool, AllocError>
    ensures { IfOk result (NotesText (map handler_of plans.now) name.now text.items (string_bytes json.old) (string_bytes json.new)) }
{
    match plain_text(alloc, text) {
        Ok(plain) => note_text(alloc, plans, name, plain.as_slice(), json),
        Err(fault) => note_place(alloc, json, name, &fault),
    }
}

// Writes what is judged of a text's steps, if anything is.
fn note_judged(
    alloc: Global,
    json: &mut String,
    name: &str,
    judged: &Judged,
) -> Result<(), AllocError>
    ensures { OnOk result (string_bytes json.new ≡ string_bytes json.old ++ judged_notes name.now judged.now) }
{
    if judged.status == 0 {
        return Ok(());
    }
    let said = judged.said.as_str();
    write_judged(alloc, json, name, judged.status == AT_FAULT, said)
}

// Writes what is found in a text, and then whether its steps are answered as it expects, and answers its status.
fn note_all(
    alloc: Global,
    plans: &[Planned],
    name: &str,
    text: Vec<u8>,
    json: &mut String,
) -> Result<u8, AllocError>
    requires { length plans.now ≤ 64 }
    ensures { IfOk result (NotesAll (map handler_of plans.now) name.now text.items (string_bytes json.old) (string_bytes json.new)) }
{
    let judged = judge(alloc, plans, None, "", text.as_slice())?;
    let is_bad = note_given(alloc, plans, name, text, json)?;
    note_judged(alloc, json, name, &judged)?;
    Ok(worse(status_of(is_bad), judged.status))
}

// Writes why a file isn't read.
fn note_unread(alloc: Global, json: &mut String, name: &str, says: &str) -> Result<u8, AllocError>
    ensures status { IfOk result (λ status. status ≡ 2) }
    ensures written { OnOk result (string_bytes json.new ≡ string_bytes json.old ++ notice_json name.now (unread_said says.now)) }
{
    let notice = Notice {
        kind: Noticed::Unread,
        line: None,
        byte: None,
        step: None,
        says,
    };
    write_notice(alloc, json, name, notice)?;
    Ok(AT_FAULT)
}

// Writes why a file isn't read, and answers its status. Want of memory isn't reported: it is this function's own error.
fn note_why(alloc: Global, json: &mut String, name: &str, why: Unread) -> Result<u8, AllocError>
    ensures status { IfOk result (λ status. status ≡ 2) }
    ensures written { OnOk result (IsSomeAnd (unread_words why) (λ words. string_bytes json.new ≡ string_bytes json.old ++ notice_json name.now (unread_said words))) }
{
    match why {
        Unread::NoFile => note_unread(alloc, json, name, "no file"),
        Unread::TooLong => note_unread(alloc, json, name, TOO_LONG),
        Unread::Memory => Err(AllocError),
    }
}

// Writes what is found in a file, and answers its status.
fn note_read<R: Files + AllocGlobal>(
    rt: &R,
    plans: &[Planned],
    name: &str,
    json: &mut String,
) -> Result<u8, AllocError>
    requires { length plans.now ≤ 64 }
    ensures { IfOk result (λ status. (text : Reading) × NotesFile (map handler_of plans.now) name.now text (string_bytes json.old) (string_bytes json.new) status) }
{
    match read_file(rt, name) {
        Ok(text) => note_all(rt.alloc(), plans, name, text, json),
        Err(why) => note_why(rt.alloc(), json, name, why),
    }
}

// Prints what is found in a file, and answers its status.
fn note_file<R: Files + AllocGlobal, O: Stream>(
    rt: &R,
    plans: &[Planned],
    name: &str,
    out: &mut O,
) -> io::Result<u8>
    requires { length plans.now ≤ 64 }
    ensures each { IfOk result (NotesEach (map handler_of plans.now) (name.now ∷ []) (O.contents out.old) (O.contents out.new)) }
    ensures early { IfErr result (EndsEarly false (O.has_failed out.new) false) }
{
    let mut json = String::new(rt.alloc());
    let status = note_read(rt, plans, name, &mut json)?;
    out.write_all(json.as_bytes())?;
    Ok(status)
}

// Prints what is found in files, and answers the worst status.
fn note_each<R: Files + AllocGlobal, O: Stream>(
    rt: &R,
    plans: &[Planned],
    names: &[&str],
    out: &mut O,
) -> io::Result<u8>
    requires { length plans.now ≤ 64 }
    ensures each { IfOk result (NotesEach (map handler_of plans.now) (map (λ name. name.now) names.now) (O.contents out.old) (O.contents out.new)) }
    ensures early { IfErr result (EndsEarly false (O.has_failed out.new) false) }
{
    let mut status = 0;
    for name in names {
        let ended = note_file(rt, plans, name, out)?;
        status = worse(status, ended);
    }
    Ok(status)
}

/// Prints a line of JSON for each fault of files, or where a file has none for each warning of a dry run over a bank and
/// for the first step that is answered otherwise than it expects, and answers the status, as `check_files` does.
pub fn note_files<R: Files + AllocGlobal, O: Stream, E: Stream>(
    rt: &R,
    bank: Option<&str>,
    names: &[&str],
    out: &mut O,
    err: &mut E,
) -> io::Result<u8>
    ensures notes { IfOk result (NotesUnlessRefused (option_map (λ file. file.now) bank.entry) (map (λ name. name.now) names.now) (O.contents out.old) (O.contents out.new) (E.contents err.old) (E.contents err.new)) }
    ensures early { IfErr result (EndsEarly false (O.has_failed out.new) (E.has_failed err.new)) }
{
    match read_plans(rt, bank, err) {
        Ok(Some(plans)) => note_each(rt, plans.as_slice(), names, out),
        Ok(None) => Ok(AT_FAULT),
        Err(error) => Err(error),
    }
}
