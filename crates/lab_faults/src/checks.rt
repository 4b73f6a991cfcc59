//! The faults of a text: reported exactly where it can't be played.
ghost use Rattle.std.specs.Prelude.{◌≡◌, ◌≢◌, [], ◌∷◌, true, false, map, string_bytes, Err, None, Some, IfOk};
ghost use Rattle.toml.specs.Errors.{IsMemory, span_start};
ghost use Rattle.evl_scenario.specs.Scenarios.{scenario_of};
ghost use Rattle.lab_faults.specs.Checks.{Finds, FindsText, IsLed, IsRefusedFor, IsTextFault, SaysWhy, Tells, TellsWhy, faults_in_all, faults_in_steps, not_toml_text, plain_text, plain_told};
ghost use Rattle.lab_faults.specs.Faults.{are_of_steps, first_fault, is_of_step, refusal_in};
ghost use Rattle.lab_faults.specs.Told.{fault_told};

use crate::boards::check_board;
use crate::found::{Finding, Found, Place};
use crate::items::Item;
use crate::keys::items_of;
use crate::quotes::{unquoted_at, unquoted_words};
use crate::runs::check_steps;
use evl_scenario::{Fault, read_scenario};
use std::alloc::{AllocError, Global};
use toml::de::Error;

// The words about a text that is no TOML.
fn not_toml(alloc: Global, why: &str) -> Result<String, AllocError>
    ensures { IfOk result (λ words. string_bytes words ≡ not_toml_text why.now) }
{
    format!(in alloc; "no TOML in UTF-8: {why}")
}

// Why the reader of TOML stopped.
fn reason(stop: &Error) -> &str
    ensures { result.now ≢ [] }
{
    let why = stop.message();
    if why.is_empty() {
        "it can't be read"
    } else {
        why
    }
}

// Why the reader of TOML stopped, or the value without quotes at which it did.
fn why_stopped(
    alloc: Global,
    text: &[u8],
    unquoted: Option<Item>,
    stop: &Error,
) -> Result<String, AllocError>
    ensures { IfOk result (λ words. SaysWhy text.now unquoted (string_bytes words)) }
{
    match unquoted {
        Some(item) => unquoted_words(alloc, text, item),
        None => {
            let words = not_toml(alloc, reason(stop))?;
            Ok(words)
        }
    }
}

// The place at which the reader of TOML stopped, and why.
fn stop_told(alloc: Global, text: &[u8], stop: &Error) -> Result<(usize, String), AllocError>
    ensures read { IfOk result (λ fault_told. ¬ IsMemory stop.now) }
    ensures there { IfOk result (λ fault_told. fault_told.0 ≡ span_start stop.now) }
    ensures why { IfOk result (λ fault_told. TellsWhy text.now fault_told.0 (string_bytes fault_told.1)) }
{
    let Some(span) = stop.span() else {
        return Err(AllocError);
    };
    let items = items_of(alloc, text)?;
    let unquoted = unquoted_at(text, items.items.as_slice(), span.start);
    let words = why_stopped(alloc, text, unquoted, stop)?;
    Ok((span.start, words))
}

// The place at which a text is no TOML document, and why.
fn refused_for(alloc: Global, text: &[u8]) -> Result<(usize, String), AllocError>
    ensures { IfOk result (λ fault_told. IsRefusedFor text.now fault_told.0 (string_bytes fault_told.1)) }
{
    match toml::table_from_slice(alloc, text) {
        Ok(_) => {
            let words = format!(in alloc; "the text can't be read")?;
            Ok((0, words))
        }
        Err(stop) => {
            let told = stop_told(alloc, text, &stop)?;
            Ok(told)
        }
    }
}

// The place at which a text can't be read, and why.
fn syntax(alloc: Global, text: &[u8]) -> Result<(usize, String), AllocError>
    ensures { IfOk result (λ told. IsTextFault text.now told.0 (string_bytes told.1)) }
{
    if text.len() > 1_048_576 {
        let words = format!(in alloc; "the text has more than 1048576 bytes")?;
        return Ok((1_048_576, words));
    }
    refused_for(alloc, text)
}

// The words about a fault that nothing else is known of.
fn plainly(alloc: Global, fault: Fault) -> Result<String, AllocError>
    ensures { IfOk result (λ words. string_bytes words ≡ plain_text fault) }
{
    match fault {
        Fault::Text => format!(in alloc; "the text can't be read"),
        Fault::Board => format!(in alloc; "the board, or what stands beside it, can't be read"),
        Fault::Step(number) => format!(in alloc; "step {number} can't be read"),
        Fault::Memory => format!(in alloc; "no memory"),
        Fault::Write => format!(in alloc; "the output failed"),
    }
}

/// The fault of a text that can't be read. `AllocError` where memory couldn't grow.
pub fn found_in_text(alloc: Global, text: &[u8]) -> Result<Vec<Found>, AllocError>
    ensures { IfOk result (λ found. FindsText text.now (map fault_told found.items)) }
{
    let mut finding = Finding {
        text,
        found: Vec::new(alloc),
    };
    let (at, words) = syntax(alloc, text)?;
    finding.note(Fault::Text, at, words)?;
    let Finding { text: _, found } = finding;
    Ok(found)
}

// The faults of the board, of what is beside it, and of the steps.
fn found_in_board(alloc: Global, text: &[u8]) -> Result<Vec<Found>, AllocError>
    ensures { IfOk result (λ found. map fault_told found.items ≡ faults_in_all text.now) }
{
    let mut finding = Finding {
        text,
        found: Vec::new(alloc),
    };
    let items = items_of(alloc, text)?;
    check_board(alloc, &mut finding, &items)?;
    check_steps(alloc, &mut finding, items.items.as_slice())?;
    let Finding { text: _, found } = finding;
    Ok(found)
}

// The faults of the steps: the board of a text that is refused for a step is without fault.
fn found_in_steps(alloc: Global, text: &[u8]) -> Result<Vec<Found>, AllocError>
    ensures told { IfOk result (λ found. map fault_told found.items ≡ faults_in_steps text.now) }
    ensures steps { IfOk result (λ found. are_of_steps found.items ≡ true) }
{
    let mut finding = Finding {
        text,
        found: Vec::new(alloc),
    };
    let items = items_of(alloc, text)?;
    check_steps(alloc, &mut finding, items.items.as_slice())?;
    let Finding { text: _, found } = finding;
    Ok(found)
}

// All faults that are found in a text that was refused for this one.
fn all_found(alloc: Global, text: &[u8], fault: Fault) -> Result<Vec<Found>, AllocError>
    ensures told { IfOk result (λ found. Finds text.now fault (map fault_told found.items)) }
    ensures steps { IfOk result (λ found. is_of_step fault ≡ true → are_of_steps found.items ≡ true) }
{
    match fault {
        Fault::Text => found_in_text(alloc, text),
        Fault::Step(_) => found_in_steps(alloc, text),
        _ => found_in_board(alloc, text),
    }
}

// Whether the first of some faults is this one.
fn begins_with(found: &[Found], fault: Fault) -> bool
    ensures yes { result ≡ true → first_fault found.now ≡ Some fault }
    ensures no { result ≡ false → first_fault found.now ≢ Some fault }
{
    match found {
        [] => false,
        [first, ..] => first.fault == fault,
    }
}

// A fault in front of others.
fn in_front(fault: Fault, words: String, others: Vec<Found>) -> Result<Vec<Found>, AllocError>
    ensures told { IfOk result (λ found. string_bytes words ≡ plain_text fault → map fault_told found.items ≡ plain_told fault ∷ map fault_told others.items) }
    ensures first { IfOk result (λ found. first_fault found.items ≡ Some fault) }
    ensures steps { IfOk result (λ found. is_of_step fault ≡ true → are_of_steps others.items ≡ true → are_of_steps found.items ≡ true) }
{
    let mut found = others;
    found.insert(
        0,
        Found {
            fault,
            place: Place { line: 1, column: 1 },
            words,
        },
    )?;
    Ok(found)
}

/// Faults that were found, and in front of them the one that a text was refused for, unless it is the first. `AllocError`
/// where memory couldn't grow.
pub fn led_by(alloc: Global, fault: Fault, found: Vec<Found>) -> Result<Vec<Found>, AllocError>
    ensures led { IfOk result (λ all. IsLed fault (map fault_told found.items) (map fault_told all.items)) }
    ensures first { IfOk result (λ all. first_fault all.items ≡ Some fault) }
    ensures steps { IfOk result (λ all. is_of_step fault ≡ true → are_of_steps found.items ≡ true → are_of_steps all.items ≡ true) }
{
    if begins_with(found.as_slice(), fault) {
        return Ok(found);
    }
    let words = plainly(alloc, fault)?;
    let all = in_front(fault, words, found)?;
    Ok(all)
}

// The faults of a text that was refused for this one, which is the first of them.
fn explain(alloc: Global, text: &[u8], fault: Fault) -> Result<Vec<Found>, AllocError>
    ensures told { IfOk result (λ found. Tells text.now fault (map fault_told found.items)) }
    ensures first { IfOk result (λ found. first_fault found.items ≡ Some fault) }
    ensures steps { IfOk result (λ found. is_of_step fault ≡ true → are_of_steps found.items ≡ true) }
{
    let found = all_found(alloc, text, fault)?;
    let all = led_by(alloc, fault, found)?;
    Ok(all)
}

/// The faults of a scenario's text, each with its place and what was wanted. There is one exactly where the text can't
/// be played, and the first is the one that it is refused for: of the text, of the board, or of the first step that
/// can't be read; in that last case none is of the text or the board. `AllocError` where memory couldn't grow.
pub fn check(alloc: Global, text: &[u8]) -> Result<Vec<Found>, AllocError>
    ensures told { IfOk result (λ found. (fault : Fault) → scenario_of None text.now ≡ Err fault → Tells text.now fault (map fault_told found.items)) }
    ensures first { IfOk result (λ found. first_fault found.items ≡ refusal_in (scenario_of None text.now)) }
    ensures steps { IfOk result (λ found. (fault : Fault) → scenario_of None text.now ≡ Err fault → is_of_step fault ≡ true → are_of_steps found.items ≡ true) }
{
    match read_scenario(alloc, text, None) {
        Ok(_) => Ok(Vec::new(alloc)),
        Err(Fault::Memory) => Err(AllocError),
        Err(fault) => explain(alloc, text, fault),
    }
}
