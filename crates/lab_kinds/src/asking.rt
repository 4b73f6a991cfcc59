//! Whether the orders of a text can be asked for, where nothing else is wrong with it.
ghost use Rattle.std.specs.Prelude.{◌≡◌, [], ◌∷◌, IfOk, Some, codes, map, option_map, string_bytes};
ghost use Rattle.lab_faults.specs.Told.{fault_told};
ghost use Rattle.lab_scenario_orders.specs.Answers.{first_impossible, near_answer};
ghost use Rattle.lab_scenario_orders.specs.KeyLines.{line_set};
ghost use Rattle.lab_kinds.specs.Asking as asking;
ghost use Rattle.lab_kinds.specs.Asking.{AskTells, AskedLast, impossible_faults, open_text, told_on};

use crate::phrases::{ask_line, ask_words, impossible_words, refusal_words};
use evl_scenario::Fault;
use lab_faults::{Found, Place};
use lab_scenario_orders::{
    Ask, Callers, Never, first_impossible, line_set, near_answer, read_ask, read_callers,
};
use std::alloc::{AllocError, Global};

// A fault at a line, or at the first one.
fn found_on(line: Option<usize>, words: String) -> Found
    ensures { fault_told result ≡ told_on line (string_bytes words) }
{
    let line = line.unwrap_or(1);
    Found {
        fault: Fault::Board,
        place: Place { line, column: 1 },
        words,
    }
}

// One fault alone.
fn only(alloc: Global, found: Found) -> Result<Vec<Found>, AllocError>
    ensures { IfOk result (λ all. map fault_told all.items ≡ fault_told found ∷ []) }
{
    let mut all = Vec::new(alloc);
    all.push(found)?;
    Ok(all)
}

// The fault of an answer that no step of its caller can have.
fn found_never(
    alloc: Global,
    text: &str,
    callers: &Callers,
    never: &Never,
) -> Result<Vec<Found>, AllocError>
    ensures { IfOk result (λ found. map fault_told found.items ≡ impossible_faults text.now callers.now.steps.items (Some never.now)) }
{
    let meant = near_answer(alloc, callers, never)?;
    let words = impossible_words(alloc, never, meant)?;
    let line = line_set(alloc, text, Some("never"))?;
    only(alloc, found_on(line, words))
}

// The fault of what is asked, where it can be read.
fn found_impossible(
    alloc: Global,
    text: &str,
    callers: &Callers,
    ask: &Ask,
) -> Result<Vec<Found>, AllocError>
    ensures { IfOk result (λ found. map fault_told found.items ≡ impossible_faults text.now callers.now.steps.items (first_impossible callers.now.steps.items ask.now.never.items)) }
{
    match first_impossible(alloc, callers, ask)? {
        Some(never) => found_never(alloc, text, callers, never),
        None => Ok(Vec::new(alloc)),
    }
}

// The fault of what is asked of callers.
fn found_unasked(alloc: Global, text: &str, callers: &Callers) -> Result<Vec<Found>, AllocError>
    ensures { IfOk result (λ found. AskTells text.now callers.now (map fault_told found.items)) }
{
    match read_ask(alloc, callers, text.as_bytes()) {
        Ok(ask) => {
            let found = found_impossible(alloc, text, callers, &ask)?;
            Ok(found)
        }
        Err(fault) => {
            let words = ask_words(alloc, fault)?;
            let found = only(alloc, found_on(ask_line(fault), words))?;
            Ok(found)
        }
    }
}

/// The fault of facts that are no list on the line of their key, which has this number. `AllocError` where memory
/// couldn't grow.
pub fn found_open(alloc: Global, line: usize) -> Result<Vec<Found>, AllocError>
    ensures { IfOk result (λ found. map fault_told found.items ≡ told_on (Some line) open_text ∷ []) }
{
    let words = String::from_str(
        alloc,
        "facts are asked on one line, as never_state = [\"T1 has the core and mutex 0 claimed\"]",
    )?;
    only(alloc, found_on(Some(line), words))
}

/// Why the orders of a text can't be asked for: none where they can. `AllocError` where memory couldn't grow.
pub fn check_asked(alloc: Global, text: &str) -> Result<Vec<Found>, AllocError>
    ensures { IfOk result (λ found. AskedLast text.now (map fault_told found.items)) }
{
    match read_callers(alloc, text.as_bytes()) {
        Ok(callers) => {
            let found = found_unasked(alloc, text, &callers)?;
            Ok(found)
        }
        Err(fault) => {
            let words = refusal_words(alloc, fault)?;
            let found = only(alloc, found_on(None, words))?;
            Ok(found)
        }
    }
}
