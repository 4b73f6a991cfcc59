//! The faults of a text for all orders.
ghost use Rattle.std.specs.Prelude.{◌≡◌, ◌++◌, false, map, IfOk, MatchBool, OnOk};
ghost use Rattle.toml.specs.Errors.{IsMemory};
ghost use Rattle.lab_faults.specs.Checks.{FindsText};
ghost use Rattle.lab_faults.specs.Told.{Adds, fault_told};
ghost use Rattle.lab_kinds.specs.Orders as orders;
ghost use Rattle.lab_kinds.specs.Orders.{AskedTells, Behind, LinesTell, OrdersTell, PartedTells, QuestionsTell, StepsTell, TextTells, mixed_faults};
ghost use Rattle.lab_kinds.specs.Plains.{open_question};
ghost use Rattle.lab_kinds.specs.Reports.{is_some_found};

use crate::asking::{check_asked, found_open};
use crate::asks::{callers_of, check_ask};
use crate::callers::explain;
use crate::kinds::{TextKind, is_headed, kind_of};
use crate::parts::{asked_in, lines_of, scenario_in, setups_in};
use crate::plains::{open_question, plain_in, unquestioned_in};
use evl_scenario::Fault;
use lab_callers_text::read_callers;
use lab_faults::{Finding, Found, Heading, check, found_in_text, items_of};
use std::alloc::{AllocError, Global};
use std::str;
use toml::de::Error;

// Notes a step that is set up below one that is not.
fn check_mixed(
    alloc: Global,
    finding: &mut Finding<'_>,
    seen: bool,
    heading: Heading,
) -> Result<(), AllocError>
    ensures { OnOk result (Adds finding.old finding.new (orders.mixed_fault finding.old.text.now seen heading)) }
{
    if seen && is_headed(finding.text, "setup", heading) {
        let words = String::from_str(
            alloc,
            "a [[setup]] stands below a [[step]]: steps are set up first",
        )?;
        return finding.note(Fault::Board, heading.name.0, words);
    }
    Ok(())
}

// Notes all of them.
fn check_all_mixed(
    alloc: Global,
    finding: &mut Finding<'_>,
    headings: &[Heading],
) -> Result<(), AllocError>
    ensures { OnOk result (Adds finding.old finding.new (mixed_faults finding.old.text.now false headings.now)) }
{
    let mut seen = false;
    for heading in headings {
        check_mixed(alloc, finding, seen, *heading)?;
        seen = seen || is_headed(finding.text, "step", *heading);
    }
    Ok(())
}

// The faults of steps that are set up too late.
fn found_mixed(alloc: Global, text: &[u8]) -> Result<Vec<Found>, AllocError>
    ensures { IfOk result (λ found. map fault_told found.items ≡ orders.set_up_faults text.now) }
{
    let mut finding = Finding {
        text,
        found: Vec::new(alloc),
    };
    let items = items_of(alloc, text)?;
    check_all_mixed(alloc, &mut finding, items.headings.as_slice())?;
    let Finding { text: _, found } = finding;
    Ok(found)
}

// After faults that were found those of what is asked of these callers.
fn found_asked(
    alloc: Global,
    asked: &[u8],
    callers: &[&str],
    is_of_steps: bool,
    found: Vec<Found>,
) -> Result<Vec<Found>, AllocError>
    ensures { IfOk result (λ all. map fault_told all.items ≡ map fault_told found.items ++ orders.ask_faults asked.now (map (λ who. who.now) callers.now) is_of_steps) }
{
    let mut finding = Finding { text: asked, found };
    check_ask(alloc, &mut finding, callers, is_of_steps)?;
    let Finding { text: _, found } = finding;
    Ok(found)
}

// Whether the scenario in a text is one of callers.
fn is_of_callers(kind: TextKind) -> bool
    ensures { result ≡ orders.is_of_callers kind }
{
    matches!(kind, TextKind::Callers)
}

/// Whether the steps of a scenario are gone through. `AllocError` where memory couldn't grow.
pub fn is_of_steps(alloc: Global, scenario: &[u8]) -> Result<bool, AllocError>
    ensures { IfOk result (λ is. is ≡ orders.is_of_steps scenario.now) }
{
    let kind = kind_of(alloc, scenario)?;
    Ok(is_of_callers(kind))
}

// The faults of a text whose scenario can be read.
fn found_in_order(
    alloc: Global,
    text: &[u8],
    scenario: &[u8],
    setup: usize,
    asked: &[u8],
) -> Result<Vec<Found>, AllocError>
    ensures { IfOk result (λ found. map fault_told found.items ≡ orders.faults_of text.now scenario.now setup asked.now) }
{
    let is_of_steps = is_of_steps(alloc, scenario)?;
    let mixed = found_mixed(alloc, text)?;
    let callers = callers_of(alloc, scenario, setup)?;
    found_asked(alloc, asked, callers.as_slice(), is_of_steps, mixed)
}

// The fault of what is asked, where the reader of TOML stopped in it.
fn found_unread(alloc: Global, asked: &[u8], stop: &Error) -> Result<Vec<Found>, AllocError>
    ensures told { IfOk result (λ found. FindsText asked.now (map fault_told found.items)) }
    ensures other { OnOk result (¬ IsMemory stop.now) }
{
    if stop.is_memory() {
        return Err(AllocError);
    }
    found_in_text(alloc, asked)
}

// The same, where what is asked may be no document.
fn found_beside(
    alloc: Global,
    text: &[u8],
    scenario: &[u8],
    setup: usize,
    asked: &str,
) -> Result<Vec<Found>, AllocError>
    ensures { IfOk result (λ found. AskedTells text.now scenario.now setup asked.now (map fault_told found.items)) }
{
    match toml::table_from_str(alloc, asked) {
        Ok(_) => {
            let found = found_in_order(alloc, text, scenario, setup, asked.as_bytes())?;
            Ok(found)
        }
        Err(stop) => {
            let found = found_unread(alloc, asked.as_bytes(), &stop)?;
            Ok(found)
        }
    }
}

// The faults of a text with this scenario.
fn found_around(
    alloc: Global,
    text: &[u8],
    scenario: &[u8],
    setup: usize,
    asked: &str,
) -> Result<Vec<Found>, AllocError>
    ensures { IfOk result (λ found. TextTells text.now scenario.now setup asked.now (map fault_told found.items)) }
{
    let found = check(alloc, scenario)?;
    if found.is_empty() {
        let all = found_beside(alloc, text, scenario, setup, asked)?;
        return Ok(all);
    }
    Ok(found)
}

// The fault of facts of moments that are no list on this line, where there are some, or else of what is asked beside
// them.
fn found_at_open(
    alloc: Global,
    text: &[u8],
    scenario: &[u8],
    setup: usize,
    own: &str,
    unended: Option<usize>,
) -> Result<Vec<Found>, AllocError>
    ensures { IfOk result (λ found. QuestionsTell text.now scenario.now setup own.now unended (map fault_told found.items)) }
{
    match unended {
        Some(line) => found_open(alloc, line),
        None => found_beside(alloc, text, scenario, setup, own),
    }
}

// The same by the lines of what is asked.
fn found_in_questions(
    alloc: Global,
    text: &[u8],
    scenario: &[u8],
    setup: usize,
    asked: &str,
    own: &str,
) -> Result<Vec<Found>, AllocError>
    ensures { IfOk result (λ found. QuestionsTell text.now scenario.now setup own.now (open_question asked.now) (map fault_told found.items)) }
{
    let unended = open_question(alloc, asked)?;
    found_at_open(alloc, text, scenario, setup, own, unended)
}

// The faults of a text with this scenario, which is one of callers.
fn found_in_steps(
    alloc: Global,
    text: &[u8],
    scenario: &[u8],
    setup: usize,
    asked: &str,
    own: &str,
) -> Result<Vec<Found>, AllocError>
    ensures { IfOk result (λ found. StepsTell text.now scenario.now setup asked.now own.now (map fault_told found.items)) }
{
    match read_callers(alloc, scenario, None) {
        Ok(read) => {
            drop(read);
            let found = found_in_questions(alloc, text, scenario, setup, asked, own)?;
            Ok(found)
        }
        Err(fault) => {
            let found = explain(alloc, scenario, fault)?;
            Ok(found)
        }
    }
}

// The faults of a text with this scenario, whose steps are gone through or not.
fn found_in_parts(
    alloc: Global,
    text: &[u8],
    scenario: &[u8],
    plain: &[u8],
    setup: usize,
    asked: &str,
    own: &str,
    is_of_steps: bool,
) -> Result<Vec<Found>, AllocError>
    ensures { IfOk result (λ found. MatchBool is_of_steps (StepsTell text.now plain.now setup asked.now own.now (map fault_told found.items)) (TextTells text.now scenario.now setup asked.now (map fault_told found.items))) }
{
    if is_of_steps {
        let found = found_in_steps(alloc, text, plain, setup, asked, own)?;
        return Ok(found);
    }
    let found = found_around(alloc, text, scenario, setup, asked)?;
    Ok(found)
}

fn is_some_found(found: &[Found]) -> bool
    ensures { result ≡ is_some_found found.now }
{
    !matches!(found, [])
}

// If nothing is found, whether the orders of whole calls can be asked for.
#[tactic(auto, using(crate::proofs::BehindLaws::behind_some, crate::proofs::BehindLaws::behind_steps, crate::proofs::BehindLaws::behind_none))]
fn found_behind(
    alloc: Global,
    text: &str,
    is_of_steps: bool,
    found: Vec<Found>,
) -> Result<Vec<Found>, AllocError>
    ensures { IfOk result (λ all. Behind text.now is_of_steps (map fault_told found.items) (map fault_told all.items)) }
{
    if is_some_found(found.as_slice()) {
        return Ok(found);
    }
    if is_of_steps {
        return Ok(found);
    }
    let last = check_asked(alloc, text)?;
    Ok(last)
}

// The faults of a text with these parts.
fn found_parted(
    alloc: Global,
    text: &str,
    scenario: &[u8],
    plain: &[u8],
    setup: usize,
    asked: &str,
    own: &str,
) -> Result<Vec<Found>, AllocError>
    ensures { IfOk result (λ found. PartedTells text.now scenario.now plain.now setup asked.now own.now (map fault_told found.items)) }
{
    let steps = is_of_steps(alloc, scenario)?;
    let found = found_in_parts(
        alloc,
        text.as_bytes(),
        scenario,
        plain,
        setup,
        asked,
        own,
        steps,
    )?;
    found_behind(alloc, text, steps, found)
}

// The faults of a text in UTF-8.
fn found_in_lines(alloc: Global, text: &str) -> Result<Vec<Found>, AllocError>
    ensures { IfOk result (λ found. LinesTell text.now (map fault_told found.items)) }
{
    let lines = lines_of(alloc, text)?;
    let lines = lines.as_slice();
    let scenario = scenario_in(alloc, lines)?;
    let plain = plain_in(alloc, lines)?;
    let asked = asked_in(alloc, lines)?;
    let own = unquestioned_in(alloc, lines)?;
    found_parted(
        alloc,
        text,
        scenario.as_str().as_bytes(),
        plain.as_str().as_bytes(),
        setups_in(lines),
        asked.as_str(),
        own.as_str(),
    )
}

/// The faults of a text for all orders, each with its place and what was wanted: those of the scenario in it, or of the
/// steps of callers; or else of steps that are set up too late and of what is asked; where it has none, the orders of
/// its calls can be asked for. `AllocError` where memory couldn't grow.
pub fn check_orders(alloc: Global, text: &[u8]) -> Result<Vec<Found>, AllocError>
    ensures { IfOk result (λ found. OrdersTell text.now (map fault_told found.items)) }
{
    match str::from_utf8(text) {
        Ok(lined) => found_in_lines(alloc, lined),
        Err(_) => found_in_text(alloc, text),
    }
}
