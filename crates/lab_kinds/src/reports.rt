//! The report of the faults of a text, by its kind.
ghost use Rattle.std.specs.Prelude.{◌≡◌, IfOk, None, is_err, map, string_bytes};
ghost use Rattle.lab_kinds.specs.Reports.{JudgesScenario, Reports, ScenarioTells, TellsKind, is_some_found};
ghost use Rattle.evl_scenario.specs.Scenarios.{scenario_of};
ghost use Rattle.lab_faults.specs.Told.{fault_told};

use crate::banks::check_bank;
use crate::callers::check_callers;
use crate::kinds::TextKind;
use crate::orders::check_orders;
use lab_faults::{Found, check, write_found};
use std::alloc::{AllocError, Global};

// The faults of a scenario.
fn found_in_scenario(alloc: Global, text: &[u8]) -> Result<Vec<Found>, AllocError>
    ensures told { IfOk result (λ found. ScenarioTells text.now (map fault_told found.items)) }
    ensures judged { IfOk result (λ found. is_some_found found.items ≡ is_err (scenario_of None text.now)) }
{
    let found = check(alloc, text)?;
    Ok(found)
}

// The faults of a text of this kind.
fn found_by(alloc: Global, kind: TextKind, text: &[u8]) -> Result<Vec<Found>, AllocError>
    ensures told { IfOk result (λ found. TellsKind kind text.now (map fault_told found.items)) }
    ensures judged { IfOk result (λ found. JudgesScenario kind text.now (is_some_found found.items)) }
{
    match kind {
        TextKind::Scenario => found_in_scenario(alloc, text),
        TextKind::Orders => check_orders(alloc, text),
        TextKind::Callers => check_callers(alloc, text),
        TextKind::Bank => check_bank(alloc, text),
    }
}

fn is_some_found(found: &[Found]) -> bool
    ensures { result ≡ is_some_found found.now }
{
    !matches!(found, [])
}

/// Writes a line for each fault of a text of this kind that a file of this name holds, after a report, and answers
/// whether there is one. `AllocError` where memory couldn't grow; what the report holds then isn't known.
pub fn report_kind(
    alloc: Global,
    kind: TextKind,
    name: &str,
    text: &[u8],
    report: &mut String,
) -> Result<bool, AllocError>
    ensures { IfOk result (Reports kind name.now text.now (string_bytes report.old) (string_bytes report.new)) }
{
    let found = found_by(alloc, kind, text)?;
    write_found(report, name, found.as_slice())?;
    Ok(is_some_found(found.as_slice()))
}
