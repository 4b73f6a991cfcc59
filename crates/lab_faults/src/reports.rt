//! The report of the faults of a file.
ghost use Rattle.std.specs.Prelude.{◌≡◌, ◌++◌, Err, None, is_err, string_bytes, IfOk, OnOk};
ghost use Rattle.evl_scenario.specs.Scenarios.{scenario_of};
ghost use Rattle.evl_scenario.specs.declared.faults.Fault.{Fault};
ghost use Rattle.lab_faults.specs.Checks.{TellsLines};
ghost use Rattle.lab_faults.specs.Faults.{TellsFaults, found_lines, refusal_in};

use crate::checks::check;
use crate::found::Found;
use std::alloc::{AllocError, Global};

/// Writes a line for each fault in a file of this name. `AllocError` where memory couldn't grow.
pub fn write_found(report: &mut String, name: &str, found: &[Found]) -> Result<(), AllocError>
    ensures { OnOk result (string_bytes report.new ≡ string_bytes report.old ++ found_lines name.now found.now) }
{
    for one in found {
        let place = one.place;
        let words = &one.words;
        write!(report, "{name}:{place}: {words}\n")?;
    }
    Ok(())
}

/// Writes a line for each fault of the scenario's text that a file of this name holds, after a report, and answers
/// whether there is one: just where the text can't be played. The first is the one that it is refused for.
/// `AllocError` where memory couldn't grow; what the report holds then isn't known.
pub fn report(
    alloc: Global,
    name: &str,
    text: &[u8],
    report: &mut String,
) -> Result<bool, AllocError>
    ensures answers { IfOk result (λ is_at_fault. is_at_fault ≡ is_err (scenario_of None text.now)) }
    ensures words { OnOk result ((fault : Fault) → scenario_of None text.now ≡ Err fault → TellsLines name.now text.now fault (string_bytes report.old) (string_bytes report.new)) }
    ensures told { OnOk result (TellsFaults name.now (refusal_in (scenario_of None text.now)) (string_bytes report.old) (string_bytes report.new)) }
{
    let found = check(alloc, text)?;
    write_found(report, name, found.as_slice())?;
    Ok(!found.is_empty())
}
