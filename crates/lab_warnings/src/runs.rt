//! Dry runs of scenarios.
ghost use Rattle.std.specs.Prelude.{◌≡◌, ◌≢◌, ◌==◌, ◌++◌, [], None, not, length, map, string_bytes, IfErr, IfOk, OnOk};
ghost use Rattle.evl_plans.specs.Told as plans;
ghost use Rattle.evl_scenario.specs.Scenarios.{scenario_of};
ghost use Rattle.evl_shell.specs.Moments.{moment};
ghost use Rattle.lab_warnings.specs.Warnings.{run_lines, script_lines, warnings_of};

use crate::counts::{Counts, counts_of};
use crate::ends::warn_of_end;
use crate::steps::make_steps;
use evl_base::Refusal;
use evl_plans::{Planned, PlannedKernel, copied_bank};
use evl_scenario::{Fault, Scenario, Step, read_scenario};
use std::alloc::{AllocError, Global};

// Makes all steps, and warns of what is seen on the way and in the end.
fn look(
    told: &mut String,
    name: &str,
    counts: Counts,
    bank: &[Planned],
    kernel: &mut PlannedKernel,
    steps: Vec<Step>,
) -> Result<(), AllocError>
    requires empty { kernel.old.history.entries ≡ [] }
    ensures { OnOk result (string_bytes told.new ≡ string_bytes told.old ++ run_lines name.now counts (map plans.handler_of bank.now) kernel.old.limit (moment kernel.old) steps.items) }
{
    let asked = steps.len();
    make_steps(told, name, counts, bank, kernel, steps)?;
    warn_of_end(told, name, kernel, counts.threads, asked)?;
    Ok(())
}

// Plays a scenario over a copy of these callbacks, and warns of what is seen. Over more callbacks than a kernel has
// nothing is reported.
fn play(
    alloc: Global,
    told: &mut String,
    name: &str,
    scenario: Scenario,
    bank: &[Planned],
) -> Result<(), AllocError>
    ensures { OnOk result (string_bytes told.new ≡ string_bytes told.old ++ script_lines name.now (map plans.handler_of bank.now) scenario) }
{
    let own = copied_bank(alloc, bank)?;
    let (board, limit, steps) = scenario.into_parts();
    let counts = counts_of(&board);
    match PlannedKernel::new(alloc, board, own, limit) {
        Ok(mut kernel) => {
            let looked = look(told, name, counts, bank, &mut kernel, steps);
            kernel.leave();
            looked
        }
        Err(Refusal::Range) => Ok(()),
        Err(_) => Err(AllocError),
    }
}

// The end for a text that isn't read.
fn end_of(fault: Fault) -> Result<(), AllocError>
    ensures { OnOk result (fault ≢ Fault.Memory) }
{
    match fault {
        Fault::Memory => Err(AllocError),
        _ => Ok(()),
    }
}

// Plays a text over these callbacks, and warns of what is seen. Nothing is reported of a text that is no scenario.
fn run(
    alloc: Global,
    told: &mut String,
    name: &str,
    text: &[u8],
    bank: &[Planned],
) -> Result<(), AllocError>
    ensures { OnOk result (string_bytes told.new ≡ string_bytes told.old ++ warnings_of name.now (map plans.handler_of bank.now) (scenario_of None text.now)) }
{
    match read_scenario(alloc, text, None) {
        Ok(scenario) => {
            play(alloc, told, name, scenario, bank)?;
            Ok(())
        }
        Err(fault) => {
            end_of(fault)?;
            Ok(())
        }
    }
}

/// Writes a line for each warning of a dry run after what was written, and answers whether there is one: of each step in
/// order why it is odd, what its callback names that the board lacks, and that it is refused or spurious; then a full
/// history, unfinished waits, and events that are pending in the end. Nothing is reported without a scenario, or over
/// more than 64 callbacks. `AllocError` where memory couldn't grow; then nothing is reported either.
pub fn warnings(
    alloc: Global,
    name: &str,
    text: &[u8],
    bank: &[Planned],
    told: &mut String,
) -> Result<bool, AllocError>
    ensures told { OnOk result (string_bytes told.new ≡ string_bytes told.old ++ warnings_of name.now (map plans.handler_of bank.now) (scenario_of None text.now)) }
    ensures answers { IfOk result (λ warns. warns ≡ not (length (warnings_of name.now (map plans.handler_of bank.now) (scenario_of None text.now)) == 0)) }
    ensures failed { IfErr result (λ e. string_bytes told.new ≡ string_bytes told.old) }
{
    let mut lines = String::new(alloc);
    run(alloc, &mut lines, name, text, bank)?;
    told.push_str(lines.as_str())?;
    Ok(!lines.as_str().is_empty())
}
