//! How the machine of a scenario is before its first step and after each.
ghost use Rattle.std.specs.Prelude.{◌≡◌, ◌++◌, IfOk, OnOk, map, string_bytes};
ghost use Rattle.evl_plans.specs.Told.{handler_of};
ghost use Rattle.evl_scenario.specs.Scenarios.{scenario_of};
ghost use Rattle.evl_shell.specs.Moments.{moment};
ghost use Rattle.evl_shell.specs.Runs.{turn};
ghost use Rattle.lab_json.specs.Runs.{moments_from, moments_json, script_moments, through_moments};
ghost use Rattle.lab_json.specs.States.{moment_json};

use crate::states::write_moment;
use evl_base::Refusal;
use evl_plans::{Planned, PlannedKernel, copied_bank};
use evl_scenario::{Fault, Scenario, Step, read_scenario};
use evl_shell::wants_memory;
use std::alloc::{AllocError, Global};

// Makes a step.
fn make(kernel: &mut PlannedKernel, step: Step) -> Result<(), AllocError>
    ensures limit { kernel.new.limit ≡ kernel.old.limit }
    ensures turned { OnOk result (moment kernel.new ≡ (turn kernel.old.limit (moment kernel.old) step).after) }
{
    let Step { who, call } = step;
    let answer = kernel.apply(who, call);
    if wants_memory(&answer) {
        return Err(AllocError);
    }
    Ok(())
}

// Makes all steps, and writes a line for how the machine is after each.
fn write_steps(
    alloc: Global,
    json: &mut String,
    file: &str,
    kernel: &mut PlannedKernel,
    steps: Vec<Step>,
) -> Result<(), AllocError>
    ensures { OnOk result (string_bytes json.new ≡ string_bytes json.old ++ moments_from file.now kernel.old.limit (moment kernel.old) steps.items) }
{
    for step in steps {
        make(kernel, step)?;
        write_moment(alloc, json, file, kernel.kernel())?;
    }
    Ok(())
}

// The same, with how it is before the first.
fn write_through(
    alloc: Global,
    file: &str,
    kernel: &mut PlannedKernel,
    steps: Vec<Step>,
) -> Result<String, AllocError>
    ensures { IfOk result (λ json. string_bytes json ≡ through_moments file.now kernel.old.limit (moment kernel.old) steps.items) }
{
    let mut json = String::new(alloc);
    write_moment(alloc, &mut json, file, kernel.kernel())?;
    write_steps(alloc, &mut json, file, kernel, steps)?;
    Ok(json)
}

// Plays a scenario. Over more callbacks than a kernel has nothing is written.
fn play(
    alloc: Global,
    file: &str,
    scenario: Scenario,
    bank: Vec<Planned>,
) -> Result<String, AllocError>
    ensures { IfOk result (λ json. string_bytes json ≡ script_moments file.now (map handler_of bank.items) scenario) }
{
    let (board, limit, steps) = scenario.into_parts();
    match PlannedKernel::new(alloc, board, bank, limit) {
        Ok(mut kernel) => {
            let made = write_through(alloc, file, &mut kernel, steps);
            kernel.leave();
            made
        }
        Err(Refusal::Range) => Ok(String::new(alloc)),
        Err(_) => Err(AllocError),
    }
}

/// Lines of JSON for how the machine of a scenario's text is before its first step and after each, played over copies
/// of these callbacks, under a limit that may be handed in. Nothing is written of a text that is no scenario, or over
/// more than 64 callbacks. `AllocError` where memory couldn't grow.
pub fn write_states(
    alloc: Global,
    file: &str,
    bank: &[Planned],
    limit: Option<u32>,
    text: &[u8],
) -> Result<String, AllocError>
    ensures { IfOk result (λ json. string_bytes json ≡ moments_json file.now (map handler_of bank.now) (scenario_of limit text.now)) }
{
    let own = copied_bank(alloc, bank)?;
    match read_scenario(alloc, text, limit) {
        Ok(scenario) => play(alloc, file, scenario, own),
        Err(Fault::Memory) => Err(AllocError),
        Err(_) => Ok(String::new(alloc)),
    }
}
