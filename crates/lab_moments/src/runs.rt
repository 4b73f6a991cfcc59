//! The moments of a scenario.
ghost use Rattle.std.specs.Prelude.{◌≡◌, ◌≤◌, None, IfOk, map};
ghost use Rattle.evl_plans.specs.Told.{handler_of};
ghost use Rattle.evl_scenario.specs.Scenarios.{scenario_of};
ghost use Rattle.evl_shell.specs.Moments.{moment};
ghost use Rattle.evl_shell.specs.Runs.{turn};
ghost use Rattle.lab_moments.specs.Asked.{below_call, below_entries, below_steps};
ghost use Rattle.lab_moments.specs.Moments.{script_shown, moment_shown, shown_at, shown_from, shown_of};

use crate::moments::moment_below;
use crate::pending::below_steps;
use evl_base::Refusal;
use evl_plans::{Planned, PlannedKernel, copied_bank};
use evl_scenario::{Fault, Scenario, Step, read_scenario};
use evl_shell::wants_memory;
use lab_drawing::{Lane, Moment};
use std::alloc::{AllocError, Global};

// Makes a step, and answers the lanes' states then. No call asks for this line or one after it.
fn made(
    alloc: Global,
    kernel: &mut PlannedKernel,
    step: Step,
    lanes: &[Lane],
    below: u16,
) -> Result<Moment, AllocError>
    requires some { 1 ≤ below }
    requires few { below ≤ 4096 }
    requires asked { below_entries kernel.old.history.entries ≤ below }
    requires asks { below_call step.call ≤ below }
    ensures asked { IfOk result (λ m. below_entries kernel.new.history.entries ≤ below) }
    ensures limit { kernel.new.limit ≡ kernel.old.limit }
    ensures turned { IfOk result (λ m. moment kernel.new ≡ (turn kernel.old.limit (moment kernel.old) step).after) }
    ensures shown { IfOk result (λ m. moment_shown m ≡ shown_at lanes.now kernel.new.history.state) }
{
    let Step { who, call } = step;
    let answer = kernel.apply(who, call);
    if wants_memory(&answer) {
        return Err(AllocError);
    }
    moment_below(alloc, kernel.kernel(), lanes, below)
}

// Makes all steps, and answers the lanes' states after each. No call asks for this line or one after it.
fn make_steps(
    alloc: Global,
    kernel: &mut PlannedKernel,
    steps: Vec<Step>,
    lanes: &[Lane],
    below: u16,
) -> Result<Vec<Moment>, AllocError>
    requires some { 1 ≤ below }
    requires few { below ≤ 4096 }
    requires asked { below_entries kernel.old.history.entries ≤ below }
    requires ask { below_steps steps.items ≤ below }
    ensures { IfOk result (λ all. map moment_shown all.items ≡ shown_from lanes.now kernel.old.limit (moment kernel.old) steps.items) }
{
    let mut moments = Vec::new(alloc);
    for step in steps {
        let moment = made(alloc, kernel, step, lanes, below)?;
        moments.push(moment)?;
    }
    Ok(moments)
}

// Plays a scenario. Over more callbacks than a kernel has there are no moments.
fn play(
    alloc: Global,
    scenario: Scenario,
    bank: Vec<Planned>,
    lanes: &[Lane],
) -> Result<Vec<Moment>, AllocError>
    ensures { IfOk result (λ all. map moment_shown all.items ≡ script_shown lanes.now (map handler_of bank.items) scenario) }
{
    let (board, limit, steps) = scenario.into_parts();
    let below = below_steps(steps.as_slice());
    match PlannedKernel::new(alloc, board, bank, limit) {
        Ok(mut kernel) => {
            let made = make_steps(alloc, &mut kernel, steps, lanes, below);
            kernel.leave();
            made
        }
        Err(Refusal::Range) => Ok(Vec::new(alloc)),
        Err(_) => Err(AllocError),
    }
}

/// The lanes' states after each step of a scenario's text, played over copies of these callbacks: a moment for each
/// step, that of the kernel after the steps so far. There is no moment of a text that is no scenario, or over
/// more than 64 callbacks. `AllocError` where memory couldn't grow.
pub fn moments_of(
    alloc: Global,
    bank: &[Planned],
    text: &[u8],
    lanes: &[Lane],
) -> Result<Vec<Moment>, AllocError>
    ensures { IfOk result (λ all. map moment_shown all.items ≡ shown_of lanes.now (map handler_of bank.now) (scenario_of None text.now)) }
{
    let own = copied_bank(alloc, bank)?;
    match read_scenario(alloc, text, None) {
        Ok(scenario) => play(alloc, scenario, own, lanes),
        Err(Fault::Memory) => Err(AllocError),
        Err(_) => Ok(Vec::new(alloc)),
    }
}
