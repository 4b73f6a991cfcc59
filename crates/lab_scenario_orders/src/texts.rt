//! Texts of callers, read.
ghost use Rattle.std.specs.Prelude.{◌≡◌, ◌≤◌, ◌+◌, IfErr, IfOk, false, length};
ghost use Rattle.std.specs.Str.{is_utf8};
ghost use Rattle.lab_scenario_orders.specs.Callers.{IsRefused, IsSetUp};
ghost use Rattle.lab_scenario_orders.specs.Shares.{AreCallersOf};

use crate::callers::Callers;
use crate::splits::split_text;
use evl_scenario::{Fault, read_scenario};
use std::alloc::Global;

/// Why a text of callers isn't gone through.
#[derive(Clone, Copy, PartialEq, Eq)]
pub enum TextFault {
    /// The scenario in it can't be read; the steps that are set up are counted too.
    Scenario(Fault),
    /// A step is before one that is set up.
    Mixed,
    /// There are more steps than the history may have entries.
    Limit,
}

// The text that these bytes are.
fn text_of(bytes: &[u8]) -> Result<&str, TextFault>
    ensures text { IfOk result (λ text. text.now ≡ bytes.now) }
    ensures other { IfErr result (λ fault. (fault ≡ TextFault.Scenario Fault.Text) × (is_utf8 bytes.now ≡ false)) }
{
    match str::from_utf8(bytes) {
        Ok(text) => Ok(text),
        Err(_) => Err(TextFault::Scenario(Fault::Text)),
    }
}

// rule: The callers are the threads of the steps that are not set up, each with all its steps; the history has room for
//   all. A text is refused only if it is not UTF-8, a step comes before one that is set up, its scenario is refused
//   (with that fault) or has more steps than its limit, or memory ran out.
//   clauses: read_callers; Driven::callers
//   rows: a_step_before_the_setup_is_told
/// The callers of a text: a scenario, in which `[[setup]]` means a step that comes first.
pub fn read_callers(alloc: Global, bytes: &[u8]) -> Result<Callers, TextFault>
    // The history has room for all steps.
    ensures room { IfOk result (λ callers. length callers.setup.items + length callers.steps.items ≤ callers.limit) }

    // Board, limit and steps are those of the scenario in the text, of which the first ones are set up.
    ensures scenario { IfOk result (IsSetUp bytes.now) }

    // Each thread that has a step which isn't set up is a caller, with all of these.
    ensures callers { IfOk result (λ callers. AreCallersOf callers.steps.items callers.callers.items) }

    // It is refused only for what is wrong with it, or for want of memory.
    ensures refused { IfErr result (IsRefused bytes.now) }
{
    let text = text_of(bytes)?;
    let Ok(split) = split_text(alloc, text) else {
        return Err(TextFault::Scenario(Fault::Memory));
    };
    if split.is_mixed {
        return Err(TextFault::Mixed);
    }
    let scenario = match read_scenario(alloc, split.scenario.as_str().as_bytes(), None) {
        Ok(scenario) => scenario,
        Err(fault) => return Err(TextFault::Scenario(fault)),
    };
    let Ok(callers) = Callers::new(alloc, scenario, split.setup) else {
        return Err(TextFault::Scenario(Fault::Memory));
    };
    let steps = callers.setup.len().saturating_add(callers.steps.len());
    if steps > callers.limit as usize {
        return Err(TextFault::Limit);
    }
    Ok(callers)
}
