//! Texts of callers whose orders of steps are asked for, read.
ghost use Rattle.std.specs.Prelude.{◌≡◌, IfErr, IfOk, None, false, string_bytes, true};
ghost use Rattle.std.specs.Str.Lines.{lines};
ghost use Rattle.lab_kinds.specs.Kinds.{kind_of};
ghost use Rattle.lab_step_texts.specs.Crews.{IsReadAs, IsReadOf, IsRefused, IsStopped, IsUnplain};
ghost use Rattle.lab_step_texts.specs.Kinds.{asks_steps, is_of_callers};
ghost use Rattle.lab_step_texts.specs.Questions.{AreAsked, IsUnasked, are_there};

use crate::crews::crew_of;
use crate::extras::{Extras, extras_of, lines_of};
use crate::faults::StepsFault;
use crate::questions::questions_in;
use evl_base::Board;
use evl_scenario::Fault;
use lab_callers_text::{CallersText, read_callers};
use lab_kinds::{TextKind, kind_of};
use lab_scenario_orders::{Split, split_text};
use lab_step_orders::{Crew, StepWatch};
use std::alloc::{AllocError, Global};

// Whether the steps of a text are those of callers.
fn is_of_callers(alloc: Global, scenario: &[u8]) -> Result<bool, AllocError>
    ensures { IfOk result (λ is. is ≡ is_of_callers (kind_of scenario.now)) }
{
    match kind_of(alloc, scenario)? {
        TextKind::Callers => Ok(true),
        TextKind::Scenario | TextKind::Orders | TextKind::Bank => Ok(false),
    }
}

/// Whether a text is one of callers, but for what is set up and what is asked. `AllocError` where memory couldn't grow.
#[tactic(auto, unfolding(crate::specs::Kinds::asks_steps))]
pub fn asks_steps(alloc: Global, bytes: &[u8]) -> Result<bool, AllocError>
    ensures { IfOk result (λ asks. asks ≡ asks_steps bytes.now) }
{
    let Ok(text) = str::from_utf8(bytes) else {
        return Ok(false);
    };
    let extras = extras_of(alloc, text)?;
    let split = split_text(alloc, extras.plain.as_str())?;
    is_of_callers(alloc, split.scenario.as_str().as_bytes())
}

// The questions of a text about moments, on this board.
fn questions_of(alloc: Global, board: &Board, text: &str) -> Result<Vec<StepWatch>, StepsFault>
    ensures asked { IfOk result (λ all. AreAsked false (lines text.now) all.items) }
    ensures there { IfOk result (λ all. are_there board.now all.items ≡ true) }
    ensures refused { IfErr result (IsUnasked board.now (lines text.now)) }
{
    let Ok(all) = lines_of(alloc, text) else {
        return Err(StepsFault::Text(Fault::Memory));
    };
    questions_in(alloc, board, all.as_slice())
}

// The callers of a text that was split.
fn read_split(alloc: Global, extras: &Extras, split: &Split, text: &str) -> Result<Crew, StepsFault>
    ensures crew { IfOk result (IsReadOf extras.now (string_bytes split.now.scenario) split.now.setup) }
    ensures asked { IfOk result (λ crew. AreAsked false (lines text.now) crew.watches.items) }
    ensures there { IfOk result (λ crew. are_there crew.board crew.watches.items ≡ true) }
    ensures kept { IfErr result (IsStopped (lines text.now) (string_bytes split.now.scenario) split.now.setup) }
{
    let read = match read_callers(alloc, split.scenario.as_str().as_bytes(), None) {
        Ok(read) => read,
        Err(fault) => return Err(StepsFault::Text(fault)),
    };
    let watches = match questions_of(alloc, &read.board, text) {
        Ok(watches) => watches,
        Err(fault) => return Err(fault),
    };
    let steps = read.steps.as_slice();
    let count = split.setup.min(steps.len());
    crew_of(alloc, read, count, extras, watches)
}

// Whether the lines of a text of steps alone ask for what there is.
fn check_extras(extras: &Extras) -> Result<(), StepsFault>
    ensures strange { IfOk result (λ checked. extras.now.strange ≡ None) }
    ensures stray { IfOk result (λ checked. extras.now.stray ≡ None) }
    ensures refused { IfErr result (IsUnplain extras.now) }
{
    match extras.strange {
        Some(line) => return Err(StepsFault::WhatIf(line)),
        None => {}
    }
    match extras.stray {
        Some(line) => Err(StepsFault::Lasts(line)),
        None => Ok(()),
    }
}

/// The callers of a text, with their calls on words: a text of callers, in which `[[setup]]` means a step that comes
/// first, `lasts` in a step says how it comes by the core, and a table `[what_if]` names a wrong step.
pub fn read_steps(alloc: Global, bytes: &[u8]) -> Result<Crew, StepsFault>
    ensures crew { IfOk result (IsReadAs bytes.now) }
    ensures refused { IfErr result (IsRefused bytes.now) }
{
    let Ok(text) = str::from_utf8(bytes) else {
        return Err(StepsFault::Text(Fault::Text));
    };
    let Ok(extras) = extras_of(alloc, text) else {
        return Err(StepsFault::Text(Fault::Memory));
    };
    match check_extras(&extras) {
        Ok(()) => {}
        Err(fault) => return Err(fault),
    }
    let Ok(split) = split_text(alloc, extras.plain.as_str()) else {
        return Err(StepsFault::Text(Fault::Memory));
    };
    if split.is_mixed {
        return Err(StepsFault::Mixed);
    }
    read_split(alloc, &extras, &split, text)
}
