//! The steps that keys are in.
ghost use Rattle.std.specs.Prelude.{◌≡◌, ◌<◌, ◌≤◌, ◌==◌, true, length, OnOk};
ghost use Rattle.std.specs.List.{prefix_len};
ghost use Rattle.lab_faults.specs.Faults.{are_of_steps};
ghost use Rattle.lab_faults.specs.Steps as steps;
ghost use Rattle.lab_faults.specs.Steps.{all_step_faults, run_faults};
ghost use Rattle.lab_faults.specs.Told.{Adds};

use crate::found::Finding;
use crate::items::{Item, Section};
use crate::steps::check_step;
use std::alloc::{AllocError, Global};

/// The step in which a key is, from 1; 0 where it is in none.
pub fn number_of(section: Section) -> usize
    ensures { result ≡ steps.number_of section }
{
    match section {
        Section::Step(number) => number,
        _ => 0,
    }
}

// How many items in front are in this step.
fn in_front(items: &[Item], number: usize) -> usize
    ensures count { result ≡ prefix_len (λ item. steps.number_of item.section == number) items.now }
    ensures within { result ≤ length items.now }
{
    for (index, item) in items.iter().enumerate() {
        if number_of(item.section) != number {
            return index;
        }
    }
    items.len()
}

/// How many items in front are in one step.
pub fn run_length(items: &[Item]) -> usize
    ensures count { result ≡ steps.run_length items.now }
    ensures within { result ≤ length items.now }
    ensures some { 0 < length items.now → 0 < result }
{
    match items {
        [] => 0,
        [first, rest @ ..] => 1 + in_front(rest, number_of(first.section)),
    }
}

/// The step in which the first item is.
pub fn first_number(items: &[Item]) -> usize
    ensures { result ≡ steps.first_number items.now }
{
    match items {
        [] => 0,
        [first, ..] => number_of(first.section),
    }
}

// Notes the faults of items that are in one step, or in none.
#[tactic(auto, unfolding(crate::specs::Steps::run_faults))]
fn check_run(alloc: Global, finding: &mut Finding<'_>, items: &[Item]) -> Result<(), AllocError>
    ensures told { OnOk result (Adds finding.old finding.new (run_faults finding.old.text.now items.now)) }
    ensures steps { OnOk result (are_of_steps finding.old.found.items ≡ true → are_of_steps finding.new.found.items ≡ true) }
{
    let number = first_number(items);
    if number == 0 {
        return Ok(());
    }
    check_step(alloc, finding, number, items)
}

/// Notes the faults of all steps. `AllocError` where memory couldn't grow.
pub fn check_steps(
    alloc: Global,
    finding: &mut Finding<'_>,
    items: &[Item],
) -> Result<(), AllocError>
    ensures told { OnOk result (Adds finding.old finding.new (all_step_faults finding.old.text.now items.now)) }
    ensures steps { OnOk result (are_of_steps finding.old.found.items ≡ true → are_of_steps finding.new.found.items ≡ true) }
{
    let mut rest = items;
    while !rest.is_empty() {
        let (own, behind) = rest.split_at(run_length(rest));
        check_run(alloc, finding, own)?;
        rest = behind;
    }
    Ok(())
}
