//! The warnings of steps, as they are made.
ghost use Rattle.std.specs.Prelude.{◌≡◌, ◌++◌, drop, flat_map, length, map, string_bytes, IfOk, OnOk};
ghost use Rattle.evl_plans.specs.Told as plans;
ghost use Rattle.evl_shell.specs.Moments.{moment};
ghost use Rattle.evl_shell.specs.Runs.{turn};
ghost use Rattle.lab_warnings.specs.Runs.{Makes, entries_from, entry_in, state_from};
ghost use Rattle.lab_warnings.specs.Warnings.{entry_lines, odd_line, odd_lines, spurious_line, step_lines, steps_lines};

use crate::actions::{callback_of, warn_of_installed};
use crate::counts::Counts;
use crate::reasons::{Reason, is_odd, spurious_so_far, write_odd};
use crate::refusals::{warn_of_refusal, write_place, write_step};
use evl_base::Entry;
use evl_plans::{Planned, PlannedKernel};
use evl_scenario::Step;
use evl_shell::wants_memory;
use std::alloc::{AllocError, Global};

// Warns of a step that is odd for this reason.
fn warn_of_reason(
    told: &mut String,
    name: &str,
    number: usize,
    kernel: &PlannedKernel,
    step: &Step,
    reason: Reason,
) -> Result<(), AllocError>
    ensures { OnOk result (string_bytes told.new ≡ string_bytes told.old ++ odd_line name.now number kernel.now.history.state step.now reason) }
{
    if !is_odd(kernel, step, reason) {
        return Ok(());
    }
    write_place(told, name, number)?;
    told.write(step)?;
    write_odd(told, kernel, step, reason)
}

// Warns of a step for every reason for which it is odd.
fn warn_of_reasons(
    told: &mut String,
    name: &str,
    number: usize,
    kernel: &PlannedKernel,
    step: &Step,
) -> Result<(), AllocError>
    ensures { OnOk result (string_bytes told.new ≡ string_bytes told.old ++ odd_lines name.now number kernel.now.history.state step.now) }
{
    warn_of_reason(told, name, number, kernel, step, Reason::Unpicked)?;
    warn_of_reason(told, name, number, kernel, step, Reason::Unattached)?;
    warn_of_reason(told, name, number, kernel, step, Reason::Unowned)?;
    warn_of_reason(told, name, number, kernel, step, Reason::Merging)?;
    Ok(())
}

// Warns of a call after which more events of its line were spurious than before it.
fn warn_of_spurious(
    told: &mut String,
    name: &str,
    number: usize,
    before: u64,
    after: u64,
    entry: &Entry,
) -> Result<(), AllocError>
    ensures { OnOk result (string_bytes told.new ≡ string_bytes told.old ++ spurious_line name.now number before after entry.now) }
{
    if before >= after {
        return Ok(());
    }
    write_place(told, name, number)?;
    write_step(told, entry)?;
    told.push_str(" is spurious: no callback is installed for it\n")
}

// Warns of the entry of a step, before which so many events of its line were spurious.
fn warn_of_entry(
    told: &mut String,
    name: &str,
    counts: Counts,
    number: usize,
    before: u64,
    kernel: &PlannedKernel,
    entry: &Entry,
) -> Result<(), AllocError>
    ensures { OnOk result (string_bytes told.new ≡ string_bytes told.old ++ entry_lines name.now counts number before kernel.now.history.state entry.now) }
{
    let after = spurious_so_far(kernel, &entry.call);
    warn_of_refusal(told, name, counts, number, entry)?;
    warn_of_spurious(told, name, number, before, after, entry)?;
    Ok(())
}

// Warns of entries of a step, before which so many events of its line were spurious.
fn warn_of_entries(
    told: &mut String,
    name: &str,
    counts: Counts,
    number: usize,
    before: u64,
    kernel: &PlannedKernel,
    entries: &[Entry],
) -> Result<(), AllocError>
    ensures { OnOk result (string_bytes told.new ≡ string_bytes told.old ++ flat_map (entry_lines name.now counts number before kernel.now.history.state) entries.now) }
{
    for entry in entries {
        warn_of_entry(told, name, counts, number, before, kernel, entry)?;
    }
    Ok(())
}

// How many entries a kernel has made.
fn entry_count(kernel: &PlannedKernel) -> usize
    ensures { result ≡ length kernel.now.history.entries }
{
    kernel.kernel().history().len()
}

// The entries of a kernel from an index on.
fn entries_since(
    alloc: Global,
    kernel: &PlannedKernel,
    start: usize,
) -> Result<Vec<Entry>, AllocError>
    ensures { IfOk result (λ since. since.items ≡ drop start kernel.now.history.entries) }
{
    match kernel.kernel().history().entries_from(alloc, start) {
        Ok(since) => Ok(since),
        Err(_) => Err(AllocError),
    }
}

// Makes a step.
fn make_step(kernel: &mut PlannedKernel, step: Step) -> Result<(), AllocError>
    ensures { OnOk result (Makes kernel.old kernel.new step) }
{
    let Step { who, call } = step;
    let answer = kernel.apply(who, call);
    if wants_memory(&answer) {
        Err(AllocError)
    } else {
        Ok(())
    }
}

// Makes the step with this number, and warns of what is seen of it.
fn take_step(
    told: &mut String,
    name: &str,
    counts: Counts,
    bank: &[Planned],
    kernel: &mut PlannedKernel,
    number: usize,
    step: Step,
) -> Result<(), AllocError>
    ensures makes { OnOk result (Makes kernel.old kernel.new step) }
    ensures told { OnOk result (string_bytes told.new ≡ string_bytes told.old ++ step_lines name.now counts (map plans.handler_of bank.now) number kernel.old.history.state step (turn kernel.old.limit (moment kernel.old) step)) }
{
    warn_of_reasons(told, name, number, kernel, &step)?;
    warn_of_installed(told, name, counts, bank, number, callback_of(&step.call))?;
    let start = entry_count(kernel);
    let before = spurious_so_far(kernel, &step.call);
    make_step(kernel, step)?;
    let since = entries_since(*told.allocator(), kernel, start)?;
    let since = since.as_slice();
    warn_of_entries(told, name, counts, number, before, kernel, since)?;
    Ok(())
}

/// Makes steps, and warns of what is seen of each, in order. `AllocError` where memory couldn't grow.
pub fn make_steps(
    told: &mut String,
    name: &str,
    counts: Counts,
    bank: &[Planned],
    kernel: &mut PlannedKernel,
    steps: Vec<Step>,
) -> Result<(), AllocError>
    ensures told { OnOk result (string_bytes told.new ≡ string_bytes told.old ++ steps_lines name.now counts (map plans.handler_of bank.now) 0 kernel.old.limit (moment kernel.old) steps.items) }
    ensures entries { OnOk result (kernel.new.history.entries ≡ kernel.old.history.entries ++ entries_from kernel.old.limit (moment kernel.old) steps.items) }
    ensures state { OnOk result (kernel.new.history.state ≡ state_from kernel.old.limit (moment kernel.old) steps.items) }
{
    let count = steps.len();
    let mut number: usize = 0;
    for step in steps {
        take_step(told, name, counts, bank, kernel, number + 1, step)?;
        number += 1;
    }
    Ok(())
}
