//! The warnings of callbacks whose actions name what the board doesn't have.
ghost use Rattle.std.specs.Prelude.{◌≡◌, ◌++◌, map, option_map, string_bytes, OnOk};
ghost use Rattle.evl_plans.specs.Told as plans;
ghost use Rattle.lab_warnings.specs.Warnings as lines;

use crate::counts::Counts;
use crate::refusals::write_place;
use evl_base::Call;
use evl_pipeline::Action;
use evl_plans::Planned;
use std::alloc::AllocError;

// Writes that a callback does something with an element that the board lacks.
fn write_missing(
    told: &mut String,
    name: &str,
    number: usize,
    callback: u8,
    does: &str,
    element: u16,
    count: usize,
    elements: &str,
) -> Result<(), AllocError>
    ensures { OnOk result (string_bytes told.new ≡ string_bytes told.old ++ lines.missing_text name.now number callback does.now element count elements.now) }
{
    write_place(told, name, number)?;
    write!(
        told,
        "callback {callback}{does}{element} (the board has {elements}={count})\n"
    )?;
    Ok(())
}

// The same, where the board has only so many.
fn warn_of_missing(
    told: &mut String,
    name: &str,
    number: usize,
    callback: u8,
    does: &str,
    element: u16,
    count: usize,
    elements: &str,
) -> Result<(), AllocError>
    ensures { OnOk result (string_bytes told.new ≡ string_bytes told.old ++ lines.missing_line name.now number callback does.now element count elements.now) }
{
    if usize::from(element) < count {
        return Ok(());
    }
    write_missing(told, name, number, callback, does, element, count, elements)
}

// Warns of an action of a callback.
fn warn_of_action(
    told: &mut String,
    name: &str,
    counts: Counts,
    number: usize,
    callback: u8,
    action: Action,
) -> Result<(), AllocError>
    ensures { OnOk result (string_bytes told.new ≡ string_bytes told.old ++ lines.action_line name.now counts number callback action) }
{
    match action {
        Action::PostSem(sem) => {
            warn_of_missing(
                told,
                name,
                number,
                callback,
                " puts sem ",
                sem.0,
                counts.sems,
                "sems",
            )
        }
        Action::PostFlags(flags, _) => {
            warn_of_missing(
                told,
                name,
                number,
                callback,
                " posts to flags ",
                flags.0,
                counts.flags,
                "flags",
            )
        }
        _ => Ok(()),
    }
}

// Warns of the rows of a callback.
fn warn_of_rows(
    told: &mut String,
    name: &str,
    counts: Counts,
    number: usize,
    callback: u8,
    rows: &[(u64, Action)],
) -> Result<(), AllocError>
    ensures { OnOk result (string_bytes told.new ≡ string_bytes told.old ++ lines.row_lines name.now counts number callback rows.now) }
{
    for row in rows {
        warn_of_action(told, name, counts, number, callback, row.1)?;
    }
    Ok(())
}

// Warns of a callback, if there is one.
fn warn_of_callback(
    told: &mut String,
    name: &str,
    counts: Counts,
    number: usize,
    callback: u8,
    planned: Option<&Planned>,
) -> Result<(), AllocError>
    ensures { OnOk result (string_bytes told.new ≡ string_bytes told.old ++ lines.callback_lines name.now counts number callback (option_map (λ planned. plans.handler_of planned.now) planned.entry)) }
{
    match planned {
        Some(planned) => warn_of_rows(
            told,
            name,
            counts,
            number,
            callback,
            planned.plan.rows.as_slice(),
        ),
        None => Ok(()),
    }
}

/// The callback that a call installs, if it installs one.
pub fn callback_of(call: &Call) -> Option<u8>
    ensures { result ≡ lines.callback_of call.now }
{
    match call {
        Call::Request { callback, .. } => Some(*callback),
        Call::NewTimer { callback, .. } => Some(*callback),
        _ => None,
    }
}

/// Warns of what the callback that a step installs does with elements that the board lacks. `AllocError` where memory
/// couldn't grow.
#[tactic(auto, using(crate::proofs::LineLaws::got_of))]
pub fn warn_of_installed(
    told: &mut String,
    name: &str,
    counts: Counts,
    bank: &[Planned],
    number: usize,
    installed: Option<u8>,
) -> Result<(), AllocError>
    ensures { OnOk result (string_bytes told.new ≡ string_bytes told.old ++ lines.installed_lines name.now counts (map plans.handler_of bank.now) number installed) }
{
    match installed {
        Some(callback) => {
            let planned = bank.get(usize::from(callback));
            warn_of_callback(told, name, counts, number, callback, planned)
        }
        None => Ok(()),
    }
}
