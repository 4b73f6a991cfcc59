//! The warnings of calls that are refused.
ghost use Rattle.std.specs.Prelude.{◌≡◌, ◌++◌, true, string_bytes, OnOk};
ghost use Rattle.evl_base.specs.Reply.{outcome_text};
ghost use Rattle.evl_scenario.specs.Lines.{step_text};
ghost use Rattle.evl_scenario.specs.Writings.{step_of_entry};
ghost use Rattle.lab_warnings.specs.Warnings as lines;
ghost use Rattle.lab_warnings.specs.Warnings.{place_text, refusal_line, refused_text};

use crate::counts::{Counts, write_lacking};
use evl_base::{Entry, Refusal, Reply};
use std::alloc::AllocError;

// Whether a call was refused.
fn is_refused(reply: &Result<Reply, Refusal>) -> bool
    ensures { result ≡ lines.is_refused reply.now }
{
    reply.is_err()
}

// The name of a refusal.
fn reason_of(reply: &Result<Reply, Refusal>) -> &'static str
    requires { lines.is_refused reply.now ≡ true }
    ensures { result.now ≡ outcome_text reply.now }
{
    match reply {
        Ok(_) => "",
        Err(refusal) => refusal.name(),
    }
}

/// Writes where a warning belongs. `AllocError` where memory couldn't grow.
pub fn write_place(told: &mut String, name: &str, number: usize) -> Result<(), AllocError>
    ensures { OnOk result (string_bytes told.new ≡ string_bytes told.old ++ place_text name.now number) }
{
    write!(told, "{name}: step {number}: warning: ")?;
    Ok(())
}

/// Writes who makes the call of an entry, and the call. `AllocError` where memory couldn't grow.
pub fn write_step(told: &mut String, entry: &Entry) -> Result<(), AllocError>
    ensures { OnOk result (string_bytes told.new ≡ string_bytes told.old ++ step_text (step_of_entry entry.now)) }
{
    let who = entry.caller.0;
    let call = &entry.call;
    write!(told, "T{who} {call}")?;
    Ok(())
}

// Writes the step of an entry, and why it was refused.
fn write_reason(told: &mut String, entry: &Entry) -> Result<(), AllocError>
    requires { lines.is_refused entry.now.reply ≡ true }
    ensures { OnOk result (string_bytes told.new ≡ string_bytes told.old ++ lines.reason_text entry.now) }
{
    let reason = reason_of(&entry.reply);
    write_step(told, entry)?;
    write!(told, " is refused: {reason}")?;
    Ok(())
}

// Writes that, and what the board lacks.
fn write_refused(told: &mut String, counts: Counts, entry: &Entry) -> Result<(), AllocError>
    requires { lines.is_refused entry.now.reply ≡ true }
    ensures { OnOk result (string_bytes told.new ≡ string_bytes told.old ++ refused_text counts entry.now) }
{
    write_reason(told, entry)?;
    write_lacking(told, counts, entry)?;
    told.push_str("\n")
}

/// Warns of a call that was refused. `AllocError` where memory couldn't grow.
pub fn warn_of_refusal(
    told: &mut String,
    name: &str,
    counts: Counts,
    number: usize,
    entry: &Entry,
) -> Result<(), AllocError>
    ensures { OnOk result (string_bytes told.new ≡ string_bytes told.old ++ refusal_line name.now counts number entry.now) }
{
    if !is_refused(&entry.reply) {
        return Ok(());
    }
    write_place(told, name, number)?;
    write_refused(told, counts, entry)
}
