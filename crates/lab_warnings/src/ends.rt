//! The warnings that are seen once all steps were made.
ghost use Rattle.std.specs.Prelude.{◌≡◌, ◌++◌, length, string_bytes, OnOk};
ghost use Rattle.evl_pipeline.specs.Limits.{line_count};
ghost use Rattle.lab_warnings.specs.Warnings as lines;
ghost use Rattle.lab_warnings.specs.Warnings.{end_lines, full_line, last_begun, pending_line, pending_lines, pending_text, wait_line, wait_lines, wait_text};

use crate::refusals::write_place;
use evl_base::{Entry, LINES, LineNo, Refusal, Reply, Stage, ThreadId};
use evl_plans::PlannedKernel;
use std::alloc::AllocError;

// Warns that the history was full before the last step.
fn warn_of_limit(told: &mut String, name: &str, made: usize, asked: usize) -> Result<(), AllocError>
    ensures { OnOk result (string_bytes told.new ≡ string_bytes told.old ++ full_line name.now made asked) }
{
    if made >= asked {
        return Ok(());
    }
    write_place(told, name, made + 1)?;
    told.push_str("the history is full, so it is refused, as each step behind it: HistoryFull\n")
}

// Whether a thread began to wait by an entry.
fn begins_wait(entry: &Entry, thread: ThreadId) -> bool
    ensures { result ≡ lines.begins_wait thread.0 entry.now }
{
    entry.caller.0 == thread.0 && is_begun(&entry.reply)
}

// Whether a wait began.
fn is_begun(reply: &Result<Reply, Refusal>) -> bool
    ensures { result ≡ lines.is_begun reply.now }
{
    match reply {
        Ok(Reply::Begun) => true,
        _ => false,
    }
}

// The step at which a thread last began to wait, from 1; 0 where it never did.
fn begun_at(entries: &[Entry], thread: ThreadId) -> usize
    ensures { result ≡ last_begun thread.0 0 0 entries.now }
{
    let mut found = 0;
    for (i, entry) in entries.iter().enumerate() {
        if begins_wait(entry, thread) {
            found = i + 1;
        }
    }
    found
}

// Writes what became of a thread's wait.
fn write_wait(told: &mut String, kernel: &PlannedKernel, thread: ThreadId) -> Result<(), AllocError>
    ensures { OnOk result (string_bytes told.new ≡ string_bytes told.old ++ wait_text kernel.now.history.state thread.0) }
{
    let who = thread.0;
    if kernel.kernel().finished(thread) {
        write!(
            told,
            "the wait of T{who} has ended, and no finish follows\n"
        )
    } else {
        write!(told, "T{who} waits until the end\n")
    }
}

// Warns of a thread that hasn't finished its wait.
fn warn_of_wait(
    told: &mut String,
    name: &str,
    kernel: &PlannedKernel,
    thread: ThreadId,
) -> Result<(), AllocError>
    ensures { OnOk result (string_bytes told.new ≡ string_bytes told.old ++ wait_line name.now kernel.now.history.entries kernel.now.history.state thread.0) }
{
    if !kernel.kernel().waits(thread) {
        return Ok(());
    }
    let number = match kernel.kernel().history().to_vec(*told.allocator()) {
        Ok(entries) => begun_at(entries.as_slice(), thread),
        Err(_) => return Err(AllocError),
    };
    write_place(told, name, number)?;
    write_wait(told, kernel, thread)
}

// Warns of the threads that haven't finished their waits.
fn warn_of_waits(
    told: &mut String,
    name: &str,
    kernel: &PlannedKernel,
    threads: u16,
) -> Result<(), AllocError>
    ensures { OnOk result (string_bytes told.new ≡ string_bytes told.old ++ wait_lines name.now kernel.now.history.entries kernel.now.history.state threads) }
{
    for thread in 0..threads {
        warn_of_wait(told, name, kernel, ThreadId(thread))?;
    }
    Ok(())
}

// Writes that an event is pending on a line.
fn write_pending(told: &mut String, name: &str, stage: Stage, line: u16) -> Result<(), AllocError>
    ensures { OnOk result (string_bytes told.new ≡ string_bytes told.old ++ pending_text name.now stage line) }
{
    write!(
        told,
        "{name}: at the end: warning: line {line} is still pending {stage}\n"
    )
}

// Warns of a line on which an event is pending.
fn warn_of_line(
    told: &mut String,
    name: &str,
    kernel: &PlannedKernel,
    stage: Stage,
    line: u16,
) -> Result<(), AllocError>
    ensures { OnOk result (string_bytes told.new ≡ string_bytes told.old ++ pending_line name.now kernel.now.history.state stage line) }
{
    if kernel.kernel().pending(stage, LineNo(line)) {
        write_pending(told, name, stage, line)
    } else {
        Ok(())
    }
}

// Warns of the lines on which an event is pending in the end.
fn warn_of_pending(
    told: &mut String,
    name: &str,
    kernel: &PlannedKernel,
    stage: Stage,
) -> Result<(), AllocError>
    ensures { OnOk result (string_bytes told.new ≡ string_bytes told.old ++ pending_lines name.now kernel.now.history.state stage line_count) }
{
    for line in 0..LINES as u16 {
        warn_of_line(told, name, kernel, stage, line)?;
    }
    Ok(())
}

/// Warns of what a kernel of so many threads shows after a scenario of so many steps. `AllocError` where memory couldn't
/// grow.
pub fn warn_of_end(
    told: &mut String,
    name: &str,
    kernel: &PlannedKernel,
    threads: u16,
    asked: usize,
) -> Result<(), AllocError>
    ensures { OnOk result (string_bytes told.new ≡ string_bytes told.old ++ end_lines name.now threads asked kernel.now.history.entries kernel.now.history.state) }
{
    let entries = kernel.kernel().history().len();
    warn_of_limit(told, name, entries, asked)?;
    warn_of_waits(told, name, kernel, threads)?;
    warn_of_pending(told, name, kernel, Stage::Oob)?;
    warn_of_pending(told, name, kernel, Stage::Inband)?;
    Ok(())
}
