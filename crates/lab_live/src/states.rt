//! The state of a machine: its threads, who waits for what, owners, pending lines and timers.
ghost use Rattle.std.specs.Prelude.{◌≡◌, ◌++◌, IfOk, OnOk, Some, flat_map, option_map, string_bytes};
ghost use Rattle.evl_clock.specs.Limits.{timer_count};
ghost use Rattle.lab_live.specs.States as states;
ghost use Rattle.lab_live.specs.States.{begun_text, numbers_below, last_begun, mutex_line, owner_text, pending_end, pending_next, pending_on, pending_so_far, pending_text, rest_text, stage_line, stalled_text, standing_text, state_text, thread_line, timer_line, timer_text, wait_text};

use crate::session::Session;
use evl_base::{Entry, LINES, LineNo, MutexId, Refusal, Reply, Stage, ThreadId, TimerId};
use evl_clock::TimerState;
use evl_kernel::KernelOf;
use std::alloc::{AllocError, Global};

// The timers of a machine.
const TIMERS: u16 = 64;

// Whether a wait began.
fn is_begun(reply: &Result<Reply, Refusal>) -> bool
    ensures { result ≡ states.is_begun reply.now }
{
    match reply {
        Ok(Reply::Begun) => true,
        _ => false,
    }
}

// Whether a thread began to wait by an entry.
fn begins_wait(entry: &Entry, thread: ThreadId) -> bool
    ensures { result ≡ states.begins_wait thread.0 entry.now }
{
    entry.caller.0 == thread.0 && is_begun(&entry.reply)
}

// The entry by which a thread last began to wait.
fn beginning(entries: &[Entry], thread: ThreadId) -> Option<&Entry>
    ensures { option_map (λ entry. entry.now) result ≡ last_begun thread.0 entries.now }
{
    let mut found = None;
    for entry in entries {
        if begins_wait(entry, thread) {
            found = Some(entry);
        }
    }
    found
}

// Writes the call with which a thread last began to wait.
fn write_begun(told: &mut String, entries: &[Entry], thread: ThreadId) -> Result<(), AllocError>
    ensures { OnOk result (string_bytes told.new ≡ string_bytes told.old ++ begun_text (last_begun thread.0 entries.now)) }
{
    match beginning(entries, thread) {
        Some(entry) => {
            let call = &entry.call;
            write!(told, ": {call}")
        }
        None => Ok(()),
    }
}

// Writes how the unfinished wait of a thread is.
fn write_standing<C>(
    told: &mut String,
    kernel: &KernelOf<C, Global>,
    thread: ThreadId,
) -> Result<(), AllocError>
    ensures { OnOk result (string_bytes told.new ≡ string_bytes told.old ++ standing_text kernel.now.history.state thread.0) }
{
    if kernel.timed_out(thread) {
        told.push_str(", timed out")
    } else if kernel.finished(thread) {
        told.push_str(", served")
    } else {
        told.push_str(", waits")
    }
}

/// Writes what a thread waits for. `AllocError` where memory couldn't grow.
pub fn write_wait<C>(
    told: &mut String,
    kernel: &KernelOf<C, Global>,
    thread: ThreadId,
) -> Result<(), AllocError>
    ensures { OnOk result (string_bytes told.new ≡ string_bytes told.old ++ wait_text kernel.now.history thread.0) }
{
    if kernel.waits(thread) {
        write_standing(told, kernel, thread)?;
        match kernel.history().to_vec(*told.allocator()) {
            Ok(entries) => write_begun(told, entries.as_slice(), thread),
            Err(_) => Err(AllocError),
        }
    } else {
        Ok(())
    }
}

// Writes a thread: its stage, and what it waits for.
fn write_thread<C>(
    told: &mut String,
    kernel: &KernelOf<C, Global>,
    thread: ThreadId,
) -> Result<(), AllocError>
    ensures { OnOk result (string_bytes told.new ≡ string_bytes told.old ++ thread_line kernel.now.history thread.0) }
{
    let number = thread.0;
    let stage = kernel.stage(thread);
    write!(told, "T{number} {stage}")?;
    write_wait(told, kernel, thread)?;
    told.push_str("\n")
}

// Writes the owner of a mutex, and how many threads wait for it.
fn write_owner(
    told: &mut String,
    mutex: MutexId,
    owner: ThreadId,
    waiters: usize,
) -> Result<(), AllocError>
    ensures { OnOk result (string_bytes told.new ≡ string_bytes told.old ++ owner_text mutex.0 (Some owner.0) waiters) }
{
    let number = mutex.0;
    let thread = owner.0;
    write!(told, "mutex {number} owner T{thread}, {waiters} waiting\n")
}

// Writes a mutex that has an owner.
fn write_mutex<C>(
    told: &mut String,
    kernel: &KernelOf<C, Global>,
    mutex: MutexId,
) -> Result<(), AllocError>
    ensures { OnOk result (string_bytes told.new ≡ string_bytes told.old ++ mutex_line kernel.now.history.state mutex.0) }
{
    match kernel.owner(mutex) {
        Some(owner) => write_owner(told, mutex, owner, kernel.waiters(mutex)),
        None => Ok(()),
    }
}

// Writes a line that is pending, after others or as the first one.
fn put_line(told: &mut String, is_first: bool, line: u16) -> Result<(), AllocError>
    ensures { OnOk result (string_bytes told.new ≡ string_bytes told.old ++ pending_next is_first line) }
{
    told.push_str(if is_first { ", pending " } else { " " })?;
    write!(told, "{line}")
}

// Writes the lines that are pending on a stage, and says whether there are none.
fn write_lines<C>(
    told: &mut String,
    kernel: &KernelOf<C, Global>,
    stage: Stage,
) -> Result<bool, AllocError>
    ensures lines { OnOk result (string_bytes told.new ≡ string_bytes told.old ++ pending_so_far (pending_on kernel.now.history.state stage)) }
    ensures none { IfOk result (λ is_quiet. is_quiet ≡ states.is_none (pending_on kernel.now.history.state stage)) }
{
    let mut is_quiet = true;
    for line in 0..LINES as u16 {
        if kernel.pending(stage, LineNo(line)) {
            put_line(told, is_quiet, line)?;
            is_quiet = false;
        }
    }
    Ok(is_quiet)
}

// Writes what ends the lines that are pending: that there are none, or nothing more.
fn put_end(told: &mut String, is_quiet: bool) -> Result<(), AllocError>
    ensures { OnOk result (string_bytes told.new ≡ string_bytes told.old ++ pending_end is_quiet) }
{
    told.push_str(if is_quiet {
        ", nothing pending\n"
    } else {
        "\n"
    })
}

// Writes what is pending on a stage, to the end of its line.
fn write_pending<C>(
    told: &mut String,
    kernel: &KernelOf<C, Global>,
    stage: Stage,
) -> Result<(), AllocError>
    ensures { OnOk result (string_bytes told.new ≡ string_bytes told.old ++ pending_text (pending_on kernel.now.history.state stage)) }
{
    let is_quiet = write_lines(told, kernel, stage)?;
    put_end(told, is_quiet)?;
    Ok(())
}

// Writes that a stage is stalled, if it is.
fn write_stalled<C>(
    told: &mut String,
    kernel: &KernelOf<C, Global>,
    stage: Stage,
) -> Result<(), AllocError>
    ensures { OnOk result (string_bytes told.new ≡ string_bytes told.old ++ stalled_text kernel.now.history.state stage) }
{
    if kernel.stalled(stage) {
        told.push_str(" stalled")
    } else {
        Ok(())
    }
}

// Writes a stage: whether it is stalled, and the lines that are pending on it.
fn write_stage<C>(
    told: &mut String,
    kernel: &KernelOf<C, Global>,
    stage: Stage,
) -> Result<(), AllocError>
    ensures { OnOk result (string_bytes told.new ≡ string_bytes told.old ++ stage_line kernel.now.history.state stage) }
{
    write!(told, "{stage}")?;
    write_stalled(told, kernel, stage)?;
    write_pending(told, kernel, stage)
}

// Writes what a timer does.
fn write_timer_state(told: &mut String, timer: TimerId, state: TimerState) -> Result<(), AllocError>
    ensures { OnOk result (string_bytes told.new ≡ string_bytes told.old ++ timer_text timer.0 state) }
{
    let number = timer.0;
    match state {
        TimerState::Running { date, interval } => {
            write!(told, "timer {number} next {date} interval {interval}\n")
        }
        TimerState::Idle => write!(told, "timer {number} idle\n"),
        TimerState::Ended => write!(told, "timer {number} ended\n"),
    }
}

// Writes a timer that there is.
fn write_timer<C>(
    told: &mut String,
    kernel: &KernelOf<C, Global>,
    timer: TimerId,
) -> Result<(), AllocError>
    ensures { OnOk result (string_bytes told.new ≡ string_bytes told.old ++ timer_line kernel.now.history.state timer.0) }
{
    match kernel.timer(timer) {
        Some(state) => write_timer_state(told, timer, state),
        None => Ok(()),
    }
}

// Writes the threads below a number.
fn write_threads<C>(
    told: &mut String,
    kernel: &KernelOf<C, Global>,
    count: u16,
) -> Result<(), AllocError>
    ensures { OnOk result (string_bytes told.new ≡ string_bytes told.old ++ flat_map (thread_line kernel.now.history) (numbers_below count)) }
{
    for thread in 0..count {
        write_thread(told, kernel, ThreadId(thread))?;
    }
    Ok(())
}

// Writes those of the mutexes below a number that have an owner.
fn write_mutexes<C>(
    told: &mut String,
    kernel: &KernelOf<C, Global>,
    count: u16,
) -> Result<(), AllocError>
    ensures { OnOk result (string_bytes told.new ≡ string_bytes told.old ++ flat_map (mutex_line kernel.now.history.state) (numbers_below count)) }
{
    for mutex in 0..count {
        write_mutex(told, kernel, MutexId(mutex))?;
    }
    Ok(())
}

// Writes the timers that there are.
fn write_timers<C>(told: &mut String, kernel: &KernelOf<C, Global>) -> Result<(), AllocError>
    ensures { OnOk result (string_bytes told.new ≡ string_bytes told.old ++ flat_map (timer_line kernel.now.history.state) (numbers_below timer_count)) }
{
    for timer in 0..TIMERS {
        write_timer(told, kernel, TimerId(timer))?;
    }
    Ok(())
}

/// Writes the mutexes that have an owner, the stages and the timers. `AllocError` where memory couldn't grow.
pub fn write_rest(told: &mut String, session: &Session) -> Result<(), AllocError>
    ensures { OnOk result (string_bytes told.new ≡ string_bytes told.old ++ rest_text session.now) }
{
    let kernel = session.kernel();
    write_mutexes(told, kernel, session.mutexes() as u16)?;
    write_stage(told, kernel, Stage::Oob)?;
    write_stage(told, kernel, Stage::Inband)?;
    write_timers(told, kernel)?;
    Ok(())
}

/// Writes what the machine is doing after what was written. `AllocError` where memory couldn't grow.
pub fn write_state(told: &mut String, session: &Session) -> Result<(), AllocError>
    ensures { OnOk result (string_bytes told.new ≡ string_bytes told.old ++ state_text session.now) }
{
    write_threads(told, session.kernel(), session.threads())?;
    write_rest(told, session)?;
    Ok(())
}
