//! The acts of a task, one after the other.

use crate::durations::duration_of;
use crate::faults::{FaultKind, FaultPlace, TasksFault, fault};
use crate::short_forms::{put_pairs, put_value};
use evl_base::{Call, MutexId, SemId, Spares, XbufId};
use evl_scenario::{Step, number_of_text, read_step_table};
use std::alloc::{AllocError, Global};
use toml::{Table, Value};

/// A task's act.
#[derive(Drop)]
pub enum Act {
    /// Computes for so long, in nanoseconds.
    Run(u64),
    /// Locks a mutex, and waits for it where another has it.
    Lock(MutexId),
    /// Unlocks a mutex, and hands it on to the first that waits.
    Unlock(MutexId),
    /// Waits for a semaphore, for so long at most.
    Get(SemId, Option<u64>),
    /// Waits for so long, in nanoseconds.
    Sleep(u64),
    /// Waits until so long after the release of its job, in nanoseconds.
    Until(u64),
    /// Makes a call, and waits to the end of the wait that it begins, if it does.
    Call(Call),
}

/// The names by which a text's acts are read: the tasks' names, and the cross-buffer by which tasks wait for dates.
#[derive(Clone, Copy)]
pub struct Names<'a> {
    pub alloc: Global,
    pub tasks: &'a [String],
    pub idle: XbufId,
}

// The number after a key.
fn numbered(front: &str, text: &str) -> Option<u16> {
    let number = text.strip_prefix(front)?;
    u16::try_from(number_of_text(number)?).ok()
}

/// Whether a call writes into a cross-buffer.
pub fn writes_into(call: &Call, idle: XbufId) -> bool {
    match call {
        Call::Write { xbuf, .. } => xbuf.0 == idle.0,
        Call::BeginWrite { xbuf, .. } => xbuf.0 == idle.0,
        _ => false,
    }
}

// Whether a task may make this call: its waits end by themselves, the mutexes are the task's by their words, it stays
// attached, and time passes by computations alone.
fn may_call(call: &Call) -> bool {
    match call {
        Call::Finish { .. } => false,
        Call::Claim { .. } => false,
        Call::Release { .. } => false,
        Call::Raise { .. } => false,
        Call::Attach { .. } => false,
        Call::Detach => false,
        Call::Tick { .. } => false,
        _ => true,
    }
}

// The table of a step in its short form, whose thread is left out.
fn table_of(names: Names, word: &str, pairs: &str) -> Result<Option<Table>, AllocError> {
    let alloc = names.alloc;
    let mut table = Table::new(alloc);
    if !pairs.is_empty() && !put_pairs(alloc, &mut table, names.tasks, pairs)? {
        return Ok(None);
    }
    if table.get("do").is_some() || table.get("who").is_some() {
        return Ok(None);
    }
    put_value(alloc, &mut table, "do", Value::string(alloc, word)?)?;
    put_value(alloc, &mut table, "who", Value::Integer(0))?;
    Ok(Some(table))
}

// The act of a step, if a task may do it.
fn act_of(step: Option<Step>, idle: XbufId) -> Result<Act, FaultKind> {
    match step {
        Some(Step { who: _, call }) => {
            if writes_into(&call, idle) {
                Err(FaultKind::WritesIdle)
            } else if may_call(&call) {
                Ok(Act::Call(call))
            } else {
                Err(FaultKind::NotAnAct)
            }
        }
        None => Err(FaultKind::NotAnAct),
    }
}

// The act that is a call.
fn call_of(names: Names, word: &str, pairs: &str) -> Result<Act, FaultKind> {
    let Ok(table) = table_of(names, word, pairs) else {
        return Err(FaultKind::Memory);
    };
    let Some(table) = table else {
        return Err(FaultKind::NotAnAct);
    };
    let mut spares = Spares::new(names.alloc, names.alloc);
    if spares.keep(1).is_err() {
        return Err(FaultKind::Memory);
    }
    act_of(read_step_table(&table, &mut spares), names.idle)
}

// The mutex of a lock or an unlock.
fn mutex_of(pairs: &str) -> Result<MutexId, FaultKind> {
    match numbered("mutex=", pairs) {
        Some(mutex) => Ok(MutexId(mutex)),
        None => Err(FaultKind::NotAnAct),
    }
}

// A wait for a semaphore: `sem=0`, or `sem=0 within=3ms`.
fn get_of(pairs: &str) -> Result<Act, FaultKind> {
    let (front, within) = match pairs.split_once(" within=") {
        Some((front, text)) => (front, Some(duration_of(text)?)),
        None => (pairs, None),
    };
    match numbered("sem=", front) {
        Some(sem) => Ok(Act::Get(SemId(sem), within)),
        None => Err(FaultKind::NotAnAct),
    }
}

// The word of an act, and what follows it.
fn word_and_rest(text: &str) -> (&str, &str) {
    match text.split_once(' ') {
        Some(parts) => parts,
        None => (text, ""),
    }
}

// The act that a text is.
fn act_in(names: Names, text: &str) -> Result<Act, FaultKind> {
    let (word, rest) = word_and_rest(text);
    match word {
        "run" => Ok(Act::Run(duration_of(rest)?)),
        "sleep" => Ok(Act::Sleep(duration_of(rest)?)),
        "until" => Ok(Act::Until(duration_of(rest)?)),
        "lock" => Ok(Act::Lock(mutex_of(rest)?)),
        "unlock" => Ok(Act::Unlock(mutex_of(rest)?)),
        "get" => get_of(rest),
        _ => call_of(names, word, rest),
    }
}

// How often acts lock a mutex, less how often they unlock it.
fn locks_left(acts: &[Act], mutex: MutexId) -> usize {
    let mut left: usize = 0;
    for act in acts {
        match act {
            Act::Lock(other) => {
                if other.0 == mutex.0 {
                    left = left.saturating_add(1);
                }
            }
            Act::Unlock(other) => {
                if other.0 == mutex.0 {
                    left = left.saturating_sub(1);
                }
            }
            _ => {}
        }
    }
    left
}

// Whether an act unlocks a mutex that the acts before it don't leave locked.
fn unlocks_free(acts: &[Act], act: &Act) -> bool {
    match act {
        Act::Unlock(mutex) => locks_left(acts, *mutex) == 0,
        _ => false,
    }
}

/// The acts that these texts are, those of the task with this number, from 1. `Value` where one is no text, `NoUnit`
/// where a duration has no unit, `NotLocked` at an unlock of what the job didn't lock, `WritesIdle` at a write into the
/// cross-buffer by which tasks wait, and `NotAnAct` where one is none that a task does.
pub fn read_acts(names: Names, values: &[Value], task: usize) -> Result<Vec<Act>, TasksFault> {
    let mut acts: Vec<Act> = Vec::new(names.alloc);
    for (i, value) in values.iter().enumerate() {
        let place = FaultPlace::Act(task, i.saturating_add(1));
        let Some(text) = value.as_str() else {
            return Err(fault(place, "does", FaultKind::Value));
        };
        match act_in(names, text) {
            Ok(act) => {
                if unlocks_free(acts.as_slice(), &act) {
                    return Err(fault(place, "does", FaultKind::NotLocked));
                }
                acts.push(act)?;
            }
            Err(kind) => return Err(fault(place, "does", kind)),
        }
    }
    Ok(acts)
}
