//! The questions of a text about its run.

use crate::acts::Names;
use crate::durations::duration_of;
use crate::faults::{FaultKind, FaultPlace, TasksFault, fault};
use crate::names::thread_named;
use crate::tasks::values_at;
use evl_scenario::{field, has_only_keys};
use toml::{Table, Value};

/// A question about a run. Tasks are counted from 0, times are in nanoseconds.
#[derive(Clone, Copy, PartialEq, Eq)]
pub enum Ask {
    /// Whether no job is late.
    MeetsDeadlines(bool),
    /// Each job of this task takes at most this time from its release to its end.
    Response(usize, u64),
    /// Tasks of lower rank hold each job of this task up for at most this time.
    Blocked(usize, u64),
}

// The task and the time of a text as `high <= 8ms`.
fn bound_of(names: &[String], text: &str) -> Option<(usize, u64)> {
    let (name, time) = text.split_once("<=")?;
    let thread = thread_named(names, name.trim())?;
    let most = duration_of(time.trim()).ok()?;
    Some((usize::from(thread).saturating_sub(1), most))
}

// The bounds at a key, as texts.
fn read_bounds(
    names: Names,
    table: &Table,
    key: &'static str,
) -> Result<Vec<(usize, u64)>, TasksFault> {
    let mut bounds = Vec::new(names.alloc);
    for value in values_at(table, FaultPlace::Ask, key)? {
        match value.as_str().and_then(|text| bound_of(names.tasks, text)) {
            Some(bound) => bounds.push(bound)?,
            None => return Err(fault(FaultPlace::Ask, key, FaultKind::Value)),
        }
    }
    Ok(bounds)
}

// The questions of a table.
fn read_table(names: Names, table: &Table) -> Result<Vec<Ask>, TasksFault> {
    if !has_only_keys(table, &["meets_deadlines", "response", "blocked"]) {
        return Err(fault(FaultPlace::Ask, "", FaultKind::UnknownKey));
    }
    let mut asks = Vec::new(names.alloc);
    match field(table, "meets_deadlines") {
        Some(Value::Boolean(wanted)) => asks.push(Ask::MeetsDeadlines(*wanted))?,
        Some(_) => return Err(fault(FaultPlace::Ask, "meets_deadlines", FaultKind::Value)),
        None => {}
    }
    for (task, most) in read_bounds(names, table, "response")? {
        asks.push(Ask::Response(task, most))?;
    }
    for (task, most) in read_bounds(names, table, "blocked")? {
        asks.push(Ask::Blocked(task, most))?;
    }
    Ok(asks)
}

/// A text's questions about its run, by the table at `ask`: none without it. `UnknownKey` where it has another key;
/// `Value` where it is no table, a truth value is another value, or a bound isn't as `high <= 8ms` with a task's name.
pub fn read_asks(names: Names, value: Option<&Value>) -> Result<Vec<Ask>, TasksFault> {
    match value {
        Some(Value::Table(table)) => read_table(names, table),
        Some(_) => Err(fault(FaultPlace::Ask, "", FaultKind::Value)),
        None => Ok(Vec::new(names.alloc)),
    }
}
