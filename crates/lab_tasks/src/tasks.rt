//! The tasks of a set.

use crate::acts::{Act, Names, read_acts};
use crate::durations::duration_from;
use crate::faults::{FaultKind, FaultPlace, TasksFault, fault};
use crate::sets::Task;
use evl_base::{Policy, Stage};
use evl_scenario::{FromToml, field, has_only_keys};
use std::alloc::AllocError;
use toml::{Table, Value};

/// The duration at a key, if there is one. `NoUnit` or `Value` where something else is there.
pub fn duration_at(
    table: &Table,
    place: FaultPlace,
    key: &'static str,
) -> Result<Option<u64>, TasksFault> {
    match field(table, key) {
        Some(value) => match duration_from(value) {
            Ok(time) => Ok(Some(time)),
            Err(kind) => Err(fault(place, key, kind)),
        },
        None => Ok(None),
    }
}

/// The value at a key, if there is one. `Value` where it isn't such a value.
pub fn value_at<T: FromToml + Drop>(
    table: &Table,
    place: FaultPlace,
    key: &'static str,
) -> Result<Option<T>, TasksFault> {
    match field(table, key) {
        Some(value) => match T::from_toml(value) {
            Some(read) => Ok(Some(read)),
            None => Err(fault(place, key, FaultKind::Value)),
        },
        None => Ok(None),
    }
}

/// The list at a key, which is empty without the key. `Value` where it is no list.
pub fn values_at<'a>(
    table: &'a Table,
    place: FaultPlace,
    key: &'static str,
) -> Result<&'a [Value], TasksFault> {
    match field(table, key) {
        Some(Value::Array(values)) => Ok(values.as_slice()),
        Some(_) => Err(fault(place, key, FaultKind::Value)),
        None => Ok(&[]),
    }
}

// How many jobs a task has: those that the table says, or one, or with a time from one to the next no end of them.
fn jobs_of(
    table: &Table,
    place: FaultPlace,
    every: Option<u64>,
) -> Result<Option<u64>, TasksFault> {
    match value_at::<u64>(table, place, "jobs")? {
        Some(jobs) => {
            if every.is_some() {
                Ok(Some(jobs))
            } else {
                Err(fault(place, "jobs", FaultKind::NeedsEvery))
            }
        }
        None => Ok(if every.is_some() { None } else { Some(1) }),
    }
}

// The time from one job to the next, which isn't 0.
fn every_of(table: &Table, place: FaultPlace) -> Result<Option<u64>, TasksFault> {
    match duration_at(table, place, "every")? {
        Some(0) => Err(fault(place, "every", FaultKind::Value)),
        every => Ok(every),
    }
}

// The policy at its key; where ranks follow from times there is no such key, and it is the lowest.
fn policy_of(table: &Table, place: FaultPlace, is_ranked: bool) -> Result<Policy, TasksFault> {
    match value_at::<Policy>(table, place, "policy")? {
        Some(policy) => {
            if is_ranked {
                Err(fault(place, "policy", FaultKind::UnknownKey))
            } else {
                Ok(policy)
            }
        }
        None => {
            if is_ranked {
                Ok(Policy::Fifo(1))
            } else {
                Err(fault(place, "policy", FaultKind::Missing))
            }
        }
    }
}

// The acts of the task in each job.
fn does_of(names: Names, table: &Table, number: usize) -> Result<Vec<Act>, TasksFault> {
    let place = FaultPlace::Task(number);
    if field(table, "does").is_none() {
        return Err(fault(place, "does", FaultKind::Missing));
    }
    read_acts(names, values_at(table, place, "does")?, number)
}

// The name of the task with this number, from 1.
fn copied_name(names: Names, number: usize) -> Result<String, AllocError> {
    match names.tasks.get(number.saturating_sub(1)) {
        Some(name) => String::from_str(names.alloc, name.as_str()),
        None => Ok(String::new(names.alloc)),
    }
}

/// The task that a table is, the one with this number, from 1. `UnknownKey` where it has another key, or a policy where
/// ranks follow from times; `Missing` without acts or a policy; `NeedsEvery` where it says how many jobs and not how
/// often; `Value` and `NoUnit` where a key has a value that it can't have; and what `read_acts` refuses.
pub fn read_task(
    names: Names,
    table: &Table,
    number: usize,
    is_ranked: bool,
) -> Result<Task, TasksFault> {
    let place = FaultPlace::Task(number);
    let known = [
        "name", "policy", "stage", "at", "every", "jobs", "by", "does",
    ];
    if !has_only_keys(table, &known) {
        return Err(fault(place, "", FaultKind::UnknownKey));
    }
    let every = every_of(table, place)?;
    let by = duration_at(table, place, "by")?;
    Ok(Task {
        policy: policy_of(table, place, is_ranked)?,
        stage: value_at::<Stage>(table, place, "stage")?.unwrap_or(Stage::Oob),
        at: duration_at(table, place, "at")?.unwrap_or(0),
        every,
        jobs: jobs_of(table, place, every)?,
        by: by.or(every),
        name: copied_name(names, number)?,
        does: does_of(names, table, number)?,
    })
}
