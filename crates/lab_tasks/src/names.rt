//! Tasks by their names, wherever a text names a thread.

use crate::faults::{FaultKind, FaultPlace, TasksFault, fault};
use crate::short_forms::put_value;
use evl_scenario::{field, number_of_text};
use std::alloc::{AllocError, Global};
use toml::{Table, Value};

/// Whether a key of a step names a thread.
pub fn names_thread(key: &str) -> bool {
    key == "who" || key == "thread" || key == "owner"
}

/// The thread of the task with this name.
pub fn thread_named(names: &[String], text: &str) -> Option<u16> {
    let place = names.iter().position(|name| name.as_str() == text)?;
    u16::try_from(place.saturating_add(1)).ok()
}

// Whether a text can be a name: it isn't empty, has no space and no equals sign, and is no number.
fn is_name(text: &str) -> bool {
    !text.is_empty()
        && number_of_text(text).is_none()
        && text.as_bytes().iter().all(|byte| *byte > b' '
            && *byte != b'='
            && *byte != b','
            && *byte != b':')
}

// The name of the task with this number, from 1: that at its key, or `T1`, ..
fn name_of(alloc: Global, table: &Table, number: usize) -> Result<String, TasksFault> {
    match field(table, "name") {
        Some(Value::String(name)) => {
            if is_name(name.as_str()) {
                Ok(String::from_str(alloc, name.as_str())?)
            } else {
                Err(fault(FaultPlace::Task(number), "name", FaultKind::Value))
            }
        }
        Some(_) => Err(fault(FaultPlace::Task(number), "name", FaultKind::Value)),
        None => Ok(format!(in alloc; "T{number}")?),
    }
}

/// The names of tasks. `Value` where one is no text, or no name; `SameName` where two have the same.
pub fn read_names(alloc: Global, tasks: &[Value]) -> Result<Vec<String>, TasksFault> {
    let mut names: Vec<String> = Vec::new(alloc);
    for (i, value) in tasks.iter().enumerate() {
        let number = i.saturating_add(1);
        let Some(table) = value.as_table() else {
            return Err(fault(FaultPlace::Task(number), "", FaultKind::Value));
        };
        let name = name_of(alloc, table, number)?;
        if thread_named(names.as_slice(), name.as_str()).is_some() {
            return Err(fault(FaultPlace::Task(number), "name", FaultKind::SameName));
        }
        names.push(name)?;
    }
    Ok(names)
}

// The thread of the task that a key of a table names.
fn thread_at(table: &Table, names: &[String], key: &str) -> Option<u16> {
    match field(table, key) {
        Some(Value::String(text)) => thread_named(names, text.as_str()),
        _ => None,
    }
}

/// Puts the numbers of threads in the places of tasks' names, at the keys of a step that name threads.
pub fn number_threads(
    alloc: Global,
    table: &mut Table,
    names: &[String],
) -> Result<(), AllocError> {
    for key in ["who", "thread", "owner"] {
        if let Some(thread) = thread_at(table, names, key) {
            put_value(alloc, table, key, Value::Integer(i64::from(thread)))?;
        }
    }
    Ok(())
}
