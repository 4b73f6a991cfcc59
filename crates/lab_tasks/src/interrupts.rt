//! The interrupts of a task set.

use crate::durations::duration_from;
use crate::faults::{FaultKind, FaultPlace, TasksFault, fault};
use crate::sets::Interrupt;
use crate::tasks::{duration_at, value_at, values_at};
use evl_base::LineNo;
use evl_scenario::{field, has_only_keys};
use std::alloc::Global;
use toml::{Table, Value};

// More dates are refused.
const MOST_DATES: u64 = 1_000_000;

// The interrupts of one table.
#[derive(Clone, Copy)]
struct Series {
    line: LineNo,
    place: FaultPlace,
}

// Adds an interrupt at a date.
fn add_one(dates: &mut Vec<Interrupt>, of: &Series, date: u64) -> Result<(), TasksFault> {
    if dates.len() as u64 >= MOST_DATES {
        return Err(fault(of.place, "times", FaultKind::TooMany));
    }
    dates.push(Interrupt {
        date,
        line: of.line,
    })?;
    Ok(())
}

// Adds an interrupt at each of these dates.
fn add_listed(dates: &mut Vec<Interrupt>, of: &Series, values: &[Value]) -> Result<(), TasksFault> {
    for value in values {
        match duration_from(value) {
            Ok(date) => add_one(dates, of, date)?,
            Err(kind) => return Err(fault(of.place, "at", kind)),
        }
    }
    Ok(())
}

// Adds so many interrupts, the first at this date, and one after each period.
fn add_series(
    dates: &mut Vec<Interrupt>,
    of: &Series,
    at: u64,
    every: u64,
    times: u64,
) -> Result<(), TasksFault> {
    if times > MOST_DATES {
        return Err(fault(of.place, "times", FaultKind::TooMany));
    }
    let mut date = Some(at);
    for _ in 0..times {
        let Some(now) = date else {
            return Err(fault(of.place, "times", FaultKind::Value));
        };
        add_one(dates, of, now)?;
        date = now.checked_add(every);
    }
    Ok(())
}

// How often an interrupt comes and how long after one another: once, or as its table says.
fn series_of(table: &Table, place: FaultPlace) -> Result<(u64, u64), TasksFault> {
    let every = duration_at(table, place, "every")?;
    let times = value_at::<u64>(table, place, "times")?;
    match (every, times) {
        (Some(every), Some(times)) => Ok((every, times)),
        (Some(_), None) => Err(fault(place, "times", FaultKind::Missing)),
        (None, Some(_)) => Err(fault(place, "times", FaultKind::NeedsEvery)),
        (None, None) => Ok((0, 1)),
    }
}

// Adds the interrupts that a table asks for, by the value of its key `at`.
fn add_dates(dates: &mut Vec<Interrupt>, of: &Series, table: &Table) -> Result<(), TasksFault> {
    let (every, times) = series_of(table, of.place)?;
    match field(table, "at") {
        Some(Value::Array(values)) => {
            if field(table, "every").is_some() {
                return Err(fault(of.place, "every", FaultKind::UnknownKey));
            }
            add_listed(dates, of, values.as_slice())
        }
        Some(value) => match duration_from(value) {
            Ok(at) => add_series(dates, of, at, every, times),
            Err(kind) => Err(fault(of.place, "at", kind)),
        },
        None => Err(fault(of.place, "at", FaultKind::Missing)),
    }
}

// Whether the name of a table, where it has one, is a text.
fn is_named(table: &Table) -> bool {
    field(table, "name").is_none_or(|name| name.as_str().is_some())
}

// Adds the interrupts that a table asks for.
fn add_table(
    dates: &mut Vec<Interrupt>,
    table: &Table,
    place: FaultPlace,
) -> Result<(), TasksFault> {
    if !has_only_keys(table, &["name", "line", "at", "every", "times"]) {
        return Err(fault(place, "", FaultKind::UnknownKey));
    }
    let Some(line) = value_at::<u16>(table, place, "line")? else {
        return Err(fault(place, "line", FaultKind::Missing));
    };
    if !is_named(table) {
        return Err(fault(place, "name", FaultKind::Value));
    }
    let of = Series {
        line: LineNo(line),
        place,
    };
    add_dates(dates, &of, table)
}

// Adds the interrupts that all tables ask for.
fn add_tables(dates: &mut Vec<Interrupt>, values: &[Value]) -> Result<(), TasksFault> {
    for (i, value) in values.iter().enumerate() {
        let place = FaultPlace::Interrupt(i.saturating_add(1));
        match value.as_table() {
            Some(table) => add_table(dates, table, place)?,
            None => return Err(fault(place, "", FaultKind::Value)),
        }
    }
    dates.sort_by_key(|interrupt| interrupt.date)?;
    Ok(())
}

/// The interrupts that a document's tables ask for, by their dates, and at one date in the text's order. `Missing` without a
/// line or a date, or with `every` and no `times`; `NeedsEvery` with `times` alone; `TooMany` above 1,000,000 dates;
/// `UnknownKey`, `Value` and `NoUnit` as elsewhere, `Value` also where a date is past 2^64 - 1.
pub fn read_interrupts(alloc: Global, document: &Table) -> Result<Vec<Interrupt>, TasksFault> {
    let values = values_at(document, FaultPlace::Head, "interrupt")?;
    let mut dates = Vec::new(alloc);
    match add_tables(&mut dates, values) {
        Ok(()) => Ok(dates),
        Err(fault) => Err(fault),
    }
}
