//! Task sets, read from text.

use crate::acts::{Names, writes_into};
use crate::asks::read_asks;
use crate::durations::duration_from;
use crate::faults::{FaultKind, FaultPlace, TasksFault, fault};
use crate::hyperperiods::hyperperiod_of;
use crate::interrupts::read_interrupts;
use crate::names::{number_threads, read_names};
use crate::ranks::{Ranks, rank_tasks, ranks_named};
use crate::sets::{Task, TaskSet, idle_of};
use crate::tasks::{read_task, value_at, values_at};
use evl_base::{Board, Spares, XbufId};
use evl_scenario::{Step, field, has_only_keys, is_limit_in_range, read_elements, read_step_table};
use std::alloc::Global;
use toml::{Table, Value};

// A longer text is none.
const MOST_BYTES: usize = 1_048_576;

// The most tasks: T0 is the hardware's.
const MOST_TASKS: usize = 255;

// The line of a byte, from 1.
fn line_at(text: &str, place: usize) -> usize {
    let mut line: usize = 1;
    for (i, byte) in text.as_bytes().iter().enumerate() {
        if i < place && *byte == b'\n' {
            line = line.saturating_add(1);
        }
    }
    line
}

// The fault of a text that is no document.
fn not_toml(line: Option<usize>) -> TasksFault {
    fault(FaultPlace::Document, "", FaultKind::NotToml(line))
}

// The document that a text is.
fn document_of(alloc: Global, bytes: &[u8]) -> Result<Table, TasksFault> {
    if bytes.len() > MOST_BYTES {
        return Err(not_toml(None));
    }
    let Ok(text) = str::from_utf8(bytes) else {
        return Err(not_toml(None));
    };
    match toml::table_from_str(alloc, text) {
        Ok(table) => Ok(table),
        Err(error) => match error.span() {
            Some(span) => Err(not_toml(Some(line_at(text, span.start)))),
            None => Err(fault(FaultPlace::Document, "", FaultKind::Memory)),
        },
    }
}

// The board that a table is, with so many tasks: a thread more, and a cross-buffer more.
fn board_in(table: &Table, tasks: usize) -> Option<Board> {
    if !has_only_keys(table, &["sems", "flags", "xbufs", "mutexes", "groups"]) {
        return None;
    }
    let mut board = read_elements(table, u16::try_from(tasks.saturating_add(1)).ok()?)?;
    if board.xbufs.try_push((1, 1)).is_err() {
        return None;
    }
    Some(board)
}

// The board of a document.
fn read_board(alloc: Global, table: &Table, tasks: usize) -> Result<Board, TasksFault> {
    let none = Table::new(alloc);
    let read = match field(table, "board") {
        Some(value) => match value.as_table() {
            Some(elements) => board_in(elements, tasks),
            None => None,
        },
        None => board_in(&none, tasks),
    };
    match read {
        Some(board) => Ok(board),
        None => Err(fault(FaultPlace::Board, "", FaultKind::NotABoard)),
    }
}

// The step that a table is, with the names of tasks in it.
fn read_set_up(names: Names, value: &mut Value) -> Result<Step, FaultKind> {
    let Some(table) = value.as_table_mut() else {
        return Err(FaultKind::NotAStep);
    };
    let mut spares = Spares::new(names.alloc, names.alloc);
    if number_threads(names.alloc, table, names.tasks).is_err() || spares.keep(1).is_err() {
        return Err(FaultKind::Memory);
    }
    match read_step_table(table, &mut spares) {
        Some(step) => {
            if writes_into(&step.call, names.idle) {
                Err(FaultKind::WritesIdle)
            } else {
                Ok(step)
            }
        }
        None => Err(FaultKind::NotAStep),
    }
}

// The steps of a setup.
fn read_setup(names: Names, value: Option<Value>) -> Result<Vec<Step>, TasksFault> {
    let mut steps = Vec::new(names.alloc);
    let values = match value {
        Some(Value::Array(values)) => values,
        Some(_) => return Err(fault(FaultPlace::Head, "setup", FaultKind::Value)),
        None => return Ok(steps),
    };
    let mut number: usize = 0;
    for value in values {
        let mut value = value;
        number = number.saturating_add(1);
        match read_set_up(names, &mut value) {
            Ok(step) => steps.push(step)?,
            Err(kind) => return Err(fault(FaultPlace::Setup(number), "", kind)),
        }
    }
    Ok(steps)
}

// The tasks, with ranks that follow from their times where the text asks for that.
fn read_tasks_of(
    names: Names,
    values: &[Value],
    ranks: Option<Ranks>,
) -> Result<Vec<Task>, TasksFault> {
    let mut tasks = Vec::new(names.alloc);
    for (i, value) in values.iter().enumerate() {
        let number = i.saturating_add(1);
        let Some(table) = value.as_table() else {
            return Err(fault(FaultPlace::Task(number), "", FaultKind::Value));
        };
        tasks.push(read_task(names, table, number, ranks.is_some())?)?;
    }
    if let Some(ranks) = ranks {
        rank_tasks(&mut tasks, ranks)?;
    }
    Ok(tasks)
}

// How ranks follow from times, if they do.
fn read_ranks(table: &Table) -> Result<Option<Ranks>, TasksFault> {
    match field(table, "ranks") {
        Some(Value::String(text)) => match ranks_named(text.as_str()) {
            Some(ranks) => Ok(Some(ranks)),
            None => Err(fault(FaultPlace::Head, "ranks", FaultKind::Value)),
        },
        Some(_) => Err(fault(FaultPlace::Head, "ranks", FaultKind::Value)),
        None => Ok(None),
    }
}

// The limit of the history.
fn read_limit(table: &Table) -> Result<u32, TasksFault> {
    let limit = value_at::<u32>(table, FaultPlace::Head, "limit")?.unwrap_or(1_000_000);
    if is_limit_in_range(limit) {
        Ok(limit)
    } else {
        Err(fault(FaultPlace::Head, "limit", FaultKind::Value))
    }
}

// Whether a task has jobs without an end.
fn is_endless(task: &Task) -> bool {
    task.every.is_some() && task.jobs.is_none()
}

// The end of the run: a duration, or the time after which the tasks' periods meet again.
fn read_until(table: &Table, tasks: &[Task]) -> Result<Option<u64>, TasksFault> {
    match field(table, "until") {
        Some(Value::String(text)) if text.as_str() == "hyperperiod" => {
            Ok(Some(hyperperiod_of(tasks)?))
        }
        Some(value) => match duration_from(value) {
            Ok(until) => Ok(Some(until)),
            Err(kind) => Err(fault(FaultPlace::Head, "until", kind)),
        },
        None => match tasks.iter().position(|task| is_endless(task)) {
            Some(i) => Err(fault(
                FaultPlace::Task(i.saturating_add(1)),
                "every",
                FaultKind::NoHorizon,
            )),
            None => Ok(None),
        },
    }
}

// Fills a set in, whose tasks and setup are these.
fn fill(
    set: &mut TaskSet,
    names: Names,
    table: &Table,
    values: &[Value],
    setup: Option<Value>,
) -> Result<(), TasksFault> {
    let rules = &mut set.rules;
    rules.tasks = read_tasks_of(names, values, read_ranks(table)?)?;
    rules.interrupts = read_interrupts(names.alloc, table)?;
    set.setup = read_setup(names, setup)?;
    rules.until = read_until(table, rules.tasks.as_slice())?;
    rules.asks = read_asks(names, field(table, "ask"))?;
    Ok(())
}

// The set of a document over a board.
fn read_set(
    alloc: Global,
    table: &Table,
    board: Board,
    limit: u32,
    setup: Option<Value>,
) -> Result<TaskSet, TasksFault> {
    let values = values_at(table, FaultPlace::Head, "task")?;
    let tasks = read_names(alloc, values)?;
    let names = Names {
        alloc,
        tasks: tasks.as_slice(),
        idle: idle_of(&board),
    };
    let mut set = TaskSet::empty(alloc, board, limit);
    match fill(&mut set, names, table, values, setup) {
        Ok(()) => Ok(set),
        Err(fault) => Err(fault),
    }
}

// The task set of a document whose setup is this.
fn read_document(
    alloc: Global,
    table: &Table,
    setup: Option<Value>,
) -> Result<TaskSet, TasksFault> {
    let known = [
        "limit",
        "until",
        "ranks",
        "board",
        "task",
        "interrupt",
        "ask",
    ];
    if !has_only_keys(table, &known) {
        return Err(fault(FaultPlace::Head, "", FaultKind::UnknownKey));
    }
    let limit = read_limit(table)?;
    let _ = read_ranks(table)?;
    let count = values_at(table, FaultPlace::Head, "task")?.len();
    if count > MOST_TASKS {
        return Err(fault(FaultPlace::Head, "task", FaultKind::TooMany));
    }
    let board = read_board(alloc, table, count)?;
    read_set(alloc, table, board, limit, setup)
}

/// The task set that a text is. `NotToml` where it is no TOML document in UTF-8 of at most 1,048,576 bytes; `TooMany` where
/// it has more than 255 tasks; `NotABoard` and `NotAStep` where its board or a step of its setup isn't one; `NoHorizon`
/// where jobs have no end and the run has none; `LongHyperperiod` above 10 s; else what its parts are refused for.
pub fn read_tasks(alloc: Global, bytes: &[u8]) -> Result<TaskSet, TasksFault> {
    let mut table = document_of(alloc, bytes)?;
    let setup = table.remove("setup");
    read_document(alloc, &table, setup)
}
