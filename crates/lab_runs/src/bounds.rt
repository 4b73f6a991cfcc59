//! How long jobs take at most by theory, beside what they took.
use crate::reports::name_of;
use crate::tables::Table;
use crate::texts::Text;
use evl_base::MutexKind;
use lab_schedules::{Bound, Schedule, Uncovered, bound_of, uncovered_in};
use lab_tasks::Task;
use std::alloc::{AllocError, Global};

/// The ground that a set runs over: the mutexes of its board, and whether it has a setup.
#[derive(Clone, Copy)]
pub struct Ground<'a> {
    pub kinds: &'a [MutexKind],
    pub is_set_up: bool,
}

/// The analysis of a set's response times: a bound for each task, or why it doesn't cover the set.
#[derive(Drop)]
pub enum Analysis {
    Bounds(Vec<Bound>),
    Uncovered(Uncovered),
}

// The bound of each task.
fn bounds_of(alloc: Global, kinds: &[MutexKind], tasks: &[Task]) -> Result<Vec<Bound>, AllocError> {
    let mut bounds = Vec::new(alloc);
    for (place, is) in tasks.iter().enumerate() {
        bounds.push(bound_of(alloc, kinds, tasks, place, is)?)?;
    }
    Ok(bounds)
}

/// The analysis of a schedule's tasks.
pub fn analysis_of(
    alloc: Global,
    schedule: &Schedule,
    ground: Ground<'_>,
) -> Result<Analysis, AllocError> {
    match uncovered_in(ground.is_set_up, ground.kinds, &schedule.rules) {
        Some(why) => Ok(Analysis::Uncovered(why)),
        None => {
            let tasks = schedule.rules.tasks.as_slice();
            Ok(Analysis::Bounds(bounds_of(alloc, ground.kinds, tasks)?))
        }
    }
}

impl Analysis {
    /// Appends the bound of a task, counted from 0, to its row; a bar where there is none.
    pub fn put_bound(&self, table: &mut Table, task: usize) {
        let Analysis::Bounds(bounds) = self else {
            table.put_text("-");
            return;
        };
        match bounds.get(task) {
            Some(Bound::Within(time)) => table.put_time(*time),
            Some(Bound::Longer) => table.put_text("> period"),
            _ => table.put_text("?"),
        }
    }

    /// Appends a line: by which analysis the bounds are, or why there is none.
    pub fn put_source(&self, text: &mut Text, schedule: &Schedule) {
        match self {
            Analysis::Bounds(_) => text.put(
                "bounds: response time analysis (Joseph and Pandya 1986; sections of lower ranks: Sha, Rajkumar and Lehoczky 1990)",
            ),
            Analysis::Uncovered(why) => {
                text.put("no bounds: ");
                put_why(text, schedule, *why);
            }
        }
        text.put_char('\n');
    }
}

// Appends what a task does for which the analysis doesn't cover it.
fn put_task(text: &mut Text, schedule: &Schedule, task: usize, what: &str) {
    text.put(name_of(schedule, task));
    text.put_char(' ');
    text.put(what);
}

// Appends why the analysis doesn't cover a set.
fn put_why(text: &mut Text, schedule: &Schedule, why: Uncovered) {
    match why {
        Uncovered::Setup => text.put("there is a setup"),
        Uncovered::Interrupts => text.put("there are interrupts"),
        Uncovered::Inband(task) => put_task(text, schedule, task, "is in-band"),
        Uncovered::Policy(task) => put_task(text, schedule, task, "has another policy than fifo"),
        Uncovered::Once(task) => put_task(text, schedule, task, "has no period (every)"),
        Uncovered::Acts(task) => put_task(
            text,
            schedule,
            task,
            "does something else than compute, lock one mutex at a time and unlock it",
        ),
        Uncovered::Ceiling(task) => put_task(
            text,
            schedule,
            task,
            "locks a mutex whose ceiling is lower than its priority",
        ),
    }
}
