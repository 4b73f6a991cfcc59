//! The questions about a run, and whether they are so, in words.
use crate::reports::name_of;
use crate::texts::Text;
use crate::times::put_time;
use lab_schedules::{Job, Schedule, first_against, holds};
use lab_tasks::Ask;

// Appends a bound, as `response high <= 8ms`.
fn put_bound(text: &mut Text, schedule: &Schedule, key: &str, bound: (usize, u64)) {
    text.put(key);
    text.put_char(' ');
    text.put(name_of(schedule, bound.0));
    text.put(" <= ");
    put_time(text, bound.1);
}

// Appends what is asked.
fn put_asked(text: &mut Text, schedule: &Schedule, ask: Ask) {
    match ask {
        Ask::MeetsDeadlines(true) => text.put("meets_deadlines = true"),
        Ask::MeetsDeadlines(false) => text.put("meets_deadlines = false"),
        Ask::Response(task, most) => put_bound(text, schedule, "response", (task, most)),
        Ask::Blocked(task, most) => put_bound(text, schedule, "blocked", (task, most)),
    }
}

// Appends what the first job does that is against what is asked.
fn put_against(text: &mut Text, schedule: &Schedule, ask: Ask, job: &Job) {
    text.put(", job ");
    text.put_number(job.job.saturating_add(1));
    text.put(" of ");
    text.put(name_of(schedule, job.task));
    match ask {
        Ask::MeetsDeadlines(_) => text.put(" misses its deadline"),
        Ask::Response(_, _) => {
            text.put(" takes ");
            put_time(text, job.lasts(schedule.date));
        }
        Ask::Blocked(_, _) => {
            text.put(" is blocked for ");
            put_time(text, job.blocked);
        }
    }
}

// Appends a line: what is asked, whether it is so, and the first job that is against it.
fn put_answer(text: &mut Text, schedule: &Schedule, jobs: &[Job], ask: Ask, is_so: bool) {
    text.put("asked: ");
    put_asked(text, schedule, ask);
    text.put(if is_so { ": yes" } else { ": no" });
    if let Some(job) = first_against(ask, jobs, schedule.date) {
        put_against(text, schedule, ask, job);
    }
    text.put_char('\n');
}

/// Appends a line for all that is asked of a schedule.
pub fn put_answers(text: &mut Text, schedule: &Schedule, jobs: &[Job]) {
    for ask in &schedule.rules.asks {
        let is_so = holds(*ask, jobs, schedule.date);
        put_answer(text, schedule, jobs, *ask, is_so);
    }
}

/// Appends a line, with the name of the text, for each thing that is asked and isn't so.
pub fn put_failures(text: &mut Text, name: &str, schedule: &Schedule, jobs: &[Job]) {
    for ask in &schedule.rules.asks {
        if !holds(*ask, jobs, schedule.date) {
            text.put(name);
            text.put(": ");
            put_answer(text, schedule, jobs, *ask, false);
        }
    }
}
