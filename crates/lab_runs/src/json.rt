//! A schedule for programs: as JSON, as comma-separated values, and as lines with dates.
use crate::reports::{computed_in, name_of};
use crate::texts::Text;
use lab_schedules::{End, Event, Job, Schedule, Stretch, What, holds};
use lab_tasks::Ask;
use serde_json::Value;
use std::alloc::{AllocError, Global};

// A text in quotes, with escapes.
fn quoted(alloc: Global, text: &str) -> Result<String, AllocError> {
    Value::String(String::from_str(alloc, text)?).to_string(alloc)
}

// Appends a text in quotes, with escapes.
fn put_quoted(alloc: Global, json: &mut Text, text: &str) {
    match quoted(alloc, text) {
        Ok(quoted) => json.put(quoted.as_str()),
        Err(_) => json.cut(),
    }
}

// Appends a comma and a key.
fn put_key(json: &mut Text, key: &str) {
    json.put(", \"");
    json.put(key);
    json.put("\": ");
}

// Appends a key with a number.
fn put_number(json: &mut Text, key: &str, number: u64) {
    put_key(json, key);
    json.put_number(number);
}

// Appends a key with a number, or with `null`.
fn put_some(json: &mut Text, key: &str, number: Option<u64>) {
    match number {
        Some(number) => put_number(json, key, number),
        None => {
            put_key(json, key);
            json.put("null");
        }
    }
}

// Appends a comma where others stand before.
fn put_comma(json: &mut Text, is_first: bool) {
    if !is_first {
        json.put(", ");
    }
}

// A truth value's word.
fn truth(is_so: bool) -> &'static str {
    if is_so { "true" } else { "false" }
}

// Appends a job.
fn put_job(alloc: Global, json: &mut Text, schedule: &Schedule, job: &Job) {
    json.put("{\"task\": ");
    put_quoted(alloc, json, name_of(schedule, job.task));
    put_number(json, "job", job.job.saturating_add(1));
    put_number(json, "release", job.release);
    put_some(json, "start", job.start);
    put_some(json, "finish", job.finish);
    put_some(json, "response", job.response());
    put_some(json, "deadline", job.deadline);
    put_key(json, "missed");
    json.put(truth(job.late));
    put_number(json, "preempted", job.preempted);
    put_number(json, "blocked", job.blocked);
    json.put_char('}');
}

// Appends a time of computing.
fn put_stretch(alloc: Global, json: &mut Text, schedule: &Schedule, run: &Stretch) {
    json.put("{\"task\": ");
    put_quoted(alloc, json, name_of(schedule, run.task));
    put_number(json, "job", run.job.saturating_add(1));
    put_number(json, "from", run.from);
    put_number(json, "to", run.to);
    json.put_char('}');
}

// The word of an end.
fn end_word(end: End) -> &'static str {
    match end {
        End::Until => "until",
        End::Quiet => "quiet",
        End::Full => "full",
        End::Long => "long",
        End::Setup(_) => "setup",
        End::Attach(_) => "attach",
    }
}

// Appends all jobs.
fn put_jobs(alloc: Global, json: &mut Text, schedule: &Schedule, jobs: &[Job]) {
    json.put(", \"jobs\": [");
    for (i, job) in jobs.iter().enumerate() {
        put_comma(json, i == 0);
        put_job(alloc, json, schedule, job);
    }
    json.put("]");
}

// Appends all times of computing.
fn put_runs(alloc: Global, json: &mut Text, schedule: &Schedule) {
    json.put(", \"runs\": [");
    for (i, run) in schedule.runs.iter().enumerate() {
        put_comma(json, i == 0);
        put_stretch(alloc, json, schedule, run);
    }
    json.put("]");
}

// Appends a bound on a task's jobs.
fn put_bound(alloc: Global, json: &mut Text, schedule: &Schedule, key: &str, bound: (usize, u64)) {
    json.put(key);
    json.put("\", \"task\": ");
    put_quoted(alloc, json, name_of(schedule, bound.0));
    put_number(json, "most", bound.1);
}

// Appends what is asked, and whether it is so.
fn put_ask(alloc: Global, json: &mut Text, schedule: &Schedule, ask: Ask, is_so: bool) {
    json.put("{\"ask\": \"");
    match ask {
        Ask::MeetsDeadlines(wanted) => {
            json.put("meets_deadlines\", \"wanted\": ");
            json.put(truth(wanted));
        }
        Ask::Response(task, most) => put_bound(alloc, json, schedule, "response", (task, most)),
        Ask::Blocked(task, most) => put_bound(alloc, json, schedule, "blocked", (task, most)),
    }
    put_key(json, "holds");
    json.put(truth(is_so));
    json.put_char('}');
}

// Appends all that is asked, where something is.
fn put_asks(alloc: Global, json: &mut Text, schedule: &Schedule, jobs: &[Job]) {
    if schedule.rules.asks.is_empty() {
        return;
    }
    json.put(", \"asked\": [");
    for (i, ask) in schedule.rules.asks.iter().enumerate() {
        put_comma(json, i == 0);
        let is_so = holds(*ask, jobs, schedule.date);
        put_ask(alloc, json, schedule, *ask, is_so);
    }
    json.put("]");
}

// Appends why and when a run ended, and how long was computed.
fn put_end(json: &mut Text, schedule: &Schedule) {
    json.put("{\"end\": \"");
    json.put(end_word(schedule.end));
    json.put_char('"');
    put_number(json, "date", schedule.date);
    put_number(json, "computed", computed_in(schedule.runs.as_slice()));
}

/// A schedule as one line of JSON: why and when it ended, how long was computed, all jobs, all times of computing, and
/// what is asked with whether it is so. Times are in nanoseconds, jobs count from 1.
pub fn json_of(alloc: Global, schedule: &Schedule, jobs: &[Job]) -> Result<String, AllocError> {
    let mut json = Text::new(alloc);
    put_end(&mut json, schedule);
    put_jobs(alloc, &mut json, schedule, jobs);
    put_runs(alloc, &mut json, schedule);
    put_asks(alloc, &mut json, schedule, jobs);
    json.put("}\n");
    json.finish()
}

// Appends a number, where there is one, after a comma.
fn put_field(csv: &mut Text, number: Option<u64>) {
    csv.put_char(',');
    if let Some(number) = number {
        csv.put_number(number);
    }
}

// Appends a field of text, in quotes where it has a comma, a quote or a line feed.
fn put_text(csv: &mut Text, text: &str) {
    if !text.contains(',') && !text.contains('"') && !text.contains('\n') {
        csv.put(text);
        return;
    }
    csv.put_char('"');
    for c in text.chars() {
        if c == '"' {
            csv.put_char('"');
        }
        csv.put_char(c);
    }
    csv.put_char('"');
}

// Appends a job as a row.
fn put_row(csv: &mut Text, schedule: &Schedule, job: &Job) {
    put_text(csv, name_of(schedule, job.task));
    put_field(csv, Some(job.job.saturating_add(1)));
    put_field(csv, Some(job.release));
    put_field(csv, job.start);
    put_field(csv, job.finish);
    put_field(csv, job.response());
    put_field(csv, job.deadline);
    csv.put_char(',');
    csv.put(truth(job.late));
    put_field(csv, Some(job.preempted));
    put_field(csv, Some(job.blocked));
    csv.put_char('\n');
}

/// The jobs of a schedule as comma-separated values, with a row of names. Times are in nanoseconds, jobs count from 1.
pub fn csv_of(alloc: Global, schedule: &Schedule, jobs: &[Job]) -> Result<String, AllocError> {
    let mut csv = Text::new(alloc);
    csv.put("task,job,release,start,finish,response,deadline,missed,preempted,blocked\n");
    for job in jobs {
        put_row(&mut csv, schedule, job);
    }
    csv.finish()
}

// Appends what happens to an act. Acts count from 1.
fn put_act(text: &mut Text, before: &str, act: usize, after: &str) {
    text.put(before);
    text.put_number((act as u64).saturating_add(1));
    text.put(after);
}

// Appends what happens.
fn put_what(text: &mut Text, what: What) {
    match what {
        What::Starts => text.put("starts"),
        What::Finishes => text.put("finishes"),
        What::Begins(act) => put_act(text, "begins act ", act, ""),
        What::Does(act) => put_act(text, "has done act ", act, ""),
        What::TimedOut(act) => put_act(text, "waits no longer in act ", act, ""),
        What::Refused(act, refusal) => {
            put_act(text, "act ", act, " is refused: ");
            text.put(refusal.name());
        }
    }
}

// Appends an event as a line.
fn put_event(text: &mut Text, schedule: &Schedule, event: &Event) {
    text.put_number(event.date);
    text.put_char(' ');
    text.put(name_of(schedule, event.task));
    text.put_char(' ');
    text.put_number(event.job.saturating_add(1));
    text.put_char(' ');
    put_what(text, event.what);
    text.put_char('\n');
}

/// The events in jobs, a line each: the date in nanoseconds, the task, the number of the job, and what it does.
pub fn trace_of(alloc: Global, schedule: &Schedule) -> Result<String, AllocError> {
    let mut text = Text::new(alloc);
    for event in &schedule.events {
        put_event(&mut text, schedule, event);
    }
    text.finish()
}
