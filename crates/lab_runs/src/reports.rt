//! The report of a schedule: a line for each job and each task, and the processor's load.
use crate::asks::put_answers;
use crate::bounds::Analysis;
use crate::summaries::{Summary, summary_of};
use crate::tables::Table;
use crate::texts::Text;
use crate::times::{put_share, put_time};
use lab_schedules::{End, Job, Schedule, Stretch};
use std::alloc::{AllocError, Global};

// Whether a job met its deadline; a bar where that isn't known, or it has none.
fn deadline_word(job: &Job) -> &'static str {
    if job.late {
        return "missed";
    }
    match (job.deadline, job.finish) {
        (Some(_), Some(_)) => "met",
        _ => "-",
    }
}

/// The name of a task, counted from 0; `?` where there is no such task.
pub fn name_of(schedule: &Schedule, task: usize) -> &str {
    match schedule.rules.tasks.get(task) {
        Some(task) => task.name.as_str(),
        None => "?",
    }
}

// Appends what a job is, and its dates, to its row. Its number counts from 1.
fn put_dates(table: &mut Table, schedule: &Schedule, job: &Job) {
    table.put_text(name_of(schedule, job.task));
    table.put_count(job.job.saturating_add(1));
    table.put_time(job.release);
    table.put_date(job.start);
    table.put_date(job.finish);
}

// Appends the row of a job.
fn put_job(table: &mut Table, schedule: &Schedule, job: &Job) {
    put_dates(table, schedule, job);
    table.put_date(job.response());
    table.put_text(deadline_word(job));
    table.put_count(job.preempted);
    table.put_time(job.blocked);
    table.end_row();
}

// Appends the table of jobs.
fn put_jobs(alloc: Global, text: &mut Text, schedule: &Schedule, jobs: &[Job]) {
    let heads = [
        "job of",
        "number",
        "release",
        "start",
        "finish",
        "response",
        "deadline",
        "preempted",
        "blocked",
    ];
    let mut table = Table::with_heads(alloc, &heads);
    table.end_row();
    for job in jobs {
        put_job(&mut table, schedule, job);
    }
    table.write(text);
}

// Appends the responses of a task; bars where no job is finished.
fn put_responses(table: &mut Table, of: &Summary) {
    let is_known = of.finished > 0;
    table.put_date(is_known.then_some(of.least));
    table.put_date(is_known.then_some(of.mean()));
    table.put_date(is_known.then_some(of.greatest));
}

// Appends a task's row without its end.
fn put_task(table: &mut Table, schedule: &Schedule, task: usize, of: &Summary) {
    table.put_text(name_of(schedule, task));
    table.put_count(of.jobs);
    table.put_count(of.finished);
    table.put_count(of.late);
    put_responses(table, of);
    table.put_time(of.blocked);
    table.put_share(of.computed, schedule.date);
}

// The heads of the table of tasks.
const TASK_HEADS: [&str; 9] = [
    "task",
    "jobs",
    "finished",
    "missed",
    "least",
    "mean",
    "greatest",
    "blocked",
    "processor",
];

// Appends the table of tasks, with their bounds where these are asked for.
fn put_tasks(
    alloc: Global,
    text: &mut Text,
    schedule: &Schedule,
    jobs: &[Job],
    analysis: Option<&Analysis>,
) {
    let mut table = Table::with_heads(alloc, &TASK_HEADS);
    if analysis.is_some() {
        table.put_text("bound");
    }
    table.end_row();
    for task in 0..schedule.rules.tasks.len() {
        let of = summary_of(jobs, schedule.runs.as_slice(), task);
        put_task(&mut table, schedule, task, &of);
        if let Some(analysis) = analysis {
            analysis.put_bound(&mut table, task);
        }
        table.end_row();
    }
    table.write(text);
}

/// Why a run ended, in words.
pub fn end_words(end: End) -> &'static str {
    match end {
        End::Until => "the end that the text asks for",
        End::Quiet => "nothing comes any more",
        End::Full => "CUT OFF: the history has as many entries as its limit",
        End::Long => "CUT OFF: more was done than a run may do; does a task never let time pass?",
        End::Setup(_) => "a step of the setup is refused",
        End::Attach(_) => "a task can't attach",
    }
}

/// How long the processor has computed.
pub fn computed_in(runs: &[Stretch]) -> u64 {
    let mut sum: u64 = 0;
    for run in runs {
        sum = sum.saturating_add(run.to.saturating_sub(run.from));
    }
    sum
}

// Appends the line of the load.
fn put_load(text: &mut Text, schedule: &Schedule) {
    text.put("load ");
    put_share(text, computed_in(schedule.runs.as_slice()), schedule.date);
    text.put(" of ");
    put_time(text, schedule.date);
    text.put("; ");
    text.put(end_words(schedule.end));
    text.put_char('\n');
}

/// The report of a schedule and its jobs, with bounds where these are asked for, and what came of all that is asked.
pub fn report_of(
    alloc: Global,
    schedule: &Schedule,
    jobs: &[Job],
    analysis: Option<&Analysis>,
) -> Result<String, AllocError> {
    let mut text = Text::new(alloc);
    put_jobs(alloc, &mut text, schedule, jobs);
    text.put_char('\n');
    put_tasks(alloc, &mut text, schedule, jobs, analysis);
    text.put_char('\n');
    if let Some(analysis) = analysis {
        analysis.put_source(&mut text, schedule);
    }
    put_load(&mut text, schedule);
    put_answers(&mut text, schedule, jobs);
    text.finish()
}
