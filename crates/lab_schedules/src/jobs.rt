//! The result of each job, by what happened in it and when its task computed.
ghost use Rattle.std.specs.Prelude.{◌≡◌, ◌++◌, ◌-◌, IfOk, None, OnOk, false, filter, option_map};
ghost use Rattle.std.specs.List.{find};
ghost use Rattle.lab_schedules.specs.Jobs.{blocked_in, computes, deadline_of, finish_of, finishes, is_asleep, is_finish, is_gap, is_late, is_lower, is_next_there, is_start, job_of, jobs_in, jobs_of, leaves, leaves_at, of_job, of_task, overlap, past_of, preemptions, rank_at, rank_of, released, rests, runs_for, runs_lower, share, sleeps, start_of, starts};

use crate::events::{Event, Stretch, What};
use evl_base::{Policy, Stage};
use lab_tasks::{Act, Task};
use std::alloc::{AllocError, Global};
use std::marker::Model;

/// A job that has started, or was released and has not: its dates, and how it was held up.
#[derive(Clone, Copy, PartialEq, Eq)]
pub struct Job {
    /// Its task, counted from 0.
    pub task: usize,
    /// Its number, counted from 0.
    pub job: u64,
    pub release: u64,
    pub start: Option<u64>,
    pub finish: Option<u64>,
    /// When it was to be finished, if its task says so.
    pub deadline: Option<u64>,
    /// Whether it was finished later than at its deadline, or wasn't by the end, which came later than that.
    pub late: bool,
    /// How often it lost the processor without an act of its own.
    pub preempted: u64,
    /// How long tasks of lower rank computed between its release and its end, while it didn't sleep.
    pub blocked: u64,
}

/// One task's events and stretches, those of tasks of lower rank, and when the run ended.
#[derive(Drop)]
pub struct Past {
    pub(crate) task: usize,
    pub(crate) events: Vec<Event>,
    pub(crate) runs: Vec<Stretch>,
    pub(crate) lower: Vec<Stretch>,
    pub(crate) end: u64,
}

impl Model for Past {
    ghost use Rattle.std.specs.List.{find};
    ghost use Rattle.lab_schedules.specs.Jobs.{PastOf};

    ghost Value = { PastOf };

    ghost view = { λ p. record { task = p.task; events = p.events.items; runs = p.runs.items; lower = p.lower.items; end = p.end } };
}

impl Job {
    /// From its release to its end, where it was finished.
    pub fn response(&self) -> Option<u64>
        ensures { result ≡ option_map (λ date. date - self.now.release) self.now.finish }
    {
        match self.finish {
            Some(date) => Some(date.saturating_sub(self.release)),
            None => None,
        }
    }
}

/// The rank that a task has by itself: out-of-band above in-band, and by its policy.
pub(crate) fn rank_of(is: &Task) -> u16
    ensures { result ≡ rank_of is.now }
{
    if is.stage == Stage::Inband {
        return 0;
    }
    match is.policy {
        Policy::Fifo(prio) => 513 + u16::from(prio),
        Policy::Rr { prio, .. } => 513 + u16::from(prio),
        Policy::Quota { prio, .. } => 257 + u16::from(prio),
        Policy::Weak(prio) => 1 + u16::from(prio),
    }
}

// Whether the task of a number has a lower rank.
fn is_lower(tasks: &[Task], rank: u16, task: usize) -> bool
    ensures { result ≡ is_lower tasks.now rank task }
{
    match tasks.get(task) {
        Some(other) => rank_of(other) < rank,
        None => false,
    }
}

// The rank of the task of a number.
fn rank_at(tasks: &[Task], task: usize) -> u16
    ensures { result ≡ rank_at tasks.now task }
{
    match tasks.get(task) {
        Some(is) => rank_of(is),
        None => 0,
    }
}

// The events of a task.
fn events_of(alloc: Global, events: &[Event], task: usize) -> Result<Vec<Event>, AllocError>
    ensures { IfOk result (λ own. own.items ≡ filter (of_task task) events.now) }
{
    let mut own = Vec::new(alloc);
    for event in events {
        if event.task == task {
            own.push(*event)?;
        }
    }
    Ok(own)
}

// The stretches of a task.
fn runs_of(alloc: Global, runs: &[Stretch], task: usize) -> Result<Vec<Stretch>, AllocError>
    ensures { IfOk result (λ own. own.items ≡ filter (runs_for task) runs.now) }
{
    let mut own = Vec::new(alloc);
    for stretch in runs {
        if stretch.task == task {
            own.push(*stretch)?;
        }
    }
    Ok(own)
}

// The stretches of tasks of lower rank.
fn lower_runs(
    alloc: Global,
    runs: &[Stretch],
    tasks: &[Task],
    rank: u16,
) -> Result<Vec<Stretch>, AllocError>
    ensures { IfOk result (λ lower. lower.items ≡ filter (runs_lower tasks.now rank) runs.now) }
{
    let mut lower = Vec::new(alloc);
    for stretch in runs {
        if is_lower(tasks, rank, stretch.task) {
            lower.push(*stretch)?;
        }
    }
    Ok(lower)
}

// The events of a job among those of its task.
fn events_of_job(alloc: Global, events: &[Event], job: u64) -> Result<Vec<Event>, AllocError>
    ensures { IfOk result (λ own. own.items ≡ filter (of_job job) events.now) }
{
    let mut own = Vec::new(alloc);
    for event in events {
        if event.job == job {
            own.push(*event)?;
        }
    }
    Ok(own)
}

// Whether a job starts by this.
fn starts(what: What) -> bool
    ensures { result ≡ starts what }
{
    match what {
        What::Starts => true,
        _ => false,
    }
}

// Whether it is finished by this.
fn finishes(what: What) -> bool
    ensures { result ≡ finishes what }
{
    match what {
        What::Finishes => true,
        _ => false,
    }
}

// The first event by which a job starts.
fn first_start(events: &[Event]) -> Option<&Event>
    ensures { option_map (λ event. event.now) result ≡ find is_start events.now }
{
    events.iter().find(|event| starts(event.what))
}

// The first event by which a job is finished.
fn first_finish(events: &[Event]) -> Option<&Event>
    ensures { option_map (λ event. event.now) result ≡ find is_finish events.now }
{
    events.iter().find(|event| finishes(event.what))
}

// When a job with these events started.
fn start_of(events: &[Event]) -> Option<u64>
    ensures { result ≡ start_of events.now }
{
    match first_start(events) {
        Some(event) => Some(event.date),
        None => None,
    }
}

// When it was finished.
fn finish_of(events: &[Event]) -> Option<u64>
    ensures { result ≡ finish_of events.now }
{
    match first_finish(events) {
        Some(event) => Some(event.date),
        None => None,
    }
}

// Whether an act takes the processor's time.
fn computes(is: &Task, act: usize) -> bool
    ensures { result ≡ computes is.now act }
{
    match is.does.get(act) {
        Some(Act::Run(_)) => true,
        _ => false,
    }
}

// Whether an act is a sleep.
fn rests(is: &Task, act: usize) -> bool
    ensures { result ≡ rests is.now act }
{
    match is.does.get(act) {
        Some(Act::Sleep(_)) => true,
        Some(Act::Until(_)) => true,
        _ => false,
    }
}

// Whether a job gives the processor away by this: it is finished, or begins to wait.
fn leaves(is: &Task, what: What) -> bool
    ensures { result ≡ leaves is.now what }
{
    match what {
        What::Finishes => true,
        What::Begins(act) => !computes(is, act),
        _ => false,
    }
}

// Whether it does so at a date.
fn leaves_at(is: &Task, events: &[Event], date: u64) -> bool
    ensures { result ≡ leaves_at is.now events.now date }
{
    events
        .iter()
        .any(|event| event.date == date && leaves(is, event.what))
}

// Whether the processor was lost between the end of one stretch and the beginning of the next.
fn is_gap(is: &Task, events: &[Event], last: Option<u64>, from: u64) -> bool
    ensures { result ≡ is_gap is.now events.now last from }
{
    match last {
        Some(end) => end != from && !leaves_at(is, events, end),
        None => false,
    }
}

// How often it was lost between a job's stretches.
fn preemptions(is: &Task, events: &[Event], runs: &[Stretch], job: u64) -> u64
    ensures { result ≡ preemptions is.now events.now job None 0 runs.now }
{
    let mut count: u64 = 0;
    let mut last: Option<u64> = None;
    for stretch in runs {
        if stretch.job == job {
            if is_gap(is, events, last, stretch.from) {
                count = count.saturating_add(1);
            }
            last = Some(stretch.to);
        }
    }
    count
}

// Whether an event begins a sleep.
fn sleeps(is: &Task, what: What) -> bool
    ensures { result ≡ sleeps is.now what }
{
    match what {
        What::Begins(act) => rests(is, act),
        _ => false,
    }
}

// Whether a job sleeps at a date: the last of its events up to then begins a sleep.
fn is_asleep(is: &Task, events: &[Event], date: u64) -> bool
    ensures { result ≡ is_asleep is.now date false events.now }
{
    let mut asleep = false;
    for event in events {
        if event.date <= date {
            asleep = sleeps(is, event.what);
        }
    }
    asleep
}

// How much of a stretch lies between two dates.
fn overlap(stretch: &Stretch, from: u64, to: u64) -> u64
    ensures { result ≡ overlap from to stretch.now }
{
    stretch.to.min(to).saturating_sub(stretch.from.max(from))
}

// How long a job is held up by a stretch of a task of lower rank.
fn share(is: &Task, events: &[Event], stretch: &Stretch, from: u64, to: u64) -> u64
    ensures { result ≡ share is.now events.now from to stretch.now }
{
    let both = overlap(stretch, from, to);
    if both == 0 || is_asleep(is, events, stretch.from) {
        return 0;
    }
    both
}

// How long a job is held up by such stretches.
fn blocked_in(is: &Task, events: &[Event], lower: &[Stretch], from: u64, to: u64) -> u64
    ensures { result ≡ blocked_in is.now events.now from to 0 lower.now }
{
    let mut sum: u64 = 0;
    for stretch in lower {
        sum = sum.saturating_add(share(is, events, stretch, from, to));
    }
    sum
}

// When a job that is released at a date is to be finished.
fn deadline_of(is: &Task, release: u64) -> Option<u64>
    ensures { result ≡ deadline_of is.now release }
{
    match is.by {
        Some(by) => release.checked_add(by),
        None => None,
    }
}

// Whether a job is late in a run that ended at a date.
fn is_late(deadline: Option<u64>, finish: Option<u64>, end: u64) -> bool
    ensures { result ≡ is_late deadline finish end }
{
    match deadline {
        Some(date) => date < finish.unwrap_or(end),
        None => false,
    }
}

// When a job was released.
fn released(is: &Task, job: u64) -> u64
    ensures { result ≡ released is.now job }
{
    match is.release(job) {
        Some(date) => date,
        None => 0,
    }
}

impl Past {
    // A job, by its events.
    fn job(&self, alloc: Global, is: &Task, job: u64) -> Result<Job, AllocError>
        ensures { IfOk result (λ it. it ≡ job_of is.now self.now job) }
    {
        let events = events_of_job(alloc, self.events.as_slice(), job)?;
        let events = events.as_slice();
        let release = released(is, job);
        let finish = finish_of(events);
        let deadline = deadline_of(is, release);
        let to = finish.unwrap_or(self.end);
        Ok(Job {
            task: self.task,
            job,
            release,
            start: start_of(events),
            finish,
            deadline,
            late: is_late(deadline, finish, self.end),
            preempted: preemptions(is, events, self.runs.as_slice(), job),
            blocked: blocked_in(is, events, self.lower.as_slice(), release, to),
        })
    }

    // Whether a job that hasn't started was released before the end.
    fn is_next_there(&self, is: &Task, job: u64) -> bool
        ensures { result ≡ is_next_there is.now self.now job }
    {
        match is.release(job) {
            Some(date) => date < self.end,
            None => false,
        }
    }

    // Adds the jobs that start by these events, in their order, and the next one where it was released before the end.
    fn add_jobs(
        &self,
        alloc: Global,
        is: &Task,
        events: &[Event],
        jobs: &mut Vec<Job>,
    ) -> Result<(), AllocError>
        ensures { OnOk result (jobs.new.items ≡ jobs.old.items ++ jobs_in is.now self.now 0 events.now) }
    {
        let mut next: u64 = 0;
        for event in events {
            if starts(event.what) {
                jobs.push(self.job(alloc, is, event.job)?)?;
                next = event.job.saturating_add(1);
            }
        }
        if self.is_next_there(is, next) {
            jobs.push(self.job(alloc, is, next)?)?;
        }
        Ok(())
    }
}

// One task's events and stretches, and those of lower rank.
fn past_of(
    alloc: Global,
    tasks: &[Task],
    task: usize,
    events: &[Event],
    runs: &[Stretch],
    end: u64,
) -> Result<Past, AllocError>
    ensures { IfOk result (λ past. past ≡ past_of tasks.now task events.now runs.now end) }
{
    let rank = rank_at(tasks, task);
    Ok(Past {
        task,
        events: events_of(alloc, events, task)?,
        runs: runs_of(alloc, runs, task)?,
        lower: lower_runs(alloc, runs, tasks, rank)?,
        end,
    })
}

/// The result of each job that has started, and of each task's next one that was released before the end, in a run with
/// these events and times of computing that ended at a date: by tasks, and by their numbers.
pub fn jobs_of(
    alloc: Global,
    tasks: &[Task],
    events: &[Event],
    runs: &[Stretch],
    end: u64,
) -> Result<Vec<Job>, AllocError>
    ensures { IfOk result (λ jobs. jobs.items ≡ jobs_of tasks.now events.now runs.now end 0 tasks.now) }
{
    let mut jobs = Vec::new(alloc);
    for (task, is) in tasks.iter().enumerate() {
        let past = past_of(alloc, tasks, task, events, runs, end)?;
        past.add_jobs(alloc, is, past.events.as_slice(), &mut jobs)?;
    }
    Ok(jobs)
}
