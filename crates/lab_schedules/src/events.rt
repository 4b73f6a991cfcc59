//! The events in jobs, and when jobs compute.

use evl_base::Refusal;

/// An event of a job. A number is that of its act, from 0.
#[derive(Clone, Copy, PartialEq, Eq)]
pub enum What {
    /// Its task goes on with it for the first time.
    Starts,
    /// An act begins that takes time or waits.
    Begins(usize),
    /// An act is done.
    Does(usize),
    /// An act is refused, and left out.
    Refused(usize, Refusal),
    /// The wait of an act ended at its deadline, and the job goes on.
    TimedOut(usize),
    /// It is finished.
    Finishes,
}

/// An event of a job, and its date.
#[derive(Clone, Copy, PartialEq, Eq)]
pub struct Event {
    pub date: u64,
    /// The task, counted from 0.
    pub task: usize,
    /// The job, counted from 0.
    pub job: u64,
    pub what: What,
}

/// A time in which a job computes, and nothing else happens.
#[derive(Clone, Copy, PartialEq, Eq)]
pub struct Stretch {
    pub task: usize,
    pub job: u64,
    pub from: u64,
    pub to: u64,
}
