//! Task sets as values.
ghost use Rattle.std.specs.Prelude.{◌≡◌};
ghost use Rattle.lab_tasks.specs.Sets.{has_job, idle_of, release_of};

use crate::acts::Act;
use crate::asks::Ask;
use evl_base::{Board, LineNo, Policy, Stage, XbufId};
use evl_scenario::Step;
use std::alloc::Global;

/// A thread that does the same in each of its jobs.
#[derive(Drop)]
pub struct Task {
    pub name: String,
    pub policy: Policy,
    pub stage: Stage,
    /// When its first job is released, in nanoseconds.
    pub at: u64,
    /// How long after one the next job is released; without, the first is the only one.
    pub every: Option<u64>,
    /// How many jobs it has; without, one after the other.
    pub jobs: Option<u64>,
    /// Within which time after its release a job is to be finished: its relative deadline.
    pub by: Option<u64>,
    pub does: Vec<Act>,
}

/// An interrupt on a line at a date.
#[derive(Clone, Copy, PartialEq, Eq)]
pub struct Interrupt {
    pub date: u64,
    pub line: LineNo,
}

/// The acts over a board, and when they are done.
#[derive(Drop)]
pub struct Rules {
    /// The end of the run, if it has one.
    pub until: Option<u64>,
    /// Task i is thread Ti, from 1 on.
    pub tasks: Vec<Task>,
    /// By their dates, and at one date in the text's order.
    pub interrupts: Vec<Interrupt>,
    /// The questions about the run.
    pub asks: Vec<Ask>,
}

/// Tasks over a board. The board has a thread more than there are tasks, T0 for the hardware, and a cross-buffer more than
/// the text's, into which nobody writes.
#[derive(Drop)]
pub struct TaskSet {
    pub board: Board,
    pub limit: u32,
    /// The steps that are done before the tasks attach.
    pub setup: Vec<Step>,
    pub rules: Rules,
}

impl TaskSet {
    /// No tasks over a board, with nothing to be done.
    pub(crate) fn empty(alloc: Global, board: Board, limit: u32) -> TaskSet {
        TaskSet {
            board,
            limit,
            setup: Vec::new(alloc),
            rules: Rules {
                until: None,
                tasks: Vec::new(alloc),
                interrupts: Vec::new(alloc),
                asks: Vec::new(alloc),
            },
        }
    }
}

/// The cross-buffer into which nobody writes: the board's last.
pub fn idle_of(board: &Board) -> XbufId
    ensures { result ≡ idle_of board.now }
{
    let xbufs = board.xbufs.len().min(65_535) as u16;
    XbufId(xbufs.saturating_sub(1))
}

impl Task {
    // Whether it has a job of this number, the first of which is 0.
    fn has_job(&self, job: u64) -> bool
        ensures { result ≡ has_job self.now job }
    {
        match self.jobs {
            Some(jobs) => job < jobs,
            None => true,
        }
    }

    /// When a job is released, the first of which is 0; none where the task has no such job, or its date is past 2^64 - 1.
    #[tactic(auto, unfolding(crate::specs::Sets::release_of))]
    pub fn release(&self, job: u64) -> Option<u64>
        ensures { result ≡ release_of self.now job }
    {
        if !self.has_job(job) {
            return None;
        }
        let after = job.checked_mul(self.every.unwrap_or(0))?;
        self.at.checked_add(after)
    }
}
