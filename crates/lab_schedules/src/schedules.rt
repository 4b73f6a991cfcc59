//! The schedule that comes of a task set.
ghost use Rattle.std.specs.Prelude.{◌≡◌, IfOk};
ghost use Rattle.lab_schedules.specs.Jobs.{jobs_of};

use crate::{Event, Job, Stretch, jobs_of};
use evl_plans::PlannedKernel;
use lab_tasks::Rules;
use std::alloc::{AllocError, Global};

/// Why a run ends.
#[derive(Clone, Copy, PartialEq, Eq)]
pub enum End {
    /// The end that the text asks for has come.
    Until,
    /// Nothing comes any more.
    Quiet,
    /// The history has as many entries as its limit.
    Full,
    /// Too much was done.
    Long,
    /// This step of the setup was refused, counted from 1.
    Setup(usize),
    /// This task could not attach, counted from 1.
    Attach(usize),
}

/// The schedule of a task set: the kernel with its history, what happened in each job, when each computed, and why the
/// run ends.
#[derive(Drop)]
pub struct Schedule {
    /// The tasks and interrupts that were played.
    pub rules: Rules,
    pub kernel: PlannedKernel,
    pub events: Vec<Event>,
    pub runs: Vec<Stretch>,
    /// The date at which the run ended.
    pub date: u64,
    pub end: End,
}

impl Schedule {
    /// Lets it go, its kernel as the plans do.
    pub fn leave(self) {
        let Schedule { kernel, .. } = self;
        kernel.leave();
    }

    /// The result of each job that has started, and of each task's next one that was released before the end: by tasks,
    /// and by their numbers.
    pub fn jobs(&self, alloc: Global) -> Result<Vec<Job>, AllocError>
        ensures { IfOk result (λ jobs. jobs.items ≡ jobs_of self.now.rules.tasks.items self.now.events.items self.now.runs.items self.now.date 0 self.now.rules.tasks.items) }
    {
        let tasks = self.rules.tasks.as_slice();
        jobs_of(
            alloc,
            tasks,
            self.events.as_slice(),
            self.runs.as_slice(),
            self.date,
        )
    }
}
