//! The summary of a task's jobs.
use lab_schedules::{Job, Stretch};

/// The summary of a task's jobs. Times are in nanoseconds.
#[derive(Clone, Copy, PartialEq, Eq)]
pub struct Summary {
    /// How many jobs were released.
    pub jobs: u64,
    /// How many of them are finished.
    pub finished: u64,
    /// How many missed their deadlines.
    pub late: u64,
    /// The least and the greatest response of a finished job; 0 where none is.
    pub least: u64,
    pub greatest: u64,
    /// The sum of all responses.
    pub responses: u64,
    pub preempted: u64,
    /// The longest time that tasks of lower rank held a job up.
    pub blocked: u64,
    /// How long its jobs have computed.
    pub computed: u64,
}

// Nothing has come of it.
const NONE: Summary = Summary {
    jobs: 0,
    finished: 0,
    late: 0,
    least: 0,
    greatest: 0,
    responses: 0,
    preempted: 0,
    blocked: 0,
    computed: 0,
};

// With the response of one more job that is finished.
fn with_response(before: Summary, response: u64) -> Summary {
    let least = if before.finished == 0 {
        response
    } else {
        before.least.min(response)
    };
    Summary {
        finished: before.finished.saturating_add(1),
        least,
        greatest: before.greatest.max(response),
        responses: before.responses.saturating_add(response),
        ..before
    }
}

// With one more job.
fn with_job(before: Summary, job: &Job) -> Summary {
    let counted = Summary {
        jobs: before.jobs.saturating_add(1),
        late: before.late.saturating_add(u64::from(job.late)),
        preempted: before.preempted.saturating_add(job.preempted),
        blocked: before.blocked.max(job.blocked),
        ..before
    };
    match job.response() {
        Some(response) => with_response(counted, response),
        None => counted,
    }
}

// How long the jobs of a task computed.
fn computed_by(runs: &[Stretch], task: usize) -> u64 {
    let mut sum: u64 = 0;
    for run in runs {
        if run.task == task {
            sum = sum.saturating_add(run.to.saturating_sub(run.from));
        }
    }
    sum
}

/// The summary of the jobs of a task, counted from 0.
pub fn summary_of(jobs: &[Job], runs: &[Stretch], task: usize) -> Summary {
    let mut all = NONE;
    for job in jobs {
        if job.task == task {
            all = with_job(all, job);
        }
    }
    Summary {
        computed: computed_by(runs, task),
        ..all
    }
}

impl Summary {
    /// The mean of the responses, rounded down; 0 where no job is finished.
    pub fn mean(&self) -> u64 {
        if self.finished == 0 {
            return 0;
        }
        self.responses / self.finished
    }
}
