//! Whether what is asked of a run is so.
ghost use Rattle.std.specs.Prelude.{◌≡◌, option_map};
ghost use Rattle.std.specs.List.{find, list_all};
ghost use Rattle.lab_schedules.specs.Asks.{holds, is_against, lasts};

use crate::jobs::Job;
use lab_tasks::Ask;

impl Job {
    /// How long it takes from its release to its end, or to the end of the run at this date where it isn't finished.
    pub fn lasts(&self, end: u64) -> u64
        ensures { result ≡ lasts self.now end }
    {
        self.finish.unwrap_or(end).saturating_sub(self.release)
    }
}

// Whether a job of a run that ended at a date is against what is asked.
fn is_against(ask: Ask, job: &Job, end: u64) -> bool
    ensures { result ≡ is_against ask end job.now }
{
    match ask {
        Ask::MeetsDeadlines(_) => job.late,
        Ask::Response(task, most) => job.task == task && most < job.lasts(end),
        Ask::Blocked(task, most) => job.task == task && most < job.blocked,
    }
}

/// The first job of a run that ended at a date which is against what is asked: a late one, or one of the task that takes
/// longer or is held up for longer.
pub fn first_against(ask: Ask, jobs: &[Job], end: u64) -> Option<&Job>
    ensures { option_map (λ job. job.now) result ≡ find (is_against ask end) jobs.now }
{
    jobs.iter().find(|job| is_against(ask, job, end))
}

/// Whether what is asked is so of the jobs of a run that ended at a date.
pub fn holds(ask: Ask, jobs: &[Job], end: u64) -> bool
    ensures { result ≡ holds jobs.now end ask }
{
    let is_met = first_against(ask, jobs, end).is_none();
    match ask {
        Ask::MeetsDeadlines(false) => !is_met,
        _ => is_met,
    }
}

/// Whether all that is asked is so.
pub fn all_hold(asks: &[Ask], jobs: &[Job], end: u64) -> bool
    ensures { result ≡ list_all (holds jobs.now end) asks.now }
{
    asks.iter().all(|ask| holds(*ask, jobs, end))
}
