//! Ranks that follow from times: the shorter the period, or the relative deadline, the greater the priority (Liu and
//! Layland 1973; Leung and Whitehead 1982).
ghost use Rattle.std.specs.Prelude.{◌≡◌, count_by};
ghost use Rattle.lab_tasks.specs.Ranks.{is_longer, time_of};

use crate::faults::{FaultKind, FaultPlace, TasksFault, fault};
use crate::sets::Task;
use evl_base::Policy;

/// By which time tasks have their ranks.
#[derive(Clone, Copy, PartialEq, Eq)]
pub enum Ranks {
    /// By `every`.
    RateMonotonic,
    /// By `by`.
    DeadlineMonotonic,
}

/// The ranks that a text names.
pub fn ranks_named(text: &str) -> Option<Ranks> {
    match text {
        "rate-monotonic" => Some(Ranks::RateMonotonic),
        "deadline-monotonic" => Some(Ranks::DeadlineMonotonic),
        _ => None,
    }
}

// The time by which a task has its rank.
fn time_of(task: &Task, ranks: Ranks) -> Option<u64>
    ensures { result ≡ time_of task.now ranks }
{
    match ranks {
        Ranks::RateMonotonic => task.every,
        Ranks::DeadlineMonotonic => task.by,
    }
}

// Whether a task has a longer time.
fn is_longer(task: &Task, ranks: Ranks, time: u64) -> bool
    ensures { result ≡ is_longer ranks time task.now }
{
    match time_of(task, ranks) {
        Some(other) => time < other,
        None => false,
    }
}

// How many of these tasks have a longer time.
fn longer_than(tasks: &[Task], ranks: Ranks, time: u64) -> usize
    ensures { result ≡ count_by (is_longer ranks time) tasks.now }
{
    tasks
        .iter()
        .filter(|task| is_longer(task, ranks, time))
        .count()
}

// The policy of a task among these: `fifo` with a priority one above the number of tasks with longer times.
fn policy_among(tasks: &[Task], ranks: Ranks, time: u64) -> Option<Policy> {
    let prio = longer_than(tasks, ranks, time).saturating_add(1);
    if prio > 99 {
        return None;
    }
    Some(Policy::Fifo(u8::try_from(prio).ok()?))
}

/// Gives tasks the policies that follow from their times. `Missing` where one has none; `TooMany` where a priority would
/// be above 99.
pub fn rank_tasks(tasks: &mut Vec<Task>, ranks: Ranks) -> Result<(), TasksFault> {
    for i in 0..tasks.len() {
        let place = FaultPlace::Task(i.saturating_add(1));
        let Some(time) = time_of(&tasks[i], ranks) else {
            return Err(fault(place, "every", FaultKind::Missing));
        };
        let Some(policy) = policy_among(tasks.as_slice(), ranks, time) else {
            return Err(fault(FaultPlace::Head, "ranks", FaultKind::TooMany));
        };
        tasks[i].policy = policy;
    }
    Ok(())
}
