//! How long a job of a task takes at most, by theory: what it computes, what tasks of higher ranks compute meanwhile, and how
//! long those of lower ranks hold it up (Sha, Rajkumar and Lehoczky 1990).
ghost use Rattle.std.specs.Prelude.{◌≡◌, ◌≤◌, IfOk, false};
ghost use Rattle.std.specs.List.{list_all};
ghost use Rattle.lab_schedules.specs.Bounds.{IsBoundBut, IsBoundOf, blocking, computes_for, ends_computing, held_by, is_ceiling, late_of, load_of, loads_in, time_of, with_section};

use crate::jobs::rank_of;
use crate::loads::{Load, response_of};
use crate::sections::longest_of;
use evl_base::MutexKind;
use lab_tasks::{Act, Task};
use std::alloc::{AllocError, Global};

/// How long a job takes at most, in nanoseconds.
#[derive(Clone, Copy, PartialEq, Eq)]
pub enum Bound {
    Within(u64),
    /// Longer than its task's period, for which the analysis has no bound.
    Longer,
    /// More than 64 bits or 1,000,000 sums would be needed.
    Unknown,
}

// How long an act computes.
fn time_of(act: &Act) -> u64
    ensures { result ≡ time_of act.now }
{
    match act {
        Act::Run(time) => *time,
        _ => 0,
    }
}

// How long a job of a task computes.
fn computes_for(is: &Task) -> u64
    ensures { result ≡ computes_for is.now }
{
    let mut sum: u64 = 0;
    for act in &is.does {
        sum = sum.saturating_add(time_of(act));
    }
    sum
}

// Whether a mutex has a ceiling.
fn is_ceiling(kind: &MutexKind) -> bool
    ensures { result ≡ is_ceiling kind.now }
{
    matches!(kind, MutexKind::Ceiling(_))
}

// Whether each mutex has a ceiling.
fn only_ceilings(kinds: &[MutexKind]) -> bool
    ensures { result ≡ list_all is_ceiling kinds.now }
{
    kinds.iter().all(|kind| is_ceiling(kind))
}

// With one more section that holds a job up: under ceilings only the longest one does.
fn with_section(once: bool, sum: u64, section: u64) -> u64
    ensures { result ≡ with_section once sum section }
{
    if once {
        sum.max(section)
    } else {
        sum.saturating_add(section)
    }
}

// How long a job of a rank is held up, with what a task of lower rank adds; it is as long for a task of another.
fn held_by(kinds: &[MutexKind], tasks: &[Task], rank: u16, sum: u64, is: &Task) -> u64
    ensures { result ≡ held_by kinds.now tasks.now rank sum is.now }
{
    if rank_of(is) >= rank {
        return sum;
    }
    with_section(
        only_ceilings(kinds),
        sum,
        longest_of(kinds, tasks, rank, is),
    )
}

// How long tasks of lower rank hold up a job of a rank.
fn blocking(kinds: &[MutexKind], tasks: &[Task], rank: u16) -> u64
    ensures { result ≡ blocking kinds.now tasks.now rank }
{
    let mut sum: u64 = 0;
    for is in tasks {
        sum = held_by(kinds, tasks, rank, sum, is);
    }
    sum
}

// The load that a task asks of the processor.
fn load_of(is: &Task) -> Load
    ensures { result ≡ load_of is.now }
{
    Load {
        computes: computes_for(is),
        every: is.every.unwrap_or(0),
    }
}

// The loads of the tasks of a rank and of higher ones, but for the task at a place.
fn loads_of(alloc: Global, tasks: &[Task], place: usize, rank: u16) -> Result<Vec<Load>, AllocError>
    ensures { IfOk result (λ loads. loads.items ≡ loads_in place rank 0 tasks.now) }
{
    let mut loads = Vec::new(alloc);
    for (at, is) in tasks.iter().enumerate() {
        if at != place && rank <= rank_of(is) {
            loads.push(load_of(is))?;
        }
    }
    Ok(loads)
}

// Whether the acts of a task end with a computation that takes time.
fn ends_computing(is: &Task) -> bool
    ensures { result ≡ ends_computing false is.now.does.items }
{
    let mut last = false;
    for act in &is.does {
        last = time_of(act) > 0;
    }
    last
}

// How much longer a job of a task counts: a last act that takes no time is done after what is released at its date.
fn late_of(is: &Task) -> u64
    ensures { result ≡ late_of is.now }
{
    if ends_computing(is) { 0 } else { 1 }
}

// The bound of a job that counts as so much longer.
fn bound_but(late: u64, own: u64, loads: &[Load], most: u64) -> Bound
    requires { late ≤ 1 }
    ensures { IsBoundBut late own loads.now most result }
{
    let found = response_of(own.saturating_add(late), loads, most.saturating_add(late));
    match found {
        Bound::Within(time) => Bound::Within(time - late),
        other => other,
    }
}

/// How long a job of the task at a place takes at most, among these tasks over a board with these mutexes, in a set that is
/// covered (`uncovered_in`).
pub fn bound_of(
    alloc: Global,
    kinds: &[MutexKind],
    tasks: &[Task],
    place: usize,
    is: &Task,
) -> Result<Bound, AllocError>
    ensures { IfOk result (IsBoundOf kinds.now tasks.now place is.now) }
{
    let rank = rank_of(is);
    let loads = loads_of(alloc, tasks, place, rank)?;
    let held_up = blocking(kinds, tasks, rank);
    let own = computes_for(is).saturating_add(held_up);
    let most = is.every.unwrap_or(0);
    Ok(bound_but(late_of(is), own, loads.as_slice(), most))
}
