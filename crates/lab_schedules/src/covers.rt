//! Which task sets the analysis of response times covers.
ghost use Rattle.std.specs.Prelude.{◌≡◌};
ghost use Rattle.std.specs.List.{list_any};
ghost use Rattle.std.specs.Option.{is_some};
ghost use Rattle.lab_schedules.specs.Bounds.{holds_up, longest_in, unheld};
ghost use Rattle.lab_schedules.specs.Covers.{exceeds, exceeds_kind, misfit, misfit_in, misfit_of_acts, misfit_of_policy, uncovered_in};

use crate::sections::longest_in;
use evl_base::{MutexKind, Policy, Stage};
use lab_tasks::{Act, Rules, Task};

/// Why the analysis doesn't cover a set; a task is counted from 0.
#[derive(Clone, Copy, PartialEq, Eq)]
pub enum Uncovered {
    /// It has a setup.
    Setup,
    /// It has interrupts.
    Interrupts,
    /// A task is in-band.
    Inband(usize),
    /// A task has another policy than FIFO.
    Policy(usize),
    /// A task has no period.
    Once(usize),
    /// A task does something else than compute, lock one mutex at once and unlock it.
    Acts(usize),
    /// A task locks a mutex whose ceiling is lower than its priority.
    Ceiling(usize),
}

// Whether a mutex of a kind has a ceiling lower than a priority.
fn exceeds_kind(prio: u8, kind: MutexKind) -> bool
    ensures { result ≡ exceeds_kind prio kind }
{
    match kind {
        MutexKind::Ceiling(ceiling) => ceiling < prio,
        _ => false,
    }
}

// Whether an act of a task with a priority locks such a mutex.
fn exceeds(kinds: &[MutexKind], prio: u8, act: &Act) -> bool
    ensures { result ≡ exceeds kinds.now prio act.now }
{
    let Act::Lock(mutex) = act else {
        return false;
    };
    match kinds.get(usize::from(mutex.0)) {
        Some(kind) => exceeds_kind(prio, *kind),
        None => false,
    }
}

// Whether a task with a priority locks such a mutex.
fn exceeds_any(kinds: &[MutexKind], prio: u8, is: &Task) -> bool
    ensures { result ≡ list_any (exceeds kinds.now prio) is.now.does.items }
{
    is.does.iter().any(|act| exceeds(kinds, prio, act))
}

// Whether the analysis covers what a task does, by its locks.
fn has_sections(kinds: &[MutexKind], tasks: &[Task], is: &Task) -> bool
    ensures { result ≡ is_some (longest_in (holds_up kinds.now tasks.now 0) unheld is.now.does.items) }
{
    longest_in(kinds, tasks, 0, is.does.as_slice()).is_some()
}

// Why the analysis doesn't cover a FIFO task with a priority at a place among these, if it doesn't.
fn misfit_of_acts(
    kinds: &[MutexKind],
    tasks: &[Task],
    place: usize,
    prio: u8,
    is: &Task,
) -> Option<Uncovered>
    ensures { result ≡ misfit_of_acts kinds.now tasks.now place prio is.now }
{
    if is.every.is_none() {
        return Some(Uncovered::Once(place));
    }
    if !has_sections(kinds, tasks, is) {
        return Some(Uncovered::Acts(place));
    }
    if exceeds_any(kinds, prio, is) {
        return Some(Uncovered::Ceiling(place));
    }
    None
}

// Why the analysis doesn't cover an out-of-band task at a place among these, if it doesn't.
fn misfit_of_policy(
    kinds: &[MutexKind],
    tasks: &[Task],
    place: usize,
    is: &Task,
) -> Option<Uncovered>
    ensures { result ≡ misfit_of_policy kinds.now tasks.now place is.now is.now.policy }
{
    match is.policy {
        Policy::Fifo(prio) => misfit_of_acts(kinds, tasks, place, prio, is),
        _ => Some(Uncovered::Policy(place)),
    }
}

// Why the analysis doesn't cover a task at a place among these, if it doesn't.
fn misfit(kinds: &[MutexKind], tasks: &[Task], place: usize, is: &Task) -> Option<Uncovered>
    ensures { result ≡ misfit kinds.now tasks.now place is.now }
{
    match is.stage {
        Stage::Inband => Some(Uncovered::Inband(place)),
        Stage::Oob => misfit_of_policy(kinds, tasks, place, is),
    }
}

// Why the analysis doesn't cover the first of these tasks that it doesn't cover.
fn misfit_in(kinds: &[MutexKind], tasks: &[Task]) -> Option<Uncovered>
    ensures { result ≡ misfit_in kinds.now tasks.now 0 tasks.now }
{
    for (place, is) in tasks.iter().enumerate() {
        let found = misfit(kinds, tasks, place, is);
        if found.is_some() {
            return found;
        }
    }
    None
}

/// Why the analysis doesn't cover a set of tasks over a board with these mutexes, after a setup or without one, if it doesn't.
/// It covers periodic FIFO tasks, out-of-band, that compute, lock one mutex at once and unlock it, without a setup and without
/// interrupts.
pub fn uncovered_in(is_set_up: bool, kinds: &[MutexKind], rules: &Rules) -> Option<Uncovered>
    ensures { result ≡ uncovered_in is_set_up kinds.now rules.now }
{
    if is_set_up {
        return Some(Uncovered::Setup);
    }
    if !rules.interrupts.is_empty() {
        return Some(Uncovered::Interrupts);
    }
    misfit_in(kinds, rules.tasks.as_slice())
}
