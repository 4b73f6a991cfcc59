//! Critical sections: for how long a task has a mutex, and whom it holds up meanwhile.
ghost use Rattle.std.specs.Prelude.{◌≡◌, unwrap_or};
ghost use Rattle.std.specs.List.{list_any};
ghost use Rattle.lab_schedules.specs.Bounds.{at_end, ended, held_after, holds_up, holds_up_by, is_shared, locked, locks, longest_in, longest_of, unheld, unlocked};

use crate::jobs::rank_of;
use evl_base::{MutexId, MutexKind};
use lab_tasks::{Act, Task};

/// The mutex that a task has, how long it has computed since it locked it, and its longest section that counts.
#[derive(Clone, Copy)]
pub struct Held {
    pub(crate) mutex: Option<MutexId>,
    pub(crate) time: u64,
    pub(crate) longest: u64,
}

// Whether an act locks the mutex of a number.
fn locks(mutex: u16, act: &Act) -> bool
    ensures { result ≡ locks mutex act.now }
{
    match act {
        Act::Lock(other) => other.0 == mutex,
        _ => false,
    }
}

// Whether a task locks it.
fn uses(is: &Task, mutex: u16) -> bool
    ensures { result ≡ list_any (locks mutex) is.now.does.items }
{
    is.does.iter().any(|act| locks(mutex, act))
}

// Whether a task of a rank or a higher one locks a mutex.
fn is_shared(tasks: &[Task], rank: u16, mutex: u16) -> bool
    ensures { result ≡ is_shared tasks.now rank mutex }
{
    tasks
        .iter()
        .any(|other| rank <= rank_of(other) && uses(other, mutex))
}

// Whether a task that has a mutex of a kind may hold up those of a rank: by its ceiling, or by what it inherits.
fn holds_up_by(tasks: &[Task], rank: u16, mutex: u16, kind: MutexKind) -> bool
    ensures { result ≡ holds_up_by tasks.now rank mutex kind }
{
    match kind {
        MutexKind::Ceiling(ceiling) => rank <= 513 + u16::from(ceiling),
        _ => is_shared(tasks, rank, mutex),
    }
}

// Whether a task that has a mutex may hold up those of a rank.
fn holds_up(kinds: &[MutexKind], tasks: &[Task], rank: u16, mutex: u16) -> bool
    ensures { result ≡ holds_up kinds.now tasks.now rank mutex }
{
    match kinds.get(usize::from(mutex)) {
        Some(kind) => holds_up_by(tasks, rank, mutex, *kind),
        None => false,
    }
}

// After the unlock of a mutex; none where the task hasn't just this one.
fn unlocked(
    kinds: &[MutexKind],
    tasks: &[Task],
    rank: u16,
    held: Held,
    mutex: MutexId,
) -> Option<Held>
    ensures { result ≡ unlocked (holds_up kinds.now tasks.now rank) held mutex held.mutex }
{
    let Some(other) = held.mutex else {
        return None;
    };
    if other.0 != mutex.0 {
        return None;
    }
    Some(held.ended(holds_up(kinds, tasks, rank, mutex.0)))
}

// After an act; none where the analysis doesn't cover it: it neither computes nor locks one mutex nor unlocks it.
fn held_after(kinds: &[MutexKind], tasks: &[Task], rank: u16, held: Held, act: &Act) -> Option<Held>
    ensures { result ≡ held_after (holds_up kinds.now tasks.now rank) held act.now }
{
    match act {
        Act::Run(time) => Some(Held {
            time: held.time.saturating_add(*time),
            ..held
        }),
        Act::Lock(mutex) => held.locked(*mutex),
        Act::Unlock(mutex) => unlocked(kinds, tasks, rank, held, *mutex),
        _ => None,
    }
}

/// The longest of these acts' sections in which tasks of a rank may be held up; none where the analysis doesn't cover these
/// acts.
pub(crate) fn longest_in(
    kinds: &[MutexKind],
    tasks: &[Task],
    rank: u16,
    acts: &[Act],
) -> Option<u64>
    ensures { result ≡ longest_in (holds_up kinds.now tasks.now rank) unheld acts.now }
{
    let mut held = Held {
        mutex: None,
        time: 0,
        longest: 0,
    };
    for act in acts {
        held = held_after(kinds, tasks, rank, held, act)?;
    }
    held.at_end()
}

/// The longest section of a task in which tasks of a rank may be held up; 0 where it has none.
pub(crate) fn longest_of(kinds: &[MutexKind], tasks: &[Task], rank: u16, is: &Task) -> u64
    ensures { result ≡ longest_of kinds.now tasks.now rank is.now }
{
    longest_in(kinds, tasks, rank, is.does.as_slice()).unwrap_or(0)
}

impl Held {
    // After a lock; none where the task has a mutex.
    fn locked(self, mutex: MutexId) -> Option<Held>
        ensures { result ≡ locked self mutex self.mutex }
    {
        match self.mutex {
            None => Some(Held {
                mutex: Some(mutex),
                time: 0,
                longest: self.longest,
            }),
            Some(_) => None,
        }
    }

    // After the end of a section, which counts or doesn't.
    fn ended(self, counts: bool) -> Held
        ensures { result ≡ ended counts self }
    {
        Held {
            mutex: None,
            time: 0,
            longest: if counts {
                self.longest.max(self.time)
            } else {
                self.longest
            },
        }
    }

    // The longest section, at the end of a job; none where it still has a mutex.
    fn at_end(self) -> Option<u64>
        ensures { result ≡ at_end self self.mutex }
    {
        match self.mutex {
            None => Some(self.longest),
            Some(_) => None,
        }
    }
}
