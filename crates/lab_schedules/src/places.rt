//! The place of a task in what it does.
ghost use Rattle.std.specs.Prelude.{◌≡◌};
ghost use Rattle.lab_schedules.specs.Places.{at, at_first, behind_job, further, is_over, rest_of, wakes_of};

/// The phase that a task is at.
#[derive(Clone, Copy, PartialEq, Eq)]
pub enum Phase {
    /// Its next job has no date yet.
    Between,
    /// Its next job is released at this date.
    Due(u64),
    /// An act of its job comes next, or the job's end.
    At,
    /// It computes, for so much longer.
    Runs(u64),
    /// It sleeps until this date.
    Sleeps(u64),
    /// It waits in a call that it made.
    Waits,
    /// It has no more jobs.
    Over,
}

/// A task's place.
#[derive(Clone, Copy, PartialEq, Eq)]
pub struct Place {
    /// The number of its job, from 0, or of the next one.
    pub job: u64,
    /// The number of its act in the job, from 0.
    pub act: usize,
    pub phase: Phase,
}

impl Place {
    /// The same place at something else.
    pub fn at(self, phase: Phase) -> Place
        ensures { result ≡ at self phase }
    {
        Place {
            job: self.job,
            act: self.act,
            phase,
        }
    }

    /// After its act.
    pub fn further(self) -> Place
        ensures { result ≡ further self }
    {
        Place {
            job: self.job,
            act: self.act.saturating_add(1),
            phase: Phase::At,
        }
    }

    /// After its job.
    pub fn behind_job(self) -> Place
        ensures { result ≡ behind_job self }
    {
        Place {
            job: self.job.saturating_add(1),
            act: 0,
            phase: Phase::Between,
        }
    }

    /// The first act of its job.
    pub fn at_first(self) -> Place
        ensures { result ≡ at_first self }
    {
        Place {
            job: self.job,
            act: 0,
            phase: Phase::At,
        }
    }

    /// How much longer it computes, if it does.
    pub fn rest(self) -> Option<u64>
        ensures { result ≡ rest_of self }
    {
        match self.phase {
            Phase::Runs(rest) => Some(rest),
            _ => None,
        }
    }

    /// Until which date it does nothing by itself, if it does so.
    pub fn wakes(self) -> Option<u64>
        ensures { result ≡ wakes_of self }
    {
        match self.phase {
            Phase::Due(date) => Some(date),
            Phase::Sleeps(date) => Some(date),
            _ => None,
        }
    }

    /// Whether it has no more jobs.
    pub fn is_over(self) -> bool
        ensures { result ≡ is_over self }
    {
        match self.phase {
            Phase::Over => true,
            _ => false,
        }
    }
}
