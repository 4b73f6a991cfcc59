//! The state of a timer.
ghost use Rattle.std.specs.Prelude.{◌≡◌};
ghost use Rattle.evl_clock.specs.Timers.{date_of, missed_periods, missed_of, state_after};

/// The state of a timer (Xenomai 4: EVL timers; this profile).
#[derive(Clone, Copy, PartialEq, Eq)]
pub enum TimerState {
    /// It doesn't run: it was never started, or stopped, or fired once with interval 0.
    Idle,
    /// It fires at its date, and then a whole number of intervals later, if the interval isn't 0.
    Running {
        /// When it fires next, in nanoseconds.
        date: u64,
        /// The period, in nanoseconds; 0 where it fires once.
        interval: u64,
    },
    /// Its next date would be past 2^64 - 1.
    Ended,
}

impl TimerState {
    /// The date at which it fires, if it runs.
    pub fn date(&self) -> Option<u64>
        ensures date { result ≡ date_of self.now }
    {
        match *self {
            TimerState::Running { date, interval: _ } => Some(date),
            TimerState::Idle => None,
            TimerState::Ended => None,
        }
    }

    /// How many whole periods a fire at the date `now` misses.
    pub fn missed(&self, now: u64) -> u64
        ensures missed { result ≡ missed_periods now self.now }
    {
        match *self {
            TimerState::Running { date, interval } => missed_of(now, date, interval),
            TimerState::Idle => 0,
            TimerState::Ended => 0,
        }
    }

    /// The state of a timer after a fire at the date `now`.
    pub fn after_fire(&self, now: u64) -> TimerState
        ensures after { result ≡ state_after now self.now }
    {
        match *self {
            TimerState::Running { date, interval } => going_on(now, date, interval),
            TimerState::Idle => TimerState::Idle,
            TimerState::Ended => TimerState::Ended,
        }
    }
}

// How many whole periods lie between a date and the date now.
fn missed_of(now: u64, date: u64, interval: u64) -> u64
    ensures missed { result ≡ missed_of now date interval }
{
    if interval == 0 {
        return 0;
    }
    now.saturating_sub(date) / interval
}

// The state of a running timer after a fire.
fn going_on(now: u64, date: u64, interval: u64) -> TimerState
    ensures state { result ≡ state_after now (TimerState.Running date interval) }
{
    if interval == 0 {
        return TimerState::Idle;
    }
    let before = date + interval * missed_of(now, date, interval);
    match before.checked_add(interval) {
        Some(date) => TimerState::Running { date, interval },
        None => TimerState::Ended,
    }
}
