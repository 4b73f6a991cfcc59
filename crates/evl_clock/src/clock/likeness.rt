//! Whether two clocks stand alike.
ghost use Rattle.std.specs.Prelude.{◌≡◌, true, map, option_map};
ghost use Rattle.evl_clock.specs.Names.{named_clock, named_timer};

use super::ClockOf;
use crate::timer::Timer;
use evl_pipeline::Named;
use std::alloc::Allocator;

impl<C: Named, A: Allocator> ClockOf<C, A> {
    /// Whether both clocks stand alike: the same date, the same deadlines, and in each place a timer that does the
    /// same, or none. The names of two callbacks are compared.
    pub fn is_like<B: Allocator>(&self, other: &ClockOf<C, B>) -> bool
        ensures alike { result ≡ true → named_clock C.name self.now ≡ named_clock C.name other.now }
        ensures other { named_clock C.name self.now ≡ named_clock C.name other.now → result ≡ true }
    {
        self.date == other.date
            && are_dates_alike(&self.deadlines, &other.deadlines)
            && are_timers_alike(&self.timers, &other.timers)
    }
}

// Whether the same deadlines stand in the same places.
fn are_dates_alike(ours: &[Option<u64>], theirs: &[Option<u64>]) -> bool
    ensures alike { result ≡ true → ours.now ≡ theirs.now }
    ensures other { ours.now ≡ theirs.now → result ≡ true }
{
    ours == theirs
}

// Whether timers that do the same stand in the same places.
fn are_timers_alike<C: Named>(ours: &[Option<Timer<C>>], theirs: &[Option<Timer<C>>]) -> bool
    ensures alike { result ≡ true → map (option_map (named_timer C.name)) ours.now ≡ map (option_map (named_timer C.name)) theirs.now }
    ensures other { map (option_map (named_timer C.name)) ours.now ≡ map (option_map (named_timer C.name)) theirs.now → result ≡ true }
{
    if ours.len() != theirs.len() {
        return false;
    }
    for n in 0..ours.len() {
        if !is_place_alike(&ours[n], &theirs[n]) {
            return false;
        }
    }
    true
}

// Whether the timers of two places do the same, or both are empty.
fn is_place_alike<C: Named>(ours: &Option<Timer<C>>, theirs: &Option<Timer<C>>) -> bool
    ensures alike { result ≡ true → option_map (named_timer C.name) ours.now ≡ option_map (named_timer C.name) theirs.now }
    ensures other { option_map (named_timer C.name) ours.now ≡ option_map (named_timer C.name) theirs.now → result ≡ true }
{
    match (ours, theirs) {
        (Some(ours), Some(theirs)) => is_timer_alike(ours, theirs),
        (None, None) => true,
        (Some(_), None) => false,
        (None, Some(_)) => false,
    }
}

// Whether two timers do the same.
fn is_timer_alike<C: Named>(ours: &Timer<C>, theirs: &Timer<C>) -> bool
    ensures alike { result ≡ true → named_timer C.name ours.now ≡ named_timer C.name theirs.now }
    ensures other { named_timer C.name ours.now ≡ named_timer C.name theirs.now → result ≡ true }
{
    ours.callback.name() == theirs.callback.name()
        && ours.tag == theirs.tag
        && ours.count == theirs.count
        && ours.overruns == theirs.overruns
        && ours.state == theirs.state
}
