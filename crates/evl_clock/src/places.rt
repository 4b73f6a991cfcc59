//! Free places, and taking a timer out of its place.
ghost use Rattle.std.specs.Prelude.{◌≡◌, ◌<◌, length, position, None, Some, is_none, slice_index_or, slice_set, IfNone, IfSome};

use crate::timer::Timer;
use std::alloc::Allocator;

/// The least number of a place that is free.
pub fn free_place<C>(timers: &[Option<Timer<C>>]) -> Option<usize>
    ensures place { result ≡ position is_none timers.now }
    ensures range { IfSome result (λ n. n < length timers.now) }
{
    timers.iter().position(|place| place.is_none())
}

/// Takes the timer out of its place, which is empty then. Nothing changes where there is none.
pub fn take_timer<C, A: Allocator>(
    timers: &mut Vec<Option<Timer<C>>, A>,
    n: u16,
) -> Option<Timer<C>>
    ensures none { IfNone result ((slice_index_or timers.old.items n None ≡ None) × (timers.new.items ≡ timers.old.items)) }
    ensures some { IfSome result (λ t. (slice_index_or timers.old.items n None ≡ Some t) × (n < length timers.old.items) × (timers.new.items ≡ slice_set timers.old.items n None)) }
{
    if n as usize >= timers.len() {
        return None;
    }
    timers[n as usize].take()
}
