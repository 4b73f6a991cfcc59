//! All that is against what is asked.
ghost use Rattle.std.specs.Prelude.{◌≡◌};
ghost use Rattle.lab_scenario_orders.specs.Verdicts.{asks_anything, is_count_against, is_found_against, is_state_against, state_against};

use crate::asks::Ask;
use crate::watches::{Watch, When};
use lab_orders::First;

/// Whether something is asked.
pub fn asks_anything(ask: &Ask) -> bool
    ensures { result ≡ asks_anything ask.now }
{
    ask.always_ends
        || ask.ends_waits
        || ask.never.len() > 0
        || ask.watches.len() > 0
        || ask.outcomes.is_some()
}

// Whether what was found of a question about moments is against it.
fn is_found_against(when: When, is_whole: bool, first: &First) -> bool
    ensures { result ≡ is_found_against when is_whole first.now }
{
    match first {
        First::After(_) => match when {
            When::Never => true,
            When::Sometimes => false,
            When::Always => true,
        },
        First::Nowhere => match when {
            When::Never => false,
            When::Sometimes => is_whole,
            When::Always => false,
        },
    }
}

// Whether what was found of the question about moments at this place is against it.
fn is_state_against(firsts: &[First], is_whole: bool, place: usize, when: When) -> bool
    ensures { result ≡ is_state_against firsts.now is_whole place when }
{
    match firsts.get(place) {
        Some(first) => is_found_against(when, is_whole, first),
        None => false,
    }
}

/// The place of the first question about moments against which it is what was found.
pub fn state_against(watches: &[Watch], firsts: &[First], is_whole: bool) -> Option<usize>
    ensures { result ≡ state_against firsts.now is_whole 0 watches.now }
{
    for (place, watch) in watches.iter().enumerate() {
        if is_state_against(firsts, is_whole, place, watch.when) {
            return Some(place);
        }
    }
    None
}

/// Whether there are other outcomes than so many, or may be where longer orders were cut off.
pub fn is_count_against(wanted: usize, is_whole: bool, count: usize) -> bool
    ensures { result ≡ is_count_against wanted is_whole count }
{
    wanted < count || (is_whole && count < wanted)
}
