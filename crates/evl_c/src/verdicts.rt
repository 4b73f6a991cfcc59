//! The results for what is asked of all orders.
ghost use Rattle.std.specs.Prelude.{◌≡◌};
ghost use Rattle.evl_c.specs.Verdicts as verdicts;

use lab_orders::First;
use lab_scenario_orders::{Ask, Outcomes, Watch, When};

// Whether something is asked.
fn is_asked(ask: &Ask) -> bool
    ensures { result ≡ verdicts.is_asked ask.now }
{
    ask.always_ends
        || ask.ends_waits
        || ask.never.len() > 0
        || ask.watches.len() > 0
        || ask.outcomes.is_some()
}

// Whether what was found of a question about moments is against it.
fn is_found_against(when: When, is_whole: bool, first: &First) -> bool
    ensures { result ≡ verdicts.is_found_against when is_whole first.now }
{
    match first {
        First::After(_) => match when {
            When::Never => true,
            When::Sometimes => false,
            When::Always => true,
        },
        First::Nowhere => match when {
            When::Never => false,
            When::Sometimes => is_whole,
            When::Always => false,
        },
    }
}

// Whether what was found of the question about moments at this place is against it.
fn is_state_against(firsts: &[First], is_whole: bool, place: usize, when: When) -> bool
    ensures { result ≡ verdicts.is_state_against firsts.now is_whole place when }
{
    match firsts.get(place) {
        Some(first) => is_found_against(when, is_whole, first),
        None => false,
    }
}

// The place of the first question about moments against which it is what was found.
fn state_against(watches: &[Watch], firsts: &[First], is_whole: bool) -> Option<usize>
    ensures { result ≡ verdicts.state_against firsts.now is_whole 0 watches.now }
{
    for (place, watch) in watches.iter().enumerate() {
        if is_state_against(firsts, is_whole, place, watch.when) {
            return Some(place);
        }
    }
    None
}

/// The place of the first question about moments that the outcomes are against.
pub fn first_state(ask: &Ask, found: &Outcomes) -> Option<usize>
    ensures { result ≡ verdicts.first_state ask.now found.now }
{
    state_against(ask.watches.as_slice(), found.firsts.as_slice(), found.whole)
}

// Whether there are other outcomes than so many, or may be where longer orders were cut off.
fn is_count_against(wanted: Option<u16>, is_whole: bool, count: usize) -> bool
    ensures { result ≡ verdicts.is_count_against wanted is_whole count }
{
    match wanted {
        Some(wanted) => { usize::from(wanted) < count || (is_whole && count < usize::from(wanted)) }
        None => false,
    }
}

// Whether an outcome, a moment or their number is against what is asked.
fn is_any_against(ask: &Ask, found: &Outcomes, place: Option<usize>) -> bool
    ensures { result ≡ verdicts.is_any_against ask.now found.now place }
{
    place.is_some()
        || first_state(ask, found).is_some()
        || is_count_against(ask.outcomes, found.whole, found.all.len())
}

/// 1: something is against what is asked. 5: nothing is, and longer orders were cut off. 0: it holds, or nothing is
/// asked.
pub fn verdict(ask: &Ask, found: &Outcomes, place: Option<usize>) -> u8
    ensures { result ≡ verdicts.verdict ask.now found.now place }
{
    if is_any_against(ask, found, place) {
        1
    } else if is_asked(ask) && !found.whole {
        5
    } else {
        0
    }
}
