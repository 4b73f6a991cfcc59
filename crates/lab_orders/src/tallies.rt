//! Outcomes as text, each once, with how many orders end so.
ghost use Rattle.std.specs.Prelude.{ℕ, List, ◌∷◌, ◌++◌, [], ◌≡◌, ◌≢◌, ◌+◌, ◌*◌, ◌<◌, ◌≤◌, true, false, All, Some, OnOk, IfErr, IfSome, IfNone, length, slice_get, slice_set, string_bytes, vec_len};
ghost use Rattle.lab_orders.specs.Tallies.{AreDistinct, KeepsFirsts, told_weight};
ghost use Rattle.lab_orders.specs.Weights.{count_limit};

use crate::levels::OrdersError;

/// An outcome.
#[derive(Drop)]
pub struct Tally {
    /// The report of it: two outcomes are the same where this is.
    pub told: String,
    /// How many orders end so.
    pub count: u128,
    /// The first of them: who makes each step.
    pub order: Vec<u16>,
}

// Whether just this is reported of an outcome.
fn is_told(tally: &Tally, told: &str) -> bool
    ensures yes { result ≡ true → string_bytes tally.now.told ≡ told.now }
    ensures no { result ≡ false → string_bytes tally.now.told ≢ told.now }
{
    tally.told.as_str() == told
}

// The place of the outcome of which just this is reported.
fn place_of(tallies: &[Tally], told: &str) -> Option<usize>
    ensures within { IfSome result (λ i. i < length tallies.now) }
    ensures same { IfSome result (λ i. (tally : _) → slice_get tallies.now i ≡ Some tally → string_bytes tally.told ≡ told.now) }
    ensures none { IfNone result (All (λ tally. string_bytes tally.told ≢ told.now) tallies.now) }
{
    for (i, tally) in tallies.iter().enumerate() {
        if is_told(tally, told) {
            return Some(i);
        }
    }
    None
}

// Adds orders to those of the outcome at a place.
fn raise(tallies: &mut Vec<Tally>, place: usize, count: u128) -> Result<(), OrdersError>
    requires { place < vec_len tallies.old }
    ensures uncounted { IfErr result (λ error. (tally : _) → slice_get tallies.old.items place ≡ Some tally → count_limit ≤ tally.count + count) }
    ensures raised { OnOk result ((tally : _) → slice_get tallies.old.items place ≡ Some tally → tallies.new.items ≡ slice_set tallies.old.items place (record tally { count = tally.count + count })) }
{
    match tallies[place].count.checked_add(count) {
        Some(sum) => {
            tallies[place].count = sum;
            Ok(())
        }
        None => Err(OrdersError::Count),
    }
}

/// Adds orders of an outcome: to those of the one that is reported alike, if there is one, which keeps its order. `Memory`
/// where the list couldn't grow, `Count` where there are more orders than a count can hold.
pub fn add_tally(tallies: &mut Vec<Tally>, tally: Tally) -> Result<(), OrdersError>
    requires { AreDistinct tallies.old.items }

    // Whatever is counted of outcomes counts these orders too.
    ensures sums { OnOk result ((f : List ℕ → ℕ) → told_weight f tallies.new.items ≡ told_weight f tallies.old.items + tally.count * f (string_bytes tally.told)) }
    ensures distinct { OnOk result (AreDistinct tallies.new.items) }
    ensures firsts { OnOk result (KeepsFirsts tallies.old.items tally tallies.new.items) }

    // It is `Count` only where the outcomes have more orders together than a count can hold.
    ensures uncounted { IfErr result (λ error. error ≡ OrdersError.Count → count_limit ≤ told_weight (λ text. 1) tallies.old.items + tally.count) }
{
    match place_of(tallies.as_slice(), tally.told.as_str()) {
        Some(place) => match raise(tallies, place, tally.count) {
            Ok(()) => Ok(()),
            Err(error) => Err(error),
        },
        None => match tallies.push(tally) {
            Ok(()) => Ok(()),
            Err(_) => Err(OrdersError::Memory),
        },
    }
}
