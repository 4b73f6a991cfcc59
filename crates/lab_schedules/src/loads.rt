//! How long a job takes among jobs of higher ranks: the analysis of response times (Joseph and Pandya 1986).
ghost use Rattle.std.specs.Prelude.{◌≡◌, IfSome};
ghost use Rattle.lab_schedules.specs.Bounds.{IsBound, asked_in, demand};

use crate::bounds::Bound;

// How often the sum is made at most: a text of tasks with far shorter periods than others.
const MOST_STEPS: u32 = 1_000_000;

/// The load that a task asks of the processor: so many nanoseconds in each period of so many.
#[derive(Clone, Copy, PartialEq, Eq)]
pub struct Load {
    pub computes: u64,
    pub every: u64,
}

// How long the jobs compute that a task releases within a time; none where it has no period, or 64 bits don't have that.
fn asked_in(time: u64, load: &Load) -> Option<u64>
    ensures { IfSome result (λ sum. sum ≡ asked_in time load.now) }
{
    if load.every == 0 {
        return None;
    }
    time.div_ceil(load.every).checked_mul(load.computes)
}

// How long these jobs and a job of its own compute; none where that isn't known.
fn demand(time: u64, own: u64, loads: &[Load]) -> Option<u64>
    ensures { IfSome result (λ sum. sum ≡ demand time own loads.now) }
{
    let mut sum = own;
    for load in loads {
        let asked = asked_in(time, load)?;
        sum = sum.checked_add(asked)?;
    }
    Some(sum)
}

/// The first time within which all is computed that is asked for in it: a job of its own, and the jobs of these tasks. It is
/// `Longer` where that is above `most`, and `Unknown` where more than 64 bits or 1,000,000 sums would be needed.
pub fn response_of(own: u64, loads: &[Load], most: u64) -> Bound
    ensures { IsBound own loads.now most result }
{
    let mut time = own;
    for _ in 0..MOST_STEPS {
        let Some(next) = demand(time, own, loads) else {
            return Bound::Unknown;
        };
        if next > most {
            return Bound::Longer;
        }
        if next == time {
            return Bound::Within(time);
        }
        time = next;
    }
    Bound::Unknown
}
