//! After which time the periods of tasks meet again.
ghost use Rattle.std.specs.Prelude.{◌≡◌};
ghost use Rattle.std.specs.Int.{IsGcd};

use crate::faults::{FaultKind, FaultPlace, TasksFault, fault};
use crate::sets::Task;

// A run of a longer hyperperiod is refused.
const MOST: u64 = 10_000_000_000;

// rule: The divisor that goes into the hyperperiod is the greatest of both.
// The greatest number that divides both.
fn common_divisor(one: u64, other: u64) -> u64
    ensures { IsGcd one other result }
{
    let mut a = one;
    let mut b = other;
    while b != 0 {
        let rest = a % b;
        a = b;
        b = rest;
    }
    a
}

// The least number that both divide, none of which is 0; 2^64 - 1 where it is above that.
fn common_multiple(one: u64, other: u64) -> u64 {
    let divisor = common_divisor(one, other);
    if divisor == 0 {
        return 0;
    }
    (one / divisor).saturating_mul(other)
}

/// The hyperperiod of tasks: the least time that is a multiple of the period of each task that has one. `NeedsEvery` where
/// none has; `LongHyperperiod` where it is above 10 s.
pub fn hyperperiod_of(tasks: &[Task]) -> Result<u64, TasksFault> {
    let mut period: Option<u64> = None;
    for task in tasks {
        if let Some(every) = task.every {
            period = Some(match period {
                Some(other) => common_multiple(other, every),
                None => every,
            });
        }
    }
    match period {
        Some(time) => {
            if time <= MOST {
                Ok(time)
            } else {
                Err(fault(FaultPlace::Head, "until", FaultKind::LongHyperperiod(time)))
            }
        }
        None => Err(fault(FaultPlace::Head, "until", FaultKind::NeedsEvery)),
    }
}
