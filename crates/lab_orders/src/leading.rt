//! One order of a world.
ghost use Rattle.std.specs.Prelude.{◌<◌, All, IfOk};
ghost use Rattle.lab_orders.specs.Leading.{LeadsSo};

use crate::worlds::World;
use std::alloc::{AllocError, Global};

/// The place that an order leads to.
#[derive(Drop)]
pub enum Led<M> {
    /// To this moment.
    To(M),
    /// So many of its steps can be made, and the next one can't.
    Stuck(usize),
}

/// The place that an order leads to from a moment, by who makes each step. `AllocError` where memory couldn't grow.
pub fn lead<W: World>(
    alloc: Global,
    world: &W,
    start: W::Moment,
    order: &[u16],
) -> Result<Led<W::Moment>, AllocError>
    requires start { W.fits world.now start }
    requires callers { All (λ c. c < (W.machine world.now).callers) order.now }
    ensures { IfOk result (LeadsSo (W.machine world.now) (W.state world.now) (W.state world.now start) order.now) }
{
    let mut at = start;
    for (made, caller) in order.iter().enumerate() {
        let reached = match world.step(alloc, &at, *caller) {
            Ok(reached) => reached,
            Err(error) => return Err(error),
        };
        match reached {
            Some(next) => at = next.at,
            None => return Ok(Led::Stuck(made)),
        }
    }
    Ok(Led::To(at))
}
