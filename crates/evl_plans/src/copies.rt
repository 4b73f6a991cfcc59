//! Callbacks that keep their plans, copied.
ghost use Rattle.std.specs.Prelude.{◌≡◌, map, IfOk};
ghost use Rattle.evl_plans.specs.Told.{handler_of};

use crate::planned::Planned;
use std::alloc::{AllocError, Global};

/// The same callbacks once more. `AllocError` where memory couldn't grow.
pub fn copied_bank(alloc: Global, bank: &[Planned]) -> Result<Vec<Planned>, AllocError>
    ensures { IfOk result (λ copied. map handler_of copied.items ≡ map handler_of bank.now) }
{
    let mut copied = Vec::new(alloc);
    for planned in bank {
        copied.push(planned.copied())?;
    }
    Ok(copied)
}
