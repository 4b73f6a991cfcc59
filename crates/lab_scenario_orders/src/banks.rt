//! Banks that can be made again and again: each replay takes one.
ghost use Rattle.std.specs.Prelude.{◌≡◌, [], map, IfOk};

use evl_pipeline::{Callback, Handler};
use std::alloc::{AllocError, Global};

/// A maker of the callbacks of a bank.
pub trait BankMaker {
    ghost use Rattle.std.specs.Prelude.{List};
    ghost use Rattle.evl_kernel.specs.state.States.{Handler};

    /// A callback.
    type Made: Handler;

    /// All that each callback declares and answers, by number.
    ghost bank: { Self → List Handler };

    /// The callbacks, once more.
    fn make(&self, alloc: Global) -> Result<Vec<Self::Made>, AllocError>
        ensures { IfOk result (λ made. map (λ callback. record { kinds = Self.Made.declared callback; plan = Self.Made.plan callback }) made.items ≡ bank self.now) };
}

/// No callbacks at all.
#[derive(Clone, Copy, Drop)]
pub struct NoCallbacks;

impl BankMaker for NoCallbacks {
    type Made = Callback;

    ghost bank = { λ maker. [] };

    fn make(&self, alloc: Global) -> Result<Vec<Callback>, AllocError> {
        Ok(Vec::new(alloc))
    }
}
