//! Callbacks of plans, for as many kernels as are made.
use evl_plans::{Planned, copied_bank};
use lab_scenario_orders::BankMaker;
use std::alloc::{AllocError, Global};

/// Callbacks that are copied for each kernel.
#[derive(Drop)]
pub(crate) struct Copies<'a> {
    pub(crate) plans: &'a [Planned],
}

impl<'a> BankMaker for Copies<'a> {
    ghost use Rattle.std.specs.Prelude.{map};
    ghost use Rattle.evl_plans.specs.Told.{handler_of};

    type Made = Planned;

    ghost bank = { λ copies. map handler_of copies.plans.now };

    fn make(&self, alloc: Global) -> Result<Vec<Planned>, AllocError> {
        copied_bank(alloc, self.plans)
    }
}
