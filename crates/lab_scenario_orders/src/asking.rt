//! All orders, and what is asked of them.
ghost use Rattle.std.specs.Prelude.{◌≡◌, All, IfErr, IfOk, None, false, position, string_bytes};
ghost use Rattle.lab_orders.specs.Machines.{orders};
ghost use Rattle.lab_scenario_orders.specs.Asks.{is_against};
ghost use Rattle.lab_scenario_orders.specs.Callers.{first_seen, machine};
ghost use Rattle.lab_scenario_orders.specs.Outcomes.{AreOutcomes, CanNotTell};
ghost use Rattle.lab_scenario_orders.specs.Told.{told_text};

use crate::asks::{Ask, first_against};
use crate::banks::BankMaker;
use crate::callers::Callers;
use crate::outcomes::{Outcomes, outcomes_of};
use lab_orders::OrdersError;
use std::alloc::Global;

/// The outcomes of all orders, and the place of the first that is against what is asked.
#[derive(Drop)]
pub struct Asked {
    pub outcomes: Outcomes,
    pub against: Option<usize>,
}

/// Goes through all orders of the callers over a bank, as `outcomes_of` does, and names the first outcome that is
/// against what is asked.
pub fn ask_all<B: BankMaker>(
    alloc: Global,
    callers: &Callers,
    bank: &B,
    ask: &Ask,
    most: usize,
) -> Result<Asked, OrdersError>
    ensures outcomes { IfOk result (λ asked. AreOutcomes callers.now (B.bank bank.now) ask.now.watches.items most asked.outcomes) }
    ensures uncounted { IfErr result (CanNotTell callers.now (B.bank bank.now)) }
    ensures against { IfOk result (λ asked. asked.against ≡ position (λ outcome. is_against ask.now (string_bytes outcome.told)) asked.outcomes.all.items) }

    // If there is no outcome, no order ends so.
    ensures none { IfOk result (λ asked. asked.against ≡ None
        → All (λ run. is_against ask.now (told_text callers.now run.at) ≡ false) (orders (machine callers.now) (first_seen callers.now (B.bank bank.now)) asked.outcomes.steps)) }
{
    let outcomes = match outcomes_of(alloc, callers, bank, ask.watches.as_slice(), most) {
        Ok(outcomes) => outcomes,
        Err(error) => return Err(error),
    };
    let against = first_against(ask, outcomes.all.as_slice());
    Ok(Asked { outcomes, against })
}
