//! The report of `lab orders --answers` on orders of steps: which answers came to each call of each caller.
ghost use Rattle.std.specs.Prelude.{◌≡◌, ◌<◌, ◌++◌, IfOk, OnOk};
ghost use Rattle.lab_orders.specs.Tallies.{told_weight};
ghost use Rattle.lab_orders.specs.Weights.{count_limit};
ghost use Rattle.lab_step_orders.specs.Reports.{counts_text};
ghost use Rattle.lab_asks.specs.StepOrders.{answers_of, callers_answers};

use crate::answers::know_count;
use lab_orders::{Tally, put_answers, put_head};
use lab_step_orders::{Crew, CrewCaller, StepOutcomes};
use std::alloc::{AllocError, Global};

// Puts how many orders, outcomes and moments there are.
fn put_counts(alloc: Global, text: &mut Vec<u8>, found: &StepOutcomes) -> Result<(), AllocError>
    ensures { OnOk result (text.new.items ≡ text.old.items ++ counts_text found.now) }
{
    let outcomes = found.all.as_slice();
    put_head(
        alloc,
        text,
        found.count,
        outcomes.len(),
        found.moments,
        found.whole,
    )
}

// Puts the answers of these callers' calls.
fn put_callers(
    alloc: Global,
    text: &mut Vec<u8>,
    outcomes: &[Tally],
    callers: &[CrewCaller],
) -> Result<(), AllocError>
    requires { told_weight (λ told. 1) outcomes.now < count_limit }
    ensures { OnOk result (text.new.items ≡ text.old.items ++ callers_answers outcomes.now 0 callers.now) }
{
    for (number, caller) in callers.iter().enumerate() {
        put_answers(alloc, text, outcomes, number, caller.calls.len())?;
    }
    Ok(())
}

/// The answers of all callers' calls, after the counts, where the outcomes have as many orders together as were counted.
#[tactic(auto, unfolding(crate::specs::StepOrders::answers_of))]
pub(crate) fn answers_of(
    alloc: Global,
    crew: &Crew,
    found: &StepOutcomes,
) -> Result<Vec<u8>, AllocError>
    requires { told_weight (λ told. 1) found.now.all.items ≡ found.now.count }
    ensures { IfOk result (λ text. text.items ≡ answers_of crew.now found.now) }
{
    know_count(found.count);
    let mut text = Vec::new(alloc);
    put_counts(alloc, &mut text, found)?;
    put_callers(
        alloc,
        &mut text,
        found.all.as_slice(),
        crew.callers.as_slice(),
    )?;
    Ok(text)
}
