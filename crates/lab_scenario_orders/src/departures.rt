//! Callers that leave once they have made their steps.
ghost use Rattle.std.specs.Prelude.{◌≡◌, IfOk};
ghost use Rattle.lab_scenario_orders.specs.Leaving.{AreLeaving, is_oob, leaving_step, leaving_steps, stays, stays_by, stays_there};

use crate::callers::{Caller, Callers};
use evl_base::{Call, Stage, ThreadId};
use evl_scenario::Step;
use std::alloc::{AllocError, Global};

// Whether it is the out-of-band stage.
fn is_oob(stage: Stage) -> bool
    ensures { result ≡ is_oob stage }
{
    match stage {
        Stage::Oob => true,
        Stage::Inband => false,
    }
}

// Whether a thread is out-of-band after a call of its own, where it was or was not.
fn stays_by(was: bool, call: &Call) -> bool
    ensures { result ≡ stays_by was call.now }
{
    match call {
        Call::Attach { stage, .. } => is_oob(*stage),
        Call::SetStage { stage } => is_oob(*stage),
        Call::Detach => false,
        _ => was,
    }
}

// Whether a thread is out-of-band after these steps, where it was or was not.
fn stays(was: bool, who: ThreadId, steps: &[Step]) -> bool
    ensures { result ≡ stays was who.0 steps.now }
{
    let mut there = was;
    for step in steps {
        if step.who.0 == who.0 {
            there = stays_by(there, &step.call);
        }
    }
    there
}

// Whether a caller is out-of-band at last.
fn stays_there(setup: &[Step], steps: &[Step], caller: &Caller) -> bool
    ensures { result ≡ stays_there setup.now steps.now caller.now }
{
    let was = stays(false, caller.who, setup);
    stays(was, caller.who, steps)
}

// The step with which a thread leaves.
fn leaving_step(who: ThreadId) -> Step
    ensures { result ≡ leaving_step who.0 }
{
    Step {
        who,
        call: Call::SetStage {
            stage: Stage::Inband,
        },
    }
}

// The steps with which these callers leave.
fn leaving_steps(
    alloc: Global,
    setup: &[Step],
    steps: &[Step],
    callers: &[Caller],
) -> Result<Vec<Step>, AllocError>
    ensures { IfOk result (λ leaving. leaving.items ≡ leaving_steps setup.now steps.now callers.now) }
{
    let mut leaving = Vec::new(alloc);
    for caller in callers {
        if stays_there(setup, steps, caller) {
            leaving.push(leaving_step(caller.who))?;
        }
    }
    Ok(leaving)
}

/// Callers whose steps are made as threads are picked: each that is out-of-band at last, by its steps of `attach`,
/// `set_stage` and `detach`, has one more, with which it goes in-band, out of the way of the others. `AllocError` where
/// memory couldn't grow.
pub fn leaving(alloc: Global, read: Callers) -> Result<Callers, AllocError>
    ensures { IfOk result (AreLeaving read) }
{
    let more = match leaving_steps(
        alloc,
        read.setup.as_slice(),
        read.steps.as_slice(),
        read.callers.as_slice(),
    ) {
        Ok(more) => more,
        Err(error) => return Err(error),
    };
    read.with_steps(alloc, more)
}
