//! The trace of a text over callbacks that keep their plans.
ghost use Rattle.std.specs.Prelude.{◌≡◌, ◌≤◌, [], false, length, map, Ok, IfOk, IfErr};
ghost use Rattle.evl_shell.specs.Runs.{trace_of};
ghost use Rattle.evl_plans.specs.Told.{handler_of};
ghost use Rattle.evl_plans.specs.Traces.{Refuses, Runs};

use crate::planned::Planned;
use evl_pipeline::{Callback, Fire};
use evl_shell::{Fault, Over, run};
use std::alloc::{AllocError, Global};

// Runs a text over callbacks with these plans, where there is memory for the bank.
fn run_text(
    alloc: Global,
    plans: &[Planned],
    text: &[u8],
    limit: Option<u32>,
    out: &mut Over<Vec<u8>>,
) -> Result<Result<(), Fault>, AllocError>
    requires few { length plans.now ≤ 64 }
    requires working { out.old.failed ≡ false }
    requires empty { out.old.writer.items ≡ [] }
    ensures { IfOk result (λ end. Runs (trace_of (map handler_of plans.now) limit text.now) out.new.writer.items end) }
{
    let mut bank = Vec::new(alloc);
    for plan in plans {
        let planned = plan.copied();
        let answers = Box::new(alloc, move |fire: Fire| planned.answer(fire.count))?;
        bank.push(Callback::new(plan.kinds, &plan.plan, answers))?;
    }
    Ok(run(alloc, text, limit, bank, out))
}

// rule: A scenario over such callbacks has the trace that `run` writes, or is refused for the fault that `run` gives.
//   clauses: trace_plans: refused
/// The trace of a scenario's text over a bank of these callbacks, at most 64, under a limit that may be handed in (1 to
/// 1,000,000; it replaces the text's): what `run` writes. `Text`, `Board` and `Step` say what is wrong with the text,
/// `Memory` that a growth was refused; it is never `Write`.
pub fn trace_plans(
    alloc: Global,
    plans: &[Planned],
    text: &[u8],
    limit: Option<u32>,
) -> Result<Vec<u8>, Fault>
    requires few { length plans.now ≤ 64 }
    ensures traced { IfOk result (λ trace. trace_of (map handler_of plans.now) limit text.now ≡ Ok trace.items) }
    ensures refused { IfErr result (λ e. Refuses (trace_of (map handler_of plans.now) limit text.now) e) }
{
    let mut out = Over::new(Vec::new(alloc));
    match run_text(alloc, plans, text, limit, &mut out) {
        Ok(Ok(())) => Ok(out.into_inner()),
        Ok(Err(Fault::Write)) | Err(_) => Err(Fault::Memory),
        Ok(Err(fault)) => Err(fault),
    }
}
