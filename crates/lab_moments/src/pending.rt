//! How many events are pending on a stage.
ghost use Rattle.std.specs.Prelude.{◌≡◌, ◌+◌, ◌<◌, ◌≤◌, if◌then◌else◌, max};
ghost use Rattle.lab_moments.specs.Asked.{below_call, below_steps};
ghost use Rattle.lab_moments.specs.Standings.{pending_below};

use evl_base::{Call, LINES, LineNo, Stage};
use evl_kernel::KernelOf;
use evl_scenario::Step;
use std::alloc::Global;

// One more where it is one.
fn counted(count: u16, is_one: bool) -> u16
    requires { count < 65535 }
    ensures { result ≡ count + (if is_one then 1 else 0) }
{
    if is_one { count + 1 } else { count }
}

/// How many events of the lines below this one are pending on a stage.
pub(crate) fn pending_count<C>(kernel: &KernelOf<C, Global>, stage: Stage, below: u16) -> u16
    ensures count { result ≡ pending_below kernel.now.history.state stage below }
{
    let mut count: u16 = 0;
    for line in 0..below {
        count = counted(count, kernel.pending(stage, LineNo(line)));
    }
    count
}

// Below which line the line of a request is; of another call 0.
fn below_call(call: &Call) -> u16
    ensures below { result ≡ below_call call.now }
    ensures few { result ≤ 4096 }
{
    match call {
        Call::Request { line, .. } => line.0.saturating_add(1).min(LINES as u16),
        _ => 0,
    }
}

/// Below which line all lines are for which these steps ask, and line 0, which is the clock's.
pub(crate) fn below_steps(steps: &[Step]) -> u16
    ensures below { result ≡ max 1 (below_steps steps.now) }
    ensures few { result ≤ 4096 }
{
    let mut below: u16 = 1;
    for step in steps {
        below = below_call(&step.call).max(below);
    }
    below
}
