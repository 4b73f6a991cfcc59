//! A kernel that is reset.
ghost use Rattle.evl_kernel.specs.state.Callbacks.{AnswersByPlan};

use super::handlers::{ATTACH, CALLER, SEM, apply, does, entries, plays, quiet_bank};
use super::rows::{Row, on_a_kernel};
use evl_base::{Call, LineNo, Reply, Stage, TimerId};
use evl_kernel::KernelOf;
use evl_pipeline::Handler;
use std::alloc::Allocator;

const LINE: LineNo = LineNo(7);

// Whether a callback goes to a line of the stalled in-band stage, where an event is pending then.
fn goes_to_a_line<C: Handler, A: Allocator>(kernel: &mut KernelOf<C, A>) -> bool
    requires { AnswersByPlan C.declared C.plan kernel.old.callbacks }
    ensures { AnswersByPlan C.declared C.plan kernel.new.callbacks }
{
    let request = Call::Request {
        line: LINE,
        stage: Stage::Inband,
        callback: 0,
        tag: 0,
    };
    let stall = Call::Stall {
        stage: Stage::Inband,
    };
    does(kernel, request) && does(kernel, stall) && does(kernel, Call::Arrive { line: LINE })
}

// Whether another callback goes to a timer, and time passes.
fn goes_to_a_timer<C: Handler, A: Allocator>(kernel: &mut KernelOf<C, A>) -> bool
    requires { AnswersByPlan C.declared C.plan kernel.old.callbacks }
    ensures { AnswersByPlan C.declared C.plan kernel.new.callbacks }
{
    let make = Call::NewTimer {
        callback: 1,
        tag: 0,
    };
    let made = matches!(apply(kernel, make), Ok(Reply::Number(0)));
    made && does(kernel, Call::Tick { delta: 9 })
}

// Whether thread 0 begins to wait for the semaphore.
fn begins_to_wait<C: Handler, A: Allocator>(kernel: &mut KernelOf<C, A>) -> bool
    requires { AnswersByPlan C.declared C.plan kernel.old.callbacks }
    ensures { AnswersByPlan C.declared C.plan kernel.new.callbacks }
{
    let wait = Call::BeginGet {
        sem: SEM,
        until: None,
    };
    does(kernel, ATTACH) && matches!(apply(kernel, wait), Ok(Reply::Begun))
}

// Whether all of these happen, with so many entries.
fn is_used<C: Handler, A: Allocator>(kernel: &mut KernelOf<C, A>) -> bool
    requires { AnswersByPlan C.declared C.plan kernel.old.callbacks }
    ensures { AnswersByPlan C.declared C.plan kernel.new.callbacks }
{
    goes_to_a_line(kernel)
        && goes_to_a_timer(kernel)
        && begins_to_wait(kernel)
        && kernel.pending(Stage::Inband, LINE)
        && entries(kernel) == 7
}

// Whether nothing was done yet.
fn is_new<C, A: Allocator>(kernel: &KernelOf<C, A>) -> bool {
    entries(kernel) == 0
        && plays(kernel) == 0
        && kernel.now() == 0
        && kernel.count(SEM) == Some(0)
        && !kernel.waits(CALLER)
        && !kernel.stalled(Stage::Inband)
        && !kernel.pending(Stage::Inband, LINE)
        && kernel.timer(TimerId(0)).is_none()
}

/// Whether a used kernel that is reset is new, and is used in the same way again.
pub(crate) fn is_used_twice<C: Handler, A: Allocator>(kernel: &mut KernelOf<C, A>) -> bool
    requires { AnswersByPlan C.declared C.plan kernel.old.callbacks }
{
    let first = is_used(kernel);
    kernel.reset();
    let bare = is_new(kernel);
    let second = is_used(kernel);
    first && bare && second
}

#[test]
fn a_kernel_is_reset(rt: HostRuntime) {
    let alloc = rt.alloc();
    let bank = quiet_bank(&alloc, 2).expect(&rt, "bank");
    assert!(rt; on_a_kernel(alloc, alloc, 0, bank, 10, Row::UsedTwice) == Ok(true));
}
