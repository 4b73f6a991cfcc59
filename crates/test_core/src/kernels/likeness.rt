//! Kernels that are alike, whatever calls led there, and the ready list.
ghost use Rattle.evl_kernel.specs.state.Callbacks.{AnswersByPlan};

use super::handlers::{ATTACH, SEM, board_of, does};
use super::rows::leave;
use evl_base::{Call, ThreadId};
use evl_kernel::KernelOf;
use evl_pipeline::{Callback, Handler};
use std::alloc::{Allocator, Global};

const PUT: Call = Call::Put { sem: SEM };

const GET: Call = Call::TryGet { sem: SEM };

// Whether the ready list has just the calling thread.
fn is_ready_alone<C, A: Allocator>(alloc: Global, kernel: &KernelOf<C, A>) -> bool {
    let mut ready = Vec::new(alloc);
    let told = kernel.ready_threads(&mut ready).is_ok();
    told && ready.as_slice() == [ThreadId(0)].as_slice()
}

// Whether a thread that is attached out-of-band is in the ready list.
fn is_listed<C: Handler, A: Allocator>(alloc: Global, kernel: &mut KernelOf<C, A>) -> bool
    requires { AnswersByPlan C.declared C.plan kernel.old.callbacks }
    ensures { AnswersByPlan C.declared C.plan kernel.new.callbacks }
{
    let attached = does(kernel, ATTACH);
    attached && is_ready_alone(alloc, kernel)
}

// Whether two kernels come to one state by other calls, and then to another.
fn meet<C: Handler, A: Allocator>(one: &mut KernelOf<C, A>, other: &mut KernelOf<C, A>) -> bool
    requires one { AnswersByPlan C.declared C.plan one.old.callbacks }
    requires other { AnswersByPlan C.declared C.plan other.old.callbacks }
    ensures { AnswersByPlan C.declared C.plan one.new.callbacks }
{
    let before = one.is_like(other);
    let put = does(one, PUT);
    let apart = !one.is_like(other);
    let got = does(one, GET);
    let met = one.is_like(other);
    let told = does(other, PUT);
    before && put && apart && got && met && told && !one.is_like(other)
}

// Whether a kernel of two threads and a semaphore meets a new one.
fn meets_another<C: Handler>(alloc: Global, bank: Vec<C>, kernel: &mut KernelOf<C, Global>) -> bool
    requires { AnswersByPlan C.declared C.plan kernel.old.callbacks }
    ensures { AnswersByPlan C.declared C.plan kernel.new.callbacks }
{
    match KernelOf::new(alloc, board_of(2, 0), bank, 10) {
        Ok(mut other) => {
            let met = meet(kernel, &mut other);
            leave(other);
            met
        }
        Err(_) => false,
    }
}

// Whether two new kernels with these callbacks meet, and the first one's ready list has its thread then.
fn stand_alike<C: Handler>(alloc: Global, first: Vec<C>, second: Vec<C>) -> bool {
    match KernelOf::new(alloc, board_of(2, 0), first, 10) {
        Ok(mut one) => {
            let met = meets_another(alloc, second, &mut one);
            let listed = is_listed(alloc, &mut one);
            leave(one);
            met && listed
        }
        Err(_) => false,
    }
}

#[test]
fn kernels_stand_alike(rt: HostRuntime) {
    let alloc = rt.alloc();
    let first: Vec<Callback> = Vec::new(alloc);
    assert!(rt; stand_alike(alloc, first, Vec::new(alloc)));
}
