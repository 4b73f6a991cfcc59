//! Which fires a handler is given, and how often it is called.
ghost use Rattle.std.specs.Prelude.{◌≡◌, []};
ghost use Rattle.evl_kernel.specs.state.Callbacks.{AnswersByPlan};
ghost use Rattle.evl_pipeline.specs.Plans.{answer_of};

use super::handlers::does;
use super::rows::{PipelineRow, Row, on_a_kernel, on_a_pipeline};
use bitflags::Flags;
use evl_base::{ActionKinds, Call, LineNo, Stage};
use evl_kernel::KernelOf;
use evl_pipeline::{Answer, Callback, Fire, Handler, PipelineOf, Plan};
use std::alloc::Allocator;
use std::cell::Cell;
use std::snapshot::Snapshot;
use std::sync::Arc;
use std::sync::atomic::{AtomicU64, Ordering};

const LINE: LineNo = LineNo(9);

const STAGE: Stage = Stage::Oob;

const TAG: u32 = 40;

/// All that a handler was given: how many fires, and the last one.
#[derive(Clone, Copy)]
pub(crate) struct Given {
    calls: u64,
    last: Option<Fire>,
}

fn nothing() -> Cell<Given> {
    Cell::new(Given {
        calls: 0,
        last: None,
    })
}

// A handler that keeps the fires that it is given, and asks for nothing.
#[derive(Drop)]
struct Keeper<'a> {
    given: &'a Cell<Given>,
    plan: Snapshot<Plan>,
    ghost accepts: { plan.value.accepts ≡ 1 },
    ghost rows: { plan.value.rows.items ≡ [] },
}

impl<'a> Handler for Keeper<'a> {
    ghost plan = { λ keeper. keeper.plan.value };

    ghost declared = { λ keeper. 0 };

    ghost gives = { λ keeper fire answer. answer ≡ answer_of keeper.plan.value fire.count };

    fn fire(&self, fire: Fire) -> Answer {
        let before = self.given.get();
        self.given.set(Given {
            calls: before.calls.saturating_add(1),
            last: Some(fire),
        });
        Answer::quiet()
    }

    fn kinds(&self) -> ActionKinds {
        ActionKinds::from_bits_retain(0)
    }

    fn told(&self) -> &Snapshot<Plan> {
        &self.plan
    }
}

fn keeping<'a>(given: &'a Cell<Given>) -> Keeper<'a> {
    Keeper {
        given,
        plan: Snapshot::of(&Plan::quiet(1)),
    }
}

// Whether the handler was given just this many fires, the last one on the line, at this date.
fn has(given: &Cell<Given>, calls: u64, moment: u64) -> bool {
    let now = given.get();
    let Some(fire) = now.last else {
        return false;
    };
    now.calls == calls
        && fire.line.0 == LINE.0
        && matches!(fire.stage, Stage::Oob)
        && fire.tag == TAG
        && fire.count == calls
        && fire.moment == moment
}

// A handler that keeps its fires here.
#[derive(Drop)]
struct TwoArrivals<'a> {
    given: &'a Cell<Given>,
}

impl<'a> PipelineRow<Keeper<'a>> for TwoArrivals<'a> {
    // Each of two events is given to the handler.
    fn ask<A: Allocator>(self, pipeline: &mut PipelineOf<Keeper<'a>, A>) -> bool {
        let mut told = pipeline
            .request(LINE, STAGE, keeping(self.given), TAG)
            .is_ok();
        for count in 1..3 {
            let arrived = pipeline.arrive(LINE).is_ok();
            let played = pipeline.next(true, false, 7).is_some();
            told = told && arrived && played && has(self.given, count, 7);
        }
        told
    }
}

#[test]
fn a_pipeline_hands_on_the_fire(rt: HostRuntime) {
    let given = nothing();
    assert!(rt; on_a_pipeline(rt.alloc(), TwoArrivals { given: &given }) == Ok(true));
}

// Whether the line's event is given to callback 0, of which it is this fire.
fn gives_the_fire<C: Handler, A: Allocator>(
    kernel: &mut KernelOf<C, A>,
    given: &Cell<Given>,
    calls: u64,
) -> bool
    requires { AnswersByPlan C.declared C.plan kernel.old.callbacks }
    ensures { AnswersByPlan C.declared C.plan kernel.new.callbacks }
{
    does(kernel, Call::Arrive { line: LINE }) && has(given, calls, 0)
}

/// Whether the first two events are given to callback 0.
pub(crate) fn gives_two_fires<C: Handler, A: Allocator>(
    kernel: &mut KernelOf<C, A>,
    given: &Cell<Given>,
) -> bool
    requires { AnswersByPlan C.declared C.plan kernel.old.callbacks }
{
    let request = Call::Request {
        line: LINE,
        stage: STAGE,
        callback: 0,
        tag: TAG,
    };
    let requested = does(kernel, request);
    let first = gives_the_fire(kernel, given, 1);
    let second = gives_the_fire(kernel, given, 2);
    requested && first && second
}

#[test]
fn a_kernel_hands_on_the_fire(rt: HostRuntime) {
    let given = nothing();
    let alloc = rt.alloc();
    let bank = Vec::from_array(alloc, [keeping(&given)]).expect(&rt, "bank");
    let row = Row::TwoFires(&given);
    assert!(rt; on_a_kernel(alloc, alloc, 0, bank, 100, row) == Ok(true));
}

// A callback that counts its calls here.
#[derive(Drop)]
struct Counted<'a, C: Drop> {
    callback: C,
    calls: &'a AtomicU64,
}

impl<'a, C: Handler> PipelineRow<C> for Counted<'a, C> {
    // Each of two plays calls it once.
    fn ask<A: Allocator>(self, pipeline: &mut PipelineOf<C, A>) -> bool {
        let Counted { callback, calls } = self;
        let mut told = pipeline.request(LINE, STAGE, callback, TAG).is_ok();
        for count in 1..3 {
            let posted = pipeline.post(STAGE, LINE).is_ok();
            let played = pipeline.next(false, true, 0).is_some();
            told = told && posted && played && calls.load(Ordering::SeqCst) == count;
        }
        told
    }
}

// A stored closure is called once for each play.
#[test]
fn a_play_calls_once(rt: HostRuntime) {
    let alloc = rt.alloc();
    let calls = Arc::new(alloc, AtomicU64::new(0)).expect(&rt, "count");
    let counted = calls.clone().expect(&rt, "count");
    let run = Box::new(alloc, move |_: Fire| {
        counted.fetch_add(1, Ordering::SeqCst);
        Answer::quiet()
    })
    .expect(&rt, "box");
    let callback = Callback::new(ActionKinds::from_bits_retain(0), &Plan::quiet(1), run);
    let row = Counted {
        callback,
        calls: &calls,
    };
    assert!(rt; on_a_pipeline(alloc, row) == Ok(true));
}
