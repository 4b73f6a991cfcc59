//! New pipelines: the memory that they take, and the order in which they play their lines.
use super::handlers::{QuietHandler, quiet_bank};
use super::rows::{PipelineRow, on_a_pipeline};
use evl_base::{LINES, LineNo, Refusal, Stage};
use evl_pipeline::{Callback, PipelineOf, Ran};
use linked_list_allocator::LocalHeap;
use std::alloc::{Allocator, Global};

const LINE: LineNo = LineNo(5);

#[derive(Drop)]
struct Nothing;

impl PipelineRow<Callback> for Nothing {
    fn ask<A: Allocator>(self, _pipeline: &mut PipelineOf<Callback, A>) -> bool {
        true
    }
}

// Whether a heap of this size is too small for a pipeline, and all that was taken goes back.
fn is_too_small(alloc: Global, size: usize) -> bool {
    match LocalHeap::new(alloc, size) {
        Ok(heap) => on_a_pipeline(&heap, Nothing) == Err(Refusal::NoMemory) && heap.used() == 0,
        Err(_) => false,
    }
}

#[test]
fn a_new_pipeline_is_refused_in_short_memory(rt: HostRuntime) {
    for size in [64, 4096, 65536, 262144] {
        assert!(rt; is_too_small(rt.alloc(), size));
    }
}

// The memory that the pipeline has.
#[derive(Drop)]
struct OneLine<'a> {
    heap: &'a LocalHeap,
}

impl<'a> PipelineRow<QuietHandler> for OneLine<'a> {
    // A request, events and a play take no memory.
    fn ask<A: Allocator>(self, pipeline: &mut PipelineOf<QuietHandler, A>) -> bool {
        let OneLine { heap } = self;
        let used = heap.used();
        let requested = pipeline
            .request(LINE, Stage::Oob, QuietHandler::new(), 0)
            .is_ok();
        let arrived = pipeline.arrive(LINE).is_ok();
        let spurious = pipeline.arrive(LineNo(6)).is_ok();
        let played = pipeline.next(false, true, 0).is_some();
        requested && arrived && spurious && played && heap.used() == used
    }
}

#[test]
fn only_new_takes_memory(rt: HostRuntime) {
    let heap = LocalHeap::new(rt.alloc(), 4194304).expect(&rt, "heap");
    assert!(rt; on_a_pipeline(&heap, OneLine { heap: &heap }) == Ok(true));
}

// Every line but the clock's has a handler and a pending event, and so has the clock's.
fn fill<A: Allocator>(
    pipeline: &mut PipelineOf<QuietHandler, A>,
    handlers: &mut Vec<QuietHandler>,
) -> bool {
    pipeline.stall(Stage::Oob);
    for line in 1..LINES as u16 {
        let Some(handler) = handlers.pop() else {
            return false;
        };
        let requested = pipeline.request(LineNo(line), Stage::Oob, handler, 0);
        if requested.is_err() || pipeline.arrive(LineNo(line)).is_err() {
            return false;
        }
    }
    let clock = pipeline.arrive(LineNo(0)).is_ok();
    pipeline.unstall(Stage::Oob);
    clock
}

// Whether this line is played next.
fn plays<A: Allocator>(pipeline: &mut PipelineOf<QuietHandler, A>, line: u16) -> bool {
    match pipeline.next(false, true, 0) {
        Some(Ran::Clock) => line == 0,
        Some(Ran::Line { fire, answer }) => fire.line.0 == line && answer.handled,
        None => false,
    }
}

// A handler for each line.
#[derive(Drop)]
struct EveryLine {
    handlers: Vec<QuietHandler>,
}

impl PipelineRow<QuietHandler> for EveryLine {
    fn ask<A: Allocator>(self, pipeline: &mut PipelineOf<QuietHandler, A>) -> bool {
        let EveryLine { mut handlers } = self;
        if !fill(pipeline, &mut handlers) {
            return false;
        }
        for line in 0..LINES as u16 {
            if !plays(pipeline, line) {
                return false;
            }
        }
        pipeline.next(false, true, 0).is_none()
    }
}

// All 4096 lines are pending, and are played in their order.
#[test]
fn every_line_is_played_in_order(rt: HostRuntime) {
    let alloc = rt.alloc();
    let handlers = quiet_bank(&alloc, LINES as u16).expect(&rt, "handlers");
    assert!(rt; on_a_pipeline(alloc, EveryLine { handlers }) == Ok(true));
}
