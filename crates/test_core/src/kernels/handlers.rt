//! Plans, answers, handlers and boards for tests, and calls of thread 0.
ghost use Rattle.std.specs.Prelude.{◌≡◌, []};
ghost use Rattle.evl_kernel.specs.state.Callbacks.{AnswersByPlan};
ghost use Rattle.evl_pipeline.specs.Plans.{answer_of};

use crate::boards::bare_board;
use bitflags::Flags;
use evl_base::{ActionKinds, Board, Call, Policy, Refusal, Reply, SemId, Stage, ThreadId};
use evl_kernel::KernelOf;
use evl_pipeline::{Answer, Fire, Handler, Plan};
use std::alloc::{AllocError, Allocator};
use std::snapshot::Snapshot;

pub(crate) const SEM: SemId = SemId(0);

pub(crate) const CALLER: ThreadId = ThreadId(0);

/// The caller is attached out-of-band.
pub(crate) const ATTACH: Call = Call::Attach {
    policy: Policy::Fifo(10),
    stage: Stage::Oob,
};

/// A handler of one's own, with no closure in it: it handles each event and asks for nothing.
#[derive(Drop)]
pub(crate) struct QuietHandler {
    plan: Snapshot<Plan>,
    ghost accepts: { plan.value.accepts ≡ 1 },
    ghost rows: { plan.value.rows.items ≡ [] },
}

impl QuietHandler {
    pub(crate) fn new() -> QuietHandler {
        QuietHandler {
            plan: Snapshot::of(&Plan::quiet(1)),
        }
    }
}

impl Handler for QuietHandler {
    ghost plan = { λ handler. handler.plan.value };

    ghost declared = { λ handler. 0 };

    ghost gives = { λ handler fire answer. answer ≡ answer_of handler.plan.value fire.count };

    fn fire(&self, fire: Fire) -> Answer {
        let _ = fire;
        let _ = &self.plan;
        Answer::quiet()
    }

    fn kinds(&self) -> ActionKinds {
        ActionKinds::from_bits_retain(0)
    }

    fn told(&self) -> &Snapshot<Plan> {
        &self.plan
    }
}

/// A bank of so many handlers that ask for nothing.
pub(crate) fn quiet_bank<A: Allocator + Clone>(
    alloc: &A,
    count: u16,
) -> Result<Vec<QuietHandler, A>, AllocError> {
    let mut bank = Vec::new(alloc.clone()?);
    for _ in 0..count {
        bank.push(QuietHandler::new())?;
    }
    Ok(bank)
}

/// A board of so many threads and one semaphore with a count.
pub(crate) fn board_of(threads: u16, count: u32) -> Board
    ensures flags { result.flags.items ≡ [] }
    ensures xbufs { result.xbufs.items ≡ [] }
{
    let mut board = bare_board(threads);
    board.sems.push(count);
    board
}

/// One call of thread 0.
pub(crate) fn apply<C: Handler, A: Allocator>(
    kernel: &mut KernelOf<C, A>,
    call: Call,
) -> Result<Reply, Refusal>
    requires by_plan { AnswersByPlan C.declared C.plan kernel.old.callbacks }
    ensures by_plan { AnswersByPlan C.declared C.plan kernel.new.callbacks }
{
    kernel.apply(CALLER, call)
}

/// Whether one call of thread 0 is done.
pub(crate) fn does<C: Handler, A: Allocator>(kernel: &mut KernelOf<C, A>, call: Call) -> bool
    requires by_plan { AnswersByPlan C.declared C.plan kernel.old.callbacks }
    ensures by_plan { AnswersByPlan C.declared C.plan kernel.new.callbacks }
{
    matches!(apply(kernel, call), Ok(Reply::Done))
}

/// Room for so many calls.
pub(crate) fn reserve<C: Handler, A: Allocator>(
    kernel: &mut KernelOf<C, A>,
    n: usize,
) -> Result<(), Refusal>
    requires by_plan { AnswersByPlan C.declared C.plan kernel.old.callbacks }
    ensures by_plan { AnswersByPlan C.declared C.plan kernel.new.callbacks }
{
    kernel.reserve(n)
}

/// Whether room was made for so many calls.
pub(crate) fn makes_room<C: Handler, A: Allocator>(kernel: &mut KernelOf<C, A>, n: usize) -> bool
    requires by_plan { AnswersByPlan C.declared C.plan kernel.old.callbacks }
    ensures by_plan { AnswersByPlan C.declared C.plan kernel.new.callbacks }
{
    reserve(kernel, n).is_ok()
}

/// How many calls the history has.
pub(crate) fn entries<C, A: Allocator>(kernel: &KernelOf<C, A>) -> usize {
    kernel.history().len()
}

/// How many plays the calls made.
pub(crate) fn plays<C, A: Allocator>(kernel: &KernelOf<C, A>) -> usize {
    kernel.plays().len()
}
