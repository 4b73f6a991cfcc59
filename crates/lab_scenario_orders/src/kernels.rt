//! A kernel that is led along steps.
ghost use Rattle.std.specs.Prelude.{◌≡◌, IfOk, OnOk, option_map};
ghost use Rattle.evl_base.specs.Call.{boxes_in_call};
ghost use Rattle.evl_kernel.specs.state.Callbacks.{AnswersByPlan};
ghost use Rattle.evl_kernel.specs.state.KernelViews.{makes_entry};
ghost use Rattle.evl_kernel.specs.state.Openings.{opening};
ghost use Rattle.evl_kernel.specs.histories.Replays.{step_outcome};
ghost use Rattle.lab_scenario_orders.specs.Callers.{state_begun, goes_on, has_turn, is_held, is_turn, set_up};
ghost use Rattle.lab_scenario_orders.specs.Moments.{held_in, made_at, trailed};

use crate::banks::BankMaker;
use crate::callers::Callers;
use evl_base::{Call, Refusal, Reply, Spares, Stage, ThreadId};
use evl_kernel::KernelOf;
use evl_pipeline::Handler;
use evl_scenario::{Step, StepAnswer};
use std::alloc::{AllocError, Global};

// How many boxes the bytes of a call take.
fn boxes_in(call: &Call) -> usize
    ensures { result ≡ boxes_in_call call.now }
{
    match call {
        Call::Write { .. } | Call::BeginWrite { .. } => 1,
        _ => 0,
    }
}

// The same call once more. `AllocError` where there is no memory for its bytes.
fn copied_call(alloc: Global, call: &Call) -> Result<Call, AllocError>
    ensures { IfOk result (λ same. same ≡ call.now) }
{
    let mut spares = Spares::new(alloc, alloc);
    match spares.keep(boxes_in(call)) {
        Ok(()) => Ok(call.copied(&mut spares)),
        Err(_) => Err(AllocError),
    }
}

/// Whether a thread's wait goes on.
pub(crate) fn goes_on<C>(kernel: &KernelOf<C, Global>, who: ThreadId) -> bool
    ensures { result ≡ goes_on kernel.now.history.state who.0 }
{
    kernel.waits(who) && !kernel.finished(who)
}

// Whether a thread on this stage has its turn, by who is picked.
fn is_turn(stage: Stage, who: ThreadId, chosen: Option<ThreadId>) -> bool
    ensures { result ≡ is_turn stage who.0 (option_map (λ thread. thread.0) chosen) }
{
    match stage {
        Stage::Oob => match chosen {
            Some(thread) => thread.0 == who.0,
            None => false,
        },
        Stage::Inband => chosen.is_none(),
    }
}

// Whether a thread has its turn.
fn has_turn<C>(kernel: &KernelOf<C, Global>, who: ThreadId) -> bool
    ensures { result ≡ has_turn kernel.now.history.state who.0 }
{
    match kernel.rank(who) {
        Some(_) => is_turn(kernel.stage(who), who, kernel.picked()),
        None => true,
    }
}

/// Whether a thread can make no step: its wait goes on, or it hasn't its turn where steps are made as threads are
/// picked.
pub(crate) fn is_held<C>(kernel: &KernelOf<C, Global>, as_picked: bool, who: ThreadId) -> bool
    ensures { result ≡ is_held as_picked kernel.now.history.state who.0 }
{
    goes_on(kernel, who) || (as_picked && !has_turn(kernel, who))
}

/// For each caller, whether it can make no step.
pub(crate) fn held_of<C>(
    alloc: Global,
    kernel: &KernelOf<C, Global>,
    callers: &Callers,
) -> Result<Vec<bool>, AllocError>
    ensures { IfOk result (λ all. all.items ≡ held_in callers.now kernel.now.history.state) }
{
    let mut all = Vec::with_capacity(alloc, callers.callers.len())?;
    for caller in &callers.callers {
        all.push(is_held(kernel, callers.as_picked, caller.who))?;
    }
    Ok(all)
}

// Whether a call that was answered so has an entry.
fn has_entry(answer: &Result<Reply, Refusal>) -> bool
    ensures { result ≡ makes_entry answer.now }
{
    match answer {
        Err(Refusal::NoMemory | Refusal::HistoryFull) => false,
        _ => true,
    }
}

/// Makes a step. `AllocError` where the kernel made no entry: it had no room, or its history is full.
pub(crate) fn make_step<C: Handler>(
    alloc: Global,
    kernel: &mut KernelOf<C, Global>,
    step: &Step,
) -> Result<StepAnswer, AllocError>
    requires { AnswersByPlan C.declared C.plan kernel.old.callbacks }
    ensures by_plan { AnswersByPlan C.declared C.plan kernel.new.callbacks }
    ensures reply { IfOk result (λ answer. answer.0 ≡ (step_outcome kernel.old.history.state step.now.who.0 step.now.call).reply) }
    ensures state { OnOk result (kernel.new.history.state ≡ (step_outcome kernel.old.history.state step.now.who.0 step.now.call).after) }
    ensures bank { OnOk result (kernel.new.history.bank ≡ kernel.old.history.bank) }
{
    let same = match copied_call(alloc, &step.call) {
        Ok(same) => same,
        Err(error) => return Err(error),
    };
    let answer = kernel.apply(step.who, same);
    if has_entry(&answer) {
        Ok(StepAnswer(answer))
    } else {
        Err(AllocError)
    }
}

// Makes the steps that are set up.
fn set_up<C: Handler>(
    alloc: Global,
    kernel: &mut KernelOf<C, Global>,
    steps: &[Step],
) -> Result<(), AllocError>
    requires { AnswersByPlan C.declared C.plan kernel.old.callbacks }
    ensures by_plan { AnswersByPlan C.declared C.plan kernel.new.callbacks }
    ensures state { OnOk result (kernel.new.history.state ≡ set_up kernel.old.history.state steps.now) }
    ensures bank { OnOk result (kernel.new.history.bank ≡ kernel.old.history.bank) }
{
    for step in steps {
        match make_step(alloc, kernel, step) {
            Ok(_) => {}
            Err(error) => return Err(error),
        }
    }
    Ok(())
}

// Makes the step at a place.
fn make_at<C: Handler>(
    alloc: Global,
    kernel: &mut KernelOf<C, Global>,
    callers: &Callers,
    place: usize,
) -> Result<(), AllocError>
    requires { AnswersByPlan C.declared C.plan kernel.old.callbacks }
    ensures by_plan { AnswersByPlan C.declared C.plan kernel.new.callbacks }
    ensures state { OnOk result (kernel.new.history.state ≡ made_at callers.now kernel.old.history.state place) }
    ensures bank { OnOk result (kernel.new.history.bank ≡ kernel.old.history.bank) }
{
    match callers.steps.get(place) {
        Some(step) => match make_step(alloc, kernel, step) {
            Ok(_) => Ok(()),
            Err(error) => Err(error),
        },
        None => Ok(()),
    }
}

// Makes the steps at these places.
fn make_all<C: Handler>(
    alloc: Global,
    kernel: &mut KernelOf<C, Global>,
    callers: &Callers,
    places: &[usize],
) -> Result<(), AllocError>
    requires { AnswersByPlan C.declared C.plan kernel.old.callbacks }
    ensures by_plan { AnswersByPlan C.declared C.plan kernel.new.callbacks }
    ensures state { OnOk result (kernel.new.history.state ≡ trailed callers.now kernel.old.history.state places.now) }
    ensures bank { OnOk result (kernel.new.history.bank ≡ kernel.old.history.bank) }
{
    for place in places {
        match make_at(alloc, kernel, callers, *place) {
            Ok(()) => {}
            Err(error) => return Err(error),
        }
    }
    Ok(())
}

// A kernel on which nothing was done yet.
fn opened<B: BankMaker>(
    alloc: Global,
    callers: &Callers,
    bank: &B,
) -> Result<KernelOf<B::Made, Global>, AllocError>
    ensures by_plan { IfOk result (λ kernel. AnswersByPlan B.Made.declared B.Made.plan kernel.callbacks) }
    ensures state { IfOk result (λ kernel. kernel.history.state ≡ opening callers.now.board (B.bank bank.now)) }
    ensures bank { IfOk result (λ kernel. kernel.history.bank ≡ B.bank bank.now) }
{
    let made = match bank.make(alloc) {
        Ok(made) => made,
        Err(error) => return Err(error),
    };
    match KernelOf::new(alloc, callers.board.copied(), made, callers.limit) {
        Ok(kernel) => Ok(kernel),
        Err(_) => Err(AllocError),
    }
}

// Leads a kernel along what is set up and the steps at these places.
fn lead<C: Handler>(
    alloc: Global,
    kernel: &mut KernelOf<C, Global>,
    callers: &Callers,
    places: &[usize],
) -> Result<(), AllocError>
    requires { AnswersByPlan C.declared C.plan kernel.old.callbacks }
    ensures by_plan { AnswersByPlan C.declared C.plan kernel.new.callbacks }
    ensures state { OnOk result (kernel.new.history.state ≡ trailed callers.now (set_up kernel.old.history.state callers.now.setup.items) places.now) }
    ensures bank { OnOk result (kernel.new.history.bank ≡ kernel.old.history.bank) }
{
    match set_up(alloc, kernel, callers.setup.as_slice()) {
        Ok(()) => make_all(alloc, kernel, callers, places),
        Err(error) => Err(error),
    }
}

// So many bytes: kernels of a text take fewer.
const MUCH: usize = 16_777_216;

// Room for so many.
#[inline(never)]
fn much_room(alloc: Global) -> Result<Vec<u8>, AllocError> {
    Vec::with_capacity(alloc, MUCH)
}

/// Takes much room and leaves it: from then on the C library keeps what kernels leave for the next ones, up to twice as much,
/// where it would give it back to the system each time. If there isn't so much, nothing comes of it.
pub(crate) fn keep_room(alloc: Global) {
    drop(much_room(alloc));
}

/// Lets a kernel go. All that goes with it is proved here once, and not wherever a kernel is done with.
pub(crate) fn leave<C: Handler>(kernel: KernelOf<C, Global>) {
    drop(kernel);
}

// A kernel, led along these steps.
fn led_on<C: Handler>(
    alloc: Global,
    mut kernel: KernelOf<C, Global>,
    callers: &Callers,
    places: &[usize],
) -> Result<KernelOf<C, Global>, AllocError>
    requires { AnswersByPlan C.declared C.plan kernel.callbacks }
    ensures by_plan { IfOk result (λ led. AnswersByPlan C.declared C.plan led.callbacks) }
    ensures state { IfOk result (λ led. led.history.state ≡ trailed callers.now (set_up kernel.history.state callers.now.setup.items) places.now) }
    ensures bank { IfOk result (λ led. led.history.bank ≡ kernel.history.bank) }
{
    match lead(alloc, &mut kernel, callers, places) {
        Ok(()) => Ok(kernel),
        Err(error) => {
            leave(kernel);
            Err(error)
        }
    }
}

/// The kernel after what is set up and the steps at these places. `AllocError` where memory couldn't grow, or the
/// history has no room for so many entries.
pub(crate) fn led<B: BankMaker>(
    alloc: Global,
    callers: &Callers,
    bank: &B,
    places: &[usize],
) -> Result<KernelOf<B::Made, Global>, AllocError>
    ensures by_plan { IfOk result (λ kernel. AnswersByPlan B.Made.declared B.Made.plan kernel.callbacks) }
    ensures state { IfOk result (λ kernel. kernel.history.state ≡ trailed callers.now (state_begun callers.now (B.bank bank.now)) places.now) }
    ensures bank { IfOk result (λ kernel. kernel.history.bank ≡ B.bank bank.now) }
{
    match opened(alloc, callers, bank) {
        Ok(kernel) => led_on(alloc, kernel, callers, places),
        Err(error) => Err(error),
    }
}
