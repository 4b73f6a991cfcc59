//! A kernel that is led along the calls that visits make.
ghost use Rattle.std.specs.Prelude.{◌≡◌, [], true, IfOk, OnOk};
ghost use Rattle.evl_base.specs.declared.call.Call.{Call};
ghost use Rattle.evl_kernel.specs.state.Callbacks.{AnswersByPlan};
ghost use Rattle.evl_kernel.specs.state.KernelViews.{makes_entry};
ghost use Rattle.evl_kernel.specs.state.Openings.{opening};
ghost use Rattle.evl_kernel.specs.histories.Replays.{step_outcome};
ghost use Rattle.lab_step_orders.specs.Visits.{call_made, goes_on, made, set_up, trailed};

use crate::crews::Crew;
use crate::steps::Visit;
use evl_base::{Call, Refusal, Reply, Spares, ThreadId};
use evl_kernel::KernelOf;
use evl_pipeline::Handler;
use evl_plans::Planned;
use evl_scenario::Step;
use evl_shell::leave;
use lab_scenario_orders::BankMaker;
use std::alloc::{AllocError, Global};

/// No callbacks.
#[derive(Clone, Copy, Drop)]
pub(crate) struct NoPlans;

impl BankMaker for NoPlans {
    ghost use Rattle.std.specs.Prelude.{[]};

    type Made = Planned;

    ghost bank = { λ maker. [] };

    fn make(&self, alloc: Global) -> Result<Vec<Planned>, AllocError> {
        Ok(Vec::new(alloc))
    }
}

/// A call of the kernel in a visit, and the thread that made it.
#[derive(Clone, Copy, PartialEq, Eq)]
pub(crate) struct Visited {
    pub(crate) who: u16,
    pub(crate) visit: Visit,
}

// The same call once more. `AllocError` where there is no memory for its bytes.
fn copied_call(alloc: Global, call: &Call) -> Result<Call, AllocError>
    ensures { IfOk result (λ same. same ≡ call.now) }
{
    let mut spares = Spares::new(alloc, alloc);
    match spares.keep(1) {
        Ok(()) => Ok(call.copied(&mut spares)),
        Err(_) => Err(AllocError),
    }
}

/// The call of a visit. `AllocError` where there is no memory for its bytes.
pub fn call_made(alloc: Global, crew: &Crew, visit: Visit) -> Result<Call, AllocError>
    ensures { IfOk result (λ call. call ≡ call_made crew.now visit) }
{
    match visit {
        Visit::Release(mutex) => Ok(Call::Release { mutex }),
        Visit::Claim {
            mutex,
            owner,
            until,
        } => Ok(Call::Claim {
            mutex,
            owner,
            until,
        }),
        Visit::Finish => Ok(Call::Finish { keep: true }),
        Visit::Step(place) => match crew.steps.get(place) {
            Some(step) => copied_call(alloc, &step.call),
            None => Ok(Call::Now),
        },
    }
}

// Whether a call that was answered so has an entry.
fn has_entry(answer: &Result<Reply, Refusal>) -> bool
    ensures { result ≡ makes_entry answer.now }
{
    match answer {
        Err(Refusal::NoMemory | Refusal::HistoryFull) => false,
        _ => true,
    }
}

// Makes a call. `AllocError` where the kernel made no entry: it had no room, or its history is full.
fn apply<C: Handler>(
    kernel: &mut KernelOf<C, Global>,
    who: ThreadId,
    call: Call,
) -> Result<Result<Reply, Refusal>, AllocError>
    requires { AnswersByPlan C.declared C.plan kernel.old.callbacks }
    ensures by_plan { AnswersByPlan C.declared C.plan kernel.new.callbacks }
    ensures reply { IfOk result (λ answer. answer ≡ (step_outcome kernel.old.history.state who.0 call).reply) }
    ensures state { OnOk result (kernel.new.history.state ≡ (step_outcome kernel.old.history.state who.0 call).after) }
    ensures bank { OnOk result (kernel.new.history.bank ≡ kernel.old.history.bank) }
{
    let answer = kernel.apply(who, call);
    if has_entry(&answer) {
        Ok(answer)
    } else {
        Err(AllocError)
    }
}

/// Makes the call of a visit. `AllocError` where the kernel made no entry.
pub(crate) fn visit_by<C: Handler>(
    alloc: Global,
    crew: &Crew,
    kernel: &mut KernelOf<C, Global>,
    visited: Visited,
) -> Result<Result<Reply, Refusal>, AllocError>
    requires { AnswersByPlan C.declared C.plan kernel.old.callbacks }
    ensures by_plan { AnswersByPlan C.declared C.plan kernel.new.callbacks }
    ensures reply { IfOk result (λ answer. answer ≡ (step_outcome kernel.old.history.state visited.who (call_made crew.now visited.visit)).reply) }
    ensures state { OnOk result (kernel.new.history.state ≡ made crew.now kernel.old.history.state visited) }
    ensures bank { OnOk result (kernel.new.history.bank ≡ kernel.old.history.bank) }
{
    match call_made(alloc, crew, visited.visit) {
        Ok(call) => apply(kernel, ThreadId(visited.who), call),
        Err(error) => Err(error),
    }
}

// Makes a step.
fn make_step<C: Handler>(
    alloc: Global,
    kernel: &mut KernelOf<C, Global>,
    step: &Step,
) -> Result<Result<Reply, Refusal>, AllocError>
    requires { AnswersByPlan C.declared C.plan kernel.old.callbacks }
    ensures by_plan { AnswersByPlan C.declared C.plan kernel.new.callbacks }
    ensures state { OnOk result (kernel.new.history.state ≡ (step_outcome kernel.old.history.state step.now.who.0 step.now.call).after) }
    ensures bank { OnOk result (kernel.new.history.bank ≡ kernel.old.history.bank) }
{
    match copied_call(alloc, &step.call) {
        Ok(call) => apply(kernel, step.who, call),
        Err(error) => Err(error),
    }
}

// Makes the steps that are set up.
fn set_up<C: Handler>(
    alloc: Global,
    kernel: &mut KernelOf<C, Global>,
    steps: &[Step],
) -> Result<(), AllocError>
    requires { AnswersByPlan C.declared C.plan kernel.old.callbacks }
    ensures by_plan { AnswersByPlan C.declared C.plan kernel.new.callbacks }
    ensures state { OnOk result (kernel.new.history.state ≡ set_up kernel.old.history.state steps.now) }
    ensures bank { OnOk result (kernel.new.history.bank ≡ kernel.old.history.bank) }
{
    for step in steps {
        match make_step(alloc, kernel, step) {
            Ok(_) => {}
            Err(error) => return Err(error),
        }
    }
    Ok(())
}

// Makes the calls of these visits.
fn make_all<C: Handler>(
    alloc: Global,
    crew: &Crew,
    kernel: &mut KernelOf<C, Global>,
    trail: &[Visited],
) -> Result<(), AllocError>
    requires { AnswersByPlan C.declared C.plan kernel.old.callbacks }
    ensures by_plan { AnswersByPlan C.declared C.plan kernel.new.callbacks }
    ensures state { OnOk result (kernel.new.history.state ≡ trailed crew.now kernel.old.history.state trail.now) }
    ensures bank { OnOk result (kernel.new.history.bank ≡ kernel.old.history.bank) }
{
    for visited in trail {
        match visit_by(alloc, crew, kernel, *visited) {
            Ok(_) => {}
            Err(error) => return Err(error),
        }
    }
    Ok(())
}

// A kernel on which nothing was done yet.
fn opened<B: BankMaker>(
    alloc: Global,
    crew: &Crew,
    bank: &B,
) -> Result<KernelOf<B::Made, Global>, AllocError>
    ensures by_plan { IfOk result (λ kernel. AnswersByPlan B.Made.declared B.Made.plan kernel.callbacks) }
    ensures state { IfOk result (λ kernel. kernel.history.state ≡ opening crew.now.board (B.bank bank.now)) }
    ensures bank { IfOk result (λ kernel. kernel.history.bank ≡ B.bank bank.now) }
{
    let made = match bank.make(alloc) {
        Ok(made) => made,
        Err(error) => return Err(error),
    };
    match KernelOf::new(alloc, crew.board.copied(), made, crew.limit) {
        Ok(kernel) => Ok(kernel),
        Err(_) => Err(AllocError),
    }
}

// Leads a kernel along what is set up and these visits.
fn lead<C: Handler>(
    alloc: Global,
    crew: &Crew,
    kernel: &mut KernelOf<C, Global>,
    trail: &[Visited],
) -> Result<(), AllocError>
    requires { AnswersByPlan C.declared C.plan kernel.old.callbacks }
    ensures by_plan { AnswersByPlan C.declared C.plan kernel.new.callbacks }
    ensures state { OnOk result (kernel.new.history.state ≡ trailed crew.now (set_up kernel.old.history.state crew.now.setup.items) trail.now) }
    ensures bank { OnOk result (kernel.new.history.bank ≡ kernel.old.history.bank) }
{
    match set_up(alloc, kernel, crew.setup.as_slice()) {
        Ok(()) => make_all(alloc, crew, kernel, trail),
        Err(error) => Err(error),
    }
}

// A kernel, led along these visits.
fn led_on<C: Handler>(
    alloc: Global,
    mut kernel: KernelOf<C, Global>,
    crew: &Crew,
    trail: &[Visited],
) -> Result<KernelOf<C, Global>, AllocError>
    requires { AnswersByPlan C.declared C.plan kernel.callbacks }
    ensures by_plan { IfOk result (λ led. AnswersByPlan C.declared C.plan led.callbacks) }
    ensures state { IfOk result (λ led. led.history.state ≡ trailed crew.now (set_up kernel.history.state crew.now.setup.items) trail.now) }
    ensures bank { IfOk result (λ led. led.history.bank ≡ kernel.history.bank) }
{
    match lead(alloc, crew, &mut kernel, trail) {
        Ok(()) => Ok(kernel),
        Err(error) => {
            leave(kernel);
            Err(error)
        }
    }
}

/// The kernel after what is set up and these visits. `AllocError` where memory couldn't grow, or the history has no room
/// for so many entries.
pub(crate) fn led<B: BankMaker>(
    alloc: Global,
    crew: &Crew,
    bank: &B,
    trail: &[Visited],
) -> Result<KernelOf<B::Made, Global>, AllocError>
    ensures by_plan { IfOk result (λ kernel. AnswersByPlan B.Made.declared B.Made.plan kernel.callbacks) }
    ensures state { IfOk result (λ kernel. kernel.history.state ≡ trailed crew.now (set_up (opening crew.now.board (B.bank bank.now)) crew.now.setup.items) trail.now) }
    ensures bank { IfOk result (λ kernel. kernel.history.bank ≡ B.bank bank.now) }
{
    match opened(alloc, crew, bank) {
        Ok(kernel) => led_on(alloc, kernel, crew, trail),
        Err(error) => Err(error),
    }
}

/// Whether a thread's wait goes on.
pub(crate) fn goes_on<C>(kernel: &KernelOf<C, Global>, who: u16) -> bool
    ensures { result ≡ goes_on kernel.now.history.state who }
{
    kernel.waits(ThreadId(who)) && !kernel.finished(ThreadId(who))
}

// Whether these visits lead to a kernel that is like one over the same callbacks.
fn is_led_alike<B: BankMaker>(
    alloc: Global,
    crew: &Crew,
    bank: &B,
    kernel: &KernelOf<B::Made, Global>,
    trail: &[Visited],
) -> bool
    requires bank { kernel.now.history.bank ≡ B.bank bank.now }
    ensures { result ≡ true → kernel.now.history.state ≡ trailed crew.now (set_up (opening crew.now.board (B.bank bank.now)) crew.now.setup.items) trail.now }
{
    match led(alloc, crew, bank, trail) {
        Ok(other) => {
            let alike = kernel.is_like(&other);
            leave(other);
            alike
        }
        Err(_) => false,
    }
}

// Whether these visits lead to kernels that stand alike.
fn are_led_alike<B: BankMaker>(
    alloc: Global,
    crew: &Crew,
    bank: &B,
    one: &[Visited],
    other: &[Visited],
) -> bool
    ensures { result ≡ true → trailed crew.now (set_up (opening crew.now.board (B.bank bank.now)) crew.now.setup.items) one.now ≡ trailed crew.now (set_up (opening crew.now.board (B.bank bank.now)) crew.now.setup.items) other.now }
{
    match led(alloc, crew, bank, one) {
        Ok(kernel) => {
            let alike = is_led_alike(alloc, crew, bank, &kernel, other);
            leave(kernel);
            alike
        }
        Err(_) => false,
    }
}

// Whether there are no visits in either list.
fn are_none(one: &[Visited], other: &[Visited]) -> bool
    ensures { result ≡ true → one.now ≡ other.now }
{
    match one {
        [] => match other {
            [] => true,
            _ => false,
        },
        _ => false,
    }
}

/// Whether visits in these two orders lead to kernels that stand alike. No, where memory couldn't grow.
pub(crate) fn do_trails_meet<B: BankMaker>(
    alloc: Global,
    crew: &Crew,
    bank: &B,
    one: &[Visited],
    other: &[Visited],
) -> bool
    ensures { result ≡ true → trailed crew.now (set_up (opening crew.now.board (B.bank bank.now)) crew.now.setup.items) one.now ≡ trailed crew.now (set_up (opening crew.now.board (B.bank bank.now)) crew.now.setup.items) other.now }
{
    if are_none(one, other) {
        return true;
    }
    are_led_alike(alloc, crew, bank, one, other)
}
