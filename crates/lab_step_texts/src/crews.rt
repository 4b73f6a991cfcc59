//! The callers of a text that was read, with their calls.
ghost use Rattle.std.specs.Prelude.{ℕ, ◌≡◌, ◌≤◌, [], IfErr, IfOk, Some, drop, find, length, map, option_map, slice_get, slice_index_or, take};
ghost use Rattle.std.specs.List.{list_all, list_any};
ghost use Rattle.lab_step_texts.specs.Calls as texts;
ghost use Rattle.lab_step_texts.specs.Calls.{attaches, is_of, own_calls, stage_in, unattached};
ghost use Rattle.lab_step_texts.specs.Crews as crews;
ghost use Rattle.lab_step_texts.specs.Crews.{IsCrewOf, IsKept, caller_of};
ghost use Rattle.lab_step_texts.specs.Extras.{own_ways};
ghost use Rattle.lab_step_orders.specs.declared.crews.CrewCaller.{CrewCaller};

use crate::calls::{CallerCall, CallsFault, calls_of};
use crate::extras::Extras;
use crate::faults::{StepFault, StepsFault};
use evl_base::{Call, MutexKind, Policy, Stage, ThreadId};
use evl_scenario::{Fault, Step};
use lab_callers_text::{Act, CallersStep, CallersText};
use lab_step_orders::{CoreUse, Crew, CrewCaller, StepWatch, WordCall};
use std::alloc::{AllocError, Global};

// Whether a mutex neither nests nor has a ceiling.
fn is_plain(kind: MutexKind) -> bool
    ensures { result ≡ crews.is_plain kind }
{
    match kind {
        MutexKind::Normal => true,
        MutexKind::Recursive | MutexKind::Ceiling(_) => false,
    }
}

// Whether all of these do.
fn are_plain(kinds: &[MutexKind]) -> bool
    ensures { result ≡ list_all crews.is_plain kinds.now }
{
    kinds.iter().all(|kind| is_plain(*kind))
}

// Whether a policy is neither of a quota group nor weak.
fn is_steady(policy: Policy) -> bool
    ensures { result ≡ texts.is_steady policy }
{
    match policy {
        Policy::Quota { .. } | Policy::Weak(_) => false,
        Policy::Fifo(_) | Policy::Rr { .. } => true,
    }
}

// The stage on which a step attaches its thread, if it does.
fn stage_set(act: &Act) -> Option<Stage>
    ensures { result ≡ texts.stage_set act.now }
{
    match act {
        Act::Call(Call::Attach { policy, stage }) => {
            if is_steady(*policy) {
                Some(*stage)
            } else {
                None
            }
        }
        _ => None,
    }
}

// Whether a step is of this thread.
fn is_any(steps: &[CallersStep], who: ThreadId) -> bool
    ensures { result ≡ list_any (is_of who.0) steps.now }
{
    steps.iter().any(|step| step.who.0 == who.0)
}

// Whether a step may be set up after these.
fn may_attach(threads: u16, before: &[CallersStep], step: &CallersStep) -> bool
    ensures { result ≡ texts.may_attach threads before.now step.now }
{
    step.who.0 < threads && stage_set(&step.act).is_some() && !is_any(before, step.who)
}

// The number of the first step that may not be set up, from 1.
fn unattached(threads: u16, setup: &[CallersStep]) -> Option<usize>
    ensures { result ≡ unattached threads 1 [] setup.now }
{
    for i in 0..setup.len() {
        if !may_attach(threads, &setup[..i], &setup[i]) {
            return Some(i + 1);
        }
    }
    None
}

// The first step of a thread.
fn first_of(setup: &[CallersStep], who: u16) -> Option<&CallersStep>
    ensures { option_map (λ step. step.now) result ≡ find (is_of who) setup.now }
{
    setup.iter().find(|step| step.who.0 == who)
}

// The stage of a thread after what is set up.
fn stage_in(setup: &[CallersStep], who: u16) -> Stage
    ensures { result ≡ stage_in who setup.now }
{
    match first_of(setup, who) {
        Some(step) => stage_set(&step.act).unwrap_or(Stage::Inband),
        None => Stage::Inband,
    }
}

// The calls of one caller.
fn own_calls(alloc: Global, calls: &[CallerCall], who: u16) -> Result<Vec<WordCall>, AllocError>
    ensures { IfOk result (λ own. own.items ≡ own_calls who calls.now) }
{
    let mut own = Vec::new(alloc);
    for made in calls {
        if made.who.0 == who {
            own.push(made.call)?;
        }
    }
    Ok(own)
}

// How the step with this number comes by the core.
fn way_at(ways: &[CoreUse], number: usize) -> CoreUse
    ensures { result ≡ slice_index_or ways.now number CoreUse.Whole }
{
    match ways.get(number) {
        Some(way) => *way,
        None => CoreUse::Whole,
    }
}

// How the calls of one caller come by the core.
fn own_ways(
    alloc: Global,
    ways: &[CoreUse],
    steps: &[CallersStep],
    who: u16,
) -> Result<Vec<CoreUse>, AllocError>
    ensures { IfOk result (λ own. own.items ≡ own_ways who ways.now 0 steps.now) }
{
    let mut own = Vec::new(alloc);
    for (number, step) in steps.iter().enumerate() {
        if step.who.0 == who {
            own.push(way_at(ways, number))?;
        }
    }
    Ok(own)
}

// A thread on its stage, with its calls.
fn caller_of(
    alloc: Global,
    setup: &[CallersStep],
    steps: &[CallersStep],
    ways: &[CoreUse],
    calls: &[CallerCall],
    who: u16,
) -> Result<CrewCaller, AllocError>
    ensures { IfOk result (caller_of setup.now steps.now ways.now calls.now who) }
{
    let stage = stage_in(setup, who);
    let calls = own_calls(alloc, calls, who)?;
    let uses = own_ways(alloc, ways, steps, who)?;
    Ok(CrewCaller { stage, calls, uses })
}

// So many threads.
fn callers_of(
    alloc: Global,
    threads: u16,
    setup: &[CallersStep],
    steps: &[CallersStep],
    ways: &[CoreUse],
    calls: &[CallerCall],
) -> Result<Vec<CrewCaller>, AllocError>
    ensures each { IfOk result (λ all. length all.items ≡ threads) }
    ensures callers { IfOk result (λ all. (k : ℕ) (caller : CrewCaller) → slice_get all.items k ≡ Some caller → caller_of setup.now steps.now ways.now calls.now k caller) }
{
    let mut all = Vec::new(alloc);
    for who in 0..threads {
        let caller = caller_of(alloc, setup, steps, ways, calls, who)?;
        all.push(caller)?;
    }
    Ok(all)
}

// A step as a call of the kernel; one that is no call of it as a question that changes nothing.
fn kernel_step(step: CallersStep) -> Step
    ensures { result ≡ texts.kernel_step step }
{
    let CallersStep { who, act } = step;
    match act {
        Act::Call(call) => Step { who, call },
        _ => Step {
            who,
            call: Call::Now,
        },
    }
}

// All steps as calls of the kernel, at their places.
fn steps_of(alloc: Global, steps: Vec<CallersStep>) -> Result<Vec<Step>, AllocError>
    ensures { IfOk result (λ all. all.items ≡ map texts.kernel_step steps.items) }
{
    let mut all = Vec::new(alloc);
    for step in steps {
        all.push(kernel_step(step))?;
    }
    Ok(all)
}

// The steps that attach threads.
fn setup_of(alloc: Global, steps: &[CallersStep]) -> Result<Vec<Step>, AllocError>
    ensures { IfOk result (λ all. all.items ≡ attaches steps.now) }
{
    let mut all = Vec::new(alloc);
    for step in steps {
        if let Act::Call(Call::Attach { policy, stage }) = &step.act {
            let call = Call::Attach {
                policy: *policy,
                stage: *stage,
            };
            all.push(Step {
                who: step.who,
                call,
            })?;
        }
    }
    Ok(all)
}

// The callers with these calls.
fn crew_with(
    alloc: Global,
    read: CallersText,
    count: usize,
    extras: &Extras,
    calls: &[CallerCall],
    watches: Vec<StepWatch>,
) -> Result<Crew, AllocError>
    requires { count ≤ length read.steps.items }
    ensures board { IfOk result (λ crew. crew.board ≡ read.board) }
    ensures limit { IfOk result (λ crew. crew.limit ≡ read.limit) }
    ensures setup { IfOk result (λ crew. crew.setup.items ≡ attaches (take count read.steps.items)) }
    ensures steps { IfOk result (λ crew. crew.steps.items ≡ map texts.kernel_step read.steps.items) }
    ensures each { IfOk result (λ crew. length crew.callers.items ≡ read.board.threads) }
    ensures callers { IfOk result (λ crew. (k : ℕ) (caller : CrewCaller) → slice_get crew.callers.items k ≡ Some caller → caller_of (take count read.steps.items) (drop count read.steps.items) extras.now.ways.items calls.now k caller) }
    ensures what_if { IfOk result (λ crew. crew.what_if ≡ extras.now.what_if) }
    ensures watches { IfOk result (λ crew. crew.watches.items ≡ watches.items) }
{
    let CallersText {
        board,
        limit,
        steps,
    } = read;
    let first = &steps.as_slice()[..count];
    let behind = &steps.as_slice()[count..];
    let ways = extras.ways.as_slice();
    let setup = setup_of(alloc, first)?;
    let callers = callers_of(alloc, board.threads, first, behind, ways, calls)?;
    let all = steps_of(alloc, steps)?;
    match Crew::new(board, limit, setup, all, callers, extras.what_if, watches) {
        Ok(crew) => Ok(crew),
        // No board that was read is out of its limits.
        Err(_) => Err(AllocError),
    }
}

/// The callers of a text that was read, of which so many steps are set up.
pub(crate) fn crew_of(
    alloc: Global,
    read: CallersText,
    count: usize,
    extras: &Extras,
    watches: Vec<StepWatch>,
) -> Result<Crew, StepsFault>
    requires { count ≤ length read.steps.items }
    ensures crew { IfOk result (IsCrewOf extras.now read count) }
    ensures kept { IfErr result (IsKept read count) }
    ensures watches { IfOk result (λ crew. crew.watches.items ≡ watches.items) }
{
    if !are_plain(read.board.mutexes.as_slice()) {
        return Err(StepsFault::Mutex);
    }
    let steps = read.steps.as_slice();
    if steps.len() > read.limit as usize {
        return Err(StepsFault::Limit);
    }
    if let Some(number) = unattached(read.board.threads, &steps[..count]) {
        return Err(StepsFault::Step(number, StepFault::Setup));
    }
    let calls = match calls_of(alloc, read.board.threads, count, steps) {
        Ok(calls) => calls,
        Err(CallsFault::Step(number, fault)) => return Err(StepsFault::Step(number, fault)),
        Err(CallsFault::Memory) => return Err(StepsFault::Text(Fault::Memory)),
    };
    match crew_with(alloc, read, count, extras, calls.as_slice(), watches) {
        Ok(crew) => Ok(crew),
        Err(_) => Err(StepsFault::Text(Fault::Memory)),
    }
}
