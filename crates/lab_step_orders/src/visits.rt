//! Turns that visit the kernel.
ghost use Rattle.std.specs.Prelude.{◌≡◌, IfOk, IsOkAnd, Some};
ghost use Rattle.lab_step_orders.specs.declared.crews.Crew.{Crew};
ghost use Rattle.evl_kernel.specs.state.Callbacks.{AnswersByPlan};
ghost use Rattle.evl_kernel.specs.waiting.Waits.{has_timed_out};
ghost use Rattle.lab_step_orders.specs.Visits as turns;
ghost use Rattle.lab_step_orders.specs.Visits.{answered, visit_turn};

use crate::calls::Answer;
use crate::crews::Crew;
use crate::kernels::{Visited, goes_on, visit_by};
use crate::programs::refuses;
use crate::steps::{
    Asked, CoreChange, MutexStep, Then, Turn, Visit, WaitChange, Waiting, WordStep,
};
use crate::words::{offers_to, owner_in};
use evl_base::{MutexId, Refusal, Reply, ThreadId};
use evl_kernel::KernelOf;
use evl_pipeline::Handler;
use std::alloc::{AllocError, Global};

// A turn that makes a call of the kernel, and steps on a mutex.
fn visits(
    mutex: MutexId,
    step: MutexStep,
    visit: Option<Visit>,
    wait: WaitChange,
    answer: Answer,
) -> Turn
    ensures { result ≡ turns.visits mutex step visit wait answer }
{
    Turn {
        step: Some(WordStep::AtMutex(mutex, step)),
        visit,
        core: CoreChange::Same,
        wait,
        then: Then::Answers(answer),
    }
}

// The mutex is handed on to this thread, which is one of the callers.
fn handed_to(crew: &Crew, mutex: MutexId, next: Option<ThreadId>, more: bool) -> Turn
    ensures { result ≡ turns.handed_to crew.now mutex next more }
{
    let visit = Some(Visit::Release(mutex));
    match next {
        Some(next) => {
            if next.0 < crew.count() {
                let step = MutexStep::Offer(next.0, more);
                visits(mutex, step, visit, WaitChange::Same, Answer::Done)
            } else {
                refuses(Refusal::Invalid)
            }
        }
        None => visits(
            mutex,
            MutexStep::Free,
            visit,
            WaitChange::Same,
            Answer::Done,
        ),
    }
}

// The mutex is handed on as the kernel answered.
fn handed(crew: &Crew, mutex: MutexId, answer: Result<Reply, Refusal>) -> Turn
    ensures { result ≡ turns.handed crew.now mutex answer }
{
    match answer {
        Ok(Reply::Handed { next, more }) => handed_to(crew, mutex, next, more),
        Ok(_) => refuses(Refusal::Invalid),
        Err(refusal) => refuses(refusal),
    }
}

// The wait for a mutex begins as the kernel answered.
fn claimed(mutex: MutexId, visit: Visit, answer: Result<Reply, Refusal>) -> Turn
    ensures { result ≡ turns.claimed mutex visit answer }
{
    match answer {
        Ok(_) => visits(
            mutex,
            MutexStep::Mark,
            Some(visit),
            WaitChange::Begins(Waiting::Mutex(mutex)),
            Answer::Begun,
        ),
        Err(refusal) => visits(
            mutex,
            MutexStep::Mark,
            None,
            WaitChange::Same,
            Answer::Refused(refusal),
        ),
    }
}

// The kernel's answer to a visit.
fn answered<C: Handler>(
    alloc: Global,
    crew: &Crew,
    kernel: &mut KernelOf<C, Global>,
    caller: u16,
    visit: Visit,
) -> Result<Result<Reply, Refusal>, AllocError>
    requires { AnswersByPlan C.declared C.plan kernel.old.callbacks }
    ensures { IfOk result (λ answer. answer ≡ answered crew.now kernel.old.history.state caller visit) }
{
    let visited = Visited { who: caller, visit };
    visit_by(alloc, crew, kernel, visited)
}

// A mutex with this owner is claimed.
fn queued<C: Handler>(
    alloc: Global,
    crew: &Crew,
    kernel: &mut KernelOf<C, Global>,
    caller: u16,
    mutex: MutexId,
    until: Option<u64>,
    owner: Option<ThreadId>,
) -> Result<Turn, AllocError>
    requires { AnswersByPlan C.declared C.plan kernel.old.callbacks }
    ensures { IfOk result (λ turn. turn ≡ turns.queued crew.now kernel.old.history.state caller mutex until owner) }
{
    let Some(owner) = owner else {
        return Ok(refuses(Refusal::Again));
    };
    let visit = Visit::Claim {
        mutex,
        owner,
        until,
    };
    match answered(alloc, crew, kernel, caller, visit) {
        Ok(answer) => Ok(claimed(mutex, visit, answer)),
        Err(error) => Err(error),
    }
}

// A mutex with this word is claimed.
fn begin<C: Handler>(
    alloc: Global,
    crew: &Crew,
    kernel: &mut KernelOf<C, Global>,
    caller: u16,
    mutex: MutexId,
    until: Option<u64>,
    word: u64,
) -> Result<Turn, AllocError>
    requires { AnswersByPlan C.declared C.plan kernel.old.callbacks }
    ensures { IfOk result (λ turn. turn ≡ turns.begun crew.now kernel.old.history.state caller mutex until word) }
{
    if word == 0 {
        return Ok(visits(
            mutex,
            MutexStep::Win,
            None,
            WaitChange::Same,
            Answer::Passed,
        ));
    }
    queued(alloc, crew, kernel, caller, mutex, until, owner_in(word))
}

// The wait for a mutex with this word has ended to the kernel.
fn ended(mutex: MutexId, word: u64, caller: u16, timed_out: bool) -> Turn
    ensures { result ≡ turns.ended mutex word caller timed_out }
{
    let visit = Some(Visit::Finish);
    if timed_out {
        visits(
            mutex,
            MutexStep::Forget,
            visit,
            WaitChange::Ends,
            Answer::TimedOut,
        )
    } else if offers_to(word, caller) {
        visits(
            mutex,
            MutexStep::Accept,
            visit,
            WaitChange::Ends,
            Answer::Passed,
        )
    } else {
        refuses(Refusal::Again)
    }
}

// The answer to a call of the kernel alone.
fn answer_of(reply: &Reply) -> Answer
    ensures { result ≡ turns.answer_of reply.now }
{
    match reply {
        Reply::Done => Answer::Done,
        Reply::Begun => Answer::Begun,
        Reply::TimedOut => Answer::TimedOut,
        Reply::Count(count) => Answer::Count(*count),
        Reply::Bits(bits) => Answer::Bits(*bits),
        Reply::Number(number) => Answer::Number(*number),
        Reply::Chosen(thread) => Answer::Chosen(*thread),
        Reply::Bytes(_) | Reply::Handed { .. } => Answer::Refused(Refusal::Invalid),
    }
}

// The change of the caller's wait by an answer.
fn wait_told(reply: &Reply, visit: Visit) -> WaitChange
    ensures { result ≡ turns.wait_told reply.now visit }
{
    match reply {
        Reply::Begun => WaitChange::Begins(Waiting::Element),
        _ => match visit {
            Visit::Finish => WaitChange::Ends,
            _ => WaitChange::Same,
        },
    }
}

// A call of the kernel alone, as it answered.
fn told(visit: Visit, answer: Result<Reply, Refusal>) -> Turn
    ensures { result ≡ turns.told visit answer }
{
    match answer {
        Ok(reply) => Turn {
            step: None,
            visit: Some(visit),
            core: CoreChange::Same,
            wait: wait_told(&reply, visit),
            then: Then::Answers(answer_of(&reply)),
        },
        Err(refusal) => refuses(refusal),
    }
}

// A visit that makes this call alone.
fn told_by<C: Handler>(
    alloc: Global,
    crew: &Crew,
    kernel: &mut KernelOf<C, Global>,
    caller: u16,
    visit: Visit,
) -> Result<Turn, AllocError>
    requires { AnswersByPlan C.declared C.plan kernel.old.callbacks }
    ensures { IfOk result (λ turn. turn ≡ turns.told visit (answered crew.now kernel.old.history.state caller visit)) }
{
    match answered(alloc, crew, kernel, caller, visit) {
        Ok(answer) => Ok(told(visit, answer)),
        Err(error) => Err(error),
    }
}

// The visit of one that ends its wait, unless that goes on.
fn finishing<C: Handler>(
    alloc: Global,
    crew: &Crew,
    kernel: &mut KernelOf<C, Global>,
    caller: u16,
) -> Result<Option<Turn>, AllocError>
    requires { AnswersByPlan C.declared C.plan kernel.old.callbacks }
    ensures { IfOk result (λ turn. turn ≡ visit_turn crew.now kernel.old.history.state caller Asked.Finish) }
{
    if goes_on(kernel, caller) {
        return Ok(None);
    }
    match told_by(alloc, crew, kernel, caller, Visit::Finish) {
        Ok(turn) => Ok(Some(turn)),
        Err(error) => Err(error),
    }
}

// The visit of one that ends its wait for a mutex, unless that goes on.
fn ending<C: Handler>(
    kernel: &KernelOf<C, Global>,
    caller: u16,
    mutex: MutexId,
    word: u64,
) -> Option<Turn>
    ensures { (crew : Crew) → result ≡ visit_turn crew kernel.now.history.state caller (Asked.End mutex word) }
{
    if goes_on(kernel, caller) {
        return None;
    }
    let timed_out = kernel.timed_out(ThreadId(caller));
    Some(ended(mutex, word, caller, timed_out))
}

// The visit of one that hands a mutex on.
fn handing<C: Handler>(
    alloc: Global,
    crew: &Crew,
    kernel: &mut KernelOf<C, Global>,
    caller: u16,
    mutex: MutexId,
) -> Result<Turn, AllocError>
    requires { AnswersByPlan C.declared C.plan kernel.old.callbacks }
    ensures { IfOk result (λ turn. turn ≡ turns.handed crew.now mutex (answered crew.now kernel.old.history.state caller (Visit.Release mutex))) }
{
    match answered(alloc, crew, kernel, caller, Visit::Release(mutex)) {
        Ok(answer) => Ok(handed(crew, mutex, answer)),
        Err(error) => Err(error),
    }
}

// A turn, if it was found.
fn found(turn: Result<Turn, AllocError>) -> Result<Option<Turn>, AllocError>
    ensures { IfOk result (λ found. IsOkAnd turn (λ turn. found ≡ Some turn)) }
{
    match turn {
        Ok(turn) => Ok(Some(turn)),
        Err(error) => Err(error),
    }
}

/// The turn of a caller that visits the kernel; none while its wait goes on that it would end.
pub(crate) fn visit_turn<C: Handler>(
    alloc: Global,
    crew: &Crew,
    kernel: &mut KernelOf<C, Global>,
    caller: u16,
    asked: Asked,
) -> Result<Option<Turn>, AllocError>
    requires { AnswersByPlan C.declared C.plan kernel.old.callbacks }
    ensures { IfOk result (λ turn. turn ≡ visit_turn crew.now kernel.old.history.state caller asked) }
{
    match asked {
        Asked::Hand(mutex) => found(handing(alloc, crew, kernel, caller, mutex)),
        Asked::Begin(mutex, until, word) => {
            found(begin(alloc, crew, kernel, caller, mutex, until, word))
        }
        Asked::End(mutex, word) => Ok(ending(kernel, caller, mutex, word)),
        Asked::Step(place) => found(told_by(alloc, crew, kernel, caller, Visit::Step(place))),
        Asked::Finish => finishing(alloc, crew, kernel, caller),
    }
}
