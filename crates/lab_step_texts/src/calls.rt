//! The calls on words that the steps of a text are.
ghost use Rattle.std.specs.Prelude.{ℕ, ◌≡◌, ◌≤◌, None, IfErr, IfOk, length};
ghost use Rattle.std.specs.Str.{bytes_eq};
ghost use Rattle.lab_step_texts.specs.Calls as texts;
ghost use Rattle.lab_step_texts.specs.Calls.{calls_behind, lock_at, lock_named};
ghost use Rattle.lab_step_texts.specs.declared.faults.StepFault.{StepFault};

use crate::faults::StepFault;
use evl_base::{Call, MutexId, StaxId, ThreadId};
use lab_callers_text::{Act, CallersStep};
use lab_step_orders::WordCall;
use std::alloc::{AllocError, Global};

/// A call, and the thread that makes it.
#[derive(Clone, Copy, PartialEq, Eq)]
pub struct CallerCall {
    pub who: ThreadId,
    pub call: WordCall,
}

// The lock that a name means.
#[derive(Clone, Copy, PartialEq, Eq)]
pub(crate) enum Lock {
    Stax(StaxId),
    Mutex(MutexId),
}

/// Why the steps of a text are no calls on words.
#[derive(Clone, Copy, PartialEq, Eq)]
pub(crate) enum CallsFault {
    /// The number of the first that is none.
    Step(usize, StepFault),
    /// Memory couldn't grow.
    Memory,
}

// This lock, if it has the name.
fn lock_if(as_name: &str, name: &str, lock: Lock) -> Option<Lock>
    ensures { result ≡ texts.lock_if (bytes_eq as_name.now name.now) lock }
{
    if as_name == name { Some(lock) } else { None }
}

// The lock that a step names so.
fn lock_in(name: &str, act: &Act) -> Option<Lock>
    ensures { result ≡ texts.lock_in name.now act.now }
{
    match act {
        Act::TryLockStax(stax, as_name) => lock_if(as_name.as_str(), name, Lock::Stax(*stax)),
        Act::TryLockMutex(mutex, as_name) => lock_if(as_name.as_str(), name, Lock::Mutex(*mutex)),
        Act::BeginLockMutex(mutex, _, as_name) => {
            lock_if(as_name.as_str(), name, Lock::Mutex(*mutex))
        }
        _ => None,
    }
}

// And by this caller.
fn lock_at(who: ThreadId, name: &str, step: &CallersStep) -> Option<Lock>
    ensures { result ≡ lock_at who.0 name.now step.now }
{
    if step.who.0 == who.0 {
        lock_in(name, &step.act)
    } else {
        None
    }
}

// The lock that the last of these steps of a caller names so.
fn lock_named(who: ThreadId, name: &str, before: &[CallersStep]) -> Option<Lock>
    ensures { result ≡ lock_named who.0 name.now None before.now }
{
    let mut found = None;
    for step in before {
        found = lock_at(who, name, step).or(found);
    }
    found
}

// The call that unlocks a stax.
fn stax_call(lock: Option<Lock>) -> Result<WordCall, StepFault>
    ensures { result ≡ texts.stax_call lock }
{
    match lock {
        Some(Lock::Stax(stax)) => Ok(WordCall::UnlockStax(stax)),
        _ => Err(StepFault::Pass),
    }
}

// The call that unlocks a mutex by one exchange.
fn fast_call(lock: Option<Lock>) -> Result<WordCall, StepFault>
    ensures { result ≡ texts.fast_call lock }
{
    match lock {
        Some(Lock::Mutex(mutex)) => Ok(WordCall::UnlockMutexFast(mutex)),
        _ => Err(StepFault::Pass),
    }
}

// The call that unlocks a mutex, and visits the kernel where others claim it.
fn unlock_call(lock: Option<Lock>) -> Result<WordCall, StepFault>
    ensures { result ≡ texts.unlock_call lock }
{
    match lock {
        Some(Lock::Mutex(mutex)) => Ok(WordCall::TryUnlockMutex(mutex)),
        _ => Err(StepFault::Pass),
    }
}

// Whether callers may make a call of the kernel: it changes no thread's stage or policy, is of no mutex, and answers no
// bytes.
fn is_plain_call(call: &Call) -> bool
    ensures { result ≡ texts.is_plain_call call.now }
{
    match call {
        Call::Attach { .. }
        | Call::Detach
        | Call::SetPolicy { .. }
        | Call::SetStage { .. }
        | Call::Read { .. }
        | Call::BeginRead { .. }
        | Call::Claim { .. }
        | Call::Release { .. }
        | Call::Raise { .. } => false,
        _ => true,
    }
}

// The call that a call of the kernel is, which is at this place.
fn kernel_call(call: &Call, place: usize) -> Result<WordCall, StepFault>
    ensures { result ≡ texts.kernel_call call.now place }
{
    match call {
        Call::Finish { keep } => Ok(WordCall::Finish(*keep)),
        _ => {
            if is_plain_call(call) {
                Ok(WordCall::Kernel(place))
            } else {
                Err(StepFault::Core)
            }
        }
    }
}

// The call that a step of this caller is, after these steps.
fn call_in(before: &[CallersStep], who: ThreadId, act: &Act) -> Result<WordCall, StepFault>
    ensures { result ≡ texts.call_in before.now who.0 act.now }
{
    match act {
        Act::TryLockStax(stax, _) => Ok(WordCall::TryLockStax(*stax)),
        Act::UnlockStax(pass) => stax_call(lock_named(who, pass.as_str(), before)),
        Act::TryLockMutex(mutex, _) => Ok(WordCall::TryLockMutex(*mutex)),
        Act::UnlockMutexFast(pass) => fast_call(lock_named(who, pass.as_str(), before)),
        Act::TryUnlockMutex(pass) => unlock_call(lock_named(who, pass.as_str(), before)),
        Act::BeginLockMutex(mutex, until, _) => Ok(WordCall::BeginLockMutex(*mutex, *until)),
        Act::FinishLockMutex(_) => Ok(WordCall::FinishLockMutex),
        Act::Call(call) => kernel_call(call, before.len()),
        Act::Take | Act::Give => Err(StepFault::Core),
    }
}

// And by a thread of a board of so many.
fn call_of(threads: u16, before: &[CallersStep], step: &CallersStep) -> Result<WordCall, StepFault>
    ensures { result ≡ texts.call_of threads before.now step.now }
{
    if step.who.0 < threads {
        call_in(before, step.who, &step.act)
    } else {
        Err(StepFault::Who)
    }
}

/// The calls of the steps after so many that are set up, by threads of a board of so many; or the number, from 1, of the
/// first that is no call on words.
pub(crate) fn calls_of(
    alloc: Global,
    threads: u16,
    setup: usize,
    steps: &[CallersStep],
) -> Result<Vec<CallerCall>, CallsFault>
    requires { setup ≤ length steps.now }
    ensures calls { IfOk result (λ calls. calls_behind threads setup steps.now ≡ Ok calls.items) }
    ensures fault { IfErr result (λ e. (n : ℕ) (fault : StepFault) → e ≡ CallsFault.Step n fault → calls_behind threads setup steps.now ≡ Err (n, fault)) }
{
    let mut calls = Vec::new(alloc);
    for i in setup..steps.len() {
        let step = &steps[i];
        let call = match call_of(threads, &steps[..i], step) {
            Ok(call) => call,
            Err(fault) => return Err(CallsFault::Step(i + 1, fault)),
        };
        let made = CallerCall {
            who: step.who,
            call,
        };
        match calls.push(made) {
            Ok(()) => {}
            Err(_) => return Err(CallsFault::Memory),
        }
    }
    Ok(calls)
}
