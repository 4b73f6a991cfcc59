//! The acts of a caller in a row, and the answers to them. The clauses say only of which machine the caller is.
ghost use Rattle.std.specs.Prelude.{◌≡◌};
ghost use Rattle.evl_kernel.specs.state.Callbacks.{AnswersByPlan};

use super::boards::{FLAGS, XBUF};
use super::passes::{Passes, WRITTEN};
use evl_base::{
    Call, FlagId, LineNo, MutexId, Policy, Refusal, Reply, SemId, Stage, StaxId, Take, ThreadId,
    Way,
};
use evl_machine::{CallerOf, MachineOf};
use evl_pipeline::Handler;
use std::alloc::Allocator;
use std::sync::Wait;

/// A call of the kernel.
#[derive(Clone, Copy)]
pub enum Ask {
    Attach(Policy, Stage),
    Detach,
    SetStage(Stage),
    Claim(MutexId, ThreadId),
    Release(MutexId),
    Raise(MutexId),
    Put(SemId),
    Peek(SemId),
    TryGet(SemId),
    BeginGet(SemId),
    Finish(bool),
    Tick(u64),
    PostFlags(FlagId, u32),
    RankOf(ThreadId),
    Request(LineNo, Stage),
    Arrive(LineNo),
}

pub fn call_of(ask: Ask) -> Call {
    match ask {
        Ask::Attach(policy, stage) => Call::Attach { policy, stage },
        Ask::Detach => Call::Detach,
        Ask::SetStage(stage) => Call::SetStage { stage },
        Ask::Claim(mutex, owner) => Call::Claim {
            mutex,
            owner,
            until: None,
        },
        Ask::Release(mutex) => Call::Release { mutex },
        Ask::Raise(mutex) => Call::Raise { mutex },
        Ask::Put(sem) => Call::Put { sem },
        Ask::Peek(sem) => Call::Peek { sem },
        Ask::TryGet(sem) => Call::TryGet { sem },
        Ask::BeginGet(sem) => Call::BeginGet { sem, until: None },
        Ask::Finish(keep) => Call::Finish { keep },
        Ask::Tick(delta) => Call::Tick { delta },
        Ask::PostFlags(flags, bits) => Call::PostFlags { flags, bits },
        Ask::RankOf(thread) => Call::RankOf { thread },
        Ask::Request(line, stage) => Call::Request {
            line,
            stage,
            callback: 0,
            tag: 0,
        },
        Ask::Arrive(line) => Call::Arrive { line },
    }
}

/// An act of a caller: without waiting, and (the last ones) by the forms that wait.
#[derive(Clone, Copy)]
pub enum Act {
    Call(Ask),
    Enter(StaxId),
    Leave(u16),
    Lock(MutexId),
    Begin(MutexId, Option<u64>),
    Finish,
    UnlockFast(MutexId),
    Unlock(MutexId),
    // The pass of the mutex is lost.
    Lose(MutexId),
    CallAtLast(Ask),
    LockAtLast(MutexId, Option<u64>),
    UnlockAtLast(MutexId),
    EnterAtLast(StaxId),
    // Enters a stax and leaves it, however long others keep it out.
    Through(StaxId),
    Switch(Stage),
    WaitFor(Element, Option<u64>),
    // Makes room for so many calls, while it has the kernel.
    Reserve(usize),
}

/// For what a caller waits: a semaphore, bits of a flag group, a byte to read, room for two bytes that it writes, or
/// what was written there.
#[derive(Clone, Copy)]
pub enum Element {
    Sem(SemId),
    Flags,
    Read,
    Write,
    Written,
}

/// The answer to an act.
#[derive(Clone, Copy, PartialEq)]
pub enum Told {
    Done,
    Begun,
    Count(i64),
    Bits(u32),
    Number(u64),
    // Just the bytes that a caller writes.
    Written,
    TimedOut,
    Passed,
    Waiting,
    Left(bool),
    Refused(Refusal),
    Nothing,
}

pub const DONE: Told = Told::Done;

pub const PASSED: Told = Told::Passed;

pub const WAITING: Told = Told::Waiting;

pub const TIMED_OUT: Told = Told::TimedOut;

pub const AGAIN: Told = Told::Refused(Refusal::Again);

pub const BUSY: Told = Told::Refused(Refusal::Busy);

pub const CORE_BUSY: Told = Told::Refused(Refusal::CoreBusy);

pub const DEADLOCK: Told = Told::Refused(Refusal::Deadlock);

pub const FULL: Told = Told::Refused(Refusal::HistoryFull);

pub const HOLDS_STAX: Told = Told::Refused(Refusal::HoldsStax);

pub const INVALID: Told = Told::Refused(Refusal::Invalid);

pub const LIMIT: Told = Told::Refused(Refusal::Limit);

pub const SHORT: Told = Told::Refused(Refusal::NoMemory);

pub const UNKNOWN: Told = Told::Refused(Refusal::Unknown);

/// The meaning of the kernel's answer.
pub fn told_by(answer: Result<Reply, Refusal>) -> Told {
    match answer {
        Ok(Reply::Done) => Told::Done,
        Ok(Reply::Begun) => Told::Begun,
        Ok(Reply::Count(count)) => Told::Count(count),
        Ok(Reply::Bits(bits)) => Told::Bits(bits),
        Ok(Reply::Number(number)) => Told::Number(number),
        Ok(Reply::TimedOut) => Told::TimedOut,
        Ok(_) => Told::Nothing,
        Err(refusal) => Told::Refused(refusal),
    }
}

fn done(is_done: bool) -> Told {
    if is_done { Told::Done } else { Told::Nothing }
}

fn told_of(read: &[u8]) -> Told {
    if read == WRITTEN {
        Told::Written
    } else {
        Told::Nothing
    }
}

// Gives the first pass of a mutex back, in the way of this act.
fn unlocks<C: Handler, A: Allocator, R: Wait>(
    rt: &R,
    machine: &MachineOf<C, A>,
    caller: &mut CallerOf<C, A>,
    passes: &mut Passes,
    mutex: MutexId,
    act: Act,
) -> Told
    requires machine { caller.old.machine ≡ machine.now }
    requires by_plan { AnswersByPlan C.declared C.plan machine.now.first.callbacks }
    ensures { caller.new.machine ≡ machine.now }
{
    let Some(pass) = passes.of_mutex(mutex) else {
        return Told::Nothing;
    };
    match act {
        Act::UnlockFast(_) => passes.unlocked(machine.unlock_mutex_fast(caller, pass)),
        Act::Unlock(_) => passes.unlocked(machine.try_unlock_mutex(caller, pass)),
        _ => passes.unlocked(machine.unlock_mutex(rt, caller, pass)),
    }
}

// Enters a stax and leaves it, or leaves it with the pass of the caller of a number.
fn leaves<C: Handler, A: Allocator, R: Wait>(
    rt: &R,
    machine: &MachineOf<C, A>,
    caller: &mut CallerOf<C, A>,
    passes: &mut Passes,
    act: Act,
) -> Told
    requires machine { caller.old.machine ≡ machine.now }
    ensures { caller.new.machine ≡ machine.now }
{
    match act {
        Act::Through(stax) => match machine.lock_stax(rt, caller, stax) {
            Ok(pass) => done(machine.unlock_stax(caller, pass).is_ok()),
            Err(_) => Told::Nothing,
        },
        Act::Leave(number) => match passes.of_caller(number) {
            Some(pass) => passes.left(machine.unlock_stax(caller, pass)),
            None => Told::Nothing,
        },
        _ => Told::Nothing,
    }
}

// Waits for an element; the bytes that are written come from the passes' allocator, and are read again in-band.
fn waits_for<C: Handler, A: Allocator, R: Wait>(
    rt: &R,
    machine: &MachineOf<C, A>,
    caller: &mut CallerOf<C, A>,
    passes: &Passes,
    element: Element,
    until: Option<u64>,
) -> Told
    requires machine { caller.old.machine ≡ machine.now }
    requires by_plan { AnswersByPlan C.declared C.plan machine.now.first.callbacks }
    ensures { caller.new.machine ≡ machine.now }
{
    match element {
        Element::Sem(sem) => told_by(machine.get_sem(rt, caller, sem, until)),
        Element::Flags => told_by(machine.wait_flags(rt, caller, FLAGS, Take::Any, until)),
        Element::Read => told_by(machine.read_xbuf(rt, caller, XBUF, Way::In, 1, until)),
        Element::Write => match passes.bytes() {
            Some(bytes) => told_by(machine.write_xbuf(rt, caller, XBUF, Way::Out, bytes, until)),
            None => Told::Nothing,
        },
        Element::Written => match machine.read_xbuf(rt, caller, XBUF, Way::Out, 9, until) {
            Ok(Reply::Bytes(read)) => told_of(read.as_slice()),
            _ => Told::Nothing,
        },
    }
}

/// A caller's act.
pub fn does<C: Handler, A: Allocator, R: Wait>(
    rt: &R,
    machine: &MachineOf<C, A>,
    caller: &mut CallerOf<C, A>,
    passes: &mut Passes,
    act: Act,
) -> Told
    requires machine { caller.old.machine ≡ machine.now }
    requires by_plan { AnswersByPlan C.declared C.plan machine.now.first.callbacks }
    ensures { caller.new.machine ≡ machine.now }
{
    match act {
        Act::Call(ask) => told_by(machine.try_call(caller, call_of(ask))),
        Act::CallAtLast(ask) => told_by(machine.call(rt, caller, call_of(ask))),
        Act::Enter(stax) => passes.entered(machine.try_lock_stax(caller, stax)),
        Act::EnterAtLast(stax) => passes.entered(machine.lock_stax(rt, caller, stax)),
        Act::Leave(_) | Act::Through(_) => leaves(rt, machine, caller, passes, act),
        Act::Lock(mutex) => passes.locked(machine.try_lock_mutex(caller, mutex)),
        Act::Begin(mutex, until) => passes.begun(machine.begin_lock_mutex(caller, mutex, until)),
        Act::Finish => passes.ended(machine.finish_lock_mutex(caller)),
        Act::LockAtLast(mutex, until) => passes.ended(machine.lock_mutex(rt, caller, mutex, until)),
        Act::UnlockFast(mutex) | Act::Unlock(mutex) | Act::UnlockAtLast(mutex) => {
            unlocks(rt, machine, caller, passes, mutex, act)
        }
        Act::Lose(mutex) => done(passes.of_mutex(mutex).is_some()),
        Act::Switch(Stage::Inband) => told_by(machine.switch_inband(rt, caller)),
        Act::Switch(Stage::Oob) => told_by(machine.switch_oob(rt, caller)),
        Act::WaitFor(element, until) => waits_for(rt, machine, caller, passes, element, until),
        Act::Reserve(_) => Told::Nothing,
    }
}
