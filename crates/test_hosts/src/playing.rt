//! A host thread's caller that makes the calls of a text.
ghost use Rattle.std.specs.Prelude.{◌≡◌};
ghost use Rattle.evl_kernel.specs.state.Callbacks.{AnswersByPlan};

use crate::own::Own;
use crate::watch::Watch;
use evl_base::{Call, MutexId, Refusal, Reply, StaxId};
use evl_machine::{Begun, CallerOf, Ended, MachineOf};
use evl_pipeline::Handler;
use evl_words::MutexPass;
use lab_step_orders::{Answer, WordCall};
use std::alloc::Allocator;
use std::marker::Model;
use std::sync::Wait;
use std::thread;

/// A caller, and what its host thread has beside it.
#[derive(Drop)]
pub struct Player<C, A: Allocator> {
    pub caller: CallerOf<C, A>,
    pub own: Own,
}

impl<C: Handler, A: Allocator> Player<C, A> {
    /// Makes all its calls, and comes back.
    pub fn plays<R: Wait>(self, rt: &R, machine: &MachineOf<C, A>, watch: &Watch) -> Player<C, A>
        requires machine { self.caller.machine ≡ machine.now }
        requires by_plan { AnswersByPlan C.declared C.plan machine.now.first.callbacks }
        ensures { result.caller.machine ≡ machine.now }
    {
        let Player { caller, own } = self;
        let mut playing = Playing {
            machine,
            watch,
            caller,
            own,
        };
        watch.meets(rt);
        playing.makes_calls(rt);
        let Playing { caller, own, .. } = playing;
        Player { caller, own }
    }
}

/// A caller at work on its machine, what all host threads share, and what it has. To a contract it is the machine: the
/// caller belongs to it, and its callbacks answer by their plans.
#[derive(Drop)]
pub struct Playing<'m, C: Handler, A: Allocator> {
    pub machine: &'m MachineOf<C, A>,
    pub watch: &'m Watch,
    pub caller: CallerOf<C, A>,
    pub own: Own,
}

impl<'m, C: Handler, A: Allocator> Model for Playing<'m, C, A> {
    ghost use Rattle.std.specs.Prelude.{◌≡◌};
    ghost use Rattle.evl_kernel.specs.state.Callbacks.{AnswersByPlan};
    ghost use Rattle.evl_machine.specs.callers.Handles.{MachineState};

    ghost Value = { MachineState C };

    ghost view = { λ p. p.machine.now };

    ghost invariant = { λ p. (p.caller.machine ≡ p.machine.now) × AnswersByPlan C.declared C.plan p.machine.now.first.callbacks };
}

// The answer of a call of the kernel alone.
fn answer_of(reply: Reply) -> Answer {
    match reply {
        Reply::Done => Answer::Done,
        Reply::Begun => Answer::Begun,
        Reply::TimedOut => Answer::TimedOut,
        Reply::Count(count) => Answer::Count(count),
        Reply::Bits(bits) => Answer::Bits(bits),
        Reply::Number(number) => Answer::Number(number),
        Reply::Chosen(thread) => Answer::Chosen(thread),
        Reply::Bytes(_) | Reply::Handed { .. } => Answer::Refused(Refusal::Invalid),
    }
}

impl<C: Handler, A: Allocator> Playing<'_, C, A> {
    fn enters(&mut self, stax: StaxId) -> Answer
        ensures { self.new ≡ self.old }
    {
        match self.machine.try_lock_stax(&mut self.caller, stax) {
            Ok(pass) => {
                self.own.keep_stax(pass);
                Answer::Passed
            }
            Err(refusal) => Answer::Refused(refusal),
        }
    }

    fn leaves(&mut self, stax: StaxId) -> Answer
        ensures { self.new ≡ self.old }
    {
        let Some(pass) = self.own.take_stax(stax) else {
            return Answer::Refused(Refusal::NotOwner);
        };
        match self.machine.unlock_stax(&mut self.caller, pass) {
            Ok(true) => Answer::Wanted,
            Ok(false) => Answer::Done,
            Err((refusal, pass)) => {
                self.own.keep_stax(pass);
                Answer::Refused(refusal)
            }
        }
    }

    fn tries(&mut self, mutex: MutexId) -> Answer
        ensures { self.new ≡ self.old }
    {
        match self.machine.try_lock_mutex(&mut self.caller, mutex) {
            Ok(pass) => {
                self.own.keep_mutex(pass);
                Answer::Passed
            }
            Err(refusal) => Answer::Refused(refusal),
        }
    }

    // A pass that was spent, or comes back.
    fn spent(&mut self, answer: Result<(), (Refusal, MutexPass)>) -> Answer
        ensures { self.new ≡ self.old }
    {
        match answer {
            Ok(()) => Answer::Done,
            Err((refusal, pass)) => {
                self.own.keep_mutex(pass);
                Answer::Refused(refusal)
            }
        }
    }

    fn unlocks_fast(&mut self, mutex: MutexId) -> Answer
        ensures { self.new ≡ self.old }
    {
        let Some(pass) = self.own.take_mutex(mutex) else {
            return self.own.no_pass();
        };
        let answer = self.machine.unlock_mutex_fast(&mut self.caller, pass);
        self.spent(answer)
    }

    fn unlocks<R: Wait>(&mut self, rt: &R, mutex: MutexId) -> Answer
        ensures { self.new ≡ self.old }
    {
        let Some(pass) = self.own.take_mutex(mutex) else {
            return self.own.no_pass();
        };
        let answer = self.machine.unlock_mutex(rt, &mut self.caller, pass);
        self.spent(answer)
    }

    // One try to begin; nothing where another has the core.
    fn begins_once(&mut self, mutex: MutexId, until: Option<u64>) -> Option<Answer>
        ensures { self.new ≡ self.old }
    {
        match self
            .machine
            .begin_lock_mutex(&mut self.caller, mutex, until)
        {
            Ok(Begun::Locked(pass)) => {
                self.own.keep_mutex(pass);
                Some(Answer::Passed)
            }
            Ok(Begun::Waiting) => {
                self.own.is_waiting = true;
                Some(Answer::Begun)
            }
            Err(Refusal::CoreBusy) => None,
            Err(refusal) => Some(Answer::Refused(refusal)),
        }
    }

    fn begins<R: Wait>(&mut self, rt: &R, mutex: MutexId, until: Option<u64>) -> Answer
        ensures { self.new ≡ self.old }
    {
        for _ in rt.forever() {
            match self.begins_once(mutex, until) {
                Some(answer) => return answer,
                None => thread::yield_now(),
            }
        }
        unreachable!()
    }

    // One try to finish; nothing while the wait goes on, or where another has the core.
    fn finishes_once(&mut self) -> Option<Answer>
        ensures { self.new ≡ self.old }
    {
        match self.machine.finish_lock_mutex(&mut self.caller) {
            Ok(Ended::Locked(pass)) => {
                self.own.is_waiting = false;
                self.own.keep_mutex(pass);
                Some(Answer::Passed)
            }
            Ok(Ended::TimedOut) => {
                self.own.is_waiting = false;
                Some(Answer::TimedOut)
            }
            Err(Refusal::CoreBusy | Refusal::Again) => None,
            Err(refusal) => Some(Answer::Refused(refusal)),
        }
    }

    fn finishes<R: Wait>(&mut self, rt: &R) -> Answer
        ensures { self.new ≡ self.old }
    {
        for _ in rt.forever() {
            match self.finishes_once() {
                Some(answer) => return answer,
                None => thread::yield_now(),
            }
        }
        unreachable!()
    }

    fn calls<R: Wait>(&mut self, rt: &R, call: Call) -> Answer
        ensures { self.new ≡ self.old }
    {
        match self.machine.call(rt, &mut self.caller, call) {
            Ok(reply) => answer_of(reply),
            Err(refusal) => Answer::Refused(refusal),
        }
    }

    // The end of a wait for an element, however long that goes on.
    fn ends_wait<R: Wait>(&mut self, rt: &R, keep: bool) -> Answer
        ensures { self.new ≡ self.old }
    {
        for _ in rt.forever() {
            match self.calls(rt, Call::Finish { keep }) {
                Answer::Refused(Refusal::Again) => thread::yield_now(),
                answer => return answer,
            }
        }
        unreachable!()
    }

    // One call, however long it waits.
    fn makes<R: Wait>(&mut self, rt: &R, call: WordCall) -> Answer
        ensures { self.new ≡ self.old }
    {
        match call {
            WordCall::TryLockStax(stax) => self.enters(stax),
            WordCall::UnlockStax(stax) => self.leaves(stax),
            WordCall::ClaimStax(_) => Answer::Refused(Refusal::Invalid),
            WordCall::TryLockMutex(mutex) => self.tries(mutex),
            WordCall::UnlockMutexFast(mutex) => self.unlocks_fast(mutex),
            WordCall::TryUnlockMutex(mutex) => self.unlocks(rt, mutex),
            WordCall::BeginLockMutex(mutex, until) => self.begins(rt, mutex, until),
            WordCall::FinishLockMutex => self.finishes(rt),
            WordCall::Kernel(place) => {
                let call = self.own.call_at(place);
                self.calls(rt, call)
            }
            WordCall::Finish(keep) => self.ends_wait(rt, keep),
        }
    }

    // Lets a short time go by, or another host thread run.
    fn pauses(&mut self)
        ensures { self.new ≡ self.old }
    {
        let times = self.own.dice.below(64);
        if times == 0 {
            thread::yield_now();
        }
        self.watch.pauses(times);
    }

    /// Makes all calls, and notes what each is answered.
    pub fn makes_calls<R: Wait>(&mut self, rt: &R)
        ensures { self.new ≡ self.old }
    {
        for place in 0..self.own.calls.len() {
            let Some(call) = self.own.calls.get(place).copied() else {
                return;
            };
            self.pauses();
            let answer = self.makes(rt, call);
            self.own.note(answer);
        }
    }
}
