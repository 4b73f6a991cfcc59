//! A caller at work on its machine, and what its host thread does by chance.
ghost use Rattle.std.specs.Prelude.{◌≡◌};
ghost use Rattle.evl_kernel.specs.state.Callbacks.{AnswersByPlan};

use crate::tools::Tools;
use crate::watch::Watch;
use evl_base::{Call, FlagId, SemId, Stage};
use evl_machine::{CallerOf, MachineOf};
use evl_pipeline::Handler;
use std::alloc::Allocator;
use std::marker::Model;
use std::sync::Wait;
use std::thread;

/// A caller at work on its machine, the watch that all callers share, and what its host thread has beside it. To a
/// contract it is the machine: the caller belongs to it, and its callbacks answer by their plans.
#[derive(Drop)]
pub struct Session<'m, C: Handler, A: Allocator> {
    pub machine: &'m MachineOf<C, A>,
    pub watch: &'m Watch,
    pub caller: CallerOf<C, A>,
    pub tools: Tools,
}

impl<'m, C: Handler, A: Allocator> Model for Session<'m, C, A> {
    ghost use Rattle.std.specs.Prelude.{◌≡◌};
    ghost use Rattle.evl_kernel.specs.state.Callbacks.{AnswersByPlan};
    ghost use Rattle.evl_machine.specs.callers.Handles.{MachineState};

    ghost Value = { MachineState C };

    ghost view = { λ s. s.machine.now };

    ghost invariant = { λ s. (s.caller.machine ≡ s.machine.now) × AnswersByPlan C.declared C.plan s.machine.now.first.callbacks };
}

/// The duty of a host thread.
#[derive(Clone, Copy)]
pub enum Duty {
    /// It makes so many choices.
    Chooses(u32),
    /// It lets time pass, and gives what others wait for, whenever nobody goes on by itself.
    Helps,
}

/// A caller, what its host thread has beside it, what it is for, and how many rounds are left for it.
#[derive(Drop)]
pub struct Hand<C, A: Allocator> {
    pub caller: CallerOf<C, A>,
    pub tools: Tools,
    pub duty: Duty,
    pub rounds: u32,
}

// How far time is let pass, in nanoseconds: beyond each deadline.
const LONG: u64 = 10_000;

// How many turns the others have to notice that they were helped.
const TURNS: u32 = 1000;

// Turns in which those who wait may go on.
fn pauses(watch: &Watch) {
    for _ in 0..TURNS {
        if !watch.all_wait() {
            return;
        }
        thread::yield_now();
    }
}

impl<C: Handler, A: Allocator> Session<'_, C, A> {
    // One act that doesn't keep the core: a call, a wait, a mutex or a stax.
    fn acts<R: Wait>(&mut self, rt: &R)
        ensures { self.new ≡ self.old }
    {
        match self.tools.dice.below(20) {
            0 | 1 => self.waits(rt),
            2 => self.begins(rt),
            3 | 4 => self.locks(rt),
            5 | 6 => self.unlocks(rt),
            7 => self.enters(rt),
            8 | 9 => self.leaves(),
            10 => self.switches(rt),
            _ => self.makes_call(rt),
        }
    }

    // All that is begun is finished, and all that is held is given back.
    fn lets_go<R: Wait>(&mut self, rt: &R)
        ensures { self.new ≡ self.old }
    {
        self.finishes(rt);
        self.finishes_lock(rt);
        self.unlocks_all(rt);
        self.leaves_all();
    }

    // Lets time pass, and gives what others may wait for.
    fn helps<R: Wait>(&mut self, rt: &R)
        ensures { self.new ≡ self.old }
    {
        let stage = Stage::Oob;
        drop(self.calls(rt, Call::Unstall { stage }));
        drop(self.calls(rt, Call::Tick { delta: LONG }));
        drop(self.calls(rt, Call::Put { sem: SemId(0) }));
        drop(self.calls(rt, Call::Put { sem: SemId(1) }));
        let flags = FlagId(0);
        drop(self.calls(rt, Call::PostFlags { flags, bits: 1 }));
    }

    // Helps whenever nobody goes on by itself, until all are done.
    fn attends<R: Wait>(&mut self, rt: &R)
        ensures { self.new ≡ self.old }
    {
        for _ in rt.forever() {
            if self.watch.all_done() {
                break;
            }
            if self.watch.all_wait() {
                self.helps(rt);
                self.watch.helped();
                pauses(self.watch);
            }
            thread::yield_now();
        }
    }
}

impl<'m, C: Handler, A: Allocator> Session<'m, C, A> {
    // Makes so many choices, and in the last round lets go of all that it has; nothing where it has stopped for good.
    fn chooses<R: Wait>(self, rt: &R, choices: u32, is_last: bool) -> Session<'m, C, A>
        ensures { result ≡ self.entry }
    {
        let mut session = self;
        for _ in 0..choices {
            if session.tools.is_gone {
                break;
            }
            if session.tools.dice.one_in(12) {
                session = session.holds();
            } else {
                session.acts(rt);
            }
        }
        let is_gone = session.tools.goes();
        if is_last && !is_gone {
            session.lets_go(rt);
        }
        session.watch.count_done();
        session
    }

    // Does what its host thread is for.
    fn does<R: Wait>(self, rt: &R, duty: Duty, is_last: bool) -> Session<'m, C, A>
        ensures { result ≡ self.entry }
    {
        match duty {
            Duty::Chooses(choices) => self.chooses(rt, choices, is_last),
            Duty::Helps => {
                let mut session = self;
                session.attends(rt);
                session
            }
        }
    }
}

impl<C: Handler, A: Allocator> Hand<C, A> {
    /// Does its duty, and comes back.
    pub fn does<R: Wait>(self, rt: &R, machine: &MachineOf<C, A>, watch: &Watch) -> Hand<C, A>
        requires machine { self.caller.machine ≡ machine.now }
        requires by_plan { AnswersByPlan C.declared C.plan machine.now.first.callbacks }
        ensures { result.caller.machine ≡ machine.now }
    {
        let Hand {
            caller,
            tools,
            duty,
            rounds,
        } = self;
        let session = Session {
            machine,
            watch,
            caller,
            tools,
        };
        let Session { caller, tools, .. } = session.does(rt, duty, rounds <= 1);
        Hand {
            caller,
            tools,
            duty,
            rounds: rounds.saturating_sub(1),
        }
    }
}
