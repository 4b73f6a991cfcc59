//! Calls of the kernel that wait for nothing but the core, and waits for elements.
ghost use Rattle.std.specs.Prelude.{◌≡◌};

use crate::choices::{any_begin, attach, bytes, flags, kind, sem, way, xbuf};
use crate::session::Session;
use crate::tools::Tools;
use evl_base::{Call, Refusal, Reply};
use evl_pipeline::Handler;
use std::alloc::Allocator;
use std::sync::Wait;

impl<C: Handler, A: Allocator> Session<'_, C, A> {
    /// One call, however long others have the core.
    pub fn calls<R: Wait>(&mut self, rt: &R, call: Call) -> Result<Reply, Refusal>
        ensures { self.new ≡ self.old }
    {
        self.machine.call(rt, &mut self.caller, call)
    }

    // One call, only where the core is free.
    fn tries_call(&mut self, call: Call)
        ensures { self.new ≡ self.old }
    {
        drop(self.machine.try_call(&mut self.caller, call));
    }

    /// A call that begins no wait, sometimes only where the core is free.
    pub fn makes_call<R: Wait>(&mut self, rt: &R)
        ensures { self.new ≡ self.old }
    {
        let call = self.tools.any_call();
        if self.tools.dice.one_in(3) {
            self.tries_call(call);
        } else {
            drop(self.calls(rt, call));
        }
    }

    /// Asks for the date, and keeps it in mind.
    pub fn learns_date<R: Wait>(&mut self, rt: &R)
        ensures { self.new ≡ self.old }
    {
        let answer = self.calls(rt, Call::Now);
        self.tools.learn(&answer);
    }

    /// Goes to a stage; mostly to the out-of-band one.
    pub fn switches<R: Wait>(&mut self, rt: &R)
        ensures { self.new ≡ self.old }
    {
        let _ = match self.tools.dice.below(5) {
            0 => self.machine.switch_inband(rt, &mut self.caller),
            1 | 2 => {
                let call = attach(&mut self.tools.dice);
                self.calls(rt, call)
            }
            _ => self.machine.switch_oob(rt, &mut self.caller),
        };
    }
}

impl<C: Handler, A: Allocator> Session<'_, C, A> {
    // Reads from a cross-buffer or writes into it, until a date.
    fn transfers<R: Wait>(&mut self, rt: &R, until: Option<u64>) -> Result<Reply, Refusal>
        ensures { self.new ≡ self.old }
    {
        let xbuf = xbuf(&mut self.tools.dice);
        let way = way(&mut self.tools.dice);
        if self.tools.dice.one_in(2) {
            let len = self.tools.dice.short(8);
            return self
                .machine
                .read_xbuf(rt, &mut self.caller, xbuf, way, len, until);
        }
        match bytes(&mut self.tools.dice, self.tools.alloc) {
            Some(bytes) => self
                .machine
                .write_xbuf(rt, &mut self.caller, xbuf, way, bytes, until),
            None => Err(Refusal::NoMemory),
        }
    }

    // One of the forms that wait. Only a semaphore is waited for without a deadline.
    fn waits_for_one<R: Wait>(&mut self, rt: &R) -> Result<Reply, Refusal>
        ensures { self.new ≡ self.old }
    {
        let until = Some(self.tools.until());
        match self.tools.dice.below(5) {
            0 => {
                let sem = sem(&mut self.tools.dice);
                self.machine.get_sem(rt, &mut self.caller, sem, None)
            }
            1 => {
                let sem = sem(&mut self.tools.dice);
                self.machine.get_sem(rt, &mut self.caller, sem, until)
            }
            2 => {
                let flags = flags(&mut self.tools.dice);
                let kind = kind(&mut self.tools.dice);
                self.machine
                    .wait_flags(rt, &mut self.caller, flags, kind, until)
            }
            _ => self.transfers(rt, until),
        }
    }

    /// Waits for an element to the end, where there is the patience for that.
    pub fn waits<R: Wait>(&mut self, rt: &R)
        ensures { self.new ≡ self.old }
    {
        if !self.tools.manner.is_patient {
            return self.begins(rt);
        }
        self.learns_date(rt);
        self.watch.falls_asleep();
        drop(self.waits_for_one(rt));
        self.watch.wakes_up();
    }

    /// Finishes a wait for an element, if there is one.
    pub fn finishes<R: Wait>(&mut self, rt: &R)
        ensures { self.new ≡ self.old }
    {
        for _ in 0..self.tools.looks() {
            let since = self.watch.helps();
            let keep = self.tools.keeps_stage();
            match self.calls(rt, Call::Finish { keep }) {
                Err(Refusal::Again) => self.watch.sleep(rt, since),
                answer => return ends(&mut self.tools, &answer),
            }
        }
    }

    /// Begins a wait for an element, makes a call meanwhile, and finishes the wait.
    pub fn begins<R: Wait>(&mut self, rt: &R)
        ensures { self.new ≡ self.old }
    {
        self.learns_date(rt);
        let until = Some(self.tools.until());
        let begin = any_begin(&mut self.tools.dice, self.tools.alloc, until);
        let answer = self.calls(rt, begin);
        if let Ok(Reply::Begun) = answer {
            self.tools.is_waiting = true;
            self.makes_call(rt);
            self.finishes(rt);
        }
    }
}

// Keeps in mind that a wait is over, where the answer says.
fn ends(tools: &mut Tools, answer: &Result<Reply, Refusal>) {
    if answer.is_ok() {
        tools.is_waiting = false;
    }
}
