//! Mutexes: locked with and without waiting, and given back in each way.
ghost use Rattle.std.specs.Prelude.{◌≡◌};

use crate::choices::{mutex, short_tick};
use crate::events::{Step, begin_answer, end_answer, pass_answer, unlock_answer};
use crate::session::Session;
use evl_base::{MutexId, Refusal};
use evl_machine::{Begun, Ended};
use evl_pipeline::Handler;
use evl_words::MutexPass;
use std::alloc::Allocator;
use std::sync::Wait;
use std::thread;

impl<C: Handler, A: Allocator> Session<'_, C, A> {
    // Locks a mutex, however long it takes until a deadline.
    fn locks_at_last<R: Wait>(&mut self, rt: &R, mutex: MutexId)
        ensures { self.new ≡ self.old }
    {
        let until = Some(self.tools.until());
        self.watch.falls_asleep();
        let begun = self.watch.stamp();
        let answer = self.machine.lock_mutex(rt, &mut self.caller, mutex, until);
        let told = end_answer(&answer);
        self.tools
            .note_mutex(self.watch, begun, Step::Lock, mutex.0, told);
        self.watch.wakes_up();
        if let Ok(Ended::Locked(pass)) = answer {
            self.tools.keep_mutex(pass);
        }
    }

    // One finish of a wait for a mutex; whether it is to be asked again.
    fn finishes_once<R: Wait>(&mut self, rt: &R, mutex: MutexId) -> bool
        ensures { self.new ≡ self.old }
    {
        let since = self.watch.helps();
        let begun = self.watch.stamp();
        let answer = self.machine.finish_lock_mutex(&mut self.caller);
        let told = end_answer(&answer);
        match answer {
            Ok(ended) => {
                self.tools.is_waiting = false;
                self.tools
                    .note_mutex(self.watch, begun, Step::Finish, mutex.0, told);
                if let Ended::Locked(pass) = ended {
                    self.tools.keep_mutex(pass);
                }
                false
            }
            Err(Refusal::Again) => {
                self.watch.sleep(rt, since);
                true
            }
            Err(Refusal::CoreBusy) => {
                thread::yield_now();
                true
            }
            Err(_) => false,
        }
    }

    /// Finishes a wait for a mutex, if there is one.
    pub fn finishes_lock<R: Wait>(&mut self, rt: &R)
        ensures { self.new ≡ self.old }
    {
        let Some(mutex) = self.tools.awaited else {
            return;
        };
        for _ in 0..self.tools.looks() {
            if !self.finishes_once(rt, mutex) {
                return;
            }
        }
    }

    // Begins to lock a mutex, makes a call meanwhile, and finishes.
    fn begins_lock<R: Wait>(&mut self, rt: &R, mutex: MutexId)
        ensures { self.new ≡ self.old }
    {
        let until = Some(self.tools.until());
        let begun = self.watch.stamp();
        let answer = self
            .machine
            .begin_lock_mutex(&mut self.caller, mutex, until);
        let told = begin_answer(&answer);
        self.tools
            .note_mutex(self.watch, begun, Step::Begin, mutex.0, told);
        match answer {
            Ok(Begun::Locked(pass)) => self.tools.keep_mutex(pass),
            Ok(Begun::Waiting) => {
                self.tools.is_waiting = true;
                self.tools.awaited = Some(mutex);
                self.makes_call(rt);
                self.finishes_lock(rt);
            }
            Err(_) => {}
        }
    }

    // Tries for a mutex.
    fn tries_lock(&mut self, mutex: MutexId)
        ensures { self.new ≡ self.old }
    {
        let begun = self.watch.stamp();
        let answer = self.machine.try_lock_mutex(&mut self.caller, mutex);
        let told = pass_answer(&answer);
        self.tools
            .note_mutex(self.watch, begun, Step::Try, mutex.0, told);
        if let Ok(pass) = answer {
            self.tools.keep_mutex(pass);
        }
    }

    // Locks a mutex in the way that a number names.
    fn locks_in_a_way<R: Wait>(&mut self, rt: &R, mutex: MutexId)
        ensures { self.new ≡ self.old }
    {
        match self.tools.dice.below(5) {
            0 | 1 if self.tools.manner.is_patient => self.locks_at_last(rt, mutex),
            0..=3 => self.begins_lock(rt, mutex),
            _ => self.tries_lock(mutex),
        }
    }

    /// Locks a mutex, while there is room for its pass.
    pub fn locks<R: Wait>(&mut self, rt: &R)
        ensures { self.new ≡ self.old }
    {
        if self.tools.has_all_mutexes() {
            return;
        }
        let mutex = mutex(&mut self.tools.dice);
        self.learns_date(rt);
        self.locks_in_a_way(rt, mutex);
    }

    // Gives a mutex back in the way that a number names.
    fn unlocks_in_a_way<R: Wait>(
        &mut self,
        rt: &R,
        way: u32,
        pass: MutexPass,
    ) -> Result<(), (Refusal, MutexPass)>
        ensures { self.new ≡ self.old }
    {
        match way {
            0 => self.machine.unlock_mutex_fast(&mut self.caller, pass),
            1 => self.machine.try_unlock_mutex(&mut self.caller, pass),
            _ => self.machine.unlock_mutex(rt, &mut self.caller, pass),
        }
    }

    // Gives a mutex back in this way; the pass is kept where that is refused.
    fn spends<R: Wait>(&mut self, rt: &R, way: u32, pass: MutexPass)
        ensures { self.new ≡ self.old }
    {
        let number = pass.mutex().0;
        let begun = self.watch.stamp();
        let answer = self.unlocks_in_a_way(rt, way, pass);
        let told = unlock_answer(&answer);
        self.tools
            .note_mutex(self.watch, begun, Step::unlocking(way), number, told);
        if let Err((_, pass)) = answer {
            self.tools.keep_mutex(pass);
        }
    }

    /// Gives back a mutex, if one is held, sometimes at a date that others wait for; or loses its pass.
    pub fn unlocks<R: Wait>(&mut self, rt: &R)
        ensures { self.new ≡ self.old }
    {
        let Some(pass) = self.tools.some_mutex() else {
            return;
        };
        if self.tools.loses() {
            return;
        }
        if self.tools.dice.one_in(3) {
            let tick = short_tick(&mut self.tools.dice);
            drop(self.calls(rt, tick));
        }
        let way = self.tools.dice.below(4);
        self.spends(rt, way, pass);
    }

    /// Gives all mutexes back.
    pub fn unlocks_all<R: Wait>(&mut self, rt: &R)
        ensures { self.new ≡ self.old }
    {
        for _ in 0..self.tools.mutexes.len() {
            if !self.tools.mutexes.is_empty() {
                let pass = self.tools.mutexes.remove(0);
                self.spends(rt, 3, pass);
            }
        }
    }
}
