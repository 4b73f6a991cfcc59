//! The passes that the callers of a row have.
ghost use Rattle.std.specs.Prelude.{◌<◌, IfSome, length};

use super::acts::Told;
use evl_base::{MutexId, Refusal, Transfer};
use evl_machine::{Begun, Ended};
use evl_words::{MutexPass, StaxPass};
use std::alloc::Global;

/// The bytes that a caller writes.
pub const WRITTEN: &[u8] = b"ab";

/// A mutex is unlocked with the pass of it that came first, a stax is left with the pass of the caller of this number.
#[derive(Drop)]
pub struct Passes {
    alloc: Global,
    staxes: Vec<StaxPass>,
    mutexes: Vec<MutexPass>,
}

// The place of the first pass of a mutex.
fn place_of_mutex(passes: &[MutexPass], mutex: MutexId) -> Option<usize>
    ensures { IfSome result (λ place. place < length passes.now) }
{
    for place in 0..passes.len() {
        if passes[place].mutex() == mutex {
            return Some(place);
        }
    }
    None
}

// The place of the first stax pass of the caller of this number.
fn place_of_caller(passes: &[StaxPass], number: u16) -> Option<usize>
    ensures { IfSome result (λ place. place < length passes.now) }
{
    for place in 0..passes.len() {
        if passes[place].seat() == number {
            return Some(place);
        }
    }
    None
}

impl Passes {
    pub fn new(alloc: Global) -> Passes {
        Passes {
            alloc,
            staxes: Vec::new(alloc),
            mutexes: Vec::new(alloc),
        }
    }

    /// The bytes to be written, in a box of their own.
    pub fn bytes(&self) -> Option<Transfer> {
        let mut bytes = Transfer::empty(self.alloc).ok()?;
        bytes.set(WRITTEN);
        Some(bytes)
    }

    /// The first pass of a mutex, which is taken away.
    pub fn of_mutex(&mut self, mutex: MutexId) -> Option<MutexPass> {
        match place_of_mutex(self.mutexes.as_slice(), mutex) {
            Some(place) => Some(self.mutexes.remove(place)),
            None => None,
        }
    }

    /// The first stax pass of the caller of this number, which is taken away.
    pub fn of_caller(&mut self, number: u16) -> Option<StaxPass> {
        match place_of_caller(self.staxes.as_slice(), number) {
            Some(place) => Some(self.staxes.remove(place)),
            None => None,
        }
    }

    // A pass that comes lies there from now on.
    fn with_mutex(&mut self, pass: MutexPass, told: Told) -> Told {
        match self.mutexes.push(pass) {
            Ok(()) => told,
            Err(_) => Told::Nothing,
        }
    }

    fn with_stax(&mut self, pass: StaxPass, told: Told) -> Told {
        match self.staxes.push(pass) {
            Ok(()) => told,
            Err(_) => Told::Nothing,
        }
    }

    pub fn entered(&mut self, answer: Result<StaxPass, Refusal>) -> Told {
        match answer {
            Ok(pass) => self.with_stax(pass, Told::Passed),
            Err(refusal) => Told::Refused(refusal),
        }
    }

    pub fn left(&mut self, answer: Result<bool, (Refusal, StaxPass)>) -> Told {
        match answer {
            Ok(others) => Told::Left(others),
            Err((refusal, pass)) => self.with_stax(pass, Told::Refused(refusal)),
        }
    }

    pub fn locked(&mut self, answer: Result<MutexPass, Refusal>) -> Told {
        match answer {
            Ok(pass) => self.with_mutex(pass, Told::Passed),
            Err(refusal) => Told::Refused(refusal),
        }
    }

    pub fn unlocked(&mut self, answer: Result<(), (Refusal, MutexPass)>) -> Told {
        match answer {
            Ok(()) => Told::Done,
            Err((refusal, pass)) => self.with_mutex(pass, Told::Refused(refusal)),
        }
    }

    pub fn begun(&mut self, answer: Result<Begun, Refusal>) -> Told {
        match answer {
            Ok(Begun::Locked(pass)) => self.with_mutex(pass, Told::Passed),
            Ok(Begun::Waiting) => Told::Waiting,
            Err(refusal) => Told::Refused(refusal),
        }
    }

    pub fn ended(&mut self, answer: Result<Ended, Refusal>) -> Told {
        match answer {
            Ok(Ended::Locked(pass)) => self.with_mutex(pass, Told::Passed),
            Ok(Ended::TimedOut) => Told::TimedOut,
            Err(refusal) => Told::Refused(refusal),
        }
    }
}
