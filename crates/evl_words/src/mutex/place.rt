//! A thread's place at a mutex: what it has there beside its token. All that a call does with a pass is here.
ghost use Rattle.std.specs.Prelude.{◌≡◌, ◌<◌, ◌+◌, ◌-◌};
ghost use Rattle.evl_words.specs.MutexPlaces.{IsOfPlace, is_pass_of};

use super::MutexPass;
use evl_base::MutexId;

/// A thread's place at a mutex, and how often it holds it, up to 255 times.
#[derive(Drop)]
pub struct MutexPlace {
    mutex: MutexId,
    number: u16,
    depth: u8,
}

impl MutexPlace {
    /// A place that doesn't hold its mutex.
    pub fn new(mutex: MutexId, number: u16) -> MutexPlace
        ensures { result ≡ record { mutex = mutex; number = number; depth = 0 } }
    {
        MutexPlace {
            mutex,
            number,
            depth: 0,
        }
    }

    /// The mutex that it was made with.
    pub fn mutex(&self) -> MutexId
        ensures { result ≡ self.now.mutex }
    {
        self.mutex
    }

    /// Its number among the mutex's seats, below `MAX_THREADS`.
    pub fn number(&self) -> u16
        ensures { result ≡ self.now.number }
    {
        self.number
    }

    /// How often it holds the mutex, from 0 to 255.
    pub fn depth(&self) -> u8
        ensures { result ≡ self.now.depth }
    {
        self.depth
    }

    /// Holds the mutex once.
    pub fn own(&mut self) -> MutexPass
        ensures pass { IsOfPlace result self.old }
        ensures place { self.new ≡ record self.old { depth = 1 } }
    {
        self.depth = 1;
        self.pass()
    }

    /// Holds the mutex once more.
    pub fn nest(&mut self) -> MutexPass
        requires { self.old.depth < 255 }
        ensures pass { IsOfPlace result self.old }
        ensures place { self.new ≡ record self.old { depth = self.old.depth + 1 } }
    {
        self.depth += 1;
        self.pass()
    }

    /// Whether it holds the mutex by this pass.
    pub fn fits(&self, pass: &MutexPass) -> bool
        ensures { result ≡ is_pass_of pass.now self.now }
    {
        pass.mutex == self.mutex && pass.seat == self.number && self.depth > 0
    }

    /// Holds the mutex once less.
    pub fn spend(&mut self, pass: MutexPass)
        requires { 0 < self.old.depth }
        ensures { self.new ≡ record self.old { depth = self.old.depth - 1 } }
    {
        let _spent = pass;
        self.depth -= 1;
    }

    fn pass(&self) -> MutexPass
        ensures { IsOfPlace result self.now }
    {
        MutexPass {
            mutex: self.mutex,
            seat: self.number,
        }
    }
}
