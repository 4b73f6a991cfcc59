//! A pass and a seat of a mutex, as they read.
ghost use Rattle.std.specs.Prelude.{◌≡◌};

use super::{MutexPass, MutexSeat};
use evl_base::MutexId;

impl MutexPass {
    /// The mutex that a seat holds by it.
    pub fn mutex(&self) -> MutexId
        ensures { result ≡ self.now.mutex }
    {
        self.mutex
    }

    /// The number of the seat that holds the mutex by it, below `MAX_THREADS`.
    pub fn seat(&self) -> u16
        ensures { result ≡ self.now.seat }
    {
        self.seat
    }
}

impl MutexSeat {
    /// The mutex that it was made with.
    pub fn mutex(&self) -> MutexId
        ensures { result ≡ self.now.mutex }
    {
        self.here.mutex()
    }

    /// Its number among the mutex's seats, below `MAX_THREADS`.
    pub fn number(&self) -> u16
        ensures { result ≡ self.now.number }
    {
        self.here.number()
    }

    /// How often it holds the mutex, from 0 to 255.
    pub fn depth(&self) -> u8
        ensures { result ≡ self.now.depth }
    {
        self.here.depth()
    }
}
