//! Whether two semaphores stand alike.
ghost use Rattle.std.specs.Prelude.{◌≡◌, true};

use super::Sem;
use crate::alike::Alike;

impl Sem {
    /// Whether both have the same count, and the same threads wait, with the same ranks and in the same order.
    pub fn is_like(&self, other: &Sem) -> bool
        ensures alike { result ≡ true → self.now ≡ other.now }
        ensures other { self.now ≡ other.now → result ≡ true }
    {
        self.count == other.count && self.queue.is_like(&other.queue)
    }
}

impl Alike for Sem {
    fn is_alike(&self, other: &Sem) -> bool {
        self.is_like(other)
    }
}
