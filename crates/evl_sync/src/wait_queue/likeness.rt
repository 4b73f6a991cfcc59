//! Whether two queues by rank and arrival stand alike.
ghost use Rattle.std.specs.Prelude.{◌≡◌, true};

use super::WaitQueue;
use crate::waiter::Waiter;

impl WaitQueue {
    /// Whether in both the same threads wait, with the same ranks, in the same order.
    pub fn is_like(&self, other: &WaitQueue) -> bool
        ensures alike { result ≡ true → self.now ≡ other.now }
        ensures other { self.now ≡ other.now → result ≡ true }
    {
        are_alike(self.waiters.as_slice(), other.waiters.as_slice())
    }
}

fn are_alike(ours: &[Waiter], theirs: &[Waiter]) -> bool
    ensures alike { result ≡ true → ours.now ≡ theirs.now }
    ensures other { ours.now ≡ theirs.now → result ≡ true }
{
    ours == theirs
}
