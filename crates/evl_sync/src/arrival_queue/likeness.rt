//! Whether two queues by arrival stand alike.
ghost use Rattle.std.specs.Prelude.{◌≡◌, true};

use super::ArrivalQueue;

impl ArrivalQueue {
    /// Whether in both the same threads wait, in the same order.
    pub fn is_like(&self, other: &ArrivalQueue) -> bool
        ensures alike { result ≡ true → self.now ≡ other.now }
        ensures other { self.now ≡ other.now → result ≡ true }
    {
        are_alike(self.threads.as_slice(), other.threads.as_slice())
    }
}

fn are_alike(ours: &[u16], theirs: &[u16]) -> bool
    ensures alike { result ≡ true → ours.now ≡ theirs.now }
    ensures other { ours.now ≡ theirs.now → result ≡ true }
{
    ours == theirs
}
