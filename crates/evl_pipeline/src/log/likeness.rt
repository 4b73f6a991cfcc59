//! Whether two logs are alike.
ghost use Rattle.std.specs.Prelude.{◌≡◌, true};

use super::Log;
use std::alloc::Allocator;

impl<A: Allocator> Log<A> {
    /// Whether the same lines are pending.
    pub fn is_like<B: Allocator>(&self, other: &Log<B>) -> bool
        ensures alike { result ≡ true → self.now ≡ other.now }
        ensures other { self.now ≡ other.now → result ≡ true }
    {
        self.lines.is_like(&other.lines)
    }
}
