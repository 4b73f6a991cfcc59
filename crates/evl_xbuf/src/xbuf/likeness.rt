//! Whether two cross-buffers stand alike.
ghost use Rattle.std.specs.Prelude.{◌≡◌, true};

use super::XbufOf;
use std::alloc::Allocator;

impl<A: Allocator> XbufOf<A> {
    /// Whether both ways stand alike: the sizes of the rings, the bytes that are there, and who waits for what, in the
    /// same order.
    pub fn is_like<B: Allocator>(&self, other: &XbufOf<B>) -> bool
        ensures alike { result ≡ true → self.now ≡ other.now }
        ensures other { self.now ≡ other.now → result ≡ true }
    {
        self.inbound.is_like(&other.inbound) && self.outbound.is_like(&other.outbound)
    }
}
