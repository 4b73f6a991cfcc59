//! Whether two kernels stand alike.
ghost use Rattle.std.specs.Prelude.{◌≡◌, true};

use super::KernelOf;
use std::alloc::Allocator;

impl<C, A: Allocator> KernelOf<C, A> {
    /// Whether two kernels over the same callbacks stand alike, whatever calls led there: from then on both answer the
    /// same calls alike, while their histories have room.
    pub fn is_like(&self, other: &KernelOf<C, A>) -> bool
        ensures alike { result ≡ true → self.now.history.bank ≡ other.now.history.bank → self.now.history.state ≡ other.now.history.state }
        ensures other { self.now.history.state ≡ other.now.history.state → result ≡ true }
    {
        self.records.is_like(&other.records)
    }
}
