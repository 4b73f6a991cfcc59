//! Allocators of one memory.
ghost use Rattle.std.specs.Prelude.{◌≡◌, IfErr};
ghost use Rattle.evl_base.specs.declared.refusal.Refusal.{Refusal};

use evl_base::Refusal;
use std::alloc::Allocator;

/// The same allocator once more. `NoMemory` where it was refused.
pub(crate) fn another<A: Allocator + Clone>(alloc: &A) -> Result<A, Refusal>
    ensures refusal { IfErr result (λ e. e ≡ Refusal.NoMemory) }
{
    alloc.clone().map_err(|_| Refusal::NoMemory)
}
