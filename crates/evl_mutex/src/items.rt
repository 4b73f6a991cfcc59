//! Lists of which every item is written.
ghost use Rattle.std.specs.Prelude.{◌≡◌, length, replicate};

use std::alloc::Allocator;

/// Sets every item to this one.
pub fn set_all<T: Copy, A: Allocator>(items: &mut Vec<T, A>, item: T)
    ensures all { items.new.items ≡ replicate (length items.old.items) item }
{
    for i in 0..items.len() {
        items[i] = item;
    }
}
