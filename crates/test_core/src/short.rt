//! Memory of which one request is refused, for what is made over it: the first, the second, and so on until none is
//! left to be refused.
use crate::refusing::Refusing;
use evl_base::Refusal;
use linked_list_allocator::LocalHeap;
use std::alloc::Global;

/// Memory enough for a row.
pub const ENOUGH: usize = 4_194_304;

// More requests than anything here makes.
const MANY: u64 = 200;

/// All that is made over such memory, its boxes over the other allocator.
pub trait Making {
    // Why it isn't made, if it isn't.
    fn refusal(memory: &Refusing<LocalHeap>, boxes: Global) -> Option<Refusal>;
}

/// Whether memory has refused its request where that was met, and all that was taken has gone back.
pub fn is_all_back(memory: &Refusing<LocalHeap>, is_met: bool) -> bool {
    memory.has_refused() == is_met && memory.inner().used() == 0
}

// Whether it is made over this memory; none where it is refused otherwise than for memory, and then, or where not all
// that was taken goes back.
fn is_made_over<M: Making>(memory: &Refusing<LocalHeap>, boxes: Global) -> Option<bool> {
    let is_made = match M::refusal(memory, boxes) {
        None => true,
        Some(Refusal::NoMemory) => false,
        Some(_) => return None,
    };
    if is_all_back(memory, !is_made) {
        Some(is_made)
    } else {
        None
    }
}

// Whether it is made over a heap of this size, of which the request after so many is refused.
fn is_made<M: Making>(alloc: Global, size: usize, granted: u64) -> Option<bool> {
    match LocalHeap::new(alloc, size) {
        Ok(heap) => is_made_over::<M>(&Refusing::after(heap, granted), alloc),
        Err(_) => None,
    }
}

/// How many requests it makes of a heap of this size, each of which was refused in one run; none where something else
/// came of one.
pub fn requests<M: Making>(alloc: Global, size: usize) -> Option<u64> {
    for granted in 0..MANY {
        if is_made::<M>(alloc, size, granted)? {
            return Some(granted);
        }
    }
    None
}
