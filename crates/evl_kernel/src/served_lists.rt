//! Lists into which an element enters whom it served, and what was read of it.
ghost use Rattle.std.specs.Prelude.{◌≡◌, IfErr};
ghost use Rattle.evl_base.specs.declared.refusal.Refusal.{Refusal};

use arrayvec::ArrayVec;
use evl_base::{Bytes, MAX_THREADS, Refusal};
use std::alloc::Global;

/// The lists into which an element enters whom it served, a flag group and a cross-buffer, and what was read of a
/// cross-buffer. They are kept between calls, as each takes time to make; a call that uses one empties it first of what
/// the call before entered.
#[derive(Drop)]
pub(crate) struct ServedLists {
    pub(crate) of_flags: Box<ArrayVec<evl_sync::TakenBits, MAX_THREADS>>,
    pub(crate) of_xbufs: Box<evl_xbuf::Services>,
    pub(crate) read: Box<Bytes>,
}

impl ServedLists {
    /// Empty lists, in boxes of this allocator. `NoMemory` where a box was refused.
    pub(crate) fn new(boxes: Global) -> Result<ServedLists, Refusal>
        ensures refusal { IfErr result (λ e. e ≡ Refusal.NoMemory) }
    {
        let of_flags = Box::new(boxes, ArrayVec::new()).map_err(|_| Refusal::NoMemory)?;
        let of_xbufs = Box::new(boxes, evl_xbuf::Services::new()).map_err(|_| Refusal::NoMemory)?;
        let read = Box::new(boxes, ArrayVec::new()).map_err(|_| Refusal::NoMemory)?;
        Ok(ServedLists {
            of_flags,
            of_xbufs,
            read,
        })
    }
}
