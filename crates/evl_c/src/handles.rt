//! A kernel that C keeps.
ghost use Rattle.std.specs.Prelude.{◌≡◌, None, Some, box_value, is_some, option_map};

use crate::held::Held;
use crate::parts::Parts;
use crate::slots::Slot;
use std::alloc::Global;
use std::mem;

/// A kernel, or none (embed/include/evlsim/abi.h: `evlsim_kernel`). It may be let go, or overwritten, only where it has
/// none.
#[repr(C)]
pub struct KernelHandle {
    is_open: bool,
    slot: Slot,
    ghost sound: { is_some slot.held ≡ is_open },
}

impl Drop for KernelHandle {
    fn drop(self)
        requires none { self.slot.held ≡ None }
    {
        let KernelHandle { is_open: _, slot } = self;
        drop(slot);
    }
}

impl KernelHandle {
    // No kernel.
    fn none(alloc: Global) -> KernelHandle
        ensures { result.slot.held ≡ None }
    {
        KernelHandle {
            is_open: false,
            slot: Slot::none(alloc),
        }
    }

    // Whether a kernel is there, and its box.
    fn into_parts(self) -> (bool, Slot)
        ensures { result ≡ (self.is_open, self.slot) }
    {
        let KernelHandle { is_open, slot } = self;
        (is_open, slot)
    }

    /// Takes the kernel out, if there is one.
    pub fn take(&mut self, alloc: Global) -> Option<Box<Held>>
        ensures taken { option_map box_value result ≡ self.old.slot.held }
        ensures none { self.new.slot.held ≡ None }
    {
        let (is_open, slot) = mem::replace(self, KernelHandle::none(alloc)).into_parts();
        if is_open {
            Some(slot.into_parts().into_box())
        } else {
            None
        }
    }

    /// Frees the kernel, if there is one.
    pub fn free(&mut self, alloc: Global)
        ensures { self.new.slot.held ≡ None }
    {
        drop(self.take(alloc));
    }

    /// Puts a kernel where none is.
    pub fn put(&mut self, held: Box<Held>)
        requires none { self.old.slot.held ≡ None }
        ensures { self.new.slot.held ≡ Some held.value }
    {
        *self = KernelHandle {
            is_open: true,
            slot: Slot::of_parts(Parts::of(held)),
        };
    }
}
