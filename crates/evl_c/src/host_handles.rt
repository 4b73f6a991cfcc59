//! A machine's caller that C keeps.
ghost use Rattle.std.specs.Prelude.{◌≡◌, None, Some, box_value, is_some, option_map};

use crate::host_slots::HostSlot;
use crate::parts::Parts;
use evl_hosts::Host;
use std::alloc::Global;
use std::mem;

/// A caller, or none (embed/include/evlsim/abi.h: `evlsim_caller`). It may be let go, or overwritten, only where it has
/// none.
#[repr(C)]
pub struct HostHandle {
    is_open: bool,
    slot: HostSlot,
    ghost sound: { is_some slot.held ≡ is_open },
}

impl Drop for HostHandle {
    fn drop(self)
        requires none { self.slot.held ≡ None }
    {
        let HostHandle { is_open: _, slot } = self;
        drop(slot);
    }
}

impl HostHandle {
    // No caller.
    fn none(alloc: Global) -> HostHandle
        ensures { result.slot.held ≡ None }
    {
        HostHandle {
            is_open: false,
            slot: HostSlot::none(alloc),
        }
    }

    // Whether a caller is there, and its box.
    fn into_parts(self) -> (bool, HostSlot)
        ensures { result ≡ (self.is_open, self.slot) }
    {
        let HostHandle { is_open, slot } = self;
        (is_open, slot)
    }

    /// Takes the caller out, if there is one.
    pub fn take(&mut self, alloc: Global) -> Option<Box<Host>>
        ensures taken { option_map box_value result ≡ self.old.slot.held }
        ensures none { self.new.slot.held ≡ None }
    {
        let (is_open, slot) = mem::replace(self, HostHandle::none(alloc)).into_parts();
        if is_open {
            Some(slot.into_parts().into_box())
        } else {
            None
        }
    }

    /// Frees the caller, if there is one.
    pub fn free(&mut self, alloc: Global)
        ensures { self.new.slot.held ≡ None }
    {
        drop(self.take(alloc));
    }

    /// Puts a caller where none is.
    pub fn put(&mut self, host: Box<Host>)
        requires none { self.old.slot.held ≡ None }
        ensures { self.new.slot.held ≡ Some host.value }
    {
        *self = HostHandle {
            is_open: true,
            slot: HostSlot::of_parts(Parts::of(host)),
        };
    }
}
