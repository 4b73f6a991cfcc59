//! The pointer of a box of a machine's caller, or null, in a type that C may keep: it names no other type.
ghost use Rattle.std.specs.Prelude.{◌≡◌, None, Option, Some, IsSome};
ghost use Rattle.evl_hosts.specs.Hosts.{HostState};
ghost use Rattle.evl_c.specs.HostOwning.{maybe_coded, slot_owns};

use crate::parts::Parts;
use evl_hosts::Host;
use std::alloc::Global;
use std::marker::Model;
use std::ptr;

/// The box of a caller, or none.
#[repr(C)]
pub struct HostSlot {
    at: *mut (),
    alloc: Global,
    pub ghost held: { Option HostState } by { maybe_coded },
}

impl Model for HostSlot {
    ghost also_owns = { λ s. slot_owns s.alloc s.at s.held };
}

// Only a slot without a box goes, so that no box is lost.
impl Drop for HostSlot {
    fn drop(self)
        requires none { self.held ≡ None }
    {
        let HostSlot { at: _, alloc: _ } = self;
    }
}

// All that is there may go to another host thread, so its box may.
unsafe impl Send for HostSlot {}

impl HostSlot {
    /// No box.
    pub fn none(alloc: Global) -> HostSlot
        ensures { result.held ≡ None }
    {
        HostSlot {
            at: ptr::null_mut(),
            alloc,
        }
    }

    /// The box of these parts.
    pub fn of_parts(parts: Parts<Host, Global>) -> HostSlot
        ensures { result.held ≡ Some parts.value }
    {
        let Parts { ptr, alloc } = parts;
        HostSlot {
            at: ptr as *mut (),
            alloc,
        }
    }

    /// The parts of the box that is there.
    pub fn into_parts(self) -> Parts<Host, Global>
        requires { IsSome self.held }
        ensures { self.held ≡ Some result.value }
    {
        let HostSlot { at, alloc } = self;
        Parts {
            ptr: at as *mut Host,
            alloc,
        }
    }
}
