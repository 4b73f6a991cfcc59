//! The pointer of a box, or null, in a type that C may keep: it names no other type.
ghost use Rattle.std.specs.Prelude.{◌≡◌, None, Option, Some, IsSome};
ghost use Rattle.evl_kernel.specs.state.KernelViews.{KernelView};
ghost use Rattle.evl_plans.specs.declared.planned.Planned.{Planned};
ghost use Rattle.evl_c.specs.Owning.{maybe_coded, slot_owns};

use crate::held::Held;
use crate::parts::Parts;
use std::alloc::Global;
use std::marker::Model;
use std::ptr;

/// The box of a kernel, or none.
#[repr(C)]
pub struct Slot {
    at: *mut (),
    alloc: Global,
    pub ghost held: { Option (KernelView Planned) } by { maybe_coded },
}

impl Model for Slot {
    ghost also_owns = { λ s. slot_owns s.alloc s.at s.held };
}

// Only a slot without a box goes, so that no box is lost.
impl Drop for Slot {
    fn drop(self)
        requires none { self.held ≡ None }
    {
        let Slot { at: _, alloc: _ } = self;
    }
}

// All that is there may go to another host thread, so its box may.
unsafe impl Send for Slot {}

impl Slot {
    /// No box.
    pub fn none(alloc: Global) -> Slot
        ensures { result.held ≡ None }
    {
        Slot {
            at: ptr::null_mut(),
            alloc,
        }
    }

    /// The box of these parts.
    pub fn of_parts(parts: Parts<Held, Global>) -> Slot
        ensures { result.held ≡ Some parts.value }
    {
        let Parts { ptr, alloc } = parts;
        Slot {
            at: ptr as *mut (),
            alloc,
        }
    }

    /// The parts of the box that is there.
    pub fn into_parts(self) -> Parts<Held, Global>
        requires { IsSome self.held }
        ensures { self.held ≡ Some result.value }
    {
        let Slot { at, alloc } = self;
        Parts {
            ptr: at as *mut Held,
            alloc,
        }
    }
}
