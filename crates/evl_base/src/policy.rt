//! How a thread is scheduled.
ghost use Rattle.std.specs.Prelude.{Some};

use std::fmt;

/// A scheduling policy (Xenomai 4: EVL scheduling policies), with priorities of this profile.
#[derive(Clone, Copy, PartialEq, Eq)]
pub enum Policy {
    /// First in, first out, with a priority of 1 to 99.
    Fifo(u8),
    /// Round-robin: a priority of 1 to 99, and a time slice of 1 to 1,000,000,000 ns.
    Rr { prio: u8, slice: u64 },
    /// A member of a quota group, with a priority of 1 to 99.
    Quota { group: u16, prio: u8 },
    /// Weak scheduling, with a priority of 0 to 99.
    Weak(u8),
}

impl fmt::Display for Policy {
    ghost use Rattle.evl_base.specs.Policy.{policy_text};

    ghost output = { λ policy. Some (policy_text policy) };

    fn fmt<W: fmt::Write>(&self, f: &mut fmt::Formatter<W>) -> fmt::Result {
        match self {
            Policy::Fifo(prio) => write!(f, "fifo {prio}"),
            Policy::Rr { prio, slice } => write!(f, "rr {prio} {slice}"),
            Policy::Quota { group, prio } => write!(f, "quota {group} {prio}"),
            Policy::Weak(prio) => write!(f, "weak {prio}"),
        }
    }
}
