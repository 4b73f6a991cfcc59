//! All that two seats of a gate know together.
ghost use Rattle.std.specs.Prelude.{◌≡◌};
ghost use Rattle.evl_words.specs.GateCalls.{AgreeAtGate, IsSeatOf};

use super::{GateCall, GateHold, GateReply, StaxGate, StaxSeat};
use crate::history::{View, WordEntry};
use crate::looks::{Together, look_together};
use std::alloc::Allocator;

/// How two seats of a gate are together.
pub struct AtGate;

impl Together<View<WordEntry<GateCall, GateReply>, GateHold>> for AtGate {
    ghost use Rattle.evl_words.specs.GateCalls.{AreAtGate};

    ghost together = { AreAtGate };
}

impl<A: Allocator> StaxGate<A> {
    /// Two seats of a gate know of one history: of what they have seen one is the beginning of the other, and the
    /// longer one has just the entries of each that are its own, in its order. They hold the gate, where both do, at
    /// one stage. Neither changes (Dovetail: stage exclusion locks).
    pub fn agree(&self, one: &mut StaxSeat, other: &mut StaxSeat)
        requires gate { IsSeatOf one.old self.now × IsSeatOf other.old self.now }
        ensures same { (one.new ≡ one.old) × (other.new ≡ other.old) }
        ensures agree { AgreeAtGate one.old other.old }
    {
        look_together::<_, _, AtGate, _, _, _>(&self.table, &mut one.seat, &mut other.seat);
    }
}
