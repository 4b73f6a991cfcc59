//! The kinds of actions that a callback may answer.
ghost use Rattle.std.specs.Prelude.{⊤, ◌≡◌, ◌∷◌, [], codes};

use bitflags::{Flag, Flags, bitflag_items};

// rule: There are five kinds of action, the bits 1, 2, 4, 8 and 16.
/// A set of kinds of actions, as a callback declares them.
#[derive(Clone, Copy, PartialEq, Eq)]
pub struct ActionKinds(u8);

bitflag_items! {
    impl ActionKinds: u8 {
        const POST_SEM = 1;
        const POST_FLAGS = 2;
        const PROPAGATE = 4;
        const POST_OOB = 8;
        const STOP_TIMER = 16;
    }
}

impl Flags for ActionKinds {
    type Bits = u8;

    ghost exact = { ⊤ };

    ghost table = { (codes "POST_SEM", 1) ∷ (codes "POST_FLAGS", 2) ∷ (codes "PROPAGATE", 4) ∷ (codes "POST_OOB", 8) ∷ (codes "STOP_TIMER", 16) ∷ [] };

    ghost set_of = { λ kinds. kinds.0 };

    fn flags<'a>() -> &'a [Flag<ActionKinds>] {
        ActionKinds::FLAGS
    }

    fn bits(&self) -> u8 {
        self.0
    }

    fn from_bits_retain(bits: u8) -> ActionKinds {
        ActionKinds(bits)
    }
}
