//! Four callers of six steps, none of whom ever waits: each merge of their steps is an order.
ghost use Rattle.std.specs.Prelude.{◌≡◌, ◌≤◌};
ghost use Rattle.test_lab.specs.Free.{worth};

use lab_orders::{Explored, Reached, World, explore};
use std::alloc::{AllocError, Global};

// The callers.
#[derive(Clone, Copy, Drop)]
struct Free;

// The worth of a caller's step, added to the number of a state.
fn worth(caller: u16) -> u32
    ensures worth { result ≡ worth caller }
    ensures positive { 1 ≤ result }
{
    match caller {
        0 => 1,
        1 => 7,
        2 => 49,
        _ => 343,
    }
}

impl World for Free {
    ghost use Rattle.std.specs.Prelude.{false, ⊤};
    ghost use Rattle.test_lab.specs.Free.{machine};

    type Moment = u32;

    type Hand = ();

    type State = u32;

    ghost machine = { λ callers. machine };

    ghost state = { λ callers moment. moment };

    ghost fits = { λ callers moment. ⊤ };

    ghost is_at_hand = { λ callers hand moment. ⊤ };

    ghost holds = { λ callers question moment. false };

    ghost asked = { λ callers. 0 };

    ghost complete = { λ callers. ⊤ };

    ghost digest_at = { λ callers state. state };

    fn callers(&self) -> u16 {
        4
    }

    fn step(
        &self,
        _alloc: Global,
        moment: &u32,
        caller: u16,
    ) -> Result<Option<Reached<u32, ()>>, AllocError> {
        let step = worth(caller);
        if (*moment / step) % 7 < 6 {
            match moment.checked_add(step) {
                Some(at) => Ok(Some(Reached { at, hand: () })),
                None => Err(AllocError),
            }
        } else {
            Ok(None)
        }
    }

    fn digest(&self, moment: &u32) -> u64 {
        u64::from(*moment)
    }

    fn is_same(&self, one: &u32, other: &Reached<u32, ()>) -> bool {
        *one == other.at
    }

    fn questions(&self) -> usize {
        0
    }

    fn holds(&self, _question: usize, _moment: &u32) -> bool {
        false
    }
}

// Whether these are all merges, and end at one moment.
fn are_all_merges(found: &Explored<u32>) -> bool {
    let [end] = found.ends.as_slice() else {
        return false;
    };
    found.whole && found.moments == 2401 && end.count == 2_308_743_493_056
}

// Whether the callers' orders are.
fn have_all_merges(alloc: Global) -> bool {
    match explore(alloc, &Free, 0, 25, 1000) {
        Ok(found) => are_all_merges(&found),
        Err(_) => false,
    }
}

#[test]
fn all_merges_are_counted(rt: HostRuntime) {
    assert!(rt; have_all_merges(rt.alloc()));
}
