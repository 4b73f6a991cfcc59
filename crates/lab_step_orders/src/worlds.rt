//! Callers that step on words, as a world.
use crate::crews::Crew;
use crate::digests::digest_of;
use crate::facts::is_noted_at;
use crate::going::next_moment;
use crate::moments::{Moment, are_same};
use crate::seen::SeenSteps;
use lab_orders::{Reached, World};
use std::alloc::{AllocError, Global};

/// Callers whose steps are gone through.
#[derive(Clone, Copy, Drop)]
pub struct Stepping<'a> {
    pub alloc: Global,
    pub crew: &'a Crew,
}

impl<'a> World for Stepping<'a> {
    ghost use Rattle.std.specs.Prelude.{length, ⊤};
    ghost use Rattle.lab_step_orders.specs.Facts.{is_noted_at};
    ghost use Rattle.lab_step_orders.specs.Moments.{IsMoment, seen_of};
    ghost use Rattle.lab_step_orders.specs.Seen.{Seen, machine};

    type Moment = Moment;

    type Hand = ();

    type State = SeenSteps;

    ghost machine = { λ stepping. machine stepping.crew.now };

    ghost state = { λ stepping moment. seen_of stepping.crew.now moment };

    ghost fits = { λ stepping moment. IsMoment stepping.crew.now moment };

    ghost is_at_hand = { λ stepping hand moment. ⊤ };

    ghost holds = { λ stepping question seen. is_noted_at stepping.crew.now question seen };

    ghost asked = { λ stepping. length stepping.crew.now.watches.items };

    ghost complete = { λ stepping. ⊥ };

    ghost digest_at = { λ stepping seen. 0 };

    fn callers(&self) -> u16 {
        self.crew.count()
    }

    fn step(
        &self,
        alloc: Global,
        moment: &Moment,
        caller: u16,
    ) -> Result<Option<Reached<Moment, ()>>, AllocError> {
        match next_moment(alloc, self.crew, moment, caller) {
            Ok(Some(at)) => Ok(Some(Reached { at, hand: () })),
            Ok(None) => Ok(None),
            Err(error) => Err(error),
        }
    }

    fn digest(&self, moment: &Moment) -> u64 {
        digest_of(moment)
    }

    fn is_same(&self, one: &Moment, other: &Reached<Moment, ()>) -> bool {
        are_same(self.alloc, self.crew, one, &other.at)
    }

    fn questions(&self) -> usize {
        self.crew.watches.len()
    }

    fn holds(&self, question: usize, moment: &Moment) -> bool {
        is_noted_at(self.crew, question, moment)
    }
}
