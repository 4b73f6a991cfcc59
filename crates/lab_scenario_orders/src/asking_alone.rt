//! Questions asked alone: the answers of callers of whom nobody asks are forgotten.
ghost use Rattle.std.specs.Prelude.{ℕ, List, ◌≡◌, IfOk, IfSome, ◌<◌, length, map, option_map, slice_get, string_bytes, true, unwrap_or};
ghost use Rattle.evl_kernel.specs.state.States.{Handler};
ghost use Rattle.lab_scenario_orders.specs.AskingAlone.{ForgetsAnswers, asked_go, forget, kept_from, kept_one};
ghost use Rattle.lab_scenario_orders.specs.Moments.{IsNoted, StandsAt, seen_at};

use crate::banks::BankMaker;
use crate::callers::Callers;
use crate::digests::digest_of;
use crate::kernels::leave;
use crate::merging::are_merged;
use crate::moments::Moment;
use crate::watches::Watch;
use crate::worlds::{Driven, next_moment};
use evl_kernel::KernelOf;
use lab_orders::{Reached, World};
use std::alloc::{AllocError, Global};

// Whether the answers of the caller with this number are kept.
fn is_told(told: &[bool], number: usize) -> bool
    ensures { result ≡ unwrap_or (slice_get told.now number) true }
{
    told.get(number).copied().unwrap_or(true)
}

// The part that is kept of the answers of the caller with this number.
fn kept_one(alloc: Global, told: &[bool], number: usize, answers: String) -> String
    ensures { string_bytes result ≡ kept_one told.now number (string_bytes answers) }
{
    if is_told(told, number) {
        answers
    } else {
        String::new(alloc)
    }
}

// The part that is kept of the answers of callers.
fn all_kept(alloc: Global, told: &[bool], answers: Vec<String>) -> Result<Vec<String>, AllocError>
    ensures { IfOk result (λ all. map string_bytes all.items ≡ kept_from told.now 0 (map string_bytes answers.items)) }
{
    let mut all = Vec::with_capacity(alloc, answers.len())?;
    for text in answers {
        let number = all.len();
        all.push(kept_one(alloc, told, number, text))?;
    }
    Ok(all)
}

// A moment, with what is kept of the answers.
fn forgotten(alloc: Global, told: &[bool], moment: Moment) -> Result<Moment, AllocError>
    ensures seen { IfOk result (λ kept. (c : Callers) (bank : List Handler) → seen_at c bank kept ≡ forget told.now (seen_at c bank moment)) }
    ensures noted { IfOk result (λ kept. (c : Callers) (bank : List Handler) (watches : List Watch) → IsNoted c bank watches moment → IsNoted c bank watches kept) }
    ensures trail { IfOk result (λ kept. kept.trail ≡ moment.trail) }
{
    let Moment {
        made,
        answers,
        trail,
        standing,
        noted,
        held,
    } = moment;
    let answers = all_kept(alloc, told, answers)?;
    Ok(Moment {
        made,
        answers,
        trail,
        standing,
        noted,
        held,
    })
}

// A moment that a step led to, with what is kept of the answers, and the kernel there.
fn kept_there<B: BankMaker>(
    alloc: Global,
    told: &[bool],
    reached: Reached<Moment, KernelOf<B::Made, Global>>,
) -> Result<Reached<Moment, KernelOf<B::Made, Global>>, AllocError>
    ensures seen { IfOk result (λ kept. (c : Callers) (bank : List Handler) → seen_at c bank kept.at ≡ forget told.now (seen_at c bank reached.at)) }
    ensures noted { IfOk result (λ kept. (c : Callers) (bank : List Handler) (watches : List Watch) → IsNoted c bank watches reached.at → IsNoted c bank watches kept.at) }
    ensures trail { IfOk result (λ kept. kept.at.trail ≡ reached.at.trail) }
    ensures hand { IfOk result (λ kept. kept.hand ≡ reached.hand) }
{
    let Reached { at, hand } = reached;
    match forgotten(alloc, told, at) {
        Ok(at) => Ok(Reached { at, hand }),
        Err(error) => {
            leave(hand);
            Err(error)
        }
    }
}

// The moment after a caller's next step, with what is kept of the answers.
fn next_kept<B: BankMaker>(
    alloc: Global,
    callers: &Callers,
    bank: &B,
    watches: &[Watch],
    told: &[bool],
    moment: &Moment,
    caller: usize,
) -> Result<Option<Reached<Moment, KernelOf<B::Made, Global>>>, AllocError>
    requires caller { caller < length callers.now.callers.items }
    requires fits { IsNoted callers.now (B.bank bank.now) watches.now moment.now }
    ensures next { IfOk result (λ next. option_map (λ reached. seen_at callers.now (B.bank bank.now) reached.at) next ≡ asked_go callers.now told.now (seen_at callers.now (B.bank bank.now) moment.now) caller) }
    ensures fits { IfOk result (λ next. IfSome next (λ reached. IsNoted callers.now (B.bank bank.now) watches.now reached.at)) }
    ensures hand { IfOk result (λ next. IfSome next (λ reached. StandsAt callers.now (B.bank bank.now) reached.hand.history.state reached.hand.history.bank reached.at)) }
{
    match next_moment(alloc, callers, bank, watches, moment, caller) {
        Ok(Some(next)) => match kept_there::<B>(alloc, told, next) {
            Ok(kept) => Ok(Some(kept)),
            Err(error) => Err(error),
        },
        Ok(None) => Ok(None),
        Err(error) => Err(error),
    }
}

/// Callers over a bank, of some of whom the answers are forgotten.
#[derive(Clone, Copy, Drop)]
pub struct Alone<'a, B> {
    pub driven: Driven<'a, B>,
    /// For each caller, whether its answers are kept.
    pub told: &'a [bool],
}

impl<'a, B: BankMaker> World for Alone<'a, B> {
    ghost use Rattle.lab_scenario_orders.specs.AskingAlone.{asked_machine};
    ghost use Rattle.lab_scenario_orders.specs.Moments.{IsNoted, StandsAt, seen_at};
    ghost use Rattle.lab_scenario_orders.specs.Watches.{is_noted_at};
    ghost use Rattle.std.specs.Prelude.{length};

    type Moment = Moment;

    type Hand = KernelOf<B::Made, Global>;

    type State = crate::seen::SeenState;

    ghost machine = { λ alone. asked_machine alone.driven.callers.now alone.told.now };

    ghost state = { λ alone moment. seen_at alone.driven.callers.now (B.bank alone.driven.bank.now) moment };

    ghost fits = { λ alone moment. IsNoted alone.driven.callers.now (B.bank alone.driven.bank.now) alone.driven.watches.now moment };

    ghost is_at_hand = { λ alone hand moment. StandsAt alone.driven.callers.now (B.bank alone.driven.bank.now) hand.history.state hand.history.bank moment };

    ghost holds = { λ alone question seen. is_noted_at alone.driven.watches.now question seen.state };

    ghost asked = { λ alone. length alone.driven.watches.now };

    ghost complete = { λ alone. ⊥ };

    ghost digest_at = { λ alone seen. 0 };

    fn callers(&self) -> u16 {
        self.driven.callers.count()
    }

    fn step(
        &self,
        alloc: Global,
        moment: &Moment,
        caller: u16,
    ) -> Result<Option<Reached<Moment, KernelOf<B::Made, Global>>>, AllocError> {
        next_kept(
            alloc,
            self.driven.callers,
            self.driven.bank,
            self.driven.watches,
            self.told,
            moment,
            usize::from(caller),
        )
    }

    fn digest(&self, moment: &Moment) -> u64 {
        digest_of(moment)
    }

    fn is_same(&self, one: &Moment, other: &Reached<Moment, KernelOf<B::Made, Global>>) -> bool {
        are_merged(
            self.driven.alloc,
            self.driven.callers,
            self.driven.bank,
            one,
            &other.at,
            &other.hand,
        )
    }

    fn questions(&self) -> usize {
        self.driven.watches.len()
    }

    fn holds(&self, question: usize, moment: &Moment) -> bool {
        moment.noted.get(question).copied().unwrap_or(false)
    }
}

/// Callers whose answers are forgotten are what is seen of them with all their answers.
pub fn forgets_answers()
    ensures { ForgetsAnswers }
{}
