//! The callers of a scenario as a world.
ghost use Rattle.std.specs.Prelude.{◌≡◌, ◌<◌, Some, IfOk, IfSome, IsSomeAnd, OnOk, false, length, map, option_map, slice_get, slice_index, true, unwrap_or};
ghost use Rattle.evl_kernel.specs.state.Callbacks.{AnswersByPlan};
ghost use Rattle.evl_kernel.specs.histories.Replays.{step_outcome};
ghost use Rattle.evl_kernel.specs.state.States.{State};
ghost use Rattle.lab_scenario_orders.specs.Callers.{after, state_begun, go, step_of};
ghost use Rattle.lab_scenario_orders.specs.Moments.{IsMoment, IsNoted, StandsAt, held_in, seen_at, seen_from, trailed};
ghost use Rattle.lab_scenario_orders.specs.Watches.{is_noted};

use crate::banks::BankMaker;
use crate::callers::{Caller, Callers};
use crate::digests::{digest_of, standing_of};
use crate::kernels::{held_of, is_held, leave, led, make_step};
use crate::merging::are_merged;
use crate::moments::{Moment, moment_after};
use crate::seen::SeenState;
use crate::watches::{Watch, noted};
use evl_base::ThreadId;
use evl_kernel::KernelOf;
use evl_pipeline::Handler;
use evl_scenario::Step;
use lab_orders::{Reached, World};
use std::alloc::{AllocError, Global};

/// Callers over a bank; kernels are led along their steps where it is asked.
#[derive(Clone, Copy, Drop)]
pub struct Driven<'a, B> {
    pub alloc: Global,
    pub callers: &'a Callers,
    pub bank: &'a B,
    /// The questions about each moment.
    pub watches: &'a [Watch],
}

// The moment after a caller's next step, which the kernel makes.
fn after_step<C: Handler>(
    alloc: Global,
    kernel: &mut KernelOf<C, Global>,
    callers: &Callers,
    watches: &[Watch],
    moment: &Moment,
    caller: usize,
    place: usize,
    step: &Step,
) -> Result<Moment, AllocError>
    requires by_plan { AnswersByPlan C.declared C.plan kernel.old.callbacks }
    requires caller { caller < length callers.now.callers.items }
    requires fits { IsMoment callers.now moment.now }
    requires step { slice_get callers.now.steps.items place ≡ Some step.now }
    ensures next { IfOk result (λ next. (s : State) → kernel.old.history.state ≡ trailed callers.now s moment.now.trail.items
        → seen_from callers.now s next ≡ after (seen_from callers.now s moment.now) caller (step_outcome kernel.old.history.state step.now.who.0 step.now.call)) }
    ensures fits { IfOk result (IsMoment callers.now) }
    ensures noted { IfOk result (λ next. next.noted.items ≡ map (is_noted (step_outcome kernel.old.history.state step.now.who.0 step.now.call).after) watches.now) }
    ensures held { IfOk result (λ next. next.held.items ≡ held_in callers.now (step_outcome kernel.old.history.state step.now.who.0 step.now.call).after) }
    ensures there { OnOk result (kernel.new.history.state ≡ (step_outcome kernel.old.history.state step.now.who.0 step.now.call).after) }
    ensures bank { OnOk result (kernel.new.history.bank ≡ kernel.old.history.bank) }
{
    let count = moment.made[caller];
    let answer = match make_step(alloc, kernel, step) {
        Ok(answer) => answer,
        Err(error) => return Err(error),
    };
    let standing = standing_of(alloc, kernel, &callers.board);
    let noted = match noted(alloc, kernel, watches) {
        Ok(noted) => noted,
        Err(error) => return Err(error),
    };
    let held = match held_of(alloc, kernel, callers) {
        Ok(held) => held,
        Err(error) => return Err(error),
    };
    match moment_after(
        alloc, moment, caller, count, place, &answer, standing, noted, held,
    ) {
        Ok(next) => Ok(next),
        Err(error) => Err(error),
    }
}

// The moment after a caller's next step, which the kernel makes unless the caller is held.
fn step_kernel<B: BankMaker>(
    alloc: Global,
    kernel: &mut KernelOf<B::Made, Global>,
    callers: &Callers,
    bank: &B,
    watches: &[Watch],
    moment: &Moment,
    caller: usize,
    place: usize,
    step: &Step,
) -> Result<Option<Moment>, AllocError>
    requires by_plan { AnswersByPlan B.Made.declared B.Made.plan kernel.old.callbacks }
    requires state { kernel.old.history.state ≡ trailed callers.now (state_begun callers.now (B.bank bank.now)) moment.now.trail.items }
    requires bank { kernel.old.history.bank ≡ B.bank bank.now }
    requires caller { caller < length callers.now.callers.items }
    requires fits { IsNoted callers.now (B.bank bank.now) watches.now moment.now }
    requires step { slice_get callers.now.steps.items place ≡ Some step.now }
    ensures next { IfOk result (λ next. option_map (seen_at callers.now (B.bank bank.now)) next ≡ step_of callers.now.as_picked (seen_at callers.now (B.bank bank.now) moment.now) caller step.now) }
    ensures fits { IfOk result (λ next. IfSome next (IsNoted callers.now (B.bank bank.now) watches.now)) }
    ensures hand { IfOk result (λ next. IfSome next (StandsAt callers.now (B.bank bank.now) kernel.new.history.state kernel.new.history.bank)) }
{
    if is_held(kernel, callers.as_picked, step.who) {
        return Ok(None);
    }
    match after_step(alloc, kernel, callers, watches, moment, caller, place, step) {
        Ok(next) => Ok(Some(next)),
        Err(error) => Err(error),
    }
}

// A moment, if there is one, with the kernel that is there at hand.
fn held_at<C: Handler>(
    next: Option<Moment>,
    kernel: KernelOf<C, Global>,
) -> Option<Reached<Moment, KernelOf<C, Global>>>
    ensures at { option_map (λ reached. reached.at) result ≡ next }
    ensures hand { IfSome result (λ reached. reached.hand ≡ kernel) }
{
    match next {
        Some(at) => Some(Reached { at, hand: kernel }),
        None => {
            leave(kernel);
            None
        }
    }
}

// The moment after a caller's next step, unless it is held, and the kernel there.
fn stepped<B: BankMaker>(
    alloc: Global,
    callers: &Callers,
    bank: &B,
    watches: &[Watch],
    moment: &Moment,
    caller: usize,
    place: usize,
    step: &Step,
) -> Result<Option<Reached<Moment, KernelOf<B::Made, Global>>>, AllocError>
    requires caller { caller < length callers.now.callers.items }
    requires fits { IsNoted callers.now (B.bank bank.now) watches.now moment.now }
    requires step { slice_get callers.now.steps.items place ≡ Some step.now }
    ensures next { IfOk result (λ next. option_map (λ reached. seen_at callers.now (B.bank bank.now) reached.at) next ≡ step_of callers.now.as_picked (seen_at callers.now (B.bank bank.now) moment.now) caller step.now) }
    ensures fits { IfOk result (λ next. IfSome next (λ reached. IsNoted callers.now (B.bank bank.now) watches.now reached.at)) }
    ensures hand { IfOk result (λ next. IfSome next (λ reached. StandsAt callers.now (B.bank bank.now) reached.hand.history.state reached.hand.history.bank reached.at)) }
{
    let mut kernel = match led(alloc, callers, bank, moment.trail.as_slice()) {
        Ok(kernel) => kernel,
        Err(error) => return Err(error),
    };
    match step_kernel(
        alloc,
        &mut kernel,
        callers,
        bank,
        watches,
        moment,
        caller,
        place,
        step,
    ) {
        Ok(next) => Ok(held_at(next, kernel)),
        Err(error) => {
            leave(kernel);
            Err(error)
        }
    }
}

// Whether the caller with this number is this thread.
fn is_thread(callers: &[Caller], caller: usize, who: ThreadId) -> bool
    ensures { result ≡ true → IsSomeAnd (slice_get callers.now caller) (λ one. one.who.0 ≡ who.0) }
{
    match callers.get(caller) {
        Some(one) => one.who.0 == who.0,
        None => false,
    }
}

// Whether it is noted that the caller with this number is held.
fn is_noted_held(held: &[bool], caller: usize) -> bool
    ensures { result ≡ unwrap_or (slice_get held.now caller) false }
{
    held.get(caller).copied().unwrap_or(false)
}

// Whether it is noted of a step of the caller with this number that it can't be made.
fn is_known_held(callers: &Callers, moment: &Moment, caller: usize, who: ThreadId) -> bool
    ensures thread { result ≡ true → IsSomeAnd (slice_get callers.now.callers.items caller) (λ one. one.who.0 ≡ who.0) }
    ensures held { result ≡ true → unwrap_or (slice_get moment.now.held.items caller) false ≡ true }
{
    is_thread(callers.callers.as_slice(), caller, who)
        && is_noted_held(moment.held.as_slice(), caller)
}

// The same, where a caller that is known to be held needs no kernel.
fn stepped_on<B: BankMaker>(
    alloc: Global,
    callers: &Callers,
    bank: &B,
    watches: &[Watch],
    moment: &Moment,
    caller: usize,
    place: usize,
    step: &Step,
) -> Result<Option<Reached<Moment, KernelOf<B::Made, Global>>>, AllocError>
    requires caller { caller < length callers.now.callers.items }
    requires fits { IsNoted callers.now (B.bank bank.now) watches.now moment.now }
    requires step { slice_get callers.now.steps.items place ≡ Some step.now }
    ensures next { IfOk result (λ next. option_map (λ reached. seen_at callers.now (B.bank bank.now) reached.at) next ≡ step_of callers.now.as_picked (seen_at callers.now (B.bank bank.now) moment.now) caller step.now) }
    ensures fits { IfOk result (λ next. IfSome next (λ reached. IsNoted callers.now (B.bank bank.now) watches.now reached.at)) }
    ensures hand { IfOk result (λ next. IfSome next (λ reached. StandsAt callers.now (B.bank bank.now) reached.hand.history.state reached.hand.history.bank reached.at)) }
{
    if is_known_held(callers, moment, caller, step.who) {
        return Ok(None);
    }
    stepped(alloc, callers, bank, watches, moment, caller, place, step)
}

/// The moment after a caller's next step, if it has one and isn't held, and the kernel there.
pub(crate) fn next_moment<B: BankMaker>(
    alloc: Global,
    callers: &Callers,
    bank: &B,
    watches: &[Watch],
    moment: &Moment,
    caller: usize,
) -> Result<Option<Reached<Moment, KernelOf<B::Made, Global>>>, AllocError>
    requires caller { caller < length callers.now.callers.items }
    requires fits { IsNoted callers.now (B.bank bank.now) watches.now moment.now }
    ensures next { IfOk result (λ next. option_map (λ reached. seen_at callers.now (B.bank bank.now) reached.at) next ≡ go callers.now (seen_at callers.now (B.bank bank.now) moment.now) caller) }
    ensures fits { IfOk result (λ next. IfSome next (λ reached. IsNoted callers.now (B.bank bank.now) watches.now reached.at)) }
    ensures hand { IfOk result (λ next. IfSome next (λ reached. StandsAt callers.now (B.bank bank.now) reached.hand.history.state reached.hand.history.bank reached.at)) }
{
    let count = moment.made[caller];
    match callers.next_place(caller, count) {
        Some(place) => match callers.steps.get(place) {
            Some(step) => { stepped_on(alloc, callers, bank, watches, moment, caller, place, step) }
            None => Ok(None),
        },
        None => Ok(None),
    }
}

impl<'a, B: BankMaker> World for Driven<'a, B> {
    ghost use Rattle.lab_scenario_orders.specs.Callers.{machine};
    ghost use Rattle.lab_scenario_orders.specs.Moments.{IsNoted, StandsAt, seen_at};
    ghost use Rattle.lab_scenario_orders.specs.Watches.{is_noted_at};
    ghost use Rattle.std.specs.Prelude.{length};

    type Moment = Moment;

    type Hand = KernelOf<B::Made, Global>;

    type State = SeenState;

    ghost machine = { λ driven. machine driven.callers.now };

    ghost state = { λ driven moment. seen_at driven.callers.now (B.bank driven.bank.now) moment };

    ghost fits = { λ driven moment. IsNoted driven.callers.now (B.bank driven.bank.now) driven.watches.now moment };

    ghost is_at_hand = { λ driven hand moment. StandsAt driven.callers.now (B.bank driven.bank.now) hand.history.state hand.history.bank moment };

    ghost holds = { λ driven question seen. is_noted_at driven.watches.now question seen.state };

    ghost asked = { λ driven. length driven.watches.now };

    ghost complete = { λ driven. ⊥ };

    ghost digest_at = { λ driven seen. 0 };

    fn callers(&self) -> u16 {
        self.callers.count()
    }

    fn step(
        &self,
        alloc: Global,
        moment: &Moment,
        caller: u16,
    ) -> Result<Option<Reached<Moment, KernelOf<B::Made, Global>>>, AllocError> {
        next_moment(
            alloc,
            self.callers,
            self.bank,
            self.watches,
            moment,
            usize::from(caller),
        )
    }

    fn digest(&self, moment: &Moment) -> u64 {
        digest_of(moment)
    }

    fn is_same(&self, one: &Moment, other: &Reached<Moment, KernelOf<B::Made, Global>>) -> bool {
        are_merged(
            self.alloc,
            self.callers,
            self.bank,
            one,
            &other.at,
            &other.hand,
        )
    }

    fn questions(&self) -> usize {
        self.watches.len()
    }

    fn holds(&self, question: usize, moment: &Moment) -> bool {
        moment.noted.get(question).copied().unwrap_or(false)
    }
}
