//! Wrong steps, of which a text may ask what comes of them.
ghost use Rattle.std.specs.Prelude.{◌≡◌, Some, option_map};
ghost use Rattle.lab_step_orders.specs.Wrongs as wrongs;
ghost use Rattle.lab_step_orders.specs.Wrongs.{left_so, made_so, offered, step_made, stepped_wrong, then_wrong, unlocked, unmarked};

use crate::calls::Answer;
use crate::steps::{MutexStep, Place, Then, Turn, WhatIf, WordStep};

// An offer says of no thread that it still waits.
fn offered(step: WordStep) -> WordStep
    ensures { result ≡ offered step }
{
    match step {
        WordStep::AtMutex(mutex, MutexStep::Offer(next, _)) => {
            WordStep::AtMutex(mutex, MutexStep::Offer(next, false))
        }
        _ => step,
    }
}

// A claim leaves the word as it is.
fn unmarked(step: WordStep) -> Option<WordStep>
    ensures { result ≡ unmarked step }
{
    match step {
        WordStep::AtMutex(_, MutexStep::Mark) => None,
        _ => Some(step),
    }
}

// The call ends where its mutex was found claimed.
fn unlocked(next: Then) -> Then
    ensures { result ≡ unlocked next }
{
    match next {
        Then::Stands(Place::Claimed(_)) => Then::Answers(Answer::Done),
        _ => next,
    }
}

// Or the mark of the stax that it left.
fn left_so(next: Then) -> Then
    ensures { result ≡ left_so next }
{
    match next {
        Then::Stands(Place::Left(_)) => Then::Answers(Answer::Done),
        _ => next,
    }
}

fn stepped_wrong(what: WhatIf, step: WordStep) -> Option<WordStep>
    ensures { result ≡ stepped_wrong what step }
{
    match what {
        WhatIf::OfferDropsMark => Some(offered(step)),
        WhatIf::ClaimSetsNoMark => unmarked(step),
        WhatIf::UnlockSkipsKernel | WhatIf::LeaveKeepsMark => Some(step),
    }
}

fn then_wrong(what: WhatIf, next: Then) -> Then
    ensures { result ≡ then_wrong what next }
{
    match what {
        WhatIf::OfferDropsMark | WhatIf::ClaimSetsNoMark => next,
        WhatIf::UnlockSkipsKernel => unlocked(next),
        WhatIf::LeaveKeepsMark => left_so(next),
    }
}

// The step that is made in place of a right one.
fn step_made(what: WhatIf, step: Option<WordStep>) -> Option<WordStep>
    ensures { result ≡ step_made (Some what) step }
{
    match step {
        Some(step) => stepped_wrong(what, step),
        None => None,
    }
}

// A turn as callers make it.
fn turn_made(what_if: Option<WhatIf>, turn: Turn) -> Turn
    ensures { result ≡ made_so what_if turn }
{
    match what_if {
        Some(what) => Turn {
            step: step_made(what, turn.step),
            then: then_wrong(what, turn.then),
            ..turn
        },
        None => turn,
    }
}

/// The turn of a caller, if there is one, as callers make it.
pub(crate) fn made_so(what_if: Option<WhatIf>, turn: Option<Turn>) -> Option<Turn>
    ensures { result ≡ option_map (wrongs.made_so what_if) turn }
{
    match turn {
        Some(turn) => Some(turn_made(what_if, turn)),
        None => None,
    }
}
