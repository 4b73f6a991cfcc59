//! Whether facts are so at a moment.
ghost use Rattle.std.specs.Prelude.{◌≡◌, ◌==◌, ◌||◌, map};
ghost use Rattle.evl_words.specs.GateWord.{mark_in};
ghost use Rattle.evl_words.specs.MutexBits.{number_in};
ghost use Rattle.lab_scenario_orders.specs.Facts.{is_stage};
ghost use Rattle.lab_scenario_orders.specs.Watches.{is_noted_by};
ghost use Rattle.lab_step_orders.specs.Facts.{are_all_so, at_word, is_claimed, is_noted, is_noted_at, is_on, is_one_on, is_so};
ghost use Rattle.lab_step_orders.specs.Moments.{seen_of, shared_of};
ghost use Rattle.lab_step_orders.specs.Words.{holds};

use crate::cores::has_core;
use crate::crews::Crew;
use crate::moments::Moment;
use crate::programs::stage_of;
use crate::shared::{SharedWord, holds};
use crate::watches::{StepClaim, StepFact, StepWatch};
use crate::words::mark_in;
use evl_base::{Stage, ThreadId};
use lab_scenario_orders::When;

// Whether two stages are the same.
fn is_stage(one: Stage, other: Stage) -> bool
    ensures { result ≡ is_stage one other }
{
    match one {
        Stage::Oob => match other {
            Stage::Oob => true,
            Stage::Inband => false,
        },
        Stage::Inband => match other {
            Stage::Oob => false,
            Stage::Inband => true,
        },
    }
}

// Whether a caller holds a stax, and is on this stage.
fn is_one_on(crew: &Crew, stage: Stage, gate: &SharedWord, caller: u16) -> bool
    ensures { result ≡ is_one_on crew.now stage (shared_of gate.now) caller }
{
    holds(gate, caller) && is_stage(stage, stage_of(crew, caller))
}

// Whether one of two things is so.
fn either(one: bool, other: bool) -> bool
    ensures { result ≡ (one || other) }
{
    one || other
}

// Whether a caller on this stage holds a stax.
fn is_on(crew: &Crew, stage: Stage, gate: &SharedWord) -> bool
    ensures { result ≡ is_on crew.now stage (shared_of gate.now) }
{
    let mut is = false;
    for caller in 0..crew.count() {
        is = either(is, is_one_on(crew, stage, gate, caller));
    }
    is
}

// Whether a caller on this stage holds the stax at a place.
fn is_held_on(crew: &Crew, gates: &[SharedWord], place: u16, stage: Stage) -> bool
    ensures { result ≡ at_word (is_on crew.now stage) (map shared_of gates.now) place }
{
    match gates.get(usize::from(place)) {
        Some(gate) => is_on(crew, stage, gate),
        None => false,
    }
}

// Whether a thread holds what the word at a place guards.
fn is_held_by(words: &[SharedWord], place: u16, who: ThreadId) -> bool
    ensures { result ≡ at_word (λ shared. holds shared who.0) (map shared_of words.now) place }
{
    match words.get(usize::from(place)) {
        Some(shared) => holds(shared, who.0),
        None => false,
    }
}

// Whether the word at a place has the claim mark.
fn is_marked(words: &[SharedWord], place: u16) -> bool
    ensures { result ≡ at_word (λ shared. mark_in shared.word) (map shared_of words.now) place }
{
    match words.get(usize::from(place)) {
        Some(shared) => mark_in(shared.word),
        None => false,
    }
}

// Whether the word of the mutex at a place names nobody.
fn is_free(mutexes: &[SharedWord], place: u16) -> bool
    ensures { result ≡ at_word (λ shared. number_in shared.word == 0) (map shared_of mutexes.now) place }
{
    match mutexes.get(usize::from(place)) {
        Some(shared) => shared.word % 65_536 == 0,
        None => false,
    }
}

// Whether a fact is so.
fn is_so(crew: &Crew, moment: &Moment, fact: StepFact) -> bool
    ensures { result ≡ is_so crew.now (seen_of crew.now moment.now) fact }
{
    let gates = moment.gates.as_slice();
    let mutexes = moment.mutexes.as_slice();
    match fact {
        StepFact::HoldsStax(who, stax) => is_held_by(gates, stax.0, who),
        StepFact::HeldOn(stax, stage) => is_held_on(crew, gates, stax.0, stage),
        StepFact::StaxClaimed(stax) => is_marked(gates, stax.0),
        StepFact::HoldsMutex(who, mutex) => is_held_by(mutexes, mutex.0, who),
        StepFact::MutexFree(mutex) => is_free(mutexes, mutex.0),
        StepFact::MutexClaimed(mutex) => is_marked(mutexes, mutex.0),
        StepFact::HasCore(who) => has_core(moment.core, who.0),
        StepFact::CoreFree => moment.core.is_none(),
    }
}

// Whether a claim is so.
fn is_claimed(crew: &Crew, moment: &Moment, claim: &StepClaim) -> bool
    ensures { result ≡ is_claimed crew.now (seen_of crew.now moment.now) claim.now }
{
    let is_so = is_so(crew, moment, claim.fact);
    if claim.is_so { is_so } else { !is_so }
}

// Whether all of these claims are so.
fn are_all_so(crew: &Crew, moment: &Moment, claims: &[StepClaim]) -> bool
    ensures { result ≡ are_all_so crew.now (seen_of crew.now moment.now) claims.now }
{
    for claim in claims {
        if !is_claimed(crew, moment, claim) {
            return false;
        }
    }
    true
}

// Whether a moment is the one that is looked for, where facts are so or not.
fn is_noted_by(when: When, is_so: bool) -> bool
    ensures { result ≡ is_noted_by when is_so }
{
    match when {
        When::Never => is_so,
        When::Sometimes => is_so,
        When::Always => !is_so,
    }
}

// Whether a moment is as is looked for: the facts are so, or, where they are asked for at each moment, they aren't.
fn is_noted(crew: &Crew, moment: &Moment, watch: &StepWatch) -> bool
    ensures { result ≡ is_noted crew.now (seen_of crew.now moment.now) watch.now }
{
    is_noted_by(
        watch.when,
        are_all_so(crew, moment, watch.claims.as_slice()),
    )
}

/// As `is_noted`, of the question with this place.
pub(crate) fn is_noted_at(crew: &Crew, place: usize, moment: &Moment) -> bool
    ensures { result ≡ is_noted_at crew.now place (seen_of crew.now moment.now) }
{
    match crew.watches.get(place) {
        Some(watch) => is_noted(crew, moment, watch),
        None => false,
    }
}
