//! The records that are kept of callers at one moment.
ghost use Rattle.std.specs.Prelude.{◌≡◌, ◌+◌, [], ◌<◌, ◌≤◌, true, None, replicate, IfOk, OnOk, length, map, slice_get, slice_index, slice_index_or, slice_set, string_bytes};
ghost use Rattle.lab_step_orders.specs.Moments.{IsMoment, seen_of, shared_of, trail_after};
ghost use Rattle.lab_step_orders.specs.Seen.{after, answers_after, changed_at, first_seen, free_word, gates_after, made_after, mutexes_after, place_after, wait_after};
ghost use Rattle.lab_step_orders.specs.Programs.{limit_of, stage_of};
ghost use Rattle.lab_step_orders.specs.Told.{answer_line};
ghost use Rattle.lab_step_orders.specs.Words as shared;
ghost use Rattle.lab_step_orders.specs.declared.steps.Place.TheVariants.{Begins};

use crate::calls::Answer;
use crate::cores::core_after;
use crate::crews::{Crew, CrewCaller};
use crate::kernels::{NoPlans, Visited, do_trails_meet};
use crate::programs::stage_of;
use crate::shared::{SharedWord, are_same_words, copied_words, free_word, words_with};
use crate::steps::{
    GateStep, MutexStep, Place, Taken, Then, Turn, Visit, WaitChange, Waiting, WordStep,
};
use crate::words::{gate_after, mutex_after};
use evl_base::{MutexId, StaxId};
use std::alloc::{AllocError, Global};

/// All that is kept of callers and words at one moment.
#[derive(Drop)]
pub struct Moment {
    /// The word of each stax, and of each mutex.
    pub gates: Vec<SharedWord>,
    pub mutexes: Vec<SharedWord>,
    /// Each caller's place in its call.
    pub(crate) places: Vec<Place>,
    /// How many calls of each caller are over.
    pub(crate) made: Vec<usize>,
    /// Each caller's answers, as text.
    pub(crate) answers: Vec<String>,
    /// Each caller's wait.
    pub(crate) waits: Vec<Option<Waiting>>,
    /// The caller that has the core.
    pub core: Option<Taken>,
    /// The kernel's calls in visits, in their order, but for those that were refused: a refusal leaves the kernel as it
    /// was.
    pub(crate) trail: Vec<Visited>,
}

// So many words that nobody holds.
fn free_words(alloc: Global, count: usize, callers: u16) -> Result<Vec<SharedWord>, AllocError>
    ensures { IfOk result (λ words. map shared_of words.items ≡ replicate count (free_word callers)) }
{
    let mut words = Vec::new(alloc);
    for _word in 0..count {
        words.push(free_word(alloc, callers)?)?;
    }
    Ok(words)
}

// Each caller before the first step of its call.
fn all_begin(alloc: Global, callers: &[CrewCaller]) -> Result<Vec<Place>, AllocError>
    ensures { IfOk result (λ places. places.items ≡ map (λ caller. Begins) callers.now) }
{
    let mut places = Vec::new(alloc);
    for _caller in callers {
        places.push(Place::Begins)?;
    }
    Ok(places)
}

// As many zeros as callers.
fn none_made(alloc: Global, callers: &[CrewCaller]) -> Result<Vec<usize>, AllocError>
    ensures { IfOk result (λ made. made.items ≡ map (λ caller. 0) callers.now) }
{
    let mut made = Vec::new(alloc);
    for _caller in callers {
        made.push(0)?;
    }
    Ok(made)
}

// As many empty texts as callers.
fn no_answers(alloc: Global, callers: &[CrewCaller]) -> Result<Vec<String>, AllocError>
    ensures { IfOk result (λ answers. map string_bytes answers.items ≡ map (λ caller. []) callers.now) }
{
    let mut answers = Vec::new(alloc);
    for _caller in callers {
        answers.push(String::new(alloc))?;
    }
    Ok(answers)
}

// As many callers that don't wait.
fn no_waits(alloc: Global, callers: &[CrewCaller]) -> Result<Vec<Option<Waiting>>, AllocError>
    ensures { IfOk result (λ waits. waits.items ≡ map (λ caller. None) callers.now) }
{
    let mut waits = Vec::new(alloc);
    for _caller in callers {
        waits.push(None)?;
    }
    Ok(waits)
}

/// The moment before the first step. `AllocError` where memory couldn't grow.
pub fn first_moment(alloc: Global, crew: &Crew) -> Result<Moment, AllocError>
    ensures seen { IfOk result (λ moment. seen_of crew.now moment ≡ first_seen crew.now) }
    ensures fits { IfOk result (IsMoment crew.now) }
{
    let callers = crew.count();
    let gates = free_words(alloc, crew.board.staxes.len(), callers)?;
    let mutexes = free_words(alloc, crew.board.mutexes.len(), callers)?;
    let places = all_begin(alloc, crew.callers.as_slice())?;
    let made = none_made(alloc, crew.callers.as_slice())?;
    let answers = no_answers(alloc, crew.callers.as_slice())?;
    let waits = no_waits(alloc, crew.callers.as_slice())?;
    Ok(Moment {
        gates,
        mutexes,
        places,
        made,
        answers,
        waits,
        core: None,
        trail: Vec::new(alloc),
    })
}

// A gate after a caller's step.
fn gate_stepped(
    alloc: Global,
    crew: &Crew,
    caller: u16,
    stax: StaxId,
    step: GateStep,
    gate: &SharedWord,
) -> Result<SharedWord, AllocError>
    ensures { IfOk result (λ next. shared_of next ≡ shared.gate_after (limit_of crew.now stax.0) (stage_of crew.now caller) caller step (shared_of gate.now)) }
{
    gate_after(alloc, stage_of(crew, caller), caller, step, gate)
}

// The gates after a caller's step on one of them, if it is there.
fn gates_with(
    alloc: Global,
    crew: &Crew,
    caller: u16,
    stax: StaxId,
    step: GateStep,
    gates: &[SharedWord],
) -> Result<Vec<SharedWord>, AllocError>
    ensures { IfOk result (λ all. map shared_of all.items ≡ changed_at (shared.gate_after (limit_of crew.now stax.0) (stage_of crew.now caller) caller step) stax.0 (map shared_of gates.now)) }
{
    let place = usize::from(stax.0);
    match gates.get(place) {
        Some(gate) => {
            let next = gate_stepped(alloc, crew, caller, stax, step, gate)?;
            words_with(alloc, gates, place, next)
        }
        None => copied_words(alloc, gates),
    }
}

// The gates after a caller's step, if it makes one on them.
fn gates_after(
    alloc: Global,
    crew: &Crew,
    caller: u16,
    step: Option<WordStep>,
    gates: &[SharedWord],
) -> Result<Vec<SharedWord>, AllocError>
    ensures { IfOk result (λ all. map shared_of all.items ≡ gates_after crew.now caller step (map shared_of gates.now)) }
{
    match step {
        Some(WordStep::AtGate(stax, step)) => gates_with(alloc, crew, caller, stax, step, gates),
        Some(WordStep::AtMutex(_, _)) | None => copied_words(alloc, gates),
    }
}

// The mutexes after a caller's step on one of them, if it is there.
fn mutexes_with(
    alloc: Global,
    caller: u16,
    mutex: MutexId,
    step: MutexStep,
    mutexes: &[SharedWord],
) -> Result<Vec<SharedWord>, AllocError>
    ensures { IfOk result (λ all. map shared_of all.items ≡ changed_at (shared.mutex_after caller step) mutex.0 (map shared_of mutexes.now)) }
{
    let place = usize::from(mutex.0);
    match mutexes.get(place) {
        Some(one) => {
            let next = mutex_after(alloc, caller, step, one)?;
            words_with(alloc, mutexes, place, next)
        }
        None => copied_words(alloc, mutexes),
    }
}

// The mutexes after a caller's step, if it makes one on them.
fn mutexes_after(
    alloc: Global,
    caller: u16,
    step: Option<WordStep>,
    mutexes: &[SharedWord],
) -> Result<Vec<SharedWord>, AllocError>
    ensures { IfOk result (λ all. map shared_of all.items ≡ mutexes_after caller step (map shared_of mutexes.now)) }
{
    match step {
        Some(WordStep::AtMutex(mutex, step)) => mutexes_with(alloc, caller, mutex, step, mutexes),
        Some(WordStep::AtGate(_, _)) | None => copied_words(alloc, mutexes),
    }
}

// A caller's place after a turn.
fn place_after(then: Then) -> Place
    ensures { result ≡ place_after then }
{
    match then {
        Then::Stands(place) => place,
        Then::Answers(_) => Place::Begins,
    }
}

// The places, with that of one caller as a turn leaves it.
fn places_after(
    alloc: Global,
    places: &[Place],
    caller: usize,
    then: Then,
) -> Result<Vec<Place>, AllocError>
    requires { caller < length places.now }
    ensures { IfOk result (λ all. all.items ≡ slice_set places.now caller (place_after then)) }
{
    let mut all = Vec::with_capacity(alloc, places.len())?;
    all.extend_from_slice(places)?;
    all[caller] = place_after(then);
    Ok(all)
}

// How many calls are over, of one that has made so many.
fn count_after(count: usize, then: Then) -> Result<usize, AllocError>
    ensures { IfOk result (λ more. more ≡ made_after then count) }
{
    match then {
        Then::Stands(_) => Ok(count),
        Then::Answers(_) => match count.checked_add(1) {
            Some(more) => Ok(more),
            None => Err(AllocError),
        },
    }
}

// How many calls are over, with those of one caller as a turn leaves it.
fn made_after(
    alloc: Global,
    made: &[usize],
    caller: usize,
    then: Then,
) -> Result<Vec<usize>, AllocError>
    requires { caller < length made.now }
    ensures { IfOk result (λ all. all.items ≡ slice_set made.now caller (made_after then (slice_index made.now caller))) }
{
    let count = count_after(made[caller], then)?;
    let mut all = Vec::with_capacity(alloc, made.len())?;
    all.extend_from_slice(made)?;
    all[caller] = count;
    Ok(all)
}

// Writes an answer after what was answered so far.
fn tell(told: &mut String, answer: Answer) -> Result<(), AllocError>
    ensures { OnOk result (string_bytes told.new ≡ answer_line (string_bytes told.old) answer) }
{
    told.push_str(" -> ")?;
    told.write(answer)?;
    Ok(())
}

// A caller's answers, after a turn.
fn told_after(alloc: Global, text: &str, then: Then) -> Result<String, AllocError>
    ensures { IfOk result (λ told. string_bytes told ≡ answers_after then text.now) }
{
    let mut told = String::from_str(alloc, text)?;
    match then {
        Then::Stands(_) => {}
        Then::Answers(answer) => tell(&mut told, answer)?,
    }
    Ok(told)
}

// The same texts once more.
fn copied_texts(alloc: Global, texts: &[String]) -> Result<Vec<String>, AllocError>
    ensures { IfOk result (λ copied. map string_bytes copied.items ≡ map string_bytes texts.now) }
{
    let mut copied = Vec::new(alloc);
    for text in texts {
        copied.push(String::from_str(alloc, text.as_str())?)?;
    }
    Ok(copied)
}

// The callers' answers, with those of one caller as a turn leaves them.
fn answers_after(
    alloc: Global,
    answers: &[String],
    caller: usize,
    then: Then,
) -> Result<Vec<String>, AllocError>
    requires { caller < length answers.now }
    ensures { IfOk result (λ all. map string_bytes all.items ≡ slice_set (map string_bytes answers.now) caller (answers_after then (slice_index_or (map string_bytes answers.now) caller []))) }
{
    let told = told_after(alloc, answers[caller].as_str(), then)?;
    let mut all = copied_texts(alloc, answers)?;
    all[caller] = told;
    Ok(all)
}

// For what a caller waits after a turn.
fn wait_after(wait: Option<Waiting>, change: WaitChange) -> Option<Waiting>
    ensures { result ≡ wait_after change wait }
{
    match change {
        WaitChange::Same => wait,
        WaitChange::Begins(now) => Some(now),
        WaitChange::Ends => None,
    }
}

// For what callers wait, with that of one caller as a turn leaves it.
fn waits_after(
    alloc: Global,
    waits: &[Option<Waiting>],
    caller: usize,
    change: WaitChange,
) -> Result<Vec<Option<Waiting>>, AllocError>
    requires { caller < length waits.now }
    ensures { IfOk result (λ all. all.items ≡ slice_set waits.now caller (wait_after change (slice_index_or waits.now caller None))) }
{
    let mut all = Vec::with_capacity(alloc, waits.len())?;
    all.extend_from_slice(waits)?;
    all[caller] = wait_after(waits[caller], change);
    Ok(all)
}

// The visits, with that of a turn after them.
fn trail_after(
    alloc: Global,
    trail: &[Visited],
    who: u16,
    visit: Option<Visit>,
) -> Result<Vec<Visited>, AllocError>
    ensures { IfOk result (λ all. all.items ≡ trail_after trail.now who visit) }
{
    let mut all = Vec::with_capacity(alloc, trail.len().saturating_add(1))?;
    all.extend_from_slice(trail)?;
    if let Some(visit) = visit {
        all.push(Visited { who, visit })?;
    }
    Ok(all)
}

/// The moment after a turn of a caller. `AllocError` where memory couldn't grow.
pub fn moment_after(
    alloc: Global,
    crew: &Crew,
    before: &Moment,
    caller: u16,
    turn: Turn,
) -> Result<Moment, AllocError>
    requires caller { caller < length crew.now.callers.items }
    requires fits { IsMoment crew.now before.now }
    ensures seen { IfOk result (λ moment. seen_of crew.now moment ≡ after crew.now (seen_of crew.now before.now) caller turn) }
    ensures fits { IfOk result (IsMoment crew.now) }
{
    let place = usize::from(caller);
    let gates = gates_after(alloc, crew, caller, turn.step, before.gates.as_slice())?;
    let mutexes = mutexes_after(alloc, caller, turn.step, before.mutexes.as_slice())?;
    let places = places_after(alloc, before.places.as_slice(), place, turn.then)?;
    let made = made_after(alloc, before.made.as_slice(), place, turn.then)?;
    let answers = answers_after(alloc, before.answers.as_slice(), place, turn.then)?;
    let waits = waits_after(alloc, before.waits.as_slice(), place, turn.wait)?;
    let core = core_after(turn.core, caller, before.core);
    let trail = trail_after(alloc, before.trail.as_slice(), caller, turn.visit)?;
    Ok(Moment {
        gates,
        mutexes,
        places,
        made,
        answers,
        waits,
        core,
        trail,
    })
}

// Whether two lists of texts are the same.
fn are_same_texts(one: &[String], other: &[String]) -> bool
    ensures { result ≡ true → map string_bytes one.now ≡ map string_bytes other.now }
{
    one == other
}

// Whether two lists of numbers are the same.
fn are_same_numbers(one: &[usize], other: &[usize]) -> bool
    ensures { result ≡ true → one.now ≡ other.now }
{
    one == other
}

// Whether callers stand alike.
fn are_same_places(one: &[Place], other: &[Place]) -> bool
    ensures { result ≡ true → one.now ≡ other.now }
{
    one == other
}

// Whether callers wait for the same.
fn are_same_waits(one: &[Option<Waiting>], other: &[Option<Waiting>]) -> bool
    ensures { result ≡ true → one.now ≡ other.now }
{
    one == other
}

// Whether it is the same caller, as far.
fn is_same_taken(one: Taken, other: Taken) -> bool
    ensures { result ≡ true → one ≡ other }
{
    one.who == other.who && one.is_done == other.is_done
}

// Whether the same caller has the core, or none.
fn is_same_core(one: Option<Taken>, other: Option<Taken>) -> bool
    ensures { result ≡ true → one ≡ other }
{
    match one {
        Some(taken) => match other {
            Some(also) => is_same_taken(taken, also),
            None => false,
        },
        None => other.is_none(),
    }
}

/// Whether two moments are the same: the words and who holds them, where each caller is, for what it waits, its
/// answers, who has the core, and how the kernel is.
pub(crate) fn are_same(alloc: Global, crew: &Crew, one: &Moment, other: &Moment) -> bool
    ensures { result ≡ true → seen_of crew.now one.now ≡ seen_of crew.now other.now }
{
    are_same_words(one.gates.as_slice(), other.gates.as_slice())
        && are_same_words(one.mutexes.as_slice(), other.mutexes.as_slice())
        && are_same_places(one.places.as_slice(), other.places.as_slice())
        && are_same_numbers(one.made.as_slice(), other.made.as_slice())
        && are_same_texts(one.answers.as_slice(), other.answers.as_slice())
        && are_same_waits(one.waits.as_slice(), other.waits.as_slice())
        && is_same_core(one.core, other.core)
        && do_trails_meet(
            alloc,
            crew,
            &NoPlans,
            one.trail.as_slice(),
            other.trail.as_slice(),
        )
}
