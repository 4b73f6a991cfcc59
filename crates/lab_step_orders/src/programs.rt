//! The next turn of a caller.
ghost use Rattle.std.specs.Prelude.{◌≡◌, map, slice_get};
ghost use Rattle.std.specs.Option.{option_map_or};
ghost use Rattle.lab_step_orders.specs.declared.calls.Answer.TheVariants.{Done};
ghost use Rattle.lab_step_orders.specs.declared.steps.GateStep.TheVariants.{Claim};
ghost use Rattle.lab_step_orders.specs.declared.steps.WordStep.TheVariants.{AtGate};
ghost use Rattle.lab_step_orders.specs.Moments.{shared_of};
ghost use Rattle.lab_step_orders.specs.Programs as turns;
ghost use Rattle.lab_step_orders.specs.Programs.{ahead_at, first_ahead, limit_of, next_call, stage_of};

use crate::calls::{Answer, WordCall};
use crate::crews::Crew;
use crate::shared::{SharedWord, holds};
use crate::steps::{
    Ahead, Asked, CoreChange, GateStep, MutexStep, Place, Then, Turn, WaitChange, Waiting, WordStep,
};
use crate::words::{left_at, refusal_at};
use evl_base::{MutexId, Refusal, Stage, StaxId};
use evl_words::Left;

// The limit of a stax.
fn limit_of(crew: &Crew, stax: StaxId) -> u16
    ensures { result ≡ limit_of crew.now stax.0 }
{
    crew.board
        .staxes
        .get(usize::from(stax.0))
        .copied()
        .unwrap_or(0)
}

/// The stage of a caller.
pub(crate) fn stage_of(crew: &Crew, caller: u16) -> Stage
    ensures { result ≡ stage_of crew.now caller }
{
    match crew.callers.get(usize::from(caller)) {
        Some(one) => one.stage,
        None => Stage::Inband,
    }
}

/// The next call of a caller that has made so many.
pub(crate) fn next_call(crew: &Crew, caller: u16, made: usize) -> Option<WordCall>
    ensures { result ≡ next_call crew.now caller made }
{
    let one = crew.callers.get(usize::from(caller))?;
    one.calls.get(made).copied()
}

/// A turn with no step, which refuses the call.
pub(crate) fn refuses(refusal: Refusal) -> Turn
    ensures { result ≡ turns.refuses refusal }
{
    Turn {
        step: None,
        visit: None,
        core: CoreChange::Same,
        wait: WaitChange::Same,
        then: Then::Answers(Answer::Refused(refusal)),
    }
}

// A step after which the call goes on.
fn goes(step: WordStep, place: Place) -> Turn
    ensures { result ≡ turns.goes step place }
{
    Turn {
        step: Some(step),
        visit: None,
        core: CoreChange::Same,
        wait: WaitChange::Same,
        then: Then::Stands(place),
    }
}

// A step with which the call is answered.
fn ends(step: WordStep, answer: Answer) -> Turn
    ensures { result ≡ turns.ends step answer }
{
    Turn {
        step: Some(step),
        visit: None,
        core: CoreChange::Same,
        wait: WaitChange::Same,
        then: Then::Answers(answer),
    }
}

// The look at a stax, which has this word.
fn look_turn(limit: u16, stage: Stage, stax: StaxId, word: u64) -> Turn
    ensures { result ≡ turns.look_turn limit stage stax word }
{
    let step = WordStep::AtGate(stax, GateStep::Look);
    match refusal_at(limit, word, stage) {
        Some(refusal) => ends(step, Answer::Refused(refusal)),
        None => goes(step, Place::Found(stax, word)),
    }
}

// The first turn of one that tries a stax.
fn try_stax(limit: u16, stage: Stage, stax: StaxId, caller: u16, gate: &SharedWord) -> Turn
    ensures { result ≡ turns.try_stax limit stage stax caller (shared_of gate.now) }
{
    if holds(gate, caller) {
        refuses(Refusal::Busy)
    } else {
        look_turn(limit, stage, stax, gate.word)
    }
}

// The answer to the exchange of a word where this one is.
fn exchanged(limit: u16, stage: Stage, old: u64, word: u64) -> Answer
    ensures { result ≡ turns.exchanged limit stage old word }
{
    if word == old {
        return Answer::Passed;
    }
    match refusal_at(limit, word, stage) {
        Some(refusal) => Answer::Refused(refusal),
        None => Answer::Refused(Refusal::Raced {
            first: old,
            second: word,
        }),
    }
}

// The exchange of the word that a look found.
fn exchange_turn(limit: u16, stage: Stage, stax: StaxId, old: u64, gate: &SharedWord) -> Turn
    ensures { result ≡ turns.exchange_turn limit stage stax old (shared_of gate.now) }
{
    ends(
        WordStep::AtGate(stax, GateStep::Exchange(old)),
        exchanged(limit, stage, old, gate.word),
    )
}

// The step of a holder that leaves.
fn leave_turn(stax: StaxId, left: Left) -> Turn
    ensures { result ≡ turns.leave_turn stax left }
{
    let step = WordStep::AtGate(stax, GateStep::Leave);
    match left {
        Left::Last { claimed: true } => goes(step, Place::Left(stax)),
        Left::Last { claimed: false } | Left::Others => ends(step, Answer::Done),
    }
}

// The first turn of one that leaves a stax.
fn unlock_stax(stax: StaxId, caller: u16, gate: &SharedWord) -> Turn
    ensures { result ≡ turns.unlock_stax stax caller (shared_of gate.now) }
{
    if holds(gate, caller) {
        leave_turn(stax, left_at(gate.word))
    } else {
        refuses(Refusal::NotOwner)
    }
}

// Why a caller may not lock a mutex: it waits, or it is in-band, or it has the mutex.
fn lock_refusal(
    stage: Stage,
    wait: Option<Waiting>,
    caller: u16,
    shared: &SharedWord,
) -> Option<Refusal>
    ensures { result ≡ turns.lock_refusal stage wait caller (shared_of shared.now) }
{
    if wait.is_some() {
        return Some(Refusal::Busy);
    }
    match stage {
        Stage::Inband => Some(Refusal::WrongStage),
        Stage::Oob => {
            if holds(shared, caller) {
                Some(Refusal::Deadlock)
            } else {
                None
            }
        }
    }
}

// The turn of one that tries a mutex.
fn try_mutex(
    stage: Stage,
    mutex: MutexId,
    caller: u16,
    wait: Option<Waiting>,
    shared: &SharedWord,
) -> Turn
    ensures { result ≡ turns.try_mutex stage mutex caller wait (shared_of shared.now) }
{
    if let Some(refusal) = lock_refusal(stage, wait, caller, shared) {
        return refuses(refusal);
    }
    let answer = if shared.word == 0 {
        Answer::Passed
    } else {
        Answer::Refused(Refusal::Busy)
    };
    ends(WordStep::AtMutex(mutex, MutexStep::Try), answer)
}

// The turn or the visit ahead of one that begins to lock a mutex.
fn begin_mutex(
    stage: Stage,
    mutex: MutexId,
    until: Option<u64>,
    caller: u16,
    wait: Option<Waiting>,
    shared: &SharedWord,
) -> Ahead
    ensures { result ≡ turns.begin_mutex stage mutex until caller wait (shared_of shared.now) }
{
    match lock_refusal(stage, wait, caller, shared) {
        Some(refusal) => Ahead::Turns(refuses(refusal)),
        None => Ahead::Visits(Asked::Begin(mutex, until, shared.word)),
    }
}

// Why a caller may not give a mutex back: it waits, or doesn't have it.
fn spend_refusal(wait: Option<Waiting>, caller: u16, shared: &SharedWord) -> Option<Refusal>
    ensures { result ≡ turns.spend_refusal wait caller (shared_of shared.now) }
{
    if wait.is_some() {
        Some(Refusal::Busy)
    } else if holds(shared, caller) {
        None
    } else {
        Some(Refusal::NotOwner)
    }
}

// The turn of one that gives a mutex back, where others claim it with this.
fn unlock_turn(mutex: MutexId, caller: u16, shared: &SharedWord, claimed: Turn) -> Turn
    ensures { result ≡ turns.unlock_turn mutex caller (shared_of shared.now) claimed }
{
    if shared.word == u64::from(caller) + 1 {
        ends(WordStep::AtMutex(mutex, MutexStep::Unlock), Answer::Done)
    } else {
        claimed
    }
}

// The exchange of a fast unlock.
fn unlock_fast(mutex: MutexId, caller: u16, wait: Option<Waiting>, shared: &SharedWord) -> Turn
    ensures { result ≡ turns.unlock_fast mutex caller wait (shared_of shared.now) }
{
    match spend_refusal(wait, caller, shared) {
        Some(refusal) => refuses(refusal),
        None => {
            let step = WordStep::AtMutex(mutex, MutexStep::Unlock);
            unlock_turn(
                mutex,
                caller,
                shared,
                ends(step, Answer::Refused(Refusal::Busy)),
            )
        }
    }
}

// The exchange of one that has the kernel hand the mutex on where others claim it.
fn unlock_mutex(mutex: MutexId, caller: u16, wait: Option<Waiting>, shared: &SharedWord) -> Turn
    ensures { result ≡ turns.unlock_mutex mutex caller wait (shared_of shared.now) }
{
    match spend_refusal(wait, caller, shared) {
        Some(refusal) => refuses(refusal),
        None => {
            let step = WordStep::AtMutex(mutex, MutexStep::Unlock);
            unlock_turn(mutex, caller, shared, goes(step, Place::Claimed(mutex)))
        }
    }
}

// The turn or the visit ahead of one that ends its wait for a mutex.
fn finish_mutex(mutexes: &[SharedWord], wait: Option<Waiting>) -> Ahead
    ensures { result ≡ turns.finish_mutex (map shared_of mutexes.now) wait }
{
    match wait {
        Some(Waiting::Mutex(mutex)) => match mutexes.get(usize::from(mutex.0)) {
            Some(shared) => Ahead::Visits(Asked::End(mutex, shared.word)),
            None => Ahead::Turns(refuses(Refusal::Invalid)),
        },
        Some(Waiting::Element) | None => Ahead::Turns(refuses(Refusal::Invalid)),
    }
}

// Whether a caller holds one of these.
fn holds_some(all: &[SharedWord], caller: u16) -> bool
    ensures { result ≡ turns.holds_some (map shared_of all.now) caller }
{
    for shared in all {
        if holds(shared, caller) {
            return true;
        }
    }
    false
}

// The turn or the visit ahead of one that ends another wait, and says whether it holds something.
fn finish_wait(wait: Option<Waiting>, keep: bool, held: bool) -> Ahead
    ensures { result ≡ turns.finish_wait wait keep held }
{
    match wait {
        Some(Waiting::Mutex(_)) => Ahead::Turns(refuses(Refusal::Invalid)),
        Some(Waiting::Element) | None => {
            if keep == held {
                Ahead::Visits(Asked::Finish)
            } else {
                Ahead::Turns(refuses(Refusal::Invalid))
            }
        }
    }
}

// The first turn of one that tries a stax, if it is there.
fn try_stax_at(crew: &Crew, gates: &[SharedWord], caller: u16, stax: StaxId) -> Turn
    ensures { result ≡ option_map_or (turns.try_stax (turns.limit_of crew.now stax.0) (turns.stage_of crew.now caller) stax caller) (slice_get (map shared_of gates.now) stax.0) (turns.refuses Refusal.Unknown) }
{
    match gates.get(usize::from(stax.0)) {
        Some(gate) => try_stax(
            limit_of(crew, stax),
            stage_of(crew, caller),
            stax,
            caller,
            gate,
        ),
        None => refuses(Refusal::Unknown),
    }
}

// The first turn of one that leaves a stax, if it is there.
fn unlock_stax_at(gates: &[SharedWord], caller: u16, stax: StaxId) -> Turn
    ensures { result ≡ option_map_or (turns.unlock_stax stax caller) (slice_get (map shared_of gates.now) stax.0) (turns.refuses Refusal.NotOwner) }
{
    match gates.get(usize::from(stax.0)) {
        Some(gate) => unlock_stax(stax, caller, gate),
        None => refuses(Refusal::NotOwner),
    }
}

// The step of one that sets a stax's claim mark, if it is there.
fn claim_stax_at(gates: &[SharedWord], stax: StaxId) -> Turn
    ensures { result ≡ option_map_or (λ g. turns.ends (AtGate stax Claim) Done) (slice_get (map shared_of gates.now) stax.0) (turns.refuses Refusal.Unknown) }
{
    match gates.get(usize::from(stax.0)) {
        Some(_) => ends(WordStep::AtGate(stax, GateStep::Claim), Answer::Done),
        None => refuses(Refusal::Unknown),
    }
}

// The refusal for a mutex that isn't there.
fn refused_missing(wait: Option<Waiting>, other: Refusal) -> Turn
    ensures { result ≡ turns.refused_missing wait other }
{
    refuses(if wait.is_some() { Refusal::Busy } else { other })
}

// The turn of one that tries a mutex, if it is there.
fn try_mutex_at(
    crew: &Crew,
    mutexes: &[SharedWord],
    caller: u16,
    wait: Option<Waiting>,
    mutex: MutexId,
) -> Turn
    ensures { result ≡ option_map_or (turns.try_mutex (turns.stage_of crew.now caller) mutex caller wait) (slice_get (map shared_of mutexes.now) mutex.0) (turns.refused_missing wait Refusal.Unknown) }
{
    match mutexes.get(usize::from(mutex.0)) {
        Some(shared) => try_mutex(stage_of(crew, caller), mutex, caller, wait, shared),
        None => refused_missing(wait, Refusal::Unknown),
    }
}

// The exchange of a fast unlock, if the mutex is there.
fn unlock_fast_at(
    mutexes: &[SharedWord],
    caller: u16,
    wait: Option<Waiting>,
    mutex: MutexId,
) -> Turn
    ensures { result ≡ option_map_or (turns.unlock_fast mutex caller wait) (slice_get (map shared_of mutexes.now) mutex.0) (turns.refused_missing wait Refusal.NotOwner) }
{
    match mutexes.get(usize::from(mutex.0)) {
        Some(shared) => unlock_fast(mutex, caller, wait, shared),
        None => refused_missing(wait, Refusal::NotOwner),
    }
}

// The exchange of an unlock, if the mutex is there.
fn unlock_mutex_at(
    mutexes: &[SharedWord],
    caller: u16,
    wait: Option<Waiting>,
    mutex: MutexId,
) -> Turn
    ensures { result ≡ option_map_or (turns.unlock_mutex mutex caller wait) (slice_get (map shared_of mutexes.now) mutex.0) (turns.refused_missing wait Refusal.NotOwner) }
{
    match mutexes.get(usize::from(mutex.0)) {
        Some(shared) => unlock_mutex(mutex, caller, wait, shared),
        None => refused_missing(wait, Refusal::NotOwner),
    }
}

// The turn or the visit ahead of one that begins to lock a mutex, if it is there.
fn begin_mutex_at(
    crew: &Crew,
    mutexes: &[SharedWord],
    caller: u16,
    wait: Option<Waiting>,
    mutex: MutexId,
    until: Option<u64>,
) -> Ahead
    ensures { result ≡ option_map_or (turns.begin_mutex (turns.stage_of crew.now caller) mutex until caller wait) (slice_get (map shared_of mutexes.now) mutex.0) (Ahead.Turns (turns.refused_missing wait Refusal.Unknown)) }
{
    match mutexes.get(usize::from(mutex.0)) {
        Some(shared) => begin_mutex(stage_of(crew, caller), mutex, until, caller, wait, shared),
        None => Ahead::Turns(refused_missing(wait, Refusal::Unknown)),
    }
}

// The turn or the visit ahead of one that begins a call.
fn first_ahead(
    crew: &Crew,
    gates: &[SharedWord],
    mutexes: &[SharedWord],
    caller: u16,
    wait: Option<Waiting>,
    call: WordCall,
) -> Ahead
    ensures { result ≡ first_ahead crew.now (map shared_of gates.now) (map shared_of mutexes.now) caller wait call }
{
    match call {
        WordCall::TryLockStax(stax) => Ahead::Turns(try_stax_at(crew, gates, caller, stax)),
        WordCall::UnlockStax(stax) => Ahead::Turns(unlock_stax_at(gates, caller, stax)),
        WordCall::ClaimStax(stax) => Ahead::Turns(claim_stax_at(gates, stax)),
        WordCall::TryLockMutex(mutex) => {
            Ahead::Turns(try_mutex_at(crew, mutexes, caller, wait, mutex))
        }
        WordCall::UnlockMutexFast(mutex) => {
            Ahead::Turns(unlock_fast_at(mutexes, caller, wait, mutex))
        }
        WordCall::TryUnlockMutex(mutex) => {
            Ahead::Turns(unlock_mutex_at(mutexes, caller, wait, mutex))
        }
        WordCall::BeginLockMutex(mutex, until) => {
            begin_mutex_at(crew, mutexes, caller, wait, mutex, until)
        }
        WordCall::FinishLockMutex => finish_mutex(mutexes, wait),
        WordCall::Kernel(place) => Ahead::Visits(Asked::Step(place)),
        WordCall::Finish(keep) => {
            let held = holds_some(gates, caller) || holds_some(mutexes, caller);
            finish_wait(wait, keep, held)
        }
    }
}

/// All that is ahead of a caller that is here in this call, if anything is.
pub(crate) fn ahead_at(
    crew: &Crew,
    gates: &[SharedWord],
    mutexes: &[SharedWord],
    caller: u16,
    wait: Option<Waiting>,
    place: Place,
    call: Option<WordCall>,
) -> Option<Ahead>
    ensures { result ≡ ahead_at crew.now (map shared_of gates.now) (map shared_of mutexes.now) caller wait place call }
{
    match place {
        Place::Begins => Some(first_ahead(crew, gates, mutexes, caller, wait, call?)),
        Place::Found(stax, old) => {
            let gate = gates.get(usize::from(stax.0))?;
            Some(Ahead::Turns(exchange_turn(
                limit_of(crew, stax),
                stage_of(crew, caller),
                stax,
                old,
                gate,
            )))
        }
        Place::Left(stax) => Some(Ahead::Turns(ends(
            WordStep::AtGate(stax, GateStep::Unclaim),
            Answer::Wanted,
        ))),
        Place::Claimed(mutex) => Some(Ahead::Visits(Asked::Hand(mutex))),
    }
}
