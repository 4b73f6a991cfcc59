//! Atomic steps on words that are plain numbers.
ghost use Rattle.std.specs.Prelude.{ℕ, ◌≡◌, ◌*◌, Bool, IfOk, is_some};
ghost use Rattle.evl_words.specs.GateWord.{count_in, entered_word, left_in, mark_bit, mark_in, stage_bit, stage_in, word_refusal};
ghost use Rattle.evl_words.specs.GateWorld as gate;
ghost use Rattle.evl_words.specs.MutexBits.{offers_to};
ghost use Rattle.lab_step_orders.specs.Visits.{owner_in};
ghost use Rattle.lab_step_orders.specs.Moments.{shared_of};
ghost use Rattle.lab_step_orders.specs.Words.{along, gate_after, gate_kind, gate_view, mutex_after, mutex_kinds};

use crate::shared::{SharedWord, holds, with_holder};
use crate::steps::{GateStep, MutexStep};
use evl_base::{Refusal, Stage, ThreadId};
use evl_words::Left;
use std::alloc::{AllocError, Global};

// The bits of a gate's word: how many hold it, at which stage, and the claim mark.
const COUNT_MASK: u64 = (1 << 16) - 1;

const STAGE_BIT: u64 = 1 << 30;

const CLAIM_MARK: u64 = 1 << 31;

// An offer in a mutex's word; the owner's number is in its bits 0 to 15.
const OFFER_BIT: u64 = 1 << 30;

/// How many hold a gate with this word.
pub fn count_in(word: u64) -> u16
    ensures { result ≡ count_in word }
{
    (word & COUNT_MASK) as u16
}

/// Their stage.
pub fn stage_in(word: u64) -> Stage
    ensures { result ≡ stage_in word }
{
    if word & STAGE_BIT == 0 {
        Stage::Inband
    } else {
        Stage::Oob
    }
}

/// Whether the claim mark is set.
pub fn mark_in(word: u64) -> bool
    ensures { result ≡ mark_in word }
{
    word & CLAIM_MARK != 0
}

/// Why a gate with this word refuses one holder more of the stage.
pub(crate) fn refusal_at(limit: u16, word: u64, stage: Stage) -> Option<Refusal>
    ensures { result ≡ word_refusal limit word stage }
{
    let holders = count_in(word);
    if holders > 0 && stage_in(word) != stage {
        Some(Refusal::Again)
    } else if holders >= limit {
        Some(Refusal::Limit)
    } else {
        None
    }
}

/// Whether the one that leaves a gate with this word is the last one.
pub(crate) fn left_at(word: u64) -> Left
    ensures { result ≡ left_in word }
{
    if count_in(word) == 1 {
        Left::Last {
            claimed: mark_in(word),
        }
    } else {
        Left::Others
    }
}

// The bit of a stage, and that of a mark.
fn stage_bits(stage: Stage) -> u64
    ensures { result ≡ stage_bit stage * 1073741824 }
{
    match stage {
        Stage::Inband => 0,
        Stage::Oob => STAGE_BIT,
    }
}

fn mark_bits(marked: bool) -> u64
    ensures { result ≡ mark_bit marked * 2147483648 }
{
    if marked { CLAIM_MARK } else { 0 }
}

// The word with one holder more, of this stage.
fn entered(word: u64, stage: Stage) -> u64
    ensures { result ≡ entered_word word stage }
{
    u64::from(count_in(word)) + 1 + stage_bits(stage) + mark_bits(mark_in(word))
}

// The word of a gate after a step.
fn gate_word(word: u64, stage: Stage, step: GateStep) -> u64
    ensures { (limit k : ℕ) (held : Bool) → result ≡ gate.step_word word k (gate_view limit stage held) (gate_kind stage step) }
{
    match step {
        GateStep::Look => word,
        GateStep::Exchange(old) => {
            if word == old {
                entered(old, stage)
            } else {
                word
            }
        }
        GateStep::Leave => word.wrapping_sub(1),
        GateStep::Claim => word | CLAIM_MARK,
        GateStep::Unclaim => word & !CLAIM_MARK,
    }
}

// Whether its caller holds the gate then.
fn gate_held(word: u64, held: bool, step: GateStep) -> bool
    ensures { (limit k : ℕ) (stage : Stage) → result ≡ is_some (gate.step_held word k (gate_view limit stage held) (gate_kind stage step)).stage }
{
    match step {
        GateStep::Exchange(old) => word == old || held,
        GateStep::Leave => false,
        GateStep::Look | GateStep::Claim | GateStep::Unclaim => held,
    }
}

/// A gate after a step of a caller on this stage.
pub(crate) fn gate_after(
    alloc: Global,
    stage: Stage,
    caller: u16,
    step: GateStep,
    gate: &SharedWord,
) -> Result<SharedWord, AllocError>
    ensures { IfOk result (λ next. (limit : ℕ) → shared_of next ≡ gate_after limit stage caller step (shared_of gate.now)) }
{
    let word = gate_word(gate.word, stage, step);
    let held = gate_held(gate.word, holds(gate, caller), step);
    with_holder(alloc, gate, word, caller, held)
}

// The word of a mutex after a step of a caller.
fn mutex_word(word: u64, caller: u16, step: MutexStep) -> u64
    ensures { (held : Bool) → result ≡ (along caller (mutex_kinds step) word held).0 }
{
    let own = u64::from(caller) + 1;
    match step {
        MutexStep::Try => { if word == 0 { own } else { word } }
        MutexStep::Unlock => { if word == own { 0 } else { word } }
        MutexStep::Win => own,
        MutexStep::Mark => word | CLAIM_MARK,
        MutexStep::Offer(next, more) => u64::from(next) + 1 + OFFER_BIT + mark_bits(more),
        MutexStep::Free => 0,
        MutexStep::Accept => word & !OFFER_BIT,
        MutexStep::Forget => word,
    }
}

// Whether a caller owns a mutex after its claim: not if that won it.
fn claimed_held(word: u64, caller: u16, held: bool) -> bool
    ensures { result ≡ (along caller (mutex_kinds MutexStep.Mark) word held).1 }
{
    let _ = caller;
    word != 0 && held
}

// Whether its caller owns the mutex then.
fn mutex_held(word: u64, caller: u16, held: bool, step: MutexStep) -> bool
    ensures { result ≡ (along caller (mutex_kinds step) word held).1 }
{
    match step {
        MutexStep::Try => word == 0 || held,
        MutexStep::Unlock => word != u64::from(caller) + 1 && held,
        MutexStep::Win | MutexStep::Accept => true,
        MutexStep::Mark => claimed_held(word, caller, held),
        MutexStep::Forget => held,
        MutexStep::Offer(_, _) | MutexStep::Free => false,
    }
}

/// A mutex after a step of a caller.
pub(crate) fn mutex_after(
    alloc: Global,
    caller: u16,
    step: MutexStep,
    mutex: &SharedWord,
) -> Result<SharedWord, AllocError>
    ensures { IfOk result (λ next. shared_of next ≡ mutex_after caller step (shared_of mutex.now)) }
{
    let word = mutex_word(mutex.word, caller, step);
    let held = mutex_held(mutex.word, caller, holds(mutex, caller), step);
    with_holder(alloc, mutex, word, caller, held)
}

/// The thread that a claim on a mutex with this word finds to have it; none where it is free.
pub(crate) fn owner_in(word: u64) -> Option<ThreadId>
    ensures { result ≡ owner_in word }
{
    let number = word % 65_536;
    if number == 0 {
        return None;
    }
    Some(ThreadId((number - 1) as u16))
}

/// Whether a mutex with this word is offered to a thread.
pub(crate) fn offers_to(word: u64, who: u16) -> bool
    ensures { result ≡ offers_to word who }
{
    word & OFFER_BIT != 0 && word % 65_536 == u64::from(who) + 1
}
