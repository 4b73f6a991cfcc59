//! The answers that calls on words can have, as they are written.
ghost use Rattle.std.specs.Prelude.{◌≡◌, IfOk, is_some, map, not, option_map, string_bytes};
ghost use Rattle.std.specs.List.{list_any};
ghost use Rattle.std.specs.Str.{bytes_eq};
ghost use Rattle.lab_scenario_orders.specs.Asks as asks;
ghost use Rattle.lab_scenario_orders.specs.Asks.{caller_text, text_behind};
ghost use Rattle.lab_step_texts.specs.Answers as answers;
ghost use Rattle.lab_step_texts.specs.Answers.{can_be, can_come, can_have, first_impossible, is_impossible};

use lab_scenario_orders::{Ask, Never};
use lab_step_orders::{Crew, CrewCaller, WordCall};
use std::alloc::{AllocError, Global};

// The answers that a call can have.
fn answers_of(call: WordCall) -> &'static [&'static str]
    ensures { map (λ word. word.now) result.now ≡ answers.answers_of call }
{
    match call {
        WordCall::TryLockStax(_) => &["pass", "Again", "Limit", "Raced", "Unknown", "Busy"],
        WordCall::UnlockStax(_) => &["done", "done, others want in", "NotOwner"],
        WordCall::ClaimStax(_) => &["done", "Unknown"],
        WordCall::TryLockMutex(_) => &["pass", "Busy", "Unknown", "WrongStage", "Deadlock"],
        WordCall::UnlockMutexFast(_) => &["done", "Busy", "NotOwner"],
        WordCall::TryUnlockMutex(_) => &["done", "Busy", "NotOwner", "CoreBusy"],
        WordCall::BeginLockMutex(_, _) => {
            &[
                "pass",
                "begun",
                "Busy",
                "Unknown",
                "WrongStage",
                "Deadlock",
                "CoreBusy",
            ]
        }
        WordCall::FinishLockMutex => &["pass", "timed out", "Invalid", "CoreBusy"],
        WordCall::Kernel(_) | WordCall::Finish(_) => {
            &[
                "done",
                "begun",
                "timed out",
                "Unknown",
                "Invalid",
                "Again",
                "Busy",
                "NotOwner",
                "Deadlock",
                "Limit",
                "Range",
                "TooBig",
                "WrongStage",
                "CoreBusy",
            ]
        }
    }
}

// The front parts after which a number follows.
fn fronts_of(call: WordCall) -> &'static [&'static str]
    ensures { map (λ word. word.now) result.now ≡ answers.fronts_of call }
{
    match call {
        WordCall::Kernel(_) => &["count ", "bits ", "number ", "thread "],
        WordCall::Finish(_) => &["bits "],
        _ => &[],
    }
}

// The further answers where callers make a wrong step, so that a word names another owner than the kernel's record.
fn wrong_answers(call: WordCall) -> &'static [&'static str]
    ensures { map (λ word. word.now) result.now ≡ answers.wrong_answers call }
{
    match call {
        WordCall::BeginLockMutex(_, _) => &["Invalid"],
        _ => &[],
    }
}

// The part after the first text in the second, if that begins with it.
fn behind<'a>(front: &[u8], text: &'a [u8]) -> Option<&'a [u8]>
    ensures { option_map (λ rest. rest.now) result ≡ text_behind front.now text.now }
{
    text.strip_prefix(front)
}

/// Whether the second text begins with the first.
pub(crate) fn begins(front: &[u8], text: &[u8]) -> bool
    ensures { result ≡ asks.begins front.now text.now }
{
    behind(front, text).is_some()
}

// Whether a text begins with one of these.
fn begins_with(fronts: &[&str], text: &str) -> bool
    ensures { result ≡ list_any (λ front. asks.begins front text.now) (map (λ word. word.now) fronts.now) }
{
    for front in fronts {
        if begins(front.as_bytes(), text.as_bytes()) {
            return true;
        }
    }
    false
}

/// Whether a text is among these.
pub(crate) fn is_among(words: &[&str], text: &str) -> bool
    ensures { result ≡ list_any (bytes_eq text.now) (map (λ word. word.now) words.now) }
{
    for word in words {
        if text == *word {
            return true;
        }
    }
    false
}

// Whether a call can be answered so.
fn can_be(answer: &str, call: WordCall) -> bool
    ensures { result ≡ can_be answer.now call }
{
    is_among(answers_of(call), answer) || begins_with(fronts_of(call), answer)
}

// The same where callers make a wrong step, or not.
fn can_come(wrong: bool, answer: &str, call: WordCall) -> bool
    ensures { result ≡ can_come wrong answer.now call }
{
    can_be(answer, call) || (wrong && is_among(wrong_answers(call), answer))
}

// Whether one of these calls can.
fn can_any(wrong: bool, answer: &str, calls: &[WordCall]) -> bool
    ensures { result ≡ list_any (can_come wrong answer.now) calls.now }
{
    calls.iter().any(|call| can_come(wrong, answer, *call))
}

// Whether a thread is named so.
fn is_named(alloc: Global, who: &str, number: usize) -> Result<bool, AllocError>
    ensures { IfOk result (λ named. named ≡ bytes_eq (caller_text number) who.now) }
{
    let name = format!(in alloc; "T{number}")?;
    Ok(name.as_str() == who)
}

// Whether one of these callers is named so, and a call of its can be answered so.
fn can_have(
    alloc: Global,
    wrong: bool,
    who: &str,
    answer: &str,
    callers: &[CrewCaller],
) -> Result<bool, AllocError>
    ensures { IfOk result (λ can. can ≡ can_have wrong who.now answer.now 0 callers.now) }
{
    for (number, caller) in callers.iter().enumerate() {
        if is_named(alloc, who, number)? && can_any(wrong, answer, caller.calls.as_slice()) {
            return Ok(true);
        }
    }
    Ok(false)
}

// Whether no call of its caller can have an answer.
fn is_impossible(
    alloc: Global,
    wrong: bool,
    callers: &[CrewCaller],
    never: &Never,
) -> Result<bool, AllocError>
    ensures { IfOk result (λ cannot. cannot ≡ is_impossible wrong callers.now never.now) }
{
    match can_have(
        alloc,
        wrong,
        never.who.as_str(),
        never.answer.as_str(),
        callers,
    ) {
        Ok(can) => Ok(!can),
        Err(error) => Err(error),
    }
}

// The first of these that none can have.
fn impossible_among<'a>(
    alloc: Global,
    wrong: bool,
    callers: &[CrewCaller],
    all: &'a [Never],
) -> Result<Option<&'a Never>, AllocError>
    ensures { IfOk result (λ found. option_map (λ one. one.now) found ≡ first_impossible wrong callers.now all.now) }
{
    for one in all {
        if is_impossible(alloc, wrong, callers, one)? {
            return Ok(Some(one));
        }
    }
    Ok(None)
}

/// The first answer of `never` that no call of its caller can have. `AllocError` where memory couldn't grow.
pub fn first_impossible<'a>(
    alloc: Global,
    crew: &Crew,
    ask: &'a Ask,
) -> Result<Option<&'a Never>, AllocError>
    ensures { IfOk result (λ found. option_map (λ one. one.now) found ≡ first_impossible (is_some crew.now.what_if) crew.now.callers.items ask.now.never.items) }
{
    let wrong = crew.what_if.is_some();
    impossible_among(alloc, wrong, crew.callers.as_slice(), ask.never.as_slice())
}
