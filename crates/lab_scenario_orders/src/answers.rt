//! The answers that calls can have, as they are written.
ghost use Rattle.std.specs.Prelude.{◌≡◌, IfOk, find, map, option_map};
ghost use Rattle.std.specs.List.{list_all, list_any};
ghost use Rattle.std.specs.Str.{bytes_eq};
ghost use Rattle.evl_base.specs.Refusal.{name_of};
ghost use Rattle.evl_scenario.specs.Values.{around_space};
ghost use Rattle.lab_scenario_orders.specs.Answers.{can_be, can_have, first_impossible, is_bytes, is_end_of_wait, is_handed, is_hex, is_meant, is_more, is_number, is_numbered, is_possible, is_refusal, is_told_of, kind_of, near_answer, plain_answers};

use crate::asks::{Ask, Never, is_named};
use crate::callers::Callers;
use crate::searches::past;
use evl_base::{Call, Refusal, ReplyKind, each_call};
use evl_scenario::{Step, number_of_text};
use std::alloc::{AllocError, Global};
use strsim::levenshtein;

/// The kind of a call's answers.
macro_rules! kind {
    (($call:expr) [$($family:ident { $($variant:ident $name:literal $keys:tt -> $answer:ident)* })*]) => {
        match $call {
            $($(Call::$variant { .. } => ReplyKind::$answer,)*)*
        }
    };
}

// The kind of what a call answers that isn't refused.
fn kind_of(call: &Call) -> ReplyKind
    ensures { result ≡ kind_of call.now }
{
    each_call!(kind(call))
}

// Whether a text is a number.
fn is_number(text: &str) -> bool
    ensures { result ≡ is_number text.now }
{
    number_of_text(text).is_some()
}

// Whether a text is this front part and a number.
fn is_numbered(front: &str, text: &str) -> bool
    ensures { result ≡ is_numbered front.now text.now }
{
    match past(front, text) {
        Some(rest) => is_number(rest),
        None => false,
    }
}

// Whether all bytes of a text are hexadecimal digits in lower case.
fn are_digits(text: &[u8]) -> bool
    ensures { result ≡ list_all is_hex text.now }
{
    text.iter().all(|byte| byte.is_ascii_digit() || (*byte >= b'a' && *byte <= b'f'))
}

// Whether a text is of bytes.
fn is_bytes(text: &str) -> bool
    ensures { result ≡ is_bytes text.now }
{
    match past("bytes ", text) {
        Some(digits) => digits == "-" || are_digits(digits.as_bytes()),
        None => false,
    }
}

// The text before the first blank, and the text after it.
fn around_blank(text: &str) -> Option<(&str, &str)>
    ensures { option_map (λ parts. (parts.0.now, parts.1.now)) result ≡ around_space text.now }
{
    match text.split_once(' ') {
        Some(parts) => Some(parts),
        None => None,
    }
}

// Whether a text is a number and `more`.
fn is_more(text: &str) -> bool
    ensures { result ≡ is_more text.now }
{
    match around_blank(text) {
        Some((number, word)) => is_number(number) && word == "more",
        None => false,
    }
}

// Whether a text says to whom a mutex was handed.
fn is_handed(text: &str) -> bool
    ensures { result ≡ is_handed text.now }
{
    match past("next ", text) {
        Some(next) => next == "none" || is_number(next) || is_more(next),
        None => false,
    }
}

// Whether a text says how a wait ended.
fn is_end_of_wait(text: &str) -> bool
    ensures { result ≡ is_end_of_wait text.now }
{
    text == "done" || text == "timed out" || is_numbered("bits ", text) || is_bytes(text)
}

// Whether an answer of this kind can be written so.
fn is_told_of(kind: ReplyKind, text: &str) -> bool
    ensures { result ≡ is_told_of kind text.now }
{
    match kind {
        ReplyKind::Done => text == "done",
        ReplyKind::Begun => text == "begun",
        ReplyKind::Count => is_numbered("count ", text) || is_numbered("count -", text),
        ReplyKind::Bits => is_numbered("bits ", text),
        ReplyKind::Number => is_numbered("number ", text),
        ReplyKind::Bytes => is_bytes(text),
        ReplyKind::Chosen => text == "thread none" || is_numbered("thread ", text),
        ReplyKind::Handed => is_handed(text),
        ReplyKind::Outcome => is_end_of_wait(text),
    }
}

// Whether one of these refusals has this name.
fn has_name(all: &[Refusal], text: &str) -> bool
    ensures { result ≡ list_any (λ refusal. bytes_eq (name_of refusal) text.now) all.now }
{
    all.iter().any(|refusal| refusal.name() == text)
}

// Whether a text is the name of a refusal with which the kernel answers.
fn is_refusal(text: &str) -> bool
    ensures { result ≡ is_refusal text.now }
{
    has_name(
        &[
            Refusal::Unknown,
            Refusal::Invalid,
            Refusal::Again,
            Refusal::Busy,
            Refusal::NotOwner,
            Refusal::Deadlock,
            Refusal::Limit,
            Refusal::Range,
            Refusal::TooBig,
            Refusal::WrongStage,
        ],
        text,
    )
}

// Whether a call can be answered so.
fn can_be(call: &Call, text: &str) -> bool
    ensures { result ≡ can_be call.now text.now }
{
    is_refusal(text) || is_told_of(kind_of(call), text)
}

// Whether a step is of this caller and can be answered so.
fn can_have(alloc: Global, who: &str, answer: &str, step: &Step) -> Result<bool, AllocError>
    ensures { IfOk result (λ can. can ≡ can_have who.now answer.now step.now) }
{
    if can_be(&step.call, answer) {
        is_named(alloc, who, step.who.0)
    } else {
        Ok(false)
    }
}

// Whether a step of this caller can be answered so.
fn is_possible(alloc: Global, steps: &[Step], who: &str, answer: &str) -> Result<bool, AllocError>
    ensures { IfOk result (λ can. can ≡ is_possible steps.now who.now answer.now) }
{
    for step in steps {
        if can_have(alloc, who, answer, step)? {
            return Ok(true);
        }
    }
    Ok(false)
}

// The first of these answers that no step of its caller can have.
fn impossible_among<'a>(
    alloc: Global,
    steps: &[Step],
    never: &'a [Never],
) -> Result<Option<&'a Never>, AllocError>
    ensures { IfOk result (λ found. option_map (λ one. one.now) found ≡ first_impossible steps.now never.now) }
{
    for one in never {
        if !is_possible(alloc, steps, one.who.as_str(), one.answer.as_str())? {
            return Ok(Some(one));
        }
    }
    Ok(None)
}

/// The first answer of `never` that no step of its caller can have: no call of its has answers of that kind, and it is
/// no refusal. `AllocError` where memory couldn't grow.
pub fn first_impossible<'a>(
    alloc: Global,
    callers: &Callers,
    ask: &'a Ask,
) -> Result<Option<&'a Never>, AllocError>
    ensures { IfOk result (λ found. option_map (λ one. one.now) found ≡ first_impossible callers.now.steps.items ask.now.never.items) }
{
    impossible_among(alloc, callers.steps.as_slice(), ask.never.as_slice())
}

// Whether a word may be meant: it is at most two edits away, and a step of the caller can be answered so.
fn is_meant(alloc: Global, steps: &[Step], never: &Never, word: &str) -> Result<bool, AllocError>
    ensures { IfOk result (λ meant. meant ≡ is_meant steps.now never.now word.now) }
{
    if levenshtein(alloc, never.answer.as_str(), word)? > 2 {
        return Ok(false);
    }
    is_possible(alloc, steps, never.who.as_str(), word)
}

// The first of these words that may be meant.
fn meant_among(
    alloc: Global,
    steps: &[Step],
    never: &Never,
    words: &[&'static str],
) -> Result<Option<&'static str>, AllocError>
    ensures { IfOk result (λ found. option_map (λ word. word.now) found ≡ find (is_meant steps.now never.now) (map (λ word. word.now) words.now)) }
{
    for word in words {
        if is_meant(alloc, steps, never, *word)? {
            return Ok(Some(*word));
        }
    }
    Ok(None)
}

// The answers that have no number, and the refusals.
fn plain_answers() -> &'static [&'static str]
    ensures { map (λ word. word.now) result.now ≡ plain_answers }
{
    &[
        "done",
        "begun",
        "timed out",
        "thread none",
        "next none",
        "bytes -",
        "Unknown",
        "Invalid",
        "Again",
        "Busy",
        "NotOwner",
        "Deadlock",
        "Limit",
        "Range",
        "TooBig",
        "WrongStage",
    ]
}

// The first of these that may be meant.
fn meant_by(
    alloc: Global,
    steps: &[Step],
    never: &Never,
) -> Result<Option<&'static str>, AllocError>
    ensures { IfOk result (λ found. option_map (λ word. word.now) found ≡ near_answer steps.now never.now) }
{
    meant_among(alloc, steps, never, plain_answers())
}

/// The answer that may be meant by one that no step of its caller can have: one that it can have, without a number, and
/// at most two edits away. `AllocError` where memory couldn't grow.
pub fn near_answer(
    alloc: Global,
    callers: &Callers,
    never: &Never,
) -> Result<Option<&'static str>, AllocError>
    ensures { IfOk result (λ found. option_map (λ word. word.now) found ≡ near_answer callers.now.steps.items never.now) }
{
    meant_by(alloc, callers.steps.as_slice(), never)
}
