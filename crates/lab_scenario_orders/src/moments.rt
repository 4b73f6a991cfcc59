//! The records that are kept of callers at one moment.
ghost use Rattle.std.specs.Prelude.{◌≡◌, ◌+◌, [], ◌<◌, true, IfOk, OnOk, length, map, slice_index_or, slice_set, string_bytes};
ghost use Rattle.lab_scenario_orders.specs.Callers.{answer_line};
ghost use Rattle.lab_scenario_orders.specs.Moments.{trail_after};

use crate::callers::{Caller, Callers};
use evl_scenario::StepAnswer;
use std::alloc::{AllocError, Global};

/// All that is kept of callers at one moment: how many steps each has made, and what it was answered. The kernel
/// itself is led there anew where it is needed.
#[derive(Drop)]
pub struct Moment {
    /// How many steps of each caller were made.
    pub(crate) made: Vec<usize>,
    /// Each caller's answers, as text.
    pub(crate) answers: Vec<String>,
    /// The places of the steps that weren't refused, in the order in which they were made: a refusal leaves the kernel
    /// as it was.
    pub(crate) trail: Vec<usize>,
    /// A digest of how the kernel is.
    pub(crate) standing: u64,
    /// For each question about moments, whether the kernel is as it looks for.
    pub(crate) noted: Vec<bool>,
    /// For each caller, whether it is held there: its thread can make no step.
    pub(crate) held: Vec<bool>,
}

/// As many zeros as callers.
pub(crate) fn none_made(alloc: Global, callers: &[Caller]) -> Result<Vec<usize>, AllocError>
    ensures { IfOk result (λ made. made.items ≡ map (λ caller. 0) callers.now) }
{
    let mut made = Vec::new(alloc);
    for _caller in callers {
        made.push(0)?;
    }
    Ok(made)
}

// As many empty texts as callers.
fn no_answers(alloc: Global, callers: &[Caller]) -> Result<Vec<String>, AllocError>
    ensures { IfOk result (λ answers. map string_bytes answers.items ≡ map (λ caller. []) callers.now) }
{
    let mut answers = Vec::new(alloc);
    for _caller in callers {
        answers.push(String::new(alloc))?;
    }
    Ok(answers)
}

/// The moment before the first caller's step, with what is noted and who is held there.
pub(crate) fn first_moment(
    alloc: Global,
    callers: &Callers,
    noted: Vec<bool>,
    held: Vec<bool>,
) -> Result<Moment, AllocError>
    ensures made { IfOk result (λ moment. moment.made.items ≡ map (λ caller. 0) callers.now.callers.items) }
    ensures answers { IfOk result (λ moment. map string_bytes moment.answers.items ≡ map (λ caller. []) callers.now.callers.items) }
    ensures trail { IfOk result (λ moment. moment.trail.items ≡ []) }
    ensures noted { IfOk result (λ moment. moment.noted ≡ noted) }
    ensures held { IfOk result (λ moment. moment.held ≡ held) }
{
    let made = none_made(alloc, callers.callers.as_slice())?;
    let answers = no_answers(alloc, callers.callers.as_slice())?;
    Ok(Moment {
        made,
        answers,
        trail: Vec::new(alloc),
        standing: 0,
        noted,
        held,
    })
}

// The same numbers, and one step more of a caller that has made so many.
fn made_with(
    alloc: Global,
    made: &[usize],
    caller: usize,
    count: usize,
) -> Result<Vec<usize>, AllocError>
    requires { caller < length made.now }
    ensures { IfOk result (λ all. all.items ≡ slice_set made.now caller (count + 1)) }
{
    let Some(more) = count.checked_add(1) else {
        return Err(AllocError);
    };
    let mut all = Vec::with_capacity(alloc, made.len())?;
    all.extend_from_slice(made)?;
    all[caller] = more;
    Ok(all)
}

// Writes an answer after what was answered so far.
fn tell(told: &mut String, answer: &StepAnswer) -> Result<(), AllocError>
    ensures { OnOk result (string_bytes told.new ≡ answer_line (string_bytes told.old) answer.now.0) }
{
    told.push_str(" -> ")?;
    told.write(answer)?;
    Ok(())
}

// The same text, and an answer after it.
fn told_with(alloc: Global, text: &str, answer: &StepAnswer) -> Result<String, AllocError>
    ensures { IfOk result (λ told. string_bytes told ≡ answer_line text.now answer.now.0) }
{
    let mut told = String::from_str(alloc, text)?;
    tell(&mut told, answer)?;
    Ok(told)
}

// The same texts once more.
fn copied_texts(alloc: Global, texts: &[String]) -> Result<Vec<String>, AllocError>
    ensures { IfOk result (λ copied. map string_bytes copied.items ≡ map string_bytes texts.now) }
{
    let mut copied = Vec::new(alloc);
    for text in texts {
        copied.push(String::from_str(alloc, text.as_str())?)?;
    }
    Ok(copied)
}

// The same texts once more, with an answer after that of a caller.
fn answers_with(
    alloc: Global,
    answers: &[String],
    caller: usize,
    answer: &StepAnswer,
) -> Result<Vec<String>, AllocError>
    requires { caller < length answers.now }
    ensures { IfOk result (λ all. map string_bytes all.items ≡ slice_set (map string_bytes answers.now) caller (answer_line (slice_index_or (map string_bytes answers.now) caller []) answer.now.0)) }
{
    let told = told_with(alloc, answers[caller].as_str(), answer)?;
    let mut all = copied_texts(alloc, answers)?;
    all[caller] = told;
    Ok(all)
}

// The same places, and that of a step after them that wasn't refused.
fn trail_with(
    alloc: Global,
    trail: &[usize],
    place: usize,
    answer: &StepAnswer,
) -> Result<Vec<usize>, AllocError>
    ensures { IfOk result (λ all. all.items ≡ trail_after trail.now place answer.now.0) }
{
    let mut all = Vec::with_capacity(alloc, trail.len().saturating_add(1))?;
    all.extend_from_slice(trail)?;
    if answer.0.is_ok() {
        all.push(place)?;
    }
    Ok(all)
}

/// The moment after a step of a caller that has made so many, with what it was answered, where the kernel is as a
/// digest says and as is noted, and who is held there.
pub(crate) fn moment_after(
    alloc: Global,
    before: &Moment,
    caller: usize,
    count: usize,
    place: usize,
    answer: &StepAnswer,
    standing: u64,
    noted: Vec<bool>,
    held: Vec<bool>,
) -> Result<Moment, AllocError>
    requires made { caller < length before.now.made.items }
    requires answers { caller < length before.now.answers.items }
    ensures made { IfOk result (λ moment. moment.made.items ≡ slice_set before.now.made.items caller (count + 1)) }
    ensures answers { IfOk result (λ moment. map string_bytes moment.answers.items ≡ slice_set (map string_bytes before.now.answers.items) caller (answer_line (slice_index_or (map string_bytes before.now.answers.items) caller []) answer.now.0)) }
    ensures trail { IfOk result (λ moment. moment.trail.items ≡ trail_after before.now.trail.items place answer.now.0) }
    ensures noted { IfOk result (λ moment. moment.noted ≡ noted) }
    ensures held { IfOk result (λ moment. moment.held ≡ held) }
{
    let made = made_with(alloc, before.made.as_slice(), caller, count)?;
    let answers = answers_with(alloc, before.answers.as_slice(), caller, answer)?;
    let trail = trail_with(alloc, before.trail.as_slice(), place, answer)?;
    Ok(Moment {
        made,
        answers,
        trail,
        standing,
        noted,
        held,
    })
}

// Whether two lists of texts are the same.
fn are_same_texts(one: &[String], other: &[String]) -> bool
    ensures { result ≡ true → map string_bytes one.now ≡ map string_bytes other.now }
{
    one == other
}

/// Whether two lists of numbers are the same.
pub(crate) fn are_same_numbers(one: &[usize], other: &[usize]) -> bool
    ensures { result ≡ true → one.now ≡ other.now }
{
    one == other
}

/// Whether two moments are the same to the callers: each has made as many steps and was answered alike.
pub(crate) fn are_same(one: &Moment, other: &Moment) -> bool
    ensures made { result ≡ true → one.now.made.items ≡ other.now.made.items }
    ensures answers { result ≡ true → map string_bytes one.now.answers.items ≡ map string_bytes other.now.answers.items }
{
    are_same_numbers(one.made.as_slice(), other.made.as_slice())
        && are_same_texts(one.answers.as_slice(), other.answers.as_slice())
}
