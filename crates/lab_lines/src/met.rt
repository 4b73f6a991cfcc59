//! Whether the steps of a scenario are answered as its text expects.
ghost use Rattle.std.specs.Prelude.{◌≡◌, ◌-◌, ◌++◌, IfOk, OnOk, filter, find, map, option_map, slice_get, string_bytes};
ghost use Rattle.std.specs.List.{list_any};
ghost use Rattle.std.specs.Option.{option_map_or};
ghost use Rattle.std.specs.Str.{bytes_eq};
ghost use Rattle.std.specs.Str.Lines.{lines};
ghost use Rattle.evl_base.specs.Refusal.{name_of};
ghost use Rattle.evl_scenario.specs.Values.{around_space};
ghost use Rattle.lab_faults.specs.Wants.{hint_text};
ghost use Rattle.lab_lines.specs.Met as met;
ghost use Rattle.lab_lines.specs.Met.{Judges, JudgesMet, TellsNever, TellsUnmet, answer_at, begins_as, can_be, entries_of, entry_in, first_word, is_impossible, is_refusal, is_unmet, kind_of, never_words, step_at, unmet_words};
ghost use Rattle.lab_traces.specs.Lines.{line_read};
ghost use Rattle.lab_traces.specs.Says.{parts_of};

use crate::tables::Expected;
use crate::texts::lines_of;
use evl_base::{Call, Refusal, ReplyKind, each_call, step_word};
use evl_scenario::Step;
use lab_faults::near_text;
use lab_traces::{EntryLine, Says, read_line};
use std::alloc::{AllocError, Global};

/// A step that isn't answered as its text expects.
#[derive(Drop)]
pub struct Unexpected {
    /// The line that says what is expected, from 1.
    pub line: usize,
    /// Whether no call of its kind is ever answered so.
    pub is_fault: bool,
    /// The step, what is expected of it, and what it is answered.
    pub words: String,
}

/// The kind of a call's answers.
macro_rules! kind {
    (($call:expr) [$($family:ident { $($variant:ident $name:literal $keys:tt -> $answer:ident)* })*]) => {
        match $call {
            $($(Call::$variant { .. } => ReplyKind::$answer,)*)*
        }
    };
}

// The kind of what a call answers that isn't refused.
fn kind_of(call: &Call) -> ReplyKind
    ensures { result ≡ kind_of call.now }
{
    each_call!(kind(call))
}

// The first words of an answer of a kind.
fn fronts(kind: ReplyKind) -> &'static [&'static str]
    ensures { map (λ word. word.now) result.now ≡ met.fronts kind }
{
    match kind {
        ReplyKind::Done => &["done"],
        ReplyKind::Begun => &["begun"],
        ReplyKind::Count => &["count"],
        ReplyKind::Bits => &["bits"],
        ReplyKind::Number => &["number"],
        ReplyKind::Bytes => &["bytes"],
        ReplyKind::Chosen => &["thread"],
        ReplyKind::Handed => &["next"],
        ReplyKind::Outcome => &["done", "timed", "bits", "bytes"],
    }
}

// The text before the first blank, and the text after it.
fn around_blank(text: &str) -> Option<(&str, &str)>
    ensures { option_map (λ parts. (parts.0.now, parts.1.now)) result ≡ around_space text.now }
{
    match text.split_once(' ') {
        Some(parts) => Some(parts),
        None => None,
    }
}

// The first word of a text.
fn first_word(text: &str) -> &str
    ensures { result.now ≡ first_word text.now }
{
    match around_blank(text) {
        Some((first, _)) => first,
        None => text,
    }
}

// Whether a text is one of these words.
fn is_among(text: &str, words: &[&str]) -> bool
    ensures { result ≡ list_any (bytes_eq text.now) (map (λ word. word.now) words.now) }
{
    for word in words {
        if text == *word {
            return true;
        }
    }
    false
}

// Whether one of these refusals has this name.
fn has_name(all: &[Refusal], text: &str) -> bool
    ensures { result ≡ list_any (λ refusal. bytes_eq (name_of refusal) text.now) all.now }
{
    all.iter().any(|refusal| refusal.name() == text)
}

// Whether a text is the name of a refusal that is in a trace.
fn is_refusal(text: &str) -> bool
    ensures { result ≡ is_refusal text.now }
{
    has_name(
        &[
            Refusal::HistoryFull,
            Refusal::Unknown,
            Refusal::Invalid,
            Refusal::Again,
            Refusal::Busy,
            Refusal::NotOwner,
            Refusal::Deadlock,
            Refusal::Limit,
            Refusal::Range,
            Refusal::TooBig,
            Refusal::WrongStage,
        ],
        text,
    )
}

// Whether an answer begins as one of a kind.
fn begins_as(kind: ReplyKind, answer: &str) -> bool
    ensures { result ≡ begins_as kind answer.now }
{
    is_among(first_word(answer), fronts(kind))
}

// Whether a call can be answered so.
fn can_be(call: &Call, answer: &str) -> bool
    ensures { result ≡ can_be call.now answer.now }
{
    is_refusal(answer) || begins_as(kind_of(call), answer)
}

// The step of which something is expected.
fn step_at<'a>(steps: &'a [Step], expected: &Expected) -> Option<&'a Step>
    ensures { option_map (λ step. step.now) result ≡ step_at steps.now expected.now }
{
    steps.get(expected.step.saturating_sub(1))
}

// Whether no call of its kind is ever answered so.
fn is_impossible(steps: &[Step], expected: &Expected) -> bool
    ensures { result ≡ is_impossible steps.now expected.now }
{
    match step_at(steps, expected) {
        Some(step) => !can_be(&step.call, expected.answer.as_str()),
        None => false,
    }
}

// The first of what is expected that can never be.
fn first_impossible<'a>(steps: &[Step], expected: &'a [Expected]) -> Option<&'a Expected>
    ensures { option_map (λ one. one.now) result ≡ find (is_impossible steps.now) expected.now }
{
    for one in expected {
        if is_impossible(steps, one) {
            return Some(one);
        }
    }
    None
}

// Puts the entry of a line of a trace after others.
fn put_entry<'a>(all: &mut Vec<EntryLine<'a>>, line: &'a str) -> Result<(), AllocError>
    ensures { OnOk result (map parts_of all.new.items ≡ map parts_of all.old.items ++ entry_in (line_read line.now)) }
{
    match read_line(line) {
        Some(Says::Entry(entry)) => {
            all.push(entry)?;
            Ok(())
        }
        _ => Ok(()),
    }
}

// The entries of the lines of a trace.
fn entries_in<'a>(alloc: Global, lines: &[&'a str]) -> Result<Vec<EntryLine<'a>>, AllocError>
    ensures { IfOk result (λ all. map parts_of all.items ≡ entries_of (map (λ line. line.now) lines.now)) }
{
    let mut all = Vec::new(alloc);
    for line in lines {
        put_entry(&mut all, *line)?;
    }
    Ok(all)
}

// The entry with the number of a step.
fn entry_at<'a>(entries: &[EntryLine<'a>], step: usize) -> Option<EntryLine<'a>>
    ensures { option_map parts_of result ≡ slice_get (map parts_of entries.now) (step - 1) }
{
    entries.get(step.saturating_sub(1)).copied()
}

// The answer of the step of which something is expected.
fn answer_at<'a>(entries: &[EntryLine<'a>], expected: &Expected) -> Option<&'a str>
    ensures { option_map (λ answer. answer.now) result ≡ answer_at (map parts_of entries.now) expected.now }
{
    match entry_at(entries, expected.step) {
        Some(entry) => Some(entry.answer),
        None => None,
    }
}

// Whether the step is answered otherwise.
fn is_unmet(entries: &[EntryLine<'_>], expected: &Expected) -> bool
    ensures { result ≡ is_unmet (map parts_of entries.now) expected.now }
{
    match answer_at(entries, expected) {
        Some(answer) => !(answer == expected.answer.as_str()),
        None => true,
    }
}

// The first of what is expected that is answered otherwise.
fn first_unmet<'a>(entries: &[EntryLine<'_>], expected: &'a [Expected]) -> Option<&'a Expected>
    ensures { option_map (λ one. one.now) result ≡ find (is_unmet (map parts_of entries.now)) expected.now }
{
    for one in expected {
        if is_unmet(entries, one) {
            return Some(one);
        }
    }
    None
}

// The words that may be meant by an answer that can't be.
fn plain_answers() -> &'static [&'static str]
    ensures { map (λ word. word.now) result.now ≡ met.plain_answers }
{
    &[
        "done",
        "begun",
        "timed out",
        "thread none",
        "next none",
        "bytes -",
        "Unknown",
        "Invalid",
        "Again",
        "Busy",
        "NotOwner",
        "Deadlock",
        "Limit",
        "Range",
        "TooBig",
        "WrongStage",
        "HistoryFull",
    ]
}

// The word of the call of which something is expected.
fn word_at(steps: &[Step], expected: &Expected) -> &'static str
    ensures { result.now ≡ met.word_at steps.now expected.now }
{
    match step_at(steps, expected) {
        Some(step) => step_word(&step.call),
        None => "",
    }
}

// Those of some words that a call can be answered.
fn answers_among<'a>(
    alloc: Global,
    call: &Call,
    words: &[&'a str],
) -> Result<Vec<&'a str>, AllocError>
    ensures { IfOk result (λ all. map (λ word. word.now) all.items ≡ filter (can_be call.now) (map (λ word. word.now) words.now)) }
{
    let mut all = Vec::new(alloc);
    for word in words {
        if can_be(call, *word) {
            all.push(*word)?;
        }
    }
    Ok(all)
}

// The words that may be meant in place of an answer that can't be.
fn answers_at(
    alloc: Global,
    steps: &[Step],
    expected: &Expected,
) -> Result<Vec<&'static str>, AllocError>
    ensures { IfOk result (λ all. map (λ word. word.now) all.items ≡ met.answers_at steps.now expected.now) }
{
    match step_at(steps, expected) {
        Some(step) => answers_among(alloc, &step.call, plain_answers()),
        None => Ok(Vec::new(alloc)),
    }
}

// The words about the word that may be meant, or nothing.
fn hint_for(alloc: Global, expected: &Expected, answers: &[&str]) -> Result<String, AllocError>
    ensures { IfOk result (λ hint. string_bytes hint ≡ hint_text (string_bytes expected.now.answer) (map (λ answer. answer.now) answers.now)) }
{
    near_text(alloc, expected.answer.as_str(), answers)
}

// The answer in quotes, and the word that may be meant.
fn quoted(alloc: Global, answer: &str, hint: &str) -> Result<String, AllocError>
    ensures { IfOk result (λ text. string_bytes text ≡ met.quoted answer.now hint.now) }
{
    format!(in alloc; "\"{answer}\"{hint}")
}

// The words that a call is never answered so.
fn never_said(alloc: Global, step: usize, word: &str, answer: &str) -> Result<String, AllocError>
    ensures { IfOk result (λ text. string_bytes text ≡ met.never_said step word.now answer.now) }
{
    format!(in alloc; "step {step}: {word} is never answered {answer}")
}

// The same, with the word that may be meant.
fn never_words(
    alloc: Global,
    expected: &Expected,
    word: &str,
    answers: &[&str],
) -> Result<String, AllocError>
    ensures { IfOk result (λ text. string_bytes text ≡ never_words expected.now word.now (map (λ answer. answer.now) answers.now)) }
{
    let hint = hint_for(alloc, expected, answers)?;
    let answer = quoted(alloc, expected.answer.as_str(), hint.as_str())?;
    never_said(alloc, expected.step, word, answer.as_str())
}

// The words that a step is answered otherwise.
fn unmet_words(alloc: Global, expected: &Expected, answer: &str) -> Result<String, AllocError>
    ensures { IfOk result (λ text. string_bytes text ≡ unmet_words expected.now answer.now) }
{
    let wanted = expected.answer.as_str();
    let number = expected.step;
    format!(in alloc; "step {number}: {wanted} is expected, {answer} is answered")
}

// Reports what can never be answered.
fn tell_never(alloc: Global, steps: &[Step], one: &Expected) -> Result<Unexpected, AllocError>
    ensures { IfOk result (TellsNever steps.now one.now) }
{
    let answers = answers_at(alloc, steps, one)?;
    Ok(Unexpected {
        line: one.line,
        is_fault: true,
        words: never_words(alloc, one, word_at(steps, one), answers.as_slice())?,
    })
}

// Reports what is answered otherwise.
fn tell_unmet(
    alloc: Global,
    entries: &[EntryLine<'_>],
    one: &Expected,
) -> Result<Unexpected, AllocError>
    ensures { IfOk result (TellsUnmet (map parts_of entries.now) one.now) }
{
    let answer = answer_at(entries, one).unwrap_or("nothing");
    Ok(Unexpected {
        line: one.line,
        is_fault: false,
        words: unmet_words(alloc, one, answer)?,
    })
}

// Reports the first that is answered otherwise, if there is one.
#[tactic(auto, using(crate::proofs::MetLaws::met_told, crate::proofs::MetLaws::met_none))]
fn judge_met(
    alloc: Global,
    entries: &[EntryLine<'_>],
    expected: &[Expected],
) -> Result<Option<Unexpected>, AllocError>
    ensures { IfOk result (JudgesMet (map parts_of entries.now) (find (is_unmet (map parts_of entries.now)) expected.now)) }
{
    match first_unmet(entries, expected) {
        Some(one) => Ok(Some(tell_unmet(alloc, entries, one)?)),
        None => Ok(None),
    }
}

// Reports the first of a trace that is answered otherwise.
fn judge_trace(
    alloc: Global,
    expected: &[Expected],
    trace: &str,
) -> Result<Option<Unexpected>, AllocError>
    ensures { IfOk result (JudgesMet (entries_of (lines trace.now)) (find (is_unmet (entries_of (lines trace.now))) expected.now)) }
{
    let all = lines_of(alloc, trace)?;
    let entries = entries_in(alloc, all.as_slice())?;
    judge_met(alloc, entries.as_slice(), expected)
}

/// The first step of a scenario of which something is expected that no call of its kind is ever answered, or else the
/// first that its trace answers otherwise; none where all are answered as expected. `AllocError` where memory couldn't
/// grow.
#[tactic(auto, using(crate::proofs::MetLaws::never_told, crate::proofs::MetLaws::never_none))]
pub fn first_unexpected(
    alloc: Global,
    expected: &[Expected],
    steps: &[Step],
    trace: &str,
) -> Result<Option<Unexpected>, AllocError>
    ensures { IfOk result (Judges steps.now (entries_of (lines trace.now)) expected.now) }
{
    match first_impossible(steps, expected) {
        Some(one) => Ok(Some(tell_never(alloc, steps, one)?)),
        None => judge_trace(alloc, expected, trace),
    }
}
