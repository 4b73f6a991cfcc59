//! The faults of what is asked of all orders.
ghost use Rattle.std.specs.Prelude.{◌≡◌, ◌++◌, flat_map, codes, map, option_map, string_bytes, IfOk, OnOk};
ghost use Rattle.std.specs.List.{list_any};
ghost use Rattle.lab_faults.specs.Told.{Adds};
ghost use Rattle.lab_kinds.specs.Orders as orders;
ghost use Rattle.lab_kinds.specs.Orders.{answer_of, ask_faults, ask_item_faults, caller_of, callers_of, key_faults, listed_faults, never_faults, never_item_faults, no_answer_text, no_caller_text, quoted_text, step_key_faults};

use crate::parts::begins;
use crate::plains::is_question_key;
use crate::tables::{check_field, unknown_words};
use crate::words::{ask_keys, is_word, step_ask_keys, step_ask_names};
use evl_scenario::Fault;
use lab_faults::{
    Finding, Item, Token, is_among, items_of, named, near_text, number_of, tokens_of,
};
use lab_scenario_orders::past;
use std::alloc::{AllocError, Global};

const PLAIN_ANSWERS: [&str; 5] = ["done", "begun", "timed out", "thread none", "next none"];

const NUMBER_ANSWERS: [&str; 6] = ["count ", "bits ", "number ", "bytes ", "thread ", "next "];

const STEP_ANSWERS: [&str; 4] = ["pass", "Raced", "CoreBusy", "done, others want in"];

const REFUSAL_ANSWERS: [&str; 11] = [
    "HistoryFull",
    "Unknown",
    "Invalid",
    "Again",
    "Busy",
    "NotOwner",
    "Deadlock",
    "Limit",
    "Range",
    "TooBig",
    "WrongStage",
];

// Notes the number of a caller, where a key has one.
fn note_caller<'a>(
    callers: &mut Vec<&'a str>,
    text: &'a [u8],
    setup: usize,
    item: Item,
) -> Result<(), AllocError>
    ensures { OnOk result (map (λ who. who.now) callers.new.items ≡ map (λ who. who.now) callers.old.items ++ caller_of text.now setup item) }
{
    if number_of(item.section) > setup && named(text, item.key) == "who" {
        callers.push(named(text, item.value))?;
    }
    Ok(())
}

// The callers of a scenario with these keys, of which the first steps are set up.
fn callers_in<'a>(
    alloc: Global,
    text: &'a [u8],
    setup: usize,
    items: &[Item],
) -> Result<Vec<&'a str>, AllocError>
    ensures { IfOk result (λ callers. map (λ who. who.now) callers.items ≡ flat_map (caller_of text.now setup) items.now) }
{
    let mut callers = Vec::new(alloc);
    for item in items {
        note_caller(&mut callers, text, setup, *item)?;
    }
    Ok(callers)
}

/// The callers of a scenario of which the first steps are set up, by their numbers. `AllocError` where the list couldn't
/// grow.
#[tactic(auto, unfolding(crate::specs::Orders::callers_of))]
pub fn callers_of<'a>(
    alloc: Global,
    text: &'a [u8],
    setup: usize,
) -> Result<Vec<&'a str>, AllocError>
    ensures { IfOk result (λ callers. map (λ who. who.now) callers.items ≡ callers_of text.now setup) }
{
    let items = items_of(alloc, text)?;
    callers_in(alloc, text, setup, items.items.as_slice())
}

// A caller's name.
fn caller_name(alloc: Global, who: &str) -> Result<String, AllocError>
    ensures { IfOk result (λ name. string_bytes name ≡ codes "T" ++ who.now) }
{
    format!(in alloc; "T{who}")
}

// The answer after an arrow.
fn behind_arrow(text: &str) -> Option<&str>
    ensures { option_map (λ answer. answer.now) result ≡ orders.behind_arrow text.now }
{
    match past("->", text.trim_start()) {
        Some(answer) => Some(answer.trim()),
        None => None,
    }
}

// The answer in a text of this caller.
fn answer_by<'a>(alloc: Global, name: &'a str, who: &str) -> Result<Option<&'a str>, AllocError>
    ensures { IfOk result (λ answer. option_map (λ text. text.now) answer ≡ orders.answer_by name.now who.now) }
{
    let caller = caller_name(alloc, who)?;
    match past(caller.as_str(), name.trim_start()) {
        Some(rest) => Ok(behind_arrow(rest)),
        None => Ok(None),
    }
}

// The answer in a text of one of these callers.
fn answer_of<'a>(
    alloc: Global,
    name: &'a str,
    callers: &[&str],
) -> Result<Option<&'a str>, AllocError>
    ensures { IfOk result (λ answer. option_map (λ text. text.now) answer ≡ answer_of name.now (map (λ who. who.now) callers.now)) }
{
    for who in callers {
        if let Some(answer) = answer_by(alloc, name, *who)? {
            return Ok(Some(answer));
        }
    }
    Ok(None)
}

#[tactic(auto, unfolding(crate::specs::Orders::plain_answers))]
fn plain_answers() -> &'static [&'static str]
    ensures { map (λ answer. answer.now) result.now ≡ orders.plain_answers }
{
    &PLAIN_ANSWERS
}

#[tactic(auto, unfolding(crate::specs::Orders::refusal_answers))]
fn refusal_answers() -> &'static [&'static str]
    ensures { map (λ answer. answer.now) result.now ≡ orders.refusal_answers }
{
    &REFUSAL_ANSWERS
}

#[tactic(auto, unfolding(crate::specs::Orders::number_answers))]
fn number_answers() -> &'static [&'static str]
    ensures { map (λ front. front.now) result.now ≡ orders.number_answers }
{
    &NUMBER_ANSWERS
}

#[tactic(auto, unfolding(crate::specs::Orders::step_answers))]
fn step_answers() -> &'static [&'static str]
    ensures { map (λ answer. answer.now) result.now ≡ orders.step_answers }
{
    &STEP_ANSWERS
}

// Whether an answer begins with one of these.
fn has_front(answer: &str, fronts: &[&str]) -> bool
    ensures { result ≡ list_any (orders.has_front answer.now) (map (λ front. front.now) fronts.now) }
{
    for front in fronts {
        if begins(front.as_bytes(), answer.as_bytes()) {
            return true;
        }
    }
    false
}

// Whether some call is answered so.
fn is_answer(answer: &str) -> bool
    ensures { result ≡ orders.is_answer answer.now }
{
    is_among(plain_answers(), answer)
        || is_among(refusal_answers(), answer)
        || has_front(answer, number_answers())
}

// Whether some call is answered so, or, where steps of callers are gone through, some step.
fn is_answer_of(is_of_steps: bool, answer: &str) -> bool
    ensures { result ≡ orders.is_answer_of is_of_steps answer.now }
{
    is_answer(answer) || (is_of_steps && is_among(step_answers(), answer))
}

// The words about a text of no caller.
#[tactic(auto, unfolding(crate::specs::Orders::no_caller_text))]
fn no_caller_words(alloc: Global, name: &str) -> Result<String, AllocError>
    ensures { IfOk result (λ words. string_bytes words ≡ no_caller_text name.now) }
{
    format!(in alloc;
        "never: \"{name}\": a thread that has a [[step]] and one answer are wanted, as \"T1 -> timed out\""
    )
}

// The words about a near answer of steps, where these are gone through.
fn near_step(alloc: Global, is_of_steps: bool, answer: &str) -> Result<String, AllocError>
    ensures { IfOk result (λ hint. string_bytes hint ≡ orders.near_step_text is_of_steps answer.now) }
{
    if is_of_steps {
        return near_text(alloc, answer, step_answers());
    }
    Ok(String::new(alloc))
}

// The words about a near answer.
fn near_answer(alloc: Global, is_of_steps: bool, answer: &str) -> Result<String, AllocError>
    ensures { IfOk result (λ hint. string_bytes hint ≡ orders.near_answer_text is_of_steps answer.now) }
{
    let mut hint = near_text(alloc, answer, plain_answers())?;
    let refusal = near_text(alloc, answer, refusal_answers())?;
    hint.push_str(refusal.as_str())?;
    let step = near_step(alloc, is_of_steps, answer)?;
    hint.push_str(step.as_str())?;
    Ok(hint)
}

// The words about an answer that no call has.
#[tactic(auto, unfolding(crate::specs::Orders::no_answer_text))]
fn no_answer_words(alloc: Global, is_of_steps: bool, answer: &str) -> Result<String, AllocError>
    ensures { IfOk result (λ words. string_bytes words ≡ no_answer_text is_of_steps answer.now) }
{
    let hint = near_answer(alloc, is_of_steps, answer)?;
    format!(in alloc; "never: no call is answered \"{answer}\"{hint}")
}

// Notes a text of no caller, or one whose answer no call has.
fn check_answer(
    alloc: Global,
    finding: &mut Finding<'_>,
    is_of_steps: bool,
    piece: Token,
    name: &str,
    answer: Option<&str>,
) -> Result<(), AllocError>
    ensures { OnOk result (Adds finding.old finding.new (orders.answer_faults finding.old.text.now is_of_steps piece name.now (option_map (λ text. text.now) answer.entry))) }
{
    match answer {
        None => {
            let words = no_caller_words(alloc, name)?;
            finding.note(Fault::Board, piece.from, words)
        }
        Some(answer) => {
            if is_answer_of(is_of_steps, answer) {
                return Ok(());
            }
            let words = no_answer_words(alloc, is_of_steps, answer)?;
            finding.note(Fault::Board, piece.from, words)
        }
    }
}

// Notes a text at `never` that is none of these callers, or whose answer no call has.
#[tactic(auto, unfolding(crate::specs::Orders::never_faults))]
fn check_never(
    alloc: Global,
    finding: &mut Finding<'_>,
    callers: &[&str],
    is_of_steps: bool,
    piece: Token,
) -> Result<(), AllocError>
    ensures { OnOk result (Adds finding.old finding.new (never_faults finding.old.text.now (map (λ who. who.now) callers.now) is_of_steps piece)) }
{
    let name = named(finding.text, (piece.from, piece.to));
    let answer = answer_of(alloc, name, callers)?;
    check_answer(alloc, finding, is_of_steps, piece, name, answer)
}

// Whether a piece is a text in a list.
fn is_listed(value: (usize, usize), piece: Token) -> bool
    ensures { result ≡ orders.is_listed value piece }
{
    is_word(piece.kind) && value.0 <= piece.from && piece.to <= value.1
}

fn check_listed(
    alloc: Global,
    finding: &mut Finding<'_>,
    callers: &[&str],
    is_of_steps: bool,
    value: (usize, usize),
    piece: Token,
) -> Result<(), AllocError>
    ensures { OnOk result (Adds finding.old finding.new (listed_faults finding.old.text.now (map (λ who. who.now) callers.now) is_of_steps value piece)) }
{
    if is_listed(value, piece) {
        return check_never(alloc, finding, callers, is_of_steps, piece);
    }
    Ok(())
}

fn check_pieces(
    alloc: Global,
    finding: &mut Finding<'_>,
    callers: &[&str],
    is_of_steps: bool,
    value: (usize, usize),
    pieces: &[Token],
) -> Result<(), AllocError>
    ensures { OnOk result (Adds finding.old finding.new (flat_map (listed_faults finding.old.text.now (map (λ who. who.now) callers.now) is_of_steps value) pieces.now)) }
{
    for piece in pieces {
        check_listed(alloc, finding, callers, is_of_steps, value, *piece)?;
    }
    Ok(())
}

// Notes the texts of a list at `never` that have no caller.
fn check_nevers(
    alloc: Global,
    finding: &mut Finding<'_>,
    callers: &[&str],
    is_of_steps: bool,
    pieces: &[Token],
    item: Item,
) -> Result<(), AllocError>
    ensures { OnOk result (Adds finding.old finding.new (never_item_faults finding.old.text.now (map (λ who. who.now) callers.now) is_of_steps pieces.now item)) }
{
    if named(finding.text, item.key) == "never" {
        return check_pieces(alloc, finding, callers, is_of_steps, item.value, pieces);
    }
    Ok(())
}

// The words about a key that asks of moments and is in quotes.
#[tactic(auto, unfolding(crate::specs::Orders::quoted_text))]
fn quoted_words(alloc: Global, key: &str) -> Result<String, AllocError>
    ensures { IfOk result (λ words. string_bytes words ≡ quoted_text key.now) }
{
    format!(in alloc; "[ask]: {key} is written without quotes")
}

// Notes the faults of a key of what is asked of callers' steps.
fn check_step_key(alloc: Global, finding: &mut Finding<'_>, item: Item) -> Result<(), AllocError>
    ensures { OnOk result (Adds finding.old finding.new (step_key_faults finding.old.text.now item)) }
{
    let key = named(finding.text, item.key);
    if is_among(step_ask_keys(), key) {
        return check_field(
            alloc,
            finding,
            Fault::Board,
            "[ask]: ",
            step_ask_keys(),
            item,
        );
    }
    if is_question_key(key) {
        let words = quoted_words(alloc, key)?;
        return finding.note(Fault::Board, item.key.0, words);
    }
    let words = unknown_words(alloc, "[ask]: ", step_ask_names(), key)?;
    finding.note(Fault::Board, item.key.0, words)
}

// As `check_step_key`, of callers' steps, or of whole calls.
fn check_key(
    alloc: Global,
    finding: &mut Finding<'_>,
    is_of_steps: bool,
    item: Item,
) -> Result<(), AllocError>
    ensures { OnOk result (Adds finding.old finding.new (key_faults finding.old.text.now is_of_steps item)) }
{
    if is_of_steps {
        return check_step_key(alloc, finding, item);
    }
    check_field(alloc, finding, Fault::Board, "[ask]: ", ask_keys(), item)
}

// Notes the faults of a key of what is asked.
#[tactic(auto, unfolding(crate::specs::Orders::ask_item_faults))]
fn check_ask_item(
    alloc: Global,
    finding: &mut Finding<'_>,
    callers: &[&str],
    is_of_steps: bool,
    pieces: &[Token],
    item: Item,
) -> Result<(), AllocError>
    ensures { OnOk result (Adds finding.old finding.new (ask_item_faults finding.old.text.now (map (λ who. who.now) callers.now) is_of_steps pieces.now item)) }
{
    check_key(alloc, finding, is_of_steps, item)?;
    check_nevers(alloc, finding, callers, is_of_steps, pieces, item)
}

fn check_ask_items(
    alloc: Global,
    finding: &mut Finding<'_>,
    callers: &[&str],
    is_of_steps: bool,
    pieces: &[Token],
    items: &[Item],
) -> Result<(), AllocError>
    ensures { OnOk result (Adds finding.old finding.new (flat_map (ask_item_faults finding.old.text.now (map (λ who. who.now) callers.now) is_of_steps pieces.now) items.now)) }
{
    for item in items {
        check_ask_item(alloc, finding, callers, is_of_steps, pieces, *item)?;
    }
    Ok(())
}

/// Notes the faults of what is asked of these callers, of whose steps or not, which is all that the text has. `AllocError` where memory
/// couldn't grow.
#[tactic(auto, unfolding(crate::specs::Orders::ask_faults))]
pub fn check_ask(
    alloc: Global,
    finding: &mut Finding<'_>,
    callers: &[&str],
    is_of_steps: bool,
) -> Result<(), AllocError>
    ensures { OnOk result (Adds finding.old finding.new (ask_faults finding.old.text.now (map (λ who. who.now) callers.now) is_of_steps)) }
{
    let pieces = tokens_of(alloc, finding.text)?;
    let items = items_of(alloc, finding.text)?;
    check_ask_items(
        alloc,
        finding,
        callers,
        is_of_steps,
        pieces.as_slice(),
        items.items.as_slice(),
    )
}
