//! The faults of steps.
ghost use Rattle.std.specs.Prelude.{◌≡◌, true, [], ◌∷◌, codes, flat_map, map, string_bytes, IfOk, OnOk};
ghost use Rattle.std.specs.List.{list_any};
ghost use Rattle.lab_faults.specs.Faults.{are_of_steps};
ghost use Rattle.lab_faults.specs.Steps as steps;
ghost use Rattle.lab_faults.specs.Steps.{call_faults, key_faults, lacking_faults, misfit_faults, misfit_text, missing_faults, missing_text, name_between, no_call_text, no_word_text, own_keys, step_faults, step_told, step_words, text_between, unknown_faults, unknown_text, unread_text, word_faults};
ghost use Rattle.lab_faults.specs.Told.{Adds};
ghost use Rattle.lab_faults.specs.Wants.{meant_or_near_text, names_text};

use crate::found::Finding;
use crate::items::{Item, bare, slice};
use crate::judges::{fits_step, is_step};
use crate::near::{meant_or_near, near_text};
use crate::wants::{is_optional, keys_of, wanted};
use evl_base::STEP_WORDS;
use evl_scenario::Fault;
use std::alloc::{AllocError, Global};
use std::str;

// The bytes, if they are text.
fn as_text(bytes: &[u8]) -> &str
    ensures { result.now ≡ steps.as_text bytes.now }
{
    match str::from_utf8(bytes) {
        Ok(text) => text,
        Err(_) => "",
    }
}

/// The text between two bytes, as far as it is text.
pub fn shown(text: &[u8], range: (usize, usize)) -> &str
    ensures { result.now ≡ text_between text.now range }
{
    as_text(slice(text, range))
}

/// The same without the quotes around it.
pub fn named(text: &[u8], range: (usize, usize)) -> &str
    ensures { result.now ≡ name_between text.now range }
{
    as_text(bare(slice(text, range)))
}

/// The fault of a step.
pub fn fault_of(number: usize) -> Fault
    ensures { result ≡ steps.fault_of number }
{
    Fault::Step(u32::try_from(number).unwrap_or(u32::MAX))
}

/// The first of some items that is at a key.
pub fn item_at(text: &[u8], items: &[Item], key: &str) -> Option<Item>
    ensures { result ≡ steps.item_at text.now items.now key.now }
{
    for item in items {
        if named(text, item.key) == key {
            return Some(*item);
        }
    }
    None
}

/// The names of keys, with a comma between two of them. `AllocError` where memory couldn't grow.
pub fn listed(alloc: Global, keys: &[&str]) -> Result<String, AllocError>
    ensures { IfOk result (λ names. string_bytes names ≡ names_text (map (λ key. key.now) keys.now)) }
{
    let mut text = String::new(alloc);
    match keys {
        [] => text.push_str("none but do and who")?,
        [first, rest @ ..] => {
            text.push_str(first)?;
            for key in rest {
                write!(text, ", {key}")?;
            }
        }
    }
    Ok(text)
}

/// Whether a key is one of these.
pub fn is_among(keys: &[&str], key: &str) -> bool
    ensures { result ≡ steps.is_among (map (λ known. known.now) keys.now) key.now }
{
    for known in keys {
        if key == *known {
            return true;
        }
    }
    false
}

// Whether a key is one that a step's word has.
fn is_own(keys: &[&str], key: &str) -> bool
    ensures { result ≡ steps.is_own (map (λ key. key.now) keys.now) key.now }
{
    key == "who" || is_among(keys, key)
}

// Whether a key is one that a step's word doesn't have.
fn is_unknown(text: &[u8], keys: &[&str], item: Item) -> bool
    ensures { result ≡ steps.is_unknown text.now (map (λ key. key.now) keys.now) item }
{
    let key = named(text, item.key);
    !(key == "do" || is_own(keys, key))
}

// Whether a step has such a key.
fn has_unknown(text: &[u8], keys: &[&str], items: &[Item]) -> bool
    ensures { result ≡ list_any (steps.is_unknown text.now (map (λ key. key.now) keys.now)) items.now }
{
    for item in items {
        if is_unknown(text, keys, *item) {
            return true;
        }
    }
    false
}

// The words about a key that a step's word doesn't have.
#[tactic(auto, unfolding(crate::specs::Steps::unknown_text))]
fn unknown_words(
    alloc: Global,
    number: usize,
    word: &str,
    keys: &[&str],
    key: &str,
) -> Result<String, AllocError>
    ensures { IfOk result (λ words. string_bytes words ≡ unknown_text number word.now (map (λ key. key.now) keys.now) key.now) }
{
    let hint = near_text(alloc, key, keys)?;
    let names = listed(alloc, keys)?;
    format!(in alloc; "step {number}: {word} has no key \"{key}\"{hint} (keys: {names})")
}

// Notes a key that a step's word doesn't have.
#[tactic(auto, unfolding(crate::specs::Steps::unknown_faults))]
fn note_unknown(
    alloc: Global,
    finding: &mut Finding<'_>,
    number: usize,
    item: Item,
    word: &str,
    keys: &[&str],
) -> Result<(), AllocError>
    ensures told { OnOk result (Adds finding.old finding.new (unknown_faults finding.old.text.now number word.now (map (λ key. key.now) keys.now) item)) }
    ensures steps { OnOk result (are_of_steps finding.old.found.items ≡ true → are_of_steps finding.new.found.items ≡ true) }
{
    if !is_unknown(finding.text, keys, item) {
        return Ok(());
    }
    let words = unknown_words(alloc, number, word, keys, named(finding.text, item.key))?;
    finding.note(fault_of(number), item.key.0, words)
}

// Notes all of them.
fn note_all_unknown(
    alloc: Global,
    finding: &mut Finding<'_>,
    number: usize,
    items: &[Item],
    word: &str,
    keys: &[&str],
) -> Result<(), AllocError>
    ensures told { OnOk result (Adds finding.old finding.new (flat_map (unknown_faults finding.old.text.now number word.now (map (λ key. key.now) keys.now)) items.now)) }
    ensures steps { OnOk result (are_of_steps finding.old.found.items ≡ true → are_of_steps finding.new.found.items ≡ true) }
{
    for item in items {
        note_unknown(alloc, finding, number, *item, word, keys)?;
    }
    Ok(())
}

// The words about a key that is missing.
#[tactic(auto, unfolding(crate::specs::Steps::missing_text))]
fn missing_words(alloc: Global, number: usize, word: &str, key: &str) -> Result<String, AllocError>
    ensures { IfOk result (λ words. string_bytes words ≡ missing_text number word.now key.now) }
{
    let want = wanted(key);
    format!(in alloc; "step {number}: {word} needs a key \"{key}\": {want} is wanted there")
}

// Notes a key that is missing, unless it may be.
#[tactic(auto, unfolding(crate::specs::Steps::missing_faults))]
fn note_missing(
    alloc: Global,
    finding: &mut Finding<'_>,
    number: usize,
    items: &[Item],
    at: usize,
    word: &str,
    key: &str,
) -> Result<(), AllocError>
    ensures told { OnOk result (Adds finding.old finding.new (missing_faults finding.old.text.now number items.now at word.now key.now)) }
    ensures steps { OnOk result (are_of_steps finding.old.found.items ≡ true → are_of_steps finding.new.found.items ≡ true) }
{
    if is_optional(key) || item_at(finding.text, items, key).is_some() {
        return Ok(());
    }
    let words = missing_words(alloc, number, word, key)?;
    finding.note(fault_of(number), at, words)
}

// Notes the keys of these that are missing.
fn note_all_missing(
    alloc: Global,
    finding: &mut Finding<'_>,
    number: usize,
    items: &[Item],
    at: usize,
    word: &str,
    keys: &[&str],
) -> Result<(), AllocError>
    ensures told { OnOk result (Adds finding.old finding.new (flat_map (missing_faults finding.old.text.now number items.now at word.now) (map (λ key. key.now) keys.now))) }
    ensures steps { OnOk result (are_of_steps finding.old.found.items ≡ true → are_of_steps finding.new.found.items ≡ true) }
{
    for key in keys {
        note_missing(alloc, finding, number, items, at, word, key)?;
    }
    Ok(())
}

// Whether a value can't be at its key.
fn is_misfit(
    alloc: Global,
    text: &[u8],
    item: Item,
    word: &str,
    keys: &[&str],
) -> Result<bool, AllocError>
    ensures { IfOk result (λ misfit. misfit ≡ steps.is_misfit text.now word.now (map (λ key. key.now) keys.now) item) }
{
    let key = named(text, item.key);
    if !is_own(keys, key) {
        return Ok(false);
    }
    Ok(!fits_step(alloc, word, key, shown(text, item.value).as_bytes())?)
}

// The words about a value that can't be at its key.
#[tactic(auto, unfolding(crate::specs::Steps::misfit_text))]
fn misfit_words(alloc: Global, number: usize, key: &str, value: &str) -> Result<String, AllocError>
    ensures { IfOk result (λ words. string_bytes words ≡ misfit_text number key.now value.now) }
{
    let want = wanted(key);
    format!(in alloc; "step {number}: {key} = {value}: {want} is wanted")
}

// Notes a value that can't be at its key.
#[tactic(auto, unfolding(crate::specs::Steps::misfit_faults))]
fn note_misfit(
    alloc: Global,
    finding: &mut Finding<'_>,
    number: usize,
    item: Item,
    word: &str,
    keys: &[&str],
) -> Result<(), AllocError>
    ensures told { OnOk result (Adds finding.old finding.new (misfit_faults finding.old.text.now number word.now (map (λ key. key.now) keys.now) item)) }
    ensures steps { OnOk result (are_of_steps finding.old.found.items ≡ true → are_of_steps finding.new.found.items ≡ true) }
{
    if !is_misfit(alloc, finding.text, item, word, keys)? {
        return Ok(());
    }
    let key = named(finding.text, item.key);
    let words = misfit_words(alloc, number, key, shown(finding.text, item.value))?;
    finding.note(fault_of(number), item.value.0, words)
}

// Notes all of them.
fn note_all_misfits(
    alloc: Global,
    finding: &mut Finding<'_>,
    number: usize,
    items: &[Item],
    word: &str,
    keys: &[&str],
) -> Result<(), AllocError>
    ensures told { OnOk result (Adds finding.old finding.new (flat_map (misfit_faults finding.old.text.now number word.now (map (λ key. key.now) keys.now)) items.now)) }
    ensures steps { OnOk result (are_of_steps finding.old.found.items ≡ true → are_of_steps finding.new.found.items ≡ true) }
{
    for item in items {
        note_misfit(alloc, finding, number, *item, word, keys)?;
    }
    Ok(())
}

// Notes the missing keys of a step, where none is unknown.
fn note_lacking(
    alloc: Global,
    finding: &mut Finding<'_>,
    number: usize,
    items: &[Item],
    at: usize,
    word: &str,
    keys: &[&str],
) -> Result<(), AllocError>
    ensures told { OnOk result (Adds finding.old finding.new (lacking_faults finding.old.text.now number items.now at word.now (map (λ key. key.now) keys.now))) }
    ensures steps { OnOk result (are_of_steps finding.old.found.items ≡ true → are_of_steps finding.new.found.items ≡ true) }
{
    if has_unknown(finding.text, keys, items) {
        return Ok(());
    }
    note_missing(alloc, finding, number, items, at, word, "who")?;
    note_all_missing(alloc, finding, number, items, at, word, keys)
}

// Notes the faults of a step whose word is known.
#[tactic(auto, unfolding(crate::specs::Steps::key_faults))]
fn note_keys(
    alloc: Global,
    finding: &mut Finding<'_>,
    number: usize,
    items: &[Item],
    word: &str,
    keys: &[&str],
    at: usize,
) -> Result<(), AllocError>
    ensures told { OnOk result (Adds finding.old finding.new (key_faults finding.old.text.now number items.now at word.now (map (λ key. key.now) keys.now))) }
    ensures steps { OnOk result (are_of_steps finding.old.found.items ≡ true → are_of_steps finding.new.found.items ≡ true) }
{
    note_all_unknown(alloc, finding, number, items, word, keys)?;
    note_lacking(alloc, finding, number, items, at, word, keys)?;
    note_all_misfits(alloc, finding, number, items, word, keys)
}

// The words of all steps.
#[tactic(auto, unfolding(crate::specs::Steps::step_words))]
fn call_words() -> &'static [&'static str]
    ensures { map (λ word. word.now) result.now ≡ step_words }
{
    &STEP_WORDS
}

// The words about the one that is meant, or about the nearest.
fn call_hint(alloc: Global, word: &str) -> Result<String, AllocError>
    ensures { IfOk result (λ hint. string_bytes hint ≡ meant_or_near_text word.now step_words) }
{
    meant_or_near(alloc, word, call_words())
}

// The words about a word that no call has.
fn no_call_words(alloc: Global, number: usize, word: &str) -> Result<String, AllocError>
    ensures { IfOk result (λ words. string_bytes words ≡ no_call_text number word.now) }
{
    let hint = call_hint(alloc, word)?;
    format!(in alloc; "step {number}: there is no call \"{word}\"{hint}")
}

// Notes the faults of a step with this word.
fn note_word(
    alloc: Global,
    finding: &mut Finding<'_>,
    number: usize,
    items: &[Item],
    call: Item,
    word: &str,
) -> Result<(), AllocError>
    ensures told { OnOk result (Adds finding.old finding.new (word_faults finding.old.text.now number items.now call word.now (own_keys word.now))) }
    ensures steps { OnOk result (are_of_steps finding.old.found.items ≡ true → are_of_steps finding.new.found.items ≡ true) }
{
    match keys_of(word) {
        Some(keys) => note_keys(alloc, finding, number, items, word, keys, call.key.0),
        None => {
            let words = no_call_words(alloc, number, word)?;
            finding.note(fault_of(number), call.value.0, words)
        }
    }
}

// The words about a step without a word.
#[tactic(auto, unfolding(crate::specs::Steps::no_word_text))]
fn no_word_words(alloc: Global, number: usize) -> Result<String, AllocError>
    ensures { IfOk result (λ words. string_bytes words ≡ no_word_text number) }
{
    format!(in alloc; "step {number}: there is no key \"do\"")
}

// Notes the faults of a step that can't be read.
fn note_step(
    alloc: Global,
    finding: &mut Finding<'_>,
    number: usize,
    items: &[Item],
    at: usize,
) -> Result<(), AllocError>
    ensures told { OnOk result (Adds finding.old finding.new (call_faults finding.old.text.now number items.now at (steps.item_at finding.old.text.now items.now (codes "do")))) }
    ensures steps { OnOk result (are_of_steps finding.old.found.items ≡ true → are_of_steps finding.new.found.items ≡ true) }
{
    match item_at(finding.text, items, "do") {
        Some(call) => {
            let word = named(finding.text, call.value);
            note_word(alloc, finding, number, items, call, word)
        }
        None => {
            let words = no_word_words(alloc, number)?;
            finding.note(fault_of(number), at, words)
        }
    }
}

// The words about a step of which nothing else is known.
#[tactic(auto, unfolding(crate::specs::Steps::unread_text))]
fn unread_words(alloc: Global, number: usize) -> Result<String, AllocError>
    ensures { IfOk result (λ words. string_bytes words ≡ unread_text number) }
{
    format!(in alloc; "step {number} can't be read")
}

// Notes a step of which nothing else is known.
fn note_unread(
    alloc: Global,
    finding: &mut Finding<'_>,
    number: usize,
    at: usize,
) -> Result<(), AllocError>
    ensures told { OnOk result (Adds finding.old finding.new (step_told finding.old.text.now number at (unread_text number) ∷ [])) }
    ensures steps { OnOk result (are_of_steps finding.old.found.items ≡ true → are_of_steps finding.new.found.items ≡ true) }
{
    let words = unread_words(alloc, number)?;
    finding.note(fault_of(number), at, words)
}

/// The place of a step's first key.
pub fn first_byte(items: &[Item]) -> usize
    ensures { result ≡ steps.first_byte items.now }
{
    match items {
        [] => 0,
        [first, ..] => first.key.0,
    }
}

/// Notes the faults of a step, where it can't be read.
pub fn check_step(
    alloc: Global,
    finding: &mut Finding<'_>,
    number: usize,
    items: &[Item],
) -> Result<(), AllocError>
    ensures told { OnOk result (Adds finding.old finding.new (step_faults finding.old.text.now number items.now)) }
    ensures steps { OnOk result (are_of_steps finding.old.found.items ≡ true → are_of_steps finding.new.found.items ≡ true) }
{
    if is_step(alloc, finding.text, items)? {
        return Ok(());
    }
    let before = finding.found.len();
    let at = first_byte(items);
    note_step(alloc, finding, number, items, at)?;
    if finding.found.len() > before {
        return Ok(());
    }
    note_unread(alloc, finding, number, at)?;
    Ok(())
}
