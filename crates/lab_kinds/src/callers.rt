//! The faults of a text of callers.
ghost use Rattle.std.specs.Prelude.{◌≡◌, flat_map, map, option_map, string_bytes, true, IfOk, OnOk};
ghost use Rattle.lab_faults.specs.Faults.{are_of_steps};
ghost use Rattle.lab_faults.specs.Told.{Adds, fault_told};
ghost use Rattle.lab_kinds.specs.Callers as callers;
ghost use Rattle.lab_kinds.specs.Callers.{CallersFind, CallersTell, TellsCallers, all_callers_step_faults, callers_board_faults, callers_item_faults, callers_step_faults, faults_by, own_field_faults, own_step_faults, step_place, word_keys, word_name};

use crate::tables::{check_all_missing, check_field};
use crate::words::{fits_staxes, own_keys};
use evl_scenario::Fault;
use lab_callers_text::read_callers;
use lab_faults::{
    Finding, Found, Item, Items, check_headings, check_item, check_step, check_threads, fault_of,
    first_byte, first_number, found_in_text, is_of_board, item_at, items_of, led_by, named,
    run_length, shown,
};
use std::alloc::{AllocError, Global};

// Whether a key has the limits of staxes.
fn is_staxes(text: &[u8], item: Item) -> bool
    ensures { result ≡ callers.is_staxes text.now item }
{
    is_of_board(item.section) && named(text, item.key) == "staxes"
}

// The words about such limits that can't be read.
fn staxes_words(alloc: Global, value: &str) -> Result<String, AllocError>
    ensures { IfOk result (λ words. string_bytes words ≡ callers.staxes_text value.now) }
{
    format!(in alloc; "staxes = {value}: a list of at most 16 numbers from 1 to 1000 is wanted")
}

// Notes limits of staxes that can't be read.
fn check_staxes(alloc: Global, finding: &mut Finding<'_>, item: Item) -> Result<(), AllocError>
    ensures { OnOk result (Adds finding.old finding.new (callers.staxes_faults finding.old.text.now item)) }
{
    let value = shown(finding.text, item.value);
    if fits_staxes(alloc, value.as_bytes())? {
        return Ok(());
    }
    let words = staxes_words(alloc, value)?;
    finding.note(Fault::Board, item.value.0, words)
}

// Notes the faults of a key that is in no step.
#[tactic(auto, unfolding(crate::specs::Callers::callers_item_faults))]
fn check_own_item(alloc: Global, finding: &mut Finding<'_>, item: Item) -> Result<(), AllocError>
    ensures { OnOk result (Adds finding.old finding.new (callers_item_faults finding.old.text.now item)) }
{
    if is_staxes(finding.text, item) {
        return check_staxes(alloc, finding, item);
    }
    check_item(alloc, finding, item)
}

fn check_own_items(
    alloc: Global,
    finding: &mut Finding<'_>,
    items: &[Item],
) -> Result<(), AllocError>
    ensures { OnOk result (Adds finding.old finding.new (flat_map (callers_item_faults finding.old.text.now) items.now)) }
{
    for item in items {
        check_own_item(alloc, finding, *item)?;
    }
    Ok(())
}

// Notes the faults of the board and of what is beside it.
#[tactic(auto, unfolding(crate::specs::Callers::callers_board_faults))]
fn check_own_board(
    alloc: Global,
    finding: &mut Finding<'_>,
    items: &Items,
) -> Result<(), AllocError>
    ensures { OnOk result (Adds finding.old finding.new (callers_board_faults finding.old.text.now items.now.headings.items items.now.items.items)) }
{
    let headings = items.headings.as_slice();
    let keys = items.items.as_slice();
    check_headings(alloc, finding, headings)?;
    check_own_items(alloc, finding, keys)?;
    check_threads(alloc, finding, headings, keys)
}

// The words about a step begin with this.
#[tactic(auto, unfolding(crate::specs::Callers::step_place))]
fn place_of(alloc: Global, number: usize, word: &str) -> Result<String, AllocError>
    ensures { IfOk result (λ place. string_bytes place ≡ step_place number word.now) }
{
    format!(in alloc; "step {number}: {word}: ")
}

// Notes a key of a step that its word doesn't have, or a value that can't stand there.
fn check_own_field(
    alloc: Global,
    finding: &mut Finding<'_>,
    number: usize,
    place: &str,
    keys: &[&str],
    item: Item,
) -> Result<(), AllocError>
    ensures told { OnOk result (Adds finding.old finding.new (own_field_faults finding.old.text.now number place.now (map (λ key. key.now) keys.now) item)) }
    ensures steps { OnOk result (are_of_steps finding.old.found.items ≡ true → are_of_steps finding.new.found.items ≡ true) }
{
    if named(finding.text, item.key) == "do" {
        return Ok(());
    }
    check_field(alloc, finding, fault_of(number), place, keys, item)
}

fn check_own_fields(
    alloc: Global,
    finding: &mut Finding<'_>,
    number: usize,
    place: &str,
    keys: &[&str],
    items: &[Item],
) -> Result<(), AllocError>
    ensures told { OnOk result (Adds finding.old finding.new (flat_map (own_field_faults finding.old.text.now number place.now (map (λ key. key.now) keys.now)) items.now)) }
    ensures steps { OnOk result (are_of_steps finding.old.found.items ≡ true → are_of_steps finding.new.found.items ≡ true) }
{
    for item in items {
        check_own_field(alloc, finding, number, place, keys, *item)?;
    }
    Ok(())
}

// Notes the faults of a step with a word that callers alone have.
#[tactic(auto, unfolding(crate::specs::Callers::own_step_faults))]
fn check_own_step(
    alloc: Global,
    finding: &mut Finding<'_>,
    number: usize,
    items: &[Item],
    word: &str,
    keys: &[&str],
) -> Result<(), AllocError>
    ensures told { OnOk result (Adds finding.old finding.new (own_step_faults finding.old.text.now number items.now word.now (map (λ key. key.now) keys.now))) }
    ensures steps { OnOk result (are_of_steps finding.old.found.items ≡ true → are_of_steps finding.new.found.items ≡ true) }
{
    let place = place_of(alloc, number, word)?;
    let place = place.as_str();
    check_own_fields(alloc, finding, number, place, keys, items)?;
    check_all_missing(
        alloc,
        finding,
        fault_of(number),
        place,
        items,
        first_byte(items),
        keys,
    )
}

// The word of a step.
fn word_of<'a>(text: &'a [u8], call: Option<Item>) -> &'a str
    ensures { result.now ≡ word_name text.now call }
{
    match call {
        Some(call) => named(text, call.value),
        None => "",
    }
}

// The keys of a step, if callers alone have its word.
fn keys_in(text: &[u8], call: Option<Item>) -> Option<&'static [&'static str]>
    ensures { option_map (λ keys. map (λ key. key.now) keys.now) result ≡ word_keys text.now call }
{
    match call {
        Some(call) => own_keys(named(text, call.value)),
        None => None,
    }
}

// Notes the faults of a step by that.
fn check_by(
    alloc: Global,
    finding: &mut Finding<'_>,
    number: usize,
    items: &[Item],
    word: &str,
    keys: Option<&[&str]>,
) -> Result<(), AllocError>
    ensures told { OnOk result (Adds finding.old finding.new (faults_by finding.old.text.now number items.now word.now (option_map (λ keys. map (λ key. key.now) keys.now) keys.entry))) }
    ensures steps { OnOk result (are_of_steps finding.old.found.items ≡ true → are_of_steps finding.new.found.items ≡ true) }
{
    match keys {
        Some(keys) => check_own_step(alloc, finding, number, items, word, keys),
        None => check_step(alloc, finding, number, items),
    }
}

// Notes the faults of keys that stand in one step, or in none.
#[tactic(auto, unfolding(crate::specs::Callers::callers_step_faults))]
fn check_run(alloc: Global, finding: &mut Finding<'_>, items: &[Item]) -> Result<(), AllocError>
    ensures told { OnOk result (Adds finding.old finding.new (callers_step_faults finding.old.text.now items.now)) }
    ensures steps { OnOk result (are_of_steps finding.old.found.items ≡ true → are_of_steps finding.new.found.items ≡ true) }
{
    let number = first_number(items);
    if number == 0 {
        return Ok(());
    }
    let call = item_at(finding.text, items, "do");
    let word = word_of(finding.text, call);
    let keys = keys_in(finding.text, call);
    check_by(alloc, finding, number, items, word, keys)
}

// Notes the faults of all steps.
fn check_own_steps(
    alloc: Global,
    finding: &mut Finding<'_>,
    items: &[Item],
) -> Result<(), AllocError>
    ensures told { OnOk result (Adds finding.old finding.new (all_callers_step_faults finding.old.text.now items.now)) }
    ensures steps { OnOk result (are_of_steps finding.old.found.items ≡ true → are_of_steps finding.new.found.items ≡ true) }
{
    let mut rest = items;
    while !rest.is_empty() {
        let (own, behind) = rest.split_at(run_length(rest));
        check_run(alloc, finding, own)?;
        rest = behind;
    }
    Ok(())
}

// The faults of the board, of what is beside it, and of the steps.
fn found_in_board(alloc: Global, text: &[u8]) -> Result<Vec<Found>, AllocError>
    ensures { IfOk result (λ found. map fault_told found.items ≡ callers.faults_in_all text.now) }
{
    let mut finding = Finding {
        text,
        found: Vec::new(alloc),
    };
    let items = items_of(alloc, text)?;
    check_own_board(alloc, &mut finding, &items)?;
    check_own_steps(alloc, &mut finding, items.items.as_slice())?;
    let Finding { text: _, found } = finding;
    Ok(found)
}

// The faults of the steps.
fn found_in_steps(alloc: Global, text: &[u8]) -> Result<Vec<Found>, AllocError>
    ensures { IfOk result (λ found. map fault_told found.items ≡ callers.faults_in_steps text.now) }
{
    let mut finding = Finding {
        text,
        found: Vec::new(alloc),
    };
    let items = items_of(alloc, text)?;
    check_own_steps(alloc, &mut finding, items.items.as_slice())?;
    let Finding { text: _, found } = finding;
    Ok(found)
}

// All faults that are found in a text that was refused for this one.
fn all_found(alloc: Global, text: &[u8], fault: Fault) -> Result<Vec<Found>, AllocError>
    ensures { IfOk result (λ found. CallersFind text.now fault (map fault_told found.items)) }
{
    match fault {
        Fault::Text => found_in_text(alloc, text),
        Fault::Board => found_in_board(alloc, text),
        Fault::Step(_) => found_in_steps(alloc, text),
        Fault::Memory | Fault::Write => Err(AllocError),
    }
}

/// The faults of a text that was refused for this one, which is the first of them. `AllocError` where memory couldn't
/// grow.
pub(crate) fn explain(alloc: Global, text: &[u8], fault: Fault) -> Result<Vec<Found>, AllocError>
    ensures { IfOk result (λ found. CallersTell text.now fault (map fault_told found.items)) }
{
    let found = all_found(alloc, text, fault)?;
    let all = led_by(alloc, fault, found)?;
    Ok(all)
}

/// The faults of a text of callers, each with its place and what was wanted: none only where the text is read as one.
/// The first is the one that it is refused for. `AllocError` where memory couldn't grow.
pub fn check_callers(alloc: Global, text: &[u8]) -> Result<Vec<Found>, AllocError>
    ensures { IfOk result (λ found. TellsCallers text.now (map fault_told found.items)) }
{
    match read_callers(alloc, text, None) {
        Ok(read) => {
            drop(read);
            Ok(Vec::new(alloc))
        }
        Err(fault) => {
            let found = explain(alloc, text, fault)?;
            Ok(found)
        }
    }
}
