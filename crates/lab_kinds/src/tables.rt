//! The faults of a table whose keys are known.
ghost use Rattle.std.specs.Prelude.{◌≡◌, flat_map, map, string_bytes, true, IfOk, OnOk};
ghost use Rattle.lab_faults.specs.Faults.{are_of_steps, is_of_step};
ghost use Rattle.lab_faults.specs.Told.{Adds};
ghost use Rattle.lab_kinds.specs.Tables.{field_faults, misfit_text, missing_faults, missing_text, unknown_text};

use crate::words::{fits_at, wanted_at};
use evl_scenario::Fault;
use lab_faults::{Finding, Item, is_among, is_optional, item_at, listed, named, near_text, shown};
use std::alloc::{AllocError, Global};

/// The words about a key that the table doesn't have.
#[tactic(auto, unfolding(crate::specs::Tables::unknown_text))]
pub fn unknown_words(
    alloc: Global,
    place: &str,
    keys: &[&str],
    key: &str,
) -> Result<String, AllocError>
    ensures { IfOk result (λ words. string_bytes words ≡ unknown_text place.now (map (λ key. key.now) keys.now) key.now) }
{
    let hint = near_text(alloc, key, keys)?;
    let names = listed(alloc, keys)?;
    format!(in alloc; "{place}no key \"{key}\"{hint} (keys: {names})")
}

// The words about a value that can't be at its key.
#[tactic(auto, unfolding(crate::specs::Tables::misfit_text))]
fn misfit_words(alloc: Global, place: &str, key: &str, value: &str) -> Result<String, AllocError>
    ensures { IfOk result (λ words. string_bytes words ≡ misfit_text place.now key.now value.now) }
{
    let want = wanted_at(key);
    format!(in alloc; "{place}{key} = {value}: {want} is wanted")
}

// The words about a key that is missing.
#[tactic(auto, unfolding(crate::specs::Tables::missing_text))]
fn missing_words(alloc: Global, place: &str, key: &str) -> Result<String, AllocError>
    ensures { IfOk result (λ words. string_bytes words ≡ missing_text place.now key.now) }
{
    let want = wanted_at(key);
    format!(in alloc; "{place}a key \"{key}\" is needed: {want} is wanted there")
}

/// Notes a key that the table doesn't have, or a value that can't stand at its key.
#[tactic(auto, unfolding(crate::specs::Tables::field_faults))]
pub fn check_field(
    alloc: Global,
    finding: &mut Finding<'_>,
    fault: Fault,
    place: &str,
    keys: &[&str],
    item: Item,
) -> Result<(), AllocError>
    ensures told { OnOk result (Adds finding.old finding.new (field_faults finding.old.text.now fault place.now (map (λ key. key.now) keys.now) item)) }
    ensures steps { OnOk result (is_of_step fault ≡ true → are_of_steps finding.old.found.items ≡ true → are_of_steps finding.new.found.items ≡ true) }
{
    let key = named(finding.text, item.key);
    let value = shown(finding.text, item.value);
    if !is_among(keys, key) {
        let words = unknown_words(alloc, place, keys, key)?;
        return finding.note(fault, item.key.0, words);
    }
    if fits_at(alloc, key, value.as_bytes())? {
        return Ok(());
    }
    let words = misfit_words(alloc, place, key, value)?;
    finding.note(fault, item.value.0, words)
}

// Notes a key that is missing, unless it may be.
#[tactic(auto, unfolding(crate::specs::Tables::missing_faults))]
fn check_missing(
    alloc: Global,
    finding: &mut Finding<'_>,
    fault: Fault,
    place: &str,
    items: &[Item],
    at: usize,
    key: &str,
) -> Result<(), AllocError>
    ensures told { OnOk result (Adds finding.old finding.new (missing_faults finding.old.text.now fault place.now items.now at key.now)) }
    ensures steps { OnOk result (is_of_step fault ≡ true → are_of_steps finding.old.found.items ≡ true → are_of_steps finding.new.found.items ≡ true) }
{
    if is_optional(key) || item_at(finding.text, items, key).is_some() {
        return Ok(());
    }
    let words = missing_words(alloc, place, key)?;
    finding.note(fault, at, words)
}

/// Notes the keys of these that are missing, unless they may be.
pub fn check_all_missing(
    alloc: Global,
    finding: &mut Finding<'_>,
    fault: Fault,
    place: &str,
    items: &[Item],
    at: usize,
    keys: &[&str],
) -> Result<(), AllocError>
    ensures told { OnOk result (Adds finding.old finding.new (flat_map (missing_faults finding.old.text.now fault place.now items.now at) (map (λ key. key.now) keys.now))) }
    ensures steps { OnOk result (is_of_step fault ≡ true → are_of_steps finding.old.found.items ≡ true → are_of_steps finding.new.found.items ≡ true) }
{
    for key in keys {
        check_missing(alloc, finding, fault, place, items, at, key)?;
    }
    Ok(())
}
