//! The faults of a board, and of what is beside it.
ghost use Rattle.std.specs.Prelude.{◌≡◌, flat_map, string_bytes, IfOk, OnOk};
ghost use Rattle.std.specs.List.{list_any};
ghost use Rattle.lab_faults.specs.Boards as boards;
ghost use Rattle.lab_faults.specs.Boards.{board_faults, board_item_faults, heading_faults, heading_text, item_faults, no_board_key_text, no_key_text, no_threads_text, opening_item_faults, threads_faults, value_faults, value_text};
ghost use Rattle.lab_faults.specs.Steps as steps;
ghost use Rattle.lab_faults.specs.Told.{Adds};
ghost use Rattle.lab_faults.specs.Wants as words;

use crate::found::Finding;
use crate::items::{Heading, Item, Items, Section};
use crate::judges::{fits_board, fits_limit};
use crate::near::near_text;
use crate::steps::{is_among, named, shown};
use crate::wants::{board_keys, board_wanted, opening_keys};
use evl_scenario::Fault;
use std::alloc::{AllocError, Global};

// The words about a near key beside the board.
fn opening_hint(alloc: Global, name: &str) -> Result<String, AllocError>
    ensures { IfOk result (λ hint. string_bytes hint ≡ words.hint_text name.now words.opening_keys) }
{
    near_text(alloc, name, opening_keys())
}

// The words about a key that is above the board, or about a near key of the board.
fn aside(alloc: Global, key: &str) -> Result<String, AllocError>
    ensures { IfOk result (λ hint. string_bytes hint ≡ boards.aside_text key.now) }
{
    if key == "limit" || key == "step" {
        return format!(in alloc; "; it stands above [board]");
    }
    near_text(alloc, key, board_keys())
}

// The words about a table that there isn't.
fn no_table(alloc: Global, name: &str) -> Result<String, AllocError>
    ensures { IfOk result (λ text. string_bytes text ≡ boards.no_table_text name.now) }
{
    let hint = opening_hint(alloc, name)?;
    format!(in alloc; "there is no table \"{name}\"{hint} (tables: board, step)")
}

// The words about a heading that a scenario doesn't have.
#[tactic(auto, unfolding(crate::specs::Boards::heading_text))]
fn heading_words(alloc: Global, name: &str) -> Result<String, AllocError>
    ensures { IfOk result (λ text. string_bytes text ≡ heading_text name.now) }
{
    match name {
        "step" => format!(in alloc; "a step is headed [[step]]"),
        "board" => format!(in alloc; "the board is headed [board]"),
        "setup" | "setups" => {
            format!(in alloc; "a step that is set up is headed [[setup]], on a line of its own")
        }
        "ask" => format!(in alloc; "what is asked is headed [ask], on a line of its own"),
        _ => no_table(alloc, name),
    }
}

// The words about a key that the board doesn't have.
fn no_board_key(alloc: Global, key: &str) -> Result<String, AllocError>
    ensures { IfOk result (λ text. string_bytes text ≡ no_board_key_text key.now) }
{
    let hint = aside(alloc, key)?;
    format!(in alloc;
        "the board has no key \"{key}\"{hint} (keys: threads, sems, flags, xbufs, mutexes, groups)"
    )
}

// The words about a key of no table that may be beside the board.
fn unknown_key(alloc: Global, key: &str) -> Result<String, AllocError>
    ensures { IfOk result (λ text. string_bytes text ≡ boards.unknown_key_text key.now) }
{
    let hint = opening_hint(alloc, key)?;
    format!(in alloc; "there is no key \"{key}\"{hint} (keys: limit, board, step)")
}

// Whether a key is a table of a text for orders, which is headed.
fn is_of_orders(key: &str) -> bool
    ensures { result ≡ boards.is_of_orders key.now }
{
    matches!(key, "setup" | "setups" | "ask")
}

// The words about a key that isn't beside the board.
#[tactic(auto, unfolding(crate::specs::Boards::no_key_text))]
fn no_key(alloc: Global, key: &str) -> Result<String, AllocError>
    ensures { IfOk result (λ text. string_bytes text ≡ no_key_text key.now) }
{
    if is_of_orders(key) {
        heading_words(alloc, key)
    } else {
        unknown_key(alloc, key)
    }
}

// The words about a value that can't be at its key.
fn value_words(alloc: Global, key: &str, value: &str) -> Result<String, AllocError>
    ensures { IfOk result (λ text. string_bytes text ≡ value_text key.now value.now) }
{
    let want = board_wanted(alloc, key)?;
    format!(in alloc; "{key} = {value}: {want} is wanted")
}

// The words where the board doesn't say how many threads there are.
fn no_threads(alloc: Global) -> Result<String, AllocError>
    ensures { IfOk result (λ text. string_bytes text ≡ no_threads_text) }
{
    let want = board_wanted(alloc, "threads")?;
    format!(in alloc; "the board needs a key \"threads\": {want} is wanted there")
}

// Notes a heading that a scenario doesn't have.
#[tactic(auto, unfolding(crate::specs::Boards::heading_faults))]
fn check_heading(
    alloc: Global,
    finding: &mut Finding<'_>,
    heading: Heading,
) -> Result<(), AllocError>
    ensures { OnOk result (Adds finding.old finding.new (heading_faults finding.old.text.now heading)) }
{
    match heading.section {
        Section::Other => {
            let words = heading_words(alloc, named(finding.text, heading.name))?;
            finding.note(Fault::Board, heading.name.0, words)
        }
        _ => Ok(()),
    }
}

/// Notes a value of a board that can't be at its key.
#[tactic(auto, unfolding(crate::specs::Boards::value_faults))]
pub fn check_value(
    alloc: Global,
    finding: &mut Finding<'_>,
    item: Item,
    fits: bool,
) -> Result<(), AllocError>
    ensures { OnOk result (Adds finding.old finding.new (value_faults finding.old.text.now item fits)) }
{
    if fits {
        return Ok(());
    }
    let key = named(finding.text, item.key);
    let words = value_words(alloc, key, shown(finding.text, item.value))?;
    finding.note(Fault::Board, item.value.0, words)
}

// Whether a key is one of the board.
fn is_board_key(key: &str) -> bool
    ensures { result ≡ steps.is_among words.board_keys key.now }
{
    is_among(board_keys(), key)
}

// Notes a key that isn't in the board, or a value that can't.
#[tactic(auto, unfolding(crate::specs::Boards::board_item_faults))]
fn check_board_item(alloc: Global, finding: &mut Finding<'_>, item: Item) -> Result<(), AllocError>
    ensures { OnOk result (Adds finding.old finding.new (board_item_faults finding.old.text.now item)) }
{
    let key = named(finding.text, item.key);
    if !is_board_key(key) {
        let words = no_board_key(alloc, key)?;
        return finding.note(Fault::Board, item.key.0, words);
    }
    let value = shown(finding.text, item.value);
    let fits = fits_board(alloc, key.as_bytes(), value.as_bytes())?;
    check_value(alloc, finding, item, fits)
}

// Whether a key may be beside the board.
fn is_opening_key(key: &str) -> bool
    ensures { result ≡ boards.may_open key.now }
{
    is_among(opening_keys(), key) || key.as_bytes().starts_with(b"board.")
}

// Whether a value can be at a key beside the board.
fn fits_opening(alloc: Global, key: &str, value: &str) -> Result<bool, AllocError>
    ensures { IfOk result (λ fits. fits ≡ boards.fits_opening key.now value.now) }
{
    if key != "limit" {
        return Ok(true);
    }
    fits_limit(alloc, value.as_bytes())
}

// Notes a key that isn't beside the board, or a limit that can't.
#[tactic(auto, unfolding(crate::specs::Boards::opening_item_faults))]
fn check_opening_item(
    alloc: Global,
    finding: &mut Finding<'_>,
    item: Item,
) -> Result<(), AllocError>
    ensures { OnOk result (Adds finding.old finding.new (opening_item_faults finding.old.text.now item)) }
{
    let key = named(finding.text, item.key);
    if !is_opening_key(key) {
        let words = no_key(alloc, key)?;
        return finding.note(Fault::Board, item.key.0, words);
    }
    let fits = fits_opening(alloc, key, shown(finding.text, item.value))?;
    check_value(alloc, finding, item, fits)
}

/// Notes the faults of a key with its value that is in no step.
pub fn check_item(alloc: Global, finding: &mut Finding<'_>, item: Item) -> Result<(), AllocError>
    ensures { OnOk result (Adds finding.old finding.new (item_faults finding.old.text.now item)) }
{
    match item.section {
        Section::Board => check_board_item(alloc, finding, item),
        Section::Opening => check_opening_item(alloc, finding, item),
        _ => Ok(()),
    }
}

/// Whether this is the board.
pub fn is_of_board(section: Section) -> bool
    ensures { result ≡ boards.is_of_board section }
{
    matches!(section, Section::Board)
}

// Whether a key says how many threads there are.
fn is_threads(text: &[u8], item: Item) -> bool
    ensures { result ≡ boards.is_threads text.now item }
{
    let key = named(text, item.key);
    (is_of_board(item.section) && key == "threads") || key == "board.threads"
}

// Whether the board says how many threads there are.
fn has_threads(text: &[u8], items: &[Item]) -> bool
    ensures { result ≡ list_any (boards.is_threads text.now) items.now }
{
    for item in items {
        if is_threads(text, *item) {
            return true;
        }
    }
    false
}

fn first_heading(headings: &[Heading]) -> usize
    ensures { result ≡ boards.first_heading headings.now }
{
    match headings {
        [] => 0,
        [first, ..] => first.name.0,
    }
}

/// Notes that the board doesn't say how many threads there are.
#[tactic(auto, unfolding(crate::specs::Boards::threads_faults))]
pub fn check_threads(
    alloc: Global,
    finding: &mut Finding<'_>,
    headings: &[Heading],
    items: &[Item],
) -> Result<(), AllocError>
    ensures { OnOk result (Adds finding.old finding.new (threads_faults finding.old.text.now headings.now items.now)) }
{
    if has_threads(finding.text, items) {
        return Ok(());
    }
    let words = no_threads(alloc)?;
    finding.note(Fault::Board, first_heading(headings), words)
}

/// Notes the headings that a scenario doesn't have.
pub fn check_headings(
    alloc: Global,
    finding: &mut Finding<'_>,
    headings: &[Heading],
) -> Result<(), AllocError>
    ensures { OnOk result (Adds finding.old finding.new (flat_map (heading_faults finding.old.text.now) headings.now)) }
{
    for heading in headings {
        check_heading(alloc, finding, *heading)?;
    }
    Ok(())
}

fn check_items(alloc: Global, finding: &mut Finding<'_>, items: &[Item]) -> Result<(), AllocError>
    ensures { OnOk result (Adds finding.old finding.new (flat_map (item_faults finding.old.text.now) items.now)) }
{
    for item in items {
        check_item(alloc, finding, *item)?;
    }
    Ok(())
}

/// Notes the faults of the board and of what is beside it. `AllocError` where memory couldn't grow.
#[tactic(auto, unfolding(crate::specs::Boards::board_faults))]
pub fn check_board(
    alloc: Global,
    finding: &mut Finding<'_>,
    items: &Items,
) -> Result<(), AllocError>
    ensures { OnOk result (Adds finding.old finding.new (board_faults finding.old.text.now items.now.headings.items items.now.items.items)) }
{
    let headings = items.headings.as_slice();
    let keys = items.items.as_slice();
    check_headings(alloc, finding, headings)?;
    check_items(alloc, finding, keys)?;
    check_threads(alloc, finding, headings, keys)
}
