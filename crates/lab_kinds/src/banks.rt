//! The faults of a bank.
ghost use Rattle.std.specs.Prelude.{◌≡◌, ◌≢◌, drop, flat_map, map, option_map, string_bytes, IfOk, OnOk};
ghost use Rattle.lab_faults.specs.Told.{Adds, fault_told};
ghost use Rattle.lab_kinds.specs.Banks as banks;
ghost use Rattle.lab_kinds.specs.Banks.{BankFinds, BankTells, bank_fault_text, bank_faults, bank_heading_faults, bank_key_faults, bank_keys_faults, known_key_faults, no_callback_text, or_whole, row_key_faults, row_place, whole_faults};

use crate::kinds::{is_headed, is_top};
use crate::rows::rows_of;
use crate::tables::check_field;
use crate::words::{callback_keys, row_keys};
use evl_plans::{BankFault, Part, read_bank};
use evl_scenario::Fault;
use lab_faults::{Finding, Found, Heading, Item, found_in_text, items_of, named};
use std::alloc::{AllocError, Global};

// The words about a table that a bank doesn't have.
#[tactic(auto, unfolding(crate::specs::Banks::no_callback_text))]
fn no_callback_words(alloc: Global, name: &str) -> Result<String, AllocError>
    ensures { IfOk result (λ words. string_bytes words ≡ no_callback_text name.now) }
{
    format!(in alloc; "there is no table \"{name}\" in a bank (tables: [[callback]])")
}

// The words about a key in a row begin with this.
#[tactic(auto, unfolding(crate::specs::Banks::row_place))]
fn row_words(alloc: Global, row: usize) -> Result<String, AllocError>
    ensures { IfOk result (λ place. string_bytes place ≡ row_place row) }
{
    format!(in alloc; "row {row}: ")
}

// The words about a row as a whole.
#[tactic(auto, unfolding(crate::specs::Banks::bank_fault_text))]
fn whole_row_words(alloc: Global, number: usize, row: usize) -> Result<String, AllocError>
    ensures { IfOk result (λ words. string_bytes words ≡ bank_fault_text (BankFault.Callback number (Part.Row row))) }
{
    if row > 4 {
        return format!(in alloc; "callback {number}: row {row}: at most four rows are allowed");
    }
    format!(in alloc;
        "callback {number}: row {row}: just one of post_sem, post_flags with bits, propagate, post_oob and stop_timer is wanted"
    )
}

// The words about a callback as a whole.
#[tactic(auto, unfolding(crate::specs::Banks::bank_fault_text))]
fn whole_words(alloc: Global, number: usize, part: Part) -> Result<String, AllocError>
    ensures { IfOk result (λ words. string_bytes words ≡ bank_fault_text (BankFault.Callback number part)) }
{
    match part {
        Part::Keys => {
            format!(in alloc;
                "callback {number}: a table with no keys but accepts and do is wanted, at most 64 of them"
            )
        }
        Part::Accepts => format!(in alloc; "callback {number}: accepts can't be read"),
        Part::Rows => format!(in alloc;
            "callback {number}: do: a list of rows in braces is wanted"
        ),
        Part::Row(row) => whole_row_words(alloc, number, row),
    }
}

// The words about a bank as a whole.
#[tactic(auto, unfolding(crate::specs::Banks::bank_fault_text))]
fn bank_words(alloc: Global, fault: BankFault) -> Result<String, AllocError>
    ensures { IfOk result (λ words. string_bytes words ≡ bank_fault_text fault) }
{
    match fault {
        BankFault::Text => format!(in alloc; "the text can't be read"),
        BankFault::Memory => format!(in alloc; "no memory"),
        BankFault::Document => {
            format!(in alloc; "tables [[callback]] are wanted, and nothing else")
        }
        BankFault::Callback(number, part) => whole_words(alloc, number, part),
    }
}

// Notes a heading that a bank doesn't have.
#[tactic(auto, unfolding(crate::specs::Banks::bank_heading_faults))]
fn check_heading(
    alloc: Global,
    finding: &mut Finding<'_>,
    heading: Heading,
) -> Result<(), AllocError>
    ensures { OnOk result (Adds finding.old finding.new (bank_heading_faults finding.old.text.now heading)) }
{
    if is_headed(finding.text, "callback", heading) {
        return Ok(());
    }
    let words = no_callback_words(alloc, named(finding.text, heading.name))?;
    finding.note(Fault::Board, heading.name.0, words)
}

fn check_headings(
    alloc: Global,
    finding: &mut Finding<'_>,
    headings: &[Heading],
) -> Result<(), AllocError>
    ensures { OnOk result (Adds finding.old finding.new (flat_map (bank_heading_faults finding.old.text.now) headings.now)) }
{
    for heading in headings {
        check_heading(alloc, finding, *heading)?;
    }
    Ok(())
}

// Notes the faults of a key in a row.
fn check_in_row(
    alloc: Global,
    finding: &mut Finding<'_>,
    row: usize,
    item: Item,
) -> Result<(), AllocError>
    ensures { OnOk result (Adds finding.old finding.new (row_key_faults finding.old.text.now row item)) }
{
    let place = row_words(alloc, row)?;
    check_field(
        alloc,
        finding,
        Fault::Board,
        place.as_str(),
        row_keys(),
        item,
    )
}

// Notes the faults of a key in this row, or in none.
#[tactic(auto, unfolding(crate::specs::Banks::bank_key_faults))]
fn check_key(
    alloc: Global,
    finding: &mut Finding<'_>,
    row: usize,
    item: Item,
) -> Result<(), AllocError>
    ensures { OnOk result (Adds finding.old finding.new (bank_key_faults finding.old.text.now row item)) }
{
    if is_top(finding.text, "callback", item) {
        return Ok(());
    }
    if row != 0 {
        return check_in_row(alloc, finding, row, item);
    }
    check_field(
        alloc,
        finding,
        Fault::Board,
        "a callback: ",
        callback_keys(),
        item,
    )
}

// Notes the faults of a key whose row is known.
fn check_key_at(
    alloc: Global,
    finding: &mut Finding<'_>,
    row: Option<&usize>,
    item: Item,
) -> Result<(), AllocError>
    ensures { OnOk result (Adds finding.old finding.new (known_key_faults finding.old.text.now (option_map (λ row. row.now) row.entry) item)) }
{
    match row {
        Some(row) => check_key(alloc, finding, *row, item),
        None => Ok(()),
    }
}

// Notes the faults of keys, each with its row.
fn check_keys(
    alloc: Global,
    finding: &mut Finding<'_>,
    rows: &[usize],
    items: &[Item],
) -> Result<(), AllocError>
    ensures { OnOk result (Adds finding.old finding.new (bank_keys_faults finding.old.text.now rows.now items.now)) }
{
    for (index, item) in items.iter().enumerate() {
        check_key_at(alloc, finding, rows.get(index), *item)?;
    }
    Ok(())
}

// The faults of the headings and the keys of a bank.
#[tactic(auto, unfolding(crate::specs::Banks::bank_faults))]
fn found_in_bank(alloc: Global, text: &[u8]) -> Result<Vec<Found>, AllocError>
    ensures { IfOk result (λ found. map fault_told found.items ≡ bank_faults text.now) }
{
    let mut finding = Finding {
        text,
        found: Vec::new(alloc),
    };
    let items = items_of(alloc, text)?;
    let rows = rows_of(alloc, text)?;
    check_headings(alloc, &mut finding, items.headings.as_slice())?;
    check_keys(alloc, &mut finding, rows.as_slice(), items.items.as_slice())?;
    let Finding { text: _, found } = finding;
    Ok(found)
}

// The place at which the callback with this number is headed.
fn callback_place(headings: &[Heading], number: usize) -> usize
    ensures { result ≡ banks.callback_place headings.now number }
{
    match headings.get(number) {
        Some(heading) => heading.name.0,
        None => 0,
    }
}

// The place of the second of some headings, or of the text's end.
fn second_place(text: &[u8], headings: &[Heading]) -> usize
    ensures { result ≡ banks.second_place text.now headings.now }
{
    match headings {
        [_, second, ..] => second.name.0,
        _ => text.len(),
    }
}

// The headings from one on.
fn headings_from(headings: &[Heading], number: usize) -> &[Heading]
    ensures { result.now ≡ drop number headings.now }
{
    headings.get(number..).unwrap_or(&[])
}

// Whether a key is one of a row, between two bytes.
fn is_of_row(from: usize, end: usize, row: usize, its: Option<&usize>, item: &Item) -> bool
    ensures { result ≡ banks.is_of_row from end row (option_map (λ r. r.now) its.entry) item.now }
{
    let is_its = match its {
        Some(number) => *number == row,
        None => false,
    };
    from < item.key.0 && item.key.0 < end && is_its
}

// The place of a row's first key between two bytes; the first byte, if it has none there.
fn row_start(from: usize, end: usize, row: usize, rows: &[usize], items: &[Item]) -> usize
    ensures { result ≡ banks.row_start from end row rows.now items.now }
{
    for (index, item) in items.iter().enumerate() {
        if is_of_row(from, end, row, rows.get(index), item) {
            return item.key.0;
        }
    }
    from
}

// The place at which a callback or a row as a whole is at fault.
fn fault_place(
    text: &[u8],
    headings: &[Heading],
    rows: &[usize],
    items: &[Item],
    fault: BankFault,
) -> usize
    ensures { result ≡ banks.fault_place text.now headings.now rows.now items.now fault }
{
    match fault {
        BankFault::Callback(number, Part::Row(row)) => {
            let from = callback_place(headings, number);
            let end = second_place(text, headings_from(headings, number));
            row_start(from, end, row, rows, items)
        }
        BankFault::Callback(number, _) => callback_place(headings, number),
        _ => 0,
    }
}

// The fault of a bank as a whole.
fn found_whole(alloc: Global, text: &[u8], fault: BankFault) -> Result<Vec<Found>, AllocError>
    ensures { IfOk result (λ found. map fault_told found.items ≡ whole_faults text.now fault) }
{
    let mut finding = Finding {
        text,
        found: Vec::new(alloc),
    };
    let found = items_of(alloc, text)?;
    let rows = rows_of(alloc, text)?;
    let headings = found.headings.as_slice();
    let at = fault_place(
        text,
        headings,
        rows.as_slice(),
        found.items.as_slice(),
        fault,
    );
    let words = bank_words(alloc, fault)?;
    finding.note(Fault::Board, at, words)?;
    let Finding { text: _, found } = finding;
    Ok(found)
}

// The faults of a document, or the one as a whole.
fn found_or_whole(alloc: Global, text: &[u8], fault: BankFault) -> Result<Vec<Found>, AllocError>
    ensures { IfOk result (λ found. map fault_told found.items ≡ or_whole text.now fault (bank_faults text.now)) }
{
    let found = found_in_bank(alloc, text)?;
    if found.is_empty() {
        let whole = found_whole(alloc, text, fault)?;
        return Ok(whole);
    }
    Ok(found)
}

// The faults of a text that is refused for this one.
fn explain(alloc: Global, text: &[u8], fault: BankFault) -> Result<Vec<Found>, AllocError>
    ensures told { IfOk result (λ found. BankFinds text.now fault (map fault_told found.items)) }
    ensures other { OnOk result (fault ≢ BankFault.Memory) }
{
    match fault {
        BankFault::Memory => Err(AllocError),
        BankFault::Text => found_in_text(alloc, text),
        _ => found_or_whole(alloc, text, fault),
    }
}

/// The faults of a bank, each with its place and what was wanted: there is one exactly where the bank can't be read.
/// `AllocError` where memory couldn't grow.
pub fn check_bank(alloc: Global, text: &[u8]) -> Result<Vec<Found>, AllocError>
    ensures { IfOk result (λ found. BankTells text.now (map fault_told found.items)) }
{
    match read_bank(alloc, text) {
        Ok(bank) => {
            drop(bank);
            Ok(Vec::new(alloc))
        }
        Err(fault) => {
            let found = explain(alloc, text, fault)?;
            Ok(found)
        }
    }
}
