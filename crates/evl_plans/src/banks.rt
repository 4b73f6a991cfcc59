//! Banks, read from text.
ghost use Rattle.std.specs.Prelude.{◌≡◌, ◌⊎◌, ◌≤◌, length, map, Some, None, Ok, Err, if◌then◌else◌, option_map, codes, IfOk, IfErr};
ghost use Rattle.std.specs.Str.{is_utf8};
ghost use Rattle.toml.specs.Data.{get_member};
ghost use Rattle.toml.specs.Parse.{parse_document};
ghost use Rattle.toml.specs.View.{items_view, table_view};
ghost use Rattle.evl_plans.specs.Banks.{bank_in, bank_of, callbacks_at, callbacks_from, document_bank};
ghost use Rattle.evl_plans.specs.Told.{handler_of};

use crate::callbacks::read_callback_at;
use crate::faults::BankFault;
use crate::planned::Planned;
use evl_scenario::{field, has_only_keys};
use std::alloc::Global;
use toml::{Table, Value};

// The callbacks that these values stand for.
fn read_callbacks(alloc: Global, values: &[Value]) -> Result<Vec<Planned>, BankFault>
    ensures ok { IfOk result (λ bank. callbacks_from 0 (items_view values.now) ≡ Ok (map handler_of bank.items)) }
    ensures few { IfOk result (λ bank. length bank.items ≤ 64) }
    ensures err { IfErr result (λ e. (e ≡ BankFault.Memory) ⊎ (callbacks_from 0 (items_view values.now) ≡ Err e)) }
{
    let mut bank = Vec::new(alloc);
    for (i, value) in values.iter().enumerate() {
        let planned = match read_callback_at(i, value) {
            Ok(planned) => planned,
            Err(part) => return Err(BankFault::Callback(i, part)),
        };
        match bank.push(planned) {
            Ok(()) => {}
            Err(_) => return Err(BankFault::Memory),
        }
    }
    Ok(bank)
}

// The callbacks at the key `callback`.
fn callbacks_at(alloc: Global, table: &Table) -> Result<Vec<Planned>, BankFault>
    ensures ok { IfOk result (λ bank. callbacks_at (get_member (codes "callback") (table_view table.now)) ≡ Ok (map handler_of bank.items)) }
    ensures few { IfOk result (λ bank. length bank.items ≤ 64) }
    ensures err { IfErr result (λ e. (e ≡ BankFault.Memory) ⊎ (callbacks_at (get_member (codes "callback") (table_view table.now)) ≡ Err e)) }
{
    match field(table, "callback") {
        None => Ok(Vec::new(alloc)),
        Some(value) => match value.as_array() {
            None => Err(BankFault::Document),
            Some(values) => read_callbacks(alloc, values.as_slice()),
        },
    }
}

// The bank of a document.
fn read_document(alloc: Global, table: &Table) -> Result<Vec<Planned>, BankFault>
    ensures ok { IfOk result (λ bank. bank_in (table_view table.now) ≡ Ok (map handler_of bank.items)) }
    ensures few { IfOk result (λ bank. length bank.items ≤ 64) }
    ensures err { IfErr result (λ e. (e ≡ BankFault.Memory) ⊎ (bank_in (table_view table.now) ≡ Err e)) }
{
    if has_only_keys(table, &["callback"]) {
        callbacks_at(alloc, table)
    } else {
        Err(BankFault::Document)
    }
}

// The text that these bytes are.
fn text_of(bytes: &[u8]) -> Option<&str>
    ensures { option_map (λ text. text.now) result ≡ (if is_utf8 bytes.now then Some bytes.now else None) }
{
    match str::from_utf8(bytes) {
        Ok(text) => Some(text),
        Err(_) => None,
    }
}

// The bank that a text in UTF-8 is.
fn read_text(alloc: Global, text: &str) -> Result<Vec<Planned>, BankFault>
    ensures ok { IfOk result (λ bank. document_bank (parse_document text.now) ≡ Ok (map handler_of bank.items)) }
    ensures few { IfOk result (λ bank. length bank.items ≤ 64) }
    ensures err { IfErr result (λ e. (e ≡ BankFault.Memory) ⊎ (document_bank (parse_document text.now) ≡ Err e)) }
{
    match toml::table_from_str(alloc, text) {
        Ok(table) => read_document(alloc, &table),
        Err(e) => {
            if e.is_memory() {
                Err(BankFault::Memory)
            } else {
                Err(BankFault::Text)
            }
        }
    }
}

/// The bank that a text asks for: a callback for each table `[[callback]]`, in order, numbered from 0, at most 64.
/// `Text` for other bytes than UTF-8 or no document, `Document` for another key, `Callback` for the first that can't be
/// read; `Memory` where a growth was refused.
pub fn read_bank(alloc: Global, text: &[u8]) -> Result<Vec<Planned>, BankFault>
    ensures ok { IfOk result (λ bank. bank_of text.now ≡ Ok (map handler_of bank.items)) }
    ensures few { IfOk result (λ bank. length bank.items ≤ 64) }
    ensures err { IfErr result (λ e. (e ≡ BankFault.Memory) ⊎ (bank_of text.now ≡ Err e)) }
{
    match text_of(text) {
        Some(text) => read_text(alloc, text),
        None => Err(BankFault::Text),
    }
}
