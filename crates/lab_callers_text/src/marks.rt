//! Steps of callers in a document, each put as the step of a scenario that has its other keys, so that the reader of
//! scenarios reads these.
ghost use Rattle.std.specs.Prelude.{◌≡◌, ◌⊎◌, IfErr, IfOk, IfSome, OnOk, None, Some, codes, false, option_map, string_bytes};
ghost use Rattle.std.specs.List.{list_all};
ghost use Rattle.toml.specs.Data.{string};
ghost use Rattle.toml.specs.View.{table_view, view};
ghost use Rattle.evl_base.specs.Limits.{is_within};
ghost use Rattle.lab_callers_text.specs.Documents.{is_put, mark_in, mark_view, marked_word, moved_member, numbered_member, step_as, table_with, unnamed, word_in};
ghost use Rattle.lab_callers_text.specs.Marks.{act_of, named_act, plain_act};
ghost use Rattle.lab_callers_text.specs.Names.{is_letter, is_name, name_at, pass_named};
ghost use Rattle.lab_callers_text.specs.Tables.{with_value, without};
ghost use Rattle.lab_callers_text.specs.StepWords.{name_key, number_key};

use crate::acts::Act;
use crate::step_words::{OwnWord, own_word};
use crate::tables::{field, put, take};
use evl_base::{Call, MutexId, StaxId};
use std::alloc::Global;
use toml::{Table, Value};

/// The word of a step that was put so, and the name in it.
#[derive(Drop)]
pub struct Mark {
    word: OwnWord,
    name: Option<String>,
}

/// Why a step wasn't put so.
#[derive(Clone, Copy, PartialEq, Eq)]
pub enum MarkFault {
    /// A key of its word is missing, has a value that it can't have, or is beside another of the same meaning.
    Step,
    /// A growth was refused.
    Memory,
}

// Longer names are refused.
const MOST_LETTERS: usize = 32;

fn is_letter(byte: u8) -> bool
    ensures { result ≡ is_letter byte }
{
    byte.is_ascii_alphanumeric() || byte == b'_' || byte == b'-'
}

// Whether each of these is a letter.
fn are_letters(bytes: &[u8]) -> bool
    ensures { result ≡ list_all is_letter bytes.now }
{
    bytes.iter().all(|byte| is_letter(*byte))
}

// Whether a name may have so many letters.
fn is_length(letters: usize) -> bool
    ensures { result ≡ is_within 1 32 letters }
{
    1 <= letters && letters <= MOST_LETTERS
}

// Whether a text can be a name.
fn is_name(text: &str) -> bool
    ensures { result ≡ is_name text.now }
{
    is_length(text.len()) && are_letters(text.as_bytes())
}

// The word of a step, if it isn't that of a call of the kernel.
fn word_at(table: &Table) -> Option<OwnWord>
    ensures { result ≡ word_in (table_view table.now) }
{
    match field(table, "do") {
        Some(value) => match value.as_str() {
            Some(text) => own_word(text),
            None => None,
        },
        None => None,
    }
}

// The name at a key, which is taken away.
fn take_name(table: &mut Table, key: &str) -> Option<String>
    ensures name { option_map string_bytes result ≡ name_at key.now (table_view table.old) }
    ensures rest { table_view table.new ≡ without key.now (table_view table.old) }
{
    match take(table, key) {
        Some(Value::String(name)) => {
            if is_name(name.as_str()) {
                Some(name)
            } else {
                None
            }
        }
        _ => None,
    }
}

// The name of a word that has one, which is taken away. None where it is missing, or is no name.
fn take_name_of(table: &mut Table, word: OwnWord) -> Option<Option<String>>
    ensures name { option_map (option_map string_bytes) result ≡ pass_named (name_key word) (table_view table.old) }
    ensures rest { table_view table.new ≡ unnamed (name_key word) (table_view table.old) }
{
    match word.name_key() {
        Some(key) => match take_name(table, key) {
            Some(name) => Some(Some(name)),
            None => None,
        },
        None => Some(None),
    }
}

// Moves what is at a key to that of a semaphore, where nothing is yet.
fn move_number(alloc: Global, table: &mut Table, key: &str) -> Result<(), MarkFault>
    ensures moved { OnOk result (moved_member key.now (table_view table.old) ≡ Some (table_view table.new)) }
    ensures other { IfErr result (λ fault. (fault ≡ MarkFault.Memory) ⊎ (moved_member key.now (table_view table.old) ≡ None)) }
{
    if field(table, "sem").is_some() {
        return Err(MarkFault::Step);
    }
    match take(table, key) {
        Some(number) => match put(alloc, table, "sem", number) {
            Ok(()) => Ok(()),
            Err(_) => Err(MarkFault::Memory),
        },
        None => Err(MarkFault::Step),
    }
}

// The same for the number of a word that has one.
fn move_number_of(alloc: Global, table: &mut Table, word: OwnWord) -> Result<(), MarkFault>
    ensures moved { OnOk result (numbered_member (number_key word) (table_view table.old) ≡ Some (table_view table.new)) }
    ensures other { IfErr result (λ fault. (fault ≡ MarkFault.Memory) ⊎ (numbered_member (number_key word) (table_view table.old) ≡ None)) }
{
    match word.number_key() {
        Some(key) => move_number(alloc, table, key),
        None => Ok(()),
    }
}

// Puts the word of a step.
fn put_word(alloc: Global, table: &mut Table, word: &str) -> Result<(), MarkFault>
    ensures put { OnOk result (table_view table.new ≡ with_value (codes "do") (string word.now) (table_view table.old)) }
    ensures other { IfErr result (λ fault. fault ≡ MarkFault.Memory) }
{
    let Ok(value) = Value::string(alloc, word) else {
        return Err(MarkFault::Memory);
    };
    match put(alloc, table, "do", value) {
        Ok(()) => Ok(()),
        Err(_) => Err(MarkFault::Memory),
    }
}

// Puts a step with a word as that of a scenario.
fn mark_table(alloc: Global, table: &mut Table, word: OwnWord) -> Result<Mark, MarkFault>
    ensures table { OnOk result (table_with (Some word) (table_view table.old) ≡ Some (table_view table.new)) }
    ensures mark { IfOk result (λ mark. marked_word (Some word) (table_view table.old) ≡ Some (Some (mark_view mark))) }
    ensures other { IfErr result (λ fault. (fault ≡ MarkFault.Memory) ⊎ ((marked_word (Some word) (table_view table.old) ≡ None) ⊎ (table_with (Some word) (table_view table.old) ≡ None))) }
{
    let Some(name) = take_name_of(table, word) else {
        return Err(MarkFault::Step);
    };
    match move_number_of(alloc, table, word) {
        Ok(()) => {}
        Err(fault) => return Err(fault),
    }
    match put_word(alloc, table, word.stand_in()) {
        Ok(()) => Ok(Mark { word, name }),
        Err(fault) => Err(fault),
    }
}

// Puts a step's table as that of a scenario. None where it is one.
fn mark_any(alloc: Global, table: &mut Table) -> Result<Option<Mark>, MarkFault>
    ensures table { OnOk result (table_with (word_in (table_view table.old)) (table_view table.old) ≡ Some (table_view table.new)) }
    ensures mark { IfOk result (λ mark. marked_word (word_in (table_view table.old)) (table_view table.old) ≡ Some (option_map mark_view mark)) }
    ensures other { IfErr result (λ fault. (fault ≡ MarkFault.Memory) ⊎ ((marked_word (word_in (table_view table.old)) (table_view table.old) ≡ None) ⊎ (table_with (word_in (table_view table.old)) (table_view table.old) ≡ None))) }
{
    match word_at(table) {
        Some(word) => match mark_table(alloc, table, word) {
            Ok(mark) => Ok(Some(mark)),
            Err(fault) => Err(fault),
        },
        None => Ok(None),
    }
}

/// Puts a step as that of a scenario. None where it is one.
pub fn mark_step(alloc: Global, value: &mut Value) -> Result<Option<Mark>, MarkFault>
    ensures step { OnOk result (step_as (view value.old) ≡ Some (view value.new)) }
    ensures mark { IfOk result (λ mark. mark_in (view value.old) ≡ Some (option_map mark_view mark)) }
    ensures other { IfErr result (λ fault. (fault ≡ MarkFault.Memory) ⊎ (is_put (view value.old) ≡ false)) }
{
    match value.as_table_mut() {
        Some(table) => mark_any(alloc, table),
        None => Ok(None),
    }
}

// The act of a step that spends or gives a pass of this name, or none.
fn plain_act(word: OwnWord, name: String) -> Act
    ensures { result ≡ plain_act word name }
{
    match word {
        OwnWord::UnlockStax => Act::UnlockStax(name),
        OwnWord::UnlockMutexFast => Act::UnlockMutexFast(name),
        OwnWord::TryUnlockMutex => Act::TryUnlockMutex(name),
        OwnWord::FinishLockMutex => Act::FinishLockMutex(name),
        OwnWord::Give => Act::Give,
        _ => Act::Take,
    }
}

// The act of a step that has a name.
fn named_act(word: OwnWord, name: String, call: Call) -> Act
    ensures { result ≡ named_act word name call }
{
    match call {
        Call::Peek { sem } => Act::TryLockStax(StaxId(sem.0), name),
        Call::Release { mutex } => Act::TryLockMutex(mutex, name),
        Call::BeginGet { sem, until } => Act::BeginLockMutex(MutexId(sem.0), until, name),
        _ => plain_act(word, name),
    }
}

/// The act of a step that was put as a call with this mark.
pub fn act_of(mark: Option<Mark>, call: Call) -> Act
    ensures { result ≡ act_of mark call }
{
    match mark {
        Some(
            Mark {
                word,
                name: Some(name),
            },
        ) => named_act(word, name, call),
        Some(
            Mark {
                word: OwnWord::Give,
                name: None,
            },
        ) => Act::Give,
        Some(
            Mark {
                word: _,
                name: None,
            },
        ) => Act::Take,
        None => Act::Call(call),
    }
}
