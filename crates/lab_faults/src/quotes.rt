//! A word without quotes where a value is wanted.
ghost use Rattle.std.specs.Prelude.{◌≡◌, string_bytes, IfOk};
ghost use Rattle.std.specs.List.{list_all};
ghost use Rattle.lab_faults.specs.Quotes as quotes;
ghost use Rattle.lab_faults.specs.Quotes.{quotes_text, unquoted_text};

use crate::items::{Item, slice};
use crate::steps::shown;
use std::alloc::{AllocError, Global};

fn is_worded(byte: u8) -> bool
    ensures { result ≡ quotes.is_worded byte }
{
    byte.is_ascii_alphanumeric() || byte == b' ' || byte == b'-' || byte == b'_'
}

fn are_worded(text: &[u8]) -> bool
    ensures { result ≡ list_all quotes.is_worded text.now }
{
    text.iter().all(|byte| is_worded(*byte))
}

// Whether a value is a word or some, of which a letter is the first byte.
fn is_worded_text(value: &[u8]) -> bool
    ensures { result ≡ quotes.is_worded_text value.now }
{
    match value {
        [] => false,
        [first, rest @ ..] => first.is_ascii_alphabetic() && are_worded(rest),
    }
}

/// The key whose value begins at a byte, if words without quotes are there.
pub fn unquoted_at(text: &[u8], items: &[Item], at: usize) -> Option<Item>
    ensures { result ≡ quotes.unquoted_at text.now items.now at }
{
    for item in items {
        if item.value.0 == at && is_worded_text(slice(text, item.value)) {
            return Some(*item);
        }
    }
    None
}

// The words about words without quotes at a key.
fn quotes_words(alloc: Global, key: &str, word: &str) -> Result<String, AllocError>
    ensures { IfOk result (λ words. string_bytes words ≡ quotes_text key.now word.now) }
{
    format!(in alloc;
        "{key} = {word}: a word stands in quotes, as {key} = \"{word}\"; only numbers, true and false stand without"
    )
}

/// The words about a value without quotes. `AllocError` where memory couldn't grow.
pub fn unquoted_words(alloc: Global, text: &[u8], item: Item) -> Result<String, AllocError>
    ensures { IfOk result (λ words. string_bytes words ≡ unquoted_text text.now item) }
{
    quotes_words(alloc, shown(text, item.key), shown(text, item.value))
}
