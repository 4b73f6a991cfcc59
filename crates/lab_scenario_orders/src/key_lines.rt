//! Which line of a text sets a key of what is asked.
ghost use Rattle.std.specs.Prelude.{◌≡◌, IfOk, false, map, option_map};
ghost use Rattle.std.specs.List.{list_any};
ghost use Rattle.std.specs.Str.{bytes_eq};
ghost use Rattle.lab_scenario_orders.specs.Asks.{ask_keys};
ghost use Rattle.lab_scenario_orders.specs.KeyLines.{around_equals, is_set_by, key_set, line_set, number_set};

use crate::splits::{bare, is_asked};
use crate::text_lines::lines_of;
use std::alloc::{AllocError, Global};

/// The keys of `[ask]`.
pub(crate) const ASK_KEYS: [&str; 8] = [
    "never",
    "always_ends",
    "ends_waits",
    "as_picked",
    "never_state",
    "sometimes",
    "always",
    "outcomes",
];

// The text before the first `=`, and the text after it.
fn around_equals(text: &str) -> Option<(&str, &str)>
    ensures { option_map (λ parts. (parts.0.now, parts.1.now)) result ≡ around_equals text.now }
{
    match text.split_once('=') {
        Some(parts) => Some(parts),
        None => None,
    }
}

// The key that a line sets.
fn key_set(line: &str) -> Option<&str>
    ensures { option_map (λ key. key.now) result ≡ key_set line.now }
{
    match around_equals(bare(line)) {
        Some((key, _)) => Some(key.trim()),
        None => None,
    }
}

/// Whether a key is among these.
pub(crate) fn is_among(known: &[&str], key: &str) -> bool
    ensures { result ≡ list_any (bytes_eq key.now) (map (λ word. word.now) known.now) }
{
    for word in known {
        if key == *word {
            return true;
        }
    }
    false
}

// Whether a line sets this key, or, where none is named, a key that isn't among these.
fn is_set_by(known: &[&str], named: Option<&str>, line: &str) -> bool
    ensures { result ≡ is_set_by (map (λ word. word.now) known.now) (option_map (λ key. key.now) named.entry) line.now }
{
    match key_set(line) {
        Some(key) => match named {
            Some(wanted) => key == wanted,
            None => !is_among(known, key),
        },
        None => false,
    }
}

// The number of the first line that sets it in a table `[ask]`.
fn number_set(known: &[&str], named: Option<&str>, lines: &[&str]) -> Option<usize>
    ensures { result ≡ number_set (map (λ word. word.now) known.now) (option_map (λ key. key.now) named.entry) false 1 (map (λ line. line.now) lines.now) }
{
    let mut was = false;
    for (i, line) in lines.iter().enumerate() {
        was = is_asked(was, *line);
        if was && is_set_by(known, named, *line) {
            return Some(i + 1);
        }
    }
    None
}

/// The number, from 1, of the first line of a text that sets a key in a table `[ask]`; where none is named, one that such
/// a table doesn't have. `AllocError` where memory couldn't grow.
pub fn line_set(alloc: Global, text: &str, named: Option<&str>) -> Result<Option<usize>, AllocError>
    ensures { IfOk result (λ number. number ≡ line_set (option_map (λ key. key.now) named.entry) text.now) }
{
    let all = lines_of(alloc, text)?;
    Ok(number_set(&ASK_KEYS, named, all.as_slice()))
}
