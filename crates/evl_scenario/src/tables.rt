//! The values at the keys of a TOML table.
ghost use Rattle.std.specs.Prelude.{◌≡◌, option_map, option_and_then, map, string_bytes};
ghost use Rattle.std.specs.List.{list_all, list_any};
ghost use Rattle.std.specs.Str.{bytes_eq};
ghost use Rattle.std.specs.BTreeMap.{keys};
ghost use Rattle.toml.specs.Data.{get_member};
ghost use Rattle.toml.specs.View.{view, table_view, items_view};
ghost use Rattle.evl_scenario.specs.Tables.{value_at, value_or, text_at, list_of, all_given, at_most_items, has_only};

use crate::values::FromToml;
use arrayvec::ArrayVec;
use toml::{Table, Value};

/// The value at a key.
pub fn field<'a>(table: &'a Table, key: &str) -> Option<&'a Value>
    ensures { option_map (λ v. view v.now) result ≡ get_member key.now (table_view table.now) }
{
    table.get(key)
}

/// The value at a key that is required.
pub fn at<T: FromToml>(table: &Table, key: &str) -> Option<T>
    ensures { result ≡ value_at T.gives key.now (table_view table.now) }
{
    match field(table, key) {
        Some(value) => T::from_toml(value),
        None => None,
    }
}

/// The value at a key, or this one where nothing is there.
pub fn at_or<T: FromToml + Drop>(table: &Table, key: &str, default: T) -> Option<T>
    ensures { result ≡ value_or T.gives default (get_member key.now (table_view table.now)) }
{
    let Some(value) = field(table, key) else {
        return Some(default);
    };
    T::from_toml(value)
}

/// The text at a key that is required.
pub fn at_text<'a>(table: &'a Table, key: &str) -> Option<&'a str>
    ensures { option_map (λ text. text.now) result ≡ text_at key.now (table_view table.now) }
{
    match field(table, key) {
        Some(value) => value.as_str(),
        None => None,
    }
}

// The values that all of these mean, where there are at most so many.
fn read_all<T: FromToml + Default + Drop, const N: usize>(
    values: &[Value],
) -> Option<ArrayVec<T, N>>
    ensures { option_map (λ list. list.items) result ≡ option_and_then (at_most_items N) (all_given T.gives (items_view values.now)) }
{
    let mut list = ArrayVec::new();
    for value in values {
        let Some(read) = T::from_toml(value) else {
            return None;
        };
        if list.try_push(read).is_err() {
            return None;
        }
    }
    Some(list)
}

/// The list at a key, which is empty where nothing is there.
pub fn list_at<T: FromToml + Default + Drop, const N: usize>(
    table: &Table,
    key: &str,
) -> Option<ArrayVec<T, N>>
    ensures { option_map (λ list. list.items) result ≡ list_of T.gives N (get_member key.now (table_view table.now)) }
{
    match field(table, key) {
        None => Some(ArrayVec::new()),
        Some(value) => match value.as_array() {
            None => None,
            Some(values) => read_all(values),
        },
    }
}

fn is_among(known: &[&str], key: &str) -> bool
    ensures { result ≡ list_any (λ k. bytes_eq key.now k.now) known.now }
{
    known.iter().any(|k| key == *k)
}

// Whether each key of a table is among these.
fn are_keys_among(table: &Table, known: &[&str]) -> bool
    ensures { result ≡ list_all (λ key. list_any (λ k. bytes_eq (string_bytes key) k.now) known.now) (keys table.now) }
{
    table.keys().all(|key| is_among(known, key.as_str()))
}

/// Whether a table has no other keys.
pub fn has_only_keys(table: &Table, known: &[&str]) -> bool
    ensures { result ≡ has_only (map (λ k. k.now) known.now) (table_view table.now) }
{
    are_keys_among(table, known)
}
