//! The values at the keys of a TOML table.
ghost use Rattle.std.specs.Prelude.{◌≡◌};
ghost use Rattle.std.specs.BTreeMap.{keys};
ghost use Rattle.toml.specs.Data.{get_member};
ghost use Rattle.toml.specs.View.{view, table_view};
ghost use Rattle.evl_scenario.specs.Tables.{value_at, value_or};
ghost use Rattle.evl_scenario.specs.Values.{half_word_from, number_from, truth_from, word_from};
ghost use Rattle.evl_plans.specs.Banks.{count_at, from_one};

use evl_scenario::{field, number_of_text};
use toml::{Table, Value};

// A TOML integer that isn't negative, or a text of a number.
fn number(value: &Value) -> Option<u64>
    ensures { result ≡ number_from (view value.now) }
{
    match value {
        Value::Integer(number) => u64::try_from(*number).ok(),
        Value::String(text) => number_of_text(text.as_str()),
        _ => None,
    }
}

// A number below 2^16.
fn half_word(value: &Value) -> Option<u16>
    ensures { result ≡ half_word_from (view value.now) }
{
    u16::try_from(number(value)?).ok()
}

// A number below 2^32.
fn word(value: &Value) -> Option<u32>
    ensures { result ≡ word_from (view value.now) }
{
    u32::try_from(number(value)?).ok()
}

/// The number below 2^16 at a key.
pub fn half_word_at(table: &Table, key: &str) -> Option<u16>
    ensures { result ≡ value_at half_word_from key.now (table_view table.now) }
{
    match field(table, key) {
        Some(value) => half_word(value),
        None => None,
    }
}

/// The number below 2^32 at a key.
pub fn word_at(table: &Table, key: &str) -> Option<u32>
    ensures { result ≡ value_at word_from key.now (table_view table.now) }
{
    match field(table, key) {
        Some(value) => word(value),
        None => None,
    }
}

/// The truth value at a key.
pub fn truth_at(table: &Table, key: &str) -> Option<bool>
    ensures { result ≡ value_at truth_from key.now (table_view table.now) }
{
    match field(table, key) {
        Some(value) => value.as_bool(),
        None => None,
    }
}

// The number at a key, or 1 where nothing is there.
fn number_or_one(table: &Table, key: &str) -> Option<u64>
    ensures { result ≡ value_or number_from 1 (get_member key.now (table_view table.now)) }
{
    match field(table, key) {
        Some(value) => number(value),
        None => Some(1),
    }
}

// A number, where it is 1 or more.
fn from_one(number: u64) -> Option<u64>
    ensures { result ≡ from_one number }
{
    if 1 <= number { Some(number) } else { None }
}

/// The count at a key, 1 or more; it is 1 where nothing is there.
pub fn count_at(table: &Table, key: &str) -> Option<u64>
    ensures { result ≡ count_at key.now (table_view table.now) }
{
    from_one(number_or_one(table, key)?)
}
