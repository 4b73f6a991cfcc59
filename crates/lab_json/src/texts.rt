//! Texts and numbers of JSON, and what is between values.
ghost use Rattle.std.specs.Prelude.{◌≡◌, ◌++◌, OnOk, string_bytes};
ghost use Rattle.lab_json.specs.Texts as told;
ghost use Rattle.lab_json.specs.Texts.{json_text, name_json, number_json};

use serde_json::Value;
use std::alloc::{AllocError, Global};

/// Writes a text in quotes, with escapes. `AllocError` where memory couldn't grow.
pub fn put_text(alloc: Global, json: &mut String, text: &str) -> Result<(), AllocError>
    ensures { OnOk result (string_bytes json.new ≡ string_bytes json.old ++ json_text text.now) }
{
    let value = Value::String(String::from_str(alloc, text)?);
    let quoted = value.to_string(alloc)?;
    json.push_str(quoted.as_str())
}

/// Writes what is before the next of several values. `AllocError` where memory couldn't grow.
pub fn put_comma(json: &mut String, is_first: bool) -> Result<(), AllocError>
    ensures { OnOk result (string_bytes json.new ≡ string_bytes json.old ++ told.comma is_first) }
{
    if is_first {
        Ok(())
    } else {
        json.push_str(", ")
    }
}

/// Writes the name of a further member of an object. `AllocError` where memory couldn't grow.
pub fn put_name(json: &mut String, name: &str) -> Result<(), AllocError>
    ensures { OnOk result (string_bytes json.new ≡ string_bytes json.old ++ name_json name.now) }
{
    write!(json, ", \"{name}\": ")
}

/// Writes a number, or null.
pub(crate) fn put_number(json: &mut String, number: Option<u64>) -> Result<(), AllocError>
    ensures { OnOk result (string_bytes json.new ≡ string_bytes json.old ++ number_json number) }
{
    match number {
        Some(number) => write!(json, "{number}"),
        None => json.push_str("null"),
    }
}
