//! Texts of JSON.
ghost use Rattle.std.specs.Prelude.{◌≡◌, ◌++◌, OnOk, string_bytes};
ghost use Rattle.lab_reports.specs.Quotes.{json_text};

use serde_json::Value;
use std::alloc::{AllocError, Global};

/// Writes a text in quotes, with escapes. `AllocError` where memory couldn't grow.
pub fn put_text(alloc: Global, json: &mut String, text: &str) -> Result<(), AllocError>
    ensures { OnOk result (string_bytes json.new ≡ string_bytes json.old ++ json_text text.now) }
{
    let value = Value::String(String::from_str(alloc, text)?);
    let quoted = value.to_string(alloc)?;
    json.push_str(quoted.as_str())
}
