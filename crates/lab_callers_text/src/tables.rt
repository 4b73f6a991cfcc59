//! Tables of a document, with a key less or with a value at a key.
ghost use Rattle.std.specs.Prelude.{◌≡◌, OnOk, is_some, option_map};
ghost use Rattle.toml.specs.Data.{get_member};
ghost use Rattle.toml.specs.View.{table_view, view};
ghost use Rattle.lab_callers_text.specs.Tables.{with_value, without};

use std::alloc::{AllocError, Global};
use toml::{Table, Value};

/// The value at a key.
pub fn field<'a>(table: &'a Table, key: &str) -> Option<&'a Value>
    ensures { option_map (λ value. view value.now) result ≡ get_member key.now (table_view table.now) }
{
    table.get(key)
}

/// Takes away what is at a key.
pub fn take(table: &mut Table, key: &str) -> Option<Value>
    ensures value { option_map view result ≡ get_member key.now (table_view table.old) }
    ensures rest { table_view table.new ≡ without key.now (table_view table.old) }
{
    table.remove(key)
}

/// Puts a value at a key.
pub fn put(alloc: Global, table: &mut Table, key: &str, value: Value) -> Result<(), AllocError>
    ensures { OnOk result (table_view table.new ≡ with_value key.now (view value) (table_view table.old)) }
{
    let key = String::from_str(alloc, key)?;
    match table.insert(key, value) {
        Ok(_) => Ok(()),
        Err(_) => Err(AllocError),
    }
}
