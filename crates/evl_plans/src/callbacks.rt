//! A callback, read from a table.
ghost use Rattle.std.specs.Prelude.{◌≡◌, ◌<◌, IfOk, IfErr, OnOk, Ok, Err};
ghost use Rattle.toml.specs.View.{table_view, view};
ghost use Rattle.evl_plans.specs.Banks.{callback_at, callback_in};
ghost use Rattle.evl_plans.specs.Told.{handler_of};

use crate::faults::Part;
use crate::planned::Planned;
use crate::rows::rows_of;
use crate::tables::count_at;
use evl_scenario::has_only_keys;
use toml::{Table, Value};

// The callback of a table.
fn read_callback(table: &Table) -> Result<Planned, Part>
    ensures ok { IfOk result (λ planned. callback_in (table_view table.now) ≡ Ok (handler_of planned)) }
    ensures err { IfErr result (λ e. callback_in (table_view table.now) ≡ Err e) }
{
    if !has_only_keys(table, &["accepts", "do"]) {
        return Err(Part::Keys);
    }
    let Some(accepts) = count_at(table, "accepts") else {
        return Err(Part::Accepts);
    };
    match rows_of(table) {
        Ok(rows) => Ok(Planned::of_rows(accepts, rows)),
        Err(part) => Err(part),
    }
}

/// The callback that a value means, which is the one with this number, from 0, of 64 at most: a table with
/// `accepts` (1 where it is left out) and `do` (no rows where it is left out). Else the first part that can't be read.
pub fn read_callback_at(number: usize, value: &Value) -> Result<Planned, Part>
    ensures ok { IfOk result (λ planned. callback_at number (view value.now) ≡ Ok (handler_of planned)) }
    ensures few { OnOk result (number < 64) }
    ensures err { IfErr result (λ e. callback_at number (view value.now) ≡ Err e) }
{
    if number > 63 {
        return Err(Part::Keys);
    }
    match value.as_table() {
        Some(table) => read_callback(table),
        None => Err(Part::Keys),
    }
}
