//! The rows of a callback.
ghost use Rattle.std.specs.Prelude.{◌≡◌, ◌≤◌, All, IfOk, IfErr, IsSome, Ok, Err, codes};
ghost use Rattle.toml.specs.Data.{get_member};
ghost use Rattle.toml.specs.View.{items_view, table_view, view};
ghost use Rattle.evl_plans.specs.Banks.{row_at, row_in, rows_at, rows_from};

use crate::actions::read_action;
use crate::faults::Part;
use crate::tables::count_at;
use arrayvec::ArrayVec;
use evl_pipeline::Action;
use evl_scenario::field;
use toml::{Table, Value};

/// The rows of a plan: periods, each 1 or more, with their actions.
pub type Rows = ArrayVec<(u64, Action), 4>;

// A row of a table.
fn read_row(table: &Table) -> Option<(u64, Action)>
    ensures { result ≡ row_in (table_view table.now) }
{
    let every = count_at(table, "every")?;
    let action = read_action(table)?;
    Some((every, action))
}

// The row of a value that is the one with this number, from 1: there are four at most.
fn read_row_at(number: usize, value: &Value) -> Option<(u64, Action)>
    ensures row { result ≡ row_at number (view value.now) }
    ensures few { IsSome result → number ≤ 4 }
{
    if number > 4 {
        return None;
    }
    match value.as_table() {
        Some(table) => read_row(table),
        None => None,
    }
}

// The rows that these values stand for.
fn read_rows(values: &[Value]) -> Result<Rows, Part>
    ensures ok { IfOk result (λ rows. rows_from 1 (items_view values.now) ≡ Ok rows.items) }
    ensures err { IfErr result (λ e. rows_from 1 (items_view values.now) ≡ Err e) }
{
    let mut rows: Rows = ArrayVec::new();
    for (i, value) in values.iter().enumerate() {
        let Some(row) = read_row_at(i + 1, value) else {
            return Err(Part::Row(i + 1));
        };
        rows.push(row);
    }
    Ok(rows)
}

/// The rows at `do`, at most four; none where nothing is there. `Rows` where no list does, `Row` for the first row
/// that can't be read.
#[tactic(auto, using(crate::proofs::RowLaws::rows_periods))]
pub fn rows_of(table: &Table) -> Result<Rows, Part>
    ensures ok { IfOk result (λ rows. rows_at (get_member (codes "do") (table_view table.now)) ≡ Ok rows.items) }
    ensures periods { IfOk result (λ rows. All (λ row. 1 ≤ row.0) rows.items) }
    ensures err { IfErr result (λ e. rows_at (get_member (codes "do") (table_view table.now)) ≡ Err e) }
{
    match field(table, "do") {
        None => Ok(ArrayVec::new()),
        Some(value) => match value.as_array() {
            None => Err(Part::Rows),
            Some(values) => read_rows(values.as_slice()),
        },
    }
}
