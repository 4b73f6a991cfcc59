//! Answers that came at one step, and in how many orders each.
ghost use Rattle.std.specs.Prelude.{◌≡◌, ◌<◌, IfOk, OnOk, map, string_bytes};
ghost use Rattle.std.specs.List.{list_any};
ghost use Rattle.std.specs.Str.{bytes_eq};
ghost use Rattle.lab_orders.specs.Weights.{count_limit};
ghost use Rattle.lab_orders.specs.Answers.{all_orders, answers_there, is_answered, orders_with, orders_without, row, rows_of};
ghost use Rattle.lab_orders.specs.Seen.{seen_rows, with_new};

use crate::Tally;
use crate::rows::{answer_at, row};
use std::alloc::{AllocError, Global};

/// The report of one caller in an outcome, from the arrow before its first answer on, and how many orders end so.
#[derive(Clone, Copy, Drop)]
pub(crate) struct Row<'a> {
    pub(crate) told: &'a [u8],
    pub(crate) count: u128,
}

// The report of a caller in an outcome.
fn row_of<'a>(who: &[u8], outcome: &'a Tally) -> Row<'a>
    ensures told { result.told.now ≡ row who.now (string_bytes outcome.now.told) }
    ensures count { result.count ≡ outcome.now.count }
{
    Row {
        told: row(who, outcome.told.as_bytes()),
        count: outcome.count,
    }
}

/// The report of a caller in each outcome.
pub(crate) fn rows_of<'a>(
    alloc: Global,
    outcomes: &'a [Tally],
    who: &[u8],
) -> Result<Vec<Row<'a>>, AllocError>
    ensures { IfOk result (λ all. seen_rows all.items ≡ rows_of who.now outcomes.now) }
{
    let mut all = Vec::new(alloc);
    for outcome in outcomes {
        all.push(row_of(who, outcome))?;
    }
    Ok(all)
}

// Whether a text is one of these.
fn is_one_of(all: &[&[u8]], text: &[u8]) -> bool
    ensures { result ≡ list_any (λ other. bytes_eq other text.now) (map (λ other. other.now) all.now) }
{
    for other in all {
        if *other == text {
            return true;
        }
    }
    false
}

// Puts an answer after those that came, if it isn't one of them.
fn put_new<'a>(all: &mut Vec<&'a [u8]>, answer: &'a [u8]) -> Result<(), AllocError>
    ensures { OnOk result (map (λ other. other.now) all.new.items ≡ with_new (map (λ other. other.now) all.old.items) answer.now) }
{
    if is_one_of(all.as_slice(), answer) {
        Ok(())
    } else {
        Ok(all.push(answer)?)
    }
}

/// The answers that came at a step, each once, in the order in which they first come.
pub(crate) fn answers_there<'a>(
    alloc: Global,
    rows: &[Row<'a>],
    step: usize,
) -> Result<Vec<&'a [u8]>, AllocError>
    ensures { IfOk result (λ all. map (λ answer. answer.now) all.items ≡ answers_there step (seen_rows rows.now)) }
{
    let mut all = Vec::new(alloc);
    for row in rows {
        if let Some(answer) = answer_at(row.told, step) {
            put_new(&mut all, answer)?;
        }
    }
    Ok(all)
}

// Whether just this is answered at a step.
fn is_answered(row: &Row<'_>, step: usize, answer: &[u8]) -> bool
    ensures { result ≡ is_answered step answer.now row.now.told.now }
{
    match answer_at(row.told, step) {
        Some(other) => answer == other,
        None => false,
    }
}

/// In how many orders just this is answered at a step, where a count holds all orders.
pub(crate) fn orders_with(rows: &[Row<'_>], step: usize, answer: &[u8]) -> u128
    requires { all_orders (seen_rows rows.now) < count_limit }
    ensures { result ≡ orders_with step answer.now (seen_rows rows.now) }
{
    let mut count: u128 = 0;
    for row in rows {
        if is_answered(row, step, answer) {
            count += row.count;
        }
    }
    count
}

/// In how many orders a step isn't made, where a count holds all orders.
pub(crate) fn orders_without(rows: &[Row<'_>], step: usize) -> u128
    requires { all_orders (seen_rows rows.now) < count_limit }
    ensures { result ≡ orders_without step (seen_rows rows.now) }
{
    let mut count: u128 = 0;
    for row in rows {
        if answer_at(row.told, step).is_none() {
            count += row.count;
        }
    }
    count
}
