//! A line for each step of a caller, and the line before them.
ghost use Rattle.std.specs.Prelude.{◌≡◌, ◌<◌, ◌++◌, IfOk, OnOk, codes, map, string_bytes};
ghost use Rattle.lab_orders.specs.Tallies.{told_weight};
ghost use Rattle.lab_orders.specs.Weights.{count_limit};
ghost use Rattle.lab_orders.specs.Answers.{all_orders, answer_text, answers_from, answers_text, answers_there, begin_text, comma, cut_text, head_text, number_text, orders_text, rows_of, step_line, step_lines, told_text, unmade_text};
ghost use Rattle.lab_orders.specs.Seen.{seen_rows};

use crate::Tally;
use crate::counts::{Row, answers_there, orders_with, orders_without, rows_of};
use std::alloc::{AllocError, Global};

// A number with its word.
fn number_of(alloc: Global, count: u128, word: &str) -> Result<String, AllocError>
    ensures { IfOk result (λ text. string_bytes text ≡ number_text count word.now) }
{
    let more = if count == 1 { "" } else { "s" };
    format!(in alloc; "{count} {word}{more}")
}

// Puts a number with its word.
fn put_number(alloc: Global, text: &mut Vec<u8>, count: u128, word: &str) -> Result<(), AllocError>
    ensures { OnOk result (text.new.items ≡ text.old.items ++ number_text count word.now) }
{
    let number = number_of(alloc, count, word)?;
    text.extend_from_slice(number.as_bytes())
}

// Puts a comma before all but the first of some parts.
fn put_comma(text: &mut Vec<u8>, place: usize) -> Result<(), AllocError>
    ensures { OnOk result (text.new.items ≡ text.old.items ++ comma place) }
{
    if place == 0 {
        Ok(())
    } else {
        text.extend_from_slice(b", ")
    }
}

// Puts an answer with its orders.
fn put_answer(
    alloc: Global,
    text: &mut Vec<u8>,
    rows: &[Row<'_>],
    step: usize,
    place: usize,
    answer: &[u8],
) -> Result<(), AllocError>
    requires { all_orders (seen_rows rows.now) < count_limit }
    ensures { OnOk result (text.new.items ≡ text.old.items ++ answer_text step (seen_rows rows.now) place answer.now) }
{
    put_comma(text, place)?;
    text.extend_from_slice(answer)?;
    text.extend_from_slice(b" in ")?;
    put_number(alloc, text, orders_with(rows, step, answer), "order")
}

// Puts these answers with their orders.
fn put_each(
    alloc: Global,
    text: &mut Vec<u8>,
    rows: &[Row<'_>],
    step: usize,
    answers: &[&[u8]],
) -> Result<(), AllocError>
    requires { all_orders (seen_rows rows.now) < count_limit }
    ensures { OnOk result (text.new.items ≡ text.old.items ++ answers_from step (seen_rows rows.now) 0 (map (λ answer. answer.now) answers.now)) }
{
    for (place, answer) in answers.iter().enumerate() {
        put_answer(alloc, text, rows, step, place, *answer)?;
    }
    Ok(())
}

// Puts in how many orders a step isn't made, after so many answers.
fn put_unmade(
    alloc: Global,
    text: &mut Vec<u8>,
    place: usize,
    count: u128,
) -> Result<(), AllocError>
    ensures { OnOk result (text.new.items ≡ text.old.items ++ unmade_text place count) }
{
    if count == 0 && place > 0 {
        return Ok(());
    }
    put_comma(text, place)?;
    text.extend_from_slice(b"not made in ")?;
    put_number(alloc, text, count, "order")
}

// Puts these answers, and in how many orders the step isn't made.
fn put_told(
    alloc: Global,
    text: &mut Vec<u8>,
    rows: &[Row<'_>],
    step: usize,
    answers: &[&[u8]],
) -> Result<(), AllocError>
    requires { all_orders (seen_rows rows.now) < count_limit }
    ensures { OnOk result (text.new.items ≡ text.old.items ++ told_text step (seen_rows rows.now) (map (λ answer. answer.now) answers.now)) }
{
    put_each(alloc, text, rows, step, answers)?;
    put_unmade(alloc, text, answers.len(), orders_without(rows, step))
}

// Puts whose step it is, and which.
fn put_begin(alloc: Global, text: &mut Vec<u8>, who: &str, step: usize) -> Result<(), AllocError>
    ensures { OnOk result (text.new.items ≡ text.old.items ++ begin_text who.now step) }
{
    let number = step as u128 + 1;
    let begin = format!(in alloc; "# {who} step {number}: ")?;
    text.extend_from_slice(begin.as_bytes())
}

// Puts the line of a step.
fn put_step(
    alloc: Global,
    text: &mut Vec<u8>,
    who: &str,
    rows: &[Row<'_>],
    step: usize,
) -> Result<(), AllocError>
    requires { all_orders (seen_rows rows.now) < count_limit }
    ensures { OnOk result (text.new.items ≡ text.old.items ++ step_line who.now (seen_rows rows.now) step) }
{
    let answers = answers_there(alloc, rows, step)?;
    put_begin(alloc, text, who, step)?;
    put_told(alloc, text, rows, step, answers.as_slice())?;
    text.extend_from_slice(b"\n")
}

// Puts the lines of so many steps.
fn put_steps(
    alloc: Global,
    text: &mut Vec<u8>,
    who: &str,
    rows: &[Row<'_>],
    steps: usize,
) -> Result<(), AllocError>
    requires { all_orders (seen_rows rows.now) < count_limit }
    ensures { OnOk result (text.new.items ≡ text.old.items ++ step_lines who.now (seen_rows rows.now) steps) }
{
    for step in 0..steps {
        put_step(alloc, text, who, rows, step)?;
    }
    Ok(())
}

// Puts the lines of so many steps of a caller that is called so.
fn put_named(
    alloc: Global,
    text: &mut Vec<u8>,
    outcomes: &[Tally],
    who: &str,
    steps: usize,
) -> Result<(), AllocError>
    requires { told_weight (λ told. 1) outcomes.now < count_limit }
    ensures { OnOk result (text.new.items ≡ text.old.items ++ step_lines who.now (rows_of who.now outcomes.now) steps) }
{
    let rows = rows_of(alloc, outcomes, who.as_bytes())?;
    put_steps(alloc, text, who, rows.as_slice(), steps)
}

/// Puts a line for each of so many steps of a thread's caller: the answers that came there, in the order of the outcomes
/// in which they first come, and in how many orders each; then in how many the step isn't made. `AllocError` where
/// memory couldn't grow.
pub fn put_answers(
    alloc: Global,
    text: &mut Vec<u8>,
    outcomes: &[Tally],
    who: usize,
    steps: usize,
) -> Result<(), AllocError>
    // A count holds all orders of the outcomes.
    requires { told_weight (λ told. 1) outcomes.now < count_limit }
    ensures { OnOk result (text.new.items ≡ text.old.items ++ answers_text outcomes.now who steps) }
{
    let name = format!(in alloc; "T{who}")?;
    put_named(alloc, text, outcomes, name.as_str(), steps)
}

// Puts how many orders and outcomes there are.
fn put_orders(
    alloc: Global,
    text: &mut Vec<u8>,
    orders: u128,
    outcomes: usize,
) -> Result<(), AllocError>
    ensures { OnOk result (text.new.items ≡ text.old.items ++ orders_text orders outcomes) }
{
    text.extend_from_slice(b"# ")?;
    put_number(alloc, text, orders, "order")?;
    text.extend_from_slice(b", ")?;
    put_number(alloc, text, outcomes as u128, "outcome")
}

// Puts that longer orders were cut off, where they were.
fn put_cut(text: &mut Vec<u8>, is_whole: bool) -> Result<(), AllocError>
    ensures { OnOk result (text.new.items ≡ text.old.items ++ cut_text is_whole) }
{
    if is_whole {
        Ok(())
    } else {
        text.extend_from_slice(b"# cut off: there are longer orders\n")
    }
}

/// Puts how many orders, outcomes and moments there are, and that longer orders were cut off, where they were.
/// `AllocError` where memory couldn't grow.
pub fn put_head(
    alloc: Global,
    text: &mut Vec<u8>,
    orders: u128,
    outcomes: usize,
    moments: usize,
    is_whole: bool,
) -> Result<(), AllocError>
    ensures { OnOk result (text.new.items ≡ text.old.items ++ head_text orders outcomes moments is_whole) }
{
    put_orders(alloc, text, orders, outcomes)?;
    text.extend_from_slice(b", ")?;
    put_number(alloc, text, moments as u128, "moment")?;
    text.extend_from_slice(b"\n")?;
    put_cut(text, is_whole)
}
