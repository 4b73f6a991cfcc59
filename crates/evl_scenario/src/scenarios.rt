//! Scenarios, read from text.
ghost use Rattle.std.specs.Prelude.{◌≡◌, ◌⊎◌, ◌+◌, ◌-◌, ◌^◌, min, Some, None, Ok, Err, if◌then◌else◌, option_map, codes, IfOk, IfErr, IfSome};
ghost use Rattle.std.specs.Str.{is_utf8};
ghost use Rattle.toml.specs.Data.{get_member};
ghost use Rattle.toml.specs.Parse.{parse_document};
ghost use Rattle.toml.specs.View.{view, table_view, items_view};
ghost use Rattle.evl_scenario.specs.Scenarios.{opening_of, are_tables, step_tables, steps_of, script_of, document_script, scenario_of};

use crate::boards::{read_board, read_limit};
use crate::common::{read_head, read_step_tables};
use crate::faults::Fault;
use crate::steps::{Step, read_step};
use crate::tables::{field, has_only_keys};
use evl_base::{Board, Spares};
use std::alloc::Global;
use std::marker::Model;
use toml::{Table, Value};

/// A longer text is no scenario.
pub const MOST_BYTES: usize = 1_048_576;

/// The play that a text asks for: a board, the limit of its history, and the steps in order.
#[derive(Drop)]
pub struct Scenario {
    board: Board,
    limit: u32,
    steps: Vec<Step>,
}

impl Model for Scenario {
    ghost use Rattle.evl_scenario.specs.Scenarios.{Script};

    ghost Value = { Script };

    ghost view = { λ s. record { board = s.board; limit = s.limit; steps = s.steps.items } };
}

impl Scenario {
    /// The board, the limit and the steps.
    pub fn into_parts(self) -> (Board, u32, Vec<Step>)
        ensures board { result.0 ≡ self.board }
        ensures limit { result.1 ≡ self.limit }
        ensures steps { result.2.items ≡ self.steps }
    {
        let Scenario {
            board,
            limit,
            steps,
        } = self;
        (board, limit, steps)
    }
}

// The board and the limit of a document.
fn read_opening(table: &Table, given: Option<u32>) -> Option<(Board, u32)>
    ensures { result ≡ opening_of given (table_view table.now) }
{
    if !has_only_keys(table, &["limit", "board", "step"]) {
        return None;
    }
    let board = read_board(field(table, "board")?.as_table()?)?;
    let limit = read_limit(table, given)?;
    Some((board, limit))
}

fn are_all_tables(values: &[Value]) -> bool
    ensures { result ≡ are_tables (items_view values.now) }
{
    for value in values {
        if !value.is_table() {
            return false;
        }
    }
    true
}

// The tables of the steps of a document.
fn step_values(table: &Table) -> Option<&[Value]>
    ensures { option_map (λ values. items_view values.now) result ≡ step_tables (get_member (codes "step") (table_view table.now)) }
{
    match field(table, "step") {
        None => Some(&[]),
        Some(value) => {
            let values = value.as_array()?.as_slice();
            if are_all_tables(values) {
                Some(values)
            } else {
                None
            }
        }
    }
}

// The number of the step at an index, from 1.
fn step_number(index: usize) -> u32
    ensures { result ≡ min (index + 1) (2 ^ 32 - 1) }
{
    u32::try_from(index).unwrap_or(u32::MAX).saturating_add(1)
}

// The steps that these tables mean.
fn read_steps(alloc: Global, values: &[Value]) -> Result<Vec<Step>, Fault>
    ensures ok { IfOk result (λ steps. steps_of 1 (items_view values.now) ≡ Ok steps.items) }
    ensures err { IfErr result (λ e. (e ≡ Fault.Memory) ⊎ (steps_of 1 (items_view values.now) ≡ Err e)) }
{
    let mut steps = Vec::new(alloc);
    let mut spares = Spares::new(alloc, alloc);
    for (i, value) in values.iter().enumerate() {
        if spares.keep(1).is_err() {
            return Err(Fault::Memory);
        }
        let Some(step) = read_step(value, &mut spares) else {
            return Err(Fault::Step(step_number(i)));
        };
        match steps.push(step) {
            Ok(()) => {}
            Err(_) => return Err(Fault::Memory),
        }
    }
    Ok(steps)
}

// The play that a document asks for.
fn read_document(alloc: Global, table: &Table, given: Option<u32>) -> Result<Scenario, Fault>
    ensures ok { IfOk result (λ scenario. script_of given (table_view table.now) ≡ Ok scenario) }
    ensures err { IfErr result (λ e. (e ≡ Fault.Memory) ⊎ (script_of given (table_view table.now) ≡ Err e)) }
{
    let Some((board, limit)) = read_opening(table, given) else {
        return Err(Fault::Board);
    };
    let Some(values) = step_values(table) else {
        return Err(Fault::Board);
    };
    let steps = read_steps(alloc, values)?;
    Ok(Scenario {
        board,
        limit,
        steps,
    })
}

// The text that these bytes are.
fn text_of(bytes: &[u8]) -> Option<&str>
    ensures { option_map (λ text. text.now) result ≡ (if is_utf8 bytes.now then Some bytes.now else None) }
{
    match str::from_utf8(bytes) {
        Ok(text) => Some(text),
        Err(_) => None,
    }
}

// The play that a text of the common shape asks for; none where it has another shape or can't be read.
fn read_common(alloc: Global, text: &str, given: Option<u32>) -> Option<Scenario>
    ensures { IfSome result (λ scenario. document_script given (parse_document text.now) ≡ Ok scenario) }
{
    let (table, rest) = read_head(alloc, text)?;
    let (board, limit) = read_opening(&table, given)?;
    let steps = read_step_tables(alloc, rest)?;
    Some(Scenario {
        board,
        limit,
        steps,
    })
}

// The play that a text asks for, whatever its length.
fn read_text(alloc: Global, text: &str, given: Option<u32>) -> Result<Scenario, Fault>
    ensures ok { IfOk result (λ scenario. document_script given (parse_document text.now) ≡ Ok scenario) }
    ensures err { IfErr result (λ e. (e ≡ Fault.Memory) ⊎ (document_script given (parse_document text.now) ≡ Err e)) }
{
    if let Some(scenario) = read_common(alloc, text, given) {
        return Ok(scenario);
    }
    match toml::table_from_str(alloc, text) {
        Ok(table) => read_document(alloc, &table, given),
        Err(e) => {
            if e.is_memory() {
                Err(Fault::Memory)
            } else {
                Err(Fault::Text)
            }
        }
    }
}

// rule: Each key is read as SCENARIOS says, with its default and range; unknown keys are refused. The text's limit and
//   one handed in must both be in range.
//   clauses: read_scenario; read_board; read_step
//   rows: whole_board; bad_boards; faults_in_order; colourful_step; too_many_threads; later_bad_steps;
//   what_stands_below_the_board_is_told
/// The play that a text asks for, under a limit that may be handed in. `Text` for a text of more than 1,048,576 bytes,
/// of other bytes than UTF-8, or of no document; `Board` and `Step` for what is in it; `Memory` where a growth was
/// refused.
pub fn read_scenario(alloc: Global, text: &[u8], given: Option<u32>) -> Result<Scenario, Fault>
    ensures ok { IfOk result (λ scenario. scenario_of given text.now ≡ Ok scenario) }
    ensures err { IfErr result (λ e. (e ≡ Fault.Memory) ⊎ (scenario_of given text.now ≡ Err e)) }
{
    if text.len() > MOST_BYTES {
        return Err(Fault::Text);
    }
    match text_of(text) {
        Some(text) => read_text(alloc, text, given),
        None => Err(Fault::Text),
    }
}
