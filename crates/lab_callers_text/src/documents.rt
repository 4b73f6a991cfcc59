//! Documents of callers: a scenario's, with staxes on its board and words of callers in its steps.
ghost use Rattle.std.specs.Prelude.{◌≡◌, ◌++◌, ◌∷◌, ◌+◌, ◌&&◌, ◌⊎◌, [], IfErr, IfNone, IfOk, IfSome, None, OnOk, Some, codes, length, map, option_and_then, option_map, true};
ghost use Rattle.toml.specs.Data.{array};
ghost use Rattle.toml.specs.View.{items_view, table_view, view};
ghost use Rattle.evl_scenario.specs.Tables.{all_given, at_most_items, list_of};
ghost use Rattle.lab_callers_text.specs.Documents.{all_put, is_put, items_in, limit_from, limits_in, mark_in, mark_view, marks_in, plain_board, put_as, put_list, read_for, scenario_in, staxes_in, staxes_of, step_as, steps_in, with_parts};
ghost use Rattle.lab_callers_text.specs.Tables.{with_value, without};

use crate::marks::{Mark, MarkFault, mark_step};
use crate::tables::{put, take};
use arrayvec::ArrayVec;
use evl_scenario::Fault;
use std::alloc::{AllocError, Global};
use toml::{Table, Value};

/// The parts of steps beside the calls of a scenario.
#[derive(Drop)]
pub struct Marks {
    /// A mark for each step.
    pub all: Vec<Option<Mark>>,
    /// Whether each step was put as one of a scenario.
    pub are_put: bool,
}

// The limit of a stax.
fn stax_limit(value: &Value) -> Option<u16>
    ensures { result ≡ limit_from (view value.now) }
{
    match value {
        Value::Integer(number) => u16::try_from(*number).ok(),
        _ => None,
    }
}

// The limits of staxes.
fn stax_limits(values: &[Value]) -> Option<ArrayVec<u16, 16>>
    ensures { option_map (λ list. list.items) result ≡ option_and_then (at_most_items 16) (all_given limit_from (items_view values.now)) }
{
    let mut limits = ArrayVec::new();
    for value in values {
        let limit = stax_limit(value)?;
        if limits.try_push(limit).is_err() {
            return None;
        }
    }
    Some(limits)
}

// The limits of the staxes that a value lists; none where there is no value.
fn listed(value: Option<Value>) -> Option<ArrayVec<u16, 16>>
    ensures { option_map (λ list. list.items) result ≡ list_of limit_from 16 (option_map view value) }
{
    match value {
        Some(value) => match value.as_array() {
            Some(values) => stax_limits(values.as_slice()),
            None => None,
        },
        None => Some(ArrayVec::new()),
    }
}

// The limits of a board's staxes, which are taken away.
fn take_limits(board: &mut Table) -> Option<ArrayVec<u16, 16>>
    ensures limits { option_map (λ list. list.items) result ≡ limits_in (table_view board.old) }
    ensures rest { table_view board.new ≡ without (codes "staxes") (table_view board.old) }
{
    listed(take(board, "staxes"))
}

// The limits of the staxes of what is a board's table, which are taken away.
fn plain_board(board: &mut Value) -> Option<ArrayVec<u16, 16>>
    ensures staxes { IfSome result (λ staxes. staxes_of (view board.old) ≡ Some staxes.items) }
    ensures board { IfSome result (λ staxes. plain_board (view board.old) ≡ Some (view board.new)) }
    ensures other { IfNone result (staxes_of (view board.old) ≡ None) }
{
    match board.as_table_mut() {
        Some(table) => take_limits(table),
        None => None,
    }
}

// The steps of a document, which are taken away.
fn take_steps(alloc: Global, document: &mut Table) -> Option<Vec<Value>>
    ensures steps { IfSome result (λ steps. items_in (table_view document.old) ≡ Some (items_view steps.items)) }
    ensures other { IfNone result (items_in (table_view document.old) ≡ None) }
    ensures rest { table_view document.new ≡ without (codes "step") (table_view document.old) }
{
    match take(document, "step") {
        Some(Value::Array(steps)) => Some(steps),
        Some(_) => None,
        None => Some(Vec::new(alloc)),
    }
}

// Puts a step as that of a scenario after others, and its mark after theirs. If it can't be put so, an empty table,
// which the reader of scenarios refuses, and no mark.
fn put_step(
    alloc: Global,
    value: Value,
    marks: &mut Marks,
    steps: &mut Vec<Value>,
) -> Result<(), AllocError>
    ensures put { OnOk result (marks.new.are_put ≡ marks.old.are_put && is_put (view value)) }
    ensures all { OnOk result (map view steps.new.items ≡ map view steps.old.items ++ put_as (view value) ∷ []) }
    ensures each { OnOk result (length marks.new.all.items ≡ length marks.old.all.items + 1) }
    ensures mark { OnOk result (marks.new.are_put ≡ true → option_map (λ mark. map (option_map mark_view) marks.old.all.items ++ mark ∷ []) (mark_in (view value)) ≡ Some (map (option_map mark_view) marks.new.all.items)) }
    ensures step { OnOk result (marks.new.are_put ≡ true → option_map (λ step. map view steps.old.items ++ step ∷ []) (step_as (view value)) ≡ Some (map view steps.new.items)) }
{
    let mut step = value;
    match mark_step(alloc, &mut step) {
        Ok(mark) => {
            marks.all.push(mark)?;
            steps.push(step)?;
            Ok(())
        }
        Err(MarkFault::Step) => {
            marks.are_put = false;
            marks.all.push(None)?;
            steps.push(Value::Table(Table::new(alloc)))?;
            Ok(())
        }
        Err(MarkFault::Memory) => Err(AllocError),
    }
}

// Puts each of these steps as that of a scenario.
#[tactic(auto, using(crate::proofs::GivenLaws::more_given))]
fn put_steps(alloc: Global, values: Vec<Value>) -> Result<(Marks, Vec<Value>), AllocError>
    ensures put { IfOk result (λ put. put.0.are_put ≡ all_put (items_view values.items)) }
    ensures all { IfOk result (λ put. map view put.1.items ≡ put_list (items_view values.items)) }
    ensures each { IfOk result (λ put. length put.0.all.items ≡ length (put_list (items_view values.items))) }
    ensures marks { IfOk result (λ put. put.0.are_put ≡ true → all_given mark_in (items_view values.items) ≡ Some (map (option_map mark_view) put.0.all.items)) }
    ensures steps { IfOk result (λ put. put.0.are_put ≡ true → all_given step_as (items_view values.items) ≡ Some (map view put.1.items)) }
{
    let mut marks = Marks {
        all: Vec::new(alloc),
        are_put: true,
    };
    let mut steps = Vec::new(alloc);
    for value in values {
        put_step(alloc, value, &mut marks, &mut steps)?;
    }
    Ok((marks, steps))
}

// Puts a board and steps into a document that has neither.
fn put_parts(
    alloc: Global,
    document: &mut Table,
    board: Value,
    steps: Vec<Value>,
) -> Result<(), AllocError>
    ensures { OnOk result (table_view document.new ≡ with_value (codes "step") (array (items_view steps.items)) (with_value (codes "board") (view board) (table_view document.old))) }
{
    put(alloc, document, "board", board)?;
    put(alloc, document, "step", Value::Array(steps))
}

// Puts this board into a document that has none, and its steps as those of a scenario.
fn put_plain(alloc: Global, document: &mut Table, board: Value) -> Result<Marks, Fault>
    ensures put { IfOk result (λ marks. option_map all_put (items_in (table_view document.old)) ≡ Some marks.are_put) }
    ensures each { IfOk result (λ marks. option_map (λ steps. length (put_list steps)) (items_in (table_view document.old)) ≡ Some (length marks.all.items)) }
    ensures read { IfOk result (λ marks. option_map (λ steps. with_parts (table_view document.old) (view board) (put_list steps)) (items_in (table_view document.old)) ≡ Some (table_view document.new)) }
    ensures other { IfErr result (λ e. (e ≡ Fault.Memory) ⊎ ((e ≡ Fault.Board) × (items_in (table_view document.old) ≡ None))) }
    ensures marks { IfOk result (λ marks. marks.are_put ≡ true → marks_in (table_view document.old) ≡ Some (map (option_map mark_view) marks.all.items)) }
    ensures plain { IfOk result (λ marks. marks.are_put ≡ true → option_map (with_parts (table_view document.old) (view board)) (steps_in (table_view document.old)) ≡ Some (table_view document.new)) }
{
    let Some(values) = take_steps(alloc, document) else {
        return Err(Fault::Board);
    };
    let Ok((marks, steps)) = put_steps(alloc, values) else {
        return Err(Fault::Memory);
    };
    match put_parts(alloc, document, board, steps) {
        Ok(()) => Ok(marks),
        Err(_) => Err(Fault::Memory),
    }
}

/// Makes a document that of a scenario. The limits of its staxes, and the marks of its steps. `Board` where it has no
/// table of a board, no list of steps, or no list of limits.
#[tactic(auto, using(crate::proofs::TableLaws::items_without, crate::proofs::TableLaws::marks_without, crate::proofs::TableLaws::steps_without))]
pub fn make_plain(alloc: Global, document: &mut Table) -> Result<(ArrayVec<u16, 16>, Marks), Fault>
    ensures staxes { IfOk result (λ taken. staxes_in (table_view document.old) ≡ Some taken.0.items) }
    ensures put { IfOk result (λ taken. option_map all_put (items_in (table_view document.old)) ≡ Some taken.1.are_put) }
    ensures each { IfOk result (λ taken. option_map (λ steps. length (put_list steps)) (items_in (table_view document.old)) ≡ Some (length taken.1.all.items)) }
    ensures read { IfOk result (λ taken. read_for (table_view document.old) ≡ Some (table_view document.new)) }
    ensures other { IfErr result (λ e. (e ≡ Fault.Memory) ⊎ ((e ≡ Fault.Board) × ((staxes_in (table_view document.old) ≡ None) ⊎ (items_in (table_view document.old) ≡ None)))) }
    ensures marks { IfOk result (λ taken. taken.1.are_put ≡ true → marks_in (table_view document.old) ≡ Some (map (option_map mark_view) taken.1.all.items)) }
    ensures plain { IfOk result (λ taken. taken.1.are_put ≡ true → scenario_in (table_view document.old) ≡ Some (table_view document.new)) }
{
    let Some(mut board) = take(document, "board") else {
        return Err(Fault::Board);
    };
    let Some(staxes) = plain_board(&mut board) else {
        return Err(Fault::Board);
    };
    match put_plain(alloc, document, board) {
        Ok(marks) => Ok((staxes, marks)),
        Err(fault) => Err(fault),
    }
}
