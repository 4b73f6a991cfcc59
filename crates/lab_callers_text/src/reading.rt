//! Texts of callers, read: a board with its staxes, a limit, and steps of callers among those of a scenario.
ghost use Rattle.std.specs.Prelude.{◌≡◌, ◌≤◌, ◌⊎◌, ◌&&◌, IfErr, IfOk, None, Ok, Some, false, length, string_bytes, true};
ghost use Rattle.std.specs.List.{list_all};
ghost use Rattle.toml.specs.Data.{members_depth, members_have_valid_dates};
ghost use Rattle.toml.specs.Parse.{parse_document};
ghost use Rattle.toml.specs.View.{table_view};
ghost use Rattle.evl_base.specs.Board.{board_fits};
ghost use Rattle.evl_base.specs.Limits.{stax_fits};
ghost use Rattle.evl_scenario.specs.Scenarios.{Script, scenario_of};
ghost use Rattle.lab_callers_text.specs.Readings.{IsRead, IsRefused, IsUnfit, OpensAs, document_of, steps_as};

use crate::acts::CallersStep;
use crate::documents::make_plain;
use crate::marks::{Mark, act_of};
use arrayvec::ArrayVec;
use evl_base::Board;
use evl_scenario::{Fault, Step, read_scenario};
use std::alloc::{AllocError, Global};
use toml::Table;

// A longer text is none.
const MOST_BYTES: usize = 1_048_576;

/// The play that a text of callers asks for: a board, the limit of its history, and the steps in order.
#[derive(Drop)]
pub struct CallersText {
    pub board: Board,
    pub limit: u32,
    pub steps: Vec<CallersStep>,
}

// The document that a text is.
fn document_of(alloc: Global, bytes: &[u8]) -> Result<Table, Fault>
    ensures parsed { IfOk result (λ table. parse_document bytes.now ≡ Some (table_view table)) }
    ensures document { IfOk result (λ table. document_of bytes.now ≡ Some (table_view table)) }
    ensures other { IfErr result (λ e. (e ≡ Fault.Memory) ⊎ ((e ≡ Fault.Text) × (document_of bytes.now ≡ None))) }
{
    if bytes.len() > MOST_BYTES {
        return Err(Fault::Text);
    }
    let Ok(text) = str::from_utf8(bytes) else {
        return Err(Fault::Text);
    };
    match toml::table_from_str(alloc, text) {
        Ok(table) => Ok(table),
        Err(error) => Err(if error.is_memory() {
            Fault::Memory
        } else {
            Fault::Text
        }),
    }
}

// The text of a document in which each step is that of a scenario.
fn text_of(alloc: Global, table: &Table) -> Result<String, Fault>
    ensures text { IfOk result (λ text. members_depth (table_view table.now) ≤ 80 → parse_document (string_bytes text) ≡ Some (table_view table.now)) }
    ensures other { IfErr result (λ e. (e ≡ Fault.Memory) ⊎ ((e ≡ Fault.Text) × (members_have_valid_dates (table_view table.now) ≡ false))) }
{
    match toml::table_to_string(alloc, table) {
        Ok(text) => Ok(text),
        Err(toml::ser::Error::DateInvalid) => Err(Fault::Text),
        Err(toml::ser::Error::OutOfMemory) => Err(Fault::Memory),
    }
}

// The steps of callers, of the marks and what is in their place.
fn steps_of(
    alloc: Global,
    marks: Vec<Option<Mark>>,
    steps: Vec<Step>,
) -> Result<Vec<CallersStep>, AllocError>
    ensures { IfOk result (λ all. all.items ≡ steps_as marks.items steps.items) }
{
    let mut all = Vec::new(alloc);
    for (mark, step) in marks.into_iter().zip(steps) {
        let Step { who, call } = step;
        all.push(CallersStep {
            who,
            act: act_of(mark, call),
        })?;
    }
    Ok(all)
}

// The board with these staxes.
fn with_staxes(board: Board, staxes: ArrayVec<u16, 16>) -> Board
    ensures { result ≡ record board { staxes = staxes } }
{
    let mut board = board;
    board.staxes = staxes;
    board
}

// The play that the text of a scenario asks for, with these staxes and marks.
fn read_marked(
    alloc: Global,
    text: &str,
    limit: Option<u32>,
    staxes: ArrayVec<u16, 16>,
    marks: Vec<Option<Mark>>,
) -> Result<CallersText, Fault>
    ensures fits { IfOk result (λ t. board_fits t.board ≡ true) }
    ensures opens { IfOk result (OpensAs limit text.now staxes.items marks.items) }
    ensures other { IfErr result (λ e. (e ≡ Fault.Memory) ⊎ IsUnfit limit text.now staxes.items (length marks.items) e) }
{
    let (board, limit, steps) = read_scenario(alloc, text.as_bytes(), limit)?.into_parts();
    let board = with_staxes(board, staxes);
    if board.check().is_err() {
        return Err(Fault::Board);
    }
    if marks.len() != steps.len() {
        return Err(Fault::Text);
    }
    match steps_of(alloc, marks, steps) {
        Ok(steps) => Ok(CallersText {
            board,
            limit,
            steps,
        }),
        Err(_) => Err(Fault::Memory),
    }
}

/// The play that a text of callers asks for, under a limit that may be handed in. Faults are those of the scenario that
/// it is but for staxes and callers' words; `Board` also for staxes out of their range, and `Step` for a step of a
/// caller that misses a key.
pub fn read_callers(alloc: Global, bytes: &[u8], limit: Option<u32>) -> Result<CallersText, Fault>
    ensures fits { IfOk result (λ t. board_fits t.board ≡ true) }
    ensures opens { IfOk result (IsRead limit bytes.now) }
    ensures refused { IfErr result (IsRefused limit bytes.now) }
{
    let mut table = document_of(alloc, bytes)?;
    let (staxes, marks) = make_plain(alloc, &mut table)?;
    let text = text_of(alloc, &table)?;
    let read = read_marked(alloc, text.as_str(), limit, staxes, marks.all)?;
    if marks.are_put {
        Ok(read)
    } else {
        Err(Fault::Text)
    }
}
