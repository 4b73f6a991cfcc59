//! The board and the limit of a scenario.
ghost use Rattle.std.specs.Prelude.{◌≡◌, codes};
ghost use Rattle.toml.specs.Data.{get_member};
ghost use Rattle.toml.specs.View.{table_view};
ghost use Rattle.evl_scenario.specs.Boards.{board_of, elements_of, is_limit, own_limit, limit_of};

use crate::tables::{at, field, has_only_keys, list_at};
use crate::values::FromToml;
use arrayvec::ArrayVec;
use evl_base::Board;
use toml::Table;

/// The board that a table means, where it has no other keys and all of its numbers are in their ranges.
/// It has no stage exclusion locks: they have no key.
pub fn read_board(table: &Table) -> Option<Board>
    ensures { result ≡ board_of (table_view table.now) }
{
    if !has_only_keys(
        table,
        &["threads", "sems", "flags", "xbufs", "mutexes", "groups"],
    ) {
        return None;
    }
    read_elements(table, at(table, "threads")?)
}

/// The board that the lists of a table are, with so many threads, where all of its numbers are in their ranges.
pub fn read_elements(table: &Table, threads: u16) -> Option<Board>
    ensures { result ≡ elements_of threads (table_view table.now) }
{
    let board = Board {
        threads,
        sems: list_at(table, "sems")?,
        flags: list_at(table, "flags")?,
        xbufs: list_at(table, "xbufs")?,
        mutexes: list_at(table, "mutexes")?,
        groups: list_at(table, "groups")?,
        staxes: ArrayVec::new(),
    };
    if board.check().is_err() {
        return None;
    }
    Some(board)
}

/// Whether a history may be limited to so many entries: 1 to 1,000,000.
pub fn is_limit_in_range(limit: u32) -> bool
    ensures { result ≡ is_limit limit }
{
    1 <= limit && limit <= 1_000_000
}

// The limit in a document.
fn read_own_limit(table: &Table) -> Option<u32>
    ensures { result ≡ own_limit (get_member (codes "limit") (table_view table.now)) }
{
    match field(table, "limit") {
        None => Some(1000),
        Some(value) => u32::from_toml(value),
    }
}

/// The limit that is handed in, or else that of a document. Both have to be in their range.
pub fn read_limit(table: &Table, given: Option<u32>) -> Option<u32>
    ensures { result ≡ limit_of given (table_view table.now) }
{
    let own = read_own_limit(table)?;
    let limit = given.unwrap_or(own);
    if is_limit_in_range(own) && is_limit_in_range(limit) {
        Some(limit)
    } else {
        None
    }
}
