//! Scenarios, written as text: a board, a limit, and the steps of a history.
ghost use Rattle.std.specs.Prelude.{◌≡◌, ◌++◌, ◌<◌, ◌≤◌, ◌⊎◌, nat_le, length, map, None, Ok, OnOk, IfOk, IfErr, string_bytes};
ghost use Rattle.evl_scenario.specs.Scenarios.{scenario_of};
ghost use Rattle.evl_scenario.specs.Widths.{StepFits, StepsFit};
ghost use Rattle.evl_scenario.specs.Writings.{IsUnwritten, has_keys, opening_text, scenario_text, script_of_history, step_of_entry, table_text, tables_text, without_staxes};

use crate::boards::is_limit_in_range;
use crate::lists::write_list_pair;
use crate::scenarios::MOST_BYTES;
use crate::step_texts::StepTable;
use crate::widths::{know_board, know_step};
use arrayvec::ArrayVec;
use evl_base::{Board, Call, Entry, ThreadId};
use std::alloc::{AllocError, Allocator};

/// Why a history wasn't written as a scenario.
#[derive(Clone, Copy, PartialEq, Eq)]
pub enum Unwritten {
    /// The board has a stage exclusion lock, for which a scenario has no key, or a number outside its limits.
    Board,
    /// The limit is 0, or more than 1,000,000.
    Limit,
    /// The text would have more than 1,048,576 bytes, and be no scenario.
    TooLong,
    /// A growth was refused.
    Memory,
}

fn has_all_keys(board: &Board) -> bool
    ensures { result ≡ has_keys board.now }
{
    board.check().is_ok() && board.staxes.is_empty()
}

fn is_short<A: Allocator>(text: &String<A>) -> bool
    ensures { result ≡ nat_le (length (string_bytes text.now)) 1048576 }
{
    text.len() <= MOST_BYTES
}

/// Writes the limit and the board after a text, as the head of a scenario. `AllocError` where the text couldn't grow;
/// what it holds then isn't known. Stage exclusion locks of the board aren't written.
pub fn write_opening<A: Allocator>(
    text: &mut String<A>,
    board: &Board,
    limit: u32,
) -> Result<(), AllocError>
    ensures { OnOk result (string_bytes text.new ≡ string_bytes text.old ++ opening_text board.now limit) }
{
    let threads = board.threads;
    write!(text, "limit = {limit}\n\n[board]\nthreads = {threads}\n")?;
    write_list_pair(text, "sems", board.sems.as_slice())?;
    write_list_pair(text, "flags", board.flags.as_slice())?;
    write_list_pair(text, "xbufs", board.xbufs.as_slice())?;
    write_list_pair(text, "mutexes", board.mutexes.as_slice())?;
    write_list_pair(text, "groups", board.groups.as_slice())?;
    Ok(())
}

/// Writes a step after a text: an empty line, and a table with its word, its thread and the keys of its call.
/// `AllocError` where the text couldn't grow; what it holds then isn't known.
pub fn write_step<A: Allocator>(
    text: &mut String<A>,
    who: ThreadId,
    call: &Call,
) -> Result<(), AllocError>
    ensures text { OnOk result (string_bytes text.new ≡ string_bytes text.old ++ table_text (record { who = who; call = call.now })) }
    ensures fits { StepFits (record { who = who; call = call.now }) }
{
    know_step(who, call);
    text.write(StepTable { who, call })
}

/// The same board without stage exclusion locks, for which a scenario has no key, and of which no call of a history
/// speaks: a history over the one is a history over the other.
pub fn without_staxes(board: Board) -> Board
    ensures { result ≡ without_staxes board }
{
    let Board {
        threads,
        sems,
        flags,
        xbufs,
        mutexes,
        groups,
        staxes: _,
    } = board;
    Board {
        threads,
        sems,
        flags,
        xbufs,
        mutexes,
        groups,
        staxes: ArrayVec::new(),
    }
}

// Writes a step for each entry of a history, while the text is short enough for a scenario.
fn write_entries<A: Allocator>(text: &mut String<A>, entries: &[Entry]) -> Result<(), Unwritten>
    ensures text { OnOk result (string_bytes text.new ≡ string_bytes text.old ++ tables_text (map step_of_entry entries.now)) }
    ensures short { OnOk result (length (string_bytes text.new) ≤ 1048576) }
    ensures fit { OnOk result (StepsFit (map step_of_entry entries.now)) }
    ensures refused { IfErr result (λ e. (e ≡ Unwritten.Memory) ⊎ ((e ≡ Unwritten.TooLong) × (1048576 < length (string_bytes text.old ++ tables_text (map step_of_entry entries.now))))) }
{
    for entry in entries {
        if !is_short(text) {
            return Err(Unwritten::TooLong);
        }
        match write_step(text, entry.caller, &entry.call) {
            Ok(()) => {}
            Err(_) => return Err(Unwritten::Memory),
        }
    }
    if is_short(text) {
        Ok(())
    } else {
        Err(Unwritten::TooLong)
    }
}

/// The scenario of a history: its board, its limit, and a step for each entry, in order. Read as a scenario, it asks
/// for just these. `Board` and `Limit` where a scenario can't have this board or limit, `TooLong` where the text would
/// be longer than a scenario may be; `Memory` where a growth was refused.
pub fn write_scenario<A: Allocator>(
    alloc: A,
    board: &Board,
    limit: u32,
    entries: &[Entry],
) -> Result<String<A>, Unwritten>
    ensures text { IfOk result (λ text. string_bytes text ≡ scenario_text (script_of_history board.now limit entries.now)) }
    ensures reads_back { IfOk result (λ text. scenario_of None (string_bytes text) ≡ Ok (script_of_history board.now limit entries.now)) }
    ensures refused { IfErr result (λ e. IsUnwritten e (script_of_history board.now limit entries.now)) }
{
    if !has_all_keys(board) {
        return Err(Unwritten::Board);
    }
    if !is_limit_in_range(limit) {
        return Err(Unwritten::Limit);
    }
    know_board(board);
    let mut text = String::new(alloc);
    match write_opening(&mut text, board, limit) {
        Ok(()) => {}
        Err(_) => return Err(Unwritten::Memory),
    }
    match write_entries(&mut text, entries) {
        Ok(()) => Ok(text),
        Err(e) => Err(e),
    }
}
