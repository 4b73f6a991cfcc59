//! A scenario, written as a text of lines.
ghost use Rattle.std.specs.Prelude.{◌≡◌, ◌⊎◌, ◌++◌, [], false, true, IfErr, IfOk, None, OnOk, Ok, drop, flat_map, map};
ghost use Rattle.std.specs.Str.{bytes_eq};
ghost use Rattle.evl_scenario.specs.Scenarios.{Script, scenario_of};
ghost use Rattle.evl_scenario.specs.Writings.{scenario_text, script_of_history, step_of_entry};
ghost use Rattle.lab_lines.specs.Lines.{words_of};
ghost use Rattle.lab_lines.specs.Writings.{IsOtherwise, IsTables, IsUnlined, IsUnlinedOf, IsWritten, MeansText, board_line, given_text, lines_text, step_line};

use crate::places::{bytes_at, words_in};
use crate::texts::{LinesFault, entry_of, lines_of, read_lines};
use evl_base::{Board, Entry};
use evl_scenario::{
    Fault, Scenario, Step, Unwritten, read_scenario, write_opening, write_scenario,
};
use std::alloc::{AllocError, Global};

/// Why a scenario isn't written as a text of lines.
#[derive(Clone, Copy, PartialEq, Eq)]
pub enum Unlined {
    /// The text is no scenario.
    Scenario(Fault),
    /// With a table for each step it would be none; `TooLong`, or `Memory` where a growth was refused.
    Unwritten(Unwritten),
    /// Its lines would read otherwise.
    Unlike,
}

// The bytes of a line from one on.
fn bytes_from(line: &[u8], at: usize) -> &[u8]
    ensures { result.now ≡ drop at line.now }
{
    line.get(at..).unwrap_or(&[])
}

// Puts a key with its value, from the line that a scenario has of them.
fn put_given(alloc: Global, text: &mut Vec<u8>, line: &[u8]) -> Result<(), AllocError>
    ensures { OnOk result (text.new.items ≡ text.old.items ++ given_text line.now (words_of line.now)) }
{
    let words = words_in(alloc, line)?;
    match words.as_slice() {
        [key, _, value, ..] => {
            text.extend_from_slice(b" ")?;
            text.extend_from_slice(bytes_at(line, *key))?;
            text.extend_from_slice(b"=")?;
            text.extend_from_slice(bytes_from(line, value.from))
        }
        _ => Ok(()),
    }
}

// Puts all keys with their values.
fn put_all_given(alloc: Global, text: &mut Vec<u8>, all: &[&str]) -> Result<(), AllocError>
    ensures { OnOk result (text.new.items ≡ text.old.items ++ flat_map (λ line. given_text line (words_of line)) (map (λ line. line.now) all.now)) }
{
    for line in all {
        put_given(alloc, text, line.as_bytes())?;
    }
    Ok(())
}

// Puts the limit and the board in one line.
fn put_board(alloc: Global, text: &mut Vec<u8>, board: &Board, limit: u32) -> Result<(), AllocError>
    ensures { OnOk result (text.new.items ≡ text.old.items ++ board_line (record { board = board.now; limit = limit; steps = [] })) }
{
    let mut opening = String::new(alloc);
    write_opening(&mut opening, board, limit)?;
    let all = lines_of(alloc, opening.as_str())?;
    text.extend_from_slice(b"board")?;
    put_all_given(alloc, text, all.as_slice())?;
    text.extend_from_slice(b"\n")
}

// Puts the line of a step.
fn put_step(alloc: Global, text: &mut Vec<u8>, step: &Step) -> Result<(), AllocError>
    ensures { OnOk result (text.new.items ≡ text.old.items ++ step_line step.now) }
{
    let mut line = String::new(alloc);
    line.write(step)?;
    text.extend_from_slice(line.as_bytes())?;
    text.extend_from_slice(b"\n")
}

// Puts the lines of steps.
fn put_steps(alloc: Global, text: &mut Vec<u8>, steps: &[Step]) -> Result<(), AllocError>
    ensures { OnOk result (text.new.items ≡ text.old.items ++ flat_map step_line steps.now) }
{
    for step in steps {
        put_step(alloc, text, step)?;
    }
    Ok(())
}

// The lines of a board, a limit and steps.
fn lines_with(
    alloc: Global,
    board: &Board,
    limit: u32,
    steps: &[Step],
) -> Result<Vec<u8>, AllocError>
    ensures { IfOk result (λ text. text.items ≡ lines_text (record { board = board.now; limit = limit; steps = steps.now })) }
{
    let mut text = Vec::new(alloc);
    put_board(alloc, &mut text, board, limit)?;
    put_steps(alloc, &mut text, steps)?;
    Ok(text)
}

// Steps as the entries of a history.
fn entries_of(alloc: Global, steps: Vec<Step>) -> Result<Vec<Entry>, AllocError>
    ensures { IfOk result (λ entries. map step_of_entry entries.items ≡ steps.items) }
{
    let mut entries = Vec::new(alloc);
    for step in steps {
        entries.push(entry_of(step))?;
    }
    Ok(entries)
}

// Whether two texts are the same.
fn is_same(one: &str, other: &str) -> bool
    ensures { result ≡ bytes_eq one.now other.now }
{
    one == other
}

// A text, if it is taken.
fn taken_if(is_taken: bool, text: Vec<u8>) -> Result<Vec<u8>, Unlined>
    ensures taken { IfOk result (λ new. (is_taken ≡ true) × (new.items ≡ text.items)) }
    ensures unlike { IfErr result (λ e. (is_taken ≡ false) × (e ≡ Unlined.Unlike)) }
{
    if is_taken {
        Ok(text)
    } else {
        Err(Unlined::Unlike)
    }
}

// Why lines that can't be read aren't written.
fn unlined_by(fault: LinesFault) -> Unlined
    ensures { (result ≡ Unlined.Unwritten Unwritten.Memory) ⊎ (result ≡ Unlined.Unlike) }
{
    match fault {
        LinesFault::Memory => Unlined::Unwritten(Unwritten::Memory),
        _ => Unlined::Unlike,
    }
}

// A text of lines, if it means just this scenario.
fn compared(alloc: Global, own: &str, text: Vec<u8>) -> Result<Vec<u8>, Unlined>
    ensures same { IfOk result (λ new. new.items ≡ text.items) }
    ensures means { OnOk result (MeansText own.now text.items) }
    ensures refused { IfErr result (IsOtherwise own.now text.items) }
{
    match read_lines(alloc, text.as_slice()) {
        Ok(meant) => taken_if(is_same(meant.scenario.as_str(), own), text),
        Err(fault) => Err(unlined_by(fault)),
    }
}

// The lines of a scenario, compared with its text.
fn write_compared(
    alloc: Global,
    board: &Board,
    limit: u32,
    entries: &[Entry],
    text: Vec<u8>,
) -> Result<Vec<u8>, Unlined>
    requires { text.items ≡ lines_text (script_of_history board.now limit entries.now) }
    ensures written { IfOk result (λ new. IsWritten (script_of_history board.now limit entries.now) new.items) }
    ensures refused { IfErr result (IsUnlinedOf (script_of_history board.now limit entries.now)) }
{
    match write_scenario(alloc, board, limit, entries) {
        Ok(own) => compared(alloc, own.as_str(), text),
        Err(why) => Err(Unlined::Unwritten(why)),
    }
}

// The lines of a scenario.
fn write_read(alloc: Global, scenario: Scenario) -> Result<Vec<u8>, Unlined>
    ensures written { IfOk result (λ text. IsWritten scenario text.items) }
    ensures refused { IfErr result (IsUnlinedOf scenario) }
{
    let (board, limit, steps) = scenario.into_parts();
    let Ok(text) = lines_with(alloc, &board, limit, steps.as_slice()) else {
        return Err(Unlined::Unwritten(Unwritten::Memory));
    };
    let Ok(entries) = entries_of(alloc, steps) else {
        return Err(Unlined::Unwritten(Unwritten::Memory));
    };
    write_compared(alloc, &board, limit, entries.as_slice(), text)
}

/// The text of lines of a scenario: its board with its limit, and a line for each step. Read as a text of lines, it
/// means just this board, this limit and these steps.
pub fn write_lines(alloc: Global, scenario: &[u8]) -> Result<Vec<u8>, Unlined>
    ensures written { IfOk result (λ text. (script : Script) × (scenario_of None scenario.now ≡ Ok script) × IsWritten script text.items) }
    ensures refused { IfErr result (IsUnlined (scenario_of None scenario.now)) }
{
    match read_scenario(alloc, scenario, None) {
        Ok(read) => write_read(alloc, read),
        Err(fault) => Err(Unlined::Scenario(fault)),
    }
}

// The text of a scenario that was read.
fn write_whole(alloc: Global, scenario: Scenario) -> Result<Vec<u8>, Unlined>
    ensures written { IfOk result (λ text. IsTables scenario text.items) }
    ensures refused { IfErr result (IsUnlinedOf scenario) }
{
    let (board, limit, steps) = scenario.into_parts();
    let Ok(entries) = entries_of(alloc, steps) else {
        return Err(Unlined::Unwritten(Unwritten::Memory));
    };
    match write_scenario(alloc, &board, limit, entries.as_slice()) {
        Ok(text) => Ok(text.into_bytes()),
        Err(why) => Err(Unlined::Unwritten(why)),
    }
}

/// The text of a scenario, written out: a table for each step, with all keys. Read as a scenario, it means just this
/// board, this limit and these steps.
pub fn write_tables(alloc: Global, scenario: &[u8]) -> Result<Vec<u8>, Unlined>
    ensures written { IfOk result (λ text. (script : Script) × (scenario_of None scenario.now ≡ Ok script) × IsTables script text.items) }
    ensures refused { IfErr result (IsUnlined (scenario_of None scenario.now)) }
{
    match read_scenario(alloc, scenario, None) {
        Ok(read) => write_whole(alloc, read),
        Err(fault) => Err(Unlined::Scenario(fault)),
    }
}
