//! Traces, written from histories.
ghost use Rattle.std.specs.Prelude.{◌≡◌, ◌++◌, OnOk, IfOk, IfErr, string_bytes};
ghost use Rattle.evl_scenario.specs.Lines.{board_line_of, board_line_text, play_lines};
ghost use Rattle.evl_scenario.specs.Traces.{entry_lines, history_trace, lines_behind};

use crate::lines::{PlayLine, board_line};
use evl_base::{Board, Call, Entry, Play, Refusal, Reply, ThreadId};
use std::alloc::{AllocError, Allocator};
use std::fmt;

// The caller of a call, and the call.
#[derive(Drop)]
struct MadeCall<'a> {
    who: ThreadId,
    call: &'a Call,
}

impl<'a> fmt::Display for MadeCall<'a> {
    ghost use Rattle.std.specs.Prelude.{Some};
    ghost use Rattle.evl_scenario.specs.Lines.{step_text};

    ghost output = { λ made. Some (step_text (record { who = made.who; call = made.call.now })) };

    fn fmt<W: fmt::Write>(&self, f: &mut fmt::Formatter<W>) -> fmt::Result {
        let who = self.who.0;
        let call = self.call;
        write!(f, "T{who} {call}")
    }
}

// The answer that an entry has for its call.
#[derive(Drop)]
struct Answered<'a>(&'a Result<Reply, Refusal>);

impl<'a> fmt::Display for Answered<'a> {
    ghost use Rattle.std.specs.Prelude.{Some};
    ghost use Rattle.evl_base.specs.Reply.{outcome_text};

    ghost output = { λ answered. Some (outcome_text answered.0.now) };

    fn fmt<W: fmt::Write>(&self, f: &mut fmt::Formatter<W>) -> fmt::Result {
        match self.0 {
            Ok(reply) => write!(f, "{reply}"),
            Err(refusal) => f.write_str(refusal.name()),
        }
    }
}

// The line of an entry, with its number in the history.
#[derive(Drop)]
struct EntryLine<'a> {
    number: usize,
    entry: &'a Entry,
}

impl<'a> fmt::Display for EntryLine<'a> {
    ghost use Rattle.std.specs.Prelude.{Some};
    ghost use Rattle.evl_scenario.specs.Traces.{entry_line};

    ghost output = { λ line. Some (entry_line line.number line.entry.now) };

    fn fmt<W: fmt::Write>(&self, f: &mut fmt::Formatter<W>) -> fmt::Result {
        let number = self.number;
        let made = MadeCall {
            who: self.entry.caller,
            call: &self.entry.call,
        };
        let answered = Answered(&self.entry.reply);
        write!(f, "{number} {made} -> {answered}\n")
    }
}

/// Writes the first line of a trace after a text: how many threads and elements there are, and the limit. `AllocError`
/// where the text couldn't grow; what it holds then isn't known.
pub fn write_board_line<A: Allocator>(
    text: &mut String<A>,
    board: &Board,
    limit: u32,
) -> Result<(), AllocError>
    ensures { OnOk result (string_bytes text.new ≡ string_bytes text.old ++ board_line_text (board_line_of board.now limit)) }
{
    text.write(board_line(board, limit))
}

// Writes the lines of some plays after a text.
fn write_plays<A: Allocator>(text: &mut String<A>, plays: &[Play]) -> Result<(), AllocError>
    ensures { OnOk result (string_bytes text.new ≡ string_bytes text.old ++ play_lines plays.now) }
{
    for play in plays {
        match text.write(PlayLine(*play)) {
            Ok(()) => {}
            Err(_) => return Err(AllocError),
        }
    }
    Ok(())
}

/// Writes the lines of an entry after a text: that of its call, with the number that the entry has in its history,
/// from 1, and one for each of its plays. `AllocError` where the text couldn't grow; what it holds then isn't known.
pub fn write_entry<A: Allocator>(
    text: &mut String<A>,
    number: usize,
    entry: &Entry,
    plays: &[Play],
) -> Result<(), AllocError>
    ensures { OnOk result (string_bytes text.new ≡ string_bytes text.old ++ entry_lines number entry.now plays.now) }
{
    match text.write(EntryLine { number, entry }) {
        Ok(()) => write_plays(text, plays),
        Err(_) => Err(AllocError),
    }
}

/// Writes the lines of all entries, of which each takes its own plays off the front of those that are left.
/// `AllocError` where memory couldn't grow.
pub fn write_history<A: Allocator>(
    text: &mut String<A>,
    entries: &[Entry],
    plays: &[Play],
) -> Result<(), AllocError>
    ensures { OnOk result (string_bytes text.new ≡ string_bytes text.old ++ lines_behind 0 entries.now plays.now) }
{
    let mut left = plays;
    for (i, entry) in entries.iter().enumerate() {
        let (own, others) = left.split_at(entry.plays.min(left.len()));
        match write_entry(text, i + 1, entry, own) {
            Ok(()) => left = others,
            Err(_) => return Err(AllocError),
        }
    }
    Ok(())
}

/// The trace of a history, written from its board, its limit, its entries and all their plays, as a kernel gives them,
/// with no call made again. `NoMemory` where a growth was refused, and nothing else.
pub fn trace_history<A: Allocator>(
    alloc: A,
    board: &Board,
    limit: u32,
    entries: &[Entry],
    plays: &[Play],
) -> Result<String<A>, Refusal>
    ensures trace { IfOk result (λ text. string_bytes text ≡ history_trace board.now limit entries.now plays.now) }
    ensures refused { IfErr result (λ e. e ≡ Refusal.NoMemory) }
{
    let mut text = String::new(alloc);
    match write_board_line(&mut text, board, limit) {
        Ok(()) => {}
        Err(_) => return Err(Refusal::NoMemory),
    }
    match write_history(&mut text, entries, plays) {
        Ok(()) => Ok(text),
        Err(_) => Err(Refusal::NoMemory),
    }
}
