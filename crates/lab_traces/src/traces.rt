//! The lines of a trace.
ghost use Rattle.std.specs.Prelude.{◌≡◌, ◌⊎◌, ◌++◌, ℕ, map, Option, None, Some, option_map, IfSome, IfOk, IfErr, Result};
ghost use Rattle.std.specs.List.{All};
ghost use Rattle.evl_base.specs.declared.play.Play.{Play};
ghost use Rattle.evl_base.specs.declared.refusal.Refusal.{Refusal};
ghost use Rattle.evl_base.specs.declared.reply.Reply.{Reply};
ghost use Rattle.evl_scenario.specs.Lines.{board_line_text, line_feed, line_text, play_line_text};
ghost use Rattle.evl_scenario.specs.Widths.{StepFits};
ghost use Rattle.evl_scenario.specs.declared.lines.BoardLine.{BoardLine};
ghost use Rattle.evl_scenario.specs.declared.steps.Step.{Step};
ghost use Rattle.lab_traces.specs.Entries.{NumberFits, step_parts};
ghost use Rattle.lab_traces.specs.Lines.{Said, board, entry, play, BoardFits, SaidFits, line_read, said_text, unspaced_read};
ghost use Rattle.lab_traces.specs.Parts.{Lacks};
ghost use Rattle.lab_traces.specs.Plays.{PlayFits};
ghost use Rattle.lab_traces.specs.Says.{BeginsOtherwise, IsLine, IsMisread, read_of, says_of, says_some, text_of, whole_lines};

use crate::boards::read_board;
use crate::entries::{EntryLine, read_entry};
use crate::parts::{around_line_feed, behind};
use crate::plays::read_play;
use evl_base::Play;
use evl_scenario::BoardLine;
use std::alloc::Global;

/// The words of a line of a trace.
#[derive(Clone, Copy, PartialEq, Eq)]
pub enum Says<'a> {
    /// The board and the limit.
    Board(BoardLine),
    /// A call and its answer.
    Entry(EntryLine<'a>),
    /// A play of the call before it.
    Play(Play),
}

/// A line of a trace, without its line feed, and what it says.
#[derive(Clone, Copy, PartialEq, Eq)]
pub struct TraceLine<'a> {
    pub text: &'a str,
    pub says: Says<'a>,
}

/// Why the lines of a trace couldn't be read.
#[derive(Clone, Copy, PartialEq, Eq)]
pub enum Misread {
    /// A growth was refused.
    Memory,
    /// The first line that is none of a trace, from 1.
    Line(usize),
}

// The words of a line that doesn't begin with two spaces.
fn read_unspaced(text: &str) -> Option<Says<'_>>
    ensures { option_map says_of result ≡ unspaced_read text.now }
{
    if text.starts_with("board ") {
        Some(Says::Board(read_board(text)?))
    } else {
        Some(Says::Entry(read_entry(text)?))
    }
}

// The words of a line, by the parts that it is read in.
fn read_parts(text: &str) -> Option<Says<'_>>
    ensures { option_map says_of result ≡ line_read text.now }
{
    match behind("  ", text) {
        Some(rest) => Some(Says::Play(read_play(rest)?)),
        None => read_unspaced(text),
    }
}

/// The words of a line, without its line feed; none where it is no line of a trace. Reading is inverse to writing:
/// whatever a line says, its text is read as that, and what a text is read as has just that text.
pub fn read_line(text: &str) -> Option<Says<'_>>
    ensures read { option_map says_of result ≡ line_read text.now }

    // The text of whatever a line can say is read as that.
    ensures back { (said : Said) → SaidFits said → text.now ≡ said_text said → option_map says_of result ≡ Some said }

    // The words read have just this text.
    ensures whole { IfSome result (λ says. text.now ≡ said_text (says_of says)) }

    // The line of a step and of what its call answered, for every call, is read as its parts.
    ensures called { (number : Option ℕ) (step : Step) (answer : Result Reply Refusal) → NumberFits number → StepFits step → text.now ++ line_feed ≡ line_text number step answer → option_map says_of result ≡ Some (entry (step_parts number step answer)) }

    // The line of a play is read as that play.
    ensures fire { (p : Play) → PlayFits p → text.now ++ line_feed ≡ play_line_text p → option_map says_of result ≡ Some (play p) }

    // The line of a board and a limit is read as theirs.
    ensures opening { (line : BoardLine) → BoardFits line → text.now ++ line_feed ≡ board_line_text line → option_map says_of result ≡ Some (board line) }
{
    read_parts(text)
}

// The first line of a text, if it is one of a trace, and what follows its line feed.
#[tactic(auto, using(crate::proofs::FirstLaws::whole_is, crate::proofs::FirstLaws::none_is))]
fn first_line(text: &str) -> Option<(TraceLine<'_>, &str)>
    ensures read { IfSome result (λ cut. read_of cut.0 ≡ says_some cut.0) }
    ensures whole { IfSome result (λ cut. text.now ≡ text_of cut.0 ++ (line_feed ++ cut.1.now)) }
    ensures apart { IfSome result (λ cut. Lacks 10 (text_of cut.0)) }
    ensures none { result ≡ None → BeginsOtherwise text.now }
{
    let (line, more) = around_line_feed(text)?;
    let says = read_line(line)?;
    Some((TraceLine { text: line, says }, more))
}

/// The lines of a trace. `Line` where one is no line of a trace, or the last has no line feed; `Memory` where a growth
/// was refused.
pub fn read_lines(alloc: Global, text: &str) -> Result<Vec<TraceLine<'_>>, Misread>
    // Each line is read as what its text says, and together they are the text.
    ensures says { IfOk result (λ lines. map read_of lines.items ≡ map says_some lines.items) }
    ensures whole { IfOk result (λ lines. whole_lines (map text_of lines.items) ≡ text.now) }

    // Each is one line of a trace: no line feed is in it.
    ensures apart { IfOk result (λ lines. All (λ line. IsLine (text_of line)) lines.items) }

    // The line that is named is no line of a trace, and each before it is one.
    ensures refused { IfErr result (λ e. (e ≡ Misread.Memory) ⊎ ((n : ℕ) × (e ≡ Misread.Line n) × IsMisread text.now n)) }
{
    let mut lines = Vec::new(alloc);
    let mut rest = text;
    while !rest.is_empty() {
        let place = Misread::Line(lines.len() + 1);
        let Some((line, more)) = first_line(rest) else {
            return Err(place);
        };
        match lines.push(line) {
            Ok(()) => {}
            Err(_) => return Err(Misread::Memory),
        }
        rest = more;
    }
    Ok(lines)
}
