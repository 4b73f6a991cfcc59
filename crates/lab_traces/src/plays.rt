//! The text of a play.
ghost use Rattle.std.specs.Prelude.{◌≡◌, Some, option_and_then, option_map};
ghost use Rattle.evl_base.specs.declared.play.Play.{Play};
ghost use Rattle.lab_traces.specs.Plays.{counted_read, deadline_read, handled_read, line_read, play_read, timer_read};
ghost use Rattle.evl_scenario.specs.Values.{around_space, stage_of};

use crate::parts::{around_blank, behind, small_number};
use evl_base::{LineNo, Play, Stage, ThreadId, TimerId};
use evl_scenario::number_of_text;

// Whether the callback handled its fire.
fn handled(text: &str) -> Option<bool>
    ensures { result ≡ handled_read text.now }
{
    match text {
        "handled" => Some(true),
        "none" => Some(false),
        _ => None,
    }
}

// A number after a word, and what follows a space after it.
pub(crate) fn counted<'a>(word: &str, text: &'a str) -> Option<(u64, &'a str)>
    ensures { option_map (λ parts. (parts.0, parts.1.now)) result ≡ counted_read word.now text.now }
{
    let (digits, rest) = around_blank(behind(word, text)?)?;
    let count = number_of_text(digits)?;
    Some((count, rest))
}

// The fire of a timer, from its number on.
fn timer(text: &str) -> Option<Play>
    ensures { result ≡ option_and_then timer_read (around_space text.now) }
{
    let (digits, rest) = around_blank(text)?;
    let timer = TimerId(small_number(digits)?);
    let (count, rest) = counted("count ", rest)?;
    let (missed, last) = counted("missed ", rest)?;
    let handled = handled(last)?;
    Some(Play::Timer {
        timer,
        count,
        missed,
        handled,
    })
}

// The stage that a text names.
fn stage(text: &str) -> Option<Stage>
    ensures { result ≡ stage_of text.now }
{
    match text {
        "inband" => Some(Stage::Inband),
        "oob" => Some(Stage::Oob),
        _ => None,
    }
}

// The fire of a line, from its number on.
fn line(text: &str) -> Option<Play>
    ensures { result ≡ option_and_then line_read (around_space text.now) }
{
    let (digits, rest) = around_blank(text)?;
    let line = LineNo(small_number(digits)?);
    let (word, rest) = around_blank(rest)?;
    let stage = stage(word)?;
    let (count, last) = counted("count ", rest)?;
    let handled = handled(last)?;
    Some(Play::Line {
        line,
        stage,
        count,
        handled,
    })
}

// The deadline of a thread, from its number on.
fn deadline(text: &str) -> Option<Play>
    ensures { result ≡ deadline_read text.now }
{
    let thread = ThreadId(small_number(behind("T", text)?)?);
    Some(Play::Deadline { thread })
}

/// The play that has this text, without the spaces before it in a trace; none where no play has it.
pub fn read_play(text: &str) -> Option<Play>
    ensures { result ≡ play_read text.now }
{
    if text == "clock" {
        return Some(Play::Clock);
    }
    let (word, rest) = around_blank(text)?;
    match word {
        "timer" => timer(rest),
        "deadline" => deadline(rest),
        "line" => line(rest),
        _ => None,
    }
}
