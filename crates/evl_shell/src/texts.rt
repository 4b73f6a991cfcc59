//! The texts of lines, each written over the one before it.
ghost use Rattle.std.specs.Prelude.{◌≡◌, OnOk, IfSome, [], string_bytes};
ghost use Rattle.evl_scenario.specs.Lines.{board_line_of, board_line_text, line_around, play_line_text, step_text};

use evl_base::{Board, Play, Refusal};
use evl_scenario::{EntryNumber, PlayLine, Step, StepAnswer, StepLine, board_line};
use std::alloc::Global;
use std::fmt::Display;

/// The answer to the call of a step, and the number of its entry, where it made one.
#[derive(Drop)]
pub struct Called {
    pub number: EntryNumber,
    pub answer: StepAnswer,
}

/// The memory that texts are written in, kept from line to line: that of a step until its call is answered, and that of
/// a line until it waits for the sink.
#[derive(Drop)]
pub struct Texts {
    pub step: String,
    pub line: String,
}

// Writes a text over what a buffer held. `NoMemory` where the buffer couldn't grow; what it holds then isn't known.
fn write_over<D: Display + Drop>(buffer: &mut String, text: D) -> Result<(), Refusal>
    ensures { OnOk result (IfSome (D.output text) (λ bytes. string_bytes buffer.new ≡ bytes)) }
{
    buffer.clear();
    match buffer.write(text) {
        Ok(()) => Ok(()),
        Err(_) => Err(Refusal::NoMemory),
    }
}

impl Texts {
    /// No text was written.
    pub fn new(alloc: Global) -> Texts
        ensures { (string_bytes result.step ≡ []) × (string_bytes result.line ≡ []) }
    {
        Texts {
            step: String::new(alloc),
            line: String::new(alloc),
        }
    }

    /// Writes the first line.
    pub fn write_board(&mut self, board: &Board, limit: u32) -> Result<(), Refusal>
        ensures { OnOk result (string_bytes self.new.line ≡ board_line_text (board_line_of board.now limit)) }
    {
        write_over(&mut self.line, board_line(board, limit))
    }

    /// Writes the text of a step.
    pub fn write_step(&mut self, step: &Step) -> Result<(), Refusal>
        ensures { OnOk result (string_bytes self.new.step ≡ step_text step.now) }
    {
        write_over(&mut self.step, step)
    }

    /// Writes the line of the step whose text was written.
    pub fn write_answer(&mut self, called: Called) -> Result<(), Refusal>
        ensures { OnOk result (string_bytes self.new.line ≡ line_around called.number.0 (string_bytes self.old.step) called.answer.0) }
    {
        let Called { number, answer } = called;
        let line = StepLine {
            number,
            step: self.step.as_str(),
            answer,
        };
        write_over(&mut self.line, line)
    }

    /// Writes the line of a play.
    pub fn write_play(&mut self, play: Play) -> Result<(), Refusal>
        ensures { OnOk result (string_bytes self.new.line ≡ play_line_text play) }
    {
        write_over(&mut self.line, PlayLine(play))
    }
}
