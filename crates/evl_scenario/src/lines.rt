//! The lines of a trace.
ghost use Rattle.std.specs.Prelude.{◌≡◌, Some};
ghost use Rattle.evl_scenario.specs.Lines.{board_line_of};

use crate::steps::Step;
use evl_base::{Board, Play, Refusal, Reply};
use std::fmt;

/// How many elements of each kind there are.
#[derive(Clone, Copy, PartialEq, Eq)]
pub struct ElementCounts {
    pub sems: usize,
    pub flags: usize,
    pub xbufs: usize,
}

impl fmt::Display for ElementCounts {
    ghost use Rattle.evl_scenario.specs.Lines.{element_counts_text};

    ghost output = { λ counts. Some (element_counts_text counts) };

    fn fmt<W: fmt::Write>(&self, f: &mut fmt::Formatter<W>) -> fmt::Result {
        let ElementCounts { sems, flags, xbufs } = *self;
        write!(f, "sems={sems} flags={flags} xbufs={xbufs}")
    }
}

/// How many mutexes and quota groups there are.
#[derive(Clone, Copy, PartialEq, Eq)]
pub struct OwnerCounts {
    pub mutexes: usize,
    pub groups: usize,
}

impl fmt::Display for OwnerCounts {
    ghost use Rattle.evl_scenario.specs.Lines.{owner_counts_text};

    ghost output = { λ counts. Some (owner_counts_text counts) };

    fn fmt<W: fmt::Write>(&self, f: &mut fmt::Formatter<W>) -> fmt::Result {
        let OwnerCounts { mutexes, groups } = *self;
        write!(f, "mutexes={mutexes} groups={groups}")
    }
}

/// The first line of a trace: how many threads and elements there are, and the limit.
#[derive(Clone, Copy, PartialEq, Eq)]
pub struct BoardLine {
    pub threads: u16,
    pub elements: ElementCounts,
    pub owners: OwnerCounts,
    pub limit: u32,
}

impl fmt::Display for BoardLine {
    ghost use Rattle.evl_scenario.specs.Lines.{board_line_text};

    ghost output = { λ line. Some (board_line_text line) };

    fn fmt<W: fmt::Write>(&self, f: &mut fmt::Formatter<W>) -> fmt::Result {
        let BoardLine {
            threads,
            elements,
            owners,
            limit,
        } = *self;
        write!(
            f,
            "board threads={threads} {elements} {owners} limit={limit}\n"
        )
    }
}

/// The first line for a board and a limit.
pub fn board_line(board: &Board, limit: u32) -> BoardLine
    ensures { result ≡ board_line_of board.now limit }
{
    let elements = ElementCounts {
        sems: board.sems.len(),
        flags: board.flags.len(),
        xbufs: board.xbufs.len(),
    };
    let owners = OwnerCounts {
        mutexes: board.mutexes.len(),
        groups: board.groups.len(),
    };
    BoardLine {
        threads: board.threads,
        elements,
        owners,
        limit,
    }
}

/// The number of an entry, or a dash where there is none.
#[derive(Clone, Copy, PartialEq, Eq)]
pub struct EntryNumber(pub Option<usize>);

impl fmt::Display for EntryNumber {
    ghost use Rattle.evl_scenario.specs.Lines.{number_text};

    ghost output = { λ number. Some (number_text number.0) };

    fn fmt<W: fmt::Write>(&self, f: &mut fmt::Formatter<W>) -> fmt::Result {
        match self.0 {
            Some(number) => write!(f, "{number}"),
            None => write!(f, "-"),
        }
    }
}

/// The answer of a call: a reply, or the name of a refusal.
#[derive(Drop)]
pub struct StepAnswer(pub Result<Reply, Refusal>);

impl fmt::Display for StepAnswer {
    ghost use Rattle.evl_base.specs.Reply.{outcome_text};

    ghost output = { λ answer. Some (outcome_text answer.0) };

    fn fmt<W: fmt::Write>(&self, f: &mut fmt::Formatter<W>) -> fmt::Result {
        match &self.0 {
            Ok(reply) => write!(f, "{reply}"),
            Err(refusal) => f.write_str(refusal.name()),
        }
    }
}

impl fmt::Display for Step {
    ghost use Rattle.evl_scenario.specs.Lines.{step_text};

    ghost output = { λ step. Some (step_text step) };

    fn fmt<W: fmt::Write>(&self, f: &mut fmt::Formatter<W>) -> fmt::Result {
        let who = self.who.0;
        let call = &self.call;
        write!(f, "T{who} {call}")
    }
}

/// The line of a step: the number of its entry, the step's text, and the answer of its call, which took the step.
#[derive(Drop)]
pub struct StepLine<'a> {
    pub number: EntryNumber,
    pub step: &'a str,
    pub answer: StepAnswer,
}

impl<'a> fmt::Display for StepLine<'a> {
    ghost use Rattle.evl_scenario.specs.Lines.{line_around};

    ghost output = { λ line. Some (line_around line.number.0 line.step.now line.answer.0) };

    fn fmt<W: fmt::Write>(&self, f: &mut fmt::Formatter<W>) -> fmt::Result {
        let StepLine {
            number,
            step,
            answer,
        } = self;
        write!(f, "{number} {step} -> {answer}\n")
    }
}

/// The line of a play, after two spaces.
#[derive(Clone, Copy, PartialEq, Eq)]
pub struct PlayLine(pub Play);

impl fmt::Display for PlayLine {
    ghost use Rattle.evl_scenario.specs.Lines.{play_line_text};

    ghost output = { λ line. Some (play_line_text line.0) };

    fn fmt<W: fmt::Write>(&self, f: &mut fmt::Formatter<W>) -> fmt::Result {
        let play = self.0;
        write!(f, "  {play}\n")
    }
}
