//! The drawing of a text of callers, once it is played.
ghost use Rattle.std.specs.Prelude.{◌≡◌, IfErr, IfOk, map, string_bytes};
ghost use Rattle.evl_plans.specs.Told.{handler_of};
ghost use Rattle.lab_caller_pictures.specs.Runs.{AllMade, EndsFor, IsKnown, IsRunBy, IsRunOf, IsWhyBy, IsWhyOf};

use evl_base::{Board, Refusal};
use evl_kernel::KernelOf;
use evl_plans::{Planned, copied_bank};
use evl_scenario::{Fault, Unwritten, without_staxes, write_scenario};
use evl_shell::leave;
use lab_callers::{Ending, Kept, Played, StepFault, play_kept};
use lab_callers_text::{CallersText, read_callers};
use std::alloc::{AllocError, Global};

/// The scenario of all calls of the kernel that callers entered, and how many had been entered by the end of each step.
#[derive(Drop)]
pub struct Entered {
    pub scenario: String,
    pub counts: Vec<usize>,
}

/// The lines that a run of callers prints, and what is known of the calls that were entered: nothing where a caller has
/// the core at the end, or where the scenario would be longer than one may be.
#[derive(Drop)]
pub struct CallersRun {
    pub lines: String,
    pub entered: Option<Entered>,
}

/// Why nothing is drawn of a text of callers.
#[derive(Clone, Copy, PartialEq, Eq)]
pub enum Unplayed {
    /// It can't be read.
    Text(Fault),
    /// No machine has such a board over these callbacks, or such a limit.
    Board,
    /// The step of this number, from 1, can't be made.
    Step(usize, StepFault),
    /// A growth was refused.
    Memory,
}

// The facts about the calls that a kernel entered, where one is left.
fn known_of(
    alloc: Global,
    board: &Board,
    limit: u32,
    counts: Vec<usize>,
    kernel: Option<KernelOf<Planned, Global>>,
) -> Result<Option<Entered>, AllocError>
    ensures { IfOk result (IsKnown board.now limit counts.items kernel) }
{
    let Some(kernel) = kernel else {
        return Ok(None);
    };
    let entries = kernel.history().to_vec(alloc);
    leave(kernel);
    let Ok(entries) = entries else {
        return Err(AllocError);
    };
    let written = write_scenario(alloc, board, limit, entries.as_slice());
    match written {
        Ok(scenario) => Ok(Some(Entered { scenario, counts })),
        Err(Unwritten::Memory) => Err(AllocError),
        Err(_) => Ok(None),
    }
}

// The drawing of what was kept of callers over this board, under this limit.
fn run_of(
    alloc: Global,
    board: &Board,
    limit: u32,
    kept: Kept<Planned>,
) -> Result<CallersRun, Unplayed>
    ensures made { IfOk result (λ run. AllMade kept.told.ending) }
    ensures lines { IfOk result (λ run. string_bytes run.lines ≡ string_bytes kept.told.lines) }
    ensures known { IfOk result (λ run. IsKnown board.now limit kept.entered.items kept.kernel run.entered) }
    ensures why { IfErr result (EndsFor kept.told.ending) }
{
    let Kept {
        told,
        entered,
        kernel,
    } = kept;
    let Played { lines, ending, .. } = told;
    if let Ending::Fault(number, fault) = ending {
        if let Some(kernel) = kernel {
            leave(kernel);
        }
        return Err(Unplayed::Step(number, fault));
    }
    match known_of(alloc, board, limit, entered, kernel) {
        Ok(entered) => Ok(CallersRun { lines, entered }),
        Err(_) => Err(Unplayed::Memory),
    }
}

// The drawing of what a text asks for, over copies of these callbacks.
fn play_asked(alloc: Global, bank: &[Planned], asked: CallersText) -> Result<CallersRun, Unplayed>
    ensures run { IfOk result (IsRunBy (map handler_of bank.now) asked) }
    ensures why { IfErr result (IsWhyBy (map handler_of bank.now) asked) }
{
    let Ok(own) = copied_bank(alloc, bank) else {
        return Err(Unplayed::Memory);
    };
    let board = without_staxes(asked.board.copied());
    let limit = asked.limit;
    match play_kept(alloc, asked, own) {
        Ok(kept) => run_of(alloc, &board, limit, kept),
        Err(Refusal::Range) => Err(Unplayed::Board),
        Err(_) => Err(Unplayed::Memory),
    }
}

/// Plays a text of callers over copies of these callbacks, for its picture. `Text` where it can't be read, `Board` where
/// no machine is made over its board, `Step` where a step can't be made, `Memory` where a growth was refused.
pub fn play_drawn(alloc: Global, bank: &[Planned], text: &[u8]) -> Result<CallersRun, Unplayed>
    ensures run { IfOk result (IsRunOf (map handler_of bank.now) text.now) }
    ensures why { IfErr result (IsWhyOf (map handler_of bank.now) text.now) }
{
    match read_callers(alloc, text, None) {
        Ok(asked) => play_asked(alloc, bank, asked),
        Err(Fault::Memory) => Err(Unplayed::Memory),
        Err(fault) => Err(Unplayed::Text(fault)),
    }
}
