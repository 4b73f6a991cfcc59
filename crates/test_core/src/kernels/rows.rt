//! New kernels and new pipelines, lent to what is asked of them, so that each is made in one place.
ghost use Rattle.std.specs.Prelude.{◌≡◌};
ghost use Rattle.evl_kernel.specs.state.Callbacks.{AnswersByPlan};

use super::fires::{Given, gives_two_fires};
use super::handlers::{board_of, quiet_bank};
use super::kernels::{
    goes_and_waits, has_three_places, plays_a_stalled_line, stays_as_it_is, tells_of_two_waits,
};
use super::most_plays::makes_the_most_plays;
use super::resets::is_used_twice;
use evl_base::{Board, Refusal};
use evl_kernel::KernelOf;
use evl_pipeline::{Handler, PipelineOf};
use std::alloc::{Allocator, Global};
use std::cell::Cell;

/// All that is asked of a kernel, each explained at the function that has its name below.
#[derive(Clone, Copy)]
pub(crate) enum Row<'a> {
    ThreePlaces,
    StalledLine,
    TwoWaits,
    NoRoom,
    OneThread,
    MostPlays,
    UsedTwice,
    /// The place of the fires that callback 0 is given.
    TwoFires(&'a Cell<Given>),
}

// The kernel's outcome.
fn comes_to<C: Handler, A: Allocator>(kernel: &mut KernelOf<C, A>, row: Row<'_>) -> bool
    requires { AnswersByPlan C.declared C.plan kernel.old.callbacks }
{
    match row {
        Row::ThreePlaces => has_three_places(kernel),
        Row::StalledLine => plays_a_stalled_line(kernel),
        Row::TwoWaits => tells_of_two_waits(kernel),
        Row::NoRoom => stays_as_it_is(kernel),
        Row::OneThread => goes_and_waits(kernel),
        Row::MostPlays => makes_the_most_plays(kernel),
        Row::UsedTwice => is_used_twice(kernel),
        Row::TwoFires(given) => gives_two_fires(kernel, given),
    }
}

/// Whether a new kernel comes to what is wanted, over a board of one semaphore at this count, with a history of so many
/// calls; or why there is none.
pub(crate) fn on_a_kernel<C: Handler, A: Allocator + Clone>(
    alloc: A,
    boxes: Global,
    count: u32,
    bank: Vec<C, A>,
    limit: u32,
    row: Row<'_>,
) -> Result<bool, Refusal> {
    on_a_board(alloc, boxes, board_of(1, count), bank, limit, row)
}

/// The same over any board, and over a bank of one handler that asks for nothing.
pub(crate) fn on_a_quiet_kernel<A: Allocator + Clone>(
    alloc: A,
    boxes: Global,
    board: Board,
    limit: u32,
    row: Row<'_>,
) -> Result<bool, Refusal> {
    match quiet_bank(&alloc, 1) {
        Ok(bank) => on_a_board(alloc, boxes, board, bank, limit, row),
        Err(_) => Err(Refusal::NoMemory),
    }
}

/// The same over any board and bank.
pub(crate) fn on_a_board<C: Handler, A: Allocator + Clone>(
    alloc: A,
    boxes: Global,
    board: Board,
    bank: Vec<C, A>,
    limit: u32,
    row: Row<'_>,
) -> Result<bool, Refusal> {
    match KernelOf::over(alloc, boxes, board, bank, limit) {
        Ok(mut kernel) => {
            let told = comes_to(&mut kernel, row);
            leave(kernel);
            Ok(told)
        }
        Err(refusal) => Err(refusal),
    }
}

/// A kernel goes: the one place where what it has is let go.
pub(crate) fn leave<C: Drop, A: Allocator>(kernel: KernelOf<C, A>) {
    drop(kernel);
}

/// All that is asked of a pipeline.
pub(crate) trait PipelineRow<C: Handler>: Drop {
    /// Whether the pipeline comes to what is wanted.
    fn ask<A: Allocator>(self, pipeline: &mut PipelineOf<C, A>) -> bool;
}

/// Whether a new pipeline comes to what is wanted, or why there is none.
pub(crate) fn on_a_pipeline<C: Handler, A: Allocator + Clone, T: PipelineRow<C>>(
    alloc: A,
    row: T,
) -> Result<bool, Refusal> {
    match PipelineOf::new(alloc) {
        Ok(mut pipeline) => {
            let told = row.ask(&mut pipeline);
            leave_pipeline(pipeline);
            Ok(told)
        }
        Err(refusal) => Err(refusal),
    }
}

// A pipeline goes.
fn leave_pipeline<C: Drop, A: Allocator>(pipeline: PipelineOf<C, A>) {
    drop(pipeline);
}
