//! A moment of a machine.
ghost use Rattle.std.specs.Prelude.{◌≡◌, IfOk, filter_map};
ghost use Rattle.evl_kernel.specs.state.States.{date};
ghost use Rattle.lab_moments.specs.Asked.{CountsAll};
ghost use Rattle.lab_moments.specs.Standings.{stands};

use crate::standings::standing_below;
use evl_base::LINES;
use evl_kernel::KernelOf;
use lab_drawing::{Lane, Moment, Standing};
use std::alloc::{AllocError, Global};

// The states of those lanes that show something, in order.
fn standings<C>(
    alloc: Global,
    kernel: &KernelOf<C, Global>,
    lanes: &[Lane],
    below: u16,
) -> Result<Vec<Standing>, AllocError>
    requires { CountsAll kernel.now.history.state below }
    ensures standings { IfOk result (λ told. told.items ≡ filter_map (stands kernel.now.history.state) lanes.now) }
{
    let mut told = Vec::new(alloc);
    for lane in lanes {
        if let Some(one) = standing_below(kernel, *lane, below) {
            told.push(one)?;
        }
    }
    Ok(told)
}

// rule: A moment of a machine has the kernel's date and how each lane is there: a thread picked, ready, blocked or
//   in-band with policy and effective rank and, if that is not its own, the first thread of this rank that waits for it
//   along recorded owners; a line, or the clock's, with an event pending; a mutex with its recorded owner, else the
//   first thread that got it and has not finished its wait; a running timer; a stage stalled, or with so many events
//   pending.
//   rows: moments_tell_how_a_thread_stands
/// The date of a kernel, and the states of those lanes that show something, in order. `AllocError` where memory
/// couldn't grow.
pub fn moment_of<C>(
    alloc: Global,
    kernel: &KernelOf<C, Global>,
    lanes: &[Lane],
) -> Result<Moment, AllocError>
    ensures date { IfOk result (λ m. m.date ≡ date kernel.now.history.state) }
    ensures standings { IfOk result (λ m. m.standings.items ≡ filter_map (stands kernel.now.history.state) lanes.now) }
{
    moment_below(alloc, kernel, lanes, LINES as u16)
}

/// The same, where nothing is pending on the lines from here on.
pub(crate) fn moment_below<C>(
    alloc: Global,
    kernel: &KernelOf<C, Global>,
    lanes: &[Lane],
    below: u16,
) -> Result<Moment, AllocError>
    requires { CountsAll kernel.now.history.state below }
    ensures date { IfOk result (λ m. m.date ≡ date kernel.now.history.state) }
    ensures standings { IfOk result (λ m. m.standings.items ≡ filter_map (stands kernel.now.history.state) lanes.now) }
{
    let told = standings(alloc, kernel, lanes, below)?;
    Ok(Moment {
        date: kernel.now(),
        standings: told,
    })
}
