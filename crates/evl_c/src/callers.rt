//! Callers of both stages in a text, for C: what `lab callers` prints.
ghost use Rattle.std.specs.Prelude.{◌≡◌, ◌⊎◌, ◌++◌, false, map, string_bytes, true, Err, IfErr, IfOk, IsSomeAnd, OnOk};
ghost use Rattle.evl_plans.specs.Told as callbacks;
ghost use Rattle.evl_c.specs.Callers as callers;
ghost use Rattle.evl_c.specs.Callers.{PlaysCallers, TellsCallers, TellsPlayed, ended, fault_ended, story_in};
ghost use Rattle.evl_c.specs.Forms.{are_plans, handler_of};
ghost use Rattle.evl_c.specs.Plays.{limit_given};

use crate::forms::{PlanForm, are_plans, read_plans};
use crate::plays::{Played, limit_given};
use crate::windows::put_window;
use evl_base::Refusal;
use evl_plans::Planned;
use evl_scenario::Fault;
use lab_callers::{Ending, Played as Made, StepFault, play_callers};
use lab_callers_text::{CallersText, read_callers};
use std::alloc::{AllocError, Global};

/// The text that C gets for callers, the step at fault, and the status.
#[derive(Drop)]
pub struct Story {
    pub text: String,
    pub step: u32,
    pub status: u32,
}

// The report that C gets for a fault of a text. For want of memory there is nothing: that is this function's own error.
fn refuse(alloc: Global, fault: Fault) -> Result<Story, AllocError>
    ensures { IfOk result (λ told. IsSomeAnd (fault_ended fault) (λ story. story_in told ≡ story)) }
{
    let (status, step) = match fault {
        Fault::Text => (1, 0),
        Fault::Board => (2, 0),
        Fault::Step(number) => (3, number),
        Fault::Memory | Fault::Write => return Err(AllocError),
    };
    Ok(Story {
        text: String::new(alloc),
        step,
        status,
    })
}

// Which step can't be made, and why.
fn stopped(alloc: Global, number: usize, fault: StepFault) -> Result<Story, AllocError>
    ensures { IfOk result (λ told. story_in told ≡ callers.stopped number fault) }
{
    Ok(Story {
        text: String::from_str(alloc, fault.words())?,
        step: u32::try_from(number).unwrap_or(u32::MAX),
        status: 3,
    })
}

// The lines of all steps, and what closing the machine was answered.
fn whole(made: Made) -> Result<Story, AllocError>
    ensures { IfOk result (λ told. story_in told ≡ callers.whole made) }
{
    let mut text = made.lines;
    text.push_str(made.closing.as_str())?;
    Ok(Story {
        text,
        step: 0,
        status: 0,
    })
}

// The report that C gets for steps that were made, or for the one that can't be.
fn tell_made(alloc: Global, made: Made) -> Result<Story, AllocError>
    ensures { IfOk result (λ told. story_in told ≡ ended made) }
{
    match made.ending {
        Ending::Fault(number, fault) => stopped(alloc, number, fault),
        Ending::Closed | Ending::Open(_) => whole(made),
    }
}

// Plays what a text asks for.
fn play(alloc: Global, asked: CallersText, plans: Vec<Planned>) -> Result<Story, AllocError>
    ensures { IfOk result (λ told. TellsPlayed (map callbacks.handler_of plans.items) asked (story_in told)) }
{
    match play_callers(alloc, asked, plans) {
        Ok(made) => tell_made(alloc, made),
        Err(Refusal::Range) => refuse(alloc, Fault::Board),
        Err(_) => Err(AllocError),
    }
}

// Plays a text over callbacks with these plans.
fn play_over(
    alloc: Global,
    plans: &[PlanForm],
    text: &[u8],
    limit: Option<u32>,
) -> Result<Story, AllocError>
    requires plans { are_plans plans.now ≡ true }
    ensures { IfOk result (λ told. PlaysCallers (map handler_of plans.now) limit text.now (story_in told)) }
{
    let read = read_plans(alloc, plans)?;
    match read_callers(alloc, text, limit) {
        Ok(asked) => play(alloc, asked, read),
        Err(fault) => refuse(alloc, fault),
    }
}

/// Makes the calls of a text's callers on staxes, mutexes and the core, over callbacks with these plans, and puts what
/// each was answered, and what is in the word that it went to, from the byte `start` on, into the buffer, as much as
/// there is room for. `limit` (1 to 1,000,000) replaces the text's; at 0 that stays.
///
/// 0: done. 1: bad text. 2: bad board. 3: bad step; of one that can't be made the buffer gets why. 4: no memory. 5: bad
/// plan.
#[unsafe(no_mangle)]
pub extern "C" fn evlsim_c_callers(
    alloc: Global,
    plans: &[PlanForm],
    text: &[u8],
    limit: u32,
    start: usize,
    out: &mut [u8],
    played: &mut Played,
) -> u32
    ensures told { are_plans plans.now ≡ true → TellsCallers (map handler_of plans.now) (limit_given limit) text.now start out.old out.new played.new result }
    ensures plans { are_plans plans.now ≡ false → (result ≡ 5) × (out.new ≡ out.old) × (played.new ≡ callers.nothing) }
{
    *played = Played { length: 0, step: 0 };
    if !are_plans(plans) {
        return 5;
    }
    let Ok(told) = play_over(alloc, plans, text, limit_given(limit)) else {
        return 4;
    };
    let bytes = told.text.as_bytes();
    put_window(bytes, start, out);
    *played = Played {
        length: bytes.len(),
        step: told.step,
    };
    told.status
}
