//! Plays a scenario's text for C.
ghost use Rattle.std.specs.Prelude.{◌≡◌, ◌≢◌, ◌↔◌, false, true, map, Ok, Err, IfOk, IfErr};
ghost use Rattle.evl_bank.specs.Bank.{program_bank};
ghost use Rattle.evl_shell.specs.Runs.{trace_of};
ghost use Rattle.evl_c.specs.Forms.{are_plans, handler_of};
ghost use Rattle.evl_plans.specs.Traces.{Refuses};
ghost use Rattle.evl_c.specs.Plays as plays;
ghost use Rattle.evl_c.specs.Given.{IsTraceOf};
ghost use Rattle.evl_c.specs.Plays.{PlaysText, RefusesText, limit_given};

use crate::forms::{PlanForm, are_plans, read_plans};
use crate::given::plain_of;
use crate::plans::program_plans;
use crate::windows::put_window;
use evl_plans::trace_plans;
use evl_shell::Fault;
use std::alloc::Global;

/// The report of a play (embed/include/evlsim/abi.h: `evlsim_played`).
#[repr(C)]
#[derive(Clone, Copy)]
pub struct Played {
    /// How many bytes the trace has; 0 where there is none.
    pub length: usize,
    /// The step at fault, from 1; 0 where no step is.
    pub step: u32,
}

// The trace of a text over callbacks with these plans.
fn trace_text(
    alloc: Global,
    plans: &[PlanForm],
    text: &[u8],
    limit: Option<u32>,
) -> Result<Vec<u8>, Fault>
    requires plans { are_plans plans.now ≡ true }
    ensures traced { IfOk result (λ trace. trace_of (map handler_of plans.now) limit text.now ≡ Ok trace.items) }
    ensures refused { IfErr result (λ e. Refuses (trace_of (map handler_of plans.now) limit text.now) e) }
{
    match read_plans(alloc, plans) {
        Ok(read) => trace_plans(alloc, read.as_slice(), text, limit),
        Err(_) => Err(Fault::Memory),
    }
}

// The trace of what a text is taken for.
fn trace_given(
    alloc: Global,
    plans: &[PlanForm],
    text: &[u8],
    limit: Option<u32>,
) -> Result<Vec<u8>, Fault>
    requires plans { are_plans plans.now ≡ true }
    ensures traced { IfOk result (λ trace. IsTraceOf (map handler_of plans.now) limit text.now (Ok trace.items)) }
    ensures refused { IfErr result (λ e. RefusesText (map handler_of plans.now) limit text.now e) }
{
    match plain_of(alloc, text) {
        Ok(plain) => trace_text(alloc, plans, plain.as_slice(), limit),
        Err(fault) => Err(fault),
    }
}

/// The limit that a number hands in.
pub fn limit_given(limit: u32) -> Option<u32>
    ensures { result ≡ limit_given limit }
{
    if limit == 0 { None } else { Some(limit) }
}

/// The number of a fault.
pub fn status_of(fault: Fault) -> u32
    ensures told { result ≡ plays.status_of (Err fault) }
    ensures other { result ≢ 5 }
{
    match fault {
        Fault::Text => 1,
        Fault::Board => 2,
        Fault::Step(_) => 3,
        Fault::Memory | Fault::Write => 4,
    }
}

/// The step of a fault, 0 where it has none.
pub fn step_of(fault: Fault) -> u32
    ensures { result ≡ plays.step_of (Err fault) }
{
    match fault {
        Fault::Step(number) => number,
        _ => 0,
    }
}

// Plays a text over callbacks with these plans.
fn play_over(
    alloc: Global,
    plans: &[PlanForm],
    text: &[u8],
    limit: u32,
    start: usize,
    out: &mut [u8],
    played: &mut Played,
) -> u32
    requires plans { are_plans plans.now ≡ true }
    ensures { PlaysText (map handler_of plans.now) (limit_given limit) text.now start out.old out.new played.new.length played.new.step result }
{
    match trace_given(alloc, plans, text, limit_given(limit)) {
        Ok(trace) => {
            let bytes = trace.as_slice();
            put_window(bytes, start, out);
            *played = Played {
                length: bytes.len(),
                step: 0,
            };
            0
        }
        Err(fault) => {
            *played = Played {
                length: 0,
                step: step_of(fault),
            };
            status_of(fault)
        }
    }
}

// rule: A refused text gives exactly its fault and step, and leaves the buffer; so does want of memory. Invalid plans
//   are refused exactly.
//   clauses: evlsim_c_play; evlsim_c_play_over
/// Plays a scenario's text, in TOML or as lines, over the program's callbacks, and puts its trace, from the byte `start`
/// on, into the buffer, as much as there is room for. `limit` (1 to 1,000,000) replaces the text's; at 0 that stays.
///
/// 0: done. 1: bad text. 2: bad board. 3: bad step, or line of lines. 4: no memory. But for 0 the buffer is as before.
#[unsafe(no_mangle)]
pub extern "C" fn evlsim_c_play(
    alloc: Global,
    text: &[u8],
    limit: u32,
    start: usize,
    out: &mut [u8],
    played: &mut Played,
) -> u32
    ensures { PlaysText program_bank (limit_given limit) text.now start out.old out.new played.new.length played.new.step result }
{
    play_over(alloc, &program_plans(), text, limit, start, out, played)
}

// rule: C's plans are callbacks that declare and answer what they say; the program's are those of its bank.
//   clauses: evlsim_c_play_over; program_plans
/// The same over callbacks with these plans, at most 64. 5: a number of a plan is out of its range, it declares fewer
/// kinds than it has, or there are more than 64; then nothing is played, and the buffer is as before.
#[unsafe(no_mangle)]
pub extern "C" fn evlsim_c_play_over(
    alloc: Global,
    plans: &[PlanForm],
    text: &[u8],
    limit: u32,
    start: usize,
    out: &mut [u8],
    played: &mut Played,
) -> u32
    ensures played { are_plans plans.now ≡ true → PlaysText (map handler_of plans.now) (limit_given limit) text.now start out.old out.new played.new.length played.new.step result }
    ensures refused { (result ≡ 5) ↔ (are_plans plans.now ≡ false) }
    ensures untouched { result ≡ 5 → (out.new ≡ out.old) × (played.new.length ≡ 0) × (played.new.step ≡ 0) }
{
    if !are_plans(plans) {
        *played = Played { length: 0, step: 0 };
        return 5;
    }
    play_over(alloc, plans, text, limit, start, out, played)
}
