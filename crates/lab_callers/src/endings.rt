//! How the steps of a text of callers end: a machine that is closed, or isn't, and what is reported and left of it.
ghost use Rattle.std.specs.Prelude.{◌≡◌, ◌⊎◌, ◌↔◌, false, Err, None, All, IfErr, IfOk, length, string_bytes};
ghost use Rattle.lab_callers.specs.Crews.{crew_of};
ghost use Rattle.lab_callers.specs.Plays.{ClosesSo, EndsSo, IsKept, IsStopped, IsTold, run_of};
ghost use Rattle.lab_callers.specs.Shown.{closed_text, open_text};
ghost use Rattle.evl_kernel.specs.state.Callbacks.{AnswersByPlan};
ghost use Rattle.evl_kernel.specs.state.Openings.{can_open};

use crate::answers::Stop;
use crate::playing::{Ending, Played, Report, made, play_over};
use evl_base::Refusal;
use evl_kernel::KernelOf;
use evl_machine::{CallerOf, MachineOf};
use evl_pipeline::Handler;
use evl_scenario::write_history;
use lab_callers_text::{CallersStep, CallersText};
use std::alloc::{AllocError, Global};

/// The report of the steps, and what is left of their machine.
#[derive(Drop)]
pub struct Kept<C: Handler> {
    pub told: Played,
    /// The count of the kernel's calls entered after each step, where all were made.
    pub entered: Vec<usize>,
    /// The kernel, where the machine is closed.
    pub kernel: Option<KernelOf<C, Global>>,
}

// The report of a closed machine's kernel.
fn closing_of<C: Handler>(alloc: Global, kernel: &KernelOf<C, Global>) -> Result<String, AllocError>
    ensures { IfOk result (λ text. string_bytes text ≡ closed_text kernel.now.history) }
{
    let mut text = String::from_str(alloc, "close -> done\n")?;
    match kernel.history().to_vec(alloc) {
        Ok(entries) => write_history(&mut text, entries.as_slice(), kernel.plays())?,
        Err(_) => return Err(AllocError),
    }
    Ok(text)
}

// The report of a machine that isn't closed.
fn refused_closing(alloc: Global, refusal: Refusal) -> Result<String, AllocError>
    ensures { IfOk result (λ text. string_bytes text ≡ open_text refusal) }
{
    let name = refusal.name();
    let mut text = String::new(alloc);
    write!(text, "close -> {name}\n")?;
    Ok(text)
}

// Leaves a machine as it is, with its callers.
fn leave<C: Handler>(machine: MachineOf<C, Global>, callers: Vec<CallerOf<C, Global>>) {
    drop(machine);
    drop(callers);
}

// A machine is made, and there is no memory for what is reported of it.
fn unplayed<C: Handler>(
    machine: MachineOf<C, Global>,
    callers: Vec<CallerOf<C, Global>>,
) -> Result<Kept<C>, Refusal>
    ensures { result ≡ Err Refusal.NoMemory }
{
    leave(machine, callers);
    Err(Refusal::NoMemory)
}

// How steps end, what is reported of their machine then, and the kernel, where it is closed.
type Closing<C> = (Ending, String, Option<KernelOf<C, Global>>);

// The report of a closed machine's kernel, which stays.
fn told_closed<C: Handler>(
    alloc: Global,
    kernel: KernelOf<C, Global>,
) -> Result<(String, KernelOf<C, Global>), AllocError>
    ensures { IfOk result (λ left. (string_bytes left.0 ≡ closed_text kernel.history) × (left.1 ≡ kernel)) }
{
    match closing_of(alloc, &kernel) {
        Ok(text) => Ok((text, kernel)),
        Err(refused) => {
            drop(kernel);
            Err(refused)
        }
    }
}

// The report of a machine that isn't closed, which goes with its callers.
fn told_open<C: Handler>(
    alloc: Global,
    refusal: Refusal,
    machine: MachineOf<C, Global>,
    callers: Vec<CallerOf<C, Global>>,
) -> Result<String, AllocError>
    ensures { IfOk result (λ text. string_bytes text ≡ open_text refusal) }
{
    leave(machine, callers);
    refused_closing(alloc, refusal)
}

// Closes a machine, if it can be: how that ends, what is reported of it, and the kernel that is left.
fn closing<C: Handler>(
    alloc: Global,
    machine: MachineOf<C, Global>,
    callers: Vec<CallerOf<C, Global>>,
) -> Result<Closing<C>, AllocError>
    requires { All (λ c. c.machine ≡ machine) callers.items }
    ensures { IfOk result (λ told. ClosesSo machine callers.items told.0 (string_bytes told.1) told.2) }
{
    match machine.close(callers) {
        Ok(kernel) => match told_closed(alloc, kernel) {
            Ok((text, kernel)) => Ok((Ending::Closed, text, Some(kernel))),
            Err(refused) => Err(refused),
        },
        Err((refusal, machine, callers)) => match told_open(alloc, refusal, machine, callers) {
            Ok(text) => Ok((Ending::Open(refusal), text, None)),
            Err(refused) => Err(refused),
        },
    }
}

// The report in the end, once the machine is closed, if it can be.
fn closed<C: Handler>(
    report: Report,
    machine: MachineOf<C, Global>,
    callers: Vec<CallerOf<C, Global>>,
) -> Result<Kept<C>, Refusal>
    requires { All (λ c. c.machine ≡ machine) callers.items }
    ensures lines { IfOk result (λ kept. string_bytes kept.told.lines ≡ report.text) }
    ensures entered { IfOk result (λ kept. kept.entered.items ≡ report.entered) }
    ensures closed { IfOk result (λ kept. ClosesSo machine callers.items kept.told.ending (string_bytes kept.told.closing) kept.kernel) }
    ensures memory { IfErr result (λ e. e ≡ Refusal.NoMemory) }
{
    let Report {
        alloc,
        text,
        entered,
        ..
    } = report;
    match closing(alloc, machine, callers) {
        Ok((ending, closing, kernel)) => Ok(Kept {
            told: Played {
                lines: text,
                closing,
                ending,
            },
            entered,
            kernel,
        }),
        Err(_) => Err(Refusal::NoMemory),
    }
}

// The report of steps that end before the last one.
fn stopped<C: Handler>(report: Report, number: usize, stop: Stop) -> Result<Kept<C>, Refusal>
    ensures lines { IfOk result (λ kept. string_bytes kept.told.lines ≡ report.text) }
    ensures ending { IfOk result (λ kept. IsStopped number stop kept.told) }
    ensures left { IfOk result (λ kept. kept.kernel ≡ None) }
    ensures memory { IfErr result (λ e. e ≡ Refusal.NoMemory) }
{
    let Report {
        alloc,
        text,
        entered,
        ..
    } = report;
    match stop {
        Stop::Fault(fault) => Ok(Kept {
            told: Played {
                lines: text,
                closing: String::new(alloc),
                ending: Ending::Fault(number, fault),
            },
            entered,
            kernel: None,
        }),
        Stop::Memory => Err(Refusal::NoMemory),
    }
}

// The report of all steps, over a machine.
fn told_over<C: Handler>(
    report: Report,
    machine: MachineOf<C, Global>,
    callers: Vec<CallerOf<C, Global>>,
    steps: Vec<CallersStep>,
) -> Result<Kept<C>, Refusal>
    requires callers { All (λ c. c.machine ≡ machine) callers.items }
    requires by_plan { AnswersByPlan C.declared C.plan machine.first.callbacks }
    ensures ends { IfOk result (λ kept. EndsSo machine (run_of (crew_of machine callers.items) report) steps.items report.text kept.told.ending (string_bytes kept.told.lines) (string_bytes kept.told.closing) kept.entered.items kept.kernel) }
    ensures memory { IfErr result (λ e. e ≡ Refusal.NoMemory) }
{
    let mut report = report;
    let (made, callers) = play_over(&mut report, &machine, callers, steps);
    match made {
        Ok(()) => closed(report, machine, callers),
        Err((number, stop)) => {
            leave(machine, callers);
            stopped(report, number, stop)
        }
    }
}

/// Makes the steps of a text of callers over a new machine with these callbacks, one after another on one host thread,
/// and closes the machine; with what is reported are left how many calls were entered after each step, and the kernel of a
/// machine that is closed. `Range` exactly where the board, the bank or the limit is outside its limits, `NoMemory`
/// where a growth was refused.
pub fn play_kept<C: Handler>(
    alloc: Global,
    text: CallersText,
    bank: Vec<C>,
) -> Result<Kept<C>, Refusal>
    ensures kept { IfOk result (λ kept. IsKept C.declared C.plan text bank.items kept.told kept.entered.items kept.kernel) }
    ensures range { (result ≡ Err Refusal.Range) ↔ (can_open text.board (length bank.items) text.limit ≡ false) }
    ensures refusals { IfErr result (λ e. (e ≡ Refusal.Range) ⊎ (e ≡ Refusal.NoMemory)) }
{
    let CallersText {
        board,
        limit,
        steps,
    } = text;
    let report = Report::new(alloc, &board, limit);
    match made(alloc, board, bank, limit) {
        Ok((machine, callers)) => match report {
            Ok(report) => told_over(report, machine, callers, steps),
            Err(_) => unplayed(machine, callers),
        },
        Err(refusal) => {
            drop(report);
            Err(refusal)
        }
    }
}

// The report, where nothing else is kept.
fn told_alone<C: Handler>(kept: Kept<C>) -> Played
    ensures { result ≡ kept.told }
{
    let Kept { told, kernel, .. } = kept;
    drop(kernel);
    told
}

/// The words of `play_kept` on a text of callers. `Range` exactly where the board, the bank or the limit is outside its
/// limits, `NoMemory` where a growth was refused.
pub fn play_callers<C: Handler>(
    alloc: Global,
    text: CallersText,
    bank: Vec<C>,
) -> Result<Played, Refusal>
    ensures told { IfOk result (λ told. IsTold C.declared C.plan text bank.items told) }
    ensures range { (result ≡ Err Refusal.Range) ↔ (can_open text.board (length bank.items) text.limit ≡ false) }
    ensures refusals { IfErr result (λ e. (e ≡ Refusal.Range) ⊎ (e ≡ Refusal.NoMemory)) }
{
    match play_kept(alloc, text, bank) {
        Ok(kept) => Ok(told_alone(kept)),
        Err(refusal) => Err(refusal),
    }
}
