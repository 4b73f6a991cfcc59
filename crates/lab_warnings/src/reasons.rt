//! Why a step may not be what was meant.
ghost use Rattle.std.specs.Prelude.{◌≡◌, ◌++◌, string_bytes, OnOk};
ghost use Rattle.evl_sched.specs.Threads as threads;
ghost use Rattle.lab_warnings.specs.Reasons as reasons;
ghost use Rattle.lab_warnings.specs.Reasons.{odd_text};

use evl_base::{Call, LineNo, MutexId, Stage, ThreadId};
use evl_plans::PlannedKernel;
use evl_scenario::Step;
use std::alloc::AllocError;

/// Why a step may not be what was meant, from what the machine is before it.
#[derive(Clone, Copy, PartialEq, Eq)]
pub enum Reason {
    /// An out-of-band thread makes it while another one is picked.
    Unpicked,
    /// It is a wait, and its thread isn't attached.
    Unattached,
    /// It releases a mutex that nobody has.
    Unowned,
    /// It makes an event of a line that is pending already.
    Merging,
}

// Whether a call comes from a thread, and not from what happens around it.
fn is_of_thread(call: &Call) -> bool
    ensures { result ≡ reasons.is_of_thread call.now }
{
    match call {
        Call::Arrive { .. } => false,
        Call::Tick { .. } => false,
        Call::Post { .. } => false,
        _ => true,
    }
}

// Whether a step is one that its thread makes while it runs out-of-band.
fn runs_oob(kernel: &PlannedKernel, step: &Step) -> bool
    ensures { result ≡ reasons.runs_oob kernel.now.history.state step.now }
{
    let read = kernel.kernel();
    if !is_of_thread(&step.call) || read.waits(step.who) {
        return false;
    }
    match read.stage(step.who) {
        Stage::Oob => true,
        Stage::Inband => false,
    }
}

// A thread, where it is another one than this.
fn other_than(who: u16, thread: u16) -> Option<u16>
    ensures { result ≡ reasons.other_than who thread }
{
    if thread == who { None } else { Some(thread) }
}

// The thread picked while an out-of-band thread makes this step, where that is somebody else.
fn picked_instead(kernel: &PlannedKernel, step: &Step) -> Option<u16>
    ensures { result ≡ reasons.picked_instead kernel.now.history.state step.now }
{
    if !runs_oob(kernel, step) {
        return None;
    }
    match kernel.kernel().picked() {
        Some(picked) => other_than(step.who.0, picked.0),
        None => None,
    }
}

// The stage on which an event of this line is pending already, the out-of-band one first.
fn pending_on_either(kernel: &PlannedKernel, line: LineNo) -> Option<Stage>
    ensures { result ≡ reasons.pending_on_either kernel.now.history.state line.0 }
{
    let read = kernel.kernel();
    if read.pending(Stage::Oob, line) {
        return Some(Stage::Oob);
    }
    if read.pending(Stage::Inband, line) {
        return Some(Stage::Inband);
    }
    None
}

// This stage, where an event of this line is pending there already.
fn pending_on(kernel: &PlannedKernel, stage: Stage, line: LineNo) -> Option<Stage>
    ensures { result ≡ reasons.pending_on kernel.now.history.state stage line.0 }
{
    if kernel.kernel().pending(stage, line) {
        Some(stage)
    } else {
        None
    }
}

// The stage on which an event is pending already of the line that gets one by this call.
fn pending_already(kernel: &PlannedKernel, call: &Call) -> Option<Stage>
    ensures { result ≡ reasons.pending_already kernel.now.history.state call.now }
{
    match call {
        Call::Arrive { line } => pending_on_either(kernel, *line),
        Call::Post { stage, line } => pending_on(kernel, *stage, *line),
        _ => None,
    }
}

/// How many events were spurious so far of the line that gets one by this call; 0 for a call that makes no event.
pub fn spurious_so_far(kernel: &PlannedKernel, call: &Call) -> u64
    ensures { result ≡ reasons.spurious_so_far kernel.now.history.state call.now }
{
    match call {
        Call::Arrive { line } => kernel.kernel().spurious(*line),
        Call::Post { line, .. } => kernel.kernel().spurious(*line),
        _ => 0,
    }
}

// Whether a call begins a wait.
fn is_wait(call: &Call) -> bool
    ensures { result ≡ reasons.is_wait call.now }
{
    match call {
        Call::BeginGet { .. } => true,
        Call::BeginTake { .. } => true,
        Call::BeginWrite { .. } => true,
        Call::BeginRead { .. } => true,
        Call::Claim { .. } => true,
        _ => false,
    }
}

// Whether a thread is attached.
fn is_attached(kernel: &PlannedKernel, thread: ThreadId) -> bool
    ensures { result ≡ threads.is_attached kernel.now.history.state.sched thread.0 }
{
    match kernel.kernel().rank(thread) {
        Some(_) => true,
        None => false,
    }
}

// Whether nobody has a mutex.
fn is_unowned(kernel: &PlannedKernel, mutex: MutexId) -> bool
    ensures { result ≡ reasons.is_unowned kernel.now.history.state mutex.0 }
{
    match kernel.kernel().owner(mutex) {
        Some(_) => false,
        None => true,
    }
}

// Whether a call releases a mutex that nobody has.
fn releases_unowned(kernel: &PlannedKernel, call: &Call) -> bool
    ensures { result ≡ reasons.releases_unowned kernel.now.history.state call.now }
{
    match call {
        Call::Release { mutex } => is_unowned(kernel, *mutex),
        _ => false,
    }
}

/// Whether a step is odd for this reason, from what the machine is before it.
pub fn is_odd(kernel: &PlannedKernel, step: &Step, reason: Reason) -> bool
    ensures { result ≡ reasons.is_odd reason kernel.now.history.state step.now }
{
    match reason {
        Reason::Unpicked => picked_instead(kernel, step).is_some(),
        Reason::Unattached => is_wait(&step.call) && !is_attached(kernel, step.who),
        Reason::Unowned => releases_unowned(kernel, &step.call),
        Reason::Merging => pending_already(kernel, &step.call).is_some(),
    }
}

// Writes who is picked meanwhile.
fn write_picked(told: &mut String, picked: Option<u16>) -> Result<(), AllocError>
    ensures { OnOk result (string_bytes told.new ≡ string_bytes told.old ++ reasons.picked_text picked) }
{
    match picked {
        Some(other) => write!(told, " while T{other} is picked\n"),
        None => Ok(()),
    }
}

// Writes where an event is pending already.
fn write_merging(told: &mut String, pending: Option<Stage>) -> Result<(), AllocError>
    ensures { OnOk result (string_bytes told.new ≡ string_bytes told.old ++ reasons.merging_text pending) }
{
    match pending {
        Some(stage) => write!(
            told,
            ", which is pending {stage} already: events of a line merge there\n"
        ),
        None => Ok(()),
    }
}

/// Writes why a step is odd. `AllocError` where memory couldn't grow.
pub fn write_odd(
    told: &mut String,
    kernel: &PlannedKernel,
    step: &Step,
    reason: Reason,
) -> Result<(), AllocError>
    ensures { OnOk result (string_bytes told.new ≡ string_bytes told.old ++ odd_text reason kernel.now.history.state step.now) }
{
    match reason {
        Reason::Unpicked => write_picked(told, picked_instead(kernel, step)),
        Reason::Unattached => told.push_str(", and its thread is not attached\n"),
        Reason::Unowned => told.push_str(", which nobody has\n"),
        Reason::Merging => write_merging(told, pending_already(kernel, &step.call)),
    }
}
