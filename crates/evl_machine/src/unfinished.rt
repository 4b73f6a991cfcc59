//! For what a caller waits, by its own calls.
ghost use Rattle.std.specs.Prelude.{◌≡◌};
ghost use Rattle.evl_machine.specs.callers.Unfinished.{wait_after, wait_step};

use evl_base::{Call, MutexId, Refusal, Reply};

/// All that an unfinished wait may be for.
#[derive(Clone, Copy, PartialEq, Eq)]
pub enum Unfinished {
    /// A mutex.
    Mutex(MutexId),
    /// Any other element.
    Element,
}

/// The effect of a call on the wait of its caller, where it isn't refused.
#[derive(Clone, Copy)]
pub enum WaitStep {
    Begins(Unfinished),
    Ends,
    Keeps,
}

/// The effect of this call on its caller's wait.
#[inline(always)]
pub(crate) fn wait_step(call: &Call) -> WaitStep
    ensures { result ≡ wait_step call.now }
{
    match call {
        Call::Claim { mutex, .. } => WaitStep::Begins(Unfinished::Mutex(*mutex)),
        Call::BeginGet { .. }
        | Call::BeginTake { .. }
        | Call::BeginWrite { .. }
        | Call::BeginRead { .. } => WaitStep::Begins(Unfinished::Element),
        Call::Finish { .. } => WaitStep::Ends,
        _ => WaitStep::Keeps,
    }
}

/// The wait that is unfinished once a call was answered.
#[inline(always)]
pub(crate) fn wait_after(
    wait: Option<Unfinished>,
    step: WaitStep,
    answer: &Result<Reply, Refusal>,
) -> Option<Unfinished>
    ensures { result ≡ wait_after wait step answer.now }
{
    match (answer, step) {
        (Err(_), _) => wait,
        (Ok(_), WaitStep::Begins(on)) => Some(on),
        (Ok(_), WaitStep::Ends) => None,
        (Ok(_), WaitStep::Keeps) => wait,
    }
}
