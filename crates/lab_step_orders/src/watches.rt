//! The questions about each moment: facts of words, of who holds them, and of who has the core.
use evl_base::{MutexId, Stage, StaxId, ThreadId};
use lab_scenario_orders::When;

/// A fact of words and callers.
#[derive(Clone, Copy, Drop)]
pub enum StepFact {
    /// The thread holds the stax.
    HoldsStax(ThreadId, StaxId),
    /// A caller on the stage holds the stax.
    HeldOn(StaxId, Stage),
    /// The stax has the claim mark.
    StaxClaimed(StaxId),
    /// The thread has the mutex.
    HoldsMutex(ThreadId, MutexId),
    /// The mutex's word names nobody.
    MutexFree(MutexId),
    /// The mutex has the claim mark.
    MutexClaimed(MutexId),
    /// The thread has the core.
    HasCore(ThreadId),
    /// Nobody has the core.
    CoreFree,
}

/// A fact that is claimed, or claimed not to be so.
#[derive(Clone, Copy, Drop)]
pub struct StepClaim {
    pub fact: StepFact,
    pub is_so: bool,
}

/// Facts that are asked for at each moment.
#[derive(Drop)]
pub struct StepWatch {
    pub when: When,
    /// The text that says so.
    pub text: String,
    /// The facts that it claims: all of these are so.
    pub claims: Vec<StepClaim>,
}
