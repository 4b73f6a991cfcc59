//! Atomic steps on words, and what a caller's next turn is.
use crate::calls::Answer;
use evl_base::{MutexId, StaxId, ThreadId};

/// An atomic step on the word of a stax.
#[derive(Clone, Copy, PartialEq, Eq)]
pub enum GateStep {
    /// The load before an exchange.
    Look,
    /// The exchange of the word that the load found for one with this caller more.
    Exchange(u64),
    Leave,
    Claim,
    Unclaim,
}

/// A step of a caller on the word of a mutex: one exchange, or what it does with the kernel in hand.
#[derive(Clone, Copy, PartialEq, Eq)]
pub enum MutexStep {
    Try,
    Unlock,
    /// It claims a free mutex, and settles.
    Win,
    /// It claims one that another has.
    Mark,
    /// It offers the mutex to the next owner, and says whether more threads wait.
    Offer(u16, bool),
    Free,
    /// It finds the mutex offered to itself, and accepts it.
    Accept,
    /// It finds the mutex not offered to itself, and waits for it no more.
    Forget,
}

/// The call of the kernel in a visit.
#[derive(Clone, Copy, PartialEq, Eq)]
pub enum Visit {
    Release(MutexId),
    Claim {
        mutex: MutexId,
        owner: ThreadId,
        until: Option<u64>,
    },
    Finish,
    /// The step of the crew with this place.
    Step(usize),
}

/// The change of a caller's wait by its turn.
#[derive(Clone, Copy, PartialEq, Eq)]
pub enum WaitChange {
    Same,
    Begins(Waiting),
    Ends,
}

/// The thing that a caller waits for.
#[derive(Clone, Copy, PartialEq, Eq)]
pub enum Waiting {
    Mutex(MutexId),
    /// An element of the kernel that is no mutex.
    Element,
}

/// An atomic step on a word.
#[derive(Clone, Copy, PartialEq, Eq)]
pub enum WordStep {
    AtGate(StaxId, GateStep),
    AtMutex(MutexId, MutexStep),
}

/// A caller's place in its next call.
#[derive(Clone, Copy, PartialEq, Eq)]
pub enum Place {
    /// Before its first step.
    Begins,
    /// It found this word at a stax, which would let it in.
    Found(StaxId, u64),
    /// It left a stax as the last one in it, and found the claim mark.
    Left(StaxId),
    /// It found its mutex claimed by others.
    Claimed(MutexId),
}

/// The result of a turn.
#[derive(Clone, Copy, PartialEq, Eq)]
pub enum Then {
    /// The call goes on.
    Stands(Place),
    /// The call is answered.
    Answers(Answer),
}

/// The change of the core's lock by a turn.
#[derive(Clone, Copy, PartialEq, Eq)]
pub enum CoreChange {
    Same,
    Takes,
    /// The caller has visited the kernel, and gives the core by its next turn.
    Ends,
    Gives,
}

/// The caller that has the core, and whether it has visited the kernel.
#[derive(Clone, Copy, PartialEq, Eq)]
pub struct Taken {
    pub who: u16,
    pub is_done: bool,
}

/// How a call that visits the kernel comes by the core.
#[derive(Clone, Copy, PartialEq, Eq)]
pub enum CoreUse {
    /// The visit is one turn, which waits until nobody has the core.
    Whole,
    /// A turn before it takes the core, and waits until nobody has it; one after it gives the core.
    Lasts,
    /// The same, but the call is answered `CoreBusy` where another has the core.
    Tries,
}

/// A wrong step that callers make in place of the right one.
#[derive(Clone, Copy, PartialEq, Eq)]
pub enum WhatIf {
    /// A mutex is offered without the mark of those that still wait.
    OfferDropsMark,
    /// A wait for a mutex begins, and its word isn't marked.
    ClaimSetsNoMark,
    /// A caller that finds its mutex claimed as it unlocks it leaves it so.
    UnlockSkipsKernel,
    /// The last one out of a stax leaves the mark there.
    LeaveKeepsMark,
}

/// A caller's turn: the step that it makes, if any, and what it comes to.
#[derive(Clone, Copy, PartialEq, Eq)]
pub struct Turn {
    pub step: Option<WordStep>,
    /// The call of the kernel.
    pub visit: Option<Visit>,
    pub core: CoreChange,
    pub wait: WaitChange,
    pub then: Then,
}

/// The purpose of a visit.
#[derive(Clone, Copy, PartialEq, Eq)]
pub enum Asked {
    /// A mutex that others claim is handed on.
    Hand(MutexId),
    /// A mutex with this word is claimed.
    Begin(MutexId, Option<u64>, u64),
    /// The wait for a mutex with this word is ended.
    End(MutexId, u64),
    /// The step of the crew with this place is made.
    Step(usize),
    /// Another wait is ended.
    Finish,
}

/// The turn or the visit ahead of a caller.
#[derive(Clone, Copy, PartialEq, Eq)]
pub enum Ahead {
    Turns(Turn),
    /// A turn that the kernel's answer decides.
    Visits(Asked),
}
