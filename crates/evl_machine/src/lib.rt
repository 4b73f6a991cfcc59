//! The machine: the kernel in a lock of one word and one slot, and the callers that take it in turn.
//! All that names no source is this profile's own.
#![tactic(auto)]

mod actor;
mod agreeing;
mod boxed;
mod caller;
mod closing;
mod element_waits;
mod elements;
mod held;
mod in_word;
pub mod laws;
mod locking;
mod looking;
mod machine;
mod making;
mod mutex_visits;
mod mutex_waits;
mod mutex_words;
mod mutexes;
mod stax_waits;
mod staxes;
mod switches;
mod unfinished;
mod visit;
mod waiting;

pub use boxed::{Caller, Held, Machine};
pub use caller::CallerOf;
pub use evl_core::{
    Account, CoreHand, CoreLock, CorePart, CoreRule, CoreSeat, CoreView, KernelBox, LockCall,
    LockReply, Made, Noted, Past, ThreadView,
};
pub use held::HeldOf;
pub use in_word::InWord;
pub use locking::{Begun, Ended};
pub use machine::MachineOf;
pub use unfinished::{Unfinished, WaitStep};
