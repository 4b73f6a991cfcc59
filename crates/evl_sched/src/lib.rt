//! Threads, their policies and ranks, the ready list, and who is picked (Xenomai 4: EVL scheduling).
//! All that names no source is this profile's own.
#![tactic(auto)]

mod contenders;
mod group;
mod guesses;
mod items;
mod order;
mod place;
mod policies;
mod queues;
mod rank_set;
mod ready;
mod sched;
mod search;
mod seat;
mod thread_set;

pub use sched::SchedOf;
use std::alloc::Global;

/// The scheduler of one kernel.
pub type Sched = SchedOf<Global>;
