//! The date, timers and deadlines, and what falls due (Xenomai 4: EVL clocks and timers).
//! All that names no source is this profile's own.
#![tactic(auto)]

mod agenda;
mod clock;
mod due;
mod items;
mod places;
mod timer;
mod timer_state;

pub use clock::ClockOf;
pub use due::Due;
use evl_pipeline::Callback;
use std::alloc::Global;
pub use timer_state::TimerState;

/// A clock of boxed closures.
pub type Clock = ClockOf<Callback, Global>;
