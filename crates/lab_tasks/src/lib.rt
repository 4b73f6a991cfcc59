//! Task sets, read from text: threads that compute for stated times over a board, with interrupts at stated dates.
//! Rules that name no source are this profile's own.
#![tactic(auto)]

mod acts;
mod asks;
mod durations;
mod faults;
mod hyperperiods;
mod interrupts;
mod names;
mod ranks;
mod reading;
mod sets;
mod short_forms;
mod tasks;

pub use acts::Act;
pub use asks::Ask;
pub use durations::duration_of;
pub use faults::{FaultKind, FaultPlace, TasksFault};
pub use reading::read_tasks;
pub use sets::{Interrupt, Rules, Task, TaskSet, idle_of};
