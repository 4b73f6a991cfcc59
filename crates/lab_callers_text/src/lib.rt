//! Texts of callers, read: a scenario's board with staxes, and steps of a machine's callers among those of a scenario.
#![tactic(auto)]

mod acts;
mod documents;
mod marks;
mod reading;
mod step_words;
mod tables;

pub use acts::{Act, CallersStep};
pub use reading::{CallersText, read_callers};
