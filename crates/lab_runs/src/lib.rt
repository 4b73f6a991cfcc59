//! The output of `lab run` for a task set: its jobs, its tasks, the processor's load, or the schedule in another form.
//! Rules that name no source are this profile's own.
#![tactic(auto)]

mod asks;
mod bounds;
mod charts;
mod faults;
mod json;
mod outputs;
mod reports;
mod runs;
mod summaries;
mod tables;
mod texts;
mod times;

pub use outputs::{Output, View};
pub use runs::run_tasks;
pub use summaries::{Summary, summary_of};
