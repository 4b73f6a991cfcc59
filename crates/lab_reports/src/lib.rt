//! The reports of scenarios that were played: their traces as lines of JSON and as trace events, and the
//! differences of two traces; and the program's callbacks as plans.
#![tactic(auto)]

mod calls;
mod differences;
mod events;
mod json;
mod program;
mod quotes;
mod values;

pub use differences::{Difference, find_differences};
pub use events::write_events;
pub use json::write_json;
pub use program::program_plans;
