//! The answers of a driven machine to `lab live`'s lines, and those of callers' calls in `lab callers`.
#![tactic(auto)]

mod callers;
mod lives;
mod prompts;
mod writings;

pub use callers::drive_callers;
pub use lives::live;
pub use prompts::Prompted;
