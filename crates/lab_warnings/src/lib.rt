//! The things that a scenario may have been meant not to do: the warnings of a dry run.
#![tactic(auto)]

mod actions;
mod counts;
mod ends;
mod reasons;
mod refusals;
mod runs;
mod steps;

pub use runs::warnings;
