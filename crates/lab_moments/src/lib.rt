//! The state of a machine after each call of a scenario.
//! Rules that name no source are this profile's own.
#![tactic(auto)]

mod handed;
mod lenders;
mod moments;
mod pending;
mod runs;
mod standings;

pub use moments::moment_of;
pub use runs::moments_of;
pub use standings::standing;
