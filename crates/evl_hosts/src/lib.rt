//! Callers of one machine that are kept apart: each has a share of the machine, and the passes that it got, so that host threads
//! with nothing else in common make their calls. All that names no source is this profile's own.
#![tactic(auto)]

mod hosts;
mod locks;
mod looks;
mod opening;
mod passes;
mod shared;
mod staxes;

pub use hosts::Host;
pub use looks::Question;
pub use opening::open_hosts;
