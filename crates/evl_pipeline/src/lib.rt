//! Interrupt lines, the logs and stall bits of the two stages, and stored callbacks (Dovetail: interrupt pipeline).
//! All that names no source is this profile's own.
#![tactic(auto)]

mod action;
mod answer;
mod by_line;
mod callback;
mod fire;
mod held;
mod log;
mod named;
mod pipeline;
mod plan;
mod port;
mod ran;
mod shown;
mod side;

pub use action::Action;
pub use answer::Answer;
pub use callback::{Callback, Handler};
pub use fire::Fire;
pub use named::Named;
pub use pipeline::PipelineOf;
pub use plan::Plan;
pub use ran::Ran;
use std::alloc::Global;

/// A pipeline of boxed closures.
pub type Pipeline = PipelineOf<Callback, Global>;
