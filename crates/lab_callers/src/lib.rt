//! Callers of both stages in a text: the machine's calls, one after another on one host thread, each with its answer
//! and what is in the word that it went to.
#![tactic(auto)]

mod answers;
mod crew;
mod endings;
mod lines;
mod passes;
mod playing;
mod steps_at;
mod views;

pub use endings::{Kept, play_callers, play_kept};
pub use passes::StepFault;
pub use playing::{Ending, Played};
