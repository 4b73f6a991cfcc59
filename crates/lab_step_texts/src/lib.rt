//! Texts of callers whose orders of atomic steps are asked for: the callers with their calls on words, and what is asked.
#![tactic(auto)]

mod answers;
mod asks;
mod calls;
mod crews;
mod extras;
mod fact_texts;
mod faults;
mod lines;
mod near;
mod questions;
mod reading;
mod shown;

pub use answers::first_impossible;
pub use asks::read_step_ask;
pub use calls::CallerCall;
pub use faults::{StepFault, StepsFault, Unread};
pub use lines::write_order_lines;
pub use reading::{asks_steps, read_steps};
