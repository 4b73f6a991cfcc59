//! The drawings of `lab draw`.
#![tactic(auto)]

mod callers_texts;
mod draw_faults;
mod draw_forms;
mod draws;
mod firsts;
mod machines;

pub use draws::draw;
pub use machines::{Pictured, machine_picture};
