//! A machine that is driven line by line: each line is a call, as a trace has it, and is answered with the lines of the
//! trace.
#![tactic(auto)]

mod answers;
mod helps;
mod session;
mod states;
mod wholes;

pub use answers::{answer_line, path_behind, write_unwritten};
pub use helps::{write_call_of, write_forms};
pub use session::Session;
