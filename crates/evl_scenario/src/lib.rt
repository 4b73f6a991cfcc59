//! Scenarios, read from text and written as text: a board, the limit of the history and the steps, with the faults of a
//! text; and the lines of their traces.
//! Rules that name no source are this profile's own.
#![tactic(auto)]

mod boards;
mod calls;
mod common;
mod faults;
mod fields;
mod lines;
mod lists;
mod policies;
mod scenarios;
mod step_texts;
mod steps;
mod tables;
mod takes;
mod tracing;
mod transfers;
mod value_texts;
mod values;
mod widths;
mod writing;

pub use boards::{is_limit_in_range, read_elements};
pub use faults::Fault;
pub use lines::{
    BoardLine, ElementCounts, EntryNumber, OwnerCounts, PlayLine, StepAnswer, StepLine, board_line,
};
pub use scenarios::{Scenario, read_scenario};
pub use steps::{Step, read_step, read_step_table, step_keys_of};
pub use tables::{at, at_or, at_text, field, has_only_keys, list_at};
pub use tracing::{trace_history, write_board_line, write_entry, write_history};
pub use values::{FromToml, number_of_text};
pub use writing::{Unwritten, without_staxes, write_opening, write_scenario, write_step};
