//! Lines as a trace has them: the step that one asks for, the scenario that a text of them is, and the text of lines of
//! a scenario.
#![tactic(auto)]

mod boards;
mod cuts;
mod expects;
mod kinds;
mod lines;
mod lists;
mod met;
mod places;
mod says;
mod small;
mod tables;
mod texts;
mod writing;

pub use expects::read_expected;
pub use kinds::{callers_text, is_lines, plain_text};
pub use lines::{Heard, Unread, read_step_line};
pub use met::{Unexpected, first_unexpected};
pub use tables::{ExpectFault, Expected, unexpecting};
pub use texts::{LinesFault, Meant, read_lines};
pub use writing::{Unlined, write_lines, write_tables};
