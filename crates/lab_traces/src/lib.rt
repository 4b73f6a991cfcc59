//! The lines of a trace, read: each text that a trace has is read back as what it was written from, and what a text is
//! read as has just that text. Rules that name no source are this profile's own.
#![tactic(auto)]

mod answers;
mod boards;
mod entries;
mod parts;
mod plays;
mod traces;

pub use answers::is_refused;
pub use boards::read_board;
pub use entries::{EntryLine, read_entry};
pub use parts::{before, behind};
pub use plays::read_play;
pub use traces::{Misread, Says, TraceLine, read_line, read_lines};
