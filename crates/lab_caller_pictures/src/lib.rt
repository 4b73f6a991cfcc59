//! The drawing of marks, by what they come from; and texts of callers, played to be drawn.
//! Rules that name no source are this profile's own.
#![tactic(auto)]

mod drawn;
mod joins;
mod plays;

pub use drawn::{Source, drawn_of, picture_of};
pub use plays::{CallersRun, Entered, Unplayed, play_drawn};
