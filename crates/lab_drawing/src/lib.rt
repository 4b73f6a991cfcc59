//! Pictures of a trace: a mark for each entry and play, in lanes, as SVG.
//! All that names no source is this profile's own.
#![tactic(auto)]

mod beside;
mod callbacks;
mod dates;
mod downwards;
mod drawings;
mod drawn;
mod escapes;
mod events;
mod frames;
mod heads;
mod labels;
mod lanes;
mod marks;
mod moments;
mod pages;
mod ranks;
mod strips;
mod svg;
mod texts;
mod ties;
mod told;
mod waits;
mod words;

pub use callbacks::missing_callback;
pub use drawn::{Drawn, shown_with};
pub use frames::{Goes, Shows, lanes_of};
pub use lanes::Lane;
pub use marks::{Mark, Shape, marks_of};
pub use moments::{Condition, Moment, Standing};
pub use pages::{PAGE, page, page_count, page_moments};
pub use ranks::own_rank;
pub use svg::write_svg;
pub use told::told_moments;
