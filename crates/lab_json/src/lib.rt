//! JSON for programs that ask the lab: the list of the calls, and what is found in texts.
//! Rules that name no source are this profile's own.
#![tactic(auto)]

mod calls;
mod lists;
mod notices;
mod parts;
mod runs;
mod states;
mod texts;
mod warned;

pub use calls::{write_call_of, write_calls};
pub use notices::{Notice, Noticed, write_faults, write_notice};
pub use runs::write_states;
pub use states::write_moment;
pub use texts::{put_comma, put_name, put_text};
pub use warned::{write_judged, write_warnings};
