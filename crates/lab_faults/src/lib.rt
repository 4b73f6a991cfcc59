//! The faults of a scenario's text, each with its place, what was wanted, and a near word.
//! All that names no source is this profile's own.
#![tactic(auto)]

mod boards;
mod checks;
mod found;
mod items;
mod judges;
mod keys;
mod near;
mod quotes;
mod reports;
mod runs;
mod standings;
mod steps;
mod tokens;
mod wants;

pub use boards::{check_headings, check_item, check_threads, check_value, is_of_board};
pub use checks::{check, found_in_text, led_by};
pub use found::{Finding, Found, Place};
pub use items::{Heading, Item, Items, Section, bare, slice};
pub use judges::fits_step;
pub use keys::items_of;
pub use near::{meant_or_near, near_text};
pub use reports::{report, write_found};
pub use runs::{first_number, number_of, run_length};
pub use steps::{check_step, fault_of, first_byte, is_among, item_at, listed, named, shown};
pub use tokens::{Kind, Token, tokens_of};
pub use wants::{is_optional, keys_of};
