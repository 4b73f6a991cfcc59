//! The kinds of texts that the lab takes, and the faults of each, with their places, what was wanted, and near words.
//! All that names no source is this profile's own.
#![tactic(auto)]

mod asking;
mod asks;
mod banks;
mod callers;
mod kinds;
mod orders;
mod parts;
mod phrases;
mod plains;
mod reports;
mod rows;
mod tables;
mod words;

pub use banks::check_bank;
pub use callers::check_callers;
pub use kinds::{TextKind, checked_kind, kind_of};
pub use orders::check_orders;
pub use phrases::{ask_line, ask_words, impossible_words};
pub use plains::{bare, is_own, is_set_to, is_what_if, is_what_if_head};
pub use reports::report_kind;
