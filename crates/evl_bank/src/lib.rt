//! The callbacks that the program has, the program over them, and whatever else is done with them.
//! Rules that name no source are this profile's own.
#![tactic(auto)]

mod bank;

pub use bank::{BankUser, play_program, with_program_bank};
