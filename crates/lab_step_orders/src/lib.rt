//! Every order of the atomic steps that callers make on a machine's words: the words as plain numbers, each call a
//! program of steps, and the outcomes of all orders.
#![tactic(auto)]

mod calls;
mod cores;
mod crews;
mod digests;
mod facts;
mod going;
mod kernels;
mod laws;
mod moments;
mod outcomes;
mod programs;
mod reports;
mod seen;
mod shared;
mod states;
mod steps;
mod told;
mod visits;
mod watches;
mod words;
mod worlds;
mod wrongs;

pub use calls::{Answer, WordCall};
pub use crews::{Crew, CrewCaller};
pub use kernels::call_made;
pub use laws::{no_stax_is_shared, one_has_the_mutex, visits_are_whole, words_stand};
pub use moments::{Moment, first_moment, moment_after};
pub use outcomes::{StepOutcomes, step_outcomes_of};
pub use reports::{gate_word, turn_of, write_step_report};
pub use seen::SeenSteps;
pub use shared::SharedWord;
pub use steps::{
    Ahead, Asked, CoreChange, CoreUse, GateStep, MutexStep, Place, Taken, Then, Turn, Visit,
    WaitChange, Waiting, WhatIf, WordStep,
};
pub use told::number_in;
pub use watches::{StepClaim, StepFact, StepWatch};
pub use words::{count_in, mark_in, stage_in};
pub use worlds::Stepping;
