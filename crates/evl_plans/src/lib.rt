//! Callbacks that keep their plans, banks of them that a text asks for, and what is played over them.
//! Rules that name no source are this profile's own.
#![tactic(auto)]

mod actions;
mod banks;
mod callbacks;
mod copies;
mod faults;
mod kernels;
mod made;
mod planned;
mod rows;
mod tables;
mod traces;

pub use banks::read_bank;
pub use copies::copied_bank;
pub use faults::{BankFault, Part};
pub use kernels::PlannedKernel;
pub use made::kind_of;
pub use planned::Planned;
pub use traces::trace_plans;
