//! The report of `lab orders` on all orders of callers' calls, or of their atomic steps, and on what was asked.
#![tactic(auto)]

mod alone;
mod answers;
mod copies;
mod numbered;
mod one_order;
mod order_faults;
mod orders;
mod step_answers;
mod step_found;
mod step_orders;
mod verdicts;

pub use orders::tell_orders;
