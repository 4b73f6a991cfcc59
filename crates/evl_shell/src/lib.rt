//! The shell: plays a scenario's text into a sink, line by line, and says why it stopped.
//! Rules that name no source are this profile's own.
#![tactic(auto)]

mod arguments;
mod chunks;
mod histories;
mod laws;
mod lent;
mod plays;
mod programs;
mod readings;
mod runs;
mod sinks;
mod texts;

pub use evl_scenario::Fault;
pub use histories::{know_bank, trace_kernel};
pub use laws::{histories_play_again, staxes_leave_no_trace};
pub use plays::{Stop, conclude, stopped};
pub use programs::{play, play_into};
pub use readings::{ReadFault, read_at_most};
pub use runs::{leave, run, wants_memory};
pub use sinks::{Over, Sink};
