//! Queues of waiting threads, semaphores and flag groups (Xenomai 4: EVL semaphores and event flag groups).
//! All that names no source is this profile's own.
#![tactic(auto)]

mod alike;
mod arrival_queue;
mod flag_group;
mod flag_waiter;
mod kinds;
mod ranked;
mod sem;
mod wait_queue;
mod waiter;

pub use alike::{Alike, are_alike};
pub use arrival_queue::ArrivalQueue;
pub use flag_group::FlagGroup;
pub use flag_waiter::{FlagWaiter, TakenBits};
pub use sem::Sem;
pub use wait_queue::WaitQueue;
pub use waiter::Waiter;
