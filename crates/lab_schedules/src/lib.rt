//! Task sets, played over a kernel: who computes when, and what comes of each job.
//! Rules that name no source are this profile's own.
#![tactic(auto)]

mod acting;
mod asks;
mod bounds;
mod calling;
mod choosing;
mod covers;
mod events;
mod jobs;
mod laws;
mod loads;
mod locking;
mod passing;
mod places;
mod playing;
mod schedules;
mod sections;
mod words;

pub use asks::{all_hold, first_against, holds};
pub use bounds::{Bound, bound_of};
pub use covers::{Uncovered, uncovered_in};
pub use events::{Event, Stretch, What};
pub use jobs::{Job, jobs_of};
pub use laws::{computing_is_counted, only_the_doer_computes, time_waits};
pub use playing::play_tasks;
pub use schedules::{End, Schedule};
