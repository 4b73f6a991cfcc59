//! Tests of scenario texts and of the shell: faults, statuses, sinks, and the lines of a trace.
mod cuts;
mod faults;
mod histories;
mod lines;
mod reads;
mod sinks;
mod statuses;
mod texts;
mod writers;
