//! The history of a kernel: every call with its answer, most of them as a row of sixteen bytes.
//! All that names no source is this profile's own.
#![tactic(auto)]

mod answers;
mod coding;
mod history;
mod reading;
mod row;

pub use history::History;
