//! Tests of the lab: the faults of texts of each kind, the warnings of scenarios, the lines of traces, pictures, banks,
//! plays, and machines that are driven.
mod banks;
mod drawings;
mod expects;
mod faults;
mod kinds;
mod lines;
mod lives;
mod plays;
mod warned;
