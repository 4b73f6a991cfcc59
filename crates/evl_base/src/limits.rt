//! The limits that several crates cite.

/// The most threads of a board, and with them the most seats of a word and the most deadlines of a clock.
pub const MAX_THREADS: usize = 256;

/// How many lines a stage has.
pub const LINES: usize = 4096;
