//! Tests of boards, texts and bitmaps, of the clock and the scheduler, and of the elements, as a caller uses each of them;
//! and of four of them beside plain programs, over random calls.
mod boards;
mod clocks;
mod dice;
mod levels;
mod owners;
mod plain_sched;
mod ranks;
mod rings;
mod sched_runs;
mod scheds;
mod texts;
mod waiting;
mod xbufs;
