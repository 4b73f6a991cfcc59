//! Tests of the orders of callers' atomic steps.
mod turns;
mod words;
