//! Tests of scenarios that are written, of texts of callers, and of the orders in which callers may come: over worlds
//! that are tables, over callers that never wait, and over scenarios.
mod asks;
mod callers_texts;
mod free;
mod orders;
mod splits;
mod tables;
mod writings;
