//! Tests of the core: its elements, words and kernel as a caller uses each, a machine's callers on one host thread and on
//! two, and memory of which one request is refused.
#![tactic(auto)]

#[cfg(test)]
mod boards;
#[cfg(test)]
mod callers;
#[cfg(test)]
mod elements;
#[cfg(test)]
mod growths;
#[cfg(test)]
mod kernels;
mod refusing;
#[cfg(test)]
mod rows;
#[cfg(test)]
mod short;
#[cfg(test)]
mod words;

pub use refusing::Refusing;
