//! A line's callback, as the line shows it.

/// The name of a callback, and what its calls say.
#[derive(Clone, Copy, PartialEq, Eq)]
pub struct Shown {
    pub number: u8,
    pub tag: u32,
    pub count: u64,
}
