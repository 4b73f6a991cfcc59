//! How a line leads to its callback.

/// The place of a line's callback, with what its calls say.
#[derive(Clone, Copy)]
pub struct Port {
    pub key: usize,
    pub tag: u32,
    pub count: u64,
}
