//! Installed callbacks.

/// A callback, and the line where it is.
#[derive(Drop)]
pub struct Held<C> {
    pub callback: C,
    pub line: u16,
}
