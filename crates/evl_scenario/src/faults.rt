//! Why a run stopped.

/// Why a scenario wasn't played to its end.
#[derive(Clone, Copy, PartialEq, Eq)]
pub enum Fault {
    /// The text isn't UTF-8, is no TOML document, or has more than 1,048,576 bytes.
    Text,
    /// A key beside the board or in it is unknown or missing, or has a value that it can't have.
    Board,
    /// The first step that can't be read, from 1.
    Step(u32),
    /// A growth was refused.
    Memory,
    /// The sink failed.
    Write,
}
