//! The answer of a part, and what it is asked for.

/// A part's output, its words on standard error, and its status.
#[derive(Drop)]
pub struct Output {
    pub printed: String,
    pub said: String,
    pub status: u8,
}

/// The part of a schedule that is printed.
#[derive(Clone, Copy, PartialEq, Eq)]
pub enum View {
    /// A line for each job and each task, and the load.
    Report,
    /// The same with the bounds that theory gives each task's responses.
    Bounds,
    /// All of it as one line of JSON.
    Json,
    /// The jobs as comma-separated values.
    Csv,
    /// The events in jobs, and when jobs compute, each with its date.
    Trace,
    /// The scenario that `evl` plays to the same history.
    Scenario,
    /// A chart as SVG.
    Chart,
}
