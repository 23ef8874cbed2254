//! The result of an answer, and its cost.

/// The result of an answer, and its cost. Each count saturates at 2^64 - 1.
#[derive(Clone, Copy, Debug, Drop, PartialEq, Eq)]
pub struct Report {
    /// The number of captures written.
    pub given: u64,
    /// Whether a further capture follows them.
    pub more: bool,
    /// The number of steps of the searches for the first line, in all indexes together.
    pub probes: u64,
    /// The number of lines read after the searches.
    pub lines: u64,
    /// The greatest number of lines held at once.
    pub held: u64,
}
