//! Lines of a source that are known without a read.

/// What is known of the first line that begins at an offset or after it. Its first bytes are among
/// those that are kept of all such lines; there are none if nothing is known.
#[derive(Clone, Copy)]
pub(crate) struct KnownLine {
    /// The offset from which on it is the first line.
    pub from: u64,
    /// Where it begins.
    pub offset: u64,
    /// Where its first bytes begin.
    pub start: usize,
    /// How many there are.
    pub length: usize,
}

/// The line at the start of a source, of which no byte is known.
pub(crate) const NOTHING: KnownLine = KnownLine {
    from: 0,
    offset: 0,
    start: 0,
    length: 0,
};
