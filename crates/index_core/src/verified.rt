//! The result of a verification.

/// The counts of a verification of an archive.
#[derive(Clone, Copy, Debug, PartialEq, Eq)]
pub struct Verified {
    /// The number of records.
    pub records: u64,
    /// The number of records whose block has another digest than the record gives.
    pub differing: u64,
}
