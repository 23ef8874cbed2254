//! The state of a reader.
use crate::fault::Cause;

/// The state of a reader.
#[derive(Clone, Copy, Debug, PartialEq, Eq)]
pub enum Phase {
    /// Between two records, before the first, or at the end.
    Between,
    /// In a record of `length` bytes, whose block has `left` bytes left.
    Open { left: u64, length: u64 },
    /// A call has failed, and each further call returns this cause.
    Failed { cause: Cause },
}
