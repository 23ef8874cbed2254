//! Why a head is rejected.
ghost use Rattle.std.specs.Prelude.{◌≡◌};
ghost use Rattle.warc_head.specs.declared.fault.HeadFault.TheVariants.{Memory};

use std::alloc::{AllocError, AllocFailed};
use thiserror::Error;

/// Why the text of a head is rejected.
///
/// If a head has several faults, the first in this order is returned, except for `Memory`.
#[derive(Clone, Copy, Debug, PartialEq, Eq, Error)]
pub enum HeadFault {
    /// Memory could not be allocated.
    #[error("out of memory")]
    Memory,
    /// A line is neither a named field nor the continuation of one, or has a CR or LF outside its final CR LF.
    #[error("a line of the head is not a field")]
    FieldLine,
    /// One of `WARC-Record-ID`, `Content-Length`, `WARC-Date` and `WARC-Type` is absent.
    #[error("a mandatory field is missing")]
    Missing,
    /// One of the four mandatory fields occurs more than once.
    #[error("a mandatory field is repeated")]
    Repeated,
    /// `Content-Length` isn't 1 to 19 digits, or is over 2^63 - 1.
    #[error("the Content-Length is not a number of at most 2^63 - 1")]
    BadLength,
    /// `WARC-Date` has none of the forms of a date, or names a date or a time of day that doesn't exist.
    #[error("the WARC-Date is not a date")]
    BadDate,
}

impl From<AllocError> for HeadFault {
    ghost from_gives = { λ _ e. e ≡ Memory };

    fn from(_error: AllocError) -> HeadFault {
        HeadFault::Memory
    }
}

impl<T: Drop> From<AllocFailed<T>> for HeadFault {
    ghost from_gives = { λ _ e. e ≡ Memory };

    fn from(_error: AllocFailed<T>) -> HeadFault {
        HeadFault::Memory
    }
}
