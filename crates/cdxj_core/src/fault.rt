//! Why a line could not be written or read.
ghost use Rattle.std.specs.Prelude.{◌≡◌};

use std::alloc::AllocError;
use thiserror::Error;

/// Why a line could not be written or read.
#[derive(Clone, Copy, Debug, Drop, Error, PartialEq, Eq)]
pub enum LineFault {
    /// Memory could not be allocated.
    #[error("out of memory")]
    Memory,
    /// The line is longer than `LINE_LIMIT` bytes.
    #[error("the line is too long")]
    LineTooLong,
    /// The line has no entry.
    #[error("the line has no entry")]
    BadLine,
}

impl From<AllocError> for LineFault {
    ghost use Rattle.cdxj_core.specs.declared.fault.LineFault.TheVariants.{Memory};

    ghost from_gives = { λ _ fault. fault ≡ Memory };

    fn from(_refused: AllocError) -> LineFault {
        LineFault::Memory
    }
}
