//! Why the arguments give no task.
ghost use Rattle.std.specs.Prelude.{◌≡◌};

use std::alloc::AllocError;
use thiserror::Error;

/// Why the arguments give no task.
#[derive(Debug, Drop, Error)]
pub enum WordsFault {
    /// Memory could not be allocated.
    #[error("out of memory")]
    Memory,
    /// The arguments ask for help. Its text is for standard output.
    #[error("{0}")]
    Help(String),
    /// A usage error. Its text is for standard error.
    #[error("{0}")]
    Usage(String),
}

impl From<AllocError> for WordsFault {
    ghost use Rattle.command_line.specs.declared.fault.WordsFault.TheVariants.{Memory};

    ghost from_gives = { λ _ fault. fault ≡ Memory };

    fn from(_refused: AllocError) -> WordsFault {
        WordsFault::Memory
    }
}
