//! Why a place could not be kept, written or read.
ghost use Rattle.std.specs.Prelude.{◌≡◌};

use std::alloc::AllocError;
use thiserror::Error;

/// Why a place could not be kept, written or read.
#[derive(Clone, Copy, Debug, Drop, Error, PartialEq, Eq)]
pub enum PlaceFault {
    /// Memory could not be allocated.
    #[error("out of memory")]
    Memory,
    /// The text isn't a resume key.
    #[error("the resume key is bad")]
    BadResume,
}

impl From<AllocError> for PlaceFault {
    ghost use Rattle.cdxj_places.specs.declared.fault.PlaceFault.TheVariants.{Memory};

    ghost from_gives = { λ _ fault. fault ≡ Memory };

    fn from(_refused: AllocError) -> PlaceFault {
        PlaceFault::Memory
    }
}
