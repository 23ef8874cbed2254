//! Why a target has no key.
ghost use Rattle.std.specs.Prelude.{◌≡◌};

use std::alloc::AllocError;
use thiserror::Error;

/// Why a target has no key.
#[derive(Clone, Copy, Debug, Drop, Error, PartialEq, Eq)]
pub enum KeyFault {
    /// Memory could not be allocated.
    #[error("out of memory")]
    Memory,
    /// The URL is longer than the URL parser can hold.
    #[error("the URL is too long")]
    TooLong,
}

impl From<AllocError> for KeyFault {
    ghost use Rattle.cdxj_keys.specs.declared.fault.KeyFault.TheVariants.{Memory};

    ghost from_gives = { λ _ fault. fault ≡ Memory };

    fn from(_refused: AllocError) -> KeyFault {
        KeyFault::Memory
    }
}
