//! Why something couldn't be written.
ghost use Rattle.std.specs.Prelude.{◌≡◌};
ghost use Rattle.devices.specs.declared.write_fault.WriteFault.TheVariants.{Memory, Write};

use crate::device::DeviceFault;
use std::alloc::{AllocError, AllocFailed};

/// Why a text or a line could not be written.
#[derive(Clone, Copy, Drop)]
pub enum WriteFault {
    /// Memory could not be allocated.
    Memory,
    /// The output failed.
    Write,
}

impl From<DeviceFault> for WriteFault {
    ghost from_gives = { λ _ fault. fault ≡ Write };

    fn from(_fault: DeviceFault) -> WriteFault {
        WriteFault::Write
    }
}

impl From<AllocError> for WriteFault {
    ghost from_gives = { λ _ fault. fault ≡ Memory };

    fn from(_refused: AllocError) -> WriteFault {
        WriteFault::Memory
    }
}

impl<T: Drop> From<AllocFailed<T>> for WriteFault {
    ghost from_gives = { λ _ fault. fault ≡ Memory };

    fn from(_refused: AllocFailed<T>) -> WriteFault {
        WriteFault::Memory
    }
}
