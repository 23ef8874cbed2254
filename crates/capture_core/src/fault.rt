//! Why the captures of an archive can't be read further.
ghost use Rattle.std.specs.Prelude.{◌≡◌};
ghost use Rattle.capture_core.specs.declared.fault.CaptureFault.TheVariants.{Archive};

use thiserror::Error;
use warc_core::Fault;

/// Why the capture of a record could not be returned.
#[derive(Clone, Copy, Debug, PartialEq, Eq, Error)]
pub enum CaptureFault {
    /// The archive can't be read further, or memory could not be allocated.
    #[error("{0}")]
    Archive(Fault),
    /// The line of the capture would be longer than the limit of a line. The number is the record's
    /// offset, in bytes from the archive's start.
    #[error("record at offset {0}: the line of its capture is too long")]
    LineTooLong(u64),
    /// The capture's URL is longer than the URL parser can hold. The number is the record's offset,
    /// in bytes from the archive's start.
    #[error("record at offset {0}: the URL is too long")]
    KeyTooLong(u64),
}

impl CaptureFault {
    ghost use Rattle.capture_core.specs.Fault.{fault_offset, capture_fault_name};

    /// Returns the offset of the record at fault, in bytes from the archive's start.
    pub fn offset(self) -> u64
        ensures { result ≡ fault_offset self }
    {
        match self {
            CaptureFault::Archive(fault) => fault.offset,
            CaptureFault::LineTooLong(offset) => offset,
            CaptureFault::KeyTooLong(offset) => offset,
        }
    }

    /// Returns the cause as listings print it: that of the archive's fault, `LineTooLong` or
    /// `KeyTooLong`.
    pub fn name(self) -> &'static str
        ensures { result.now ≡ capture_fault_name self }
    {
        match self {
            CaptureFault::Archive(fault) => fault.cause.name(),
            CaptureFault::LineTooLong(_) => "LineTooLong",
            CaptureFault::KeyTooLong(_) => "KeyTooLong",
        }
    }
}

impl From<Fault> for CaptureFault {
    ghost from_gives = { λ fault e. e ≡ Archive fault };

    fn from(fault: Fault) -> CaptureFault {
        CaptureFault::Archive(fault)
    }
}
