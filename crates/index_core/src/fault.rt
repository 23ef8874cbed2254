//! Why a call on an archive failed.
ghost use Rattle.std.specs.Prelude.{◌≡◌};
ghost use Rattle.capture_core.specs.declared.fault.CaptureFault.TheVariants.{Archive};
ghost use Rattle.index_core.specs.declared.fault.IndexFault.TheVariants.{Capture};

use capture_core::CaptureFault;
use thiserror::Error;
use warc_core::Fault;

/// Why a call on an archive failed.
#[derive(Clone, Copy, Debug, PartialEq, Eq, Error)]
pub enum IndexFault {
    /// The call itself could not allocate memory.
    #[error("out of memory")]
    Memory,
    /// The archive's captures can't be read further.
    #[error("{0}")]
    Capture(CaptureFault),
    /// The name of an archive is empty, or longer than 255 bytes.
    #[error("a bad archive name")]
    BadName,
    /// The indexer was already given an archive of this name.
    #[error("the archive name is used twice")]
    DuplicateName,
    /// The output failed.
    #[error("the output can't be written")]
    Write,
    /// No record begins at the offset that was passed.
    #[error("no record begins there")]
    NoRecord,
}

impl IndexFault {
    ghost use Rattle.index_core.specs.FaultNames.{index_fault_name};

    /// Returns the fault's name as the program prints it: `Memory`, `BadName`, `DuplicateName`,
    /// `Write`, `NoRecord`, or the cause of an archive's fault.
    pub fn name(self) -> &'static str
        ensures { result.now ≡ index_fault_name self }
    {
        match self {
            IndexFault::Memory => "Memory",
            IndexFault::Capture(fault) => fault.name(),
            IndexFault::BadName => "BadName",
            IndexFault::DuplicateName => "DuplicateName",
            IndexFault::Write => "Write",
            IndexFault::NoRecord => "NoRecord",
        }
    }
}

impl From<Fault> for IndexFault {
    ghost from_gives = { λ fault given. given ≡ Capture (Archive fault) };

    fn from(fault: Fault) -> IndexFault {
        IndexFault::Capture(CaptureFault::Archive(fault))
    }
}

impl From<CaptureFault> for IndexFault {
    ghost from_gives = { λ fault given. given ≡ Capture fault };

    fn from(fault: CaptureFault) -> IndexFault {
        IndexFault::Capture(fault)
    }
}
