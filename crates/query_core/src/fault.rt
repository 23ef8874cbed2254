//! Why a call on indexes failed.
use std::alloc::AllocError;
use thiserror::Error;

/// Why a call on indexes failed. Indexes are counted from 0; offsets are in bytes from an index's
/// start.
#[derive(Clone, Copy, Debug, Drop, PartialEq, Eq, Error)]
pub enum AnswerFault {
    /// Memory could not be allocated.
    #[error("out of memory")]
    Memory,
    /// The source of this index failed.
    #[error("index {0} can't be read")]
    Read(usize),
    /// The output failed.
    #[error("the output can't be written")]
    Write,
    /// The line at this offset of this index has no entry, or is too long.
    #[error("a bad line at {1} of index {0}")]
    BadLine(usize, u64),
    /// The key and stamp of the line at this offset of this index are below those of the line
    /// before it.
    #[error("the line at {1} of index {0} is out of order")]
    OutOfOrder(usize, u64),
    /// There are more than 1,024 indexes.
    #[error("too many indexes")]
    TooManySources,
    /// There are no sizes of pages, or one of them is 0.
    #[error("bad sizes")]
    BadSizes,
    /// The input failed, or is too long.
    #[error("the input can't be read")]
    Input,
}

impl AnswerFault {
    ghost use Rattle.std.specs.Prelude.{◌≡◌};
    ghost use Rattle.query_core.specs.IndexFaults.{answer_fault_name};

    /// Returns the fault's name.
    pub fn name(self) -> &'static str
        ensures { result.now ≡ answer_fault_name self }
    {
        match self {
            AnswerFault::Memory => "Memory",
            AnswerFault::Read(_) => "Read",
            AnswerFault::Write => "Write",
            AnswerFault::BadLine(..) => "BadLine",
            AnswerFault::OutOfOrder(..) => "OutOfOrder",
            AnswerFault::TooManySources => "TooManySources",
            AnswerFault::BadSizes => "BadSizes",
            AnswerFault::Input => "Input",
        }
    }
}

impl From<AllocError> for AnswerFault {
    ghost use Rattle.std.specs.Prelude.{◌≡◌};
    ghost use Rattle.query_core.specs.declared.fault.AnswerFault.TheVariants.{Memory};

    ghost from_gives = { λ _ fault. fault ≡ Memory };

    fn from(_error: AllocError) -> AnswerFault {
        AnswerFault::Memory
    }
}
