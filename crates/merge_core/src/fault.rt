//! Why sources couldn't be merged.
use devices::{DeviceFault, WriteFault};
use source_core::SearchFault;
use std::alloc::{AllocError, AllocFailed};

/// Why a source's lines couldn't be read.
#[derive(Drop)]
pub enum FeedFault {
    /// Memory could not be allocated.
    Memory,
    /// The source failed.
    Read,
    /// The line at this offset has no entry, or is too long.
    BadLine(u64),
    /// The key and stamp of the line at this offset are below those of the line before it.
    OutOfOrder(u64),
}

/// Why sources couldn't be merged.
#[derive(Drop)]
pub enum MergeFault {
    /// Memory could not be allocated.
    Memory,
    /// The output failed.
    Write,
    /// The lines of the source with this number couldn't be read.
    Feed(usize, FeedFault),
}

impl From<AllocError> for FeedFault {
    ghost use Rattle.std.specs.Prelude.{◌≡◌};
    ghost use Rattle.merge_core.specs.declared.fault.FeedFault.TheVariants.{Memory};

    ghost from_gives = { λ _ fault. fault ≡ Memory };

    fn from(_error: AllocError) -> FeedFault {
        FeedFault::Memory
    }
}

impl<T: Drop> From<AllocFailed<T>> for FeedFault {
    ghost use Rattle.std.specs.Prelude.{◌≡◌};
    ghost use Rattle.merge_core.specs.declared.fault.FeedFault.TheVariants.{Memory};

    ghost from_gives = { λ _ fault. fault ≡ Memory };

    fn from(_refused: AllocFailed<T>) -> FeedFault {
        FeedFault::Memory
    }
}

impl From<SearchFault> for FeedFault {
    ghost use Rattle.std.specs.Prelude.{◌≡◌};
    ghost use Rattle.merge_core.specs.Failures.{search_fault};

    ghost from_gives = { λ search fault. fault ≡ search_fault search };

    fn from(fault: SearchFault) -> FeedFault {
        match fault {
            SearchFault::Memory => FeedFault::Memory,
            SearchFault::Read => FeedFault::Read,
        }
    }
}

impl From<AllocError> for MergeFault {
    ghost use Rattle.std.specs.Prelude.{◌≡◌};
    ghost use Rattle.merge_core.specs.declared.fault.MergeFault.TheVariants.{Memory};

    ghost from_gives = { λ _ fault. fault ≡ Memory };

    fn from(_error: AllocError) -> MergeFault {
        MergeFault::Memory
    }
}

impl<T: Drop> From<AllocFailed<T>> for MergeFault {
    ghost use Rattle.std.specs.Prelude.{◌≡◌};
    ghost use Rattle.merge_core.specs.declared.fault.MergeFault.TheVariants.{Memory};

    ghost from_gives = { λ _ fault. fault ≡ Memory };

    fn from(_refused: AllocFailed<T>) -> MergeFault {
        MergeFault::Memory
    }
}

impl From<WriteFault> for MergeFault {
    ghost use Rattle.std.specs.Prelude.{◌≡◌};
    ghost use Rattle.merge_core.specs.Failures.{merge_fault};

    ghost from_gives = { λ sink fault. fault ≡ merge_fault sink };

    fn from(fault: WriteFault) -> MergeFault {
        match fault {
            WriteFault::Memory => MergeFault::Memory,
            WriteFault::Write => MergeFault::Write,
        }
    }
}
