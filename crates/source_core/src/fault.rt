//! Why lines of a source couldn't be read or found.
use crate::source::SourceFault;
use std::alloc::AllocError;

/// Why a line couldn't be read.
#[derive(Drop)]
pub enum LineReadFault {
    /// Memory could not be allocated.
    Memory,
    /// The source failed.
    Read,
    /// The line is longer than [`LINE_LIMIT`](cdxj_core::LINE_LIMIT) bytes, including its line
    /// feed, if it has one.
    Long,
}

impl From<AllocError> for LineReadFault {
    ghost use Rattle.std.specs.Prelude.{◌≡◌};
    ghost use Rattle.source_core.specs.declared.fault.LineReadFault.TheVariants.{Memory};

    ghost from_gives = { λ _ fault. fault ≡ Memory };

    fn from(_error: AllocError) -> LineReadFault {
        LineReadFault::Memory
    }
}

impl From<SourceFault> for LineReadFault {
    ghost use Rattle.std.specs.Prelude.{◌≡◌};
    ghost use Rattle.source_core.specs.declared.fault.LineReadFault.TheVariants.{Read};

    ghost from_gives = { λ _ fault. fault ≡ Read };

    fn from(_fault: SourceFault) -> LineReadFault {
        LineReadFault::Read
    }
}

/// Why a search couldn't be completed.
#[derive(Debug, Drop)]
pub enum SearchFault {
    /// Memory could not be allocated.
    Memory,
    /// The source failed.
    Read,
}

impl From<AllocError> for SearchFault {
    ghost use Rattle.std.specs.Prelude.{◌≡◌};
    ghost use Rattle.source_core.specs.declared.fault.SearchFault.TheVariants.{Memory};

    ghost from_gives = { λ _ fault. fault ≡ Memory };

    fn from(_error: AllocError) -> SearchFault {
        SearchFault::Memory
    }
}

impl From<SourceFault> for SearchFault {
    ghost use Rattle.std.specs.Prelude.{◌≡◌};
    ghost use Rattle.source_core.specs.declared.fault.SearchFault.TheVariants.{Read};

    ghost from_gives = { λ _ fault. fault ≡ Read };

    fn from(_fault: SourceFault) -> SearchFault {
        SearchFault::Read
    }
}
