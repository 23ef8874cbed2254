//! Why archives couldn't be scanned.
ghost use Rattle.std.specs.Prelude.{◌≡◌};
ghost use Rattle.scan_core.specs.declared.fault.ScanFault.TheVariants.{Answer, Query};

use index_core::IndexFault;
use query_core::{AnswerFault, QueryFault};
use thiserror::Error;

/// Why archives couldn't be scanned. Archives are counted from 0.
#[derive(Clone, Copy, Debug, PartialEq, Eq, Error)]
pub enum ScanFault {
    /// The query's text is refused.
    #[error("{0}")]
    Query(QueryFault),
    /// This archive couldn't be indexed.
    #[error("archive {0}: {1}")]
    Archive(usize, IndexFault),
    /// The pages couldn't be written.
    #[error("{0}")]
    Answer(AnswerFault),
}

impl From<QueryFault> for ScanFault {
    ghost from_gives = { λ query fault. fault ≡ Query query };

    fn from(fault: QueryFault) -> ScanFault {
        ScanFault::Query(fault)
    }
}

impl From<AnswerFault> for ScanFault {
    ghost from_gives = { λ answer fault. fault ≡ Answer answer };

    fn from(fault: AnswerFault) -> ScanFault {
        ScanFault::Answer(fault)
    }
}
