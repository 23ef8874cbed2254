//! The faults of parts, as faults of the calls on indexes.
ghost use Rattle.std.specs.Prelude.{◌≡◌};
ghost use Rattle.query_core.specs.Conversions.{fault_of_index, fault_of_line, fault_of_merge};
ghost use Rattle.query_core.specs.Conversions.{fault_of_text};

use crate::fault::AnswerFault;
use devices::{InputLineFault, WriteFault};
use merge_core::{FeedFault, MergeFault};

/// Returns the fault of a call whose index of this number has this fault.
pub(crate) fn fault_of_index(index: usize, fault: FeedFault) -> AnswerFault
    ensures { result ≡ fault_of_index index fault }
{
    match fault {
        FeedFault::Memory => AnswerFault::Memory,
        FeedFault::Read => AnswerFault::Read(index),
        FeedFault::BadLine(offset) => AnswerFault::BadLine(index, offset),
        FeedFault::OutOfOrder(offset) => AnswerFault::OutOfOrder(index, offset),
    }
}

impl From<MergeFault> for AnswerFault {
    ghost from_gives = { λ fault answer. answer ≡ fault_of_merge fault };

    fn from(fault: MergeFault) -> AnswerFault {
        match fault {
            MergeFault::Memory => AnswerFault::Memory,
            MergeFault::Write => AnswerFault::Write,
            MergeFault::Feed(index, fault) => fault_of_index(index, fault),
        }
    }
}

impl From<WriteFault> for AnswerFault {
    ghost from_gives = { λ fault answer. answer ≡ fault_of_text fault };

    fn from(fault: WriteFault) -> AnswerFault {
        match fault {
            WriteFault::Memory => AnswerFault::Memory,
            WriteFault::Write => AnswerFault::Write,
        }
    }
}

impl From<InputLineFault> for AnswerFault {
    ghost from_gives = { λ fault answer. answer ≡ fault_of_line fault };

    fn from(fault: InputLineFault) -> AnswerFault {
        match fault {
            InputLineFault::Memory => AnswerFault::Memory,
            InputLineFault::Read => AnswerFault::Input,
            InputLineFault::TooLong => AnswerFault::Input,
        }
    }
}
