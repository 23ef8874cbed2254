//! The fetching of a record of an archive whose input failed at its first bytes.

ghost use Rattle.std.specs.Prelude.{◌≡◌};
ghost use Rattle.warc_core.specs.declared.fault.Cause.TheVariants.{Read};
ghost use Rattle.capture_core.specs.declared.fault.CaptureFault.TheVariants.{Archive};
ghost use Rattle.index_core.specs.declared.fault.IndexFault.TheVariants.{Capture};

use crate::fault::IndexFault;
use crate::fetch::Fetch;
use crate::fetching::GREATEST_OFFSET;
use archives::FailedArchive;
use capture_core::CaptureFault;
use warc_core::{Cause, Fault, Input, Output};

/// The input's failure, where a record was to be read.
fn failed_at(offset: u64) -> IndexFault
    ensures { result ≡ Capture (Archive (record { offset = offset; cause = Read })) }
{
    IndexFault::Capture(CaptureFault::Archive(Fault {
        offset,
        cause: Cause::Read,
    }))
}

impl<I: Input> Fetch for FailedArchive<I> {
    fn get<O: Output>(&mut self, offset: u64, out: &mut O) -> Result<u64, IndexFault> {
        self.fail();
        Err(failed_at(0))
    }

    fn get_at<O: Output>(
        &mut self,
        offset: u64,
        length: u64,
        out: &mut O,
    ) -> Result<u64, IndexFault> {
        if offset > GREATEST_OFFSET {
            return Err(IndexFault::NoRecord);
        }
        self.fail();
        Err(failed_at(offset))
    }
}
