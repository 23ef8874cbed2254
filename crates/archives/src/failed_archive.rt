//! Archives whose input failed at their first bytes.

use crate::archive::Archive;
use crate::placed_record::PlacedRecord;
use capture_core::{BlockStart, CaptureFault, Cause, Fault, Head, HeldLine, Input, Types, Verdict};

/// An archive whose input failed before it was known how it keeps its records. Each call says so.
#[derive(Drop)]
pub struct FailedArchive<I> {
    input: I,
    /// The number of calls that have failed, which only contracts read.
    failures: u64,
}

/// The input failed at an archive's start.
const FAILED: Fault = Fault {
    offset: 0,
    cause: Cause::Read,
};

impl<I: Input> FailedArchive<I> {
    ghost use Rattle.std.specs.Prelude.{◌≡◌};
    ghost use Rattle.devices.specs.Device.{next_count};
    ghost use Rattle.archives.specs.Failed.{failed_state};
    ghost use Rattle.archives.specs.State.{IsUnread};

    /// Creates an archive over the input that failed, with the bytes that it has left.
    pub fn new(input: I) -> FailedArchive<I>
        ensures unread { IsUnread (failed_state (I.remaining result.input) result.failures) }
        ensures bytes { I.remaining result.input ≡ I.remaining input }
        ensures failures { result.failures ≡ 0 }
    {
        FailedArchive { input, failures: 0 }
    }

    /// Counts a call that fails.
    pub fn fail(&mut self)
        ensures input { self.new.input ≡ self.old.input }
        ensures failures { self.new.failures ≡ next_count self.old.failures }
    {
        self.failures = self.failures.saturating_add(1);
    }
}

impl<I: Input> Archive for FailedArchive<I> {
    ghost use Rattle.archives.specs.Failed.{failed_state};

    ghost state = { λ a. failed_state (I.remaining a.input) a.failures };

    fn next_record(&mut self) -> Result<Option<PlacedRecord>, Fault> {
        self.fail();
        Err(FAILED)
    }

    fn next_verdict(&mut self) -> Result<Option<(PlacedRecord, Verdict)>, Fault> {
        self.fail();
        Err(FAILED)
    }

    fn next_capture(
        &mut self,
        front: &mut BlockStart,
        name: &str,
        types: Types,
    ) -> Result<Option<(PlacedRecord, Option<HeldLine>)>, CaptureFault> {
        self.fail();
        Err(CaptureFault::Archive(FAILED))
    }

    fn recycle(&mut self, head: Head) {}
}
