//! What reads the records of an archive, one after another.
ghost use Rattle.std.specs.Prelude.{◌≡◌, ◌<◌, true, length};
ghost use Rattle.warc_core.specs.Answers.{causes_of, CountsRead};
ghost use Rattle.capture_core.specs.CaptureAnswer.{usual_limits};
ghost use Rattle.capture_core.specs.Types.{includes};
ghost use Rattle.archives.specs.Captures.{CountsCapture, TakesNext};
ghost use Rattle.archives.specs.Packing.{form_of};
ghost use Rattle.archives.specs.State.{ArchiveState};
ghost use Rattle.archives.specs.Walking.{JudgesNext, ReadsNext, StandsBehind};

use crate::placed_record::PlacedRecord;
use capture_core::{BlockStart, CaptureFault, Fault, Head, HeldLine, Types, Verdict};

/// An archive whose records are read one after another. Each is read to its end before it is
/// returned.
///
/// After a call has returned an error, no further one is made.
pub trait Archive {
    /// How its records are kept, where the next one is found, the bytes from there on, and the
    /// failures of its input.
    ghost state: { Self → ArchiveState };

    /// Reads the next record. Returns `None` at the archive's end. The errors are the archive's
    /// faults.
    fn next_record(&mut self) -> Result<Option<PlacedRecord>, Fault>
        requires { (state self.old).is_open ≡ true }
        ensures next { ReadsNext (form_of (state self.old).packing) (state self.old).offset result
            (state self.old).ahead (state self.new).ahead }
        ensures stands { StandsBehind (λ p. p) result (state self.new) }
        ensures packing { (state self.new).packing ≡ (state self.old).packing }
        ensures failures { CountsRead (causes_of result) (state self.old).failures
            (state self.new).failures };

    /// Reads the next record, and returns it with the verdict on its block by the digest that its
    /// head gives. Returns `None` at the archive's end. The errors are the archive's faults.
    fn next_verdict(&mut self) -> Result<Option<(PlacedRecord, Verdict)>, Fault>
        requires { (state self.old).is_open ≡ true }
        ensures next { JudgesNext (form_of (state self.old).packing) (state self.old).offset result
            (state self.old).ahead (state self.new).ahead }
        ensures stands { StandsBehind (λ j. j.0) result (state self.new) }
        ensures packing { (state self.new).packing ≡ (state self.old).packing }
        ensures failures { CountsRead (causes_of result) (state self.old).failures
            (state self.new).failures };

    /// Reads the next record, and returns it with its capture under the archive's name, or `None`
    /// in the capture's place if the record isn't indexed. A record is indexed if it has a target
    /// and its type is one of these. `front` serves one record after another. Returns `None` at the
    /// archive's end.
    ///
    /// Errors are the archive's faults and, of a record that was read, `KeyTooLong`, `LineTooLong`
    /// and `Memory`, at its place's offset.
    fn next_capture(
        &mut self,
        front: &mut BlockStart,
        name: &str,
        types: Types,
    ) -> Result<Option<(PlacedRecord, Option<HeldLine>)>, CaptureFault>
        requires open { (state self.old).is_open ≡ true }
        requires named { 0 < length name.now }
        ensures takes { TakesNext (includes types) usual_limits
            (form_of (state self.old).packing) name.now (state self.old).offset result
            (state self.old).ahead (state self.new).ahead }
        ensures stands { StandsBehind (λ c. c.0) result (state self.new) }
        ensures packing { (state self.new).packing ≡ (state self.old).packing }
        ensures failures { CountsCapture result (state self.old).failures
            (state self.new).failures };

    /// Keeps the memory of a head that isn't needed any more, for the next one.
    fn recycle(&mut self, head: Head)
        ensures { state self.new ≡ state self.old };
}
