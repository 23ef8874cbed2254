//! The reading of a plain archive's records, one after another.
ghost use Rattle.std.specs.Prelude.{◌≡◌, ℕ, ◌<◌, List, Some, Ok, IfOk, IfSome, length};
ghost use Rattle.std.specs.Io.KnownBytes.{prepend_known};
ghost use Rattle.warc_core.specs.Answers.{causes_of, CountsRead};
ghost use Rattle.warc_core.specs.declared.next.TheConstants.{HEAD_LIMIT};
ghost use Rattle.warc_core.specs.declared.phase.Phase.TheVariants.{Between};
ghost use Rattle.capture_core.specs.CaptureAnswer.{usual_limits};
ghost use Rattle.capture_core.specs.Types.{includes};
ghost use Rattle.archives.specs.Captures.{CountsCapture, TakesNext};
ghost use Rattle.archives.specs.Form.{plain, plain_placed};
ghost use Rattle.archives.specs.Plain.{ReaderStands};
ghost use Rattle.archives.specs.Walking.{JudgesNext, ReadsNext};

use crate::placed_record::PlacedRecord;
use capture_core::{
    BlockStart, CaptureFault, Fault, Head, HeldLine, Input, Reader, Types, Verdict, block_digest,
    held_capture, plain_place,
};
use std::alloc::Global;

/// Returns the record with this head of a plain archive.
fn placed(head: Head) -> PlacedRecord
    ensures { result ≡ plain_placed head }
{
    let place = plain_place(&head);
    PlacedRecord { head, place }
}

/// Reads the next record to its end. The errors are the archive's faults.
pub fn next_record<I: Input>(
    reader: &mut Reader,
    input: &mut I,
) -> Result<Option<PlacedRecord>, Fault>
    requires { reader.old.phase ≡ Between }
    ensures next { ReadsNext (plain HEAD_LIMIT) reader.old.offset result
        (prepend_known reader.old.held (I.remaining input.old))
        (prepend_known reader.new.held (I.remaining input.new)) }
    ensures stands { ReaderStands (λ p. p) result reader.new }
    ensures failures { CountsRead (causes_of result) (I.failures input.old) (I.failures input.new) }
{
    match reader.next(input)? {
        None => Ok(None),
        Some(head) => {
            reader.finish(input)?;
            Ok(Some(placed(head)))
        }
    }
}

/// Reads the next record to its end, and returns it with the verdict on its block. The errors are
/// the archive's faults.
pub fn next_verdict<I: Input>(
    reader: &mut Reader,
    input: &mut I,
) -> Result<Option<(PlacedRecord, Verdict)>, Fault>
    requires { reader.old.phase ≡ Between }
    ensures next { JudgesNext (plain HEAD_LIMIT) reader.old.offset result
        (prepend_known reader.old.held (I.remaining input.old))
        (prepend_known reader.new.held (I.remaining input.new)) }
    ensures stands { ReaderStands (λ j. j.0) result reader.new }
    ensures failures { CountsRead (causes_of result) (I.failures input.old) (I.failures input.new) }
{
    match reader.next(input)? {
        None => Ok(None),
        Some(head) => {
            let verdict = block_digest(reader, input, &head)?;
            Ok(Some((placed(head), verdict)))
        }
    }
}

/// Reads the next record to its end, and returns it with its capture under the archive's name.
pub fn next_capture<I: Input>(
    alloc: Global,
    front: &mut BlockStart,
    reader: &mut Reader,
    input: &mut I,
    name: &str,
    types: Types,
) -> Result<Option<(PlacedRecord, Option<HeldLine>)>, CaptureFault>
    requires between { reader.old.phase ≡ Between }
    requires named { 0 < length name.now }
    ensures takes { TakesNext (includes types) usual_limits (plain HEAD_LIMIT) name.now
        reader.old.offset result
        (prepend_known reader.old.held (I.remaining input.old))
        (prepend_known reader.new.held (I.remaining input.new)) }
    ensures stands { ReaderStands (λ c. c.0) result reader.new }
    ensures failures { CountsCapture result (I.failures input.old) (I.failures input.new) }
{
    match reader.next(input)? {
        None => Ok(None),
        Some(head) => {
            let captured = held_capture(alloc, front, reader, input, &head, name, types)?;
            Ok(Some((placed(head), captured)))
        }
    }
}
