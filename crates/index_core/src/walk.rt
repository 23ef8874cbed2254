//! The reading of a plain archive's records, one after another.
ghost use Rattle.std.specs.Prelude.{◌≡◌, IfOk, IfSome, MatchResult};
ghost use Rattle.std.specs.Io.KnownBytes.{prepend_known};
ghost use Rattle.warc_core.specs.HeadView.{RecordBeginsAt};
ghost use Rattle.warc_core.specs.Answers.{causes_of, CountsRead};
ghost use Rattle.warc_core.specs.Reading.{Reads};
ghost use Rattle.warc_core.specs.ReaderView.{FailedBy};
ghost use Rattle.warc_core.specs.Walk.{record_at};
ghost use Rattle.index_core.specs.Report.{Passes};

use warc_core::{Fault, HEAD_LIMIT, Head, Input, Phase, Reader};

/// Reads the next whole record to its end, and returns its head. The errors are the archive's
/// faults.
pub fn next_record<I: Input>(reader: &mut Reader, input: &mut I) -> Result<Option<Head>, Fault>
    requires { reader.old.phase ≡ Phase.Between }
    ensures bytes { Reads (record_at HEAD_LIMIT reader.old.offset) (causes_of result)
        (prepend_known reader.old.held (I.remaining input.old))
        (prepend_known reader.new.held (I.remaining input.new)) }
    ensures state { MatchResult result (Passes reader.new reader.old.offset)
        (FailedBy reader.new reader.old.offset) }
    ensures begins { IfOk result (λ o. IfSome o (RecordBeginsAt reader.old.offset)) }
    ensures failures { CountsRead (causes_of result) (I.failures input.old) (I.failures input.new) }
{
    match reader.next(input)? {
        None => Ok(None),
        Some(head) => {
            reader.finish(input)?;
            Ok(Some(head))
        }
    }
}
