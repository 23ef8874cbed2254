//! The copying of a record.
ghost use Rattle.std.specs.Prelude.{IfErr};
ghost use Rattle.std.specs.Io.KnownBytes.{prepend_known};
ghost use Rattle.warc_core.specs.declared.next.TheConstants.{HEAD_LIMIT};
ghost use Rattle.warc_core.specs.ReaderView.{IsUnread, state_of};
ghost use Rattle.index_core.specs.Counting.{CountsIndex, CountsIndexWrite};
ghost use Rattle.warc_core.specs.RecordText.{IsHead};
ghost use Rattle.index_core.specs.Copying.{CopiesHeadAndBlock, CopiesRecord};
ghost use Rattle.index_core.specs.OneRecord.{WritesOneRecord, WritesPart};

use crate::fault::IndexFault;
use crate::writing::put_bytes;
use warc_core::{Head, Input, Output, Reader};

/// Writes the head and the block of a record. Its head has been read, and none of its block.
fn copy_head_and_block<I: Input, O: Output>(
    reader: &mut Reader,
    input: &mut I,
    head: &Head,
    out: &mut O,
) -> Result<(), IndexFault>
    requires { IsUnread reader.old head.now }
    ensures copies { CopiesHeadAndBlock head.now result
        (prepend_known reader.old.held (I.remaining input.old))
        (state_of reader.new (I.remaining input.new) (I.failures input.new)) (O.written out.old)
        (O.written out.new) }
    ensures said { IsHead HEAD_LIMIT head.now }
    ensures part { IfErr result (λ _.
        WritesPart HEAD_LIMIT (O.written out.old) (O.written out.new)) }
    ensures reads { CountsIndex result (I.failures input.old) (I.failures input.new) }
    ensures writes { CountsIndexWrite result (O.failures out.old) (O.failures out.new) }
{
    put_bytes(out, head.raw())?;
    let mut piece = [0; 8192];
    loop {
        let count = reader.block(input, &mut piece)?;
        if count == 0 {
            return Ok(());
        }
        put_bytes(out, &piece[..count])?;
    }
}

/// Writes a record as it is stored, and returns its length in bytes. Its head has been read, and
/// none of its block.
///
/// Errors are the archive's fault, and `Write`. A prefix of the record was then written.
#[tactic(auto, using(std::proofs::lemmas::Result::err_from_is_err_and))]
pub fn copy_record<I: Input, O: Output>(
    reader: &mut Reader,
    input: &mut I,
    head: &Head,
    out: &mut O,
) -> Result<u64, IndexFault>
    requires { IsUnread reader.old head.now }
    ensures record { WritesOneRecord HEAD_LIMIT result (O.written out.old)
        (O.written out.new) }
    ensures copies { CopiesRecord head.now result
        (prepend_known reader.old.held (I.remaining input.old))
        (prepend_known reader.new.held (I.remaining input.new)) (O.written out.old)
        (O.written out.new) }
    ensures reads { CountsIndex result (I.failures input.old) (I.failures input.new) }
    ensures writes { CountsIndexWrite result (O.failures out.old) (O.failures out.new) }
{
    copy_head_and_block(reader, input, head, out)?;
    let length = reader.finish(input)?;
    put_bytes(out, b"\r\n\r\n")?;
    Ok(length)
}
