//! The end of a record.
ghost use Rattle.std.specs.Prelude.{◌≡◌, Option, IfErr};
ghost use Rattle.std.specs.Io.KnownBytes.{prepend_known};
ghost use Rattle.warc_core.specs.Reading.{Reads, first_of};
ghost use Rattle.warc_core.specs.Answers.{CountsRead};
ghost use Rattle.warc_core.specs.Record.{closing, after_text, after_record};
ghost use Rattle.warc_core.specs.Cause.{StopsRecord};

use crate::block::skip_block;
use crate::fault::Cause;
use crate::head_text::begins_with_closing;
use devices::{Buffer, Input};

/// Reads the next byte, if there is one.
fn next_byte<I: Input>(buffer: &mut Buffer, input: &mut I) -> Result<Option<u8>, Cause>
    ensures bytes { Reads first_of result (prepend_known buffer.old (I.remaining input.old))
        (prepend_known buffer.new (I.remaining input.new)) }
    ensures cause { IfErr result (λ c. c ≡ Cause.Read) }
    ensures failures { CountsRead result (I.failures input.old) (I.failures input.new) }
{
    buffer.fill(input)?;
    let first = buffer.as_slice().first().copied();
    if first.is_some() {
        buffer.consume(1);
    }
    Ok(first)
}

/// Skips the CR LF CR LF that must come next. Most stand whole in the buffer.
fn expect_closing<I: Input>(buffer: &mut Buffer, input: &mut I) -> Result<(), Cause>
    ensures bytes { Reads (after_text closing) result
        (prepend_known buffer.old (I.remaining input.old))
        (prepend_known buffer.new (I.remaining input.new)) }
    ensures cause { IfErr result StopsRecord }
    ensures failures { CountsRead result (I.failures input.old) (I.failures input.new) }
{
    buffer.fill(input)?;
    if begins_with_closing(buffer.as_slice()) {
        buffer.consume(4);
        return Ok(());
    }
    for expected in b"\r\n\r\n" {
        match next_byte(buffer, input)? {
            Some(byte) if byte == *expected => {}
            _ => return Err(Cause::Closing),
        }
    }
    Ok(())
}

/// Skips the rest of a block, of `left` bytes, and its closing. The errors are `Read`, `ShortBlock` and `Closing`.
#[tactic(auto, unfolding(crate::specs::Record::after_record))]
#[inline(never)] // so that `Reader::finish` is inlined, which often finds no record open
pub fn skip_record<I: Input>(buffer: &mut Buffer, input: &mut I, left: u64) -> Result<(), Cause>
    ensures cause { IfErr result StopsRecord }
    ensures bytes { Reads (after_record left) result
        (prepend_known buffer.old (I.remaining input.old))
        (prepend_known buffer.new (I.remaining input.new)) }
    ensures failures { CountsRead result (I.failures input.old) (I.failures input.new) }
{
    skip_block(buffer, input, left)?;
    expect_closing(buffer, input)
}
