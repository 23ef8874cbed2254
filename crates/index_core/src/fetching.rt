//! The fetching of a record of a plain archive by its offset.
ghost use Rattle.std.specs.Prelude.{◌≡◌, ℕ, ◌-◌, ◌^◌, ◌≤◌, Err, IfErr, IfOk};
ghost use Rattle.std.specs.Io.KnownBytes.{prepend_known};
ghost use Rattle.warc_core.specs.Answers.{causes_of, CountsRead};
ghost use Rattle.index_core.specs.Counting.{CountsIndex, CountsIndexWrite};
ghost use Rattle.index_core.specs.Copying.{CopiesNext, Reaches};
ghost use Rattle.index_core.specs.Fetching.{Fetches, IsFetchFault, IsMetBefore};
ghost use Rattle.index_core.specs.FetchingAt.{CopiesNextOf, CopiesRecordOf, FetchesAt};
ghost use Rattle.index_core.specs.FetchingAt.{PassesRecord};
ghost use Rattle.index_core.specs.OneRecord.{WritesOneRecord};
ghost use Rattle.warc_core.specs.ReaderView.{HasLeft, IfOpen, IsUnread, StandsAt};

use crate::copying::copy_record;
use crate::fault::IndexFault;
use crate::fetch::Fetch;
use crate::walk::next_record;
use archives::PlainArchive;
use warc_core::{Fault, HEAD_LIMIT, Head, Input, Output, Phase, Reader};

/// The greatest offset of a record.
pub const GREATEST_OFFSET: u64 = (1 << 63) - 1;

impl<I: Input> Fetch for PlainArchive<I> {
    /// The input is not called for anything after the record. `NoRecord` is returned if a record
    /// begins before the offset and ends after it, or if the archive ends at the offset or before
    /// it. After `NoRecord`, or a fault before the offset, nothing was written. After any other
    /// error, the first bytes from the offset on may have been written, but none past the end of
    /// the record that begins there.
    fn get<O: Output>(&mut self, offset: u64, out: &mut O) -> Result<u64, IndexFault> {
        match &mut self.reader {
            Ok(reader) => get_plain(reader, &mut self.input, offset, out),
            Err(fault) => Err(IndexFault::from(*fault)),
        }
    }

    /// `NoRecord` is returned if a record of another length begins at the offset, if the archive
    /// ends at the offset or before it, or if the offset is 2^63 or more. Then nothing was written.
    /// After any other error, the first bytes from the offset on may have been written, but none
    /// past the end of the record that begins there.
    fn get_at<O: Output>(
        &mut self,
        offset: u64,
        length: u64,
        out: &mut O,
    ) -> Result<u64, IndexFault> {
        if offset > GREATEST_OFFSET {
            return Err(IndexFault::NoRecord);
        }
        match &mut self.reader {
            Ok(reader) => get_plain_at(reader, &mut self.input, offset, length, out),
            Err(Fault { cause, .. }) => Err(IndexFault::from(Fault {
                offset,
                cause: *cause,
            })),
        }
    }
}

/// Writes the record that begins at `offset` and returns its length in bytes, by a reader at the
/// archive's start.
#[tactic(auto, using(crate::proofs::FetchLemmas::fetch_rules))]
fn get_plain<I: Input, O: Output>(
    reader: &mut Reader,
    input: &mut I,
    offset: u64,
    out: &mut O,
) -> Result<u64, IndexFault>
    requires { StandsAt reader.old 0 Phase.Between }
    ensures fetches { Fetches HEAD_LIMIT offset
        (prepend_known reader.old.held (I.remaining input.old)) result (O.written out.old)
        (O.written out.new) }
    ensures record { WritesOneRecord HEAD_LIMIT result (O.written out.old)
        (O.written out.new) }
    ensures refusals { IfErr result IsFetchFault }
    ensures unwritten { IfErr result (λ fault. IsMetBefore offset fault → out.new ≡ out.old) }
    ensures reads { CountsIndex result (I.failures input.old) (I.failures input.new) }
    ensures writes { CountsIndexWrite result (O.failures out.old) (O.failures out.new) }
{
    if reach(reader, input, offset)? {
        copy_next(reader, input, out)
    } else {
        Err(IndexFault::NoRecord)
    }
}

/// Writes the record of `length` bytes that begins at `offset`, and returns its length, by a reader
/// at the archive's start. What precedes the offset is passed over.
#[tactic(auto, using(crate::proofs::FetchLemmas::fetch_rules))]
fn get_plain_at<I: Input, O: Output>(
    reader: &mut Reader,
    input: &mut I,
    offset: u64,
    length: u64,
    out: &mut O,
) -> Result<u64, IndexFault>
    requires stands { StandsAt reader.old 0 Phase.Between }
    requires within { offset ≤ 2 ^ 63 - 1 }
    ensures fetches { FetchesAt HEAD_LIMIT offset length
        (prepend_known reader.old.held (I.remaining input.old)) result (O.written out.old)
        (O.written out.new) }
    ensures record { WritesOneRecord HEAD_LIMIT result (O.written out.old)
        (O.written out.new) }
    ensures refusals { IfErr result IsFetchFault }
    ensures unwritten { IfErr result (λ fault. IsMetBefore offset fault → out.new ≡ out.old) }
    ensures reads { CountsIndex result (I.failures input.old) (I.failures input.new) }
    ensures writes { CountsIndexWrite result (O.failures out.old) (O.failures out.new) }
{
    reader.pass_to(input, offset)?;
    copy_next_of(reader, input, length, out)
}

/// Writes the next record if it has this length in bytes, and returns the length.
#[tactic(auto, using(crate::proofs::FetchLemmas::next_rules))]
fn copy_next_of<I: Input, O: Output>(
    reader: &mut Reader,
    input: &mut I,
    length: u64,
    out: &mut O,
) -> Result<u64, IndexFault>
    requires { reader.old.phase ≡ Phase.Between }
    ensures copies { CopiesNextOf HEAD_LIMIT reader.old.offset length result
        (prepend_known reader.old.held (I.remaining input.old)) (O.written out.old)
        (O.written out.new) }
    ensures record { WritesOneRecord HEAD_LIMIT result (O.written out.old)
        (O.written out.new) }
    ensures unwritten { result ≡ Err IndexFault.NoRecord → out.new ≡ out.old }
    ensures reads { CountsIndex result (I.failures input.old) (I.failures input.new) }
    ensures writes { CountsIndexWrite result (O.failures out.old) (O.failures out.new) }
{
    match reader.next(input)? {
        Some(head) => copy_record_of(reader, input, &head, length, out),
        None => Err(IndexFault::NoRecord),
    }
}

/// Writes the record with this head if it has this length in bytes, and returns the length. None of
/// its block was read. Otherwise reads it to its end.
#[tactic(auto, using(crate::proofs::FetchAtLemmas::passed_rules))]
fn copy_record_of<I: Input, O: Output>(
    reader: &mut Reader,
    input: &mut I,
    head: &Head,
    length: u64,
    out: &mut O,
) -> Result<u64, IndexFault>
    requires { IsUnread reader.old head.now }
    ensures copies { CopiesRecordOf head.now length result
        (prepend_known reader.old.held (I.remaining input.old))
        (prepend_known reader.new.held (I.remaining input.new)) (O.written out.old)
        (O.written out.new) }
    ensures record { WritesOneRecord HEAD_LIMIT result (O.written out.old)
        (O.written out.new) }
    ensures unwritten { result ≡ Err IndexFault.NoRecord → out.new ≡ out.old }
    ensures reads { CountsIndex result (I.failures input.old) (I.failures input.new) }
    ensures writes { CountsIndexWrite result (O.failures out.old) (O.failures out.new) }
{
    if head.record_length() == length {
        copy_record(reader, input, head, out)
    } else {
        pass_record(reader, input)
    }
}

/// Reads the open record to its end. The error is its fault, or else `NoRecord`.
fn pass_record<I: Input>(reader: &mut Reader, input: &mut I) -> Result<u64, IndexFault>
    requires { HasLeft 0 reader.old.phase }
    ensures passes { IfOpen reader.old.phase (λ left _. PassesRecord left reader.old.offset result
        (prepend_known reader.old.held (I.remaining input.old))
        (prepend_known reader.new.held (I.remaining input.new))) }
    ensures refused { IfOk result (λ _. ⊥) }
    ensures reads { CountsIndex result (I.failures input.old) (I.failures input.new) }
{
    match reader.finish(input) {
        Ok(_length) => Err(IndexFault::NoRecord),
        Err(fault) => Err(IndexFault::from(fault)),
    }
}

/// Reads whole records from the archive's start up to the offset. Returns whether they fill the
/// archive up to it.
fn reach<I: Input>(reader: &mut Reader, input: &mut I, offset: u64) -> Result<bool, Fault>
    requires { StandsAt reader.old 0 Phase.Between }
    ensures reaches { Reaches HEAD_LIMIT offset result reader.new
        (prepend_known reader.old.held (I.remaining input.old))
        (prepend_known reader.new.held (I.remaining input.new)) }
    ensures reads { CountsRead (causes_of result) (I.failures input.old) (I.failures input.new) }
{
    let mut end = 0;
    while end < offset {
        match next_record(reader, input)? {
            Some(head) => end += head.record_length(),
            None => return Ok(false),
        }
    }
    Ok(end == offset)
}

/// Writes the next record, and returns its length in bytes.
#[tactic(auto, using(crate::proofs::FetchLemmas::next_rules))]
fn copy_next<I: Input, O: Output>(
    reader: &mut Reader,
    input: &mut I,
    out: &mut O,
) -> Result<u64, IndexFault>
    requires { reader.old.phase ≡ Phase.Between }
    ensures copies { CopiesNext HEAD_LIMIT reader.old.offset result
        (prepend_known reader.old.held (I.remaining input.old)) (O.written out.old)
        (O.written out.new) }
    ensures record { WritesOneRecord HEAD_LIMIT result (O.written out.old)
        (O.written out.new) }
    ensures unwritten { result ≡ Err IndexFault.NoRecord → out.new ≡ out.old }
    ensures reads { CountsIndex result (I.failures input.old) (I.failures input.new) }
    ensures writes { CountsIndexWrite result (O.failures out.old) (O.failures out.new) }
{
    match reader.next(input)? {
        Some(head) => copy_record(reader, input, &head, out),
        None => Err(IndexFault::NoRecord),
    }
}
