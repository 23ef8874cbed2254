//! The capture of a record.
ghost use Rattle.std.specs.Prelude.{◌≡◌, ℕ, ◌-◌, ◌<◌, ◌≤◌, List, [], length, take, IfOk, IfSome};
ghost use Rattle.std.specs.Prelude.{OnOk, option_map};
ghost use Rattle.std.specs.Io.KnownBytes.{prepend_known};
ghost use Rattle.warc_core.specs.Calls.{GivesBlock};
ghost use Rattle.warc_core.specs.ReaderView.{HasLeft, IfOpen, IsUnread, state_of};
ghost use Rattle.capture_core.specs.BlockParts.{block_given};
ghost use Rattle.capture_core.specs.Capture.{plain_place};
ghost use Rattle.capture_core.specs.Indexed.{url_of};
ghost use Rattle.capture_core.specs.Types.{includes};
ghost use Rattle.capture_core.specs.ResponseView.{response_view};
ghost use Rattle.capture_core.specs.RecordReading.{ReadsRest, ReadsWhole};
ghost use Rattle.capture_core.specs.CaptureAnswer.{Captures, GivesParts, HasUrl, IsEntryOf, PartsBlock};
ghost use Rattle.capture_core.specs.CaptureAnswer.{usual_limits};
ghost use Rattle.capture_core.specs.CaptureSteps.{HasFront, FillsBehind, ReadsBlock};

use crate::block_parts::BlockParts;
use crate::capture_parts::CaptureParts;
use crate::closing::{close_block, memory};
use crate::fault::CaptureFault;
use crate::held_line::HeldLine;
use crate::http_head::{EMPTY_SPANS, HTTP_HEAD_LIMIT, UsualSpans};
use crate::payload::{SplitBlock, front_length, part_decided};
use crate::payload_digest::{PayloadDigest, known_digest};
use crate::place::plain_place;
use crate::target::url;
use crate::types::Types;
use cdxj_core::{Entry, LINE_LIMIT};
use std::alloc::{AllocError, Global};
use warc_core::{Fault, Head, Input, Reader, base32, digest_rest};

/// The number of bytes in the first step: after a skip, one call of the reader returns no more.
const FIRST_STEP: usize = 2048;

/// The number of bytes in the second step.
const SECOND_STEP: usize = 8192;

/// A buffer for the start of a block, which serves one record after another.
#[derive(Debug, Drop)]
pub struct BlockStart {
    bytes: Vec<u8>,
    /// For the fields of an HTTP head in it.
    spans: UsualSpans,
    /// The media type of the record that was read last.
    mime: Vec<u8>,
}

impl BlockStart {
    /// Creates an empty buffer. It takes no memory.
    pub fn new(alloc: Global) -> BlockStart {
        BlockStart {
            bytes: Vec::new(alloc),
            spans: EMPTY_SPANS,
            mime: Vec::new(alloc),
        }
    }
}

/// Returns the entry of a record under the archive's name, or `None` if the record isn't indexed. A
/// record is indexed if it has a target and its type is one of these. The record is read to its
/// end, and its payload is hashed if the head gives no digest of it.
///
/// The record must be the last that the reader returned, with none of its block read, and the name
/// must not be empty. Errors are the archive's fault and, after the record was read to its end,
/// `KeyTooLong`, `LineTooLong` and `Memory`, all at the record's offset.
pub fn capture<I: Input>(
    alloc: Global,
    reader: &mut Reader,
    input: &mut I,
    head: &Head,
    name: &str,
    types: Types,
) -> Result<Option<Entry>, CaptureFault>
    requires unread { IsUnread reader.old head.now }
    requires named { 0 < length name.now }
    ensures reads { ReadsWhole head.now
        (state_of reader.old (I.remaining input.old) (I.failures input.old))
        (state_of reader.new (I.remaining input.new) (I.failures input.new)) result }
    ensures capture { Captures (url_of (includes types) head.now) usual_limits
        (plain_place head.now) head.now name.now
        (prepend_known reader.old.held (I.remaining input.old)) result }
    ensures entry { IfOk result (λ captured. IfSome captured
        (IsEntryOf (plain_place head.now) head.now name.now LINE_LIMIT)) }
    ensures under { IfOk result (HasUrl (url_of (includes types) head.now)) }
{
    let mut front = BlockStart::new(alloc);
    match held_capture(alloc, &mut front, reader, input, head, name, types)? {
        Some(line) => match line.entry(alloc, head.record_length()) {
            Ok(entry) => Ok(Some(entry)),
            Err(_) => Err(CaptureFault::from(memory(head))),
        },
        None => Ok(None),
    }
}

/// Like `capture`, with the capture as its line, and with a buffer for the start of the block that
/// serves one record after another. Of a usual record, only the line takes memory. Errors are those
/// of `capture`, `Memory` included.
pub fn held_capture<I: Input>(
    alloc: Global,
    front: &mut BlockStart,
    reader: &mut Reader,
    input: &mut I,
    head: &Head,
    name: &str,
    types: Types,
) -> Result<Option<HeldLine>, CaptureFault>
    requires unread { IsUnread reader.old head.now }
    requires named { 0 < length name.now }
    ensures reads { ReadsWhole head.now
        (state_of reader.old (I.remaining input.old) (I.failures input.old))
        (state_of reader.new (I.remaining input.new) (I.failures input.new)) result }
    ensures capture { Captures (url_of (includes types) head.now) usual_limits
        (plain_place head.now) head.now name.now
        (prepend_known reader.old.held (I.remaining input.old)) result }
    ensures entry { IfOk result (λ captured. IfSome captured
        (IsEntryOf (plain_place head.now) head.now name.now LINE_LIMIT)) }
    ensures under { IfOk result (HasUrl (url_of (includes types) head.now)) }
{
    match read_capture(front, reader, input, head, types)? {
        Some(parts) => {
            let line = parts.line(alloc, name, plain_place(head))?;
            Ok(Some(line))
        }
        None => Ok(None),
    }
}

/// Reads a record to its end, and returns what it gives to its capture, or `None` if the record
/// isn't indexed. A record is indexed if it has a target and its type is one of these. Its payload
/// is hashed if the head gives no digest of it.
///
/// The record must be the last that the reader returned, with none of its block read. Errors are
/// the archive's fault and, after the record was read to its end, `Memory`, all at the record's
/// offset.
pub fn read_capture<'a, I: Input>(
    front: &'a mut BlockStart,
    reader: &mut Reader,
    input: &mut I,
    head: &'a Head,
    types: Types,
) -> Result<Option<CaptureParts<'a>>, Fault>
    requires { IsUnread reader.old head.now }
    ensures reads { ReadsRest head.now.parts.block_length head.now
        (state_of reader.old (I.remaining input.old) (I.failures input.old))
        (state_of reader.new (I.remaining input.new) (I.failures input.new)) result }
    ensures parts { GivesParts (url_of (includes types) head.now) usual_limits head.now
        (prepend_known reader.old.held (I.remaining input.old)) result }
    ensures stamp { IfOk result (λ parts. IfSome parts (λ p. p.stamp ≡ head.now.parts.stamp)) }
    ensures under { IfOk result (λ parts.
        option_map (λ p. p.url) parts ≡ url_of (includes types) head.now) }
{
    match url(head, types) {
        Some(url) => {
            let block = read_block(
                &mut front.bytes,
                &mut front.spans,
                &mut front.mime,
                reader,
                input,
                head,
            )?;
            Ok(Some(CaptureParts {
                stamp: head.stamp(),
                url,
                mime: &front.mime,
                block,
            }))
        }
        None => {
            reader.finish(input)?;
            Ok(None)
        }
    }
}

/// Reads the block of a record that is indexed, and the record to its end. Keeps the media type,
/// and returns what else the block holds. The front of the block is read in three steps at most,
/// and no further than to the step in which an HTTP head ends: what one call of the reader returns
/// for a piece of 2,048 bytes, the first 8,192 bytes, and the whole front, of at most 65,536 bytes.
fn read_block<'a, I: Input>(
    front: &mut Vec<u8>,
    spans: &mut UsualSpans,
    mime: &mut Vec<u8>,
    reader: &mut Reader,
    input: &mut I,
    head: &'a Head,
) -> Result<BlockParts<'a>, Fault>
    requires { HasFront head.now [] reader.old }
    ensures { ReadsBlock head.now []
        (state_of reader.old (I.remaining input.old) (I.failures input.old))
        (state_of reader.new (I.remaining input.new) (I.failures input.new))
        (block_given mime.new.items result) }
{
    let whole = front_length(head);
    let first = whole.min(FIRST_STEP);
    match make_room(front, first) {
        Ok(()) => {}
        Err(_) => return finish_without_memory(reader, input, head),
    }
    let mut filled = read_first(reader, input, front, first)?;
    'steps: loop {
        match part_decided(head, &front[..filled], whole, spans) {
            Some(parted) => return finish_block(reader, input, head, parted, mime),
            None => {}
        }
        let goal = whole.min(step_after(filled));
        match make_room(front, goal) {
            Ok(()) => {}
            Err(_) => return finish_without_memory(reader, input, head),
        }
        read_behind(reader, input, front, filled, goal)?;
        filled = goal;
    }
}

/// Reads the first bytes of the block into the front, as many as one call of the reader returns for
/// this many.
fn read_first<I: Input>(
    reader: &mut Reader,
    input: &mut I,
    front: &mut [u8],
    first: usize,
) -> Result<usize, Fault>
    requires { first ≤ length front.old }
    ensures { IfOpen reader.old.phase (λ left len. GivesBlock left len
        (state_of reader.old (I.remaining input.old) (I.failures input.old))
        (state_of reader.new (I.remaining input.new) (I.failures input.new))
        result (take first front.new)) }
{
    reader.block(input, &mut front[..first])
}

/// Reads the next bytes of the block behind the first of the front, up to `goal` bytes in all.
fn read_behind<I: Input>(
    reader: &mut Reader,
    input: &mut I,
    front: &mut [u8],
    filled: usize,
    goal: usize,
) -> Result<(), Fault>
    requires order { filled ≤ goal }
    requires within { goal ≤ length front.old }
    requires left { HasLeft (goal - filled) reader.old.phase }
    ensures { FillsBehind (take filled front.old)
        (state_of reader.old (I.remaining input.old) (I.failures input.old))
        (state_of reader.new (I.remaining input.new) (I.failures input.new))
        result (take goal front.new) }
{
    reader.block_exact(input, &mut front[filled..goal])
}

/// Returns how many bytes of the front the next step looks at, after one that looked at this many.
fn step_after(filled: usize) -> usize
    ensures more { filled < HTTP_HEAD_LIMIT → filled < result }
    ensures last { SECOND_STEP ≤ filled → result ≡ HTTP_HEAD_LIMIT }
{
    if filled < SECOND_STEP {
        SECOND_STEP
    } else {
        HTTP_HEAD_LIMIT
    }
}

/// Makes room for this many bytes, and keeps those that are there.
fn make_room(front: &mut Vec<u8>, size: usize) -> Result<(), AllocError>
    ensures room { OnOk result (size ≤ length front.new.items) }
    ensures kept { OnOk result ((n : ℕ) → n ≤ length front.old.items → take n front.new.items
        ≡ take n front.old.items) }
{
    if front.len() < size {
        front.resize(size, 0)?;
    }
    Ok(())
}

/// Reads the rest of the open record, and returns that memory could not be allocated.
fn finish_without_memory<'a, I: Input>(
    reader: &mut Reader,
    input: &mut I,
    head: &'a Head,
) -> Result<BlockParts<'a>, Fault>
    requires { HasLeft 0 reader.old.phase }
    ensures { (mime first : List ℕ) → HasFront head.now first reader.old
        → ReadsBlock head.now first
        (state_of reader.old (I.remaining input.old) (I.failures input.old))
        (state_of reader.new (I.remaining input.new) (I.failures input.new))
        (block_given mime result) }
{
    reader.finish(input)?;
    Err(memory(head))
}

/// Reads the rest of a record, after the first bytes of its block were read and split. Keeps the
/// media type, and returns what else the block holds.
fn finish_block<'a, I: Input>(
    reader: &mut Reader,
    input: &mut I,
    head: &'a Head,
    parted: SplitBlock<'_>,
    mime: &mut Vec<u8>,
) -> Result<BlockParts<'a>, Fault>
    requires ready { HasFront head.now parted.bytes.now reader.old }
    requires parts { PartsBlock usual_limits head.now parted.bytes.now
        (option_map response_view parted.response) parted.payload.now }
    ensures { ReadsBlock head.now parted.entry.bytes.now
        (state_of reader.old (I.remaining input.old) (I.failures input.old))
        (state_of reader.new (I.remaining input.new) (I.failures input.new))
        (block_given mime.new.items result) }
{
    match known_digest(head) {
        Some(digest) => {
            let known = PayloadDigest::Known(digest);
            close_block(reader, input, head, parted.response, known, mime)
        }
        None => {
            let digest = base32(&digest_rest(reader, input, parted.payload)?);
            let hashed = PayloadDigest::Hashed(digest);
            close_block(reader, input, head, parted.response, hashed, mime)
        }
    }
}
