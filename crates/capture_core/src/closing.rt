//! The end of a record whose capture is read.
ghost use Rattle.std.specs.Prelude.{◌≡◌, ◌<◌, length, IfOk, OnOk, option_map};
ghost use Rattle.warc_core.specs.ReaderView.{IfOpen, state_of};
ghost use Rattle.capture_core.specs.BlockParts.{block_view, digest_text};
ghost use Rattle.capture_core.specs.Capture.{IsFilled, block_of};
ghost use Rattle.capture_core.specs.RecordReading.{ReadsRest, IsOpenFor};
ghost use Rattle.capture_core.specs.ResponseView.{response_view};

use crate::block_parts::BlockParts;
use crate::mime::mime;
use crate::payload_digest::PayloadDigest;
use crate::response::HttpHead;
use std::alloc::AllocError;
use warc_core::{Cause, Fault, Head, Input, Reader};

/// Returns the fault for memory that could not be allocated for a record.
pub(crate) fn memory(head: &Head) -> Fault
    ensures { result ≡ record { offset = head.now.start; cause = Cause.Memory } }
{
    Fault {
        offset: head.start(),
        cause: Cause::Memory,
    }
}

/// Returns the status code of an HTTP head.
fn code(response: Option<HttpHead<'_>>) -> Option<u16>
    ensures { result ≡ option_map (λ r. r.code) response.entry }
{
    match response {
        Some(response) => Some(response.code),
        None => None,
    }
}

/// Puts these bytes in the place of those that are there.
fn replace(kept: &mut Vec<u8>, bytes: &[u8]) -> Result<(), AllocError>
    ensures { OnOk result (kept.new.items ≡ bytes.now) }
{
    kept.clear();
    kept.extend_from_slice(bytes)?;
    Ok(())
}

/// Reads the rest of a record whose digest is known, keeps its media type, and returns what else
/// its block holds.
#[tactic(auto, using(crate::proofs::GoodEntries::content_is_filled))]
pub(crate) fn close_block<'a, I: Input>(
    reader: &mut Reader,
    input: &mut I,
    head: &'a Head,
    response: Option<HttpHead<'_>>,
    digest: PayloadDigest<'a>,
    kept: &mut Vec<u8>,
) -> Result<BlockParts<'a>, Fault>
    requires digested { 0 < length (digest_text digest) }
    requires stands { IsOpenFor head.now reader.old }
    ensures reads { IfOpen reader.old.phase (λ left _. ReadsRest left head.now
        (state_of reader.old (I.remaining input.old) (I.failures input.old))
        (state_of reader.new (I.remaining input.new) (I.failures input.new)) result) }
    ensures block { IfOk result (λ block. block_view kept.new.items block
        ≡ block_of head.now (option_map response_view response.entry) (digest_text digest.entry)) }
    ensures filled { IfOk result (λ block. IsFilled (block_view kept.new.items block)) }
{
    reader.finish(input)?;
    match replace(kept, mime(head, response)) {
        Ok(()) => Ok(BlockParts {
            code: code(response),
            digest,
        }),
        Err(_) => Err(memory(head)),
    }
}
