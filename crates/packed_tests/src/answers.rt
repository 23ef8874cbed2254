//! Reports on archives and their indexes, compared with what they must be.
ghost use Rattle.archives.specs.State.{IsUnread};

use fixtures::{Refused, cut};
use index_core::{
    Archive, CaptureFault, Cause, Fault, Gather, IndexFault, Indexer, Input, PackedArchive, Types,
    Verified, list, open, verify,
};
use std::alloc::{AllocError, Global};

/// The name under which archives are indexed.
pub const NAME: &str = "a.warc.gz";

/// The lines of an index in the order of places, each with its record's offset.
pub type IndexLines = &'static [(u64, &'static [u8])];

/// Returns `true` if these are whole lines of a report, or none, and a fault at this offset for
/// lack of memory.
fn ends_for_memory(
    alloc: Global,
    lines: &[u8],
    written: &[u8],
    offset: u64,
) -> Result<bool, AllocError> {
    let fault = format!(in alloc; "fault {offset} Memory\n")?;
    let front = cut(written, written.len().saturating_sub(fault.len()));
    Ok(
        written.ends_with(fault.as_bytes())
            && lines.starts_with(front)
            && (front.is_empty() || front.ends_with(b"\n")),
    )
}

/// Returns a report's result. If memory was refused, that is an error where what was written is
/// right for it, else there is no result.
fn settled<T: Copy>(
    alloc: Global,
    answer: Result<T, IndexFault>,
    lines: &[u8],
    written: &[u8],
) -> Result<Option<Result<T, Fault>>, Refused> {
    let is_right = match answer {
        Ok(value) => return Ok(Some(Ok(value))),
        Err(IndexFault::Capture(CaptureFault::Archive(fault))) => {
            if fault.cause != Cause::Memory {
                return Ok(Some(Err(fault)));
            }
            ends_for_memory(alloc, lines, written, fault.offset)?
        }
        Err(IndexFault::Write) => lines.starts_with(written),
        Err(_) => false,
    };
    if is_right {
        Err(Refused::Memory)
    } else {
        Ok(None)
    }
}

/// Returns `true` if the archive's listing is these lines, with this result.
fn lists<A: Archive>(
    alloc: Global,
    archive: &mut A,
    lines: &[u8],
    wanted: Result<u64, Fault>,
) -> Result<bool, Refused>
    requires { IsUnread (A.state archive.old) }
{
    let mut out = Gather::new(alloc);
    let answer = list(archive, &mut out);
    let answer = settled(alloc, answer, lines, out.bytes())?;
    Ok(answer == Some(wanted) && out.bytes() == lines)
}

/// Returns `true` if the archive's verification is these lines, with this result.
fn verifies<A: Archive>(
    alloc: Global,
    archive: &mut A,
    lines: &[u8],
    wanted: Result<Verified, Fault>,
) -> Result<bool, Refused>
    requires { IsUnread (A.state archive.old) }
{
    let mut out = Gather::new(alloc);
    let answer = verify(archive, &mut out);
    let answer = settled(alloc, answer, lines, out.bytes())?;
    Ok(answer == Some(wanted) && out.bytes() == lines)
}

/// Returns the lines of the records before this offset, and their number.
fn index_before(
    alloc: Global,
    lines: &[(u64, &[u8])],
    end: u64,
) -> Result<(Vec<u8>, u64), AllocError> {
    let mut text = Vec::new(alloc);
    let mut number = 0_u64;
    for (offset, line) in lines {
        if *offset < end {
            text.extend_from_slice(line)?;
            number = number.saturating_add(1);
        }
    }
    Ok((text, number))
}

/// Returns `true` if the index is these lines. If memory was refused, that is an error where what
/// was written is right for it.
pub fn writes(
    alloc: Global,
    indexer: &Indexer,
    lines: &[u8],
    number: u64,
) -> Result<bool, Refused> {
    let mut out = Gather::new(alloc);
    match indexer.write(&mut out) {
        Ok(count) => Ok(count == number && out.bytes() == lines),
        Err(IndexFault::Memory) if out.bytes().is_empty() => Err(Refused::Memory),
        Err(IndexFault::Write) if lines.starts_with(out.bytes()) => Err(Refused::Memory),
        Err(_) => Ok(false),
    }
}

/// Returns `true` if adding the archive has this result, and the index is then the lines of the
/// records before the fault.
fn indexes<A: Archive>(
    alloc: Global,
    archive: &mut A,
    lines: &[(u64, &[u8])],
    wanted: Result<u64, Fault>,
) -> Result<bool, Refused>
    requires { IsUnread (A.state archive.old) }
{
    let mut indexer = Indexer::new(alloc, Types::usual());
    let (end, is_refused, is_answer) = match indexer.add(NAME, archive) {
        Ok(count) => (u64::MAX, false, wanted == Ok(count)),
        Err(IndexFault::Capture(CaptureFault::Archive(fault))) => {
            (
                fault.offset,
                fault.cause == Cause::Memory,
                wanted == Err(fault),
            )
        }
        Err(fault) => (0, fault == IndexFault::Memory, false),
    };
    let (text, number) = index_before(alloc, lines, end)?;
    let is_written = writes(alloc, &indexer, &text, number)?;
    if is_refused && is_written {
        return Err(Refused::Memory);
    }
    Ok(is_answer && is_written)
}

/// The same as `lists`, of a compressed archive over the input.
pub fn packed_lists<I: Input + Drop>(
    alloc: Global,
    input: I,
    lines: &[u8],
    wanted: Result<u64, Fault>,
) -> Result<bool, Refused> {
    let mut archive = PackedArchive::new(alloc, input);
    lists(alloc, &mut archive, lines, wanted)
}

/// The same as `lists`, of an archive of either form over the input.
pub fn opened_lists<I: Input + Drop>(
    alloc: Global,
    input: I,
    lines: &[u8],
    wanted: Result<u64, Fault>,
) -> Result<bool, Refused> {
    let mut archive = open(alloc, input);
    lists(alloc, &mut archive, lines, wanted)
}

/// The same as `verifies`, of a compressed archive over the input.
pub fn packed_verifies<I: Input + Drop>(
    alloc: Global,
    input: I,
    lines: &[u8],
    wanted: Result<Verified, Fault>,
) -> Result<bool, Refused> {
    let mut archive = PackedArchive::new(alloc, input);
    verifies(alloc, &mut archive, lines, wanted)
}

/// The same as `verifies`, of an archive of either form over the input.
pub fn opened_verifies<I: Input + Drop>(
    alloc: Global,
    input: I,
    lines: &[u8],
    wanted: Result<Verified, Fault>,
) -> Result<bool, Refused> {
    let mut archive = open(alloc, input);
    verifies(alloc, &mut archive, lines, wanted)
}

/// The same as `indexes`, of a compressed archive over the input.
pub fn packed_indexes<I: Input + Drop>(
    alloc: Global,
    input: I,
    lines: &[(u64, &[u8])],
    wanted: Result<u64, Fault>,
) -> Result<bool, Refused> {
    let mut archive = PackedArchive::new(alloc, input);
    indexes(alloc, &mut archive, lines, wanted)
}

/// The same as `indexes`, of an archive of either form over the input.
pub fn opened_indexes<I: Input + Drop>(
    alloc: Global,
    input: I,
    lines: &[(u64, &[u8])],
    wanted: Result<u64, Fault>,
) -> Result<bool, Refused> {
    let mut archive = open(alloc, input);
    indexes(alloc, &mut archive, lines, wanted)
}
