//! What an indexer holds, and writes, after faults.
use super::writes;
use crate::prefixes::prefix_gives;
use capture_core::{CaptureFault, Types};
use fixtures::{RESOURCE_LINE, RESPONSE_LINE, Refused, cut, joined, three_records};
use index_core::{IndexFault, Indexer, PlainArchive};
use std::alloc::{AllocError, Global};
use warc_core::{Cause, Fault, Fuse, Gather, Input, Slice};

/// The second response's line.
const AGAIN_LINE: &[u8] =
    b"com,example)/ 20160919172024 {\"url\": \"http://example.com/\", \"mime\": \"text/html\", \"status\": \"200\", \"digest\": \"3I42H3S6NNFQ2MSVX7XZKYAYSCX5QBYJ\", \"length\": \"264\", \"offset\": \"448\", \"filename\": \"b.warc\"}\n";

/// Returns the index of the first `records` of the three records.
fn index_of(alloc: Global, records: u64) -> Result<Vec<u8>, AllocError> {
    match records {
        0 => joined(alloc, &[]),
        1 => joined(alloc, &[RESPONSE_LINE]),
        2 => joined(alloc, &[RESPONSE_LINE, RESOURCE_LINE]),
        _ => joined(alloc, &[RESPONSE_LINE, AGAIN_LINE, RESOURCE_LINE]),
    }
}

/// Returns how many of the three records end at or before this offset, where one of them begins or the last ends.
fn records_before(offset: u64) -> u64 {
    match offset {
        0 => 0,
        264 => 1,
        448 => 2,
        _ => 3,
    }
}

/// Returns `true` if the input, a part of the three records, has this result or is cut short by a failed allocation, and
/// the indexer then holds the captures of the records before the fault.
fn keeps<I: Input + Drop>(
    alloc: Global,
    input: I,
    wanted: Result<u64, Fault>,
) -> Result<bool, Refused> {
    let mut indexer = Indexer::new(alloc, Types::usual());
    let (kept, is_answer) = match indexer.add("b.warc", &mut PlainArchive::new(alloc, input)) {
        Ok(count) => (count, wanted == Ok(count)),
        Err(IndexFault::Capture(CaptureFault::Archive(fault))) => (
            records_before(fault.offset),
            wanted == Err(fault) || fault.cause == Cause::Memory,
        ),
        Err(fault) => (0, fault == IndexFault::Memory),
    };
    let lines = index_of(alloc, kept)?;
    Ok(is_answer && writes(alloc, &indexer, lines.as_slice(), kept)?)
}

fn keeps_of_prefix(alloc: Global, archive: &[u8]) -> Result<bool, Refused> {
    let (records, fault) = prefix_gives(archive.len());
    let wanted = fault.map_or(Ok(records), Err);
    Ok(
        keeps(alloc, Slice::new(archive), wanted)?
            && keeps(alloc, Fuse::new(Slice::new(archive), 1, 0), wanted)?,
    )
}

#[test]
fn an_indexer_keeps_the_whole_records_of_every_prefix(rt: HostRuntime) -> Result<(), Refused> {
    let archive = three_records(rt.alloc())?;
    for length in 0..713 {
        assert!(rt;
            keeps_of_prefix(rt.alloc(), cut(&archive, length))?,
            "{length}"
        );
    }
    Ok(())
}

/// Returns where the record begins that is read at this call, at one byte a call.
fn record_of_read(call: u64) -> u64 {
    match call {
        0..=264 => 0,
        265..=448 => 264,
        449..=712 => 448,
        _ => 712,
    }
}

#[test]
fn an_indexer_keeps_the_records_before_a_failed_read(rt: HostRuntime) -> Result<(), Refused> {
    let archive = three_records(rt.alloc())?;
    for call in 1..714 {
        let (offset, cause) = (record_of_read(call), Cause::Read);
        let input = Fuse::new(Slice::new(&archive), 1, call);
        assert!(rt;
            keeps(rt.alloc(), input, Err(Fault { offset, cause }))?,
            "{call}"
        );
    }
    Ok(())
}

/// Returns `true` if the index, written one byte a call, ends at each call that fails, and can be written again.
fn stops_at_each_write(
    alloc: Global,
    indexer: &Indexer,
    index: &[u8],
    number: u64,
) -> Result<bool, Refused> {
    for length in 0..index.len() {
        let mut out = Fuse::new(Gather::new(alloc), 1, length as u64 + 1);
        let answer = indexer.write(&mut out);
        if answer == Err(IndexFault::Memory) || out.calls <= length as u64 {
            return Err(Refused::Memory);
        }
        if answer != Err(IndexFault::Write) || out.device.bytes() != cut(index, length) {
            return Ok(false);
        }
    }
    writes(alloc, indexer, index, number)
}

/// Returns `true` if all records of the archive are indexed, and their index stops at each write that fails.
fn stops(alloc: Global, archive: &[u8]) -> Result<bool, Refused> {
    let index = index_of(alloc, 3)?;
    let mut indexer = Indexer::new(alloc, Types::usual());
    let mut archive = PlainArchive::new(alloc, Slice::new(archive));
    if indexer.add("b.warc", &mut archive) != Ok(3) {
        return Err(Refused::Memory);
    }
    stops_at_each_write(alloc, &indexer, &index, 3)
}

#[test]
fn an_index_stops_at_a_failed_write(rt: HostRuntime) -> Result<(), Refused> {
    let archive = three_records(rt.alloc())?;
    assert!(rt; stops(rt.alloc(), &archive)?);
    Ok(())
}
