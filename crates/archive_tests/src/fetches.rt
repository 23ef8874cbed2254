//! Records by their offsets.
use crate::prefixes::prefix_gives;
use capture_core::CaptureFault;
use fixtures::{RESOURCE, RESPONSE, Refused, cut, three_records};
use index_core::{Fetch, IndexFault, PlainArchive};
use std::alloc::Global;
use warc_core::{Cause, Fault, Fuse, Gather, Input, Slice};

/// Returns `true` if the fault is a failed allocation.
fn is_memory(fault: IndexFault) -> bool {
    match fault {
        IndexFault::Capture(CaptureFault::Archive(fault)) => fault.cause == Cause::Memory,
        _ => false,
    }
}

/// Returns what `get` writes, and its result. A failed allocation, also one of its output, is an error.
fn fetched<I: Input + Drop>(
    alloc: Global,
    offset: u64,
    input: I,
) -> Result<(Gather, Result<u64, IndexFault>), Refused> {
    let mut out = Gather::new(alloc);
    let answer = PlainArchive::new(alloc, input).get(offset, &mut out);
    match answer {
        Ok(_) => Ok((out, answer)),
        Err(fault) if is_memory(fault) || fault == IndexFault::Write => Err(Refused::Memory),
        Err(_) => Ok((out, answer)),
    }
}

/// Returns the record that begins at the offset in a response, a resource and a response, one after another.
fn record_at(offset: u64) -> &'static [u8] {
    match offset {
        0 | 448 => RESPONSE,
        264 => RESOURCE,
        _ => b"",
    }
}

/// Returns the result for this many first bytes of these records.
fn wanted(offset: u64, length: usize) -> Result<u64, IndexFault> {
    let size = record_at(offset).len() as u64;
    if size > 0 && offset.saturating_add(size) <= length as u64 {
        return Ok(size);
    }
    match prefix_gives(length).1 {
        Some(fault) if fault.offset <= offset => {
            Err(IndexFault::Capture(CaptureFault::Archive(fault)))
        }
        _ => Err(IndexFault::NoRecord),
    }
}

/// Returns `true` if this may be written with the result: the record; a part of it if the fault is its own; else nothing.
fn may_be_written(text: &[u8], offset: u64, answer: Result<u64, IndexFault>) -> bool {
    match answer {
        Ok(_) => text == record_at(offset),
        Err(IndexFault::Capture(CaptureFault::Archive(fault))) if fault.offset == offset => {
            record_at(offset).starts_with(text)
        }
        Err(_) => text.is_empty(),
    }
}

fn fetches_from<I: Input + Drop>(
    alloc: Global,
    offset: u64,
    input: I,
    length: usize,
) -> Result<bool, Refused> {
    let (out, answer) = fetched(alloc, offset, input)?;
    Ok(answer == wanted(offset, length) && may_be_written(out.bytes(), offset, answer))
}

/// Returns `true` if a prefix of these records gives what it should at the offset, read in whole pieces and one byte a
/// call.
fn fetches(alloc: Global, offset: u64, archive: &[u8]) -> Result<bool, Refused> {
    let length = archive.len();
    let by_byte = Fuse::new(Slice::new(archive), 1, 0);
    Ok(
        fetches_from(alloc, offset, Slice::new(archive), length)?
            && fetches_from(alloc, offset, by_byte, length)?,
    )
}

/// Offsets where records begin, between them, and after all.
const OFFSETS: &[u64] = &[0, 1, 264, 447, 448, 449, 712, u64::MAX];

#[test]
fn a_record_is_fetched_from_every_prefix_that_has_it(rt: HostRuntime) -> Result<(), Refused> {
    let archive = three_records(rt.alloc())?;
    for length in 0..713 {
        for offset in OFFSETS {
            assert!(rt;
                fetches(rt.alloc(), *offset, cut(&archive, length))?,
                "{length} {offset}"
            );
        }
    }
    Ok(())
}

/// Returns the result at 264 if the input's call `at` fails, at one byte a call. No byte after the record is requested.
fn failed_read_gives(at: u64) -> Result<u64, IndexFault> {
    let read = |offset| {
        Err(IndexFault::Capture(CaptureFault::Archive(Fault {
            offset,
            cause: Cause::Read,
        })))
    };
    match at {
        0..=264 => read(0),
        265..=448 => read(264),
        _ => Ok(184),
    }
}

#[test]
fn a_fetch_ends_at_a_failed_read(rt: HostRuntime) -> Result<(), Refused> {
    let archive = three_records(rt.alloc())?;
    for at in 1..450 {
        let input = Fuse::new(Slice::new(&archive), 1, at);
        let (out, answer) = fetched(rt.alloc(), 264, input)?;
        assert!(rt; answer == failed_read_gives(at), "{at}");
        assert!(rt; may_be_written(out.bytes(), 264, answer), "{at}");
    }
    Ok(())
}

/// Only the bytes of the first record are read, one a call.
#[test]
fn no_record_begins_within_the_first(rt: HostRuntime) -> Result<(), Refused> {
    let records = three_records(rt.alloc())?;
    let mut archive = PlainArchive::new(rt.alloc(), Fuse::new(Slice::new(&records), 1, 0));
    let answer = archive.get(1, &mut Gather::new(rt.alloc()));
    if matches!(answer, Err(fault) if is_memory(fault)) {
        return Err(Refused::Memory);
    }
    assert!(rt; answer == Err(IndexFault::NoRecord) && archive.input().calls == 264);
    Ok(())
}

/// Returns `true` if fetching the resource, written one byte a call, ends at the call `at`, which fails.
fn stops(alloc: Global, archive: &[u8], at: u64) -> Result<bool, Refused> {
    let mut out = Fuse::new(Gather::new(alloc), 1, at);
    let answer = PlainArchive::new(alloc, Slice::new(archive)).get(264, &mut out);
    if out.calls < at {
        return Err(Refused::Memory);
    }
    let written = cut(RESOURCE, at.saturating_sub(1) as usize);
    Ok(answer == Err(IndexFault::Write) && out.calls == at && out.device.bytes() == written)
}

#[test]
fn a_fetch_ends_at_a_failed_write(rt: HostRuntime) -> Result<(), Refused> {
    let archive = three_records(rt.alloc())?;
    for at in 1..185 {
        assert!(rt; stops(rt.alloc(), &archive, at)?, "{at}");
    }
    Ok(())
}
