//! Records by their offsets and lengths.
use capture_core::CaptureFault;
use fixtures::{RESOURCE, RESPONSE, Refused, cut, three_records};
use index_core::{Fetch, IndexFault, PlainArchive};
use std::alloc::Global;
use warc_core::{Cause, Fault, Fuse, Gather, Slice};

fn fault(offset: u64, cause: Cause) -> Result<u64, IndexFault> {
    Err(IndexFault::Capture(CaptureFault::Archive(Fault { offset, cause })))
}

/// Returns `true` if this is the result for the record of this length at this offset, and this is written. A failed
/// allocation is an error.
fn gives(
    alloc: Global,
    place: (u64, u64),
    archive: &[u8],
    wanted: Result<u64, IndexFault>,
    text: &[u8],
) -> Result<bool, Refused> {
    let mut out = Gather::new(alloc);
    let answer = PlainArchive::new(alloc, Slice::new(archive)).get_at(place.0, place.1, &mut out);
    if answer == fault(place.0, Cause::Memory) || answer == Err(IndexFault::Write) {
        return Err(Refused::Memory);
    }
    Ok(answer == wanted && out.bytes() == text)
}

/// The places of a response of 264 bytes, a resource of 184 and a response, one after another, and what they give.
const PLACES: &[(u64, u64, Result<u64, IndexFault>, &[u8])] = &[
    (0, 264, Ok(264), RESPONSE),
    (264, 184, Ok(184), RESOURCE),
    (448, 264, Ok(264), RESPONSE),
    (264, 183, Err(IndexFault::NoRecord), b""),
    (264, 264, Err(IndexFault::NoRecord), b""),
    (264, 0, Err(IndexFault::NoRecord), b""),
    (712, 264, Err(IndexFault::NoRecord), b""),
    (1000, 264, Err(IndexFault::NoRecord), b""),
    (u64::MAX, 264, Err(IndexFault::NoRecord), b""),
];

#[test]
fn a_record_is_fetched_by_its_offset_and_length(rt: HostRuntime) -> Result<(), Refused> {
    let archive = three_records(rt.alloc())?;
    for (offset, length, answer, text) in PLACES {
        let place = (*offset, *length);
        assert!(rt;
            gives(rt.alloc(), place, &archive, *answer, *text)?,
            "{offset} {length}"
        );
    }
    Ok(())
}

#[test]
fn damage_counts_from_the_offset_on(rt: HostRuntime) -> Result<(), Refused> {
    let mut archive = three_records(rt.alloc())?;
    if let Some(first) = archive.first_mut() {
        *first = b'w';
    }
    let version = fault(1, Cause::Version);
    let closing = fault(264, Cause::Closing);
    let start = fault(0, Cause::Version);
    assert!(rt; gives(rt.alloc(), (264, 184), &archive, Ok(184), RESOURCE)?);
    assert!(rt; gives(rt.alloc(), (0, 264), &archive, start, b"")?);
    assert!(rt; gives(rt.alloc(), (1, 263), &archive, version, b"")?);
    assert!(rt; gives(rt.alloc(), (264, 100), cut(&archive, 446), closing, b"")?);
    Ok(())
}

/// Returns `true` if the input's call `at` is the last, at one byte a call. It is the record's, or precedes it.
fn ends(alloc: Global, archive: &[u8], at: u64) -> Result<bool, Refused> {
    let mut archive = PlainArchive::new(alloc, Fuse::new(Slice::new(archive), 1, at));
    let mut out = Gather::new(alloc);
    let answer = archive.get_at(264, 184, &mut out);
    if answer == fault(264, Cause::Memory) || answer == Err(IndexFault::Write) {
        return Err(Refused::Memory);
    }
    let calls = archive.input().calls;
    Ok(answer == fault(264, Cause::Read) && calls == at && RESOURCE.starts_with(out.bytes()))
}

#[test]
fn a_fetch_by_length_ends_at_a_failed_read(rt: HostRuntime) -> Result<(), Refused> {
    let archive = three_records(rt.alloc())?;
    for at in 1..449 {
        assert!(rt; ends(rt.alloc(), &archive, at)?, "{at}");
    }
    Ok(())
}
