//! Listings of archives.
use super::settled;
use crate::prefixes::prefix_gives;
use fixtures::{RESOURCE, RESPONSE, Refused, cut, joined, three_records};
use index_core::{PlainArchive, list};
use std::alloc::{AllocError, Global};
use warc_core::{Cause, Fault, Fuse, Gather, Input, Slice};

/// Returns what `list` writes, and its result.
fn listed<I: Input + Drop>(
    alloc: Global,
    input: I,
) -> Result<(Gather, Result<u64, Fault>), Refused> {
    let mut out = Gather::new(alloc);
    let answer = settled(list(&mut PlainArchive::new(alloc, input), &mut out))?;
    Ok((out, answer))
}

/// Returns `true` if the listing of the archive is these lines, read in whole pieces and one byte a call.
fn lists(
    alloc: Global,
    archive: &[u8],
    lines: &[u8],
    answer: Result<u64, Fault>,
) -> Result<bool, Refused> {
    let (whole, count) = listed(alloc, Slice::new(archive))?;
    let (by_byte, again) = listed(alloc, Fuse::new(Slice::new(archive), 1, 0))?;
    Ok(whole.bytes() == lines && count == answer && by_byte.bytes() == lines && again == answer)
}

/// Returns the result for one record: its fault, if it has one, else that there is one record.
fn answer(cause: Option<Cause>) -> Result<u64, Fault> {
    match cause {
        Some(cause) => Err(Fault { offset: 0, cause }),
        None => Ok(1),
    }
}

/// Archives of one record with their lines, and the cause if it can't be read. The block of the first is the beginning
/// of a record.
const ARCHIVES: &[(&[u8], &[u8], Option<Cause>)] = &[
    (
        b"WARC/1.1\r\nWARC-Type: resource\r\nWARC-Record-ID: <urn:x:2>\r\nWARC-Date: 2016-09-19T17:20:24Z\r\nWARC-Target-URI: http://example.com/r\r\nContent-Type: text/plain\r\nContent-Length: 14\r\n\r\n\r\n\r\nWARC/1.1\r\n\r\n\r\n",
        b"0 196 resource\n",
        None,
    ),
    (b"WARC/1.", b"fault 0 ShortHead\n", Some(Cause::ShortHead)),
    (b"WARC/2.0\r\n", b"fault 0 Version\n", Some(Cause::Version)),
    (b"\x1F\x8B\x08", b"fault 0 Version\n", Some(Cause::Version)),
    (
        b"WARC/1.1\r\n\r\n",
        b"fault 0 Missing\n",
        Some(Cause::Missing),
    ),
    (
        b"WARC/1.1\r\nno colon\r\n\r\n",
        b"fault 0 FieldLine\n",
        Some(Cause::FieldLine),
    ),
    (
        b"WARC/1.1\r\nWARC-Type: resource\r\nWARC-Type: resource\r\nWARC-Record-ID: <urn:x:1>\r\nWARC-Date: 2016\r\nContent-Length: 0\r\n\r\n",
        b"fault 0 Repeated\n",
        Some(Cause::Repeated),
    ),
    (
        b"WARC/1.1\r\nWARC-Type: resource\r\nWARC-Record-ID: <urn:x:1>\r\nWARC-Date: 2016\r\nContent-Length: 9223372036854775808\r\n\r\n",
        b"fault 0 BadLength\n",
        Some(Cause::BadLength),
    ),
    (
        b"WARC/1.1\r\nWARC-Type: resource\r\nWARC-Record-ID: <urn:x:1>\r\nWARC-Date: 2016\r\nContent-Length: 9223372036854775807\r\n\r\n",
        b"fault 0 TooFar\n",
        Some(Cause::TooFar),
    ),
    (
        b"WARC/1.1\r\nWARC-Type: resource\r\nWARC-Record-ID: <urn:x:1>\r\nWARC-Date: 2015-02-29T00:00:00Z\r\nContent-Length: 0\r\n\r\n",
        b"fault 0 BadDate\n",
        Some(Cause::BadDate),
    ),
    // Types in any case, of the standard and of none.
    (
        b"WARC/1.0\r\nWARC-Type: WARCINFO\r\nWARC-Record-ID: <urn:x:1>\r\nWARC-Date: 2016\r\nContent-Length: 0\r\n\r\n\r\n\r\n",
        b"0 100 warcinfo\n",
        None,
    ),
    (
        b"WARC/1.1\r\nWARC-Type: Continuation\r\nWARC-Record-ID: <urn:x:1>\r\nWARC-Date: 2016\r\nContent-Length: 003\r\n\r\nabc\r\n\r\n",
        b"0 109 continuation\n",
        None,
    ),
    (
        b"WARC/1.1\r\nWARC-Type: responses\r\nWARC-Record-ID: <urn:x:1>\r\nWARC-Date: 2016\r\nContent-Length: 0\r\n\r\n\r\n\r\n",
        b"0 101 other\n",
        None,
    ),
];

#[test]
fn a_listing_has_a_line_for_each_record_and_for_the_fault(rt: HostRuntime) -> Result<(), Refused> {
    for (number, (archive, lines, cause)) in ARCHIVES.iter().enumerate() {
        assert!(rt;
            lists(rt.alloc(), archive, lines, answer(*cause))?,
            "row {number}"
        );
    }
    Ok(())
}

/// Returns the lines of the first `records` of the three records.
fn lines_of(records: u64) -> &'static [u8] {
    match records {
        0 => b"",
        1 => b"0 264 response\n",
        2 => b"0 264 response\n264 184 resource\n",
        _ => b"0 264 response\n264 184 resource\n448 264 response\n",
    }
}

/// Returns the lines of a listing: those of the records, and the fault's.
fn listing(alloc: Global, records: &[u8], fault: Option<Fault>) -> Result<Vec<u8>, AllocError> {
    let mut text = records.to_vec(alloc)?;
    if let Some(Fault { offset, cause }) = fault {
        let name = cause.name();
        text.extend_from_slice(format!(in alloc; "fault {offset} {name}\n")?.as_bytes())?;
    }
    Ok(text)
}

#[test]
fn every_prefix_of_an_archive_is_listed_to_its_end(rt: HostRuntime) -> Result<(), Refused> {
    let archive = three_records(rt.alloc())?;
    assert!(rt; archive.len() == 712);
    for length in 0..713 {
        let (records, fault) = prefix_gives(length);
        let lines = listing(rt.alloc(), lines_of(records), fault)?;
        let wanted = fault.map_or(Ok(records), Err);
        assert!(rt;
            lists(rt.alloc(), cut(&archive, length), &lines, wanted)?,
            "{length}"
        );
    }
    Ok(())
}

/// Returns the lines of a response and a resource read one byte a call, of which the call `at` fails, and the fault.
fn failed_read_gives(at: u64) -> (&'static [u8], Fault) {
    let cause = Cause::Read;
    match at {
        0..=264 => (b"fault 0 Read\n", Fault { offset: 0, cause }),
        265..=448 => (
            b"0 264 response\nfault 264 Read\n",
            Fault { offset: 264, cause },
        ),
        _ => (
            b"0 264 response\n264 184 resource\nfault 448 Read\n",
            Fault { offset: 448, cause },
        ),
    }
}

#[test]
fn a_listing_ends_at_a_failed_read(rt: HostRuntime) -> Result<(), Refused> {
    let archive = joined(rt.alloc(), &[RESPONSE, RESOURCE])?;
    for at in 1..450 {
        let (lines, fault) = failed_read_gives(at);
        let (out, answer) = listed(rt.alloc(), Fuse::new(Slice::new(&archive), 1, at))?;
        assert!(rt; out.bytes() == lines && answer == Err(fault), "{at}");
    }
    Ok(())
}
