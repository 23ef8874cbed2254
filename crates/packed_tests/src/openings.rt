//! Archives that are opened by their first bytes.
use crate::answers::{IndexLines, opened_indexes, opened_lists, opened_verifies};
use crate::indexes::BOTH;
use crate::members::{EMPTY_MEMBER, RESOURCE_MEMBER, RESPONSE_MEMBER};
use devices::{Fuse, Slice};
use fixtures::{RESOURCE, RESPONSE, Refused, joined};
use index_core::{Cause, Fault, Verified};
use std::alloc::Global;

/// What the reports on an archive are.
struct Reports {
    listing: &'static [u8],
    verdicts: &'static [u8],
    index: IndexLines,
    answer: Result<u64, Cause>,
}

/// The response's line in a plain archive, and the resource's.
const PLAIN_INDEX: IndexLines = &[
    (
        0,
        b"com,example)/ 20160919172024 \
        {\"url\": \"http://example.com/\", \"mime\": \"text/html\", \"status\": \"200\", \
        \"digest\": \"3I42H3S6NNFQ2MSVX7XZKYAYSCX5QBYJ\", \
        \"length\": \"264\", \"offset\": \"0\", \"filename\": \"a.warc.gz\"}\n",
    ),
    (
        264,
        b"com,example)/r 20160919172024 \
        {\"url\": \"http://example.com/r\", \"mime\": \"text/plain\", \"status\": \"-\", \
        \"digest\": \"VGMT4NSHA2AWVOR6EVYXQUGCNSONBWE5\", \
        \"length\": \"184\", \"offset\": \"264\", \"filename\": \"a.warc.gz\"}\n",
    ),
];

/// Archives of these pieces, and the reports on them. Faults are at the start.
const ARCHIVES: &[(&[&[u8]], Reports)] = &[
    (
        &[RESPONSE, RESOURCE],
        Reports {
            listing: b"0 264 response\n264 184 resource\n",
            verdicts: b"0 absent\n264 absent\n",
            index: PLAIN_INDEX,
            answer: Ok(2),
        },
    ),
    (
        &[RESPONSE_MEMBER, RESOURCE_MEMBER],
        Reports {
            listing: b"0 207 response\n207 165 resource\n",
            verdicts: b"0 absent\n207 absent\n",
            index: BOTH,
            answer: Ok(2),
        },
    ),
    (
        &[],
        Reports {
            listing: b"",
            verdicts: b"",
            index: &[],
            answer: Ok(0),
        },
    ),
    (
        &[EMPTY_MEMBER],
        Reports {
            listing: b"",
            verdicts: b"",
            index: &[],
            answer: Ok(0),
        },
    ),
    (
        &[b"\x1f"],
        Reports {
            listing: b"fault 0 Version\n",
            verdicts: b"fault 0 Version\n",
            index: &[],
            answer: Err(Cause::Version),
        },
    ),
    (
        &[b"\x1f\x8a", RESPONSE],
        Reports {
            listing: b"fault 0 Version\n",
            verdicts: b"fault 0 Version\n",
            index: &[],
            answer: Err(Cause::Version),
        },
    ),
    (
        &[b"\x1f\x8b"],
        Reports {
            listing: b"fault 0 CutMember\n",
            verdicts: b"fault 0 CutMember\n",
            index: &[],
            answer: Err(Cause::CutMember),
        },
    ),
    (
        &[b"W"],
        Reports {
            listing: b"fault 0 ShortHead\n",
            verdicts: b"fault 0 ShortHead\n",
            index: &[],
            answer: Err(Cause::ShortHead),
        },
    ),
];

/// Returns `true` if these are the reports on an archive that is read in pieces of this length, of
/// which a call fails unless it is 0.
fn gives_reports(
    alloc: Global,
    archive: &[u8],
    (piece, call): (usize, u64),
    wanted: &Reports,
) -> Result<bool, Refused> {
    let input = || Fuse::new(Slice::new(archive), piece, call);
    let (count, verified) = match wanted.answer {
        Ok(records) => {
            let differing = 0;
            (Ok(records), Ok(Verified { records, differing }))
        }
        Err(cause) => {
            let offset = 0;
            (Err(Fault { offset, cause }), Err(Fault { offset, cause }))
        }
    };
    Ok(
        opened_lists(alloc, input(), wanted.listing, count)?
            && opened_verifies(alloc, input(), wanted.verdicts, verified)?
            && opened_indexes(alloc, input(), wanted.index, count)?,
    )
}

#[test]
fn the_first_two_bytes_say_how_records_are_kept(rt: HostRuntime) -> Result<(), Refused> {
    for (number, (pieces, wanted)) in ARCHIVES.iter().enumerate() {
        let archive = joined(rt.alloc(), pieces)?;
        for piece in [1, 2, 100, 10_000] {
            assert!(rt;
                gives_reports(rt.alloc(), &archive, (piece, 0), wanted)?,
                "{number} {piece}"
            );
        }
    }
    Ok(())
}

/// The reports on an archive whose input fails at its first bytes.
const FAILED: Reports = Reports {
    listing: b"fault 0 Read\n",
    verdicts: b"fault 0 Read\n",
    index: &[],
    answer: Err(Cause::Read),
};

/// An archive of one byte is read twice before it opens, for its byte and for its end.
#[test]
fn an_input_that_fails_at_its_first_or_second_byte_is_at_fault(
    rt: HostRuntime,
) -> Result<(), Refused> {
    for (number, (pieces, _wanted)) in ARCHIVES.iter().enumerate() {
        let archive = joined(rt.alloc(), pieces)?;
        for piece in [1, 10_000] {
            assert!(rt;
                gives_reports(rt.alloc(), &archive, (piece, 1), &FAILED)?,
                "{number} {piece}"
            );
            if archive.is_empty() {
                continue;
            }
            assert!(rt;
                gives_reports(rt.alloc(), &archive, (piece, 2), &FAILED)?,
                "{number} {piece}"
            );
        }
    }
    Ok(())
}
