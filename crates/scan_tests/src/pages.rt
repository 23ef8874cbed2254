//! What scans write, and which they refuse.
use crate::runs::{ARCHIVES, Archive, Case, PAGED, PAGES, QUERY, SOUND, scanned};
use capture_core::{CaptureFault, Types};
use fixtures::{METADATA, RESOURCE, RESPONSE};
use index_core::IndexFault;
use query_core::{AnswerFault, QueryFault};
use scan_core::ScanFault;
use std::alloc::Global;
use std::test::Fail;
use warc_core::{Cause, Fault};

const NAME_OF_256_BYTES: &str =
    "aaaaaaaaaaaaaaaaaaaaaaaaaaaaaaaaaaaaaaaaaaaaaaaaaaaaaaaaaaaaaaaaaaaaaaaaaaaaaaaaaaaaaaaaaaaaaaaaaaaaaaaaaaaaaaaaaaaaaaaaaaaaaaaaaaaaaaaaaaaaaaaaaaaaaaaaaaaaaaaaaaaaaaaaaaaaaaaaaaaaaaaaaaaaaaaaaaaaaaaaaaaaaaaaaaaaaaaaaaaaaaaaaaaaaaaaaaaaaaaaaaaaaaaaaaaaaaaa";

/// An archive that ends with a record's closing cut off.
const CUT: &[u8] =
    b"WARC/1.1\r\nWARC-Type: resource\r\nWARC-Record-ID: <urn:x:3>\r\nWARC-Date: 2016-09-19T17:20:24Z\r\nWARC-Target-URI: http://example.com/r\r\nContent-Type: text/plain\r\nContent-Length: 3\r\n\r\nabc";

const DAMAGED: Result<u64, ScanFault> = Err(ScanFault::Archive(
    1,
    IndexFault::Capture(CaptureFault::Archive(Fault {
        offset: 264,
        cause: Cause::Closing,
    })),
));

const BAD_SIZES: Result<u64, ScanFault> = Err(ScanFault::Answer(AnswerFault::BadSizes));

const UNKNOWN: Result<u64, ScanFault> = Err(ScanFault::Query(QueryFault::Unknown));

const CASES: &[Case] = &[
    PAGED,
    Case {
        archives: ARCHIVES,
        sizes: &[3],
        query: "url=example.com&matchType=prefix&fl=urlkey,filename,offset&limit=1&showResumeKey=true",
        answer: Ok(1),
        written: b"com,example)/ a.warc 0\ncom,example)/ b.warc 0\ncom,example)/r b.warc 264\n",
    },
    Case {
        archives: ARCHIVES,
        sizes: &[1, 2],
        query: "url=example.com&matchType=prefix&fl=offset&output=json&resumeKey=com%2Cexample%29%2F+20160919172024+a.warc+0",
        answer: Ok(2),
        written: b"[[\"offset\"],\n[\"0\"],\n[],\n[\"com%2Cexample%29%2F+20160919172024+b.warc+0\"]]\n[[\"offset\"],\n[\"264\"]]\n",
    },
    // The last archive is empty: a growth for the index of one before it is refused before the last is begun.
    Case {
        archives: &[
            ("b.warc", &[RESPONSE, RESOURCE]),
            ("a.warc", &[RESPONSE]),
            ("c.warc", &[]),
        ],
        sizes: &[2],
        query: QUERY,
        answer: Ok(2),
        written: PAGES,
    },
    Case {
        archives: ARCHIVES,
        sizes: &[7],
        query: "key=x",
        answer: Ok(1),
        written: b"",
    },
    Case {
        archives: &[],
        sizes: &[7],
        query: "key=x&output=json&fl=offset",
        answer: Ok(1),
        written: b"[[\"offset\"]]\n",
    },
    Case {
        archives: ARCHIVES,
        sizes: &[],
        query: "x=1",
        answer: BAD_SIZES,
        written: b"",
    },
    Case {
        archives: ARCHIVES,
        sizes: &[1, 0],
        query: QUERY,
        answer: BAD_SIZES,
        written: b"",
    },
    Case {
        archives: &[("", &[])],
        sizes: &[1],
        query: "x=1",
        answer: UNKNOWN,
        written: b"",
    },
    Case {
        archives: &[("a.warc", &[RESPONSE]), ("a.warc", &[RESPONSE, RESOURCE])],
        sizes: &[2],
        query: QUERY,
        answer: Err(ScanFault::Archive(1, IndexFault::DuplicateName)),
        written: b"",
    },
    Case {
        archives: &[("", &[RESPONSE])],
        sizes: &[2],
        query: QUERY,
        answer: Err(ScanFault::Archive(0, IndexFault::BadName)),
        written: b"",
    },
    Case {
        archives: &[
            ("a.warc", &[]),
            ("b.warc", &[RESPONSE, CUT]),
            (NAME_OF_256_BYTES, &[]),
        ],
        sizes: &[2],
        query: QUERY,
        answer: DAMAGED,
        written: b"",
    },
    Case {
        archives: &[(NAME_OF_256_BYTES, &[]), ("b.warc", &[RESPONSE, CUT])],
        sizes: &[2],
        query: QUERY,
        answer: Err(ScanFault::Archive(0, IndexFault::BadName)),
        written: b"",
    },
];

/// Returns `true` if the scan returns and writes what the case states.
fn is_scanned(alloc: Global, case: &Case, types: Types) -> Result<bool, Fail> {
    let (answer, out) = scanned(alloc, case, types, SOUND)?;
    Ok(answer == case.answer && out.device.bytes() == case.written)
}

#[test]
fn scans_write_pages_or_refuse(rt: HostRuntime) -> Result<(), Fail> {
    for (number, case) in CASES.iter().enumerate() {
        assert!(rt;
            is_scanned(rt.alloc(), case, Types::usual())?,
            "case {number}"
        );
    }
    Ok(())
}

/// Records of three types.
const MIXED: &[Archive] = &[("m.warc", &[METADATA, RESOURCE]), ("a.warc", &[RESPONSE])];

/// Texts of types, and what a scan of these archives for them writes.
const CHOSEN: &[(&str, &[u8])] = &[
    ("metadata", b"m.warc 0\n"),
    ("resource,metadata", b"m.warc 0\nm.warc 184\n"),
    ("response", b"a.warc 0\n"),
    ("conversion,revisit", b""),
];

/// Returns `true` if a scan for these types writes this.
fn finds(alloc: Global, types: &str, written: &'static [u8]) -> Result<bool, Fail> {
    let Some(types) = Types::read(types) else {
        return Ok(false);
    };
    let case = Case {
        archives: MIXED,
        sizes: &[9],
        query: "url=example.com/*&fl=filename,offset",
        answer: Ok(1),
        written,
    };
    is_scanned(alloc, &case, types)
}

#[test]
fn scans_find_records_of_chosen_types(rt: HostRuntime) -> Result<(), Fail> {
    for (types, written) in CHOSEN {
        assert!(rt; finds(rt.alloc(), types, *written)?, "{types}");
    }
    Ok(())
}
