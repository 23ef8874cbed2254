//! Verdicts on the blocks of archives.
use super::settled;
use fixtures::{RESPONSE, Refused, joined, padded};
use index_core::{PlainArchive, Verified, verify};
use std::alloc::Global;
use warc_core::{Cause, Fault, Fuse, Gather, Input, Slice};

/// The head of a resource up to its last field, for a block of three bytes.
const RESOURCE: &[u8] =
    b"WARC/1.1\r\nWARC-Type: resource\r\nWARC-Record-ID: <urn:x:3>\r\nWARC-Date: 2016-09-19T17:20:24Z\r\nWARC-Target-URI: http://example.com/r\r\nContent-Type: text/plain\r\nContent-Length: 3\r\n";

/// The fields of a resource whose block is `abc`, and its verdict.
const FIELDS: &[(&[u8], &[u8])] = &[
    (
        b"WARC-Block-Digest: sha1:VGMT4NSHA2AWVOR6EVYXQUGCNSONBWE5\r\n",
        b"0 same\n",
    ),
    (
        b"WARC-Block-Digest: sha1:vgmt4nsha2awvor6evyxqugcnsonbwe5\r\n",
        b"0 same\n",
    ),
    (
        b"warc-block-digest:SHA1:VGMT4NSHA2awvor6evyxqugcnsonbwe5\r\n",
        b"0 same\n",
    ),
    (
        b"WARC-Block-Digest:  sHa1:VGMT4NSHA2AWVOR6EVYXQUGCNSONBWE5 \r\n",
        b"0 same\n",
    ),
    (
        b"WARC-Block-Digest:\r\n sha1:VGMT4NSHA2AWVOR6EVYXQUGCNSONBWE5\r\n",
        b"0 same\n",
    ),
    (
        b"WARC-Block-Digest: sha1:VGMT4NSHA2AWVOR6EVYXQUGCNSONBWE5\r\nWARC-Block-Digest: md5:00\r\n",
        b"0 same\n",
    ),
    (
        b"WARC-Block-Digest: sha1:AGMT4NSHA2AWVOR6EVYXQUGCNSONBWE5\r\n",
        b"0 differs\n",
    ),
    (
        b"WARC-Block-Digest: sha1:VGMT4NSHA2AWVOR6EVYXQUGCNSONBWE4\r\n",
        b"0 differs\n",
    ),
    (
        b"WARC-Block-Digest: sha1:3I42H3S6NNFQ2MSVX7XZKYAYSCX5QBYJ\r\n",
        b"0 differs\n",
    ),
    (
        b"WARC-Block-Digest: sha1:77777777777777777777777777777777\r\n",
        b"0 differs\n",
    ),
    (b"WARC-Block-Digest: md5:00\r\n", b"0 not-sha1\n"),
    (b"WARC-Block-Digest: sha1:\r\n", b"0 not-sha1\n"),
    (b"WARC-Block-Digest: sha1\r\n", b"0 not-sha1\n"),
    (b"WARC-Block-Digest:\r\n", b"0 not-sha1\n"),
    (
        b"WARC-Block-Digest: VGMT4NSHA2AWVOR6EVYXQUGCNSONBWE5\r\n",
        b"0 not-sha1\n",
    ),
    (
        b"WARC-Block-Digest: sha2:VGMT4NSHA2AWVOR6EVYXQUGCNSONBWE5\r\n",
        b"0 not-sha1\n",
    ),
    (
        b"WARC-Block-Digest: sha1: VGMT4NSHA2AWVOR6EVYXQUGCNSONBWE5\r\n",
        b"0 not-sha1\n",
    ),
    (
        b"WARC-Block-Digest: sha1:VGMT4NSHA2AWVOR6EVYXQUGCNSONBWE\r\n",
        b"0 not-sha1\n",
    ),
    (
        b"WARC-Block-Digest: sha1:VGMT4NSHA2AWVOR6EVYXQUGCNSONBWE5A\r\n",
        b"0 not-sha1\n",
    ),
    (
        b"WARC-Block-Digest: sha1:0GMT4NSHA2AWVOR6EVYXQUGCNSONBWE5\r\n",
        b"0 not-sha1\n",
    ),
    (
        b"WARC-Block-Digest: sha1:VGMT4NSHA2AWVOR6EVYXQUGCNSONBW=8\r\n",
        b"0 not-sha1\n",
    ),
    (
        b"WARC-Block-Digest: sha1:a9993e364706816aba3e25717850c26c9cd0d89d\r\n",
        b"0 not-sha1\n",
    ),
    (
        b"WARC-Block-Digest: md5:00\r\nWARC-Block-Digest: sha1:VGMT4NSHA2AWVOR6EVYXQUGCNSONBWE5\r\n",
        b"0 not-sha1\n",
    ),
    (
        b"WARC-Payload-Digest: sha1:VGMT4NSHA2AWVOR6EVYXQUGCNSONBWE5\r\n",
        b"0 absent\n",
    ),
];

/// Returns what `verify` writes, and its result.
fn verified<I: Input + Drop>(
    alloc: Global,
    input: I,
) -> Result<(Gather, Result<Verified, Fault>), Refused> {
    let mut out = Gather::new(alloc);
    let answer = settled(verify(&mut PlainArchive::new(alloc, input), &mut out))?;
    Ok((out, answer))
}

/// Returns `true` if the archive is verified with this result, read in whole pieces and one byte a call.
fn verifies(
    alloc: Global,
    archive: &[u8],
    lines: &[u8],
    answer: Result<Verified, Fault>,
) -> Result<bool, Refused> {
    let (whole, counts) = verified(alloc, Slice::new(archive))?;
    let (by_byte, again) = verified(alloc, Fuse::new(Slice::new(archive), 1, 0))?;
    Ok(whole.bytes() == lines && counts == answer && by_byte.bytes() == lines && again == answer)
}

/// Returns a record's counts, by its line.
fn counts(line: &[u8]) -> Result<Verified, Fault> {
    Ok(Verified {
        records: 1,
        differing: if line.ends_with(b"differs\n") { 1 } else { 0 },
    })
}

#[test]
fn a_block_is_compared_with_the_digest_of_its_field(rt: HostRuntime) -> Result<(), Refused> {
    for (number, (fields, line)) in FIELDS.iter().enumerate() {
        let archive = joined(rt.alloc(), &[RESOURCE, fields, b"\r\nabc\r\n\r\n"])?;
        assert!(rt;
            verifies(rt.alloc(), &archive, line, counts(line))?,
            "row {number}"
        );
    }
    Ok(())
}

/// The digest of `abc` (FIPS 180-4), and another.
const SAME: &[u8] = b"WARC-Block-Digest: sha1:VGMT4NSHA2AWVOR6EVYXQUGCNSONBWE5\r\n\r\nabc\r\n\r\n";

const OTHER: &[u8] = b"WARC-Block-Digest: sha1:AGMT4NSHA2AWVOR6EVYXQUGCNSONBWE5\r\n\r\nabc\r\n\r\n";

/// The head of a record whose block is a million letters `a`, with the digest of the example in FIPS 180-4.
const MILLION: &[u8] =
    b"WARC/1.1\r\nWARC-Type: resource\r\nWARC-Record-ID: <urn:x:4>\r\nWARC-Date: 2016\r\nContent-Length: 1000000\r\nWARC-Block-Digest: sha1:GSVJOPGUYTNKJ5Q65MV5XLJHGFSTIALP\r\n\r\n";

/// Calls that fail, with the lines and the offset at which the verification ends.
const FAILED_READS: &[(u64, &[u8], u64)] = &[
    (1, b"fault 0 Read\n", 0),
    (236, b"fault 0 Read\n", 0),
    (242, b"fault 0 Read\n", 0),
    (243, b"0 differs\nfault 242 Read\n", 242),
    (506, b"0 differs\nfault 242 Read\n", 242),
    (507, b"0 differs\n242 absent\nfault 506 Read\n", 506),
];

#[test]
fn a_verification_ends_at_a_failed_read(rt: HostRuntime) -> Result<(), Refused> {
    let archive = joined(rt.alloc(), &[RESOURCE, OTHER, RESPONSE])?;
    for (at, lines, offset) in FAILED_READS {
        let input = Fuse::new(Slice::new(&archive), 1, *at);
        let (out, answer) = verified(rt.alloc(), input)?;
        let (offset, cause) = (*offset, Cause::Read);
        assert!(rt;
            out.bytes() == *lines && answer == Err(Fault { offset, cause }),
            "{at}"
        );
    }
    Ok(())
}

/// The digest of `abc`, before a block that is cut off, and before a closing that is.
const SHORT_BLOCK: &[u8] = b"WARC-Block-Digest: sha1:VGMT4NSHA2AWVOR6EVYXQUGCNSONBWE5\r\n\r\nab";

const CUT_CLOSING: &[u8] =
    b"WARC-Block-Digest: sha1:VGMT4NSHA2AWVOR6EVYXQUGCNSONBWE5\r\n\r\nabc\r\n\r";

/// The pieces of archives, the lines of their verification, and its result.
const ARCHIVES: &[(&[&[u8]], &[u8], Result<Verified, Fault>)] = &[
    (
        &[RESOURCE, OTHER, RESOURCE, SAME, RESPONSE],
        b"0 differs\n242 same\n484 absent\n",
        Ok(Verified {
            records: 3,
            differing: 1,
        }),
    ),
    (
        &[RESOURCE, OTHER, RESOURCE, OTHER, b"WARC"],
        b"0 differs\n242 differs\nfault 484 ShortHead\n",
        Err(Fault {
            offset: 484,
            cause: Cause::ShortHead,
        }),
    ),
    (
        &[RESOURCE, SHORT_BLOCK],
        b"fault 0 ShortBlock\n",
        Err(Fault {
            offset: 0,
            cause: Cause::ShortBlock,
        }),
    ),
    (
        &[RESOURCE, CUT_CLOSING],
        b"fault 0 Closing\n",
        Err(Fault {
            offset: 0,
            cause: Cause::Closing,
        }),
    ),
    (
        &[],
        b"",
        Ok(Verified {
            records: 0,
            differing: 0,
        }),
    ),
];

#[test]
fn each_record_of_an_archive_has_a_verdict(rt: HostRuntime) -> Result<(), Refused> {
    for (number, (pieces, lines, answer)) in ARCHIVES.iter().enumerate() {
        let archive = joined(rt.alloc(), pieces)?;
        assert!(rt;
            verifies(rt.alloc(), &archive, lines, *answer)?,
            "row {number}"
        );
    }
    Ok(())
}

/// The example of FIPS 180-4: a block of a million letters `a`.
#[test]
fn a_long_block_has_a_verdict(rt: HostRuntime) -> Result<(), Refused> {
    let letters = padded(rt.alloc(), b"", b'a', b"", 1_000_000)?;
    let archive = joined(rt.alloc(), &[MILLION, &letters, b"\r\n\r\n"])?;
    let line = b"0 same\n";
    assert!(rt; verifies(rt.alloc(), &archive, line, counts(line))?);
    Ok(())
}
