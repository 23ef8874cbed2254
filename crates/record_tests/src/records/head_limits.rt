//! How long heads are, and where they end.
use super::{MANDATORY, walks};
use fixtures::{joined, padded};
use std::alloc::{AllocError, Global};
use std::test::Fail;
use warc_core::{Cause, Fault, Fuse, HEAD_LIMIT, Head, Input, Reader, Slice};

/// Returns a head of this many bytes, which ends with CR LF CR LF or, if it is open, lacks the last LF.
fn head_of(alloc: Global, length: usize, open: bool) -> Result<Vec<u8>, AllocError> {
    let front = joined(alloc, &[b"WARC/1.1\r\n", MANDATORY, b"X: "])?;
    let end: &[u8] = if open { b"\r\n\r" } else { b"\r\n\r\n" };
    padded(alloc, &front, b'x', end, length)
}

/// Lengths of heads, whether they are open, and why they are refused, if they are.
const LENGTHS: &[(usize, bool, Option<Cause>)] = &[
    (65_537, false, None),
    (1_048_575, false, None),
    (1_048_576, false, None),
    (1_048_577, false, Some(Cause::HeadTooLong)),
    (1_048_578, false, Some(Cause::HeadTooLong)),
    (1_048_575, true, Some(Cause::ShortHead)),
    (1_048_576, true, Some(Cause::HeadTooLong)),
];

/// Returns what stands behind a head: nothing if it is open.
fn behind(open: bool) -> &'static [u8] {
    if open { b"" } else { b"abc\r\n\r\n" }
}

#[test]
fn a_head_has_at_most_1_048_576_bytes(rt: HostRuntime) -> Result<(), Fail> {
    assert!(rt; HEAD_LIMIT == 1_048_576);
    for (length, open, cause) in LENGTHS {
        let head = head_of(rt.alloc(), *length, *open)?;
        let text = joined(rt.alloc(), &[&head, behind(*open)])?;
        let fault = cause.map(|cause| Fault { offset: 0, cause });
        let records = u64::from(cause.is_none());
        assert!(rt; head.len() == *length, "{length}");
        assert!(rt;
            walks(rt.alloc(), (&text, 8192, 0), records, fault)?,
            "{length} {open}"
        );
    }
    Ok(())
}

#[test]
fn a_long_head_is_refused_before_its_lines_are_read(rt: HostRuntime) -> Result<(), Fail> {
    let filler = head_of(rt.alloc(), 1_100_000, false)?;
    let text = joined(rt.alloc(), &[b"WARC/1.1\r\nno colon\r\n", &filler])?;
    let long = Fault {
        offset: 0,
        cause: Cause::HeadTooLong,
    };
    assert!(rt; walks(rt.alloc(), (&text, 8192, 0), 0, Some(long))?);
    Ok(())
}

/// Returns `true` if the next record has a head of this length and a block of three bytes.
fn is_read<I: Input>(alloc: Global, input: &mut I, length: usize) -> Result<bool, Fault> {
    let mut reader = Reader::new(alloc)?;
    let Some(head) = reader.next(input)? else {
        return Ok(false);
    };
    Ok(
        head.raw().len() == length
            && head.record_length() == length as u64 + 7
            && reader.finish(input)? == head.record_length(),
    )
}

/// Returns `true` if a head of this length is read in pieces of one, seven and 8,192 bytes.
fn is_read_in_pieces(alloc: Global, length: usize) -> Result<bool, Fail> {
    let head = head_of(alloc, length, false)?;
    let text = joined(alloc, &[&head, b"abc\r\n\r\n"])?;
    for most in &[1, 7, 8192] {
        let mut input = Fuse::new(Slice::new(&text), *most, 0);
        if !is_read(alloc, &mut input, length)? {
            return Ok(false);
        }
    }
    Ok(true)
}

#[test]
fn a_head_may_end_anywhere_in_a_piece(rt: HostRuntime) -> Result<(), Fail> {
    for length in 1020..1030 {
        assert!(rt; is_read_in_pieces(rt.alloc(), length)?, "{length}");
    }
    for length in 8188..8198 {
        assert!(rt; is_read_in_pieces(rt.alloc(), length)?, "{length}");
    }
    Ok(())
}

fn is_folded_head(head: &Head) -> bool {
    head.field(b"WARC-Target-URI") == Some(b"<http://example.com/>".as_slice())
        && head.stamp() == *b"20160919172024"
}

#[test]
fn folded_fields_of_the_older_version_are_read(rt: HostRuntime) -> Result<(), Fault> {
    let text =
        b"WARC/1.0\r\nWARC-Type: response\r\nWARC-Record-ID: <urn:x:1>\r\nWARC-Date: 2016-09-19T17:20:24.123456Z\r\nWARC-Target-URI:\r\n <http://example.com/>\r\nContent-Length: 0\r\n\r\n\r\n\r\n";
    let head = Reader::new(rt.alloc())?.next(&mut Slice::new(text))?;
    assert!(rt; head.as_ref().is_some_and(is_folded_head));
    Ok(())
}
