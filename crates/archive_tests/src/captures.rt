//! Captures of records that are built from their parts.
mod base32;
mod contents;
mod entries;
mod faults;
mod fronts;
mod held_lines;
mod http_blocks;
mod http_limits;
mod line_limit;
mod targets;
mod types;

use capture_core::{CaptureFault, Types, capture};
use cdxj_core::Entry;
use std::alloc::{AllocError, Global};
use std::test::Fail;
use warc_core::{Reader, Slice};

/// The SHA-1 of no bytes and of `abc` (FIPS 180-4), in base 32.
const EMPTY: &str = "3I42H3S6NNFQ2MSVX7XZKYAYSCX5QBYJ";

const ABC: &str = "VGMT4NSHA2AWVOR6EVYXQUGCNSONBWE5";

/// The line that marks a record as HTTP.
const HTTP: &[u8] = b"Content-Type: application/http; msgtype=response\r\n";

/// The beginning of each record.
const FRONT: &[u8] =
    b"WARC/1.1\r\nWARC-Record-ID: <urn:x:1>\r\nWARC-Date: 2016-09-19T17:20:24Z\r\n";

/// Returns the text of a record with this type, target, further lines of its head, and block.
fn record_text(
    alloc: Global,
    kind: &str,
    target: &[u8],
    fields: &[u8],
    block: &[u8],
) -> Result<Vec<u8>, AllocError> {
    let length = format!(in alloc; "{}", block.len())?;
    let mut text = FRONT.to_vec(alloc)?;
    push_line(&mut text, b"WARC-Type: ", kind.as_bytes())?;
    push_line(&mut text, b"WARC-Target-URI: ", target)?;
    push_line(&mut text, b"Content-Length: ", length.as_bytes())?;
    push_line(&mut text, fields, b"")?;
    push_line(&mut text, block, b"\r\n")?;
    Ok(text)
}

/// Appends the two parts and a line ending.
fn push_line(text: &mut Vec<u8>, first: &[u8], second: &[u8]) -> Result<(), AllocError> {
    text.extend_from_slice(first)?;
    text.extend_from_slice(second)?;
    text.extend_from_slice(b"\r\n")
}

/// Returns the capture of the record after those that were read, under a name that isn't empty.
fn next_capture(
    alloc: Global,
    reader: &mut Reader,
    input: &mut Slice<'_>,
    name: &str,
) -> Result<Option<Entry>, CaptureFault> {
    next_among(alloc, reader, input, name, Types::usual())
}

/// Returns the same, if the record's type is one of these.
fn next_among(
    alloc: Global,
    reader: &mut Reader,
    input: &mut Slice<'_>,
    name: &str,
    types: Types,
) -> Result<Option<Entry>, CaptureFault> {
    match reader.finish(input) {
        Ok(_length) => match reader.next(input) {
            Ok(Some(head)) if !name.is_empty() => capture(alloc, reader, input, &head, name, types),
            Ok(_) => Ok(None),
            Err(fault) => Err(CaptureFault::Archive(fault)),
        },
        Err(fault) => Err(CaptureFault::Archive(fault)),
    }
}

/// Returns the capture of the first record.
fn captured(alloc: Global, archive: &[u8]) -> Result<Option<Entry>, Fail> {
    let mut reader = Reader::new(alloc)?;
    Ok(next_capture(alloc, &mut reader, &mut Slice::new(archive), "a.warc")?)
}

/// Returns the capture of a record of `http://x/`.
fn capture_of(
    alloc: Global,
    kind: &str,
    fields: &[u8],
    block: &[u8],
) -> Result<Option<Entry>, Fail> {
    let text = record_text(alloc, kind, b"http://x/", fields, block)?;
    captured(alloc, text.as_slice())
}

/// Returns the same, if the record's type is one of these.
fn capture_among(
    alloc: Global,
    types: Types,
    kind: &str,
    fields: &[u8],
    block: &[u8],
) -> Result<Option<Entry>, Fail> {
    let text = record_text(alloc, kind, b"http://x/", fields, block)?;
    let mut input = Slice::new(text.as_slice());
    let mut reader = Reader::new(alloc)?;
    Ok(next_among(alloc, &mut reader, &mut input, "a.warc", types)?)
}

/// Returns `true` if the capture has this media type, status and digest.
fn says(captured: &Option<Entry>, mime: &str, status: &str, digest: &str) -> bool {
    match captured {
        Some(entry) => {
            entry.mime.as_str() == mime
                && entry.status.as_str() == status
                && entry.digest.as_str() == digest
        }
        None => false,
    }
}

/// Returns `true` if the capture of a record marked as HTTP shows that its block doesn't begin with an HTTP head.
fn says_no_head(captured: &Option<Entry>) -> bool {
    match captured {
        Some(entry) => entry.mime.as_str() == "-" && entry.status.as_str() == "-",
        None => false,
    }
}
