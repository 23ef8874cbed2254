//! One front for records whose HTTP heads end in each of its steps.
use super::{ABC, HTTP, record_text};
use capture_core::{BlockStart, CaptureFault, HeldLine, Types, held_capture};
use cdxj_core::{Field, Line, LineRef};
use fixtures::repeated;
use std::alloc::{AllocError, Global};
use std::test::Fail;
use warc_core::{Cause, Reader, Slice};

/// The first part of a record's HTTP head, the length of the value that ends it, and the record's status. The heads end
/// in the first step, in the third, in the second, and in the first again.
const RECORDS: &[(&[u8], usize, &str)] = &[
    (b"HTTP/1.1 200 OK\r\nX: ", 10, "200"),
    (b"HTTP/1.1 201 OK\r\nX: ", 20_000, "201"),
    (b"HTTP/1.1 202 OK\r\nX: ", 3_000, "202"),
    (b"HTTP/1.1 203 OK\r\nX: ", 10, "203"),
];

/// Returns a block with an HTTP head, whose last value has this length, and the payload `abc`.
fn block(alloc: Global, first: &[u8], count: usize) -> Result<Vec<u8>, AllocError> {
    let mut block = first.to_vec(alloc)?;
    let value = repeated(alloc, b"a", count)?;
    block.extend_from_slice(value.as_slice())?;
    block.extend_from_slice(b"\r\n\r\nabc")?;
    Ok(block)
}

fn archive(alloc: Global) -> Result<Vec<u8>, AllocError> {
    let mut archive = Vec::new(alloc);
    for (first, count, _status) in RECORDS {
        let block = block(alloc, first, *count)?;
        let text = record_text(alloc, "response", b"http://x/", HTTP, block.as_slice())?;
        archive.extend_from_slice(text.as_slice())?;
    }
    Ok(archive)
}

/// Returns the capture of the next record.
fn next_with(
    alloc: Global,
    front: &mut BlockStart,
    reader: &mut Reader,
    input: &mut Slice<'_>,
) -> Result<Option<HeldLine>, CaptureFault> {
    reader.finish(input)?;
    match reader.next(input)? {
        Some(head) => held_capture(alloc, front, reader, input, &head, "a.warc", Types::usual()),
        None => Ok(None),
    }
}

fn has_values(line: &LineRef<'_>, status: &str) -> bool {
    line.value(Field::Statuscode) == status && line.value(Field::Digest) == ABC
}

/// Returns `true` if the line of the capture has this status, and the digest of `abc`.
fn says(alloc: Global, captured: &Option<HeldLine>, status: &str) -> bool {
    match captured {
        Some(line) => match Line::read(alloc, line.line()) {
            Ok(line) => has_values(&line.values(), status),
            Err(_) => false,
        },
        None => false,
    }
}

fn is_memory(fault: CaptureFault) -> bool {
    match fault {
        CaptureFault::Archive(fault) => fault.cause == Cause::Memory,
        _ => false,
    }
}

fn unless_refused(refused: Option<CaptureFault>) -> Result<(), CaptureFault> {
    match refused {
        Some(fault) => Err(fault),
        None => Ok(()),
    }
}

/// After a record for which memory was refused, those that follow are read right.
#[test]
fn one_front_serves_records_of_all_sizes(rt: HostRuntime) -> Result<(), Fail> {
    let archive = archive(rt.alloc())?;
    let mut input = Slice::new(archive.as_slice());
    let mut reader = Reader::new(rt.alloc())?;
    let mut front = BlockStart::new(rt.alloc());
    let mut refused = None;
    for (_first, _count, status) in RECORDS {
        match next_with(rt.alloc(), &mut front, &mut reader, &mut input) {
            Ok(captured) => assert!(rt; says(rt.alloc(), &captured, status), "{status}"),
            Err(fault) => {
                assert!(rt; is_memory(fault));
                refused = Some(fault);
            }
        }
    }
    Ok(unless_refused(refused)?)
}
