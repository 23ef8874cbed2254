//! Records, their heads and their faults.
mod faults;
mod head_limits;
mod reading;

use std::alloc::Global;
use warc_core::{Cause, Fault, Fuse, Head, Input, Reader, Slice};

/// The lines of the four mandatory fields, for a block of three bytes.
const MANDATORY: &[u8] =
    b"WARC-Record-ID: <urn:x:1>\r\nContent-Length: 3\r\nWARC-Date: 2016\r\nWARC-Type: resource\r\n";

/// Returns how many whole records are read, and the fault after them. Failed allocations are errors of the test.
fn walk<I: Input>(alloc: Global, input: &mut I) -> Result<(u64, Option<Fault>), Fault> {
    let mut reader = Reader::new(alloc)?;
    for count in 0..u64::MAX {
        match next_whole(&mut reader, input) {
            Ok(Some(_head)) => {}
            Ok(None) => return Ok((count, None)),
            Err(fault) if fault.cause == Cause::Memory => return Err(fault),
            Err(fault) => return Ok((count, Some(fault))),
        }
    }
    Ok((u64::MAX, None))
}

fn next_whole<I: Input>(reader: &mut Reader, input: &mut I) -> Result<Option<Head>, Fault> {
    let head = reader.next(input)?;
    reader.finish(input)?;
    Ok(head)
}

/// Returns `true` if this many whole records are read, and then this fault, from an input that gives at most `most` bytes
/// a call and fails at its call `at`.
fn walks(
    alloc: Global,
    input: (&[u8], usize, u64),
    records: u64,
    fault: Option<Fault>,
) -> Result<bool, Fault> {
    let (text, most, at) = input;
    Ok(walk(alloc, &mut Fuse::new(Slice::new(text), most, at))? == (records, fault))
}
