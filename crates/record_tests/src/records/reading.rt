//! A record's head, its block and its length.
use fixtures::{RESOURCE, RESPONSE, joined};
use std::test::Fail;
use warc_core::{Fault, Head, Kind, Reader, Slice};

fn is_of_response(head: &Head) -> bool {
    head.start() == 0
        && head.kind() == Kind::Response
        && head.length() == 59
        && head.record_length() == 264
        && head.stamp() == *b"20160919172024"
        && head.raw().len() == 201
        && RESPONSE.starts_with(head.raw())
}

fn has_fields_of_response(head: &Head) -> bool {
    head.field(b"warc-target-uri") == Some(b"http://example.com/".as_slice())
        && head.field(b"WARC-Target").is_none()
}

#[test]
fn a_record_has_a_head(rt: HostRuntime) -> Result<(), Fault> {
    let head = Reader::new(rt.alloc())?.next(&mut Slice::new(RESPONSE))?;
    assert!(rt; head.as_ref().is_some_and(is_of_response));
    assert!(rt; head.as_ref().is_some_and(has_fields_of_response));
    Ok(())
}

const BLOCK: &[u8] = b"HTTP/1.1 200 OK\r\nContent-Type: text/html; charset=utf-8\r\n\r\n";

/// Returns `true` if the open record's block is read as expected: nothing into no bytes, then all of it, then its end.
fn gives_its_block(reader: &mut Reader, input: &mut Slice<'_>) -> Result<bool, Fault> {
    let mut piece = [0; 100];
    let none = reader.block(input, &mut [])?;
    let all = reader.block(input, &mut piece)?;
    let end = reader.block(input, &mut piece)?;
    Ok(none == 0 && all == 59 && end == 0 && piece.starts_with(BLOCK) && piece[59] == 0)
}

/// The first call of `finish` returns the length of the record, and the second nothing.
#[test]
fn a_record_has_a_block_and_a_length(rt: HostRuntime) -> Result<(), Fault> {
    let mut input = Slice::new(RESPONSE);
    let mut reader = Reader::new(rt.alloc())?;
    assert!(rt; reader.next(&mut input)?.is_some());
    assert!(rt; gives_its_block(&mut reader, &mut input)?);
    assert!(rt; reader.finish(&mut input)? == 264);
    assert!(rt; reader.finish(&mut input)? == 0);
    Ok(())
}

#[test]
fn an_input_without_bytes_has_no_record_however_often_it_is_read(
    rt: HostRuntime,
) -> Result<(), Fault> {
    let mut input = Slice::new(b"");
    let mut reader = Reader::new(rt.alloc())?;
    assert!(rt; reader.next(&mut input)?.is_none());
    assert!(rt; reader.next(&mut input)?.is_none());
    assert!(rt; reader.block(&mut input, &mut [0; 10])? == 0);
    Ok(())
}

/// Reads a whole record, whose head's memory serves the next one. Returns its start, its length and its kind.
fn next_recycled(
    reader: &mut Reader,
    input: &mut Slice<'_>,
) -> Result<Option<(u64, u64, Kind)>, Fault> {
    let Some(head) = reader.next(input)? else {
        return Ok(None);
    };
    let found = (head.start(), head.record_length(), head.kind());
    reader.recycle(head);
    reader.finish(input)?;
    Ok(Some(found))
}

#[test]
fn the_memory_of_a_head_serves_the_next_one(rt: HostRuntime) -> Result<(), Fail> {
    let text = joined(rt.alloc(), &[RESPONSE, RESOURCE, RESPONSE])?;
    let mut input = Slice::new(&text);
    let mut reader = Reader::new(rt.alloc())?;
    for expected in &[
        Some((0, 264, Kind::Response)),
        Some((264, 184, Kind::Resource)),
        Some((448, 264, Kind::Response)),
        None,
    ] {
        assert!(rt; next_recycled(&mut reader, &mut input)? == *expected);
    }
    Ok(())
}
