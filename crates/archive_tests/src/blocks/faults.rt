//! Archives with a long block that are cut, or whose input fails.
use super::{INDEX, first_of, indexes, listing, lists, long_archive, written};
use devices::{FromFile, Fuse, Slice};
use fixtures::cut;
use index_core::PlainArchive;
use std::alloc::Global;
use std::fs;
use std::io::Cursor;
use std::test::Fail;
use warc_core::{Cause, Fault};

/// Returns how many whole records the first `length` bytes of the three have, and the fault that follows.
fn cut_gives(length: usize) -> (u64, Option<Fault>) {
    let fault = |offset, cause| Some(Fault { offset, cause });
    match length {
        0 => (0, None),
        1..=205 => (0, fault(0, Cause::ShortHead)),
        206..=208 => (0, fault(0, Cause::ShortBlock)),
        209..=212 => (0, fault(0, Cause::Closing)),
        213 => (1, None),
        214..=422 => (1, fault(213, Cause::ShortHead)),
        423..=20_422 => (1, fault(213, Cause::ShortBlock)),
        20_423..=20_426 => (1, fault(213, Cause::Closing)),
        20_427 => (2, None),
        20_428..=20_632 => (2, fault(20_427, Cause::ShortHead)),
        20_633..=20_635 => (2, fault(20_427, Cause::ShortBlock)),
        20_636..=20_639 => (2, fault(20_427, Cause::Closing)),
        _ => (3, None),
    }
}

/// Returns `true` if the first `length` bytes of the three records are listed and indexed to their end, as a file.
fn reads_to_cut(alloc: Global, part: &[u8]) -> Result<bool, Fail> {
    let (records, fault) = cut_gives(part.len());
    let wanted = fault.map_or(Ok(records), Err);
    let lines = listing(alloc, records, fault)?;
    let index = first_of(alloc, &INDEX, records)?;
    let mut listed = PlainArchive::new(alloc, FromFile::new(Cursor::new(part))?);
    let mut indexed = PlainArchive::new(alloc, FromFile::new(Cursor::new(part))?);
    Ok(
        lists(alloc, &mut listed, lines.as_slice(), wanted)?
            && indexes(alloc, &mut indexed, index.as_slice(), wanted)?,
    )
}

#[test]
fn a_file_that_was_cut_at_any_byte_is_read_to_its_cut(rt: HostRuntime) -> Result<(), Fail> {
    let archive = long_archive(rt.alloc())?;
    assert!(rt; archive.len() == 20_640);
    for length in 0..20_641 {
        assert!(rt;
            reads_to_cut(rt.alloc(), cut(&archive, length))?,
            "{length}"
        );
    }
    Ok(())
}

/// A skip goes past the cut, and the read after it returns nothing: no closing follows the second record's block.
#[test]
fn a_file_that_is_cut_after_it_was_opened_is_damaged(rt: HostRuntime) -> Result<(), Fail> {
    let archive = long_archive(rt.alloc())?;
    let file = written(&rt, "shrunk.warc", &archive)?;
    fs::write(&rt, "shrunk.warc", cut(&archive, 9_000))?;
    let (offset, cause) = (213, Cause::Closing);
    let lines = b"0 213 resource\nfault 213 Closing\n";
    let mut file = PlainArchive::new(rt.alloc(), file);
    assert!(rt; lists(rt.alloc(), &mut file, lines, Err(Fault { offset, cause }))?);
    Ok(())
}

/// Returns where the record begins that is read at this call, at 100 bytes a call. Calls 6 to 204 skip 100 bytes of the
/// long block each, and call 205 its last 23. Call 209 finds the end.
fn record_of_call(call: u64) -> (u64, u64) {
    match call {
        1..=3 => (0, 0),
        4..=206 => (1, 213),
        207..=208 => (2, 20_427),
        _ => (3, 20_640),
    }
}

/// Returns `true` if a listing ends at this call, which fails.
fn ends_at_failed_call(alloc: Global, archive: &[u8], call: u64) -> Result<bool, Fail> {
    let (records, offset) = record_of_call(call);
    let cause = Cause::Read;
    let fault = Fault { offset, cause };
    let lines = listing(alloc, records, Some(fault))?;
    let mut archive = PlainArchive::new(alloc, Fuse::new(Slice::new(archive), 100, call));
    Ok(lists(alloc, &mut archive, &lines, Err(fault))? && archive.input().failures == 1)
}

#[test]
fn a_listing_ends_at_a_failed_read_or_skip(rt: HostRuntime) -> Result<(), Fail> {
    let archive = long_archive(rt.alloc())?;
    for call in 1..210 {
        assert!(rt; ends_at_failed_call(rt.alloc(), &archive, call)?, "{call}");
    }
    let lines = listing(rt.alloc(), 3, None)?;
    let whole = Fuse::new(Slice::new(&archive), 100, 210);
    let mut whole = PlainArchive::new(rt.alloc(), whole);
    assert!(rt; lists(rt.alloc(), &mut whole, &lines, Ok(3))? && whole.input().calls == 209);
    Ok(())
}
