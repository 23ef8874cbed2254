//! Listings of compressed archives.
use crate::answers::{opened_lists, packed_lists};
use crate::blocks::{
    DISTANCE_BEFORE_TEXT, INCOMPLETE_CODE, NO_DISTANCE, NO_END, ONE_DISTANCE, REPEAT_FIRST,
    REPEAT_PAST_END, SYMBOL_286, TOO_MANY_LENGTHS,
};
use crate::further_members::{MAGIC_IN_BLOCK, RECORD_START_IN_BLOCK, REST_OF_RECORD};
use crate::members::{
    CUT_RECORD, DAMAGED_MEMBER, EMPTY_MEMBER, FIXED_MEMBER, OTHER_VERSION, RESOURCE_MEMBER,
    RESPONSE_MEMBER, STORED_MEMBER, TWO_RECORDS, UNCLOSED_RECORD,
};
use devices::{Fuse, Slice};
use fixtures::{Refused, cut, joined};
use index_core::{Cause, Fault};
use std::alloc::Global;

/// The result of a listing: the number of records, or the fault.
type Count = Result<u64, (u64, Cause)>;

fn count_or_fault(count: Count) -> Result<u64, Fault> {
    match count {
        Ok(count) => Ok(count),
        Err((offset, cause)) => Err(Fault { offset, cause }),
    }
}

/// Returns `true` if the archive is listed so, read in whole pieces and one byte a call, as a
/// compressed archive and as one of either form.
fn lists_so(alloc: Global, archive: &[u8], lines: &[u8], wanted: Count) -> Result<bool, Refused> {
    let wanted = count_or_fault(wanted);
    Ok(
        packed_lists(alloc, Slice::new(archive), lines, wanted)?
            && packed_lists(alloc, Fuse::new(Slice::new(archive), 1, 0), lines, wanted)?
            && opened_lists(alloc, Slice::new(archive), lines, wanted)?
            && opened_lists(alloc, Fuse::new(Slice::new(archive), 1, 0), lines, wanted)?,
    )
}

/// Archives of these pieces, with their lines and results.
const ARCHIVES: &[(&[&[u8]], &[u8], Count)] = &[
    (
        &[RESPONSE_MEMBER, RESOURCE_MEMBER],
        b"0 207 response\n207 165 resource\n",
        Ok(2),
    ),
    (
        &[FIXED_MEMBER, STORED_MEMBER, EMPTY_MEMBER, RESOURCE_MEMBER],
        b"0 222 response\n222 287 response\n529 165 resource\n",
        Ok(3),
    ),
    (&[EMPTY_MEMBER, EMPTY_MEMBER], b"", Ok(0)),
    (
        &[RESPONSE_MEMBER, DAMAGED_MEMBER],
        b"0 207 response\nfault 207 BadMember\n",
        Err((207, Cause::BadMember)),
    ),
    (
        &[RESPONSE_MEMBER, b"x"],
        b"0 207 response\nfault 207 NoMember\n",
        Err((207, Cause::NoMember)),
    ),
    (
        &[RESPONSE_MEMBER, b"\0\0\0\0\0\0\0\0"],
        b"0 207 response\nfault 207 NoMember\n",
        Err((207, Cause::NoMember)),
    ),
    (
        &[RESPONSE_MEMBER, b"\x1f\0"],
        b"0 207 response\nfault 207 NoMember\n",
        Err((207, Cause::NoMember)),
    ),
    (
        &[RESPONSE_MEMBER, b"\x1f"],
        b"0 207 response\nfault 207 CutMember\n",
        Err((207, Cause::CutMember)),
    ),
    (
        &[TWO_RECORDS],
        b"fault 0 SeveralRecords\n",
        Err((0, Cause::SeveralRecords)),
    ),
    (
        &[CUT_RECORD, REST_OF_RECORD],
        b"fault 0 ShortHead\n",
        Err((0, Cause::ShortHead)),
    ),
    (&[RECORD_START_IN_BLOCK], b"0 166 resource\n", Ok(1)),
    (
        &[MAGIC_IN_BLOCK, RESOURCE_MEMBER],
        b"0 207 resource\n207 165 resource\n",
        Ok(2),
    ),
    (
        &[UNCLOSED_RECORD],
        b"fault 0 Closing\n",
        Err((0, Cause::Closing)),
    ),
    (
        &[OTHER_VERSION],
        b"fault 0 Version\n",
        Err((0, Cause::Version)),
    ),
    (&[ONE_DISTANCE], b"0 247 response\n", Ok(1)),
    (&[NO_DISTANCE], b"0 178 resource\n", Ok(1)),
];

#[test]
fn a_listing_has_a_line_for_each_member_with_a_record(rt: HostRuntime) -> Result<(), Refused> {
    for (number, (pieces, lines, answer)) in ARCHIVES.iter().enumerate() {
        let archive = joined(rt.alloc(), pieces)?;
        assert!(rt;
            lists_so(rt.alloc(), &archive, lines, *answer)?,
            "row {number}"
        );
    }
    Ok(())
}

/// The first bytes of a member without optional fields.
const HEADER: &[u8] = b"\x1f\x8b\x08\0\0\0\0\0\x02\x03";

/// Blocks that RFC 1951 doesn't allow.
const BAD_BLOCKS: &[&[u8]] = &[
    INCOMPLETE_CODE,
    TOO_MANY_LENGTHS,
    REPEAT_FIRST,
    REPEAT_PAST_END,
    NO_END,
    DISTANCE_BEFORE_TEXT,
    SYMBOL_286,
    b"\x07",
    b"\x01\x01\0\0\0x",
];

#[test]
fn a_block_that_is_not_allowed_is_a_bad_member(rt: HostRuntime) -> Result<(), Refused> {
    let lines = b"0 165 resource\nfault 165 BadMember\n";
    let answer = Err((165, Cause::BadMember));
    for (number, block) in BAD_BLOCKS.iter().enumerate() {
        let archive = joined(
            rt.alloc(),
            &[RESOURCE_MEMBER, HEADER, block, b"\0\0\0\0\0\0\0\0"],
        )?;
        assert!(rt;
            lists_so(rt.alloc(), &archive, lines, answer)?,
            "row {number}"
        );
    }
    Ok(())
}

/// Headers with optional fields, and what a member of the resource with such a header gives.
/// Without a field it has 165 bytes. The header's checksum is the low half of its CRC-32.
const HEADERS: &[(&[u8], &[u8], Count)] = &[
    (
        b"\x1f\x8b\x08\x01\0\0\0\0\x02\x03",
        b"0 165 resource\n",
        Ok(1),
    ),
    (
        b"\x1f\x8b\x08\x04\0\0\0\0\x02\x03\x05\0AB\x01\0x",
        b"0 172 resource\n",
        Ok(1),
    ),
    (
        b"\x1f\x8b\x08\x08\0\0\0\0\x02\x03a.w\0",
        b"0 169 resource\n",
        Ok(1),
    ),
    (
        b"\x1f\x8b\x08\x10\0\0\0\0\x02\x03c\0",
        b"0 167 resource\n",
        Ok(1),
    ),
    (
        b"\x1f\x8b\x08\x02\0\0\0\0\x02\x03\x25\x15",
        b"0 167 resource\n",
        Ok(1),
    ),
    (
        b"\x1f\x8b\x08\x1f\0\0\0\0\x02\x03\x05\0AB\x01\0xa.w\0c\0\x42\x30",
        b"0 180 resource\n",
        Ok(1),
    ),
    (
        b"\x1f\x8b\x08\x02\0\0\0\0\x02\x03\x25\x14",
        b"fault 0 BadMember\n",
        Err((0, Cause::BadMember)),
    ),
    (
        b"\x1f\x8b\x08\x20\0\0\0\0\x02\x03",
        b"fault 0 BadMember\n",
        Err((0, Cause::BadMember)),
    ),
    (
        b"\x1f\x8b\x08\x80\0\0\0\0\x02\x03",
        b"fault 0 BadMember\n",
        Err((0, Cause::BadMember)),
    ),
    (
        b"\x1f\x8b\x07\0\0\0\0\0\x02\x03",
        b"fault 0 BadMember\n",
        Err((0, Cause::BadMember)),
    ),
];

#[test]
fn a_member_may_have_optional_fields(rt: HostRuntime) -> Result<(), Refused> {
    let rest = RESOURCE_MEMBER.get(10..).unwrap_or(b"");
    for (number, (header, lines, answer)) in HEADERS.iter().enumerate() {
        let archive = joined(rt.alloc(), &[header, rest])?;
        assert!(rt;
            lists_so(rt.alloc(), &archive, lines, *answer)?,
            "row {number}"
        );
    }
    Ok(())
}

/// Returns what the first bytes of a response of 207 bytes and a resource of 165 give.
fn cut_gives(length: usize) -> (&'static [u8], Count) {
    match length {
        0 => (b"", Ok(0)),
        1..=206 => (b"fault 0 CutMember\n", Err((0, Cause::CutMember))),
        207 => (b"0 207 response\n", Ok(1)),
        208..=371 => (
            b"0 207 response\nfault 207 CutMember\n",
            Err((207, Cause::CutMember)),
        ),
        _ => (b"0 207 response\n207 165 resource\n", Ok(2)),
    }
}

#[test]
fn an_archive_that_is_cut_at_any_byte_is_listed_to_its_cut(rt: HostRuntime) -> Result<(), Refused> {
    let archive = joined(rt.alloc(), &[RESPONSE_MEMBER, RESOURCE_MEMBER])?;
    for length in 0..373 {
        let (lines, answer) = cut_gives(length);
        let wanted = count_or_fault(answer);
        assert!(rt;
            packed_lists(rt.alloc(), Slice::new(cut(&archive, length)), lines, wanted)?,
            "{length}"
        );
    }
    Ok(())
}

/// At these bytes a header, a block or a trailer begins or ends.
#[test]
fn an_archive_that_is_cut_is_listed_to_its_cut_however_it_is_read(
    rt: HostRuntime,
) -> Result<(), Refused> {
    let archive = joined(rt.alloc(), &[RESPONSE_MEMBER, RESOURCE_MEMBER])?;
    for length in [
        2, 3, 10, 11, 198, 199, 206, 207, 208, 209, 217, 218, 363, 364, 371, 372,
    ] {
        let (lines, answer) = cut_gives(length);
        assert!(rt;
            lists_so(rt.alloc(), cut(&archive, length), lines, answer)?,
            "{length}"
        );
    }
    Ok(())
}
