//! Indexes of compressed archives.
use crate::answers::{IndexLines, opened_indexes, packed_indexes, writes};
use crate::further_members::{MAGIC_IN_BLOCK, REST_OF_RECORD};
use crate::members::{
    CUT_RECORD, DAMAGED_MEMBER, EMPTY_MEMBER, FIXED_MEMBER, OTHER_VERSION, RESOURCE_MEMBER,
    RESPONSE_MEMBER, STORED_MEMBER, TWO_RECORDS, UNCLOSED_RECORD,
};
use devices::{Fuse, Slice};
use fixtures::{RESOURCE, RESOURCE_LINE, RESPONSE, RESPONSE_LINE, Refused, cut, joined};
use index_core::{Cause, Fault, IndexFault, Indexer, Types, open};
use std::alloc::Global;

/// The response's line at offset 0, in a member of 207 bytes.
pub const RESPONSE_AT_0: &[u8] = b"com,example)/ 20160919172024 \
    {\"url\": \"http://example.com/\", \"mime\": \"text/html\", \"status\": \"200\", \
    \"digest\": \"3I42H3S6NNFQ2MSVX7XZKYAYSCX5QBYJ\", \
    \"length\": \"207\", \"offset\": \"0\", \"filename\": \"a.warc.gz\"}\n";

/// The resource's line at offset 207, in a member of 165 bytes.
pub const RESOURCE_AT_207: &[u8] = b"com,example)/r 20160919172024 \
    {\"url\": \"http://example.com/r\", \"mime\": \"text/plain\", \"status\": \"-\", \
    \"digest\": \"VGMT4NSHA2AWVOR6EVYXQUGCNSONBWE5\", \
    \"length\": \"165\", \"offset\": \"207\", \"filename\": \"a.warc.gz\"}\n";

/// The response's line at offset 0, in a member of 222 bytes.
const FIXED_LINE: &[u8] = b"com,example)/ 20160919172024 \
    {\"url\": \"http://example.com/\", \"mime\": \"text/html\", \"status\": \"200\", \
    \"digest\": \"3I42H3S6NNFQ2MSVX7XZKYAYSCX5QBYJ\", \
    \"length\": \"222\", \"offset\": \"0\", \"filename\": \"a.warc.gz\"}\n";

/// The response's line at offset 222, in a member of 287 bytes.
const STORED_LINE: &[u8] = b"com,example)/ 20160919172024 \
    {\"url\": \"http://example.com/\", \"mime\": \"text/html\", \"status\": \"200\", \
    \"digest\": \"3I42H3S6NNFQ2MSVX7XZKYAYSCX5QBYJ\", \
    \"length\": \"287\", \"offset\": \"222\", \"filename\": \"a.warc.gz\"}\n";

/// The resource's line at offset 529, in a member of 165 bytes.
const RESOURCE_AT_529: &[u8] = b"com,example)/r 20160919172024 \
    {\"url\": \"http://example.com/r\", \"mime\": \"text/plain\", \"status\": \"-\", \
    \"digest\": \"VGMT4NSHA2AWVOR6EVYXQUGCNSONBWE5\", \
    \"length\": \"165\", \"offset\": \"529\", \"filename\": \"a.warc.gz\"}\n";

/// The resource's line at offset 0, in a member of 165 bytes, before a response at 165.
const RESOURCE_AT_0: &[u8] = b"com,example)/r 20160919172024 \
    {\"url\": \"http://example.com/r\", \"mime\": \"text/plain\", \"status\": \"-\", \
    \"digest\": \"VGMT4NSHA2AWVOR6EVYXQUGCNSONBWE5\", \
    \"length\": \"165\", \"offset\": \"0\", \"filename\": \"a.warc.gz\"}\n";

const RESPONSE_AT_165: &[u8] = b"com,example)/ 20160919172024 \
    {\"url\": \"http://example.com/\", \"mime\": \"text/html\", \"status\": \"200\", \
    \"digest\": \"3I42H3S6NNFQ2MSVX7XZKYAYSCX5QBYJ\", \
    \"length\": \"207\", \"offset\": \"165\", \"filename\": \"a.warc.gz\"}\n";

/// The index of a response and a resource.
pub const BOTH: IndexLines = &[(0, RESPONSE_AT_0), (207, RESOURCE_AT_207)];

/// The index of a response.
pub const FIRST: IndexLines = &[(0, RESPONSE_AT_0)];

/// The result of adding an archive: the number of captures, or the fault.
type Count = Result<u64, (u64, Cause)>;

/// Returns `true` if the archive is indexed so, read in whole pieces and one byte a call, as a
/// compressed archive and as one of either form.
fn indexes_so(
    alloc: Global,
    archive: &[u8],
    lines: &[(u64, &[u8])],
    wanted: Count,
) -> Result<bool, Refused> {
    let wanted = match wanted {
        Ok(count) => Ok(count),
        Err((offset, cause)) => Err(Fault { offset, cause }),
    };
    Ok(
        packed_indexes(alloc, Slice::new(archive), lines, wanted)?
            && packed_indexes(alloc, Fuse::new(Slice::new(archive), 1, 0), lines, wanted)?
            && opened_indexes(alloc, Slice::new(archive), lines, wanted)?,
    )
}

/// Archives of these pieces, with the lines of their indexes and the results.
const ARCHIVES: &[(&[&[u8]], IndexLines, Count)] = &[
    (&[RESPONSE_MEMBER, RESOURCE_MEMBER], BOTH, Ok(2)),
    (
        &[FIXED_MEMBER, STORED_MEMBER, EMPTY_MEMBER, RESOURCE_MEMBER],
        &[(0, FIXED_LINE), (222, STORED_LINE), (529, RESOURCE_AT_529)],
        Ok(3),
    ),
    (
        &[RESOURCE_MEMBER, RESPONSE_MEMBER],
        &[(165, RESPONSE_AT_165), (0, RESOURCE_AT_0)],
        Ok(2),
    ),
    (&[EMPTY_MEMBER], &[], Ok(0)),
    (
        &[RESPONSE_MEMBER, DAMAGED_MEMBER],
        FIRST,
        Err((207, Cause::BadMember)),
    ),
    (&[RESPONSE_MEMBER, b"x"], FIRST, Err((207, Cause::NoMember))),
    (
        &[RESPONSE_MEMBER, b"\0\0\0\0"],
        FIRST,
        Err((207, Cause::NoMember)),
    ),
    (&[TWO_RECORDS], &[], Err((0, Cause::SeveralRecords))),
    (
        &[CUT_RECORD, REST_OF_RECORD],
        &[],
        Err((0, Cause::ShortHead)),
    ),
    (
        &[RESPONSE_MEMBER, UNCLOSED_RECORD],
        FIRST,
        Err((207, Cause::Closing)),
    ),
    (
        &[RESPONSE_MEMBER, OTHER_VERSION, MAGIC_IN_BLOCK],
        FIRST,
        Err((207, Cause::Version)),
    ),
];

#[test]
fn an_index_has_the_places_of_members(rt: HostRuntime) -> Result<(), Refused> {
    for (number, (pieces, lines, answer)) in ARCHIVES.iter().enumerate() {
        let archive = joined(rt.alloc(), pieces)?;
        assert!(rt;
            indexes_so(rt.alloc(), &archive, lines, *answer)?,
            "row {number}"
        );
    }
    Ok(())
}

/// Lengths of the first bytes of both members, with the lines of their indexes and the results.
const CUTS: &[(usize, IndexLines, Count)] = &[
    (372, BOTH, Ok(2)),
    (371, FIRST, Err((207, Cause::CutMember))),
    (364, FIRST, Err((207, Cause::CutMember))),
    (208, FIRST, Err((207, Cause::CutMember))),
    (207, FIRST, Ok(1)),
    (206, &[], Err((0, Cause::CutMember))),
    (199, &[], Err((0, Cause::CutMember))),
];

#[test]
fn the_capture_of_a_member_that_is_cut_is_not_kept(rt: HostRuntime) -> Result<(), Refused> {
    let archive = joined(rt.alloc(), &[RESPONSE_MEMBER, RESOURCE_MEMBER])?;
    for (length, lines, answer) in CUTS {
        assert!(rt;
            indexes_so(rt.alloc(), cut(&archive, *length), lines, *answer)?,
            "{length}"
        );
    }
    Ok(())
}

/// Adds an archive of either form. Refused memory is an error.
fn adds(
    alloc: Global,
    indexer: &mut Indexer,
    name: &str,
    archive: &[u8],
    wanted: u64,
) -> Result<bool, Refused> {
    let mut archive = open(alloc, Slice::new(archive));
    match indexer.add(name, &mut archive) {
        Ok(count) => Ok(count == wanted),
        Err(fault) if fault.name() == IndexFault::Memory.name() => Err(Refused::Memory),
        Err(_) => Ok(false),
    }
}

/// The lines of `b.warc` follow that of `a.warc.gz` where the key and the stamp are the same.
#[test]
fn archives_of_both_forms_have_one_index(rt: HostRuntime) -> Result<(), Refused> {
    let alloc = rt.alloc();
    let plain = joined(alloc, &[RESPONSE, RESOURCE])?;
    let lines = joined(alloc, &[RESPONSE_AT_0, RESPONSE_LINE, RESOURCE_LINE])?;
    let mut indexer = Indexer::new(alloc, Types::usual());
    assert!(rt; adds(alloc, &mut indexer, "b.warc", &plain, 2)?);
    assert!(rt; adds(alloc, &mut indexer, "a.warc.gz", RESPONSE_MEMBER, 1)?);
    assert!(rt; writes(alloc, &indexer, &lines, 3)?);
    Ok(())
}
