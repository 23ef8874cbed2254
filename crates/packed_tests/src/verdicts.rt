//! Verdicts on the blocks of compressed archives.
use crate::answers::{opened_verifies, packed_verifies};
use crate::further_members::{OTHER_ALGORITHM, OTHER_MEMBER, SAME_MEMBER};
use crate::members::{DAMAGED_MEMBER, EMPTY_MEMBER, RESOURCE_MEMBER, RESPONSE_MEMBER, TWO_RECORDS};
use devices::{Fuse, Slice};
use fixtures::{Refused, joined};
use index_core::{Cause, Fault, Verified};
use std::alloc::Global;

/// The result of a verification: the numbers of records and of those that differ, or the fault.
type Counts = Result<(u64, u64), (u64, Cause)>;

/// Returns `true` if the archive is verified so, read in whole pieces and one byte a call, as a
/// compressed archive and as one of either form.
fn verifies_so(
    alloc: Global,
    archive: &[u8],
    lines: &[u8],
    wanted: Counts,
) -> Result<bool, Refused> {
    let wanted = match wanted {
        Ok((records, differing)) => Ok(Verified { records, differing }),
        Err((offset, cause)) => Err(Fault { offset, cause }),
    };
    Ok(
        packed_verifies(alloc, Slice::new(archive), lines, wanted)?
            && packed_verifies(alloc, Fuse::new(Slice::new(archive), 1, 0), lines, wanted)?
            && opened_verifies(alloc, Slice::new(archive), lines, wanted)?,
    )
}

/// Archives of these pieces, with their lines and results. The digest of `abc` is that of
/// FIPS 180-4.
const ARCHIVES: &[(&[&[u8]], &[u8], Counts)] = &[
    (
        &[RESPONSE_MEMBER, RESOURCE_MEMBER],
        b"0 absent\n207 absent\n",
        Ok((2, 0)),
    ),
    (
        &[SAME_MEMBER, EMPTY_MEMBER, OTHER_MEMBER, OTHER_ALGORITHM],
        b"0 same\n235 differs\n448 not-sha1\n",
        Ok((3, 1)),
    ),
    (
        &[OTHER_MEMBER, OTHER_MEMBER, DAMAGED_MEMBER],
        b"0 differs\n213 differs\nfault 426 BadMember\n",
        Err((426, Cause::BadMember)),
    ),
    (
        &[SAME_MEMBER, TWO_RECORDS],
        b"0 same\nfault 215 SeveralRecords\n",
        Err((215, Cause::SeveralRecords)),
    ),
    (
        &[SAME_MEMBER, b"x"],
        b"0 same\nfault 215 NoMember\n",
        Err((215, Cause::NoMember)),
    ),
    (&[EMPTY_MEMBER], b"", Ok((0, 0))),
];

#[test]
fn a_block_in_a_member_has_a_verdict(rt: HostRuntime) -> Result<(), Refused> {
    for (number, (pieces, lines, answer)) in ARCHIVES.iter().enumerate() {
        let archive = joined(rt.alloc(), pieces)?;
        assert!(rt;
            verifies_so(rt.alloc(), &archive, lines, *answer)?,
            "row {number}"
        );
    }
    Ok(())
}
