//! Records in members.
use crate::members::{
    CUT_RECORD, DAMAGED_MEMBER, EMPTY_MEMBER, FIXED_MEMBER, OTHER_VERSION, RESOURCE_MEMBER,
    RESPONSE_MEMBER, STORED_MEMBER, TWO_RECORDS, UNCLOSED_RECORD,
};
use archives::{Archive, Cause, Fault, Input, PackedArchive};
use devices::Slice;
use fixtures::{Refused, cut, joined};
use std::alloc::Global;

/// What an archive holds: the offsets and lengths of its records, and the fault behind them.
#[derive(Drop)]
struct Listing {
    places: Vec<(u64, u64)>,
    fault: Option<Fault>,
}

/// Reads an archive of at most eight records.
fn list<I: Input + Drop>(alloc: Global, input: I) -> Result<Listing, Refused> {
    let mut archive = PackedArchive::new(alloc, input);
    let mut places = Vec::new(alloc);
    let mut fault = None;
    'records: for _ in 0..9 {
        match archive.next_record() {
            Ok(Some(record)) => places.push((record.place.offset, record.place.length))?,
            Ok(None) => break,
            Err(found) => {
                fault = Some(found);
                break;
            }
        }
    }
    Ok(Listing { places, fault })
}

/// Returns `true` if the archive holds these records and this fault. Refused memory is an error.
fn holds(
    alloc: Global,
    archive: &[u8],
    places: &[(u64, u64)],
    fault: Option<(u64, Cause)>,
) -> Result<bool, Refused> {
    let listing = list(alloc, Slice::new(archive))?;
    let fault = match fault {
        Some((offset, cause)) => Some(Fault { offset, cause }),
        None => None,
    };
    if let Some(found) = listing.fault
        && found.cause == Cause::Memory
    {
        return Err(Refused::Memory);
    }
    Ok(listing.places.as_slice() == places && listing.fault == fault)
}

#[test]
fn a_record_stands_where_its_member_does(rt: HostRuntime) -> Result<(), Refused> {
    let two = joined(rt.alloc(), &[RESPONSE_MEMBER, RESOURCE_MEMBER])?;
    assert!(rt; holds(rt.alloc(), &two, &[(0, 207), (207, 165)], None)?);
    let four = joined(
        rt.alloc(),
        &[FIXED_MEMBER, STORED_MEMBER, EMPTY_MEMBER, RESOURCE_MEMBER],
    )?;
    let places = &[(0, 222), (222, 287), (529, 165)];
    assert!(rt; holds(rt.alloc(), &four, places, None)?);
    Ok(())
}

#[test]
fn a_member_is_at_fault(rt: HostRuntime) -> Result<(), Refused> {
    let alloc = rt.alloc();
    let two = joined(alloc, &[RESPONSE_MEMBER, RESOURCE_MEMBER])?;
    let first = &[(0, 207)];
    assert!(rt; holds(alloc, cut(&two, 371), first, Some((207, Cause::CutMember)))?);
    assert!(rt; holds(alloc, cut(&two, 208), first, Some((207, Cause::CutMember)))?);
    assert!(rt; holds(alloc, cut(&two, 207), first, None)?);
    let damaged = joined(alloc, &[RESPONSE_MEMBER, DAMAGED_MEMBER])?;
    assert!(rt; holds(alloc, &damaged, first, Some((207, Cause::BadMember)))?);
    for tail in [b"x".as_slice(), b"\0\0\0".as_slice()] {
        let text = joined(alloc, &[RESPONSE_MEMBER, tail])?;
        assert!(rt; holds(alloc, &text, first, Some((207, Cause::NoMember)))?);
    }
    Ok(())
}

/// Members that hold no record, and why.
const REFUSED: &[(&[u8], Cause)] = &[
    (TWO_RECORDS, Cause::SeveralRecords),
    (CUT_RECORD, Cause::ShortHead),
    (UNCLOSED_RECORD, Cause::Closing),
    (OTHER_VERSION, Cause::Version),
];

#[test]
fn a_member_holds_one_record(rt: HostRuntime) -> Result<(), Refused> {
    for (member, cause) in REFUSED {
        assert!(rt; holds(rt.alloc(), member, &[], Some((0, *cause)))?);
        let behind = joined(rt.alloc(), &[EMPTY_MEMBER, member])?;
        assert!(rt; holds(rt.alloc(), &behind, &[], Some((20, *cause)))?);
    }
    Ok(())
}
