//! Compressed archives whose input fails at one of its reads.
use crate::answers::{opened_indexes, opened_lists, packed_indexes, packed_lists, packed_verifies};
use crate::indexes::BOTH;
use crate::members::{EMPTY_MEMBER, RESOURCE_MEMBER, RESPONSE_MEMBER};
use devices::{Fuse, Slice};
use fixtures::{Refused, joined};
use index_core::{Cause, Fault};
use std::alloc::Global;

/// Returns where the record begins that is read at a byte, in a response of 207 bytes and a
/// resource of 165. Behind them the end is looked for.
fn record_of_byte(byte: u64) -> u64 {
    match byte {
        0..=206 => 0,
        207..=371 => 207,
        _ => 372,
    }
}

/// Returns the lines of the listing of the records before an offset, with the fault of a read
/// there.
fn listing(offset: u64) -> &'static [u8] {
    match offset {
        0 => b"fault 0 Read\n",
        207 => b"0 207 response\nfault 207 Read\n",
        _ => b"0 207 response\n207 165 resource\nfault 372 Read\n",
    }
}

/// The same of a verification.
fn verdicts(offset: u64) -> &'static [u8] {
    match offset {
        0 => b"fault 0 Read\n",
        207 => b"0 absent\nfault 207 Read\n",
        _ => b"0 absent\n207 absent\nfault 372 Read\n",
    }
}

/// Returns `true` if the listing ends at this call, which fails while the record is read that
/// begins at the offset.
fn listing_ends(
    alloc: Global,
    archive: &[u8],
    (piece, call): (usize, u64),
    offset: u64,
) -> Result<bool, Refused> {
    let cause = Cause::Read;
    let fault = Fault { offset, cause };
    let input = Fuse::new(Slice::new(archive), piece, call);
    packed_lists(alloc, input, listing(offset), Err(fault))
}

/// Returns `true` if each report on the archive, read one byte a call, ends at this call, which
/// fails while the record is read that begins at the offset.
fn ends_at_call(alloc: Global, archive: &[u8], call: u64, offset: u64) -> Result<bool, Refused> {
    let cause = Cause::Read;
    let fault = Fault { offset, cause };
    let input = || Fuse::new(Slice::new(archive), 1, call);
    Ok(
        listing_ends(alloc, archive, (1, call), offset)?
            && packed_verifies(alloc, input(), verdicts(offset), Err(fault))?
            && packed_indexes(alloc, input(), BOTH, Err(fault))?,
    )
}

/// At one byte a call, the call `n` reads the byte before `n`, counted from 0.
#[test]
fn a_listing_ends_at_a_failed_read_of_any_byte(rt: HostRuntime) -> Result<(), Refused> {
    let archive = joined(rt.alloc(), &[RESPONSE_MEMBER, RESOURCE_MEMBER])?;
    for byte in 0..373 {
        let offset = record_of_byte(byte);
        assert!(rt;
            listing_ends(rt.alloc(), &archive, (1, byte + 1), offset)?,
            "{byte}"
        );
    }
    Ok(())
}

/// At these bytes a header, a block or a trailer begins or ends.
#[test]
fn each_report_ends_at_a_failed_read(rt: HostRuntime) -> Result<(), Refused> {
    let archive = joined(rt.alloc(), &[RESPONSE_MEMBER, RESOURCE_MEMBER])?;
    for byte in [
        0, 1, 2, 9, 10, 11, 100, 198, 199, 205, 206, 207, 208, 216, 217, 218, 300, 363, 364, 370,
        371, 372,
    ] {
        let offset = record_of_byte(byte);
        assert!(rt;
            ends_at_call(rt.alloc(), &archive, byte + 1, offset)?,
            "{byte}"
        );
    }
    Ok(())
}

/// Lengths of pieces, and the bytes at which they start. The last call looks for the end.
const PIECES: &[(usize, &[u64])] = &[
    (50, &[0, 50, 100, 150, 200, 250, 300, 350, 372]),
    (100, &[0, 100, 200, 300, 372]),
    (207, &[0, 207, 372]),
    (300, &[0, 300, 372]),
    (1_000, &[0, 372]),
];

/// A piece is read only if what is held isn't enough. So the fault is at the record of the piece's
/// first byte.
#[test]
fn a_listing_ends_at_a_failed_read_of_a_piece(rt: HostRuntime) -> Result<(), Refused> {
    let alloc = rt.alloc();
    let archive = joined(alloc, &[RESPONSE_MEMBER, RESOURCE_MEMBER])?;
    for (piece, starts) in PIECES {
        for (number, start) in starts.iter().enumerate() {
            let byte = *start;
            let at = (*piece, number as u64 + 1);
            assert!(rt;
                listing_ends(alloc, &archive, at, record_of_byte(byte))?,
                "{piece} {byte}"
            );
        }
    }
    Ok(())
}

/// Calls that fail in two empty members of 20 bytes and a resource of 165, with the offsets and
/// lines at which the listing ends.
const FAILED_CALLS: &[(u64, u64, &[u8])] = &[
    (1, 0, b"fault 0 Read\n"),
    (20, 0, b"fault 0 Read\n"),
    (21, 20, b"fault 20 Read\n"),
    (40, 20, b"fault 20 Read\n"),
    (41, 40, b"fault 40 Read\n"),
    (205, 40, b"fault 40 Read\n"),
    (206, 205, b"40 165 resource\nfault 205 Read\n"),
];

/// An empty member of 20 bytes is no record, and a read that fails in it is its fault.
#[test]
fn a_failed_read_in_a_member_without_a_record_has_its_offset(
    rt: HostRuntime,
) -> Result<(), Refused> {
    let alloc = rt.alloc();
    let archive = joined(alloc, &[EMPTY_MEMBER, EMPTY_MEMBER, RESOURCE_MEMBER])?;
    let cause = Cause::Read;
    for (call, offset, lines) in FAILED_CALLS {
        let input = Fuse::new(Slice::new(&archive), 1, *call);
        let offset = *offset;
        assert!(rt;
            packed_lists(alloc, input, lines, Err(Fault { offset, cause }))?,
            "{call}"
        );
    }
    Ok(())
}

/// A call that fails is the first or the second, which see how the archive keeps its records, or a
/// later one.
#[test]
fn an_archive_that_is_opened_ends_at_a_failed_read(rt: HostRuntime) -> Result<(), Refused> {
    let archive = joined(rt.alloc(), &[RESPONSE_MEMBER, RESOURCE_MEMBER])?;
    let cause = Cause::Read;
    for call in [1, 2, 3, 4, 206, 207, 208, 209, 371, 372, 373] {
        let offset = record_of_byte(call - 1);
        let fault = Fault { offset, cause };
        assert!(rt;
            opened_lists(
                rt.alloc(),
                Fuse::new(Slice::new(&archive), 1, call),
                listing(offset),
                Err(fault)
            )?,
            "{call}"
        );
        assert!(rt;
            opened_indexes(
                rt.alloc(),
                Fuse::new(Slice::new(&archive), 1, call),
                BOTH,
                Err(fault)
            )?,
            "{call}"
        );
    }
    Ok(())
}
