//! Scans whose archives or output fail, and those of many archives.
ghost use Rattle.std.specs.Prelude.{IfOk};
ghost use Rattle.std.specs.List.{AllByRecursion};
ghost use Rattle.scan_core.specs.State.{IsUnread};

use crate::runs::{Devices, PAGED, PAGES, SOUND, scanned, with_memory};
use capture_core::{CaptureFault, Types};
use devices::{Fuse, Gather, Slice};
use fixtures::{RESOURCE, Refused};
use index_core::{IndexFault, PlainArchive};
use query_core::AnswerFault;
use scan_core::{Named, ScanFault, scan};
use std::alloc::Global;
use std::test::Fail;
use warc_core::{Cause, Fault};

/// Returns `true` if the scan ends if an archive fails at this call, before anything is written.
fn ends_unread(alloc: Global, devices: Devices, offset: u64) -> Result<bool, Fail> {
    let (answer, out) = scanned(alloc, &PAGED, Types::usual(), devices)?;
    let fault = CaptureFault::Archive(Fault {
        offset,
        cause: Cause::Read,
    });
    let is_named = answer == Err(ScanFault::Archive(devices.archive, IndexFault::Capture(fault)));
    Ok(is_named && out.device.bytes().is_empty())
}

/// An archive's number, and how many calls its input has: at one byte each, the last of which finds the end, and at 100
/// bytes each.
const READS: &[(usize, u64, u64)] = &[(0, 265, 4), (1, 449, 6)];

/// Returns where the record begins that is read at a call after this many bytes. One begins at 0 and one at 264. The
/// longer archive ends at 448.
fn record_behind(bytes: u64) -> u64 {
    match bytes {
        0..=263 => 0,
        264..=447 => 264,
        _ => 448,
    }
}

/// Returns `true` if each call of the archive's input ends the scan if it fails. There are this many calls, each of this
/// many bytes.
fn ends_at_each_read(
    alloc: Global,
    archive: usize,
    read_at_once: usize,
    calls: u64,
) -> Result<bool, Fail> {
    for failing_read in 1..calls.saturating_add(1) {
        let devices = Devices {
            read_at_once,
            archive,
            failing_read,
            ..SOUND
        };
        let offset = record_behind((failing_read - 1).saturating_mul(read_at_once as u64));
        if !ends_unread(alloc, devices, offset)? {
            return Ok(false);
        }
    }
    Ok(true)
}

#[test]
fn scans_say_which_archive_failed(rt: HostRuntime) -> Result<(), Fail> {
    for (archive, by_one, by_hundred) in READS {
        assert!(rt;
            ends_at_each_read(rt.alloc(), *archive, 1, *by_one)?,
            "{archive}"
        );
        assert!(rt;
            ends_at_each_read(rt.alloc(), *archive, 100, *by_hundred)?,
            "{archive}"
        );
    }
    Ok(())
}

/// Returns devices whose output takes one byte a call and fails at this call.
fn by_one_byte(failing_write: u64) -> Devices {
    Devices {
        written_at_once: 1,
        failing_write,
        ..SOUND
    }
}

/// Returns `true` if the scan ends if its output fails at this call of one byte, with as many bytes written as there were
/// calls before.
fn ends_unwritten(alloc: Global, write: usize) -> Result<bool, Fail> {
    let (answer, out) = scanned(alloc, &PAGED, Types::usual(), by_one_byte(write as u64))?;
    let is_named = answer == Err(ScanFault::Answer(AnswerFault::Write));
    Ok(is_named && PAGES.get(..write.saturating_sub(1)) == Some(out.device.bytes()))
}

/// Returns `true` if the pages are written in `calls` calls of one byte.
fn is_written_in(alloc: Global, calls: u64) -> Result<bool, Fail> {
    let devices = by_one_byte(calls.saturating_add(1));
    let (answer, out) = scanned(alloc, &PAGED, Types::usual(), devices)?;
    Ok(answer == Ok(2) && out.device.bytes() == PAGES && out.calls == calls)
}

#[test]
fn scans_end_where_their_output_fails(rt: HostRuntime) -> Result<(), Fail> {
    for write in 1..118 {
        assert!(rt; ends_unwritten(rt.alloc(), write)?, "{write}");
    }
    assert!(rt; is_written_in(rt.alloc(), 117)?);
    Ok(())
}

/// Returns archives of one resource each, with numbers as names.
#[tactic(auto, using(crate::proofs::UnreadLemmas::all_more))]
fn numbered(
    alloc: Global,
    count: usize,
) -> Result<Vec<Named<PlainArchive<Fuse<Slice<'static>>>>>, Fail>
    ensures { IfOk result (λ inputs. AllByRecursion (λ n. IsUnread
        (⟦<PlainArchive<Fuse<Slice<'static>>> as index_core::Archive>⟧.state n.archive))
        inputs.items) }
{
    let mut inputs = Vec::new(alloc);
    'archives: for i in 0..count {
        inputs.push(Named {
            name: format!(in alloc; "{i}")?,
            archive: PlainArchive::new(alloc, Fuse::new(Slice::new(RESOURCE), 8_192, 0)),
        })?;
    }
    Ok(inputs)
}

/// Returns `true` if a scan of this many archives has this result, and writes this many bytes, four for each.
fn is_scanned_of(
    alloc: Global,
    count: usize,
    wanted: Result<u64, ScanFault>,
    length: usize,
) -> Result<bool, Fail> {
    let mut inputs = numbered(alloc, count)?;
    let mut out = Gather::new(alloc);
    let query = "key=com,example)/r&fl=length";
    let types = Types::usual();
    let answer = scan(alloc, &mut inputs, types, &[5_000], query, &mut out);
    if answer == Err(ScanFault::Answer(AnswerFault::Write)) {
        return Err(Refused::Memory)?;
    }
    Ok(with_memory(answer, &inputs)? == wanted && out.bytes().len() == length)
}

#[test]
fn scans_take_1024_archives(rt: HostRuntime) -> Result<(), Fail> {
    let too_many = Err(ScanFault::Answer(AnswerFault::TooManySources));
    assert!(rt; is_scanned_of(rt.alloc(), 1_025, too_many, 0)?);
    assert!(rt; is_scanned_of(rt.alloc(), 1_024, Ok(1), 4_096)?);
    Ok(())
}
