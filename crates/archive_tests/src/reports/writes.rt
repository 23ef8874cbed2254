//! Reports whose output fails.
use fixtures::{Refused, cut, damaged_archive};
use index_core::{IndexFault, PlainArchive, list, verify};
use std::alloc::Global;
use warc_core::{Fuse, Gather, Slice};

/// Reports on an archive.
#[derive(Clone, Copy)]
enum Report {
    Listing,
    Verdicts,
}

/// The lines of a response, a resource and a response that is cut off.
const LISTING: &[u8] = b"0 264 response\n264 184 resource\nfault 448 ShortBlock\n";

const VERDICTS: &[u8] = b"0 absent\n264 absent\nfault 448 ShortBlock\n";

/// Returns the fault of a report on an archive.
fn report_fault(
    alloc: Global,
    report: Report,
    archive: &[u8],
    out: &mut Fuse<Gather>,
) -> Option<IndexFault> {
    let mut archive = PlainArchive::new(alloc, Slice::new(archive));
    match report {
        Report::Listing => list(&mut archive, out).err(),
        Report::Verdicts => verify(&mut archive, out).err(),
    }
}

/// Returns `true` if the report, written one byte a call, ends at the first of these calls that fails: what was written
/// before it is there, and no more.
fn stops_at_each_write(
    alloc: Global,
    report: Report,
    archive: &[u8],
    lines: &[u8],
) -> Result<bool, Refused> {
    for length in 0..lines.len() {
        let mut out = Fuse::new(Gather::new(alloc), 1, length as u64 + 1);
        let fault = report_fault(alloc, report, archive, &mut out);
        if out.calls <= length as u64 || is_out_of_memory(out.device.bytes(), lines) {
            return Err(Refused::Memory);
        }
        if fault != Some(IndexFault::Write) || out.device.bytes() != cut(lines, length) {
            return Ok(false);
        }
    }
    Ok(true)
}

/// The reports that end for lack of memory.
const OUT_OF_MEMORY: &[&[u8]] = &[
    b"fault 0 Memory\n",
    b"0 264 response\nfault 264 Memory\n",
    b"0 264 response\n264 184 resource\nfault 448 Memory\n",
    b"0 absent\nfault 264 Memory\n",
    b"0 absent\n264 absent\nfault 448 Memory\n",
];

/// Returns `true` if this is the beginning of such a report, and of no other.
fn is_out_of_memory(text: &[u8], lines: &[u8]) -> bool {
    !lines.starts_with(text) && OUT_OF_MEMORY.iter().any(|report| report.starts_with(text))
}

#[test]
fn a_report_ends_at_a_failed_write(rt: HostRuntime) -> Result<(), Refused> {
    let archive = damaged_archive(rt.alloc())?;
    assert!(rt; stops_at_each_write(rt.alloc(), Report::Listing, &archive, LISTING)?);
    assert!(rt; stops_at_each_write(rt.alloc(), Report::Verdicts, &archive, VERDICTS)?);
    Ok(())
}
