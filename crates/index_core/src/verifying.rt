//! The verification of an archive: a line for the digest of each block.
ghost use Rattle.std.specs.Prelude.{◌≡◌, IfErr};
ghost use Rattle.archives.specs.Packing.{form_of};
ghost use Rattle.archives.specs.State.{IsUnread};
ghost use Rattle.index_core.specs.Counting.{CountsIndexWrite, CountsInput};
ghost use Rattle.index_core.specs.Report.{IsReportFault};
ghost use Rattle.index_core.specs.Verifying.{Verifies, differing_by};

use crate::fault::IndexFault;
use crate::lines::verdict_line;
use crate::verified::Verified;
use crate::writing::{put_fault, put_line};
use archives::Archive;
use capture_core::Verdict;
use warc_core::Output;

/// Writes a line `OFFSET VERDICT` for each whole record of the archive, and a last line `fault
/// OFFSET CAUSE` if the archive can't be read to its end. Nothing was read of the archive before.
/// The verdict on a block is `same`, `differs`, `not-sha1` or `absent`, by the digest that its
/// record gives. Returns the number of whole records, and the number of those that differ.
///
/// Errors are the archive's fault, `Memory` and `Read` included, after its line was written, and
/// `Write` at the output's first failure.
pub fn verify<A: Archive, O: Output>(archive: &mut A, out: &mut O) -> Result<Verified, IndexFault>
    requires { IsUnread (A.state archive.old) }
    ensures verifies { Verifies (form_of (A.state archive.old).packing)
        (A.state archive.old).ahead result (O.written out.old) (O.written out.new) }
    ensures refusals { IfErr result IsReportFault }
    ensures reads { CountsInput result (A.state archive.old).failures
        (A.state archive.new).failures }
    ensures writes { CountsIndexWrite result (O.failures out.old) (O.failures out.new) }
{
    let mut records = 0;
    let mut differing = 0;
    loop {
        match archive.next_verdict() {
            Ok(None) => return Ok(Verified { records, differing }),
            Ok(Some((record, verdict))) => {
                put_line(out, &verdict_line(record.place.offset, verdict))?;
                records += 1;
                differing += differing_by(verdict);
                archive.recycle(record.head);
            }
            Err(damage) => return Err(put_fault(out, damage)),
        }
    }
}

/// Returns 1 for a block with another digest than its record gives, and 0 for any other.
fn differing_by(verdict: Verdict) -> u64
    ensures { result ≡ differing_by verdict }
{
    match verdict {
        Verdict::Differs => 1,
        _ => 0,
    }
}
