//! The listing of an archive: a line for each record.
ghost use Rattle.std.specs.Prelude.{IfErr};
ghost use Rattle.archives.specs.Packing.{form_of};
ghost use Rattle.archives.specs.State.{IsUnread};
ghost use Rattle.index_core.specs.Counting.{CountsIndexWrite, CountsInput};
ghost use Rattle.index_core.specs.Listing.{Lists};
ghost use Rattle.index_core.specs.Report.{IsReportFault};

use crate::fault::IndexFault;
use crate::lines::record_line;
use crate::writing::{put_fault, put_line};
use archives::Archive;
use warc_core::Output;

/// Writes a line `OFFSET LENGTH KIND` for each whole record of the archive, and a last line `fault
/// OFFSET CAUSE` if the archive can't be read to its end. Nothing was read of the archive before.
/// Returns the number of whole records.
///
/// Errors are the archive's fault, `Memory` and `Read` included, after its line was written, and
/// `Write` at the output's first failure.
pub fn list<A: Archive, O: Output>(archive: &mut A, out: &mut O) -> Result<u64, IndexFault>
    requires { IsUnread (A.state archive.old) }
    ensures lists { Lists (form_of (A.state archive.old).packing) (A.state archive.old).ahead result
        (O.written out.old) (O.written out.new) }
    ensures refusals { IfErr result IsReportFault }
    ensures reads { CountsInput result (A.state archive.old).failures
        (A.state archive.new).failures }
    ensures writes { CountsIndexWrite result (O.failures out.old) (O.failures out.new) }
{
    let mut count = 0;
    loop {
        match archive.next_record() {
            Ok(None) => return Ok(count),
            Ok(Some(record)) => {
                put_line(out, &record_line(&record))?;
                count += 1;
                archive.recycle(record.head);
            }
            Err(damage) => return Err(put_fault(out, damage)),
        }
    }
}
