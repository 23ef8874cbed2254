//! The writing of bytes, and of a report's lines.
ghost use Rattle.std.specs.Prelude.{◌≡◌, IfErr};
ghost use Rattle.devices.specs.Device.{CountsFailure};
ghost use Rattle.devices.specs.Writing.{WritesText};
ghost use Rattle.index_core.specs.Report.{WritesFault};

use crate::fault::IndexFault;
use crate::lines::{ReportLine, fault_line};
use warc_core::{Fault, Output, put};

/// Writes these bytes. The only error is `Write`. A prefix of them was then written.
pub fn put_bytes<O: Output>(out: &mut O, bytes: &[u8]) -> Result<(), IndexFault>
    ensures bytes { WritesText result (O.written out.old) (O.written out.new) bytes.now }
    ensures refusal { IfErr result (λ fault. fault ≡ IndexFault.Write) }
    ensures failures { CountsFailure result (O.failures out.old) (O.failures out.new) }
{
    match put(out, bytes) {
        Ok(()) => Ok(()),
        Err(_) => Err(IndexFault::Write),
    }
}

/// Writes a line. The only error is `Write`. A prefix of it was then written.
pub fn put_line<O: Output>(out: &mut O, line: &ReportLine) -> Result<(), IndexFault>
    ensures line { WritesText result (O.written out.old) (O.written out.new) line.now.bytes }
    ensures refusal { IfErr result (λ fault. fault ≡ IndexFault.Write) }
    ensures failures { CountsFailure result (O.failures out.old) (O.failures out.new) }
{
    put_bytes(out, line.as_str().as_bytes())
}

/// Writes the line of a fault. Returns that fault, or `Write` if the output fails.
pub fn put_fault<O: Output>(out: &mut O, fault: Fault) -> IndexFault
    ensures { WritesFault fault result (O.written out.old) (O.written out.new) (O.failures out.old)
        (O.failures out.new) }
{
    match put(out, fault_line(fault).as_str().as_bytes()) {
        Ok(()) => IndexFault::from(fault),
        Err(_) => IndexFault::Write,
    }
}
