//! Reports on archives: listings and verifications.
mod listings;
mod verdicts;
mod writes;

use capture_core::CaptureFault;
use fixtures::Refused;
use index_core::IndexFault;
use warc_core::{Cause, Fault};

/// Returns the result of a report. A failed allocation, also one of its output, is an error.
pub fn settled<A: Copy>(answer: Result<A, IndexFault>) -> Result<Result<A, Fault>, Refused> {
    match answer {
        Ok(value) => Ok(Ok(value)),
        Err(IndexFault::Capture(CaptureFault::Archive(fault))) if fault.cause != Cause::Memory => {
            Ok(Err(fault))
        }
        Err(_) => Err(Refused::Memory),
    }
}
