//! Capturing a record, by `capture_core` alone.
ghost use Rattle.std.specs.Prelude.{◌<◌, ◌≡◌, length, IfOk, IfSome};

use capture_core::{CaptureFault, Entry, Input, Reader, Types, capture};
use std::alloc::Global;

/// Returns the capture of an archive's first record under the archive's name, or `None` if the
/// archive has no record or the record isn't indexed.
///
/// Errors are the archive's fault, and `KeyTooLong`, `LineTooLong` and `Memory`.
pub fn first_capture<I: Input>(
    alloc: Global,
    archive: &mut I,
    name: &str,
) -> Result<Option<Entry>, CaptureFault>
    requires named { 0 < length name.now }
    ensures name { IfOk result (λ found. IfSome found (λ entry. entry.filename ≡ name.now)) }
{
    let mut reader = Reader::new(alloc)?;
    match reader.next(archive)? {
        Some(head) => capture(alloc, &mut reader, archive, &head, name, Types::usual()),
        None => Ok(None),
    }
}
