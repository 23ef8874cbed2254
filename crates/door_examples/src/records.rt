//! Reading records, by `warc_core` alone.
ghost use Rattle.std.specs.Prelude.{IfOk, IfSome};
ghost use Rattle.warc_core.specs.HeadView.{RecordBeginsAt};

use std::alloc::Global;
use warc_core::{Fault, Head, Input, Kind, Reader};

/// Returns the head of an archive's first record, or `None` if the archive is empty.
///
/// The error is `Memory`, `Read` if the input failed, or the cause for which no record begins the
/// archive.
pub fn first_head<I: Input>(alloc: Global, archive: &mut I) -> Result<Option<Head>, Fault>
    ensures begins { IfOk result (λ found. IfSome found (RecordBeginsAt 0)) }
{
    let mut reader = Reader::new(alloc)?;
    let head = reader.next(archive)?;
    Ok(head)
}

/// Returns the number of an archive's records of a type, and of the bytes in their blocks.
///
/// Errors are those of `first_head`, at the offset of the first record that can't be read.
pub fn count_records<I: Input>(
    alloc: Global,
    archive: &mut I,
    kind: Kind,
) -> Result<(u64, u64), Fault> {
    let mut reader = Reader::new(alloc)?;
    let mut count = 0u64;
    let mut bytes = 0u64;
    for _ in 0..u64::MAX {
        let Some(head) = reader.next(archive)? else {
            break;
        };
        if head.kind() == kind {
            count = count.saturating_add(1);
            bytes = bytes.saturating_add(head.length());
        }
    }
    Ok((count, bytes))
}
