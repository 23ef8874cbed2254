//! The writing of an index's lines.
ghost use Rattle.std.specs.Prelude.{◌≡◌, [], length, option_map, slice_get, IfOk, IfErr};
ghost use Rattle.std.specs.List.{cons_option, filter_map};
ghost use Rattle.devices.specs.Device.{CountsFailure};
ghost use Rattle.devices.specs.Writing.{WritesText};
ghost use Rattle.index_core.specs.Indexing.{IsWriteFault, entries_text, index_text, in_places};
ghost use Rattle.index_core.specs.Counting.{CountsIndexWrite};

use crate::fault::IndexFault;
use crate::writing::put_bytes;
use capture_core::HeldLine;
use cdxj_places::{Row, rows_in_order};
use std::alloc::Global;
use warc_core::Output;

fn capture_at(captures: &[HeldLine], number: usize) -> Option<&HeldLine>
    ensures { option_map (λ e. e.now) result ≡ slice_get captures.now number }
{
    captures.get(number)
}

/// Writes the line of the capture that has the row's number, if there is one.
fn put_row<O: Output>(out: &mut O, captures: &[HeldLine], row: Row) -> Result<(), IndexFault>
    ensures line { WritesText result (O.written out.old) (O.written out.new)
        (entries_text (cons_option (slice_get captures.now row.number) [])) }
    ensures refusal { IfErr result (λ fault. fault ≡ IndexFault.Write) }
    ensures failures { CountsFailure result (O.failures out.old) (O.failures out.new) }
{
    match capture_at(captures, row.number) {
        Some(capture) => put_bytes(out, capture.line()),
        None => Ok(()),
    }
}

/// Writes the lines of captures in the order of rows, and returns the number of rows.
fn put_lines<O: Output>(out: &mut O, captures: &[HeldLine], rows: &[Row]) -> Result<u64, IndexFault>
    ensures lines { WritesText result (O.written out.old) (O.written out.new)
        (entries_text (filter_map (λ row. slice_get captures.now row.number) rows.now)) }
    ensures number { IfOk result (λ n. n ≡ length rows.now) }
    ensures refusal { IfErr result (λ fault. fault ≡ IndexFault.Write) }
    ensures failures { CountsIndexWrite result (O.failures out.old) (O.failures out.new) }
{
    for row in rows {
        put_row(out, captures, *row)?;
    }
    Ok(rows.len() as u64)
}

/// Writes the lines of captures in the order of places, and returns their number.
///
/// Errors are `Memory`, before anything is written, and `Write`. A prefix of the lines was then
/// written.
pub fn put_index<O: Output>(
    alloc: Global,
    out: &mut O,
    captures: &[HeldLine],
) -> Result<u64, IndexFault>
    ensures lines { WritesText result (O.written out.old) (O.written out.new)
        (index_text captures.now) }
    ensures number { IfOk result (λ n. n ≡ length (in_places captures.now)) }
    ensures refusals { IfErr result IsWriteFault }
    ensures failures { CountsIndexWrite result (O.failures out.old) (O.failures out.new) }
{
    match rows_in_order(alloc, captures) {
        Ok(rows) => put_lines(out, captures, &rows),
        Err(_) => Err(IndexFault::Memory),
    }
}
