//! The checking of an index.
ghost use Rattle.std.specs.Prelude.{◌≡◌, ◌↔◌, ◌+◌, ◌≤◌, true, option_map, IfErr};
ghost use Rattle.source_core.specs.Reads.{KeepsSource};
ghost use Rattle.query_core.specs.AnswerCounts.{CountsSource};
ghost use Rattle.query_core.specs.Checking.{FallsAfter, IsChecked, IsCheckFault};

use crate::conversions::fault_of_index;
use crate::fault::AnswerFault;
use cdxj_core::Line;
use merge_core::{KeyedLine, LineBuffers};
use source_core::{Cursor, Source};
use std::alloc::Global;

fn falls_after(previous: &Option<Box<Line>>, line: &Line) -> bool
    ensures { (result ≡ true) ↔ FallsAfter (option_map (λ b. b.value) previous.now) line.now }
{
    match previous {
        Some(previous) => KeyedLine::new(previous)
            .compare_pair(&KeyedLine::new(line))
            .is_gt(),
        None => false,
    }
}

/// Checks an index, and returns the number of its lines.
///
/// Each line must have an entry, and its key and stamp must not be below those of the line before
/// it. At most two lines are held.
///
/// Errors are `Memory`, `Read`, and for the first line at fault `BadLine` or `OutOfOrder`, all of
/// index 0.
pub fn check<S: Source>(alloc: Global, source: &mut S) -> Result<u64, AnswerFault>
    ensures kept { KeepsSource S.Source source.old source.new }
    ensures checked { IsChecked (S.text source.old) (S.extent source.old) result }
    ensures fault { IfErr result IsCheckFault }
    ensures failures { CountsSource result (S.failures source.old) (S.failures source.new) }
    // Each byte of the source is read at most once.
    ensures bytes { S.gave source.new ≤ S.gave source.old + S.extent source.old }
{
    // For the proof alone: the source's known bytes are so many.
    let _size = source.size();
    let mut cursor = Cursor::new(alloc, 0)?;
    let mut buffers = LineBuffers::new(alloc);
    let mut previous: Option<Box<Line>> = None;
    let mut offset = 0;
    'lines: loop {
        let found = match buffers.next_line(source, &mut cursor) {
            Ok(found) => found,
            Err(fault) => return Err(fault_of_index(0, fault)),
        };
        let Some(line) = found else {
            return Ok(cursor.count());
        };
        if falls_after(&previous, &line) {
            return Err(AnswerFault::OutOfOrder(0, offset));
        }
        if let Some(compared) = previous.replace(line) {
            buffers.recycle(compared);
        }
        offset = cursor.at();
    }
}
