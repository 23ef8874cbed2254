//! The lines of a source that have one pair.
ghost use Rattle.std.specs.Prelude.{[], Some, IfOk};
ghost use Rattle.source_core.specs.Device.{OverText};
ghost use Rattle.cdxj_core.specs.Members.{member_pair};
ghost use Rattle.merge_core.specs.BoxedLines.{boxed_option, boxed_lines};
ghost use Rattle.merge_core.specs.Failures.{TellsFeedFault};
ghost use Rattle.merge_core.specs.MergeInputs.{IsInput, Moved, input_of};
ghost use Rattle.merge_core.specs.Gathering.{IsDue, ReadGroup};
ghost use Rattle.merge_core.specs.Spending.{ReadTo};

use crate::fault::FeedFault;
use crate::keyed_line::KeyedLine;
use crate::line_buffers::LineBuffers;
use crate::range::Range;
use cdxj_core::Line;
use source_core::{Cursor, Source};
use std::cmp::Ordering;

impl LineBuffers {
    /// Reads the further lines of a source that have the pair of this one into `rest`. Returns the
    /// line after them, unless its key is past the range.
    /// Errors are `Memory`, `Read`, `BadLine` and `OutOfOrder`.
    pub fn read_group<S: Source, R: Range>(
        &mut self,
        source: &mut S,
        cursor: &mut Cursor,
        first: &KeyedLine<'_>,
        range: &R,
        rest: &mut Vec<Box<Line>>,
    ) -> Result<Option<Box<Line>>, FeedFault>
        requires input { IsInput (R.past range.now) (S.text source.old) (S.extent source.old)
            (input_of cursor.old []) }
        requires due { IsDue (R.past range.now) (member_pair first.now) (S.text source.old)
            (input_of cursor.old []) }
        ensures moved { Moved S.Source source.old source.new cursor.old cursor.new }
        ensures fault { TellsFeedFault S.Source result source.old source.new }
        ensures read { IfOk result (λ o. ReadGroup (R.past range.now) (member_pair first.now)
            S.Source source.new cursor.old (input_of cursor.new (boxed_option o))
            (boxed_lines rest.old.items) (boxed_lines rest.new.items)) }
        ensures most { OverText (S.text source.old) (λ t.
            ReadTo (R.past range.now) (Some (member_pair first.now)) t cursor.new) }
    {
        let mut begin = cursor.at();
        while let Some(line) = self.next_line(source, cursor)? {
            match KeyedLine::new(&line).compare_pair(first) {
                Ordering::Less => return Err(FeedFault::OutOfOrder(begin)),
                Ordering::Greater => return Ok(self.within(Some(line), range)),
                Ordering::Equal => rest.push(line)?,
            }
            begin = cursor.at();
        }
        Ok(None)
    }
}
