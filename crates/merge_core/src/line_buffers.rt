//! The reading of lines into reused buffers.
ghost use Rattle.std.specs.Prelude.{◌≡◌, ◌+◌, ◌<◌, ◌≤◌, true, length, drop, Some, None};
ghost use Rattle.std.specs.Prelude.{IfOk, IfErr, OnOk};
ghost use Rattle.source_core.specs.Device.{OverText};
ghost use Rattle.std.specs.List.{list_all};
ghost use Rattle.cdxj_core.specs.Plain.{is_printable_ascii};
ghost use Rattle.cdxj_core.specs.Lines.{body_of};
ghost use Rattle.cdxj_places.specs.TextLines.{lines};
ghost use Rattle.merge_core.specs.Failures.{CountsFeed};
ghost use Rattle.source_core.specs.IndexLines.{first_length};
ghost use Rattle.source_core.specs.Reads.{StandsIn};
ghost use Rattle.merge_core.specs.MergeInputs.{Moved, stays};
ghost use Rattle.std.specs.List.{filter};
ghost use Rattle.merge_core.specs.LineFaults.{GivesEntry, IsFeedFaultAt, IsOfLineAt, line_fault};
ghost use Rattle.merge_core.specs.NextLine.{IsLineRead, IsNextLine, MovesOn};
ghost use Rattle.merge_core.specs.BoxedLines.{boxed_option, boxed_line};

use crate::fault::FeedFault;
use crate::range::Range;
use cdxj_core::{Line, LineFault};
use json::Scratch;
use source_core::{Cursor, LineBytes, LineReadFault, Source};
use std::alloc::Global;

/// Returns the line of these bytes in a buffer of its own. It is apart, so that reading into a
/// reused buffer needs no room for another line.
#[cold]
#[inline(never)]
#[tactic(auto, using(crate::proofs::InputLemmas::no_entry))]
fn new_line(alloc: Global, bytes: &[u8]) -> Result<Box<Line>, LineFault>
    ensures { GivesEntry result bytes.now }
{
    match Box::new(alloc, Line::read(alloc, bytes)?) {
        Ok(line) => Ok(line),
        Err(_) => Err(LineFault::Memory),
    }
}

/// Returns the line of these bytes, in the buffer of a line that isn't needed any more if there is
/// one.
#[tactic(auto, using(crate::proofs::InputLemmas::no_entry))]
fn line_of(
    alloc: Global,
    spare: &mut Vec<Box<Line>>,
    bytes: &[u8],
    kind: LineBytes,
    scratch: &mut Option<Box<Scratch>>,
) -> Result<Box<Line>, LineFault>
    requires { kind ≡ LineBytes.Printable → list_all is_printable_ascii (body_of bytes.now) ≡ true }
    ensures { GivesEntry result bytes.now }
{
    match spare.pop() {
        Some(mut line) => {
            match kind {
                LineBytes::Any => line.refill(bytes, scratch)?,
                LineBytes::Printable => line.refill_printable(bytes, scratch)?,
            }
            Ok(line)
        }
        None => new_line(alloc, bytes),
    }
}

/// Returns the fault of a source whose line at this offset has this fault.
fn fault_at(begin: u64, fault: LineFault) -> FeedFault
    ensures { result ≡ line_fault begin fault }
{
    match fault {
        LineFault::Memory => FeedFault::Memory,
        LineFault::LineTooLong => FeedFault::BadLine(begin),
        LineFault::BadLine => FeedFault::BadLine(begin),
    }
}

/// Buffers of lines that aren't needed any more, into which further lines are read.
#[derive(Drop)]
pub struct LineBuffers {
    alloc: Global,
    bytes: Vec<u8>,
    spare: Vec<Box<Line>>,
    scratch: Option<Box<Scratch>>,
}

impl LineBuffers {
    /// Creates an empty set of buffers.
    pub fn new(alloc: Global) -> LineBuffers {
        LineBuffers {
            alloc,
            bytes: Vec::new(alloc),
            spare: Vec::new(alloc),
            scratch: None,
        }
    }

    /// Keeps the line's buffer, if memory can be allocated for that.
    pub fn recycle(&mut self, line: Box<Line>) {
        let _ = self.spare.push(line);
    }

    /// Returns the line, unless its key is past the range.
    pub(crate) fn within<R: Range>(
        &mut self,
        line: Option<Box<Line>>,
        range: &R,
    ) -> Option<Box<Line>>
        ensures { boxed_option result ≡ filter (stays (R.past range.now)) (boxed_option line) }
    {
        let line = line?;
        if range.is_past(line.pair().key) {
            self.recycle(line);
            None
        } else {
            Some(line)
        }
    }

    /// Reads the next line of a source, if there is one.
    /// Errors are `Memory`, `Read` and `BadLine`.
    #[inline(always)]
    pub fn next_line<S: Source>(
        &mut self,
        source: &mut S,
        cursor: &mut Cursor,
    ) -> Result<Option<Box<Line>>, FeedFault>
        requires stands { StandsIn S.Source source.old cursor.old }
        ensures moved { Moved S.Source source.old source.new cursor.old cursor.new }
        ensures failures { CountsFeed S.Source result source.old source.new }
        ensures stands { OnOk result (StandsIn S.Source source.new cursor.new) }
        ensures moves { IfOk result (λ o.
            MovesOn (S.extent source.old) cursor.old cursor.new (boxed_line o)) }
        ensures line { IfOk result (λ o.
            IsLineRead (S.text source.old) cursor.old.at cursor.new.at (boxed_line o)) }
        ensures next { OverText (S.text source.old) (λ t.
            IfOk result (λ o. IsNextLine t cursor.old.at cursor.new.at (boxed_line o))) }
        ensures most { OverText (S.text source.old) (λ t.
            cursor.new.at ≤ cursor.old.at + first_length (lines (drop cursor.old.at t))) }
        ensures ahead { length cursor.new.ahead ≤ 8192 }
        ensures fault { OverText (S.text source.old) (λ t.
            IfErr result (IsFeedFaultAt (lines (drop cursor.old.at t)) cursor.old.at)) }
        ensures names { IfErr result (IsOfLineAt cursor.old.at) }
    {
        let begin = cursor.at();
        if let Some((bytes, kind)) = cursor.held_line() {
            let size = bytes.len();
            let read = line_of(self.alloc, &mut self.spare, bytes, kind, &mut self.scratch);
            cursor.pass_line(source, size);
            return match read {
                Ok(line) => Ok(Some(line)),
                Err(fault) => Err(fault_at(begin, fault)),
            };
        }
        match cursor.next(source, &mut self.bytes) {
            Ok(false) => Ok(None),
            Ok(true) => match line_of(
                self.alloc,
                &mut self.spare,
                &self.bytes,
                LineBytes::Any,
                &mut self.scratch,
            ) {
                Ok(line) => Ok(Some(line)),
                Err(fault) => Err(fault_at(begin, fault)),
            },
            Err(LineReadFault::Memory) => Err(FeedFault::Memory),
            Err(LineReadFault::Read) => Err(FeedFault::Read),
            Err(LineReadFault::Long) => Err(FeedFault::BadLine(begin)),
        }
    }
}
