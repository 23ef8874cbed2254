//! The state of a merge.
ghost use Rattle.std.specs.Prelude.{◌≡◌, ◌+◌, ◌-◌, ◌^◌, ◌<◌, [], length, map, max, min, Option};
ghost use Rattle.std.specs.Prelude.{Some, OnOk};
ghost use Rattle.std.specs.List.{sum};
ghost use Rattle.cdxj_core.specs.Members.{member_pair};
ghost use Rattle.merge_core.specs.BoxedLines.{boxed_option, boxed_lines};
ghost use Rattle.merge_core.specs.WaitingLines.{Enqueues, queued};
ghost use Rattle.merge_core.specs.Failures.{TellsReadFault};

use crate::fault::MergeFault;
use crate::keyed_line::KeyedLine;
use crate::line_buffers::LineBuffers;
use crate::line_queue::LineQueue;
use crate::queued_line::QueuedLine;
use crate::range::Range;
use cdxj_core::Line;
use source_core::{Cursor, Source};
use std::alloc::AllocError;

/// Sources that are read side by side.
#[derive(Drop)]
pub struct MergeState {
    /// A cursor for each source, in their order.
    pub cursors: Vec<Cursor>,
    /// The next line of each source whose range has more lines.
    pub queue: LineQueue,
    pub buffers: LineBuffers,
    /// The greatest number of lines held at once: those in the queue, and those of a group. It
    /// saturates at 2^64 - 1.
    pub most_lines: u64,
}

impl MergeState {
    ghost use Rattle.merge_core.specs.MergeInputs.{Aligned, AllMoved, KeepsInputs, Ready};
    ghost use Rattle.merge_core.specs.Gathering.{IsDueAt, ReadOn};
    ghost use Rattle.merge_core.specs.Merging.{EndedGroup};
    ghost use Rattle.merge_core.specs.Spending.{ReadUpto};

    #[inline(always)]
    pub(crate) fn enqueue(
        &mut self,
        line: Option<Box<Line>>,
        source: usize,
    ) -> Result<(), AllocError>
        ensures kept { self.new ≡ record self.old { queue = self.new.queue } }
        ensures queue { Enqueues result (queued source (boxed_option line)) self.old.queue
            self.new.queue }
    {
        match line {
            Some(line) => self.queue.push(QueuedLine::new(line, source)),
            None => Ok(()),
        }
    }

    /// Reads the further lines of a source that have the pair of this one into `rest`.
    fn read_on<S: Source, R: Range>(
        &mut self,
        sources: &mut [S],
        i: usize,
        first: &KeyedLine<'_>,
        range: &R,
        rest: &mut Vec<Box<Line>>,
    ) -> Result<(), MergeFault>
        requires aligned { Aligned (R.past range.now) S.Source sources.old self.old }
        requires inside { i < length sources.old }
        requires due { IsDueAt (R.past range.now) S.text (member_pair first.now) i sources.old
            self.old }
        ensures moved { AllMoved S.Source sources.old self.old sources.new self.new }
        ensures fault { TellsReadFault S.Source result sources.old sources.new }
        ensures read { OnOk result (ReadOn (R.past range.now) S.Source (member_pair first.now) i
            sources.old self.old sources.new self.new (boxed_lines rest.old.items)
            (boxed_lines rest.new.items)) }
        ensures most { ReadUpto (R.past range.now) S.text (member_pair first.now) sources.old
            self.old sources.new self.new }
        ensures most_lines { self.new.most_lines ≡ self.old.most_lines }
    {
        let next = match self
            .buffers
            .read_group(&mut sources[i], &mut self.cursors[i], first, range, rest)
        {
            Ok(next) => next,
            Err(fault) => return Err(MergeFault::Feed(i, fault)),
        };
        self.enqueue(next, i)?;
        Ok(())
    }

    /// Takes the lines of the least pair from all sources. Returns the first of them, and appends
    /// the others to `rest`.
    /// Errors are `Memory`, and `Read`, `BadLine` and `OutOfOrder` with the number of the source.
    #[tactic(auto, using(crate::proofs::MergeLemmas::step_rules))]
    pub fn gather<S: Source, R: Range>(
        &mut self,
        sources: &mut [S],
        range: &R,
        rest: &mut Vec<Box<Line>>,
    ) -> Result<Option<Box<Line>>, MergeFault>
        requires ready { Ready (R.past range.now) S.Source sources.old self.old }
        requires empty { rest.old.items ≡ [] }
        ensures moved { AllMoved S.Source sources.old self.old sources.new self.new }
        ensures fault { TellsReadFault S.Source result sources.old sources.new }
        ensures ready { OnOk result (Ready (R.past range.now) S.Source sources.new self.new) }
        ensures gathered { EndedGroup (R.past range.now) S.Source sources.old self.old result
            sources.new self.new (boxed_lines rest.new.items) }
        ensures most_lines { self.new.most_lines ≡ self.old.most_lines }
    {
        let Some(next) = self.queue.pop() else {
            return Ok(None);
        };
        let pair_start = next.pair_start;
        let mut i = next.source;
        let first = next.line;
        let keyed = KeyedLine::with_start(pair_start, &first);
        'sources: loop {
            self.read_on(sources, i, &keyed, range, rest)?;
            let Some(next) = self.queue.pop_at(&keyed) else {
                return Ok(Some(first));
            };
            i = next.source;
            rest.push(next.line)?;
        }
    }

    /// Counts the lines that are held, and recycles the buffers of those that were passed on.
    pub fn recycle(&mut self, first: Box<Line>, rest: &mut Vec<Box<Line>>)
        ensures kept { KeepsInputs self.old self.new }
        ensures rest { rest.new.items ≡ [] }
        ensures most_lines { self.new.most_lines
            ≡ max self.old.most_lines (min (length self.old.queue + 1 + length rest.old.items)
            (2 ^ 64 - 1)) }
    {
        let waiting = self.queue.len();
        let held = waiting.saturating_add(1).saturating_add(rest.len());
        self.most_lines = self.most_lines.max(held as u64);
        self.buffers.recycle(first);
        while let Some(line) = rest.pop() {
            self.buffers.recycle(line);
        }
    }

    /// Returns the number of lines that were read from all sources. It saturates at 2^64 - 1.
    pub fn lines(&self) -> u64
        ensures { result ≡ min (sum (map (λ c. c.count) self.now.cursors.items)) (2 ^ 64 - 1) }
    {
        let mut lines = 0u64;
        for cursor in &self.cursors {
            lines = lines.saturating_add(cursor.count());
        }
        lines
    }
}
