//! The opening of sources at a key and stamp.
ghost use Rattle.std.specs.Prelude.{◌≡◌, ◌≤◌, IfOk, OnOk};
ghost use Rattle.cdxj_places.specs.Pairs.{IsLeast};
ghost use Rattle.cdxj_places.specs.PairViews.{pair_view};
ghost use Rattle.source_core.specs.Halving.{digits};
ghost use Rattle.source_core.specs.Reads.{BeginsIn};
ghost use Rattle.merge_core.specs.Failures.{FeedsFrom, ReadsSources};
ghost use Rattle.merge_core.specs.MergeInputs.{Moved};
ghost use Rattle.merge_core.specs.Spending.{AllGaveOnce, AllOpenedWithin, CameFirst, GaveOnce};
ghost use Rattle.merge_core.specs.Spending.{OpenedWithin, search_steps};

use crate::fault::{FeedFault, MergeFault};
use crate::line_buffers::LineBuffers;
use crate::line_queue::LineQueue;
use crate::range::Range;
use crate::state::MergeState;
use cdxj_core::Pair;
use source_core::{Cursor, Found, Source, search};
use std::alloc::Global;

/// The merge of sources that were opened by a search.
#[derive(Drop)]
pub struct OpenedMerge {
    pub merge: MergeState,
    /// The number of steps of the searches. It saturates at 2^64 - 1.
    pub probes: u64,
}

impl MergeState {
    ghost use Rattle.merge_core.specs.Openings.{AddedSource, Begun, OpenedAt};

    /// Adds a source, and reads the first line after the cursor.
    fn add<S: Source, R: Range>(
        &mut self,
        source: &mut S,
        mut cursor: Cursor,
        range: &R,
    ) -> Result<(), FeedFault>
        requires { BeginsIn S.Source source.old cursor }
        ensures source { FeedsFrom S.Source result source.old source.new }
        ensures most_lines { self.new.most_lines ≡ self.old.most_lines }
        ensures added { OnOk result (AddedSource (R.past range.now) S.Source source.new
            (Moved S.Source source.old source.new cursor) self.old self.new) }
        ensures spent { CameFirst S.Source source.old source.new cursor }
        ensures once { GaveOnce S.Source source.old source.new }
    {
        let next = self.buffers.next_line(source, &mut cursor)?;
        let first = self.buffers.within(next, range);
        let number = self.cursors.len();
        self.cursors.push(cursor)?;
        self.enqueue(first, number)?;
        Ok(())
    }

    /// Adds a source, and reads its first line whose pair isn't below this one. Returns the number
    /// of steps of the search for that line.
    fn add_from<S: Source, R: Range>(
        &mut self,
        alloc: Global,
        source: &mut S,
        start: Pair<'_>,
        range: &R,
    ) -> Result<u64, FeedFault>
        ensures source { FeedsFrom S.Source result source.old source.new }
        ensures probes { IfOk result (λ n. n ≤ digits (S.extent source.old)) }
        ensures most_lines { self.new.most_lines ≡ self.old.most_lines }
        ensures added { OnOk result (AddedSource (R.past range.now) S.Source source.new
            (OpenedAt S.Source (pair_view start.entry) source.old source.new) self.old self.new) }
        ensures spent { OpenedWithin S.Source source.old source.new }
        ensures once { IsLeast (pair_view start.entry) → GaveOnce S.Source source.old source.new }
    {
        let Found { cursor, probes } = search(alloc, source, start)?;
        self.add(source, cursor, range)?;
        Ok(probes)
    }

    /// Opens each source at its first line whose pair isn't below this one, and reads that line.
    /// With an empty key that is the first line of each source, and no search is made for it.
    ///
    /// Errors are `Memory`, and `Read`, `BadLine` and `OutOfOrder` with the number of the source.
    pub fn open_at<S: Source, R: Range>(
        alloc: Global,
        sources: &mut [S],
        start: Pair<'_>,
        range: &R,
    ) -> Result<OpenedMerge, MergeFault>
        ensures sources { ReadsSources S.Source result sources.old sources.new }
        ensures spent { AllOpenedWithin S.Source sources.old sources.new }
        ensures once { IsLeast (pair_view start.entry) → AllGaveOnce S.Source sources.old
            sources.new }
        ensures begun { IfOk result (λ o. Begun (R.past range.now) S.Source (pair_view start.entry)
            sources.old sources.new o.merge) }
        ensures probes { IfOk result (λ o. o.probes ≤ search_steps S.Source sources.old) }
    {
        let mut merge = MergeState {
            cursors: Vec::new(alloc),
            queue: LineQueue::new(alloc),
            buffers: LineBuffers::new(alloc),
            most_lines: 0,
        };
        let mut probes = 0u64;
        for i in 0..sources.len() {
            match merge.add_from(alloc, &mut sources[i], start, range) {
                Ok(turns) => probes = probes.saturating_add(turns),
                Err(fault) => return Err(MergeFault::Feed(i, fault)),
            }
        }
        Ok(OpenedMerge { merge, probes })
    }
}
