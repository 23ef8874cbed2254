//! The merging of whole indexes.
ghost use Rattle.std.specs.Prelude.{◌≤◌, ◌+◌, length, map, IfOk};
ghost use Rattle.merge_core.specs.Collections.{AreIndexes, KeepsSources, OverTexts};
ghost use Rattle.merge_core.specs.Counts.{OverShares};
ghost use Rattle.merge_core.specs.Failures.{TellsMergeFault};
ghost use Rattle.merge_core.specs.SourceLines.{HoldsOfLines, WritesLines};
ghost use Rattle.merge_core.specs.Spending.{AllGaveOnce};

use crate::fault::MergeFault;
use crate::line_writer::LineWriter;
use crate::merging::merge;
use crate::range::All;
use crate::state::MergeState;
use cdxj_core::LEAST_PAIR;
use devices::Output;
use source_core::Source;
use std::alloc::Global;

/// What a merge did.
#[derive(Drop)]
pub struct MergedLines {
    /// The number of lines written. It saturates at 2^64 - 1.
    pub count: u64,
    /// The greatest number of lines held at once.
    pub most_lines: u64,
}

/// Writes the collection of the indexes: their lines in the order of places, only the first line at
/// each place.
///
/// One line of each source is held, and the lines of one key and stamp. After an error, lines that
/// rise by place were written, the last of them in whole or in part. If all sources are indexes,
/// they are the first lines of the collection. Errors are `Memory`, `Write` if the output failed,
/// and those of a source, with its number.
#[tactic(auto, using(devices::proofs::WritingLemmas::wrote_nothing))]
pub fn merge_indexes<S: Source, O: Output>(
    alloc: Global,
    sources: &mut [S],
    out: &mut O,
) -> Result<MergedLines, MergeFault>
    ensures kept { KeepsSources S.Source sources.old sources.new }
    ensures fault { TellsMergeFault S.Source O.Output result sources.old sources.new
        out.old out.new }
    ensures merged { HoldsOfLines (map S.text sources.old)
        (WritesLines (λ merged. merged.count) result (O.written out.old) (O.written out.new)) }
    ensures indexes { OverTexts (map S.text sources.old) (λ texts.
        IfOk result (λ _. AreIndexes texts)) }
    ensures bytes { AllGaveOnce S.Source sources.old sources.new }
    ensures most_lines { OverShares (map S.text sources.old) (λ most.
        IfOk result (λ merged. merged.most_lines ≤ length sources.old + most)) }
{
    let mut opened = MergeState::open_at(alloc, sources, LEAST_PAIR, &All)?;
    let mut writer = LineWriter::new();
    merge(alloc, sources, &mut opened.merge, &All, &mut writer, out)?;
    Ok(MergedLines {
        count: writer.count,
        most_lines: opened.merge.most_lines,
    })
}
