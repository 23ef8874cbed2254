//! The merging of indexes.
ghost use Rattle.std.specs.Prelude.{◌≡◌, length, map, IfOk, IfErr};
ghost use Rattle.merge_core.specs.Collections.{AreIndexes, KeepsSources, OverTexts};
ghost use Rattle.merge_core.specs.SourceLines.{HoldsOfLines, WritesLines};
ghost use Rattle.merge_core.specs.Spending.{AllGaveOnce};
ghost use Rattle.query_core.specs.AnswerCounts.{CountsAnswer};
ghost use Rattle.query_core.specs.IndexFaults.{IsAnswerFaultOf};
ghost use Rattle.query_core.specs.Refusals.{Refuses, too_many};

use crate::fault::AnswerFault;
use devices::Output;
use merge_core::merge_indexes;
use source_core::Source;
use std::alloc::Global;

/// The greatest number of indexes that a call accepts.
pub const SOURCES_LIMIT: usize = 1_024;

/// Merges indexes: writes their lines in the order of places, each as it stands in its index, only
/// the first line at each place. Returns the number of lines written.
///
/// Returns `TooManySources` for more than `SOURCES_LIMIT` indexes, before it reads or writes.
/// `BadLine` and `OutOfOrder` name a line because of which the text is not an index. If there are
/// several, which one is named is not specified. `Read` names the index that failed, `Write` comes
/// at the output's first failure, and `Memory` if memory could not be allocated. After an error,
/// lines that rise by place were written, the last of them in whole or in part.
///
/// One line of each index is held, and the lines of one key and stamp.
#[tactic(auto, using(crate::proofs::PageIndexes::merge_rules))]
pub fn merge<S: Source, O: Output>(
    alloc: Global,
    sources: &mut [S],
    out: &mut O,
) -> Result<u64, AnswerFault>
    ensures refused { Refuses (too_many (length sources.old)) result
        ((sources.new ≡ sources.old) × (out.new ≡ out.old)) }
    ensures kept { KeepsSources S.Source sources.old sources.new }
    ensures failures { CountsAnswer result (map S.failures sources.old) (map S.failures sources.new)
        (O.failures out.old) (O.failures out.new) }
    ensures fault { IfErr result (IsAnswerFaultOf (map S.text sources.old)) }
    ensures merged { HoldsOfLines (map S.text sources.old)
        (WritesLines (λ number. number) result (O.written out.old) (O.written out.new)) }
    ensures indexes { OverTexts (map S.text sources.old) (λ texts.
        IfOk result (λ _. AreIndexes texts)) }
    // Each byte of a source is read at most once.
    ensures bytes { AllGaveOnce S.Source sources.old sources.new }
{
    if sources.len() > SOURCES_LIMIT {
        return Err(AnswerFault::TooManySources);
    }
    let merged = merge_indexes(alloc, sources, out)?;
    Ok(merged.count)
}
