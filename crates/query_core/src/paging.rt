//! The pages of a query over indexes.
ghost use Rattle.std.specs.Prelude.{◌≡◌, length, map, IfOk, IfErr};
ghost use Rattle.merge_core.specs.Collections.{KeepsSources, OverIndexes, OverTexts};
ghost use Rattle.merge_core.specs.SourceLines.{HoldsOfLines};
ghost use Rattle.query_core.specs.AnswerCounts.{CountsAnswer};
ghost use Rattle.query_core.specs.IndexFaults.{IsAnswerFaultOf};
ghost use Rattle.query_core.specs.Paging.{WritesPages, WrotePagesOfParts};
ghost use Rattle.query_core.specs.PagesReach.{GaveInPages};
ghost use Rattle.query_core.specs.Refusals.{Refuses, bad_sizes_or_too_many};

use crate::fault::AnswerFault;
use crate::merging::SOURCES_LIMIT;
use crate::page_writer::PageWriter;
use crate::pass::read_lines;
use crate::sizes::{are_sizes, first_size};
use devices::Output;
use query_text::Query;
use source_core::Source;
use std::alloc::Global;

/// Writes the pages of a query, each of its size, until no page follows, and returns their number.
/// The last size is repeated. Each page goes on where the page before ended. The first begins after
/// the query's own resume key, if it has one. Each page but the last ends with its resume key. The
/// query's limit isn't used, nor whether it shows a resume key.
///
/// The indexes are searched once, and each line of the target's range is read once, whatever the
/// sizes. A page ends when its next capture is read. Each capture is written before a line is read
/// that stands behind the next key and stamp of its index.
///
/// Returns `BadSizes` if there are no sizes, or one of them is 0; then `TooManySources` for more
/// than `SOURCES_LIMIT` indexes. Both come before it reads or writes. The other errors are those of
/// `answer`: `BadLine`, `OutOfOrder`, `Read`, `Write` and `Memory`. After one, a prefix of the
/// pages was written.
#[tactic(auto, using(crate::proofs::PagesReach::pages_rules))]
pub fn pages<S: Source, O: Output>(
    alloc: Global,
    sources: &mut [S],
    query: &Query,
    sizes: &[u64],
    out: &mut O,
) -> Result<u64, AnswerFault>
    ensures refused { Refuses (bad_sizes_or_too_many sizes.now (length sources.old)) result
        ((sources.new ≡ sources.old) × (out.new ≡ out.old)) }
    ensures kept { KeepsSources S.Source sources.old sources.new }
    ensures failures { CountsAnswer result (map S.failures sources.old) (map S.failures sources.new)
        (O.failures out.old) (O.failures out.new) }
    ensures fault { IfErr result (IsAnswerFaultOf (map S.text sources.old)) }
    ensures pages { HoldsOfLines (map S.text sources.old) (λ lines.
        WritesPages query.now lines sizes.now result (O.written out.old) (O.written out.new)) }
    ensures parts { OverTexts (map S.text sources.old) (λ texts.
        IfOk result (WrotePagesOfParts query.now texts sizes.now (O.written out.old)
        (O.written out.new))) }
    // Each capture stands written before a line is read behind the next pair of its index.
    ensures reach { OverIndexes (map S.text sources.old) (λ texts indexes.
        GaveInPages S.Source query.now sizes.now texts indexes (O.written out.old)
        (O.written out.new) sources.old sources.new) }
{
    if !are_sizes(sizes) {
        return Err(AnswerFault::BadSizes);
    }
    if sources.len() > SOURCES_LIMIT {
        return Err(AnswerFault::TooManySources);
    }
    let mut writer = PageWriter::begin(alloc, query, Some(first_size(sizes)), sizes, out)?;
    read_lines(alloc, sources, query, &mut writer, out)?;
    let end = writer.end(alloc, out)?;
    Ok(end.count)
}
