//! The answer to a query over indexes.
ghost use Rattle.std.specs.Prelude.{◌≡◌, length, map, IfOk, IfErr};
ghost use Rattle.merge_core.specs.Collections.{KeepsSources, OverTexts};
ghost use Rattle.merge_core.specs.SourceLines.{HoldsOfLines};
ghost use Rattle.query_core.specs.AnswerCounts.{CountsAnswer};
ghost use Rattle.query_core.specs.Answering.{AnsweredParts, ReadsInReach, WritesAnswer};
ghost use Rattle.query_core.specs.IndexFaults.{IsAnswerFaultOf};
ghost use Rattle.query_core.specs.Refusals.{Refuses, too_many};

use crate::fault::AnswerFault;
use crate::merging::SOURCES_LIMIT;
use crate::page_writer::PageWriter;
use crate::pass::read_lines;
use crate::report::Report;
use devices::Output;
use query_text::Query;
use source_core::Source;
use std::alloc::Global;

/// Writes the page that the query asks for: the captures that it selects from the collection of the
/// indexes, in the order of places, after its resume key and up to its limit. The page ends with
/// the resume key of the next page if the query shows it and a further capture follows. If the
/// query collapses captures, a capture is left out whose part is that of the capture before it. The
/// first capture after a resume key is left out if its part is that of the key's place.
///
/// Returns `TooManySources` for more than `SOURCES_LIMIT` indexes, before it reads or writes.
/// `BadLine` and `OutOfOrder` name a line because of which the text is not an index; only the lines
/// that are read are checked. `Read` names the index that failed, `Write` comes at the output's
/// first failure, and `Memory` if memory could not be allocated. After an error, a prefix of the
/// page was written.
///
/// A binary search finds where the page begins in each index. From there on, lines of the target's
/// range are read, up to the key and stamp of the first capture after the page, and at most one
/// more line of each index. Each capture is written before a line is read that stands behind the
/// next key and stamp of its index.
#[tactic(auto, using(crate::proofs::PagesReach::answer_rules))]
pub fn answer<S: Source, O: Output>(
    alloc: Global,
    sources: &mut [S],
    query: &Query,
    out: &mut O,
) -> Result<Report, AnswerFault>
    ensures refused { Refuses (too_many (length sources.old)) result
        ((sources.new ≡ sources.old) × (out.new ≡ out.old)) }
    ensures kept { KeepsSources S.Source sources.old sources.new }
    ensures failures { CountsAnswer result (map S.failures sources.old) (map S.failures sources.new)
        (O.failures out.old) (O.failures out.new) }
    ensures fault { IfErr result (IsAnswerFaultOf (map S.text sources.old)) }
    ensures page { HoldsOfLines (map S.text sources.old) (λ lines.
        WritesAnswer query.now lines result (O.written out.old) (O.written out.new)) }
    ensures parts { OverTexts (map S.text sources.old) (λ texts.
        IfOk result (AnsweredParts query.now texts (O.written out.old) (O.written out.new))) }
    ensures reads { ReadsInReach S.Source query.now (O.written out.old) (O.written out.new)
        sources.old sources.new result }
{
    if sources.len() > SOURCES_LIMIT {
        return Err(AnswerFault::TooManySources);
    }
    // The page's start is written before an index is read.
    let mut writer = PageWriter::begin(alloc, query, query.limit(), &[], out)?;
    let pass = read_lines(alloc, sources, query, &mut writer, out)?;
    let end = writer.end(alloc, out)?;
    Ok(Report {
        given: end.given,
        more: end.next.is_some(),
        probes: pass.probes,
        lines: pass.lines,
        held: pass.held,
    })
}
