//! One pass over sources, from where a query's captures begin.
ghost use Rattle.std.specs.Prelude.{map, IfErr};
ghost use Rattle.merge_core.specs.Collections.{KeepsSources};
ghost use Rattle.query_core.specs.AnswerCounts.{CountsAnswer};
ghost use Rattle.query_core.specs.IndexFaults.{IsAnswerFaultOf};
ghost use Rattle.query_core.specs.Passes.{EndedPass};
ghost use Rattle.query_core.specs.Refusals.{IsBeforeReading};

use crate::fault::AnswerFault;
use crate::start::start_pair;
use crate::target_range::TargetRange;
use devices::Output;
use merge_core::{MergeState, Sink, merge};
use query_text::Query;
use source_core::Source;
use std::alloc::Global;

/// What a pass over sources read. Each count saturates at 2^64 - 1.
#[derive(Drop)]
pub struct Pass {
    /// Whether all lines of the query's range were read, which only contracts read.
    pub all: bool,
    /// The number of steps of the searches for the first line.
    pub probes: u64,
    /// The number of lines read after the searches.
    pub lines: u64,
    /// The greatest number of lines held at once.
    pub held: u64,
}

/// Passes the lines of the query's range to the sink, in the order of places, from its resume key
/// on, until it wants no more.
#[tactic(auto, using(crate::proofs::PageIndexes::pass_rules))]
pub(crate) fn read_lines<S: Source, K: Sink, O: Output>(
    alloc: Global,
    sources: &mut [S],
    query: &Query,
    sink: &mut K,
    out: &mut O,
) -> Result<Pass, AnswerFault>
    ensures kept { KeepsSources S.Source sources.old sources.new }
    ensures failures { CountsAnswer result (map S.failures sources.old) (map S.failures sources.new)
        (O.failures out.old) (O.failures out.new) }
    ensures late { IfErr result (λ e. IsBeforeReading e → ⊥) }
    ensures fault { IfErr result (IsAnswerFaultOf (map S.text sources.old)) }
    ensures ended { EndedPass K.Sink S.Source query.now sources.old sources.new sink.old
        (O.written out.old) result sink.new (O.written out.new) }
{
    let range = TargetRange {
        target: query.target(),
    };
    let mut opened = MergeState::open_at(alloc, sources, start_pair(query), &range)?;
    let all = merge(alloc, sources, &mut opened.merge, &range, sink, out)?;
    Ok(Pass {
        all,
        probes: opened.probes,
        lines: opened.merge.lines(),
        held: opened.merge.most_lines,
    })
}
