//! The merging of several sources.
ghost use Rattle.std.specs.Prelude.{◌≡◌, []};
ghost use Rattle.merge_core.specs.Counts.{HoldsFew};
ghost use Rattle.merge_core.specs.Failures.{TellsMergeFault};
ghost use Rattle.merge_core.specs.MergeInputs.{AllMoved, Ready, inputs};
ghost use Rattle.merge_core.specs.Gathering.{EachDone};
ghost use Rattle.merge_core.specs.Merging.{EndedMerge, point_of};

use crate::fault::MergeFault;
use crate::range::Range;
use crate::sink::{Sink, pass_group};
use crate::state::MergeState;
use devices::Output;
use source_core::Source;
use std::alloc::Global;

/// Passes the lines of all sources to the sink, one pair after another. Returns `false` if the sink
/// wanted no more lines.
/// Errors are those of the sources and of the sink.
#[tactic(auto, using(crate::proofs::MergeLemmas::step_rules))]
pub fn merge<S: Source, R: Range, K: Sink, O: Output>(
    alloc: Global,
    sources: &mut [S],
    merge: &mut MergeState,
    range: &R,
    sink: &mut K,
    out: &mut O,
) -> Result<bool, MergeFault>
    requires ready { Ready (R.past range.now) S.Source sources.old merge.old }
    requires fresh { EachDone (R.past range.now) S.text (λ ms. ms ≡ []) sources.old
        (inputs merge.old) }
    ensures moved { AllMoved S.Source sources.old merge.old sources.new merge.new }
    ensures fault { TellsMergeFault S.Source O.Output result sources.old sources.new
        out.old out.new }
    ensures most_lines { HoldsFew S.Source sources.old merge.old.most_lines merge.new.most_lines }
    ensures ended { EndedMerge K.Sink (R.past range.now) S.Source
        (point_of sources.old merge.old sink.old (O.written out.old)) result
        (point_of sources.new merge.new sink.new (O.written out.new)) }
{
    let mut rest = Vec::new(alloc);
    while let Some(first) = merge.gather(sources, range, &mut rest)? {
        let more = pass_group(alloc, &first, &rest, sink, out)?;
        merge.recycle(first, &mut rest);
        if !more {
            return Ok(false);
        }
    }
    Ok(true)
}
