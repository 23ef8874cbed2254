//! The consumers of the lines of a merge.
ghost use Rattle.std.specs.List.{AllByRecursion};
ghost use Rattle.std.specs.Prelude.{◌≡◌, ◌∷◌, ℕ, Option, List, [], map, IfOk};
ghost use Rattle.cdxj_core.specs.Members.{Member};
ghost use Rattle.devices.specs.Device.{Grows};
ghost use Rattle.merge_core.specs.BoxedLines.{boxed_lines};
ghost use Rattle.merge_core.specs.Collections.{in_places};
ghost use Rattle.merge_core.specs.Failures.{CountsHanding};
ghost use Rattle.merge_core.specs.Sinks.{PassesOrBreaks, TakesOrBreaks, TellsMore};
ghost use Rattle.devices.specs.WriteFaults.{CountsWriteFault};
ghost use Rattle.merge_core.specs.SourceLines.{HasEntry};

use crate::fault::MergeFault;
use cdxj_core::{HasPlace, Line};
use cdxj_places::sort_by_place;
use devices::{Output, WriteFault};
use std::alloc::{AllocError, Global};
use std::cmp::Ordering;

/// A consumer of the lines of a merge.
pub trait Sink {
    ghost use Rattle.cdxj_core.specs.Members.{Member};

    /// What was written of the lines that were taken. The first sink and output are those before
    /// the lines, the second those after them.
    ghost Wrote: { Self → Self → List Member → Option (List ℕ) → Option (List ℕ) → Type 0 };

    /// What was written if an error came before the last of these lines was taken.
    ghost Broke: { Self → List Member → Option (List ℕ) → Option (List ℕ) → Type 0 };

    /// No more lines are wanted.
    ghost Enough: { Self → Type 0 };

    /// Takes lines, in the order of places. Returns `false` if no more are wanted.
    /// Errors are `Memory`, and `Write` if the output failed.
    fn take<O: Output>(
        &mut self,
        alloc: Global,
        lines: &[&Line],
        out: &mut O,
    ) -> Result<bool, WriteFault>
        ensures wrote { TakesOrBreaks Wrote Broke result (map (λ l. l.now) lines.now)
            self.old self.new (O.written out.old) (O.written out.new) }
        ensures more { IfOk result (λ more. TellsMore more (Enough self.new)) }
        ensures grows { Grows (O.written out.old) (O.written out.new) }
        ensures failures { CountsWriteFault result (O.failures out.old) (O.failures out.new) };
}

fn references<'a>(
    alloc: Global,
    first: &'a Line,
    rest: &'a [Box<Line>],
) -> Result<Vec<&'a Line>, AllocError>
    ensures { IfOk result (λ v.
        map (λ l. l.now) v.items ≡ first.entry.now ∷ boxed_lines rest.entry.now) }
{
    let mut lines = Vec::with_capacity(alloc, rest.len().saturating_add(1))?;
    lines.push(first)?;
    for line in rest {
        lines.push(&**line)?;
    }
    Ok(lines)
}

/// Returns the lines in the order of places, only the first line at each place.
fn in_places<'a>(
    alloc: Global,
    first: &'a Line,
    rest: &'a [Box<Line>],
) -> Result<Vec<&'a Line>, AllocError>
    ensures { IfOk result (λ v.
        map (λ l. l.now) v.items ≡ in_places (first.entry.now ∷ boxed_lines rest.entry.now)) }
{
    let mut lines = references(alloc, first, rest)?;
    sort_by_place(&mut lines)?;
    Ok(lines)
}

/// Shows that each of the lines has an entry, which is what was read of it. Nothing else is done.
fn have_entries(lines: &[Box<Line>])
    ensures { AllByRecursion HasEntry (boxed_lines lines.now) }
{
    for line in lines {
        // For the proof alone, as below.
        let _bytes = line.line();
    }
}

/// Passes two lines to a sink in the order of places, or only the first if they have one place.
fn take_two<K: Sink, O: Output>(
    alloc: Global,
    first: &Line,
    second: &Line,
    sink: &mut K,
    out: &mut O,
) -> Result<bool, WriteFault>
    ensures wrote { TakesOrBreaks K.Wrote K.Broke result (in_places (first.now ∷ second.now ∷ []))
        sink.old sink.new (O.written out.old) (O.written out.new) }
    ensures more { IfOk result (λ more. TellsMore more (K.Enough sink.new)) }
    ensures grows { Grows (O.written out.old) (O.written out.new) }
    ensures failures { CountsWriteFault result (O.failures out.old) (O.failures out.new) }
{
    match first.compare_place(second) {
        Ordering::Less => sink.take(alloc, &[first, second], out),
        Ordering::Equal => sink.take(alloc, &[first], out),
        Ordering::Greater => sink.take(alloc, &[second, first], out),
    }
}

/// Passes on the lines of a pair, in the order of places, only the first line at each place.
/// Returns `false` if no more are wanted.
/// Errors are `Memory`, and `Write` if the sink returns it.
#[inline(always)]
#[tactic(auto, using(devices::proofs::DeviceLemmas::grows_not))]
pub fn pass_group<K: Sink, O: Output>(
    alloc: Global,
    first: &Line,
    rest: &[Box<Line>],
    sink: &mut K,
    out: &mut O,
) -> Result<bool, MergeFault>
    ensures passed { PassesOrBreaks K.Wrote K.Broke ((sink.new ≡ sink.old) × (out.new ≡ out.old))
        result (in_places (first.now ∷ boxed_lines rest.now)) sink.old sink.new
        (O.written out.old) (O.written out.new) }
    ensures more { IfOk result (λ more. TellsMore more (K.Enough sink.new)) }
    ensures grows { Grows (O.written out.old) (O.written out.new) }
    ensures entries { AllByRecursion HasEntry (first.now ∷ boxed_lines rest.now) }
    ensures failures { CountsHanding result (O.failures out.old) (O.failures out.new) }
{
    // For the proof alone: the bytes of each line have it as their entry.
    let _bytes = first.line();
    have_entries(rest);
    match rest {
        [] => Ok(sink.take(alloc, &[first], out)?),
        [second] => Ok(take_two(alloc, first, second, sink, out)?),
        _ => {
            let lines = in_places(alloc, first, rest)?;
            Ok(sink.take(alloc, &lines, out)?)
        }
    }
}
