//! The merging of indexes.
ghost use Rattle.std.specs.Prelude.{◌≡◌, map};
ghost use Rattle.command_line.specs.Words.{texts};
ghost use Rattle.tasks.specs.Merging.{MergesIndexes};
ghost use Rattle.tasks.specs.Opening.{OpensFirst, AreUnopenedIndexes};
ghost use Rattle.tasks.specs.Writes.{CountsWrites};

use crate::opening::{Opener, open_indexes};
use outcomes::{Console, Outcome, answered_outcome};
use query_core::merge;
use std::rt::Runtime;
use warc_core::Output;

/// Merges the indexes. All of them are opened before the first is read. Faults of an index are
/// reported on standard error.
pub fn merge_all<R: Runtime + AllocGlobal, F: Opener, O: Output>(
    console: &Console<R>,
    files: &F,
    names: &[String],
    out: &mut O,
) -> Outcome
    ensures merges { OpensFirst
        (AreUnopenedIndexes (F.index_failed files.now) (texts names.now) result)
        (out.new ≡ out.old)
        (MergesIndexes (map (F.index_bytes files.now) (texts names.now))
        (O.written out.old) (O.written out.new) (out.new ≡ out.old) result) }
    ensures writes { CountsWrites result (O.failures out.old) (O.failures out.new) }
{
    match open_indexes(console.alloc(), files, names) {
        Ok(mut indexes) => answered_outcome(
            console,
            names,
            merge(console.alloc(), &mut indexes, out),
        ),
        Err(outcome) => outcome,
    }
}
