//! Conversations over indexes.
ghost use Rattle.std.specs.Prelude.{◌≡◌, map};
ghost use Rattle.command_line.specs.Words.{texts};
ghost use Rattle.tasks.specs.Opening.{OpensFirst, AreUnopenedIndexes};
ghost use Rattle.tasks.specs.Queries.{AnswersLines};
ghost use Rattle.tasks.specs.Writes.{CountsWrites};

use crate::opening::{Opener, open_remembering};
use outcomes::{Console, Outcome, answered_outcome};
use query_core::serve;
use std::rt::Runtime;
use warc_core::{Input, Output};

/// Answers the queries of an input over the indexes of these names. All indexes are opened before a
/// line is read. Faults are reported on standard error.
pub fn serve_all<R: Runtime + AllocGlobal, F: Opener, I: Input, O: Output>(
    console: &Console<R>,
    files: &F,
    names: &[String],
    input: &mut I,
    out: &mut O,
) -> Outcome
    ensures answers { OpensFirst
        (AreUnopenedIndexes (F.index_failed files.now) (texts names.now) result)
        (out.new ≡ out.old)
        (AnswersLines (map (F.index_bytes files.now) (texts names.now)) (I.remaining input.old)
        (O.written out.old) (O.written out.new) (out.new ≡ out.old) result) }
    ensures writes { CountsWrites result (O.failures out.old) (O.failures out.new) }
{
    match open_remembering(console.alloc(), files, names) {
        Ok(mut indexes) => answered_outcome(
            console,
            names,
            serve(console.alloc(), &mut indexes, input, out),
        ),
        Err(outcome) => outcome,
    }
}
