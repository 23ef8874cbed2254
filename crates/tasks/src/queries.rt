//! The answers to queries.
ghost use Rattle.std.specs.Prelude.{◌≡◌, map};
ghost use Rattle.command_line.specs.Words.{texts};
ghost use Rattle.tasks.specs.Opening.{OpensFirst, AreUnopenedIndexes};
ghost use Rattle.tasks.specs.Queries.{AnswersPages, AnswersQuery, ReadsFirst, ReadsQuery};
ghost use Rattle.tasks.specs.Writes.{CountsWrites};

use crate::opening::{Opener, open_indexes};
use outcomes::{Console, Outcome, answered_outcome, say_refusal};
use query_core::{Query, answer, pages};
use std::rt::Runtime;
use warc_core::Output;

/// Writes the page that the query text asks for over the indexes of these names. Faults are
/// reported on standard error.
pub fn answer_query<R: Runtime + AllocGlobal, F: Opener, O: Output>(
    console: &Console<R>,
    files: &F,
    query: &str,
    names: &[String],
    out: &mut O,
) -> Outcome
    ensures answers { ReadsFirst query.now result (out.new ≡ out.old) (λ query.
        OpensFirst (AreUnopenedIndexes (F.index_failed files.now) (texts names.now) result)
        (out.new ≡ out.old)
        (AnswersQuery query (map (F.index_bytes files.now) (texts names.now))
        (O.written out.old) (O.written out.new) (out.new ≡ out.old) result)) }
    ensures writes { CountsWrites result (O.failures out.old) (O.failures out.new) }
{
    match read_query(console, query) {
        Ok(query) => open_and_answer(console, files, &query, names, out),
        Err(outcome) => outcome,
    }
}

/// Opens the indexes of these names, and writes the page of the query.
fn open_and_answer<R: Runtime + AllocGlobal, F: Opener, O: Output>(
    console: &Console<R>,
    files: &F,
    query: &Query,
    names: &[String],
    out: &mut O,
) -> Outcome
    ensures answers { OpensFirst
        (AreUnopenedIndexes (F.index_failed files.now) (texts names.now) result)
        (out.new ≡ out.old)
        (AnswersQuery query.now (map (F.index_bytes files.now) (texts names.now))
        (O.written out.old) (O.written out.new) (out.new ≡ out.old) result) }
    ensures writes { CountsWrites result (O.failures out.old) (O.failures out.new) }
{
    match open_indexes(console.alloc(), files, names) {
        Ok(mut indexes) => answered_outcome(
            console,
            names,
            answer(console.alloc(), &mut indexes, query, out),
        ),
        Err(outcome) => outcome,
    }
}

/// Writes all pages of the query text, each of its size. The last size is repeated. Faults are
/// reported on standard error.
pub fn write_pages<R: Runtime + AllocGlobal, F: Opener, O: Output>(
    console: &Console<R>,
    files: &F,
    sizes: &[u64],
    query: &str,
    names: &[String],
    out: &mut O,
) -> Outcome
    ensures answers { ReadsFirst query.now result (out.new ≡ out.old) (λ query.
        OpensFirst (AreUnopenedIndexes (F.index_failed files.now) (texts names.now) result)
        (out.new ≡ out.old)
        (AnswersPages query sizes.now (map (F.index_bytes files.now) (texts names.now))
        (O.written out.old) (O.written out.new) (out.new ≡ out.old) result)) }
    ensures writes { CountsWrites result (O.failures out.old) (O.failures out.new) }
{
    match read_query(console, query) {
        Ok(query) => open_and_write_pages(console, files, sizes, &query, names, out),
        Err(outcome) => outcome,
    }
}

/// Opens the indexes of these names, and writes the pages of the query.
fn open_and_write_pages<R: Runtime + AllocGlobal, F: Opener, O: Output>(
    console: &Console<R>,
    files: &F,
    sizes: &[u64],
    query: &Query,
    names: &[String],
    out: &mut O,
) -> Outcome
    ensures answers { OpensFirst
        (AreUnopenedIndexes (F.index_failed files.now) (texts names.now) result)
        (out.new ≡ out.old)
        (AnswersPages query.now sizes.now (map (F.index_bytes files.now) (texts names.now))
        (O.written out.old) (O.written out.new) (out.new ≡ out.old) result) }
    ensures writes { CountsWrites result (O.failures out.old) (O.failures out.new) }
{
    match open_indexes(console.alloc(), files, names) {
        Ok(mut indexes) => answered_outcome(
            console,
            names,
            pages(console.alloc(), &mut indexes, query, sizes, out),
        ),
        Err(outcome) => outcome,
    }
}

/// Reads a query text. Why it is refused is reported on standard error.
pub fn read_query<R: Runtime + AllocGlobal>(
    console: &Console<R>,
    text: &str,
) -> Result<Query, Outcome>
    ensures { ReadsQuery text.now result }
{
    match Query::read(console.alloc(), text) {
        Ok(query) => Ok(query),
        Err(fault) => {
            say_refusal(console, text, fault);
            Err(Outcome::Query(fault))
        }
    }
}
