//! Answering a query over two indexes in memory, by `query_core` alone.
ghost use Rattle.std.specs.Prelude.{◌≡◌, ◌∷◌, [], List, map, Ok, IfOk};
ghost use Rattle.query_core.specs.Answering.{Answered, WritesAnswer};
ghost use Rattle.query_core.specs.Collections.{OverIndexes, collection};
ghost use Rattle.query_core.specs.Indexes.{IsIndex};
ghost use Rattle.query_core.specs.Limits.{LINE_LIMIT, QUERY_LIMIT};
ghost use Rattle.query_core.specs.Members.{Member};
ghost use Rattle.query_core.specs.Queries.{QueryValue, query_of};

use query_core::{AnswerFault, Output, Query, QueryFault, Report, SliceSource, Source, answer};
use std::alloc::Global;

/// Why a page could not be written.
#[derive(Clone, Copy, Debug, Drop, PartialEq, Eq)]
pub enum PageFault {
    /// The text of the query is refused.
    Query(QueryFault),
    /// The page could not be written.
    Answer(AnswerFault),
}

/// Writes the page of a query over indexes.
pub fn page<S: Source, O: Output>(
    alloc: Global,
    sources: &mut [S],
    query: &Query,
    out: &mut O,
) -> Result<Report, AnswerFault>
    ensures page { OverIndexes (map S.text sources.old) (λ texts indexes.
        WritesAnswer query.now (collection indexes) result (O.written out.old)
        (O.written out.new)) }
{
    answer(alloc, sources, query, out)
}

/// Writes the page of a query over two indexes in memory.
pub fn page_of_two<O: Output>(
    alloc: Global,
    first: &[u8],
    second: &[u8],
    text: &str,
    out: &mut O,
) -> Result<Report, PageFault>
    ensures page { (one two : List Member) → IsIndex LINE_LIMIT first.now one
        → IsIndex LINE_LIMIT second.now two
        → IfOk result (λ report. (query : QueryValue) × (query_of QUERY_LIMIT text.now ≡ Ok query)
        × Answered query (collection (one ∷ two ∷ [])) (O.written out.old) (O.written out.new)
        report) }
{
    let query = match Query::read(alloc, text) {
        Ok(query) => query,
        Err(fault) => return Err(PageFault::Query(fault)),
    };
    let mut indexes = [SliceSource::new(first), SliceSource::new(second)];
    match page(alloc, &mut indexes, &query, out) {
        Ok(report) => Ok(report),
        Err(fault) => Err(PageFault::Answer(fault)),
    }
}
