//! Calls on indexes that write into memory.
use devices::{Gather, Input};
use fixtures::Refused;
use query_core::{AnswerFault, Query, Report, Source, answer, check, merge, pages, serve};
use std::alloc::Global;
use std::test::Fail;

/// Returns the result of a call that writes into memory, or an error for refused memory. A write fails there for no
/// other reason.
fn unless_refused<T>(answer: Result<T, AnswerFault>) -> Result<Result<T, AnswerFault>, Refused> {
    match answer {
        Err(AnswerFault::Memory | AnswerFault::Write) => Err(Refused::Memory),
        answer => Ok(answer),
    }
}

/// Returns the result of checking a source.
pub fn checked<S: Source>(
    alloc: Global,
    source: &mut S,
) -> Result<Result<u64, AnswerFault>, Refused> {
    unless_refused(check(alloc, source))
}

/// Returns the result of merging the sources, and what is written.
pub fn merged<S: Source>(
    alloc: Global,
    sources: &mut [S],
) -> Result<(Result<u64, AnswerFault>, Gather), Refused> {
    let mut out = Gather::new(alloc);
    let result = unless_refused(merge(alloc, sources, &mut out))?;
    Ok((result, out))
}

/// Returns the result of a query, and what is written.
pub fn answered<S: Source>(
    alloc: Global,
    sources: &mut [S],
    query: &str,
) -> Result<(Result<Report, AnswerFault>, Gather), Fail> {
    let query = Query::read(alloc, query)?;
    let mut out = Gather::new(alloc);
    let result = unless_refused(answer(alloc, sources, &query, &mut out))?;
    Ok((result, out))
}

/// Returns the report of a query that succeeds, and its page.
pub fn page<S: Source>(
    alloc: Global,
    sources: &mut [S],
    query: &str,
) -> Result<(Report, Gather), Fail> {
    let (result, out) = answered(alloc, sources, query)?;
    Ok((result?, out))
}

/// Returns the result of the pages of these sizes, and what is written.
pub fn paged<S: Source>(
    alloc: Global,
    sources: &mut [S],
    query: &str,
    sizes: &[u64],
) -> Result<(Result<u64, AnswerFault>, Gather), Fail> {
    let query = Query::read(alloc, query)?;
    let mut out = Gather::new(alloc);
    let result = unless_refused(pages(alloc, sources, &query, sizes, &mut out))?;
    Ok((result, out))
}

/// Returns the result of a conversation over the lines of this input, and the replies.
pub fn served<S: Source, I: Input>(
    alloc: Global,
    sources: &mut [S],
    input: &mut I,
) -> Result<(Result<u64, AnswerFault>, Gather), Refused> {
    let mut out = Gather::new(alloc);
    let result = unless_refused(serve(alloc, sources, input, &mut out))?;
    Ok((result, out))
}
