//! A conversation: a reply to each line of an input.
ghost use Rattle.std.specs.Prelude.{◌≡◌, length, map, Err};
ghost use Rattle.query_text.specs.declared.query.TheConstants.{QUERY_LIMIT};
ghost use Rattle.merge_core.specs.Collections.{OverIndexes, KeepsSources, collection};
ghost use Rattle.query_core.specs.Refusals.{Refuses, too_many};
ghost use Rattle.query_core.specs.ReplyReach.{AllGaveAtMost, GaveForLines, line_most, query_most};
ghost use Rattle.query_core.specs.AnyReplies.{IsPageReply, IsTextReply};
ghost use Rattle.query_core.specs.Conversations.{Converses, IsLineReply, IsMarkedReply};
ghost use Rattle.query_core.specs.Conversations.{RepliedToTaken, WritesSome};
ghost use Rattle.query_core.specs.ReplyFaults.{CountsServing, RepliesFrom};

use crate::answering::answer;
use crate::fault::AnswerFault;
use crate::merging::SOURCES_LIMIT;
use crate::reply_texts::{put_fault_line, put_refusal, put_text};
use devices::{Input, InputLines, Output};
use query_text::{QUERY_LIMIT, Query, QueryFault};
use source_core::Source;
use std::alloc::Global;

/// The number of bytes of a line that are held. They show that a line exceeds the limit of a query,
/// whether or not it ends with a carriage return.
const LINE_HELD: usize = QUERY_LIMIT + 2;

/// Writes the page of a query. A fault of an index is written after what was written of the page.
#[tactic(auto, using(crate::proofs::ReplyLemmas::query_rules))]
fn reply_to_query<S: Source, O: Output>(
    alloc: Global,
    sources: &mut [S],
    query: &Query,
    out: &mut O,
) -> Result<(), AnswerFault>
    ensures sources { RepliesFrom S.Source result sources.old sources.new (O.failures out.old)
        (O.failures out.new) }
    ensures reply { WritesSome result (O.written out.old) (O.written out.new)
        (IsPageReply (map S.text sources.old) query.now) }
    ensures bytes { OverIndexes (map S.text sources.old) (λ texts indexes.
        AllGaveAtMost S.Source (query_most query.now (collection indexes)) texts indexes sources.old
        sources.new) }
{
    match answer(alloc, sources, query, out) {
        Ok(_) => Ok(()),
        Err(AnswerFault::BadLine(index, offset)) => {
            put_fault_line(alloc, "BadLine", index, offset, out)
        }
        Err(AnswerFault::OutOfOrder(index, offset)) => {
            put_fault_line(alloc, "OutOfOrder", index, offset, out)
        }
        Err(fault) => Err(fault),
    }
}

/// Writes the reply to a line, of which at least the first `LINE_HELD` bytes are given.
#[tactic(auto, using(crate::proofs::ReplyLemmas::line_rules))]
fn reply_to_line<S: Source, O: Output>(
    alloc: Global,
    sources: &mut [S],
    line: &[u8],
    out: &mut O,
) -> Result<(), AnswerFault>
    ensures sources { RepliesFrom S.Source result sources.old sources.new (O.failures out.old)
        (O.failures out.new) }
    ensures reply { WritesSome result (O.written out.old) (O.written out.new)
        (IsLineReply QUERY_LIMIT (IsTextReply (map S.text sources.old)) line.now) }
    ensures bytes { OverIndexes (map S.text sources.old) (λ texts indexes.
        AllGaveAtMost S.Source (line_most QUERY_LIMIT (collection indexes) line.now) texts indexes
        sources.old sources.new) }
{
    if line.len() > QUERY_LIMIT {
        return put_refusal(alloc, "QueryTooLong", out);
    }
    let text = match str::from_utf8(line) {
        Ok(text) => text,
        Err(_) => return put_refusal(alloc, "NotText", out),
    };
    match Query::read(alloc, text) {
        Ok(query) => reply_to_query(alloc, sources, &query, out),
        Err(QueryFault::Memory) => Err(AnswerFault::Memory),
        Err(fault) => put_refusal(alloc, fault.name(), out),
    }
}

/// Writes the reply to a line, followed by the line `.`.
#[tactic(auto, using(crate::proofs::ReplyLemmas::reply_marked))]
fn reply_and_mark<S: Source, O: Output>(
    alloc: Global,
    sources: &mut [S],
    line: &[u8],
    out: &mut O,
) -> Result<(), AnswerFault>
    ensures sources { RepliesFrom S.Source result sources.old sources.new (O.failures out.old)
        (O.failures out.new) }
    ensures reply { WritesSome result (O.written out.old) (O.written out.new)
        (IsMarkedReply QUERY_LIMIT (IsTextReply (map S.text sources.old)) line.now) }
    ensures bytes { OverIndexes (map S.text sources.old) (λ texts indexes.
        AllGaveAtMost S.Source (line_most QUERY_LIMIT (collection indexes) line.now) texts indexes
        sources.old sources.new) }
{
    reply_to_line(alloc, sources, line, out)?;
    put_text(b".\n", out)
}

/// Answers the queries of an input, one on each line, and returns the number of lines.
///
/// A line ends with a line feed, which the last line may lack. A carriage return before it is
/// dropped. The reply to a line is the page of its query, or `refused` and the name of the refusal:
/// `QueryTooLong` for more than `QUERY_LIMIT` bytes, and `NotText` if the line isn't UTF-8. If a
/// line is found because of which a text is not an index, what was written is followed by a line
/// feed, and `fault` with the name of the fault, the number of the index and the offset of the
/// line. Each reply is followed by a line `.`, which is passed to the output in a call of its own.
///
/// The indexes are read for each query as `answer` reads them. A line is read when the reply before
/// it was written.
///
/// Returns `TooManySources` for more than `SOURCES_LIMIT` indexes, before it reads. `Memory`,
/// `Read` of an index, `Write` and `Input` end the conversation. `Input` comes if the input failed,
/// and for an input of 2^63 - 1 bytes. Then each line that was taken whole has its reply.
#[tactic(auto, using(crate::proofs::ReplyLemmas::serve_rules))]
pub fn serve<S: Source, I: Input, O: Output>(
    alloc: Global,
    sources: &mut [S],
    input: &mut I,
    out: &mut O,
) -> Result<u64, AnswerFault>
    ensures refused { Refuses (too_many (length sources.old)) result
        ((sources.new ≡ sources.old) × (input.new ≡ input.old) × (out.new ≡ out.old)) }
    ensures kept { KeepsSources S.Source sources.old sources.new }
    ensures failures { CountsServing result (map S.failures sources.old)
        (map S.failures sources.new) (O.failures out.old) (O.failures out.new)
        (I.failures input.old) (I.failures input.new) (I.remaining input.old) }
    // Each page is that of lines of the sources that rise by place, whatever their bytes.
    ensures conversation { Converses QUERY_LIMIT (IsTextReply (map S.text sources.old)) result
        (I.remaining input.old) (O.written out.old) (O.written out.new) }
    ensures taken { result ≡ Err AnswerFault.Input →
        RepliedToTaken QUERY_LIMIT (IsTextReply (map S.text sources.old))
        (I.remaining input.old) (I.remaining input.new) (O.written out.old) (O.written out.new) }
    // Each source gives no more than the queries may take of the lines that were answered, and of
    // one more.
    ensures bytes { OverIndexes (map S.text sources.old) (λ texts indexes.
        GaveForLines S.Source QUERY_LIMIT (IsTextReply (map S.text sources.old))
        (I.remaining input.old) texts indexes (O.written out.old) (O.written out.new) sources.old
        sources.new) }
{
    if sources.len() > SOURCES_LIMIT {
        return Err(AnswerFault::TooManySources);
    }
    let mut lines = InputLines::new(alloc, LINE_HELD)?;
    let mut count = 0u64;
    while lines.next(input)? {
        reply_and_mark(alloc, sources, lines.line(), out)?;
        count += 1;
    }
    Ok(count)
}
