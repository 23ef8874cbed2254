//! Calls on indexes whose sources, input or output fail at each of their calls in turn, and work again afterwards.
use crate::calls::served;
use devices::{Fuse, Gather, Slice};
use fixtures::{LETTERS, OFFSET_5, OFFSET_10, OFFSET_20, RISEN, Refused, UNENDED_LETTERS};
use query_core::{AnswerFault, Query, SliceSource, answer, check, merge, pages, serve};
use std::alloc::Global;

/// Three queries, the last line without a line feed.
const QUERIES: &str = "url=example.com&fl=offset\nlimit=0\nkey=x";

/// The replies to the first of them, to the first two, and to all.
const FIRST_REPLY: &[u8] = b"5\n20\n10\n.\n";

const TWO_REPLIES: &[u8] = b"5\n20\n10\n.\nrefused BadLimit\n.\n";

const REPLIES: &[u8] = b"5\n20\n10\n.\nrefused BadLimit\n.\n.\n";

/// The texts of three indexes.
type Texts = [&'static [u8]; 3];

/// Three lines with one pair.
const ONE_PAIR: Texts = [OFFSET_10, OFFSET_20, OFFSET_5];

const ONE_INDEX: Texts = [UNENDED_LETTERS, b"", b""];

/// Four lines of three keys.
const THREE_KEYS: Texts = [
    b"a)/ 20160101000000 {\"offset\": 0, \"filename\": \"a\"}\nb)/ 20160101000000 {\"offset\": 1, \"filename\": \"a\"}\nb)/ 20160101000001 {\"offset\": 3, \"filename\": \"a\"}\nc)/ 20160101000000 {\"offset\": 2, \"filename\": \"a\"}\n",
    b"",
    b"",
];

/// Asks for the first capture of each key. It makes all the allocations, reads and writes of a query that collapses
/// nothing, and some more.
const COLLAPSED: &str = "key=&matchType=prefix&output=json&fl=urlkey,offset&collapse=urlkey";

/// A call on the three indexes, or on the first.
#[derive(Clone, Copy)]
enum Call {
    Answer(&'static str),
    Pages(&'static [u64], &'static str),
    Merge,
    Check,
    Serve(&'static str),
}

/// A call, the number that it returns, what it writes, and how many bytes of that are written at most if a source failed.
/// Rows of captures with one pair come after the last read, and all but the end of the last page may come before it.
struct Row {
    call: Call,
    texts: Texts,
    count: u64,
    written: &'static [u8],
    before_reads: usize,
    /// The numbers of bytes that a source or the output transfers at once.
    pieces: &'static [usize],
}

const ONE_BYTE_TO_ALL: &[usize] = &[1, 2, 8192];

const ROWS: &[Row] = &[
    Row {
        call: Call::Answer(
            "url=example.com&fl=filename,offset&output=json&limit=1&showResumeKey=true",
        ),
        texts: ONE_PAIR,
        count: 1,
        written: b"[[\"filename\",\"offset\"],\n[\"a.warc\",\"5\"],\n[],\n[\"com%2Cexample%29%2F+20160101000000+a.warc+5\"]]\n",
        before_reads: 22,
        pieces: &[64],
    },
    Row {
        call: Call::Answer("url=example.com&fl=offset&output=json"),
        texts: ONE_PAIR,
        count: 3,
        written: b"[[\"offset\"],\n[\"5\"],\n[\"20\"],\n[\"10\"]]\n",
        before_reads: 11,
        pieces: &[64],
    },
    Row {
        call: Call::Answer("url=example.com&fl=offset"),
        texts: ONE_PAIR,
        count: 3,
        written: b"5\n20\n10\n",
        before_reads: 0,
        pieces: &[64],
    },
    Row {
        call: Call::Pages(&[1, 2], "url=example.com&fl=filename,offset"),
        texts: ONE_PAIR,
        count: 2,
        written: b"a.warc 5\n\ncom%2Cexample%29%2F+20160101000000+a.warc+5\na.warc 20\nb.warc 10\n",
        before_reads: 54,
        pieces: &[64],
    },
    Row {
        call: Call::Pages(&[2], "url=example.com&fl=offset&output=json"),
        texts: ONE_PAIR,
        count: 2,
        written: b"[[\"offset\"],\n[\"5\"],\n[\"20\"],\n[],\n[\"com%2Cexample%29%2F+20160101000000+a.warc+20\"]]\n[[\"offset\"],\n[\"10\"]]\n",
        before_reads: 93,
        pieces: &[64],
    },
    Row {
        call: Call::Merge,
        texts: ONE_PAIR,
        count: 3,
        written: RISEN,
        before_reads: 0,
        pieces: &[64],
    },
    Row {
        call: Call::Serve(QUERIES),
        texts: ONE_PAIR,
        count: 3,
        written: REPLIES,
        before_reads: 29,
        pieces: &[64],
    },
    Row {
        call: Call::Merge,
        texts: ONE_INDEX,
        count: 3,
        written: LETTERS,
        before_reads: 290,
        pieces: ONE_BYTE_TO_ALL,
    },
    Row {
        call: Call::Check,
        texts: ONE_INDEX,
        count: 3,
        written: b"",
        before_reads: 0,
        pieces: ONE_BYTE_TO_ALL,
    },
    Row {
        call: Call::Answer(COLLAPSED),
        texts: THREE_KEYS,
        count: 3,
        written: b"[[\"urlkey\",\"offset\"],\n[\"a)/\",\"0\"],\n[\"b)/\",\"1\"],\n[\"c)/\",\"2\"]]\n",
        before_reads: 59,
        pieces: ONE_BYTE_TO_ALL,
    },
    Row {
        call: Call::Pages(&[2], COLLAPSED),
        texts: THREE_KEYS,
        count: 2,
        written: b"[[\"urlkey\",\"offset\"],\n[\"a)/\",\"0\"],\n[\"b)/\",\"1\"],\n[],\n[\"b%29%2F+20160101000000+a+1\"]]\n[[\"urlkey\",\"offset\"],\n[\"c)/\",\"2\"]]\n",
        before_reads: 117,
        pieces: ONE_BYTE_TO_ALL,
    },
    Row {
        call: Call::Serve(COLLAPSED),
        texts: THREE_KEYS,
        count: 1,
        written: b"[[\"urlkey\",\"offset\"],\n[\"a)/\",\"0\"],\n[\"b)/\",\"1\"],\n[\"c)/\",\"2\"]]\n.\n",
        before_reads: 59,
        pieces: ONE_BYTE_TO_ALL,
    },
];

type Failing = Fuse<Fuse<SliceSource<'static>>>;

/// Returns a source that gives `piece` bytes a call. Its call `first` fails, and of its other calls the call `second`; 0
/// means none.
fn failing(text: &'static [u8], piece: usize, first: u64, second: u64) -> Failing {
    Fuse::new(
        Fuse::new(SliceSource::new(text), piece, second),
        piece,
        first,
    )
}

/// Returns sources over the row's indexes, of which the one with this number fails.
fn sources(row: &Row, piece: usize, number: usize, first: u64, second: u64) -> [Failing; 3] {
    let at = |i: usize, call: u64| if i == number { call } else { 0 };
    let [a, b, c] = row.texts;
    [
        failing(a, piece, at(0, first), at(0, second)),
        failing(b, piece, at(1, first), at(1, second)),
        failing(c, piece, at(2, first), at(2, second)),
    ]
}

fn query_of(alloc: Global, text: &str) -> Result<Query, AnswerFault> {
    match Query::read(alloc, text) {
        Ok(query) => Ok(query),
        Err(_refused) => Err(AnswerFault::Memory),
    }
}

/// Makes the call. Returns the number of captures in the page, of pages, of lines, or of replies.
fn called(
    alloc: Global,
    call: Call,
    sources: &mut [Failing],
    out: &mut Fuse<Gather>,
) -> Result<u64, AnswerFault> {
    match call {
        Call::Answer(text) => {
            answer(alloc, sources, &query_of(alloc, text)?, out).map(|report| report.given)
        }
        Call::Pages(sizes, text) => pages(alloc, sources, &query_of(alloc, text)?, sizes, out),
        Call::Merge => merge(alloc, sources, out),
        Call::Check => match sources {
            [first, ..] => check(alloc, first),
            [] => Ok(0),
        },
        Call::Serve(lines) => serve(alloc, sources, &mut Slice::new(lines.as_bytes()), out),
    }
}

/// How a call ended: its result, how many bytes were written if they are a prefix of the row's, and how often the output
/// was called.
#[derive(Clone, Copy, Drop)]
struct Ended {
    result: Result<u64, AnswerFault>,
    written: Option<usize>,
    writes: u64,
}

/// Makes a call over an output that takes `piece` bytes a call and fails at its call `write`; 0 means none. A failed
/// allocation is an error.
fn end_of(
    alloc: Global,
    row: &Row,
    sources: &mut [Failing],
    piece: usize,
    write: u64,
) -> Result<Ended, Refused> {
    let mut out = Fuse::new(Gather::new(alloc), piece, write);
    let result = called(alloc, row.call, sources, &mut out);
    if result == Err(AnswerFault::Memory)
        || (result == Err(AnswerFault::Write) && out.calls != write)
    {
        return Err(Refused::Memory);
    }
    let written = out.device.bytes();
    Ok(Ended {
        result,
        written: row.written.starts_with(written).then_some(written.len()),
        writes: out.calls,
    })
}

/// Returns `true` if everything was written.
fn is_whole(row: &Row, ended: Ended) -> bool {
    ended.result == Ok(row.count) && ended.written == Some(row.written.len())
}

/// Returns `true` if the call ended because this source failed, with no more written than is known by then.
fn is_unread(row: &Row, ended: Ended, number: usize) -> bool {
    ended.result == Err(AnswerFault::Read(number))
        && ended.written.is_some_and(|count| count <= row.before_reads)
}

/// Returns `true` if the calls after a failure of the source continue as if it hadn't failed, until the source fails
/// again two calls after the first failure, and then write everything.
fn goes_on(
    alloc: Global,
    row: &Row,
    piece: usize,
    number: usize,
    read: u64,
) -> Result<bool, Refused> {
    let mut sources = sources(row, piece, number, read, read.saturating_add(1));
    let mut has_failed = false;
    for _ in 0..3 {
        let ended = end_of(alloc, row, &mut sources, 1, 0)?;
        if ended.result.is_ok() {
            return Ok(has_failed && is_whole(row, ended));
        }
        if !is_unread(row, ended, number) {
            return Ok(false);
        }
        has_failed = true;
    }
    Ok(false)
}

/// Returns `true` if each of the first `calls` reads of this source ends the call if it fails.
fn ends_at_reads_of(
    alloc: Global,
    row: &Row,
    piece: usize,
    number: usize,
    calls: u64,
) -> Result<bool, Refused> {
    for read in 1..calls.saturating_add(1) {
        if !goes_on(alloc, row, piece, number, read)? {
            return Ok(false);
        }
    }
    Ok(true)
}

/// Returns `true` if everything is written if no source fails, and each read of each source ends the call if it fails.
fn ends_at_each_read(alloc: Global, row: &Row, piece: usize) -> Result<bool, Refused> {
    let mut whole = sources(row, piece, 0, 0, 0);
    let is_whole = is_whole(row, end_of(alloc, row, &mut whole, piece, 0)?);
    Ok(
        is_whole
            && ends_at_reads_of(alloc, row, piece, 0, whole[0].calls)?
            && ends_at_reads_of(alloc, row, piece, 1, whole[1].calls)?
            && ends_at_reads_of(alloc, row, piece, 2, whole[2].calls)?,
    )
}

/// Returns `true` if the call ends at each failed read, for each number of bytes that a source gives.
fn ends_at_reads(alloc: Global, row: &Row) -> Result<bool, Refused> {
    for piece in row.pieces {
        if !ends_at_each_read(alloc, row, *piece)? {
            return Ok(false);
        }
    }
    Ok(true)
}

#[test]
fn a_call_ends_at_a_failed_read_of_any_index(rt: HostRuntime) -> Result<(), Refused> {
    for (number, row) in ROWS.iter().enumerate() {
        assert!(rt; ends_at_reads(rt.alloc(), row)?, "row {number}");
    }
    Ok(())
}

/// Returns `true` if the call ended at this failed write, before everything was written. At one byte a call, as many
/// bytes were written as there were writes before.
fn is_unwritten(row: &Row, ended: Ended, piece: usize, write: u64) -> bool {
    ended.result == Err(AnswerFault::Write)
        && ended.written.is_some_and(|count| {
            count < row.written.len() && (piece > 1 || count as u64 + 1 == write)
        })
}

/// Returns `true` if each write ends the call if it fails.
fn ends_at_each_write(alloc: Global, row: &Row, piece: usize) -> Result<bool, Refused> {
    let whole = end_of(alloc, row, &mut sources(row, piece, 0, 0, 0), piece, 0)?;
    for write in 1..whole.writes.saturating_add(1) {
        let ended = end_of(alloc, row, &mut sources(row, piece, 0, 0, 0), piece, write)?;
        if !is_unwritten(row, ended, piece, write) {
            return Ok(false);
        }
    }
    Ok(true)
}

/// Returns `true` if the call ends at each failed write, for each number of bytes that the output takes.
fn ends_at_writes(alloc: Global, row: &Row) -> Result<bool, Refused> {
    for piece in row.pieces {
        if !ends_at_each_write(alloc, row, *piece)? {
            return Ok(false);
        }
    }
    Ok(true)
}

#[test]
fn a_call_ends_at_a_failed_write(rt: HostRuntime) -> Result<(), Refused> {
    for (number, row) in ROWS.iter().enumerate() {
        assert!(rt; ends_at_writes(rt.alloc(), row)?, "row {number}");
    }
    Ok(())
}

/// Returns the result if a read of the lines fails, and what is written: the replies to the lines that were read whole.
/// There are 39 bytes. The read after them ends the last line, and the next one finds no further line.
fn served_to(read: u64) -> (Result<u64, AnswerFault>, &'static [u8]) {
    match read {
        1..=26 => (Err(AnswerFault::Input), b""),
        27..=34 => (Err(AnswerFault::Input), FIRST_REPLY),
        35..=40 => (Err(AnswerFault::Input), TWO_REPLIES),
        41 => (Err(AnswerFault::Input), REPLIES),
        _ => (Ok(3), REPLIES),
    }
}

/// Returns `true` if a conversation ends in this way if its input gives one byte a call and fails at this call.
fn is_served_to(alloc: Global, read: u64) -> Result<bool, Refused> {
    let [a, b, c] = ONE_PAIR;
    let mut sources = [
        SliceSource::new(a),
        SliceSource::new(b),
        SliceSource::new(c),
    ];
    let mut input = Fuse::new(Slice::new(QUERIES.as_bytes()), 1, read);
    let (result, out) = served(alloc, &mut sources, &mut input)?;
    let (wanted, replies) = served_to(read);
    Ok(result == wanted && out.bytes() == replies)
}

#[test]
fn a_conversation_ends_at_a_failed_read_of_its_lines(rt: HostRuntime) -> Result<(), Refused> {
    for read in 1..43 {
        assert!(rt; is_served_to(rt.alloc(), read)?, "{read}");
    }
    Ok(())
}
