//! Indexes of arbitrary bytes: cut off, too long, out of order, or not text.
use crate::calls::{answered, checked, merged, served};
use crate::small_indexes::file_of;
use devices::Slice;
use fixtures::{LETTERS, Refused, TORN, cut, falling_lines, padded};
use query_core::{AnswerFault, SliceSource, Source};
use std::alloc::{AllocError, Global};
use std::fs;
use std::test::Fail;

/// A good line of 50 bytes, and a line after it that has no entry because of its bytes, its pair, its object, its file
/// name or its offset.
const BAD_LINES: &[&[u8]] = &[
    b"a)/ 20160101000000 {\"offset\": 0, \"filename\": \"a\"}\nb\xff)/ 20160101000000 {\"offset\": 1, \"filename\": \"a\"}\n",
    b"a)/ 20160101000000 {\"offset\": 0, \"filename\": \"a\"}\nb)/ 20160101000000 {\"offset\": 1, \"filename\": \"a\", \"url\": \"\xc3(\"}\n",
    b"a)/ 20160101000000 {\"offset\": 0, \"filename\": \"a\"}\n\n",
    b"a)/ 20160101000000 {\"offset\": 0, \"filename\": \"a\"}\n\x0d\n",
    b"a)/ 20160101000000 {\"offset\": 0, \"filename\": \"a\"}\n \n",
    b"a)/ 20160101000000 {\"offset\": 0, \"filename\": \"a\"}\nb\x00)/ 20160101000000 {\"offset\": 1, \"filename\": \"a\"}\n",
    b"a)/ 20160101000000 {\"offset\": 0, \"filename\": \"a\"}\nb\x09 20160101000000 {\"offset\": 1, \"filename\": \"a\"}\n",
    b"a)/ 20160101000000 {\"offset\": 0, \"filename\": \"a\"}\nb)/ 2016010100000 {\"offset\": 1, \"filename\": \"a\"}\n",
    b"a)/ 20160101000000 {\"offset\": 0, \"filename\": \"a\"}\nb)/ 201601010000000 {\"offset\": 1, \"filename\": \"a\"}\n",
    b"a)/ 20160101000000 {\"offset\": 0, \"filename\": \"a\"}\nb)/ 20160101000000\n",
    b"a)/ 20160101000000 {\"offset\": 0, \"filename\": \"a\"}\nb)/ 20160101000000 [1]\n",
    b"a)/ 20160101000000 {\"offset\": 0, \"filename\": \"a\"}\nb)/ 20160101000000 {\"offset\": 1, \"filename\": \"a\"} {}\n",
    b"a)/ 20160101000000 {\"offset\": 0, \"filename\": \"a\"}\nb)/ 20160101000000 {\"offset\": 1, \"filename\": \"a\"\n",
    b"a)/ 20160101000000 {\"offset\": 0, \"filename\": \"a\"}\nb)/ 20160101000000 {\"offset\": 1}\n",
    b"a)/ 20160101000000 {\"offset\": 0, \"filename\": \"a\"}\nb)/ 20160101000000 {\"filename\": \"a\"}\n",
    b"a)/ 20160101000000 {\"offset\": 0, \"filename\": \"a\"}\nb)/ 20160101000000 {\"offset\": 1, \"filename\": \"\"}\n",
    b"a)/ 20160101000000 {\"offset\": 0, \"filename\": \"a\"}\nb)/ 20160101000000 {\"offset\": -1, \"filename\": \"a\"}\n",
    b"a)/ 20160101000000 {\"offset\": 0, \"filename\": \"a\"}\nb)/ 20160101000000 {\"offset\": 1.0, \"filename\": \"a\"}\n",
    b"a)/ 20160101000000 {\"offset\": 0, \"filename\": \"a\"}\nb)/ 20160101000000 {\"offset\": 9223372036854775808, \"filename\": \"a\"}\n",
    b"a)/ 20160101000000 {\"offset\": 0, \"filename\": \"a\"}\nb)/ 20160101000000 {\"offset\": \"00000000000000000001\", \"filename\": \"a\"}\n",
    b"a)/ 20160101000000 {\"offset\": 0, \"filename\": \"a\"}\nb)/ 20160101000000 {\"offset\": 1, \"filename\": \"\\ud800\"}\n",
    b"a)/ 20160101000000 {\"offset\": 0, \"filename\": \"a\"}\nb)/ 20160101000000 {\"offset\": 1, \"filename\": \"a\x01\"}\n",
];

/// A line with an entry, as another tool might write it.
const ODD_LINES: &[&[u8]] = &[
    b"\xef\xbb\xbfa)/ 20160101000000 {\"offset\": 0, \"filename\": \"a\"}\n",
    b"!a 20160101000000 {\"offset\": 0, \"filename\": \"a\"}\x0d\n",
    b"a)/ 99999999999999  \x09{\"filename\": \"a\", \"x\": [null, {}], \"offset\": \"0000000000000000001\"} ",
    b"a)/ 00000000000000 {\"offset\": 9223372036854775807, \"filename\": \"\\u0000\"}",
];

const ALL: &str = "key=&matchType=prefix";

/// Returns the result of a merge, and how many bytes it writes.
fn merged_length<S: Source>(
    alloc: Global,
    sources: &mut [S],
) -> Result<(Result<u64, AnswerFault>, usize), Refused> {
    let (result, out) = merged(alloc, sources)?;
    Ok((result, out.bytes().len()))
}

/// Returns `true` if the query has this result, the number of captures if it succeeds, and writes nothing.
fn answers_empty<S: Source>(
    alloc: Global,
    sources: &mut [S],
    query: &str,
    wanted: Result<u64, AnswerFault>,
) -> Result<bool, Fail> {
    let (result, out) = answered(alloc, sources, query)?;
    Ok(result.map(|report| report.given) == wanted && out.bytes().is_empty())
}

/// Returns `true` if a check, a merge and a query of all lines report the line at this offset as bad, before anything is
/// written.
fn is_bad_at(alloc: Global, text: &[u8], offset: u64) -> Result<bool, Fail> {
    let fault = Err(AnswerFault::BadLine(0, offset));
    let mut source = [SliceSource::new(text)];
    Ok(
        checked(alloc, &mut source[0])? == fault
            && merged_length(alloc, &mut source)? == (fault, 0)
            && answers_empty(alloc, &mut source, ALL, fault)?,
    )
}

/// Returns `true` if the text is an index of one line, which a merge writes with a line feed.
fn is_one_line(alloc: Global, text: &[u8]) -> Result<bool, Fail> {
    let ended = text.len() + usize::from(!text.ends_with(b"\n"));
    let mut source = [SliceSource::new(text)];
    Ok(
        checked(alloc, &mut source[0])? == Ok(1)
            && merged_length(alloc, &mut source)? == (Ok(1), ended),
    )
}

#[test]
fn lines_without_an_entry_are_bad_wherever_they_are_read(rt: HostRuntime) -> Result<(), Fail> {
    for (number, text) in BAD_LINES.iter().enumerate() {
        assert!(rt; is_bad_at(rt.alloc(), text, 50)?, "line {number}");
    }
    for (number, text) in ODD_LINES.iter().enumerate() {
        assert!(rt; is_one_line(rt.alloc(), text)?, "line {number}");
    }
    Ok(())
}

/// The replies to a query of all lines, as JSON, and to a bad query, over an index whose line at 50 is bad. The page
/// has a start and no end.
const REPLIES_BEFORE_50: &[u8] = b"[[\"offset\"]\nfault BadLine 0 50\n.\nrefused BadLimit\n.\n";

#[test]
fn a_bad_line_ends_its_reply_and_no_other(rt: HostRuntime) -> Result<(), Fail> {
    for (number, text) in BAD_LINES.iter().enumerate() {
        let mut sources = [SliceSource::new(text)];
        let mut lines = Slice::new(b"key=&matchType=prefix&output=json&fl=offset\nlimit=0\n");
        let (result, out) = served(rt.alloc(), &mut sources, &mut lines)?;
        assert!(rt;
            result == Ok(2) && out.bytes() == REPLIES_BEFORE_50,
            "line {number}"
        );
    }
    Ok(())
}

/// Indexes whose second line is at fault, and the fault.
const AT_FAULT: &[(&[u8], AnswerFault)] = &[
    (
        b"a)/ 20160101000000 {\"offset\": 0, \"filename\": \"a\"}\n\nc)/ 20160101000000 {\"offset\": 2, \"filename\": \"a\"}\n",
        AnswerFault::BadLine(0, 50),
    ),
    (
        b"b)/ 20160101000000 {\"offset\": 0, \"filename\": \"a\"}\na)/ 20160101000000 {\"offset\": 1, \"filename\": \"a\"}\n",
        AnswerFault::OutOfOrder(0, 50),
    ),
    (
        b"a)/ 20160101000000 {\"offset\": 0, \"filename\": \"a\"}\nb)/ 20160101000000 {\"offset\": 1",
        AnswerFault::BadLine(0, 50),
    ),
];

#[test]
fn a_line_at_fault_ends_the_page(rt: HostRuntime) -> Result<(), Fail> {
    let query = "key=&matchType=prefix&output=json&fl=urlkey,offset&collapse=urlkey";
    for (number, (text, fault)) in AT_FAULT.iter().enumerate() {
        let (result, out) = answered(rt.alloc(), &mut [SliceSource::new(text)], query)?;
        let is_open = !out.bytes().ends_with(b"]\n");
        assert!(rt; result == Err(*fault) && is_open, "row {number}");
    }
    Ok(())
}

/// Queries of the torn index, and their results.
const QUERIES_OF_TORN: &[(&str, Result<u64, AnswerFault>)] = &[
    ("key=a)/", Err(AnswerFault::BadLine(0, 145))),
    ("key=b)/", Err(AnswerFault::BadLine(0, 145))),
    ("key=0", Ok(0)),
];

#[test]
fn a_torn_line_is_bad_where_it_is_reached(rt: HostRuntime) -> Result<(), Fail> {
    assert!(rt; is_bad_at(rt.alloc(), TORN, 145)?);
    for (query, wanted) in QUERIES_OF_TORN {
        let sources = &mut [SliceSource::new(TORN)];
        assert!(rt;
            answers_empty(rt.alloc(), sources, query, *wanted)?,
            "{query}"
        );
    }
    Ok(())
}

/// Returns a line of this many bytes, including its line feed, if it has one.
fn long_line(alloc: Global, length: usize, has_feed: bool) -> Result<Vec<u8>, AllocError> {
    let start = b"a)/ 20160101000000 {\"filename\": \"a.warc\", \"offset\": 0, \"url\": \"";
    let end: &[u8] = if has_feed { b"\"}\n" } else { b"\"}" };
    padded(alloc, start, b'x', end, length)
}

/// Lengths of lines in bytes, whether they include a line feed, and whether the lines are good.
const LENGTHS: &[(usize, bool, bool)] = &[
    (16_777_215, false, true),
    (16_777_216, true, true),
    (16_777_216, false, false),
    (16_777_217, true, false),
    (20_000_000, true, false),
];

fn is_read_or_bad(
    alloc: Global,
    length: usize,
    has_feed: bool,
    is_good: bool,
) -> Result<bool, Fail> {
    let line = long_line(alloc, length, has_feed)?;
    if is_good {
        is_one_line(alloc, &line)
    } else {
        is_bad_at(alloc, &line, 0)
    }
}

#[test]
fn a_line_has_at_most_16_777_216_bytes_with_its_line_feed(rt: HostRuntime) -> Result<(), Fail> {
    for (length, has_feed, is_good) in LENGTHS {
        assert!(rt;
            is_read_or_bad(rt.alloc(), *length, *has_feed, *is_good)?,
            "{length}"
        );
    }
    Ok(())
}

/// Returns `true` if a query of the falling lines wrote offsets that rise, all of them above this number.
fn are_rising_offsets(written: &[u8], above: i64) -> bool {
    let mut last = above;
    for line in written.split(|byte| *byte == b'\n') {
        let Ok(text) = str::from_utf8(line) else {
            return false;
        };
        if text.is_empty() {
            continue;
        }
        match text.parse::<i64>() {
            Ok(number) if number > last && number < 1_000 => last = number,
            _ => return false,
        }
    }
    true
}

/// Returns `true` if a query of the falling lines returns, after no more steps of the search than their size allows, with
/// offsets that rise above this number.
fn is_answered_in_part(alloc: Global, text: &[u8], query: &str, above: i64) -> Result<bool, Fail> {
    let (result, out) = answered(alloc, &mut [SliceSource::new(text)], query)?;
    let is_bounded = match result {
        Err(fault) => matches!(fault, AnswerFault::OutOfOrder(0, _)),
        Ok(report) => report.probes <= 19,
    };
    Ok(is_bounded && are_rising_offsets(out.bytes(), above))
}

/// Queries of the falling lines, and the number above which captures are selected.
const QUERIES_OF_FALLING: &[(&str, i64)] = &[
    ("url=example.com&fl=offset", -1),
    ("url=example.com&fl=offset&limit=1", -1),
    (
        "url=example.com&fl=offset&resumeKey=com%2Cexample%29%2F+20160101000000+a.warc+0",
        0,
    ),
    (
        "url=example.com&fl=offset&resumeKey=com%2Cexample%29%2F+20160101000499+a.warc+499",
        499,
    ),
    (
        "url=example.com&fl=offset&resumeKey=com%2Cexample%29%2F+20160101000998+a.warc+998",
        998,
    ),
    (
        "url=example.com&fl=offset&resumeKey=com%2Cexample%29%2F+20160101000999+a.warc+999",
        999,
    ),
];

#[test]
fn falling_lines_are_answered_in_part(rt: HostRuntime) -> Result<(), Fail> {
    let text = falling_lines(rt.alloc(), 1_000)?;
    let fault = Err(AnswerFault::OutOfOrder(0, 157));
    assert!(rt; checked(rt.alloc(), &mut SliceSource::new(&text))? == fault);
    assert!(rt; merged_length(rt.alloc(), &mut [SliceSource::new(&text)])? == (fault, 0));
    for (query, above) in QUERIES_OF_FALLING {
        assert!(rt;
            is_answered_in_part(rt.alloc(), &text, query, *above)?,
            "{query}"
        );
    }
    Ok(())
}

/// Returns the reply to a line of this byte alone: an unknown name, not text, or nothing.
fn reply_to_byte(byte: u8) -> &'static [u8] {
    match byte {
        b'&' | b'\r' | b'\n' => b"refused NoUrl\n.\n",
        0x80.. => b"refused NotText\n.\n",
        _ => b"refused Unknown\n.\n",
    }
}

#[test]
fn each_byte_has_its_reply(rt: HostRuntime) -> Result<(), Fail> {
    for byte in 0..=u8::MAX {
        let line = [byte];
        let mut sources = [SliceSource::new(TORN)];
        let (result, out) = served(rt.alloc(), &mut sources, &mut Slice::new(&line))?;
        assert!(rt;
            result == Ok(1) && out.bytes() == reply_to_byte(byte),
            "{byte}"
        );
    }
    Ok(())
}

/// A file is cut within its second line after its sources were created.
#[test]
fn a_file_that_was_cut_cannot_be_read(rt: HostRuntime) -> Result<(), Fail> {
    let read = Err(AnswerFault::Read(0));
    let to_merge = file_of(&rt, "cut.cdxj", LETTERS)?;
    let to_ask = file_of(&rt, "cut.cdxj", LETTERS)?;
    fs::write(&rt, "cut.cdxj", cut(LETTERS, 200))?;
    assert!(rt; merged_length(rt.alloc(), &mut [to_merge])? == (read, 0));
    assert!(rt; answers_empty(rt.alloc(), &mut [to_ask], ALL, read)?);
    Ok(())
}
