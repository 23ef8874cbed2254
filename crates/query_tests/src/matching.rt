//! Which lines queries select.
use cdxj_core::{Line, LineFault};
use fixtures::{FOREIGN, HOSTS, LETTER_ROWS, Rows, index_lines};
use query_text::{Query, QueryFault};
use std::alloc::Global;
use std::test::Fail;

/// Returns `true` if the query selects the line or not, as wanted. The result for a kept line must be the same.
fn is_selected(alloc: Global, query: &Query, line: &[u8], wanted: bool) -> Result<bool, LineFault> {
    let kept = Line::read(alloc, line)?;
    Ok(query.matches(&kept.values()) == wanted && query.matches_kept(&kept) == wanted)
}

/// Returns `true` if the query selects the lines of these numbers, and no others.
fn selects(alloc: Global, text: &str, numbers: &str, lines: &[Vec<u8>]) -> Result<bool, Fail> {
    let query = Query::read(alloc, text)?;
    for (line, number) in lines.iter().zip(b"0123456789") {
        let wanted = numbers.as_bytes().contains(number);
        if !is_selected(alloc, &query, line, wanted)? {
            return Ok(false);
        }
    }
    Ok(true)
}

/// Returns the first row whose query selects other lines.
fn other_lines<'a>(
    alloc: Global,
    table: &'a str,
    lines: &[Vec<u8>],
) -> Result<Option<&'a str>, Fail> {
    for row in table.split('\n') {
        let (text, numbers) = row.split_once(' ').unwrap_or((row, ""));
        if !selects(alloc, text, numbers, lines)? {
            return Ok(Some(row));
        }
    }
    Ok(None)
}

const YEARS: Rows = &[
    ("com,example)/", "20161231235959", "a.warc", 0),
    ("com,example)/", "20170101000000", "a.warc", 1),
];

/// Queries, each in a row with the numbers of the lines that it selects. A domain has its subdomains and ports.
const IN_HOSTS: &str = "\
url=*.example.com&fl=offset 0 1 3
url=example.com&matchType=domain 0 1 3
url=example.com&matchType=host&fl=offset 0 3
url=example.com&fl=offset 0
url=example.com:8080 3
url=exam*
url=a.example.com/* 1
key=com,example&matchType=prefix 0 1 2 3
key=&matchType=prefix 0 1 2 3
key=com,example
key=com&matchType=domain 0 1 2 3
key=com&matchType=host
key=&matchType=domain
key=&matchType=host
key=com,example)/&matchType=host
key=";

/// Stamps are compared in the digits given.
const IN_YEARS: &str = "\
url=example.com&from=2016&to=20161&fl=timestamp 0
url=example.com&to=2016 0
url=example.com&to=2 0 1
url=example.com&to=1
url=example.com&to=20161231235958
url=example.com&to=20161231235959 0
url=example.com&from=2017 1
url=example.com&from=%32017 1
url=example.com&from=20161 0 1
url=example.com&from=20162 1
url=example.com&from=20170101000000 1
url=example.com&from=20170101000001
url=example.com&from=2017&to=2016
url=example.com&from=0&to=9 0 1";

/// A key is taken as it stands.
const IN_LETTERS: &str = "\
key=a)/&fl=offset 0
key=c)/&fl=offset 2
key=0
key=z)/
key=a)/*
key=A)/
key=b&matchType=host 1";

/// All filters have to hold.
const FILTERED: &str = "\
key=a)/&is=mimetype:text/html 0
key=a)/&is=mimetype:text
key=a)/&is=mimetype:
key=a)/&isnot=mimetype:text/html
key=a)/&isnot=mimetype:text 0
key=a)/&has=mimetype:t/h 0
key=a)/&has=mimetype: 0
key=a)/&has=mimetype:texts
key=a)/&has=original:http://x/ 0
key=a)/&hasnot=mimetype:t/h
key=a)/&hasnot=mimetype:
key=a)/&hasnot=mimetype:html5 0
key=a)/&filter=statuscode:200 0
key=a)/&filter=statuscode:20
key=a)/&filter=!statuscode:200
key=a)/&filter=!statuscode:20 0
key=a)/&is=urlkey:a)/ 0
key=a)/&is=timestamp:20160101000000 0
key=a)/&is=digest:- 0
key=a)/&is=length:1 0
key=a)/&is=filename:a.warc 0
key=a)/&is=original:http://x/&is=offset:0 0
key=a)/&is=original:http://x/&is=offset:1
key=a)/&is=offset:1&is=original:http://x/
key=&matchType=prefix&isnot=offset:1 0 2";

const INDEXES: &[(Rows, &str)] = &[
    (HOSTS, IN_HOSTS),
    (YEARS, IN_YEARS),
    (LETTER_ROWS, IN_LETTERS),
    (LETTER_ROWS, FILTERED),
];

#[test]
fn lines_are_selected_by_target_stamps_and_filters(rt: HostRuntime) -> Result<(), Fail> {
    for (rows, table) in INDEXES {
        let lines = index_lines(rt.alloc(), rows)?;
        let other = other_lines(rt.alloc(), table, &lines)?;
        let row = other.unwrap_or("");
        assert!(rt; other.is_none(), "{row}");
    }
    Ok(())
}

const IN_FOREIGN: &str = "\
url=example.com&output=cdxj 0
url=example.com&is=statuscode:200 0
url=example.com&filter=statuscode:404";

#[test]
fn lines_of_other_tools_are_selected(rt: HostRuntime) -> Result<(), Fail> {
    let lines = [FOREIGN.to_vec(rt.alloc())?];
    let other = other_lines(rt.alloc(), IN_FOREIGN, &lines)?;
    let row = other.unwrap_or("");
    assert!(rt; other.is_none(), "{row}");
    Ok(())
}

/// Returns where a key is: outside the query's range but not past it, in the range, or past it.
fn position_of(alloc: Global, text: &str, key: &str) -> Result<&'static str, QueryFault> {
    let query = Query::read(alloc, text)?;
    Ok(
        match (query.target().covers(key), query.target().is_past(key)) {
            (false, false) => "outside",
            (true, false) => "within",
            (false, true) => "past",
            (true, true) => "within and past",
        },
    )
}

/// The positions of keys, each with a query and the key.
const POSITIONS: &str = "\
outside url=*.example.com com,a)/
outside url=*.example.com com,exampl
within url=*.example.com com,example
within url=*.example.com com,example-shop)/
past url=*.example.com com,examplf)/
within url=example.com&matchType=host com,example,a)/
outside key=a)/ a)
within key=a)/ a)/
past key=a)/ a)/b
within key=a)/&matchType=prefix a)/b
past key=a)/&matchType=prefix a)0
within key=&matchType=prefix z
past key= a";

/// Returns `true` if the row has the position of its key.
fn has_position(alloc: Global, row: &str) -> Result<bool, QueryFault> {
    let (position, rest) = row.split_once(' ').unwrap_or((row, ""));
    let (text, key) = rest.split_once(' ').unwrap_or((rest, ""));
    Ok(position_of(alloc, text, key)? == position)
}

#[test]
fn ranges_begin_with_their_target_and_keys_past_it_end_them(
    rt: HostRuntime,
) -> Result<(), QueryFault> {
    for row in POSITIONS.split('\n') {
        assert!(rt; has_position(rt.alloc(), row)?, "{row}");
    }
    Ok(())
}
