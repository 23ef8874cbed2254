//! Queries that collapse captures with a part in common.
use crate::calls::{page, paged};
use fixtures::{FIRST_OF_2016, Rows, index_text, rising_lines};
use query_core::SliceSource;
use std::alloc::Global;
use std::test::Fail;

/// Two captures of one day, one of the next, and one of that day with another key.
const DAYS: Rows = &[
    ("com,example)/", FIRST_OF_2016, "a.warc", 0),
    ("com,example)/", "20160101120000", "a.warc", 1),
    ("com,example)/", "20160102000000", "a.warc", 2),
    ("com,example)/b", "20160102000000", "a.warc", 3),
];

/// The rest of queries, and what they write for the days.
const COLLAPSED: &[(&str, &str)] = &[
    ("collapse=urlkey", "0\n3\n"),
    ("collapse=timestamp:8", "0\n2\n"),
    ("collapse=timestamp:08", "0\n2\n"),
    ("collapse=timestamp:4", "0\n"),
    ("collapse=timestamp", "0\n1\n2\n"),
    ("collapse=timestamp:14", "0\n1\n2\n"),
    ("collapse=timestamp:8&isnot=offset:0", "1\n2\n"),
    ("collapse=timestamp:8&isnot=offset:2", "0\n3\n"),
    (
        "collapse=timestamp:8&resumeKey=com%2Cexample%29%2F+20160101120000+a.warc+1",
        "2\n",
    ),
    (
        "collapse=timestamp:8&resumeKey=com%2Cexample%29%2F+20160102000000+a.warc+2",
        "",
    ),
    (
        "collapse=urlkey&resumeKey=com%2Cexample%29%2F+20160101000000+a.warc+0",
        "3\n",
    ),
    (
        "collapse=urlkey&resumeKey=com%2Cexample%29%2F+20150101000000+z.warc+9",
        "3\n",
    ),
    (
        "collapse=urlkey&resumeKey=com%2Cexample%29%2Fa+20160101000000+a.warc+0",
        "3\n",
    ),
    (
        "collapse=timestamp:8&limit=1&showResumeKey=true",
        "0\n\ncom%2Cexample%29%2F+20160101000000+a.warc+0\n",
    ),
    ("collapse=timestamp:8&limit=2&showResumeKey=true", "0\n2\n"),
    ("collapse=urlkey&limit=2&showResumeKey=true", "0\n3\n"),
];

#[test]
fn the_first_of_those_with_a_part_in_common_is_given(rt: HostRuntime) -> Result<(), Fail> {
    let index = index_text(rt.alloc(), DAYS)?;
    for (rest, wanted) in COLLAPSED {
        let query = format!(in rt.alloc(); "url=example.com&matchType=prefix&fl=offset&{rest}")?;
        let (_report, out) = page(rt.alloc(), &mut [SliceSource::new(&index)], query.as_str())?;
        assert!(rt; out.bytes() == wanted.as_bytes(), "{rest}");
    }
    Ok(())
}

const BY_DAY: &str = "url=example.com&matchType=prefix&fl=offset&collapse=timestamp:8";

const PAGES_BY_DAY: &str = "0\n\ncom%2Cexample%29%2F+20160101000000+a.warc+0\n2\n";

#[test]
fn a_page_goes_on_with_another_part(rt: HostRuntime) -> Result<(), Fail> {
    let index = index_text(rt.alloc(), DAYS)?;
    let (count, out) = paged(rt.alloc(), &mut [SliceSource::new(&index)], BY_DAY, &[1])?;
    assert!(rt; count == Ok(2) && out.bytes() == PAGES_BY_DAY.as_bytes());
    Ok(())
}

/// Returns the rows of pages, without their resume keys.
fn rows(alloc: Global, pages: &[u8]) -> Result<String, Fail> {
    let mut rows = String::new(alloc);
    for line in str::from_utf8(pages)?.split('\n') {
        if !line.is_empty() && !line.contains('+') {
            rows.push_str(line)?;
            rows.push('\n')?;
        }
    }
    Ok(rows)
}

/// One capture of each ten seconds.
const BY_TEN_SECONDS: &str = "url=example.com&fl=offset&collapse=timestamp:13";

/// Sizes of pages, and the number of pages.
const SIZES: &[(u64, u64)] = &[(1, 100), (2, 50), (7, 15), (1_000, 1)];

/// Returns `true` if there are this many pages of this size, and they have the captures of one page of all.
fn are_alike(alloc: Global, index: &[u8], size: u64, wanted: u64) -> Result<bool, Fail> {
    let mut sources = [SliceSource::new(index)];
    let (count, out) = paged(alloc, &mut sources, BY_TEN_SECONDS, &[size])?;
    let (_report, whole) = page(alloc, &mut sources, BY_TEN_SECONDS)?;
    Ok(count == Ok(wanted) && rows(alloc, out.bytes())?.as_bytes() == whole.bytes())
}

#[test]
fn pages_of_any_size_have_the_same_captures(rt: HostRuntime) -> Result<(), Fail> {
    let index = rising_lines(rt.alloc(), 1_000)?;
    for (size, count) in SIZES {
        assert!(rt; are_alike(rt.alloc(), &index, *size, *count)?, "{size}");
    }
    Ok(())
}
