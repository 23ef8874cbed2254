//! The pages of queries, one after another.
use crate::calls::{page, paged};
use crate::small_indexes::{APART, empty_sources, files, index_texts, slices};
use fixtures::{HOSTS, LETTER_ROWS, Rows};
use query_core::{AnswerFault, SliceSource, Source};
use std::alloc::Global;
use std::fs::File;
use std::rt::Runtime;
use std::test::Fail;

/// A query over indexes, sizes, the pages that answer it, and their number.
struct Case {
    indexes: &'static [Rows],
    query: &'static str,
    sizes: &'static [u64],
    pages: &'static str,
    count: u64,
}

const CASES: &[Case] = &[
    Case {
        indexes: APART,
        query: "url=example.com&fl=filename,offset",
        sizes: &[1, 2],
        pages: "a.warc 5\n\ncom%2Cexample%29%2F+20160101000000+a.warc+5\na.warc 20\nb.warc 10\n",
        count: 2,
    },
    Case {
        indexes: APART,
        query: "url=example.com&fl=filename,offset&limit=1&showResumeKey=false",
        sizes: &[2],
        pages: "a.warc 5\na.warc 20\n\ncom%2Cexample%29%2F+20160101000000+a.warc+20\nb.warc 10\n",
        count: 2,
    },
    Case {
        indexes: APART,
        query: "url=example.com&fl=offset",
        sizes: &[1],
        pages: "5\n\ncom%2Cexample%29%2F+20160101000000+a.warc+5\n20\n\ncom%2Cexample%29%2F+20160101000000+a.warc+20\n10\n",
        count: 3,
    },
    Case {
        indexes: APART,
        query: "url=example.com&fl=offset&resumeKey=com%2Cexample%29%2F+20160101000000+a.warc+5",
        sizes: &[2],
        pages: "20\n10\n",
        count: 1,
    },
    Case {
        indexes: APART,
        query: "url=example.com&fl=offset&output=json",
        sizes: &[2],
        pages: "[[\"offset\"],\n[\"5\"],\n[\"20\"],\n[],\n[\"com%2Cexample%29%2F+20160101000000+a.warc+20\"]]\n[[\"offset\"],\n[\"10\"]]\n",
        count: 2,
    },
    Case {
        indexes: &[LETTER_ROWS],
        query: "key=z)/&output=json&fl=offset",
        sizes: &[1_000_000],
        pages: "[[\"offset\"]]\n",
        count: 1,
    },
    Case {
        indexes: &[LETTER_ROWS, HOSTS],
        query: "key=z)/",
        sizes: &[1],
        pages: "",
        count: 1,
    },
];

/// Returns `true` if the sources give this answer.
fn answers<S: Source>(alloc: Global, sources: &mut [S], case: &Case) -> Result<bool, Fail> {
    let (count, out) = paged(alloc, sources, case.query, case.sizes)?;
    Ok(count == Ok(case.count) && out.bytes() == case.pages.as_bytes())
}

fn answers_from_memory(alloc: Global, case: &Case) -> Result<bool, Fail> {
    let texts = index_texts(alloc, case.indexes)?;
    answers(alloc, &mut slices(alloc, &texts)?, case)
}

fn answers_from_files<R: Runtime<File = File> + AllocGlobal>(
    rt: &R,
    case: &Case,
) -> Result<bool, Fail> {
    let texts = index_texts(rt.alloc(), case.indexes)?;
    answers(rt.alloc(), &mut files(rt, &texts)?, case)
}

#[test]
fn pages_follow_one_another(rt: HostRuntime) -> Result<(), Fail> {
    for (number, case) in CASES.iter().enumerate() {
        assert!(rt; answers_from_memory(rt.alloc(), case)?, "row {number}");
        assert!(rt; answers_from_files(&rt, case)?, "row {number} of files");
    }
    Ok(())
}

fn all_gave(sources: &[SliceSource<'_>]) -> u64 {
    let mut gave = 0u64;
    for source in sources {
        gave = gave.saturating_add(source.gave());
    }
    gave
}

/// Returns `true` if pages of one capture read as many bytes as one page of all captures.
fn reads_once(alloc: Global, query: &str) -> Result<bool, Fail> {
    let texts = index_texts(alloc, &[APART[0], APART[1], APART[2], HOSTS])?;
    let mut for_pages = slices(alloc, &texts)?;
    let (_count, _pages) = paged(alloc, &mut for_pages, query, &[1])?;
    let mut for_page = slices(alloc, &texts)?;
    let (_report, _page) = page(alloc, &mut for_page, query)?;
    Ok(all_gave(&for_pages) == all_gave(&for_page))
}

#[test]
fn pages_read_what_one_page_reads(rt: HostRuntime) -> Result<(), Fail> {
    for text in ["url=*.example.com", "url=com,example", "key=z)/"] {
        assert!(rt; reads_once(rt.alloc(), text)?, "{text}");
    }
    Ok(())
}

/// Returns the rows of a page, and the resume key that follows them, if there is one.
fn cut_key(page: &str) -> (&str, Option<&str>) {
    match page.split_once("\n\n") {
        Some((rows, key)) => (rows, Some(key.trim_ascii_end())),
        None => (page.trim_ascii_end(), None),
    }
}

fn query_after(alloc: Global, limit: u64, key: &str) -> Result<String, Fail> {
    let text = format!(in alloc;
        "url=*.example.com&fl=filename,offset&showResumeKey=true&limit={limit}{key}"
    )?;
    Ok(text)
}

/// Appends the rows of a page, and returns what a query has to say for the next.
fn append_rows(alloc: Global, page: &str, rows: &mut String) -> Result<Option<String>, Fail> {
    let (page, next) = cut_key(page);
    rows.push_str(page)?;
    rows.push_str("\n")?;
    match next {
        Some(next) => Ok(Some(format!(in alloc; "&resumeKey={next}")?)),
        None => Ok(None),
    }
}

/// Appends the rows of the page after a resume key to those before it, and returns the next key.
fn step(
    alloc: Global,
    sources: &mut [SliceSource<'_>],
    limit: u64,
    key: &str,
    rows: &mut String,
) -> Result<Option<String>, Fail> {
    let text = query_after(alloc, limit, key)?;
    let (_report, out) = page(alloc, sources, text.as_str())?;
    append_rows(alloc, str::from_utf8(out.bytes())?, rows)
}

const ALL_ROWS: &str = "a.warc 0\na.warc 5\na.warc 20\nb.warc 10\na.warc 1\na.warc 3\n";

/// Returns the rows of all pages of this many captures. Each page begins at the key that was printed before it.
fn walked(alloc: Global, limit: u64) -> Result<String, Fail> {
    let texts = index_texts(alloc, &[APART[0], APART[1], APART[2], HOSTS])?;
    let mut sources = slices(alloc, &texts)?;
    let mut rows = String::new(alloc);
    let mut key = String::new(alloc);
    for _ in 0..10 {
        match step(alloc, &mut sources, limit, key.as_str(), &mut rows)? {
            Some(next) => key = next,
            None => return Ok(rows),
        }
    }
    Ok(rows)
}

fn is_walked(alloc: Global, limit: u64) -> Result<bool, Fail> {
    Ok(walked(alloc, limit)?.as_str() == ALL_ROWS)
}

#[test]
fn resume_keys_lead_through_all_captures(rt: HostRuntime) -> Result<(), Fail> {
    for limit in 1..8 {
        assert!(rt; is_walked(rt.alloc(), limit)?, "{limit}");
    }
    Ok(())
}

/// Numbers of indexes, sizes, and the fault for both.
const EARLY_FAULTS: &[(usize, &[u64], Option<AnswerFault>)] = &[
    (1, &[], Some(AnswerFault::BadSizes)),
    (1, &[0], Some(AnswerFault::BadSizes)),
    (1, &[1, 0], Some(AnswerFault::BadSizes)),
    (1_024, &[1], None),
    (1_025, &[], Some(AnswerFault::BadSizes)),
    (1_025, &[1], Some(AnswerFault::TooManySources)),
];

#[test]
fn sizes_are_looked_at_before_the_number_of_indexes(rt: HostRuntime) -> Result<(), Fail> {
    for (number, (count, sizes, fault)) in EARLY_FAULTS.iter().enumerate() {
        let mut sources = empty_sources(rt.alloc(), *count)?;
        let (result, out) = paged(
            rt.alloc(),
            &mut sources,
            "url=example.com&output=json",
            sizes,
        )?;
        let is_written = !out.bytes().is_empty();
        assert!(rt;
            result.err() == *fault && is_written == fault.is_none(),
            "row {number}"
        );
    }
    Ok(())
}
