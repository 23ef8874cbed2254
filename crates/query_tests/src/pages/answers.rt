//! Answers to queries over indexes.
use crate::calls::{answered, page};
use crate::small_indexes::{APART, empty_sources, files, index_texts, slices};
use fixtures::{FIRST_OF_2016, HOSTS, IMAGE, LETTER_ROWS, LETTERS, PAGE, Rows, rising_lines};
use query_core::{AnswerFault, SliceSource, Source};
use std::alloc::Global;
use std::fs::File;
use std::rt::Runtime;
use std::test::Fail;

/// A query over indexes, the page that answers it, the number of its captures, and whether more follow.
struct Case {
    indexes: &'static [Rows],
    query: &'static str,
    page: &'static str,
    given: u64,
    more: bool,
}

const YEARS: Rows = &[
    ("com,example)/", "20161231235959", "a.warc", 0),
    ("com,example)/", "20170101000000", "a.warc", 1),
];

const FOUR_DIGITS_FIRST: Rows = &[
    ("com,example)/", FIRST_OF_2016, "a.warc", 1000),
    ("com,example)/", FIRST_OF_2016, "a.warc", 99),
];

const TWO_KEYS: Rows = &[
    ("com,example)/", FIRST_OF_2016, "a.warc", 1),
    ("com,example)/", FIRST_OF_2016, "a.warc", 2),
    ("com,example)/", FIRST_OF_2016, "a.warc", 3),
    ("org,example)/", FIRST_OF_2016, "a.warc", 4),
];

const CASES: &[Case] = &[
    Case {
        indexes: &[HOSTS],
        query: "url=*.example.com&fl=offset",
        page: "0\n1\n3\n",
        given: 3,
        more: false,
    },
    Case {
        indexes: &[HOSTS],
        query: "url=example.com&matchType=host&fl=offset",
        page: "0\n3\n",
        given: 2,
        more: false,
    },
    Case {
        indexes: &[HOSTS],
        query: "url=example.com&fl=offset",
        page: "0\n",
        given: 1,
        more: false,
    },
    Case {
        indexes: &[YEARS],
        query: "url=example.com&from=2016&to=20161&fl=timestamp",
        page: "20161231235959\n",
        given: 1,
        more: false,
    },
    Case {
        indexes: APART,
        query: "url=example.com&fl=filename,offset&output=json&limit=1&showResumeKey=true",
        page: "[[\"filename\",\"offset\"],\n[\"a.warc\",\"5\"],\n[],\n[\"com%2Cexample%29%2F+20160101000000+a.warc+5\"]]\n",
        given: 1,
        more: true,
    },
    Case {
        indexes: APART,
        query: "url=example.com&fl=offset&resumeKey=com%2Cexample%29%2F+20160101000000+a.warc+5",
        page: "20\n10\n",
        given: 2,
        more: false,
    },
    Case {
        indexes: APART,
        query: "url=example.com&fl=offset&resumeKey=com%2Cexample%29%2F+20160101000000+a.warc+19&limit=1",
        page: "20\n",
        given: 1,
        more: true,
    },
    Case {
        indexes: &[FOUR_DIGITS_FIRST],
        query: "url=example.com&fl=offset",
        page: "99\n1000\n",
        given: 2,
        more: false,
    },
    Case {
        indexes: &[TWO_KEYS],
        query: "url=example.com&limit=3&showResumeKey=true&fl=offset",
        page: "1\n2\n3\n",
        given: 3,
        more: false,
    },
    Case {
        indexes: &[TWO_KEYS],
        query: "url=example.com&limit=2&showResumeKey=true&fl=offset",
        page: "1\n2\n\ncom%2Cexample%29%2F+20160101000000+a.warc+2\n",
        given: 2,
        more: true,
    },
    Case {
        indexes: &[TWO_KEYS],
        query: "url=example.com&limit=2&fl=offset",
        page: "1\n2\n",
        given: 2,
        more: true,
    },
    Case {
        indexes: &[LETTER_ROWS],
        query: "key=a)/&fl=offset",
        page: "0\n",
        given: 1,
        more: false,
    },
    Case {
        indexes: &[LETTER_ROWS],
        query: "key=c)/&fl=offset,offset",
        page: "2 2\n",
        given: 1,
        more: false,
    },
    Case {
        indexes: &[LETTER_ROWS, LETTER_ROWS],
        query: "key=&matchType=prefix&output=json&fl=urlkey,mimetype",
        page: "[[\"urlkey\",\"mimetype\"],\n[\"a)/\",\"text/html\"],\n[\"b)/\",\"text/html\"],\n[\"c)/\",\"text/html\"]]\n",
        given: 3,
        more: false,
    },
    Case {
        indexes: &[LETTER_ROWS],
        query: "key=0",
        page: "",
        given: 0,
        more: false,
    },
    Case {
        indexes: &[LETTER_ROWS],
        query: "key=z)/",
        page: "",
        given: 0,
        more: false,
    },
    Case {
        indexes: &[&[], LETTER_ROWS],
        query: "key=bb)/&output=json&showResumeKey=true",
        page: "[[\"urlkey\",\"timestamp\",\"original\",\"mimetype\",\"statuscode\",\"digest\",\"length\"]]\n",
        given: 0,
        more: false,
    },
    Case {
        indexes: &[],
        query: "url=example.com",
        page: "",
        given: 0,
        more: false,
    },
];

/// Returns `true` if the sources give this answer.
fn answers<S: Source>(alloc: Global, sources: &mut [S], case: &Case) -> Result<bool, Fail> {
    let (report, out) = page(alloc, sources, case.query)?;
    Ok(
        report.given == case.given
            && report.more == case.more
            && out.bytes() == case.page.as_bytes(),
    )
}

fn answers_from_memory(alloc: Global, case: &Case) -> Result<bool, Fail> {
    let texts = index_texts(alloc, case.indexes)?;
    answers(alloc, &mut slices(alloc, &texts)?, case)
}

fn answers_from_files<R: Runtime<File = File> + AllocGlobal>(
    rt: &R,
    case: &Case,
) -> Result<bool, Fail> {
    let texts = index_texts(rt.alloc(), case.indexes)?;
    answers(rt.alloc(), &mut files(rt, &texts)?, case)
}

#[test]
fn a_query_is_answered_by_its_page(rt: HostRuntime) -> Result<(), Fail> {
    for (number, case) in CASES.iter().enumerate() {
        assert!(rt; answers_from_memory(rt.alloc(), case)?, "row {number}");
        assert!(rt; answers_from_files(&rt, case)?, "row {number} of files");
    }
    Ok(())
}

/// A line of another tool. Its status is a number, and it has one more member. Its file name has a space, and no line
/// feed follows.
const FOREIGN: &[u8] =
    b"com,example)/ 20140103030321 {\"url\": \"http://example.com/\", \"mime\": \"text/html\", \"status\": 200, \"digest\": \"B2LTWWPUOYAH7UIPQ7ZUPQ4VMBSVC36A\", \"length\": \"1043\", \"offset\": \"333\", \"filename\": \"example b.warc\", \"source\": \"x\"}";

const FOREIGN_LINE: &[u8] =
    b"com,example)/ 20140103030321 {\"url\": \"http://example.com/\", \"mime\": \"text/html\", \"status\": 200, \"digest\": \"B2LTWWPUOYAH7UIPQ7ZUPQ4VMBSVC36A\", \"length\": \"1043\", \"offset\": \"333\", \"filename\": \"example b.warc\", \"source\": \"x\"}\n";

/// The texts of two indexes, a query over them, and the page that answers it.
const TEXTS: &[(&[u8], &[u8], &str, &[u8])] = &[
    (PAGE, IMAGE, "url=example.com&is=mimetype:image/png", b""),
    (PAGE, IMAGE, "url=example.com&fl=mimetype", b"text/html\n"),
    (IMAGE, PAGE, "url=example.com&fl=mimetype", b"image/png\n"),
    (
        FOREIGN,
        PAGE,
        "url=example.com&fl=statuscode,filename&to=2015",
        b"200 example%20b.warc\n",
    ),
    (FOREIGN, b"", "url=example.com&output=cdxj", FOREIGN_LINE),
    (
        b"",
        FOREIGN,
        "url=example.com&output=cdxj&fl=offset",
        FOREIGN_LINE,
    ),
];

#[test]
fn the_first_line_of_a_place_counts_before_filters_do(rt: HostRuntime) -> Result<(), Fail> {
    for (first, second, query, wanted) in TEXTS {
        let mut sources = [SliceSource::new(first), SliceSource::new(second)];
        let (_report, out) = page(rt.alloc(), &mut sources, query)?;
        assert!(rt; out.bytes() == *wanted, "{query}");
    }
    Ok(())
}

/// Queries over the letters, the number of lines in the answer, and the greatest number of lines read.
const READ_OF_LETTERS: &[(&str, u64, u64)] = &[
    ("key=a)/&fl=offset", 1, 2),
    ("key=c)/&fl=offset", 1, 2),
    ("key=0", 0, 1),
    ("key=z)/", 0, 1),
];

#[test]
fn little_is_read_of_an_index(rt: HostRuntime) -> Result<(), Fail> {
    for (query, given, lines) in READ_OF_LETTERS {
        let (report, _page) = page(rt.alloc(), &mut [SliceSource::new(LETTERS)], query)?;
        assert!(rt; report.given == *given && report.lines <= *lines, "{query}");
        assert!(rt; report.probes <= 10, "{query}");
    }
    Ok(())
}

#[test]
fn one_line_of_each_index_is_held_and_those_of_one_pair(rt: HostRuntime) -> Result<(), Fail> {
    let texts = index_texts(rt.alloc(), APART)?;
    let mut sources = slices(rt.alloc(), &texts)?;
    let query = "url=example.com&fl=offset&limit=1";
    let (report, _page) = page(rt.alloc(), &mut sources, query)?;
    assert!(rt; report.given == 1 && report.more && report.lines == 3 && report.held == 3);
    Ok(())
}

const AFTER_499: &str =
    "url=example.com&fl=offset&limit=10&showResumeKey=true&resumeKey=com%2Cexample%29%2F+20160101000499+a.warc+499";

const FROM_500: &str =
    "500\n501\n502\n503\n504\n505\n506\n507\n508\n509\n\ncom%2Cexample%29%2F+20160101000509+a.warc+509\n";

#[test]
fn a_page_is_read_from_its_resume_key_on(rt: HostRuntime) -> Result<(), Fail> {
    let text = rising_lines(rt.alloc(), 1_000)?;
    let (report, out) = page(rt.alloc(), &mut [SliceSource::new(&text)], AFTER_499)?;
    assert!(rt; out.bytes() == FROM_500.as_bytes());
    assert!(rt; report.lines >= 10 && report.lines <= 13 && report.held <= 2);
    Ok(())
}

/// Numbers of empty indexes, and the fault of a query over them.
const COUNTS: &[(usize, Option<AnswerFault>)] = &[
    (1_024, None),
    (1_025, Some(AnswerFault::TooManySources)),
];

#[test]
fn at_most_1024_indexes_are_asked(rt: HostRuntime) -> Result<(), Fail> {
    for (count, fault) in COUNTS {
        let mut sources = empty_sources(rt.alloc(), *count)?;
        let (result, out) = answered(rt.alloc(), &mut sources, "url=example.com&output=json")?;
        assert!(rt;
            result.err() == *fault && out.bytes().is_empty() == fault.is_some(),
            "{count}"
        );
    }
    Ok(())
}
