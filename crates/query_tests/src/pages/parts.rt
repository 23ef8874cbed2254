//! The parts of pages, and the opening of sources at a pair.
use cdxj_core::{Field, Line, Pair};
use devices::Gather;
use fixtures::LETTERS;
use merge_core::{All, LineWriter, MergeState, merge};
use page_core::{PageForm, PageOutput};
use query_core::SliceSource;
use std::alloc::{AllocError, Global};
use std::test::Fail;

const LINE: &[u8] =
    b"com,example)/ 20160101000000 {\"url\": \"http://x/ \\\"\\u00e9\\t\", \"status\": 200, \"offset\": \"007\", \"filename\": \"a b.warc\"}";

const FIELDS: &[Field] = &[
    Field::Original,
    Field::Mimetype,
    Field::Statuscode,
    Field::Offset,
];

/// Forms of a page, and the page of that line with a resume key.
const FORMS: &[(PageForm, &str)] = &[
    (
        PageForm::Text(FIELDS),
        "http://x/%20\"é%09 - 200 7\n\nk+1\n",
    ),
    (
        PageForm::Text(&[Field::Urlkey, Field::Timestamp]),
        "com,example)/ 20160101000000\n\nk+1\n",
    ),
    (
        PageForm::Text(&[
            Field::Urlkey,
            Field::Timestamp,
            Field::Statuscode,
            Field::Filename,
        ]),
        "com,example)/ 20160101000000 200 a%20b.warc\n\nk+1\n",
    ),
    (
        PageForm::Text(&[Field::Urlkey, Field::Statuscode]),
        "com,example)/ 200\n\nk+1\n",
    ),
    (
        PageForm::Text(&[Field::Filename, Field::Timestamp, Field::Urlkey]),
        "a%20b.warc 20160101000000 com,example)/\n\nk+1\n",
    ),
    (
        PageForm::Json(FIELDS),
        "[[\"original\",\"mimetype\",\"statuscode\",\"offset\"],\n[\"http://x/ \\\"é\\t\",\"-\",\"200\",\"7\"],\n[],\n[\"k+1\"]]\n",
    ),
    (
        PageForm::Cdxj,
        "com,example)/ 20160101000000 {\"url\": \"http://x/ \\\"\\u00e9\\t\", \"status\": 200, \"offset\": \"007\", \"filename\": \"a b.warc\"}\n\nk+1\n",
    ),
];

/// Returns the page of a line, with the resume key `k+1`, unless memory can't be allocated. The output fails for no
/// other reason.
fn page_of(alloc: Global, form: PageForm<'_>, line: &Line) -> Result<Gather, AllocError> {
    let mut out = Gather::new(alloc);
    let mut page = PageOutput::new(alloc, form);
    page.put_start(&mut out).map_err(|_fault| AllocError)?;
    page.put_row(line, &mut out).map_err(|_fault| AllocError)?;
    page.put_end(Some("k+1"), &mut out)
        .map_err(|_fault| AllocError)?;
    Ok(out)
}

fn is_page(alloc: Global, form: PageForm<'_>, line: &Line, page: &str) -> Result<bool, AllocError> {
    Ok(page_of(alloc, form, line)?.bytes() == page.as_bytes())
}

#[test]
fn a_page_is_written_in_its_form(rt: HostRuntime) -> Result<(), Fail> {
    let line = Line::read(rt.alloc(), LINE)?;
    for (number, (form, page)) in FORMS.iter().enumerate() {
        assert!(rt; is_page(rt.alloc(), *form, &line, page)?, "row {number}");
    }
    Ok(())
}

/// Pairs at which two sources are opened, and how many bytes of the letters precede them.
const STARTS: &[(&str, &[u8; 14], usize)] = &[
    ("", b"00000000000000", 0),
    ("a)/", b"20160101000000", 0),
    ("a)/", b"20160101000001", 145),
    ("b)/", b"00000000000000", 145),
    ("bb)/", b"00000000000000", 290),
    ("z)/", b"00000000000000", 435),
];

/// Returns the merge of the text and an empty one from this pair on, and the number of steps of the search for it.
fn merged_from(alloc: Global, text: &[u8], start: Pair<'_>) -> Result<(Gather, u64), Fail> {
    let mut sources = [SliceSource::new(text), SliceSource::new(b"")];
    let Ok(mut opened) = MergeState::open_at(alloc, &mut sources, start, &All) else {
        return Err(Fail::from(AllocError));
    };
    let mut writer = LineWriter::new();
    let mut out = Gather::new(alloc);
    let _all = merge(
        alloc,
        &mut sources,
        &mut opened.merge,
        &All,
        &mut writer,
        &mut out,
    )
    .map_err(|_fault| AllocError)?;
    Ok((out, opened.probes))
}

/// Returns `true` if the merge from this pair on has all lines of the letters but the first `before` bytes, after few steps.
fn begins_at(alloc: Global, start: Pair<'_>, before: usize) -> Result<bool, Fail> {
    let (out, probes) = merged_from(alloc, LETTERS, start)?;
    Ok(
        LETTERS
            .get(before..)
            .is_some_and(|rest| rest == out.bytes())
            && probes <= 9,
    )
}

#[test]
fn sources_are_opened_at_a_pair(rt: HostRuntime) -> Result<(), Fail> {
    for (key, stamp, before) in STARTS {
        let start = Pair {
            key,
            stamp: **stamp,
        };
        assert!(rt; begins_at(rt.alloc(), start, *before)?, "{key}");
    }
    Ok(())
}
