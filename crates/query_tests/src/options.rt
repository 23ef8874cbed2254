//! What queries specify about their pages.
use cdxj_core::{Field, Place};
use fixtures::{joined, repeated};
use query_text::{Collapse, OutputFormat, Query, QueryFault};
use std::alloc::Global;
use std::test::Fail;

/// The rest of a query's text, its limit, whether it shows the resume key, its output and its collapse.
type Options = (
    &'static str,
    Option<u64>,
    bool,
    OutputFormat,
    Option<Collapse>,
);

const OPTIONS: &[Options] = &[
    ("", None, false, OutputFormat::Text, None),
    ("&limit=1", Some(1), false, OutputFormat::Text, None),
    ("&limit=0000001", Some(1), false, OutputFormat::Text, None),
    (
        "&limit=1000000",
        Some(1_000_000),
        false,
        OutputFormat::Text,
        None,
    ),
    (
        "&limit=007&showResumeKey=true&output=json",
        Some(7),
        true,
        OutputFormat::Json,
        None,
    ),
    (
        "&output=cdxj&showResumeKey=false",
        None,
        false,
        OutputFormat::Cdxj,
        None,
    ),
    ("&output=text", None, false, OutputFormat::Text, None),
    (
        "&collapse=urlkey",
        None,
        false,
        OutputFormat::Text,
        Some(Collapse::Urlkey),
    ),
    (
        "&collapse=timestamp",
        None,
        false,
        OutputFormat::Text,
        Some(Collapse::Timestamp(14)),
    ),
    (
        "&collapse=timestamp:01",
        None,
        false,
        OutputFormat::Text,
        Some(Collapse::Timestamp(1)),
    ),
];

/// Returns `true` if a query with this rest has these options.
fn has_options(alloc: Global, options: &Options) -> Result<bool, Fail> {
    let (rest, limit, shows, output, collapse) = options;
    let text = format!(in alloc; "key=k{rest}")?;
    let query = Query::read(alloc, text.as_str())?;
    Ok(
        query.limit() == *limit
            && query.shows_resume_key() == *shows
            && query.output() == *output
            && query.collapse() == *collapse,
    )
}

#[test]
fn a_query_has_what_its_text_says_or_its_defaults(rt: HostRuntime) -> Result<(), Fail> {
    for (number, options) in OPTIONS.iter().enumerate() {
        assert!(rt; has_options(rt.alloc(), options)?, "row {number}");
    }
    Ok(())
}

const USUAL_FIELDS: &[Field] = &[
    Field::Urlkey,
    Field::Timestamp,
    Field::Original,
    Field::Mimetype,
    Field::Statuscode,
    Field::Digest,
    Field::Length,
];

const TWO_FIELDS: &[Field] = &[Field::Offset, Field::Filename, Field::Offset];

/// Returns `true` if the place is that of the resume key.
fn is_resume_place(place: Place<'_>) -> bool {
    place.key == "k=1" && place.filename == "a b.warc" && place.offset == 5
}

#[test]
fn a_query_has_its_fields_and_its_resume_key(rt: HostRuntime) -> Result<(), QueryFault> {
    let usual = Query::read(rt.alloc(), "key=k")?;
    assert!(rt; usual.fields() == USUAL_FIELDS && usual.resume().is_none());
    let query = Query::read(
        rt.alloc(),
        "key=k&resumeKey=k=1+20160101000000+a+b.warc+5&fl=offset,filename,offset",
    )?;
    assert!(rt; query.fields() == TWO_FIELDS && query.resume().is_some_and(is_resume_place));
    Ok(())
}

#[test]
fn a_field_may_stand_9000_times(rt: HostRuntime) -> Result<(), Fail> {
    let fields = repeated(rt.alloc(), b",offset", 8_999)?;
    let text = joined(rt.alloc(), &[b"key=k&fl=offset", &fields])?;
    let query = Query::read(rt.alloc(), str::from_utf8(&text)?)?;
    assert!(rt; query.fields().len() == 9_000);
    Ok(())
}
