//! What lines say.
use cdxj_core::{
    Entry, Field, Line, LineFault, LineRef, Pair, field_name, field_named, split_pair,
};
use fixtures::{FOREIGN, cut};
use std::alloc::Global;
use std::test::Fail;

const FOREIGN_VALUES: &[(Field, &str)] = &[
    (Field::Urlkey, "com,example)/"),
    (Field::Timestamp, "20140103030321"),
    (Field::Original, "http://example.com/"),
    (Field::Mimetype, "text/html"),
    (Field::Statuscode, "200"),
    (Field::Digest, "B2LTWWPUOYAH7UIPQ7ZUPQ4VMBSVC36A"),
    (Field::Length, "1043"),
    (Field::Offset, "333"),
    (Field::Filename, "example.warc"),
];

fn has_foreign_values(read: &LineRef<'_>) -> bool {
    FOREIGN_VALUES
        .iter()
        .all(|(field, value)| read.value(*field) == *value)
}

const FOREIGN_PAIR: Pair<'static> = Pair {
    key: "com,example)/",
    stamp: *b"20140103030321",
};

#[test]
fn a_foreign_line_is_read(rt: HostRuntime) -> Result<(), LineFault> {
    let kept = Line::read(rt.alloc(), FOREIGN)?;
    let read = kept.values();
    assert!(rt; has_foreign_values(&read) && read.pair() == FOREIGN_PAIR);
    assert!(rt; read.line() == FOREIGN);
    Ok(())
}

/// Returns `true` if the entry has the texts of the foreign line.
fn has_foreign_texts(entry: &Entry) -> bool {
    entry.key.as_str() == "com,example)/"
        && entry.stamp == *b"20140103030321"
        && entry.url.as_str() == "http://example.com/"
        && entry.mime.as_str() == "text/html"
        && entry.status.as_str() == "200"
        && entry.digest.as_str() == "B2LTWWPUOYAH7UIPQ7ZUPQ4VMBSVC36A"
        && entry.filename.as_str() == "example.warc"
}

#[test]
fn an_entry_is_copied_of_a_line(rt: HostRuntime) -> Result<(), LineFault> {
    let kept = Line::read(rt.alloc(), FOREIGN)?;
    let entry = Entry::of_line(rt.alloc(), &kept.values(), 7)?;
    assert!(rt; has_foreign_texts(&entry));
    assert!(rt; entry.length == 7 && entry.offset == 333);
    Ok(())
}

/// The names by which the Wayback CDX Server API knows the fields.
const NAMES: &[(&str, Field)] = &[
    ("urlkey", Field::Urlkey),
    ("timestamp", Field::Timestamp),
    ("original", Field::Original),
    ("mimetype", Field::Mimetype),
    ("statuscode", Field::Statuscode),
    ("digest", Field::Digest),
    ("length", Field::Length),
    ("offset", Field::Offset),
    ("filename", Field::Filename),
];

fn names(name: &str, field: Field) -> bool {
    field_name(field) == name && field_named(name) == Some(field)
}

#[test]
fn fields_have_the_names_of_the_server(rt: HostRuntime) -> Result<(), Fail> {
    assert!(rt; NAMES.iter().all(|(name, field)| names(name, *field)));
    assert!(rt; field_named("Urlkey").is_none() && field_named("").is_none());
    Ok(())
}

const FIELDS: &[Field] = &[
    Field::Original,
    Field::Mimetype,
    Field::Statuscode,
    Field::Digest,
    Field::Length,
    Field::Offset,
    Field::Filename,
];

/// Returns `true` if the line has these values of the fields, with `|` between.
fn has_values(read: &LineRef<'_>, values: &str) -> bool {
    FIELDS
        .iter()
        .zip(values.split('|'))
        .all(|(field, value)| read.value(*field) == value)
}

/// Returns `true` if the line is read with these values.
pub fn is_read(alloc: Global, line: &str, values: &str) -> Result<bool, LineFault> {
    let kept = Line::read(alloc, line.as_bytes())?;
    let read = kept.values();
    let end = line.strip_suffix('\n').unwrap_or(line);
    Ok(
        has_values(&read, values)
            && read.line() == end.as_bytes()
            && split_pair(line.as_bytes()).is_some(),
    )
}

/// Lines by RFC 8259 and the rules of docs/CDXJ.md, with their values.
const ENTRIES: &[(&str, &str, &str)] = &[
    (
        "as a line is written",
        "k 20160101000000 {\"url\": \"http://x/\", \"mime\": \"text/html\", \"status\": \"200\", \"digest\": \"D\", \"length\": \"1\", \"offset\": \"7\", \"filename\": \"f\"}\n",
        "http://x/|text/html|200|D|1|7|f",
    ),
    (
        "without its line feed",
        "k 20160101000000 {\"url\": \"http://x/\", \"mime\": \"text/html\", \"status\": \"200\", \"digest\": \"D\", \"length\": \"1\", \"offset\": \"7\", \"filename\": \"f\"}",
        "http://x/|text/html|200|D|1|7|f",
    ),
    (
        "with a carriage return before it",
        "k 20160101000000 {\"url\": \"http://x/\", \"mime\": \"text/html\", \"status\": \"200\", \"digest\": \"D\", \"length\": \"1\", \"offset\": \"7\", \"filename\": \"f\"}\r\n",
        "http://x/|text/html|200|D|1|7|f",
    ),
    (
        "with white space round the object",
        "k 20160101000000  \t{\"url\": \"http://x/\", \"mime\": \"text/html\", \"status\": \"200\", \"digest\": \"D\", \"length\": \"1\", \"offset\": \"7\", \"filename\": \"f\"} \t\r\n",
        "http://x/|text/html|200|D|1|7|f",
    ),
    (
        "with other white space in the object",
        "k 20160101000000 {\"url\":\"http://x/\"\t,  \"mime\":\"text/html\"\t,  \"status\":\"200\"\t,  \"digest\":\"D\"\t,  \"length\":\"1\"\t,  \"offset\":\"7\"\t,  \"filename\":\"f\"}\n",
        "http://x/|text/html|200|D|1|7|f",
    ),
    (
        "members in another order",
        "k 20160101000000 {\"filename\": \"f\", \"offset\": \"7\", \"length\": \"1\", \"digest\": \"D\", \"status\": \"200\", \"mime\": \"text/html\", \"url\": \"http://x/\"}\n",
        "http://x/|text/html|200|D|1|7|f",
    ),
    (
        "further members",
        "k 20160101000000 {\"a\": 1, \"url\": \"http://x/\", \"mime\": \"text/html\", \"b\": [{}], \"status\": \"200\", \"digest\": \"D\", \"length\": \"1\", \"offset\": \"7\", \"filename\": \"f\", \"source\": \"x\", \"charset\": \"utf-8\"}\n",
        "http://x/|text/html|200|D|1|7|f",
    ),
    (
        "numbers as numbers",
        "k 20160101000000 {\"url\": \"u\", \"mime\": \"m\", \"status\": 200, \"digest\": \"D\", \"length\": 1043, \"offset\": 333, \"filename\": \"f\"}\n",
        "u|m|200|D|1043|333|f",
    ),
    (
        "empty texts",
        "k 20160101000000 {\"url\": \"\", \"mime\": \"\", \"status\": \"\", \"digest\": \"\", \"length\": \"\", \"offset\": \"7\", \"filename\": \"f\"}\n",
        "-|-|-|-|-|7|f",
    ),
    (
        "absent members",
        "k 20160101000000 {\"offset\": \"7\", \"filename\": \"f\"}\n",
        "-|-|-|-|-|7|f",
    ),
    (
        "members of other kinds",
        "k 20160101000000 {\"url\": null, \"mime\": true, \"status\": [200], \"digest\": {\"a\": \"b\"}, \"length\": false, \"offset\": \"7\", \"filename\": \"f\"}\n",
        "-|-|-|-|-|7|f",
    ),
    (
        "numbers that fit no 64 bits without a sign",
        "k 20160101000000 {\"url\": -1, \"mime\": 1.5, \"status\": -0, \"digest\": 1e2, \"length\": 18446744073709551616, \"offset\": \"7\", \"filename\": \"f\"}\n",
        "-|-|-|-|-|7|f",
    ),
];

const OFFSETS: &[(&str, &str, &str)] = &[
    (
        "the largest number and nought",
        "k 20160101000000 {\"url\": 18446744073709551615, \"mime\": 0, \"offset\": \"7\", \"filename\": \"f\"}\n",
        "18446744073709551615|0|-|-|-|7|f",
    ),
    (
        "an offset with leading zeros",
        "k 20160101000000 {\"offset\": \"007\", \"filename\": \"f\"}\n",
        "-|-|-|-|-|7|f",
    ),
    (
        "an offset of nineteen digits",
        "k 20160101000000 {\"offset\": \"0000000000000000009\", \"filename\": \"f\"}\n",
        "-|-|-|-|-|9|f",
    ),
    (
        "the largest offset, as a text",
        "k 20160101000000 {\"offset\": \"9223372036854775807\", \"filename\": \"f\"}\n",
        "-|-|-|-|-|9223372036854775807|f",
    ),
    (
        "the largest offset, as a number",
        "k 20160101000000 {\"offset\": 9223372036854775807, \"filename\": \"f\"}\n",
        "-|-|-|-|-|9223372036854775807|f",
    ),
    (
        "offset 0",
        "k 20160101000000 {\"offset\": 0, \"filename\": \"f\"}\n",
        "-|-|-|-|-|0|f",
    ),
    (
        "a plain object with an offset that is not canonical",
        "k 20160101000000 {\"url\": \"http://x/\", \"mime\": \"text/html\", \"status\": \"200\", \"digest\": \"D\", \"length\": \"1\", \"offset\": \"07\", \"filename\": \"f\"}\n",
        "http://x/|text/html|200|D|1|7|f",
    ),
    (
        "escapes",
        "k 20160101000000 {\"url\": \"a\\u0062\\\"\\\\\\/\\n\", \"filename\": \"\\u00e9\\ud83d\\ude00\", \"offset\": \"7\"}\n",
        "ab\"\\/\n|-|-|-|-|7|\u{e9}\u{1f600}",
    ),
    (
        "texts beyond ASCII",
        "k 20160101000000 {\"url\": \"\u{e9}\u{1f600}\", \"mime\": \"\u{7f}\", \"offset\": \"7\", \"filename\": \"f\"}\n",
        "\u{e9}\u{1f600}|\u{7f}|-|-|-|7|f",
    ),
    (
        "a member that is given twice",
        "k 20160101000000 {\"filename\": \"g\", \"offset\": \"1\", \"offset\": \"7\", \"filename\": \"f\"}\n",
        "-|-|-|-|-|7|f",
    ),
    (
        "an escaped name",
        "k 20160101000000 {\"\\u0075rl\": \"u\", \"offset\": \"7\", \"filename\": \"f\"}\n",
        "u|-|-|-|-|7|f",
    ),
    (
        "names in another case",
        "k 20160101000000 {\"URL\": \"u\", \"offset\": \"7\", \"filename\": \"f\"}\n",
        "-|-|-|-|-|7|f",
    ),
    (
        "a key that begins with !",
        "!meta 20160101000000 {\"offset\": \"7\", \"filename\": \"f\"}\n",
        "-|-|-|-|-|7|f",
    ),
    (
        "a key beyond ASCII",
        "\u{e9})/?\u{2028} 20160101000000 {\"offset\": \"7\", \"filename\": \"f\"}\n",
        "-|-|-|-|-|7|f",
    ),
    (
        "a file name with spaces",
        "k 20160101000000 {\"offset\": \"7\", \"filename\": \" a b \"}\n",
        "-|-|-|-|-|7| a b ",
    ),
    (
        "nested 127 deep",
        "k 20160101000000 {\"a\": [[[[[[[[[[[[[[[[[[[[[[[[[[[[[[[[[[[[[[[[[[[[[[[[[[[[[[[[[[[[[[[[[[[[[[[[[[[[[[[[[[[[[[[[[[[[[[[[[[[[[[[[[[[[[[[[[[[[[[[[[[[[[[]]]]]]]]]]]]]]]]]]]]]]]]]]]]]]]]]]]]]]]]]]]]]]]]]]]]]]]]]]]]]]]]]]]]]]]]]]]]]]]]]]]]]]]]]]]]]]]]]]]]]]]]]]]]]]]]]]]]]]]]]]]]]], \"offset\": \"7\", \"filename\": \"f\"}\n",
        "-|-|-|-|-|7|f",
    ),
    (
        "a stamp that is no date",
        "k 00000000000000 {\"offset\": \"7\", \"filename\": \"f\"}",
        "-|-|-|-|-|7|f",
    ),
];

#[test]
fn lines_have_their_values(rt: HostRuntime) -> Result<(), LineFault> {
    for table in [ENTRIES, OFFSETS] {
        for (name, line, values) in table.iter() {
            assert!(rt; is_read(rt.alloc(), line, values)?, "{name}");
        }
    }
    Ok(())
}

/// A line whose file name is escaped, so that it doesn't stand in the line as it is.
const ESCAPED: &[u8] = b"k 20160101000000 {\"offset\": 7, \"filename\": \"\\u00e9.warc\"}\n";

/// Returns `true` if a kept line is this one, with this pair and at this place.
fn keeps(kept: &Line, line: &[u8], key: &str, stamp: &[u8; 14], filename: &str, at: u64) -> bool {
    let place = kept.place();
    kept.line() == line
        && place.key == key
        && place.stamp == *stamp
        && place.filename == filename
        && place.offset == at
}

fn keeps_foreign(kept: &Line) -> bool {
    keeps(
        kept,
        FOREIGN,
        "com,example)/",
        b"20140103030321",
        "example.warc",
        333,
    )
}

fn keeps_escaped(kept: &Line) -> bool {
    let line = cut(ESCAPED, ESCAPED.len().saturating_sub(1));
    keeps(kept, line, "k", b"20160101000000", "\u{e9}.warc", 7)
}

/// Returns `true` if a kept line has this value of a field.
pub fn has_member(kept: &Line, field: Field, value: &str) -> bool {
    kept.values().value(field) == value
}

/// Returns `true` if a text without a pair is refused.
fn refuses_key_alone(kept: &mut Line) -> Result<bool, LineFault> {
    match kept.refill(b"k", &mut None) {
        Err(LineFault::Memory) => Err(LineFault::Memory),
        Err(LineFault::BadLine) => Ok(true),
        _ => Ok(false),
    }
}

#[test]
fn a_kept_line_is_refilled(rt: HostRuntime) -> Result<(), LineFault> {
    let alloc = rt.alloc();
    let read = Line::read(alloc, FOREIGN)?;
    let mut kept = Line::new(alloc, &read.values())?;
    assert!(rt; keeps_foreign(&kept));
    assert!(rt; has_member(&kept, Field::Statuscode, "200"));
    let mut scratch = None;
    kept.refill(ESCAPED, &mut scratch)?;
    assert!(rt; keeps_escaped(&kept));
    assert!(rt; has_member(&kept, Field::Original, "-"));
    kept.refill(FOREIGN, &mut scratch)?;
    assert!(rt; keeps_foreign(&kept));
    kept.refill(ESCAPED, &mut scratch)?;
    assert!(rt; keeps_escaped(&kept));
    assert!(rt; refuses_key_alone(&mut kept)?);
    assert!(rt; keeps_escaped(&kept));
    assert!(rt; keeps_escaped(&Line::read(alloc, ESCAPED)?));
    Ok(())
}
