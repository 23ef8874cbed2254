//! The fields of heads, and why heads are refused.
mod dates;

use std::alloc::Global;
use warc_head::{HeadFault, Kind, Parts, read_parts};

/// Reads the head of these lines.
fn read(alloc: Global, lines: &[&str]) -> Result<Parts, HeadFault> {
    let mut raw = Vec::new(alloc);
    raw.extend_from_slice(b"WARC/1.1\r\n")?;
    for text in lines {
        raw.extend_from_slice(text.as_bytes())?;
    }
    raw.extend_from_slice(b"\r\n\r\n")?;
    read_parts(alloc, raw)
}

/// Returns `true` if a head is refused for this reason. Failed allocations are errors of the test.
fn is_refused(head: Result<Parts, HeadFault>, wanted: HeadFault) -> Result<bool, HeadFault> {
    match head {
        Ok(_parts) => Ok(false),
        Err(HeadFault::Memory) => Err(HeadFault::Memory),
        Err(fault) => Ok(fault == wanted),
    }
}

const MANDATORY: &str =
    "WARC-Record-ID: <urn:x:1>\r\nContent-Length: 3\r\nWARC-Date: 2016\r\nWARC-Type: resource\r\n";

const ORDERS: &[(&str, HeadFault)] = &[
    // A bad line first, whatever else is wrong.
    (
        "WARC-Record-ID: a\r\nContent-Length: 3\r\nWARC-Date: 2016\r\nbad",
        HeadFault::FieldLine,
    ),
    (
        "bad\r\nWARC-Record-ID: a\r\nContent-Length: 3\r\nWARC-Date: 2016",
        HeadFault::FieldLine,
    ),
    (
        "WARC-Record-ID: a\r\nContent-Length: 3\r\nWARC-Date: 2016\r\nWARC-Type: b\r\nWARC-Type: b\r\nbad",
        HeadFault::FieldLine,
    ),
    (
        "WARC-Record-ID: a\r\nContent-Length: x\r\nWARC-Date: 2016\r\nWARC-Type: b\r\nbad",
        HeadFault::FieldLine,
    ),
    (
        "WARC-Record-ID: a\r\nContent-Length: 3\r\nWARC-Date: x\r\nWARC-Type: b\r\nbad",
        HeadFault::FieldLine,
    ),
    // An absent field before a repeated one, whichever name comes first.
    (
        "WARC-Record-ID: a\r\nWARC-Record-ID: a\r\nContent-Length: 3\r\nWARC-Date: 2016",
        HeadFault::Missing,
    ),
    (
        "Content-Length: 3\r\nWARC-Date: 2016\r\nWARC-Type: b\r\nWARC-Type: b",
        HeadFault::Missing,
    ),
    (
        "WARC-Record-ID: a\r\nContent-Length: x\r\nWARC-Date: 2016",
        HeadFault::Missing,
    ),
    (
        "WARC-Record-ID: a\r\nContent-Length: 3\r\nWARC-Date: x",
        HeadFault::Missing,
    ),
    // A repeated field before what a value says.
    (
        "WARC-Record-ID: a\r\nContent-Length: x\r\nContent-Length: 3\r\nWARC-Date: 2016\r\nWARC-Type: b",
        HeadFault::Repeated,
    ),
    (
        "WARC-Record-ID: a\r\nContent-Length: x\r\nWARC-Date: 2016\r\nWARC-Type: b\r\nwarc-type: b",
        HeadFault::Repeated,
    ),
    (
        "WARC-Record-ID: a\r\nContent-Length: 3\r\nWARC-Date: x\r\nWARC-Date: x\r\nWARC-Type: b",
        HeadFault::Repeated,
    ),
    (
        "WARC-Record-ID: a\r\nContent-Length: 3\r\nWARC-Date: x\r\nWARC-Type: b\r\nWARC-RECORD-ID: a",
        HeadFault::Repeated,
    ),
    // The length before the date, whichever line comes first.
    (
        "WARC-Record-ID: a\r\nWARC-Date: x\r\nContent-Length: x\r\nWARC-Type: b",
        HeadFault::BadLength,
    ),
    // Each cause alone.
    (
        "Content-Length: 3\r\nWARC-Date: 2016\r\nWARC-Type: b",
        HeadFault::Missing,
    ),
    (
        "WARC-Record-ID: a\r\nWARC-Date: 2016\r\nWARC-Type: b",
        HeadFault::Missing,
    ),
    (
        "WARC-Record-ID: a\r\nContent-Length: 3\r\nWARC-Type: b",
        HeadFault::Missing,
    ),
    (
        "WARC-Record-ID: a\r\nContent-Length: 3\r\nWARC-Date: 2016",
        HeadFault::Missing,
    ),
    (
        "WARC-Record-ID: a\r\nContent-Length: x\r\nWARC-Date: 2016\r\nWARC-Type: b",
        HeadFault::BadLength,
    ),
    (
        "WARC-Record-ID: a\r\nContent-Length: 3\r\nWARC-Date: x\r\nWARC-Type: b",
        HeadFault::BadDate,
    ),
];

const WITHOUT_FIELDS: &[&[u8]] = &[b"", b"WARC/1.", b"WARC/1.1\r\n", b"WARC/1.1\r\n\r\n"];

/// Returns `true` if the head of these lines is refused for this reason.
fn are_refused(alloc: Global, lines: &[&str], wanted: HeadFault) -> Result<bool, HeadFault> {
    is_refused(read(alloc, lines), wanted)
}

/// Returns `true` if this text of a head is refused for this reason.
fn is_raw_refused(alloc: Global, raw: &[u8], wanted: HeadFault) -> Result<bool, HeadFault> {
    is_refused(read_parts(alloc, Vec::from_slice(alloc, raw)?), wanted)
}

#[test]
fn the_first_fault_of_a_head_is_reported(rt: HostRuntime) -> Result<(), HeadFault> {
    for (lines, fault) in ORDERS {
        assert!(rt; are_refused(rt.alloc(), &[*lines], *fault)?, "{lines}");
    }
    for raw in WITHOUT_FIELDS {
        assert!(rt; is_raw_refused(rt.alloc(), raw, HeadFault::Missing)?);
    }
    Ok(())
}

const BAD_LINES: &[&str] = &[
    "no colon",
    "",
    ": empty name",
    "Space : before the colon",
    "Tab\t: before the colon",
    "A(: b",
    "A): b",
    "A<: b",
    "A>: b",
    "A@: b",
    "A,: b",
    "A;: b",
    "A\\: b",
    "A\": b",
    "A/: b",
    "A[: b",
    "A]: b",
    "A?: b",
    "A=: b",
    "A{: b",
    "A}: b",
    "A\u{7f}: b",
    "A\u{e9}: b",
    "A\0: b",
    "A: lone\rCR",
    "A: lone\nLF",
    "A: CR before the end\r",
    "A: b\r\n folded\nonce",
];

const CUT_HEADS: &[&[u8]] = &[
    b"WARC/1.1\r\nA: b\r\r\n",
    b"WARC/1.1\r\nA: b\n\r\n",
    b"WARC/1.1\r\nA: b\r\n",
];

/// Each line stands behind the mandatory fields.
#[test]
fn lines_that_are_no_fields_are_refused(rt: HostRuntime) -> Result<(), HeadFault> {
    let alloc = rt.alloc();
    for line in BAD_LINES {
        assert!(rt;
            are_refused(alloc, &[MANDATORY, line], HeadFault::FieldLine)?,
            "{line}"
        );
    }
    let continued_first = [" folded\r\n", MANDATORY, "A: b"];
    assert!(rt; are_refused(alloc, &continued_first, HeadFault::FieldLine)?);
    for raw in CUT_HEADS {
        assert!(rt; is_raw_refused(alloc, raw, HeadFault::FieldLine)?);
    }
    Ok(())
}

const VALUES: &[(&str, &str, Option<&str>)] = &[
    ("A: b", "A", Some("b")),
    ("A:b", "A", Some("b")),
    ("A: \t b \t ", "A", Some("b")),
    ("A:", "A", Some("")),
    ("A: \t", "A", Some("")),
    ("A: b: c", "A", Some("b: c")),
    ("A: b  c", "A", Some("b  c")),
    ("A: \u{ff}\0\u{7f}", "A", Some("\u{ff}\0\u{7f}")),
    (
        "!#$%&'*+-.^_`|~09AZaz: b",
        "!#$%&'*+-.^_`|~09AZaz",
        Some("b"),
    ),
    // Folded values.
    ("A: b\r\n c", "A", Some("b c")),
    ("A: b \t\r\n\t \tc \t\r\n d", "A", Some("b c d")),
    ("A:\r\n b", "A", Some("b")),
    ("A: b\r\n \r\n\t\r\n c", "A", Some("b c")),
    ("A: b\r\n ", "A", Some("b")),
    ("A: b\r\n C: d", "A", Some("b C: d")),
    ("A: b\r\n C: d", "C", None),
    ("A: b\r\nC: d\r\n e", "A", Some("b")),
    // The first of its name, in any case.
    ("A: b\r\nA: c", "A", Some("b")),
    ("a: b\r\nA: c", "A", Some("b")),
    ("warc-TARGET-uri: b", "WARC-Target-URI", Some("b")),
    ("A: b", "AA", None),
    ("AA: b", "A", None),
];

/// Returns `true` if the first field of this name has this value.
fn has_value(head: &Parts, name: &str, value: Option<&str>) -> bool {
    match (head.field(name.as_bytes()), value) {
        (Some(found), Some(value)) => found == value.as_bytes(),
        (None, None) => true,
        _ => false,
    }
}

/// Returns `true` if a head with these lines behind the mandatory fields has this value of this name.
fn say(alloc: Global, lines: &str, name: &str, value: Option<&str>) -> Result<bool, HeadFault> {
    Ok(has_value(&read(alloc, &[MANDATORY, lines])?, name, value))
}

#[test]
fn fields_have_their_values(rt: HostRuntime) -> Result<(), HeadFault> {
    for (lines, name, value) in VALUES {
        assert!(rt; say(rt.alloc(), lines, name, *value)?, "{lines}");
    }
    Ok(())
}

const LENGTHS: &[(&str, Option<u64>)] = &[
    ("0", Some(0)),
    ("003", Some(3)),
    ("59", Some(59)),
    ("0000000000000000003", Some(3)),
    ("9223372036854775807", Some(9_223_372_036_854_775_807)),
    ("9223372036854775808", None),
    ("9999999999999999999", None),
    ("00000000000000000003", None),
    ("18446744073709551619", None),
    ("", None),
    ("+3", None),
    ("-3", None),
    ("3.", None),
    ("0x3", None),
    ("3 3", None),
    ("3\r\n 3", None),
    ("\r\n 3", Some(3)),
    ("3 \r\n\t", Some(3)),
];

/// Returns `true` if this text is read as this length, or refused.
fn is_length(alloc: Global, text: &str, length: Option<u64>) -> Result<bool, HeadFault> {
    let lines = [
        "WARC-Record-ID: a\r\nWARC-Date: 2016\r\nWARC-Type: b\r\nContent-Length:",
        text,
    ];
    match length {
        Some(length) => Ok(read(alloc, &lines)?.length() == length),
        None => are_refused(alloc, &lines, HeadFault::BadLength),
    }
}

#[test]
fn lengths_below_2_63_are_read(rt: HostRuntime) -> Result<(), HeadFault> {
    for (text, length) in LENGTHS {
        assert!(rt; is_length(rt.alloc(), text, *length)?, "{text}");
    }
    Ok(())
}

const KINDS: &[(&str, Kind, &str)] = &[
    ("warcinfo", Kind::Warcinfo, "warcinfo"),
    ("response", Kind::Response, "response"),
    ("resource", Kind::Resource, "resource"),
    ("request", Kind::Request, "request"),
    ("metadata", Kind::Metadata, "metadata"),
    ("revisit", Kind::Revisit, "revisit"),
    ("conversion", Kind::Conversion, "conversion"),
    ("continuation", Kind::Continuation, "continuation"),
    ("Response", Kind::Response, "response"),
    ("WARCINFO", Kind::Warcinfo, "warcinfo"),
    ("responses", Kind::Other, "other"),
    ("", Kind::Other, "other"),
    ("re\r\n visit", Kind::Other, "other"),
];

/// Returns `true` if this text is read as this type of record, which has this name.
fn is_kind(alloc: Global, text: &str, kind: Kind, name: &str) -> Result<bool, HeadFault> {
    let lines = [
        "WARC-Record-ID: a\r\nContent-Length: 0\r\nWARC-Date: 2016\r\nWARC-Type: ",
        text,
    ];
    let found = read(alloc, &lines)?.kind();
    Ok(found == kind && found.name() == name)
}

#[test]
fn types_are_told_in_any_case(rt: HostRuntime) -> Result<(), HeadFault> {
    for (text, kind, name) in KINDS {
        assert!(rt; is_kind(rt.alloc(), text, *kind, name)?, "{text}");
    }
    Ok(())
}

const RESPONSE: &[u8] =
    b"WARC/1.0\r\nWARC-Type: response\r\nWARC-Record-ID: <urn:x:1>\r\nWARC-Date: 2016-09-19T17:20:24.123456Z\r\nWARC-Target-URI:\r\n <http://example.com/>\r\nContent-Type: application/http; msgtype=response\r\nContent-Length: 59\r\n\r\n";

const FIELDS: &[(&str, Option<&str>)] = &[
    ("warc-target-uri", Some("<http://example.com/>")),
    ("WARC-Record-ID", Some("<urn:x:1>")),
    ("WARC-Block-Digest", None),
];

fn is_of_response(head: &Parts) -> bool {
    head.kind() == Kind::Response && head.stamp() == *b"20160919172024" && head.length() == 59
}

fn has_message(alloc: Global, fault: HeadFault, text: &str) -> Result<bool, HeadFault> {
    Ok(fault.to_string(alloc)?.as_str() == text)
}

#[test]
fn a_head_has_what_its_fields_say(rt: HostRuntime) -> Result<(), HeadFault> {
    let head = read_parts(rt.alloc(), Vec::from_slice(rt.alloc(), RESPONSE)?)?;
    assert!(rt; head.raw() == RESPONSE);
    assert!(rt; is_of_response(&head));
    for (name, value) in FIELDS {
        assert!(rt; has_value(&head, name, *value), "{name}");
    }
    let message = "a mandatory field is missing";
    assert!(rt; has_message(rt.alloc(), HeadFault::Missing, message)?);
    Ok(())
}
