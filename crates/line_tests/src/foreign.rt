//! Lines whose objects have other members among those that a line has.
use crate::reading::is_read;
use crate::refusals::is_bad;
use cdxj_core::LineFault;
use std::alloc::{AllocError, Global};

/// Lines by RFC 8259 and the rules of docs/CDXJ.md, with their values.
const ENTRIES: &[(&str, &str, &str)] = &[
    (
        "values that hold names of members",
        "k 20160101000000 {\"a\": {\"filename\": \"g\", \"offset\": 1, \"b\": [{\"url\": \"v\"}]}, \"url\": \"u\", \"c\": [[], {\"url\": \"w\"}, \"x\", 1.5, null, true], \"offset\": \"7\", \"filename\": \"f\", \"d\": {\"e\": {\"filename\": \"\"}}}\n",
        "u|-|-|-|-|7|f",
    ),
    (
        "nested values first, texts and numbers last",
        "k 20160101000000 {\"url\": {\"url\": \"v\"}, \"mime\": [1], \"offset\": [8], \"filename\": {}, \"url\": \"u\", \"mime\": 3, \"offset\": 7, \"filename\": \"f\"}\n",
        "u|3|-|-|-|7|f",
    ),
    (
        "texts and numbers first, nested values last",
        "k 20160101000000 {\"url\": \"u\", \"mime\": 3, \"digest\": \"D\", \"url\": {\"url\": \"v\"}, \"mime\": [1], \"digest\": {}, \"offset\": \"7\", \"filename\": \"f\"}\n",
        "-|-|-|-|-|7|f",
    ),
    (
        "texts and numbers first, other values last",
        "k 20160101000000 {\"status\": \"200\", \"digest\": \"D\", \"length\": 1, \"status\": null, \"digest\": true, \"length\": -1, \"offset\": \"7\", \"filename\": \"f\"}\n",
        "-|-|-|-|-|7|f",
    ),
    (
        "a text and a number of one name",
        "k 20160101000000 {\"url\": \"u\", \"mime\": 4, \"url\": 3, \"mime\": \"m\", \"offset\": \"7\", \"filename\": \"f\"}\n",
        "3|m|-|-|-|7|f",
    ),
    (
        "escapes in the names of the place",
        "k 20160101000000 {\"\\u0066ilename\": \"f\", \"\\u006fff\\u0073et\": \"7\"}\n",
        "-|-|-|-|-|7|f",
    ),
    (
        "an escaped name last",
        "k 20160101000000 {\"filename\": \"g\", \"\\u0066ilename\": \"f\", \"offset\": \"7\"}\n",
        "-|-|-|-|-|7|f",
    ),
    (
        "an escaped name first",
        "k 20160101000000 {\"\\u0066ilename\": \"g\", \"filename\": \"f\", \"offset\": \"7\"}\n",
        "-|-|-|-|-|7|f",
    ),
    (
        "names that are nearly those of members",
        "k 20160101000000 {\"\": \"a\", \"ur\": \"b\", \"urls\": \"c\", \"url \": \"d\", \"file\\u0000name\": \"e\", \"filenam\": \"g\", \"filename_\": \"h\", \"offsets\": \"8\", \"offset\": \"7\", \"filename\": \"f\"}\n",
        "-|-|-|-|-|7|f",
    ),
    (
        "escapes in the values",
        "k 20160101000000 {\"url\": \"a\\nb\", \"x\": [\"\\u0041\", {\"\\u0075rl\": \"v\"}], \"mime\": \"\\u0063\", \"filename\": \"\\\\f\", \"offset\": \"\\u0037\"}\n",
        "a\nb|c|-|-|-|7|\\f",
    ),
    (
        "empty arrays and objects",
        "k 20160101000000 {\"a\": [], \"b\": {}, \"c\": [[]], \"d\": [{}, {}], \"e\": {\"\": []}, \"offset\": \"7\", \"filename\": \"f\"}\n",
        "-|-|-|-|-|7|f",
    ),
    (
        "numbers up to the largest of 64 bits with a point",
        "k 20160101000000 {\"a\": [0, -0, 1e-400, 18446744073709551616, -9223372036854775809, 1.7976931348623157e308, {\"b\": -1e308}], \"offset\": \"7\", \"filename\": \"f\"}\n",
        "-|-|-|-|-|7|f",
    ),
];

#[test]
fn other_members_are_passed_over(rt: HostRuntime) -> Result<(), LineFault> {
    for (name, line, values) in ENTRIES.iter() {
        assert!(rt; is_read(rt.alloc(), line, values)?, "{name}");
    }
    Ok(())
}

const REFUSALS: &[(&str, &str)] = &[
    (
        "a number too large for a float",
        "k 20160101000000 {\"a\": 1e999, \"offset\": \"7\", \"filename\": \"f\"}\n",
    ),
    (
        "one that is nested",
        "k 20160101000000 {\"a\": [[{\"b\": [0, 1e999]}]], \"offset\": \"7\", \"filename\": \"f\"}\n",
    ),
    (
        "one below nought",
        "k 20160101000000 {\"a\": {\"b\": -1e999}, \"offset\": \"7\", \"filename\": \"f\"}\n",
    ),
    (
        "one without an exponent",
        "k 20160101000000 {\"a\": [1000000000000000000000000000000000000000000000000000000000000000000000000000000000000000000000000000000000000000000000000000000000000000000000000000000000000000000000000000000000000000000000000000000000000000000000000000000000000000000000000000000000000000000000000000000000000000000000000000000000000000000000], \"offset\": \"7\", \"filename\": \"f\"}\n",
    ),
    (
        "one as the first of two values",
        "k 20160101000000 {\"url\": 1e999, \"url\": \"u\", \"offset\": \"7\", \"filename\": \"f\"}\n",
    ),
    (
        "of two file names the last is nested",
        "k 20160101000000 {\"filename\": \"f\", \"offset\": \"7\", \"filename\": [\"f\"]}\n",
    ),
    (
        "of two offsets the last is nested",
        "k 20160101000000 {\"filename\": \"f\", \"offset\": \"7\", \"offset\": {\"offset\": \"7\"}}\n",
    ),
    (
        "the place within another object",
        "k 20160101000000 {\"a\": {\"offset\": \"7\", \"filename\": \"f\"}}\n",
    ),
    (
        "the place within an array",
        "k 20160101000000 [{\"offset\": \"7\", \"filename\": \"f\"}]\n",
    ),
    ("null", "k 20160101000000 null\n"),
    ("true", "k 20160101000000 true\n"),
    (
        "a number alone that is too large",
        "k 20160101000000 1e999\n",
    ),
    (
        "a brace that closes an array",
        "k 20160101000000 {\"a\": [1}, \"offset\": \"7\", \"filename\": \"f\"}\n",
    ),
    (
        "a bracket that closes an object",
        "k 20160101000000 {\"a\": {\"b\": 1], \"offset\": \"7\", \"filename\": \"f\"}\n",
    ),
    (
        "a comma before a bracket",
        "k 20160101000000 {\"a\": [1,], \"offset\": \"7\", \"filename\": \"f\"}\n",
    ),
    (
        "a comma before a brace",
        "k 20160101000000 {\"a\": {\"b\": 1,}, \"offset\": \"7\", \"filename\": \"f\"}\n",
    ),
    (
        "no comma in an array",
        "k 20160101000000 {\"a\": [1 2], \"offset\": \"7\", \"filename\": \"f\"}\n",
    ),
    (
        "a name in an array",
        "k 20160101000000 {\"a\": [\"b\": 1], \"offset\": \"7\", \"filename\": \"f\"}\n",
    ),
    (
        "a name without a value",
        "k 20160101000000 {\"a\": {\"b\"}, \"offset\": \"7\", \"filename\": \"f\"}\n",
    ),
    (
        "a number for a name",
        "k 20160101000000 {\"a\": {1: 2}, \"offset\": \"7\", \"filename\": \"f\"}\n",
    ),
    (
        "nothing after a colon",
        "k 20160101000000 {\"a\": {\"b\": }, \"offset\": \"7\", \"filename\": \"f\"}\n",
    ),
    (
        "an array without its end",
        "k 20160101000000 {\"offset\": \"7\", \"filename\": \"f\", \"a\": [1\n",
    ),
    (
        "an object without its end",
        "k 20160101000000 {\"offset\": \"7\", \"filename\": \"f\", \"a\": {\"b\": 1}\n",
    ),
];

#[test]
fn other_members_must_be_json(rt: HostRuntime) -> Result<(), LineFault> {
    for (name, line) in REFUSALS.iter() {
        assert!(rt; is_bad(rt.alloc(), line.as_bytes())?, "{name}");
    }
    Ok(())
}

/// Returns a line with a member that has `levels` arrays or objects within one another.
fn nested(alloc: Global, open: &str, close: &str, levels: usize) -> Result<String, AllocError> {
    let mut line = String::from_str(alloc, "k 20160101000000 {\"offset\": \"7\", \"a\": ")?;
    for _ in 0..levels {
        line.push_str(open)?;
    }
    line.push_str("0")?;
    for _ in 0..levels {
        line.push_str(close)?;
    }
    line.push_str(", \"filename\": \"f\"}\n")?;
    Ok(line)
}

#[test]
fn objects_nest_127_deep(rt: HostRuntime) -> Result<(), LineFault> {
    let alloc = rt.alloc();
    for (open, close) in [("[", "]"), ("{\"a\": ", "}"), ("[0, ", ", \"b\"]")] {
        for levels in [125, 126] {
            let line = nested(alloc, open, close, levels)?;
            assert!(rt; is_read(alloc, line.as_str(), "-|-|-|-|-|7|f")?);
        }
        let line = nested(alloc, open, close, 127)?;
        assert!(rt; is_bad(alloc, line.as_bytes())?);
    }
    Ok(())
}
