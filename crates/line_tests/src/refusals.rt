//! Lines that are refused.
use cdxj_core::{Line, LineFault};
use std::alloc::Global;

/// Returns `true` if the line is refused as bad. Failed allocations are errors of the test.
pub fn is_bad(alloc: Global, line: &[u8]) -> Result<bool, LineFault> {
    match Line::read(alloc, line) {
        Err(LineFault::Memory) => Err(LineFault::Memory),
        Err(LineFault::BadLine) => Ok(true),
        _ => Ok(false),
    }
}

const WITHOUT_A_PLACE: &[(&str, &str)] = &[
    ("an empty line", ""),
    ("a line feed alone", "\n"),
    ("a key alone", "k"),
    ("no object", "k 20160101000000"),
    ("an empty object text", "k 20160101000000 "),
    ("white space for an object", "k 20160101000000  \n"),
    ("an empty object", "k 20160101000000 {}\n"),
    ("no file name", "k 20160101000000 {\"offset\": \"7\"}\n"),
    (
        "an empty file name",
        "k 20160101000000 {\"offset\": \"7\", \"filename\": \"\"}\n",
    ),
    (
        "a number for a file name",
        "k 20160101000000 {\"offset\": \"7\", \"filename\": 1}\n",
    ),
    (
        "null for a file name",
        "k 20160101000000 {\"offset\": \"7\", \"filename\": null}\n",
    ),
    (
        "a file name in another case",
        "k 20160101000000 {\"offset\": \"7\", \"Filename\": \"f\"}\n",
    ),
    ("no offset", "k 20160101000000 {\"filename\": \"f\"}\n"),
    (
        "for the offset an empty offset",
        "k 20160101000000 {\"offset\": \"\", \"filename\": \"f\"}\n",
    ),
    (
        "for the offset a negative offset as a text",
        "k 20160101000000 {\"offset\": \"-1\", \"filename\": \"f\"}\n",
    ),
    (
        "for the offset an offset with a plus",
        "k 20160101000000 {\"offset\": \"+1\", \"filename\": \"f\"}\n",
    ),
    (
        "for the offset an offset with a space",
        "k 20160101000000 {\"offset\": \" 1\", \"filename\": \"f\"}\n",
    ),
    (
        "for the offset an offset with a point",
        "k 20160101000000 {\"offset\": \"1.0\", \"filename\": \"f\"}\n",
    ),
    (
        "for the offset a hexadecimal offset",
        "k 20160101000000 {\"offset\": \"0x1\", \"filename\": \"f\"}\n",
    ),
    (
        "for the offset an offset beyond ASCII",
        "k 20160101000000 {\"offset\": \"\u{661}\", \"filename\": \"f\"}\n",
    ),
    (
        "for the offset 2^63 as a text",
        "k 20160101000000 {\"offset\": \"9223372036854775808\", \"filename\": \"f\"}\n",
    ),
    (
        "for the offset 2^63",
        "k 20160101000000 {\"offset\": 9223372036854775808, \"filename\": \"f\"}\n",
    ),
    (
        "for the offset twenty digits as a text",
        "k 20160101000000 {\"offset\": \"00000000000000000001\", \"filename\": \"f\"}\n",
    ),
    (
        "for the offset twenty digits",
        "k 20160101000000 {\"offset\": 10000000000000000000, \"filename\": \"f\"}\n",
    ),
    (
        "for the offset nineteen nines",
        "k 20160101000000 {\"offset\": \"9999999999999999999\", \"filename\": \"f\"}\n",
    ),
    (
        "for the offset minus nought",
        "k 20160101000000 {\"offset\": -0, \"filename\": \"f\"}\n",
    ),
    (
        "for the offset a negative offset",
        "k 20160101000000 {\"offset\": -1, \"filename\": \"f\"}\n",
    ),
    (
        "for the offset a fraction",
        "k 20160101000000 {\"offset\": 1.0, \"filename\": \"f\"}\n",
    ),
    (
        "for the offset an exponent",
        "k 20160101000000 {\"offset\": 1e1, \"filename\": \"f\"}\n",
    ),
    (
        "for the offset null",
        "k 20160101000000 {\"offset\": null, \"filename\": \"f\"}\n",
    ),
    (
        "for the offset true",
        "k 20160101000000 {\"offset\": true, \"filename\": \"f\"}\n",
    ),
    (
        "for the offset an array",
        "k 20160101000000 {\"offset\": [1], \"filename\": \"f\"}\n",
    ),
    (
        "for the offset an object",
        "k 20160101000000 {\"offset\": {}, \"filename\": \"f\"}\n",
    ),
    (
        "of two offsets the last is bad",
        "k 20160101000000 {\"offset\": \"7\", \"offset\": \"\", \"filename\": \"f\"}\n",
    ),
];

const WITHOUT_AN_OBJECT: &[(&str, &str)] = &[
    ("an array", "k 20160101000000 [\"offset\", \"7\"]\n"),
    ("a text", "k 20160101000000 \"x\"\n"),
    ("a number", "k 20160101000000 1\n"),
    ("no JSON", "k 20160101000000 {\n"),
    (
        "something after the object",
        "k 20160101000000 {\"offset\": \"7\", \"filename\": \"f\"} x\n",
    ),
    (
        "two objects",
        "k 20160101000000 {\"offset\": \"7\", \"filename\": \"f\"}{}\n",
    ),
    (
        "a comma at the end",
        "k 20160101000000 {\"offset\": \"7\", \"filename\": \"f\",}\n",
    ),
    (
        "no comma",
        "k 20160101000000 {\"offset\": \"7\" \"filename\": \"f\"}\n",
    ),
    (
        "single quotes",
        "k 20160101000000 {'offset': '7', 'filename': 'f'}\n",
    ),
    (
        "names without quotes",
        "k 20160101000000 {offset: \"7\", filename: \"f\"}\n",
    ),
    (
        "a comment",
        "k 20160101000000 {/**/\"offset\": \"7\", \"filename\": \"f\"}\n",
    ),
    (
        "an upper-case literal",
        "k 20160101000000 {\"a\": TRUE, \"offset\": \"7\", \"filename\": \"f\"}\n",
    ),
    (
        "NaN",
        "k 20160101000000 {\"a\": NaN, \"offset\": \"7\", \"filename\": \"f\"}\n",
    ),
    (
        "a number with a leading zero",
        "k 20160101000000 {\"a\": 01, \"offset\": \"7\", \"filename\": \"f\"}\n",
    ),
    (
        "an unknown escape",
        "k 20160101000000 {\"a\": \"\\x41\", \"offset\": \"7\", \"filename\": \"f\"}\n",
    ),
    (
        "a lone high surrogate",
        "k 20160101000000 {\"a\": \"\\ud83d\", \"offset\": \"7\", \"filename\": \"f\"}\n",
    ),
    (
        "a lone low surrogate",
        "k 20160101000000 {\"a\": \"\\ude00\", \"offset\": \"7\", \"filename\": \"f\"}\n",
    ),
    (
        "a control in a text",
        "k 20160101000000 {\"a\": \"\t\", \"offset\": \"7\", \"filename\": \"f\"}\n",
    ),
    (
        "a control in a plain object",
        "k 20160101000000 {\"url\": \"a\tb\", \"mime\": \"text/html\", \"status\": \"200\", \"digest\": \"D\", \"length\": \"1\", \"offset\": \"7\", \"filename\": \"f\"}\n",
    ),
    (
        "a text without its end",
        "k 20160101000000 {\"offset\": \"7\", \"filename\": \"f\", \"a\": \"b}\n",
    ),
    (
        "a vertical tab",
        "k 20160101000000 \u{b}{\"offset\": \"7\", \"filename\": \"f\"}\n",
    ),
    (
        "nested 128 deep",
        "k 20160101000000 {\"a\": [[[[[[[[[[[[[[[[[[[[[[[[[[[[[[[[[[[[[[[[[[[[[[[[[[[[[[[[[[[[[[[[[[[[[[[[[[[[[[[[[[[[[[[[[[[[[[[[[[[[[[[[[[[[[[[[[[[[[[[[[[[[[[[]]]]]]]]]]]]]]]]]]]]]]]]]]]]]]]]]]]]]]]]]]]]]]]]]]]]]]]]]]]]]]]]]]]]]]]]]]]]]]]]]]]]]]]]]]]]]]]]]]]]]]]]]]]]]]]]]]]]]]]]]]]]]]], \"offset\": \"7\", \"filename\": \"f\"}\n",
    ),
    (
        "a line feed in the line",
        "k 20160101000000 {\"offset\": \"7\",\n\"filename\": \"f\"}\n",
    ),
    (
        "two line feeds",
        "k 20160101000000 {\"offset\": \"7\", \"filename\": \"f\"}\n\n",
    ),
    (
        "a stamp of thirteen digits",
        "k 2016010100000 {\"offset\": \"7\", \"filename\": \"f\"}",
    ),
    (
        "a stamp of fifteen digits",
        "k 201601010000000 {\"offset\": \"7\", \"filename\": \"f\"}",
    ),
    (
        "a letter in the stamp",
        "k 2016010100000x {\"offset\": \"7\", \"filename\": \"f\"}",
    ),
    (
        "digits beyond ASCII",
        "k 2016010100\u{660}\u{660} {\"offset\": \"7\", \"filename\": \"f\"}",
    ),
    (
        "two spaces before the stamp",
        "k  20160101000000 {\"offset\": \"7\", \"filename\": \"f\"}",
    ),
    (
        "no key",
        " 20160101000000 {\"offset\": \"7\", \"filename\": \"f\"}",
    ),
    (
        "a tab in the key",
        "a\tb 20160101000000 {\"offset\": \"7\", \"filename\": \"f\"}",
    ),
    (
        "a control in the key",
        "a\u{1} 20160101000000 {\"offset\": \"7\", \"filename\": \"f\"}",
    ),
    (
        "U+007F in the key",
        "a\u{7f} 20160101000000 {\"offset\": \"7\", \"filename\": \"f\"}",
    ),
    (
        "a tab for the second space",
        "k 20160101000000\t{\"offset\": \"7\", \"filename\": \"f\"}",
    ),
];

/// In a text, in the key, and the bytes of a surrogate.
const NO_UTF8: &[&[u8]] = &[
    b"k 20160101000000 {\"a\": \"\xff\", \"offset\": \"7\", \"filename\": \"f\"}",
    b"\xc0\x80 20160101000000 {\"offset\": \"7\", \"filename\": \"f\"}",
    b"k 20160101000000 {\"a\": \"\xed\xa0\x80\", \"offset\": \"7\", \"filename\": \"f\"}",
];

#[test]
fn bad_lines_are_refused(rt: HostRuntime) -> Result<(), LineFault> {
    for table in [WITHOUT_A_PLACE, WITHOUT_AN_OBJECT] {
        for (name, line) in table.iter() {
            assert!(rt; is_bad(rt.alloc(), line.as_bytes())?, "{name}");
        }
    }
    for line in NO_UTF8 {
        assert!(rt; is_bad(rt.alloc(), line)?);
    }
    Ok(())
}
