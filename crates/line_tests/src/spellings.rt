//! Lines as other programs spell them: other blanks, orders, numbers and escapes.
use crate::reading::is_read;
use crate::refusals::is_bad;
use cdxj_core::LineFault;

/// Lines by RFC 8259 and the rules of docs/CDXJ.md, with their values.
const ENTRIES: &[(&str, &str, &str)] = &[
    (
        "no blanks",
        "k 20160101000000 {\"url\":\"u\",\"mime\":\"text/html\",\"status\":\"200\",\"digest\":\"D\",\"length\":\"9\",\"offset\":\"7\",\"filename\":\"f.warc\"}\n",
        "u|text/html|200|D|9|7|f.warc",
    ),
    (
        "other members behind and between",
        "k 20160101000000 {\"url\": \"http://a/\", \"mime\": \"text/html\", \"mime-detected\": \"text/plain\", \"status\": \"200\", \"digest\": \"D\", \"length\": \"9\", \"offset\": \"7\", \"filename\": \"crawl/f.warc.gz\", \"charset\": \"UTF-8\", \"languages\": \"eng,deu\"}\n",
        "http://a/|text/html|200|D|9|7|crawl/f.warc.gz",
    ),
    (
        "blanks on all sides",
        "k 20160101000000 {  \"url\"  :  \"u\"  ,  \"offset\" : 7 ,\"filename\" :\"f\"  }\n",
        "u|-|-|-|-|7|f",
    ),
    (
        "tabs",
        "k 20160101000000 {\t\"url\"\t:\t\"u\",\t\"offset\": 7\t,\"filename\":\"f\"\t}\n",
        "u|-|-|-|-|7|f",
    ),
    (
        "the other order",
        "k 20160101000000 {\"filename\": \"f\", \"offset\": \"7\", \"length\": \"9\", \"digest\": \"D\", \"status\": \"200\", \"mime\": \"m\", \"url\": \"u\"}\n",
        "u|m|200|D|9|7|f",
    ),
    (
        "of each two the last",
        "k 20160101000000 {\"url\": \"a\", \"mime\": \"b\", \"status\": \"1\", \"digest\": \"c\", \"length\": \"2\", \"offset\": \"3\", \"filename\": \"d\", \"url\": \"u\", \"mime\": \"m\", \"status\": \"200\", \"digest\": \"D\", \"length\": \"9\", \"offset\": \"7\", \"filename\": \"f\"}\n",
        "u|m|200|D|9|7|f",
    ),
    (
        "numbers",
        "k 20160101000000 {\"url\":\"u\",\"status\":200,\"length\":18446744073709551615,\"offset\":9223372036854775807,\"filename\":\"f\"}\n",
        "u|-|200|-|18446744073709551615|9223372036854775807|f",
    ),
    (
        "numbers of 15 and of 16 digits, and a nought",
        "k 20160101000000 {\"status\": 123456789012345, \"length\": 1234567890123456, \"offset\": 0, \"filename\": \"f\"}\n",
        "-|-|123456789012345|-|1234567890123456|0|f",
    ),
    (
        "numbers behind two members as they are written",
        "k 20160101000000 {\"url\": \"u\", \"mime\": \"m\", \"status\": 200, \"digest\": \"D\", \"length\": 9, \"offset\": 7, \"filename\": \"f\"}\n",
        "u|m|200|D|9|7|f",
    ),
    (
        "the first two once more behind the others",
        "k 20160101000000 {\"url\": \"a\", \"mime\": \"b\", \"offset\": \"7\", \"filename\": \"f\", \"mime\": \"m\", \"url\": \"u\"}\n",
        "u|m|-|-|-|7|f",
    ),
    (
        "an offset of 19 digits as it is written",
        "k 20160101000000 {\"url\": \"u\", \"mime\": \"m\", \"status\": \"200\", \"digest\": \"D\", \"length\": \"9\", \"offset\": \"9223372036854775807\", \"filename\": \"f\"}\n",
        "u|m|200|D|9|9223372036854775807|f",
    ),
    (
        "an offset at the end",
        "k 20160101000000 {\"url\": \"u\", \"mime\": \"m\", \"filename\": \"f\", \"offset\": \"7\"}",
        "u|m|-|-|-|7|f",
    ),
    (
        "a number too large for 64 bits",
        "k 20160101000000 {\"length\":18446744073709551616,\"offset\":7,\"filename\":\"f\"}\n",
        "-|-|-|-|-|7|f",
    ),
    (
        "numbers with a point and below nought",
        "k 20160101000000 {\"status\":200.0,\"length\":-1,\"offset\":7,\"filename\":\"f\"}\n",
        "-|-|-|-|-|7|f",
    ),
    (
        "escapes in a member that isn't asked for",
        "k 20160101000000 {\"url\": \"u\", \"title\": \"a \\\"b\\\" \\\\ \\/ \\b\\f\\n\\r\\t caf\\u00E9\", \"offset\": \"7\", \"filename\": \"f\"}\n",
        "u|-|-|-|-|7|f",
    ),
    (
        "a pair of surrogates, and what stands before them",
        "k 20160101000000 {\"url\": \"u\", \"title\": \"\\ud83d\\ude00\\ud7ff\\ue000\", \"offset\": \"7\", \"filename\": \"f\"}\n",
        "u|-|-|-|-|7|f",
    ),
    (
        "an escape at the end, behind which nothing follows",
        "k 20160101000000 {\"url\": \"u\", \"offset\": 7, \"filename\": \"f\", \"t\": \"\\u0041\"}\n",
        "u|-|-|-|-|7|f",
    ),
    (
        "a file name of digits",
        "k 20160101000000 {\"offset\": 7, \"filename\": \"20160101\"}\n",
        "-|-|-|-|-|7|20160101",
    ),
    (
        "a file name that begins with digits",
        "k 20160101000000 {\"offset\": 7, \"filename\": \"20160101.warc\"}\n",
        "-|-|-|-|-|7|20160101.warc",
    ),
    (
        "an offset with noughts before it",
        "k 20160101000000 {\"offset\": \"007\", \"filename\": \"f\"}\n",
        "-|-|-|-|-|7|f",
    ),
    (
        "names that begin as those of members",
        "k 20160101000000 {\"u\": \"1\", \"m\": \"2\", \"mimes\": \"3\", \"statuses\": \"4\", \"digest \": \"5\", \"lengt\": \"6\", \"offset_\": \"8\", \"offset\": \"7\", \"filename\": \"f\", \"filenames\": \"9\"}\n",
        "-|-|-|-|-|7|f",
    ),
    (
        "empty texts",
        "k 20160101000000 {\"url\":\"\",\"mime\":\"\",\"status\":\"\",\"digest\":\"\",\"length\":\"\",\"offset\":7,\"filename\":\"f\",\"\":\"\"}\n",
        "-|-|-|-|-|7|f",
    ),
    (
        "texts beyond ASCII",
        "k 20160101000000 {\"url\":\"http://\u{fc}/\",\"t\u{ef}tle\":\"\u{1f600}\",\"offset\":7,\"filename\":\"\u{e9}\"}\n",
        "http://\u{fc}/|-|-|-|-|7|\u{e9}",
    ),
];

#[test]
fn any_spelling_is_read(rt: HostRuntime) -> Result<(), LineFault> {
    for (name, line, values) in ENTRIES.iter() {
        assert!(rt; is_read(rt.alloc(), line, values)?, "{name}");
    }
    Ok(())
}

/// Objects that are refused. Each is followed by the members that a line needs, and a brace.
const FRONTS: &[(&str, &str)] = &[
    ("no comma", "{\"url\":\"u\" "),
    ("two commas", "{\"url\":\"u\",,"),
    ("a comma first", "{,"),
    ("no colon", "{\"url\" \"u\","),
    ("two colons", "{\"url\"::\"u\","),
    ("no value", "{\"url\":,"),
    ("a name without quotes", "{url:\"u\","),
    ("quotes of one stroke", "{'url':\"u\","),
    ("a number with a nought before it", "{\"status\":0200,"),
    ("a number with a sign", "{\"status\":+200,"),
    ("a number that ends with a point", "{\"status\":200.,"),
    ("two numbers", "{\"status\":20 0,"),
    ("an escape that isn't one", "{\"title\":\"\\x\","),
    ("an escape of three digits", "{\"title\":\"\\u00e\","),
    ("an escape of other letters", "{\"title\":\"\\u00g9\","),
    ("a high surrogate alone", "{\"title\":\"\\ud83d\","),
    ("a low surrogate alone", "{\"title\":\"\\ude00\","),
    (
        "the halves of a pair in the other order",
        "{\"title\":\"\\ude00\\ud83d\",",
    ),
];

#[test]
fn objects_must_be_json(rt: HostRuntime) -> Result<(), LineFault> {
    let alloc = rt.alloc();
    for (name, front) in FRONTS.iter() {
        let mut line = String::from_str(alloc, "k 20160101000000 ")?;
        line.push_str(front)?;
        line.push_str("\"offset\":7,\"filename\":\"f\"}\n")?;
        assert!(rt; is_bad(alloc, line.as_bytes())?, "{name}");
    }
    Ok(())
}

/// Lines whose file name or offset is none.
const REFUSALS: &[(&str, &str)] = &[
    (
        "a number as the file name",
        "k 20160101000000 {\"offset\":7,\"filename\":5}\n",
    ),
    (
        "an empty file name",
        "k 20160101000000 {\"offset\":7,\"filename\":\"\"}\n",
    ),
    (
        "an offset of 2^63",
        "k 20160101000000 {\"offset\":9223372036854775808,\"filename\":\"f\"}\n",
    ),
    (
        "an offset of 2^63 as it is written",
        "k 20160101000000 {\"url\": \"u\", \"mime\": \"m\", \"status\": \"200\", \"digest\": \"D\", \"length\": \"9\", \"offset\": \"9223372036854775808\", \"filename\": \"f\"}\n",
    ),
    (
        "an offset with a point",
        "k 20160101000000 {\"offset\":7.0,\"filename\":\"f\"}\n",
    ),
    (
        "an offset below nought",
        "k 20160101000000 {\"offset\":-7,\"filename\":\"f\"}\n",
    ),
    (
        "an offset of letters",
        "k 20160101000000 {\"offset\":\"7a\",\"filename\":\"f\"}\n",
    ),
    (
        "of two file names the last is a number",
        "k 20160101000000 {\"offset\":7,\"filename\":\"f\",\"filename\":5}\n",
    ),
    (
        "more behind the object",
        "k 20160101000000 {\"offset\":7,\"filename\":\"f\"} {}\n",
    ),
    (
        "two braces at the end",
        "k 20160101000000 {\"offset\":7,\"filename\":\"f\"}}\n",
    ),
];

#[test]
fn a_line_has_its_place(rt: HostRuntime) -> Result<(), LineFault> {
    for (name, line) in REFUSALS.iter() {
        assert!(rt; is_bad(rt.alloc(), line.as_bytes())?, "{name}");
    }
    Ok(())
}

#[test]
fn a_cut_line_is_refused(rt: HostRuntime) -> Result<(), LineFault> {
    const LINES: [&str; 2] = [
        "k 20160101000000 {\"url\":\"u\",\"mime\":\"m\",\"status\":200,\"t\":\"\\u0041\\n\",\"offset\":7,\"filename\":\"f\"}",
        "k 20160101000000 {\"url\": \"u\", \"mime\": \"m\", \"status\": \"200\", \"digest\": \"D\", \"length\": \"9\", \"offset\": \"7\", \"filename\": \"f\", \"charset\": \"UTF-8\"}",
    ];
    for line in LINES.iter() {
        for end in 0..line.len() {
            assert!(rt; is_bad(rt.alloc(), &line.as_bytes()[..end])?, "{end}");
        }
        assert!(rt; !is_bad(rt.alloc(), line.as_bytes())?);
    }
    Ok(())
}
