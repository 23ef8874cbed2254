//! The lines that are written for entries.
ghost use Rattle.std.specs.Prelude.{◌≡◌, IfSome};
ghost use Rattle.cdxj_core.specs.Entries.{HasPlainTexts, keyed_view};

use cdxj_core::{
    Entry, Field, KeylessEntry, Line, LineFault, plain_utf8, push_quoted, write_entry, write_line,
    write_plain_entry,
};
use std::alloc::{AllocError, Global};
use std::test::Fail;

/// The members of an entry.
#[derive(Clone, Copy)]
pub struct Members {
    pub key: &'static str,
    pub stamp: &'static [u8; 14],
    pub url: &'static str,
    pub mime: &'static str,
    pub status: &'static str,
    pub digest: &'static str,
    pub length: u64,
    pub offset: u64,
    pub filename: &'static str,
}

pub const HOME: Members = Members {
    key: "com,example)/",
    stamp: b"20160919172024",
    url: "http://example.com/",
    mime: "text/html",
    status: "200",
    digest: "3I42H3S6NNFQ2MSVX7XZKYAYSCX5QBYJ",
    length: 264,
    offset: 0,
    filename: "a.warc",
};

const RESOURCE: Members = Members {
    key: "com,example)/r",
    stamp: b"20160919172024",
    url: "http://example.com/r",
    mime: "text/plain",
    status: "-",
    digest: "VGMT4NSHA2AWVOR6EVYXQUGCNSONBWE5",
    length: 184,
    offset: 264,
    filename: "b.warc",
};

const ESCAPED: Members = Members {
    url: "a\"b\\c/\u{e9}\u{7f}",
    mime: "\t\n\u{1}",
    filename: "\u{1f600} \".warc",
    ..HOME
};

pub fn entry(alloc: Global, members: &Members) -> Result<Entry, AllocError> {
    Ok(Entry {
        key: String::from_str(alloc, members.key)?,
        stamp: *members.stamp,
        url: String::from_str(alloc, members.url)?,
        mime: String::from_str(alloc, members.mime)?,
        status: String::from_str(alloc, members.status)?,
        digest: String::from_str(alloc, members.digest)?,
        length: members.length,
        offset: members.offset,
        filename: String::from_str(alloc, members.filename)?,
    })
}

const TEXTS: &[Field] = &[
    Field::Urlkey,
    Field::Original,
    Field::Mimetype,
    Field::Statuscode,
    Field::Digest,
    Field::Filename,
];

/// Returns `true` if a line has the texts and the stamp of these members.
fn has_texts(line: &Line, members: &Members) -> bool {
    let read = line.values();
    let texts = [
        members.key,
        members.url,
        members.mime,
        members.status,
        members.digest,
        members.filename,
    ];
    let mut fields = TEXTS.iter().zip(&texts);
    fields.all(|(field, text)| read.value(*field) == *text) && read.pair().stamp == *members.stamp
}

const HOME_LINE: &[u8] =
    b"com,example)/ 20160919172024 {\"url\": \"http://example.com/\", \"mime\": \"text/html\", \"status\": \"200\", \"digest\": \"3I42H3S6NNFQ2MSVX7XZKYAYSCX5QBYJ\", \"length\": \"264\", \"offset\": \"0\", \"filename\": \"a.warc\"}\n";

const RESOURCE_LINE: &[u8] =
    b"com,example)/r 20160919172024 {\"url\": \"http://example.com/r\", \"mime\": \"text/plain\", \"status\": \"-\", \"digest\": \"VGMT4NSHA2AWVOR6EVYXQUGCNSONBWE5\", \"length\": \"184\", \"offset\": \"264\", \"filename\": \"b.warc\"}\n";

/// Escapes by RFC 8259, section 7: a quote, a backslash and the controls, and nothing else.
const ESCAPED_LINE: &[u8] =
    b"com,example)/ 20160919172024 {\"url\": \"a\\\"b\\\\c/\xc3\xa9\x7f\", \"mime\": \"\\t\\n\\u0001\", \"status\": \"200\", \"digest\": \"3I42H3S6NNFQ2MSVX7XZKYAYSCX5QBYJ\", \"length\": \"264\", \"offset\": \"0\", \"filename\": \"\xf0\x9f\x98\x80 \\\".warc\"}\n";

/// Entries, and their lines with the length and the offset as they stand there.
const WRITTEN: &[(Members, &[u8], &str, &str)] = &[
    (HOME, HOME_LINE, "264", "0"),
    (RESOURCE, RESOURCE_LINE, "184", "264"),
    (ESCAPED, ESCAPED_LINE, "264", "0"),
];

/// Returns `true` if the entry is written as this line, and read back.
fn is_written(alloc: Global, members: &Members, line: &[u8]) -> Result<bool, Fail> {
    let entry = entry(alloc, members)?;
    if !entry.good() {
        return Ok(false);
    }
    let written = write_line(alloc, &entry)?;
    Ok(written.as_slice() == line && has_texts(&Line::read(alloc, line)?, members))
}

/// Returns `true` if the line has this length and offset.
fn has_numbers(alloc: Global, line: &[u8], length: &str, offset: &str) -> Result<bool, LineFault> {
    let kept = Line::read(alloc, line)?;
    let read = kept.values();
    Ok(read.value(Field::Length) == length && read.value(Field::Offset) == offset)
}

#[test]
fn entries_are_written_and_read_back(rt: HostRuntime) -> Result<(), Fail> {
    for (members, line, length, offset) in WRITTEN {
        assert!(rt; is_written(rt.alloc(), members, line)?, "{}", members.url);
        assert!(rt;
            has_numbers(rt.alloc(), line, length, offset)?,
            "{}",
            members.url
        );
    }
    Ok(())
}

/// Returns `true` if the entry has these members, but for the key.
fn has_members(entry: &KeylessEntry<'_>, members: &Members) -> bool {
    let texts = [
        (entry.url, members.url),
        (entry.mime, members.mime),
        (entry.status, members.status),
        (entry.digest, members.digest),
        (entry.filename, members.filename),
    ];
    texts.iter().all(|(text, member)| *text == *member)
        && entry.stamp == *members.stamp
        && (entry.length, entry.offset) == (members.length, members.offset)
}

#[test]
fn a_keyless_entry_has_the_members_of_the_entry(rt: HostRuntime) -> Result<(), Fail> {
    for (members, _line, _length, _offset) in WRITTEN {
        let entry = entry(rt.alloc(), members)?;
        assert!(rt; has_members(&entry.keyless(), members), "{}", members.url);
    }
    Ok(())
}

/// Returns the line that is written for a key and a keyless entry, if they are good.
fn written_behind_key(alloc: Global, members: &Members) -> Result<Option<Vec<u8>>, Fail> {
    let entry = entry(alloc, members)?;
    if !entry.good() {
        return Ok(None);
    }
    Ok(Some(write_entry(alloc, entry.key.as_str(), entry.keyless())?))
}

#[test]
fn a_keyless_entry_is_written_behind_a_key(rt: HostRuntime) -> Result<(), Fail> {
    for (members, line, _length, _offset) in WRITTEN {
        let written = written_behind_key(rt.alloc(), members)?;
        assert!(rt;
            written.is_some_and(|text| text.as_slice() == *line),
            "{}",
            members.url
        );
    }
    Ok(())
}

/// Returns an entry without its key, if no text needs an escape.
fn plain(entry: &Entry) -> Option<KeylessEntry<'_>>
    ensures value { IfSome result (λ e. keyed_view entry.now.key e ≡ entry.now) }
    ensures plain { IfSome result (λ _. HasPlainTexts entry.now) }
{
    Some(KeylessEntry {
        stamp: entry.stamp,
        url: plain_utf8(entry.url.as_bytes())?,
        mime: plain_utf8(entry.mime.as_bytes())?,
        status: plain_utf8(entry.status.as_bytes())?,
        digest: plain_utf8(entry.digest.as_bytes())?,
        length: entry.length,
        offset: entry.offset,
        filename: plain_utf8(entry.filename.as_bytes())?,
    })
}

/// Returns the line that is written behind the key of these members, if they are good and plain.
fn written_plainly(alloc: Global, members: &Members) -> Result<Option<Vec<u8>>, Fail> {
    let entry = entry(alloc, members)?;
    match plain(&entry) {
        Some(plain) if entry.good() => Ok(Some(write_plain_entry(entry.key.clone()?, plain)?)),
        _ => Ok(None),
    }
}

#[test]
fn a_plain_entry_is_written_behind_its_key(rt: HostRuntime) -> Result<(), Fail> {
    for (members, line) in &[(HOME, HOME_LINE), (RESOURCE, RESOURCE_LINE)] {
        let written = written_plainly(rt.alloc(), members)?;
        assert!(rt;
            written.is_some_and(|text| text.as_slice() == *line),
            "{}",
            members.url
        );
    }
    assert!(rt; written_plainly(rt.alloc(), &ESCAPED)?.is_none());
    Ok(())
}

#[test]
fn a_text_is_quoted(rt: HostRuntime) -> Result<(), Fail> {
    let mut quoted = Vec::new(rt.alloc());
    push_quoted(&mut quoted, rt.alloc(), "a\"b\u{e9}")?;
    push_quoted(&mut quoted, rt.alloc(), "c")?;
    assert!(rt; quoted.as_slice() == "\"a\\\"b\u{e9}\"\"c\"".as_bytes());
    Ok(())
}

const GREATEST: Members = Members {
    length: (1 << 63) - 1,
    offset: (1 << 63) - 1,
    ..HOME
};

/// Entries with one member that is at fault.
const NOT_GOOD: &[Members] = &[
    Members { key: "", ..HOME },
    Members { key: "a b", ..HOME },
    Members {
        key: "a\tb",
        ..HOME
    },
    Members {
        key: "a\u{7f}",
        ..HOME
    },
    Members {
        key: "\u{0}",
        ..HOME
    },
    Members { key: "a\n", ..HOME },
    Members {
        stamp: b"2016091917202x",
        ..HOME
    },
    Members {
        stamp: b"2016 919172024",
        ..HOME
    },
    Members {
        stamp: b"-0160919172024",
        ..HOME
    },
    Members { url: "", ..HOME },
    Members { mime: "", ..HOME },
    Members { status: "", ..HOME },
    Members { digest: "", ..HOME },
    Members {
        filename: "",
        ..HOME
    },
    Members {
        length: 1 << 63,
        ..HOME
    },
    Members {
        offset: 1 << 63,
        ..HOME
    },
];

#[test]
fn an_entry_is_good_where_each_member_is(rt: HostRuntime) -> Result<(), Fail> {
    for members in [&HOME, &RESOURCE, &ESCAPED, &GREATEST] {
        assert!(rt; entry(rt.alloc(), members)?.good());
    }
    for (number, members) in NOT_GOOD.iter().enumerate() {
        assert!(rt; !entry(rt.alloc(), members)?.good(), "row {number}");
    }
    Ok(())
}

/// Returns the home page's entry with a URL of this many letters.
fn with_long_url(alloc: Global, letters: usize) -> Result<Entry, AllocError> {
    let mut entry = entry(alloc, &HOME)?;
    entry.url = "a".repeat(alloc, letters)?;
    Ok(entry)
}

/// Returns the length of the line of a good entry with this many letters, or `None` if it is too long. Failed
/// allocations are errors of the test.
fn length_of_line(alloc: Global, letters: usize) -> Result<Option<usize>, Fail> {
    let entry = with_long_url(alloc, letters)?;
    if !entry.good() {
        return Err("the entry isn't good")?;
    }
    match write_line(alloc, &entry) {
        Ok(line) => Ok(Some(line.len())),
        Err(LineFault::LineTooLong) => Ok(None),
        Err(fault) => Err(Fail::from(fault)),
    }
}

#[test]
fn a_line_has_at_most_the_limit(rt: HostRuntime) -> Result<(), Fail> {
    let rest = HOME_LINE.len() - HOME.url.len();
    let room = 16_777_216 - rest;
    assert!(rt; length_of_line(rt.alloc(), 1_048_576)? == Some(1_048_576 + rest));
    assert!(rt; length_of_line(rt.alloc(), room)? == Some(16_777_216));
    assert!(rt; length_of_line(rt.alloc(), room + 1)?.is_none());
    assert!(rt; length_of_line(rt.alloc(), 16_777_216)?.is_none());
    Ok(())
}
