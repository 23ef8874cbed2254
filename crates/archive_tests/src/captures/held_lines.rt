//! Captures that are held as their lines.
use capture_core::{Entry, HeldLine};
use cdxj_core::HasPlace;
use std::alloc::{AllocError, Global};
use std::cmp::Ordering;
use std::test::Fail;

/// A file name, the offset of the record, and the line of the entry with both. A quote and a
/// backslash are escaped (RFC 8259, section 7).
struct Held {
    filename: &'static str,
    offset: u64,
    line: &'static [u8],
}

/// In the order of their places.
const HELD: &[Held] = &[
    Held {
        filename: "a\"b.warc",
        offset: 264,
        line: b"org,example)/ 20160919172024 {\"url\": \"http://example.org/\", \"mime\": \"text/html\", \"status\": \"200\", \"digest\": \"3I42H3S6NNFQ2MSVX7XZKYAYSCX5QBYJ\", \"length\": \"300\", \"offset\": \"264\", \"filename\": \"a\\\"b.warc\"}\n",
    },
    Held {
        filename: "a.warc",
        offset: 9,
        line: b"org,example)/ 20160919172024 {\"url\": \"http://example.org/\", \"mime\": \"text/html\", \"status\": \"200\", \"digest\": \"3I42H3S6NNFQ2MSVX7XZKYAYSCX5QBYJ\", \"length\": \"300\", \"offset\": \"9\", \"filename\": \"a.warc\"}\n",
    },
    Held {
        filename: "a.warc",
        offset: 10,
        line: b"org,example)/ 20160919172024 {\"url\": \"http://example.org/\", \"mime\": \"text/html\", \"status\": \"200\", \"digest\": \"3I42H3S6NNFQ2MSVX7XZKYAYSCX5QBYJ\", \"length\": \"300\", \"offset\": \"10\", \"filename\": \"a.warc\"}\n",
    },
    Held {
        filename: "a\\b.warc",
        offset: 0,
        line: b"org,example)/ 20160919172024 {\"url\": \"http://example.org/\", \"mime\": \"text/html\", \"status\": \"200\", \"digest\": \"3I42H3S6NNFQ2MSVX7XZKYAYSCX5QBYJ\", \"length\": \"300\", \"offset\": \"0\", \"filename\": \"a\\\\b.warc\"}\n",
    },
];

fn entry(alloc: Global, filename: &str, offset: u64) -> Result<Entry, AllocError> {
    Ok(Entry {
        key: String::from_str(alloc, "org,example)/")?,
        stamp: *b"20160919172024",
        url: String::from_str(alloc, "http://example.org/")?,
        mime: String::from_str(alloc, "text/html")?,
        status: String::from_str(alloc, "200")?,
        digest: String::from_str(alloc, super::EMPTY)?,
        length: 300,
        offset,
        filename: String::from_str(alloc, filename)?,
    })
}

/// Returns the entry as its line, if it is good.
fn held_line(alloc: Global, filename: &str, offset: u64) -> Result<Option<HeldLine>, Fail> {
    let entry = entry(alloc, filename, offset)?;
    if !entry.good() {
        return Ok(None);
    }
    Ok(Some(HeldLine::new(alloc, entry.key.as_str(), entry.keyless())?))
}

#[test]
fn an_entry_is_held_as_its_line(rt: HostRuntime) -> Result<(), Fail> {
    for Held {
        filename,
        offset,
        line,
    } in HELD {
        let held = held_line(rt.alloc(), filename, *offset)?;
        assert!(rt; held.is_some_and(|held| held.line() == *line), "{filename}");
    }
    Ok(())
}

/// Returns how the places of two entries compare, if both are good.
fn order(alloc: Global, first: &Held, second: &Held) -> Result<Option<Ordering>, Fail> {
    let first = held_line(alloc, first.filename, first.offset)?;
    let second = held_line(alloc, second.filename, second.offset)?;
    Ok(match (&first, &second) {
        (Some(first), Some(second)) => Some(first.compare_place(second)),
        _ => None,
    })
}

/// Places are compared by file names without their escapes, and by offsets as numbers.
#[test]
fn held_lines_are_compared_by_their_places(rt: HostRuntime) -> Result<(), Fail> {
    for (number, first) in HELD.iter().enumerate() {
        for (other, second) in HELD.iter().enumerate() {
            let order = order(rt.alloc(), first, second)?;
            assert!(rt; order == Some(number.cmp(&other)), "{number} and {other}");
        }
    }
    Ok(())
}
