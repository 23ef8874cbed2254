//! The lines of the captures of records.
use super::next_capture;
use cdxj_core::{Entry, write_line};
use fixtures::{RESOURCE, RESPONSE, joined};
use std::alloc::Global;
use std::test::Fail;
use warc_core::{Reader, Slice};

/// A response whose target is folded and in brackets, and whose date has a fraction of a second: 11 bytes more.
const FOLDED: &[u8] =
    b"WARC/1.0\r\nWARC-Type: response\r\nWARC-Record-ID: <urn:x:1>\r\nWARC-Date: 2016-09-19T17:20:24.123456Z\r\nWARC-Target-URI:\r\n <http://example.com/>\r\nContent-Type: application/http; msgtype=response\r\nContent-Length: 59\r\n\r\nHTTP/1.1 200 OK\r\nContent-Type: text/html; charset=utf-8\r\n\r\n\r\n\r\n";

/// A response whose date is a year: 16 bytes less.
const DATED: &[u8] =
    b"WARC/1.1\r\nWARC-Type: response\r\nWARC-Record-ID: <urn:x:1>\r\nWARC-Date: 2016\r\nWARC-Target-URI: http://example.com/\r\nContent-Type: application/http; msgtype=response\r\nContent-Length: 59\r\n\r\nHTTP/1.1 200 OK\r\nContent-Type: text/html; charset=utf-8\r\n\r\n\r\n\r\n";

/// A response without an HTTP head: 57 bytes less.
const HEADLESS: &[u8] =
    b"WARC/1.1\r\nWARC-Type: response\r\nWARC-Record-ID: <urn:x:1>\r\nWARC-Date: 2016-09-19T17:20:24Z\r\nWARC-Target-URI: http://example.com/\r\nContent-Type: application/http; msgtype=response\r\nContent-Length: 3\r\n\r\nabc\r\n\r\n";

/// A response that gives its payload's digest: 31 bytes more.
const DIGESTED: &[u8] =
    b"WARC/1.1\r\nWARC-Type: response\r\nWARC-Record-ID: <urn:x:1>\r\nWARC-Date: 2016-09-19T17:20:24Z\r\nWARC-Target-URI: http://example.com/\r\nContent-Type: application/http; msgtype=response\r\nContent-Length: 59\r\nWARC-Payload-Digest: sha1:ABC\r\n\r\nHTTP/1.1 200 OK\r\nContent-Type: text/html; charset=utf-8\r\n\r\n\r\n\r\n";

/// A record of 100 bytes that isn't indexed.
const WARCINFO: &[u8] =
    b"WARC/1.1\r\nWARC-Type: warcinfo\r\nWARC-Record-ID: <urn:x:5>\r\nWARC-Date: 2016\r\nContent-Length: 0\r\n\r\n\r\n\r\n";

/// Two records, and the lines of their captures.
const ARCHIVES: &[([&[u8]; 2], &[u8])] = &[
    (
        [RESPONSE, b""],
        b"com,example)/ 20160919172024 {\"url\": \"http://example.com/\", \"mime\": \"text/html\", \"status\": \"200\", \"digest\": \"3I42H3S6NNFQ2MSVX7XZKYAYSCX5QBYJ\", \"length\": \"264\", \"offset\": \"0\", \"filename\": \"a.warc\"}\n",
    ),
    (
        [RESPONSE, RESOURCE],
        b"com,example)/ 20160919172024 {\"url\": \"http://example.com/\", \"mime\": \"text/html\", \"status\": \"200\", \"digest\": \"3I42H3S6NNFQ2MSVX7XZKYAYSCX5QBYJ\", \"length\": \"264\", \"offset\": \"0\", \"filename\": \"a.warc\"}\ncom,example)/r 20160919172024 {\"url\": \"http://example.com/r\", \"mime\": \"text/plain\", \"status\": \"-\", \"digest\": \"VGMT4NSHA2AWVOR6EVYXQUGCNSONBWE5\", \"length\": \"184\", \"offset\": \"264\", \"filename\": \"a.warc\"}\n",
    ),
    (
        [WARCINFO, FOLDED],
        b"com,example)/ 20160919172024 {\"url\": \"http://example.com/\", \"mime\": \"text/html\", \"status\": \"200\", \"digest\": \"3I42H3S6NNFQ2MSVX7XZKYAYSCX5QBYJ\", \"length\": \"275\", \"offset\": \"100\", \"filename\": \"a.warc\"}\n",
    ),
    (
        [DATED, WARCINFO],
        b"com,example)/ 20160101000000 {\"url\": \"http://example.com/\", \"mime\": \"text/html\", \"status\": \"200\", \"digest\": \"3I42H3S6NNFQ2MSVX7XZKYAYSCX5QBYJ\", \"length\": \"248\", \"offset\": \"0\", \"filename\": \"a.warc\"}\n",
    ),
    (
        [HEADLESS, b""],
        b"com,example)/ 20160919172024 {\"url\": \"http://example.com/\", \"mime\": \"-\", \"status\": \"-\", \"digest\": \"VGMT4NSHA2AWVOR6EVYXQUGCNSONBWE5\", \"length\": \"207\", \"offset\": \"0\", \"filename\": \"a.warc\"}\n",
    ),
    (
        [DIGESTED, b""],
        b"com,example)/ 20160919172024 {\"url\": \"http://example.com/\", \"mime\": \"text/html\", \"status\": \"200\", \"digest\": \"ABC\", \"length\": \"295\", \"offset\": \"0\", \"filename\": \"a.warc\"}\n",
    ),
];

/// Returns the lines of the captures of the first two records.
fn lines_of(alloc: Global, archive: &[u8]) -> Result<Vec<u8>, Fail> {
    let mut input = Slice::new(archive);
    let mut reader = Reader::new(alloc)?;
    let mut lines = Vec::new(alloc);
    for _ in 0..2 {
        if let Some(entry) = next_capture(alloc, &mut reader, &mut input, "a.warc")? {
            push_line(alloc, &mut lines, &entry)?;
        }
    }
    Ok(lines)
}

/// Appends the line of an entry, if it is good.
fn push_line(alloc: Global, lines: &mut Vec<u8>, entry: &Entry) -> Result<(), Fail> {
    if entry.good() {
        lines.extend_from_slice(write_line(alloc, entry)?.as_slice())?;
    }
    Ok(())
}

#[test]
fn captures_have_their_lines(rt: HostRuntime) -> Result<(), Fail> {
    for (number, (records, lines)) in ARCHIVES.iter().enumerate() {
        let archive = joined(rt.alloc(), records)?;
        assert!(rt;
            lines_of(rt.alloc(), &archive)?.as_slice() == *lines,
            "row {number}"
        );
    }
    Ok(())
}
