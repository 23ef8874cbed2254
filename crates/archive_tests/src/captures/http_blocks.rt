//! Blocks with and without an HTTP head according to RFC 9112.
use super::{ABC, HTTP, capture_of, says, says_no_head};
use fixtures::joined;
use std::test::Fail;

/// HTTP heads, with the status and the media type of the capture.
const HEADS: &[(&[u8], &str, &str)] = &[
    (
        b"HTTP/1.1 200 OK\r\nContent-Type: text/html; charset=utf-8\r\n\r\n",
        "200",
        "text/html",
    ),
    (b"HTTP/1.1 200 OK\r\n\r\n", "200", "-"),
    (b"HTTP/1.0 404 Not Found\r\n\r\n", "404", "-"),
    // No reason, with and without its space, and any reason.
    (b"HTTP/1.1 204\r\n\r\n", "204", "-"),
    (b"HTTP/1.1 204 \r\n\r\n", "204", "-"),
    (b"HTTP/1.1 200  O K \r\n\r\n", "200", "-"),
    (b"HTTP/1.1 200 \xC3\xA9\t\xFF\r\n\r\n", "200", "-"),
    // Any three digits.
    (b"HTTP/1.1 000 a\r\n\r\n", "000", "-"),
    (b"HTTP/1.1 099 a\r\n\r\n", "099", "-"),
    (b"HTTP/1.1 999\r\n\r\n", "999", "-"),
    // Lines that end with LF alone.
    (b"HTTP/1.1 200 OK\nContent-Type: a/b\n\n", "200", "a/b"),
    (b"HTTP/1.1 200 OK\r\nContent-Type: a/b\n\r\n", "200", "a/b"),
    (b"HTTP/1.1 200 OK\n\r\n", "200", "-"),
    // Empty lines before the status line.
    (b"\r\nHTTP/1.1 200 OK\r\n\r\n", "200", "-"),
    (b"\n\r\n\nHTTP/1.1 200 OK\r\n\r\n", "200", "-"),
    // Names and values of fields.
    (
        b"HTTP/1.1 200 OK\r\ncontent-TYPE: a/b\r\n\r\n",
        "200",
        "a/b",
    ),
    (
        b"HTTP/1.1 200 OK\r\nContent-Type: a/b\r\nContent-Type: c/d\r\n\r\n",
        "200",
        "a/b",
    ),
    (b"HTTP/1.1 200 OK\r\nContent-Type:a/b\r\n\r\n", "200", "a/b"),
    (
        b"HTTP/1.1 200 OK\r\nContent-Type: \t a/b\t \r\n\r\n",
        "200",
        "a/b",
    ),
    (b"HTTP/1.1 200 OK\r\nContent-Type:\r\n\r\n", "200", "-"),
    (
        b"HTTP/1.1 200 OK\r\nContent-Type: \xE9\x80\r\n\r\n",
        "200",
        "%E9%80",
    ),
    (
        b"HTTP/1.1 200 OK\r\nContent-Type-Of: a/b\r\n\r\n",
        "200",
        "-",
    ),
    (
        b"HTTP/1.1 200 OK\r\n!#$%&'*+-.^_`|~0aZ: b\r\n\r\n",
        "200",
        "-",
    ),
    (
        b"HTTP/1.1 200 OK\r\nA: b: c\r\nContent-Type: d\r\n\r\n",
        "200",
        "d",
    ),
];

/// Blocks without a whole status line and a whole head.
const NO_STATUS: &[&[u8]] = &[
    b"",
    b"\r\n",
    b"abc",
    b"<html></html>\r\n\r\n",
    // A head that is cut off.
    b"HTTP/1.1 200 OK",
    b"HTTP/1.1 200 OK\r\n",
    b"HTTP/1.1 200 OK\r\n\r",
    b"HTTP/1.1 200 OK\r\nA: b",
    b"HTTP/1.1 200 OK\r\nA: b\r\n",
    // Other versions, and what is no version.
    b"HTTP/2.0 200 OK\r\n\r\n",
    b"HTTP/2 200 OK\r\n\r\n",
    b"HTTP/1.2 200 OK\r\n\r\n",
    b"HTTP/0.9 200 OK\r\n\r\n",
    b"HTTP/1.10 200 OK\r\n\r\n",
    b"http/1.1 200 OK\r\n\r\n",
    b"ICY 200 OK\r\n\r\n",
    b"GET / HTTP/1.1\r\n\r\n",
    // A code of other than three digits, or not after one space.
    b"HTTP/1.1 20 OK\r\n\r\n",
    b"HTTP/1.1 2000 OK\r\n\r\n",
    b"HTTP/1.1 2x0 OK\r\n\r\n",
    b"HTTP/1.1 +20 OK\r\n\r\n",
    b"HTTP/1.1\r\n\r\n",
    b"HTTP/1.1200 OK\r\n\r\n",
    b"HTTP/1.1  200 OK\r\n\r\n",
    b"HTTP/1.1\t200 OK\r\n\r\n",
    b"HTTP/1.1 200OK\r\n\r\n",
    b" HTTP/1.1 200 OK\r\n\r\n",
];

/// Blocks whose reason or fields aren't read.
const NO_FIELDS: &[&[u8]] = &[
    // Bytes that a reason or a value may not have.
    b"HTTP/1.1 200 O\0K\r\n\r\n",
    b"HTTP/1.1 200 O\rK\r\n\r\n",
    b"HTTP/1.1 200 OK\r\nA: b\x7F\r\n\r\n",
    b"HTTP/1.1 200 OK\r\nA: b\rc\r\n\r\n",
    // Folded fields.
    b"HTTP/1.1 200 OK\r\nA: b\r\n c\r\n\r\n",
    b"HTTP/1.1 200 OK\r\nA: b\r\n\tc: d\r\n\r\n",
    b"HTTP/1.1 200 OK\r\n A: b\r\n\r\n",
    // Lines that are no fields.
    b"HTTP/1.1 200 OK\r\nA : b\r\n\r\n",
    b"HTTP/1.1 200 OK\r\n: b\r\n\r\n",
    b"HTTP/1.1 200 OK\r\nA\r\n\r\n",
    b"HTTP/1.1 200 OK\r\nA B: c\r\n\r\n",
    b"HTTP/1.1 200 OK\r\nA\xE9: b\r\n\r\n",
    b"HTTP/1.1 200 OK\r\nA(: b\r\n\r\n",
];

/// Each head precedes a payload of `abc`.
#[test]
fn http_heads_are_found(rt: HostRuntime) -> Result<(), Fail> {
    for (number, (head, status, mime)) in HEADS.iter().enumerate() {
        let block = joined(rt.alloc(), &[head, b"abc"])?;
        let captured = capture_of(rt.alloc(), "response", HTTP, &block)?;
        assert!(rt; says(&captured, mime, status, ABC), "row {number}");
    }
    Ok(())
}

#[test]
fn other_blocks_have_no_http_head(rt: HostRuntime) -> Result<(), Fail> {
    for table in &[NO_STATUS, NO_FIELDS] {
        for (number, block) in table.iter().enumerate() {
            let captured = capture_of(rt.alloc(), "response", HTTP, block)?;
            assert!(rt; says_no_head(&captured), "row {number}");
        }
    }
    Ok(())
}
