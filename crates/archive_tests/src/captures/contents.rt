//! The media type, the status and the digest of captures.
use super::{ABC, EMPTY, HTTP, capture_of, says};
use std::test::Fail;

/// A record of `http://x/`: its type, further lines of its head, each with its CR LF, and its block; and the media
/// type, the status and the digest of its capture.
type Sample = (
    &'static str,
    &'static [u8],
    &'static [u8],
    &'static str,
    &'static str,
    &'static str,
);

/// An HTTP head before `abc`, and the SHA-1 of both together.
const PAGE: &[u8] = b"HTTP/1.1 200 OK\r\nContent-Type: text/html\r\n\r\nabc";

const WHOLE_PAGE: &str = "3VCEUS3XON6CASQCPFYOGDLJAEWJAUIV";

const PLAIN: &[u8] = b"Content-Type: text/plain\r\n";

/// Where the media type and the status come from.
const CONTENTS: &[Sample] = &[
    ("response", HTTP, PAGE, "text/html", "200", ABC),
    (
        "response",
        HTTP,
        b"HTTP/1.1 200 OK\r\nTransfer-Encoding: chunked\r\n\r\n3\r\nabc\r\n0\r\n\r\n",
        "-",
        "200",
        "EZMCEYKLYMOWXPIGFLXFT3WW62PQVRQP",
    ),
    (
        "response",
        HTTP,
        b"HTTP/1.1 100 a\r\n\r\nHTTP/1.1 200 OK\r\n\r\n",
        "-",
        "100",
        "OP3ZUEAEIGC5QPO47I7DR5X4KB6IV5TP",
    ),
    (
        "response",
        HTTP,
        b"HTTP/1.1 200 OK\r\n\r\n\r\n\r\n",
        "-",
        "200",
        "M2JI43F3LHB2HPHGA2KZ55FIMX7AJZSC",
    ),
    ("response", HTTP, b"abc", "-", "-", ABC),
    (
        "response",
        HTTP,
        b"HTTP/2.0 200 OK\r\n\r\n",
        "-",
        "-",
        "I6XONMKPTK2JF7I52JRDZ77I4SJYX2MC",
    ),
    (
        "response",
        HTTP,
        b"HTTP/1.1 200 OK\r\n",
        "-",
        "-",
        "ZB4FDC7WBMRZM2U3U4I2BF77VB6AVNKC",
    ),
    ("response", HTTP, b"HTTP/1.0 204\r\n\r\n", "-", "204", EMPTY),
    (
        "response",
        HTTP,
        b"HTTP/1.1 007 None\r\n\r\nabc",
        "-",
        "007",
        ABC,
    ),
    (
        "response",
        HTTP,
        b"HTTP/1.1 200 OK\r\nContent-Type: \r\nContent-Type: c/d\r\n\r\n",
        "-",
        "200",
        EMPTY,
    ),
    (
        "response",
        HTTP,
        b"HTTP/1.1 200 OK\r\nContent-Type:\t ;charset=x\r\n\r\n",
        "-",
        "200",
        EMPTY,
    ),
    (
        "response",
        HTTP,
        b"HTTP/1.1 200 OK\r\nContent-Type: text/\xFF ;x\r\n\r\n",
        "text/%FF",
        "200",
        EMPTY,
    ),
    (
        "response",
        HTTP,
        b"HTTP/1.1 200 OK\r\nContent-Type: text/\xC3\xA9; x=\xFF\r\n\r\n",
        "text/\u{e9}",
        "200",
        EMPTY,
    ),
    (
        "response",
        b"Content-Type: APPLICATION/HTTP\t;x\r\n",
        PAGE,
        "text/html",
        "200",
        ABC,
    ),
    (
        "response",
        b"Content-Type: application/http2\r\n",
        PAGE,
        "application/http2",
        "-",
        WHOLE_PAGE,
    ),
    ("response", PLAIN, PAGE, "text/plain", "-", WHOLE_PAGE),
    ("Response", b"", PAGE, "-", "-", WHOLE_PAGE),
    ("resource", HTTP, PAGE, "-", "-", WHOLE_PAGE),
    ("resource", PLAIN, b"abc", "text/plain", "-", ABC),
    ("RESOURCE", b"", b"abc", "-", "-", ABC),
    ("resource", b"Content-Type:\r\n", b"", "-", "-", EMPTY),
    (
        "resource",
        b"Content-Type: text/html \t;a;b\r\n",
        b"abc",
        "text/html",
        "-",
        ABC,
    ),
    (
        "resource",
        b"Content-Type: text/plain\r\n ; x\r\nContent-Type: a/b\r\n",
        b"",
        "text/plain",
        "-",
        EMPTY,
    ),
    (
        "revisit",
        HTTP,
        b"HTTP/1.1 304 Not Modified\r\nContent-Type: text/html\r\n\r\n",
        "warc/revisit",
        "304",
        "-",
    ),
    ("revisit", HTTP, b"abc", "warc/revisit", "-", "-"),
    ("revisit", PLAIN, PAGE, "warc/revisit", "-", "-"),
    ("revisit", b"", b"", "warc/revisit", "-", "-"),
    // The two blocks of FIPS 180-4's example.
    (
        "resource",
        PLAIN,
        b"abcdbcdecdefdefgefghfghighijhijkijkljklmklmnlmnomnopnopq",
        "text/plain",
        "-",
        "QSMD4RA4HPJG5OVOJKQ7SUJJ4XSUM4HR",
    ),
];

/// Where the digest comes from.
const DIGESTS: &[Sample] = &[
    (
        "resource",
        b"WARC-Payload-Digest: sha1:ABC\r\n",
        b"abc",
        "-",
        "-",
        "ABC",
    ),
    (
        "resource",
        b"warc-payload-digest: SHA1:abc\r\n",
        b"abc",
        "-",
        "-",
        "abc",
    ),
    (
        "resource",
        b"WARC-Payload-Digest: sHa1:sha1:A\r\n",
        b"abc",
        "-",
        "-",
        "sha1:A",
    ),
    (
        "resource",
        b"WARC-Payload-Digest: md5:00\r\n",
        b"abc",
        "-",
        "-",
        "md5:00",
    ),
    (
        "resource",
        b"WARC-Payload-Digest: sha1\r\n",
        b"abc",
        "-",
        "-",
        "sha1",
    ),
    (
        "resource",
        b"WARC-Payload-Digest: sha1:\r\n",
        b"abc",
        "-",
        "-",
        ABC,
    ),
    (
        "resource",
        b"WARC-Payload-Digest:\r\n",
        b"abc",
        "-",
        "-",
        ABC,
    ),
    (
        "resource",
        b"WARC-Payload-Digest:\r\nWARC-Payload-Digest: sha1:B\r\n",
        b"abc",
        "-",
        "-",
        ABC,
    ),
    (
        "resource",
        b"WARC-Payload-Digest: sha1:A\r\nWARC-Payload-Digest: sha1:B\r\n",
        b"abc",
        "-",
        "-",
        "A",
    ),
    (
        "resource",
        b"WARC-Payload-Digest: sha1:\xC3(\r\n",
        b"abc",
        "-",
        "-",
        "%C3(",
    ),
    (
        "response",
        b"WARC-Payload-Digest: sha1:A\r\nContent-Type: application/http\r\n",
        PAGE,
        "text/html",
        "200",
        "A",
    ),
    (
        "revisit",
        b"WARC-Payload-Digest: sha1:A\r\n",
        b"abc",
        "warc/revisit",
        "-",
        "A",
    ),
    (
        "revisit",
        b"WARC-Payload-Digest: sha1:\r\n",
        b"abc",
        "warc/revisit",
        "-",
        "-",
    ),
    (
        "revisit",
        b"WARC-Payload-Digest: md5:00\r\n",
        b"",
        "warc/revisit",
        "-",
        "md5:00",
    ),
];

#[test]
fn captures_say_what_the_records_say(rt: HostRuntime) -> Result<(), Fail> {
    for table in &[CONTENTS, DIGESTS] {
        for (kind, fields, block, mime, status, digest) in *table {
            let captured = capture_of(rt.alloc(), kind, fields, block)?;
            assert!(rt;
                says(&captured, mime, status, digest),
                "{kind} {mime} {digest}"
            );
        }
    }
    Ok(())
}
