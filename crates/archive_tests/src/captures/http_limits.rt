//! How long the HTTP head of a block is, and how many fields it has.
use super::{ABC, HTTP, capture_of, says, says_no_head};
use cdxj_core::Entry;
use fixtures::{joined, repeated};
use std::alloc::Global;
use std::test::Fail;

/// A first part, a part that is repeated, how often, and whether they make a head: of 256 and 257 fields, and of
/// 65,536, 65,537 and 100,024 bytes.
const HEADS: &[(&[u8], &[u8], usize, bool)] = &[
    (b"HTTP/1.1 200 OK", b"\r\na: b", 256, true),
    (b"HTTP/1.1 200 OK", b"\r\na: b", 257, false),
    (b"HTTP/1.1 200 OK\r\nX: ", b"a", 65_512, true),
    (b"HTTP/1.1 200 OK\r\nX: ", b"a", 65_513, false),
    (b"HTTP/1.1 200 OK\r\nX: ", b"a", 100_000, false),
];

/// Returns `true` if the capture shows that a head before `abc` was found, or not found.
fn says_head(captured: &Option<Entry>, is_head: bool) -> bool {
    if is_head {
        says(captured, "-", "200", ABC)
    } else {
        says_no_head(captured)
    }
}

/// Returns `true` if a head of these parts is found, or not found, before `abc`.
fn is_limited(alloc: Global, first: &[u8], parts: &[u8], is_head: bool) -> Result<bool, Fail> {
    let block = joined(alloc, &[first, parts, b"\r\n\r\nabc"])?;
    Ok(says_head(&capture_of(alloc, "response", HTTP, &block)?, is_head))
}

#[test]
fn http_heads_are_limited(rt: HostRuntime) -> Result<(), Fail> {
    for (first, part, count, is_head) in HEADS {
        let parts = repeated(rt.alloc(), part, *count)?;
        assert!(rt; is_limited(rt.alloc(), first, &parts, *is_head)?, "{count}");
    }
    Ok(())
}
