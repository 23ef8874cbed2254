//! The targets of captures.
use super::{captured, record_text};
use cdxj_core::Entry;
use std::test::Fail;

/// Types and targets, with the URL of the capture, if there is one.
const TARGETS: &[(&str, &[u8], Option<&str>)] = &[
    ("response", b"http://x/", Some("http://x/")),
    ("resource", b"<http://x/>", Some("http://x/")),
    ("revisit", b"<<http://x/>>", Some("<http://x/>")),
    ("REVISIT", b"<http://x/", Some("<http://x/")),
    ("response", b"http://x/>", Some("http://x/>")),
    ("response", b"< >", Some(" ")),
    ("response", b"<>", None),
    ("response", b"", None),
    ("response", b"<", Some("<")),
    ("response", b">", Some(">")),
    ("resource", b"http://x/\xC3\xA9", Some("http://x/\u{e9}")),
    ("resource", b"http://x/\xE9", Some("http://x/%E9")),
    ("warcinfo", b"http://x/", None),
    ("request", b"http://x/", None),
    ("metadata", b"http://x/", None),
    ("conversion", b"http://x/", None),
    ("continuation", b"http://x/", None),
    ("responses", b"http://x/", None),
];

fn has_url(captured: &Option<Entry>, wanted: Option<&str>) -> bool {
    match captured {
        Some(entry) => wanted.is_some_and(|url| url == entry.url.as_str()),
        None => wanted.is_none(),
    }
}

#[test]
fn captures_are_under_their_targets(rt: HostRuntime) -> Result<(), Fail> {
    for (number, (kind, target, url)) in TARGETS.iter().enumerate() {
        let text = record_text(rt.alloc(), kind, target, b"", b"")?;
        assert!(rt;
            has_url(&captured(rt.alloc(), &text)?, *url),
            "row {number}"
        );
    }
    Ok(())
}
