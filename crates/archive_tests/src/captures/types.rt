//! Sets of types, and the captures of records of types other than the usual ones.
use super::{ABC, EMPTY, HTTP, capture_among, capture_of, says};
use capture_core::Types;
use std::test::Fail;
use warc_core::Kind;

const KINDS: &[Kind] = &[
    Kind::Warcinfo,
    Kind::Response,
    Kind::Resource,
    Kind::Request,
    Kind::Metadata,
    Kind::Revisit,
    Kind::Conversion,
    Kind::Continuation,
    Kind::Other,
];

/// Texts, and the types that they name.
const TEXTS: &[(&str, &[Kind])] = &[
    ("response", &[Kind::Response]),
    ("resource", &[Kind::Resource]),
    ("revisit", &[Kind::Revisit]),
    ("conversion", &[Kind::Conversion]),
    ("metadata", &[Kind::Metadata]),
    ("metadata,response", &[Kind::Metadata, Kind::Response]),
    (
        "metadata,conversion,revisit,resource,response",
        &[
            Kind::Response,
            Kind::Resource,
            Kind::Revisit,
            Kind::Conversion,
            Kind::Metadata,
        ],
    ),
];

/// Texts that name no set of types.
const NO_TYPES: &[&str] = &[
    "",
    ",",
    "-",
    "request",
    "warcinfo",
    "continuation",
    "other",
    "all",
    "responses",
    "Response",
    " response",
    "response,",
    ",response",
    "response,response",
    "resource,metadata,resource",
    "response,,resource",
    "response, resource",
    "response;resource",
    "response,request",
];

/// Returns `true` if these are the types, and no others.
fn are(types: Types, kinds: &[Kind]) -> bool {
    KINDS
        .iter()
        .all(|kind| types.includes(*kind) == kinds.contains(kind))
}

/// Returns `true` if the text names these types and no others.
fn names(text: &str, kinds: &[Kind]) -> bool {
    match Types::read(text) {
        Some(types) => are(types, kinds),
        None => false,
    }
}

const USUAL: &[Kind] = &[Kind::Response, Kind::Resource, Kind::Revisit];

#[test]
fn types_are_read_from_their_names(rt: HostRuntime) {
    for (text, kinds) in TEXTS {
        assert!(rt; names(text, kinds), "{text}");
    }
    for text in NO_TYPES {
        assert!(rt; Types::read(text).is_none(), "{text}");
    }
    assert!(rt; names("revisit,resource,response", USUAL) && are(Types::usual(), USUAL));
}

const PLAIN: &[u8] = b"Content-Type: text/plain; charset=utf-8\r\n";

/// An HTTP head before `abc`, and the SHA-1 of both together.
const PAGE: &[u8] = b"HTTP/1.1 200 OK\r\nContent-Type: text/html\r\n\r\nabc";

const WHOLE_PAGE: &str = "3VCEUS3XON6CASQCPFYOGDLJAEWJAUIV";

/// Types of records, further lines of their heads and their blocks; and the media type and the digest of their
/// captures. None has a status.
const SAMPLES: &[(&str, &[u8], &[u8], &str, &str)] = &[
    ("metadata", PLAIN, b"abc", "text/plain", ABC),
    ("Metadata", b"", b"", "-", EMPTY),
    ("metadata", HTTP, PAGE, "-", WHOLE_PAGE),
    (
        "metadata",
        b"WARC-Payload-Digest: sha1:ABC\r\n",
        b"abc",
        "-",
        "ABC",
    ),
    ("conversion", PLAIN, b"abc", "text/plain", ABC),
    ("CONVERSION", b"", b"abc", "-", ABC),
    ("conversion", HTTP, PAGE, "-", WHOLE_PAGE),
];

/// None of them has a capture among records of the usual types.
#[test]
fn conversion_and_metadata_records_are_captured_as_resources_are(
    rt: HostRuntime,
) -> Result<(), Fail> {
    let types = Types::read("conversion,metadata").ok_or("no set of types")?;
    for (kind, fields, block, mime, digest) in SAMPLES {
        let captured = capture_among(rt.alloc(), types, kind, fields, block)?;
        let usual = capture_of(rt.alloc(), kind, fields, block)?;
        assert!(rt;
            says(&captured, mime, "-", digest) && usual.is_none(),
            "{kind} {mime}"
        );
    }
    Ok(())
}

#[test]
fn other_types_are_left_out(rt: HostRuntime) -> Result<(), Fail> {
    let types = Types::read("conversion,metadata").ok_or("no set of types")?;
    for kind in &[
        "response", "resource", "revisit", "warcinfo", "request", "x",
    ] {
        assert!(rt;
            capture_among(rt.alloc(), types, kind, b"", b"abc")?.is_none(),
            "{kind}"
        );
    }
    Ok(())
}
