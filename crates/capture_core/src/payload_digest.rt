//! The digest of a capture's payload.
ghost use Rattle.std.specs.Prelude.{◌≡◌, ◌<◌, length, MatchOption, IfSome, Some, None};
ghost use Rattle.capture_core.specs.Indexed.{given_digest};
ghost use Rattle.capture_core.specs.Capture.{known_digest};

use crate::field_value::{non_empty, without_sha1};
use warc_core::{Head, Kind};

/// The digest of a payload, as an entry has it.
#[derive(Clone, Copy)]
pub(crate) enum PayloadDigest<'a> {
    /// The one that is known without the payload.
    Known(&'a [u8]),
    /// The base 32 of the payload's SHA-1.
    Hashed([u8; 32]),
}

impl<'a> PayloadDigest<'a> {
    ghost use Rattle.std.specs.Prelude.{◌≡◌};
    ghost use Rattle.capture_core.specs.BlockParts.{digest_text};

    pub(crate) fn text(&self) -> &[u8]
        ensures { result.now ≡ digest_text self.now }
    {
        match self {
            PayloadDigest::Known(text) => text,
            PayloadDigest::Hashed(text) => text,
        }
    }
}

/// Returns the value of `WARC-Payload-Digest` without a leading `sha1:`, or `None` if nothing is
/// left.
fn given_digest(head: &Head) -> Option<&[u8]>
    ensures { MatchOption result (given_digest head.now ≡ None)
        (λ d. given_digest head.now ≡ Some d.now) }
{
    match head.field(b"WARC-Payload-Digest") {
        Some(value) => non_empty(without_sha1(value)),
        None => None,
    }
}

/// Returns the digest that is known without the payload: the one that the head gives, or `-` for a
/// revisit without one. If there is none, the entry's digest is the base 32 of the payload's SHA-1.
pub(crate) fn known_digest(head: &Head) -> Option<&[u8]>
    ensures value { MatchOption result (known_digest head.now ≡ None)
        (λ d. known_digest head.now ≡ Some d.now) }
    ensures filled { IfSome result (λ d. 0 < length d.now) }
{
    match given_digest(head) {
        Some(given) => Some(given),
        None => match head.kind() {
            Kind::Revisit => Some(b"-"),
            _ => None,
        },
    }
}
