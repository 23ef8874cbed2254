//! The records that hold HTTP messages.
ghost use Rattle.std.specs.Prelude.{◌≡◌, codes, option_map};
ghost use Rattle.warc_head.specs.Names.{same_name};
ghost use Rattle.capture_core.specs.FieldValue.{media_type};
ghost use Rattle.capture_core.specs.Indexed.{field, is_http_record, holds_response, may_have_head};

use crate::field_value::media_type;
use warc_core::{Head, Kind};

/// Returns the value of the record's own `Content-Type`.
pub(crate) fn content_type(head: &Head) -> Option<&[u8]>
    ensures { option_map (λ v. v.now) result ≡ field (codes "Content-Type") head.now }
{
    head.field(b"Content-Type")
}

/// Returns `true` if the record's `Content-Type` is `application/http`, with any parameters.
pub(crate) fn is_http_record(head: &Head) -> bool
    ensures { result ≡ is_http_record head.now }
{
    match content_type(head) {
        Some(value) => has_http_type(value),
        None => false,
    }
}

/// Returns `true` if the media type of a value is `application/http`. Most have a parameter right
/// behind it, which is the fastest test.
fn has_http_type(value: &[u8]) -> bool
    ensures { result ≡ same_name (media_type value.now) (codes "application/http") }
{
    if value.starts_with(b"application/http;") {
        return true;
    }
    is_http(media_type(value))
}

/// Returns `true` if a media type is `application/http`, ignoring ASCII case. Most records write it
/// in lower case, which is the faster test.
fn is_http(media: &[u8]) -> bool
    ensures { result ≡ same_name media.now (codes "application/http") }
{
    media == b"application/http".as_slice() || media.eq_ignore_ascii_case(b"application/http")
}

fn holds_response(kind: Kind) -> bool
    ensures { result ≡ holds_response kind }
{
    matches!(kind, Kind::Response | Kind::Revisit)
}

/// Returns `true` if the record's block may begin with an HTTP head: a response or revisit whose
/// `Content-Type` is `application/http`.
pub(crate) fn may_have_head(head: &Head) -> bool
    ensures { result ≡ may_have_head head.now }
{
    holds_response(head.kind()) && is_http_record(head)
}
