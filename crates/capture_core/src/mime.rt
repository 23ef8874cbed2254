//! The media type of a capture.
ghost use Rattle.std.specs.Prelude.{◌≡◌, option_map};
ghost use Rattle.cdxj_core.specs.Texts.{or_missing};
ghost use Rattle.capture_core.specs.Capture.{media_of, content_of, mime_of};
ghost use Rattle.capture_core.specs.ResponseView.{response_view};

use crate::field_value::media_type;
use crate::http_record::{content_type, is_http_record};
use crate::response::HttpHead;
use warc_core::{Head, Kind};

fn or_missing(value: &[u8]) -> &[u8]
    ensures { result.now ≡ or_missing value.now }
{
    if value.is_empty() { b"-" } else { value }
}

fn media(content_type: Option<&[u8]>) -> &[u8]
    ensures { result.now ≡ media_of (option_map (λ v. v.now) content_type.entry) }
{
    match content_type {
        Some(value) => or_missing(media_type(value)),
        None => b"-",
    }
}

#[tactic(auto, unfolding(crate::specs::Capture::content_of))]
fn content<'a>(head: &'a Head, response: Option<HttpHead<'a>>) -> &'a [u8]
    ensures { result.now ≡ content_of head.now (option_map response_view response.entry) }
{
    match response {
        Some(response) => media(response.content_type),
        None => {
            if is_http_record(head) {
                b"-"
            } else {
                media(content_type(head))
            }
        }
    }
}

/// Returns the media type of an entry, the first of these that applies: `warc/revisit` for a
/// revisit; the `Content-Type` of the HTTP head; `-` for a record whose own `Content-Type` is
/// `application/http`; the record's `Content-Type`. A value is cut at `;` and trimmed. `-` stands
/// for a value that is absent or empty.
pub(crate) fn mime<'a>(head: &'a Head, response: Option<HttpHead<'a>>) -> &'a [u8]
    ensures { result.now ≡ mime_of head.now (option_map response_view response.entry) }
{
    match head.kind() {
        Kind::Revisit => b"warc/revisit",
        _ => content(head, response),
    }
}
