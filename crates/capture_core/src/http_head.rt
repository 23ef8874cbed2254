//! The HTTP head at the start of a block.
ghost use Rattle.std.specs.Prelude.{◌≡◌, ◌≤◌, length, map, All, IfOk, IfErr, IfSome, IfNone};
ghost use Rattle.std.specs.Prelude.{option_map};
ghost use Rattle.std.specs.Str.{str_eq_ignore_ascii_case};
ghost use Rattle.httparse.specs.Spans.{IsHeaderWithin, ResponseOverflows, header_bytes};
ghost use Rattle.capture_core.specs.HttpHead.{HasNoHead, first_field_value};
ghost use Rattle.capture_core.specs.ResponseView.{IsHeadAt};

use crate::response::HttpHead;
use httparse::spans::{EMPTY_HEADER_SPAN, HeaderSpan, parse_response};
use httparse::{Error, Status};

/// The maximum length of an HTTP head in bytes.
pub(crate) const HTTP_HEAD_LIMIT: usize = 65_536;

/// The maximum number of fields of an HTTP head.
pub(crate) const HTTP_FIELD_LIMIT: usize = 256;

/// The maximum number of fields of an HTTP head that is parsed once.
const USUAL_FIELDS: usize = 32;

/// Spans for the fields of an HTTP head that is parsed once. They serve one head after another.
pub(crate) type UsualSpans = [HeaderSpan; USUAL_FIELDS];

pub(crate) const EMPTY_SPANS: UsualSpans = [EMPTY_HEADER_SPAN; USUAL_FIELDS];

/// An HTTP head has more fields than it is parsed with.
#[derive(Clone, Copy)]
struct TooManyFields;

/// Reads the HTTP head at the start of a block, if there is one. The first 65,536 bytes of the
/// block are enough.
pub(crate) fn http_head<'a>(block: &'a [u8], spans: &mut UsualSpans) -> Option<HttpHead<'a>>
    ensures found { IfSome result (IsHeadAt block.now) }
    ensures within { IfSome result (λ r. r.len ≤ length block.now) }
    ensures none { IfNone result (HasNoHead HTTP_HEAD_LIMIT HTTP_FIELD_LIMIT block.now) }
{
    // The front of a record that isn't marked as HTTP is empty.
    if block.is_empty() {
        return None;
    }
    match head_within(block, spans) {
        Ok(head) => head,
        Err(TooManyFields) => head_of_many_fields(block),
    }
}

/// Like `http_head`, for a head of more fields than usual.
fn head_of_many_fields(block: &[u8]) -> Option<HttpHead<'_>>
    ensures found { IfSome result (IsHeadAt block.now) }
    ensures within { IfSome result (λ r. r.len ≤ length block.now) }
    ensures none { IfNone result (HasNoHead HTTP_HEAD_LIMIT HTTP_FIELD_LIMIT block.now) }
{
    match head_within(block, &mut [EMPTY_HEADER_SPAN; HTTP_FIELD_LIMIT]) {
        Ok(head) => head,
        Err(TooManyFields) => None,
    }
}

/// Like `http_head`, with these spans for the fields. The error says that each head at the start of
/// the block has more fields.
fn head_within<'a>(
    block: &'a [u8],
    spans: &mut [HeaderSpan],
) -> Result<Option<HttpHead<'a>>, TooManyFields>
    requires { length spans.old ≤ HTTP_FIELD_LIMIT }
    ensures found { IfOk result (λ head. IfSome head (IsHeadAt block.now)) }
    ensures within { IfOk result (λ head. IfSome head (λ r. r.len ≤ length block.now)) }
    ensures none { IfOk result (λ head. IfNone head
        (HasNoHead HTTP_HEAD_LIMIT HTTP_FIELD_LIMIT block.now)) }
    ensures many { IfErr result (λ _. ResponseOverflows (length spans.old) block.now) }
{
    match parse_response(block, spans) {
        Ok(Status::Complete(head)) => {
            if head.len <= HTTP_HEAD_LIMIT {
                Ok(Some(HttpHead {
                    code: head.code,
                    content_type: first_field_value(block, &spans[..head.headers], b"Content-Type"),
                    len: head.len,
                }))
            } else {
                Ok(None)
            }
        }
        Ok(Status::Partial) => Ok(None),
        Err(Error::TooManyHeaders) => Err(TooManyFields),
        Err(_) => Ok(None),
    }
}

/// Returns the value of the first field of this name, ignoring ASCII case.
fn first_field_value<'a>(bytes: &'a [u8], fields: &[HeaderSpan], name: &[u8]) -> Option<&'a [u8]>
    requires { All (IsHeaderWithin (length bytes.now)) fields.now }
    ensures { option_map (λ v. v.now) result ≡ first_field_value name.now
        (map (header_bytes bytes.now) fields.now) }
{
    for field in fields {
        if is_named(field.name.of(bytes), name) {
            return Some(field.value.of(bytes));
        }
    }
    None
}

/// Returns `true` if a field has this name, ignoring ASCII case. Most are spelled alike, which is
/// the faster test.
fn is_named(field: &[u8], name: &[u8]) -> bool
    ensures { result ≡ str_eq_ignore_ascii_case field.now name.now }
{
    field == name || field.eq_ignore_ascii_case(name)
}
