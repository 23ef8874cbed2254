//! The parts of a field's value that an entry contains.
ghost use Rattle.std.specs.Prelude.{◌≡◌, ◌==◌, ◌<◌, length, position, MatchOption, IfSome, Some};
ghost use Rattle.std.specs.Prelude.{None};
ghost use Rattle.capture_core.specs.FieldValue.{non_empty, without_brackets, before_semicolon};
ghost use Rattle.capture_core.specs.FieldValue.{media_type, without_sha1};

use memchr::memchr_iter;
use warc_core::is_sha1;
use warc_head::trim;

/// Returns a value that isn't empty.
pub(crate) fn non_empty(value: &[u8]) -> Option<&[u8]>
    ensures { MatchOption result (non_empty value.now ≡ None)
        (λ v. non_empty value.now ≡ Some v.now) }
{
    if value.is_empty() { None } else { Some(value) }
}

/// Returns the value without one enclosing pair of `<` and `>`.
#[tactic(auto, unfolding(crate::specs::FieldValue::without_brackets))]
pub(crate) fn without_brackets(value: &[u8]) -> &[u8]
    ensures { result.now ≡ without_brackets value.now }
{
    match value {
        [b'<', inner @ .., b'>'] => inner,
        _ => value,
    }
}

/// Returns a digest without a leading `sha1:`, in any case.
#[tactic(auto, unfolding(crate::specs::FieldValue::without_sha1))]
pub(crate) fn without_sha1(value: &[u8]) -> &[u8]
    ensures { result.now ≡ without_sha1 value.now }
{
    match value.split_at_checked(5) {
        Some((label, digest)) if is_sha1(label) => digest,
        _ => value,
    }
}

/// Returns a media type without its parameters and the white space around it.
#[tactic(auto, unfolding(crate::specs::FieldValue::media_type))]
pub(crate) fn media_type(value: &[u8]) -> &[u8]
    ensures { result.now ≡ media_type value.now }
{
    trim(before_semicolon(value))
}

fn before_semicolon(value: &[u8]) -> &[u8]
    ensures { result.now ≡ before_semicolon value.now }
{
    match semicolon(value) {
        Some(end) => &value[..end],
        None => value,
    }
}

/// Returns the offset of the first semicolon. For one that is near, the iterator is faster than
/// `memchr`.
fn semicolon(value: &[u8]) -> Option<usize>
    ensures place { result ≡ position (λ byte. byte == 59) value.now }
    ensures within { IfSome result (λ end. end < length value.now) }
{
    memchr_iter(b';', value).next()
}
