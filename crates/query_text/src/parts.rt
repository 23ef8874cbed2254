//! The pieces of a query text.
ghost use Rattle.std.specs.Prelude.{◌≡◌, ◌∷◌, ◌<◌, ◌==◌, IfSome, IfOk, length};
ghost use Rattle.std.specs.Cow.{cow_str_bytes};
ghost use Rattle.std.specs.List.{list_all, slice_split, before_first, after_first};
ghost use Rattle.query_text.specs.Parts.{parts_left, is_equals, is_plain, decoded};
ghost use Rattle.query_text.specs.Values.{is_number};

use cdxj_places::has_digits;
use form_urlencoded::decode;
use memchr::memchr2;
use std::alloc::{AllocError, Global};
use std::borrow::CowStr;

/// Returns the part of a text before its first `sign`, and the text after that sign, if there is
/// one.
pub(crate) fn cut_part(text: &str, sign: char) -> (&str, Option<&str>)
    requires { sign < 128 }
    ensures parts { slice_split (λ b. b == sign) text.now
        ≡ result.0.now ∷ parts_left sign result.1 }
    ensures smaller { IfSome result.1 (λ later. length later.now < length text.now) }
{
    match text.split_once(sign) {
        Some((part, later)) => (part, Some(later)),
        None => (text, None),
    }
}

/// Returns the name before the first `=`, and the text of the value after it.
pub(crate) fn cut_pair(piece: &str) -> (&str, &str)
    ensures name { result.0.now ≡ before_first is_equals piece.now }
    ensures value { result.1.now ≡ after_first is_equals piece.now }
{
    piece.split_once('=').unwrap_or((piece, ""))
}

#[tactic(auto, using(cdxj_places::proofs::Found::IsFirstByte_absent))]
fn is_plain(bytes: &[u8]) -> bool
    ensures { result ≡ list_all is_plain bytes.now }
{
    memchr2(b'+', b'%', bytes).is_none()
}

/// Decodes a name or a value by the form encoding of the URL Standard.
#[tactic(auto, using(crate::proofs::PlainTexts::plain_text_stands))]
pub(crate) fn decoded(alloc: Global, text: &str) -> Result<CowStr<'_>, AllocError>
    ensures { IfOk result (λ found. cow_str_bytes found ≡ decoded text.now) }
{
    if is_plain(text.as_bytes()) {
        return Ok(CowStr::Borrowed(text));
    }
    decode(alloc, text.as_bytes())
}

/// Returns `true` if the text consists of digits, at least one and at most `most` of them.
pub(crate) fn is_number(text: &str, most: usize) -> bool
    ensures { result ≡ is_number most text.now }
{
    !text.is_empty() && text.len() <= most && has_digits(text.as_bytes())
}
