//! The texts of an entry, from bytes that may not be UTF-8.
ghost use Rattle.std.specs.Prelude.{◌≡◌, true, IfOk, IfSome};
ghost use Rattle.std.specs.List.{list_all};
ghost use Rattle.std.specs.Cow.{cow_str_bytes};
ghost use Rattle.json.specs.Run.{is_plain};
ghost use Rattle.capture_core.specs.Utf8Text.{utf8_text};

use cdxj_core::plain_utf8;
use percent_encoding::{AsciiSet, percent_encode};
use std::alloc::{AllocError, Global};
use std::borrow::CowStr;

/// Returns the text of a value. A value in UTF-8 is returned as it is. In any other value, each
/// byte from 0x80 on is written as `%` and two upper-case hexadecimal digits.
pub(crate) fn utf8_text(alloc: Global, value: &[u8]) -> Result<CowStr<'_>, AllocError>
    ensures { IfOk result (λ text. cow_str_bytes text ≡ utf8_text value.now) }
{
    match str::from_utf8(value) {
        Ok(text) => Ok(CowStr::Borrowed(text)),
        Err(_) => percent_encode(value, AsciiSet::EMPTY).into_cow(alloc),
    }
}

/// Returns the text of a value, if it is UTF-8 and needs no escapes in a line.
#[tactic(auto, unfolding(crate::specs::Utf8Text::utf8_text))]
pub(crate) fn plain_text(value: &[u8]) -> Option<&str>
    ensures value { IfSome result (λ text. text.now ≡ utf8_text value.now) }
    ensures plain { IfSome result (λ text. list_all is_plain text.now ≡ true) }
{
    plain_utf8(value)
}
