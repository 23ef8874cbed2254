//! The body of a line: the line without its line feed.
ghost use Rattle.std.specs.Prelude.{◌≡◌, ◌<◌, length, true, IfSome, IsUtf8};
ghost use Rattle.std.specs.List.{list_all};
ghost use Rattle.cdxj_objects.specs.Plain.{is_printable, is_printable_ascii};
ghost use Rattle.cdxj_core.specs.declared.limit.TheConstants.{LINE_LIMIT};
ghost use Rattle.cdxj_core.specs.Lines.{body_of, has_no_feed};

use crate::limit::LINE_LIMIT;
use crate::printable::is_printable;
use cdxj_objects::printable_length;
use memchr::memchr;

/// Returns the line without a line feed at its end.
pub(crate) fn body_of(line: &[u8]) -> &[u8]
    ensures { result.now ≡ body_of line.now }
{
    match line {
        [body @ .., b'\n'] => body,
        _ => line,
    }
}

#[tactic(auto, using(cdxj_places::proofs::Found::IsFirstByte_absent))]
pub(crate) fn has_no_feed(text: &[u8]) -> bool
    ensures { result ≡ has_no_feed text.now }
{
    memchr(b'\n', text).is_none()
}

/// Returns the body as a text, if it is UTF-8 without controls.
#[cold]
fn printable_utf8(body: &[u8]) -> Option<&str>
    ensures value { IfSome result (λ text. text.now ≡ body.now) }
    ensures utf8 { IfSome result (λ text. IsUtf8 text.now) }
    ensures printable { IfSome result (λ text. list_all is_printable text.now ≡ true) }
{
    if is_printable(body) {
        str::from_utf8(body).ok()
    } else {
        None
    }
}

/// Returns a body of ASCII without controls as a text.
#[inline(always)]
#[tactic(auto, using(crate::proofs::PrintableAscii::ascii_rules))]
pub(crate) fn ascii_text(body: &[u8]) -> &str
    requires { list_all is_printable_ascii body.now ≡ true }
    ensures value { result.now ≡ body.now }
    ensures utf8 { IsUtf8 result.now }
    ensures printable { list_all is_printable result.now ≡ true }
{
    unsafe { str::from_utf8_unchecked(body) }
}

/// Returns the body as a text, if it is within the limit and consists of characters other than
/// controls.
#[inline(always)]
pub(crate) fn printable_text(body: &[u8]) -> Option<&str>
    ensures value { IfSome result (λ text. text.now ≡ body.now) }
    ensures short { IfSome result (λ text. length text.now < LINE_LIMIT) }
    ensures utf8 { IfSome result (λ text. IsUtf8 text.now) }
    ensures printable { IfSome result (λ text. list_all is_printable text.now ≡ true) }
{
    if body.len() >= LINE_LIMIT {
        return None;
    }
    if printable_length(body) == body.len() {
        Some(ascii_text(body))
    } else {
        printable_utf8(body)
    }
}
