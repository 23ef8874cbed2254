//! The blanks, texts and numbers of an object, where they stand.
ghost use Rattle.std.specs.Prelude.{◌≡◌, ◌≤◌, ◌<◌, ◌+◌, true, length, drop, IfSome, get_or};
ghost use Rattle.std.specs.List.{list_all};
ghost use Rattle.json.specs.Word.{ends_word};
ghost use Rattle.json.specs.Lex.{class, Class};
ghost use Rattle.cdxj_objects.specs.Plain.{is_printable};
ghost use Rattle.cdxj_objects.specs.Walk.{IsBehind, IsBlankTo, IsNumberTo, IsTextTo, IsValueAt};
ghost use Rattle.cdxj_objects.specs.Walk.{IsEscapeTo, IsEscapedTo, is_basic_unit, is_short_escape};

use crate::lanes::place_of_either;
use crate::plain::decimal_to;

/// Returns `true` if this byte stands at a place.
#[inline(always)]
pub(crate) fn byte_is(text: &[u8], at: usize, byte: u8) -> bool
    ensures within { result ≡ true → at < length text.now }
    ensures is { result ≡ true → get_or text.now at 0 ≡ byte }
{
    at < text.len() && text[at] == byte
}

/// Returns the place behind the blanks that stand at a place.
#[inline(always)]
#[tactic(auto, using(crate::proofs::WalkLaw::more_blank))]
pub(crate) fn skip_blanks(text: &[u8], at: usize) -> usize
    requires { at ≤ length text.now }
    ensures { IsBlankTo text.now at result }
{
    let mut place = at;
    'blanks: while place < text.len() && text[place] == b' ' {
        place += 1;
    }
    place
}

/// Returns the place behind a byte with blanks around it.
#[inline(always)]
#[tactic(auto, using(crate::proofs::WalkLaw::byte_behind))]
pub(crate) fn behind(text: &[u8], at: usize, byte: u8) -> Option<usize>
    requires within { at ≤ length text.now }
    requires operator { class byte ≡ Class.operator }
    ensures { IfSome result (IsBehind text.now at byte) }
{
    let place = skip_blanks(text, at);
    if byte_is(text, place, byte) {
        Some(skip_blanks(text, place + 1))
    } else {
        None
    }
}

/// Returns the place of the quote that ends a text, if one stands at a place.
#[inline(always)]
#[tactic(auto, using(crate::proofs::WalkLaw::text_to))]
pub(crate) fn text_to(text: &[u8], at: usize) -> Option<usize>
    requires { list_all is_printable text.now ≡ true }
    ensures { IfSome result (IsTextTo text.now at) }
{
    if !byte_is(text, at, b'"') {
        return None;
    }
    let end = place_of_either(text, at + 1, b'"', b'\\');
    if byte_is(text, end, b'"') {
        Some(end)
    } else {
        None
    }
}

/// Returns `true` if a backslash and this byte are an escape of two bytes.
#[inline(always)]
fn is_short_escape(byte: u8) -> bool
    ensures { result ≡ is_short_escape byte }
{
    byte == b'"'
        || byte == b'\\'
        || byte == b'/'
        || byte == b'b'
        || byte == b'f'
        || byte == b'n'
        || byte == b'r'
        || byte == b't'
}

/// Returns `true` if four hexadecimal digits stand at a place, the first of which is no D: they are
/// no half of a surrogate pair.
#[inline(always)]
fn is_code_unit(text: &[u8], at: usize) -> bool
    ensures within { result ≡ true → at + 4 ≤ length text.now }
    ensures digits { result ≡ true
        → is_basic_unit (get_or text.now at 0) (get_or text.now (at + 1) 0)
        (get_or text.now (at + 2) 0) (get_or text.now (at + 3) 0) ≡ true }
{
    if at > text.len() || text.len() - at < 4 {
        return false;
    }
    let (first, second, third, fourth) = (text[at], text[at + 1], text[at + 2], text[at + 3]);
    first.is_ascii_hexdigit()
        && second.is_ascii_hexdigit()
        && third.is_ascii_hexdigit()
        && fourth.is_ascii_hexdigit()
        && first != b'd'
        && first != b'D'
}

/// Returns the place behind the escape that stands at a place.
#[cold]
fn escape_to(text: &[u8], at: usize) -> Option<usize>
    requires within { at < length text.now }
    requires backslash { get_or text.now at 0 ≡ 92 }
    ensures { IfSome result (IsEscapeTo text.now at) }
{
    if text.len() - at < 2 {
        return None;
    }
    if is_short_escape(text[at + 1]) {
        return Some(at + 2);
    }
    if text[at + 1] == b'u' && is_code_unit(text, at + 2) {
        return Some(at + 6);
    }
    None
}

/// Returns the place of the quote that ends a text with escapes, if one stands at a place.
#[cold]
#[tactic(auto, using(crate::proofs::EscapeLaw::escaped_to))]
pub(crate) fn escaped_to(text: &[u8], at: usize) -> Option<usize>
    requires { list_all is_printable text.now ≡ true }
    ensures { IfSome result (IsEscapedTo text.now at) }
{
    if !byte_is(text, at, b'"') {
        return None;
    }
    let mut end = place_of_either(text, at + 1, b'"', b'\\');
    'escapes: while byte_is(text, end, b'\\') {
        let behind = escape_to(text, end)?;
        end = place_of_either(text, behind, b'"', b'\\');
    }
    if byte_is(text, end, b'"') {
        Some(end)
    } else {
        None
    }
}

/// Returns `true` if a number may end at a place.
#[inline(always)]
#[tactic(auto, using(crate::proofs::WalkLaw::ends_at))]
fn ends_number(text: &[u8], end: usize) -> bool
    ensures { result ≡ true → ends_word (drop end text.now) ≡ true }
{
    byte_is(text, end, b',') || byte_is(text, end, b'}') || byte_is(text, end, b' ')
}

/// Returns the end of the whole number that stands at a place.
#[inline(always)]
#[tactic(auto, using(crate::proofs::WalkLaw::number_to))]
fn number_to(text: &[u8], at: usize) -> Option<usize>
    ensures { IfSome result (IsNumberTo text.now at) }
{
    let end = decimal_to(text, at)?;
    if ends_number(text, end) {
        Some(end)
    } else {
        None
    }
}

/// A value that was read: where its text stands, and the place behind it.
#[derive(Clone, Copy, Drop)]
pub(crate) struct Stands {
    pub start: usize,
    pub end: usize,
    pub after: usize,
    pub is_text: bool,
}

/// Reads the text or the whole number that stands at a place.
#[inline(always)]
pub(crate) fn value_at(text: &[u8], at: usize) -> Option<Stands>
    requires { list_all is_printable text.now ≡ true }
    ensures { IfSome result (IsValueAt text.now at) }
{
    if let Some(end) = text_to(text, at) {
        return Some(Stands {
            start: at + 1,
            end,
            after: end + 1,
            is_text: true,
        });
    }
    let end = number_to(text, at)?;
    Some(Stands {
        start: at,
        end,
        after: end,
        is_text: false,
    })
}
