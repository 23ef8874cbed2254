//! The seven members in the order and the spelling of a written line, whose texts need no escapes.
ghost use Rattle.std.specs.Prelude.{◌≡◌, ◌≤◌, ◌<◌, ◌+◌, true, codes, drop, length, take, IfSome};
ghost use Rattle.std.specs.Char.{is_ascii_digit};
ghost use Rattle.std.specs.List.{prefix_len};
ghost use Rattle.cdxj_objects.specs.ObjectMembers.{AllMembers};
ghost use Rattle.cdxj_objects.specs.Plain.{fronts};
ghost use Rattle.cdxj_objects.specs.PlainPlaces.{AreBegun, AreFirstTwo, AreParts, BeginsWithMembers};
ghost use Rattle.cdxj_objects.specs.PlainPlaces.{IsDecimalTo, IsNumberAfter, IsTextAfter};
ghost use Rattle.cdxj_objects.specs.PlainPlaces.{places_to, spans_at, spans_of_two, spans_to};

use crate::lanes::{Front, digits_before, has_front, holds_lanes, place_of_either};
use crate::members::{AFTER, BEFORE, FRONTS, Members};
use crate::span::Span;

/// The least number of digits that aren't taken for a number here.
const TOO_MANY_DIGITS: usize = 16;

/// Where the fronts of an object's members stand, and where the last text ends.
#[derive(Clone, Copy, Drop)]
pub struct PlainFronts {
    pub at: Members<usize>,
    pub end: usize,
}

/// Where the texts of the first two members end that an object begins with.
#[derive(Clone, Copy, Drop)]
pub struct FirstTwo {
    pub url_end: usize,
    pub mime_end: usize,
}

/// The members in the order and the spelling of a written line with which an object begins.
#[derive(Clone, Copy, Drop)]
pub enum BegunMembers {
    /// All seven.
    All(PlainFronts),
    /// The URL and the media type. Other programs write a number behind them, the status.
    Two(FirstTwo),
    /// Fewer than two.
    Few,
}

/// Returns the end of the text behind a front, if that front stands at a place.
#[inline(always)]
fn end_after(text: &[u8], at: usize, front: Front) -> Option<usize>
    requires { front.length ≤ 16 }
    ensures { IfSome result (IsTextAfter text.now at (take front.length front.bytes)
        (at + front.length)) }
{
    if has_front(text, at, front) {
        Some(place_of_either(text, at + front.length, b'"', b'\\'))
    } else {
        None
    }
}

/// Returns the number of digits from a place on, if it is at least 1 and less than 16. It may
/// decline any digits.
#[inline(always)]
fn count_digits(text: &[u8], start: usize) -> Option<usize>
    ensures long { IfSome result (λ n. start + 16 ≤ length text.now) }
    ensures few { IfSome result (λ n. (0 < n) × (n < 16)) }
    ensures digits { IfSome result
        (λ n. n ≡ prefix_len is_ascii_digit (take 16 (drop start text.now))) }
{
    if !holds_lanes(text, start) {
        return None;
    }
    match digits_before(text, start) {
        0 | TOO_MANY_DIGITS => None,
        count => Some(count),
    }
}

/// Returns the end of the number that stands at a place, as it is written: without a leading zero.
/// It may decline any number, and declines one of 16 digits.
#[inline(always)]
pub(crate) fn decimal_to(text: &[u8], start: usize) -> Option<usize>
    ensures { IfSome result (IsDecimalTo text.now start) }
{
    let count = count_digits(text, start)?;
    if count > 1 && text[start] == b'0' {
        return None;
    }
    Some(start + count)
}

/// Returns the end of the number behind a front, if that front stands at a place.
#[inline(always)]
#[tactic(auto, using(crate::proofs::PlainCuts::number_after))]
fn number_after(text: &[u8], at: usize, front: Front) -> Option<usize>
    requires { front.length ≤ 16 }
    ensures { IfSome result (IsNumberAfter text.now at (take front.length front.bytes)
        (at + front.length)) }
{
    if has_front(text, at, front) {
        decimal_to(text, at + front.length)
    } else {
        None
    }
}

/// Returns `true` if a quote and a brace end the text at a place.
#[inline(always)]
pub(crate) fn is_closed(text: &[u8], end: usize) -> bool
    requires { end ≤ length text.now }
    ensures { result ≡ true → drop end text.now ≡ codes "\"}" }
{
    matches!(&text[end..], [b'"', b'}'])
}

/// Returns where the first two members end, if an object begins with them at a place of the text.
#[inline(always)]
fn first_two(text: &[u8], object: usize) -> Option<FirstTwo>
    ensures { IfSome result (AreFirstTwo text.now object) }
{
    let fronts = FRONTS;
    let url_end = end_after(text, object, fronts.url)?;
    let mime_end = end_after(text, url_end, fronts.mime)?;
    Some(FirstTwo { url_end, mime_end })
}

/// Returns where all seven members stand of an object that begins with these two, if it has a file
/// name. It may decline any object, and doesn't look at what follows.
#[inline(always)]
fn all_fronts(text: &[u8], object: usize, two: FirstTwo) -> Option<PlainFronts>
    requires { AreFirstTwo text.now object two }
    ensures { IfSome result (AreBegun text.now object) }
{
    // One copy: each use of the constant itself would be compiled as a copy of the whole.
    let fronts = FRONTS;
    let mime = two.url_end;
    let status = two.mime_end;
    let digest = end_after(text, status, fronts.status)?;
    let length = end_after(text, digest, fronts.digest)?;
    let offset = end_after(text, length, fronts.length)?;
    let filename = number_after(text, offset, fronts.offset)?;
    let end = end_after(text, filename, fronts.filename)?;
    if end == filename + BEFORE.filename.len() {
        return None;
    }
    Some(PlainFronts {
        at: Members {
            url: object,
            mime,
            status,
            digest,
            length,
            offset,
            filename,
        },
        end,
    })
}

/// Returns the members with which an object begins at a place of the text. It may overlook any.
#[inline(always)]
pub(crate) fn begun_at(text: &[u8], object: usize) -> BegunMembers
    ensures { BeginsWithMembers text.now object result }
{
    let Some(two) = first_two(text, object) else {
        return BegunMembers::Few;
    };
    match all_fronts(text, object, two) {
        Some(fronts) => BegunMembers::All(fronts),
        None => BegunMembers::Two(two),
    }
}

#[inline(always)]
fn span_behind(at: usize, front: &str, end: usize) -> Span
    requires { at + length front.now ≤ end }
    ensures { result ≡ record { start = at + length front.now; end = end } }
{
    Span {
        start: at + front.len(),
        end,
    }
}

/// Returns where the texts stand behind these fronts, of which the last ends at a place.
#[inline(always)]
pub(crate) fn texts_behind(at: &Members<usize>, end: usize) -> Members<Span>
    requires { AllMembers (λ span. span.0 ≤ span.1) (places_to end at.now) }
    ensures { result ≡ spans_to end at.now }
{
    let at = *at;
    let before = BEFORE;
    Members {
        url: span_behind(at.url, before.url, at.mime),
        mime: span_behind(at.mime, before.mime, at.status),
        status: span_behind(at.status, before.status, at.digest),
        digest: span_behind(at.digest, before.digest, at.length),
        length: span_behind(at.length, before.length, at.offset),
        offset: span_behind(at.offset, before.offset, at.filename),
        filename: span_behind(at.filename, before.filename, end),
    }
}

/// The same of the first two, with a span for the others.
#[inline(always)]
pub(crate) fn texts_of_two(object: usize, two: FirstTwo, other: Span) -> Members<Span>
    requires url { object + length fronts.url ≤ two.url_end }
    requires mime { two.url_end + length fronts.mime ≤ two.mime_end }
    ensures { result ≡ spans_of_two object two other }
{
    let before = BEFORE;
    let mut texts = Members::all(other);
    texts.url = span_behind(object, before.url, two.url_end);
    texts.mime = span_behind(two.url_end, before.mime, two.mime_end);
    texts
}

/// The same in a text that ends with the object.
#[tactic(auto, using(crate::proofs::PlainPlaces::parts_order))]
pub(crate) fn texts_in(text: &str, at: &Members<usize>) -> Members<Span>
    requires { AreParts text.now at.now }
    ensures { result ≡ spans_at text.now at.now }
{
    texts_behind(at, text.len() - AFTER.len())
}
