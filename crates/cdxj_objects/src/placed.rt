//! Members whose texts stand in their object as they are, in any spelling of the object.
ghost use Rattle.std.specs.Prelude.{◌≡◌, true, IfSome};
ghost use Rattle.std.specs.Char.{is_ascii_digit};
ghost use Rattle.std.specs.List.{list_all};
ghost use Rattle.cdxj_objects.specs.MemberValues.{IsDecimal};
ghost use Rattle.cdxj_objects.specs.PlacedMembers.{ArePlacedMembers, IsPlaced};
ghost use Rattle.cdxj_objects.specs.Plain.{is_printable};
ghost use Rattle.cdxj_objects.specs.PlainPlaces.{AreBegun, BeginsWithMembers};
ghost use Rattle.cdxj_objects.specs.Spans.{IsSpan, span_text};

use crate::members::Members;
use crate::plain::{BegunMembers, PlainFronts, begun_at, decimal_to, is_closed, texts_behind};
use crate::span::{Span, text_of, texts_at};
use crate::walk::members_at;
use cdxj_places::read_offset;

/// An object that was read as it is written, or what is known of one in any other spelling.
#[derive(Drop)]
pub enum Placed {
    Written(Members<Span>),
    Other(BegunMembers),
}

#[inline(always)]
fn has_only_digits(text: &str) -> bool
    ensures { result ≡ list_all is_ascii_digit text.now }
{
    text.as_bytes().iter().all(|byte| byte.is_ascii_digit())
}

/// Returns `true` if a text is an offset as it is written: without a leading zero.
#[tactic(auto, using(crate::proofs::PlacedLaw::offset_spelled))]
fn is_written_offset(text: &str) -> bool
    ensures { result ≡ true → IsDecimal text.now }
{
    match read_offset(text) {
        Some(_) => text.len() == 1 || text.as_bytes()[0] != b'0',
        None => false,
    }
}

/// The same of the text that stands there. Most have few digits, whose number isn't calculated.
#[inline(always)]
fn has_written_offset(text: &str, span: Span) -> bool
    requires { IsSpan text.now span }
    ensures { result ≡ true → IsDecimal (span_text text.now span) }
{
    match decimal_to(text.as_bytes(), span.start) {
        Some(end) if end == span.end => true,
        _ => is_written_offset(text_of(text, span)),
    }
}

/// Returns where the texts of a line's members stand, if the object begins at a place of the text
/// and ends with it. It reads any spelling, but may decline any object. A file name of digits alone
/// may be a number, and is declined.
#[tactic(auto, using(crate::proofs::PlacedLaw::walked_placed))]
#[inline(always)]
pub fn walked_members(text: &str, object: usize, begun: BegunMembers) -> Option<Members<Span>>
    requires printable { list_all is_printable text.now ≡ true }
    requires begun { BeginsWithMembers text.now object begun }
    ensures { IfSome result (ArePlacedMembers text.now object) }
{
    let spans = members_at(text.as_bytes(), object, begun)?;
    let texts = texts_at(text, &spans);
    if has_only_digits(texts.filename) || !has_written_offset(text, spans.offset) {
        return None;
    }
    Some(spans)
}

/// Returns where the texts of an object's members stand that begins so, if it ends behind its file
/// name. A name that begins with a digit may be a number, and is declined.
#[inline(always)]
fn closed_members(text: &str, object: usize, fronts: &PlainFronts) -> Option<Members<Span>>
    requires printable { list_all is_printable text.now ≡ true }
    requires begun { AreBegun text.now object fronts.now }
    ensures { IfSome result (ArePlacedMembers text.now object) }
{
    let bytes = text.as_bytes();
    if !is_closed(bytes, fronts.end) {
        return None;
    }
    let texts = texts_behind(&fronts.at, fronts.end);
    if bytes[texts.filename.start].is_ascii_digit() {
        return None;
    }
    Some(texts)
}

/// Returns where the texts of a line's members stand, if the object begins at a place of the text,
/// ends with it, and is written as lines are. Otherwise it returns what [`walked_members`] takes.
#[inline(always)]
pub fn placed_members(text: &str, object: usize) -> Placed
    requires { list_all is_printable text.now ≡ true }
    ensures { IsPlaced text.now object result }
{
    match begun_at(text.as_bytes(), object) {
        BegunMembers::All(fronts) => match closed_members(text, object, &fronts) {
            Some(members) => Placed::Written(members),
            None => Placed::Other(BegunMembers::All(fronts)),
        },
        begun => Placed::Other(begun),
    }
}
