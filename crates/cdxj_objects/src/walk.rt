//! A walk over the members of an object, where they stand.
ghost use Rattle.std.specs.Prelude.{◌≡◌, ◌<◌, ◌≤◌, true, length, take, IfSome};
ghost use Rattle.std.specs.List.{list_all};
ghost use Rattle.cdxj_objects.specs.ObjectMembers.{with_named};
ghost use Rattle.cdxj_objects.specs.Plain.{is_printable};
ghost use Rattle.cdxj_objects.specs.PlainPlaces.{BeginsWithMembers};
ghost use Rattle.cdxj_objects.specs.Walk.{AreFirst, AreWalked, IsAnyTurn, IsBehindQuote, IsNameTo};
ghost use Rattle.cdxj_objects.specs.Walk.{IsOther, IsPassed, IsTurn, name_of, quoted_name, span_of};

use crate::lanes::{Front, has_front, holds_lanes};
use crate::members::{Members, QUOTED};
use crate::plain::{BegunMembers, texts_behind, texts_of_two};
use crate::span::Span;
use crate::tokens::{Stands, behind, byte_is, escaped_to, skip_blanks, text_to, value_at};

/// A member that was read: where its name stands, and its value.
#[derive(Clone, Copy, Drop)]
pub(crate) struct Passed {
    pub name_start: usize,
    pub name_end: usize,
    pub value: Stands,
}

/// Reads the member that stands at a place.
#[inline(always)]
fn member_at(text: &[u8], at: usize) -> Option<Passed>
    requires { list_all is_printable text.now ≡ true }
    ensures { IfSome result (IsPassed text.now at) }
{
    let name_end = text_to(text, at)?;
    let begin = behind(text, name_end + 1, b':')?;
    let value = value_at(text, begin)?;
    Some(Passed {
        name_start: at + 1,
        name_end,
        value,
    })
}

/// The span of a member that isn't there.
const NOWHERE: Span = Span { start: 0, end: 0 };

/// Gives the member of this name a span, if there is one.
#[inline(always)]
fn put(members: &mut Members<Span>, name: &[u8], span: Span)
    ensures { members.new ≡ with_named name.now span members.old }
{
    if name == b"url".as_slice() {
        members.url = span;
    } else if name == b"mime".as_slice() {
        members.mime = span;
    } else if name == b"status".as_slice() {
        members.status = span;
    } else if name == b"digest".as_slice() {
        members.digest = span;
    } else if name == b"length".as_slice() {
        members.length = span;
    } else if name == b"offset".as_slice() {
        members.offset = span;
    } else if name == b"filename".as_slice() {
        members.filename = span;
    }
}

#[inline(always)]
fn span_of(value: Stands) -> Span
    ensures { result ≡ span_of value }
{
    Span {
        start: value.start,
        end: value.end,
    }
}

/// Returns `true` if a name is none of the seven.
#[cold]
fn is_other(name: &[u8]) -> bool
    ensures { result ≡ true → IsOther name.now }
{
    name != b"url".as_slice()
        && name != b"mime".as_slice()
        && name != b"status".as_slice()
        && name != b"digest".as_slice()
        && name != b"length".as_slice()
        && name != b"offset".as_slice()
        && name != b"filename".as_slice()
}

/// Passes a member with a name that isn't one of the seven, whose value has escapes.
#[cold]
#[tactic(auto, using(crate::proofs::WalkLaw::skipped_turn))]
fn skip(text: &[u8], at: usize, members: Members<Span>) -> Option<usize>
    requires { list_all is_printable text.now ≡ true }
    ensures { IfSome result (IsTurn text.now at members members) }
{
    let name_end = text_to(text, at)?;
    let begin = behind(text, name_end + 1, b':')?;
    let end = escaped_to(text, begin)?;
    if is_other(&text[at + 1..name_end]) {
        Some(end + 1)
    } else {
        None
    }
}

/// Reads the member that stands at a place, notes where its text stands, and returns what follows.
#[inline(never)]
#[tactic(auto, using(crate::proofs::WalkLaw::passed_turn))]
fn turn(text: &[u8], at: usize, members: &mut Members<Span>) -> Option<usize>
    requires { list_all is_printable text.now ≡ true }
    ensures { IfSome result (IsTurn text.now at members.old members.new) }
{
    match member_at(text, at) {
        Some(member) => {
            let name = &text[member.name_start..member.name_end];
            put(members, name, span_of(member.value));
            Some(member.value.after)
        }
        None => skip(text, at, *members),
    }
}

/// One of the seven members.
#[derive(Clone, Copy, Drop)]
enum Name {
    Url,
    Mime,
    Status,
    Digest,
    Length,
    Offset,
    Filename,
}

/// Returns this name and the place behind its colon, if it stands at a place between its quotes.
#[inline(always)]
#[tactic(auto, using(crate::proofs::WrittenLaw::name_there))]
fn name_to(text: &[u8], at: usize, name: Name, quoted: Front) -> Option<(Name, usize)>
    requires few { quoted.length ≤ 16 }
    requires is { take quoted.length quoted.bytes ≡ quoted_name (name_of name) }
    ensures { IfSome result (λ p. IsNameTo text.now at (name_of p.0) p.1) }
{
    if has_front(text, at, quoted) {
        Some((name, at + quoted.length))
    } else {
        None
    }
}

/// Returns the name that stands at a place, and the place behind its colon, if it is one of the
/// seven. It may overlook any.
#[inline(always)]
fn named_at(text: &[u8], at: usize) -> Option<(Name, usize)>
    ensures { IfSome result (λ p. IsNameTo text.now at (name_of p.0) p.1) }
{
    if !holds_lanes(text, at) {
        return None;
    }
    let quoted = QUOTED;
    match text[at + 1] {
        b'u' => name_to(text, at, Name::Url, quoted.url),
        b'm' => name_to(text, at, Name::Mime, quoted.mime),
        b's' => name_to(text, at, Name::Status, quoted.status),
        b'd' => name_to(text, at, Name::Digest, quoted.digest),
        b'l' => name_to(text, at, Name::Length, quoted.length),
        b'o' => name_to(text, at, Name::Offset, quoted.offset),
        b'f' => name_to(text, at, Name::Filename, quoted.filename),
        _ => None,
    }
}

#[inline(always)]
fn put_named(members: &mut Members<Span>, name: Name, span: Span)
    ensures { members.new ≡ with_named (name_of name) span members.old }
{
    match name {
        Name::Url => members.url = span,
        Name::Mime => members.mime = span,
        Name::Status => members.status = span,
        Name::Digest => members.digest = span,
        Name::Length => members.length = span,
        Name::Offset => members.offset = span,
        Name::Filename => members.filename = span,
    }
}

/// Reads the value of a name that stands at a place, up to this one, notes where its text stands,
/// and returns what follows.
#[inline(always)]
#[tactic(auto, using(crate::proofs::WrittenLaw::named_turn))]
fn named_turn(
    text: &[u8],
    at: usize,
    name: Name,
    colon: usize,
    members: &mut Members<Span>,
) -> Option<usize>
    requires printable { list_all is_printable text.now ≡ true }
    requires name { IsNameTo text.now at (name_of name) colon }
    ensures { IfSome result (IsTurn text.now at members.old members.new) }
{
    let value = value_at(text, skip_blanks(text, colon))?;
    put_named(members, name, span_of(value));
    Some(value.after)
}

/// Reads the member behind a comma, notes where its text stands, and returns the place of the comma
/// or the brace behind it.
#[inline(always)]
fn any_turn(text: &[u8], at: usize, members: &mut Members<Span>) -> Option<usize>
    requires printable { list_all is_printable text.now ≡ true }
    requires inside { at < length text.now }
    ensures { IfSome result (IsAnyTurn text.now at members.old members.new) }
{
    let begin = skip_blanks(text, at + 1);
    let after = match named_at(text, begin) {
        Some((name, colon)) => named_turn(text, begin, name, colon, members)?,
        None => turn(text, begin, members)?,
    };
    Some(skip_blanks(text, after))
}

/// Returns the place behind the quote that stands at a place.
#[inline(always)]
fn behind_quote(text: &[u8], at: usize) -> Option<usize>
    ensures { IfSome result (λ after. IsBehindQuote text.now at after) }
{
    if byte_is(text, at, b'"') {
        Some(at + 1)
    } else {
        None
    }
}

/// The first members of an object: where their texts stand, and the place behind them.
#[derive(Clone, Copy, Drop)]
pub(crate) struct FirstMembers {
    pub spans: Members<Span>,
    pub at: usize,
}

/// Reads the first member of an object, in any spelling, or those that it is known to begin with.
#[inline(always)]
fn first_members(text: &[u8], object: usize, begun: BegunMembers) -> Option<FirstMembers>
    requires printable { list_all is_printable text.now ≡ true }
    requires inside { object < length text.now }
    requires begun { BeginsWithMembers text.now object begun }
    ensures { IfSome result (AreFirst text.now object) }
{
    match begun {
        BegunMembers::All(fronts) => {
            let at = behind_quote(text, fronts.end)?;
            let spans = texts_behind(&fronts.at, fronts.end);
            Some(FirstMembers { spans, at })
        }
        BegunMembers::Two(two) => {
            let at = behind_quote(text, two.mime_end)?;
            let spans = texts_of_two(object, two, NOWHERE);
            Some(FirstMembers { spans, at })
        }
        BegunMembers::Few => {
            let mut spans = Members::all(NOWHERE);
            let at = any_turn(text, object, &mut spans)?;
            Some(FirstMembers { spans, at })
        }
    }
}

/// Returns where the texts of an object's members stand, if the object begins at a place and ends
/// with the text, and its values are texts and whole numbers. It may decline any object.
#[tactic(auto, using(crate::proofs::WrittenLaw::any_next))]
#[inline(always)]
pub(crate) fn members_at(text: &[u8], object: usize, begun: BegunMembers) -> Option<Members<Span>>
    requires printable { list_all is_printable text.now ≡ true }
    requires begun { BeginsWithMembers text.now object begun }
    ensures { IfSome result (AreWalked text.now object) }
{
    if !byte_is(text, object, b'{') {
        return None;
    }
    let first = first_members(text, object, begun)?;
    let mut members = first.spans;
    let mut at = first.at;
    'members: while byte_is(text, at, b',') {
        at = any_turn(text, at, &mut members)?;
    }
    if byte_is(text, at, b'}') && at + 1 == text.len() {
        Some(members)
    } else {
        None
    }
}
