//! Lines that were read and that borrow their text.
ghost use Rattle.std.specs.Prelude.{◌≡◌, IfSome, true};
ghost use Rattle.cdxj_core.specs.declared.limit.TheConstants.{LINE_LIMIT};

use crate::body::{ascii_text, body_of, printable_text};
use crate::field::Field;
use crate::front_pair::{FrontPair, front_pair};
use crate::limit::LINE_LIMIT;
use crate::spans::{Spans, TO_OBJECT, TO_STAMP, TO_STAMP_END};
use cdxj_objects::{
    BegunMembers, Members, Placed, Span, or_missing, place_of_either, placed_members, texts_at,
    walked_members,
};
use cdxj_places::{HasPlace, Pair, Place, read_offset};
use std::cmp::Ordering;
use std::marker::Model;

/// A line of an index that was read, with all its values. Its text is borrowed.
#[derive(Debug, Drop)]
pub struct LineRef<'a> {
    pub(crate) text: &'a str,
    pub(crate) spans: Spans,
}

/// The body of a line in any other spelling than that of a written line, and what was read of it.
#[derive(Drop)]
pub(crate) struct Begun<'a> {
    text: &'a str,
    pair: FrontPair,
    object: BegunMembers,
}

/// A line that was read where it stands, or its beginning.
#[derive(Drop)]
pub(crate) enum Read<'a> {
    Written(LineRef<'a>),
    Begun(Begun<'a>),
}

impl<'a> Model for LineRef<'a> {
    ghost use Rattle.std.specs.Prelude.{take};
    ghost use Rattle.cdxj_core.specs.declared.limit.TheConstants.{LINE_LIMIT};
    ghost use Rattle.cdxj_core.specs.KeptLine.{IsKept, member_in};
    ghost use Rattle.cdxj_core.specs.Members.{Member};

    ghost Value = { Member };

    ghost view = { λ p. member_in LINE_LIMIT (take p.spans.size p.text.now) };

    ghost invariant = { λ p. IsKept LINE_LIMIT p.text.now p.spans
        (member_in LINE_LIMIT (take p.spans.size p.text.now)) };
}

impl<'a> LineRef<'a> {
    ghost use Rattle.std.specs.Prelude.{◌<◌, ◌+◌, ◌^◌, length, Some};
    ghost use Rattle.std.specs.Cmp.Lexicographic.{slice_cmp};
    ghost use Rattle.std.specs.List.{list_all};
    ghost use Rattle.std.specs.Ordering.{nat_cmp, ordering_then};
    ghost use Rattle.cdxj_objects.specs.Plain.{is_printable, is_printable_ascii};
    ghost use Rattle.cdxj_core.specs.KeptLine.{IsEntryOf, IsFrontPair};
    ghost use Rattle.cdxj_core.specs.ReadLine.{IsBegun, IsReadOf};
    ghost use Rattle.json.specs.Run.{is_plain};
    ghost use Rattle.cdxj_places.specs.Places.{place_cmp};
    ghost use Rattle.cdxj_places.specs.PlaceViews.{place_view};
    ghost use Rattle.cdxj_core.specs.declared.field.Field.{Field};
    ghost use Rattle.cdxj_objects.specs.PlacedMembers.{ArePlacedMembers};
    ghost use Rattle.cdxj_objects.specs.Plain.{values_of_texts};
    ghost use Rattle.cdxj_objects.specs.Texts.{borrowed_view};
    ghost use Rattle.cdxj_core.specs.Lines.{body_of, field_value, texts_in};
    ghost use Rattle.cdxj_core.specs.Members.{member_place, line_entry};

    /// Reads a line where it stands, with or without its line feed, in any spelling. It may decline
    /// any line, which [`Line::read`](crate::Line::read) reads then, and takes no memory.
    #[inline(always)]
    pub fn plain(line: &'a [u8]) -> Option<LineRef<'a>>
        ensures { IfSome result (λ found. line_entry LINE_LIMIT line.now ≡ Some found) }
    {
        match LineRef::of_line(line)? {
            Read::Written(found) => Some(found),
            Read::Begun(begun) => LineRef::walked(begun),
        }
    }

    /// The same, with how the line is spelled.
    #[inline(always)]
    pub(crate) fn of_line(line: &'a [u8]) -> Option<Read<'a>>
        ensures { IfSome result (IsReadOf LINE_LIMIT (body_of line.now)) }
    {
        LineRef::of_text(printable_text(body_of(line))?)
    }

    /// The same for a line of ASCII without controls.
    #[inline(always)]
    pub(crate) fn of_printable(line: &'a [u8]) -> Option<Read<'a>>
        requires { list_all is_printable_ascii (body_of line.now) ≡ true }
        ensures { IfSome result (IsReadOf LINE_LIMIT (body_of line.now)) }
    {
        let body = body_of(line);
        if body.len() >= LINE_LIMIT {
            return None;
        }
        LineRef::of_text(ascii_text(body))
    }

    /// Reads the body of a line.
    #[inline(always)]
    #[tactic(auto, using(crate::proofs::KeptLemmas::front_entry))]
    fn of_text(text: &'a str) -> Option<Read<'a>>
        requires short { length text.now < LINE_LIMIT }
        requires printable { list_all is_printable text.now ≡ true }
        ensures { IfSome result (IsReadOf LINE_LIMIT text.now) }
    {
        let pair = front_pair(text)?;
        match placed_members(text, pair.key + TO_OBJECT) {
            Placed::Written(texts) => Some(Read::Written(LineRef::of_parts(text, pair, texts))),
            Placed::Other(object) => Some(Read::Begun(Begun { text, pair, object })),
        }
    }

    /// Reads a line on, in any spelling. It may decline any line.
    #[inline(always)]
    #[tactic(auto, using(crate::proofs::KeptLemmas::front_entry))]
    pub(crate) fn walked(begun: Begun<'a>) -> Option<LineRef<'a>>
        requires { IsBegun LINE_LIMIT begun.text.now begun }
        ensures { IfSome result (IsEntryOf LINE_LIMIT begun.entry.text.now) }
    {
        let Begun { text, pair, object } = begun;
        let texts = walked_members(text, pair.key + TO_OBJECT, object)?;
        Some(LineRef::of_parts(text, pair, texts))
    }

    #[inline(always)]
    fn of_parts(text: &'a str, pair: FrontPair, texts: Members<Span>) -> LineRef<'a>
        requires short { length text.now < LINE_LIMIT }
        requires printable { list_all is_printable text.now ≡ true }
        requires pair { IsFrontPair text.now pair }
        requires texts { ArePlacedMembers text.now (pair.key + TO_OBJECT) texts }
        ensures { line_entry LINE_LIMIT text.now ≡ Some result }
    {
        let FrontPair { key, stamp } = pair;
        LineRef {
            text,
            spans: Spans {
                size: text.len(),
                key,
                stamp,
                texts,
            },
        }
    }

    /// Returns the line without its line feed, from which the values were read.
    #[inline(always)]
    pub fn line(&self) -> &'a [u8]
        ensures value { result.now ≡ self.now.line }
        ensures entry { line_entry LINE_LIMIT result.now ≡ Some self.now }
    {
        self.text[..self.spans.size].as_bytes()
    }

    #[inline(always)]
    fn key(&self) -> &'a str
        ensures { result.now ≡ self.now.values.key }
    {
        &self.text[..self.spans.key]
    }

    #[inline(always)]
    fn texts(&self) -> Members<&'a str>
        ensures { values_of_texts (borrowed_view result) ≡ texts_in self.now.values }
    {
        texts_at(self.text, &self.spans.texts)
    }

    /// Returns the offset. It is read from its text each time, since few lines need it.
    fn offset(&self) -> u64
        ensures value { result ≡ self.now.values.offset }
        ensures small { result < 2 ^ 63 }
    {
        // For the proof alone: what the type says of the offset.
        let _size = self.spans.size;
        match read_offset(self.texts().offset) {
            Some(offset) => offset,
            None => unreachable!(),
        }
    }

    /// Returns the key and the stamp.
    #[inline(always)]
    pub fn pair(&self) -> Pair<'a>
        ensures key { result.key.now ≡ self.now.values.key }
        ensures stamp { result.stamp ≡ self.now.values.stamp }
    {
        Pair {
            key: self.key(),
            stamp: self.spans.stamp,
        }
    }

    /// Returns the place of the line's capture.
    #[inline(always)]
    pub fn place(&self) -> Place<'a>
        ensures { place_view result ≡ member_place self.now }
    {
        Place {
            key: self.key(),
            stamp: self.spans.stamp,
            filename: self.texts().filename,
            offset: self.offset(),
        }
    }

    /// Compares the part of the line's place behind its key and stamp with that of another.
    fn compare_behind_pair(&self, place: &Place<'_>) -> Ordering
        ensures { result
            ≡ ordering_then (slice_cmp nat_cmp self.now.values.filename place.now.filename.now)
            (nat_cmp self.now.values.offset place.now.offset) }
    {
        match self.texts().filename.cmp(place.filename) {
            Ordering::Equal => self.offset().cmp(&place.offset),
            decided => decided,
        }
    }

    /// Compares the place of the line's capture with another.
    pub fn compare_to(&self, place: &Place<'_>) -> Ordering
        ensures { result ≡ place_cmp (member_place self.now) (place_view place.now) }
    {
        match self.pair().cmp(&place.pair()) {
            Ordering::Equal => self.compare_behind_pair(place),
            decided => decided,
        }
    }

    /// Returns the value of a field: the key, the stamp, the offset in decimal, or the text of a
    /// member. The value of a member that is absent, empty, or neither a text nor an unsigned
    /// 64-bit number is `-`.
    pub fn value(&self, field: Field) -> &'a str
        ensures { result.now ≡ field_value field self.now.values }
    {
        let texts = self.texts();
        match field {
            Field::Urlkey => self.key(),
            Field::Timestamp => {
                &self.text[self.spans.key + TO_STAMP..self.spans.key + TO_STAMP_END]
            }
            Field::Original => or_missing(texts.url),
            Field::Mimetype => or_missing(texts.mime),
            Field::Statuscode => or_missing(texts.status),
            Field::Digest => or_missing(texts.digest),
            Field::Length => or_missing(texts.length),
            Field::Offset => texts.offset,
            Field::Filename => texts.filename,
        }
    }

    /// Returns `true` if JSON writes each value of the line without escapes. It may be `false` for
    /// any line.
    pub fn needs_no_escapes(&self) -> bool
        ensures { result ≡ true → (field : Field)
            → list_all is_plain (field_value field self.now.values) ≡ true }
    {
        self.spans.size == self.text.len()
            && place_of_either(self.text.as_bytes(), 0, b'"', b'\\') >= self.spans.key
    }
}

impl<'a> HasPlace for LineRef<'a> {
    ghost use Rattle.cdxj_core.specs.Members.{member_place};

    ghost place_of = { member_place };

    fn key_bytes(&self) -> &[u8] {
        self.key().as_bytes()
    }

    fn compare_place(&self, other: &LineRef<'a>) -> Ordering {
        self.compare_to(&other.place())
    }
}
