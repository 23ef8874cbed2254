//! Lines that own their bytes.
ghost use Rattle.std.specs.Prelude.{◌≡◌, ◌<◌, ◌≤◌, length, string_bytes, OnOk};
ghost use Rattle.std.specs.String.{string_capacity};
ghost use Rattle.cdxj_core.specs.declared.limit.TheConstants.{LINE_LIMIT};

use crate::body::{body_of, has_no_feed};
use crate::fault::LineFault;
use crate::limit::LINE_LIMIT;
use crate::line_ref::{Begun, LineRef, Read};
use crate::spans::Spans;
use cdxj_objects::{FoundMembers, spelled};
use cdxj_places::{HasPlace, Pair, Place, cut_first, is_key, is_stamp};
use json::Scratch;
use std::alloc::{AllocError, Global};
use std::cmp::Ordering;
use std::marker::Model;

/// A line that was read and owns its bytes, in a buffer that can be reused.
#[derive(Debug, Drop)]
pub struct Line {
    alloc: Global,
    pub(crate) text: String,
    pub(crate) spans: Spans,
}

impl Model for Line {
    ghost use Rattle.std.specs.Prelude.{string_bytes, take};
    ghost use Rattle.cdxj_core.specs.declared.limit.TheConstants.{LINE_LIMIT};
    ghost use Rattle.cdxj_core.specs.KeptLine.{IsKept, member_in};
    ghost use Rattle.cdxj_core.specs.Members.{Member};

    ghost Value = { Member };

    ghost view = { λ l. member_in LINE_LIMIT (take l.spans.size (string_bytes l.text)) };

    ghost invariant = { λ l. IsKept LINE_LIMIT (string_bytes l.text) l.spans
        (member_in LINE_LIMIT (take l.spans.size (string_bytes l.text))) };
}

#[inline(always)]
fn fill(buffer: &mut String, text: &str)
    requires { length text.now ≤ string_capacity buffer.old }
    ensures { string_bytes buffer.new ≡ text.now }
{
    buffer.clear();
    let _ = buffer.push_str(text);
}

fn new_scratch(alloc: Global) -> Result<Box<Scratch>, AllocError> {
    match Box::new(alloc, Scratch::new(alloc)) {
        Ok(scratch) => Ok(scratch),
        Err(_) => Err(AllocError),
    }
}

impl Line {
    ghost use Rattle.std.specs.Prelude.{true, IfErr, IfOk, IfSome, OnErr, MatchResult, Ok, Err, Some};
    ghost use Rattle.std.specs.List.{list_all};
    ghost use Rattle.cdxj_objects.specs.Plain.{is_printable_ascii};
    ghost use Rattle.cdxj_core.specs.Lines.{body_of};
    ghost use Rattle.cdxj_core.specs.Members.{member_place, line_entry, IsLineReading};
    ghost use Rattle.cdxj_core.specs.ReadLine.{IsBegun, IsReadOf};
    ghost use Rattle.cdxj_places.specs.Places.{place_cmp};
    ghost use Rattle.cdxj_places.specs.PlaceViews.{place_view};

    /// Reads a line, with or without its line feed: a key, a space, a stamp, a space and a JSON
    /// object with a file name and an offset.
    ///
    /// The error is `LineTooLong`, which is checked first, if the line has more than `LINE_LIMIT`
    /// bytes, counted with a line feed. It is `BadLine` if the line doesn't have this form, and
    /// `Memory` if memory could not be allocated.
    #[tactic(auto, using(crate::proofs::MemberLemmas::entry_is_short))]
    pub fn read(alloc: Global, line: &[u8]) -> Result<Line, LineFault>
        ensures { IsLineReading LINE_LIMIT line.now result }
    {
        match LineRef::plain(line) {
            Some(plain) => Ok(Line::new(alloc, &plain)?),
            None => Line::read_json(alloc, line, &mut None),
        }
    }

    /// Reads a line that has any JSON object, with the scratch of the JSON reader if there is one.
    /// Otherwise one is made, and stays there for the next line.
    #[cold]
    #[inline(never)]
    fn read_json(
        alloc: Global,
        line: &[u8],
        kept: &mut Option<Box<Scratch>>,
    ) -> Result<Line, LineFault>
        ensures { IsLineReading LINE_LIMIT line.now result }
    {
        if body_of(line).len() >= LINE_LIMIT {
            return Err(LineFault::LineTooLong);
        }
        let mut scratch = match kept.take() {
            Some(scratch) => scratch,
            None => new_scratch(alloc)?,
        };
        let read = Line::read_with(alloc, line, &mut scratch);
        *kept = Some(scratch);
        read
    }

    /// Reads a line that isn't too long.
    #[inline(never)]
    #[tactic(auto, unfolding(crate::specs::Lines::line_in))]
    fn read_with(alloc: Global, line: &[u8], scratch: &mut Scratch) -> Result<Line, LineFault>
        requires { length (body_of line.now) < LINE_LIMIT }
        ensures { IsLineReading LINE_LIMIT line.now result }
    {
        let body = body_of(line);
        let Ok(body) = str::from_utf8(body) else {
            return Err(LineFault::BadLine);
        };
        if !has_no_feed(body.as_bytes()) {
            return Err(LineFault::BadLine);
        }
        let (key, rest) = cut_first(body);
        let (stamp, object) = cut_first(rest);
        if !is_key(key.as_bytes()) || !is_stamp(stamp.as_bytes()) {
            return Err(LineFault::BadLine);
        }
        let Ok(stamp) = <[u8; 14]>::try_from(stamp.as_bytes()) else {
            return Err(LineFault::BadLine);
        };
        let found = FoundMembers::of_text(object, scratch)?;
        let Some(found) = found else {
            return Err(LineFault::BadLine);
        };
        let Some(filename) = found.filename() else {
            return Err(LineFault::BadLine);
        };
        let Some(offset) = found.offset() else {
            return Err(LineFault::BadLine);
        };
        let (text, texts) = spelled(alloc, body, found, offset, filename)?;
        Ok(Line {
            alloc,
            text,
            spans: Spans {
                size: body.len(),
                key: key.len(),
                stamp,
                texts,
            },
        })
    }

    /// Copies a line that was read.
    /// The only error is refused memory.
    pub fn new(alloc: Global, line: &LineRef<'_>) -> Result<Line, AllocError>
        ensures { IfOk result (λ kept. kept ≡ line.now) }
    {
        Ok(Line {
            alloc,
            text: String::from_str(alloc, line.text)?,
            spans: line.spans,
        })
    }

    /// Reads another line into this line's buffer. If the buffer is large enough, a plain line
    /// takes no memory. Any other line needs a scratch for the JSON reader: it is made when the
    /// first such line comes, and is kept there for the next. Errors are those of `read`; after an
    /// error this line is unchanged.
    pub fn refill(
        &mut self,
        line: &[u8],
        scratch: &mut Option<Box<Scratch>>,
    ) -> Result<(), LineFault>
        ensures { MatchResult result (λ _. IsLineReading LINE_LIMIT line.now (Ok self.new))
            (λ fault. IsLineReading LINE_LIMIT line.now (Err fault) × (self.new ≡ self.old)) }
    {
        self.refill_from(line, LineRef::of_line(line), scratch)
    }

    /// The same for a line that consists of characters of ASCII other than controls, but for its
    /// line feed.
    pub fn refill_printable(
        &mut self,
        line: &[u8],
        scratch: &mut Option<Box<Scratch>>,
    ) -> Result<(), LineFault>
        requires { list_all is_printable_ascii (body_of line.now) ≡ true }
        ensures { MatchResult result (λ _. IsLineReading LINE_LIMIT line.now (Ok self.new))
            (λ fault. IsLineReading LINE_LIMIT line.now (Err fault) × (self.new ≡ self.old)) }
    {
        self.refill_from(line, LineRef::of_printable(line), scratch)
    }

    /// The same for a line that was read where it stands, or declined.
    #[inline(always)]
    #[tactic(auto, using(crate::proofs::MemberLemmas::entry_is_short))]
    fn refill_from(
        &mut self,
        line: &[u8],
        read: Option<Read<'_>>,
        scratch: &mut Option<Box<Scratch>>,
    ) -> Result<(), LineFault>
        requires { IfSome read (IsReadOf LINE_LIMIT (body_of line.now)) }
        ensures { MatchResult result (λ _. IsLineReading LINE_LIMIT line.now (Ok self.new))
            (λ fault. IsLineReading LINE_LIMIT line.now (Err fault) × (self.new ≡ self.old)) }
    {
        match read {
            Some(Read::Written(read)) => self.keep(&read),
            Some(Read::Begun(begun)) => self.refill_begun(line, begun, scratch),
            None => {
                *self = Line::read_json(self.alloc, line, scratch)?;
                Ok(())
            }
        }
    }

    /// The same for a line in any other spelling than that of a written line. It is apart, so that
    /// written lines keep their values in registers.
    #[cold]
    #[inline(never)]
    #[tactic(auto, using(crate::proofs::MemberLemmas::entry_is_short))]
    fn refill_begun(
        &mut self,
        line: &[u8],
        begun: Begun<'_>,
        scratch: &mut Option<Box<Scratch>>,
    ) -> Result<(), LineFault>
        requires { IsBegun LINE_LIMIT (body_of line.now) begun }
        ensures { MatchResult result (λ _. IsLineReading LINE_LIMIT line.now (Ok self.new))
            (λ fault. IsLineReading LINE_LIMIT line.now (Err fault) × (self.new ≡ self.old)) }
    {
        match LineRef::walked(begun) {
            Some(read) => self.keep(&read),
            None => {
                *self = Line::read_json(self.alloc, line, scratch)?;
                Ok(())
            }
        }
    }

    #[inline(always)]
    fn keep(&mut self, line: &LineRef<'_>) -> Result<(), LineFault>
        ensures ok { OnOk result (self.new ≡ line.now) }
        ensures err { OnErr result (self.new ≡ self.old) }
        ensures fault { IfErr result (λ fault. fault ≡ LineFault.Memory) }
    {
        self.text
            .reserve(line.text.len().saturating_sub(self.text.len()))?;
        fill(&mut self.text, line.text);
        self.spans = line.spans;
        Ok(())
    }

    /// Returns the line with all its values.
    #[inline(always)]
    pub fn values(&self) -> LineRef<'_>
        ensures { result ≡ self.now }
    {
        LineRef {
            text: self.text.as_str(),
            spans: self.spans,
        }
    }

    /// Returns the key and the stamp.
    pub fn pair(&self) -> Pair<'_>
        ensures key { result.key.now ≡ self.now.values.key }
        ensures stamp { result.stamp ≡ self.now.values.stamp }
    {
        self.values().pair()
    }

    /// Returns the place of the line's capture.
    pub fn place(&self) -> Place<'_>
        ensures { place_view result ≡ member_place self.now }
    {
        self.values().place()
    }

    /// Compares the place of the line's capture with another.
    pub fn compare_to(&self, place: &Place<'_>) -> Ordering
        ensures { result ≡ place_cmp (member_place self.now) (place_view place.now) }
    {
        self.values().compare_to(place)
    }

    /// Returns the line without its line feed.
    pub fn line(&self) -> &[u8]
        ensures value { result.now ≡ self.now.line }
        ensures entry { line_entry LINE_LIMIT result.now ≡ Some self.now }
    {
        self.values().line()
    }
}

impl HasPlace for Line {
    ghost use Rattle.cdxj_core.specs.Members.{member_place};

    ghost place_of = { member_place };

    fn key_bytes(&self) -> &[u8] {
        self.pair().key.as_bytes()
    }

    fn compare_place(&self, other: &Line) -> Ordering {
        self.values().compare_place(&other.values())
    }
}
