//! The members that a line takes from its JSON object.
ghost use Rattle.std.specs.Prelude.{◌≡◌, ◌<◌, ◌^◌, length, Some, None, IfOk, IfSome, MatchResult};
ghost use Rattle.std.specs.Prelude.{option_map};
ghost use Rattle.cdxj_objects.specs.FoundMembers.{members_found, members_in, object_read};
ghost use Rattle.cdxj_objects.specs.FoundViews.{found_view};
ghost use Rattle.cdxj_objects.specs.MemberValues.{filename_value, offset_value};

use crate::json_values::read_value;
use crate::member_value::MemberValue;
use crate::member_values::{filename_value, offset_value};
use crate::members::Members;
use json::{Invalid, Reader, Scratch, Token};
use std::alloc::AllocError;

/// How deep arrays and objects may nest in the object of a line.
const MEMBER_DEPTH: usize = 126;

/// The members that a line takes from its JSON object: the value of each, the last one of its name.
#[derive(Clone, Copy)]
pub struct FoundMembers<'a> {
    pub(crate) members: Members<Option<MemberValue<'a>>>,
}

impl<'a> FoundMembers<'a> {
    /// Reads the members of a text that is a JSON object, and lets `scratch` grow to its length in
    /// bytes. Returns `None` if the text isn't an object, nests more than 127 deep, or has a number
    /// that is too large for a 64-bit float. The only error is refused memory.
    pub fn of_text(
        text: &'a str,
        scratch: &'a mut Scratch,
    ) -> Result<Option<FoundMembers<'a>>, AllocError>
        ensures { IfOk result (λ found. option_map found_view found ≡ members_in text.now) }
    {
        let mut reader = Reader::new(text, scratch)?;
        Ok(FoundMembers::of_tokens(&mut reader).ok())
    }

    /// Returns the file name, if it is a text that isn't empty.
    pub fn filename(self) -> Option<&'a str>
        ensures value { option_map (λ s. s.now) result
            ≡ filename_value (found_view self.entry).filename }
        ensures some { IfSome result (λ s. 0 < length s.now) }
    {
        filename_value(self.members.filename)
    }

    /// Returns the offset, if it is a number or digits, and below 2^63.
    pub fn offset(self) -> Option<u64>
        ensures value { result ≡ offset_value (found_view self.entry).offset }
        ensures small { IfSome result (λ n. n < 2 ^ 63) }
    {
        offset_value(self.members.offset)
    }

    // Reads an object, after which no token follows.
    #[tactic(auto, using(crate::proofs::FoundLaw::opened))]
    fn of_tokens(reader: &mut Reader<'a>) -> Result<FoundMembers<'a>, Invalid>
        ensures { MatchResult result (λ found. object_read reader.old ≡ Some (found_view found))
            (λ _. object_read reader.old ≡ None) }
    {
        let Some(Token::BeginObject) = reader.next() else {
            return Err(Invalid);
        };
        let found = FoundMembers::read(reader)?;
        match reader.next() {
            Some(_) => Err(Invalid),
            None => Ok(found),
        }
    }

    // Reads the members of an object and its end.
    #[tactic(auto, using(json::proofs::Grammar::members_no_key, crate::proofs::JsonReading::no_member))]
    fn read(reader: &mut Reader<'a>) -> Result<FoundMembers<'a>, Invalid>
        ensures { MatchResult result
            (λ found. members_found reader.old ≡ Some (found_view found, reader.new))
            (λ _. members_found reader.old ≡ None) }
    {
        let mut members = Members::all(None);
        'members: while let Some(name) = reader.next_key()? {
            let value = read_value(reader, MEMBER_DEPTH)?;
            members.put(name, Some(value));
        }
        Ok(FoundMembers { members })
    }
}
