//! JSON values, read or passed over without a copy.
ghost use Rattle.std.specs.Prelude.{◌≡◌, ◌<◌, length, Some, None, MatchResult, OnOk};
ghost use Rattle.cdxj_objects.specs.FoundMembers.{value_read, items_passed, members_passed};
ghost use Rattle.cdxj_objects.specs.FoundViews.{value_view};

use crate::member_value::{MemberValue, number_value};
use json::{Invalid, Reader, Token};

/// Reads a value, in which arrays and objects nest up to `depth` deep. Returns `Invalid` if there
/// is no such value, or if a number in it is too large for a 64-bit float.
#[cycle(values)]
#[tactic(auto, using(crate::proofs::JsonReading::value_rules))]
pub(crate) fn read_value<'a>(
    reader: &mut Reader<'a>,
    depth: usize,
) -> Result<MemberValue<'a>, Invalid>
    ensures value { MatchResult result
        (λ v. value_read depth reader.old ≡ Some (value_view v, reader.new))
        (λ _. value_read depth reader.old ≡ None) }
    ensures shorter { OnOk result (length reader.new < length reader.old) }
{
    let token = reader.next().ok_or(Invalid)?;
    match token {
        Token::String(text) => Ok(MemberValue::Text(text)),
        Token::Number(text) => number_value(text).ok_or(Invalid),
        Token::Bool(_) => Ok(MemberValue::Other),
        Token::Null => Ok(MemberValue::Other),
        Token::EndObject | Token::EndArray | Token::Key(_) | Token::Bad => Err(Invalid),
        Token::BeginArray => {
            if depth == 0 {
                return Err(Invalid);
            }
            pass_items(reader, depth - 1)?;
            Ok(MemberValue::Other)
        }
        Token::BeginObject => {
            if depth == 0 {
                return Err(Invalid);
            }
            pass_members(reader, depth - 1)?;
            Ok(MemberValue::Other)
        }
    }
}

// Passes the items of an array and its end.
#[cycle(values)]
#[tactic(auto, using(crate::proofs::JsonReading::item_rules))]
fn pass_items(reader: &mut Reader<'_>, depth: usize) -> Result<(), Invalid>
    ensures value { MatchResult result (λ _. items_passed depth reader.old ≡ Some reader.new)
        (λ _. items_passed depth reader.old ≡ None) }
    ensures shorter { OnOk result (length reader.new < length reader.old) }
{
    'items: while !reader.take_end_array() {
        read_value(reader, depth)?;
    }
    Ok(())
}

// Passes the members of an object and its end.
#[cycle(values)]
#[tactic(auto, using(crate::proofs::JsonReading::member_rules))]
fn pass_members(reader: &mut Reader<'_>, depth: usize) -> Result<(), Invalid>
    ensures value { MatchResult result (λ _. members_passed depth reader.old ≡ Some reader.new)
        (λ _. members_passed depth reader.old ≡ None) }
    ensures shorter { OnOk result (length reader.new < length reader.old) }
{
    'members: while let Some(_name) = reader.next_key()? {
        read_value(reader, depth)?;
    }
    Ok(())
}
