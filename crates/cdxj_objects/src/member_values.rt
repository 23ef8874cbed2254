//! The file name and the offset of a line, as they are in JSON.
ghost use Rattle.std.specs.Prelude.{◌≡◌, ◌<◌, ◌^◌, IfSome, option_map, length};
ghost use Rattle.cdxj_objects.specs.MemberValues.{filename_value, offset_value};
ghost use Rattle.cdxj_objects.specs.FoundViews.{value_view};

use crate::member_value::MemberValue;
use cdxj_places::read_offset;

/// Returns a text that isn't empty.
pub(crate) fn filename_value(member: Option<MemberValue<'_>>) -> Option<&str>
    ensures value { option_map (λ s. s.now) result
        ≡ filename_value (option_map value_view member.entry) }
    ensures some { IfSome result (λ s. 0 < length s.now) }
{
    match member {
        Some(MemberValue::Text(text)) if !text.is_empty() => Some(text),
        _ => None,
    }
}

/// Returns an offset that is given as a number or as digits, if it is below 2^63.
pub(crate) fn offset_value(member: Option<MemberValue<'_>>) -> Option<u64>
    ensures value { result ≡ offset_value (option_map value_view member.entry) }
    ensures small { IfSome result (λ n. n < 2 ^ 63) }
{
    match member? {
        MemberValue::Text(text) => read_offset(text),
        MemberValue::Number(offset) if offset < 1 << 63 => Some(offset),
        _ => None,
    }
}
