//! What a line takes from the value of a member of its JSON object.
ghost use Rattle.std.specs.Prelude.{◌≡◌, true, false, option_map};
ghost use Rattle.serde_json.specs.Read.{number_of, number_from, float_of};
ghost use Rattle.cdxj_objects.specs.FoundMembers.{number_data};
ghost use Rattle.cdxj_objects.specs.FoundViews.{value_view};

use fast_float::Numeral;

#[derive(Clone, Copy)]
pub(crate) enum MemberValue<'a> {
    Text(&'a str),
    /// An integer from 0 to 2^64 - 1.
    Number(u64),
    /// Any other value.
    Other,
}

/// Returns the value of a JSON number, or `None` if it is too large for a 64-bit float.
#[tactic(auto, unfolding(serde_json::specs::Read::number_of))]
pub(crate) fn number_value<'a>(text: &str) -> Option<MemberValue<'a>>
    ensures { option_map value_view result ≡ option_map number_data (number_of text.now) }
{
    let bytes = text.as_bytes();
    match bytes.strip_prefix(b"-") {
        Some(digits) => negative_value(&Numeral::scan(digits)),
        None => unsigned_value(&Numeral::scan(bytes)),
    }
}

fn unsigned_value<'a>(numeral: &Numeral<'_>) -> Option<MemberValue<'a>>
    ensures { option_map value_view result
        ≡ option_map number_data (number_from false numeral.now) }
{
    match numeral.to_u64() {
        Some(number) => Some(MemberValue::Number(number)),
        None => float_value(false, numeral),
    }
}

fn negative_value<'a>(numeral: &Numeral<'_>) -> Option<MemberValue<'a>>
    ensures { option_map value_view result
        ≡ option_map number_data (number_from true numeral.now) }
{
    match numeral.to_i64(true) {
        Some(number) if number < 0 => Some(MemberValue::Other),
        _ => float_value(true, numeral),
    }
}

fn float_value<'a>(negative: bool, numeral: &Numeral<'_>) -> Option<MemberValue<'a>>
    ensures { option_map value_view result
        ≡ option_map number_data (float_of negative numeral.now) }
{
    if numeral.to_float::<f64>(negative).is_finite() {
        Some(MemberValue::Other)
    } else {
        None
    }
}
