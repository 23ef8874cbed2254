//! Offsets, written in decimal.
ghost use Rattle.std.specs.Prelude.{◌≡◌, ◌≤◌, ◌<◌, ◌^◌, if◌then◌else◌, length, IfSome, Some, None};
ghost use Rattle.std.specs.Char.{is_ascii_digit};
ghost use Rattle.std.specs.List.{list_all};
ghost use Rattle.std.specs.Str.Parse.{digits_value};
ghost use Rattle.cdxj_places.specs.Places.{offset_of};

/// The greatest number of digits of an offset.
const MOST_DIGITS: usize = 19;

/// Returns the number that digits spell. If one of the bytes isn't a digit, there is none.
#[tactic(auto, using(crate::proofs::Offsets::number_rules))]
fn number_of(text: &[u8]) -> Option<u64>
    requires { length text.now ≤ MOST_DIGITS }
    ensures { result
        ≡ if list_all is_ascii_digit text.now then Some (digits_value 10 text.now) else None }
{
    let mut number: u64 = 0;
    for byte in text {
        if !byte.is_ascii_digit() {
            return None;
        }
        number = number * 10 + u64::from(*byte - b'0');
    }
    Some(number)
}

/// Returns the number that 1 to 19 digits spell, if it is below 2^63.
pub fn read_offset(text: &str) -> Option<u64>
    ensures value { result ≡ offset_of text.now }
    ensures small { IfSome result (λ n. n < 2 ^ 63) }
{
    if text.is_empty() || text.len() > MOST_DIGITS {
        return None;
    }
    match number_of(text.as_bytes()) {
        Some(offset) if offset < 1 << 63 => Some(offset),
        _ => None,
    }
}
