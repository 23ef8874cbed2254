//! The length of a block.
ghost use Rattle.std.specs.Prelude.{◌≡◌, ◌≤◌, ◌^◌, ◌-◌, length, true, false, IfOk, MatchOption};
ghost use Rattle.warc_head.specs.Answers.{AgreesWith};
ghost use Rattle.warc_head.specs.Length.{all_digits, number_of, length_of};

use crate::fault::HeadFault;

/// Returns the length in bytes that a value of `Content-Length` gives. The only error is `BadLength`.
#[tactic(auto, unfolding(crate::specs::Length::length_of))]
pub fn length_of(value: &[u8]) -> Result<u64, HeadFault>
    ensures answer { AgreesWith (λ n. n) result (length_of value.now) }
    ensures bound { IfOk result (λ n. n ≤ 2 ^ 63 - 1) }
{
    if value.is_empty() || value.len() > 19 {
        return Err(HeadFault::BadLength);
    }
    match number_of(value) {
        Some(number) if number <= i64::MAX as u64 => Ok(number),
        _ => Err(HeadFault::BadLength),
    }
}

/// Returns `true` if each byte is an ASCII digit.
pub fn all_digits(text: &[u8]) -> bool
    ensures { result ≡ all_digits text.now }
{
    text.iter().all(|byte| *byte >= b'0' && *byte <= b'9')
}

/// Returns the number that a text of at most 19 bytes spells, if each byte is a digit.
#[tactic(auto, using(crate::proofs::NumberLemmas::number_rules))]
fn number_of(text: &[u8]) -> Option<u64>
    requires { length text.now ≤ 19 }
    ensures { MatchOption result (all_digits text.now ≡ false)
        (λ n. (all_digits text.now ≡ true) × (n ≡ number_of text.now)) }
{
    let mut number: u64 = 0;
    let mut rest = text;
    while let Some((first, later)) = rest.split_first() {
        if !first.is_ascii_digit() {
            return None;
        }
        number = 10 * number + u64::from(*first - b'0');
        rest = later;
    }
    Some(number)
}
