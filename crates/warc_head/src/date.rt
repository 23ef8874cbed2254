//! The date of a record, and its stamp.
ghost use Rattle.std.specs.List.{list_all, zip};
ghost use Rattle.std.specs.Prelude.{◌≡◌, ◌≤◌, ◌<◌, ◌+◌, length, true, IfOk};
ghost use Rattle.warc_head.specs.Answers.{AgreesWith};
ghost use Rattle.warc_head.specs.Length.{all_digits};
ghost use Rattle.warc_head.specs.Date.{fits, fits_byte, is_fraction, has_fraction, date_length, full_date, two, to_the_second, is_moment, digits_of, stamp_of};

use crate::calendar::date_exists;
use crate::fault::HeadFault;
use crate::length::all_digits;

/// Returns the stamp of a date text: year, month, day, hour, minute and second in 14 digits. The only error is `BadDate`.
#[tactic(auto, unfolding(crate::specs::Date::stamp_of))]
pub fn stamp_of(text: &[u8]) -> Result<[u8; 14], HeadFault>
    ensures answer { AgreesWith (λ s. s) result (stamp_of text.now) }
    ensures digits { IfOk result (λ s. all_digits s ≡ true) }
{
    let Some(size) = date_length(text) else {
        return Err(HeadFault::BadDate);
    };
    let whole = full_date(text, size);
    if !is_moment(&whole) {
        return Err(HeadFault::BadDate);
    }
    Ok(digits_of(&whole))
}

/// Returns the length of the date and the time in bytes, without the fraction and `Z`.
#[tactic(auto, unfolding(crate::specs::Date::date_length))]
fn date_length(text: &[u8]) -> Option<usize>
    ensures { result ≡ date_length text.now }
{
    if fits(b"0000", text) {
        Some(4)
    } else if fits(b"0000-00", text) {
        Some(7)
    } else if fits(b"0000-00-00", text) {
        Some(10)
    } else if fits(b"0000-00-00T00:00Z", text) {
        Some(16)
    } else if fits(b"0000-00-00T00:00:00Z", text) {
        Some(19)
    } else if has_fraction(text) {
        Some(19)
    } else {
        None
    }
}

/// Returns `true` if the text has the form, in which 0 stands for any digit.
#[tactic(auto, using(crate::proofs::DateLemmas::fits_by_zip))]
fn fits(form: &[u8], text: &[u8]) -> bool
    ensures { result ≡ fits form.now text.now }
{
    form.len() == text.len() && agrees(form, text)
}

/// Returns `true` if the text has the form as far as both go.
fn agrees(form: &[u8], text: &[u8]) -> bool
    ensures { result ≡ list_all (λ p. fits_byte p.0 p.1) (zip form.now text.now) }
{
    form.iter()
        .zip(text)
        .all(|(first, byte)| fits_byte(*first, *byte))
}

/// Returns `true` if the byte is one that the form has here.
fn fits_byte(form: u8, byte: u8) -> bool
    ensures { result ≡ fits_byte form byte }
{
    if form == b'0' {
        byte.is_ascii_digit()
    } else {
        byte == form
    }
}

/// Returns `true` if the text is a date and a time with a fraction of the second before `Z`.
fn has_fraction(text: &[u8]) -> bool
    ensures { result ≡ has_fraction text.now }
{
    if text.len() < 19 {
        return false;
    }
    if !fits(b"0000-00-00T00:00:00", &text[..19]) {
        return false;
    }
    is_fraction(&text[19..])
}

/// Returns `true` if the text is `.`, one to nine digits and `Z`.
fn is_fraction(text: &[u8]) -> bool
    ensures { result ≡ is_fraction text.now }
{
    if text.len() < 3 || text.len() > 11 {
        return false;
    }
    text[0] == b'.' && text[text.len() - 1] == b'Z' && all_digits(&text[1..text.len() - 1])
}

/// Returns the date and time whose first `size` bytes the text gives. An absent month or day is 01; an absent hour,
/// minute or second is 00.
fn full_date(text: &[u8], size: usize) -> [u8; 19]
    requires text { size ≤ length text.now }
    requires whole { size ≤ 19 }
    ensures { result ≡ full_date text.now size }
{
    if let Ok(whole) = <&[u8; 19]>::try_from(&text[..size]) {
        return *whole;
    }
    let mut whole = *b"0000-01-01T00:00:00";
    whole[..size].copy_from_slice(&text[..size]);
    whole
}

/// Returns `true` if the date and the time of day exist.
#[tactic(auto, using(crate::proofs::DateLemmas::two_small))]
fn is_moment(whole: &[u8; 19]) -> bool
    requires { fits to_the_second whole.now ≡ true }
    ensures { result ≡ is_moment whole.now }
{
    date_exists(
        100 * two(whole, 0) + two(whole, 2),
        two(whole, 5),
        two(whole, 8),
    ) && two(whole, 11) <= 23
        && two(whole, 14) <= 59
        && two(whole, 17) <= 59
}

/// Returns the number that the two digits at `at` spell.
fn two(text: &[u8], at: usize) -> u32
    requires { at + 1 < length text.now }
    ensures value { result ≡ two text.now at }
    ensures small { result < 10000 }
{
    10 * u32::from(text[at].saturating_sub(b'0')) + u32::from(text[at + 1].saturating_sub(b'0'))
}

#[inline(never)] // inlined, it becomes fourteen values that are moved one by one
fn digits_of(whole: &[u8; 19]) -> [u8; 14]
    ensures { result ≡ digits_of whole.now }
{
    [
        whole[0], whole[1], whole[2], whole[3], whole[5], whole[6], whole[8], whole[9], whole[11],
        whole[12], whole[14], whole[15], whole[17], whole[18],
    ]
}
