//! Tests of 16 bytes at a time.
ghost use Rattle.std.specs.Prelude.{◌≡◌, ◌≤◌, ◌<◌, ◌+◌, ◌==◌, true, if◌then◌else◌, drop, length};
ghost use Rattle.std.specs.Prelude.{take, slice_index};
ghost use Rattle.std.specs.Char.{is_ascii_digit};
ghost use Rattle.std.specs.Int.{trailing_zeros, w64};
ghost use Rattle.std.specs.List.{prefix_len};
ghost use Rattle.cdxj_places.specs.Pair.{is_stamp};
ghost use Rattle.cdxj_objects.specs.Plain.{is_neither};

use std::simd::prelude::*;

/// The number of bytes that one step looks at.
const LANES: usize = 16;

/// Returns the place of the lowest bit of the mask that is set, or 16.
#[inline(always)]
fn first_set(mask: u64) -> usize
    ensures { result ≡ if mask == 0 then LANES else trailing_zeros w64 mask }
{
    if mask == 0 {
        LANES
    } else {
        mask.trailing_zeros() as usize
    }
}

/// Returns `true` if 16 bytes stand at a place.
#[inline(always)]
pub(crate) fn holds_lanes(text: &[u8], at: usize) -> bool
    ensures { result ≡ true → at + 16 ≤ length text.now }
{
    text.len() >= LANES && at <= text.len() - LANES
}

/// Returns a mask of the 16 bytes from `at` on, in which the bits of these two are set.
#[inline(always)]
fn found_at(text: &[u8], at: usize, first: u8, second: u8) -> u64
    requires { at + LANES ≤ length text.now }
    ensures first { (if result == 0 then LANES else trailing_zeros w64 result)
        ≡ prefix_len (is_neither first second) (take LANES (drop at text.now)) }
    ensures some { 0 < result → trailing_zeros w64 result < LANES }
{
    let bytes = u8x16::from_slice(&text[at..]);
    let found = bytes.simd_eq(u8x16::splat(first)) | bytes.simd_eq(u8x16::splat(second));
    found.to_bitmask()
}

/// Returns the place of the first byte from `at` on that is one of these two, or the length of the
/// text.
#[inline(always)]
pub fn place_of_either(text: &[u8], at: usize, first: u8, second: u8) -> usize
    requires { at ≤ length text.now }
    ensures { result ≡ at + prefix_len (is_neither first second) (drop at text.now) }
{
    let mut place = at;
    if holds_lanes(text, at) {
        let last = text.len() - LANES;
        'by_lanes: while place < last {
            let found = found_at(text, place, first, second);
            if found != 0 {
                return place + found.trailing_zeros() as usize;
            }
            place += LANES;
        }
        return last + first_set(found_at(text, last, first, second));
    }
    'by_bytes: while place < text.len() && text[place] != first && text[place] != second {
        place += 1;
    }
    place
}

/// Returns how many of the 16 bytes from `at` on precede the first that is no digit.
#[inline(always)]
pub(crate) fn digits_before(text: &[u8], at: usize) -> usize
    requires { at + LANES ≤ length text.now }
    ensures digits { result ≡ prefix_len is_ascii_digit (take LANES (drop at text.now)) }
    ensures most { result ≤ 16 }
{
    let bytes = u8x16::from_slice(&text[at..]);
    let others = bytes.simd_lt(u8x16::splat(b'0')) | bytes.simd_gt(u8x16::splat(b'9'));
    first_set(others.to_bitmask())
}

/// Returns `true` if 14 digits and a space stand at a place, followed by one byte or more.
#[inline(always)]
pub fn has_stamp(text: &[u8], at: usize) -> bool
    ensures long { result ≡ true → at + 16 ≤ length text.now }
    ensures digits { result ≡ true → is_stamp (take 14 (drop at text.now)) ≡ true }
    ensures space { result ≡ true → slice_index text.now (at + 14) ≡ 32 }
{
    holds_lanes(text, at) && digits_before(text, at) == 14 && text[at + 14] == b' '
}

/// A text of `length` bytes, filled up to 16 bytes.
#[derive(Copy, Clone)]
pub(crate) struct Front {
    pub bytes: [u8; LANES],
    pub length: usize,
}

/// Returns how many of the 16 bytes from `at` on precede the first that isn't the front's.
#[inline(always)]
fn common_length(text: &[u8], at: usize, front: Front) -> usize
    requires { at + LANES ≤ length text.now }
    ensures { take result (drop at text.now) ≡ take result front.bytes }
{
    let other = u8x16::from_slice(&text[at..]).simd_ne(u8x16::from_slice(&front.bytes));
    first_set(other.to_bitmask())
}

/// Returns `true` if a front stands at a place, where 16 bytes or more follow.
#[inline(always)]
pub(crate) fn has_front(text: &[u8], at: usize, front: Front) -> bool
    ensures long { result ≡ true → at + 16 ≤ length text.now }
    ensures same { result ≡ true
        → take front.length (drop at text.now) ≡ take front.length front.bytes }
{
    holds_lanes(text, at) && common_length(text, at, front) >= front.length
}
