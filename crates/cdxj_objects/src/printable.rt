//! Texts of ASCII without controls.
ghost use Rattle.std.specs.Prelude.{◌≡◌, ◌≤◌, ◌<◌, ◌+◌, ◌==◌, if◌then◌else◌, drop, length, take};
ghost use Rattle.std.specs.Int.{trailing_zeros, w64};
ghost use Rattle.std.specs.List.{prefix_len};
ghost use Rattle.cdxj_objects.specs.Plain.{is_printable_ascii};

use std::simd::prelude::*;

/// The number of bytes that one step looks at.
const LANES: usize = 32;

#[inline(always)]
fn is_printable_ascii(byte: u8) -> bool
    ensures { result ≡ is_printable_ascii byte }
{
    byte >= b' ' && byte < 0x80
}

/// Returns a mask of the 32 bytes from `at` on, in which the bits of all others are set.
#[inline(always)]
fn others_at(text: &[u8], at: usize) -> u64
    requires { at + LANES ≤ length text.now }
    ensures first { (if result == 0 then LANES else trailing_zeros w64 result)
        ≡ prefix_len is_printable_ascii (take LANES (drop at text.now)) }
    ensures some { 0 < result → trailing_zeros w64 result < LANES }
{
    let bytes = u8x32::from_slice(&text[at..]);
    let others = bytes.simd_lt(u8x32::splat(b' ')) | bytes.simd_gt(u8x32::splat(0x7f));
    others.to_bitmask()
}

/// Returns how many bytes precede the first that is a control or no character of ASCII.
#[inline(always)]
pub fn printable_length(text: &[u8]) -> usize
    ensures { result ≡ prefix_len is_printable_ascii text.now }
{
    let mut end = 0;
    if text.len() >= LANES {
        let last = text.len() - LANES;
        'by_lanes: while end < last {
            let others = others_at(text, end);
            if others != 0 {
                return end + others.trailing_zeros() as usize;
            }
            end += LANES;
        }
        let rest = others_at(text, last);
        if rest != 0 {
            return last + rest.trailing_zeros() as usize;
        }
        return text.len();
    }
    'by_bytes: while end < text.len() && is_printable_ascii(text[end]) {
        end += 1;
    }
    end
}
