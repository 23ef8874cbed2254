//! The bytes of a head's text, 32 at a time.
ghost use Rattle.std.specs.Prelude.{◌≡◌, ◌+◌, ◌<◌, ◌≤◌, ℕ, length, slice_index};
ghost use Rattle.httparse.specs.Pieces.{IsRunIn, PassesIn, first_set};
ghost use Rattle.warc_head.specs.Bytes.{lf};
ghost use Rattle.warc_head.specs.Lines.{is_content};
ghost use Rattle.warc_head.specs.Names.{is_name_byte};

use std::simd::prelude::*;

/// The number of bytes that one step looks at.
pub const LANES: usize = 32;

/// The number of bytes of a shorter step.
pub(crate) const HALF_LANES: usize = 16;

/// Returns the position of the lowest bit that is set, or the number of lanes if none is.
#[inline(always)]
fn first_set(mask: u64, lanes: usize) -> usize
    ensures { result ≡ first_set mask lanes }
{
    if mask == 0 {
        lanes
    } else {
        mask.trailing_zeros() as usize
    }
}

/// Returns how many of the 32 bytes from `at` on precede the first CR or LF, or 32 if there is none.
#[inline(always)]
pub(crate) fn run_to_break(text: &[u8], at: usize) -> usize
    requires { at + LANES ≤ length text.now }
    ensures { IsRunIn is_content text.now at LANES result }
{
    let bytes = u8x32::from_slice(&text[at..]);
    let breaks = bytes.simd_eq(u8x32::splat(b'\r')) | bytes.simd_eq(u8x32::splat(b'\n'));
    first_set(breaks.to_bitmask(), LANES)
}

/// Returns how many of the 16 bytes from `at` on precede the first CR or LF, or 16 if there is none.
#[inline(always)]
pub(crate) fn run_to_break_half(text: &[u8], at: usize) -> usize
    requires { at + HALF_LANES ≤ length text.now }
    ensures { IsRunIn is_content text.now at HALF_LANES result }
{
    let bytes = u8x16::from_slice(&text[at..]);
    let breaks = bytes.simd_eq(u8x16::splat(b'\r')) | bytes.simd_eq(u8x16::splat(b'\n'));
    first_set(breaks.to_bitmask(), HALF_LANES)
}

/// Returns how many of the 16 bytes from `at` on precede the first that is neither a letter nor `-`, or 16 if there is none.
#[inline(always)]
pub(crate) fn run_of_letters(text: &[u8], at: usize) -> usize
    requires { at + HALF_LANES ≤ length text.now }
    ensures { PassesIn is_name_byte text.now at HALF_LANES result }
{
    let bytes = u8x16::from_slice(&text[at..]);
    let from_a = (bytes | u8x16::splat(0x20)) - u8x16::splat(b'a');
    let stops = from_a.simd_ge(u8x16::splat(26)) & bytes.simd_ne(u8x16::splat(b'-'));
    first_set(stops.to_bitmask(), HALF_LANES)
}

/// Returns how many of the 32 offsets from `at` on precede the first that has an LF one byte and three bytes after it, as
/// the start of a CR LF CR LF has, or 32 if there is none.
#[inline(always)]
pub fn run_to_closing(text: &[u8], at: usize) -> usize
    requires { at + LANES + 3 ≤ length text.now }
    ensures bound { result ≤ LANES }
    ensures none { (k : ℕ) → k < result → slice_index text.now (at + k + 1) ≡ lf
        → slice_index text.now (at + k + 3) ≡ lf → ⊥ }
{
    let second = u8x32::from_slice(&text[at + 1..]).simd_eq(u8x32::splat(b'\n'));
    let fourth = u8x32::from_slice(&text[at + 3..]).simd_eq(u8x32::splat(b'\n'));
    first_set((second & fourth).to_bitmask(), LANES)
}
