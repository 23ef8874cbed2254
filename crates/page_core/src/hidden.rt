//! Hidden bytes: spaces, control characters and DEL, which text pages escape.
ghost use Rattle.std.specs.Prelude.{◌≡◌, ◌+◌, ◌≤◌, length, take, drop, IfOk};
ghost use Rattle.std.specs.List.{count_by};
ghost use Rattle.page_core.specs.Rows.{is_hidden};

use std::alloc::AllocError;
use std::simd::prelude::*;

const LANES: usize = 16;

/// Bytes that aren't hidden.
const FILLER: [u8; LANES] = [b'-'; LANES];

pub(crate) const DELETE: u8 = 0x7f;

/// Returns how many of the 16 bytes from `at` on are hidden.
#[inline(always)]
fn count_lanes(bytes: &[u8], at: usize) -> usize
    requires { at + LANES ≤ length bytes.now }
    ensures { result ≡ count_by is_hidden (take LANES (drop at bytes.now)) }
{
    let lanes = u8x16::from_slice(&bytes[at..]);
    let found = lanes.simd_le(u8x16::splat(b' ')) | lanes.simd_eq(u8x16::splat(DELETE));
    found.to_bitmask().count_ones() as usize
}

/// Returns how many of the bytes are hidden. Those behind the first `size` are a filler that isn't,
/// so that whole lanes hold the others.
#[inline(always)]
fn count_before_filler(bytes: &[u8], size: usize) -> usize
    requires long { size + LANES ≤ length bytes.now }
    requires filler { count_by is_hidden (drop size bytes.now) ≡ 0 }
    ensures { result ≡ count_by is_hidden bytes.now }
{
    let mut count = 0;
    let mut end = 0;
    'by_lanes: while end < size {
        count += count_lanes(bytes, end);
        end += LANES;
    }
    count
}

/// Returns how many of the bytes from `start` on are hidden. The text is as before.
/// The only error is refused memory.
#[inline(always)]
pub(crate) fn count_hidden(text: &mut Vec<u8>, start: usize) -> Result<usize, AllocError>
    requires { start ≤ length text.old.items }
    ensures text { text.new.items ≡ text.old.items }
    ensures count { IfOk result (λ n. n ≡ count_by is_hidden (drop start text.old.items)) }
{
    let end = text.len();
    text.extend_from_slice(&FILLER)?;
    let count = count_before_filler(&text[start..], end - start);
    text.truncate(end);
    Ok(count)
}
