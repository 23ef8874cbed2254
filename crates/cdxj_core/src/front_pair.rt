//! The pair that begins a line.
ghost use Rattle.std.specs.Prelude.{IfSome};
ghost use Rattle.cdxj_core.specs.KeptLine.{IsFrontPair};

use crate::spans::{TO_STAMP, TO_STAMP_END};
use cdxj_objects::{has_stamp, place_of_either};

const DELETE: u8 = 0x7f;

/// The end of a line's key, and its stamp.
#[derive(Clone, Copy, Drop)]
pub(crate) struct FrontPair {
    pub key: usize,
    pub stamp: [u8; 14],
}

/// Returns the pair that begins a text. It may decline any text.
#[inline(always)]
pub(crate) fn front_pair(text: &str) -> Option<FrontPair>
    ensures { IfSome result (IsFrontPair text.now) }
{
    let bytes = text.as_bytes();
    let key = place_of_either(bytes, 0, b' ', DELETE);
    if key == 0 || !has_stamp(bytes, key + TO_STAMP) || bytes[key] != b' ' {
        return None;
    }
    let Ok(stamp) = <[u8; 14]>::try_from(&bytes[key + TO_STAMP..key + TO_STAMP_END]) else {
        return None;
    };
    Some(FrontPair { key, stamp })
}
