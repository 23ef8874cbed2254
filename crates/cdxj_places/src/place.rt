//! Places.
ghost use Rattle.std.specs.Prelude.{◌≡◌, ◌<◌, ◌^◌, length, true};
ghost use Rattle.cdxj_places.specs.Pair.{is_key, is_stamp};

use crate::order::HasPlace;
use crate::pair::Pair;
use std::cmp::Ordering;

/// The place of a capture in an index. Places are ordered by key, stamp and file name, each by its
/// bytes, and then by offset as a number.
#[derive(Clone, Copy, Debug, PartialEq, Eq, PartialOrd, Ord)]
pub struct Place<'a> {
    /// One or more characters, none of them a space, a control or U+007F.
    pub key: &'a str,
    /// 14 digits, `YYYYMMDDhhmmss`.
    pub stamp: [u8; 14],
    /// Not empty.
    pub filename: &'a str,
    /// The offset in bytes from the archive's start, below 2^63.
    pub offset: u64,
    pub ghost key_rule: { is_key key.now ≡ true },
    pub ghost stamp_rule: { is_stamp stamp ≡ true },
    pub ghost filename_rule: { 0 < length filename.now },
    pub ghost offset_rule: { offset < 2 ^ 63 },
}

impl<'a> Place<'a> {
    ghost use Rattle.cdxj_places.specs.Pairs.{place_pair};
    ghost use Rattle.cdxj_places.specs.PairViews.{pair_view};
    ghost use Rattle.cdxj_places.specs.PlaceViews.{place_view};

    /// Returns the key and the stamp.
    pub fn pair(self) -> Pair<'a>
        ensures { pair_view result ≡ place_pair (place_view self.entry) }
    {
        Pair {
            key: self.key,
            stamp: self.stamp,
        }
    }
}

impl<'a> HasPlace for Place<'a> {
    ghost use Rattle.cdxj_places.specs.PlaceViews.{place_view};

    ghost place_of = { place_view };

    fn key_bytes(&self) -> &[u8] {
        self.key.as_bytes()
    }

    fn compare_place(&self, other: &Place<'a>) -> Ordering {
        self.cmp(other)
    }
}
