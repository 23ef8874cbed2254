//! Places that own their texts.
ghost use Rattle.std.specs.Prelude.{◌≡◌, ◌<◌, ◌^◌, length, true, string_bytes};
ghost use Rattle.cdxj_places.specs.Pair.{is_key, is_stamp};

use crate::cuts::{cut_first, cut_last};
use crate::fault::PlaceFault;
use crate::key_and_stamp::{is_key, is_stamp};
use crate::offset::read_offset;
use crate::order::HasPlace;
use crate::place::Place;
use form_urlencoded::decode;
use std::alloc::Global;
use std::cmp::Ordering;
use std::marker::Model;

/// A place that owns its texts.
#[derive(Debug, Drop)]
pub struct OwnedPlace {
    key: String,
    stamp: [u8; 14],
    filename: String,
    offset: u64,
    pub ghost key_rule: { is_key (string_bytes key) ≡ true },
    pub ghost stamp_rule: { is_stamp stamp ≡ true },
    pub ghost filename_rule: { 0 < length (string_bytes filename) },
    pub ghost offset_rule: { offset < 2 ^ 63 },
}

impl Model for OwnedPlace {
    ghost use Rattle.std.specs.Prelude.{string_bytes};
    ghost use Rattle.cdxj_places.specs.Places.{PlaceValue};

    ghost Value = { PlaceValue };

    ghost view = { λ p. record {
      key = string_bytes p.key;
      stamp = p.stamp;
      filename = string_bytes p.filename;
      offset = p.offset;
    } };
}

impl OwnedPlace {
    ghost use Rattle.std.specs.Prelude.{MatchResult, Some, None};
    ghost use Rattle.cdxj_places.specs.Places.{resume_place, place_in};
    ghost use Rattle.cdxj_places.specs.PlaceViews.{place_view};

    /// Copies a place.
    /// The only error is refused memory.
    pub fn new(alloc: Global, place: Place<'_>) -> Result<OwnedPlace, PlaceFault>
        ensures { MatchResult result (λ kept. kept ≡ place_view place.entry)
            (λ fault. fault ≡ PlaceFault.Memory) }
    {
        Ok(OwnedPlace {
            key: String::from_str(alloc, place.key)?,
            stamp: place.stamp,
            filename: String::from_str(alloc, place.filename)?,
            offset: place.offset,
        })
    }

    /// Reads the place that a resume key names, as `resume_text` writes it. The text is decoded as
    /// one form-encoded value (URL Standard, "application/x-www-form-urlencoded") and cut at its
    /// first two spaces and at its last. The error is `BadResume` if the parts aren't a key, a
    /// stamp, a file name and an offset of 1 to 19 digits below 2^63.
    pub fn read(alloc: Global, text: &str) -> Result<OwnedPlace, PlaceFault>
        ensures { MatchResult result (λ kept. resume_place text.now ≡ Some kept)
            (λ fault. fault ≡ PlaceFault.BadResume → resume_place text.now ≡ None) }
    {
        let decoded = decode(alloc, text.as_bytes())?;
        OwnedPlace::read_decoded(alloc, decoded.as_str())
    }

    #[tactic(auto, unfolding(crate::specs::Places::place_in))]
    fn read_decoded(alloc: Global, text: &str) -> Result<OwnedPlace, PlaceFault>
        ensures { MatchResult result (λ kept. place_in text.now ≡ Some kept)
            (λ fault. fault ≡ PlaceFault.BadResume → place_in text.now ≡ None) }
    {
        let (key, rest) = cut_first(text);
        let (stamp, last) = cut_first(rest);
        let (filename, digits) = cut_last(last);
        let Some(offset) = read_offset(digits) else {
            return Err(PlaceFault::BadResume);
        };
        let Ok(digits) = <[u8; 14]>::try_from(stamp.as_bytes()) else {
            return Err(PlaceFault::BadResume);
        };
        if is_key(key.as_bytes()) && is_stamp(stamp.as_bytes()) && !filename.is_empty() {
            Ok(OwnedPlace {
                key: String::from_str(alloc, key)?,
                stamp: digits,
                filename: String::from_str(alloc, filename)?,
                offset,
            })
        } else {
            Err(PlaceFault::BadResume)
        }
    }

    /// Returns the place.
    pub fn place(&self) -> Place<'_>
        ensures { place_view result ≡ self.now }
    {
        Place {
            key: self.key.as_str(),
            stamp: self.stamp,
            filename: self.filename.as_str(),
            offset: self.offset,
        }
    }
}

impl HasPlace for OwnedPlace {
    ghost place_of = { λ place. place };

    fn key_bytes(&self) -> &[u8] {
        self.place().key.as_bytes()
    }

    fn compare_place(&self, other: &OwnedPlace) -> Ordering {
        self.place().compare_place(&other.place())
    }
}
