//! The bounds of the stamps that a query selects.
ghost use Rattle.std.specs.Prelude.{◌≡◌, take};
ghost use Rattle.query_text.specs.Readings.{IsReading};
ghost use Rattle.query_text.specs.Values.{stamp_start_of};
ghost use Rattle.query_text.specs.Matching.{not_before, not_after};

use crate::fault::QueryFault;
use crate::parts::is_number;
use arrayvec::ArrayString;
use std::marker::Model;

/// The first digits of a stamp, 1 to 14 of them.
#[derive(Debug, Drop)]
pub(crate) struct StampStart {
    digits: ArrayString<14>,
}

impl Model for StampStart {
    ghost use Rattle.std.specs.Prelude.{◌≡◌, ℕ, List, true};
    ghost use Rattle.query_text.specs.Values.{is_number};

    ghost Value = { List ℕ };

    ghost view = { λ s. s.digits.bytes };

    ghost invariant = { λ s. is_number 14 s.digits.bytes ≡ true };
}

impl StampStart {
    /// Reads the first digits of a stamp. The error is `BadStamp` unless the text is 1 to 14 digits.
    pub(crate) fn read(text: &str) -> Result<StampStart, QueryFault>
        ensures { IsReading (stamp_start_of text.now) result }
    {
        match ArrayString::from(text) {
            Ok(digits) if is_number(text, 14) => Ok(StampStart { digits }),
            _ => Err(QueryFault::BadStamp),
        }
    }

    fn as_bytes(&self) -> &[u8]
        ensures { result.now ≡ self.now }
    {
        self.digits.as_str().as_bytes()
    }
}

/// Returns the first `count` bytes of a stamp, or all of them.
pub(crate) fn front(stamp: &[u8], count: usize) -> &[u8]
    ensures { result.now ≡ take count stamp.now }
{
    stamp.get(..count).unwrap_or(stamp)
}

/// Returns `true` if the stamp's first digits are not below these.
pub(crate) fn not_before(from: &Option<StampStart>, stamp: &[u8]) -> bool
    ensures { result ≡ not_before from.now stamp.now }
{
    match from {
        Some(from) => {
            let digits = from.as_bytes();
            front(stamp, digits.len()).cmp(digits).is_ge()
        }
        None => true,
    }
}

/// Returns `true` if the stamp's first digits are not above these.
pub(crate) fn not_after(to: &Option<StampStart>, stamp: &[u8]) -> bool
    ensures { result ≡ not_after to.now stamp.now }
{
    match to {
        Some(to) => {
            let digits = to.as_bytes();
            front(stamp, digits.len()).cmp(digits).is_le()
        }
        None => true,
    }
}
