//! The collapsing of captures.
ghost use Rattle.std.specs.Prelude.{◌≡◌};
ghost use Rattle.query_text.specs.Readings.{IsReading};
ghost use Rattle.query_text.specs.Collapses.{collapse_of, width_of};

use crate::fault::QueryFault;
use crate::parts::is_number;
use crate::stamp::front;
use cdxj_core::Pair;

/// The part by which adjacent captures are collapsed. Of those with the same part, the first is kept.
#[derive(Clone, Copy, Debug, Drop, PartialEq, Eq)]
pub enum Collapse {
    /// The key.
    Urlkey,
    /// The first digits of the stamp, this many.
    Timestamp(usize),
}

impl Collapse {
    ghost use Rattle.query_text.specs.Collapses.{part_of};

    /// Returns the part that is compared, of a capture with this pair.
    pub fn part<'p>(self, pair: &'p Pair<'p>) -> &'p [u8]
        ensures { result.now ≡ part_of self pair.now.key.now pair.now.stamp }
    {
        match self {
            Collapse::Urlkey => pair.key.as_bytes(),
            Collapse::Timestamp(digits) => front(&pair.stamp, digits),
        }
    }
}

/// Reads a number of digits. The error is `BadCollapse` unless the text is one or two digits with a value from 1 to 14.
#[tactic(auto, using(crate::proofs::Limits::width_parsed))]
fn read_width(text: &str) -> Result<Collapse, QueryFault>
    ensures { IsReading (width_of text.now) result }
{
    if !is_number(text, 2) {
        return Err(QueryFault::BadCollapse);
    }
    match text.parse::<usize>() {
        Ok(digits) if digits > 0 && digits <= 14 => Ok(Collapse::Timestamp(digits)),
        _ => Err(QueryFault::BadCollapse),
    }
}

/// Reads the value of `collapse`. The error is `BadCollapse` unless the text is `urlkey`, `timestamp` or `timestamp:N`,
/// where `N` is a number of digits from 1 to 14.
pub(crate) fn read_collapse(text: &str) -> Result<Collapse, QueryFault>
    ensures { IsReading (collapse_of text.now) result }
{
    match text {
        "urlkey" => Ok(Collapse::Urlkey),
        "timestamp" => Ok(Collapse::Timestamp(14)),
        _ => match text.strip_prefix("timestamp:") {
            Some(digits) => read_width(digits),
            None => Err(QueryFault::BadCollapse),
        },
    }
}
