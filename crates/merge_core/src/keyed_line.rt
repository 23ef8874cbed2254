//! Lines that are compared by the starts of their pairs first.
ghost use Rattle.std.specs.Prelude.{◌≡◌};
ghost use Rattle.cdxj_core.specs.Members.{member_pair};
ghost use Rattle.cdxj_places.specs.Pairs.{pair_cmp};
ghost use Rattle.merge_core.specs.PairStarts.{IsStart};

use crate::pair_start::{PairStart, pair_start};
use cdxj_core::Line;
use std::cmp::Ordering;
use std::marker::Model;

/// A line with the start of its pair, which decides most comparisons without access to the line.
#[derive(Drop)]
pub struct KeyedLine<'a> {
    pub(crate) pair_start: PairStart,
    pub(crate) line: &'a Line,
}

impl<'a> Model for KeyedLine<'a> {
    ghost use Rattle.cdxj_core.specs.Members.{Member, member_pair};
    ghost use Rattle.merge_core.specs.PairStarts.{IsStart};

    ghost Value = { Member };

    ghost view = { λ k. k.line.now };

    ghost invariant = { λ k. IsStart k.pair_start (member_pair k.line.now) };
}

impl<'a> KeyedLine<'a> {
    /// Creates the value for a line.
    #[inline(always)]
    pub fn new(line: &'a Line) -> KeyedLine<'a>
        ensures { result ≡ line.now }
    {
        KeyedLine::with_start(pair_start(line), line)
    }

    /// Creates the value for a line and the start of its pair.
    #[inline(always)]
    pub fn with_start(pair_start: PairStart, line: &'a Line) -> KeyedLine<'a>
        requires { IsStart pair_start (member_pair line.now) }
        ensures { result ≡ line.now }
    {
        KeyedLine { pair_start, line }
    }

    /// Compares the pairs of two lines.
    #[inline(always)]
    pub fn compare_pair(&self, other: &KeyedLine<'_>) -> Ordering
        ensures { result ≡ pair_cmp (member_pair self.now) (member_pair other.now) }
    {
        match self.pair_start.cmp(&other.pair_start) {
            Ordering::Equal => compare_pairs(self.line, other.line),
            decided => decided,
        }
    }
}

/// Compares the pairs of two lines. It is a function of its own, so that `compare_pair` is small
/// enough to be compiled in place.
fn compare_pairs(line: &Line, other: &Line) -> Ordering
    ensures { result ≡ pair_cmp (member_pair line.now) (member_pair other.now) }
{
    line.pair().cmp(&other.pair())
}
