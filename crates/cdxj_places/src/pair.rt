//! Pairs of a key and a stamp, and the pair at the start of a line.
ghost use Rattle.std.specs.Prelude.{◌≡◌, option_map};
ghost use Rattle.std.specs.List.{before_first, after_first};
ghost use Rattle.cdxj_places.specs.Pair.{is_space, pair_of};

use crate::key_and_stamp::{is_key, is_stamp};
use memchr::memchr;

/// A key and a stamp, by which the lines of an index are sorted. Pairs are ordered by key and then by
/// stamp, each by its bytes.
#[derive(Clone, Copy, Debug, PartialEq, Eq, PartialOrd, Ord)]
pub struct Pair<'a> {
    pub key: &'a str,
    pub stamp: [u8; 14],
}

/// The pair of the empty key, which no pair of a line is below.
pub const LEAST_PAIR: Pair<'static> = Pair {
    key: "",
    stamp: *b"00000000000000",
};

// The bytes before the first space, or all of them, and those after it.
#[tactic(auto, using(crate::proofs::Found::cut_rules, std::proofs::lemmas::List::take_rest))]
fn cut_at_space(line: &[u8]) -> (&[u8], &[u8])
    ensures before { result.0.now ≡ before_first is_space line.now }
    ensures after { result.1.now ≡ after_first is_space line.now }
{
    match memchr(b' ', line) {
        Some(i) => (&line[..i], &line[i + 1..]),
        None => (line, &[]),
    }
}

/// Returns the key and the 14 digits of the stamp, if the bytes begin with a key, a space, a stamp
/// and a space.
pub fn split_pair(line: &[u8]) -> Option<(&[u8], &[u8])>
    ensures { option_map (λ p. (p.0.now, p.1.now)) result ≡ pair_of line.now }
{
    let (key, rest) = cut_at_space(line);
    let (stamp, tail) = rest.split_at(rest.len().min(14));
    if is_key(key) && is_stamp(stamp) && matches!(tail, [b' ', ..]) {
        Some((key, stamp))
    } else {
        None
    }
}
