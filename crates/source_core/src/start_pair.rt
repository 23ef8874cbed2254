//! The pair at which the reading of an index begins.
ghost use Rattle.std.specs.Prelude.{◌≡◌, ◌↔◌, option_map, IsTrue};
ghost use Rattle.cdxj_places.specs.Pair.{pair_of};
ghost use Rattle.cdxj_places.specs.Pairs.{IsLeast};
ghost use Rattle.cdxj_places.specs.PairViews.{pair_view};
ghost use Rattle.source_core.specs.Search.{is_below};

use cdxj_core::{Pair, split_pair};

/// Returns `true` if the pair at the start of a line is below this one, if there is a pair.
pub(crate) fn front_is_below(front: &[u8], start: Pair<'_>) -> Option<bool>
    ensures { result ≡ option_map (is_below (pair_view start.entry)) (pair_of front.now) }
{
    match split_pair(front) {
        Some((key, stamp)) => Some(
            key.cmp(start.key.as_bytes())
                .then_with(|| stamp.cmp(start.stamp.as_slice()))
                .is_lt(),
        ),
        None => None,
    }
}

/// Returns `true` if no pair of a line is below this one.
pub(crate) fn is_least(start: Pair<'_>) -> bool
    ensures { IsTrue result ↔ IsLeast (pair_view start.entry) }
{
    start.key.is_empty()
}
