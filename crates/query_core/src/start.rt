//! Where the reading of indexes for a page begins.
ghost use Rattle.std.specs.Prelude.{◌≡◌};
ghost use Rattle.query_core.specs.Starts.{start_pair};
ghost use Rattle.cdxj_places.specs.PairViews.{pair_view};

use cdxj_core::{LEAST_PAIR, Pair};
use query_text::Query;

/// Returns the pair that no line of the query's page is below.
pub(crate) fn start_pair(query: &Query) -> Pair<'_>
    ensures { pair_view result ≡ start_pair query.now query.now.resume }
{
    let start = Pair {
        key: query.target().text(),
        stamp: LEAST_PAIR.stamp,
    };
    match query.resume() {
        Some(place) => {
            let pair = Pair {
                key: place.key,
                stamp: place.stamp,
            };
            if pair.cmp(&start).is_gt() {
                pair
            } else {
                start
            }
        }
        None => start,
    }
}
