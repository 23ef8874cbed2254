//! Laws of the definitions that the contracts cite. These functions do nothing: each law is a
//! contract.
ghost use Rattle.std.specs.Prelude.{◌≡◌, ◌<◌, ◌++◌, ◌↔◌, ℕ, List, Some, Bool, not, filter, map, All};
ghost use Rattle.std.specs.Cmp.{IsTotalOrder};
ghost use Rattle.std.specs.declared.cmp.Ordering.{Ordering};
ghost use Rattle.std.specs.declared.cmp.Ordering.TheVariants.{Less, Equal, Greater};
ghost use Rattle.cdxj_places.specs.Pair.{pair_of};
ghost use Rattle.cdxj_places.specs.Pairs.{Pair, pair_cmp, place_pair};
ghost use Rattle.cdxj_places.specs.Places.{PlaceValue, IsPlace, place_cmp, resume_place, resume_text};
ghost use Rattle.cdxj_places.specs.PlaceViews.{place_view};
ghost use Rattle.cdxj_places.specs.Rising.{IsIn, IsFirst, Rises, IsLower, rising};

use crate::order::HasPlace;
use crate::place::Place;

/// Places are totally ordered, and two places compare as equal only if they are the same.
#[tactic(auto, using(crate::proofs::PlaceOrder::order_rules))]
pub fn places_are_ordered()
    ensures total { IsTotalOrder place_cmp }
    ensures same { (p q : PlaceValue) → place_cmp p q ≡ Equal → p ≡ q }
{}

/// Pairs are totally ordered, and places of different pairs are ordered as their pairs.
#[tactic(auto, using(crate::proofs::PairLemmas::pair_cmp_total))]
pub fn pairs_are_ordered()
    ensures total { IsTotalOrder pair_cmp }
    ensures lower { (p q : PlaceValue) → pair_cmp (place_pair p) (place_pair q) ≡ Less
        → place_cmp p q ≡ Less }
    ensures higher { (p q : PlaceValue) → pair_cmp (place_pair p) (place_pair q) ≡ Greater
        → place_cmp p q ≡ Greater }
{}

/// The pair that a text begins with is also the pair of each longer text that begins with this
/// text.
pub fn longer_text_has_the_pair()
    ensures { (text rest : List ℕ) → (pair : Pair) → pair_of text ≡ Some pair
        → pair_of (text ++ rest) ≡ Some pair }
{}

/// The resume key of a place is read as that place.
#[tactic(auto, using(crate::proofs::PlaceLaw::resume_text_read))]
pub fn resume_key_is_read()
    ensures { (place : PlaceValue) → IsPlace place → resume_place (resume_text place) ≡ Some place }
{}

/// Shows that bytes are numbers below 256. Nothing else is done.
fn see_bytes(bytes: &[u8])
    ensures { All (λ b. b < 256) bytes.now }
{}

/// A place satisfies the rules of places.
pub fn place_is_good(place: Place<'_>)
    ensures { IsPlace (place_view place.entry) }
{
    see_bytes(place.key.as_bytes());
    see_bytes(place.filename.as_bytes());
}

/// The list that rises by place has exactly the first thing at each place, and is the only rising
/// list with these members. If some things are below all others, it is the list of those things,
/// followed by the list of the others.
#[tactic(auto, using(crate::proofs::PlaceOrder::rising_rules))]
pub fn rising_list_is_unique<T: HasPlace>()
    ensures members { (thing : T) → (things : List T)
        → IsIn thing (rising T.place_of place_cmp things) ↔ IsFirst T.place_of place_cmp thing
        things }
    ensures rises { (things : List T) → Rises T.place_of place_cmp
        (rising T.place_of place_cmp things) }
    ensures unique { (these those : List T) → Rises T.place_of place_cmp these
        → Rises T.place_of place_cmp those
        → ((thing : T) → IsIn thing these ↔ IsIn thing those) → these ≡ those }
    ensures splits { (is_low : T → Bool) → IsLower T.place_of place_cmp is_low → (things : List T)
        → rising T.place_of place_cmp things
        ≡ rising T.place_of place_cmp (filter is_low things)
        ++ rising T.place_of place_cmp (filter (λ thing. not (is_low thing)) things) }
{}

/// Mapping things to their views and then ordering the views by place gives the same list as
/// ordering the things by place and then mapping them.
#[tactic(auto, using(crate::proofs::RisingAlike::rising_referred))]
pub fn rising_list_of_views<X, Y, P>()
    ensures { (view : X → Y) → (place : Y → P) → (cmp : P → P → Ordering) → (things : List X)
        → map view (rising (λ thing. place (view thing)) cmp things)
        ≡ rising place cmp (map view things) }
{}
