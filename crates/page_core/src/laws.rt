// Laws of the definitions that the contracts cite. These functions do nothing: each law is a
// contract.
ghost use Rattle.std.specs.Prelude.{ℕ, List, Bool, Option};
ghost use Rattle.cdxj_places.specs.Places.{PlaceValue, place_cmp};
ghost use Rattle.cdxj_places.specs.Rising.{Rises};
ghost use Rattle.cdxj_core.specs.Members.{Member, member_place};
ghost use Rattle.page_core.specs.Pages.{Page, AllPositive};
ghost use Rattle.page_core.specs.PageText.{PageInPieces, BegunIsFront};
ghost use Rattle.page_core.specs.Laws.{PagesJoin, IsOneChain, CollapseResumes};

/// A page is its start, its captures and its end.
#[tactic(auto, using(crate::proofs::PageLemmas::page_in_pieces))]
pub fn page_is_its_pieces()
    ensures { PageInPieces }
{}

/// What is written after some captures is a prefix of each page that begins with them.
#[tactic(auto, using(crate::proofs::PageLemmas::begun_is_front))]
pub fn begun_page_is_front()
    ensures { BegunIsFront }
{}

/// The pages of a chain, one after another, are the part of the list above the place where the
/// chain begins. All pages but the last are full, and the last has no next place. For positive
/// sizes there is one such chain. Collapsing that resumes after one of its captures gives the same
/// later captures.
pub fn pages_join()
    ensures join { (same : PlaceValue → PlaceValue → Bool) (l : List Member)
        (rises : Rises member_place place_cmp l) → PagesJoin same l rises }
    ensures one { (same : PlaceValue → PlaceValue → Bool) (l : List Member)
        (rises : Rises member_place place_cmp l)
        → (p : Option PlaceValue) (sizes : List ℕ) → AllPositive sizes
        → (pages : List (Page Member PlaceValue)) × IsOneChain same l rises p sizes pages }
    ensures resumes { (same : PlaceValue → PlaceValue → Bool) (l : List Member)
        (rises : Rises member_place place_cmp l) → CollapseResumes same l rises }
{}
