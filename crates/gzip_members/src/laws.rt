//! Laws of members. These functions do nothing: each law is a contract.

ghost use Rattle.std.specs.Prelude.{◌≡◌, ◌≢◌, ◌<◌, ℕ, true, ◌++◌, List, [], length, Result, Ok, Err};
ghost use Rattle.inflate.specs.Laws.{followed};
ghost use Rattle.gzip_members.specs.Members.{member_in};
ghost use Rattle.gzip_members.specs.Laws.{Begins, IsMember, IsOfMembers};
ghost use Rattle.gzip_members.specs.Starts.{begins_member};

use deflate_bits::DeflateFault;

/// What was read of a member stays with more bytes behind it, and what is refused is refused. Only
/// a member that is cut changes.
pub fn bytes_behind_a_member_stay_behind()
    ensures { (bytes more : List ℕ) → member_in bytes ≢ Err DeflateFault.Cut
        → member_in (bytes ++ more) ≡ followed more (member_in bytes) }
{}

/// A member is read from its own bytes alone. They are the member, whatever is behind them.
pub fn members_are_read_from_their_own_bytes()
    ensures own { (bytes text behind : List ℕ) → begins_member bytes ≡ Ok true
        → member_in bytes ≡ Ok (text, behind)
        → (own : List ℕ) × (bytes ≡ own ++ behind) × IsMember own text }
    ensures others { (own more text : List ℕ) → IsMember own text
        → member_in (own ++ more) ≡ Ok (text, more) }
{}

/// No member begins another, whatever is behind them: if both begin with the same bytes, they are
/// the same, and have the same text. A part of a member is a member that is cut.
pub fn no_member_begins_another()
    ensures offset { (own more behind rest text other : List ℕ) → Begins (own ++ behind) text behind
        → Begins ((own ++ more) ++ rest) other rest → (more ≡ []) × (other ≡ text) }
    ensures one { (bytes more text other : List ℕ) → IsMember bytes text
        → IsMember (bytes ++ more) other → (more ≡ []) × (other ≡ text) }
    ensures part { (bytes more text : List ℕ) → 0 < length more → IsMember (bytes ++ more) text
        → member_in bytes ≡ Err DeflateFault.Cut }
{}

/// A file is one list of members, up to where no more begins: its end, other bytes, or a member at
/// fault.
pub fn file_is_one_list_of_members()
    ensures one { (file : List ℕ) (members others : List (List ℕ)) (rest more : List ℕ)
        → IsOfMembers file members rest → IsOfMembers file others more
        → (members ≡ others) × (rest ≡ more) }
    ensures some { (file : List ℕ) → (members : List (List ℕ)) × (rest : List ℕ)
        × IsOfMembers file members rest }
{}
