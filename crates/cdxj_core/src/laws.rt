//! Laws of the definitions that the contracts cite. These functions do nothing: each law is a
//! contract.
ghost use Rattle.std.specs.Prelude.{◌≡◌, ◌≤◌, ◌<◌, ◌++◌, ℕ, List, None, Some, length, map};
ghost use Rattle.std.specs.Prelude.{flat_map};
ghost use Rattle.std.specs.List.{AllByRecursion};
ghost use Rattle.std.specs.Cmp.Lexicographic.{slice_cmp};
ghost use Rattle.std.specs.Ordering.{nat_cmp};
ghost use Rattle.cdxj_places.specs.Pair.{pair_of};
ghost use Rattle.cdxj_places.specs.Pairs.{pair_cmp};
ghost use Rattle.cdxj_places.specs.Places.{place_cmp};
ghost use Rattle.cdxj_places.specs.Rising.{Rises, NeverFalls};
ghost use Rattle.cdxj_places.specs.TextLines.{lines};
ghost use Rattle.cdxj_core.specs.Entries.{EntryValue, HasLine, entry_pair, entry_place, line_text};
ghost use Rattle.cdxj_core.specs.Lines.{body_of};
ghost use Rattle.cdxj_core.specs.Members.{Member, entry_member, line_entry, member_pair};
ghost use Rattle.cdxj_core.specs.Indexes.{IsIndex};

/// The line of a good entry is read as that entry, if it is within the limit.
#[tactic(auto, using(crate::proofs::MemberLemmas::written_entry))]
pub fn written_line_is_read()
    ensures { (limit : ℕ) → (entry : EntryValue) → HasLine limit entry
        → line_entry limit (line_text entry) ≡ Some (entry_member entry) }
{}

/// A line keeps its entry under a higher limit, and an index keeps its members.
pub fn line_stays_under_higher_limit()
    ensures line { (low high : ℕ) → low ≤ high → (line : List ℕ) → (member : Member)
        → line_entry low line ≡ Some member → line_entry high line ≡ Some member }
    ensures index { (low high : ℕ) → low ≤ high → (text : List ℕ) → (members : List Member)
        → IsIndex low text members → IsIndex high text members }
{}

/// A line that is too long has no entry.
#[tactic(auto, using(crate::proofs::MemberLemmas::long_line_none))]
pub fn long_line_has_no_entry()
    ensures { (limit : ℕ) → (line : List ℕ) → limit ≤ length (body_of line)
        → line_entry limit line ≡ None }
{}

/// A line that has an entry begins with the entry's pair.
pub fn line_begins_with_its_pair()
    ensures { (limit : ℕ) → (line : List ℕ) → (member : Member)
        → line_entry limit line ≡ Some member → pair_of line ≡ Some (member_pair member) }
{}

/// The key of a line is shorter than the line without its line feed, and the file name is no longer
/// than that.
#[tactic(auto, using(crate::proofs::FilenameLength::short_rules))]
pub fn key_and_file_name_are_no_longer_than_their_line()
    ensures key { (limit : ℕ) → (line : List ℕ) → (member : Member)
        → line_entry limit line ≡ Some member → length member.values.key < length member.line }
    ensures filename { (limit : ℕ) → (line : List ℕ) → (member : Member)
        → line_entry limit line ≡ Some member → length member.values.filename ≤ length member.line }
{}

/// The lines of good entries are an index with their members, if their pairs never fall, and so
/// also if their places rise.
#[tactic(auto, using(crate::proofs::IndexLemmas::index_rules))]
pub fn written_lines_are_an_index()
    ensures pairs { (limit : ℕ) → (entries : List EntryValue)
        → AllByRecursion (HasLine limit) entries
        → NeverFalls entry_pair pair_cmp entries
        → IsIndex limit (flat_map line_text entries) (map entry_member entries) }
    ensures places { (limit : ℕ) → (entries : List EntryValue)
        → AllByRecursion (HasLine limit) entries
        → Rises entry_place place_cmp entries
        → IsIndex limit (flat_map line_text entries) (map entry_member entries) }
{}

/// A text whose lines all have entries, in the order of their bytes, is an index: so is what
/// `LC_ALL=C sort` makes of such lines.
#[tactic(auto, using(crate::proofs::SortedLines::sorted_index))]
pub fn sorted_lines_are_an_index()
    ensures { (limit : ℕ) → (text : List ℕ) → (members : List Member)
        → map (line_entry limit) (lines text) ≡ map Some members
        → NeverFalls body_of (slice_cmp nat_cmp) (lines text) → IsIndex limit text members }
{}

/// An index has one list of members.
#[tactic(auto, using(crate::proofs::IndexLemmas::one_index))]
pub fn index_has_one_list_of_members()
    ensures { (limit : ℕ) → (text : List ℕ) → (these those : List Member)
        → IsIndex limit text these → IsIndex limit text those → these ≡ those }
{}
