//! What the definitions say of small archives, indexes and queries. So none of them says nothing,
//! and none is too strict.
ghost use Rattle.door_examples.specs.Answers.{QueriesHavePages};
ghost use Rattle.door_examples.specs.Archives.{InfoIsRead, PagesAreAccepted};
ghost use Rattle.door_examples.specs.Scans.{TwoAreScannable, TwoAreScanned};
ghost use Rattle.door_examples.specs.Texts.{KeyIsFound, LineIsIndex, QueryIsRead};

use index_core::accepted_archive_is_whole;

/// Archives of one record are read, damaged if they are cut, and accepted with their captures.
pub fn archives_are_read()
    ensures info { InfoIsRead }
    ensures pages { PagesAreAccepted }
{}

/// A URL has its key, an entry its line, and a text its query.
pub fn texts_are_read()
    ensures key { KeyIsFound }
    ensures line { LineIsIndex }
    ensures query { QueryIsRead }
{}

/// Queries have their pages: of a host and of a domain, of a time, with a condition, collapsed, and
/// in json with a key.
pub fn queries_have_pages()
    ensures { QueriesHavePages }
{}

/// The pages of two archives are written. Nothing is at fault, so a scan of them is refused for
/// lack of memory alone.
pub fn archives_are_scanned()
    ensures written { TwoAreScanned }
    ensures premises { TwoAreScannable }
{
    accepted_archive_is_whole();
}
