//! What the definitions say of literal archives. So they are neither too strict nor too lax for
//! these.
ghost use Rattle.packed_tests.specs.Examples.{ArchiveIsRead, PageIsAccepted};

/// Two members in a row are a compressed archive of two records, and have its listing. If the
/// second is cut or isn't a member, there is a fault, and the first stays a record. A record and its
/// member have the same capture, but for the length.
pub fn literal_archives_are_read()
    ensures read { ArchiveIsRead }
    ensures accepted { PageIsAccepted }
{}
