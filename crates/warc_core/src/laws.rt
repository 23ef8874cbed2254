//! Laws of the definitions of records, archives and damage that the contracts of this crate cite. These functions do
//! nothing: each law is a contract.
ghost use Rattle.std.specs.Prelude.{ℕ, List};
ghost use Rattle.warc_core.specs.Laws.{ReadIsSpelled, SpelledIsRead, NoPrefix, RecordsAreSpelled, SpelledAreRecords, OneReading, RecordsOrDamage, NoRecordAtDamage, HeadIsSpelled, HeadAtDamage, TextStays, ReadingStays, RecordsStay};

/// A record is read if and only if its text is there: a head, a block of the length that the head gives, and CR LF CR
/// LF.
#[tactic(auto, using(crate::proofs::SpelledLemmas::spelling_rules))]
pub fn reading_and_spelling()
    ensures spelled { ReadIsSpelled }
    ensures read { SpelledIsRead }
{}

/// No record text is a proper prefix of another.
pub fn no_prefix()
    ensures { NoPrefix }
{}

/// An archive is exactly the texts of its records, one after another.
#[tactic(auto, using(crate::proofs::ArchiveLemmas::archive_rules))]
pub fn archive_is_its_records()
    ensures spelled { RecordsAreSpelled }
    ensures read { SpelledAreRecords }
{}

/// An archive has one list of records or one damage, and never both.
#[tactic(auto, using(crate::proofs::WalkLemmas::one_reading_rules))]
pub fn one_reading()
    ensures { (limit : ℕ) (archive : List ℕ) → OneReading limit archive }
{}

/// Every text has records or damage.
pub fn records_or_damage()
    ensures { RecordsOrDamage }
{}

/// No record begins where an archive is damaged.
pub fn no_record_at_damage()
    ensures { NoRecordAtDamage }
{}

/// A head that is read is a head text before its block, even if the record then proves to be damaged.
pub fn head_is_spelled()
    ensures read { HeadIsSpelled }
    ensures damaged { HeadAtDamage }
{}

/// A record stays the same under a higher limit of heads: as a text, as what is read from an archive, and in its
/// archive.
#[tactic(auto, using(crate::proofs::LimitLemmas::limit_rules))]
pub fn record_stays_under_higher_limit()
    ensures text { TextStays }
    ensures read { ReadingStays }
    ensures archive { RecordsStay }
{}
