//! Laws of the definitions that the contracts cite. These functions do nothing: each law is a
//! contract.
ghost use Rattle.index_core.specs.CallLaws.{AddFaultsAre, AddedEndByFault, FetchFaultsAre};
ghost use Rattle.index_core.specs.CallLaws.{FetchedIsArchive};
ghost use Rattle.index_core.specs.CallLaws.{IndexCountIsOne, InputCountIsOne, InputCountRises};
ghost use Rattle.index_core.specs.CallLaws.{PartIsFront, RefusalsAre, ReportFaultsAre};
ghost use Rattle.index_core.specs.CallLaws.{SoundAreIndexed, WriteCountIsOne, WriteFaultsAre};
ghost use Rattle.index_core.specs.Laws.{AcceptedIsWhole, OneIndexed, OneIndexedTo, CapturesStand};
ghost use Rattle.index_core.specs.Laws.{OneStands, SomeStands, WholeIsNotRefused, WholeStays};
ghost use Rattle.index_core.specs.Laws.{CapturesStay, GrownKeepsCaptures, HaveArchiveName};
ghost use Rattle.index_core.specs.Laws.{PlainIsDamaged, PlainIsWhole};
ghost use Rattle.index_core.specs.FetchingLaws.{LengthAgrees, OffsetAgrees, CapturesAreFetched};
ghost use Rattle.index_core.specs.RecordLaws.{IsReadToFault, IsReadWhole};
ghost use Rattle.index_core.specs.MemberLaws.{MembersArePacked, PackedIsMembers};
ghost use Rattle.index_core.specs.PackedFetching.{PackedCapturesAreFetched, PackedCapturesStand};
ghost use Rattle.index_core.specs.PackedLaws.{MembersAreAccepted, MembersAreRecords};
ghost use Rattle.index_core.specs.PackedLaws.{MembersHaveCaptures};
ghost use Rattle.index_core.specs.Listing.{listing};
ghost use Rattle.index_core.specs.OneText.{IsReport, FetchesOneText, FetchesFront, FetchesAtOneText};
ghost use Rattle.index_core.specs.OneText.{FetchesAtFront, AddsOneList, AddsFirst, WritesOneIndex};
ghost use Rattle.index_core.specs.OneText.{FetchesMemberFront, FetchesMemberOneText, WritesIndexFront};
ghost use Rattle.index_core.specs.Verifying.{verification};

use warc_core::laws::reading_and_spelling;

/// An archive of either form that is accepted whole has one list of captures. So has a plain one
/// that is accepted only up to a fault's offset.
pub fn archive_has_one_list_of_captures()
    ensures whole { OneIndexed }
    ensures part { OneIndexedTo }
{}

/// A plain archive is read as the records that stand one after another in it, each at the offset
/// and of the length that its head says, up to its end or to its damage.
pub fn plain_archive_is_its_records()
    ensures whole { PlainIsWhole }
    ensures damaged { PlainIsDamaged }
{}

/// At each offset of an archive there is exactly one of these: a record's text, no record, or the
/// archive's damage.
#[tactic(auto, using(crate::proofs::OffsetLemmas::one_thing_rules))]
pub fn one_thing_stands_at_an_offset()
    ensures one { OneStands }
    ensures some { SomeStands }
{}

/// At the offset of each capture of an archive, a record stands. It has the capture's length, and
/// the capture is that record's. The archive is accepted whole or up to a fault.
pub fn captures_stand_at_their_offsets()
    ensures { CapturesStand }
{}

/// Both forms of `get` do the same where whole records fill the archive up to the offset, and the
/// record that begins there, if one does, has the length that is passed. Only the form without a
/// length may meet a fault before the offset. For each capture of an archive, both write the text
/// of its record.
pub fn both_forms_of_get_agree()
    ensures length { LengthAgrees }
    ensures offset { OffsetAgrees }
    ensures captures { CapturesAreFetched }
{}

/// An archive that is accepted with captures is accepted whole.
pub fn accepted_archive_is_whole()
    ensures { AcceptedIsWhole }
{}

/// An archive that is accepted whole can only be rejected because memory could not be allocated,
/// its input fails or a key is too long, and never because of damage or a line that is too long.
pub fn accepted_archive_is_not_refused()
    ensures { WholeIsNotRefused }
{}

/// An archive that is accepted whole is accepted whole under higher limits of lines and heads, with
/// the same captures.
#[tactic(auto, using(crate::proofs::LimitLemmas::limit_rules))]
pub fn accepted_archive_stays_accepted()
    ensures whole { WholeStays }
    ensures captures { CapturesStay }
{}

/// An archive to which records or members were appended has the captures that it had, and further
/// ones behind them: what was indexed of it needn't be indexed again.
pub fn grown_archive_keeps_its_captures()
    ensures { GrownKeepsCaptures }
{}

/// An archive of either form is one list of records up to its end, or up to its fault, as it is
/// read. Since reading is a function, it is never both, and always one.
pub fn archive_is_one_list_of_records()
    ensures whole { IsReadWhole }
    ensures fault { IsReadToFault }
{}

/// A compressed archive is exactly a list of members, each of which has no text or is one record.
pub fn packed_archive_is_its_members()
    ensures members { PackedIsMembers }
    ensures packed { MembersArePacked }
{}

/// A compressed archive of a member of each record of a plain one consists of these records, each
/// at its member's place. It has the captures of the plain one, but for their offsets and lengths.
/// It is accepted whole if the plain one is, unless a line becomes too long by the digits of its
/// place.
pub fn packed_records_keep_their_captures()
    ensures records { MembersAreRecords }
    ensures captures { MembersHaveCaptures }
    ensures accepted { MembersAreAccepted }
{}

/// At the offset of each capture of a compressed archive, a member begins that is as long as the
/// capture says. It holds one record, and the capture is that record's. Both forms of `get` write
/// its text there.
pub fn packed_captures_stand_in_members()
    ensures stand { PackedCapturesStand }
    ensures fetched { PackedCapturesAreFetched }
{}

/// The archive decides what `get` and `get_at` return and write, unless a device fails or memory
/// can't be allocated, and except for the part of a damaged record at the offset. After such a
/// failure a prefix of the record was written.
pub fn get_writes_one_text()
    ensures offset { FetchesOneText }
    ensures offset_front { FetchesFront }
    ensures length { FetchesAtOneText }
    ensures length_front { FetchesAtFront }
    ensures member { FetchesMemberOneText }
    ensures member_front { FetchesMemberFront }
{}

/// Unless a device fails or memory can't be allocated, `list` returns and writes the listing of the
/// archive. After such a failure the start of that text was written, and the fault's line. If the
/// output failed, a prefix of this or of the whole text was written.
pub fn list_writes_one_text()
    ensures { IsReport listing }
{}

/// Unless a device fails or memory can't be allocated, `verify` returns and writes the verification
/// of the archive. After such a failure the start of that text was written, and the fault's line.
/// If the output failed, a prefix of this or of the whole text was written.
pub fn verify_writes_one_text()
    ensures { IsReport verification }
{}

/// Captures that the heads of an archive's records give have the archive's name.
pub fn captures_have_their_archives_name()
    ensures { HaveArchiveName }
{}

/// The archive decides which captures an indexer adds, unless the name is refused, the input fails,
/// memory can't be allocated or a key is too long. Then the first of them were added, or none. The
/// captures that are held decide the index that is written. After an error a prefix of it was
/// written.
pub fn index_writes_one_text()
    ensures adds { AddsOneList }
    ensures adds_first { AddsFirst }
    ensures writes { WritesOneIndex }
    ensures writes_front { WritesIndexFront }
{}

/// What `get` writes is itself an archive: of one record, and no more. After a fault it is a front
/// of one, or nothing.
pub fn fetched_record_is_an_archive()
    ensures whole { FetchedIsArchive }
    ensures front { PartIsFront }
{
    reading_and_spelling();
}

/// Over any bytes, the captures that an addition has added before a fault end by the fault's offset.
#[tactic(auto, using(crate::proofs::CallLemmas::added_end))]
pub fn added_captures_end_by_the_fault()
    ensures { AddedEndByFault }
{}

/// The index of the captures that an indexer holds is an index, and has a line for each of them.
pub fn held_captures_have_their_lines()
    ensures { SoundAreIndexed }
{}

/// What a call answers decides the counts of failures of its input and of its output. Only where
/// the output failed, the input may have failed once or not at all. No count falls.
pub fn calls_decide_counts()
    ensures index { IndexCountIsOne }
    ensures output { WriteCountIsOne }
    ensures input { InputCountIsOne }
    ensures rises { InputCountRises }
{}

/// No addition fails in writing or for a record that isn't there, no archive is refused for damage
/// before it is read, no call that fetches or reports refuses a name, and no report misses a
/// record. An index isn't written only for want of memory or where the output failed.
pub fn faults_are_those_of_the_call()
    ensures add { AddFaultsAre }
    ensures refusal { RefusalsAre }
    ensures fetch { FetchFaultsAre }
    ensures report { ReportFaultsAre }
    ensures write { WriteFaultsAre }
{}
