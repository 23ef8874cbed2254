//! Laws of the definitions that the contracts cite. These functions do nothing: each law is a
//! contract.
ghost use Rattle.std.specs.Prelude.{◌≡◌};
ghost use Rattle.capture_core.specs.CaptureAnswer.{usual_limits};
ghost use Rattle.warc_core.specs.declared.next.TheConstants.{HEAD_LIMIT};
ghost use Rattle.scan_core.specs.CaptureLaws.{CapturesAreNamed, CapturesHaveLines};
ghost use Rattle.scan_core.specs.CaptureLaws.{CapturesHavePlaces, NoneIsLeftOut};
ghost use Rattle.scan_core.specs.FaultLaws.{BadNamesAreFirst, BadSizesAreFirst, FirstFaultIsOne};
ghost use Rattle.scan_core.specs.FaultLaws.{NameFaultIsOne};
ghost use Rattle.scan_core.specs.Laws.{IndexIsMerge, OnlyMemoryIsWanting, RemovedIsDropped, ScanIsOne};
ghost use Rattle.scan_core.specs.Laws.{LaterAreUnread, PackedSelectedAreFetched};
ghost use Rattle.scan_core.specs.Laws.{RefusedReadsNothing, ScanCountsAreOne, ScanHasFront};
ghost use Rattle.scan_core.specs.Laws.{ScanIsOverIndex, SelectedAreFetched, WantIsNoDamage};
ghost use Rattle.scan_core.specs.Laws.{WantIsNoFailure, WantIsNoRefusal};

use index_core::{
    accepted_archive_is_not_refused, accepted_archive_is_whole, archive_has_one_list_of_captures,
    both_forms_of_get_agree, packed_captures_stand_in_members,
};

/// A scan of archives that are accepted whole, with distinct names, good sizes and a good query,
/// over inputs whose bytes are known and devices that don't fail, is refused only for lack of
/// memory, or for a key that is too long.
pub fn accepted_archives_are_scanned()
    ensures { OnlyMemoryIsWanting }
{
    accepted_archive_is_not_refused();
}

/// Neither damage of an archive nor a refused query nor a failed output is want of room.
pub fn want_of_room_is_no_damage()
    ensures damage { WantIsNoDamage }
    ensures query { WantIsNoRefusal }
    ensures answer { WantIsNoFailure }
{}

/// The index of several archives is the merge of the archives' indexes, byte for byte.
#[tactic(auto, using(crate::proofs::ScanLemmas::index_is_merge))]
pub fn index_of_archives_is_merge()
    ensures { IndexIsMerge }
{}

/// The index of several archives without the lines of an archive's file name is the index of the
/// other archives, if each has a file name of its own.
#[tactic(auto, using(crate::proofs::DropLemmas::removed_is_dropped))]
pub fn removed_archive_is_dropped()
    ensures { RemovedIsDropped }
{}

/// What a query selects of the index of an archive can be fetched. At the offset of the line stands
/// a record of a plain archive, or a member with a record of a compressed one, that is as long as
/// the line says. Both forms of `get` write that record.
pub fn selected_records_are_fetched()
    ensures plain { SelectedAreFetched }
    ensures packed { PackedSelectedAreFetched }
{
    both_forms_of_get_agree();
    packed_captures_stand_in_members();
}

/// The pages of a scan are those of the index of all its archives: `scan` writes what `index` and
/// `pages` write.
#[tactic(auto, using(crate::proofs::ScanLemmas::scan_is_over_index))]
pub fn scan_is_index_and_pages()
    ensures { ScanIsOverIndex }
{}

/// Over archives and an output whose bytes are known, there is one text that a scan that succeeds
/// writes, and one number of pages.
pub fn scan_writes_one_text()
    ensures { ScanIsOne }
{
    archive_has_one_list_of_captures();
}

/// Over archives and an output whose bytes are known, a scan that fails after it has begun to write
/// has written a front of what one that succeeds writes.
pub fn faults_of_scans_leave_a_front()
    ensures { ScanHasFront }
{
    archive_has_one_list_of_captures();
}

/// What a scan answers decides the count of failures of each input, and of the output.
pub fn scans_decide_counts()
    ensures { ScanCountsAreOne }
{}

/// A scan that is refused for its query, its sizes or the number of archives has read none of them.
/// One that ends at an archive has read none of those behind it.
#[tactic(auto, unfolding(crate::specs::Scanning::LeavesUnread))]
pub fn refused_scans_leave_archives_unread()
    ensures refused { RefusedReadsNothing }
    ensures later { LaterAreUnread }
{}

/// Each capture that a scan goes over has its archive's name, a line, and a place of its own, so
/// none is left out as one that was there before.
#[tactic(auto, using(crate::proofs::CaptureLemmas::all_named, crate::proofs::CaptureLemmas::all_have_lines))]
pub fn captures_of_archives_are_told_apart()
    ensures named { CapturesAreNamed }
    ensures lines { CapturesHaveLines }
    ensures places { CapturesHavePlaces }
    ensures each { NoneIsLeftOut }
{}

/// A scan says that its sizes are bad before it says anything else that keeps it from writing. Of
/// an archive it says first that its name is bad, or that an earlier one has it, and never both.
#[tactic(auto, unfolding(crate::specs::Scanning::IsScanFault))]
pub fn bad_sizes_and_names_are_said_first()
    ensures sizes { BadSizesAreFirst }
    ensures names { BadNamesAreFirst }
    ensures one { NameFaultIsOne }
{}

/// Of archives whose bytes are known, one is the first that is damaged, has a line that is too
/// long, or has a name that is refused.
pub fn first_archive_at_fault_is_one()
    ensures { FirstFaultIsOne }
{
    accepted_archive_is_whole();
    accepted_archive_is_not_refused();
}

/// The limits of archives, as numbers: the bytes of a head, of the line of a capture and of an HTTP
/// head, and the fields of an HTTP head.
pub fn limits_of_archives_are_these()
    ensures head { HEAD_LIMIT ≡ 1048576 }
    ensures line { usual_limits.line ≡ 16777216 }
    ensures http_head { usual_limits.http_head ≡ 65536 }
    ensures http_fields { usual_limits.http_fields ≡ 256 }
{}
