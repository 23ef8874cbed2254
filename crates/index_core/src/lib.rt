//! Archives to indexes, reports on archives, and records by their offsets; docs/COMMANDS.md has the
//! lines of reports.
//!
//! The definitions begin in `specs/Accepted.antt`: the captures of an archive.
#![tactic(auto)]

mod captures;
mod copying;
mod fault;
mod fetch;
mod fetch_either;
mod fetch_failed;
mod fetch_packed;
mod fetching;
mod index_lines;
mod indexer;
mod laws;
mod lines;
mod listing;
mod member_fetching;
mod names;
mod verified;
mod verifying;
mod walk;
mod writing;

pub use crate::fault::IndexFault;
pub use crate::fetch::Fetch;
pub use crate::indexer::Indexer;
pub use crate::laws::{
    accepted_archive_is_not_refused, accepted_archive_is_whole, accepted_archive_stays_accepted,
    added_captures_end_by_the_fault, archive_has_one_list_of_captures,
    archive_is_one_list_of_records, both_forms_of_get_agree, calls_decide_counts,
    captures_have_their_archives_name, captures_stand_at_their_offsets,
    faults_are_those_of_the_call, fetched_record_is_an_archive, get_writes_one_text,
    grown_archive_keeps_its_captures, held_captures_have_their_lines, index_writes_one_text,
    list_writes_one_text, one_thing_stands_at_an_offset, packed_archive_is_its_members,
    packed_captures_stand_in_members, packed_records_keep_their_captures,
    plain_archive_is_its_records, verify_writes_one_text,
};
pub use crate::listing::list;
pub use crate::verified::Verified;
pub use crate::verifying::verify;
pub use archives::{
    AnyArchive, Archive, EitherArchive, FailedArchive, Looked, PackedArchive, PlacedRecord,
    PlainArchive, open,
};
pub use capture_core::{CaptureFault, Types, Verdict};
pub use cdxj_core::LINE_LIMIT;
pub use warc_core::{
    Cause, DeviceFault, Fault, FromFile, FromRead, FromWrite, Gather, HEAD_LIMIT, Input, Output,
    Positioned, Slice, SystemFile,
};
