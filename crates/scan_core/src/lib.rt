//! Queries over archives, without an index on disk.
//!
//! The definitions begin in `specs/Scanning.antt`: which pages a scan writes.
#![tactic(auto)]

mod fault;
mod indexing;
mod laws;
mod named;
mod scanning;

pub use crate::fault::ScanFault;
pub use crate::laws::{
    accepted_archives_are_scanned, bad_sizes_and_names_are_said_first,
    captures_of_archives_are_told_apart, faults_of_scans_leave_a_front,
    first_archive_at_fault_is_one, index_of_archives_is_merge, limits_of_archives_are_these,
    refused_scans_leave_archives_unread, removed_archive_is_dropped, scan_is_index_and_pages,
    scan_writes_one_text, scans_decide_counts, selected_records_are_fetched,
    want_of_room_is_no_damage,
};
pub use crate::named::Named;
pub use crate::scanning::scan;
pub use capture_core::{CaptureFault, Types};
pub use index_core::{Archive, IndexFault, PlainArchive};
pub use query_core::{
    AnswerFault, QUERY_LIMIT, QueryFault, SOURCES_LIMIT, are_sizes, resume_keys_continue,
};
pub use warc_core::{
    Cause, DeviceFault, Fault, FromFile, FromRead, FromWrite, Gather, Input, Output, Positioned,
    Slice, SystemFile,
};
