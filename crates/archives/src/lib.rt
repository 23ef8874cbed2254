//! Archives in either form, read record by record.
//!
//! The definitions begin in `specs/Form.antt`: what comes next at an offset of an archive.
#![tactic(auto)]

mod any_archive;
mod archive;
mod either_archive;
mod failed_archive;
mod looked;
mod member_bounds;
mod member_captures;
mod member_opening;
mod member_reading;
mod member_records;
mod packed_archive;
mod placed_record;
mod plain_archive;
mod walk;

pub use crate::any_archive::{AnyArchive, open};
pub use crate::archive::Archive;
pub use crate::either_archive::EitherArchive;
pub use crate::failed_archive::FailedArchive;
pub use crate::looked::Looked;
pub use crate::member_bounds::cause_of;
pub use crate::member_opening::{Opening, open_begun};
pub use crate::member_reading::Reading;
pub use crate::member_records::{end_fault, end_record};
pub use crate::packed_archive::{PackedArchive, PackedFile};
pub use crate::placed_record::PlacedRecord;
pub use crate::plain_archive::PlainArchive;
pub use capture_core::{
    BlockStart, CaptureFault, Cause, Fault, Head, HeldLine, Input, Place, Types, Verdict,
};
