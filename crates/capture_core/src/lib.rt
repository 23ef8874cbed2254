//! What the records of an archive say: captures, and the digests of blocks.
//!
//! The definitions begin in `specs/Capture.antt`: the capture of a record.
#![tactic(auto)]

mod block_parts;
mod capture_parts;
mod closing;
mod entry_line;
mod existence;
mod fault;
mod field_value;
mod held_line;
mod http_head;
mod http_record;
mod laws;
mod mime;
mod payload;
mod payload_digest;
mod place;
mod record_capture;
mod response;
mod status;
mod target;
mod types;
mod utf8_text;

pub use crate::capture_parts::CaptureParts;
pub use crate::existence::record_has_a_capture;
pub use crate::fault::CaptureFault;
pub use crate::held_line::HeldLine;
pub use crate::laws::{block_has_one_head, record_has_one_capture};
pub use crate::place::{Place, plain_place};
pub use crate::record_capture::{BlockStart, capture, held_capture, read_capture};
pub use crate::types::Types;
pub use cdxj_core::{Entry, KeylessEntry, LINE_LIMIT, LineFault, write_line};
pub use warc_core::{
    Cause, DeviceFault, Fault, FromFile, FromRead, HEAD_LIMIT, Head, Input, Kind, Positioned,
    Reader, Slice, SystemFile, Verdict, base32, block_digest,
};
