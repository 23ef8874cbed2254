//! The records of a WARC file, read from any input (ISO 28500:2017, file and record model).
//!
//! A [`Reader`] takes its input at each call, and returns the records one after another: a [`Head`], the bytes of its
//! block, and the closing. It stops with a [`Fault`] at the first offset where no record stands. [`block_digest`] checks a
//! block against the digest in its head.
//!
//! The definitions begin in `specs/RecordText.antt`: what a record is, as a text.
#![tactic(auto)]

mod block;
mod block_check;
mod closing;
mod digest;
mod digest_text;
mod digest_value;
mod fault;
mod head;
mod head_text;
pub mod laws;
mod next;
mod phase;
mod reader;
mod verdict;

pub use crate::block_check::block_digest;
pub use crate::digest::digest_rest;
pub use crate::digest_text::base32;
pub use crate::digest_value::is_sha1;
pub use crate::fault::{Cause, Fault};
pub use crate::head::Head;
pub use crate::next::HEAD_LIMIT;
pub use crate::phase::Phase;
pub use crate::reader::Reader;
pub use crate::verdict::Verdict;
pub use devices::{
    DeviceFault, FromFile, FromRead, FromWrite, Fuse, Gather, Input, Output, Positioned, Slice,
    SystemFile, put,
};
pub use warc_head::Kind;
