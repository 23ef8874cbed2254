//! The head of a WARC record: its fields, and what the mandatory ones say (ISO 28500:2017, WARC 1.0 and 1.1).
//!
//! The definitions begin in `specs/Parts.antt`: what the text of a head says.
#![tactic(auto)]

mod calendar;
mod continuing;
mod date;
mod fault;
mod field_lines;
mod kind;
mod lanes;
mod laws;
mod length;
mod lines;
mod mandatory;
mod memory;
mod names;
mod occurrence;
mod occurrences;
mod parts;
mod spans;

pub use fault::HeadFault;
pub use kind::Kind;
pub use lanes::{LANES, run_to_closing};
pub use laws::{fields_are_spelled, spelling_reads_back};
pub use lines::trim;
pub use memory::HeadMemory;
pub use parts::{Parts, read_parts, read_usual_parts};
