//! The merge of sorted indexes, as they are read.
//!
//! The definitions begin in `specs/Collections.antt`: the collection of several indexes.
#![tactic(auto)]

mod fault;
mod group;
mod indexes;
mod keyed_line;
mod line_buffers;
mod line_queue;
mod line_writer;
mod merging;
mod opening;
mod pair_start;
mod queued_line;
mod range;
mod sink;
mod state;

pub use crate::fault::{FeedFault, MergeFault};
pub use crate::indexes::{MergedLines, merge_indexes};
pub use crate::keyed_line::KeyedLine;
pub use crate::line_buffers::LineBuffers;
pub use crate::line_writer::LineWriter;
pub use crate::merging::merge;
pub use crate::opening::OpenedMerge;
pub use crate::range::{All, Range};
pub use crate::sink::Sink;
pub use crate::state::MergeState;
