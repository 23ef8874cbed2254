//! Calls on indexes: their merge, the check of one, the page of a query, all its pages, and the
//! replies to queries.
//!
//! The definitions begin in `specs/Answering.antt`: what a call answers, and what it wrote.
//!
//! A crate that calls this one needs no other: it passes on the types and the definitions that its
//! contracts name.
#![tactic(auto)]

mod answering;
mod checking;
mod collapsing;
mod conversions;
mod fault;
mod laws;
mod merging;
mod page_writer;
mod paging;
mod pass;
mod reply_texts;
mod report;
mod selection;
mod serving;
mod sizes;
mod start;
mod target_range;

pub use crate::answering::answer;
pub use crate::checking::check;
pub use crate::fault::AnswerFault;
pub use crate::laws::{
    absent_targets_cost_a_search, added_indexes_only_add, answer_writes_one_text,
    answers_decide_counts, appended_condition_selects_nothing, captures_stand_in_sources,
    cdxj_pages_are_indexes, checked_texts_are_indexes, conversation_over_indexes_writes_one_text,
    dropped_files_leave_the_rest, faults_leave_a_front, indexes_have_no_line_at_fault,
    limits_are_these, little_is_read_ahead, merge_writes_one_text, merged_lines_are_an_index,
    merges_compose, names_name_fields, pages_are_selected, pages_of_growing_indexes_lose_none,
    pages_rise, pages_write_one_text, queries_in_turn_are_the_chain, refusals_are_these,
    replies_are_told_from_pages, replies_over_indexes_are_one, resume_keys_continue,
    what_is_left_decides_what_was_written,
};
pub use crate::merging::{SOURCES_LIMIT, merge};
pub use crate::paging::pages;
pub use crate::report::Report;
pub use crate::serving::serve;
pub use crate::sizes::are_sizes;
pub use cdxj_core::{Field, LINE_LIMIT, Line, LineFault, LineRef, Place, field_name};
pub use devices::{
    DeviceFault, FromRead, FromWrite, Gather, INPUT_LIMIT, Input, Output, Positioned, Prompt,
    Slice, SystemFile,
};
pub use page_core::{page_is_its_pieces, pages_join};
pub use query_text::{
    Collapse, MatchKind, OutputFormat, QUERY_LIMIT, Query, QueryFault, Target,
    matching_keys_are_in_one_range, resume_key_is_put_into_query,
};
pub use source_core::{FileSource, ReadAt, RememberingSource, SliceSource, Source, SourceFault};
