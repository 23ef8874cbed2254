//! The keys, lines and places of CDXJ indexes; docs/CDXJ.md has the rules.
//!
//! The definitions begin in `specs/Lines.antt`: what a line says. `specs/Indexes.antt` says what an
//! index is.
#![tactic(auto)]

mod body;
mod entry;
mod fault;
mod field;
mod front_pair;
mod laws;
mod limit;
mod line;
mod line_ref;
mod printable;
mod spans;
mod writing;

pub use crate::entry::{Entry, KeylessEntry};
pub use crate::fault::LineFault;
pub use crate::field::{Field, field_name, field_named};
pub use crate::laws::{
    index_has_one_list_of_members, key_and_file_name_are_no_longer_than_their_line,
    line_begins_with_its_pair, line_stays_under_higher_limit, long_line_has_no_entry,
    sorted_lines_are_an_index, written_line_is_read, written_lines_are_an_index,
};
pub use crate::limit::LINE_LIMIT;
pub use crate::line::Line;
pub use crate::line_ref::LineRef;
pub use crate::writing::{write_entry, write_line, write_plain_entry};
pub use cdxj_keys::{
    KeyFault, host_key, host_key_begins_key, parsed_url_key, url_key, url_key_with_room,
};
pub use cdxj_objects::{plain_utf8, printable_length, push_quoted};
pub use cdxj_places::{
    HasPlace, LEAST_PAIR, OwnedPlace, Pair, Place, PlaceFault, in_order, is_key, is_stamp,
    longer_text_has_the_pair, pairs_are_ordered, place_is_good, places_are_ordered, read_offset,
    resume_key_is_read, resume_text, rising_list_is_unique, rising_list_of_views, split_pair,
};
