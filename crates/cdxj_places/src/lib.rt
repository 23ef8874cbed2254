//! The places of captures in an index: their order, their resume keys, and the pair that a line
//! begins with.
//!
//! The definitions begin in `specs/Places.antt`: what a place is, and the order of places.
#![tactic(auto)]

mod abbreviation;
mod cuts;
mod fault;
mod key_and_stamp;
mod laws;
mod offset;
mod order;
mod owned_place;
mod pair;
mod place;
mod resume;

pub use crate::abbreviation::abbreviated;
pub use crate::cuts::{cut_first, cut_last};
pub use crate::fault::PlaceFault;
pub use crate::key_and_stamp::{has_digits, is_key, is_stamp};
pub use crate::laws::{
    longer_text_has_the_pair, pairs_are_ordered, place_is_good, places_are_ordered,
    resume_key_is_read, rising_list_is_unique, rising_list_of_views,
};
pub use crate::offset::read_offset;
pub use crate::order::{HasPlace, Row, in_order, rows_in_order, sort_by_place};
pub use crate::owned_place::OwnedPlace;
pub use crate::pair::{LEAST_PAIR, Pair, split_pair};
pub use crate::place::Place;
pub use crate::resume::resume_text;
