//! The JSON object of a line: seven members, which are read from any object, and written.
//!
//! A plain object has them in the order and the spelling of a written line, as texts that stand
//! between their quotes as they are. `specs/Plain.antt` says what it is, and
//! `specs/FoundMembers.antt` what a line takes from any other object.
#![tactic(auto)]

mod found_members;
mod json_values;
mod lanes;
mod member_value;
mod member_values;
mod members;
mod missing;
mod placed;
mod plain;
mod plain_text;
mod printable;
mod span;
mod spelling;
mod tokens;
mod walk;
mod writing;

pub use crate::found_members::FoundMembers;
pub use crate::lanes::{has_stamp, place_of_either};
pub use crate::members::{FRAME, Members};
pub use crate::missing::or_missing;
pub use crate::placed::{Placed, placed_members, walked_members};
pub use crate::plain::BegunMembers;
pub use crate::plain_text::plain_utf8;
pub use crate::printable::printable_length;
pub use crate::span::{Span, texts_at};
pub use crate::spelling::spelled;
pub use crate::writing::{push_object, push_plain_object, push_quoted};
