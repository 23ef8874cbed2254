//! The members of a compressed file (RFC 1952).
#![tactic(auto)]

mod body;
mod checked_input;
mod fault;
mod header;
mod laws;
mod member_text;
mod members;
mod read_ahead;
mod starts;
mod trailer;
mod window;

pub use crate::body::{Body, Stage};
pub use crate::checked_input::CheckedInput;
pub use crate::fault::MemberFault;
pub use crate::laws::{
    bytes_behind_a_member_stay_behind, file_is_one_list_of_members,
    members_are_read_from_their_own_bytes, no_member_begins_another,
};
pub use crate::member_text::{MemberText, Outcome};
pub use crate::members::Members;
pub use crate::read_ahead::ReadAhead;
pub use crate::window::Window;
