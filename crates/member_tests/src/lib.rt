//! Tests of the members of compressed files: what no clause states, and bytes worked out by hand.
#![tactic(auto)]

mod examples;
#[cfg(test)]
mod members;

pub use crate::examples::literal_members_are_read;
