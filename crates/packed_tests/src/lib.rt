//! Tests of compressed archives: their records, the reports on them and their indexes, over members
//! that zlib wrote and blocks that were worked out by hand.
#![tactic(auto)]

#[cfg(test)]
mod answers;
#[cfg(test)]
mod blocks;
mod examples;
#[cfg(test)]
mod faults;
#[cfg(test)]
mod further_members;
#[cfg(test)]
mod indexes;
#[cfg(test)]
mod listings;
#[cfg(test)]
mod long_text;
#[cfg(test)]
mod members;
#[cfg(test)]
mod openings;
#[cfg(test)]
mod records;
#[cfg(test)]
mod verdicts;

pub use crate::examples::literal_archives_are_read;
