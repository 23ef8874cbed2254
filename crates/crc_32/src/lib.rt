//! The checksum CRC-32, by 16 bytes at a time.
#![tactic(auto)]

mod checksum;
mod slicing;
mod table_entries;

pub use crate::checksum::Crc32;
