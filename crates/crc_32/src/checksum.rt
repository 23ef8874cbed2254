//! The checksum of a text in pieces.

ghost use Rattle.std.specs.Prelude.{◌≡◌, ◌++◌, List, ℕ};
ghost use Rattle.crc_32.specs.Crc.{crc_32, crc_after};
ghost use Rattle.crc_32.specs.Tables.{HasEntries};

use crate::slicing::register_after;
use crate::table_entries::table_entries;
use std::alloc::{AllocError, Global};

/// The tables of CRC-32, some 16 kB.
#[derive(Drop)]
pub struct Crc32 {
    entries: Vec<u32>,
    ghost tables: { HasEntries entries.items 4096 },
}

impl Crc32 {
    /// Makes the tables. The only error is that memory can't be allocated.
    pub fn new(alloc: Global) -> Result<Self, AllocError> {
        Ok(Crc32 {
            entries: table_entries(alloc)?,
        })
    }

    /// Returns the checksum of a text and of `bytes` behind it. `checksum` is that of the text, and
    /// 0 of an empty one.
    pub fn update(&self, checksum: u32, bytes: &[u8]) -> u32
        ensures after { result ≡ crc_after checksum bytes.now }
        ensures text { (text : List ℕ) → checksum ≡ crc_32 text → result ≡ crc_32 (text ++ bytes.now) }
    {
        register_after(&self.entries, checksum ^ u32::MAX, bytes) ^ u32::MAX
    }
}
