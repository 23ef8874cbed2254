//! The entries of the tables.

ghost use Rattle.std.specs.Prelude.{◌≡◌, ℕ, ◌+◌, ◌*◌, ◌/◌, ◌%◌, ◌<◌, length, slice_index, IfOk};
ghost use Rattle.crc_32.specs.Crc.{crc_bit, crc_bits};
ghost use Rattle.crc_32.specs.Tables.{HasEntries};

use crate::slicing::byte_step;
use std::alloc::{AllocError, Global};

/// The number of tables, one for each byte of a block.
pub const TABLES: usize = 16;

/// Returns the register after one bit.
#[tactic(auto, unfolding(crate::specs::Crc::crc_bit))]
fn bit_step(register: u32) -> u32
    ensures { result ≡ crc_bit register }
{
    (register / 2) ^ if register % 2 == 1 { 0xedb8_8320 } else { 0 }
}

/// Returns what a byte leaves in the register.
fn byte_entry(byte: u32) -> u32
    ensures { result ≡ crc_bits 8 byte }
{
    let mut register = byte;
    'bits: for _ in 0..8u32 {
        register = bit_step(register);
    }
    register
}

/// Returns the tables, one behind the other.
pub(crate) fn table_entries(alloc: Global) -> Result<Vec<u32>, AllocError>
    ensures { IfOk result (λ entries. HasEntries entries.items 4096) }
{
    let mut entries = Vec::with_capacity(alloc, 256 * TABLES)?;
    'first: for byte in 0..256 {
        entries.push(byte_entry(byte))?;
    }
    'others: for place in 256..256 * TABLES {
        let entry = byte_step(&entries, entries[place - 256], 0);
        entries.push(entry)?;
    }
    Ok(entries)
}
