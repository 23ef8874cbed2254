//! The register after bytes, by tables of what each byte of a block leaves in it.

ghost use Rattle.std.specs.Prelude.{◌≡◌, ◌+◌, ◌*◌, ◌≤◌, bit_xor};
ghost use Rattle.crc_32.specs.Crc.{crc_bits, crc_register};
ghost use Rattle.crc_32.specs.Tables.{HasEntries};

use deflate_bits::word_at;

/// Returns the register after one byte.
#[inline(always)]
pub(crate) fn byte_step(tables: &[u32], register: u32, byte: u8) -> u32
    requires { HasEntries tables.now 256 }
    ensures { result ≡ crc_bits 8 (bit_xor register byte) }
{
    (register / 256) ^ tables[((register ^ byte as u32) % 256) as usize]
}

/// Returns the register after bytes, one at a time.
fn by_bytes(tables: &[u32], register: u32, bytes: &[u8]) -> u32
    requires { HasEntries tables.now 256 }
    ensures { result ≡ crc_register register bytes.now }
{
    let mut crc = register;
    'bytes: for byte in bytes {
        crc = byte_step(tables, crc, *byte);
    }
    crc
}

/// Returns a word's part of the register, with `base` bytes behind it. The parts of its first bytes
/// are added last.
#[inline(always)]
fn word_part(tables: &[u32], word: u64, base: usize) -> u32
    requires tables { HasEntries tables.now 4096 }
    requires base { base ≤ 8 }
    ensures { result ≡ crc_bits (8 * (base + 8)) word }
{
    let w1 = word / 256;
    let w2 = w1 / 256;
    let w3 = w2 / 256;
    let w4 = w3 / 256;
    let w5 = w4 / 256;
    let w6 = w5 / 256;
    let w7 = w6 / 256;
    tables[256 * base + (w7 % 256) as usize]
        ^ tables[256 * (base + 1) + (w6 % 256) as usize]
        ^ tables[256 * (base + 2) + (w5 % 256) as usize]
        ^ tables[256 * (base + 3) + (w4 % 256) as usize]
        ^ tables[256 * (base + 4) + (w3 % 256) as usize]
        ^ tables[256 * (base + 5) + (w2 % 256) as usize]
        ^ tables[256 * (base + 6) + (w1 % 256) as usize]
        ^ tables[256 * (base + 7) + (word % 256) as usize]
}

/// Returns the register after bytes, 16 at a time.
pub(crate) fn register_after(tables: &[u32], register: u32, bytes: &[u8]) -> u32
    requires { HasEntries tables.now 4096 }
    ensures { result ≡ crc_register register bytes.now }
{
    let mut crc = register;
    let mut at = 0;
    'sixteen: while bytes.len() - at >= 16 {
        // The parts are added in this order. Those that wait for the register are the last.
        let second = word_part(tables, word_at(bytes, at + 8), 0);
        let first = word_part(tables, word_at(bytes, at) ^ crc as u64, 8);
        crc = second ^ first;
        at += 16;
    }
    by_bytes(tables, crc, &bytes[at..])
}
