//! The trailer of a member (RFC 1952, 2.3).
ghost use Rattle.std.specs.Prelude.{◌≡◌, ◌≤◌, ◌<◌, ◌^◌, length, take, drop, OnOk};
ghost use Rattle.deflate_bits.specs.Bits.{little_endian};
ghost use Rattle.gzip_members.specs.Members.{size_in, trailer_in};
ghost use Rattle.gzip_members.specs.Reading.{GivesRest};

use deflate_bits::DeflateFault;

/// The number of bytes of a trailer.
pub(crate) const TRAILER: usize = 8;

/// Returns four bytes as a number, the first the least significant.
fn four(bytes: &[u8]) -> u32
    requires { 4 ≤ length bytes.now }
    ensures { result ≡ little_endian (take 4 bytes.now) }
{
    u32::from_le_bytes([bytes[0], bytes[1], bytes[2], bytes[3]])
}

/// Compares the length at the end of a trailer.
#[tactic(auto, unfolding(crate::specs::Members::size_in))]
fn compare_size(bytes: &[u8], size: u32) -> Result<(), DeflateFault>
    ensures size { GivesRest 4 bytes.now result (size_in size bytes.now) }
    ensures whole { OnOk result (4 ≤ length bytes.now) }
{
    if bytes.len() < 4 {
        Err(DeflateFault::Cut)
    } else if four(bytes) == size {
        Ok(())
    } else {
        Err(DeflateFault::Bad)
    }
}

/// Compares the trailer that begins these bytes with the checksum of the member's text and its
/// length modulo 2^32.
#[tactic(auto, unfolding(crate::specs::Members::trailer_in))]
pub(crate) fn compare_trailer(bytes: &[u8], sum: u32, size: u32) -> Result<(), DeflateFault>
    ensures trailer { GivesRest 8 bytes.now result (trailer_in sum size bytes.now) }
    ensures whole { OnOk result (8 ≤ length bytes.now) }
{
    if bytes.len() < 4 {
        Err(DeflateFault::Cut)
    } else if four(bytes) == sum {
        compare_size(&bytes[4..], size)
    } else {
        Err(DeflateFault::Bad)
    }
}
