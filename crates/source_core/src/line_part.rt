//! Where a line ends in a piece of it.
ghost use Rattle.std.specs.Prelude.{◌<◌, ◌≤◌, length};
ghost use Rattle.source_core.specs.LineParts.{PartOf};

use memchr::memchr;

/// Returns how many bytes of a piece belong to its first line, and whether that line ends with a
/// line feed in the piece.
pub(crate) fn line_part(piece: &[u8]) -> (usize, bool)
    ensures within { result.0 ≤ length piece.now }
    ensures some { 0 < length piece.now → 0 < result.0 }
    ensures part { PartOf piece.now result.0 result.1 }
{
    match memchr(b'\n', piece) {
        Some(at) => (at + 1, true),
        None => (piece.len(), false),
    }
}
