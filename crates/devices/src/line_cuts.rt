//! The ends of the lines of an input.
ghost use Rattle.std.specs.Prelude.{◌≡◌, ◌++◌, ◌≤◌, ◌<◌, ◌+◌, length, take, drop, IfOk, MatchOption, ◌∷◌};
ghost use Rattle.devices.specs.LineCuts.{HasNoLineFeed};

use memchr::memchr;
use std::alloc::AllocError;

/// Returns the index of the first line feed, if there is one.
pub(crate) fn find_line_feed(piece: &[u8]) -> Option<usize>
    ensures { MatchOption result (HasNoLineFeed piece.now)
        (λ at. (at < length piece.now) × HasNoLineFeed (take at piece.now)
        × (piece.now ≡ take at piece.now ++ 10 ∷ drop (at + 1) piece.now)) }
{
    memchr(b'\n', piece)
}

/// Appends bytes to a line, of which at most the first `most` bytes are held.
pub(crate) fn hold(line: &mut Vec<u8>, most: usize, bytes: &[u8]) -> Result<(), AllocError>
    requires { length line.old.items ≤ most }
    ensures bytes { IfOk result (λ _. line.new.items ≡ take most (line.old.items ++ bytes.now)) }
    ensures bound { length line.new.items ≤ most }
{
    let room = most - line.len();
    let kept = room.min(bytes.len());
    line.extend_from_slice(&bytes[..kept])?;
    Ok(())
}
