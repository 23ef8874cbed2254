//! Sources that remember lines at which searches have looked.
ghost use Rattle.std.specs.Prelude.{◌≡◌, ◌+◌, ◌<◌, ℕ, Option, List, IfSome};
ghost use Rattle.source_core.specs.Remembered.{AreKept, IsKnown};
ghost use Rattle.source_core.specs.Windows.{AreBytesAt};

use crate::known_line::{KnownLine, NOTHING};
use crate::line_part::line_part;
use crate::source::{Source, SourceFault};
use crate::window::SEARCH_PIECE;
use memchr::memchr;
use std::alloc::Global;
use std::marker::Model;

/// The maximum number of lines. Twice as many would save one more read of a search.
const LINES_LIMIT: usize = 8192;

/// The least number of bytes of room for a line. More may be kept of a line, and then of fewer.
const LINE_ROOM: usize = 64;

/// The bytes after a key that make it a pair: a space, a stamp and a space.
const AFTER_KEY: usize = 16;

/// Returns as many places for lines, or none if memory is refused.
fn places(alloc: Global, count: usize) -> Vec<KnownLine>
    ensures { (text : Option (List ℕ)) → (fronts : List ℕ) → AreKept text fronts result.items }
{
    let mut lines = Vec::new(alloc);
    let _ = lines.resize(count, NOTHING);
    lines
}

/// Returns where the first line begins behind the first line feed of the bytes that were read at
/// the offset `at`, and its first bytes, up to the end of its pair.
fn line_in(at: u64, bytes: &[u8]) -> Option<(u64, &[u8])>
    ensures { (text : Option (List ℕ)) → (extent : ℕ) → AreBytesAt text extent at bytes.now
        → IfSome result (λ line. IsKnown text (at + 1) line.0 line.1.now) }
{
    let feed = memchr(b'\n', bytes)?;
    let rest = &bytes[feed + 1..];
    let key = memchr(b' ', rest)?;
    let front = &rest[..rest.len().min(key + AFTER_KEY)];
    let (length, _ends) = line_part(front);
    let offset = at.checked_add(feed as u64 + 1)?;
    Some((offset, &front[..length]))
}

/// Keeps what is known of a line, if its place is free, there is room, and memory isn't refused.
fn keep(
    lines: &mut Vec<KnownLine>,
    fronts: &mut Vec<u8>,
    place: usize,
    room: usize,
    from: u64,
    offset: u64,
    front: &[u8],
)
    ensures { (text : Option (List ℕ)) → AreKept text fronts.old.items lines.old.items
        → IsKnown text from offset front.now → AreKept text fronts.new.items lines.new.items }
{
    if place >= lines.len() || lines[place].length > 0 || front.len() > room {
        return;
    }
    let start = fronts.len();
    if fronts.extend_from_slice(front).is_ok() {
        lines[place] = KnownLine {
            from,
            offset,
            start,
            length: front.len(),
        };
    }
}

/// A source that remembers lines of another one at which searches have looked, as far as they
/// needed them.
///
/// The first steps of all searches look at the same lines. So once there were some searches, the
/// next ones read nothing for these steps.
#[derive(Drop)]
pub struct RememberingSource<S: Source + Drop> {
    source: S,
    lines: Vec<KnownLine>,
    /// The first bytes of the lines.
    fronts: Vec<u8>,
    /// The most that `fronts` may hold.
    room: usize,
    /// How far offsets are apart whose lines are beside each other.
    distance: u64,
}

impl<S: Source + Drop> Model for RememberingSource<S> {
    ghost use Rattle.std.specs.Prelude.{◌<◌};
    ghost use Rattle.source_core.specs.Remembered.{AreKept};
    ghost use Rattle.source_core.specs.Sources.{SourceState};

    ghost Value = { SourceState };

    ghost view = { λ r. record {
      text = S.text r.source;
      extent = S.extent r.source;
      failures = S.failures r.source;
      gave = S.gave r.source;
    } };

    ghost invariant = { λ r. (0 < r.distance)
        × AreKept (S.text r.source) r.fronts.items r.lines.items };
}

impl<S: Source + Drop> RememberingSource<S> {
    /// Creates a source that remembers at most `room` bytes of this one.
    pub fn new(alloc: Global, source: S, room: usize) -> RememberingSource<S>
        ensures text { result.text ≡ S.text source }
        ensures extent { result.extent ≡ S.extent source }
        ensures failures { result.failures ≡ S.failures source }
        ensures gave { result.gave ≡ S.gave source }
    {
        let count = LINES_LIMIT.min(room / LINE_ROOM);
        let distance = source.size() / (count.max(1) as u64) + 1;
        RememberingSource {
            source,
            lines: places(alloc, count),
            fronts: Vec::new(alloc),
            room,
            distance,
        }
    }
}

/// Returns the number of the place of the line that is the first from an offset on.
fn place_of(from: u64, distance: u64) -> usize
    requires { 0 < distance }
{
    (from.saturating_add(distance / 2) / distance) as usize
}

impl<S: Source + Drop> Source for RememberingSource<S> {
    ghost text = { λ r. r.text };

    ghost extent = { λ r. r.extent };

    ghost failures = { λ r. r.failures };

    ghost gave = { λ r. r.gave };

    fn size(&self) -> u64 {
        self.source.size()
    }

    fn read_at(&mut self, at: u64, piece: &mut [u8]) -> Result<usize, SourceFault> {
        // For the proof alone: a byte was read below the size.
        let _size = self.source.size();
        let count = self.source.read_at(at, piece)?;
        if count == 0 || count > SEARCH_PIECE {
            return Ok(count);
        }
        let Some((offset, front)) = line_in(at, &piece[..count]) else {
            return Ok(count);
        };
        let from = at + 1;
        let place = place_of(from, self.distance);
        let room = self.room.saturating_sub(self.fronts.len());
        keep(
            &mut self.lines,
            &mut self.fronts,
            place,
            room,
            from,
            offset,
            front,
        );
        Ok(count)
    }

    fn known_line(&self, from: u64) -> Option<(u64, &[u8])> {
        let line = self.lines.get(place_of(from, self.distance))?;
        if line.from != from || line.length == 0 {
            return None;
        }
        Some((
            line.offset,
            &self.fronts[line.start..line.start + line.length],
        ))
    }
}
