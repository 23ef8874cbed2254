//! Where lines begin.
ghost use Rattle.std.specs.Prelude.{◌≡◌, ◌+◌, ◌<◌, ◌≤◌, IfOk, IfSome, IfNone, Some};
ghost use Rattle.source_core.specs.Device.{OverText};
ghost use Rattle.source_core.specs.Reads.{ReadsSource};
ghost use Rattle.source_core.specs.IndexLines.{lines, from_line, longest, BeginsFrom, IsAmong};
ghost use Rattle.source_core.specs.Windows.{Holds};

use crate::source::{Source, SourceFault};
use crate::window::{SEARCH_PIECE, Window};
use memchr::memchr;

/// Returns the offset of the first line that begins at the offset `from` or after it, if it begins
/// before `until`. Looks through the bytes from the one before `from` on, and through none if
/// `from` is 0. What the window doesn't hold is read piece by piece.
pub(crate) fn next_line_start<S: Source>(
    source: &mut S,
    window: &mut Window,
    from: u64,
    until: u64,
) -> Result<Option<u64>, SourceFault>
    requires holds { Holds (S.text source.old) (S.extent source.old) window.old }
    requires some { from < until }
    requires inside { until ≤ S.extent source.old }
    ensures source { ReadsSource S.Source result source.old source.new }
    ensures holds { Holds (S.text source.new) (S.extent source.new) window.new }
    ensures among { IfOk result (λ found. IfSome found (IsAmong from until)) }
    ensures later { IfOk result (λ found. IfNone found (0 < from)) }
    ensures line { OverText (S.text source.old) (λ t.
        IfOk result (λ found. IfSome found (BeginsFrom from t))) }
    ensures none { OverText (S.text source.old) (λ t.
        IfOk result (λ found. IfNone found (from_line until t ≡ from_line from t))) }
    ensures gave { OverText (S.text source.old) (λ t.
        S.gave source.new ≤ S.gave source.old + longest (lines t) + 512) }
    ensures bound { S.gave source.new + from ≤ S.gave source.old + until }
{
    if from == 0 {
        return Ok(Some(0));
    }
    // For the proof alone: the source's known bytes are so many.
    let _size = source.size();
    let end = until - 1;
    let mut at = from - 1;
    while at < end {
        let most = SEARCH_PIECE.min((end - at) as usize);
        window.hold(source, at, most)?;
        let held = window.from(at);
        let count = held.len().min((end - at) as usize);
        match memchr(b'\n', &held[..count]) {
            Some(feed) => return Ok(Some(at + feed as u64 + 1)),
            None => at += count as u64,
        }
    }
    Ok(None)
}
