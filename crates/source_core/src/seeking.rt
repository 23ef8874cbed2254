//! The binary search for the line where the reading of an index begins.
ghost use Rattle.std.specs.Prelude.{◌≡◌, ◌+◌, ◌-◌, ◌*◌, ◌<◌, ◌≤◌, ℕ, Option, List, length, drop};
ghost use Rattle.std.specs.Prelude.{false, IfOk, OnOk, OnErr, IfSome, IfNone, Some};
ghost use Rattle.source_core.specs.Device.{OverText};
ghost use Rattle.cdxj_core.specs.declared.limit.TheConstants.{LINE_LIMIT};
ghost use Rattle.cdxj_core.specs.Indexes.{IsIndex};
ghost use Rattle.cdxj_core.specs.Members.{Member};
ghost use Rattle.cdxj_places.specs.Pairs.{IsLeast};
ghost use Rattle.cdxj_places.specs.PairViews.{pair_view};
ghost use Rattle.source_core.specs.IndexLines.{lines, from_line, longest, BeginsFrom, IsAmong};
ghost use Rattle.source_core.specs.Reads.{BeginsIn};
ghost use Rattle.source_core.specs.Search.{line_below, IsStop, IsCut, SearchesOver, SearchesSource};
ghost use Rattle.source_core.specs.Halving.{stops, stops_lines, digits};
ghost use Rattle.source_core.specs.Halved.{Halved};
ghost use Rattle.source_core.specs.LineParts.{BeginsWith, FrontGrows, IsFront, ReadsOn};
ghost use Rattle.source_core.specs.Windows.{Holds};

use crate::cursor::Cursor;
use crate::fault::SearchFault;
use crate::line_part::line_part;
use crate::line_start::next_line_start;
use crate::source::Source;
use crate::start_pair::{front_is_below, is_least};
use crate::window::{SEARCH_PIECE, Window};
use cdxj_core::{LINE_LIMIT, Pair};
use devices::PIECE;
use std::alloc::{AllocError, Global};

/// How many offsets are few: a piece of [`PIECE`] bytes holds them, and 512 bytes of a line that
/// begins at the last.
const FEW: u64 = 7680;

/// The result of a search.
#[derive(Drop)]
pub struct Found {
    /// Stands at the line found, or at the source's end if there is none. It holds what the search
    /// has read there.
    pub cursor: Cursor,
    /// The number of steps of the search.
    pub probes: u64,
}

/// Copies the bytes that the window holds of the line that begins at the offset into `front`, whose
/// previous bytes are dropped. Returns `true` if the line ends with them.
fn held_front(window: &Window, offset: u64, front: &mut Vec<u8>) -> Result<bool, AllocError>
    ensures { (text : Option (List ℕ)) → (extent : ℕ) → Holds text extent window.now
        → offset ≤ extent → IfOk result (IsFront text extent offset front.new.items) }
{
    let held = window.from(offset);
    let (length, ends) = line_part(held);
    front.clear();
    front.extend_from_slice(&held[..length])?;
    Ok(ends)
}

/// Reads more of the line that begins at the offset, at most `most` bytes; its first bytes are in
/// `front`. Returns whether the line ends with the bytes in `front`.
fn read_on<S: Source>(
    source: &mut S,
    window: &mut Window,
    offset: u64,
    front: &mut Vec<u8>,
    most: usize,
) -> Result<bool, SearchFault>
    requires some { 0 < most }
    requires room { most ≤ 8192 }
    requires inside { offset + length front.old.items < S.extent source.old }
    ensures source { SearchesOver S.Source result source.old source.new window.new }
    ensures grows { OnOk result (FrontGrows (S.extent source.old) offset
        (length front.old.items + most) front.old.items front.new.items) }
    ensures reads { OverText (S.text source.old) (λ t. BeginsWith t offset front.old.items
        → IfOk result (λ ends. ReadsOn t offset front.new.items ends)) }
    ensures gave { S.gave source.new ≤ S.gave source.old + most }
    ensures held { IfOk result (λ ends. ends ≡ false
        → S.gave source.new + length front.old.items ≤ S.gave source.old + length front.new.items) }
{
    // For the proof alone: the source's known bytes are so many.
    let _size = source.size();
    let at = offset + front.len() as u64;
    window.read(source, at, most)?;
    let held = window.from(at);
    let (length, ends) = line_part(held);
    front.extend_from_slice(&held[..length])?;
    Ok(ends)
}

/// Reads more of the line that begins at the offset, until `front` holds `wanted` of its bytes, or
/// the line or the source ends. Returns `true` if the line ends with the bytes in `front`.
#[tactic(auto, using(crate::proofs::LongestLines::front_most))]
fn read_to<S: Source>(
    source: &mut S,
    window: &mut Window,
    offset: u64,
    front: &mut Vec<u8>,
    wanted: usize,
) -> Result<bool, SearchFault>
    requires holds { Holds (S.text source.old) (S.extent source.old) window.old }
    requires inside { offset + length front.old.items < S.extent source.old }
    requires more { length front.old.items < wanted }
    ensures source { SearchesOver S.Source result source.old source.new window.new }
    ensures grows { OnOk result (FrontGrows (S.extent source.old) offset wanted
        front.old.items front.new.items) }
    ensures reads { OverText (S.text source.old) (λ t. BeginsWith t offset front.old.items
        → IfOk result (λ ends. ReadsOn t offset front.new.items ends)) }
    ensures gave { OverText (S.text source.old) (λ t. BeginsWith t offset front.old.items
        → S.gave source.new + length front.old.items ≤ S.gave source.old + longest (lines t)
        + 512) }
    ensures bound { S.gave source.new + length front.old.items ≤ S.gave source.old + wanted }
    ensures held { IfOk result (λ ends. ends ≡ false
        → S.gave source.new + length front.old.items ≤ S.gave source.old + length front.new.items) }
{
    let size = source.size();
    while front.len() < wanted && offset + (front.len() as u64) < size {
        let most = SEARCH_PIECE.min(wanted - front.len());
        let ends = read_on(source, window, offset, front, most)?;
        if ends {
            return Ok(true);
        }
    }
    Ok(false)
}

/// Returns `true` if the line that begins at the offset isn't below the pair, or the text ends
/// there. Looks at its first [`LINE_LIMIT`] bytes at most; a line that shows no pair in them isn't
/// below.
///
/// It looks first at what the window holds of the line. Each comparison begins at the line's start,
/// so twice as many bytes are read before the next one.
fn stops_at<S: Source>(
    source: &mut S,
    window: &mut Window,
    offset: u64,
    front: &mut Vec<u8>,
    start: Pair<'_>,
) -> Result<bool, SearchFault>
    requires holds { Holds (S.text source.old) (S.extent source.old) window.old }
    requires inside { offset ≤ S.extent source.old }
    ensures source { SearchesOver S.Source result source.old source.new window.new }
    ensures stops { OverText (S.text source.old) (λ t.
        IfOk result (λ stop.
        stop ≡ stops_lines (line_below LINE_LIMIT (pair_view start.entry))
        (lines (drop offset t)))) }
    ensures gave { OverText (S.text source.old) (λ t.
        S.gave source.new ≤ S.gave source.old + longest (lines t) + 512) }
    ensures bound { S.gave source.new ≤ S.gave source.old + LINE_LIMIT }
{
    let size = source.size();
    let mut ends = held_front(window, offset, front)?;
    'fronts: loop {
        match front_is_below(front, start) {
            Some(below) => return Ok(!below),
            None => {}
        }
        if ends {
            return Ok(true);
        }
        if front.len() >= LINE_LIMIT || offset + (front.len() as u64) >= size {
            return Ok(true);
        }
        let wanted = (2 * front.len()).max(SEARCH_PIECE).min(LINE_LIMIT);
        ends = read_to(source, window, offset, front, wanted)?;
    }
}

/// A line that a step of the search looked at.
#[derive(Clone, Copy)]
struct Probed {
    /// Where it begins, in bytes from the source's start.
    offset: u64,
    /// Whether it isn't below the pair.
    stops: bool,
}

/// Returns what the source knows of the first line that begins at `middle` or after it, if that
/// begins before `until`, and shows whether it is below the pair.
fn known_probe<S: Source>(source: &S, middle: u64, until: u64, start: Pair<'_>) -> Option<Probed>
    ensures among { IfSome result (λ line. IsAmong middle until line.offset) }
    ensures line { OverText (S.text source.now) (λ t.
        IfSome result (λ line. BeginsFrom middle t line.offset)) }
    ensures stops { OverText (S.text source.now) (λ t.
        IfSome result (λ line.
        line.stops ≡ stops (line_below LINE_LIMIT (pair_view start.entry)) middle t)) }
{
    let (offset, front) = source.known_line(middle)?;
    if offset < middle || offset >= until {
        return None;
    }
    let below = front_is_below(front, start)?;
    Some(Probed {
        offset,
        stops: !below,
    })
}

/// Looks at the first line that begins at `middle` or after it, if it begins before `until`.
/// Nothing is read of a line that the source knows well enough.
fn probe<S: Source>(
    source: &mut S,
    window: &mut Window,
    middle: u64,
    until: u64,
    front: &mut Vec<u8>,
    start: Pair<'_>,
) -> Result<Option<Probed>, SearchFault>
    requires holds { Holds (S.text source.old) (S.extent source.old) window.old }
    requires some { middle < until }
    requires inside { until ≤ S.extent source.old }
    ensures source { SearchesOver S.Source result source.old source.new window.new }
    ensures among { IfOk result (λ found. IfSome found (λ line. IsAmong middle until line.offset)) }
    ensures later { IfOk result (λ found. IfNone found (0 < middle)) }
    ensures line { OverText (S.text source.old) (λ t.
        IfOk result (λ found. IfSome found (λ line. BeginsFrom middle t line.offset))) }
    ensures stops { OverText (S.text source.old) (λ t.
        IfOk result (λ found.
        IfSome found (λ line.
        line.stops ≡ stops (line_below LINE_LIMIT (pair_view start.entry)) middle t))) }
    ensures none { OverText (S.text source.old) (λ t.
        IfOk result (λ found. IfNone found (from_line until t ≡ from_line middle t))) }
    ensures gave { OverText (S.text source.old) (λ t.
        S.gave source.new ≤ S.gave source.old + (2 * longest (lines t) + 1024)) }
    ensures bound { S.gave source.new + middle ≤ S.gave source.old + until + LINE_LIMIT }
{
    let known = known_probe(source, middle, until, start);
    if known.is_some() {
        return Ok(known);
    }
    match next_line_start(source, window, middle, until)? {
        Some(offset) => {
            let stops = stops_at(source, window, offset, front, start)?;
            Ok(Some(Probed { offset, stops }))
        }
        None => Ok(None),
    }
}

/// What a search has left.
#[derive(Clone, Copy)]
struct Span {
    /// No line that begins before this offset is sought.
    low: u64,
    /// No line that begins at this offset or after it is below the pair.
    high: u64,
    /// Where the first line from `high` on begins, unless a line that is too long hides it.
    line: Option<u64>,
    /// The number of steps that were taken.
    probes: u64,
}

/// Takes one step of a search: looks at the first line that begins in the upper half of the offsets
/// that are left.
fn halve<S: Source>(
    source: &mut S,
    window: &mut Window,
    front: &mut Vec<u8>,
    span: Span,
    start: Pair<'_>,
) -> Result<Span, SearchFault>
    requires holds { Holds (S.text source.old) (S.extent source.old) window.old }
    requires some { span.low < span.high }
    requires halved { Halved LINE_LIMIT (pair_view start)
        (S.text source.old) (S.extent source.old) span }
    ensures source { SearchesOver S.Source result source.old source.new window.new }
    ensures halved { IfOk result (λ next. Halved LINE_LIMIT (pair_view start.entry)
        (S.text source.new) (S.extent source.new) next) }
    ensures probes { IfOk result (λ next. next.probes ≡ span.probes + 1) }
    ensures inner { IfOk result (λ next. (span.low ≤ next.low) × (next.high ≤ span.high)) }
    ensures smaller { IfOk result (λ next. next.high - next.low < span.high - span.low) }
    ensures gave { OverText (S.text source.old) (λ t.
        S.gave source.new ≤ S.gave source.old + (2 * longest (lines t) + 1024)) }
    ensures bound { S.gave source.new ≤ S.gave source.old + 2 * LINE_LIMIT }
    ensures near { S.gave source.new + span.low ≤ S.gave source.old + span.high + LINE_LIMIT }
{
    // For the proof alone: the source's known bytes are so many.
    let _size = source.size();
    let middle = span.low + (span.high - span.low) / 2;
    let until = middle + (span.high - middle).min(LINE_LIMIT as u64);
    let found = probe(source, window, middle, until, front, start)?;
    let probes = span.probes + 1;
    match found {
        Some(probed) if probed.stops => Ok(Span {
            low: span.low,
            high: middle,
            line: Some(probed.offset),
            probes,
        }),
        Some(probed) => Ok(Span {
            low: probed.offset + 1,
            high: span.high,
            line: span.line,
            probes,
        }),
        None if until < span.high => Ok(Span {
            low: span.low,
            high: middle,
            line: None,
            probes,
        }),
        None => Ok(Span {
            low: span.low,
            high: middle,
            line: span.line,
            probes,
        }),
    }
}

/// Reads the few offsets that are left at once, if there are any, from the byte before them on.
fn hold_few<S: Source>(source: &mut S, window: &mut Window, span: Span) -> Result<(), SearchFault>
    requires holds { Holds (S.text source.old) (S.extent source.old) window.old }
    requires inside { span.high ≤ S.extent source.old }
    ensures source { SearchesOver S.Source result source.old source.new window.new }
    ensures gave { S.gave source.new ≤ S.gave source.old + 8192 }
    ensures inside { S.gave source.new ≤ S.gave source.old + S.extent source.old }
    ensures none { span.high ≤ span.low → S.gave source.new ≡ S.gave source.old }
    ensures unread { OnErr result (S.gave source.new ≤ S.gave source.old) }
{
    if span.low < span.high {
        window.read(source, span.low.saturating_sub(1), PIECE)?;
    }
    Ok(())
}

/// Finds the first line of an index whose pair isn't below this one, by a binary search over the
/// byte offsets. A step looks at the first line that begins in the upper half of the offsets that
/// are left. For a pair of an empty key, which none is below, nothing is read.
///
/// Of a line it looks at the first [`LINE_LIMIT`] bytes at most; a line that shows no pair in them
/// isn't below. It looks through as many bytes at most for the end of a line. If they have no line
/// feed, the line is too long, and what follows it counts as not below.
///
/// A step reads pieces of at most 512 bytes, and nothing that it holds. Once few offsets are left,
/// one read of at most [`PIECE`] bytes gives them all, and the further steps read nothing but what
/// a long line has beyond it.
///
/// In a text that isn't an index it finds the start of some line that isn't below or is too long,
/// or the size.
/// Errors are `Memory`, and `Read` if the source failed.
pub fn search<S: Source>(
    alloc: Global,
    source: &mut S,
    start: Pair<'_>,
) -> Result<Found, SearchFault>
    ensures source { SearchesSource S.Source result source.old source.new }
    ensures begins { IfOk result (λ found. BeginsIn S.Source source.new found.cursor) }
    ensures first { IsLeast (pair_view start.entry)
        → IfOk result (λ found. found.cursor.start ≡ 0) }
    ensures unread { IsLeast (pair_view start.entry) → source.new ≡ source.old }
    ensures stops { OverText (S.text source.old) (λ t.
        IfOk result (λ found.
        IsStop LINE_LIMIT (pair_view start.entry) (lines (drop found.cursor.start t)))) }
    ensures cut { (t : List ℕ) → (members : List Member)
        → S.text source.old ≡ Some t → IsIndex LINE_LIMIT t members
        → IfOk result (λ found. IsCut (pair_view start.entry) t members found.cursor.start) }
    ensures probes { IfOk result (λ found. found.probes ≤ digits (S.extent source.old)) }
    ensures gave { OverText (S.text source.old) (λ t.
        S.gave source.new
        ≤ S.gave source.old + digits (S.extent source.old) * (2 * longest (lines t) + 2048)) }
    ensures bound { S.gave source.new
        ≤ S.gave source.old + digits (S.extent source.old) * (2 * LINE_LIMIT) }
{
    if is_least(start) {
        let cursor = Cursor::new(alloc, 0)?;
        return Ok(Found { cursor, probes: 0 });
    }
    let mut window = Window::new(alloc)?;
    let mut front = Vec::new(alloc);
    let size = source.size();
    let mut span = Span {
        low: 0,
        high: size,
        line: Some(size),
        probes: 0,
    };
    while span.high - span.low > FEW {
        span = halve(source, &mut window, &mut front, span, start)?;
    }
    hold_few(source, &mut window, span)?;
    while span.low < span.high {
        span = halve(source, &mut window, &mut front, span, start)?;
    }
    // the line that is too long is the last one that was below
    let offset = match span.line {
        Some(offset) => offset,
        None => span.low - 1,
    };
    Ok(Found {
        cursor: Cursor::over(window, offset),
        probes: span.probes,
    })
}
