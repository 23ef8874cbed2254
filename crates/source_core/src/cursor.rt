//! The lines of a source, one after another.
ghost use Rattle.std.specs.Prelude.{◌≡◌, ◌+◌, ◌<◌, ◌≤◌, ◌∷◌, ℕ, Option, List, true, length, take};
ghost use Rattle.std.specs.Prelude.{drop, IfOk, IfErr, OnOk, MatchOption, IfSome, IfNone, Some};
ghost use Rattle.source_core.specs.Device.{OverText};
ghost use Rattle.source_core.specs.Reads.{KeepsSource, StandsIn};
ghost use Rattle.cdxj_core.specs.declared.limit.TheConstants.{LINE_LIMIT};

use crate::fault::LineReadFault;
use crate::line_part::line_part;
use crate::source::Source;
use crate::window::Window;
use cdxj_core::{LINE_LIMIT, printable_length};
use devices::PIECE;
use std::alloc::{AllocError, Global};
use std::marker::Model;

/// Which bytes a line that was read ahead may have.
#[derive(Clone, Copy, Drop)]
pub enum LineBytes {
    /// Any bytes.
    Any,
    /// Characters of ASCII other than controls, but for the line feed.
    Printable,
}

/// Reads the lines of a source from an offset on. It does not hold the source; each call takes it.
///
/// It reads pieces of at most [`PIECE`] bytes and holds one of them.
#[derive(Drop)]
pub struct Cursor {
    window: Window,
    at: u64,
    /// The offset of its first line, which only contracts read.
    start: u64,
    count: u64,
}

impl Model for Cursor {
    ghost use Rattle.source_core.specs.Cursors.{CursorState};
    ghost use Rattle.source_core.specs.Windows.{held_from};

    ghost Value = { CursorState };

    ghost view = { λ c. record {
      ahead = held_from c.window c.at;
      at = c.at;
      start = c.start;
      count = c.count;
    } };
}

impl Cursor {
    ghost use Rattle.std.specs.List.{list_all};
    ghost use Rattle.cdxj_core.specs.Lines.{body_of};
    ghost use Rattle.cdxj_core.specs.Plain.{is_printable_ascii};
    ghost use Rattle.source_core.specs.IndexLines.{lines, first_length, first_then, line_found};
    ghost use Rattle.source_core.specs.Cursors.{Filled, IsFresh, Stands, reach, CountsLineRead};
    ghost use Rattle.source_core.specs.Cursors.{IsHeldLine};
    ghost use Rattle.source_core.specs.Windows.{Holds};
    ghost use Rattle.source_core.specs.LineParts.{NoFeed};

    /// Creates a cursor at the offset `start`, in bytes from the source's start. A line begins
    /// there.
    /// The only error is refused memory.
    pub fn new(alloc: Global, start: u64) -> Result<Cursor, AllocError>
        ensures stands { IfOk result (λ c.
            (text : Option (List ℕ)) → (extent : ℕ) → start ≤ extent → Stands text extent c) }
        ensures start { IfOk result (λ c. IsFresh c start) }
        ensures ahead { IfOk result (λ c. reach c ≡ start) }
    {
        Ok(Cursor {
            window: Window::new(alloc)?,
            at: start,
            start,
            count: 0,
        })
    }

    /// Creates a cursor at the offset `start`, where a line begins. It goes on with the bytes that
    /// the window holds.
    pub(crate) fn over(window: Window, start: u64) -> Cursor
        ensures stands { (text : Option (List ℕ)) → (extent : ℕ) → Holds text extent window
            → start ≤ extent → Stands text extent result }
        ensures start { IsFresh result start }
    {
        Cursor {
            window,
            at: start,
            start,
            count: 0,
        }
    }

    /// Returns the offset of the next line, in bytes from the source's start.
    pub fn at(&self) -> u64
        ensures { result ≡ self.now.at }
    {
        self.at
    }

    /// Returns the number of lines that were read.
    pub fn count(&self) -> u64
        ensures { result ≡ self.now.count }
    {
        self.count
    }

    /// Returns the next line, with its line feed, if all of it was read ahead, and which bytes it
    /// may have. That may be `Any` for any line.
    #[inline(always)]
    pub fn held_line(&self) -> Option<(&[u8], LineBytes)>
        ensures line { IfSome result (λ l. (l.0.now ≡ take (length l.0.now) self.now.ahead)
            × IsHeldLine self.now.ahead (length l.0.now)) }
        ensures none { IfNone result (NoFeed self.now.ahead) }
        ensures printable { IfSome result (λ l. l.1 ≡ LineBytes.Printable
            → list_all is_printable_ascii (body_of l.0.now) ≡ true) }
    {
        let held = self.window.from(self.at);
        let body = printable_length(held);
        if body < held.len() && held[body] == b'\n' {
            return Some((&held[..body + 1], LineBytes::Printable));
        }
        let (length, ends) = line_part(held);
        if ends {
            Some((&held[..length], LineBytes::Any))
        } else {
            None
        }
    }

    /// Goes on behind the next line, of `size` bytes, which [`Cursor::held_line`] returned.
    pub fn pass_line<S: Source>(&mut self, source: &S, size: usize)
        requires stands { StandsIn S.Source source.now self.old }
        requires line { IsHeldLine self.old.ahead size }
        ensures stands { StandsIn S.Source source.now self.new }
        ensures start { self.new.start ≡ self.old.start }
        ensures count { self.new.count ≡ self.old.count + 1 }
        ensures there { self.new.at ≡ self.old.at + size }
        ensures reach { reach self.new ≡ reach self.old }
        ensures given { OverText (S.text source.now) (λ t. lines (drop self.old.at t)
            ≡ take size self.old.ahead ∷ lines (drop self.new.at t)) }
    {
        // For the proof alone: what is held lies within the source.
        let _extent = source.size();
        self.at += size as u64;
        self.count += 1;
    }

    /// Reads the next line, with its line feed, into `line`, whose previous bytes are dropped.
    /// Returns `true` if there was one.
    ///
    /// Whatever is returned, `line` holds at most [`LINE_LIMIT`] bytes, and at most 8,192 more were
    /// read for it. Errors are `Memory`, `Read` if the source failed, and `Long`. After an error
    /// the cursor must not be used again.
    pub fn next<S: Source>(
        &mut self,
        source: &mut S,
        line: &mut Vec<u8>,
    ) -> Result<bool, LineReadFault>
        requires stands { StandsIn S.Source source.old self.old }
        ensures kept { KeepsSource S.Source source.old source.new }
        ensures stands { OnOk result (StandsIn S.Source source.new self.new) }
        ensures filled { Filled (S.text source.new) (S.extent source.new) self.new }
        ensures start { self.new.start ≡ self.old.start }
        ensures count { IfOk result (λ found. MatchOption (line_found found line.new.items)
            (self.new.count ≡ self.old.count) (λ _. self.new.count ≡ self.old.count + 1)) }
        ensures there { IfOk result (λ found. MatchOption (line_found found line.new.items)
            (self.new.at ≡ S.extent source.old) (λ l. self.new.at ≡ self.old.at + length l)) }
        ensures ends { IfOk result (λ found.
            IfNone (line_found found line.new.items) (self.new.at ≡ self.old.at)) }
        ensures some { IfOk result (λ found.
            IfSome (line_found found line.new.items) (λ l. 0 < length l)) }
        ensures short { length line.new.items ≤ LINE_LIMIT }
        ensures given { OverText (S.text source.old) (λ t.
            IfOk result (λ found.
            lines (drop self.old.at t)
            ≡ first_then (line_found found line.new.items) (lines (drop self.new.at t)))) }
        ensures long { OverText (S.text source.old) (λ t.
            IfErr result (λ e. e ≡ LineReadFault.Long
            → LINE_LIMIT < first_length (lines (drop self.old.at t)))) }
        ensures most { OverText (S.text source.old) (λ t.
            self.new.at ≤ self.old.at + first_length (lines (drop self.old.at t))) }
        ensures gave { S.gave source.new + reach self.old ≤ S.gave source.old + reach self.new }
        ensures bound { S.gave source.new ≤ S.gave source.old + LINE_LIMIT + 8192 }
        ensures failures { CountsLineRead result (S.failures source.old) (S.failures source.new) }
    {
        line.clear();
        let size = source.size();
        while self.at < size {
            self.window.hold(source, self.at, PIECE)?;
            let held = self.window.from(self.at);
            let (length, ends) = line_part(held);
            if length > LINE_LIMIT - line.len() {
                return Err(LineReadFault::Long);
            }
            line.extend_from_slice(&held[..length])?;
            self.at += length as u64;
            if ends {
                self.count += 1;
                return Ok(true);
            }
        }
        if line.is_empty() {
            return Ok(false);
        }
        self.count += 1;
        Ok(true)
    }
}
