//! The lines of an input, read piece by piece.
ghost use Rattle.std.specs.Prelude.{drop, true, ◌≡◌, ◌≢◌, Option, Some, ℕ, ◌+◌, ◌-◌, ◌^◌, ◌<◌, ◌≤◌, List, [], length, IfOk, IfErr, OnOk, Err, MatchResult, ◌⊎◌};
ghost use Rattle.std.specs.Io.KnownBytes.{Keeps, IsAtEnd, prepend_known};
ghost use Rattle.devices.specs.Device.{next_count};
ghost use Rattle.devices.specs.LineCuts.{without_carriage_return};
ghost use Rattle.devices.specs.LineReading.{LineState, StopsInLine, TakesPart, TakesLine, CountsTaken, CountsInputLine};

use crate::buffer::Buffer;
use crate::device::{DeviceFault, Input};
use crate::line_cuts::{find_line_feed, hold};
use std::alloc::{AllocError, Global};
use std::marker::Model;

/// An input of this many bytes or more is too long to be read line by line.
pub const INPUT_LIMIT: u64 = 9_223_372_036_854_775_807;

/// Why a line of an input could not be read.
#[derive(Clone, Copy, Debug, Drop)]
pub enum InputLineFault {
    /// Memory could not be allocated.
    Memory,
    /// The input failed.
    Read,
    /// The input has [`INPUT_LIMIT`] bytes or more.
    TooLong,
}

impl From<DeviceFault> for InputLineFault {
    ghost use Rattle.std.specs.Prelude.{◌≡◌};
    ghost use Rattle.devices.specs.declared.input_lines.InputLineFault.TheVariants.{Read};

    ghost from_gives = { λ _ fault. fault ≡ Read };

    fn from(_fault: DeviceFault) -> InputLineFault {
        InputLineFault::Read
    }
}

impl From<AllocError> for InputLineFault {
    ghost use Rattle.std.specs.Prelude.{◌≡◌};
    ghost use Rattle.devices.specs.declared.input_lines.InputLineFault.TheVariants.{Memory};

    ghost from_gives = { λ _ fault. fault ≡ Memory };

    fn from(_error: AllocError) -> InputLineFault {
        InputLineFault::Memory
    }
}

/// How a piece of the input relates to the line that is read.
#[derive(Drop)]
enum Part {
    /// The piece ends within the line.
    Within,
    /// The line ends in the piece.
    Ended,
    /// The input has ended.
    AtEnd,
}

/// Reads the lines of an input, one after another. It does not hold the input; each call that reads takes it.
///
/// A line ends with a line feed, which the last line may lack. At most the first `most` bytes of a line are held.
#[derive(Drop)]
pub struct InputLines {
    buffer: Buffer,
    line: Vec<u8>,
    most: usize,
    taken: u64,
}

impl Model for InputLines {
    ghost Value = { LineState };

    ghost view = { λ l. record {
      buffer = l.buffer;
      line = l.line.items;
      most = l.most;
      taken =
          l.taken;
    } };

    ghost invariant = { λ l. (0 < l.most) × (length l.line.items ≤ l.most)
        × (l.taken < 2 ^ 63 - 1) };
}

impl InputLines {
    ghost use Rattle.devices.specs.declared.input_lines.Part.TheVariants.{AtEnd};
    ghost use Rattle.devices.specs.declared.input_lines.InputLineFault.TheVariants.{Memory, Read, TooLong};

    /// Creates a reader of lines that has read nothing. It will hold at most the first `most` bytes of each line. The only
    /// error is refused memory.
    pub fn new(alloc: Global, most: usize) -> Result<InputLines, AllocError>
        requires { 0 < most }
        ensures { IfOk result (λ lines. (lines.buffer ≡ []) × (lines.taken ≡ 0)
            × (lines.most ≡ most)) }
    {
        let buffer = Buffer::new(alloc)?;
        Ok(InputLines {
            buffer,
            line: Vec::new(alloc),
            most,
            taken: 0,
        })
    }

    /// Returns the bytes that are held of the last line read, without one carriage return at their end.
    pub fn line(&self) -> &[u8]
        ensures { result.now ≡ without_carriage_return self.now.line }
    {
        match self.line.as_slice() {
            [body @ .., b'\r'] => body,
            line => line,
        }
    }

    /// Skips `count` buffered bytes of the input.
    fn pass(&mut self, count: usize) -> Result<(), InputLineFault>
        requires { count ≤ length self.old.buffer }
        ensures within { OnOk result (self.new.taken < 2 ^ 63 - 1) }
        ensures line { (self.new.line ≡ self.old.line) × (self.new.most ≡ self.old.most) }
        ensures rest { OnOk result (self.new.buffer ≡ drop count self.old.buffer) }
        ensures taken { OnOk result (self.new.taken ≡ self.old.taken + count) }
        ensures full { IfErr result (λ fault. (fault ≡ TooLong)
            × (2 ^ 63 - 1 ≤ self.old.taken + count)) }
    {
        let taken = self.taken.saturating_add(count as u64);
        if taken >= INPUT_LIMIT {
            return Err(InputLineFault::TooLong);
        }
        self.taken = taken;
        self.buffer.consume(count);
        Ok(())
    }

    /// Takes the buffered bytes of the input, up to and including the first line feed.
    fn take_held(&mut self) -> Result<Part, InputLineFault>
        ensures within { OnOk result (self.new.taken < 2 ^ 63 - 1) }
        ensures most { self.new.most ≡ self.old.most }
        ensures part { IfOk result
            (λ part. TakesPart self.old.most part (Some self.old.buffer) (Some self.new.buffer)
            self.old.line self.new.line) }
        ensures count { OnOk result (self.old.taken + length self.old.buffer
            ≡ self.new.taken + length self.new.buffer) }
        ensures some { IfOk result (λ part. part ≢ AtEnd → self.old.taken < self.new.taken) }
        ensures end { IfOk result (λ part. part ≡ AtEnd → (self.new.line ≡ self.old.line)
            × (self.new.taken ≡ self.old.taken)) }
        ensures full { IfErr result (λ fault. (fault ≡ Memory)
            ⊎ ((fault ≡ TooLong) × (2 ^ 63 - 1 ≤ self.old.taken + length self.old.buffer))) }
    {
        let piece = self.buffer.as_slice();
        if piece.is_empty() {
            return Ok(Part::AtEnd);
        }
        let (before, count, part) = match find_line_feed(piece) {
            Some(at) => (at, at + 1, Part::Ended),
            None => (piece.len(), piece.len(), Part::Within),
        };
        hold(&mut self.line, self.most, &piece[..before])?;
        self.pass(count)?;
        Ok(part)
    }

    /// Takes a piece of the input, up to and including the first line feed.
    fn take_part<I: Input>(&mut self, input: &mut I) -> Result<Part, InputLineFault>
        ensures within { OnOk result (self.new.taken < 2 ^ 63 - 1) }
        ensures most { self.new.most ≡ self.old.most }
        ensures part { IfOk result
            (λ part. TakesPart self.old.most part
            (prepend_known self.old.buffer (I.remaining input.old))
            (prepend_known self.new.buffer (I.remaining input.new)) self.old.line self.new.line) }
        ensures count { OnOk result
            (CountsTaken (prepend_known self.old.buffer (I.remaining input.old))
            (prepend_known self.new.buffer (I.remaining input.new)) self.old.taken self.new.taken) }
        ensures some { IfOk result (λ part. part ≢ AtEnd → self.old.taken < self.new.taken) }
        ensures end { IfOk result (λ part. part ≡ AtEnd → (self.new.line ≡ self.old.line)
            × (self.new.taken ≡ self.old.taken)) }
        ensures stopped { result ≡ Err Read →
            Keeps (prepend_known self.old.buffer (I.remaining input.old)) (I.remaining input.new) }
        ensures failures { CountsInputLine result (I.failures input.old) (I.failures input.new)
            (prepend_known self.old.buffer (I.remaining input.old)) self.old.taken }
    {
        self.buffer.fill(input)?;
        self.take_held()
    }

    /// Reads the next line. Returns `true` if there was one. A line that is longer than the bytes held is still read to
    /// its end.
    ///
    /// Errors are `Memory`, `Read` if the input failed, and `TooLong` at 2^63 - 1 bytes of input. If the input failed,
    /// every line that it gave whole was returned by an earlier call.
    pub fn next<I: Input>(&mut self, input: &mut I) -> Result<bool, InputLineFault>
        ensures within { OnOk result (self.new.taken < 2 ^ 63 - 1) }
        ensures most { self.new.most ≡ self.old.most }
        ensures line { IfOk result
            (λ found. TakesLine self.old.most found
            (prepend_known self.old.buffer (I.remaining input.old))
            (prepend_known self.new.buffer (I.remaining input.new)) self.new.line) }
        ensures count { OnOk result
            (CountsTaken (prepend_known self.old.buffer (I.remaining input.old))
            (prepend_known self.new.buffer (I.remaining input.new)) self.old.taken self.new.taken) }
        ensures some { IfOk result (λ found. found ≡ true → self.old.taken < self.new.taken) }
        ensures stopped { result ≡ Err Read →
            StopsInLine (prepend_known self.old.buffer (I.remaining input.old))
            (I.remaining input.new) }
        ensures failures { CountsInputLine result (I.failures input.old) (I.failures input.new)
            (prepend_known self.old.buffer (I.remaining input.old)) self.old.taken }
    {
        self.line.clear();
        loop {
            match self.take_part(input)? {
                Part::Within => {}
                Part::Ended => return Ok(true),
                Part::AtEnd => return Ok(!self.line.is_empty()),
            }
        }
    }
}
