//! Bytes that were read from an input and not yet consumed.
ghost use Rattle.std.specs.Prelude.{◌≡◌, Option, ℕ, ◌+◌, ◌-◌, ◌<◌, ◌≤◌, List, [], length, drop, take, min, IfOk, OnOk, OnErr, MatchResult};
ghost use Rattle.std.specs.Io.KnownBytes.{Keeps, ConsumesCount, IsAtEnd, prepend_known};
ghost use Rattle.devices.specs.Device.{CountsFailure};

use crate::device::{DeviceFault, Input};
use std::alloc::{AllocError, Global};
use std::marker::Model;

/// The number of bytes that one call requests from a file, or from the source of an index.
pub const PIECE: usize = 8192;

/// The number of bytes that one call requests from any other input.
const ROOM: usize = 65_536;

/// Bytes that were read from an input and not yet consumed, at most 65,536 of them. A buffer does not hold the input;
/// each call that reads takes it.
#[derive(Drop)]
pub struct Buffer {
    bytes: Vec<u8>,
    from: usize,
    to: usize,
}

impl Model for Buffer {
    ghost Value = { List ℕ };

    ghost view = { λ b. take (b.to - b.from) (drop b.from b.bytes.items) };

    ghost invariant = { λ b. (b.from ≤ b.to) × (b.to ≤ length b.bytes.items)
        × (0 < length b.bytes.items) };
}

impl Buffer {
    /// Creates a buffer that holds nothing, with room for 65,536 bytes. The only error is refused memory.
    pub fn new(alloc: Global) -> Result<Buffer, AllocError>
        ensures { IfOk result (λ b. b ≡ []) }
    {
        let bytes = vec![in alloc; 0; ROOM]?;
        Ok(Buffer {
            bytes,
            from: 0,
            to: 0,
        })
    }

    /// Returns the bytes that are held.
    pub fn as_slice(&self) -> &[u8]
        ensures { result.now ≡ self.now }
    {
        &self.bytes.as_slice()[self.from..self.to]
    }

    /// Removes the first `count` bytes.
    pub fn consume(&mut self, count: usize)
        requires { count ≤ length self.old }
        ensures { self.new ≡ drop count self.old }
    {
        self.from += count;
    }

    /// Reads once from the input if nothing is held. If nothing is held after that, the input is at its end.
    ///
    /// The only error is the input's failure.
    pub fn fill<I: Input>(&mut self, input: &mut I) -> Result<(), DeviceFault>
        ensures bytes { Keeps (prepend_known self.old (I.remaining input.old))
            (prepend_known self.new (I.remaining input.new)) }
        ensures end { OnOk result (self.new ≡ [] → IsAtEnd (I.remaining input.new)) }
        ensures empty { OnErr result (self.new ≡ []) }
        ensures failures { CountsFailure result (I.failures input.old) (I.failures input.new) }
    {
        if self.from == self.to {
            let count = input.read(self.bytes.as_mut_slice())?;
            self.from = 0;
            self.to = count;
        }
        Ok(())
    }

    /// Removes the first `count` bytes, or all if there are fewer, and returns their number.
    fn skip_held(&mut self, count: u64) -> u64
        ensures count { result ≡ min count (length self.old) }
        ensures held { self.new ≡ drop result self.old }
    {
        let skipped = count.min(self.as_slice().len() as u64);
        self.consume(skipped as usize);
        skipped
    }

    /// Skips up to `count` of the next bytes, and returns their number, which is 0 only for a `count` of 0 and at the
    /// end of the input. Skips what is held; or else as much as the input skips; or else what one read returns.
    ///
    /// The only error is the input's failure.
    pub fn skip<I: Input>(&mut self, input: &mut I, count: u64) -> Result<u64, DeviceFault>
        ensures bound { IfOk result (λ n. n ≤ count) }
        ensures bytes { ConsumesCount (prepend_known self.old (I.remaining input.old))
            (prepend_known self.new (I.remaining input.new)) result }
        ensures end { IfOk result (λ n. n ≡ 0 → 0 < count
            → IsAtEnd (prepend_known self.new (I.remaining input.new))) }
        ensures failures { CountsFailure result (I.failures input.old) (I.failures input.new) }
    {
        if !self.as_slice().is_empty() {
            return Ok(self.skip_held(count));
        }
        match input.skip(count)? {
            0 => {
                self.fill(input)?;
                Ok(self.skip_held(count))
            }
            skipped => Ok(skipped),
        }
    }
}
