//! An input that is read byte by byte, with the checksum of what was read.
ghost use Rattle.std.specs.Prelude.{◌≡◌, ℕ, ◌+◌, ◌-◌, ◌^◌, ◌<◌, ◌≤◌, List, [], ◌⊎◌, true, false};
ghost use Rattle.std.specs.Prelude.{length, drop, min, Ok, IfOk, IfErr, OnOk, OnErr, MatchResult};
ghost use Rattle.devices.specs.Device.{CountsFailure};
ghost use Rattle.std.specs.Bool.{OnTrue, OnFalse};
ghost use Rattle.std.specs.Io.KnownBytes.{ConsumesCount, Keeps, IsAtEnd, prepend_known};

use crate::fault::MemberFault;
use crate::read_ahead::{MOST_HELD, ReadAhead};
use crc_32::Crc32;
use devices::{DeviceFault, Input};

/// The greatest offset in a file, in bytes from its start.
const GREATEST_OFFSET: u64 = (1 << 63) - 1;

/// An input of which some bytes were read ahead. It counts the bytes that were taken, and has a
/// checksum of them.
#[derive(Drop)]
pub struct CheckedInput<I: Input> {
    pub input: I,
    pub ahead: ReadAhead,
    pub crc: Crc32,
    pub checksum: u32,
    pub passed: u64,
    pub ghost within: { passed ≤ 2 ^ 63 - 1 },
}

impl<I: Input> CheckedInput<I> {
    ghost use Rattle.gzip_members.specs.Header.{byte_in};
    ghost use Rattle.gzip_members.specs.Reading.{Reads, CountsMember, Moves, PassesOver, taken};

    /// Reads once from the input if nothing is held. If nothing is held after that, the input is at
    /// its end.
    fn fill(&mut self) -> Result<(), MemberFault>
        ensures bytes { Keeps (prepend_known self.old.ahead (I.remaining self.old.input))
            (prepend_known self.new.ahead (I.remaining self.new.input)) }
        ensures end { OnOk result (self.new.ahead ≡ [] → IsAtEnd (I.remaining self.new.input)) }
        ensures checksum { self.new.checksum ≡ self.old.checksum }
        ensures passed { self.new.passed ≡ self.old.passed }
        ensures moves { Moves (taken self.old) (taken self.new) }
        ensures fault { IfErr result (λ fault. fault ≡ MemberFault.Read) }
        ensures failures { CountsMember result (I.failures self.old.input)
            (I.failures self.new.input) }
    {
        if self.ahead.as_slice().is_empty() {
            self.ahead.read_on(&mut self.input)?;
        }
        Ok(())
    }

    /// Reads once from the input, unless much is held. Returns whether the input has ended.
    pub fn read_more(&mut self) -> Result<bool, DeviceFault>
        ensures bytes { Keeps (prepend_known self.old.ahead (I.remaining self.old.input))
            (prepend_known self.new.ahead (I.remaining self.new.input)) }
        ensures end { result ≡ Ok true → IsAtEnd (I.remaining self.new.input) }
        ensures more { result ≡ Ok false → (length self.old.ahead < length self.new.ahead)
            ⊎ (MOST_HELD ≤ length self.new.ahead) }
        ensures grown { length self.old.ahead ≤ length self.new.ahead }
        ensures err { OnErr result (self.new.ahead ≡ self.old.ahead) }
        ensures passed { self.new.passed ≡ self.old.passed }
        ensures moves { Moves (taken self.old) (taken self.new) }
        ensures failures { CountsFailure result (I.failures self.old.input)
            (I.failures self.new.input) }
    {
        if self.ahead.as_slice().len() >= MOST_HELD {
            return Ok(false);
        }
        let count = self.ahead.read_on(&mut self.input)?;
        Ok(count == 0)
    }

    /// Takes the next byte.
    pub fn byte(&mut self) -> Result<u8, MemberFault>
        ensures byte { Reads byte_in result (taken self.old) (taken self.new) }
        ensures passed { OnOk result (self.new.passed ≡ self.old.passed + 1) }
        ensures moves { Moves (taken self.old) (taken self.new) }
        ensures failures { CountsMember result (I.failures self.old.input)
            (I.failures self.new.input) }
    {
        self.fill()?;
        match self.ahead.first() {
            Some(byte) => {
                if self.passed == GREATEST_OFFSET {
                    return Err(MemberFault::TooFar);
                }
                self.passed += 1;
                self.ahead.consume(1);
                self.checksum = self.crc.update(self.checksum, &[byte]);
                Ok(byte)
            }
            None => Err(MemberFault::Cut),
        }
    }

    /// Takes the first `count` bytes that are held, and returns `true`; or `false` if they end at
    /// 2^63 or above.
    pub fn take(&mut self, count: usize) -> bool
        requires { count ≤ length self.old.ahead }
        ensures taken { OnTrue result (self.new.ahead ≡ drop count self.old.ahead) }
        ensures passed { OnTrue result (self.new.passed ≡ self.old.passed + count) }
        ensures not { OnFalse result (self.new.ahead ≡ self.old.ahead) }
        ensures stays { OnFalse result (self.new.passed ≡ self.old.passed) }
        ensures too_far { OnFalse result (2 ^ 63 - 1 < self.old.passed + count) }
        ensures input { self.new.input ≡ self.old.input }
        ensures moves { Moves (taken self.old) (taken self.new) }
    {
        if count as u64 > GREATEST_OFFSET - self.passed {
            return false;
        }
        self.passed += count as u64;
        self.ahead.consume(count);
        true
    }

    /// Takes the first `count` bytes that are held, or all if there are fewer, and returns their
    /// number.
    fn skip_held(&mut self, count: u64) -> u64
        requires { self.old.passed + count ≤ 2 ^ 63 - 1 }
        ensures count { result ≡ min count (length self.old.ahead) }
        ensures held { self.new.ahead ≡ drop result self.old.ahead }
        ensures passed { self.new.passed ≡ self.old.passed + result }
        ensures input { self.new.input ≡ self.old.input }
    {
        let skipped = count.min(self.ahead.as_slice().len() as u64);
        self.passed += skipped;
        self.ahead.consume(skipped as usize);
        skipped
    }

    /// Passes over up to `count` of the next bytes, and returns their number, which is 0 only for a
    /// `count` of 0 and at the end of the input. Passes over what is held; or else as much as the
    /// input skips; or else what one read returns.
    fn skip(&mut self, count: u64) -> Result<u64, DeviceFault>
        requires { self.old.passed + count ≤ 2 ^ 63 - 1 }
        ensures bound { IfOk result (λ n. n ≤ count) }
        ensures bytes { ConsumesCount (prepend_known self.old.ahead (I.remaining self.old.input))
            (prepend_known self.new.ahead (I.remaining self.new.input)) result }
        ensures end { IfOk result (λ n. n ≡ 0 → 0 < count
            → IsAtEnd (prepend_known self.new.ahead (I.remaining self.new.input))) }
        ensures passed { MatchResult result (λ n. self.new.passed ≡ self.old.passed + n)
            (λ _. self.new.passed ≡ self.old.passed) }
        ensures moves { Moves (taken self.old) (taken self.new) }
        ensures failures { CountsFailure result (I.failures self.old.input)
            (I.failures self.new.input) }
    {
        if !self.ahead.as_slice().is_empty() {
            return Ok(self.skip_held(count));
        }
        match self.input.skip(count)? {
            0 => {
                self.ahead.read_on(&mut self.input)?;
                Ok(self.skip_held(count))
            }
            skipped => {
                self.passed += skipped;
                Ok(skipped)
            }
        }
    }

    /// Passes over the next `count` bytes, or all if there are fewer. Returns whether there were so
    /// many.
    pub fn pass_over(&mut self, count: u64) -> Result<bool, DeviceFault>
        requires { self.old.passed + count ≤ 2 ^ 63 - 1 }
        ensures bytes { OnOk result (PassesOver count (taken self.old).ahead
            (taken self.new).ahead) }
        ensures passed { result ≡ Ok true → self.new.passed ≡ self.old.passed + count }
        ensures end { result ≡ Ok false → IsAtEnd (taken self.new).ahead }
        ensures moves { Moves (taken self.old) (taken self.new) }
        ensures failures { CountsFailure result (I.failures self.old.input)
            (I.failures self.new.input) }
    {
        let mut left = count;
        'bytes: while left > 0 {
            let skipped = self.skip(left)?;
            if skipped == 0 {
                return Ok(false);
            }
            left -= skipped;
        }
        Ok(true)
    }
}
