//! An input whose first bytes were looked at.
ghost use Rattle.std.specs.Prelude.{◌≡◌, ◌≤◌, [], ◌++◌, length, IfOk, IsErr, MatchResult, OnErr, true, if◌then◌else◌};
ghost use Rattle.std.specs.Prelude.{option_to_list};
ghost use Rattle.std.specs.Io.KnownBytes.{Consumes, ConsumesCount, IsAtEnd, Keeps, ReadConsumes};
ghost use Rattle.std.specs.Io.KnownBytes.{prepend_known};
ghost use Rattle.devices.specs.Device.{CountsFailure};
ghost use Rattle.archives.specs.Looked.{LooksAt, TellsPacking, count_if, first_bytes};
ghost use Rattle.archives.specs.Packing.{Packed, Plain, packing_of};

use capture_core::Input;
use devices::DeviceFault;

/// The first bytes of an input, which weren't given again.
#[derive(Clone, Copy, Debug)]
enum First {
    Nothing,
    One(u8),
    Two(u8, u8),
}

impl First {
    /// Removes the first of them.
    fn take(&mut self) -> Option<u8>
        ensures bytes { option_to_list result ++ first_bytes self.new ≡ first_bytes self.old }
        ensures none { result ≡ None → first_bytes self.old ≡ [] }
    {
        match *self {
            First::Nothing => None,
            First::One(a) => {
                *self = First::Nothing;
                Some(a)
            }
            First::Two(a, b) => {
                *self = First::One(b);
                Some(a)
            }
        }
    }
}

/// An input of which the first two bytes were read to see what they are. They are given again
/// before the rest.
#[derive(Debug, Drop)]
pub struct Looked<I> {
    input: I,
    first: First,
    /// Whether the input failed at the look, and no read has said so.
    has_failed: bool,
    /// The number of calls that have failed, which only contracts read.
    failures: u64,
}

/// Reads a byte, or returns `None` at the end of the input. The only error is the input's failure.
fn read_byte<I: Input>(input: &mut I) -> Result<Option<u8>, DeviceFault>
    ensures byte { IfOk result (λ byte. Consumes (I.remaining input.old) (I.remaining input.new)
        (option_to_list byte)) }
    ensures end { IfOk result (λ byte. byte ≡ None → IsAtEnd (I.remaining input.new)) }
    ensures kept { OnErr result (Keeps (I.remaining input.old) (I.remaining input.new)) }
    ensures failures { CountsFailure result (I.failures input.old) (I.failures input.new) }
{
    let mut piece = [0];
    match input.read(&mut piece)? {
        0 => Ok(None),
        _ => Ok(Some(piece[0])),
    }
}

/// Reads the first two bytes, or all if there are fewer, and returns them with whether the input
/// failed.
fn look<I: Input>(input: &mut I) -> (First, bool)
    ensures looks { LooksAt (first_bytes result.0) result.1 (I.remaining input.old)
        (I.remaining input.new) }
    ensures failures { I.failures input.new ≡ count_if result.1 (I.failures input.old) }
{
    match read_byte(input) {
        Err(_) => (First::Nothing, true),
        Ok(None) => (First::Nothing, false),
        Ok(Some(a)) => match read_byte(input) {
            Err(_) => (First::One(a), true),
            Ok(None) => (First::One(a), false),
            Ok(Some(b)) => (First::Two(a, b), false),
        },
    }
}

impl<I: Input> Looked<I> {
    /// Looks at the first two bytes of an input. If the input fails, the first read says so.
    pub fn new(input: I) -> Looked<I>
        ensures bytes { Keeps (I.remaining input)
            (prepend_known (first_bytes result.first) (I.remaining result.input)) }
        ensures packing { TellsPacking (first_bytes result.first) result.has_failed
            (I.remaining input) }
        ensures failed { I.failures result.input ≡ count_if result.has_failed (I.failures input) }
        ensures failures { result.failures ≡ 0 }
    {
        let mut input = input;
        let (first, has_failed) = look(&mut input);
        Looked {
            input,
            first,
            has_failed,
            failures: 0,
        }
    }

    /// Returns whether the input failed at the look, and no read has said so.
    pub fn has_failed(&self) -> bool
        ensures { result ≡ self.now.has_failed }
    {
        self.has_failed
    }

    /// Returns whether the first bytes, which weren't given again, begin a compressed archive.
    pub fn is_compressed(&self) -> bool
        ensures { (if result then Packed else Plain) ≡ packing_of (first_bytes self.now.first) }
    {
        matches!(self.first, First::Two(0x1f, 0x8b))
    }
}

impl<I: Input> Input for Looked<I> {
    ghost remaining = { λ l. prepend_known (first_bytes l.first) (I.remaining l.input) };

    ghost failures = { λ l. l.failures };

    /// Fails if the input failed at the look. Else gives the first bytes one at a time, and then
    /// what the input gives.
    fn read(&mut self, piece: &mut [u8]) -> Result<usize, DeviceFault>
        ensures bound { IfOk result (λ n. n ≤ length piece.new) }
        ensures bytes { ReadConsumes
            (prepend_known (first_bytes self.old.first) (I.remaining self.old.input))
            (prepend_known (first_bytes self.new.first) (I.remaining self.new.input)) result
            piece.new }
        ensures failures { CountsFailure result self.old.failures self.new.failures }
        ensures failed { self.old.has_failed ≡ true → IsErr result }
    {
        if self.has_failed {
            self.has_failed = false;
            self.failures = self.failures.saturating_add(1);
            return Err(DeviceFault);
        }
        if piece.is_empty() {
            return Ok(0);
        }
        if let Some(byte) = self.first.take() {
            piece[0] = byte;
            return Ok(1);
        }
        match self.input.read(piece) {
            Ok(count) => Ok(count),
            Err(_) => {
                self.failures = self.failures.saturating_add(1);
                Err(DeviceFault)
            }
        }
    }

    /// Skips nothing while first bytes are held, or a failure is.
    fn skip(&mut self, count: u64) -> Result<u64, DeviceFault> {
        if self.has_failed || !matches!(self.first, First::Nothing) {
            return Ok(0);
        }
        match self.input.skip(count) {
            Ok(skipped) => Ok(skipped),
            Err(_) => {
                self.failures = self.failures.saturating_add(1);
                Err(DeviceFault)
            }
        }
    }
}
