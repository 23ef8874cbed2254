//! Inputs and outputs: devices that count the calls that failed.
ghost use Rattle.std.specs.Prelude.{Option, ℕ, ◌≤◌, List, length, MatchResult, IfOk, OnOk, OnErr};
ghost use Rattle.std.specs.Io.KnownBytes.{ReadConsumes, ConsumesCount, WriteAppends, Appends};
ghost use Rattle.devices.specs.Device.{CountsFailure, TakesSome, AppendsPrefix};

use thiserror::Error;

/// A call of a device failed.
#[derive(Clone, Copy, Debug, PartialEq, Eq, Error)]
#[error("the device failed")]
pub struct DeviceFault;

/// A source of bytes.
pub trait Input {
    /// The bytes that are left, if they are known.
    ghost remaining: { Self → Option (List ℕ) };

    /// The number of calls that have failed.
    ghost failures: { Self → ℕ };

    /// Reads the next bytes into the start of `piece`, and returns their number. `Ok(0)` for a piece that isn't empty
    /// is the end of the input. A call that returns an error reads no bytes.
    fn read(&mut self, piece: &mut [u8]) -> Result<usize, DeviceFault>
        ensures bound { IfOk result (λ n. n ≤ length piece.new) }
        ensures bytes { ReadConsumes (remaining self.old) (remaining self.new) result piece.new }
        ensures failures { CountsFailure result (failures self.old) (failures self.new) };

    /// Skips up to `count` of the next bytes, and returns their number. `Ok(0)` does not mean the end of the input: an
    /// input may skip nothing, and the bytes are then read. A call that returns an error skips no bytes. An input with no
    /// `skip` of its own skips nothing.
    fn skip(&mut self, count: u64) -> Result<u64, DeviceFault>
        ensures bound { IfOk result (λ n. n ≤ count) }
        ensures bytes { ConsumesCount (remaining self.old) (remaining self.new) result }
        ensures failures { CountsFailure result (failures self.old) (failures self.new) }
    {
        let _ = count;
        Ok(0)
    }
}

/// A destination of bytes.
pub trait Output {
    /// The bytes that were written, if they are known.
    ghost written: { Self → Option (List ℕ) };

    /// The number of calls that have failed.
    ghost failures: { Self → ℕ };

    /// Writes the first `n` bytes of `piece` and returns `n`, at least 1 for a piece that isn't empty. A call that
    /// returns an error writes no bytes.
    fn write(&mut self, piece: &[u8]) -> Result<usize, DeviceFault>
        ensures some { IfOk result (TakesSome piece.now) }
        ensures bytes { WriteAppends (written self.old) (written self.new) result piece.now }
        ensures failures { CountsFailure result (failures self.old) (failures self.new) };
}

/// Writes all of `bytes`. The only error is the output's failure. A prefix of them was then written.
pub fn put<O: Output>(out: &mut O, bytes: &[u8]) -> Result<(), DeviceFault>
    ensures all { OnOk result (Appends (O.written out.old) (O.written out.new) bytes.now) }
    ensures prefix { OnErr result
        (AppendsPrefix (O.written out.old) (O.written out.new) bytes.now) }
    ensures failures { CountsFailure result (O.failures out.old) (O.failures out.new) }
{
    let mut rest = bytes;
    while !rest.is_empty() {
        let taken = out.write(rest)?;
        rest = &rest[taken..];
    }
    Ok(())
}
