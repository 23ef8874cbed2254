//! One of two inputs.
ghost use Rattle.std.specs.Prelude.{◌≡◌, ◌≤◌, IfOk, length};
ghost use Rattle.std.specs.Io.KnownBytes.{ReadConsumes, ConsumesCount};
ghost use Rattle.either.specs.Either.{either};
ghost use Rattle.devices.specs.Device.{CountsFailure};

use crate::device::{DeviceFault, Input};
use either::Either;

impl<L: Input, R: Input> Input for Either<L, R> {
    ghost remaining = { either L.remaining R.remaining };

    ghost failures = { either L.failures R.failures };

    fn read(&mut self, piece: &mut [u8]) -> Result<usize, DeviceFault> {
        match self {
            Either::Left(input) => input.read(piece),
            Either::Right(input) => input.read(piece),
        }
    }

    fn skip(&mut self, count: u64) -> Result<u64, DeviceFault> {
        match self {
            Either::Left(input) => input.skip(count),
            Either::Right(input) => input.skip(count),
        }
    }
}
