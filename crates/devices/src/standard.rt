//! The readers and writers of `std` as devices.
ghost use Rattle.std.specs.Prelude.{◌≡◌, ◌≤◌, Ok, IfOk, MatchResult, length};
ghost use Rattle.std.specs.Io.KnownBytes.{ReadConsumes, ConsumesCount, WriteAppends};
ghost use Rattle.devices.specs.Device.{CountsFailure, TakesSome};

use crate::device::{DeviceFault, Input, Output};
use std::io;

/// A reader of `std` as an input. Its bytes are those of the reader, as far as these are known.
#[derive(Debug, Drop)]
pub struct FromRead<R> {
    reader: R,
    /// The number of calls that have failed, which only contracts read.
    failures: u64,
}

impl<R> FromRead<R> {
    ghost use Rattle.devices.specs.FromStd.{reader_of, read_failures};

    /// Creates an input over a reader.
    pub fn new(reader: R) -> FromRead<R>
        ensures reader { reader_of result ≡ reader }
        ensures failures { read_failures result ≡ 0 }
    {
        FromRead {
            reader,
            failures: 0,
        }
    }
}

impl<R: io::Read> Input for FromRead<R> {
    ghost use Rattle.devices.specs.FromStd.{reader_of, read_failures};

    ghost remaining = { λ f. R.remaining (reader_of f) };

    ghost failures = { read_failures };

    /// Reads as many bytes as the reader returns.
    fn read(&mut self, piece: &mut [u8]) -> Result<usize, DeviceFault> {
        match self.reader.read(piece) {
            Ok(count) => Ok(count),
            Err(_) => {
                self.failures = self.failures.saturating_add(1);
                Err(DeviceFault)
            }
        }
    }

    /// Skips nothing.
    fn skip(&mut self, count: u64) -> Result<u64, DeviceFault>
        ensures bound { IfOk result (λ n. n ≤ count) }
        ensures bytes { ConsumesCount (R.remaining (reader_of self.old))
            (R.remaining (reader_of self.new)) result }
        ensures failures { CountsFailure result (read_failures self.old) (read_failures self.new) }
        ensures none { (result ≡ Ok 0) × (self.new ≡ self.old) }
    {
        let _ = count;
        Ok(0)
    }
}

/// A writer of `std` as an output. Its bytes are those of the writer, as far as these are known. If the writer returns
/// `Ok(0)` for a piece that isn't empty, the write fails.
#[derive(Debug, Drop)]
pub struct FromWrite<W> {
    writer: W,
    /// The number of calls that have failed, which only contracts read.
    failures: u64,
}

impl<W> FromWrite<W> {
    ghost use Rattle.devices.specs.FromStd.{writer_of, write_failures};

    /// Creates an output over a writer.
    pub fn new(writer: W) -> FromWrite<W>
        ensures writer { writer_of result ≡ writer }
        ensures failures { write_failures result ≡ 0 }
    {
        FromWrite {
            writer,
            failures: 0,
        }
    }
}

impl<W: io::Write> Output for FromWrite<W> {
    ghost use Rattle.devices.specs.FromStd.{writer_of, write_failures};

    ghost written = { λ f. W.contents (writer_of f) };

    ghost failures = { write_failures };

    /// Writes as many bytes as the writer takes.
    fn write(&mut self, piece: &[u8]) -> Result<usize, DeviceFault> {
        match self.writer.write(piece) {
            Ok(count) if count > 0 || piece.is_empty() => Ok(count),
            _ => {
                self.failures = self.failures.saturating_add(1);
                Err(DeviceFault)
            }
        }
    }
}
