//! An output for a client that waits for each reply.
ghost use Rattle.std.specs.Prelude.{◌≡◌, ◌≤◌, None, IfOk, length, take};
ghost use Rattle.std.specs.Io.KnownBytes.{Appends, WriteAppends};
ghost use Rattle.devices.specs.Device.{CountsFailure, TakesSome};
ghost use Rattle.devices.specs.Prompted.{prompt_failures, prompt_writer};

use crate::device::{DeviceFault, Output};
use std::io;

/// A buffered writer of `std` as an output. Its bytes are not known. If the writer returns `Ok(0)` for a piece that
/// isn't empty, the write fails.
///
/// The writer is flushed after a piece that ends with `.` and a line feed, or that is a single line feed. So a reply
/// whose last line is a `.` written as a piece of its own has left the buffer once that piece was written. If the flush
/// fails, the write of the piece fails.
#[derive(Debug, Drop)]
pub struct Prompt<W> {
    writer: W,
    /// The number of calls that have failed, which only contracts read.
    failures: u64,
}

impl<W> Prompt<W> {
    /// Creates an output over a writer.
    pub fn new(writer: W) -> Prompt<W>
        ensures writer { prompt_writer result ≡ writer }
        ensures failures { prompt_failures result ≡ 0 }
    {
        Prompt {
            writer,
            failures: 0,
        }
    }
}

fn ends_reply(piece: &[u8]) -> bool {
    match piece {
        [b'\n'] | [.., b'.', b'\n'] => true,
        _ => false,
    }
}

/// Writes a piece, and flushes the writer if the piece was taken whole and ends a reply.
fn write_promptly<W: io::Write>(writer: &mut W, piece: &[u8]) -> Result<usize, io::Error>
    ensures bound { IfOk result (λ n. n ≤ length piece.now) }
    ensures writes { IfOk result
        (λ n. Appends (W.contents writer.old) (W.contents writer.new) (take n piece.now)) }
{
    let count = writer.write(piece)?;
    if count == piece.len() && ends_reply(piece) {
        writer.flush()?;
    }
    Ok(count)
}

impl<W: io::Write> Output for Prompt<W> {
    ghost written = { λ _. None };

    ghost failures = { prompt_failures };

    /// Writes as many bytes as the writer takes.
    fn write(&mut self, piece: &[u8]) -> Result<usize, DeviceFault>
        ensures some { IfOk result (TakesSome piece.now) }
        ensures bytes { WriteAppends None None result piece.now }
        ensures failures { CountsFailure result (prompt_failures self.old)
            (prompt_failures self.new) }
        ensures writer { IfOk result (λ n.
            Appends (W.contents (prompt_writer self.old)) (W.contents (prompt_writer self.new))
            (take n piece.now)) }
    {
        match write_promptly(&mut self.writer, piece) {
            Ok(count) if count > 0 || piece.is_empty() => Ok(count),
            _ => {
                self.failures = self.failures.saturating_add(1);
                Err(DeviceFault)
            }
        }
    }
}
