//! A buffered writer of `std` as an output.
ghost use Rattle.std.specs.Prelude.{◌≡◌, ◌≤◌, IfOk, length};

use crate::flush::Flush;
use std::io::{self, BufWriter, Write};
use warc_core::{DeviceFault, Output};

/// A buffered writer of `std` as an output. Its bytes are those of the writer, as far as these are
/// known, unless it hands on replies. If the writer returns `Ok(0)` for a piece that isn't empty,
/// the write fails.
#[derive(Drop)]
pub struct Buffered<W: Write + Drop> {
    writer: BufWriter<W>,
    hands_on_replies: bool,
    reason: Option<io::Error>,
    /// The number of calls that have failed, which only contracts read.
    failures: u64,
}

impl<W: Write + Drop> Buffered<W> {
    ghost use Rattle.tasks.specs.Buffers.{buffer_failures, buffer_written};
    ghost use Rattle.std.specs.Io.Buffered.{writer_contents};

    /// Creates an output over a buffered writer.
    pub fn new(writer: BufWriter<W>) -> Buffered<W>
        ensures bytes { buffer_written W.contents result ≡ writer_contents W.contents writer }
        ensures failures { buffer_failures result ≡ 0 }
    {
        Buffered {
            writer,
            hands_on_replies: false,
            reason: None,
            failures: 0,
        }
    }
}

fn ends_reply(piece: &[u8]) -> bool {
    match piece {
        [b'\n'] | [.., b'.', b'\n'] => true,
        _ => false,
    }
}

/// Writes a piece, and flushes the writer if the piece was taken whole and ends a reply.
fn write_promptly<W: Write>(writer: &mut W, piece: &[u8]) -> Result<usize, io::Error>
    ensures { IfOk result (λ n. n ≤ length piece.now) }
{
    let count = writer.write(piece)?;
    if count == piece.len() && ends_reply(piece) {
        writer.flush()?;
    }
    Ok(count)
}

impl<W: Write + Drop> Output for Buffered<W> {
    ghost use Rattle.tasks.specs.Buffers.{buffer_failures, buffer_written};

    ghost written = { buffer_written W.contents };

    ghost failures = { buffer_failures };

    fn write(&mut self, piece: &[u8]) -> Result<usize, DeviceFault> {
        let taken = if self.hands_on_replies {
            write_promptly(&mut self.writer, piece)
        } else {
            self.writer.write(piece)
        };
        match taken {
            Ok(count) if count > 0 || piece.is_empty() => Ok(count),
            _ => {
                self.failures = self.failures.saturating_add(1);
                Err(DeviceFault)
            }
        }
    }
}

impl<W: Write + Drop> Flush for Buffered<W> {
    ghost use Rattle.tasks.specs.Buffers.{buffer_flushed};

    ghost flushed = { buffer_flushed W.contents };

    fn flush(&mut self) -> Result<(), DeviceFault> {
        match self.writer.flush() {
            Ok(()) => Ok(()),
            Err(reason) => {
                self.reason = Some(reason);
                self.failures = self.failures.saturating_add(1);
                Err(DeviceFault)
            }
        }
    }

    fn hand_on_replies(&mut self) {
        self.hands_on_replies = true;
    }

    fn reason(&self) -> Option<&io::Error> {
        self.reason.as_ref()
    }
}
