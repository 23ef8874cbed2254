//! Outputs with a buffer.
ghost use Rattle.std.specs.Prelude.{◌≡◌, Option, List, ℕ, OnOk};
ghost use Rattle.std.specs.Io.KnownBytes.{Keeps};
ghost use Rattle.devices.specs.Device.{CountsFailure};
ghost use Rattle.tasks.specs.Buffers.{KeepsOrTellsNothing};

use devices::Gather;
use std::io;
use warc_core::{DeviceFault, Output};

/// An output whose bytes may wait in a buffer.
pub trait Flush: Output {
    /// The bytes that have left the buffer, if they are known.
    ghost flushed: { Self → Option (List ℕ) };

    /// Hands on all bytes that were written.
    fn flush(&mut self) -> Result<(), DeviceFault>
        ensures all { OnOk result (flushed self.new ≡ Self.written self.new) }
        ensures bytes { Keeps (Self.written self.old) (Self.written self.new) }
        ensures failures { CountsFailure result (Self.failures self.old) (Self.failures self.new) };

    /// Hands on each reply at once from now on, for a client that waits for it. A reply ends with a
    /// piece that is a single line feed, or that ends with `.` and one. If a reply can't be handed
    /// on, the write of that piece fails. Of an output with a buffer no bytes may be known then,
    /// since a write that fails has written none.
    fn hand_on_replies(&mut self)
        ensures bytes { KeepsOrTellsNothing (Self.written self.old) (Self.written self.new) }
        ensures failures { Self.failures self.new ≡ Self.failures self.old };

    /// Returns the system's reason for the last flush that failed, if there is one.
    fn reason(&self) -> Option<&io::Error>;
}

impl Flush for Gather {
    ghost use Rattle.std.specs.Prelude.{Some};
    ghost use Rattle.devices.specs.Gathered.{gathered};

    ghost flushed = { λ g. Some (gathered g) };

    fn flush(&mut self) -> Result<(), DeviceFault> {
        Ok(())
    }

    fn hand_on_replies(&mut self) {}

    fn reason(&self) -> Option<&io::Error> {
        None
    }
}
