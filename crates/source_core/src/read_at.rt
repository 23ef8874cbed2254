//! Files that are read at an offset.
ghost use Rattle.std.specs.Prelude.{◌≡◌, ◌≤◌, Option, List, ℕ, None, length, IfOk, IfSome};
ghost use Rattle.source_core.specs.Device.{HoldsPart};

use devices::{DeviceFault, Positioned, SystemFile};
use std::io::{AsBytes, Cursor, Read, Seek};
use std::os::unix::fs::FileExt;

/// A file that is read at an offset. `std` doesn't state that such a read returns the bytes there;
/// this trait does.
pub trait ReadAt {
    /// The file's bytes, if they are known.
    ghost contents: { Self → Option (List ℕ) };

    /// Returns the number of the file's bytes.
    fn end(&mut self) -> Result<u64, DeviceFault>
        ensures end { IfSome (contents self.old) (λ bytes.
            IfOk result (λ end. end ≡ length bytes)) }
        ensures kept { contents self.new ≡ contents self.old };

    /// Reads the bytes from the offset `at` on into the start of `piece`, and returns their number.
    /// `Ok(0)` for a piece that isn't empty is the end of the file.
    fn read_at(&mut self, at: u64, piece: &mut [u8]) -> Result<usize, DeviceFault>
        ensures bound { IfOk result (λ n. n ≤ length piece.old) }
        ensures bytes { IfOk result (λ n. HoldsPart (contents self.old) at n piece.new) }
        ensures kept { contents self.new ≡ contents self.old };
}

/// A read is one call of the system, which leaves the file's position as it is.
impl<F: Read + Seek + FileExt> ReadAt for SystemFile<F> {
    ghost contents = { λ _. None };

    fn end(&mut self) -> Result<u64, DeviceFault> {
        self.move_to_end()
    }

    fn read_at(&mut self, at: u64, piece: &mut [u8]) -> Result<usize, DeviceFault> {
        match self.0.read_at(piece, at) {
            Ok(count) => Ok(count),
            Err(_) => Err(DeviceFault),
        }
    }
}

impl<T: AsBytes> ReadAt for Cursor<T> {
    ghost use Rattle.std.specs.Io.Cursor.{cursor_inner};

    ghost contents = { λ c. T.bytes (cursor_inner c) };

    fn end(&mut self) -> Result<u64, DeviceFault> {
        self.move_to_end()
    }

    fn read_at(&mut self, at: u64, piece: &mut [u8]) -> Result<usize, DeviceFault> {
        self.move_to(at)?;
        self.read_on(piece)
    }
}
