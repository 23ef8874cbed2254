//! Streams that are read at a position, which a seek moves.
ghost use Rattle.std.specs.Prelude.{◌≡◌, ◌≤◌, Option, None, length, IfOk, IfSome, MatchResult, option_map};
ghost use Rattle.std.specs.Io.KnownBytes.{ReadConsumes};
ghost use Rattle.devices.specs.Positions.{Stream, left_of, moved_on, moved_to};

use crate::device::DeviceFault;
use std::io::{AsBytes, Cursor, Read, Seek, SeekFrom};

/// A stream of bytes that is read at its position. `std` doesn't state that a read returns the bytes at the position to
/// which a seek moved; this trait does.
pub trait Positioned {
    /// The stream's bytes and its position, if they are known.
    ghost stream: { Self → Option Stream };

    /// Reads the bytes at the position into the start of `piece`, moves behind them, and returns their number. `Ok(0)`
    /// for a piece that isn't empty is the end of the stream. A call that returns an error reads no bytes.
    fn read_on(&mut self, piece: &mut [u8]) -> Result<usize, DeviceFault>
        ensures bound { IfOk result (λ n. n ≤ length piece.new) }
        ensures bytes { ReadConsumes (left_of (stream self.old)) (left_of (stream self.new))
            result piece.new }
        ensures moves { MatchResult result (λ n. stream self.new ≡ moved_on n (stream self.old))
            (λ _. stream self.new ≡ stream self.old) };

    /// Moves to the position `at`, in bytes from the start. Fails without a move.
    fn move_to(&mut self, at: u64) -> Result<(), DeviceFault>
        ensures moves { MatchResult result (λ _. stream self.new ≡ moved_to at (stream self.old))
            (λ _. stream self.new ≡ stream self.old) };

    /// Moves by `count` bytes towards the end. Fails without a move.
    fn move_on(&mut self, count: u64) -> Result<(), DeviceFault>
        ensures moves { MatchResult result (λ _. stream self.new ≡ moved_on count (stream self.old))
            (λ _. stream self.new ≡ stream self.old) };

    /// Moves to the end, and returns its position. Fails without a move.
    fn move_to_end(&mut self) -> Result<u64, DeviceFault>
        ensures moves { MatchResult result (λ end. stream self.new ≡ moved_to end (stream self.old))
            (λ _. stream self.new ≡ stream self.old) }
        ensures end { IfSome (stream self.old) (λ s. IfOk result (λ end. end ≡ length s.bytes)) };
}

/// A file of the system. The contracts know nothing of its bytes and its position.
#[derive(Debug, Drop)]
pub struct SystemFile<F>(pub F);

impl<F: Read + Seek> Positioned for SystemFile<F> {
    ghost stream = { λ _. None };

    fn read_on(&mut self, piece: &mut [u8]) -> Result<usize, DeviceFault> {
        match self.0.read(piece) {
            Ok(count) => Ok(count),
            Err(_) => Err(DeviceFault),
        }
    }

    fn move_to(&mut self, at: u64) -> Result<(), DeviceFault> {
        match self.0.seek(SeekFrom::Start(at)) {
            Ok(_) => Ok(()),
            Err(_) => Err(DeviceFault),
        }
    }

    fn move_on(&mut self, count: u64) -> Result<(), DeviceFault> {
        let Ok(offset) = i64::try_from(count) else {
            return Err(DeviceFault);
        };
        match self.0.seek(SeekFrom::Current(offset)) {
            Ok(_) => Ok(()),
            Err(_) => Err(DeviceFault),
        }
    }

    fn move_to_end(&mut self) -> Result<u64, DeviceFault> {
        match self.0.seek(SeekFrom::End(0)) {
            Ok(size) => Ok(size),
            Err(_) => Err(DeviceFault),
        }
    }
}

impl<T: AsBytes> Positioned for Cursor<T> {
    ghost use Rattle.std.specs.Io.Cursor.{cursor_position, cursor_inner};

    ghost stream = { λ c. option_map
        (λ bytes. record { position = cursor_position c; bytes = bytes })
        (T.bytes (cursor_inner c)) };

    fn read_on(&mut self, piece: &mut [u8]) -> Result<usize, DeviceFault> {
        match self.read(piece) {
            Ok(count) => Ok(count),
            Err(_) => Err(DeviceFault),
        }
    }

    fn move_to(&mut self, at: u64) -> Result<(), DeviceFault> {
        match self.seek(SeekFrom::Start(at)) {
            Ok(_) => Ok(()),
            Err(_) => Err(DeviceFault),
        }
    }

    fn move_on(&mut self, count: u64) -> Result<(), DeviceFault> {
        let Ok(offset) = i64::try_from(count) else {
            return Err(DeviceFault);
        };
        match self.seek(SeekFrom::Current(offset)) {
            Ok(_) => Ok(()),
            Err(_) => Err(DeviceFault),
        }
    }

    fn move_to_end(&mut self) -> Result<u64, DeviceFault> {
        match self.seek(SeekFrom::End(0)) {
            Ok(size) => Ok(size),
            Err(_) => Err(DeviceFault),
        }
    }
}
