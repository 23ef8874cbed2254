//! Files as inputs that skip.
ghost use Rattle.std.specs.Prelude.{◌≡◌, ◌≤◌, ◌<◌, ◌-◌, ◌^◌, ◌⊎◌, length, Some, IfOk, IfSome, OnOk, MatchResult};
ghost use Rattle.std.specs.Io.KnownBytes.{ReadConsumes, ConsumesCount};
ghost use Rattle.devices.specs.Device.{CountsFailure};
ghost use Rattle.devices.specs.Positions.{left_of, moved_on, size_left};

use crate::buffer::PIECE;
use crate::device::{DeviceFault, Input};
use crate::positioned::Positioned;

/// The least number of bytes that a [`FromFile`] skips. A read of fewer costs no more than a seek.
pub const LEAST_SKIP: u64 = 8192;

/// The maximum number of bytes of the read after a skip. Most heads fit, and a head is often all that is needed before
/// the next skip.
const READ_AFTER_SKIP: usize = 2048;

/// A file as an input, which skips by moving the file's position. Its bytes are those from the position on, if the
/// file's stream is known.
#[derive(Debug, Drop)]
pub struct FromFile<F: Positioned> {
    file: F,
    left: u64,
    next_read: usize,
    /// The number of calls that have failed, which only contracts read.
    failures: u64,
    pub ghost left_rule: { left < 2 ^ 63 },
    pub ghost next_read_rule: { 0 < next_read },
    pub ghost size_rule: { left ≤ size_left (F.stream file) left },
}

impl<F: Positioned + Drop> FromFile<F> {
    ghost use Rattle.devices.specs.Files.{file_of, file_failures, file_left};

    /// Creates an input over a file that stands at its start. A move to the file's end determines its size. Where that
    /// fails, as for a pipe, the input skips nothing.
    ///
    /// The only error is that the file can't be set back to its start.
    pub fn new(mut file: F) -> Result<FromFile<F>, DeviceFault>
        ensures left { IfSome (F.stream file) (λ s. IfOk result (λ input.
            (file_left input ≡ length s.bytes) ⊎ (file_left input ≡ 0))) }
        ensures start { IfSome (F.stream file) (λ s. s.position ≡ 0
            → IfOk result (λ input. F.stream (file_of input) ≡ Some s)) }
        ensures failures { IfOk result (λ input. file_failures input ≡ 0) }
    {
        let left = size_of(&mut file)?;
        Ok(FromFile {
            file,
            left,
            next_read: usual_read(left),
            failures: 0,
        })
    }
}

/// Returns the maximum number of bytes of a read, if this many are left to skip.
fn usual_read(left: u64) -> usize
    ensures { 0 < result }
{
    if left == 0 { usize::MAX } else { PIECE }
}

/// Returns the size of a file, and sets the file to its start. Returns 0 if the file has no end to move to, or if its
/// size isn't below 2^63.
fn size_of<F: Positioned>(file: &mut F) -> Result<u64, DeviceFault>
    ensures size { IfSome (F.stream file.old) (λ s.
        IfOk result (λ size. (size ≡ length s.bytes) ⊎ (size ≡ 0))) }
    ensures limit { IfOk result (λ size. size < 2 ^ 63) }
    ensures start { IfSome (F.stream file.old) (λ s. s.position ≡ 0
        → OnOk result (F.stream file.new ≡ Some s)) }
    ensures left { IfOk result (λ size. size ≤ size_left (F.stream file.new) size) }
{
    match file.move_to_end() {
        Ok(size) => match file.move_to(0) {
            Ok(()) if size < 1 << 63 => Ok(size),
            Ok(()) => Ok(0),
            Err(_) => Err(DeviceFault),
        },
        Err(_) => Ok(0),
    }
}

impl<F: Positioned> Input for FromFile<F> {
    ghost use Rattle.devices.specs.Files.{file_of, file_failures, file_left, skippable};

    ghost remaining = { λ f. left_of (F.stream (file_of f)) };

    ghost failures = { file_failures };

    /// Reads at most [`PIECE`] bytes, and after a skip at most 2,048. If no byte is left to skip, as of a pipe, it reads
    /// as many as the file returns.
    fn read(&mut self, piece: &mut [u8]) -> Result<usize, DeviceFault>
        ensures bound { IfOk result (λ n. n ≤ length piece.new) }
        ensures bytes { ReadConsumes (left_of (F.stream (file_of self.old)))
            (left_of (F.stream (file_of self.new))) result piece.new }
        ensures failures { CountsFailure result (file_failures self.old) (file_failures self.new) }
        ensures left { MatchResult result (λ n. file_left self.new ≡ file_left self.old - n)
            (λ _. file_left self.new ≡ file_left self.old) }
    {
        let most = piece.len().min(self.next_read);
        match self.file.read_on(&mut piece[..most]) {
            Ok(count) => {
                self.left = self.left.saturating_sub(count as u64);
                self.next_read = usual_read(self.left);
                Ok(count)
            }
            Err(_) => {
                self.failures = self.failures.saturating_add(1);
                Err(DeviceFault)
            }
        }
    }

    /// Skips by a move: [`LEAST_SKIP`] bytes or more, or none. It never skips past the size that the file had when the
    /// input was created.
    fn skip(&mut self, count: u64) -> Result<u64, DeviceFault>
        ensures bound { IfOk result (λ n. n ≤ count) }
        ensures bytes { ConsumesCount (left_of (F.stream (file_of self.old)))
            (left_of (F.stream (file_of self.new))) result }
        ensures failures { CountsFailure result (file_failures self.old) (file_failures self.new) }
        ensures skips { IfOk result (λ n. n ≡ skippable LEAST_SKIP count (file_left self.old)) }
        ensures left { MatchResult result (λ n. file_left self.new ≡ file_left self.old - n)
            (λ _. file_left self.new ≡ file_left self.old) }
        ensures moves { MatchResult result
            (λ n. F.stream (file_of self.new) ≡ moved_on n (F.stream (file_of self.old)))
            (λ _. F.stream (file_of self.new) ≡ F.stream (file_of self.old)) }
    {
        let most = count.min(self.left);
        if most < LEAST_SKIP {
            return Ok(0);
        }
        match self.file.move_on(most) {
            Ok(()) => {
                self.left -= most;
                self.next_read = READ_AFTER_SKIP;
                Ok(most)
            }
            Err(_) => {
                self.failures = self.failures.saturating_add(1);
                Err(DeviceFault)
            }
        }
    }
}
