//! Bytes that are read at any offset.
ghost use Rattle.std.specs.Prelude.{◌≡◌, ◌-◌, ◌^◌, ◌<◌, ◌≤◌, ℕ, Option, List, length, IfSome, IfOk};
ghost use Rattle.std.specs.Prelude.{MatchResult};
ghost use Rattle.source_core.specs.IndexLines.{BeginsFrom};
ghost use Rattle.source_core.specs.LineParts.{IsFrontOf};
ghost use Rattle.devices.specs.Device.{CountsFailure};
ghost use Rattle.source_core.specs.Device.{count_on, HoldsPart, OverText};

use thiserror::Error;

/// A read of a source failed.
#[derive(Clone, Copy, Debug, Drop, PartialEq, Eq, Error)]
#[error("the source can't be read")]
pub struct SourceFault;

/// Bytes that can be read at any offset. Their number never changes.
pub trait Source {
    /// Its bytes, if they are known.
    ghost text: { Self → Option (List ℕ) };

    /// The number of its bytes.
    ghost extent: { Self → ℕ };

    /// The number of reads that failed.
    ghost failures: { Self → ℕ };

    /// The number of bytes that were read.
    ghost gave: { Self → ℕ };

    /// Returns the number of its bytes, which is below 2^63.
    fn size(&self) -> u64
        ensures below { result < 2 ^ 63 }
        ensures extent { result ≡ extent self.now }
        ensures told { IfSome (text self.now) (λ t. length t ≡ extent self.now) };

    /// Reads from the offset `at` on, in bytes from the start, into the first bytes of `piece`.
    /// Returns how many bytes were read: at least one below the size if `piece` isn't empty, none
    /// from the size on. A failed read gives none.
    fn read_at(&mut self, at: u64, piece: &mut [u8]) -> Result<usize, SourceFault>
        ensures text { text self.new ≡ text self.old }
        ensures extent { extent self.new ≡ extent self.old }
        ensures within { IfOk result (λ n. n ≤ length piece.old) }
        ensures inside { IfOk result (λ n. n ≤ extent self.old - at) }
        ensures some { IfOk result (λ n. at < extent self.old → 0 < length piece.old → 0 < n) }
        ensures bytes { IfOk result (λ n. HoldsPart (text self.old) at n piece.new) }
        ensures gave { MatchResult result (λ n. gave self.new ≡ count_on (gave self.old) n) (λ _.
            gave self.new ≡ gave self.old) }
        ensures failures { CountsFailure result (failures self.old) (failures self.new) };

    /// Returns what is known without a read of the first line that begins at the offset `from` or
    /// after it: where it begins, and first bytes of it. Most sources know nothing.
    fn known_line(&self, from: u64) -> Option<(u64, &[u8])>
        ensures begins { OverText (text self.now) (λ t.
            IfSome result (λ line. BeginsFrom from t line.0)) }
        ensures front { OverText (text self.now) (λ t.
            IfSome result (λ line. IsFrontOf t line.0 line.1.now)) }
        ensures short { IfSome result (λ line. length line.1.now ≤ 8192) }
    {
        let _ = from;
        None
    }
}
