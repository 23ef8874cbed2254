//! A source that fails at one of its calls, for tests of failures.
ghost use Rattle.std.specs.Prelude.{◌≡◌, ◌-◌, ◌<◌, ◌≤◌, length, IfOk, MatchResult};
ghost use Rattle.devices.specs.Device.{CountsFailure};
ghost use Rattle.source_core.specs.Device.{count_on, HoldsPart};

use crate::source::{Source, SourceFault};
use devices::Fuse;

impl<D: Source> Source for Fuse<D> {
    ghost use Rattle.devices.specs.Fused.{IsFusedCall};

    ghost text = { λ f. D.text f.device };

    ghost extent = { λ f. D.extent f.device };

    ghost failures = { λ f. f.failures };

    ghost gave = { λ f. D.gave f.device };

    fn size(&self) -> u64 {
        self.device.size()
    }

    fn read_at(&mut self, at: u64, piece: &mut [u8]) -> Result<usize, SourceFault>
        ensures text { D.text self.new.device ≡ D.text self.old.device }
        ensures extent { D.extent self.new.device ≡ D.extent self.old.device }
        ensures within { IfOk result (λ n. n ≤ length piece.old) }
        ensures inside { IfOk result (λ n. n ≤ D.extent self.old.device - at) }
        ensures some { IfOk result (λ n.
            at < D.extent self.old.device → 0 < length piece.old → 0 < n) }
        ensures bytes { IfOk result (λ n. HoldsPart (D.text self.old.device) at n piece.new) }
        ensures gave { MatchResult result (λ n.
            D.gave self.new.device ≡ count_on (D.gave self.old.device) n) (λ _.
            D.gave self.new.device ≡ D.gave self.old.device) }
        ensures failures { CountsFailure result self.old.failures self.new.failures }
        ensures call { IsFusedCall (λ d. D.failures d) self.old self.new result }
    {
        let most = piece.len().min(self.piece.max(1));
        if !self.blows() {
            if let Ok(count) = self.device.read_at(at, &mut piece[..most]) {
                return Ok(count);
            }
        }
        self.failures = self.failures.saturating_add(1);
        Err(SourceFault)
    }
}
