//! The writing of lines as they stand in their indexes.
ghost use Rattle.std.specs.Prelude.{◌≡◌, ◌+◌, ◌-◌, ◌^◌, min, OnOk};
ghost use Rattle.cdxj_core.specs.Members.{line_row};
ghost use Rattle.devices.specs.Device.{Grows};
ghost use Rattle.devices.specs.Writing.{WritesText};
ghost use Rattle.devices.specs.WriteFaults.{CountsWriteFault};

use crate::sink::Sink;
use cdxj_core::Line;
use devices::{Output, WriteFault, put};
use std::alloc::Global;

/// Writes each line that it takes as it stands in its index.
#[derive(Drop)]
pub struct LineWriter {
    /// The number of lines written. It saturates at 2^64 - 1.
    pub count: u64,
}

impl LineWriter {
    /// Creates a writer that has written nothing.
    pub fn new() -> LineWriter
        ensures { result.count ≡ 0 }
    {
        LineWriter { count: 0 }
    }

    #[tactic(auto, using(devices::proofs::DeviceLemmas::grows_part))]
    fn put_line<O: Output>(&mut self, line: &Line, out: &mut O) -> Result<(), WriteFault>
        ensures text { WritesText result (O.written out.old) (O.written out.new)
            (line_row line.now) }
        ensures grows { Grows (O.written out.old) (O.written out.new) }
        ensures count { OnOk result (self.new.count ≡ min (self.old.count + 1) (2 ^ 64 - 1)) }
        ensures failures { CountsWriteFault result (O.failures out.old) (O.failures out.new) }
    {
        put(out, line.line())?;
        out.write(b"\n")?;
        self.count = self.count.saturating_add(1);
        Ok(())
    }
}

impl Sink for LineWriter {
    ghost use Rattle.std.specs.Prelude.{◌≡◌, ◌-◌, ◌^◌, length, min};
    ghost use Rattle.std.specs.Io.KnownBytes.{Appends};
    ghost use Rattle.devices.specs.Device.{AppendsPrefix};
    ghost use Rattle.merge_core.specs.Written.{lines_text};

    ghost Wrote = { λ _ w taken start now. Appends start now (lines_text taken)
        × (w.count ≡ min (length taken) (2 ^ 64 - 1)) };

    ghost Broke = { λ _ taken start now. AppendsPrefix start now (lines_text taken) };

    ghost Enough = { λ _. ⊥ };

    fn take<O: Output>(
        &mut self,
        _alloc: Global,
        lines: &[&Line],
        out: &mut O,
    ) -> Result<bool, WriteFault> {
        for line in lines {
            self.put_line(line, out)?;
        }
        Ok(true)
    }
}
