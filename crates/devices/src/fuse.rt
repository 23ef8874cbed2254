//! A device that fails at one of its calls, for tests of failures.
ghost use Rattle.std.specs.Prelude.{◌≡◌, ◌+◌, ◌-◌, ◌^◌, ◌<◌, ◌≤◌, ◌↔◌, IsTrue, IfOk, MatchResult, length, min};
ghost use Rattle.std.specs.Io.KnownBytes.{ReadConsumes, ConsumesCount, WriteAppends};
ghost use Rattle.devices.specs.Device.{CountsFailure, TakesSome};

use crate::device::{DeviceFault, Input, Output};

/// A device that limits the bytes per call of an inner device, and fails at one of its own calls.
///
/// The call that fails doesn't reach the inner device; the calls after it do.
#[derive(Debug, Drop)]
pub struct Fuse<D> {
    /// The inner device.
    pub device: D,
    /// The maximum number of bytes that a call moves. 0 counts as 1.
    pub piece: usize,
    /// The number of the call that fails; the first call is 1. With 0 and 2^64 - 1 no call fails.
    pub at: u64,
    /// The number of calls so far. It stops at 2^64 - 1.
    pub calls: u64,
    /// The number of calls that failed, including those that failed in the inner device. It stops at 2^64 - 1.
    pub failures: u64,
}

impl<D> Fuse<D> {
    ghost use Rattle.devices.specs.Fused.{IsNewFuse, IsBlown};

    /// Creates a fuse that has had no call.
    pub fn new(device: D, piece: usize, at: u64) -> Fuse<D>
        ensures { IsNewFuse device piece at result }
    {
        Fuse {
            device,
            piece,
            at,
            calls: 0,
            failures: 0,
        }
    }

    /// Counts a call, and returns whether it is the one that fails.
    pub fn blows(&mut self) -> bool
        ensures call { self.new
            ≡ record self.old { calls = min (self.old.calls + 1) (2 ^ 64 - 1) } }
        ensures at { IsTrue result ↔ IsBlown self.new.calls self.old.at }
    {
        self.calls = self.calls.saturating_add(1);
        self.calls == self.at && self.at < u64::MAX
    }
}

impl<D: Input> Input for Fuse<D> {
    ghost use Rattle.devices.specs.Fused.{IsFusedCall};

    ghost remaining = { λ f. D.remaining f.device };

    ghost failures = { λ f. f.failures };

    fn read(&mut self, piece: &mut [u8]) -> Result<usize, DeviceFault>
        ensures bound { IfOk result (λ n. n ≤ length piece.new) }
        ensures bytes { ReadConsumes (D.remaining self.old.device) (D.remaining self.new.device)
            result piece.new }
        ensures failures { CountsFailure result self.old.failures self.new.failures }
        ensures call { IsFusedCall (λ d. D.failures d) self.old self.new result }
    {
        let most = piece.len().min(self.piece.max(1));
        if !self.blows() {
            if let Ok(count) = self.device.read(&mut piece[..most]) {
                return Ok(count);
            }
        }
        self.failures = self.failures.saturating_add(1);
        Err(DeviceFault)
    }

    fn skip(&mut self, count: u64) -> Result<u64, DeviceFault>
        ensures bound { IfOk result (λ n. n ≤ count) }
        ensures bytes { ConsumesCount (D.remaining self.old.device) (D.remaining self.new.device)
            result }
        ensures failures { CountsFailure result self.old.failures self.new.failures }
        ensures call { IsFusedCall (λ d. D.failures d) self.old self.new result }
    {
        let most = count.min(self.piece.max(1) as u64);
        if !self.blows() {
            if let Ok(skipped) = self.device.skip(most) {
                return Ok(skipped);
            }
        }
        self.failures = self.failures.saturating_add(1);
        Err(DeviceFault)
    }
}

impl<D: Output> Output for Fuse<D> {
    ghost use Rattle.devices.specs.Fused.{IsFusedCall};

    ghost written = { λ f. D.written f.device };

    ghost failures = { λ f. f.failures };

    fn write(&mut self, piece: &[u8]) -> Result<usize, DeviceFault>
        ensures some { IfOk result (TakesSome piece.now) }
        ensures bytes { WriteAppends (D.written self.old.device) (D.written self.new.device) result
            piece.now }
        ensures failures { CountsFailure result self.old.failures self.new.failures }
        ensures call { IsFusedCall (λ d. D.failures d) self.old self.new result }
    {
        let most = piece.len().min(self.piece.max(1));
        if !self.blows() {
            if let Ok(count) = self.device.write(&piece[..most]) {
                return Ok(count);
            }
        }
        self.failures = self.failures.saturating_add(1);
        Err(DeviceFault)
    }
}
