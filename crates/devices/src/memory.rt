//! Devices over memory.
ghost use Rattle.std.specs.Prelude.{◌≡◌, ℕ, ◌≤◌, List, [], length, drop, min, Ok, Some, IfOk, IsOk, MatchResult};
ghost use Rattle.std.specs.Io.KnownBytes.{ReadConsumes, ConsumesCount};
ghost use Rattle.devices.specs.Device.{CountsFailure};

use crate::device::{DeviceFault, Input, Output};
use std::alloc::Global;
use std::marker::Model;

/// An input over bytes in memory. Its bytes are known, and it never fails.
#[derive(Debug, Drop)]
pub struct Slice<'a> {
    rest: &'a [u8],
}

impl<'a> Model for Slice<'a> {
    ghost Value = { List ℕ };

    ghost view = { λ s. s.rest.now };
}

impl<'a> Slice<'a> {
    /// Creates an input over these bytes.
    pub fn new(bytes: &'a [u8]) -> Slice<'a>
        ensures { result ≡ bytes.now }
    {
        Slice { rest: bytes }
    }
}

impl Input for Slice<'_> {
    ghost remaining = { λ s. Some s };

    ghost failures = { λ _. 0 };

    fn read(&mut self, piece: &mut [u8]) -> Result<usize, DeviceFault>
        ensures bound { IfOk result (λ n. n ≤ length piece.new) }
        ensures bytes { ReadConsumes (Some self.old) (Some self.new) result piece.new }
        ensures failures { CountsFailure result 0 0 }
        ensures never_fails { IsOk result }
    {
        let count = piece.len().min(self.rest.len());
        let (given, later) = self.rest.split_at(count);
        piece[..count].copy_from_slice(given);
        self.rest = later;
        Ok(count)
    }

    /// Skips as many bytes as it can.
    fn skip(&mut self, count: u64) -> Result<u64, DeviceFault>
        ensures bound { IfOk result (λ n. n ≤ count) }
        ensures bytes { ConsumesCount (Some self.old) (Some self.new) result }
        ensures failures { CountsFailure result 0 0 }
        ensures skips { result ≡ Ok (min count (length self.old)) }
    {
        let skipped = count.min(self.rest.len() as u64);
        self.rest = &self.rest[skipped as usize..];
        Ok(skipped)
    }
}

/// An output that keeps the bytes written to it, in memory. A write fails if memory could not be
/// allocated.
#[derive(Debug, Drop)]
pub struct Gather {
    bytes: Vec<u8>,
    /// The number of calls that have failed, which only contracts read.
    failures: u64,
}

impl Gather {
    ghost use Rattle.devices.specs.Gathered.{gathered, gather_failures};

    /// Creates an output to which nothing was written.
    pub fn new(alloc: Global) -> Gather
        ensures none { gathered result ≡ [] }
        ensures failures { gather_failures result ≡ 0 }
    {
        Gather {
            bytes: Vec::new(alloc),
            failures: 0,
        }
    }

    /// Returns the bytes that were written.
    pub fn bytes(&self) -> &[u8]
        ensures { result.now ≡ gathered self.now }
    {
        self.bytes.as_slice()
    }
}

impl Output for Gather {
    ghost use Rattle.std.specs.Prelude.{Some};
    ghost use Rattle.devices.specs.Gathered.{gathered, gather_failures};

    ghost written = { λ g. Some (gathered g) };

    ghost failures = { gather_failures };

    fn write(&mut self, piece: &[u8]) -> Result<usize, DeviceFault> {
        match self.bytes.extend_from_slice(piece) {
            Ok(()) => Ok(piece.len()),
            Err(_) => {
                self.failures = self.failures.saturating_add(1);
                Err(DeviceFault)
            }
        }
    }
}
