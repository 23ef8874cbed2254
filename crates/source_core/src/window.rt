//! Bytes of a source that are read once and used again.
ghost use Rattle.std.specs.Prelude.{◌≡◌, ◌+◌, ◌-◌, ◌<◌, ◌≤◌, [], length, IfOk, OnOk, MatchResult};
ghost use Rattle.source_core.specs.Reads.{ReadsSource};
ghost use Rattle.source_core.specs.Device.{HoldsPart};
ghost use Rattle.source_core.specs.Windows.{AreBytesAt, Holds, held_from};

use crate::source::{Source, SourceFault};
use devices::PIECE;
use std::alloc::{AllocError, Global};
use std::marker::Model;

/// The number of bytes that a step of a search reads at once: more than most lines have.
pub(crate) const SEARCH_PIECE: usize = 512;

/// Reads once, from the offset `at` on, into the first `most` bytes of a buffer.
fn read_part<S: Source>(
    source: &mut S,
    at: u64,
    buffer: &mut [u8],
    most: usize,
) -> Result<usize, SourceFault>
    requires { most ≤ length buffer.old }
    ensures source { ReadsSource S.Source result source.old source.new }
    ensures room { length buffer.new ≡ length buffer.old }
    ensures most { IfOk result (λ n. n ≤ most) }
    ensures inside { IfOk result (λ n. n ≤ S.extent source.old - at) }
    ensures some { IfOk result (λ n. at < S.extent source.old → 0 < most → 0 < n) }
    ensures bytes { IfOk result (λ n. HoldsPart (S.text source.old) at n buffer.new) }
    ensures gave { MatchResult result (λ n. S.gave source.new ≤ S.gave source.old + n)
        (λ _. S.gave source.new ≤ S.gave source.old) }
{
    source.read_at(at, &mut buffer[..most])
}

/// Bytes of a source from an offset on, at most [`PIECE`] of them, which stay held until others are
/// read.
#[derive(Drop)]
pub(crate) struct Window {
    buffer: Vec<u8>,
    at: u64,
    count: usize,
}

impl Model for Window {
    ghost use Rattle.std.specs.Prelude.{◌≡◌, ◌≤◌, length, take};
    ghost use Rattle.source_core.specs.Windows.{HeldBytes};

    ghost Value = { HeldBytes };

    ghost view = { λ w. record { at = w.at; bytes = take w.count w.buffer.items } };

    ghost invariant = { λ w. (w.count ≤ length w.buffer.items) × (length w.buffer.items ≡ 8192) };
}

impl Window {
    /// Creates an empty window.
    /// The only error is refused memory.
    pub fn new(alloc: Global) -> Result<Window, AllocError>
        ensures { IfOk result (λ window. window ≡ record { at = 0; bytes = [] }) }
    {
        let buffer = vec![in alloc; 0; PIECE]?;
        Ok(Window {
            buffer,
            at: 0,
            count: 0,
        })
    }

    /// Returns the bytes that are held from the offset `at` on.
    #[tactic(auto, using(crate::proofs::WindowLemmas::held_rest))]
    pub fn from(&self, at: u64) -> &[u8]
        ensures { result.now ≡ held_from self.now at }
    {
        if at < self.at {
            return &[];
        }
        let skipped = self.count.min((at - self.at) as usize);
        &self.buffer.as_slice()[skipped..self.count]
    }

    /// Reads once: at most `most` bytes from the offset `at` on, in place of those that were held.
    /// The only error is that the source failed.
    pub fn read<S: Source>(
        &mut self,
        source: &mut S,
        at: u64,
        most: usize,
    ) -> Result<(), SourceFault>
        requires inside { at ≤ S.extent source.old }
        requires room { most ≤ 8192 }
        ensures source { ReadsSource S.Source result source.old source.new }
        ensures holds { Holds (S.text source.new) (S.extent source.new) self.new }
        ensures at { self.new.at ≡ at }
        ensures most { length self.new.bytes ≤ most }
        ensures held { MatchResult result
            (λ _. at < S.extent source.old → 0 < most → 0 < length self.new.bytes)
            (λ _. self.new.bytes ≡ []) }
        ensures gave { S.gave source.new ≤ S.gave source.old + length self.new.bytes }
    {
        self.at = at;
        self.count = 0;
        self.count = read_part(source, at, self.buffer.as_mut_slice(), most)?;
        Ok(())
    }

    /// Reads once, at most `most` bytes, if no byte at the offset `at` is held. Afterwards one is.
    /// The only error is that the source failed.
    pub fn hold<S: Source>(
        &mut self,
        source: &mut S,
        at: u64,
        most: usize,
    ) -> Result<(), SourceFault>
        requires inside { at < S.extent source.old }
        requires some { 0 < most }
        requires room { most ≤ 8192 }
        ensures source { ReadsSource S.Source result source.old source.new }
        ensures holds { Holds (S.text source.old) (S.extent source.old) self.old
            → Holds (S.text source.new) (S.extent source.new) self.new }
        ensures stands { AreBytesAt (S.text source.old) (S.extent source.old) at
            (held_from self.old at)
            → AreBytesAt (S.text source.new) (S.extent source.new) at (held_from self.new at) }
        ensures some { OnOk result (0 < length (held_from self.new at)) }
        ensures most { S.gave source.new ≤ S.gave source.old + most }
        ensures gave { S.gave source.new + length (held_from self.old at)
            ≤ S.gave source.old + length (held_from self.new at) }
    {
        if self.from(at).is_empty() {
            self.read(source, at, most)?;
        }
        Ok(())
    }
}
