//! Bytes that were read from an input and not yet taken.
ghost use Rattle.std.specs.Prelude.{◌≡◌, ℕ, ◌+◌, ◌-◌, ◌<◌, ◌≤◌, List, [], length, drop, take};
ghost use Rattle.std.specs.Prelude.{slice_get, IfOk, OnOk, OnErr, Ok};
ghost use Rattle.std.specs.Io.KnownBytes.{Keeps, IsAtEnd, ReadConsumes, prepend_known};
ghost use Rattle.devices.specs.Device.{CountsFailure};

use devices::{DeviceFault, Input};
use std::alloc::{AllocError, Global};
use std::marker::Model;

/// The number of bytes that are read ahead at most.
pub const AHEAD: usize = 131_072;

/// The least room that is left for a read, in bytes. What is held is moved to the front where there
/// is less.
const LEAST_ROOM: usize = 65_536;

/// The most that may be held in front of a read, in bytes.
pub const MOST_HELD: usize = 8192;

/// Bytes that were read from an input and not yet taken, at most [`AHEAD`] of them. It does not
/// hold the input.
#[derive(Drop)]
pub struct ReadAhead {
    bytes: Vec<u8>,
    from: usize,
    to: usize,
}

impl Model for ReadAhead {
    ghost use Rattle.std.specs.Prelude.{◌≡◌, ℕ, ◌-◌, ◌≤◌, List, length, drop, take};
    ghost use Rattle.gzip_members.specs.declared.read_ahead.TheConstants.{AHEAD};

    ghost Value = { List ℕ };

    ghost view = { λ b. take (b.to - b.from) (drop b.from b.bytes.items) };

    ghost invariant = { λ b. (b.from ≤ b.to) × (b.to ≤ length b.bytes.items)
        × (length b.bytes.items ≡ AHEAD) };
}

impl ReadAhead {
    /// Creates a buffer that holds nothing. The only error is refused memory.
    pub fn new(alloc: Global) -> Result<ReadAhead, AllocError>
        ensures { IfOk result (λ b. b ≡ []) }
    {
        let bytes = vec![in alloc; 0; AHEAD]?;
        Ok(ReadAhead {
            bytes,
            from: 0,
            to: 0,
        })
    }

    /// Returns the bytes that are held.
    #[inline(always)]
    pub fn as_slice(&self) -> &[u8]
        ensures { result.now ≡ self.now }
    {
        &self.bytes.as_slice()[self.from..self.to]
    }

    /// Returns the first byte, if any is held.
    #[inline(always)]
    pub fn first(&self) -> Option<u8>
        ensures { result ≡ slice_get self.now 0 }
    {
        self.as_slice().first().copied()
    }

    /// Takes the first `count` bytes.
    #[inline(always)]
    pub fn consume(&mut self, count: usize)
        requires { count ≤ length self.old }
        ensures { self.new ≡ drop count self.old }
    {
        self.from += count;
    }

    /// Reads once from the input, behind what is held. `Ok(0)` is the end of the input.
    ///
    /// The only error is the input's failure. What is held is then as it was.
    #[tactic(auto, using(crate::proofs::ReadAheadLemmas::read_rules))]
    pub fn read_on<I: Input>(&mut self, input: &mut I) -> Result<usize, DeviceFault>
        requires { length self.old ≤ MOST_HELD }
        ensures bytes { Keeps (prepend_known self.old (I.remaining input.old))
            (prepend_known self.new (I.remaining input.new)) }
        ensures grown { IfOk result (λ n. length self.new ≡ length self.old + n) }
        ensures end { result ≡ Ok 0 → IsAtEnd (I.remaining input.new) }
        ensures err { OnErr result (self.new ≡ self.old) }
        ensures failures { CountsFailure result (I.failures input.old) (I.failures input.new) }
    {
        let refilled = refill(input, self.bytes.as_mut_slice(), self.from, self.to);
        self.from -= refilled.moved;
        self.to -= refilled.moved;
        let count = refilled.read?;
        self.to += count;
        Ok(count)
    }
}

/// How far what is held was moved to the front, in bytes, and what a read behind it answered.
#[derive(Drop)]
struct Refilled {
    moved: usize,
    read: Result<usize, DeviceFault>,
}

/// Reads once from the input, behind the bytes between `from` and `to`.
#[tactic(auto, using(crate::proofs::ReadAheadLemmas::held_rules))]
fn refill<I: Input>(input: &mut I, bytes: &mut [u8], from: usize, to: usize) -> Refilled
    requires size { length bytes.old ≡ AHEAD }
    requires order { from ≤ to }
    requires inside { to ≤ AHEAD }
    requires few { to ≤ from + MOST_HELD }
    ensures size { length bytes.new ≡ AHEAD }
    ensures moved { result.moved ≤ from }
    ensures held { take (to - from) (drop (from - result.moved) bytes.new)
        ≡ take (to - from) (drop from bytes.old) }
    ensures bound { IfOk result.read (λ n. to - result.moved + n ≤ AHEAD) }
    ensures end { result.read ≡ Ok 0 → IsAtEnd (I.remaining input.new) }
    ensures read { ReadConsumes (I.remaining input.old) (I.remaining input.new) result.read
        (drop (to - result.moved) bytes.new) }
    ensures failures { CountsFailure result.read (I.failures input.old) (I.failures input.new) }
{
    let moved = make_room(bytes, from, to);
    let read = read_behind(input, bytes, to - moved);
    Refilled { moved, read }
}

/// Reads once from the input, behind the first `to` bytes.
fn read_behind<I: Input>(input: &mut I, bytes: &mut [u8], to: usize) -> Result<usize, DeviceFault>
    requires { to < length bytes.old }
    ensures size { length bytes.new ≡ length bytes.old }
    ensures front { take to bytes.new ≡ take to bytes.old }
    ensures bound { IfOk result (λ n. to + n ≤ length bytes.new) }
    ensures end { result ≡ Ok 0 → IsAtEnd (I.remaining input.new) }
    ensures read { ReadConsumes (I.remaining input.old) (I.remaining input.new) result
        (drop to bytes.new) }
    ensures failures { CountsFailure result (I.failures input.old) (I.failures input.new) }
{
    input.read(&mut bytes[to..])
}

/// Moves the bytes between `from` and `to` to the front, where there is little room behind them.
/// Returns how far they were moved, in bytes.
fn make_room(bytes: &mut [u8], from: usize, to: usize) -> usize
    requires size { length bytes.old ≡ AHEAD }
    requires order { from ≤ to }
    requires inside { to ≤ AHEAD }
    requires few { to ≤ from + MOST_HELD }
    ensures size { length bytes.new ≡ AHEAD }
    ensures moved { result ≤ from }
    ensures room { to < result + AHEAD }
    ensures same { take (to - from) (drop (from - result) bytes.new)
        ≡ take (to - from) (drop from bytes.old) }
{
    if AHEAD - to < LEAST_ROOM {
        move_to_front(bytes, from, to - from);
        from
    } else {
        0
    }
}

/// Copies `count` bytes from `from` on to the front.
fn move_to_front(bytes: &mut [u8], from: usize, count: usize)
    requires apart { count ≤ from }
    requires inside { from + count ≤ length bytes.old }
    ensures size { length bytes.new ≡ length bytes.old }
    ensures moved { take count bytes.new ≡ take count (drop from bytes.old) }
{
    let (front, back) = bytes.split_at_mut(from);
    front[..count].copy_from_slice(&back[..count]);
}
