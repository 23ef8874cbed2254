//! The data and the trailer of a member, over the bytes that are held of it.

use crate::trailer::{TRAILER, compare_trailer};
use crate::window::Window;
use crc_32::Crc32;
use deflate_bits::{BitBuffer, DeflateFault};
use deflate_symbols::{Stop, Stopped};
use inflate::Inflater;
use std::alloc::{AllocError, Global};

/// What comes next of a member.
#[derive(Clone, Copy, Debug)]
pub enum Stage {
    /// Its data.
    Data,
    /// Its trailer.
    Trailer,
    /// What is behind it.
    Ended,
    /// It is no member, for this fault.
    Refused(DeflateFault),
}

/// A member behind its header: the text that was unpacked last, and what is known of the text
/// before.
#[derive(Drop)]
pub struct Body {
    pub(crate) inflater: Inflater,
    pub(crate) window: Window,
    /// How many bits of the next byte were taken.
    pub(crate) bits: u64,
    /// The checksum of the text so far.
    pub(crate) checksum: u32,
    /// The length of the text so far modulo 2^32.
    pub(crate) size: u32,
    pub(crate) stage: Stage,
    pub ghost few: { bits ≤ 7 },
    pub ghost given: { window.given ≤ length window.text },
}

ghost use Rattle.std.specs.Prelude.{◌≡◌, ◌+◌, ◌≤◌, ◌<◌, ◌%◌, ◌/◌, ◌*◌, ◌-◌, ◌^◌, length};
ghost use Rattle.deflate_bits.specs.Buffers.{Buffers, bit_offset};

/// Returns the bits of some bytes, of which the first `taken` were taken.
fn bits_behind(bytes: &[u8], taken: u64) -> BitBuffer
    requires few { taken ≤ 7 }
    requires some { 0 < taken → 0 < length bytes.now }
    ensures buffers { Buffers bytes.now result }
    ensures offset { bit_offset result ≡ taken }
{
    let front = BitBuffer::at(bytes, 0);
    if taken == 0 {
        front
    } else {
        front.refill_to_end(bytes).skip(bytes, taken)
    }
}

/// What was taken of some bytes: whole bytes, and bits of the next one.
#[derive(Clone, Copy)]
struct Taken {
    bytes: usize,
    bits: u64,
}

/// Returns what was taken of some bytes.
fn taken_of(bytes: &[u8], held: BitBuffer) -> Taken
    requires { Buffers bytes.now held }
    ensures bytes { result.bytes ≡ bit_offset held / 8 }
    ensures bits { result.bits ≡ bit_offset held % 8 }
    ensures inside { bit_offset held ≤ 8 * length bytes.now }
{
    let _ = bytes;
    Taken {
        bytes: held.next - held.count.div_ceil(8) as usize,
        bits: (8 - held.count % 8) % 8,
    }
}

/// Returns the length of a text with more behind it, modulo 2^32.
fn longer(size: u32, count: usize) -> u32
    ensures { result ≡ (size + count) % 2 ^ 32 }
{
    ((u64::from(size) + count as u64 % (1 << 32)) % (1 << 32)) as u32
}

impl Body {
    ghost use Rattle.std.specs.Prelude.{◌≡◌, ◌++◌, ◌≤◌, ◌<◌, ◌⊎◌, Bool, true, false, List, [], ℕ};
    ghost use Rattle.std.specs.Prelude.{length, min, take, drop, nat_lt, IfOk};
    ghost use Rattle.inflate.specs.Inflating.{place_of};
    ghost use Rattle.inflate.specs.Heads.{AtBlock};
    ghost use Rattle.gzip_members.specs.Bodies.{fault_of, is_over, left_in, text_so_far, GivesLeft};
    ghost use Rattle.gzip_members.specs.Bodies.{GoesOn};
    ghost use Rattle.gzip_members.specs.Windows.{pending};

    /// Creates a body of which nothing is left. The only error is refused memory.
    pub fn new(alloc: Global) -> Result<Body, AllocError>
        ensures stage { IfOk result (λ body. body.stage ≡ Stage.Ended) }
        ensures bits { IfOk result (λ body. body.bits ≡ 0) }
        ensures text { IfOk result (λ body. pending body.window ≡ []) }
    {
        Ok(Body {
            inflater: Inflater::new(alloc)?,
            window: Window::new(alloc)?,
            bits: 0,
            checksum: 0,
            size: 0,
            stage: Stage::Ended,
        })
    }

    /// Begins a member's data.
    pub fn restart(&mut self)
        ensures stage { self.new.stage ≡ Stage.Data }
        ensures place { place_of self.new.inflater ≡ AtBlock }
        ensures bits { self.new.bits ≡ 0 }
        ensures text { text_so_far self.new
            ≡ record { text = []; given = 0; checksum = 0; size = 0 } }
    {
        self.inflater.restart();
        self.window.clear();
        self.bits = 0;
        self.checksum = 0;
        self.size = 0;
        self.stage = Stage::Data;
    }

    /// Unpacks data, and returns how many of the bytes were taken. All text was given out.
    fn unpack(&mut self, crc: &Crc32, bytes: &[u8], is_whole: bool) -> usize
        requires stage { self.old.stage ≡ Stage.Data }
        requires given { pending self.old.window ≡ [] }
        requires some { 0 < self.old.bits → 0 < length bytes.now }
        ensures inside { result ≤ length bytes.now }
        ensures some { 0 < self.new.bits → result < length bytes.now }
        ensures moves { GoesOn self.old.stage self.new.stage self.new.window is_whole
            (length bytes.now - result) }
        ensures left { (more : List ℕ) → (is_whole ≡ true → more ≡ [])
            → left_in self.old (bytes.now ++ more) ≡ left_in self.new (drop result
            (bytes.now ++ more)) }
    {
        self.window.slide();
        let _is_place = self.inflater.has_ended();
        let from = self.window.len();
        let held = bits_behind(bytes, self.bits);
        match self
            .window
            .unpack(&mut self.inflater, bytes, is_whole, held)
        {
            Ok(stopped) => {
                let text = self.window.since(from);
                self.checksum = crc.update(self.checksum, text);
                self.size = longer(self.size, text.len());
                self.stop_at(bytes, stopped)
            }
            Err(fault) => {
                self.stage = Stage::Refused(fault);
                self.bits = 0;
                0
            }
        }
    }

    /// Compares the trailer, and returns how many of the bytes were taken.
    fn close(&mut self, bytes: &[u8], is_whole: bool) -> usize
        requires stage { self.old.stage ≡ Stage.Trailer }
        requires enough { (8 ≤ length bytes.now) ⊎ (is_whole ≡ true) }
        ensures inside { result ≤ length bytes.now }
        ensures bits { self.new.bits ≡ 0 }
        ensures over { is_over self.new.stage ≡ true }
        ensures left { (more : List ℕ) → (is_whole ≡ true → more ≡ [])
            → left_in self.old (bytes.now ++ more) ≡ left_in self.new (drop result
            (bytes.now ++ more)) }
    {
        self.bits = 0;
        match compare_trailer(bytes, self.checksum, self.size) {
            Ok(()) => {
                self.stage = Stage::Ended;
                TRAILER
            }
            Err(fault) => {
                self.stage = Stage::Refused(fault);
                0
            }
        }
    }

    /// Goes on from where unpacking stopped, and returns how many of the bytes were taken.
    fn stop_at(&mut self, bytes: &[u8], stopped: Stopped) -> usize
        requires { Buffers bytes.now stopped.moved.held }
        ensures inside { result ≤ length bytes.now }
        ensures some { 0 < self.new.bits → result < length bytes.now }
        ensures inflater { self.new.inflater ≡ self.old.inflater }
        ensures text { text_so_far self.new ≡ text_so_far self.old }
        ensures ended { stopped.stop ≡ Stop.Ended → (self.new.stage ≡ Stage.Trailer)
            × (result ≡ (bit_offset stopped.moved.held + 7) / 8) }
        ensures paused { stopped.stop ≡ Stop.Paused → (self.new.stage ≡ self.old.stage)
            × (self.new.bits ≡ bit_offset stopped.moved.held % 8)
            × (result ≡ bit_offset stopped.moved.held / 8) }
    {
        match stopped.stop {
            Stop::Ended => {
                self.stage = Stage::Trailer;
                self.bits = 0;
                stopped.moved.held.byte_offset(bytes)
            }
            Stop::Paused => {
                let taken = taken_of(bytes, stopped.moved.held);
                self.bits = taken.bits;
                taken.bytes
            }
        }
    }

    /// Goes on over the bytes that are held of the member, and returns how many of them were taken.
    /// All text was given out. `is_whole` says that nothing comes behind them.
    pub fn step(&mut self, crc: &Crc32, bytes: &[u8], is_whole: bool) -> usize
        requires more { is_over self.old.stage ≡ false }
        requires given { pending self.old.window ≡ [] }
        requires some { 0 < self.old.bits → 0 < length bytes.now }
        ensures inside { result ≤ length bytes.now }
        ensures some { 0 < self.new.bits → result < length bytes.now }
        ensures moves { GoesOn self.old.stage self.new.stage self.new.window is_whole
            (length bytes.now - result) }
        ensures left { (more : List ℕ) → (is_whole ≡ true → more ≡ [])
            → left_in self.old (bytes.now ++ more) ≡ left_in self.new (drop result
            (bytes.now ++ more)) }
    {
        match self.stage {
            Stage::Data => self.unpack(crc, bytes, is_whole),
            Stage::Trailer => {
                if bytes.len() >= TRAILER || is_whole {
                    self.close(bytes, is_whole)
                } else {
                    0
                }
            }
            Stage::Ended => unreachable!(),
            Stage::Refused(_) => unreachable!(),
        }
    }

    /// Reads no more of the member.
    pub fn refuse(&mut self, fault: DeflateFault)
        ensures stage { self.new.stage ≡ Stage.Refused fault }
        ensures window { self.new.window ≡ self.old.window }
        ensures bits { self.new.bits ≡ 0 }
    {
        self.stage = Stage::Refused(fault);
        self.bits = 0;
    }

    /// Gives the next text into the start of `piece`, and returns its length.
    pub fn give(&mut self, piece: &mut [u8]) -> usize
        ensures count { result ≤ length piece.new }
        ensures some { 0 < length piece.new → result ≡ 0
            → length self.old.window.text ≤ self.old.window.given }
        ensures stage { self.new.stage ≡ self.old.stage }
        ensures bits { self.new.bits ≡ self.old.bits }
        ensures text { self.new.window.text ≡ self.old.window.text }
        ensures given { self.new.window.given ≡ self.old.window.given + result }
        ensures left { (bytes : List ℕ)
            → GivesLeft (left_in self.old bytes) (left_in self.new bytes)
            (take result piece.new) }
    {
        self.window.give(piece)
    }

    /// Passes over up to `count` bytes of the next text, and returns their number.
    pub fn skip(&mut self, count: u64) -> usize
        ensures count { result ≡ min count (length (pending self.old.window)) }
        ensures stage { self.new.stage ≡ self.old.stage }
        ensures bits { self.new.bits ≡ self.old.bits }
        ensures left { (bytes : List ℕ)
            → GivesLeft (left_in self.old bytes) (left_in self.new bytes)
            (take result (pending self.old.window)) }
    {
        self.window.skip(count)
    }

    /// Passes over all text that was unpacked.
    pub fn pass(&mut self)
        ensures stage { self.new.stage ≡ self.old.stage }
        ensures bits { self.new.bits ≡ self.old.bits }
        ensures given { self.new.window.given ≡ length self.new.window.text }
        ensures left { (bytes : List ℕ)
            → GivesLeft (left_in self.old bytes) (left_in self.new bytes)
            (drop self.old.window.given self.old.window.text) }
    {
        self.window.pass();
    }

    /// Returns why it is no member, if it was refused.
    pub fn fault(&self) -> Option<DeflateFault>
        ensures { result ≡ fault_of self.now.stage }
    {
        match self.stage {
            Stage::Data => None,
            Stage::Trailer => None,
            Stage::Ended => None,
            Stage::Refused(fault) => Some(fault),
        }
    }

    /// Returns whether nothing comes next of the member.
    pub fn is_over(&self) -> bool
        ensures { result ≡ is_over self.now.stage }
    {
        match self.stage {
            Stage::Data => false,
            Stage::Trailer => false,
            Stage::Ended => true,
            Stage::Refused(_) => true,
        }
    }

    /// Returns whether there is text that wasn't given out.
    pub fn has_text(&self) -> bool
        ensures { result ≡ nat_lt self.now.window.given (length self.now.window.text) }
    {
        self.window.has_text()
    }
}
