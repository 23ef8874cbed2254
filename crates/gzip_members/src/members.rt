//! The members of a file, one after another.
ghost use Rattle.std.specs.Io.KnownBytes.{prepend_known, IsAtEnd};
ghost use Rattle.std.specs.Prelude.{◌≡◌, ◌⊎◌, ◌+◌, ◌-◌, ◌^◌, ◌≤◌, ◌<◌, [], true, false, length, take};
ghost use Rattle.std.specs.Prelude.{Ok, IfOk, OnOk, OnErr, Bool, Err, Some, Result, List, ℕ};
ghost use Rattle.deflate_bits.specs.declared.fault.DeflateFault.{DeflateFault};
ghost use Rattle.devices.specs.Device.{CountsFailure};

use crate::body::Body;
use crate::checked_input::CheckedInput;
use crate::fault::MemberFault;
use crate::read_ahead::ReadAhead;
use crc_32::Crc32;
use deflate_bits::DeflateFault;
use devices::{DeviceFault, Input};
use std::alloc::{AllocError, Global};

/// A compressed file, of which the members are read one after another. It takes some 300 kB,
/// whatever they hold.
#[derive(Drop)]
pub struct Members<I: Input> {
    pub source: CheckedInput<I>,
    pub body: Body,
    /// Whether the member would end at 2^63 or above, in bytes from the file's start.
    pub is_too_far: bool,
    pub ghost partial: { 0 < body.bits → 0 < length source.ahead },
    pub ghost far: { is_too_far ≡ true → 2 ^ 63 - 1 < source.passed + length source.ahead },
}

impl<I: Input> Members<I> {
    ghost use Rattle.gzip_members.specs.Reading.{CountsMember, Moves, PassesOver, taken};
    ghost use Rattle.gzip_members.specs.Windows.{pending};
    ghost use Rattle.gzip_members.specs.Bodies.{is_over};
    ghost use Rattle.gzip_members.specs.Left.{BeginsMember, EndsMember, GivesText, RefusesMember};
    ghost use Rattle.gzip_members.specs.Left.{PassesRest, PassesText, SkipsText, left_of, waits};
    ghost use Rattle.gzip_members.specs.Left.{work_left};
    ghost use Rattle.gzip_members.specs.declared.read_ahead.TheConstants.{MOST_HELD};

    /// Creates a file of which nothing was read. The only error is refused memory.
    pub fn new(alloc: Global, input: I) -> Result<Members<I>, AllocError>
    where
        I: Drop,
        ensures ahead { IfOk result (λ m. m.source.ahead ≡ []) }
        ensures input { IfOk result (λ m. m.source.input ≡ input) }
        ensures passed { IfOk result (λ m. m.source.passed ≡ 0) }
        ensures near { IfOk result (λ m. m.is_too_far ≡ false) }
        ensures over { IfOk result (λ m. is_over m.body.stage ≡ true) }
        ensures text { IfOk result (λ m. pending m.body.window ≡ []) }
    {
        let source = CheckedInput {
            input,
            ahead: ReadAhead::new(alloc)?,
            crc: Crc32::new(alloc)?,
            checksum: 0,
            passed: 0,
        };
        Ok(Members {
            source,
            body: Body::new(alloc)?,
            is_too_far: false,
        })
    }

    /// Passes over the next `count` bytes of the file, or all if there are fewer, and returns
    /// whether there were enough. A member that was begun is not read further. The only error is
    /// the input's failure.
    pub fn pass_over(&mut self, count: u64) -> Result<bool, DeviceFault>
        requires { self.old.source.passed + count ≤ 2 ^ 63 - 1 }
        ensures bytes { OnOk result (PassesOver count (taken self.old.source).ahead
            (taken self.new.source).ahead) }
        ensures passed { result ≡ Ok true
            → self.new.source.passed ≡ self.old.source.passed + count }
        ensures end { result ≡ Ok false → IsAtEnd (taken self.new.source).ahead }
        ensures moves { Moves (taken self.old.source) (taken self.new.source) }
        ensures failures { CountsFailure result (I.failures self.old.source.input)
            (I.failures self.new.source.input) }
    {
        self.body.restart();
        self.body.refuse(DeflateFault::Cut);
        self.is_too_far = false;
        self.source.pass_over(count)
    }

    /// Begins the member that begins with the next bytes, and returns whether one does; or else the
    /// file has ended.
    ///
    /// Errors are `Read`; `NoMember` for other bytes than those that a member begins with; `Bad`
    /// and `Cut` for a header that is none or goes on behind the file's end; and `TooFar`.
    pub fn begin(&mut self) -> Result<bool, MemberFault>
        ensures member { (bytes : List ℕ)
            → prepend_known self.old.source.ahead (I.remaining self.old.source.input) ≡ Some bytes
            → self.old.source.passed + length bytes ≤ 2 ^ 63 - 1
            → BeginsMember bytes result (left_of self.new) }
        ensures further { result ≡ Ok true → self.old.source.passed < self.new.source.passed }
        ensures moves { Moves (taken self.old.source) (taken self.new.source) }
        ensures failures { CountsMember result (I.failures self.old.source.input)
            (I.failures self.new.source.input) }
    {
        self.body.restart();
        self.is_too_far = false;
        match self.source.start() {
            Ok(begins) => {
                if !begins {
                    self.body.refuse(DeflateFault::Cut);
                }
                Ok(begins)
            }
            Err(fault) => {
                self.body.refuse(DeflateFault::Cut);
                Err(fault)
            }
        }
    }

    /// Goes on over the bytes that are held of the member, of which all text was given out.
    /// `is_whole` says that nothing comes behind them.
    fn step(&mut self, is_whole: bool)
        requires more { is_over self.old.body.stage ≡ false }
        requires given { pending self.old.body.window ≡ [] }
        requires end { is_whole ≡ true → IsAtEnd (I.remaining self.old.source.input) }
        ensures left { (r : Result (List ℕ × List ℕ) DeflateFault) → left_of self.old ≡ Some r
            → left_of self.new ≡ Some r }
        ensures input { self.new.source.input ≡ self.old.source.input }
        ensures moves { Moves (taken self.old.source) (taken self.new.source) }
        ensures back { work_left self.new.body.stage self.new.body.window
            self.new.source.passed (length self.new.source.ahead)
            ≤ work_left self.old.body.stage self.old.body.window
            self.old.source.passed (length self.old.source.ahead) }
        ensures nearer { (held : ℕ) → (is_whole ≡ false → (held < length self.old.source.ahead)
            ⊎ (MOST_HELD ≤ length self.old.source.ahead))
            → work_left self.new.body.stage self.new.body.window
            self.new.source.passed (length self.new.source.ahead)
            < work_left self.old.body.stage self.old.body.window self.old.source.passed held }
    {
        let taken = self
            .body
            .step(&self.source.crc, self.source.ahead.as_slice(), is_whole);
        if !self.source.take(taken) {
            self.is_too_far = true;
            self.body.refuse(DeflateFault::Bad);
        }
    }

    /// Goes on in the member, of which all text was given out, and reads only if what is held
    /// isn't enough. The only error is the input's failure.
    fn advance(&mut self) -> Result<(), DeviceFault>
        requires more { is_over self.old.body.stage ≡ false }
        requires given { pending self.old.body.window ≡ [] }
        ensures left { (r : Result (List ℕ × List ℕ) DeflateFault) → left_of self.old ≡ Some r
            → left_of self.new ≡ Some r }
        ensures moves { Moves (taken self.old.source) (taken self.new.source) }
        ensures failures { CountsFailure result (I.failures self.old.source.input)
            (I.failures self.new.source.input) }
        ensures nearer { OnOk result
            (work_left self.new.body.stage self.new.body.window
            self.new.source.passed (length self.new.source.ahead)
            < work_left self.old.body.stage self.old.body.window
            self.old.source.passed (length self.old.source.ahead)) }
    {
        self.step(false);
        if self.waits() {
            let is_whole = self.source.read_more()?;
            self.step(is_whole);
        }
        Ok(())
    }

    /// Returns whether neither text nor the end was reached.
    fn waits(&self) -> bool
        ensures { result ≡ waits self.now.body.stage self.now.body.window }
    {
        !(self.body.is_over() || self.body.has_text())
    }

    /// Goes on to the next text of the member, or to its end. The only error is the input's
    /// failure.
    pub fn fill(&mut self) -> Result<(), DeviceFault>
        ensures left { (r : Result (List ℕ × List ℕ) DeflateFault) → left_of self.old ≡ Some r
            → left_of self.new ≡ Some r }
        ensures moves { Moves (taken self.old.source) (taken self.new.source) }
        ensures failures { CountsFailure result (I.failures self.old.source.input)
            (I.failures self.new.source.input) }
        ensures stops { OnOk result
            (waits self.new.body.stage self.new.body.window ≡ false) }
    {
        'text: while self.waits() {
            self.advance()?;
        }
        Ok(())
    }

    /// Reads the next text of the member into the start of `piece`, and returns its length. `Ok(0)`
    /// for a piece that isn't empty is the end of the member, or of what can be read of it. The
    /// only error is the input's failure.
    pub fn read(&mut self, piece: &mut [u8]) -> Result<usize, DeviceFault>
        ensures bound { IfOk result (λ n. n ≤ length piece.new) }
        ensures text { IfOk result (λ n. GivesText (left_of self.old) (left_of self.new)
            (take n piece.new)) }
        ensures err { (r : Result (List ℕ × List ℕ) DeflateFault)
            → OnErr result (left_of self.old ≡ Some r
            → left_of self.new ≡ Some r) }
        ensures end { result ≡ Ok 0 → 0 < length piece.new → (text behind : List ℕ)
            → left_of self.new ≡ Some (Ok (text, behind)) → text ≡ [] }
        ensures moves { Moves (taken self.old.source) (taken self.new.source) }
        ensures failures { CountsFailure result (I.failures self.old.source.input)
            (I.failures self.new.source.input) }
    {
        self.fill()?;
        Ok(self.body.give(piece))
    }

    /// Passes over up to `count` bytes of the next text of the member, and returns their number.
    /// The only error is the input's failure.
    pub fn skip(&mut self, count: u64) -> Result<u64, DeviceFault>
        ensures bound { IfOk result (λ n. n ≤ count) }
        ensures text { IfOk result (λ n. SkipsText n (left_of self.old) (left_of self.new)) }
        ensures err { (r : Result (List ℕ × List ℕ) DeflateFault)
            → OnErr result (left_of self.old ≡ Some r
            → left_of self.new ≡ Some r) }
        ensures moves { Moves (taken self.old.source) (taken self.new.source) }
        ensures failures { CountsFailure result (I.failures self.old.source.input)
            (I.failures self.new.source.input) }
    {
        self.fill()?;
        Ok(self.body.skip(count) as u64)
    }

    /// Passes over the next text of the member, and returns whether there was some. The only error
    /// is the input's failure.
    fn pass_text(&mut self) -> Result<bool, DeviceFault>
        ensures passes { IfOk result (λ had. PassesText had (left_of self.old) (left_of self.new)) }
        ensures end { result ≡ Ok false → is_over self.new.body.stage ≡ true }
        ensures none { result ≡ Ok false → (text behind : List ℕ)
            → left_of self.new ≡ Some (Ok (text, behind)) → text ≡ [] }
        ensures err { (r : Result (List ℕ × List ℕ) DeflateFault)
            → OnErr result (left_of self.old ≡ Some r
            → left_of self.new ≡ Some r) }
        ensures moves { Moves (taken self.old.source) (taken self.new.source) }
        ensures failures { CountsFailure result (I.failures self.old.source.input)
            (I.failures self.new.source.input) }
    {
        self.fill()?;
        let has_text = self.body.has_text();
        if has_text {
            self.body.pass();
        }
        Ok(has_text)
    }

    /// Passes over all text of the member, and returns whether there was some; or `None` if it has
    /// 2^64 bytes or more. The only error is the input's failure.
    fn pass_rest(&mut self) -> Result<Option<bool>, DeviceFault>
        ensures whole { (text behind : List ℕ) → left_of self.old ≡ Some (Ok (text, behind))
            → IfOk result (λ had. PassesRest had text behind (left_of self.new)) }
        ensures fault { (fault : DeflateFault) → OnOk result (left_of self.old ≡ Some (Err fault)
            → left_of self.new ≡ Some (Err fault)) }
        ensures end { (had : Bool) → result ≡ Ok (Some had) → is_over self.new.body.stage ≡ true }
        ensures moves { Moves (taken self.old.source) (taken self.new.source) }
        ensures failures { CountsFailure result (I.failures self.old.source.input)
            (I.failures self.new.source.input) }
    {
        let mut had = false;
        'rest: for _ in 0..u64::MAX {
            match self.pass_text() {
                Ok(more) => {
                    if more {
                        had = true;
                    } else {
                        return Ok(Some(had));
                    }
                }
                Err(fault) => return Err(fault),
            }
        }
        Ok(None)
    }

    /// Reads the member to its end, and returns whether it had text that wasn't given out. The
    /// bytes ahead are then those behind the member.
    ///
    /// Errors are `Read`; `Bad` and `Cut` for a member that is none or goes on behind the file's
    /// end; `TooFar`; and `TooLong`.
    pub fn end(&mut self) -> Result<bool, MemberFault>
        ensures whole { (text behind : List ℕ) → left_of self.old ≡ Some (Ok (text, behind))
            → EndsMember result text behind
            (prepend_known self.new.source.ahead (I.remaining self.new.source.input)) }
        ensures refused { (fault : DeflateFault) → left_of self.old ≡ Some (Err fault)
            → RefusesMember result fault }
        ensures over { (had : Bool) → result ≡ Ok had → is_over self.new.body.stage ≡ true }
        ensures moves { Moves (taken self.old.source) (taken self.new.source) }
        ensures failures { CountsMember result (I.failures self.old.source.input)
            (I.failures self.new.source.input) }
    {
        match self.pass_rest()? {
            Some(had) => match self.body.fault() {
                None => Ok(had),
                Some(fault) => Err(if self.is_too_far {
                    MemberFault::TooFar
                } else {
                    MemberFault::from(fault)
                }),
            },
            None => Err(MemberFault::TooLong),
        }
    }
}
