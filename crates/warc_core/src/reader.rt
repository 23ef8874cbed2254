//! A reader of records, one after another, that takes the input at each call.
ghost use Rattle.std.specs.Prelude.{◌≡◌, ℕ, ◌-◌, ◌^◌, ◌≤◌, ◌⊎◌, [], length, nat_lt, Ok, Err, IfOk, IfErr, OnOk, MatchResult};

use crate::block::{give_block, pass_over};
use crate::closing::skip_record;
use crate::fault::{Cause, Fault};
use crate::head::Head;
use crate::next::{HEAD_LIMIT, read_next};
use crate::phase::Phase;
use devices::{Buffer, Input};
use std::alloc::Global;
use std::fmt;
use std::marker::Model;
use warc_head::HeadMemory;

/// The maximum length of a head whose memory serves the next one, in bytes.
const MOST_KEPT: usize = 8192;

/// Reads an archive's records in turn. It does not hold the input; each call takes it.
///
/// A record is open from its head until its closing is read. After a call has failed, each further call returns the
/// same fault and reads nothing.
#[derive(Drop)]
pub struct Reader {
    alloc: Global,
    offset: u64,
    phase: Phase,
    buffer: Buffer,
    /// The memory of an earlier head, for the next one.
    spare: Option<HeadMemory>,
}

impl fmt::Debug for Reader {
    fn fmt<W: fmt::Write>(&self, f: &mut fmt::Formatter<W>) -> fmt::Result {
        f.debug_struct("Reader")
            .field("offset", &self.offset)
            .finish_non_exhaustive()
    }
}

impl Model for Reader {
    ghost use Rattle.warc_core.specs.ReaderView.{ReaderView, IsWithinLimit};

    ghost Value = { ReaderView };

    ghost view = { λ r. record { offset = r.offset; phase = r.phase; held = r.buffer } };

    ghost invariant = { λ r. IsWithinLimit r.offset r.phase };
}

impl Reader {
    ghost use Rattle.warc_core.specs.declared.fault.Fault.{Fault};
    ghost use Rattle.warc_core.specs.declared.fault.Cause.{Cause};
    ghost use Rattle.std.specs.Io.KnownBytes.{prepend_known};
    ghost use Rattle.warc_core.specs.Answers.{causes_of, CountsRead};
    ghost use Rattle.warc_core.specs.Reading.{Reads, past};
    ghost use Rattle.warc_core.specs.ReaderView.{FailedBy, HasLeft, IfOpen, StandsAt, state_of};
    ghost use Rattle.warc_core.specs.Calls.{Finishes, GivesBlock, Fills, GoesNext, FinishesAndGoesNext};

    /// Creates a reader at the start of an archive, with a buffer of 65,536 bytes.
    ///
    /// The only error is `Memory`, at offset 0.
    pub fn new(alloc: Global) -> Result<Reader, Fault>
        ensures start { IfOk result
            (λ r. r ≡ record { offset = 0; phase = Phase.Between; held = [] }) }
        ensures memory { IfErr result (λ f. f ≡ record { offset = 0; cause = Cause.Memory }) }
    {
        match Buffer::new(alloc) {
            Ok(buffer) => Ok(Reader {
                alloc,
                offset: 0,
                phase: Phase::Between,
                buffer,
                spare: None,
            }),
            Err(_) => Err(Fault {
                offset: 0,
                cause: Cause::Memory,
            }),
        }
    }

    /// Starts again, at the start of an archive of which nothing was read. The buffer and the memory of a head are kept.
    pub fn restart(&mut self)
        ensures { self.new ≡ record { offset = 0; phase = Phase.Between; held = [] } }
    {
        self.offset = 0;
        self.phase = Phase::Between;
        let count = self.buffer.as_slice().len();
        self.buffer.consume(count);
    }

    /// Returns whether bytes were taken from the input that were not given out.
    pub fn holds_bytes(&self) -> bool
        ensures { result ≡ nat_lt 0 (length self.now.held) }
    {
        !self.buffer.as_slice().is_empty()
    }

    /// Marks the reader as failed, so that each further call returns this fault.
    fn fail(&mut self, cause: Cause) -> Fault
        ensures fault { result ≡ record { offset = self.old.offset; cause = cause } }
        ensures reader { self.new ≡ record self.old { phase = Phase.Failed cause } }
    {
        self.phase = Phase::Failed { cause };
        Fault {
            offset: self.offset,
            cause,
        }
    }

    /// Passes over what precedes an offset of the archive, in bytes from its start, and stands there. If there are fewer
    /// bytes, the reader is at the archive's end. What is passed over is not read as records.
    ///
    /// The only error is `Read`, at this offset.
    pub fn pass_to<I: Input>(&mut self, input: &mut I, offset: u64) -> Result<(), Fault>
        requires between { self.old.phase ≡ Phase.Between }
        requires ahead { self.old.offset ≤ offset }
        requires within { offset ≤ 2 ^ 63 - 1 }
        ensures bytes { Reads (past (offset - self.old.offset)) (causes_of result)
            (prepend_known self.old.held (I.remaining input.old))
            (prepend_known self.new.held (I.remaining input.new)) }
        ensures state { MatchResult result
            (λ _. StandsAt self.new offset Phase.Between) (FailedBy self.new offset) }
        ensures cause { IfErr result (λ f. f.cause ≡ Cause.Read) }
        ensures reads { CountsRead (causes_of result) (I.failures input.old)
            (I.failures input.new) }
    {
        let count = offset - self.offset;
        self.offset = offset;
        match pass_over(&mut self.buffer, input, count) {
            Ok(()) => Ok(()),
            Err(cause) => Err(self.fail(cause)),
        }
    }

    /// Reads the rest of the open record and its closing, and returns the record's length in bytes. If no record is
    /// open, it returns 0 and reads nothing.
    ///
    /// Errors are `Read`, `ShortBlock` and `Closing`, at the record's offset.
    #[inline(always)]
    pub fn finish<I: Input>(&mut self, input: &mut I) -> Result<u64, Fault>
        ensures open { IfOpen self.old.phase (λ left len. Finishes left len
            (state_of self.old (I.remaining input.old) (I.failures input.old))
            (state_of self.new (I.remaining input.new) (I.failures input.new)) result) }
        ensures closed { self.old.phase ≡ Phase.Between →
            (result ≡ Ok 0) × (self.new ≡ self.old) × (input.new ≡ input.old) }
        ensures failed { (c : Cause) → self.old.phase ≡ Phase.Failed c →
            (result ≡ Err (record { offset = self.old.offset; cause = c }))
            × (self.new ≡ self.old) × (input.new ≡ input.old) }
        ensures ready { OnOk result (self.new.phase ≡ Phase.Between) }
        ensures rises { self.old.offset ≤ self.new.offset }
        ensures within { self.new.offset ≤ 2 ^ 63 - 1 }
    {
        match self.phase {
            Phase::Between => Ok(0),
            Phase::Failed { cause } => Err(Fault {
                offset: self.offset,
                cause,
            }),
            Phase::Open { left, length } => match skip_record(&mut self.buffer, input, left) {
                Ok(()) => {
                    self.offset += length;
                    self.phase = Phase::Between;
                    Ok(length)
                }
                Err(cause) => Err(self.fail(cause)),
            },
        }
    }

    /// Reads the next bytes of the open record's block into the start of `piece`, and returns their number, which is 0
    /// only at the block's end or for an empty piece. If no record is open, it returns 0 and reads nothing.
    ///
    /// Errors are `Read` and `ShortBlock`, at the record's offset.
    pub fn block<I: Input>(&mut self, input: &mut I, piece: &mut [u8]) -> Result<usize, Fault>
        ensures open { IfOpen self.old.phase (λ left len. GivesBlock left len
            (state_of self.old (I.remaining input.old) (I.failures input.old))
            (state_of self.new (I.remaining input.new) (I.failures input.new)) result piece.new) }
        ensures closed { self.old.phase ≡ Phase.Between →
            (result ≡ Ok 0) × (self.new ≡ self.old) × (input.new ≡ input.old) }
        ensures failed { (c : Cause) → self.old.phase ≡ Phase.Failed c →
            (result ≡ Err (record { offset = self.old.offset; cause = c }))
            × (self.new ≡ self.old) × (input.new ≡ input.old) }
        ensures stays { self.new.offset ≡ self.old.offset }
        ensures within { self.new.offset ≤ 2 ^ 63 - 1 }
    {
        match self.phase {
            Phase::Between => Ok(0),
            Phase::Failed { cause } => Err(Fault {
                offset: self.offset,
                cause,
            }),
            Phase::Open { left, length } => match give_block(&mut self.buffer, input, piece, left) {
                Ok(count) => {
                    let left = left - count as u64;
                    self.phase = Phase::Open { left, length };
                    Ok(count)
                }
                Err(cause) => Err(self.fail(cause)),
            },
        }
    }

    /// Fills `piece` with the next bytes of the open record's block, which has at least this many left.
    ///
    /// Errors are those of `block`.
    #[tactic(auto, using(crate::proofs::FillLemmas::fill_rules))]
    pub fn block_exact<I: Input>(&mut self, input: &mut I, piece: &mut [u8]) -> Result<(), Fault>
        requires { HasLeft (length piece.old) self.old.phase }
        ensures { IfOpen self.old.phase (λ left len. Fills left len
            (state_of self.old (I.remaining input.old) (I.failures input.old))
            (state_of self.new (I.remaining input.new) (I.failures input.new)) result piece.new) }
    {
        let mut filled = 0;
        while filled < piece.len() {
            filled += self.block(input, &mut piece[filled..])?;
        }
        Ok(())
    }

    /// Keeps the memory of a head that isn't needed any more, for the next one. The memory of a head of over 8,192 bytes
    /// is freed.
    pub fn recycle(&mut self, head: Head)
        ensures { self.new ≡ self.old }
    {
        if head.raw().len() <= MOST_KEPT {
            self.spare = Some(head.into_memory());
        }
    }

    /// Reads the next head when no record is open.
    fn next_between<I: Input>(&mut self, input: &mut I) -> Result<Option<Head>, Fault>
        requires { self.old.phase ≡ Phase.Between }
        ensures next { GoesNext HEAD_LIMIT
            (state_of self.old (I.remaining input.old) (I.failures input.old))
            (state_of self.new (I.remaining input.new) (I.failures input.new)) result }
        ensures stays { self.new.offset ≡ self.old.offset }
        ensures within { self.new.offset ≤ 2 ^ 63 - 1 }
    {
        match read_next(
            self.alloc,
            self.spare.take(),
            &mut self.buffer,
            input,
            self.offset,
        ) {
            Ok(None) => Ok(None),
            Ok(Some(head)) => {
                self.phase = Phase::Open {
                    left: head.length(),
                    length: head.record_length(),
                };
                Ok(Some(head))
            }
            Err(cause) => Err(self.fail(cause)),
        }
    }

    /// Reads the rest of the open record and its closing, and then the head that follows. Returns `None` at the end of
    /// the archive, and again as long as the input stays at its end.
    ///
    /// Errors are those of `finish`, at the open record's offset. At the offset where the next record would begin, they
    /// are `Memory`, `Read`, the causes from `Version` to `BadDate`, and `TooFar`.
    pub fn next<I: Input>(&mut self, input: &mut I) -> Result<Option<Head>, Fault>
        ensures between { self.old.phase ≡ Phase.Between →
            GoesNext HEAD_LIMIT
            (state_of self.old (I.remaining input.old) (I.failures input.old))
            (state_of self.new (I.remaining input.new) (I.failures input.new)) result }
        ensures open { IfOpen self.old.phase (λ left len. FinishesAndGoesNext HEAD_LIMIT left len
            (state_of self.old (I.remaining input.old) (I.failures input.old))
            (state_of self.new (I.remaining input.new) (I.failures input.new)) result) }
        ensures failed { (c : Cause) → self.old.phase ≡ Phase.Failed c →
            (result ≡ Err (record { offset = self.old.offset; cause = c }))
            × (self.new ≡ self.old) × (input.new ≡ input.old) }
        ensures rises { self.old.offset ≤ self.new.offset }
        ensures within { self.new.offset ≤ 2 ^ 63 - 1 }
    {
        self.finish(input)?;
        self.next_between(input)
    }
}
