//! The bytes of a block.
ghost use Rattle.std.specs.Prelude.{◌≡◌, Option, ℕ, ◌+◌, ◌-◌, ◌<◌, ◌≤◌, List, [], length, drop, take, IfOk, IfErr, OnOk, MatchResult};
ghost use Rattle.std.specs.Io.KnownBytes.{Consumes, ReadConsumes, prepend_known};
ghost use Rattle.warc_core.specs.Reading.{Reads, IsPossibleFault, past};
ghost use Rattle.warc_core.specs.Answers.{CountsRead};
ghost use Rattle.warc_core.specs.Record.{after_block};
ghost use Rattle.warc_core.specs.Cause.{StopsBlock};

use crate::fault::Cause;
use devices::{Buffer, Input};

/// Reads the next bytes into `piece` and returns their number, as a read of the buffered bytes
/// followed by the input.
#[tactic(auto, using(crate::proofs::ReadingLemmas::give_rules))]
fn give<I: Input>(buffer: &mut Buffer, input: &mut I, piece: &mut [u8]) -> Result<usize, Cause>
    ensures bound { IfOk result (λ n. n ≤ length piece.new) }
    ensures cause { IfErr result (λ c. c ≡ Cause.Read) }
    ensures bytes { ReadConsumes (prepend_known buffer.old (I.remaining input.old))
        (prepend_known buffer.new (I.remaining input.new)) result piece.new }
    ensures failures { CountsRead result (I.failures input.old) (I.failures input.new) }
{
    buffer.fill(input)?;
    let held = buffer.as_slice();
    let count = piece.len().min(held.len());
    piece[..count].copy_from_slice(&held[..count]);
    buffer.consume(count);
    Ok(count)
}

/// Reads the next bytes of a block into `piece`, and returns their number. The block has `left` bytes left. The errors
/// are `Read` and `ShortBlock`.
pub fn give_block<I: Input>(
    buffer: &mut Buffer,
    input: &mut I,
    piece: &mut [u8],
    left: u64,
) -> Result<usize, Cause>
    ensures cause { IfErr result StopsBlock }
    ensures count { IfOk result (λ n. (n ≤ left) × (n ≤ length piece.new) ×
        (0 < left → 0 < length piece.new → 0 < n)) }
    ensures bytes { MatchResult result
        (λ n. Consumes (prepend_known buffer.old (I.remaining input.old))
        (prepend_known buffer.new (I.remaining input.new)) (take n piece.new))
        (λ c. IsPossibleFault (after_block left) c
        (prepend_known buffer.old (I.remaining input.old))) }
    ensures failures { CountsRead result (I.failures input.old) (I.failures input.new) }
{
    let most = left.min(piece.len() as u64) as usize;
    if most == 0 {
        return Ok(0);
    }
    let count = give(buffer, input, &mut piece[..most])?;
    if count == 0 {
        return Err(Cause::ShortBlock);
    }
    Ok(count)
}

/// Skips the `length` bytes of a block. The errors are `Read` and `ShortBlock`.
#[tactic(auto, using(crate::proofs::OpenLemmas::skip_block_rules))]
pub fn skip_block<I: Input>(buffer: &mut Buffer, input: &mut I, length: u64) -> Result<(), Cause>
    ensures bytes { Reads (after_block length) result
        (prepend_known buffer.old (I.remaining input.old))
        (prepend_known buffer.new (I.remaining input.new)) }
    ensures cause { IfErr result StopsBlock }
    ensures failures { CountsRead result (I.failures input.old) (I.failures input.new) }
{
    let mut left = length;
    while left > 0 {
        let skipped = buffer.skip(input, left)?;
        if skipped == 0 {
            return Err(Cause::ShortBlock);
        }
        left -= skipped;
    }
    Ok(())
}

/// Passes over the next `count` bytes, or all if there are fewer. The only error is `Read`.
#[tactic(auto, using(crate::proofs::OpenLemmas::pass_over_rules))]
pub fn pass_over<I: Input>(buffer: &mut Buffer, input: &mut I, count: u64) -> Result<(), Cause>
    ensures bytes { Reads (past count) result
        (prepend_known buffer.old (I.remaining input.old))
        (prepend_known buffer.new (I.remaining input.new)) }
    ensures cause { IfErr result (λ c. c ≡ Cause.Read) }
    ensures failures { CountsRead result (I.failures input.old) (I.failures input.new) }
{
    let mut left = count;
    while left > 0 {
        let skipped = buffer.skip(input, left)?;
        if skipped == 0 {
            return Ok(());
        }
        left -= skipped;
    }
    Ok(())
}
