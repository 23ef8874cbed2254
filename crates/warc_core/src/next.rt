//! The next head.
ghost use Rattle.std.specs.Prelude.{◌≡◌, Option, ℕ, ◌+◌, ◌-◌, ◌<◌, ◌≤◌, ◌^◌, List, [], ◌++◌, length, None, Ok, Err, IfOk, IfErr, IfSome};
ghost use Rattle.std.specs.Option.{option_map};
ghost use Rattle.std.specs.Io.KnownBytes.{prepend_known};
ghost use Rattle.warc_core.specs.Reading.{Reads};
ghost use Rattle.warc_core.specs.Answers.{CountsRead, seen_as};
ghost use Rattle.warc_core.specs.Head.{parts_or_cause};
ghost use Rattle.warc_core.specs.HeadText.{head_text, IsFoundHead};
ghost use Rattle.warc_core.specs.Next.{head_at, next_at};
ghost use Rattle.warc_core.specs.HeadView.{RecordBeginsAt};
ghost use Rattle.warc_core.specs.Cause.{StopsHead};

use crate::fault::Cause;
use crate::head::Head;
use crate::head_text::{begins_with_version, read_head_text};
use devices::{Buffer, Input};
use std::alloc::{AllocError, Global};
use warc_head::{HeadMemory, Parts, read_parts, read_usual_parts};

/// The maximum length of a head in bytes.
pub const HEAD_LIMIT: usize = 1_048_576;

const GREATEST_OFFSET: u128 = i64::MAX as u128;

fn memory_for_head(alloc: Global, spare: Option<HeadMemory>) -> Result<HeadMemory, AllocError> {
    match spare {
        Some(memory) => Ok(memory),
        None => HeadMemory::new(alloc),
    }
}

/// Takes the next head from the buffer, if it stands there whole and is a usual one. The only error is refused memory.
fn held_parts(
    alloc: Global,
    spare: Option<HeadMemory>,
    buffer: &mut Buffer,
) -> Result<Option<Parts>, AllocError>
    ensures taken { IfOk result (λ found. IfSome found (λ p. buffer.old ≡ p.raw ++ buffer.new)) }
    ensures head { IfOk result (λ found. IfSome found (λ p. IsFoundHead HEAD_LIMIT p.raw)) }
    ensures says { IfOk result (λ found. IfSome found (λ p. parts_or_cause p.raw ≡ Ok p.parts)) }
    ensures bound { IfOk result (λ found. IfSome found (λ p. p.parts.block_length ≤ 2 ^ 63 - 1)) }
    ensures none { result ≡ Ok None → buffer.new ≡ buffer.old }
{
    let held = buffer.as_slice();
    if !begins_with_version(held) {
        return Ok(None);
    }
    match read_usual_parts(memory_for_head(alloc, spare)?, held)? {
        Some(parts) if parts.raw().len() <= HEAD_LIMIT => {
            buffer.consume(parts.raw().len());
            Ok(Some(parts))
        }
        _ => Ok(None),
    }
}

/// Reads the next head. The errors are those of the head, `Memory` and `Read`.
fn next_parts<I: Input>(
    alloc: Global,
    spare: Option<HeadMemory>,
    buffer: &mut Buffer,
    input: &mut I,
) -> Result<Parts, Cause>
    ensures bytes { IfOk result (λ p. Reads (head_text HEAD_LIMIT) (Ok p.raw)
        (prepend_known buffer.old (I.remaining input.old))
        (prepend_known buffer.new (I.remaining input.new))) }
    ensures head { IfOk result (λ p. IsFoundHead HEAD_LIMIT p.raw) }
    ensures says { IfOk result (λ p. parts_or_cause p.raw ≡ Ok p.parts) }
    ensures bound { IfOk result (λ p. p.parts.block_length ≤ 2 ^ 63 - 1) }
    ensures stopped { IfErr result (λ c. (start : ℕ) → Reads (head_at HEAD_LIMIT start) (Err c)
        (prepend_known buffer.old (I.remaining input.old))
        (prepend_known buffer.new (I.remaining input.new))) }
    ensures cause { IfErr result StopsHead }
    ensures failures { CountsRead result (I.failures input.old) (I.failures input.new) }
{
    match held_parts(alloc, spare, buffer)? {
        Some(parts) => Ok(parts),
        None => {
            let raw = read_head_text(alloc, buffer, input, HEAD_LIMIT)?;
            Ok(read_parts(alloc, raw)?)
        }
    }
}

/// Reads the head of the record that starts at this offset.
fn read_head<I: Input>(
    alloc: Global,
    spare: Option<HeadMemory>,
    buffer: &mut Buffer,
    input: &mut I,
    start: u64,
) -> Result<Head, Cause>
    requires { start ≤ 2 ^ 63 - 1 }
    ensures bytes { Reads (head_at HEAD_LIMIT start) result
        (prepend_known buffer.old (I.remaining input.old))
        (prepend_known buffer.new (I.remaining input.new)) }
    ensures cause { IfErr result StopsHead }
    ensures begins { IfOk result (RecordBeginsAt start) }
    ensures failures { CountsRead result (I.failures input.old) (I.failures input.new) }
{
    let parts = next_parts(alloc, spare, buffer, input)?;
    let end = u128::from(start) + parts.raw().len() as u128 + u128::from(parts.length()) + 4;
    if end > GREATEST_OFFSET {
        return Err(Cause::TooFar);
    }
    Ok(Head::from_parts(start, parts))
}

/// Reads the head of the record that starts at this offset, if a byte follows. The errors are those of the head, `Memory`,
/// `Read` and `TooFar`. A usual head takes the spare memory, if there is some.
#[tactic(auto, using(crate::proofs::NextLemmas::read_next_rules))]
pub fn read_next<I: Input>(
    alloc: Global,
    spare: Option<HeadMemory>,
    buffer: &mut Buffer,
    input: &mut I,
    start: u64,
) -> Result<Option<Head>, Cause>
    requires { start ≤ 2 ^ 63 - 1 }
    ensures cause { IfErr result StopsHead }
    ensures begins { IfOk result (λ o. IfSome o (RecordBeginsAt start)) }
    ensures bytes { Reads (next_at HEAD_LIMIT start) result
        (prepend_known buffer.old (I.remaining input.old))
        (prepend_known buffer.new (I.remaining input.new)) }
    ensures failures { CountsRead result (I.failures input.old) (I.failures input.new) }
{
    buffer.fill(input)?;
    if buffer.as_slice().is_empty() {
        return Ok(None);
    }
    Ok(Some(read_head(alloc, spare, buffer, input, start)?))
}
