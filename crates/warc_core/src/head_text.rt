//! The text of a head, read from the input piece by piece.
ghost use Rattle.std.specs.Prelude.{◌≡◌, Option, ℕ, ◌+◌, ◌-◌, ◌<◌, ◌≤◌, List, [], ◌++◌, true, length, drop, take, IfOk, IfErr, OnOk, MatchResult, MatchOption, IfSome};
ghost use Rattle.std.specs.Io.KnownBytes.{Keeps, IsAtEnd, prepend_known, ReadConsumes};
ghost use Rattle.warc_core.specs.Reading.{Reads};
ghost use Rattle.warc_core.specs.Answers.{CountsRead, seen_as};
ghost use Rattle.warc_core.specs.HeadText.{agrees, has_version, head_text, IsFoundHead, IsOpenAfter, ClosesFirst};
ghost use Rattle.warc_core.specs.Cause.{StopsHead};
ghost use Rattle.warc_core.specs.Record.{closing};
ghost use Rattle.warc_core.specs.RecordText.{IsVersionLine};

use crate::fault::Cause;
use devices::{Buffer, Input};
use memchr::memmem;
use std::alloc::Global;
use warc_head::{LANES, run_to_closing};

/// The maximum number of bytes added to a head at once. Most heads are shorter.
const HEAD_PIECE: usize = 1024;

/// Returns `true` if the bytes are those of the line, as far as both go.
fn agrees(head: &[u8], line: &[u8]) -> bool
    ensures { result ≡ agrees head.now line.now }
{
    head.iter()
        .zip(line)
        .all(|(byte, expected)| *byte == *expected)
}

/// Returns `true` if the bytes are those of a version line, as far as they go.
fn has_version(head: &[u8]) -> bool
    ensures { result ≡ has_version head.now }
{
    begins_with_version(head) || agrees(head, b"WARC/1.1\r\n") || agrees(head, b"WARC/1.0\r\n")
}

/// Returns `true` if the bytes begin with a whole version line.
pub(crate) fn begins_with_version(head: &[u8]) -> bool
    ensures version { result ≡ true → has_version head.now ≡ true }
    ensures line { result ≡ true → IsVersionLine (take 10 head.now) }
{
    match head.first_chunk() {
        Some(line) => line == b"WARC/1.1\r\n" || line == b"WARC/1.0\r\n",
        None => false,
    }
}

/// Returns `true` if the text begins with CR LF CR LF.
pub(crate) fn begins_with_closing(text: &[u8]) -> bool
    ensures begins { result ≡ true → text.now ≡ closing ++ drop 4 text.now }
    ensures other { (rest : List ℕ) → text.now ≡ closing ++ rest → result ≡ true }
{
    text.starts_with(b"\r\n\r\n")
}

/// Returns the length of the shortest prefix of more than `before` bytes that ends with CR LF CR LF, if there is one.
fn closing_end(text: &[u8], before: usize) -> Option<usize>
    requires { before ≤ length text.now }
    ensures { MatchOption result (IsOpenAfter text.now before) (ClosesFirst text.now before) }
{
    let mut at = before.saturating_sub(3);
    'blocks: while text.len() - at >= LANES + 3 {
        let run = run_to_closing(text, at);
        at += run;
        if run < LANES {
            if begins_with_closing(&text[at..]) {
                return Some(at + 4);
            }
            at += 1;
        }
    }
    match memmem::find(&text[at..], b"\r\n\r\n") {
        Some(after) => Some(at + after + 4),
        None => None,
    }
}

/// Reads the text of the next head, of at most `limit` bytes, piece by piece. The errors are `Memory`, `Read`, `Version`,
/// `ShortHead` and `HeadTooLong`.
pub fn read_head_text<I: Input>(
    alloc: Global,
    buffer: &mut Buffer,
    input: &mut I,
    limit: usize,
) -> Result<Vec<u8>, Cause>
    requires { 10 ≤ limit }
    ensures cause { IfErr result StopsHead }
    ensures found { IfOk result (λ v. IsFoundHead limit v.items) }
    ensures bytes { Reads (head_text limit) (seen_as (λ v. v.items) result)
        (prepend_known buffer.old (I.remaining input.old))
        (prepend_known buffer.new (I.remaining input.new)) }
    ensures failures { CountsRead (seen_as (λ v. v.items) result) (I.failures input.old)
        (I.failures input.new) }
{
    let mut head = Vec::new(alloc);
    while head.len() < limit {
        buffer.fill(input)?;
        let held = buffer.as_slice();
        if held.is_empty() {
            return Err(Cause::ShortHead);
        }
        let before = head.len();
        let count = held.len().min(HEAD_PIECE).min(limit - before);
        head.extend_from_slice(&held[..count])?;
        if !has_version(head.as_slice()) {
            return Err(Cause::Version);
        }
        match closing_end(head.as_slice(), before) {
            Some(end) => {
                head.truncate(end);
                buffer.consume(end - before);
                return Ok(head);
            }
            None => buffer.consume(count),
        }
    }
    Err(Cause::HeadTooLong)
}
