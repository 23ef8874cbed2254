//! The lines of a head.
ghost use Rattle.std.specs.Prelude.{◌≡◌, ◌<◌, ◌≤◌, ℕ, List, MatchOption, length, drop, true};
ghost use Rattle.httparse.specs.Pieces.{IsRunAt};
ghost use Rattle.warc_head.specs.Lines.{BeginsWithLine, EndsLine, continues, is_content, is_white_space, trim_front, trim_end, trim};
ghost use Rattle.warc_head.specs.Spans.{IsTrimmed};

use crate::lanes::{HALF_LANES, LANES, run_to_break, run_to_break_half};

/// Returns the offset of the CR LF that ends the line from `at` on. Returns `None` if another CR or LF comes first, or
/// none comes.
pub fn line_end(text: &[u8], at: usize) -> Option<usize>
    requires { at ≤ length text.now }
    ensures { MatchOption result
        ((line rest : List ℕ) → ¬ (BeginsWithLine (drop at text.now) line rest))
        (EndsLine text.now at) }
{
    let end = plain_end(text, at);
    if text[end..].starts_with(b"\r\n") {
        Some(end)
    } else {
        None
    }
}

/// Returns the offset of the first CR or LF from `from` on, or the text's length.
fn plain_end(text: &[u8], from: usize) -> usize
    requires { from ≤ length text.now }
    ensures { IsRunAt is_content text.now from result }
{
    let mut at = from;
    'wide: while text.len() - at >= LANES {
        let run = run_to_break(text, at);
        if run < LANES {
            return at + run;
        }
        at += LANES;
    }
    'narrow: while text.len() - at >= HALF_LANES {
        let run = run_to_break_half(text, at);
        if run < HALF_LANES {
            return at + run;
        }
        at += HALF_LANES;
    }
    'bytes: while at < text.len() && is_content(text[at]) {
        at += 1;
    }
    at
}

fn is_content(byte: u8) -> bool
    ensures { result ≡ is_content byte }
{
    !(byte == b'\r' || byte == b'\n')
}

fn is_white_space(byte: u8) -> bool
    ensures { result ≡ is_white_space byte }
{
    byte == b' ' || byte == b'\t'
}

/// Returns `true` if the line continues the field before it.
pub fn continues(text: &[u8]) -> bool
    ensures { result ≡ continues text.now }
{
    match text.first() {
        Some(first) => is_white_space(*first),
        None => false,
    }
}

/// Returns the text without the white space at both ends.
pub fn trim(text: &[u8]) -> &[u8]
    ensures { result.now ≡ trim text.now }
{
    trim_end(trim_front(text))
}

/// Returns the offsets between which the bytes from one offset to another stand without the white space at both ends.
#[tactic(auto, using(crate::proofs::TrimLemmas::front_fits))]
pub fn trimmed(text: &[u8], from: usize, to: usize) -> (usize, usize)
    requires order { from ≤ to }
    requires within { to ≤ length text.now }
    ensures { IsTrimmed text.now from to result.0 result.1 }
{
    if has_one_space(&text[from..to]) {
        return (from + 1, to);
    }
    let front = trim_front(&text[from..to]);
    let start = to - front.len();
    (start, start + trim_end(front).len())
}

/// Returns `true` for most texts that begin with one space and have no other white space at their ends.
fn has_one_space(text: &[u8]) -> bool
    ensures some { result ≡ true → 0 < length text.now }
    ensures trimmed { result ≡ true → trim text.now ≡ drop 1 text.now }
{
    match text {
        [b' ', first, .., last] => *first > b' ' && *last > b' ',
        _ => false,
    }
}

/// Returns the text without the white space at its start.
pub fn trim_front(text: &[u8]) -> &[u8]
    ensures { result.now ≡ trim_front text.now }
{
    let mut rest = text;
    while let Some((first, later)) = rest.split_first() {
        if !is_white_space(*first) {
            return rest;
        }
        rest = later;
    }
    rest
}

/// Returns the text without the white space at its end.
pub fn trim_end(text: &[u8]) -> &[u8]
    ensures { result.now ≡ trim_end text.now }
{
    let mut rest = text;
    while let Some((last, earlier)) = rest.split_last() {
        if !is_white_space(*last) {
            return rest;
        }
        rest = earlier;
    }
    rest
}
