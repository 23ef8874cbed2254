//! The lines of a head's fields.
ghost use Rattle.std.specs.Prelude.{◌≡◌, ◌≤◌, [], length, All, MatchOption, Some, IfOk, IfSome, OnOk, Ok, Err};
ghost use Rattle.httparse.specs.Pieces.{AllPassBetween};
ghost use Rattle.warc_head.specs.Answers.{AgreesWith};
ghost use Rattle.warc_head.specs.declared.fault.HeadFault.TheVariants.{FieldLine};
ghost use Rattle.warc_head.specs.Fields.{field_in, fields_of};
ghost use Rattle.warc_head.specs.Lines.{EndsLine};
ghost use Rattle.warc_head.specs.Names.{is_name_byte};
ghost use Rattle.warc_head.specs.Parts.{field_lines_in};
ghost use Rattle.warc_head.specs.Spans.{Continues, EndsName, IsWithin, field_at, fields_at};
ghost use Rattle.warc_head.specs.Usual.{BeginsWithHead};

use crate::continuing::continue_field;
use crate::fault::HeadFault;
use crate::lanes::{HALF_LANES, run_of_letters};
use crate::lines::{continues, line_end, trimmed};
use crate::names::is_name;
use crate::spans::FieldSpan;
use memchr::memchr;
use std::alloc::{AllocError, Global};

/// The length of a version line in bytes: `WARC/1.1` or `WARC/1.0`, and CR LF.
const VERSION_LINE: usize = 10;

/// The length of the empty line in bytes.
const EMPTY_LINE: usize = 2;

/// The initial capacity of a list of fields, enough for most heads.
pub(crate) const USUAL_FIELDS: usize = 16;

/// Returns the spans of the fields on the lines between the version line and the empty line of a head's text. The value
/// of a field that takes several lines is appended to the text. The errors are `FieldLine` and `Memory`.
pub fn read_fields(alloc: Global, text: &mut Vec<u8>) -> Result<Vec<FieldSpan>, HeadFault>
    ensures answer { AgreesWith (λ spans. fields_at text.new.items spans.items) result
        (fields_of (field_lines_in text.old.items)) }
    ensures text { OnOk result (Continues text.old.items text.new.items) }
    ensures within { IfOk result (λ spans. All (IsWithin (length text.new.items)) spans.items) }
{
    let mut spans = Vec::with_capacity(alloc, USUAL_FIELDS)?;
    let end = text.len().saturating_sub(EMPTY_LINE);
    let mut at = VERSION_LINE;
    'lines: while at < end {
        let Some(stop) = line_end(&text[..end], at) else {
            return Err(HeadFault::FieldLine);
        };
        if continues(&text[at..stop]) {
            continue_field(text, &mut spans, at, stop)?;
        } else {
            let Some(span) = field_in(&text[at..stop]) else {
                return Err(HeadFault::FieldLine);
            };
            spans.push(span.moved(at))?;
        }
        at = stop + 2;
    }
    Ok(spans)
}

/// The spans of a head's fields, and the head's length in bytes.
#[derive(Drop)]
pub struct UsualFields {
    pub spans: Vec<FieldSpan>,
    pub size: usize,
}

/// Returns the spans of the fields of the head that a text begins with. It may decline any text, and declines a head in
/// which a field takes several lines. The spans take this memory. The only error is refused memory.
pub fn usual_fields(memory: Vec<FieldSpan>, text: &[u8]) -> Result<Option<UsualFields>, AllocError>
    requires { EndsLine text.now 0 8 }
    ensures { IfOk result (λ found. IfSome found (λ f.
        BeginsWithHead text.now f.size (fields_at text.now f.spans.items)
        × All (IsWithin f.size) f.spans.items)) }
{
    let mut spans = emptied(memory);
    let mut at = VERSION_LINE;
    'lines: while at < text.len() {
        let Some(stop) = line_end(text, at) else {
            return Ok(None);
        };
        if stop == at {
            return Ok(Some(UsualFields {
                spans,
                size: at + 2,
            }));
        }
        let Some(span) = field_in(&text[at..stop]) else {
            return Ok(None);
        };
        spans.push(span.moved(at))?;
        at = stop + 2;
    }
    Ok(None)
}

fn emptied(memory: Vec<FieldSpan>) -> Vec<FieldSpan>
    ensures { result.items ≡ [] }
{
    let mut spans = memory;
    spans.clear();
    spans
}

/// Returns the span of the field that begins on a line.
#[inline(always)]
#[tactic(auto, using(std::proofs::lemmas::List::take_rest))]
fn field_in(line: &[u8]) -> Option<FieldSpan>
    ensures { MatchOption result
        (field_in line.now ≡ Err FieldLine)
        (λ p. IsWithin (length line.now) p × (field_in line.now ≡ Ok (field_at line.now p))) }
{
    let name_end = name_end(line)?;
    let (value_start, value_end) = trimmed(line, name_end + 1, line.len());
    Some(FieldSpan {
        name_start: 0,
        name_end,
        value_start,
        value_end,
    })
}

/// Returns the offset of the first colon, if a name stands before it. Most names are letters and hyphens.
#[inline(always)]
#[tactic(auto, using(crate::proofs::NameLemmas::name_before))]
fn name_end(line: &[u8]) -> Option<usize>
    ensures { MatchOption result (field_in line.now ≡ Err FieldLine) (EndsName line.now) }
{
    let end = letters_end(line);
    match line.get(end) {
        Some(b':') if end > 0 => Some(end),
        _ => any_name_end(line),
    }
}

/// Returns the offset up to which the first bytes are letters and hyphens, or a lower one.
#[inline(always)]
fn letters_end(line: &[u8]) -> usize
    ensures within { result ≤ length line.now }
    ensures name { AllPassBetween is_name_byte line.now 0 result }
{
    let mut at = 0;
    'steps: while line.len() - at >= HALF_LANES {
        let run = run_of_letters(line, at);
        at += run;
        if run < HALF_LANES {
            return at;
        }
    }
    at
}

/// Like `name_end`, for any name.
#[cold]
fn any_name_end(line: &[u8]) -> Option<usize>
    ensures { MatchOption result (field_in line.now ≡ Err FieldLine) (EndsName line.now) }
{
    let end = memchr(b':', line)?;
    if is_name(&line[..end]) {
        Some(end)
    } else {
        None
    }
}
