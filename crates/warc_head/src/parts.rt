//! The contents of a record's head.
ghost use Rattle.std.specs.Prelude.{◌≡◌, ◌≤◌, ◌^◌, ◌-◌, true, length, All, IfOk, IfSome};
ghost use Rattle.warc_head.specs.Answers.{AgreesWith};
ghost use Rattle.warc_head.specs.Length.{all_digits};
ghost use Rattle.warc_head.specs.Lines.{EndsLine};
ghost use Rattle.warc_head.specs.Parts.{parts_in, parts_of};
ghost use Rattle.warc_head.specs.Usual.{IsHeadOf};
ghost use Rattle.warc_head.specs.Spans.{IsWithin, fields_at};
ghost use Rattle.warc_head.specs.Said.{said_of};

use crate::date::stamp_of;
use crate::fault::HeadFault;
use crate::field_lines::{read_fields, usual_fields};
use crate::kind::{Kind, kind_of};
use crate::length::length_of;
use crate::mandatory::mandatory_values;
use crate::memory::{HeadMemory, copied};
use crate::spans::{FieldSpan, value_of};
use std::alloc::{AllocError, Global};
use std::marker::Model;

/// The text of a record's head, and what it says.
#[derive(Drop)]
pub struct Parts {
    /// The head's text, and behind it the values of the fields that take several lines.
    text: Vec<u8>,
    /// The length of the head's text in bytes.
    size: usize,
    spans: Vec<FieldSpan>,
    said: Said,
}

/// What the mandatory fields of a head say.
#[derive(Clone, Copy)]
struct Said {
    kind: Kind,
    stamp: [u8; 14],
    length: u64,
}

impl Model for Parts {
    ghost use Rattle.std.specs.Prelude.{◌≡◌, ◌≤◌, All, length, take, true};
    ghost use Rattle.warc_head.specs.Length.{all_digits};
    ghost use Rattle.warc_head.specs.Parts.{HeadRead};
    ghost use Rattle.warc_head.specs.Said.{said_of};
    ghost use Rattle.warc_head.specs.Spans.{IsWithin, fields_at};

    ghost Value = { HeadRead };

    ghost view = { λ p. record {
      raw = take p.size p.text.items;
      parts = said_of p.said (fields_at p.text.items p.spans.items);
    } };

    ghost invariant = { λ p. (all_digits p.said.stamp ≡ true)
        × (p.size ≤ length p.text.items) × All (IsWithin (length p.text.items)) p.spans.items };
}

impl Parts {
    ghost use Rattle.std.specs.Prelude.{MatchOption, None, Some};
    ghost use Rattle.warc_head.specs.Fields.{value_of};

    /// Returns the head's text, from the version line to the empty line.
    pub fn raw(&self) -> &[u8]
        ensures { result.now ≡ self.now.raw }
    {
        &self.text[..self.size]
    }

    /// Returns the type of the record, from `WARC-Type`, ignoring case.
    pub fn kind(&self) -> Kind
        ensures { result ≡ self.now.parts.kind }
    {
        self.said.kind
    }

    /// Returns the digits of year, month, day, hour, minute and second of `WARC-Date`. An absent month or day is 01; an
    /// absent hour, minute or second is 00. A fraction of the second is dropped.
    pub fn stamp(&self) -> [u8; 14]
        ensures value { result ≡ self.now.parts.stamp }
        ensures digits { all_digits result ≡ true }
    {
        self.said.stamp
    }

    /// Returns the length of the block in bytes, at most 2^63 - 1, from `Content-Length`.
    pub fn length(&self) -> u64
        ensures { result ≡ self.now.parts.block_length }
    {
        self.said.length
    }

    /// Returns the memory, for another head.
    pub fn into_memory(self) -> HeadMemory {
        HeadMemory {
            text: self.text,
            spans: self.spans,
        }
    }

    /// Returns the value of the first field of this name, ignoring ASCII case.
    pub fn field(&self, name: &[u8]) -> Option<&[u8]>
        ensures { MatchOption result
            (value_of name.now self.now.parts.fields ≡ None)
            (λ v. value_of name.now self.now.parts.fields ≡ Some v.now) }
    {
        value_of(&self.text, &self.spans, name)
    }
}

/// Reads the text of a head: the version line, the lines of the fields and an empty line, each with its CR LF.
///
/// It checks neither which version the text names nor that the last line is empty. A text that is too short to hold the
/// first and the last of these lines has no fields. The error is the head's first fault, or `Memory`.
#[tactic(auto, unfolding(crate::specs::Parts::parts_of))]
pub fn read_parts(alloc: Global, raw: Vec<u8>) -> Result<Parts, HeadFault>
    ensures answer { AgreesWith (λ p. p.parts) result (parts_of raw.items) }
    ensures raw { IfOk result (λ p. p.raw ≡ raw.items) }
    ensures bound { IfOk result (λ p. p.parts.block_length ≤ 2 ^ 63 - 1) }
    ensures digits { IfOk result (λ p. all_digits p.parts.stamp ≡ true) }
{
    let size = raw.len();
    let mut text = raw;
    let spans = read_fields(alloc, &mut text)?;
    let said = said_in(&text, &spans)?;
    Ok(Parts {
        text,
        size,
        spans,
        said,
    })
}

/// Reads the head that a text begins with, if its first line has eight bytes. It may decline any text, and
/// declines what isn't the usual head: faults, and fields that take several lines. The head takes this memory. The only
/// error is refused memory.
pub fn read_usual_parts(memory: HeadMemory, text: &[u8]) -> Result<Option<Parts>, AllocError>
    requires { EndsLine text.now 0 8 }
    ensures head { IfOk result (λ found. IfSome found (IsHeadOf text.now)) }
    ensures bound { IfOk result (λ found. IfSome found (λ p. p.parts.block_length ≤ 2 ^ 63 - 1)) }
{
    let Some(found) = usual_fields(memory.spans, text)? else {
        return Ok(None);
    };
    let raw = copied(memory.text, &text[..found.size])?;
    match said_in(&raw, &found.spans) {
        Ok(said) => Ok(Some(Parts {
            text: raw,
            size: found.size,
            spans: found.spans,
            said,
        })),
        Err(_) => Ok(None),
    }
}

/// Returns what the mandatory fields among the fields at these spans say.
#[tactic(auto, unfolding(crate::specs::Parts::parts_in))]
fn said_in(text: &[u8], spans: &[FieldSpan]) -> Result<Said, HeadFault>
    requires { All (IsWithin (length text.now)) spans.now }
    ensures answer { AgreesWith (λ s. said_of s (fields_at text.now spans.now)) result
        (parts_in (fields_at text.now spans.now)) }
    ensures bound { IfOk result (λ s. s.length ≤ 2 ^ 63 - 1) }
    ensures digits { IfOk result (λ s. all_digits s.stamp ≡ true) }
{
    let found = mandatory_values(text, spans)?;
    let length = length_of(found.length)?;
    let stamp = stamp_of(found.date)?;
    let kind = kind_of(found.kind);
    Ok(Said {
        kind,
        stamp,
        length,
    })
}
