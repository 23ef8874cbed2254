//! Lines that continue the field before them.
ghost use Rattle.std.specs.Prelude.{◌≡◌, ◌⊎◌, ◌≤◌, ◌++◌, List, [], ◌∷◌, length, drop, All, OnOk, IfOk, IfErr};
ghost use Rattle.warc_head.specs.declared.fault.HeadFault.TheVariants.{FieldLine, Memory};
ghost use Rattle.warc_head.specs.Fields.{Field, longer};
ghost use Rattle.warc_head.specs.Lines.{trim};
ghost use Rattle.warc_head.specs.Spans.{Continues, IsWithin, between, field_at, fields_at, joint};

use crate::fault::HeadFault;
use crate::lines::trimmed;
use crate::spans::FieldSpan;
use std::alloc::AllocError;

/// Appends the line between two offsets, without the white space at its ends, to the value of the last field. The value
/// is moved to the end of the text first. The error is `FieldLine` if there is no field.
pub fn continue_field(
    text: &mut Vec<u8>,
    spans: &mut Vec<FieldSpan>,
    from: usize,
    to: usize,
) -> Result<(), HeadFault>
    requires order { from ≤ to }
    requires line { to ≤ length text.old.items }
    requires spans { All (IsWithin (length text.old.items)) spans.old.items }
    ensures text { OnOk result (Continues text.old.items text.new.items) }
    ensures within { OnOk result (All (IsWithin (length text.new.items)) spans.new.items) }
    ensures fields { OnOk result ((before : List Field) × (last : Field)
        × (fields_at text.old.items spans.old.items ≡ before ++ last ∷ [])
        × (fields_at text.new.items spans.new.items
        ≡ before ++ longer last (trim (between from to text.old.items)) ∷ [])) }
    ensures err { IfErr result (λ e. (e ≡ Memory) ⊎ ((e ≡ FieldLine) × (spans.old.items ≡ []))) }
{
    let Some(last) = spans.pop() else {
        return Err(HeadFault::FieldLine);
    };
    let (start, end) = trimmed(text, from, to);
    let value_start = value_at_end(text, last)?;
    join(text, value_start, start, end)?;
    spans.push(FieldSpan {
        value_start,
        value_end: text.len(),
        ..last
    })?;
    Ok(())
}

/// Copies the value at a span to the end of the text, if it doesn't stand there yet. Returns the offset at which it
/// begins there.
fn value_at_end(text: &mut Vec<u8>, span: FieldSpan) -> Result<usize, AllocError>
    requires { IsWithin (length text.old.items) span }
    ensures text { OnOk result (Continues text.old.items text.new.items) }
    ensures within { IfOk result (λ start. start ≤ length text.new.items) }
    ensures value { IfOk result (λ start. drop start text.new.items ≡
        (field_at text.old.items span).value) }
{
    if span.value_end == text.len() {
        return Ok(span.value_start);
    }
    let start = text.len();
    text.extend_from_within(span.value_start..span.value_end)?;
    Ok(start)
}

/// Appends the piece between two offsets to a text that ends with a value, which begins at this offset.
#[tactic(auto, using(crate::proofs::SpanLemmas::longer_rules))]
fn join(text: &mut Vec<u8>, value: usize, start: usize, end: usize) -> Result<(), AllocError>
    requires value { value ≤ length text.old.items }
    requires order { start ≤ end }
    requires piece { end ≤ length text.old.items }
    ensures { OnOk result (text.new.items
        ≡ text.old.items ++ joint (drop value text.old.items) (between start end text.old.items)) }
{
    let space = space_between(&text[value..], &text[start..end]);
    text.extend_from_slice(space)?;
    text.extend_from_within(start..end)?;
    Ok(())
}

/// Returns a space, or nothing if one of both is empty.
fn space_between(value: &[u8], piece: &[u8]) -> &'static [u8]
    ensures { result.now ++ piece.now ≡ joint value.now piece.now }
{
    if value.is_empty() || piece.is_empty() {
        b""
    } else {
        b" "
    }
}
