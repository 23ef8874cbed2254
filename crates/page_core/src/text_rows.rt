//! Rows of text pages.
ghost use Rattle.std.specs.Prelude.{◌≡◌, ◌∷◌, ◌++◌, codes, flat_map, Option, IfOk, IfSome};
ghost use Rattle.std.specs.Prelude.{option_map};
ghost use Rattle.std.specs.List.{join_by};
ghost use Rattle.cdxj_core.specs.declared.field.Field.{Field};
ghost use Rattle.page_core.specs.Rows.{row_value, escaped, text_row};
ghost use Rattle.page_core.specs.PageText.{key_lines};

use crate::escaping::push_escaped;
use crate::hidden::count_hidden;
use crate::values::with_later_values;
use cdxj_core::{Field, Line, LineRef, line_begins_with_its_pair};
use std::alloc::{AllocError, Global};
use std::mem;

// The value, escaped if it has hidden bytes.
#[tactic(auto, using(crate::proofs::HiddenLemmas::row_rules))]
fn push_value(text: &mut Vec<u8>, value: &str) -> Result<(), AllocError>
    ensures { IfOk result (λ _. text.new.items ≡ text.old.items ++ escaped value.now) }
{
    let start = text.len();
    text.extend_from_slice(value.as_bytes())?;
    if count_hidden(text, start)? > 0 {
        text.truncate(start);
        push_escaped(text, value)?;
    }
    Ok(())
}

// The values of the fields, with a space before each.
fn push_escaped_values(text: &mut Vec<u8>, fields: &[Field], line: &Line) -> Result<(), AllocError>
    ensures { IfOk result (λ _. text.new.items ≡ text.old.items
        ++ flat_map (λ f. codes " " ++ escaped (row_value line.now f)) fields.now) }
{
    for field in fields {
        text.extend_from_slice(b" ")?;
        push_escaped(text, line.values().value(*field))?;
    }
    Ok(())
}

// The same. The values are escaped if they have hidden bytes, so that there are more of these than
// the spaces before the values.
#[inline(never)]
#[tactic(auto, using(crate::proofs::HiddenLemmas::row_rules))]
fn push_later_values(
    text: &mut Vec<u8>,
    alloc: Global,
    fields: &[Field],
    line: &Line,
) -> Result<(), AllocError>
    ensures { IfOk result (λ _. text.new.items ≡ text.old.items
        ++ flat_map (λ f. codes " " ++ escaped (row_value line.now f)) fields.now) }
{
    let start = text.len();
    let row = mem::replace(text, Vec::new(alloc));
    *text = with_later_values(row, b" ", fields, line)?;
    if count_hidden(text, start)? > fields.len() {
        text.truncate(start);
        push_escaped_values(text, fields, line)?;
    }
    Ok(())
}

/// Returns the front of the line: its key, a space and its stamp, none of which has a hidden byte.
#[inline(always)]
#[tactic(auto, using(crate::proofs::PairFront::pair_front))]
fn pair_text<'a>(line: &LineRef<'a>) -> &'a [u8]
    ensures { result.now ≡ escaped (row_value line.now Field.Urlkey)
        ++ (codes " " ++ escaped (row_value line.now Field.Timestamp)) }
{
    // For the proof alone.
    line_begins_with_its_pair();
    let size = line.value(Field::Urlkey).len() + 1 + line.value(Field::Timestamp).len();
    &line.line()[..size]
}

/// Returns the fields behind those of the front of a line, if these are the first.
#[inline(always)]
fn fields_after_pair(fields: &[Field]) -> Option<&[Field]>
    ensures { IfSome result
        (λ later. fields.now ≡ Field.Urlkey ∷ Field.Timestamp ∷ later.now) }
{
    let (Field::Urlkey, after_key) = fields.split_first()? else {
        return None;
    };
    match after_key.split_first()? {
        (Field::Timestamp, later) => Some(later),
        _ => None,
    }
}

// The value of the first field, or the values of the first two if these are the front of a line.
// Returns the other fields.
#[inline(always)]
#[tactic(auto, using(std::proofs::Common::append_assoc))]
fn push_front<'f>(
    text: &mut Vec<u8>,
    fields: &'f [Field],
    line: &Line,
) -> Result<&'f [Field], AllocError>
    ensures { IfOk result (λ later. text.new.items
        ++ flat_map (λ f. codes " " ++ escaped (row_value line.now f)) later.now
        ≡ text.old.items
        ++ join_by (λ f. escaped (row_value line.now f)) (codes " ") fields.entry.now) }
{
    if let Some(later) = fields_after_pair(fields) {
        text.extend_from_slice(pair_text(&line.values()))?;
        return Ok(later);
    }
    let Some((first, later)) = fields.split_first() else {
        return Ok(fields);
    };
    push_value(text, line.values().value(*first))?;
    Ok(later)
}

// The values of the fields, with one space between.
fn push_values(
    text: &mut Vec<u8>,
    alloc: Global,
    fields: &[Field],
    line: &Line,
) -> Result<(), AllocError>
    ensures { IfOk result (λ _. text.new.items ≡ text.old.items
        ++ join_by (λ f. escaped (row_value line.now f)) (codes " ") fields.now) }
{
    let later = push_front(text, fields, line)?;
    push_later_values(text, alloc, later, line)
}

/// Appends the values of the fields to the text, separated by one space, and a line feed.
#[tactic(auto, using(std::proofs::Common::append_assoc))]
pub(crate) fn push_text_row(
    text: &mut Vec<u8>,
    alloc: Global,
    fields: &[Field],
    line: &Line,
) -> Result<(), AllocError>
    ensures { IfOk result (λ _. text.new.items ≡ text.old.items ++ text_row fields.now line.now) }
{
    push_values(text, alloc, fields, line)?;
    text.extend_from_slice(b"\n")?;
    Ok(())
}

/// Appends an empty line and the resume key to the text, if there is a key.
pub(crate) fn push_key_lines(text: &mut Vec<u8>, key: Option<&str>) -> Result<(), AllocError>
    ensures { IfOk result (λ _. text.new.items
        ≡ text.old.items ++ key_lines (option_map (λ k. k.now) key.entry)) }
{
    if let Some(key) = key {
        text.extend_from_slice(b"\n")?;
        text.extend_from_slice(key.as_bytes())?;
        text.extend_from_slice(b"\n")?;
    }
    Ok(())
}
