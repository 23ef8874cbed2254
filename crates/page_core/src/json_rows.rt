//! Rows of JSON pages.
ghost use Rattle.std.specs.Prelude.{◌≡◌, ◌++◌, codes, map, flat_map, IfOk, option_map};
ghost use Rattle.json.specs.Print.{quoted};
ghost use Rattle.std.specs.List.{join_by};
ghost use Rattle.cdxj_core.specs.Fields.{field_name};
ghost use Rattle.page_core.specs.Rows.{row_value, json_row, between_quotes};
ghost use Rattle.page_core.specs.PageText.{key_rows, later_row};

use crate::values::with_later_values;
use cdxj_core::{Field, Line, LineRef, field_name, push_quoted};
use std::alloc::{AllocError, Global};
use std::mem;

fn push_later_quoted(text: &mut Vec<u8>, alloc: Global, value: &str) -> Result<(), AllocError>
    ensures { IfOk result (λ _. text.new.items
        ≡ text.old.items ++ (codes "," ++ quoted value.now)) }
{
    text.extend_from_slice(b",")?;
    push_quoted(text, alloc, value)
}

/// Appends a row of the names of the fields to the text.
pub(crate) fn push_names(
    text: &mut Vec<u8>,
    alloc: Global,
    fields: &[Field],
) -> Result<(), AllocError>
    ensures { IfOk result (λ _. text.new.items
        ≡ text.old.items ++ json_row (map field_name fields.now)) }
{
    text.extend_from_slice(b"[")?;
    if let Some((first, later)) = fields.split_first() {
        push_quoted(text, alloc, field_name(*first))?;
        for field in later {
            push_later_quoted(text, alloc, field_name(*field))?;
        }
    }
    text.extend_from_slice(b"]")?;
    Ok(())
}

// The values of the fields, with a comma between.
fn push_quoted_values(
    text: &mut Vec<u8>,
    alloc: Global,
    fields: &[Field],
    line: &LineRef<'_>,
) -> Result<(), AllocError>
    ensures { IfOk result (λ _. text.new.items
        ≡ text.old.items ++ join_by quoted (codes ",") (map (row_value line.now) fields.now)) }
{
    if let Some((first, later)) = fields.split_first() {
        push_quoted(text, alloc, line.value(*first))?;
        for field in later {
            push_later_quoted(text, alloc, line.value(*field))?;
        }
    }
    Ok(())
}

// The values of the fields as they stand, each between quotes, with a comma between.
#[tactic(auto, using(crate::proofs::JsonLemmas::between_each, std::proofs::Common::append_assoc))]
fn push_plain_values(
    text: &mut Vec<u8>,
    alloc: Global,
    fields: &[Field],
    line: &Line,
) -> Result<(), AllocError>
    ensures { IfOk result (λ _. text.new.items
        ≡ text.old.items
        ++ join_by between_quotes (codes ",") (map (row_value line.now) fields.now)) }
{
    if let Some((first, later)) = fields.split_first() {
        text.extend_from_slice(b"\"")?;
        text.extend_from_slice(line.values().value(*first).as_bytes())?;
        let row = mem::replace(text, Vec::new(alloc));
        *text = with_later_values(row, b"\",\"", later, line)?;
        text.extend_from_slice(b"\"")?;
    }
    Ok(())
}

/// Appends a further row of the array to the text, with the values of the fields.
#[tactic(auto, using(crate::proofs::JsonLemmas::values_plain, std::proofs::Common::append_assoc))]
pub(crate) fn push_json_row(
    text: &mut Vec<u8>,
    alloc: Global,
    fields: &[Field],
    line: &Line,
) -> Result<(), AllocError>
    ensures { IfOk result (λ _. text.new.items
        ≡ text.old.items ++ later_row (map (row_value line.now) fields.now)) }
{
    text.extend_from_slice(b",\n[")?;
    if line.values().needs_no_escapes() {
        push_plain_values(text, alloc, fields, line)?;
    } else {
        push_quoted_values(text, alloc, fields, &line.values())?;
    }
    text.extend_from_slice(b"]")?;
    Ok(())
}

/// Appends the rows of the resume key to the text, if there is a key, and the end of the array.
pub(crate) fn push_json_end(
    text: &mut Vec<u8>,
    alloc: Global,
    key: Option<&str>,
) -> Result<(), AllocError>
    ensures { IfOk result (λ _. text.new.items ≡ text.old.items
        ++ (flat_map later_row (key_rows (option_map (λ k. k.now) key.entry)) ++ codes "]\n")) }
{
    if let Some(key) = key {
        text.extend_from_slice(b",\n[],\n[")?;
        push_quoted(text, alloc, key)?;
        text.extend_from_slice(b"]")?;
    }
    text.extend_from_slice(b"]\n")?;
    Ok(())
}
