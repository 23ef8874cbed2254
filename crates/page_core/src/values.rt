//! Values of a line as they stand.
ghost use Rattle.std.specs.Prelude.{◌≡◌, ◌++◌, flat_map, IfOk};
ghost use Rattle.page_core.specs.Rows.{row_value};

use cdxj_core::{Field, Line};
use std::alloc::AllocError;

/// Returns the text with the values of the fields behind it as they stand, and this text before
/// each. It is moved and not borrowed, so that its length need not be written to memory after each
/// value.
#[inline(always)]
pub(crate) fn with_later_values(
    text: Vec<u8>,
    between: &[u8],
    fields: &[Field],
    line: &Line,
) -> Result<Vec<u8>, AllocError>
    ensures { IfOk result (λ row. row.items
        ≡ text.items ++ flat_map (λ f. between.now ++ row_value line.now f) fields.now) }
{
    let mut row = text;
    for field in fields {
        row.extend_from_slice(between)?;
        row.extend_from_slice(line.values().value(*field).as_bytes())?;
    }
    Ok(row)
}
