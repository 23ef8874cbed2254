//! Where fields stand in a text.
ghost use Rattle.std.specs.Prelude.{◌≡◌, length, All, MatchOption, None, Some};
ghost use Rattle.warc_head.specs.Fields.{value_of};
ghost use Rattle.warc_head.specs.Spans.{IsWithin, fields_at};

use crate::names::same_name;

/// Where a field stands in a text, as offsets in bytes from the text's start.
#[derive(Clone, Copy)]
pub struct FieldSpan {
    /// The start of the name.
    pub name_start: usize,
    /// The end of the name.
    pub name_end: usize,
    /// The start of the value.
    pub value_start: usize,
    /// The end of the value.
    pub value_end: usize,
}

impl FieldSpan {
    ghost use Rattle.std.specs.Prelude.{◌≡◌, ◌+◌, ◌<◌, ◌^◌, length};
    ghost use Rattle.warc_head.specs.Spans.{IsWithin, field_at, moved};

    /// Returns the span in a text that begins `offset` bytes earlier.
    pub fn moved(self, offset: usize) -> FieldSpan
        requires ordered { IsWithin self.value_end self }
        requires fits { offset + self.value_end < 2 ^ 64 }
        ensures { result ≡ moved offset self }
    {
        FieldSpan {
            name_start: offset + self.name_start,
            name_end: offset + self.name_end,
            value_start: offset + self.value_start,
            value_end: offset + self.value_end,
        }
    }

    /// Returns the field's name in its text.
    pub fn name(self, text: &[u8]) -> &[u8]
        requires { IsWithin (length text.now) self }
        ensures { result.now ≡ (field_at text.now self).name }
    {
        &text[self.name_start..self.name_end]
    }

    /// Returns the field's value in its text.
    pub fn value(self, text: &[u8]) -> &[u8]
        requires { IsWithin (length text.now) self }
        ensures { result.now ≡ (field_at text.now self).value }
    {
        &text[self.value_start..self.value_end]
    }
}

/// Returns the value of the first field of this name.
#[tactic(auto, unfolding(crate::specs::Fields::value_of))]
pub fn value_of<'a>(text: &'a [u8], spans: &[FieldSpan], name: &[u8]) -> Option<&'a [u8]>
    requires { All (IsWithin (length text.now)) spans.now }
    ensures { MatchOption result
        (value_of name.now (fields_at text.now spans.now) ≡ None)
        (λ v. value_of name.now (fields_at text.now spans.now) ≡ Some v.now) }
{
    let mut rest = spans;
    while let Some((first, later)) = rest.split_first() {
        if same_name(first.name(text), name) {
            return Some(first.value(text));
        }
        rest = later;
    }
    None
}
