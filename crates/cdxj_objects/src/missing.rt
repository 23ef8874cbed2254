//! The values of members that are missing.
ghost use Rattle.std.specs.Prelude.{◌≡◌};
ghost use Rattle.cdxj_objects.specs.Texts.{or_missing};

/// Returns the text, or `-` for an empty one.
#[inline(always)]
pub fn or_missing(text: &str) -> &str
    ensures { result.now ≡ or_missing text.now }
{
    if text.is_empty() { "-" } else { text }
}
