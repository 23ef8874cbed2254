//! How often a field occurs in a head.
use crate::names::is_named;
use crate::spans::FieldSpan;

/// How often a field of a name occurs in a head, with its span where it occurs once.
#[derive(Clone, Copy)]
pub enum Occurrence {
    /// It doesn't occur.
    Never,
    /// It occurs once, at this span.
    Once(FieldSpan),
    /// It occurs more than once.
    Repeated,
}

impl Occurrence {
    ghost use Rattle.std.specs.Prelude.{◌≡◌, ◌<◌, ◌++◌, ℕ, List, [], ◌∷◌, length, nat_lt, not};
    ghost use Rattle.warc_head.specs.Mandatory.{Occurs, values_in};
    ghost use Rattle.warc_head.specs.Spans.{IsWithin, field_at};

    /// Counts the field at this span, if it has the wanted name.
    #[inline(always)]
    pub fn count<const N: usize>(&mut self, text: &[u8], wanted: &[u8; N], span: FieldSpan)
        requires { IsWithin (length text.now) span }
        ensures { (values : List (List ℕ)) → Occurs text.now values self.old
            → Occurs text.now (values ++ values_in wanted.now (field_at text.now span)) self.new }
    {
        if is_named(span.name(text), wanted) {
            *self = self.with_span(span);
        }
    }

    fn with_span(self, span: FieldSpan) -> Occurrence
        ensures { (text : List ℕ) (values : List (List ℕ)) → IsWithin (length text) span
            → Occurs text values self
            → Occurs text (values ++ (field_at text span).value ∷ []) result }
    {
        match self {
            Occurrence::Never => Occurrence::Once(span),
            _ => Occurrence::Repeated,
        }
    }

    /// Returns `true` if the field occurs.
    pub fn is_some(self) -> bool
        ensures { (text : List ℕ) (values : List (List ℕ)) → Occurs text values self → result
            ≡ nat_lt 0 (length values) }
    {
        !matches!(self, Occurrence::Never)
    }

    /// Returns `true` if the field occurs more than once.
    pub fn is_repeated(self) -> bool
        ensures { (text : List ℕ) (values : List (List ℕ)) → Occurs text values self → not result
            ≡ nat_lt (length values) 2 }
    {
        matches!(self, Occurrence::Repeated)
    }

    /// Returns the value of a field that occurs once.
    pub fn value(self, text: &[u8]) -> &[u8]
        requires { (values : List (List ℕ)) × Occurs text.now values self }
        ensures { (values : List (List ℕ)) → Occurs text.now values self → 0 < length values
            → length values < 2 → values ≡ result.now ∷ [] }
    {
        match self {
            Occurrence::Once(span) => span.value(text),
            _ => b"",
        }
    }
}
