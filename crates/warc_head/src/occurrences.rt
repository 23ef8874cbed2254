//! How often the mandatory fields occur in a head.
ghost use Rattle.std.specs.Prelude.{length, All};
ghost use Rattle.warc_head.specs.Mandatory.{AllOccur};
ghost use Rattle.warc_head.specs.Spans.{IsWithin, fields_at};

use crate::occurrence::Occurrence;
use crate::spans::FieldSpan;

/// How often each mandatory field occurs.
#[derive(Clone, Copy)]
pub struct Occurrences {
    /// That of `WARC-Record-ID`.
    pub record_id: Occurrence,
    /// That of `Content-Length`.
    pub length: Occurrence,
    /// That of `WARC-Date`.
    pub date: Occurrence,
    /// That of `WARC-Type`.
    pub kind: Occurrence,
}

impl Occurrences {
    ghost use Rattle.std.specs.Prelude.{◌≡◌, ℕ, List, [], ◌∷◌, ◌++◌, length};
    ghost use Rattle.warc_head.specs.Fields.{Field};
    ghost use Rattle.warc_head.specs.Mandatory.{AllOccur, mandatory, none_missing, none_repeated};
    ghost use Rattle.warc_head.specs.Spans.{IsWithin, field_at};

    fn none() -> Occurrences
        ensures { (text : List ℕ) → AllOccur text [] result }
    {
        Occurrences {
            record_id: Occurrence::Never,
            length: Occurrence::Never,
            date: Occurrence::Never,
            kind: Occurrence::Never,
        }
    }

    /// Counts the field at this span. Only names of the length of its own are compared with it.
    fn count(&mut self, text: &[u8], span: FieldSpan)
        requires { IsWithin (length text.now) span }
        ensures { (fields : List Field) → AllOccur text.now fields self.old
            → AllOccur text.now (fields ++ field_at text.now span ∷ []) self.new }
    {
        let size = span.name(text).len();
        if size == 9 {
            self.date.count(text, b"WARC-Date", span);
            self.kind.count(text, b"WARC-Type", span);
        } else if size == 14 {
            self.record_id.count(text, b"WARC-Record-ID", span);
            self.length.count(text, b"Content-Length", span);
        }
    }

    /// Returns `true` if each mandatory field occurs.
    pub fn none_missing(self) -> bool
        ensures { (text : List ℕ) (fields : List Field) → AllOccur text fields self → result
            ≡ none_missing mandatory fields }
    {
        self.record_id.is_some() & self.length.is_some() & self.date.is_some() & self.kind.is_some()
    }

    /// Returns `true` if no mandatory field occurs twice.
    pub fn none_repeated(self) -> bool
        ensures { (text : List ℕ) (fields : List Field) → AllOccur text fields self → result
            ≡ none_repeated mandatory fields }
    {
        !self.record_id.is_repeated()
            & !self.length.is_repeated()
            & !self.date.is_repeated()
            & !self.kind.is_repeated()
    }
}

/// Returns how often each mandatory field occurs among the fields at these spans.
pub fn occurrences_in(text: &[u8], spans: &[FieldSpan]) -> Occurrences
    requires { All (IsWithin (length text.now)) spans.now }
    ensures { AllOccur text.now (fields_at text.now spans.now) result }
{
    let mut found = Occurrences::none();
    for span in spans {
        found.count(text, *span);
    }
    found
}
