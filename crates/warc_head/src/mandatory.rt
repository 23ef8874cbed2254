//! The mandatory fields of a record.
ghost use Rattle.std.specs.Prelude.{◌≡◌, Ok, Err, IfOk, IfErr, All, codes, length};
ghost use Rattle.warc_head.specs.Mandatory.{each_once, required};
ghost use Rattle.warc_head.specs.Spans.{IsWithin, fields_at};

use crate::fault::HeadFault;
use crate::occurrences::occurrences_in;
use crate::spans::FieldSpan;

/// The values of the mandatory fields, but for the record's identifier.
#[derive(Clone, Copy)]
pub struct Mandatory<'a> {
    /// The value of `Content-Length`.
    pub length: &'a [u8],
    /// The value of `WARC-Date`.
    pub date: &'a [u8],
    /// The value of `WARC-Type`.
    pub kind: &'a [u8],
}

/// Returns the values of the mandatory fields. Each must occur exactly once. The errors are `Missing` and, if none is
/// missing, `Repeated`.
#[tactic(auto, unfolding(crate::specs::Mandatory::each_once))]
pub fn mandatory_values<'a>(text: &'a [u8], spans: &[FieldSpan]) -> Result<Mandatory<'a>, HeadFault>
    requires { All (IsWithin (length text.now)) spans.now }
    ensures once { IfOk result (λ _. each_once (fields_at text.now spans.now) ≡ Ok tt) }
    ensures length { IfOk result (λ m. required (codes "Content-Length")
        (fields_at text.now spans.now) ≡ Ok m.length.now) }
    ensures date { IfOk result (λ m. required (codes "WARC-Date") (fields_at text.now spans.now)
        ≡ Ok m.date.now) }
    ensures kind { IfOk result (λ m. required (codes "WARC-Type") (fields_at text.now spans.now)
        ≡ Ok m.kind.now) }
    ensures err { IfErr result (λ e. each_once (fields_at text.now spans.now) ≡ Err e) }
{
    let found = occurrences_in(text, spans);
    if !found.none_missing() {
        return Err(HeadFault::Missing);
    }
    if !found.none_repeated() {
        return Err(HeadFault::Repeated);
    }
    Ok(Mandatory {
        length: found.length.value(text),
        date: found.date.value(text),
        kind: found.kind.value(text),
    })
}
